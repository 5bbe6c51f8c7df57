//! What no clause states, by values from outside.

mod forms;
mod numbers;
mod plane;
mod texts;
