//! The rules that texts state, against values that were written down by hand.

mod faults;
mod forms;
mod frame;
mod sections;
mod tables;
mod units;
