//! What texts, numbers and forms of words denote, and where points and rectangles lie: tests of `leg_lex` and `leg_geom` by values.
#![tactic(auto)]

#[cfg(test)]
mod tests;
