//! The slabs of polygons: tests of `leg_polygon` by values.
#![tactic(auto)]

#[cfg(test)]
mod shapes;
#[cfg(test)]
mod tests;
