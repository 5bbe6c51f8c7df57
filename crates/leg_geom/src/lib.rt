//! Points and rectangles of the plane, in database units.
#![tactic(auto)]

pub mod laws;
mod limits;
mod line;
mod orient;
mod place;
mod point;
mod rect;
mod span;

pub use limits::COORDINATE_LIMIT;
pub use line::places_within;
pub use orient::Orient;
pub use place::Place;
pub use point::Point;
pub use rect::Rect;
