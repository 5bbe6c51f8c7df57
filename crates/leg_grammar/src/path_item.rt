//! Items of paths (LEF/DEF 5.8, "Regular Wiring Statement", "Special Wiring Statement").

use crate::coordinate::Coordinate;
use crate::via_array::ViaArray;
use leg_geom::Rect;

/// An item of a path.
#[derive(Clone, Copy)]
pub enum Item {
    /// To a point, with an extension where one is written. A coordinate that isn't written is that of the
    /// point before.
    ToPoint {
        x: Option<Coordinate>,
        y: Option<Coordinate>,
        extension: Option<i64>,
    },
    /// To a point to which no metal leads. A coordinate that isn't written is that of the point before.
    ToVirtual {
        x: Option<Coordinate>,
        y: Option<Coordinate>,
    },
    /// A via, by its number.
    AtVia(usize),
    /// An array of the via of this number.
    AtArray(usize, ViaArray),
    /// A rectangle, given from the point.
    AtRect(Rect),
}
