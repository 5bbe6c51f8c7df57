//! Generated vias (LEF/DEF 5.8, "Vias", "Via").

use leg_geom::Point;

/// A generated via has at most this many rows, as many columns, and rows times columns (lefdef's own rule).
pub const CUT_LIMIT: u64 = 10_000;

/// How the numbers of a generated via are written, and in which unit they are.
#[derive(Clone, Copy, PartialEq, Eq, Debug)]
pub enum ViaNumbers {
    /// Whole numbers, in database units.
    Units,
    /// Lengths in microns, in millionths of a micron.
    Microns,
}

/// The layers of a generated via, by their numbers.
#[derive(Clone, Copy)]
pub struct ViaLayers {
    /// The layer of the lower plate.
    pub low: usize,
    /// The layer of the cuts.
    pub cut: usize,
    /// The layer of the upper plate.
    pub high: usize,
}

/// A plate of metal below or above the cuts.
#[derive(Clone, Copy)]
pub struct Plate {
    /// Its layer, by its number.
    pub layer: usize,
    /// How far it reaches beyond the array of cuts, along x on either side and along y on either side.
    pub reach: Point,
    /// By how much it is moved.
    pub shift: Point,
}

/// Cuts in rows and columns.
#[derive(Clone, Copy)]
pub struct CutArray {
    /// Their layer, by its number.
    pub layer: usize,
    /// The middle of the array.
    pub middle: Point,
    /// The width and the height of a cut.
    pub cut: Point,
    /// The space between columns, and that between rows.
    pub gap: Point,
    /// How many rows there are.
    pub rows: u16,
    /// How many columns there are.
    pub columns: u16,
}

/// A generated via.
#[derive(Clone, Copy)]
pub struct GeneratedVia {
    /// The plate below the cuts.
    pub low: Plate,
    /// The cuts.
    pub cuts: CutArray,
    /// The plate above the cuts.
    pub high: Plate,
}
