//! The limits of grids (lefdef's own rule).

/// The tracks of a design, all statements taken together, are at most this many, and so are the routing layers times the
/// x values times the y values of its grid.
///
/// `Grid::new_within` makes a grid by another limit.
pub const GRID_LIMIT: u64 = 4_194_304;

/// The greatest limit by which a grid is made: no grid has more slots than this.
pub const GREATEST_GRID: u64 = 16_777_216;
