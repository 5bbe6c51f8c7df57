//! The lattice on which nets are routed, as its caller has it.

ghost use Rattle.std.specs.Prelude.{◌≡◌, ◌<◌, length};
ghost use Rattle.leg_finish_search.specs.Point.{IsPointOf};

use leg_lib_records::Direction;

/// A point of a lattice, by the numbers of its level, bottom up, of its y value and of its x value.
#[derive(Clone, Copy, PartialEq, Eq, Debug)]
pub struct GridPoint {
    pub level: usize,
    pub row: usize,
    pub column: usize,
}

/// Nodes in the points of a lattice of levels, y values and x values, each of which has a number, its slot, and the steps from one to the
/// next: along the direction of the level, to the next x or y value, and by a via to the next level. Each is open to some nets.
///
/// Slots are counted by level, row and column, so that one more step along x is one slot further, one along y as many as there are x
/// values, and one up as many as a level has.
pub trait Lattice {
    ghost use Rattle.std.specs.Prelude.{ℕ, ℤ, List};

    ghost size_of: { Self → ℕ };

    ghost levels_of: { Self → ℕ };

    ghost xs_of: { Self → List ℤ };

    ghost ys_of: { Self → List ℤ };

    /// How many slots there are.
    fn size(&self) -> u32
        ensures { result ≡ size_of self.now };

    /// How many levels there are.
    fn levels(&self) -> usize
        ensures { result ≡ levels_of self.now };

    /// The x values, in increasing order, in database units.
    fn xs(&self) -> &[i64]
        ensures { result.now ≡ xs_of self.now };

    /// The y values, in increasing order, in database units.
    fn ys(&self) -> &[i64]
        ensures { result.now ≡ ys_of self.now };

    /// The direction of the level.
    fn direction(&self, level: usize) -> Direction
        requires { level < levels_of self.now };

    /// The point of the slot.
    fn point(&self, slot: u32) -> GridPoint
        requires { slot < size_of self.now }
        ensures { IsPointOf (levels_of self.now) (length (ys_of self.now)) (length (xs_of self.now)) result };

    /// The slot of the point.
    fn slot(&self, point: GridPoint) -> u32
        requires { IsPointOf (levels_of self.now) (length (ys_of self.now)) (length (xs_of self.now)) point }
        ensures { result < size_of self.now };

    /// Whether the slot has a node that is open to the net.
    fn is_open_node(&self, slot: u32, net: u32) -> bool
        requires { slot < size_of self.now };

    /// Whether the step from the slot along its level's direction, to the next x or y value, is there and open to the net.
    fn is_open_along(&self, slot: u32, net: u32) -> bool
        requires { slot < size_of self.now };

    /// Whether the step up from the slot is there and open to the net.
    fn is_open_above(&self, slot: u32, net: u32) -> bool
        requires { slot < size_of self.now };
}
