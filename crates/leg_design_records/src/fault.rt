//! Violations.

/// What is not legal about a design (lefdef's own rules). Components, shapes, nets and pieces are given by their
/// numbers, from 0; of two, the lower number comes first.
#[derive(Clone, Copy, PartialEq, Eq, Debug)]
pub enum Fault {
    /// The component has no place.
    Unplaced(u32),
    /// A unit square of the component lies outside the die.
    Outside(u32),
    /// The component is not on consecutive sites of a row that its orientation fits.
    OffSite(u32),
    /// The two components share a unit square.
    Overlap(u32, u32),
    /// The component may be moved, and shares a unit square with a rectangle of a placement blockage.
    Blocked(u32),
    /// The two shapes, of different owners, share a point.
    Short(u32, u32),
    /// The two shapes, of different owners, are nearer than their layer's spacing.
    TooNear(u32, u32),
    /// Of the net, the piece isn't joined to the first one.
    OpenNet(u32, u32),
}
