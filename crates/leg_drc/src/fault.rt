//! Violations of the rules that the layers of a LEF state beside spacing.

/// What is wrong with a design by the rules of its layers beside what `check` lists (lefdef's own rules). Shapes, nets and pieces are
/// given by their numbers, from 0; of two shapes the lower number comes first.
#[derive(Clone, Copy, PartialEq, Eq, Debug)]
pub enum DrcFault {
    /// Of the net, which is in `SPECIALNETS` alone, the piece has metal that isn't joined to the first piece that has metal.
    Supply(u32, u32),
    /// The segment is narrower than the least width of its layer.
    MinWidth(u32),
    /// The two shapes, of different owners, are nearer than the spacing table of their layer asks for, and as far apart as its spacing.
    Table(u32, u32),
    /// The two cuts, of one net, are nearer than their layer's spacing within a net.
    CutNear(u32, u32),
    /// The shape, which is of a wire, has a side off the manufacturing grid.
    OffGrid(u32),
    /// The shape, which is of a wire, reaches out of the die.
    OutDie(u32),
}
