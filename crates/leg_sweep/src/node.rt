//! Nodes of an index: rectangles, and groups of them with bounds around each.

ghost use Rattle.std.specs.Prelude.{◌≡◌};
ghost use Rattle.leg_sweep.specs.Steps.Nodes.{members_of};

use crate::bounds::Bounds;

/// A rectangle of the index, or what encloses a group of nodes that follow it.
#[derive(Clone, Copy)]
pub(crate) struct Node {
    pub(crate) bounds: Bounds,
    pub(crate) content: Content,
}

/// What a node represents.
#[derive(Clone, Copy)]
pub(crate) enum Content {
    /// A group: this many of the nodes after it lie within its bounds.
    Group(u32),
    /// A rectangle of the index, by its number.
    Rect(u32),
}

impl Node {
    /// How many nodes after it can be passed over where its bounds are far.
    pub(crate) fn members(&self) -> usize
        ensures { result ≡ members_of self.now.content }
    {
        match self.content {
            Content::Group(members) => members as usize,
            Content::Rect(_number) => 0,
        }
    }
}
