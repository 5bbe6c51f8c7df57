//! Which nets' metal may lie somewhere.

ghost use Rattle.std.specs.Prelude.{◌↔◌, ℕ, IsTrue};
ghost use Rattle.leg_wire_spacing.specs.Access.{Admits, alone};
ghost use Rattle.leg_rules.specs.Spacing.Clean.{IsClean};

use crate::closer::are_close;
use crate::spacing::greatest_spacing_on;
use leg_geom::Rect;
use leg_lib_records::Library;
use leg_rules::{Owner, Shape};
use std::alloc::Allocator;

/// Which nets' metal may lie somewhere.
#[derive(Clone, Copy, PartialEq, Eq, Debug)]
pub enum Access {
    /// Metal of each net.
    Free,
    /// Metal of the net of this number alone.
    Only(u32),
    /// Metal of no net.
    Blocked,
}

impl Access {
    /// Whether metal of this net is admitted.
    pub fn admits(self, net: u32) -> bool
        ensures { IsTrue result ↔ Admits self net }
    {
        match self {
            Access::Free => true,
            Access::Only(owner) => net == owner,
            Access::Blocked => false,
        }
    }

    /// What both admit.
    pub fn and(self, other: Access) -> Access
        ensures { (net : ℕ) → Admits result net ↔ (Admits self net × Admits other net) }
    {
        match self {
            Access::Free => other,
            Access::Only(owner) if other.admits(owner) => self,
            Access::Only(_) | Access::Blocked => Access::Blocked,
        }
    }
}

/// Which nets' metal may lie there beside this shape: a rectangle, which is on this layer, where it would be metal of a net.
pub fn access_beside<A: Allocator + Copy>(
    library: &Library<'_, A>,
    shape: &Shape,
    layer: usize,
    rect: &Rect,
) -> Access
    ensures { (net : ℕ) → Admits result net ↔ IsClean library.now (alone shape.now) net layer rect.now }
{
    let spacing = greatest_spacing_on(library, layer);
    if layer != shape.layer || !are_close(spacing, rect, &shape.rect) {
        return Access::Free;
    }
    match shape.owner {
        Owner::Net(net) => Access::Only(net),
        _ => Access::Blocked,
    }
}
