//! Which components may be moved.

ghost use Rattle.std.specs.Prelude.{◌↔◌, IsTrue};
ghost use Rattle.leg_design_records.specs.Movable.{MayMove, IsMovable};

use crate::design::Design;
use crate::records::Status;
use std::alloc::Allocator;

/// Whether a component of this status may be moved.
pub fn may_move(status: Status) -> bool
    ensures { IsTrue result ↔ MayMove status }
{
    match status {
        Status::Unplaced => true,
        Status::Placed => true,
        Status::Fixed => false,
        Status::Cover => false,
    }
}

impl<'a, A: Allocator + Copy> Design<'a, A> {
    /// Whether the component of this number, if there is one, is movable (own rule): its status is `UNPLACED` or `PLACED`, and
    /// its macro has a `SITE`.
    pub fn is_movable(&self, component: usize) -> bool
        ensures { IsTrue result ↔ IsMovable self.now component }
    {
        if component >= self.components().len() {
            return false;
        }
        let chosen = &self.components()[component];
        if !may_move(chosen.status) {
            return false;
        }
        let master = &self.library().masters()[chosen.master];
        master.site.is_some()
    }
}
