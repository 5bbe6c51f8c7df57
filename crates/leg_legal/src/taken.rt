//! Places that components take.

ghost use Rattle.std.specs.Prelude.{◌≡◌, All};
ghost use Rattle.leg_legal.specs.Steps.AfterPlaces.{CanTake, placed_all};

use leg_design_records::Design;
use leg_geom::Place;
use std::alloc::Allocator;

/// A component and the place that it takes.
#[derive(Clone, Copy)]
pub(crate) struct Taken {
    /// The component, by number.
    pub number: u32,
    /// The place.
    pub place: Place,
}

/// The design in which these components, one after the other, are `PLACED` at their places. Takes no memory.
pub(crate) fn with_places<'a, A: Allocator + Copy>(
    mut design: Design<'a, A>,
    taken: &[Taken],
) -> Design<'a, A>
    requires { All (CanTake design) taken.now }
    ensures { result ≡ placed_all design.entry taken.now }
{
    for each in taken {
        design = design.with_place(each.number, each.place);
    }
    design
}
