//! That macros have sizes, as their type states.

ghost use Rattle.std.specs.Prelude.{All};
ghost use Rattle.leg_lib_records.specs.Measure.{IsExtent};

use leg_lib_records::Master;
use std::alloc::Allocator;

/// Each of the macros has a width and a height. It does nothing: of a size that is read it is known.
pub(crate) fn macros_have_sizes<A: Allocator>(masters: &[Master<'_, A>])
    ensures { All (λ master. IsExtent master.size) masters.now }
{
    for master in masters {
        let _width = master.size.width();
    }
}
