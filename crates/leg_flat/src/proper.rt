//! That every library is proper, as the types of its parts state. Each function only reads: of a rectangle that is read it is
//! known that it has area.

ghost use Rattle.std.specs.Prelude.{All};
ghost use Rattle.leg_flat.specs.ProperLibrary.{AreProperShapes, IsProperMaster, IsProperLibrary};

use leg_lib_records::{Library, Master, MasterPin, Shape, Via};
use std::alloc::Allocator;

/// Each of the shapes has area.
fn shapes_are_proper(shapes: &[Shape])
    ensures { AreProperShapes shapes.now }
{
    for shape in shapes {
        let _left = shape.rect.x1();
    }
}

/// Pins of a macro: their shapes have area.
fn pins_are_proper<A: Allocator>(pins: &[MasterPin<'_, A>])
    ensures { All (λ pin. AreProperShapes pin.shapes) pins.now }
{
    for pin in pins {
        shapes_are_proper(pin.shapes.as_slice());
    }
}

/// A macro is proper.
fn master_is_proper<A: Allocator>(master: &Master<'_, A>)
    ensures { IsProperMaster master.now }
{
    let _width = master.size.width();
    pins_are_proper(master.pins.as_slice());
    shapes_are_proper(master.obstructions.as_slice());
}

/// Macros are proper.
fn masters_are_proper<A: Allocator>(masters: &[Master<'_, A>])
    ensures { All IsProperMaster masters.now }
{
    for master in masters {
        master_is_proper(master);
    }
}

/// Vias: their shapes have area.
fn vias_are_proper<A: Allocator>(vias: &[Via<'_, A>])
    ensures { All (λ via. AreProperShapes via.shapes) vias.now }
{
    for via in vias {
        shapes_are_proper(via.shapes.as_slice());
    }
}

/// A library is proper.
pub(crate) fn library_is_proper<A: Allocator + Copy>(library: &Library<'_, A>)
    ensures { IsProperLibrary library.now }
{
    masters_are_proper(library.masters());
    vias_are_proper(library.vias());
}
