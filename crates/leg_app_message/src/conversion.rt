//! Lengths of a LEF that are converted to the DEF's units.

ghost use Rattle.std.specs.Prelude.{◌≡◌, ◌⊎◌, Contains, IsTrue};
ghost use Rattle.leg_lib_records.specs.declared.raw.RawLayer.{RawLayer};
ghost use Rattle.leg_lib_records.specs.declared.raw.RawSite.{RawSite};
ghost use Rattle.leg_lib_records.specs.Records.{RawViaModel, RawMasterModel};
ghost use Rattle.leg_app_message.specs.Conversion.{begins_lengths, begins_of_layer, HasLength, IsOfLibrary, IsLengthOfMacro, IsOfLayer, IsOfMacro, IsOfPins, IsOfPoint, IsOfRect, IsOfSize, IsSide, IsWidth};

use leg_lex::{is_keyword, micron};
use leg_lib_records::{
    RawExtent, RawKind, RawLayer, RawLibrary, RawMaster, RawPin, RawPoint, RawRect, RawShape,
    ScaleKind,
};
use std::alloc::Allocator;

/// Whether lengths that may have such a fault come after the word in a form that begins with the first one.
pub(crate) fn begins_lengths(kind: ScaleKind, form: &[u8], word: &[u8]) -> bool
    ensures { result ≡ begins_lengths kind form.now word.now }
{
    if is_keyword(b"LAYER", form) {
        begins_of_layer(kind, word)
    } else if is_keyword(b"SITE", form) {
        is_keyword(b"SIZE", word)
    } else if is_keyword(b"VIA", form) {
        is_keyword(b"RECT", word)
    } else {
        is_keyword(b"SIZE", word) || is_keyword(b"ORIGIN", word) || is_keyword(b"RECT", word)
    }
}

/// The same in a layer.
fn begins_of_layer(kind: ScaleKind, word: &[u8]) -> bool
    ensures { result ≡ begins_of_layer kind word.now }
{
    match kind {
        ScaleKind::NotOnUnit => is_keyword(b"WIDTH", word)
            || is_keyword(b"SPACING", word)
            || is_keyword(b"SPACINGTABLE", word),
        ScaleKind::TooLarge => is_keyword(b"WIDTH", word)
            || is_keyword(b"SPACING", word)
            || is_keyword(b"SPACINGTABLE", word),
        ScaleKind::OddWidth => is_keyword(b"WIDTH", word),
        ScaleKind::Memory => false,
    }
}

/// Whether the word is a length of what has this name, which begins with that word, in the library.
pub(crate) fn is_of_library<A: Allocator + Copy>(
    library: &RawLibrary<'_, A>,
    kind: ScaleKind,
    form: &[u8],
    name: &[u8],
    word: &[u8],
) -> bool
    ensures { IsTrue result → IsOfLibrary library.now kind form.now name.now word.now }
{
    let Ok(length) = micron(word) else {
        return false;
    };
    has_length(library, kind, form, name, length.millionths())
}

/// Whether it is a length of so many millionths of a micron.
fn has_length<A: Allocator + Copy>(
    library: &RawLibrary<'_, A>,
    kind: ScaleKind,
    form: &[u8],
    name: &[u8],
    length: i64,
) -> bool
    ensures { IsTrue result → HasLength library.now kind form.now name.now length }
{
    if is_keyword(b"LAYER", form) {
        in_layers(library, kind, name, length)
    } else if is_keyword(b"SITE", form) {
        in_sites(library, name, length)
    } else if is_keyword(b"VIA", form) {
        in_vias(library, name, length)
    } else {
        is_keyword(b"MACRO", form) && in_macros(library.masters(), name, length)
    }
}

/// Whether a layer of this name has the length, and it may have such a fault.
fn in_layers<A: Allocator + Copy>(
    library: &RawLibrary<'_, A>,
    kind: ScaleKind,
    name: &[u8],
    length: i64,
) -> bool
    ensures { IsTrue result → (layer : RawLayer) × Contains library.now.layers layer × (layer.name ≡ name.now) × IsOfLayer kind layer length }
{
    for layer in library.layers() {
        if layer.name.bytes() == name && is_of_layer(kind, layer, length) {
            return true;
        }
    }
    false
}

/// Whether a site of this name has the length.
fn in_sites<A: Allocator + Copy>(library: &RawLibrary<'_, A>, name: &[u8], length: i64) -> bool
    ensures { IsTrue result → (site : RawSite) × Contains library.now.sites site × (site.name ≡ name.now) × IsOfSize site.size length }
{
    for site in library.sites() {
        if site.name.bytes() == name && is_of_size(&site.size, length) {
            return true;
        }
    }
    false
}

/// Whether a via of this name has the length.
fn in_vias<A: Allocator + Copy>(library: &RawLibrary<'_, A>, name: &[u8], length: i64) -> bool
    ensures { IsTrue result → (via : RawViaModel) × Contains library.now.vias via × (via.name ≡ name.now) × IsSide via.shapes length }
{
    for via in library.vias() {
        if via.name.bytes() == name && is_side(via.shapes.as_slice(), length) {
            return true;
        }
    }
    false
}

/// Whether a macro of this name has the length.
fn in_macros<A: Allocator>(masters: &[RawMaster<'_, A>], name: &[u8], length: i64) -> bool
    ensures { IsTrue result → (master : RawMasterModel) × Contains masters.now master × IsOfMacro name.now master length }
{
    for master in masters {
        if is_of_macro(name, master, length) {
            return true;
        }
    }
    false
}

/// Whether the length is one of the layer that may have such a fault.
fn is_of_layer(kind: ScaleKind, layer: &RawLayer<'_>, length: i64) -> bool
    ensures { IsTrue result → IsOfLayer kind layer.now length }
{
    match kind {
        ScaleKind::NotOnUnit => is_width(layer.kind, length)
            || layer.spacing.millionths() == length,
        ScaleKind::TooLarge => is_width(layer.kind, length) || layer.spacing.millionths() == length,
        ScaleKind::OddWidth => is_width(layer.kind, length),
        ScaleKind::Memory => false,
    }
}

/// Whether the length is the width of such a layer.
fn is_width(kind: RawKind, length: i64) -> bool
    ensures { IsTrue result → IsWidth kind length }
{
    match kind {
        RawKind::Routing { width, .. } => width.millionths() == length,
        _ => false,
    }
}

/// Whether the length is the width or the height.
fn is_of_size(size: &RawExtent, length: i64) -> bool
    ensures { IsTrue result → IsOfSize size.now length }
{
    size.width().millionths() == length || size.height().millionths() == length
}

/// Whether the macro has this name and the length.
fn is_of_macro<A: Allocator>(name: &[u8], master: &RawMaster<'_, A>, length: i64) -> bool
    ensures { IsTrue result → IsOfMacro name.now master.now length }
{
    master.name.bytes() == name && is_length_of_macro(master, length)
}

/// Whether the length is one of the macro.
fn is_length_of_macro<A: Allocator>(master: &RawMaster<'_, A>, length: i64) -> bool
    ensures { IsTrue result → IsLengthOfMacro master.now length }
{
    is_of_frame(master, length) || is_of_metal(master, length)
}

/// Whether the length is one of the macro's size or its origin.
fn is_of_frame<A: Allocator>(master: &RawMaster<'_, A>, length: i64) -> bool
    ensures { IsTrue result → IsOfSize master.now.size length ⊎ IsOfPoint master.now.origin length }
{
    is_of_size(&master.size, length) || is_of_point(&master.origin, length)
}

/// Whether the length is a side of a rectangle of the macro's pins or its obstructions.
fn is_of_metal<A: Allocator>(master: &RawMaster<'_, A>, length: i64) -> bool
    ensures { IsTrue result → IsOfPins master.now.pins length ⊎ IsSide master.now.obstructions length }
{
    is_of_pins(master.pins.as_slice(), length) || is_side(master.obstructions.as_slice(), length)
}

/// Whether the length is one of the point.
fn is_of_point(point: &RawPoint, length: i64) -> bool
    ensures { IsTrue result → IsOfPoint point.now length }
{
    point.x().millionths() == length || point.y().millionths() == length
}

/// Whether the length is a side of a rectangle of one of the pins.
fn is_of_pins<A: Allocator>(pins: &[RawPin<'_, A>], length: i64) -> bool
    ensures { IsTrue result → IsOfPins pins.now length }
{
    for pin in pins {
        if is_side(pin.shapes.as_slice(), length) {
            return true;
        }
    }
    false
}

/// Whether the length is a side of one of the rectangles.
fn is_side(shapes: &[RawShape], length: i64) -> bool
    ensures { IsTrue result → IsSide shapes.now length }
{
    for shape in shapes {
        if is_of_rect(&shape.rect, length) {
            return true;
        }
    }
    false
}

/// Whether the length is a side of the rectangle.
fn is_of_rect(rect: &RawRect, length: i64) -> bool
    ensures { IsTrue result → IsOfRect rect.now length }
{
    rect.x1().millionths() == length
        || rect.y1().millionths() == length
        || rect.x2().millionths() == length
        || rect.y2().millionths() == length
}
