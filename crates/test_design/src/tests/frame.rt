//! The library that the tests read their designs under, and how they do it.

use leg_design::read_def;
use leg_design_records::Design;
use leg_geom::{Point, Rect};
use leg_lib::read_lefs;
use leg_lib_records::{Library, RawLibrary, Shape};
use std::alloc::Global;

fn library_text() -> &'static str {
    "LAYER m1 TYPE ROUTING ; DIRECTION HORIZONTAL ; WIDTH 0.1 ; SPACING 0.1 ; END m1
LAYER v1 TYPE CUT ; SPACING 0.1 ; END v1
LAYER m2 TYPE ROUTING ; DIRECTION VERTICAL ; WIDTH 0.2 ; SPACING 0.1 ; END m2
LAYER mark TYPE OVERLAP ; END mark
VIA V12 DEFAULT LAYER m1 ; RECT -0.05 -0.05 0.05 0.05 ; LAYER v1 ; RECT -0.05 -0.05 0.05 0.05 ; LAYER m2 ; RECT -0.05 -0.05 0.05 0.05 ; END V12
SITE core CLASS CORE ; SIZE 0.2 BY 2.0 ; END core
MACRO INV CLASS CORE ; SIZE 0.4 BY 2.0 ; SYMMETRY X Y ; SITE core ;
PIN A DIRECTION INPUT ; PORT LAYER m1 ; RECT 0.05 0.85 0.15 1.05 ; END END A
PIN Y DIRECTION OUTPUT ; PORT LAYER m1 ; RECT 0.25 0.85 0.35 1.05 ; END END Y
PIN VDD USE POWER ; PORT LAYER m1 ; RECT 0 1.9 0.4 2.1 ; END END VDD
END INV
MACRO FILL CLASS CORE ; SIZE 0.2 BY 2.0 ; SITE core ;
PIN VDD USE POWER ; PORT LAYER m1 ; RECT 0 1.9 0.2 2.1 ; END END VDD
END FILL
END LIBRARY
"
}

// Whether the library at 1000 units a micron passes the test.
pub(super) fn under_library(alloc: Global, test: fn(Global, &Library<'_, Global>) -> bool) -> bool
    requires callable { IsAlwaysCallable test }
{
    match read_lefs(alloc, &[library_text().as_bytes()]) {
        Ok(raw) => under_raw(alloc, &raw, test),
        Err(_) => false,
    }
}

fn under_raw(
    alloc: Global,
    raw: &RawLibrary<'_, Global>,
    test: fn(Global, &Library<'_, Global>) -> bool,
) -> bool
    requires callable { IsAlwaysCallable test }
{
    match raw.at(alloc, 1000) {
        Ok(library) => test(alloc, &library),
        Err(_) => false,
    }
}

// Whether the design that the text denotes under the library, at 1000 units a micron, passes the test.
pub(super) fn says(alloc: Global, text: &str, test: fn(&Design<'_, Global>) -> bool) -> bool
    requires callable { IsAlwaysCallable test }
{
    match read_lefs(alloc, &[library_text().as_bytes()]) {
        Ok(raw) => says_under_raw(alloc, &raw, text, test),
        Err(_) => false,
    }
}

fn says_under_raw(
    alloc: Global,
    raw: &RawLibrary<'_, Global>,
    text: &str,
    test: fn(&Design<'_, Global>) -> bool,
) -> bool
    requires callable { IsAlwaysCallable test }
{
    match raw.at(alloc, 1000) {
        Ok(library) => says_under(alloc, &library, text, test),
        Err(_) => false,
    }
}

fn says_under(
    alloc: Global,
    library: &Library<'_, Global>,
    text: &str,
    test: fn(&Design<'_, Global>) -> bool,
) -> bool
    requires callable { IsAlwaysCallable test }
{
    match read_def(alloc, library, text.as_bytes()) {
        Ok(design) => test(&design),
        Err(_) => false,
    }
}

pub(super) fn is_at(point: &Point, x: i64, y: i64) -> bool {
    point.x() == x && point.y() == y
}

pub(super) fn has_sides(rect: &Rect, sides: [i64; 4]) -> bool {
    [rect.x1(), rect.y1(), rect.x2(), rect.y2()] == sides
}

pub(super) fn is_shape(shape: &Shape, layer: usize, sides: [i64; 4]) -> bool {
    shape.layer == layer && has_sides(&shape.rect, sides)
}
