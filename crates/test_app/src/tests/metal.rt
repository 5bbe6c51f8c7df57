//! Metal from its texts to its violations and their lines.

use leg_app::check_texts;
use leg_design::read_def;
use leg_design_records::{Design, Fault};
use leg_flat::{Flat, flatten};
use leg_geom::Rect;
use leg_lib::read_lefs;
use leg_lib_records::{Library, RawLibrary};
use leg_print::print_faults;
use leg_wire::{clean, joined, spacing_faults};
use std::alloc::Global;

fn layer_text() -> &'static [u8] {
    b"LAYER m1 TYPE ROUTING ; DIRECTION HORIZONTAL ; WIDTH 0.1 ; SPACING 0.1 ; END m1
END LIBRARY
"
}

// Whether the metal of the design that the text denotes passes the test.
fn passes(
    alloc: Global,
    def: &[u8],
    test: fn(Global, &Design<'_, Global>, &Flat<Global>) -> bool,
) -> bool
    requires callable { IsAlwaysCallable test }
{
    match read_lefs(alloc, &[layer_text()]) {
        Ok(raw) => passes_under_raw(alloc, &raw, def, test),
        Err(_) => false,
    }
}

fn passes_under_raw(
    alloc: Global,
    raw: &RawLibrary<'_, Global>,
    def: &[u8],
    test: fn(Global, &Design<'_, Global>, &Flat<Global>) -> bool,
) -> bool
    requires callable { IsAlwaysCallable test }
{
    match raw.at(alloc, 1000) {
        Ok(library) => passes_under(alloc, &library, def, test),
        Err(_) => false,
    }
}

fn passes_under(
    alloc: Global,
    library: &Library<'_, Global>,
    def: &[u8],
    test: fn(Global, &Design<'_, Global>, &Flat<Global>) -> bool,
) -> bool
    requires callable { IsAlwaysCallable test }
{
    match read_def(alloc, library, def) {
        Ok(design) => passes_in(alloc, &design, test),
        Err(_) => false,
    }
}

fn passes_in(
    alloc: Global,
    design: &Design<'_, Global>,
    test: fn(Global, &Design<'_, Global>, &Flat<Global>) -> bool,
) -> bool
    requires callable { IsAlwaysCallable test }
{
    match flatten(alloc, design.library(), design) {
        Ok(flat) => test(alloc, design, &flat),
        Err(_) => false,
    }
}

// Whether these are the lines of the spacing.
fn prints(
    alloc: Global,
    design: &Design<'_, Global>,
    flat: &Flat<Global>,
    expected: &[u8],
) -> bool {
    match spacing_faults(alloc, design.library(), flat) {
        Ok(found) => are_lines(alloc, design, flat, &found, expected),
        Err(_) => false,
    }
}

fn are_lines(
    alloc: Global,
    design: &Design<'_, Global>,
    flat: &Flat<Global>,
    found: &[Fault],
    expected: &[u8],
) -> bool {
    match print_faults(alloc, design.library(), design, Some(flat), found) {
        Ok(lines) => lines.as_slice() == expected,
        Err(_) => false,
    }
}

// Two wires 60 and 80 apart, which is a Euclidean distance of 100: exactly the spacing.
const APART: &[u8] = b"DESIGN top ;
UNITS DISTANCE MICRONS 1000 ;
DIEAREA ( 0 0 ) ( 800 2000 ) ;
SPECIALNETS 2 ;
- a + ROUTED m1 100 ( 100 400 ) ( 300 400 ) ;
- b + ROUTED m1 100 ( 360 580 ) ( 560 580 ) ;
END SPECIALNETS
END DESIGN
";

fn prints_nothing(alloc: Global, design: &Design<'_, Global>, flat: &Flat<Global>) -> bool {
    prints(alloc, design, flat, b"")
}

// One unit less apart.
const NEAR: &[u8] = b"DESIGN top ;
UNITS DISTANCE MICRONS 1000 ;
DIEAREA ( 0 0 ) ( 800 2000 ) ;
SPECIALNETS 2 ;
- a + ROUTED m1 100 ( 100 400 ) ( 300 400 ) ;
- b + ROUTED m1 100 ( 360 579 ) ( 560 579 ) ;
END SPECIALNETS
END DESIGN
";

fn prints_too_near(alloc: Global, design: &Design<'_, Global>, flat: &Flat<Global>) -> bool {
    prints(
        alloc,
        design,
        flat,
        b"TOONEAR m1 NET a 100 350 300 450 NET b 360 529 560 629\n",
    )
}

#[test]
fn metal_is_reported_where_it_is_too_near(rt: HostRuntime) {
    assert!(rt;
        passes(rt.alloc(), APART, prints_nothing) && passes(rt.alloc(), NEAR, prints_too_near)
    );
}

// Whether these tell which pieces of the first net are joined to its first one.
fn joins(alloc: Global, flat: &Flat<Global>, expected: [bool; 2]) -> bool {
    if flat.net_count() == 0 {
        return false;
    }
    match joined(alloc, flat, 0) {
        Ok(marks) => marks.as_slice() == expected.as_slice(),
        Err(_) => false,
    }
}

// Two wires of a net that share a corner alone.
const CORNER: &[u8] = b"DESIGN top ;
UNITS DISTANCE MICRONS 1000 ;
DIEAREA ( 0 0 ) ( 800 2000 ) ;
NETS 1 ;
- n + ROUTED m1 ( 100 400 ) ( 200 400 ) NEW m1 ( 300 500 ) ( 400 500 ) ;
END NETS
END DESIGN
";

fn joins_nothing(alloc: Global, _design: &Design<'_, Global>, flat: &Flat<Global>) -> bool {
    joins(alloc, flat, [true, false])
}

// The same, where they share an edge.
const EDGE: &[u8] = b"DESIGN top ;
UNITS DISTANCE MICRONS 1000 ;
DIEAREA ( 0 0 ) ( 800 2000 ) ;
NETS 1 ;
- n + ROUTED m1 ( 100 400 ) ( 200 400 ) NEW m1 ( 299 500 ) ( 400 500 ) ;
END NETS
END DESIGN
";

fn joins_all(alloc: Global, _design: &Design<'_, Global>, flat: &Flat<Global>) -> bool {
    joins(alloc, flat, [true, true])
}

#[test]
fn a_bare_corner_joins_nothing(rt: HostRuntime) {
    assert!(rt; passes(rt.alloc(), CORNER, joins_nothing) && passes(rt.alloc(), EDGE, joins_all));
}

// Whether just one net is open, at its second piece, in the design that the text denotes.
fn has_an_open_net(alloc: Global, def: &[u8]) -> bool {
    match check_texts(alloc, &[layer_text()], def) {
        Ok(found) => found.as_slice() == [Fault::OpenNet(0, 1)].as_slice(),
        Err(_) => false,
    }
}

#[test]
fn violations_of_texts_are_reported_by_numbers(rt: HostRuntime) {
    assert!(rt; has_an_open_net(rt.alloc(), CORNER));
}

// A wire of net 0, whose right edge is at 300.
const WIRE: &[u8] = b"DESIGN top ;
UNITS DISTANCE MICRONS 1000 ;
DIEAREA ( 0 0 ) ( 800 2000 ) ;
SPECIALNETS 1 ; - a + ROUTED m1 100 ( 100 400 ) ( 300 400 ) ; END SPECIALNETS
END DESIGN
";

// Whether metal of net `net` may lie from `x1` on, on the first layer.
fn is_clean_from(
    design: &Design<'_, Global>,
    flat: &Flat<Global>,
    net: u32,
    x1: i64,
) -> Option<bool> {
    let rect = Rect::new(x1, 350, 600, 450)?;
    Some(clean(design.library(), flat, net, 0, rect))
}

fn is_clean_from_the_spacing_on(
    _alloc: Global,
    design: &Design<'_, Global>,
    flat: &Flat<Global>,
) -> bool {
    is_clean_from(design, flat, 1, 400) == Some(true)
        && is_clean_from(design, flat, 1, 399) == Some(false)
        && is_clean_from(design, flat, 1, 200) == Some(false)
        && is_clean_from(design, flat, 0, 200) == Some(true)
}

#[test]
fn metal_is_clean_from_the_spacing_on(rt: HostRuntime) {
    assert!(rt; passes(rt.alloc(), WIRE, is_clean_from_the_spacing_on));
}
