//! A design with a form of every kind, each field of its record written down by hand.

use super::frame::{has_sides, is_at, is_shape, says};
use leg_design_records::{Axis, Blockage, Component, Design, Pin, Port, Row, Status, Track};
use leg_geom::{Orient, Rect};
use leg_lex::Name;
use leg_lib_records::Via;
use std::alloc::Global;

fn block() -> &'static str {
    "VERSION 5.8 ; DIVIDERCHAR \"/\" ; BUSBITCHARS \"[]\" ; TECHNOLOGY t ;
DESIGN top ; UNITS DISTANCE MICRONS 1000 ;
DIEAREA ( 800 2000 ) ( 0 -10 ) ;
ROW r0 core 0 0 FS DO 4 BY 1 STEP 200 0 ;
ROW r1 core 10 20 N ;
TRACKS X 100 DO 4 STEP 200 LAYER m2 m1 ;
TRACKS Y -100 DO 1 STEP 7 ;
VIAS 2 ;
- stack + RECT m1 ( 60 50 ) ( -60 -50 ) + RECT v1 ( 0 0 ) ( 9 9 ) + RECT m2 ( -1 -1 ) ( 1 1 ) + RECT mark ( 0 0 ) ( 1 1 ) ;
- pad + RECT m1 ( 0 0 ) ( 1 1 ) ;
END VIAS
COMPONENTS 4 ;
- u1 INV + SOURCE DIST + PLACED ( 0 1 ) N ;
- u2 INV + FIXED ( -400 0 ) FW ;
- u3 FILL + UNPLACED ;
- u4 FILL + COVER ( 5 6 ) E ;
END COMPONENTS
PINS 2 ;
- p + NET n9 + DIRECTION INPUT + USE SIGNAL + LAYER m1 SPACING 3 ( 100 0 ) ( 0 100 ) + LAYER mark ( 0 0 ) ( 1 1 ) + PLACED ( 3 4 ) S + PORT + LAYER m2 ( 0 0 ) ( 5 6 ) ;
- q ;
END PINS
BLOCKAGES 3 ;
- LAYER m2 + PUSHDOWN RECT ( 9 8 ) ( 1 2 ) RECT ( 0 0 ) ( 1 1 ) ;
- LAYER mark RECT ( 0 0 ) ( 1 1 ) ;
- PLACEMENT RECT ( -5 -6 ) ( 700 800 ) ;
END BLOCKAGES
END DESIGN
"
}

fn is_word(word: &Option<&[u8]>, bytes: &[u8]) -> bool {
    match word {
        Some(word) => *word == bytes,
        None => false,
    }
}

fn has_header(design: &Design<'_, Global>) -> bool {
    design.name() == b"top".as_slice()
        && is_word(&design.divider(), b"\"/\"")
        && is_word(&design.bus(), b"\"[]\"")
        && has_sides(&design.die(), [0, -10, 800, 2000])
}

#[test]
fn reads_the_header(rt: HostRuntime) {
    assert!(rt; says(rt.alloc(), block(), has_header));
}

fn is_row(row: &Row<'_>, name: &[u8], x: i64, y: i64, orient: Orient, count: i64) -> bool {
    row.name.bytes() == name
        && row.site == 0
        && is_at(&row.at, x, y)
        && row.orient == orient
        && row.count == count
}

fn is_track(track: &Track<Global>, axis: Axis, numbers: [i64; 3], layers: &[usize]) -> bool {
    track.axis == axis
        && [track.start, track.count, track.step] == numbers
        && track.layers.as_slice() == layers
}

fn has_rows_and_tracks(design: &Design<'_, Global>) -> bool {
    let ([r0, r1], [x, y]) = (design.rows(), design.tracks()) else {
        return false;
    };
    is_row(r0, b"r0", 0, 0, Orient::FS, 4)
        && is_row(r1, b"r1", 10, 20, Orient::N, 1)
        && is_track(x, Axis::X, [100, 4, 200], &[2, 0])
        && is_track(y, Axis::Y, [-100, 1, 7], &[])
}

#[test]
fn reads_rows_and_tracks(rt: HostRuntime) {
    assert!(rt; says(rt.alloc(), block(), has_rows_and_tracks));
}

// Not a default via, of this name.
fn is_via(via: &Via<'_, Global>, name: &[u8], good: bool) -> bool {
    via.name.bytes() == name && !via.default_via && via.good == good
}

fn has_vias(design: &Design<'_, Global>) -> bool {
    let [stack, pad] = design.vias() else {
        return false;
    };
    let ([a, b, c], [d]) = (stack.shapes.as_slice(), pad.shapes.as_slice()) else {
        return false;
    };
    is_via(stack, b"stack", true)
        && is_shape(a, 0, [-60, -50, 60, 50])
        && is_shape(b, 1, [0, 0, 9, 9])
        && is_shape(c, 2, [-1, -1, 1, 1])
        && is_via(pad, b"pad", false)
        && is_shape(d, 0, [0, 0, 1, 1])
}

#[test]
fn reads_vias(rt: HostRuntime) {
    assert!(rt; says(rt.alloc(), block(), has_vias));
}

fn is_component(component: &Component<'_>, name: &[u8], master: usize, status: Status) -> bool {
    component.name.bytes() == name && component.master == master && component.status == status
}

fn stands_at(component: &Component<'_>, x: i64, y: i64, orient: Orient) -> bool {
    match component.place {
        Some(place) => is_at(&place.at, x, y) && place.orient == orient,
        None => false,
    }
}

fn has_components(design: &Design<'_, Global>) -> bool {
    let [u1, u2, u3, u4] = design.components() else {
        return false;
    };
    is_component(u1, b"u1", 0, Status::Placed)
        && stands_at(u1, 0, 1, Orient::N)
        && is_component(u2, b"u2", 0, Status::Fixed)
        && stands_at(u2, -400, 0, Orient::FW)
        && is_component(u3, b"u3", 1, Status::Unplaced)
        && u3.place.is_none()
        && is_component(u4, b"u4", 1, Status::Cover)
        && stands_at(u4, 5, 6, Orient::E)
}

#[test]
fn reads_components(rt: HostRuntime) {
    assert!(rt; says(rt.alloc(), block(), has_components));
}

fn is_kept(word: &Option<Name<'_>>, bytes: &[u8]) -> bool {
    match word {
        Some(word) => word.bytes() == bytes,
        None => false,
    }
}

fn is_first_port(port: &Port<Global>) -> bool {
    let ([shape], Some(place)) = (port.shapes.as_slice(), port.place) else {
        return false;
    };
    is_shape(shape, 0, [0, 0, 100, 100])
        && port.status == Status::Placed
        && is_at(&place.at, 3, 4)
        && place.orient == Orient::S
}

fn is_second_port(port: &Port<Global>) -> bool {
    let [shape] = port.shapes.as_slice() else {
        return false;
    };
    is_shape(shape, 2, [0, 0, 5, 6]) && port.status == Status::Unplaced && port.place.is_none()
}

fn is_bare(pin: &Pin<'_, Global>) -> bool {
    pin.net_name.is_none()
        && pin.direction.is_none()
        && pin.usage.is_none()
        && pin.ports.as_slice().is_empty()
}

fn has_pins(design: &Design<'_, Global>) -> bool {
    let [p, q] = design.pins() else {
        return false;
    };
    let [first, second] = p.ports.as_slice() else {
        return false;
    };
    p.name.bytes() == b"p".as_slice()
        && is_kept(&p.net_name, b"n9")
        && is_kept(&p.direction, b"INPUT")
        && is_kept(&p.usage, b"SIGNAL")
        && is_first_port(first)
        && is_second_port(second)
        && q.name.bytes() == b"q".as_slice()
        && is_bare(q)
}

#[test]
fn reads_pins(rt: HostRuntime) {
    assert!(rt; says(rt.alloc(), block(), has_pins));
}

fn has_two_rects(rects: &[Rect], first: [i64; 4], second: [i64; 4]) -> bool {
    match rects {
        [a, b] => has_sides(a, first) && has_sides(b, second),
        _ => false,
    }
}

fn is_on_layer(blockage: &Blockage<Global>, number: usize) -> bool {
    match blockage {
        Blockage::LayerRects { layer, rects } => {
            *layer == number && has_two_rects(rects.as_slice(), [1, 2, 9, 8], [0, 0, 1, 1])
        }
        Blockage::Placement { .. } => false,
    }
}

fn is_of_placement(blockage: &Blockage<Global>, sides: [i64; 4]) -> bool {
    match blockage {
        Blockage::LayerRects { .. } => false,
        Blockage::Placement { rects } => match rects.as_slice() {
            [rect] => has_sides(rect, sides),
            _ => false,
        },
    }
}

// That of the layer without metal is left out.
fn has_blockages(design: &Design<'_, Global>) -> bool {
    match design.blockages() {
        [first, second] => is_on_layer(first, 2) && is_of_placement(second, [-5, -6, 700, 800]),
        _ => false,
    }
}

#[test]
fn reads_blockages(rt: HostRuntime) {
    assert!(rt; says(rt.alloc(), block(), has_blockages));
}
