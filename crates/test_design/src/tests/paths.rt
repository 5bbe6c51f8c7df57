//! The wires of paths.

use super::frame::{has_sides, is_at, says};
use leg_design_records::{Design, Wire};
use std::alloc::Global;

// The ends of a segment, and its width and its extensions.
fn is_segment(wire: &Wire, on: usize, ends: [i64; 4], numbers: [i64; 3]) -> bool {
    match wire {
        Wire::Segment {
            layer,
            from,
            to,
            width,
            ext_from,
            ext_to,
        } => {
            *layer == on
                && [from.x(), from.y(), to.x(), to.y()] == ends
                && [*width, *ext_from, *ext_to] == numbers
        }
        _ => false,
    }
}

fn is_via(wire: &Wire, number: usize, x: i64, y: i64) -> bool {
    match wire {
        Wire::ViaAt { via, at } => *via == number && is_at(at, x, y),
        _ => false,
    }
}

fn is_patch(wire: &Wire, on: usize, x: i64, y: i64, sides: [i64; 4]) -> bool {
    match wire {
        Wire::Patch { layer, at, rect } => {
            *layer == on && is_at(at, x, y) && has_sides(rect, sides)
        }
        _ => false,
    }
}

fn wires<'d>(design: &'d Design<'_, Global>) -> &'d [Wire] {
    match design.nets() {
        [net] => net.wires.as_slice(),
        _ => &[],
    }
}

fn a_segment() -> &'static str {
    "DESIGN top ; UNITS DISTANCE MICRONS 1000 ; DIEAREA ( 0 0 ) ( 800 2000 ) ;
NETS 1 ; - n9 + ROUTED m1 TAPER ( 100 400 0 ) ( 300 * ) ; END NETS END DESIGN"
}

fn has_a_segment(design: &Design<'_, Global>) -> bool {
    let [wire] = wires(design) else {
        return false;
    };
    is_segment(wire, 0, [100, 400, 300, 400], [100, 0, 50])
}

#[test]
fn an_extension_goes_with_its_end(rt: HostRuntime) {
    assert!(rt; says(rt.alloc(), a_segment(), has_a_segment));
}

// The 7 is where the path repeats its second point.
fn a_corner() -> &'static str {
    "DESIGN top ; UNITS DISTANCE MICRONS 1000 ; DIEAREA ( 0 0 ) ( 800 2000 ) ;
NETS 1 ; - n9 + FIXED m1 ( 0 0 ) ( 0 0 5 ) ( 100 0 ) ( 100 0 7 ) ( * 50 ) NEW m2 ( 9 9 ) ; END NETS END DESIGN"
}

fn has_a_corner(design: &Design<'_, Global>) -> bool {
    let [first, second] = wires(design) else {
        return false;
    };
    is_segment(first, 0, [0, 0, 100, 0], [100, 5, 7])
        && is_segment(second, 0, [100, 0, 100, 50], [100, 7, 50])
}

#[test]
fn an_extension_holds_for_both_segments(rt: HostRuntime) {
    assert!(rt; says(rt.alloc(), a_corner(), has_a_corner));
}

fn a_change_of_layer() -> &'static str {
    "DESIGN top ; UNITS DISTANCE MICRONS 1000 ; DIEAREA ( 0 0 ) ( 800 2000 ) ;
NETS 1 ; - n9 + ROUTED m1 ( 0 9 ) ( 100 * 3 ) V12 N ( * 50 ) RECT ( 4 4 -1 -1 ) V12 ( 0 * ) ; END NETS END DESIGN"
}

fn has_a_change_of_layer(design: &Design<'_, Global>) -> bool {
    let [along, down, across, patch, up, back] = wires(design) else {
        return false;
    };
    is_segment(along, 0, [0, 9, 100, 9], [100, 50, 3])
        && is_via(down, 0, 100, 9)
        && is_segment(across, 2, [100, 9, 100, 50], [200, 3, 100])
        && is_patch(patch, 2, 100, 50, [-1, -1, 4, 4])
        && is_via(up, 0, 100, 50)
        && is_segment(back, 0, [100, 50, 0, 50], [100, 50, 50])
}

// A via leads to its other layer, which has a width and a default extension of its own.
#[test]
fn a_via_changes_the_layer(rt: HostRuntime) {
    assert!(rt; says(rt.alloc(), a_change_of_layer(), has_a_change_of_layer));
}

fn a_special_path() -> &'static str {
    "DESIGN top ; UNITS DISTANCE MICRONS 1000 ; DIEAREA ( 0 0 ) ( 800 2000 ) ;
VIAS 1 ; - down + RECT m1 ( -5 -5 ) ( 5 5 ) + RECT v1 ( -5 -5 ) ( 5 5 ) + RECT m2 ( -5 -5 ) ( 5 5 ) ; END VIAS
SPECIALNETS 1 ; - P + ROUTED m1 60 + SHAPE RING ( 0 0 ) ( 80 0 5 ) down ( * 40 ) + SHIELD none m2 0 ( 1 2 ) V12 ; END SPECIALNETS END DESIGN"
}

fn has_a_special_path(design: &Design<'_, Global>) -> bool {
    let [net] = design.special() else {
        return false;
    };
    let [along, down, across, alone] = net.wires.as_slice() else {
        return false;
    };
    is_segment(along, 0, [0, 0, 80, 0], [60, 0, 5])
        && is_via(down, 1, 80, 0)
        && is_segment(across, 2, [80, 0, 80, 40], [60, 5, 0])
        && is_via(alone, 0, 1, 2)
}

// The written width stays, and the vias of the DEF count after the library's.
#[test]
fn a_special_path_has_its_own_width(rt: HostRuntime) {
    assert!(rt; says(rt.alloc(), a_special_path(), has_a_special_path));
}
