//! A design that changes: a component gets a place.

use super::frame::{is_at, under_library};
use leg_design::read_def;
use leg_design_records::{Component, Design, Status};
use leg_geom::{Orient, Place, Point};
use leg_lib_records::Library;
use std::alloc::Global;

fn open_block() -> &'static str {
    "DESIGN top ; UNITS DISTANCE MICRONS 1000 ; DIEAREA ( 0 0 ) ( 800 2000 ) ;
COMPONENTS 2 ; - u1 INV + FIXED ( 0 0 ) N ; - u2 INV ; END COMPONENTS
NETS 1 ; - n1 ( u1 Y ) ( u2 A ) ; END NETS
END DESIGN
"
}

fn is_placed(component: &Component<'_>, status: Status, x: i64, orient: Orient) -> bool {
    match &component.place {
        Some(place) => {
            component.status == status && is_at(&place.at, x, 0) && place.orient == orient
        }
        None => false,
    }
}

// Whether the second of the two components gets a place.
fn gets_place(open: Design<'_, Global>) -> bool {
    if open.components().len() != 2 {
        return false;
    }
    let at = Point::new(400, 0).unwrap();
    let design = open.with_place(
        1,
        Place {
            at,
            orient: Orient::FS,
        },
    );
    match design.components() {
        [u1, u2] => {
            is_placed(u1, Status::Fixed, 0, Orient::N)
                && is_placed(u2, Status::Placed, 400, Orient::FS)
        }
        _ => false,
    }
}

fn a_component_moves_under(alloc: Global, library: &Library<'_, Global>) -> bool {
    match read_def(alloc, library, open_block().as_bytes()) {
        Ok(open) => gets_place(open),
        Err(_) => false,
    }
}

#[test]
fn a_component_moves(rt: HostRuntime) {
    assert!(rt; under_library(rt.alloc(), a_component_moves_under));
}
