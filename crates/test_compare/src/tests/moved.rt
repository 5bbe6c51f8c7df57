//! Components that are elsewhere.

use super::frame::differ;
use leg_compare::{Change, Difference, Section, Verdict};

fn placed() -> &'static str {
    "DESIGN top ; UNITS DISTANCE MICRONS 1000 ; DIEAREA ( 0 0 ) ( 1600 2000 ) ;
COMPONENTS 3 ; - u1 INV + PLACED ( 0 0 ) N ; - u2 INV ; - b1 INV + FIXED ( 800 0 ) N ; END COMPONENTS
END DESIGN
"
}

#[test]
fn a_design_is_itself(rt: HostRuntime) {
    assert!(rt; differ(rt.alloc(), (placed(), placed()), &[], Verdict::Same));
}

// u1 is turned where it stands, and u2 has got a place.
#[test]
fn movable_components_move(rt: HostRuntime) {
    let legalised = "DESIGN top ; UNITS DISTANCE MICRONS 1000 ; DIEAREA ( 0 0 ) ( 1600 2000 ) ;
COMPONENTS 3 ; - u1 INV + PLACED ( 0 0 ) FN ; - u2 INV + PLACED ( 400 0 ) N ; - b1 INV + FIXED ( 800 0 ) N ; END COMPONENTS
END DESIGN
";
    let expected = [
        Difference::Changed(Section::Components, Change::Place, 0),
        Difference::Changed(Section::Components, Change::Place, 1),
    ];
    assert!(rt;
        differ(
            rt.alloc(),
            (placed(), legalised),
            &expected,
            Verdict::Places(2)
        )
    );
}

#[test]
fn a_fixed_component_moves(rt: HostRuntime) {
    let other = "DESIGN top ; UNITS DISTANCE MICRONS 1000 ; DIEAREA ( 0 0 ) ( 1600 2000 ) ;
COMPONENTS 3 ; - u1 INV + PLACED ( 0 0 ) N ; - u2 INV ; - b1 INV + FIXED ( 1000 0 ) N ; END COMPONENTS
END DESIGN
";
    let expected = [Difference::Changed(Section::Components, Change::Place, 2)];
    assert!(rt;
        differ(
            rt.alloc(),
            (placed(), other),
            &expected,
            Verdict::Differs(1)
        )
    );
}

// u1 is FIXED where it was PLACED, and b1 is of another macro.
#[test]
fn status_and_macro_differ(rt: HostRuntime) {
    let other = "DESIGN top ; UNITS DISTANCE MICRONS 1000 ; DIEAREA ( 0 0 ) ( 1600 2000 ) ;
COMPONENTS 3 ; - u1 INV + FIXED ( 0 0 ) N ; - u2 INV ; - b1 BLK + FIXED ( 800 0 ) N ; END COMPONENTS
END DESIGN
";
    let expected = [
        Difference::Changed(Section::Components, Change::Status, 0),
        Difference::Changed(Section::Components, Change::Macro, 2),
    ];
    assert!(rt;
        differ(
            rt.alloc(),
            (placed(), other),
            &expected,
            Verdict::Differs(2)
        )
    );
}
