//! Wires that are added, and wires that are lost.

use super::frame::differ;
use leg_compare::{Change, Difference, Section, Verdict};

fn open() -> &'static str {
    "DESIGN top ; UNITS DISTANCE MICRONS 1000 ; DIEAREA ( 0 0 ) ( 1600 2000 ) ;
COMPONENTS 2 ; - u1 INV + PLACED ( 0 0 ) N ; - u2 INV ; END COMPONENTS
NETS 1 ; - n1 ( u1 Y ) ( u2 A ) + ROUTED m1 ( 300 900 ) V12 ; END NETS
END DESIGN
"
}

fn routed() -> &'static str {
    "DESIGN top ; UNITS DISTANCE MICRONS 1000 ; DIEAREA ( 0 0 ) ( 1600 2000 ) ;
COMPONENTS 2 ; - u1 INV + PLACED ( 0 0 ) N ; - u2 INV ; END COMPONENTS
NETS 1 ; - n1 ( u1 Y ) ( u2 A ) + ROUTED m1 ( 300 900 ) V12 NEW m1 ( 300 900 ) ( 500 900 ) ; END NETS
END DESIGN
"
}

#[test]
fn wires_are_added(rt: HostRuntime) {
    let expected = [Difference::Changed(Section::Nets, Change::MoreWires, 0)];
    assert!(rt; differ(rt.alloc(), (open(), routed()), &expected, Verdict::Wires(1)));
}

// The designs exchanged: what the one has added, the other has lost.
#[test]
fn wires_are_lost(rt: HostRuntime) {
    let expected = [Difference::Changed(Section::Nets, Change::LostWires, 0)];
    assert!(rt;
        differ(
            rt.alloc(),
            (routed(), open()),
            &expected,
            Verdict::Differs(1)
        )
    );
}

#[test]
fn components_move_and_wires_are_added(rt: HostRuntime) {
    let both = "DESIGN top ; UNITS DISTANCE MICRONS 1000 ; DIEAREA ( 0 0 ) ( 1600 2000 ) ;
COMPONENTS 2 ; - u1 INV + PLACED ( 0 0 ) N ; - u2 INV + PLACED ( 400 0 ) N ; END COMPONENTS
NETS 1 ; - n1 ( u1 Y ) ( u2 A ) + ROUTED m1 ( 300 900 ) V12 NEW m1 ( 300 900 ) ( 500 900 ) ; END NETS
END DESIGN
";
    let expected = [
        Difference::Changed(Section::Components, Change::Place, 1),
        Difference::Changed(Section::Nets, Change::MoreWires, 0),
    ];
    assert!(rt;
        differ(
            rt.alloc(),
            (open(), both),
            &expected,
            Verdict::PlacesAndWires(1, 1)
        )
    );
}

// A wire in SPECIALNETS is no wire that a router adds.
#[test]
fn special_wires_are_no_added_wires(rt: HostRuntime) {
    let first = "DESIGN top ; UNITS DISTANCE MICRONS 1000 ; DIEAREA ( 0 0 ) ( 1600 2000 ) ;
SPECIALNETS 1 ; - vdd + USE POWER ; END SPECIALNETS
END DESIGN
";
    let second = "DESIGN top ; UNITS DISTANCE MICRONS 1000 ; DIEAREA ( 0 0 ) ( 1600 2000 ) ;
SPECIALNETS 1 ; - vdd + USE GROUND + ROUTED m1 200 ( 0 0 ) ( 800 0 ) ; END SPECIALNETS
END DESIGN
";
    let expected = [
        Difference::Changed(Section::SpecialNets, Change::Usage, 0),
        Difference::Changed(Section::SpecialNets, Change::MoreWires, 0),
    ];
    assert!(rt; differ(rt.alloc(), (first, second), &expected, Verdict::Differs(2)));
}
