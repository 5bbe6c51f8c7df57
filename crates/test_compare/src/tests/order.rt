//! Entries in another order, entries that are gone, and entries that are added.

use super::frame::differ;
use leg_compare::{Change, Difference, Section, Verdict};

fn two_nets() -> &'static str {
    "DESIGN top ; UNITS DISTANCE MICRONS 1000 ; DIEAREA ( 0 0 ) ( 1600 2000 ) ;
VIAS 2 ; - va + RECT m1 ( 0 0 ) ( 10 10 ) ; - vb + RECT m1 ( 0 0 ) ( 20 20 ) ; END VIAS
COMPONENTS 2 ; - u1 INV + PLACED ( 0 0 ) N ; - u2 INV + PLACED ( 400 0 ) N ; END COMPONENTS
PINS 1 ; - p + NET n1 + LAYER m1 ( 0 0 ) ( 100 100 ) + PLACED ( 0 0 ) N ; END PINS
NETS 2 ; - n1 ( u1 Y ) ( u2 A ) ; - n2 ( u2 Y ) ( PIN p ) ; END NETS
END DESIGN
"
}

// Terminals are those of the same names, though the numbers of the components are others.
#[test]
fn order_means_nothing(rt: HostRuntime) {
    let other = "DESIGN top ; UNITS DISTANCE MICRONS 1000 ; DIEAREA ( 0 0 ) ( 1600 2000 ) ;
VIAS 2 ; - vb + RECT m1 ( 0 0 ) ( 20 20 ) ; - va + RECT m1 ( 0 0 ) ( 10 10 ) ; END VIAS
COMPONENTS 2 ; - u2 INV + PLACED ( 400 0 ) N ; - u1 INV + PLACED ( 0 0 ) N ; END COMPONENTS
PINS 1 ; - p + NET n1 + LAYER m1 ( 0 0 ) ( 100 100 ) + PLACED ( 0 0 ) N ; END PINS
NETS 2 ; - n2 ( u2 Y ) ( PIN p ) ; - n1 ( u1 Y ) ( u2 A ) ; END NETS
END DESIGN
";
    assert!(rt; differ(rt.alloc(), (two_nets(), other), &[], Verdict::Same));
}

// va has another rectangle; u3 has come between u1 and u2; p has another layer; n1 is gone, and n2 has lost a terminal.
#[test]
fn sections_come_in_their_order(rt: HostRuntime) {
    let other = "DESIGN top ; UNITS DISTANCE MICRONS 1000 ; DIEAREA ( 0 0 ) ( 1600 2000 ) ;
VIAS 2 ; - va + RECT m1 ( 0 0 ) ( 30 10 ) ; - vb + RECT m1 ( 0 0 ) ( 20 20 ) ; END VIAS
COMPONENTS 3 ; - u1 INV + PLACED ( 0 0 ) N ; - u3 INV ; - u2 INV + PLACED ( 400 0 ) N ; END COMPONENTS
PINS 1 ; - p + NET n2 + LAYER m2 ( 0 0 ) ( 100 100 ) + PLACED ( 0 0 ) N ; END PINS
NETS 1 ; - n2 ( PIN p ) ; END NETS
END DESIGN
";
    let expected = [
        Difference::Changed(Section::Vias, Change::Shapes, 0),
        Difference::Added(Section::Components, 1),
        Difference::Changed(Section::Pins, Change::NetName, 0),
        Difference::Changed(Section::Pins, Change::Ports, 0),
        Difference::Gone(Section::Nets, 0),
        Difference::Changed(Section::Nets, Change::Terminals, 1),
    ];
    assert!(rt;
        differ(
            rt.alloc(),
            (two_nets(), other),
            &expected,
            Verdict::Differs(6)
        )
    );
}

fn one_by_one() -> &'static str {
    "DESIGN top ; UNITS DISTANCE MICRONS 1000 ; DIEAREA ( 0 0 ) ( 1600 2000 ) ;
COMPONENTS 2 ; - u1 INV + PLACED ( 0 0 ) N ; - u2 INV + PLACED ( 400 0 ) N ; END COMPONENTS
PINS 2 ; - p + NET n ; - q + NET n ; END PINS
SPECIALNETS 1 ; - vdd ( u1 VDD ) ( u2 VDD ) ; END SPECIALNETS
NETS 1 ; - n ( u1 Y ) ( u2 A ) ( PIN p ) ( PIN q ) ; END NETS
END DESIGN
"
}

// The terminals of n stand in another order, and those of vdd are in the order of the components, which is another one.
#[test]
fn order_of_terminals_means_nothing(rt: HostRuntime) {
    let other = "DESIGN top ; UNITS DISTANCE MICRONS 1000 ; DIEAREA ( 0 0 ) ( 1600 2000 ) ;
COMPONENTS 2 ; - u2 INV + PLACED ( 400 0 ) N ; - u1 INV + PLACED ( 0 0 ) N ; END COMPONENTS
PINS 2 ; - q + NET n ; - p + NET n ; END PINS
SPECIALNETS 1 ; - vdd ( * VDD ) ; END SPECIALNETS
NETS 1 ; - n ( PIN q ) ( u2 A ) ( PIN p ) ( u1 Y ) ; END NETS
END DESIGN
";
    assert!(rt; differ(rt.alloc(), (one_by_one(), other), &[], Verdict::Same));
    assert!(rt; differ(rt.alloc(), (other, one_by_one()), &[], Verdict::Same));
}

// n has A of u1 in the place of that of u2, as many terminals as before; vdd has one terminal less, or one more.
#[test]
fn terminals_are_exchanged_lost_and_added(rt: HostRuntime) {
    let other = "DESIGN top ; UNITS DISTANCE MICRONS 1000 ; DIEAREA ( 0 0 ) ( 1600 2000 ) ;
COMPONENTS 2 ; - u1 INV + PLACED ( 0 0 ) N ; - u2 INV + PLACED ( 400 0 ) N ; END COMPONENTS
PINS 2 ; - p + NET n ; - q + NET n ; END PINS
SPECIALNETS 1 ; - vdd ( u2 VDD ) ; END SPECIALNETS
NETS 1 ; - n ( u1 A ) ( u1 Y ) ( PIN p ) ( PIN q ) ; END NETS
END DESIGN
";
    let expected = [
        Difference::Changed(Section::SpecialNets, Change::Terminals, 0),
        Difference::Changed(Section::Nets, Change::Terminals, 0),
    ];
    assert!(rt;
        differ(
            rt.alloc(),
            (one_by_one(), other),
            &expected,
            Verdict::Differs(2)
        )
    );
    assert!(rt;
        differ(
            rt.alloc(),
            (other, one_by_one()),
            &expected,
            Verdict::Differs(2)
        )
    );
}
