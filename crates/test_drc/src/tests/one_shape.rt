//! Shapes of wires that are too narrow, off the grid or outside the die.

use super::frame::has_faults;
use leg_drc::DrcFault;

#[test]
fn a_segment_as_wide_as_the_rule_is_wide_enough(rt: HostRuntime) {
    let block = "DESIGN top ; UNITS DISTANCE MICRONS 1000 ; DIEAREA ( 0 0 ) ( 9000 9000 ) ;
SPECIALNETS 2 ; - a + ROUTED m1 100 ( 100 100 ) ( 900 100 ) ; - b + ROUTED m1 90 ( 100 1000 ) ( 900 1000 ) ; END SPECIALNETS END DESIGN
";
    assert!(rt; has_faults(rt.alloc(), block, &[DrcFault::MinWidth(1)]));
}

// The pads of a via are 100 units wide, and no segments.
#[test]
fn a_segment_that_is_shorter_than_wide_has_its_length_as_width(rt: HostRuntime) {
    let block = "DESIGN top ; UNITS DISTANCE MICRONS 1000 ; DIEAREA ( 0 0 ) ( 9000 9000 ) ;
SPECIALNETS 1 ; - a + ROUTED m2 200 ( 500 500 ) ( 500 560 ) V12 ; END SPECIALNETS END DESIGN
";
    assert!(rt; has_faults(rt.alloc(), block, &[DrcFault::MinWidth(0)]));
}

#[test]
fn a_net_in_both_sections_has_its_special_wires_behind(rt: HostRuntime) {
    let block = "DESIGN top ; UNITS DISTANCE MICRONS 1000 ; DIEAREA ( 0 0 ) ( 9000 9000 ) ;
SPECIALNETS 2 ; - b + ROUTED m1 60 ( 100 1000 ) ( 900 1000 ) ; - a + ROUTED m1 100 ( 100 100 ) V12 ; END SPECIALNETS
NETS 2 ; - a + ROUTED m1 ( 100 100 ) V12 ; - b + ROUTED m1 ( 100 1000 ) ( 900 1000 ) ; END NETS END DESIGN
";
    assert!(rt; has_faults(rt.alloc(), block, &[DrcFault::MinWidth(4)]));
}

#[test]
fn sides_on_the_grid_are_multiples_on_either_side_of_zero(rt: HostRuntime) {
    let block = "DESIGN top ; UNITS DISTANCE MICRONS 1000 ; DIEAREA ( -9000 -9000 ) ( 9000 9000 ) ;
NETS 2 ; - a + ROUTED m1 ( -105 -100 ) ( 900 -100 ) ; - b + ROUTED m1 ( -101 -1000 ) ( 900 -1000 ) ; END NETS END DESIGN
";
    assert!(rt; has_faults(rt.alloc(), block, &[DrcFault::OffGrid(1)]));
}

#[test]
fn a_wire_may_reach_the_edge_of_the_die(rt: HostRuntime) {
    let block = "DESIGN top ; UNITS DISTANCE MICRONS 1000 ; DIEAREA ( 0 0 ) ( 1000 1000 ) ;
NETS 2 ; - a + ROUTED m1 ( 50 50 ) ( 950 50 ) ; - b + ROUTED m1 ( 50 945 ) ( 955 945 ) ; END NETS END DESIGN
";
    assert!(rt; has_faults(rt.alloc(), block, &[DrcFault::OutDie(1)]));
}

#[test]
fn metal_of_components_is_not_judged(rt: HostRuntime) {
    let block = "DESIGN top ; UNITS DISTANCE MICRONS 1000 ; DIEAREA ( 0 0 ) ( 100 100 ) ;
COMPONENTS 1 ; - u PAD + PLACED ( 7 8 ) N ; END COMPONENTS
NETS 1 ; - a ( u P ) ; END NETS END DESIGN
";
    assert!(rt; has_faults(rt.alloc(), block, &[]));
}
