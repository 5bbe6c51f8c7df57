//! Tables of spacings by width and parallel run length.

use super::frame::has_faults;
use leg_drc::DrcFault;

#[test]
fn as_far_as_the_table_asks(rt: HostRuntime) {
    let block = "DESIGN top ; UNITS DISTANCE MICRONS 1000 ; DIEAREA ( 0 0 ) ( 9000 9000 ) ;
SPECIALNETS 2 ; - a + ROUTED m1 400 ( 1000 1000 ) ( 3000 1000 ) ; - b + ROUTED m1 400 ( 1000 6000 ) ( 3000 6000 ) ; END SPECIALNETS
NETS 2 ; - c + ROUTED m1 ( 1500 1450 ) ( 2500 1450 ) ; - d + ROUTED m1 ( 1500 6445 ) ( 2500 6445 ) ; END NETS END DESIGN
";
    assert!(rt; has_faults(rt.alloc(), block, &[DrcFault::Table(1, 3)]));
}

// The first is no wider than the second row asks, and the second runs beside the other no longer than the second column asks.
#[test]
fn limits_of_width_and_run_belong_to_the_row_and_column_before(rt: HostRuntime) {
    let block = "DESIGN top ; UNITS DISTANCE MICRONS 1000 ; DIEAREA ( 0 0 ) ( 9000 9000 ) ;
SPECIALNETS 2 ; - a + ROUTED m1 300 ( 1000 1000 ) ( 3000 1000 ) ; - b + ROUTED m1 400 ( 1000 6000 ) ( 3000 6000 ) ; END SPECIALNETS
NETS 2 ; - c + ROUTED m1 ( 1500 1300 ) ( 2500 1300 ) ; - d + ROUTED m1 ( 1550 6350 ) ( 1950 6350 ) ; END NETS END DESIGN
";
    assert!(rt; has_faults(rt.alloc(), block, &[]));
}

#[test]
fn a_run_along_y_counts_too(rt: HostRuntime) {
    let block = "DESIGN top ; UNITS DISTANCE MICRONS 1000 ; DIEAREA ( 0 0 ) ( 9000 9000 ) ;
SPECIALNETS 1 ; - a + ROUTED m1 400 ( 1000 1000 ) ( 1000 3000 ) ; END SPECIALNETS
NETS 1 ; - c + ROUTED m1 ( 1400 1500 ) ( 1400 2500 ) ; END NETS END DESIGN
";
    assert!(rt; has_faults(rt.alloc(), block, &[DrcFault::Table(0, 1)]));
}

// They are nearer than the spacing of the layer.
#[test]
fn shapes_that_are_too_near_are_not_of_the_table(rt: HostRuntime) {
    let block = "DESIGN top ; UNITS DISTANCE MICRONS 1000 ; DIEAREA ( 0 0 ) ( 9000 9000 ) ;
SPECIALNETS 1 ; - a + ROUTED m1 400 ( 1000 1000 ) ( 3000 1000 ) ; END SPECIALNETS
NETS 1 ; - c + ROUTED m1 ( 1500 1345 ) ( 2500 1345 ) ; END NETS END DESIGN
";
    assert!(rt; has_faults(rt.alloc(), block, &[]));
}

#[test]
fn metal_of_one_net_is_not_of_the_table(rt: HostRuntime) {
    let block = "DESIGN top ; UNITS DISTANCE MICRONS 1000 ; DIEAREA ( 0 0 ) ( 9000 9000 ) ;
NETS 1 ; - a + ROUTED m1 ( 1500 1345 ) ( 2500 1345 ) ; END NETS
SPECIALNETS 1 ; - a + ROUTED m1 400 ( 1000 1000 ) ( 3000 1000 ) ; END SPECIALNETS END DESIGN
";
    assert!(rt; has_faults(rt.alloc(), block, &[]));
}
