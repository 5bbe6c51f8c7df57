//! Cuts of one net.

use super::frame::has_faults;
use leg_drc::DrcFault;

#[test]
fn cuts_as_far_as_the_spacing(rt: HostRuntime) {
    let block = "DESIGN top ; UNITS DISTANCE MICRONS 1000 ; DIEAREA ( 0 0 ) ( 9000 9000 ) ;
SPECIALNETS 2 ; - a + ROUTED m1 100 ( 1000 1000 ) V12 NEW m1 100 ( 1200 1000 ) V12 ;
- b + ROUTED m1 100 ( 1000 5000 ) V12 NEW m1 100 ( 1195 5000 ) V12 NEW m1 100 ( 1000 5000 ) ( 1195 5000 ) NEW m2 100 ( 1000 5000 ) ( 1195 5000 ) ; END SPECIALNETS END DESIGN
";
    assert!(rt; has_faults(rt.alloc(), block, &[DrcFault::CutNear(7, 10)]));
}

#[test]
fn equal_cuts_are_one(rt: HostRuntime) {
    let block = "DESIGN top ; UNITS DISTANCE MICRONS 1000 ; DIEAREA ( 0 0 ) ( 9000 9000 ) ;
NETS 1 ; - a + ROUTED m1 ( 1000 1000 ) V12 NEW m1 ( 1000 1000 ) V12 ; END NETS END DESIGN
";
    assert!(rt; has_faults(rt.alloc(), block, &[]));
}

// Those of two nets are told by `check`.
#[test]
fn cuts_of_two_nets_are_not_told(rt: HostRuntime) {
    let block = "DESIGN top ; UNITS DISTANCE MICRONS 1000 ; DIEAREA ( 0 0 ) ( 9000 9000 ) ;
NETS 2 ; - a + ROUTED m1 ( 1000 1000 ) V12 ; - b + ROUTED m1 ( 1150 1000 ) V12 ; END NETS END DESIGN
";
    assert!(rt; has_faults(rt.alloc(), block, &[]));
}
