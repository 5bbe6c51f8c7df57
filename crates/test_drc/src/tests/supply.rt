//! Nets of `SPECIALNETS` alone whose pieces aren't joined.

use super::frame::has_faults;
use leg_drc::DrcFault;

#[test]
fn islands_are_told(rt: HostRuntime) {
    let block = "DESIGN top ; UNITS DISTANCE MICRONS 1000 ; DIEAREA ( 0 0 ) ( 9000 9000 ) ;
SPECIALNETS 1 ; - p + ROUTED m1 100 ( 1000 1000 ) ( 2000 1000 ) NEW m1 100 ( 3000 1000 ) ( 4000 1000 ) NEW m1 100 ( 1500 1000 ) ( 2500 1000 )
NEW m1 100 ( 3500 1000 ) ( 3500 2000 ) ; END SPECIALNETS END DESIGN
";
    let expected = [DrcFault::Supply(0, 1), DrcFault::Supply(0, 3)];
    assert!(rt; has_faults(rt.alloc(), block, &expected));
}

// The pin Q has no metal, so that the net begins with the metal of P; what has no metal is in no island.
#[test]
fn the_first_piece_is_one_with_metal(rt: HostRuntime) {
    let block = "DESIGN top ; UNITS DISTANCE MICRONS 1000 ; DIEAREA ( 0 0 ) ( 9000 9000 ) ;
COMPONENTS 2 ; - u PAD + PLACED ( 1000 1000 ) N ; - w PAD ; END COMPONENTS
SPECIALNETS 2 ; - p ( u Q ) ( u P ) ( w P ) + ROUTED m2 100 ( 1100 1100 ) ( 1100 3000 ) NEW m2 100 ( 5000 5000 ) ( 5000 6000 ) ;
- q ( w Q ) ; END SPECIALNETS END DESIGN
";
    assert!(rt; has_faults(rt.alloc(), block, &[DrcFault::Supply(0, 4)]));
}

// Nets of NETS are open by `check`.
#[test]
fn nets_that_are_in_nets_too_are_not_told(rt: HostRuntime) {
    let block = "DESIGN top ; UNITS DISTANCE MICRONS 1000 ; DIEAREA ( 0 0 ) ( 9000 9000 ) ;
NETS 1 ; - p ; END NETS
SPECIALNETS 1 ; - p + ROUTED m1 100 ( 1000 1000 ) ( 2000 1000 ) NEW m1 100 ( 3000 1000 ) ( 4000 1000 ) ; END SPECIALNETS END DESIGN
";
    assert!(rt; has_faults(rt.alloc(), block, &[]));
}
