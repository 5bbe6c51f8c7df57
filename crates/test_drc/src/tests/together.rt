//! A block that breaks each rule once.

use super::frame::has_faults;
use leg_drc::DrcFault;

fn block() -> &'static str {
    "VERSION 5.8 ; DESIGN traps ; UNITS DISTANCE MICRONS 1000 ; DIEAREA ( 0 0 ) ( 20000 10000 ) ;
SPECIALNETS 3 ;
- wide + ROUTED m1 400 ( 1000 1000 ) ( 3000 1000 ) ;
- vdd + ROUTED m1 200 + SHAPE STRIPE ( 1000 8000 ) ( 5000 8000 ) NEW m2 200 + SHAPE STRIPE ( 3000 7000 ) ( 3000 9000 ) ;
- thin + ROUTED m1 60 ( 12000 1000 ) ( 14000 1000 ) ;
END SPECIALNETS
NETS 4 ;
- near + ROUTED m1 ( 1500 1400 ) ( 2500 1400 ) ;
- cuts + ROUTED m1 ( 9000 1000 ) V12 NEW m1 ( 9150 1000 ) V12 NEW m1 ( 8800 1000 ) ( 9400 * ) NEW m2 ( 9000 900 ) ( * 1400 ) NEW m2 ( 9150 900 ) ( * 1400 ) ;
- grid + ROUTED m1 ( 10000 1002 ) ( 11000 1002 ) ;
- out + ROUTED m1 ( 19000 3000 ) ( 20500 3000 ) ;
END NETS
END DESIGN
"
}

#[test]
fn each_rule_is_broken_once(rt: HostRuntime) {
    let expected = [
        DrcFault::Supply(5, 1),
        DrcFault::MinWidth(15),
        DrcFault::Table(0, 12),
        DrcFault::CutNear(2, 5),
        DrcFault::OffGrid(10),
        DrcFault::OutDie(11),
    ];
    assert!(rt; has_faults(rt.alloc(), block(), &expected));
}

#[test]
fn nothing_is_wrong_without_wires(rt: HostRuntime) {
    let block = "DESIGN top ; UNITS DISTANCE MICRONS 1000 ; DIEAREA ( 0 0 ) ( 100 100 ) ;
COMPONENTS 1 ; - u PAD + PLACED ( 2 3 ) N ; END COMPONENTS END DESIGN
";
    assert!(rt; has_faults(rt.alloc(), block, &[]));
}
