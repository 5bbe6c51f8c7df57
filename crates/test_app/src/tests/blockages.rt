//! What the commands answer about blocks with blockages of both kinds.

use super::{Case, writes_all};
use leg_app::{Command, Status};
use test_texts::{around_blockages, cells, in_a_blockage};

const VIOLATIONS: &[u8] = b"BLOCKED u2
SHORT m1 NET n1 450 850 550 1050 BLOCKAGE 2 450 700 550 1200
OPEN n1 u2 A
violations 3
";

#[test]
fn blockages_are_judged(rt: HostRuntime) {
    let blocked = Case {
        command: Command::PlaceCheck,
        lef: cells(),
        def: in_a_blockage(),
        status: Status::Violations,
        answer: b"BLOCKED u2\nviolations 1\n",
    };
    let checked = Case {
        command: Command::Check,
        answer: VIOLATIONS,
        ..blocked
    };
    let not_clean = Case {
        command: Command::Route,
        status: Status::Unsolved,
        answer: b"BLOCKED u2
SHORT m1 NET n1 450 850 550 1050 BLOCKAGE 2 450 700 550 1200
NOTCLEAN 2
",
        ..blocked
    };
    assert!(rt; writes_all(rt.alloc(), &blocked));
    assert!(rt; writes_all(rt.alloc(), &checked));
    assert!(rt; writes_all(rt.alloc(), &not_clean));
}

// The second inverter has left the placement blockage, and the wire goes around the other one.
const SOLVED: &[u8] = b"VERSION 5.8 ;
DESIGN top ;
UNITS DISTANCE MICRONS 1000 ;
DIEAREA ( 0 0 ) ( 1200 2000 ) ;
ROW r0 core 0 0 N DO 6 BY 1 STEP 200 0 ;
TRACKS X 100 DO 6 STEP 200 LAYER m2 ;
TRACKS Y 100 DO 10 STEP 200 LAYER m1 ;
COMPONENTS 2 ;
- u1 INV + PLACED ( 0 0 ) N ;
- u2 INV + PLACED ( 600 0 ) N ;
END COMPONENTS
BLOCKAGES 2 ;
- PLACEMENT RECT ( 400 0 ) ( 600 2000 ) ;
- LAYER m1 RECT ( 450 700 ) ( 550 1200 ) ;
END BLOCKAGES
NETS 1 ;
- n1 ( u1 Y ) ( u2 A )
  + ROUTED m1 ( 300 900 ) V12
  NEW m2 ( 300 900 ) ( 300 500 )
  NEW m1 ( 300 500 ) V12
  NEW m1 ( 300 500 ) ( 700 500 )
  NEW m1 ( 700 500 ) V12
  NEW m2 ( 700 500 ) ( 700 900 )
  NEW m1 ( 700 900 ) V12 ;
END NETS
END DESIGN
# move u2 200
# total 200
# greatest 200
";

// The same where nothing has moved.
const ROUTED: &[u8] = b"VERSION 5.8 ;
DESIGN top ;
UNITS DISTANCE MICRONS 1000 ;
DIEAREA ( 0 0 ) ( 1200 2000 ) ;
ROW r0 core 0 0 N DO 6 BY 1 STEP 200 0 ;
TRACKS X 100 DO 6 STEP 200 LAYER m2 ;
TRACKS Y 100 DO 10 STEP 200 LAYER m1 ;
COMPONENTS 2 ;
- u1 INV + PLACED ( 0 0 ) N ;
- u2 INV + PLACED ( 800 0 ) N ;
END COMPONENTS
BLOCKAGES 2 ;
- PLACEMENT RECT ( 400 0 ) ( 800 2000 ) ;
- LAYER m1 RECT ( 500 700 ) ( 700 1200 ) ;
END BLOCKAGES
NETS 1 ;
- n1 ( u1 Y ) ( u2 A )
  + ROUTED m1 ( 300 900 ) V12
  NEW m2 ( 300 900 ) ( 300 500 )
  NEW m1 ( 300 500 ) V12
  NEW m1 ( 300 500 ) ( 900 500 )
  NEW m1 ( 900 500 ) V12
  NEW m2 ( 900 500 ) ( 900 900 )
  NEW m1 ( 900 900 ) V12 ;
END NETS
END DESIGN
";

#[test]
fn blockages_are_kept_clear_and_printed(rt: HostRuntime) {
    let routed = Case {
        command: Command::Route,
        lef: cells(),
        def: around_blockages(),
        status: Status::Success,
        answer: ROUTED,
    };
    let solved = Case {
        command: Command::Flow,
        def: in_a_blockage(),
        answer: SOLVED,
        ..routed
    };
    let legal = Case {
        command: Command::Check,
        def: SOLVED,
        answer: b"legal\n",
        ..routed
    };
    assert!(rt; writes_all(rt.alloc(), &routed));
    assert!(rt; writes_all(rt.alloc(), &solved));
    assert!(rt; writes_all(rt.alloc(), &legal));
}
