//! What a design has once.

use super::frame::differ;
use leg_compare::{Difference, Part, Verdict};

#[test]
fn each_part_differs(rt: HostRuntime) {
    let first = "DESIGN top ; UNITS DISTANCE MICRONS 1000 ; DIEAREA ( 0 0 ) ( 800 2000 ) ;
ROW r0 core 0 0 N DO 4 BY 1 STEP 200 0 ;
TRACKS X 100 DO 4 STEP 200 LAYER m2 ;
BLOCKAGES 1 ; - PLACEMENT RECT ( 0 0 ) ( 100 100 ) ; END BLOCKAGES
END DESIGN
";
    let second =
        "DESIGN pot ; UNITS DISTANCE MICRONS 1000 ; DIVIDERCHAR \"/\" ; BUSBITCHARS \"[]\" ; DIEAREA ( 0 0 ) ( 900 2000 ) ;
ROW r0 core 0 0 FS DO 4 BY 1 STEP 200 0 ;
TRACKS X 100 DO 4 STEP 200 ;
BLOCKAGES 1 ; - LAYER m1 RECT ( 0 0 ) ( 100 100 ) ; END BLOCKAGES
END DESIGN
";
    let expected = [
        Difference::Whole(Part::Name),
        Difference::Whole(Part::Divider),
        Difference::Whole(Part::BusBits),
        Difference::Whole(Part::Die),
        Difference::Whole(Part::Rows),
        Difference::Whole(Part::Tracks),
        Difference::Whole(Part::Blockages),
    ];
    assert!(rt; differ(rt.alloc(), (first, first), &[], Verdict::Same));
    assert!(rt; differ(rt.alloc(), (first, second), &expected, Verdict::Differs(7)));
}
