//! What `finish` answers, and what it tells while it runs.

use leg_app::{Command, Progress, Status, run_with_progress};
use std::alloc::Global;
use test_texts::cells;

// Two nets that want the same crossings of tracks: whichever is laid first by a shortest walk shuts the other one in.
const BLOCK: &[u8] = b"VERSION 5.8 ;
DESIGN top ;
UNITS DISTANCE MICRONS 1000 ;
DIEAREA ( 0 0 ) ( 1600 1600 ) ;
TRACKS X 200 DO 4 STEP 400 LAYER m2 ;
TRACKS Y 200 DO 4 STEP 400 LAYER m1 ;
PINS 4 ;
- a0 + NET a + PORT + LAYER m1 ( -50 -50 ) ( 50 50 ) + PLACED ( 200 200 ) N ;
- a1 + NET a + PORT + LAYER m1 ( -50 -50 ) ( 50 50 ) + PLACED ( 1400 200 ) N ;
- b0 + NET b + PORT + LAYER m2 ( -50 -50 ) ( 50 50 ) + PLACED ( 600 200 ) N ;
- b1 + NET b + PORT + LAYER m2 ( -50 -50 ) ( 50 50 ) + PLACED ( 600 1000 ) N ;
END PINS
BLOCKAGES 3 ;
- LAYER m2 RECT ( 550 350 ) ( 650 450 ) ;
- LAYER m1 RECT ( 150 950 ) ( 1450 1050 ) ;
- LAYER m1 RECT ( 350 1350 ) ( 450 1450 ) ;
END BLOCKAGES
NETS 2 ;
- a ( PIN a0 ) ( PIN a1 ) ;
- b ( PIN b0 ) ( PIN b1 ) ;
END NETS
END DESIGN
";

// Both go the longer way around.
const ANSWER: &[u8] = b"VERSION 5.8 ;
DESIGN top ;
UNITS DISTANCE MICRONS 1000 ;
DIEAREA ( 0 0 ) ( 1600 1600 ) ;
TRACKS X 200 DO 4 STEP 400 LAYER m2 ;
TRACKS Y 200 DO 4 STEP 400 LAYER m1 ;
PINS 4 ;
- a0 + NET a + PORT + LAYER m1 ( -50 -50 ) ( 50 50 ) + PLACED ( 200 200 ) N ;
- a1 + NET a + PORT + LAYER m1 ( -50 -50 ) ( 50 50 ) + PLACED ( 1400 200 ) N ;
- b0 + NET b + PORT + LAYER m2 ( -50 -50 ) ( 50 50 ) + PLACED ( 600 200 ) N ;
- b1 + NET b + PORT + LAYER m2 ( -50 -50 ) ( 50 50 ) + PLACED ( 600 1000 ) N ;
END PINS
BLOCKAGES 3 ;
- LAYER m2 RECT ( 550 350 ) ( 650 450 ) ;
- LAYER m1 RECT ( 150 950 ) ( 1450 1050 ) ;
- LAYER m1 RECT ( 350 1350 ) ( 450 1450 ) ;
END BLOCKAGES
NETS 2 ;
- a ( PIN a0 ) ( PIN a1 )
  + ROUTED m1 ( 200 200 ) V12
  NEW m2 ( 200 200 ) ( 200 600 )
  NEW m1 ( 200 600 ) V12
  NEW m1 ( 200 600 ) ( 1400 600 )
  NEW m1 ( 1400 600 ) V12
  NEW m2 ( 1400 600 ) ( 1400 200 )
  NEW m1 ( 1400 200 ) V12 ;
- b ( PIN b0 ) ( PIN b1 )
  + ROUTED m1 ( 600 200 ) V12
  NEW m1 ( 600 200 ) ( 1000 200 )
  NEW m1 ( 1000 200 ) V12
  NEW m2 ( 1000 200 ) ( 1000 1400 )
  NEW m1 ( 1000 1400 ) V12
  NEW m1 ( 1000 1400 ) ( 600 1400 )
  NEW m1 ( 600 1400 ) V12
  NEW m2 ( 600 1400 ) ( 600 1000 ) ;
END NETS
END DESIGN
# length 4400
# vias 8
";

/// Notes what it is told of rounds.
#[derive(Drop)]
struct Told {
    rounds: u32,
    in_conflict: u32,
    are_in_order: bool,
}

impl Progress for Told {
    fn round(&mut self, number: u32, in_conflict: u32) {
        self.are_in_order = self.are_in_order && self.rounds.checked_add(1) == Some(number);
        self.rounds = number;
        self.in_conflict = in_conflict;
    }
}

// Whether the nets are laid, and all rounds are told, of which the last one leaves no net in conflict, and not the first.
fn finishes(alloc: Global) -> bool {
    let mut told = Told {
        rounds: 0,
        in_conflict: 0,
        are_in_order: true,
    };
    let mut out = Vec::new(alloc);
    let ended = run_with_progress(
        alloc,
        Command::Finish,
        &[cells()],
        BLOCK,
        &mut out,
        &mut told,
    );
    let is_answered = ended == Ok(Status::Success) && out.as_slice() == ANSWER;
    is_answered && told.are_in_order && told.rounds > 1 && told.in_conflict == 0
}

#[test]
fn nets_are_laid_past_one_another_in_rounds(rt: HostRuntime) {
    assert!(rt; finishes(rt.alloc()));
}
