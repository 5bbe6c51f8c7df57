//! That what the search of `finish` holds finished is judged so, on many made blocks.

use leg_app::{Command, Progress, Status, run_with_progress};
use std::alloc::{AllocError, Global};
use test_texts::cells;

// A made block has two terminals for each net.
const PINS: u32 = 12;

// Blocks differ by the step from pin to pin and by the place of the first one.
const STEPS: u32 = 20;

const FIRSTS: u32 = 12;

/// Notes how many rounds there were, and what the last one left.
#[derive(Drop)]
struct Last {
    rounds: u32,
    in_conflict: u32,
}

impl Progress for Last {
    fn round(&mut self, number: u32, in_conflict: u32) {
        self.rounds = number;
        self.in_conflict = in_conflict;
    }
}

/// What came of the blocks.
#[derive(Drop)]
struct Outcome {
    // Blocks that are finished, and those of them that took more than one round.
    finished: u32,
    in_rounds: u32,
    // Blocks of which the last round leaves a net in conflict, and those without a round.
    left: u32,
    // Blocks of which it leaves none, and which are not finished.
    refused: u32,
}

// A block of six nets on six tracks each way, its pins on places that differ: 37 is a prime.
fn block(alloc: Global, step: u32, first: u32) -> Result<String, AllocError> {
    let mut text = String::from_str(
        alloc,
        "VERSION 5.8 ;
DESIGN top ;
UNITS DISTANCE MICRONS 1000 ;
DIEAREA ( 0 0 ) ( 2800 2800 ) ;
TRACKS X 200 DO 6 STEP 400 LAYER m2 ;
TRACKS Y 200 DO 6 STEP 400 LAYER m1 ;
PINS 12 ;
",
    )?;
    for pin in 0..PINS {
        let place = step.wrapping_mul(pin).wrapping_add(first) % 37;
        let (x, y) = (200 + place % 6 * 400, 200 + place / 6 * 400);
        let net = pin / 2;
        text.push_str(&format!(in alloc;
            "- p{pin} + NET n{net} + PORT + LAYER m1 ( -50 -50 ) ( 50 50 ) + PLACED ( {x} {y} ) N ;\n"
        )?)?;
    }
    text.push_str("END PINS\nNETS 6 ;\n")?;
    for net in 0..PINS / 2 {
        let (one, other) = (2 * net, 2 * net + 1);
        text.push_str(&format!(in alloc; "- n{net} ( PIN p{one} ) ( PIN p{other} ) ;\n")?)?;
    }
    text.push_str("END NETS\nEND DESIGN\n")?;
    Ok(text)
}

// Notes what comes of one block.
fn try_block(alloc: Global, block: &[u8], outcome: &mut Outcome) {
    let mut last = Last {
        rounds: 0,
        in_conflict: 0,
    };
    let mut out = Vec::new(alloc);
    let ended = run_with_progress(
        alloc,
        Command::Finish,
        &[cells()],
        block,
        &mut out,
        &mut last,
    );
    let is_finished = ended == Ok(Status::Success);
    let counted = if last.rounds == 0 || last.in_conflict > 0 {
        &mut outcome.left
    } else if is_finished {
        &mut outcome.finished
    } else {
        &mut outcome.refused
    };
    *counted = counted.wrapping_add(1);
    if is_finished && last.rounds > 1 {
        outcome.in_rounds = outcome.in_rounds.wrapping_add(1);
    }
}

fn tried(alloc: Global) -> Result<Outcome, AllocError> {
    let mut outcome = Outcome {
        finished: 0,
        in_rounds: 0,
        left: 0,
        refused: 0,
    };
    for step in 1..=STEPS {
        for first in 0..FIRSTS {
            let block = block(alloc, step, first)?;
            try_block(alloc, block.as_bytes(), &mut outcome);
        }
    }
    Ok(outcome)
}

#[test]
fn what_the_search_holds_finished_is_judged_so(rt: HostRuntime) {
    let outcome = tried(rt.alloc());
    assert!(rt;
        matches!(
            outcome,
            Ok(Outcome {
                finished: 50..,
                in_rounds: 20..,
                left: 1..,
                refused: 0
            })
        )
    );
}
