//! What is told of `finish` while it runs.

use leg_app::Progress;
use std::rt::Runtime;
use std::time::Instant;

// A run of fewer seconds tells nothing.
const SECONDS: u64 = 1;

/// Tells of each round on standard error, if that is a terminal and the program has run for a second or longer.
#[derive(Drop)]
pub struct Rounds<'r, R> {
    rt: &'r R,
    // (none where nothing is told)
    began: Option<Instant>,
}

impl<'r, R: Runtime> Rounds<'r, R> {
    /// Those of the program that begins now.
    pub fn new(rt: &'r R, is_terminal: bool) -> Self {
        let began = if is_terminal {
            Instant::now(rt).ok()
        } else {
            None
        };
        Rounds { rt, began }
    }

    /// Whether the program has run for so long.
    fn is_late(&self) -> bool {
        let Some(began) = self.began else {
            return false;
        };
        match began.elapsed(self.rt) {
            Ok(taken) => taken.as_secs() >= SECONDS,
            Err(_) => false,
        }
    }
}

impl<R: Runtime> Progress for Rounds<'_, R> {
    fn round(&mut self, number: u32, in_conflict: u32) {
        if self.is_late() {
            let rt = self.rt;
            // A line that can't be written is left out: it changes no answer and no status.
            let _ = eprintln!(rt; "lefdef: round {number}: {in_conflict} nets in conflict");
        }
    }
}
