//! A call that is made again and again, each time with another growth refused.

ghost use Rattle.std.specs.Prelude.{◌≡◌, ◌<◌, ◌≤◌, ◌↔◌, IsTrue, false, IfOk, IfErr, IsOk};

use std::marker::Model;

/// What came of a call of which one growth was to be refused.
#[derive(Clone, Copy)]
pub struct Turn {
    /// How many growths it asked for.
    pub growths: u64,
    /// Whether it answered that memory ran out.
    pub refused: bool,
}

/// What came of the turns of a call so far: in the first its first growth is refused, in the second its second, and so on.
#[derive(Drop)]
pub struct Turns {
    refusals: bool,
    ended: bool,
}

impl Model for Turns {
    ghost use Rattle.test_alloc.specs.TurnsSoFar.{TurnsSoFar};

    ghost Value = { TurnsSoFar };

    ghost view = { λ t. record { refusals = t.refusals; ended = t.ended } };
}

impl Turns {
    /// More growths than any call asks for.
    pub const LIMIT: u64 = 100_000;

    /// No turn so far.
    pub fn new() -> Turns
        ensures refusals { result.refusals ≡ false }
        ensures ended { result.ended ≡ false }
    {
        Turns {
            refusals: false,
            ended: false,
        }
    }

    /// Whether the turn of this number is the last one, in which the call asks for fewer growths. In a turn it may answer as with
    /// ample memory if it can do without the growth that is refused.
    ///
    /// It fails if the call answers that memory ran out although no growth was refused, or if it never answers so.
    pub fn is_last(&mut self, number: u64, turn: Turn) -> Result<bool, &'static str>
        ensures last { IfOk result (λ last. IsTrue last ↔ turn.growths < number) }
        ensures answered { IfOk result (λ last. IsTrue last → IsTrue self.old.refusals) }
        ensures refused { IfOk result (λ last. IsTrue last → turn.refused ≡ false) }
        ensures wrong { IfErr result (λ _. turn.growths < number) }
        ensures because { IfErr result (λ _. turn.refused ≡ false → self.old.refusals ≡ false) }
        ensures ended { IfOk result (λ last. IsTrue last → IsTrue self.new.ended) }
        ensures noted { number ≤ turn.growths → (IsTrue self.new.refusals ↔ (turn.refused ≡ false → IsTrue self.old.refusals)) }
        ensures open { number ≤ turn.growths → self.new.ended ≡ self.old.ended }
    {
        if turn.growths >= number {
            self.refusals = self.refusals || turn.refused;
            return Ok(false);
        }
        if turn.refused {
            return Err("memory ran out although no growth was refused");
        }
        if !self.refusals {
            return Err("memory never ran out");
        }
        self.ended = true;
        Ok(true)
    }

    /// It fails if no turn was the last one.
    pub fn end(&self) -> Result<(), &'static str>
        ensures { IsOk result ↔ IsTrue self.now.ended }
    {
        if self.ended {
            Ok(())
        } else {
            Err("growths without end")
        }
    }
}

/// Makes a call with its first growth refused, then with its second, and so on, until it asks for fewer: the expression is its turn
/// of this number. It fails as `Turns` does.
#[macro_export]
macro_rules! in_turn {
    ($number:ident => $turn:expr) => {{
        let mut turns = $crate::Turns::new();
        for $number in 1..$crate::Turns::LIMIT {
            let turn = $turn;
            if turns.is_last($number, turn)? {
                break;
            }
        }
        turns.end()?;
    }};
}
