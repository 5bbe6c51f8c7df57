//! Where a search puts the pairs that it finds.

ghost use Rattle.std.specs.Prelude.{◌≡◌, ◌<◌, ◌^◌, ◌++◌, ◌∷◌, [], ℕ, OnOk};

use std::alloc::{AllocError, Allocator};

/// Takes the pairs that a search finds, one after another.
pub trait PairSink {
    // What the sink is after it took a pair.
    ghost Takes: { Self → ℕ × ℕ → Self → Type 0 };

    // It takes numbers below this one.
    ghost room_of: { Self → ℕ };

    /// Takes the numbers of two items, the lower one first. On refusal the pair counts as not taken.
    fn take(&mut self, pair: (u32, u32)) -> Result<(), AllocError>
        requires order { pair.0 < pair.1 }
        requires room { pair.1 < room_of self.old }
        ensures taken { OnOk result (Takes self.old pair self.new) }
        ensures same { room_of self.new ≡ room_of self.old };
}

/// Takes a pair by putting it after the others.
impl<A: Allocator> PairSink for Vec<(u32, u32), A> {
    ghost Takes = { λ before pair after. after.items ≡ before.items ++ pair ∷ [] };

    ghost room_of = { λ v. 2 ^ 32 };

    fn take(&mut self, pair: (u32, u32)) -> Result<(), AllocError> {
        self.push(pair)?;
        Ok(())
    }
}
