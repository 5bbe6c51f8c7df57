//! A cell with the free parts of one object's memory, or with nothing while they are in use.

ghost use Rattle.std.specs.Prelude.{◌≡◌, ℕ};
ghost use base.Fml.{fex, fsep, ftrue};
ghost use Rattle.leg_c_memory.specs.Parts.{parts_object, IsOf};
ghost use Rattle.leg_c_memory.specs.Ownership.{behind_a_ref};

use crate::free::FreeParts;
use std::marker::{Move, Owns};

/// Its value, in a clause, is the object.
pub(crate) struct Slot {
    parts: Option<FreeParts>,
}

impl Owns for Slot {
    ghost Value = { ℕ };

    ghost shr_at = { λ b. behind_a_ref Fields (λ i. fex (IsOf b i.parts) (λ _. ftrue)) };
}

impl Move for Slot {
    ghost own_val = { λ b vs. fex Inside (λ i. fsep (Fields.own_val i vs) (fex (IsOf b i.parts) (λ _. ftrue))) };
}

impl Slot {
    pub(crate) fn new(parts: FreeParts) -> Slot
        ensures { result ≡ parts_object parts }
    {
        Slot { parts: Some(parts) }
    }

    /// Puts these in, and gives those that it had.
    pub(crate) fn replace(&self, parts: Option<FreeParts>) -> Option<FreeParts>
        requires { IsOf self.now parts }
        ensures { IsOf self.now result }
    {
        let place = &raw const self.parts as *mut Option<FreeParts>;
        unsafe {
            let old = place.read();
            place.write(parts);
            old
        }
    }

    pub(crate) fn into_inner(self) -> Option<FreeParts> {
        let Slot { parts } = self;
        parts
    }
}
