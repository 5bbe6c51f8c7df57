//! A DEF text with its words.

ghost use Rattle.std.specs.Prelude.{ℕ, ◌≡◌, ◌≢◌, ◌<◌, ◌≤◌, length, IfOk, IfErr};
ghost use Rattle.leg_lex.specs.declared.limits.TheConstants.{TEXT_LIMIT, UNITS_LIMIT};
ghost use Rattle.leg_lex.specs.declared.read_fault.FaultKind.TheVariants.{Memory};
ghost use Rattle.leg_lex.specs.Denotes.{Denotes, HasNoWords};
ghost use Rattle.leg_design_records.specs.Records.{DesignModel};
ghost use Rattle.leg_grammar.specs.declared.profile.Profile.TheVariants.{Narrow};
ghost use Rattle.leg_grammar.specs.Def.Header.{units_in};
ghost use Rattle.leg_grammar.specs.Def.Form.{design_in};

use crate::form::design_words;
use crate::header::units_anywhere;
use leg_design_records::Design;
use leg_grammar::Profile;
use leg_lex::{Cursor, ReadFault, Words, file_words};
use leg_lib_records::Library;
use std::alloc::Allocator;
use std::marker::Model;

/// A DEF text whose words are made once, for its units and for its design. Contracts see it as the text.
///
/// A fault gives the text's number, 0, and the line of the word at fault.
#[derive(Drop)]
pub struct DefText<'a, A: Allocator> {
    text: &'a [u8],
    words: Words<'a, A>,
}

impl<'a, A: Allocator> Model for DefText<'a, A> {
    ghost use Rattle.std.specs.Prelude.{ℕ, List};
    ghost use Rattle.leg_lex.specs.Denotes.{HasWords};

    ghost Value = { List ℕ };

    ghost view = { λ d. d.text.now };

    ghost invariant = { λ d. HasWords d.text.now d.words };
}

impl<'a, A: Allocator + Copy> DefText<'a, A> {
    /// The text with its words. Refused as `file_words` refuses it.
    pub fn new(alloc: A, text: &'a [u8]) -> Result<DefText<'a, A>, ReadFault>
        ensures is { IfOk result (λ def. def ≡ text.now) }
        // A text that is too long is never reported as out of memory.
        ensures too_long { IfErr result (λ fault. TEXT_LIMIT < length text.now → fault.kind ≢ Memory) }
        ensures none { IfErr result (λ fault. fault.kind ≢ Memory → HasNoWords text.now) }
    {
        match file_words(alloc, 0, text) {
            Ok(words) => Ok(DefText { text, words }),
            Err(fault) => Err(fault),
        }
    }

    /// The database units of a micron that the DEF denotes, from 1 to 20,000, at the first place where its `UNITS`
    /// appear.
    pub fn units(&self) -> Result<u32, ReadFault>
        ensures found { IfOk result (λ n. Denotes units_in self.now n) }
        ensures limits { IfOk result (λ n. (1 ≤ n) × (n ≤ UNITS_LIMIT)) }
        // The text denotes no other number.
        ensures only { IfOk result (λ n. (said : ℕ) → Denotes units_in self.now said → said ≡ n) }
        ensures none { IfErr result (λ fault. fault.kind ≢ Memory → (said : ℕ) → ¬ Denotes units_in self.now said) }
        // It needs no memory.
        ensures no_memory { IfErr result (λ fault. fault.kind ≢ Memory) }
    {
        units_anywhere(&mut Cursor::new(0, &self.words))
    }

    /// The design that the DEF denotes in a profile under a library. The words go with it, so that they take no memory any more.
    pub fn design_as(
        self,
        alloc: A,
        profile: Profile,
        library: &'a Library<'a, A>,
    ) -> Result<Design<'a, A>, ReadFault>
        ensures found { IfOk result (λ design. Denotes (design_in profile library.now) self.entry design) }
        // The text denotes no other design.
        ensures only { IfOk result (λ design. (said : DesignModel)
            → Denotes (design_in profile library.now) self.entry said → said ≡ design) }
        ensures none { IfErr result (λ fault. fault.kind ≢ Memory
            → (said : DesignModel) → ¬ Denotes (design_in profile library.now) self.entry said) }
    {
        design_words(alloc, profile, library, &mut Cursor::new(0, &self.words))
    }

    /// The design that the DEF denotes in the narrow profile: `design_as` of `Profile::Narrow`.
    pub fn design(self, alloc: A, library: &'a Library<'a, A>) -> Result<Design<'a, A>, ReadFault>
        ensures found { IfOk result (λ design. Denotes (design_in Narrow library.now) self.entry design) }
        // The text denotes no other design.
        ensures only { IfOk result (λ design. (said : DesignModel)
            → Denotes (design_in Narrow library.now) self.entry said → said ≡ design) }
        ensures none { IfErr result (λ fault. fault.kind ≢ Memory
            → (said : DesignModel) → ¬ Denotes (design_in Narrow library.now) self.entry said) }
    {
        self.design_as(alloc, Profile::Narrow, library)
    }
}
