//! What is read past.

ghost use Rattle.std.specs.Prelude.{◌≡◌, ◌≢◌, IfErr};
ghost use Rattle.std.specs.List.{after_first};
ghost use Rattle.leg_lex.specs.declared.read_fault.FaultKind.TheVariants.{Memory};
ghost use Rattle.leg_lex.specs.Words.{Reads, is_keyword, keyword_at, end_at, end_of};
ghost use Rattle.leg_lex.specs.Past.{past, past_extension};

use crate::cursor::Cursor;
use crate::read_fault::ReadFault;

impl<'t, 'a> Cursor<'t, 'a> {
    /// Reads past everything up to this keyword, and the keyword.
    #[tactic(auto, using(crate::proofs::ReadPast::keyword_later, crate::proofs::ReadPast::keyword_nowhere, crate::proofs::ReadPast::next_shorter))]
    pub fn past_keyword(&mut self, keyword: &[u8]) -> Result<(), ReadFault>
        ensures reads { Reads (λ x. x) result self.new (past (keyword_at keyword.now) self.old) }
        ensures no_memory { IfErr result (λ fault. fault.kind ≢ Memory) }
    {
        'words: while !self.is_at(keyword) {
            self.any()?;
        }
        self.keyword(keyword)
    }

    /// Reads past everything up to this keyword, and the keyword; where it doesn't appear, everything.
    #[tactic(auto, using(crate::proofs::OptionalKeyword::skipped_on, crate::proofs::OptionalKeyword::skipped_here, crate::proofs::OptionalKeyword::skipped_all, crate::proofs::OptionalKeyword::skip_shorter))]
    pub fn skip_past(&mut self, keyword: &[u8])
        ensures { self.new ≡ after_first (is_keyword keyword.now) self.old }
    {
        'words: while !self.is_at_end() && !self.is_at(keyword) {
            self.skip();
        }
        self.skip();
    }

    /// Reads past everything up to `END` and this keyword, and these two.
    #[tactic(auto, using(crate::proofs::ReadPast::past_later, crate::proofs::ReadPast::past_nowhere, crate::proofs::ReadPast::next_shorter))]
    pub fn past_end(&mut self, keyword: &[u8]) -> Result<(), ReadFault>
        ensures reads { Reads (λ x. x) result self.new (past (end_at keyword.now) self.old) }
        ensures no_memory { IfErr result (λ fault. fault.kind ≢ Memory) }
    {
        'words: while !self.is_at_end_keyword(keyword) {
            self.any()?;
        }
        self.end(keyword)
    }

    /// Reads past everything up to `END` and this name, and these two.
    #[tactic(auto, using(crate::proofs::ReadPast::past_later, crate::proofs::ReadPast::past_nowhere, crate::proofs::ReadPast::next_shorter))]
    pub fn past_end_of(&mut self, name: &[u8]) -> Result<(), ReadFault>
        ensures reads { Reads (λ x. x) result self.new (past (end_of name.now) self.old) }
        ensures no_memory { IfErr result (λ fault. fault.kind ≢ Memory) }
    {
        'words: while !self.is_at_end_of(name) {
            self.any()?;
        }
        self.end_of(name)
    }

    /// Reads past an extension: `BEGINEXT`, and everything up to `ENDEXT`.
    #[tactic(auto, unfolding(crate::specs::Past::past_extension))]
    pub fn past_extension(&mut self) -> Result<(), ReadFault>
        ensures reads { Reads (λ x. x) result self.new (past_extension self.old) }
        ensures no_memory { IfErr result (λ fault. fault.kind ≢ Memory) }
    {
        self.keyword(b"BEGINEXT")?;
        self.past_keyword(b"ENDEXT")
    }
}
