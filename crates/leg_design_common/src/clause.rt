//! Clauses (LEF/DEF 5.8, "DEF Syntax").

ghost use Rattle.std.specs.Prelude.{◌≢◌, IfErr};
ghost use Rattle.std.specs.List.{list_all};
ghost use Rattle.leg_lex.specs.declared.read_fault.FaultKind.TheVariants.{Memory};
ghost use Rattle.leg_lex.specs.Words.{Reads, Means};
ghost use Rattle.leg_grammar.specs.Def.Guard.{when};
ghost use Rattle.leg_grammar.specs.Def.Clause.{is_clause};
ghost use Rattle.leg_grammar.specs.Def.Placement.{rect_at};

use crate::placement::rect;
use leg_geom::Rect;
use leg_lex::{Cursor, FaultKind, Need, ReadFault};

/// That a clause begins with a name or a quoted word.
#[tactic(auto, using(crate::proofs::Clauses::is_one, crate::proofs::Clauses::is_none))]
pub fn clause(clause: &Cursor<'_, '_>) -> Result<(), ReadFault>
    ensures means { Means (λ x. x) result (when (is_clause clause.now)) }
    ensures no_memory { IfErr result (λ fault. fault.kind ≢ Memory) }
{
    clause.again().word()?;
    Ok(())
}

/// A rectangle by two corners. Where a mask is named in its place, it is `Unsupported`.
pub fn rect_or_mask(is_masked: bool, clause: &mut Cursor<'_, '_>) -> Result<Rect, ReadFault>
    ensures reads { Reads (λ r. r) result clause.new (rect_at clause.old) }
    ensures no_memory { IfErr result (λ fault. fault.kind ≢ Memory) }
{
    match rect(clause) {
        Err(fault) if is_masked && fault.kind == FaultKind::Unexpected => {
            Err(fault.of_kind(FaultKind::Unsupported).needs(Need::NoMask))
        }
        answer => answer,
    }
}

/// That each clause begins with a name or a quoted word.
#[tactic(auto, using(crate::proofs::Clauses::one_more, crate::proofs::Clauses::one_not, crate::proofs::Clauses::all_are))]
pub fn all_clauses(clauses: &[Cursor<'_, '_>]) -> Result<(), ReadFault>
    ensures means { Means (λ x. x) result (when (list_all is_clause clauses.now)) }
    ensures no_memory { IfErr result (λ fault. fault.kind ≢ Memory) }
{
    for part in clauses {
        clause(part)?;
    }
    Ok(())
}
