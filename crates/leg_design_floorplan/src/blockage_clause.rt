//! Clauses of a blockage, between its layer and its rectangles (LEF/DEF 5.8, "Blockages"; what they make of the blockage is
//! lefdef's own rule).

ghost use Rattle.std.specs.Prelude.{◌≡◌, codes};
ghost use Rattle.leg_lex.specs.Words.{Reads, keyword_at};
ghost use Rattle.leg_grammar.specs.Def.BlockageClause.{origin_clause, layer_clause, softness_at, soft_is_kept, placement_clause, clause_in, blockage_clause};

use leg_grammar::mask::{is_at_mask, mask};
use leg_grammar::{Profile, Soft};
use leg_lex::{Cursor, FaultKind, ReadFault};

/// The keyword `PUSHDOWN` of a clause, which says that the blockage comes from a level above. The keyword of another clause is
/// `Unsupported`.
fn push_down_keyword(words: &mut Cursor<'_, '_>) -> Result<(), ReadFault>
    ensures { Reads (λ x. x) result words.new (keyword_at (codes "PUSHDOWN") words.old) }
{
    match words.keyword(b"PUSHDOWN") {
        Err(fault) if fault.kind == FaultKind::Unexpected => {
            Err(fault.of_kind(FaultKind::Unsupported))
        }
        answer => answer,
    }
}

/// Reads past what a blockage comes from: `COMPONENT` and a name, which isn't looked up, or `PUSHDOWN`.
#[tactic(auto, unfolding(leg_grammar::specs::Def::BlockageClause::origin_clause))]
fn origin_clause(words: &mut Cursor<'_, '_>) -> Result<(), ReadFault>
    ensures { Reads (λ x. x) result words.new (origin_clause words.old) }
{
    if words.is_at(b"COMPONENT") {
        words.keyword(b"COMPONENT")?;
        words.name()?;
        Ok(())
    } else {
        push_down_keyword(words)
    }
}

/// A clause of a blockage on a layer: whether the blockage is kept after it.
#[tactic(auto, unfolding(leg_grammar::specs::Def::BlockageClause::layer_clause))]
fn layer_clause(profile: Profile, kept: bool, words: &mut Cursor<'_, '_>) -> Result<bool, ReadFault>
    ensures { Reads (λ stays. stays) result words.new (layer_clause profile kept words.old) }
{
    if words.is_at(b"SLOTS") || words.is_at(b"FILLS") {
        words.any()?;
        Ok(false)
    } else if is_at_mask(profile, words) {
        mask(words)?;
        Ok(kept)
    } else {
        origin_clause(words)?;
        Ok(kept)
    }
}

/// Reads past `SOFT`, or `PARTIAL` and a density.
#[tactic(auto, unfolding(leg_grammar::specs::Def::BlockageClause::softness_at))]
fn softness(words: &mut Cursor<'_, '_>) -> Result<(), ReadFault>
    ensures { Reads (λ x. x) result words.new (softness_at words.old) }
{
    if words.is_at(b"SOFT") {
        words.keyword(b"SOFT")
    } else {
        words.keyword(b"PARTIAL")?;
        words.word()?;
        Ok(())
    }
}

/// Whether a soft or partial blockage is kept, where it may be read.
fn soft_is_kept(soft: Soft, kept: bool) -> Option<bool>
    ensures { result ≡ soft_is_kept soft kept }
{
    match soft {
        Soft::Refused => None,
        Soft::Dropped => Some(false),
        Soft::Hard => Some(kept),
    }
}

/// A clause of a placement blockage: whether the blockage is kept after it. `SOFT` and `PARTIAL` are `Unsupported` where they
/// are refused.
#[tactic(auto, unfolding(leg_grammar::specs::Def::BlockageClause::placement_clause))]
fn placement_clause(soft: Soft, kept: bool, words: &mut Cursor<'_, '_>) -> Result<bool, ReadFault>
    ensures { Reads (λ stays. stays) result words.new (placement_clause soft kept words.old) }
{
    if words.is_at(b"SOFT") || words.is_at(b"PARTIAL") {
        let Some(stays) = soft_is_kept(soft, kept) else {
            return Err(words.fault(FaultKind::Unsupported));
        };
        softness(words)?;
        Ok(stays)
    } else {
        origin_clause(words)?;
        Ok(kept)
    }
}

/// What comes after the plus of a clause.
#[tactic(auto, unfolding(leg_grammar::specs::Def::BlockageClause::clause_in))]
fn clause_in(
    profile: Profile,
    layer: Option<usize>,
    kept: bool,
    words: &mut Cursor<'_, '_>,
) -> Result<bool, ReadFault>
    ensures { Reads (λ stays. stays) result words.new (clause_in profile layer kept words.old) }
{
    match profile {
        Profile::Narrow => {
            push_down_keyword(words)?;
            Ok(kept)
        }
        Profile::Wide { soft, .. } => match layer {
            Some(_) => layer_clause(profile, kept, words),
            None => placement_clause(soft, kept, words),
        },
    }
}

/// A clause: whether the blockage, which was kept so far or not, is kept after it. In the narrow profile only `PUSHDOWN` is one.
#[tactic(auto, unfolding(leg_grammar::specs::Def::BlockageClause::blockage_clause))]
pub(crate) fn blockage_clause(
    profile: Profile,
    layer: Option<usize>,
    kept: bool,
    words: &mut Cursor<'_, '_>,
) -> Result<bool, ReadFault>
    ensures { Reads (λ stays. stays) result words.new (blockage_clause profile layer kept words.old) }
{
    words.mark(b'+')?;
    clause_in(profile, layer, kept, words)
}
