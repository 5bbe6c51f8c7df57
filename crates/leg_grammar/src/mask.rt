//! Masks of shapes, tracks and wiring (LEF/DEF 5.8, "Layer Geometries", "Via", "Tracks", "Pins", "Blockages", "Regular Wiring
//! Statement", "Special Wiring Statement").

ghost use Rattle.std.specs.Prelude.{◌≡◌};
ghost use Rattle.leg_lex.specs.Words.{Reads};
ghost use Rattle.leg_grammar.specs.Mask.{drops_masks, at_mask, mask_at, past_mask};

use crate::profile::{Masks, Profile};
use leg_lex::{Cursor, ReadFault};

/// Whether masks that a text names are dropped.
pub fn drops_masks(profile: Profile) -> bool
    ensures { result ≡ drops_masks profile }
{
    match profile {
        Profile::Wide { masks, .. } => masks == Masks::Dropped,
        Profile::Narrow => false,
    }
}

/// Whether a mask comes next that is dropped.
pub fn is_at_mask(profile: Profile, words: &Cursor<'_, '_>) -> bool
    ensures { result ≡ at_mask profile words.now }
{
    drops_masks(profile) && words.is_at(b"MASK")
}

/// `MASK number`, which has no effect.
#[tactic(auto, unfolding(crate::specs::Mask::mask_at))]
pub fn mask(words: &mut Cursor<'_, '_>) -> Result<(), ReadFault>
    ensures { Reads (λ x. x) result words.new (mask_at words.old) }
{
    words.keyword(b"MASK")?;
    words.whole()?;
    Ok(())
}

/// Reads past a mask that is dropped, if it is next.
#[tactic(auto, unfolding(crate::specs::Mask::past_mask))]
pub fn past_mask(profile: Profile, words: &mut Cursor<'_, '_>) -> Result<(), ReadFault>
    ensures { Reads (λ x. x) result words.new (past_mask profile words.old) }
{
    if is_at_mask(profile, words) {
        mask(words)?;
    }
    Ok(())
}
