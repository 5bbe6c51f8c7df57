//! Masks of tracks (LEF/DEF 5.8, "Tracks").

ghost use Rattle.leg_lex.specs.Words.{Reads};
ghost use Rattle.leg_grammar.specs.Def.TrackMask.{past_same_mask, past_track_mask};

use leg_grammar::Profile;
use leg_grammar::mask::{is_at_mask, mask};
use leg_lex::{Cursor, ReadFault};

/// Reads past `SAMEMASK`, if it is written.
#[tactic(auto, unfolding(leg_grammar::specs::Def::TrackMask::past_same_mask))]
fn past_same_mask(words: &mut Cursor<'_, '_>) -> Result<(), ReadFault>
    ensures { Reads (λ x. x) result words.new (past_same_mask words.old) }
{
    if words.is_at(b"SAMEMASK") {
        words.keyword(b"SAMEMASK")
    } else {
        Ok(())
    }
}

/// Reads past a mask of tracks that is dropped, if it is next.
#[tactic(auto, unfolding(leg_grammar::specs::Def::TrackMask::past_track_mask))]
pub(crate) fn past_track_mask(profile: Profile, words: &mut Cursor<'_, '_>) -> Result<(), ReadFault>
    ensures { Reads (λ x. x) result words.new (past_track_mask profile words.old) }
{
    if is_at_mask(profile, words) {
        mask(words)?;
        past_same_mask(words)
    } else {
        Ok(())
    }
}
