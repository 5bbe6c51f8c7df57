//! The sections of layers (LEF/DEF 5.8, "Layer").

ghost use Rattle.std.specs.Prelude.{◌≡◌, ◌-◌, ◌≤◌, length, take, drop, MatchOption, IfSome, None, Some};
ghost use Rattle.std.specs.List.{after_first};
ghost use Rattle.leg_drc_rules.specs.Section.{is_end, section_at};
ghost use Rattle.leg_drc_rules.specs.Steps.Memory.{AreBehindEnd};

use crate::skip::is_at_semicolon;
use leg_lex::Cursor;

/// A section of a layer.
#[derive(Drop)]
pub(crate) struct Section<'t, 'a> {
    /// The name of the layer.
    pub(crate) name: &'a [u8],
    /// The words of the text from the section's first one on.
    pub(crate) words: Cursor<'t, 'a>,
    /// How many words are left where the section's `END` is.
    pub(crate) left: usize,
    /// The words behind the section.
    pub(crate) rest: Cursor<'t, 'a>,
}

/// Looks for the words behind the next `END`, unless that `END` has been looked for already: each word of a text is looked at once.
#[tactic(auto, using(crate::proofs::Memories::look_again, crate::proofs::Memories::looked_before))]
fn look_behind_end<'t, 'a>(words: &Cursor<'t, 'a>, behind: &mut Cursor<'t, 'a>)
    requires { AreBehindEnd words.now behind.old }
    ensures found { behind.new ≡ after_first is_end words.now }
    ensures kept { AreBehindEnd words.now behind.new }
{
    if words.len() <= behind.len() {
        let mut rest = words.again();
        rest.skip_past(b"END");
        *behind = rest;
    }
}

/// The section of a layer that begins here, if one does. `behind` are the words behind an `END` that was looked for.
#[tactic(auto, unfolding(crate::specs::Section::section_at))]
pub(crate) fn section_from<'t, 'a>(
    words: &Cursor<'t, 'a>,
    behind: &mut Cursor<'t, 'a>,
) -> Option<Section<'t, 'a>>
    requires { AreBehindEnd (drop 2 words.now) behind.old }
    ensures found { MatchOption result (section_at words.now ≡ None)
        (λ s. section_at words.now ≡ Some (record { name = s.name.now; words = take (length s.words - s.left) s.words }, s.rest)) }
    ensures within { IfSome result (λ s. s.left ≤ length s.words) }
    ensures kept { AreBehindEnd (drop 2 words.now) behind.new }
{
    let mut start = words.again();
    let Ok(_layer) = start.keyword(b"LAYER") else {
        return None;
    };
    let Ok(name) = start.name() else {
        return None;
    };
    look_behind_end(&start, behind);
    let mut rest = behind.again();
    let Ok(end) = rest.name() else {
        return None;
    };
    if is_at_semicolon(&start) {
        return None;
    }
    if end != name {
        return None;
    }
    let left = behind.len() + 1;
    Some(Section {
        name,
        words: start,
        left,
        rest,
    })
}
