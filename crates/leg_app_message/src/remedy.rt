//! What to do about a form that is not supported, and about a macro or a rule that is not known.

ghost use Rattle.std.specs.Prelude.{◌≡◌};
ghost use Rattle.leg_app_message.specs.Remedy.{is_turn, is_soft, def_option, lef_option, masks_option, soft_option, further_option, remedy, left_out_text, unread_rule_text, unknown_advice, advice_on};

use leg_grammar::{Masks, Profile, Soft};
use leg_lex::{FaultKind, NameKind, Need, is_keyword};

/// Whether a word is an orientation other than N.
fn is_turn(word: &[u8]) -> bool
    ensures { result ≡ is_turn word.now }
{
    is_keyword(b"S", word)
        || is_keyword(b"W", word)
        || is_keyword(b"E", word)
        || is_keyword(b"FN", word)
        || is_keyword(b"FS", word)
        || is_keyword(b"FW", word)
        || is_keyword(b"FE", word)
}

/// Whether a word is that of a placement blockage that is read by an option alone.
fn is_soft(word: &[u8]) -> bool
    ensures { result ≡ is_soft word.now }
{
    is_keyword(b"SOFT", word) || is_keyword(b"PARTIAL", word)
}

/// The option that reads a form of a DEF in the narrow profile, by the word at fault.
fn def_option(word: &[u8]) -> &'static [u8]
    ensures { result.now ≡ def_option word.now }
{
    if is_keyword(b"VIARULE", word) {
        b": with --wide before the command such a via is read"
    } else if is_keyword(b"DO", word) {
        b": with --wide before the command an array of vias is read in SPECIALNETS"
    } else if is_keyword(b"RECT", word) || is_keyword(b"VIA", word) {
        b": with --wide before the command it is read in SPECIALNETS and PINS"
    } else if is_keyword(b"VIRTUAL", word) {
        b": with --wide before the command it is read in NETS"
    } else if is_keyword(b"COMPONENT", word)
        || is_keyword(b"SLOTS", word)
        || is_keyword(b"FILLS", word)
    {
        b": with --wide before the command it is read"
    } else if is_keyword(b"MASK", word) {
        b": with --wide --masks drop before the command it is read past"
    } else if is_soft(word) {
        b": with --wide --soft drop before the command such a blockage is taken out, and with --wide --soft hard it is one as any other"
    } else if is_keyword(b"NONDEFAULTRULE", word) || is_keyword(b"TAPERRULE", word) {
        b": with --wide before the command it is read in NETS"
    } else if is_keyword(b"POLYGON", word) {
        b": with --wide before the command it is read in PINS, BLOCKAGES and SPECIALNETS, if its sides are horizontal and vertical"
    } else if is_turn(word) {
        b": with --wide before the command a via that is turned is read"
    } else {
        b""
    }
}

/// The same of a LEF.
fn lef_option(word: &[u8]) -> &'static [u8]
    ensures { result.now ≡ lef_option word.now }
{
    if is_keyword(b"POLYGON", word) {
        b": with --wide before the command it is read, if its sides are horizontal and vertical"
    } else if is_keyword(b"ITERATE", word) {
        b": with --wide before the command each copy is read"
    } else if is_keyword(b"EXCEPTPGNET", word) {
        b": with --wide before the command it is read past"
    } else if is_keyword(b"MASK", word) {
        b": with --wide --masks drop before the command it is read past"
    } else if is_keyword(b"VIA", word) {
        b": with --wide before the command it is read"
    } else if is_keyword(b"PATH", word) {
        b": with --wide before the command it is read, if its lines are horizontal or vertical and its width is even"
    } else {
        b""
    }
}

/// What reads a mask in the wide profile.
fn masks_option(masks: Masks) -> &'static [u8]
    ensures { result.now ≡ masks_option masks }
{
    match masks {
        Masks::Refused => b": with --masks drop behind --wide it is read past",
        Masks::Dropped => b"",
    }
}

/// What reads a soft blockage in the wide profile.
fn soft_option(soft: Soft) -> &'static [u8]
    ensures { result.now ≡ soft_option soft }
{
    match soft {
        Soft::Refused =>
            b": with --soft drop behind --wide such a blockage is taken out, and with --soft hard it is one as any other",
        Soft::Dropped => b"",
        Soft::Hard => b"",
    }
}

/// What to do about a form of a DEF in the wide profile with these options, by the word at fault.
fn further_option(masks: Masks, soft: Soft, word: &[u8]) -> &'static [u8]
    ensures { result.now ≡ further_option masks soft word.now }
{
    if is_keyword(b"MASK", word) {
        masks_option(masks)
    } else if is_soft(word) {
        soft_option(soft)
    } else if is_keyword(b"POLYGON", word) {
        b": it is read in PINS, BLOCKAGES and SPECIALNETS, if its sides are horizontal and vertical, in SPECIALNETS without a part that is one square unit"
    } else {
        b""
    }
}

/// What to do about a form that is not supported, in a LEF or else in a DEF.
fn remedy(profile: Profile, is_lef: bool, word: &[u8]) -> &'static [u8]
    ensures { result.now ≡ remedy profile is_lef word.now }
{
    match profile {
        Profile::Narrow if is_lef => lef_option(word),
        Profile::Narrow => def_option(word),
        Profile::Wide { .. } if is_lef => b"",
        Profile::Wide { masks, soft } => further_option(masks, soft, word),
    }
}

/// That a macro that is not known may be one that is left out.
fn left_out_text(profile: Profile) -> &'static [u8]
    ensures { result.now ≡ left_out_text profile }
{
    match profile {
        Profile::Narrow => b"",
        Profile::Wide {
            masks: Masks::Refused,
            ..
        } =>
            b"; with --wide a macro that has a form which is not read is left out, and one with a MASK is read with --masks drop (docs/FORMATS.md)",
        Profile::Wide { .. } =>
            b"; with --wide a macro that has a form which is not read is left out (docs/FORMATS.md)",
    }
}

/// That a rule of the DEF that is not known may be one that cannot be read.
fn unread_rule_text() -> &'static [u8]
    ensures { result.now ≡ unread_rule_text }
{
    b"; an entry of NONDEFAULTRULES that cannot be read is none (docs/FORMATS.md)"
}

/// What to do about a name that is not known.
fn unknown_advice(profile: Profile, need: Need) -> &'static [u8]
    ensures { result.now ≡ unknown_advice profile need }
{
    match need {
        Need::Known(NameKind::Macro) => left_out_text(profile),
        Need::Known(NameKind::Rule) => unread_rule_text(),
        _ => b"",
    }
}

/// What to do about a fault of this kind, by what is needed and the word at fault, in a LEF or else in a DEF.
pub(crate) fn advice_on(
    profile: Profile,
    kind: FaultKind,
    need: Need,
    is_lef: bool,
    word: &[u8],
) -> &'static [u8]
    ensures { result.now ≡ advice_on profile kind need is_lef word.now }
{
    match kind {
        FaultKind::Unsupported => remedy(profile, is_lef, word),
        FaultKind::UnknownName => unknown_advice(profile, need),
        _ => b"",
    }
}
