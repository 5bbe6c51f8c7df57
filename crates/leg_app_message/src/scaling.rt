//! The message on a length of a LEF that isn't one in the DEF's units.

ghost use Rattle.std.specs.Prelude.{◌≡◌, ◌++◌, not, ◌&&◌, ◌||◌, List, IsTrue, IfSome, IfOk, OnOk, codes};
ghost use Rattle.std.specs.Str.{bytes_eq};
ghost use Rattle.leg_lex.specs.Word.{Word};
ghost use Rattle.leg_lex.specs.Tokens.{AreTokens};
ghost use Rattle.leg_app_message.specs.Form.{begins_form, ends_form, from_form, is_form, up_to_end, IsInForm};
ghost use Rattle.leg_app_message.specs.Conversion.{begins_lengths, IsBehind, IsOfLibrary};
ghost use Rattle.leg_app_message.specs.Length.{HasFault};
ghost use Rattle.leg_app_message.specs.Message.{length_message, scaled_text, name_message, scale_reason, IsScaleMessage};

use crate::conversion::{begins_lengths, is_of_library};
use crate::refused::push_place;
use crate::sentence::scale_sentence_of;
use crate::text_line::{line_of, push_shown, push_shown_bytes};
use crate::texts::Texts;
use leg_grammar::Profile;
use leg_lex::{NumFault, Token, UNITS_LIMIT, is_keyword, micron, tokens};
use leg_lib::read_lefs_as;
use leg_lib_records::{RawLibrary, ScaleFault, ScaleKind};
use leg_print_words::{push_count, push_parts};
use std::alloc::{AllocError, Allocator};

/// A length as a LEF writes it.
#[derive(Clone, Copy)]
struct Written<'a> {
    /// The line of the length, from 1.
    line: u32,
    /// The word that begins its form.
    form: &'a [u8],
    /// The length.
    length: &'a [u8],
}

/// The message on a length that isn't one in the DEF's units, of which so many are a micron: the first such length of a
/// form of that name, with its line; the name alone where none is found.
pub(crate) fn scale_message<A: Allocator + Copy>(
    alloc: A,
    texts: &Texts<'_>,
    fault: &ScaleFault<'_>,
    units: u32,
) -> Result<Vec<u8, A>, AllocError>
    ensures { IfOk result (λ m. IsScaleMessage texts.now fault.now units m.items) }
{
    let Ok(library) = read_lefs_as(alloc, texts.profile, texts.lefs) else {
        return name_message(alloc, texts.profile, fault, units);
    };
    for number in 0..texts.def_number() {
        if let Some(written) = written_in(alloc, texts.text(number), &library, fault, units) {
            return written_message(alloc, texts, number, fault, units, &written);
        }
    }
    name_message(alloc, texts.profile, fault, units)
}

/// What has lengths that are converted: nondefault rules in the wide profile alone.
fn scaled_text(profile: Profile) -> &'static [u8]
    ensures { result.now ≡ scaled_text profile }
{
    match profile {
        Profile::Narrow => b"layer, site, macro or via ",
        Profile::Wide { .. } => b"layer, site, macro, via or rule ",
    }
}

/// The message on a length that isn't found, by the name alone.
fn name_message<A: Allocator + Copy>(
    alloc: A,
    profile: Profile,
    fault: &ScaleFault<'_>,
    units: u32,
) -> Result<Vec<u8, A>, AllocError>
    ensures { IfOk result (λ m. m.items ≡ name_message profile fault.now.name (scale_reason fault.now.kind units)) }
{
    let mut message = Vec::from_slice(alloc, scaled_text(profile))?;
    push_shown_bytes(&mut message, fault.name.bytes())?;
    message.extend_from_slice(b": a length of it")?;
    push_reason(&mut message, fault.kind, units)?;
    Ok(message)
}

/// The message on this length of the LEF of this number.
fn written_message<A: Allocator + Copy>(
    alloc: A,
    texts: &Texts<'_>,
    number: usize,
    fault: &ScaleFault<'_>,
    units: u32,
    written: &Written<'_>,
) -> Result<Vec<u8, A>, AllocError>
    ensures { IfOk result (λ m. m.items ≡ length_message texts.now number written.now.line written.now.form.now fault.now.name
        written.now.length.now (scale_reason fault.now.kind units)) }
{
    let mut message = Vec::new(alloc);
    push_place(&mut message, texts, number, written.line)?;
    message.extend_from_slice(written.form)?;
    message.extend_from_slice(b" ")?;
    push_shown_bytes(&mut message, fault.name.bytes())?;
    message.extend_from_slice(b": ")?;
    message.extend_from_slice(written.length)?;
    push_reason(&mut message, fault.kind, units)?;
    push_shown(&mut message, line_of(texts.text(number), written.line))?;
    Ok(message)
}

/// Adds what is wrong with a length, and the units.
fn push_reason<A: Allocator>(
    message: &mut Vec<u8, A>,
    kind: ScaleKind,
    units: u32,
) -> Result<(), AllocError>
    ensures { OnOk result (message.new.items ≡ message.old.items ++ scale_reason kind units) }
{
    push_parts(message, &[b" ", scale_sentence_of(kind), b" (the DEF has "])?;
    push_count(message, units as u64)?;
    message.extend_from_slice(b" units to the micron)\n")
}

/// The first length of this fault in the first form of its name, which the library has; none where there is none, and where memory
/// runs out.
fn written_in<'a, A: Allocator + Copy>(
    alloc: A,
    lef: &'a [u8],
    library: &RawLibrary<'_, A>,
    fault: &ScaleFault<'_>,
    units: u32,
) -> Option<Written<'a>>
    ensures has { IfSome result (λ written. HasFault fault.now.kind units written.length.now) }
    ensures kept { IfSome result (λ written. IsOfLibrary library.now fault.now.kind written.form.now fault.now.name written.length.now) }
    ensures there { IfSome result (λ written.
        (words : List Word) × AreTokens lef.now words × IsInForm fault.now.kind fault.now.name words written.form.now written.length.now written.line) }
{
    let Ok(words) = tokens(alloc, lef) else {
        return None;
    };
    written_among(&words, library, fault, units)
}

/// The same among the words of a LEF.
fn written_among<'a, A: Allocator + Copy>(
    words: &[Token<'a>],
    library: &RawLibrary<'_, A>,
    fault: &ScaleFault<'_>,
    units: u32,
) -> Option<Written<'a>>
    ensures has { IfSome result (λ written. HasFault fault.now.kind units written.length.now) }
    ensures kept { IfSome result (λ written. IsOfLibrary library.now fault.now.kind written.form.now fault.now.name written.length.now) }
    ensures there { IfSome result (λ written. IsInForm fault.now.kind fault.now.name words.now written.form.now written.length.now written.line) }
{
    let name = fault.name.bytes();
    let rest = from_form(words, name);
    let [form, ..] = rest else {
        return None;
    };
    let length = length_in(up_to_end(rest, name), form.text, library, fault, units)?;
    Some(Written {
        line: length.line,
        form: form.text,
        length: length.text,
    })
}

/// The words from the first form of this name on.
#[tactic(auto, using(crate::proofs::Forms::from_here, crate::proofs::Forms::from_later, crate::proofs::Forms::from_nowhere))]
fn from_form<'t, 'a>(words: &'t [Token<'a>], name: &[u8]) -> &'t [Token<'a>]
    ensures { result.now ≡ from_form name.now words.now }
{
    for start in 0..words.len() {
        if begins_form(&words[start..], name) {
            return &words[start..];
        }
    }
    &[]
}

/// The words before the end of a form of this name.
#[tactic(auto, using(crate::proofs::Forms::end_here, crate::proofs::Forms::end_later, crate::proofs::Forms::end_nowhere))]
fn up_to_end<'t, 'a>(words: &'t [Token<'a>], name: &[u8]) -> &'t [Token<'a>]
    ensures { result.now ≡ up_to_end name.now words.now }
{
    for end in 0..words.len() {
        if ends_form(&words[end..], name) {
            return &words[..end];
        }
    }
    words
}

/// Whether a form of this name begins with these words. Where a `;` comes after the name, a form is meant that was before.
fn begins_form(words: &[Token<'_>], name: &[u8]) -> bool
    ensures { result ≡ begins_form name.now words.now }
{
    match words {
        [form, named, next, ..] => named.text == name
            && next.text != b";".as_slice()
            && is_form(form.text),
        _ => false,
    }
}

/// Whether a form that has a name begins with this word.
fn is_form(word: &[u8]) -> bool
    ensures { result ≡ is_form word.now }
{
    is_keyword(b"LAYER", word)
        || is_keyword(b"SITE", word)
        || is_keyword(b"MACRO", word)
        || is_keyword(b"VIA", word)
}

/// Whether these words end a form of this name.
fn ends_form(words: &[Token<'_>], name: &[u8]) -> bool
    ensures { result ≡ ends_form name.now words.now }
{
    match words {
        [end, named, ..] => named.text == name && is_keyword(b"END", end.text),
        _ => false,
    }
}

/// The first length of this fault among the words of a form that begins with this word, in a statement whose lengths are converted, which
/// the library has.
fn length_in<'t, 'a, A: Allocator + Copy>(
    words: &'t [Token<'a>],
    form: &[u8],
    library: &RawLibrary<'_, A>,
    fault: &ScaleFault<'_>,
    units: u32,
) -> Option<&'t Token<'a>>
    ensures has { IfSome result (λ word. HasFault fault.now.kind units word.now.text) }
    ensures kept { IfSome result (λ word. IsOfLibrary library.now fault.now.kind form.now fault.now.name word.now.text) }
    ensures there { IfSome result (λ word. IsBehind (begins_lengths fault.now.kind form.now) words.now word.now) }
{
    let mut is_converted = false;
    for word in words {
        if is_converted
            && has_fault(word.text, fault.kind, units)
            && is_of_library(library, fault.kind, form, fault.name.bytes(), word.text)
        {
            return Some(word);
        }
        is_converted = is_behind(is_converted, fault.kind, form, word.text);
    }
    None
}

/// Whether lengths that may have such a fault come after the word, or come after it still, in a form that begins with the first one.
fn is_behind(is_converted: bool, kind: ScaleKind, form: &[u8], word: &[u8]) -> bool
    ensures { result ≡ (not (bytes_eq word.now (codes ";")) && (is_converted || begins_lengths kind form.now word.now)) }
{
    word != b";".as_slice() && (is_converted || begins_lengths(kind, form, word))
}

/// Whether the word is a length that has this fault at this many units a micron, which a DEF may have.
fn has_fault(word: &[u8], kind: ScaleKind, units: u32) -> bool
    ensures { IsTrue result → HasFault kind units word.now }
{
    if units == 0 || units > UNITS_LIMIT {
        return false;
    }
    let Ok(length) = micron(word) else {
        return false;
    };
    match (length.to_units(units), kind) {
        (Err(NumFault::NotOnUnit), ScaleKind::NotOnUnit) => true,
        (Err(NumFault::TooLarge), ScaleKind::TooLarge) => true,
        (Ok(whole), ScaleKind::OddWidth) => whole % 2 != 0,
        _ => false,
    }
}
