//! Where a name that is defined a second time is first: the texts are read once more, up to the form that defines it.

ghost use Rattle.std.specs.Prelude.{◌≡◌};

use crate::form::{Parts, form};
use crate::macro_part::MacroParts;
use crate::read::file_number;
use leg_grammar::Profile;
use leg_lex::{Cursor, FaultKind, NameKind, Need, ReadFault, file_words};
use leg_lib_records::RawLibrary;
use std::alloc::Allocator;

/// Whether a library has a layer, a site, a macro, a via or a nondefault rule of this name.
fn defines<A: Allocator + Copy>(library: &RawLibrary<'_, A>, kind: NameKind, name: &[u8]) -> bool {
    match kind {
        NameKind::Layer => library.layer_named(name).is_some(),
        NameKind::Site => library.site_named(name).is_some(),
        NameKind::Macro => library.master_named(name).is_some(),
        NameKind::Via => library.via_named(name).is_some(),
        NameKind::Rule => library.rule_named(name).is_some(),
        _ => false,
    }
}

/// The line in which the next of these words is.
fn line_of(words: &Cursor<'_, '_>) -> u32 {
    words.fault(FaultKind::DuplicateName).line
}

/// The line in which the first of these forms begins with which the library has such a name, if one does. The parts get what the forms up
/// to there say.
#[tactic(auto, using(crate::proofs::Forms::form_shorter))]
fn line_of_form<'a, A: Allocator + Copy>(
    alloc: A,
    parts: &mut Parts<'a, A>,
    words: &mut Cursor<'_, 'a>,
    kind: NameKind,
    name: &[u8],
) -> Option<u32> {
    'forms: while !words.is_at_end() && !words.is_at(b"END") {
        let line = line_of(words);
        form(alloc, parts, words).ok()?;
        if defines(&parts.library, kind, name) {
            return Some(line);
        }
    }
    None
}

/// The line in which the first pin of this name begins in the macro that comes next, if one does.
fn line_of_pin<'a, A: Allocator + Copy>(
    alloc: A,
    profile: Profile,
    library: &RawLibrary<'a, A>,
    words: &mut Cursor<'_, 'a>,
    name: &[u8],
) -> Option<u32> {
    words.keyword(b"MACRO").ok()?;
    words.name().ok()?;
    let mut parts = MacroParts::new(alloc);
    'parts: while !words.is_at(b"END") {
        let line = line_of(words);
        let Ok(()) = parts.macro_part(alloc, profile, library, words) else {
            return None;
        };
        if parts.pin_names.place_of(name).is_some() {
            return Some(line);
        }
    }
    None
}

/// The same of the first of these forms that cannot be read. The parts get what the forms before it say.
#[tactic(auto, using(crate::proofs::Forms::form_shorter))]
fn line_of_pin_at_fault<'a, A: Allocator + Copy>(
    alloc: A,
    parts: &mut Parts<'a, A>,
    words: &mut Cursor<'_, 'a>,
    name: &[u8],
) -> Option<u32> {
    'forms: while !words.is_at_end() && !words.is_at(b"END") {
        let mut next = words.again();
        if form(alloc, parts, words).is_err() {
            return line_of_pin(alloc, parts.profile, &parts.library, &mut next, name);
        }
    }
    None
}

/// The text and the line in which the name at fault, which is one of these, is defined first: a pin in its macro.
fn first_definition<A: Allocator + Copy>(
    alloc: A,
    profile: Profile,
    lefs: &[&[u8]],
    fault: &ReadFault,
    kind: NameKind,
) -> Option<(u32, u32)> {
    let own = lefs.get(fault.file as usize)?;
    let name = own.get(fault.start as usize..fault.end as usize)?;
    let mut parts = Parts::new(alloc, profile);
    for (number, lef) in lefs.iter().enumerate() {
        let file = file_number(number);
        let words = file_words(alloc, file, lef).ok()?;
        let mut words = Cursor::new(file, &words);
        let line = match kind {
            NameKind::MacroPin => line_of_pin_at_fault(alloc, &mut parts, &mut words, name),
            _ => line_of_form(alloc, &mut parts, &mut words, kind, name),
        };
        if let Some(line) = line {
            return Some((file, line));
        }
    }
    None
}

/// The same fault; where a name is defined a second time, with the place at which it is first.
pub(crate) fn with_first<A: Allocator + Copy>(
    alloc: A,
    profile: Profile,
    lefs: &[&[u8]],
    fault: ReadFault,
) -> ReadFault
    ensures { result.kind ≡ fault.kind }
{
    let Need::New(kind) = fault.need else {
        return fault;
    };
    match first_definition(alloc, profile, lefs, &fault, kind) {
        Some((file, line)) if file == fault.file => fault.needs(Need::NewSince(kind, line)),
        Some((file, line)) => fault.needs(Need::NewSinceText(kind, file, line)),
        None => fault,
    }
}
