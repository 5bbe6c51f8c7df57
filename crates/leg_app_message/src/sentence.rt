//! What is wrong with a text, in words.

ghost use Rattle.std.specs.Prelude.{◌≡◌, ◌==◌, ◌++◌, codes, decimal, OnOk};
ghost use Rattle.leg_app_message.specs.Texts.{path_of};
ghost use Rattle.std.specs.List.{list_any};
ghost use Rattle.leg_app_message.specs.Sentence.{end_text, before_of, after_of, point_text, name_text, known_text, most_text, rename_text, first_text, master_text, middle_text, last_text, need_text, scale_sentence_of};

use crate::text_line::push_shown_bytes;
use crate::texts::Texts;
use leg_lex::{Entry, FaultKind, NameKind, Need};
use leg_lib_records::{Items, ScaleKind};
use leg_print_words::{push_count, push_decimal};
use std::alloc::{AllocError, Allocator};

/// Where a text ends that has this last word, or none.
fn end_text(word: &[u8]) -> &'static [u8]
    ensures { result.now ≡ end_text word.now }
{
    if word.is_empty() {
        b"the text ends too early"
    } else {
        b"the text ends too early, after "
    }
}

/// What comes before the word at fault, by the kind of the fault.
pub(crate) fn before_of(kind: FaultKind, word: &[u8]) -> &'static [u8]
    ensures { result.now ≡ before_of kind word.now }
{
    match kind {
        FaultKind::UnexpectedEnd => end_text(word),
        FaultKind::EmptyRect => b"the rectangle, size or wire at ",
        FaultKind::Diagonal => b"the wire to the point at ",
        FaultKind::ViaLayer => b"via ",
        FaultKind::PinTwice => b"the terminal at ",
        FaultKind::TooMany => b"one entry too many begins at ",
        FaultKind::BadVia => b"via ",
        FaultKind::OddWidth => b"the wire width ",
        _ => b"",
    }
}

/// What comes after the word at fault, by the kind of the fault.
pub(crate) fn after_of(kind: FaultKind) -> &'static [u8]
    ensures { result.now ≡ after_of kind }
{
    match kind {
        FaultKind::UnclosedString => b"a quoted word begins in this line and has no closing quote",
        FaultKind::Unexpected => b" is not allowed here",
        FaultKind::BadNumber => b" is not allowed here",
        FaultKind::TooLarge => b" is out of range",
        FaultKind::EmptyRect => b" has no area: a side of it is 0 or negative",
        FaultKind::UnknownName => b" is not the name of ",
        FaultKind::DuplicateName => b" is already the name of ",
        FaultKind::Unsupported =>
            b" is not supported here, since it would change metal or a rule that is judged (docs/FORMATS.md)",
        FaultKind::Diagonal => b" is neither horizontal nor vertical",
        FaultKind::ViaLayer => b" has no metal on the layer on which its path is",
        FaultKind::PinTwice => b" is in another net already",
        FaultKind::BadRow => b" is not supported in a ROW",
        FaultKind::BadVia =>
            b" cannot be used in a wire: it needs metal around 0 0 on two routing layers with none between them, and cuts on the one cut layer between these",
        FaultKind::OddWidth =>
            b" is odd: a width is an even number of database units, so that the wire has a middle line",
        FaultKind::Memory => b"out of memory",
        _ => b"",
    }
}

/// What has a name.
fn name_text(kind: NameKind) -> &'static [u8]
    ensures { result.now ≡ name_text kind }
{
    match kind {
        NameKind::Layer => b"a layer",
        NameKind::Site => b"a site",
        NameKind::Macro => b"a macro",
        NameKind::Via => b"a via",
        NameKind::Component => b"a component",
        NameKind::Pin => b"a pin of the block",
        NameKind::MacroPin => b"a pin of the macro",
        NameKind::Net => b"an entry of this section",
        NameKind::Rule => b"a nondefault rule",
    }
}

/// Where a name that is not known should be defined.
fn known_text(kind: NameKind) -> &'static [u8]
    ensures { result.now ≡ known_text kind }
{
    match kind {
        NameKind::Layer =>
            b" of the LEFs: check its spelling, in which capitals count, and that the LEF that defines it is given, ahead of those that use it",
        NameKind::Site =>
            b" of the LEFs: check its spelling, in which capitals count, and that the LEF that defines it is given, ahead of those that use it",
        NameKind::Macro =>
            b" of the LEFs: check its spelling, in which capitals count, and that the LEF that defines it is given",
        NameKind::Via =>
            b" of the LEFs or of VIAS: check its spelling, in which capitals count, and that the LEF that defines it is given",
        NameKind::Component => b": check its spelling, in which capitals count",
        NameKind::Pin => b": check its spelling, in which capitals count",
        NameKind::MacroPin => b": check its spelling, in which capitals count",
        NameKind::Net => b": check its spelling, in which capitals count",
        NameKind::Rule =>
            b" of the LEFs or of NONDEFAULTRULES: check its spelling, in which capitals count, and that the LEF that defines it is given",
    }
}

/// What to do with a name that is defined twice.
fn rename_text(kind: NameKind) -> &'static [u8]
    ensures { result.now ≡ rename_text kind }
{
    match kind {
        NameKind::Layer => b": remove one of the two",
        NameKind::Site => b": remove one of the two",
        NameKind::Macro => b": remove one of the two",
        NameKind::Via => b": rename or remove one of the two",
        NameKind::Component => b": rename or remove one of the two",
        NameKind::Pin => b": rename or remove one of the two",
        NameKind::MacroPin => b": rename or remove one of the two",
        NameKind::Net =>
            b": rename or join the two (tools/from-qflow joins entries of SPECIALNETS)",
        NameKind::Rule => b": rename or remove one of the two",
    }
}

/// How many entries there may be.
fn most_text(entry: Entry) -> &'static [u8]
    ensures { result.now ≡ most_text entry }
{
    match entry {
        Entry::Component =>
            b": a DEF has at most 200,000 components (tools/drop-fillers takes fillers out)",
        Entry::Pin => b": a DEF has at most 200,000 pins",
        Entry::Net => b": NETS and SPECIALNETS together have at most 200,000 entries",
        Entry::NetPart =>
            b": the nets together have at most 4,000,000 terminals and 4,000,000 wires",
        Entry::Blockage =>
            b": a DEF has at most 200,000 blockages, with at most 4,000,000 rectangles",
    }
}

/// Whether the word has a point.
fn has_point(word: &[u8]) -> bool
    ensures { result ≡ list_any (λ b. b == 46) word.now }
{
    word.iter().any(|byte| *byte == b'.')
}

/// What to do about a number of a DEF that has a point.
fn point_text(word: &[u8]) -> &'static [u8]
    ensures { result.now ≡ point_text word.now }
{
    if has_point(word) {
        b" (tools/from-qflow rewrites numbers with a point)"
    } else {
        b""
    }
}

/// What is said first of what is needed.
fn first_text(need: Need) -> &'static [u8]
    ensures { result.now ≡ first_text need }
{
    match need {
        Need::OfKind => b"",
        Need::Keyword(_) => b": `",
        Need::Mark(_) => b": `",
        Need::AnyWord => b": a word is needed",
        Need::Name => b": a name is needed",
        Need::Word => b": a name or a quoted word is needed",
        Need::FormName => b": the name of what ends here is needed",
        Need::Whole => b": a whole number of at most 2,000,000,000 in absolute value is needed",
        Need::Length =>
            b": a number of microns is needed, of at most 2,000,000,000 in absolute value and with at most six decimals",
        Need::Nothing => b": the statement has to end before it (is a `;` missing?)",
        Need::Form => b": no statement or section that is read here begins with it",
        Need::Statement(_) => b": `",
        Need::NoSecond => b": it may stand here only once; is a `;` missing before it?",
        Need::Direction => b": HORIZONTAL or VERTICAL is needed",
        Need::Orient => b": N, S, W, E, FN, FS, FW or FE is needed",
        Need::RoutingLayer => b": a layer of TYPE ROUTING is needed",
        Need::SameUnits => b": the UNITS before have another number",
        Need::Known(kind) => name_text(kind),
        Need::KnownPin(_) => b"a pin of ",
        Need::New(kind) => name_text(kind),
        Need::NewSince(kind, _) => name_text(kind),
        Need::NewSinceText(kind, _, _) => name_text(kind),
        Need::AtLeast(_) => b": at least ",
        Need::AboveZero => b": more than 0 is needed",
        Need::Units => b": 1 to 20,000 database units to the micron are needed",
        Need::EndInRange => b": the last site or track that it begins lies beyond 2,000,000,000",
        Need::Fewer(entry) => most_text(entry),
        Need::OneLine => b": a row is one line of sites, DO n BY 1",
        Need::SiteStep(_) => b": the step in x has to be the width of the site, ",
        Need::RowOrient => b": N, S, FN or FS is needed",
        Need::NoMask => b": a rectangle without MASK is needed",
        Need::PlainSite => b": a SITE without a pattern behind its name is needed",
        Need::PlainDie => b": two corners are needed, or four points that go round a rectangle",
    }
}

/// What is said last of what is needed in the place of this word.
fn last_text(need: Need, word: &[u8]) -> &'static [u8]
    ensures { result.now ≡ last_text need word.now }
{
    match need {
        Need::Keyword(_) => b"` is needed",
        Need::Mark(_) => b"` is needed",
        Need::Whole => point_text(word),
        Need::Statement(_) => b"` is missing before it",
        Need::Known(kind) => known_text(kind),
        Need::KnownPin(_) => b": check its spelling, in which capitals count",
        Need::New(kind) => rename_text(kind),
        Need::NewSince(kind, _) => rename_text(kind),
        Need::NewSinceText(kind, _, _) => rename_text(kind),
        Need::AtLeast(_) => b" is needed",
        _ => b"",
    }
}

/// Adds where a name is defined: in this line.
fn push_line<A: Allocator>(message: &mut Vec<u8, A>, line: u32) -> Result<(), AllocError>
    ensures { OnOk result (message.new.items ≡ message.old.items ++ codes ", which line " ++ decimal line ++ codes " defines") }
{
    message.extend_from_slice(b", which line ")?;
    push_count(message, u64::from(line))?;
    message.extend_from_slice(b" defines")
}

/// Adds the same, in this line of the text of this number.
fn push_text_line<A: Allocator>(
    message: &mut Vec<u8, A>,
    texts: &Texts<'_>,
    file: u32,
    line: u32,
) -> Result<(), AllocError>
    ensures { OnOk result (message.new.items ≡ message.old.items ++ codes ", which " ++ path_of texts.now file ++ codes ":" ++ decimal line ++ codes " defines") }
{
    message.extend_from_slice(b", which ")?;
    message.extend_from_slice(texts.path(file as usize))?;
    message.extend_from_slice(b":")?;
    push_count(message, u64::from(line))?;
    message.extend_from_slice(b" defines")
}

/// Adds the macro of which a pin is needed.
fn push_master<A: Allocator, B: Allocator>(
    message: &mut Vec<u8, A>,
    master: &Option<Items<u8, B>>,
) -> Result<(), AllocError>
    ensures { OnOk result (message.new.items ≡ message.old.items ++ master_text master.now) }
{
    match master {
        Some(name) => {
            message.extend_from_slice(b"macro ")?;
            push_shown_bytes(message, name.as_slice())
        }
        None => message.extend_from_slice(b"the macro of this component"),
    }
}

/// Adds what differs from text to text in what is needed: a keyword, a mark, a number, where a name is defined, or a macro.
fn push_middle<A: Allocator, B: Allocator>(
    message: &mut Vec<u8, A>,
    texts: &Texts<'_>,
    need: Need,
    master: &Option<Items<u8, B>>,
) -> Result<(), AllocError>
    ensures { OnOk result (message.new.items ≡ message.old.items ++ middle_text texts.now need master.now) }
{
    match need {
        Need::Keyword(keyword) => message.extend_from_slice(keyword.bytes()),
        Need::Mark(mark) => message.extend_from_slice(&[mark]),
        Need::Statement(keyword) => message.extend_from_slice(keyword.bytes()),
        Need::KnownPin(_) => push_master(message, master),
        // (the first definition of its name is no entry of VIAS)
        Need::New(NameKind::Via) => message.extend_from_slice(b", which a LEF defines"),
        Need::NewSince(_, line) => push_line(message, line),
        Need::NewSinceText(_, file, line) => push_text_line(message, texts, file, line),
        Need::AtLeast(least) => push_count(message, u64::from(least)),
        Need::SiteStep(width) => push_decimal(message, width),
        _ => Ok(()),
    }
}

/// Adds what is needed in the place of this word, which is at fault; it may be a pin of this macro.
pub(crate) fn push_need<A: Allocator, B: Allocator>(
    message: &mut Vec<u8, A>,
    texts: &Texts<'_>,
    need: Need,
    master: &Option<Items<u8, B>>,
    word: &[u8],
) -> Result<(), AllocError>
    ensures { OnOk result (message.new.items ≡ message.old.items ++ need_text texts.now need master.now word.now) }
{
    message.extend_from_slice(first_text(need))?;
    push_middle(message, texts, need, master)?;
    message.extend_from_slice(last_text(need, word))
}

/// What is wrong with a length, by the kind of the fault.
pub(crate) fn scale_sentence_of(kind: ScaleKind) -> &'static [u8]
    ensures { result.now ≡ scale_sentence_of kind }
{
    match kind {
        ScaleKind::NotOnUnit => b"is not a whole number of database units",
        ScaleKind::TooLarge => b"is beyond 2,000,000,000 database units",
        ScaleKind::OddWidth =>
            b"is an odd number of database units, and the width of a routing layer is even, so that its wires have a middle line",
        ScaleKind::Memory => b"is not known",
    }
}
