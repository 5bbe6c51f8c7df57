//! Layers (LEF/DEF 5.8, "Layer (Cut)", "Layer (Routing)"; which width is taken is lefdef's own rule).

ghost use Rattle.std.specs.Prelude.{◌≡◌};
ghost use Rattle.leg_lex.specs.Words.{Reads, Means};
ghost use Rattle.leg_grammar.specs.Lef.Layer.{type_in, direction_of, direction_in, direction_of_any, has_one_word, first_of_one_word, width_in, width_of_any, layer_kind, kind_in, layer_at, with_layer};

use crate::named::second_definition;
use crate::spacing::spacing_of;
use leg_lex::{
    Cursor, FaultKind, Keyword, Micron, Name, NameKind, Need, ReadFault, is_keyword, only, the,
};
use leg_lib_records::{Direction, RawKind, RawLayer, RawLibrary};
use std::alloc::Allocator;

/// The word of a `TYPE` statement.
#[tactic(auto, unfolding(leg_grammar::specs::Lef::Layer::type_in))]
fn type_word<'a>(statement: &mut Cursor<'_, 'a>) -> Result<&'a [u8], ReadFault>
    ensures { Means (λ word. word.now) result (type_in statement.old) }
{
    statement.keyword(b"TYPE")?;
    let word = statement.word()?;
    statement.nothing_more()?;
    Ok(word)
}

/// The direction that a word denotes.
fn direction_of(word: &[u8]) -> Option<Direction>
    ensures { result ≡ direction_of word.now }
{
    if is_keyword(b"HORIZONTAL", word) {
        Some(Direction::Horizontal)
    } else if is_keyword(b"VERTICAL", word) {
        Some(Direction::Vertical)
    } else {
        None
    }
}

/// The kind of fault of a word that denotes no direction. The diagonals are left out.
fn no_direction(word: &[u8]) -> FaultKind {
    if is_keyword(b"DIAG45", word) || is_keyword(b"DIAG135", word) {
        FaultKind::Unsupported
    } else {
        FaultKind::Unexpected
    }
}

/// The direction that a `DIRECTION` statement gives.
#[tactic(auto, unfolding(leg_grammar::specs::Lef::Layer::direction_in))]
fn direction(statement: &mut Cursor<'_, '_>) -> Result<Direction, ReadFault>
    ensures { Means (λ d. d) result (direction_in statement.old) }
{
    statement.keyword(b"DIRECTION")?;
    let said = statement.again();
    let word = statement.any()?;
    let Some(direction) = direction_of(word) else {
        return Err(said.need(no_direction(word), Need::Direction));
    };
    statement.nothing_more()?;
    Ok(direction)
}

/// The same of a statement that may be missing.
fn direction_of_any(statement: Option<Cursor<'_, '_>>) -> Result<Option<Direction>, ReadFault>
    ensures { Means (λ d. d) result (direction_of_any statement.entry) }
{
    match statement {
        Some(mut statement) => Ok(Some(direction(&mut statement)?)),
        None => Ok(None),
    }
}

/// Whether a statement is a keyword and exactly one word.
#[tactic(auto, using(crate::proofs::Layers::two_words, crate::proofs::Layers::not_two_words))]
fn has_one_word(statement: &Cursor<'_, '_>) -> bool
    ensures { result ≡ has_one_word statement.now }
{
    statement.len() == 2
}

/// The first statement of this keyword with exactly one word after it.
#[tactic(auto, using(crate::proofs::Layers::found_here, crate::proofs::Layers::found_later, crate::proofs::Layers::found_nowhere))]
pub(crate) fn first_of_one_word<'t, 'a>(
    statements: &[Cursor<'t, 'a>],
    keyword: &[u8],
) -> Option<Cursor<'t, 'a>>
    ensures { result ≡ first_of_one_word keyword.now statements.now }
{
    for statement in statements {
        if statement.is_at(keyword) && has_one_word(statement) {
            return Some(statement.again());
        }
    }
    None
}

/// The width that a `WIDTH` statement gives, above 0.
#[tactic(auto, unfolding(leg_grammar::specs::Lef::Layer::width_in, leg_grammar::specs::Lef::Layer::length_in))]
pub(crate) fn width(statement: &mut Cursor<'_, '_>) -> Result<Micron, ReadFault>
    ensures { Means (λ w. w) result (width_in statement.old) }
{
    statement.any()?;
    let number = statement.again();
    let width = statement.length()?;
    if width.millionths() > 0 {
        Ok(width)
    } else {
        Err(number.need(FaultKind::TooLarge, Need::AboveZero))
    }
}

/// The same of a statement that may be missing.
fn width_of_any(statement: Option<Cursor<'_, '_>>) -> Result<Option<Micron>, ReadFault>
    ensures { Means (λ w. w) result (width_of_any statement.entry) }
{
    match statement {
        Some(mut statement) => Ok(Some(width(&mut statement)?)),
        None => Ok(None),
    }
}

/// The fault of a form without a statement of this keyword, at the next word of `end`.
fn lacking(end: &Cursor<'_, '_>, keyword: &[u8]) -> ReadFault
    ensures { result.kind ≡ FaultKind.Unexpected }
{
    end.need(
        FaultKind::Unexpected,
        Need::Statement(Keyword::new(keyword)),
    )
}

/// What a layer of this type is for. A routing layer without direction or width is `Unexpected` at the
/// next word of `end`.
fn kind_of(
    word: &[u8],
    direction: Option<Direction>,
    width: Option<Micron>,
    end: &Cursor<'_, '_>,
) -> Result<RawKind, ReadFault>
    ensures { Means (λ k. k) result (layer_kind word.now direction width) }
{
    if is_keyword(b"ROUTING", word) {
        match (direction, width) {
            (Some(direction), Some(width)) => Ok(RawKind::Routing { direction, width }),
            (None, _) => Err(lacking(end, b"DIRECTION")),
            (Some(_), None) => Err(lacking(end, b"WIDTH")),
        }
    } else if is_keyword(b"CUT", word) {
        Ok(RawKind::Cut)
    } else {
        Ok(RawKind::Other)
    }
}

/// What a layer with these statements is for; `end` comes after them.
#[tactic(auto, unfolding(leg_grammar::specs::Lef::Layer::kind_in))]
fn kind(statements: &[Cursor<'_, '_>], end: &Cursor<'_, '_>) -> Result<RawKind, ReadFault>
    ensures { Means (λ k. k) result (kind_in statements.now) }
{
    let mut statement = the(statements, b"TYPE", end)?;
    let word = type_word(&mut statement)?;
    let direction = direction_of_any(only(statements, b"DIRECTION")?)?;
    let width = width_of_any(first_of_one_word(statements, b"WIDTH"))?;
    kind_of(word, direction, width, end)
}

/// A layer, from `LAYER` to its `END`.
#[tactic(auto, unfolding(leg_grammar::specs::Lef::Layer::layer_at))]
fn layer<'a, A: Allocator + Copy>(
    alloc: A,
    words: &mut Cursor<'_, 'a>,
) -> Result<RawLayer<'a>, ReadFault>
    ensures { Reads (λ l. l) result words.new (layer_at words.old) }
{
    words.keyword(b"LAYER")?;
    let name = words.name()?;
    let statements = words.statements(alloc)?;
    let kind = kind(&statements, words)?;
    let spacing = spacing_of(&statements)?;
    words.end_of(name)?;
    Ok(RawLayer {
        name: Name::new(name),
        kind,
        spacing,
    })
}

/// Adds the layer that comes next, whose name is new.
#[tactic(auto, using(crate::proofs::SoundLayers::layer_sound), unfolding(leg_grammar::specs::Lef::Layer::with_layer))]
pub(crate) fn layer_form<'a, A: Allocator + Copy>(
    alloc: A,
    library: &mut RawLibrary<'a, A>,
    words: &mut Cursor<'_, 'a>,
) -> Result<(), ReadFault>
    ensures { Reads (λ _. library.new) result words.new (with_layer library.old words.old) }
{
    let first = words.again();
    let layer = layer(alloc, words)?;
    if library.layer_named(layer.name.bytes()).is_some() {
        return Err(second_definition(&first, NameKind::Layer));
    }
    library.push_layer(layer)?;
    Ok(())
}
