//! Pins of a macro (LEF/DEF 5.8, "Macro Pin Statement").

ghost use Rattle.std.specs.Prelude.{◌≡◌};
ghost use Rattle.leg_lex.specs.Words.{Reads, Means};
ghost use Rattle.leg_lex.specs.Until.{until};
ghost use Rattle.leg_lex.specs.Statements.{at_end};
ghost use Rattle.leg_grammar.specs.Lef.Pin.{no_pin_parts, port_at, pin_part, use_in, supply_of, supply_of_any, pin_at};

use crate::geometry::geometry;
use leg_grammar::Profile;
use leg_lex::{Cursor, Name, ReadFault, is_keyword, only};
use leg_lib_records::{Items, RawLibrary, RawPin, RawShape, Supply};
use std::alloc::Allocator;
use std::marker::Model;

/// What was read of a pin: the shapes of its ports, and its statements.
#[derive(Drop)]
struct Parts<'t, 'a, A: Allocator> {
    shapes: Vec<RawShape, A>,
    statements: Vec<Cursor<'t, 'a>, A>,
}

impl<'t, 'a, A: Allocator> Model for Parts<'t, 'a, A> {
    ghost use Rattle.leg_grammar.specs.Lef.Pin.{PinParts};

    ghost Value = { PinParts };

    ghost view = { λ p. record { shapes = p.shapes.items; statements = p.statements.items } };
}

impl<'t, 'a, A: Allocator + Copy> Parts<'t, 'a, A> {
    /// One more port, or one more statement.
    #[tactic(auto, unfolding(leg_grammar::specs::Lef::Pin::pin_part))]
    fn add(
        &mut self,
        alloc: A,
        profile: Profile,
        library: &RawLibrary<'a, A>,
        words: &mut Cursor<'t, 'a>,
    ) -> Result<(), ReadFault>
        ensures { Reads (λ _. self.new) result words.new (pin_part profile library.now self.old words.old) }
    {
        if words.is_at(b"PORT") {
            let shapes = port(alloc, profile, library, words)?;
            self.shapes.extend_from_slice(&shapes)?;
        } else {
            let statement = words.statement()?;
            self.statements.push(statement)?;
        }
        Ok(())
    }
}

/// The shapes of a port, from `PORT` to its `END`.
#[tactic(auto, unfolding(leg_grammar::specs::Lef::Pin::port_at))]
fn port<'a, A: Allocator + Copy>(
    alloc: A,
    profile: Profile,
    library: &RawLibrary<'a, A>,
    words: &mut Cursor<'_, 'a>,
) -> Result<Vec<RawShape, A>, ReadFault>
    ensures { Reads (λ v. v.items) result words.new (port_at profile library.now words.old) }
{
    words.keyword(b"PORT")?;
    let shapes = geometry(alloc, profile, library, words)?;
    words.keyword(b"END")?;
    Ok(shapes)
}

/// The ports and the statements of a pin, up to its `END`.
#[tactic(auto, using(leg_lex::proofs::Until::ends, leg_lex::proofs::Until::goes_on, leg_lex::proofs::Until::fails, crate::proofs::Pins::pin_part_shortens, crate::proofs::Pins::pin_part_shorter))]
fn all_parts<'t, 'a, A: Allocator + Copy>(
    alloc: A,
    profile: Profile,
    library: &RawLibrary<'a, A>,
    words: &mut Cursor<'t, 'a>,
) -> Result<Parts<'t, 'a, A>, ReadFault>
    ensures { Reads (λ p. p) result words.new (until at_end (pin_part profile library.now) no_pin_parts words.old) }
{
    let mut parts = Parts {
        shapes: Vec::new(alloc),
        statements: Vec::new(alloc),
    };
    'parts: while !words.is_at(b"END") {
        parts.add(alloc, profile, library, words)?;
    }
    Ok(parts)
}

/// The word of a `USE` statement.
#[tactic(auto, unfolding(leg_grammar::specs::Lef::Pin::use_in))]
fn use_word<'a>(statement: &mut Cursor<'_, 'a>) -> Result<&'a [u8], ReadFault>
    ensures { Means (λ word. word.now) result (use_in statement.old) }
{
    statement.keyword(b"USE")?;
    let word = statement.word()?;
    statement.nothing_more()?;
    Ok(word)
}

/// What a pin supplies whose `USE` has this word.
fn supply_of(word: &[u8]) -> Supply
    ensures { result ≡ supply_of word.now }
{
    if is_keyword(b"POWER", word) {
        Supply::Power
    } else if is_keyword(b"GROUND", word) {
        Supply::Ground
    } else {
        Supply::NoSupply
    }
}

/// What a pin with this `USE` statement, or with none, supplies.
fn supply_of_any(statement: Option<Cursor<'_, '_>>) -> Result<Supply, ReadFault>
    ensures { Means (λ supply. supply) result (supply_of_any statement.entry) }
{
    match statement {
        Some(mut statement) => Ok(supply_of(use_word(&mut statement)?)),
        None => Ok(Supply::NoSupply),
    }
}

/// A pin, from `PIN` to its `END`.
#[tactic(auto, unfolding(leg_grammar::specs::Lef::Pin::pin_at))]
pub(crate) fn pin<'a, A: Allocator + Copy>(
    alloc: A,
    profile: Profile,
    library: &RawLibrary<'a, A>,
    words: &mut Cursor<'_, 'a>,
) -> Result<RawPin<'a, A>, ReadFault>
    ensures { Reads (λ p. p) result words.new (pin_at profile library.now words.old) }
{
    words.keyword(b"PIN")?;
    let name = words.name()?;
    let parts = all_parts(alloc, profile, library, words)?;
    let found = only(&parts.statements, b"USE")?;
    let supply = supply_of_any(found)?;
    words.end_of(name)?;
    Ok(RawPin {
        name: Name::new(name),
        supply,
        shapes: Items::from_vec(parts.shapes),
    })
}
