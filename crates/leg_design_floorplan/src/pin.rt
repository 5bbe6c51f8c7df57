//! Pins of a DEF (LEF/DEF 5.8, "Pins").

ghost use Rattle.std.specs.Prelude.{[]};
ghost use Rattle.leg_lex.specs.Words.{Reads, Means};
ghost use Rattle.leg_lex.specs.Until.{until};
ghost use Rattle.leg_lex.specs.Statements.{at_end};
ghost use Rattle.leg_design_records.specs.Records.{pin_names};
ghost use Rattle.leg_grammar.specs.Def.Pin.{pin_head, pin_in, pin_entry, pins_at};

use crate::pin_parts::all_parts;
use leg_design_common::{NetScope, section_start};
use leg_design_records::{ENTRY_LIMIT, Pin};
use leg_lex::{Cursor, Entry, FaultKind, Name, NameKind, NamedList, Need, ReadFault, clauses};
use leg_lib_records::Items;
use std::alloc::Allocator;

/// The entry's head: `- NAME`, a name that no pin before has.
#[tactic(auto, unfolding(leg_grammar::specs::Def::Pin::pin_head))]
fn pin_head<'a, A: Allocator + Copy>(
    pins: &NamedList<'a, Pin<'a, A>, A>,
    head: &mut Cursor<'_, 'a>,
) -> Result<&'a [u8], ReadFault>
    ensures { Means (λ name. name.now) result (pin_head (pin_names pins.now) head.old) }
{
    head.mark(b'-')?;
    let named = head.again();
    let name = head.name()?;
    if pins.place_of(name).is_some() {
        return Err(named.need(FaultKind::DuplicateName, Need::New(NameKind::Pin)));
    }
    head.nothing_more()?;
    Ok(name)
}

/// A pin of the head and the clauses of its entry.
#[tactic(auto, unfolding(leg_grammar::specs::Def::Pin::pin_in))]
fn pin<'a, A: Allocator + Copy>(
    alloc: A,
    scope: &NetScope<'_, '_, A>,
    pins: &NamedList<'a, Pin<'a, A>, A>,
    entry: &Cursor<'_, 'a>,
    parts: &[Cursor<'_, 'a>],
) -> Result<Pin<'a, A>, ReadFault>
    ensures { Means (λ p. p) result (pin_in scope.now (pin_names pins.now) parts.now) }
{
    let [head, clauses @ ..] = parts else {
        return Err(entry.fault(FaultKind::Unexpected));
    };
    let name = pin_head(pins, &mut head.again())?;
    let mut said = all_parts(alloc, scope, clauses)?;
    said.close()?;
    Ok(Pin {
        name: Name::new(name),
        net_name: said.net_name,
        direction: said.direction,
        usage: said.usage,
        ports: Items::from_vec(said.done),
    })
}

/// One more pin, up to the semicolon of its entry.
#[tactic(auto, using(crate::proofs::Pins::name_is_fresh), unfolding(leg_grammar::specs::Def::Pin::pin_entry))]
fn entry<'a, A: Allocator + Copy>(
    alloc: A,
    scope: &NetScope<'_, '_, A>,
    pins: &mut NamedList<'a, Pin<'a, A>, A>,
    words: &mut Cursor<'_, 'a>,
) -> Result<(), ReadFault>
    ensures { Reads (λ _. pins.new) result words.new (pin_entry scope.now pins.old words.old) }
{
    if pins.len() as u64 >= ENTRY_LIMIT {
        return Err(words.need(FaultKind::TooMany, Need::Fewer(Entry::Pin)));
    }
    let statement = words.statement()?;
    let parts = clauses(alloc, &statement)?;
    let pin = pin(alloc, scope, pins, &statement, &parts)?;
    pins.push(pin.name.bytes(), pin)?;
    Ok(())
}

/// The entries of the section, up to its `END`.
#[tactic(auto, using(leg_lex::proofs::Until::ends, leg_lex::proofs::Until::goes_on, leg_lex::proofs::Until::fails, crate::proofs::Pins::entry_shortens, crate::proofs::Pins::entry_shorter))]
fn entries<'a, A: Allocator + Copy>(
    alloc: A,
    scope: &NetScope<'_, '_, A>,
    words: &mut Cursor<'_, 'a>,
) -> Result<NamedList<'a, Pin<'a, A>, A>, ReadFault>
    ensures { Reads (λ t. t) result words.new (until at_end (pin_entry scope.now) [] words.old) }
{
    let mut pins = NamedList::new(alloc);
    'entries: while !words.is_at(b"END") {
        entry(alloc, scope, &mut pins, words)?;
    }
    Ok(pins)
}

/// The section `PINS`.
#[tactic(auto, unfolding(leg_grammar::specs::Def::Pin::pins_at, leg_grammar::specs::Def::Section::section_at))]
pub fn pins<'a, A: Allocator + Copy>(
    alloc: A,
    scope: &NetScope<'_, '_, A>,
    words: &mut Cursor<'_, 'a>,
) -> Result<NamedList<'a, Pin<'a, A>, A>, ReadFault>
    ensures { Reads (λ t. t) result words.new (pins_at scope.now words.old) }
{
    section_start(b"PINS", words)?;
    let start = words.again();
    let pins = match entries(alloc, scope, words) {
        Ok(pins) => pins,
        Err(fault) => return Err(start.with_first_entry(fault)),
    };
    words.end(b"PINS")?;
    Ok(pins)
}
