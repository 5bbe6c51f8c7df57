//! Terminals of nets (LEF/DEF 5.8, "Nets", "Special Nets").

ghost use Rattle.std.specs.Prelude.{◌∷◌, [], ◌&&◌, if◌then◌else◌, codes};
ghost use Rattle.leg_lex.specs.Words.{Reads, Means, is_at};
ghost use Rattle.leg_grammar.specs.Def.Terminal.{component_terminal, pin_terminal, one_terminal_at, all_terminals_at, past_synthesized, terminals_at};

use crate::known_pins::KnownPins;
use leg_design_common::NetScope;
use leg_design_records::{Component, Terminal};
use leg_lex::{Cursor, FaultKind, NameKind, Need, ReadFault, is_keyword};
use std::alloc::Allocator;

/// That a pin of the component of this number is needed.
fn pin_of(components: &[Component<'_>], number: usize) -> Need {
    match components.get(number) {
        Some(component) => Need::KnownPin(component.master),
        None => Need::Known(NameKind::MacroPin),
    }
}

/// The component of this name, with its pin of this name. The fault of an unknown name is at the words `of_component` or
/// `of_pin`.
fn component_terminal<A: Allocator + Copy>(
    scope: &KnownPins<'_, '_, '_, A>,
    component: &[u8],
    pin: &[u8],
    of_component: &Cursor<'_, '_>,
    of_pin: &Cursor<'_, '_>,
) -> Result<Terminal, ReadFault>
    ensures { Means (λ t. t) result (component_terminal scope.now component.now pin.now) }
{
    let components = scope.scope().components;
    let Some(c) = components.place_of(component) else {
        return Err(of_component.need(FaultKind::UnknownName, Need::Known(NameKind::Component)));
    };
    let Some(pin) = scope.pin_of_numbered(c, pin) else {
        let need = pin_of(components.as_slice(), c);
        return Err(of_pin.need(FaultKind::UnknownName, need));
    };
    Ok(Terminal::Comp {
        component: c as u32,
        pin,
    })
}

/// The pin of the design of this name. The fault of an unknown name is at the word `of_pin`.
fn pin_terminal<A: Allocator + Copy>(
    scope: &NetScope<'_, '_, A>,
    pin: &[u8],
    of_pin: &Cursor<'_, '_>,
) -> Result<Terminal, ReadFault>
    ensures { Means (λ t. t) result (pin_terminal scope.now pin.now) }
{
    let Some(p) = scope.pins.place_of(pin) else {
        return Err(of_pin.need(FaultKind::UnknownName, Need::Known(NameKind::Pin)));
    };
    Ok(Terminal::Pin(p as u32))
}

/// `component pin`, or `PIN` and a pin of the design.
#[tactic(auto, unfolding(leg_grammar::specs::Def::Terminal::one_terminal_at))]
fn one_terminal<A: Allocator + Copy>(
    scope: &KnownPins<'_, '_, '_, A>,
    words: &mut Cursor<'_, '_>,
) -> Result<Terminal, ReadFault>
    ensures { Reads (λ t. t ∷ []) result words.new (one_terminal_at scope.now words.old) }
{
    let of_component = words.again();
    let component = words.name()?;
    let of_pin = words.again();
    let pin = words.name()?;
    if is_keyword(b"PIN", component) {
        pin_terminal(scope.scope(), pin, &of_pin)
    } else {
        component_terminal(scope, component, pin, &of_component, &of_pin)
    }
}

/// `* pin`: the pins of this name of all components.
#[tactic(auto, unfolding(leg_grammar::specs::Def::Terminal::all_terminals_at))]
fn all_terminals<A: Allocator + Copy>(
    alloc: A,
    scope: &KnownPins<'_, '_, '_, A>,
    words: &mut Cursor<'_, '_>,
) -> Result<Vec<Terminal, A>, ReadFault>
    ensures { Reads (λ v. v.items) result words.new (all_terminals_at scope.now words.old) }
{
    words.mark(b'*')?;
    let name = words.name()?;
    let terminals = scope.pins_of_all(alloc, name)?;
    Ok(terminals)
}

/// `+ SYNTHESIZED`, which has no effect, if it is written.
#[tactic(auto, unfolding(leg_grammar::specs::Def::Terminal::past_synthesized))]
fn past_synthesized(words: &mut Cursor<'_, '_>) -> Result<(), ReadFault>
    ensures { Reads (λ x. x) result words.new (past_synthesized words.old) }
{
    if words.is_at(b"+") {
        words.mark(b'+')?;
        words.keyword(b"SYNTHESIZED")?;
    }
    Ok(())
}

/// What is in a pair of parentheses, before `+ SYNTHESIZED`.
fn named<A: Allocator + Copy>(
    alloc: A,
    scope: &KnownPins<'_, '_, '_, A>,
    special: bool,
    words: &mut Cursor<'_, '_>,
) -> Result<Vec<Terminal, A>, ReadFault>
    ensures { Reads (λ v. v.items) result words.new
        (if special && is_at (codes "*") words.old then all_terminals_at scope.now words.old else one_terminal_at scope.now words.old) }
{
    if special && words.is_at(b"*") {
        return all_terminals(alloc, scope, words);
    }
    let mut terminals = Vec::new(alloc);
    terminals.push(one_terminal(scope, words)?)?;
    Ok(terminals)
}

/// The terminals that a pair of parentheses denotes.
#[tactic(auto, unfolding(leg_grammar::specs::Def::Terminal::terminals_at))]
pub(crate) fn terminals<A: Allocator + Copy>(
    alloc: A,
    scope: &KnownPins<'_, '_, '_, A>,
    special: bool,
    words: &mut Cursor<'_, '_>,
) -> Result<Vec<Terminal, A>, ReadFault>
    ensures { Reads (λ v. v.items) result words.new (terminals_at scope.now special words.old) }
{
    words.mark(b'(')?;
    let terminals = named(alloc, scope, special, words)?;
    past_synthesized(words)?;
    words.mark(b')')?;
    Ok(terminals)
}
