//! What the clauses of a pin give (LEF/DEF 5.8, "Pins").

ghost use Rattle.std.specs.Prelude.{◌≡◌, None, OnOk, IfOk};
ghost use Rattle.leg_lex.specs.Words.{Means};
ghost use Rattle.leg_lex.specs.Until.{over};
ghost use Rattle.leg_grammar.specs.Def.PinClauses.{no_pin_clauses, net_of_pin, word_in, last_port, all_ports, port_start, port_rect, port_polygon, port_via, port_place, pin_net_clause, direction_clause, pin_use_clause, pin_clause};

use crate::port::{empty_port, layer_rect};
use crate::port_polygon::layer_polygon;
use crate::port_via::push_via;
use leg_design_common::NetScope;
use leg_design_common::clause::clause;
use leg_design_common::layers::{push_rect, push_rects};
use leg_design_common::placement::{placed, says_place};
use leg_design_records::Port;
use leg_lex::{Cursor, FaultKind, Name, Need, ReadFault};
use std::alloc::{AllocError, Allocator};
use std::marker::Model;

/// What the clauses of a pin gave: words that appear at most once, the ports that are whole, and the last port.
#[derive(Drop)]
pub(crate) struct PinParts<'a, A: Allocator> {
    pub(crate) net_name: Option<Name<'a>>,
    pub(crate) direction: Option<Name<'a>>,
    pub(crate) usage: Option<Name<'a>>,
    pub(crate) done: Vec<Port<A>, A>,
    last: Option<Port<A>>,
}

impl<'a, A: Allocator> Model for PinParts<'a, A> {
    ghost use Rattle.leg_grammar.specs.Def.PinClauses as pin;

    ghost Value = { pin.PinClauses };

    ghost view = { λ p. record { net_name = p.net_name; direction = p.direction; usage = p.usage; done = p.done.items; last = p.last } };
}

/// The name of a clause `NET NAME`.
#[tactic(auto, unfolding(leg_grammar::specs::Def::PinClauses::net_of_pin))]
fn net_name<'a>(clause: &mut Cursor<'_, 'a>) -> Result<&'a [u8], ReadFault>
    ensures { Means (λ name. name.now) result (net_of_pin clause.old) }
{
    clause.keyword(b"NET")?;
    let name = clause.name()?;
    clause.nothing_more()?;
    Ok(name)
}

/// The word of a clause that has this keyword and one word.
#[tactic(auto, unfolding(leg_grammar::specs::Def::PinClauses::word_in))]
fn word_after<'a>(keyword: &[u8], clause: &mut Cursor<'_, 'a>) -> Result<&'a [u8], ReadFault>
    ensures { Means (λ word. word.now) result (word_in keyword.now clause.old) }
{
    clause.keyword(keyword)?;
    let word = clause.word()?;
    clause.nothing_more()?;
    Ok(word)
}

impl<'a, A: Allocator + Copy> PinParts<'a, A> {
    /// What no clauses give.
    fn new(alloc: A) -> PinParts<'a, A>
        ensures { result ≡ no_pin_clauses }
    {
        PinParts {
            net_name: None,
            direction: None,
            usage: None,
            done: Vec::new(alloc),
            last: None,
        }
    }

    /// Takes the last port out; where none has begun, a new one.
    fn take_last(&mut self, alloc: A) -> Result<Port<A>, AllocError>
        ensures taken { IfOk result (λ port. port ≡ last_port self.old) }
        ensures left { self.new ≡ record self.old { last = None } }
    {
        match self.last.take() {
            Some(port) => Ok(port),
            None => empty_port(alloc),
        }
    }

    /// Adds the last port to those that are whole.
    pub(crate) fn close(&mut self) -> Result<(), AllocError>
        ensures { OnOk result (self.new ≡ record self.old { done = all_ports self.old; last = None }) }
    {
        self.done.reserve(1)?;
        if let Some(port) = self.last.take() {
            self.done.push(port).unwrap();
        }
        Ok(())
    }

    /// `NET NAME`, at most once.
    #[tactic(auto, unfolding(leg_grammar::specs::Def::PinClauses::pin_net_clause))]
    fn net_clause(&mut self, clause: &mut Cursor<'_, 'a>) -> Result<(), ReadFault>
        ensures { Means (λ _. self.new) result (pin_net_clause self.old clause.old) }
    {
        if self.net_name.is_some() {
            return Err(clause.need(FaultKind::Unexpected, Need::NoSecond));
        }
        self.net_name = Some(Name::new(net_name(clause)?));
        Ok(())
    }

    /// `DIRECTION word`, at most once.
    #[tactic(auto, unfolding(leg_grammar::specs::Def::PinClauses::direction_clause))]
    fn direction_clause(&mut self, clause: &mut Cursor<'_, 'a>) -> Result<(), ReadFault>
        ensures { Means (λ _. self.new) result (direction_clause self.old clause.old) }
    {
        if self.direction.is_some() {
            return Err(clause.need(FaultKind::Unexpected, Need::NoSecond));
        }
        self.direction = Some(Name::new(word_after(b"DIRECTION", clause)?));
        Ok(())
    }

    /// `USE word`, at most once.
    #[tactic(auto, unfolding(leg_grammar::specs::Def::PinClauses::pin_use_clause))]
    fn use_clause(&mut self, clause: &mut Cursor<'_, 'a>) -> Result<(), ReadFault>
        ensures { Means (λ _. self.new) result (pin_use_clause self.old clause.old) }
    {
        if self.usage.is_some() {
            return Err(clause.need(FaultKind::Unexpected, Need::NoSecond));
        }
        self.usage = Some(Name::new(word_after(b"USE", clause)?));
        Ok(())
    }

    /// `PORT`, which begins a port.
    #[tactic(auto, unfolding(leg_grammar::specs::Def::PinClauses::port_start))]
    fn port_start(&mut self, alloc: A, clause: &mut Cursor<'_, 'a>) -> Result<(), ReadFault>
        ensures { Means (λ _. self.new) result (port_start self.old clause.old) }
    {
        clause.keyword(b"PORT")?;
        clause.nothing_more()?;
        self.close()?;
        self.last = Some(empty_port(alloc)?);
        Ok(())
    }

    /// `LAYER`, which adds a rectangle to the last port.
    #[tactic(auto, unfolding(leg_grammar::specs::Def::PinClauses::port_rect))]
    fn port_rect(
        &mut self,
        alloc: A,
        scope: &NetScope<'_, '_, A>,
        clause: &mut Cursor<'_, 'a>,
    ) -> Result<(), ReadFault>
        ensures { Means (λ _. self.new) result (port_rect scope.now self.old clause.old) }
    {
        let (layer, rect) = layer_rect(scope.profile, scope.library, clause)?;
        let mut port = self.take_last(alloc)?;
        push_rect(scope.library, layer, rect, &mut port.shapes)?;
        self.last = Some(port);
        Ok(())
    }

    /// `POLYGON`, which adds the slabs of a polygon to the last port.
    #[tactic(auto, unfolding(leg_grammar::specs::Def::PinClauses::port_polygon))]
    fn port_polygon(
        &mut self,
        alloc: A,
        scope: &NetScope<'_, '_, A>,
        clause: &mut Cursor<'_, 'a>,
    ) -> Result<(), ReadFault>
        ensures { Means (λ _. self.new) result (port_polygon scope.now self.old clause.old) }
    {
        let (layer, slabs) = layer_polygon(alloc, scope.profile, scope.library, clause)?;
        let mut port = self.take_last(alloc)?;
        push_rects(scope.library, layer, &slabs, &mut port.shapes)?;
        self.last = Some(port);
        Ok(())
    }

    /// `VIA`, which adds the rectangles of a via to the last port.
    #[tactic(auto, unfolding(leg_grammar::specs::Def::PinClauses::port_via))]
    fn port_via(
        &mut self,
        alloc: A,
        scope: &NetScope<'_, '_, A>,
        clause: &mut Cursor<'_, 'a>,
    ) -> Result<(), ReadFault>
        ensures { Means (λ _. self.new) result (port_via scope.now self.old clause.old) }
    {
        let mut port = self.take_last(alloc)?;
        push_via(scope, &mut port.shapes, clause)?;
        self.last = Some(port);
        Ok(())
    }

    /// The place of the last port, at most once in it.
    #[tactic(auto, unfolding(leg_grammar::specs::Def::PinClauses::port_place))]
    fn port_place(&mut self, alloc: A, clause: &mut Cursor<'_, 'a>) -> Result<(), ReadFault>
        ensures { Means (λ _. self.new) result (port_place self.old clause.old) }
    {
        let mut port = self.take_last(alloc)?;
        if port.place.is_some() {
            return Err(clause.need(FaultKind::Unexpected, Need::NoSecond));
        }
        let (status, place) = placed(clause)?;
        port.status = status;
        port.place = Some(place);
        self.last = Some(port);
        Ok(())
    }

    /// One more clause.
    #[tactic(auto, unfolding(leg_grammar::specs::Def::PinClauses::pin_clause))]
    fn add(
        &mut self,
        alloc: A,
        scope: &NetScope<'_, '_, A>,
        part: &mut Cursor<'_, 'a>,
    ) -> Result<(), ReadFault>
        ensures { Means (λ _. self.new) result (pin_clause scope.now self.old part.old) }
    {
        if part.is_at(b"NET") {
            self.net_clause(part)
        } else if part.is_at(b"DIRECTION") {
            self.direction_clause(part)
        } else if part.is_at(b"USE") {
            self.use_clause(part)
        } else if part.is_at(b"PORT") {
            self.port_start(alloc, part)
        } else if part.is_at(b"LAYER") {
            self.port_rect(alloc, scope, part)
        } else if says_place(part) {
            self.port_place(alloc, part)
        } else if part.is_at(b"VIA") {
            self.port_via(alloc, scope, part)
        } else if part.is_at(b"POLYGON") {
            self.port_polygon(alloc, scope, part)
        } else if part.is_at(b"MASK") {
            Err(part.fault(FaultKind::Unsupported))
        } else {
            clause(part)
        }
    }
}

/// What all clauses of a pin give.
#[tactic(auto, using(leg_lex::proofs::EachElement::over_ends, leg_lex::proofs::EachElement::over_goes_on, leg_lex::proofs::EachElement::over_fails))]
pub(crate) fn all_parts<'a, A: Allocator + Copy>(
    alloc: A,
    scope: &NetScope<'_, '_, A>,
    clauses: &[Cursor<'_, 'a>],
) -> Result<PinParts<'a, A>, ReadFault>
    ensures { Means (λ p. p) result (over (pin_clause scope.now) no_pin_clauses clauses.now) }
{
    let mut parts = PinParts::new(alloc);
    for clause in clauses {
        parts.add(alloc, scope, &mut clause.again())?;
    }
    Ok(parts)
}
