//! The words of wiring (LEF/DEF 5.8, "Regular Wiring Statement", "Special Wiring Statement").

ghost use Rattle.std.specs.Prelude.{◌≡◌, ◌&&◌, drop, Some, codes};
ghost use Rattle.leg_lex.specs.Words.{Reads, Means, is_at};
ghost use Rattle.leg_lex.specs.Until.{until};
ghost use Rattle.leg_grammar.specs.Def.Wiring.{routing_at, past_taper, written_width_at, at_no_shape, past_shape, rule_at, entry_width, path_width_at, at_no_new, new_path, paths_at, is_wiring, wiring_start, at_shape_clause, wiring_at};
ghost use Rattle.leg_design_wires.specs.Steps.Walk.{path_behind};

use crate::path::{ItemAt, path_wires};
use crate::path_item::{add_items, first_point};
use leg_design_common::NetScope;
use leg_design_common::count::count;
use leg_design_common::layers::is_routing;
use leg_design_common::number::is_even;
use leg_design_records::Wire;
use leg_grammar::{PathWidth, Profile};
use leg_lex::{Cursor, FaultKind, NameKind, Need, ReadFault};
use leg_lib_records::Library;
use std::alloc::Allocator;

/// A routing layer, by its number. A layer that isn't one is `Unexpected`, and an unknown one `UnknownName`.
#[inline(always)]
#[tactic(auto, unfolding(leg_grammar::specs::Def::Wiring::routing_at))]
pub(crate) fn routing<A: Allocator + Copy>(
    library: &Library<'_, A>,
    words: &mut Cursor<'_, '_>,
) -> Result<usize, ReadFault>
    ensures { Reads (λ number. number) result words.new (routing_at library.now words.old) }
{
    let first = words.again();
    let name = words.name()?;
    let Some(number) = library.layer_named(name) else {
        return Err(first.need(FaultKind::UnknownName, Need::Known(NameKind::Layer)));
    };
    if !is_routing(library, number) {
        return Err(first.need(FaultKind::Unexpected, Need::RoutingLayer));
    }
    Ok(number)
}

/// Reads past `TAPER`, if it is next.
#[tactic(auto, unfolding(leg_grammar::specs::Def::Wiring::past_taper))]
fn past_taper(words: &mut Cursor<'_, '_>) -> Result<(), ReadFault>
    ensures { Reads (λ x. x) result words.new (past_taper words.old) }
{
    if words.is_at(b"TAPER") {
        words.keyword(b"TAPER")?;
    }
    Ok(())
}

/// The width of a special path. An odd one is `OddWidth`.
#[tactic(auto, unfolding(leg_grammar::specs::Def::Wiring::written_width_at))]
fn written_width(words: &mut Cursor<'_, '_>) -> Result<i64, ReadFault>
    ensures { Reads (λ width. width) result words.new (written_width_at words.old) }
{
    let first = words.again();
    let width = count(words)?;
    if !is_even(width) {
        return Err(first.fault(FaultKind::OddWidth));
    }
    Ok(width)
}

/// Whether `+ SHAPE` comes next.
#[tactic(auto, using(leg_lex::proofs::Keywords::read_past, leg_lex::proofs::Keywords::surely_read))]
fn is_at_shape(words: &Cursor<'_, '_>) -> Result<bool, ReadFault>
    ensures { Means (λ is. is) result (Some (is_at (codes "+") words.now && is_at (codes "SHAPE") (drop 1 words.now))) }
{
    if !words.is_at(b"+") {
        return Ok(false);
    }
    let mut next = words.again();
    next.keyword(b"+")?;
    Ok(next.is_at(b"SHAPE"))
}

/// `+ SHAPE word`, which has no effect.
#[tactic(auto, unfolding(leg_grammar::specs::Def::Wiring::past_shape))]
fn past_shape(words: &mut Cursor<'_, '_>) -> Result<(), ReadFault>
    ensures { Reads (λ x. x) result words.new (past_shape tt words.old) }
{
    words.mark(b'+')?;
    words.keyword(b"SHAPE")?;
    words.word()?;
    Ok(())
}

/// Every `+ SHAPE word` that comes next.
#[tactic(auto, using(leg_lex::proofs::Until::ends, leg_lex::proofs::Until::goes_on, leg_lex::proofs::Until::fails, crate::proofs::Wirings::past_shape_shortens, crate::proofs::Wirings::past_shape_shorter))]
fn past_shapes(words: &mut Cursor<'_, '_>) -> Result<(), ReadFault>
    ensures { Reads (λ x. x) result words.new (until at_no_shape past_shape tt words.old) }
{
    'shapes: while is_at_shape(words)? {
        past_shape(words)?;
    }
    Ok(())
}

/// A nondefault rule, by its number. A name that no rule has is `UnknownName`.
#[tactic(auto, unfolding(leg_grammar::specs::Def::Wiring::rule_at))]
pub fn rule<A: Allocator + Copy>(
    scope: &NetScope<'_, '_, A>,
    words: &mut Cursor<'_, '_>,
) -> Result<usize, ReadFault>
    ensures { Reads (λ number. number) result words.new (rule_at scope.now words.old) }
{
    let first = words.again();
    let name = words.name()?;
    match scope.rule_named(name) {
        Some(number) => Ok(number),
        None => Err(first.need(FaultKind::UnknownName, Need::Known(NameKind::Rule))),
    }
}

/// The width of a path that names no other, where this is the rule of its entry.
fn entry_width(rule: Option<usize>) -> PathWidth
    ensures { result ≡ entry_width rule }
{
    match rule {
        Some(number) => PathWidth::OfRule(number),
        None => PathWidth::OfLayers,
    }
}

/// What comes between a path's layer and its first point: in `SPECIALNETS` its width, and in `NETS` `TAPER` or `TAPERRULE`, if one is
/// written. The narrow profile knows no rules.
#[tactic(auto, unfolding(leg_grammar::specs::Def::Wiring::path_width_at, leg_grammar::specs::Def::Wiring::taper_at))]
fn path_width<A: Allocator + Copy>(
    scope: &NetScope<'_, '_, A>,
    special: bool,
    words: &mut Cursor<'_, '_>,
) -> Result<PathWidth, ReadFault>
    ensures { Reads (λ w. w) result words.new (path_width_at scope.now special words.old) }
{
    if special {
        let width = written_width(words)?;
        past_shapes(words)?;
        return Ok(PathWidth::Written(width));
    }
    match scope.profile {
        Profile::Narrow => {
            past_taper(words)?;
            Ok(PathWidth::OfLayers)
        }
        Profile::Wide { .. } if words.is_at(b"TAPERRULE") => {
            words.keyword(b"TAPERRULE")?;
            let number = rule(scope, words)?;
            Ok(PathWidth::OfRule(number))
        }
        Profile::Wide { .. } if words.is_at(b"TAPER") => {
            words.keyword(b"TAPER")?;
            Ok(PathWidth::OfLayers)
        }
        Profile::Wide { .. } => Ok(entry_width(scope.rule)),
    }
}

/// These wires and those of a path, from its layer to its last item. Of two faults the first one is reported. The path's items are left
/// in `items`, whose room serves one path after the other.
#[tactic(auto, unfolding(leg_grammar::specs::Def::Wiring::path_at))]
fn path<'t, A: Allocator + Copy>(
    scope: &NetScope<'_, '_, A>,
    special: bool,
    wires: Vec<Wire, A>,
    items: &mut Vec<ItemAt<'t>, A>,
    words: &mut Cursor<'t, '_>,
) -> Result<Vec<Wire, A>, ReadFault>
    ensures { Reads (λ v. v.items) result words.new (path_behind scope.now special wires.items words.old) }
{
    let layer = routing(scope.library, words)?;
    let width = path_width(scope, special, words)?;
    let (first, given) = first_point(words)?;
    items.clear();
    let read = add_items(scope, special, items, words);
    let wires = path_wires(wires, scope, width, layer, first, given, items);
    match (read, wires) {
        (Ok(()), wires) => wires,
        (Err(fault), Err(earlier)) if fault.kind != FaultKind::Memory => Err(earlier),
        (Err(fault), _) => Err(fault),
    }
}

/// `NEW` and the wires of one more path.
#[tactic(auto, unfolding(leg_grammar::specs::Def::Wiring::new_path))]
fn new_path<'t, A: Allocator + Copy>(
    scope: &NetScope<'_, '_, A>,
    special: bool,
    wires: Vec<Wire, A>,
    items: &mut Vec<ItemAt<'t>, A>,
    words: &mut Cursor<'t, '_>,
) -> Result<Vec<Wire, A>, ReadFault>
    ensures { Reads (λ v. v.items) result words.new (new_path scope.now special wires.items words.old) }
{
    words.keyword(b"NEW")?;
    path(scope, special, wires, items, words)
}

/// The wires of every path that `NEW` joins to the ones before.
#[tactic(auto, using(leg_lex::proofs::Until::ends, leg_lex::proofs::Until::goes_on, leg_lex::proofs::Until::fails, crate::proofs::Wirings::new_path_shortens, crate::proofs::Wirings::new_path_shorter))]
fn new_paths<'t, A: Allocator + Copy>(
    scope: &NetScope<'_, '_, A>,
    special: bool,
    first: Vec<Wire, A>,
    items: &mut Vec<ItemAt<'t>, A>,
    words: &mut Cursor<'t, '_>,
) -> Result<Vec<Wire, A>, ReadFault>
    ensures { Reads (λ v. v.items) result words.new (until at_no_new (new_path scope.now special) first.items words.old) }
{
    let mut wires = first;
    'paths: while words.is_at(b"NEW") {
        wires = new_path(scope, special, wires, items, words)?;
    }
    Ok(wires)
}

/// The wires of paths that `NEW` joins.
#[tactic(auto, unfolding(leg_grammar::specs::Def::Wiring::paths_at))]
fn paths<A: Allocator + Copy>(
    alloc: A,
    scope: &NetScope<'_, '_, A>,
    special: bool,
    words: &mut Cursor<'_, '_>,
) -> Result<Vec<Wire, A>, ReadFault>
    ensures { Reads (λ v. v.items) result words.new (paths_at scope.now special words.old) }
{
    let mut items = Vec::new(alloc);
    let wires = path(scope, special, Vec::new(alloc), &mut items, words)?;
    new_paths(scope, special, wires, &mut items, words)
}

/// Whether a clause contains wiring.
pub fn is_wiring(special: bool, clause: &Cursor<'_, '_>) -> bool
    ensures { result ≡ is_wiring special clause.now }
{
    clause.is_at(b"ROUTED")
        || clause.is_at(b"FIXED")
        || clause.is_at(b"COVER")
        || (clause.is_at(b"NOSHIELD") && !special)
        || (clause.is_at(b"SHIELD") && special)
}

/// The word of the clause. `SHIELD` names the net that it shields.
#[tactic(auto, unfolding(leg_grammar::specs::Def::Wiring::wiring_start))]
fn wiring_start(clause: &mut Cursor<'_, '_>) -> Result<(), ReadFault>
    ensures { Reads (λ x. x) result clause.new (wiring_start clause.old) }
{
    if clause.is_at(b"SHIELD") {
        clause.keyword(b"SHIELD")?;
        clause.name()?;
    } else {
        clause.any()?;
    }
    Ok(())
}

/// Whether a clause comes next that gives a rectangle, a polygon or a via beside paths, or its shape or mask.
#[tactic(auto, using(leg_lex::proofs::Keywords::read_past, leg_lex::proofs::Keywords::surely_read))]
fn is_at_shape_clause(words: &Cursor<'_, '_>) -> Result<bool, ReadFault>
    ensures { Means (λ is. is) result (Some (at_shape_clause words.now)) }
{
    if !words.is_at(b"+") {
        return Ok(false);
    }
    let mut next = words.again();
    next.keyword(b"+")?;
    Ok(
        next.is_at(b"RECT")
            || next.is_at(b"POLYGON")
            || next.is_at(b"VIA")
            || next.is_at(b"SHAPE")
            || next.is_at(b"MASK"),
    )
}

/// The wires of a clause that contains wiring, from the word after its `+`. In `SPECIALNETS` of the wide profile a clause that gives a
/// shape may stand in the place of paths.
#[tactic(auto, unfolding(leg_grammar::specs::Def::Wiring::wiring_at, leg_grammar::specs::Def::Wiring::wires_at))]
pub fn wiring<A: Allocator + Copy>(
    alloc: A,
    scope: &NetScope<'_, '_, A>,
    special: bool,
    clause: &mut Cursor<'_, '_>,
) -> Result<Vec<Wire, A>, ReadFault>
    ensures { Reads (λ v. v.items) result clause.new (wiring_at scope.now special clause.old) }
{
    wiring_start(clause)?;
    match scope.profile {
        Profile::Wide { .. } if special && is_at_shape_clause(clause)? => Ok(Vec::new(alloc)),
        _ => paths(alloc, scope, special, clause),
    }
}
