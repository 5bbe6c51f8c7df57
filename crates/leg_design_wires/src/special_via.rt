//! Vias of `SPECIALNETS` that stand beside paths (LEF/DEF 5.8, "Special Wiring Statement").

ghost use Rattle.leg_lex.specs.Words.{Reads};
ghost use Rattle.leg_lex.specs.Until.{until};
ghost use Rattle.leg_grammar.specs.Def.Placement.{spot_at};
ghost use Rattle.leg_grammar.specs.Def.SpecialVia.{good_via_at, via_spot, at_no_spot, special_vias_at};

use crate::path_item::via;
use leg_design_common::NetScope;
use leg_design_common::placement::point;
use leg_design_records::Wire;
use leg_geom::Point;
use leg_lex::{Cursor, FaultKind, NameKind, Need, ReadFault};
use std::alloc::Allocator;

/// The orientations that are refused behind a via that is not turned so.
const ORIENTS: [&[u8]; 7] = [b"S", b"W", b"E", b"FN", b"FS", b"FW", b"FE"];

/// The number of a good via, by its name. One that isn't good is `BadVia`.
#[tactic(auto, unfolding(leg_grammar::specs::Def::SpecialVia::good_via_at))]
fn good_via<A: Allocator + Copy>(
    scope: &NetScope<'_, '_, A>,
    words: &mut Cursor<'_, '_>,
) -> Result<usize, ReadFault>
    ensures { Reads (λ number. number) result words.new (good_via_at scope.now words.old) }
{
    let first = words.again();
    let number = via(scope, words)?;
    let Some(via) = scope.via_numbered(number) else {
        return Err(first.need(FaultKind::UnknownName, Need::Known(NameKind::Via)));
    };
    if !via.good {
        return Err(first.fault(FaultKind::BadVia));
    }
    Ok(number)
}

/// Whether an orientation other than `N` comes next.
fn is_at_orient(words: &Cursor<'_, '_>) -> bool {
    ORIENTS.iter().any(|orient| words.is_at(orient))
}

/// The point at which a via lies. An orientation in its place is `Unsupported`.
#[tactic(auto, using(crate::proofs::SpecialShapes::no_spot))]
fn spot(words: &mut Cursor<'_, '_>) -> Result<Point, ReadFault>
    ensures { Reads (λ p. p) result words.new (spot_at words.old) }
{
    if !words.is_at(b"(") && is_at_orient(words) {
        return Err(words.fault(FaultKind::Unsupported));
    }
    point(words)
}

/// Adds the via at one more point.
#[tactic(auto, unfolding(leg_grammar::specs::Def::SpecialVia::via_spot))]
fn via_spot<A: Allocator + Copy>(
    via: usize,
    wires: &mut Vec<Wire, A>,
    words: &mut Cursor<'_, '_>,
) -> Result<(), ReadFault>
    ensures { Reads (λ _. wires.new.items) result words.new (via_spot via wires.old.items words.old) }
{
    let at = spot(words)?;
    wires.push(Wire::ViaAt { via, at })?;
    Ok(())
}

/// Adds the via at every further point.
#[tactic(auto, using(leg_lex::proofs::Until::ends, leg_lex::proofs::Until::goes_on, leg_lex::proofs::Until::fails, crate::proofs::SpecialShapes::via_spot_shortens, crate::proofs::SpecialShapes::via_spot_shorter))]
fn via_spots<A: Allocator + Copy>(
    via: usize,
    wires: &mut Vec<Wire, A>,
    words: &mut Cursor<'_, '_>,
) -> Result<(), ReadFault>
    ensures { Reads (λ _. wires.new.items) result words.new (until at_no_spot (via_spot via) wires.old.items words.old) }
{
    'spots: while words.is_at(b"(") {
        via_spot(via, wires, words)?;
    }
    Ok(())
}

/// The vias of `VIA name` and points.
#[tactic(auto, unfolding(leg_grammar::specs::Def::SpecialVia::special_vias_at))]
pub(crate) fn special_vias<A: Allocator + Copy>(
    alloc: A,
    scope: &NetScope<'_, '_, A>,
    clause: &mut Cursor<'_, '_>,
) -> Result<Vec<Wire, A>, ReadFault>
    ensures { Reads (λ v. v.items) result clause.new (special_vias_at scope.now clause.old) }
{
    clause.keyword(b"VIA")?;
    let via = good_via(scope, clause)?;
    let mut wires = Vec::new(alloc);
    via_spot(via, &mut wires, clause)?;
    via_spots(via, &mut wires, clause)?;
    Ok(wires)
}
