//! Polygons of `SPECIALNETS` (LEF/DEF 5.8, "Special Wiring Statement"; that one is kept as the segments of its slabs is
//! lefdef's own rule).

ghost use Rattle.std.specs.Prelude.{[]};
ghost use Rattle.leg_lex.specs.Words.{Reads, Means};
ghost use Rattle.leg_lex.specs.Until.{over};
ghost use Rattle.leg_grammar.specs.Def.SpecialPolygon.{with_slab, special_polygon_at};

use crate::special_rect::rect_wires;
use crate::statement::routing;
use leg_design_common::NetScope;
use leg_design_common::polygon::polygon;
use leg_design_records::Wire;
use leg_geom::Rect;
use leg_lex::{Cursor, ReadFault};
use std::alloc::Allocator;

/// Adds the wires of one more slab.
#[tactic(auto, unfolding(leg_grammar::specs::Def::SpecialPolygon::with_slab))]
fn push_slab<A: Allocator + Copy>(
    alloc: A,
    layer: usize,
    wires: &mut Vec<Wire, A>,
    slab: &Rect,
    start: &Cursor<'_, '_>,
) -> Result<(), ReadFault>
    ensures { Means (λ _. wires.new.items) result (with_slab layer wires.old.items slab.now) }
{
    let more = rect_wires(alloc, layer, slab, start)?;
    wires.extend_from_slice(&more)?;
    Ok(())
}

/// The wires of slabs, one after the other.
#[tactic(auto, using(leg_lex::proofs::EachElement::over_ends, leg_lex::proofs::EachElement::over_goes_on, leg_lex::proofs::EachElement::over_fails))]
fn slab_wires<A: Allocator + Copy>(
    alloc: A,
    layer: usize,
    slabs: &[Rect],
    start: &Cursor<'_, '_>,
) -> Result<Vec<Wire, A>, ReadFault>
    ensures { Means (λ v. v.items) result (over (with_slab layer) [] slabs.now) }
{
    let mut wires = Vec::new(alloc);
    for slab in slabs {
        push_slab(alloc, layer, &mut wires, slab, start)?;
    }
    Ok(wires)
}

/// The segments of `POLYGON layer` and points. A slab that is a square unit is `Unsupported`, at the clause.
#[tactic(auto, unfolding(leg_grammar::specs::Def::SpecialPolygon::special_polygon_at))]
pub(crate) fn special_polygon<A: Allocator + Copy>(
    alloc: A,
    scope: &NetScope<'_, '_, A>,
    clause: &mut Cursor<'_, '_>,
) -> Result<Vec<Wire, A>, ReadFault>
    ensures { Reads (λ v. v.items) result clause.new (special_polygon_at scope.now clause.old) }
{
    let start = clause.again();
    clause.keyword(b"POLYGON")?;
    let layer = routing(scope.library, clause)?;
    let slabs = polygon(alloc, &start, clause)?;
    slab_wires(alloc, layer, &slabs, &start)
}
