//! Clauses of `SPECIALNETS` that give rectangles, polygons and vias beside paths (LEF/DEF 5.8, "Special Wiring Statement").

ghost use Rattle.leg_lex.specs.Words.{Reads};
ghost use Rattle.leg_grammar.specs.Def.SpecialShape.{special_shape_at, shape_at};

use crate::special_polygon::special_polygon;
use crate::special_rect::special_rect;
use crate::special_via::special_vias;
use leg_design_common::NetScope;
use leg_design_records::Wire;
use leg_grammar::Profile;
use leg_grammar::mask::{is_at_mask, mask};
use leg_lex::{Cursor, FaultKind, ReadFault};
use std::alloc::Allocator;

/// The wires of `RECT`, of `POLYGON` and of `VIA`. A mask that is dropped has none; another clause is `Unsupported`.
#[tactic(auto, unfolding(leg_grammar::specs::Def::SpecialShape::special_shape_at))]
fn special_shape<A: Allocator + Copy>(
    alloc: A,
    scope: &NetScope<'_, '_, A>,
    clause: &mut Cursor<'_, '_>,
) -> Result<Vec<Wire, A>, ReadFault>
    ensures { Reads (λ v. v.items) result clause.new (special_shape_at scope.now clause.old) }
{
    if clause.is_at(b"RECT") {
        special_rect(alloc, scope, clause)
    } else if clause.is_at(b"POLYGON") {
        special_polygon(alloc, scope, clause)
    } else if clause.is_at(b"VIA") {
        special_vias(alloc, scope, clause)
    } else if is_at_mask(scope.profile, clause) {
        mask(clause)?;
        Ok(Vec::new(alloc))
    } else {
        Err(clause.fault(FaultKind::Unsupported))
    }
}

/// The wires of such a clause, where the profile reads it. Elsewhere it is `Unsupported`.
#[tactic(auto, unfolding(leg_grammar::specs::Def::SpecialShape::shape_at))]
pub fn shape<A: Allocator + Copy>(
    alloc: A,
    profile: Profile,
    scope: &NetScope<'_, '_, A>,
    special: bool,
    clause: &mut Cursor<'_, '_>,
) -> Result<Vec<Wire, A>, ReadFault>
    ensures { Reads (λ v. v.items) result clause.new (shape_at profile scope.now special clause.old) }
{
    match profile {
        Profile::Wide { .. } if special => special_shape(alloc, scope, clause),
        _ => Err(clause.fault(FaultKind::Unsupported)),
    }
}
