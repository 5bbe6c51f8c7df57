//! Polygons in ports of pins (LEF/DEF 5.8, "Pins"; that they are read in the wide profile alone is lefdef's own rule).

ghost use Rattle.leg_lex.specs.Words.{Reads, Means};
ghost use Rattle.leg_grammar.specs.Def.Polygon.{polygon_at};
ghost use Rattle.leg_grammar.specs.Def.Port.{layer_polygon};

use crate::port::past_rules;
use leg_design_common::layers::layer;
use leg_design_common::polygon::polygon;
use leg_geom::Rect;
use leg_grammar::Profile;
use leg_grammar::mask::past_mask;
use leg_lex::{Cursor, FaultKind, Need, ReadFault};
use leg_lib_records::Library;
use std::alloc::Allocator;

/// The slabs of a polygon. Where a mask is named in its place, it is `Unsupported`.
fn polygon_or_mask<A: Allocator + Copy>(
    alloc: A,
    is_masked: bool,
    first: &Cursor<'_, '_>,
    clause: &mut Cursor<'_, '_>,
) -> Result<Vec<Rect, A>, ReadFault>
    ensures { Reads (λ v. v.items) result clause.new (polygon_at clause.old) }
{
    match polygon(alloc, first, clause) {
        Err(fault) if is_masked && fault.kind == FaultKind::Unexpected => {
            Err(fault.of_kind(FaultKind::Unsupported).needs(Need::NoMask))
        }
        answer => answer,
    }
}

/// The layer's number and the slabs of a clause `POLYGON`. In the narrow profile the clause is `Unsupported`.
#[tactic(auto, unfolding(leg_grammar::specs::Def::Port::layer_polygon))]
pub(crate) fn layer_polygon<A: Allocator + Copy>(
    alloc: A,
    profile: Profile,
    library: &Library<'_, A>,
    clause: &mut Cursor<'_, '_>,
) -> Result<(usize, Vec<Rect, A>), ReadFault>
    ensures { Means (λ on. (on.0, on.1.items)) result (layer_polygon profile library.now clause.old) }
{
    if !profile.is_wide() {
        return Err(clause.fault(FaultKind::Unsupported));
    }
    let first = clause.again();
    clause.keyword(b"POLYGON")?;
    let layer = layer(library, clause)?;
    past_mask(profile, clause)?;
    let is_masked = clause.is_at(b"MASK");
    past_rules(clause)?;
    let slabs = polygon_or_mask(alloc, is_masked, &first, clause)?;
    clause.nothing_more()?;
    Ok((layer, slabs))
}
