//! The rectangles of a generated via of a DEF (LEF/DEF 5.8, "Vias").

ghost use Rattle.leg_lex.specs.Words.{Means};
ghost use Rattle.leg_grammar.specs.Def.CutArray.{generated_shapes};

use crate::generated_clauses::generated;
use crate::via_list::ViaList;
use leg_design_common::area::area;
use leg_design_common::clause::all_clauses;
use leg_generated_via::{array_shapes, none_drawn, pattern};
use leg_lex::{Cursor, FaultKind, ReadFault};
use leg_lib_records::{Library, ShapeList};
use std::alloc::Allocator;

/// The rectangles that the clauses of a generated via say. Where there would be too many of all vias so far, that is `TooMany`.
#[tactic(auto, unfolding(leg_grammar::specs::Def::CutArray::generated_shapes))]
pub(crate) fn generated_shapes<'a, A: Allocator + Copy>(
    alloc: A,
    library: &Library<'_, A>,
    vias: &ViaList<'a, A>,
    clauses: &[Cursor<'_, 'a>],
    entry: &Cursor<'_, 'a>,
) -> Result<ShapeList<A>, ReadFault>
    ensures { Means (λ v. v) result (generated_shapes library.now vias.now clauses.now) }
{
    none_drawn(clauses)?;
    all_clauses(clauses)?;
    let via = generated(library, clauses, entry)?;
    let pattern = pattern(alloc, clauses)?;
    let shapes = array_shapes(alloc, &pattern, &via, entry)?;
    if vias.has_room_for(shapes.as_slice().len()) {
        Ok(shapes)
    } else {
        Err(entry.fault(FaultKind::TooMany))
    }
}
