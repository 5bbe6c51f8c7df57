//! Ports of a pin (LEF/DEF 5.8, "Pins").

ghost use Rattle.std.specs.Prelude.{◌≡◌, IfOk};
ghost use Rattle.leg_lex.specs.Words.{Reads, Means};
ghost use Rattle.leg_grammar.specs.Def.Clause.{past_number};
ghost use Rattle.leg_grammar.specs.Def.Port.{empty_port, past_rules, layer_rect};

use leg_design_common::clause::rect_or_mask;
use leg_design_common::layers::layer;
use leg_design_records::{Port, Status};
use leg_geom::Rect;
use leg_grammar::Profile;
use leg_grammar::mask::past_mask;
use leg_lex::{Cursor, ReadFault};
use leg_lib_records::{Library, ShapeList};
use std::alloc::{AllocError, Allocator};

/// A port of which nothing is given.
pub(crate) fn empty_port<A: Allocator + Copy>(alloc: A) -> Result<Port<A>, AllocError>
    ensures { IfOk result (λ port. port ≡ empty_port) }
{
    Ok(Port {
        shapes: ShapeList::with_capacity(alloc, 1)?,
        status: Status::Unplaced,
        place: None,
    })
}

/// Reads past this keyword and a number, if the keyword is next.
#[tactic(auto, unfolding(leg_grammar::specs::Def::Clause::past_number))]
fn past_number(keyword: &[u8], clause: &mut Cursor<'_, '_>) -> Result<(), ReadFault>
    ensures { Reads (λ x. x) result clause.new (past_number keyword.now clause.old) }
{
    if clause.is_at(keyword) {
        clause.keyword(keyword)?;
        clause.whole()?;
    }
    Ok(())
}

/// Reads past the spacing and the width that a rectangle is taken for.
#[tactic(auto, unfolding(leg_grammar::specs::Def::Port::past_rules))]
pub(crate) fn past_rules(clause: &mut Cursor<'_, '_>) -> Result<(), ReadFault>
    ensures { Reads (λ x. x) result clause.new (past_rules clause.old) }
{
    past_number(b"SPACING", clause)?;
    past_number(b"DESIGNRULEWIDTH", clause)
}

/// The layer's number and the rectangle of a clause `LAYER`.
#[tactic(auto, unfolding(leg_grammar::specs::Def::Port::layer_rect))]
pub(crate) fn layer_rect<A: Allocator + Copy>(
    profile: Profile,
    library: &Library<'_, A>,
    clause: &mut Cursor<'_, '_>,
) -> Result<(usize, Rect), ReadFault>
    ensures { Means (λ on. on) result (layer_rect profile library.now clause.old) }
{
    clause.keyword(b"LAYER")?;
    let layer = layer(library, clause)?;
    past_mask(profile, clause)?;
    let is_masked = clause.is_at(b"MASK");
    past_rules(clause)?;
    let rect = rect_or_mask(is_masked, clause)?;
    clause.nothing_more()?;
    Ok((layer, rect))
}
