//! Vias of a DEF (LEF/DEF 5.8, "Vias").

ghost use Rattle.std.specs.Prelude.{◌≡◌, []};
ghost use Rattle.leg_lex.specs.Words.{Reads, Means};
ghost use Rattle.leg_lex.specs.Until.{over, until};
ghost use Rattle.leg_lex.specs.Statements.{at_end};
ghost use Rattle.leg_grammar.specs.Def.Via.{via_rect, is_other_via, via_clause, via_head, shapes_in, via_in, via_entry, vias_at};

use crate::generated_via::generated_shapes;
use crate::via_list::ViaList;
use leg_design_common::clause::{clause, rect_or_mask};
use leg_design_common::layers::{layer, push_rect};
use leg_design_common::section_start;
use leg_generated_via::is_generated;
use leg_grammar::Profile;
use leg_lex::{Cursor, FaultKind, Name, NameKind, NamedList, Need, ReadFault, clauses};
use leg_lib_records::{Library, ShapeList, Via};
use std::alloc::Allocator;

/// Adds the rectangle of a clause `RECT`, where its layer carries metal. Where a clause `MASK` comes before the corners,
/// it is `Unsupported`.
#[tactic(auto, unfolding(leg_grammar::specs::Def::Via::via_rect))]
fn via_rect<A: Allocator + Copy>(
    library: &Library<'_, A>,
    is_masked: bool,
    shapes: &mut ShapeList<A>,
    part: &mut Cursor<'_, '_>,
) -> Result<(), ReadFault>
    ensures { Means (λ _. shapes.new) result (via_rect library.now shapes.old part.old) }
{
    part.keyword(b"RECT")?;
    let layer = layer(library, part)?;
    let is_masked = is_masked && part.is_at_end();
    let rect = rect_or_mask(is_masked, part)?;
    part.nothing_more()?;
    push_rect(library, layer, rect, shapes)?;
    Ok(())
}

/// Whether a clause defines a via in another way than by a rectangle, or gives the mask on which it lies.
fn is_other_via(part: &Cursor<'_, '_>) -> bool
    ensures { result ≡ is_other_via part.now }
{
    part.is_at(b"VIARULE")
        || part.is_at(b"POLYGON")
        || part.is_at(b"PATTERNNAME")
        || part.is_at(b"MASK")
}

/// One more clause, and whether `MASK` follows it.
#[tactic(auto, unfolding(leg_grammar::specs::Def::Via::via_clause))]
fn via_clause<A: Allocator + Copy>(
    library: &Library<'_, A>,
    is_masked: bool,
    shapes: &mut ShapeList<A>,
    part: &mut Cursor<'_, '_>,
) -> Result<(), ReadFault>
    ensures { Means (λ _. shapes.new) result (via_clause library.now shapes.old part.old) }
{
    if part.is_at(b"RECT") {
        via_rect(library, is_masked, shapes, part)
    } else if is_other_via(part) {
        Err(part.fault(FaultKind::Unsupported))
    } else {
        clause(part)
    }
}

/// The shapes that all clauses of a via give.
#[tactic(auto, using(leg_lex::proofs::EachElement::over_ends, leg_lex::proofs::EachElement::over_goes_on, leg_lex::proofs::EachElement::over_fails))]
fn all_shapes<A: Allocator + Copy>(
    alloc: A,
    library: &Library<'_, A>,
    clauses: &[Cursor<'_, '_>],
) -> Result<ShapeList<A>, ReadFault>
    ensures { Means (λ v. v) result (over (via_clause library.now) [] clauses.now) }
{
    let mut shapes = ShapeList::with_capacity(alloc, clauses.len())?;
    for (i, part) in clauses.iter().enumerate() {
        let is_masked = clauses.get(i + 1).is_some_and(|next| next.is_at(b"MASK"));
        via_clause(library, is_masked, &mut shapes, &mut part.again())?;
    }
    Ok(shapes)
}

/// The shapes that the clauses of a via say. The wide profile takes generated vias too.
#[tactic(auto, unfolding(leg_grammar::specs::Def::Via::shapes_in))]
fn shapes<'a, A: Allocator + Copy>(
    alloc: A,
    profile: Profile,
    library: &Library<'_, A>,
    vias: &ViaList<'a, A>,
    clauses: &[Cursor<'_, 'a>],
    entry: &Cursor<'_, 'a>,
) -> Result<ShapeList<A>, ReadFault>
    ensures { Means (λ v. v) result (shapes_in profile library.now vias.now clauses.now) }
{
    match profile {
        Profile::Narrow => all_shapes(alloc, library, clauses),
        Profile::Wide { .. } => {
            if is_generated(clauses) {
                generated_shapes(alloc, library, vias, clauses, entry)
            } else {
                all_shapes(alloc, library, clauses)
            }
        }
    }
}

/// The entry's head: `- NAME`, a name that no via of the library and none before has.
#[tactic(auto, unfolding(leg_grammar::specs::Def::Via::via_head))]
fn via_head<'a, A: Allocator + Copy>(
    library: &Library<'_, A>,
    vias: &ViaList<'a, A>,
    head: &mut Cursor<'_, 'a>,
) -> Result<&'a [u8], ReadFault>
    ensures { Means (λ name. name.now) result (via_head library.now vias.now head.old) }
{
    head.mark(b'-')?;
    let named = head.again();
    let name = head.name()?;
    if library.via_named(name).is_some() || vias.has(name) {
        return Err(named.need(FaultKind::DuplicateName, Need::New(NameKind::Via)));
    }
    head.nothing_more()?;
    Ok(name)
}

/// A via of the head and the clauses of its entry. One that isn't good keeps its shapes.
#[tactic(auto, unfolding(leg_grammar::specs::Def::Via::via_in))]
fn via<'a, A: Allocator + Copy>(
    alloc: A,
    profile: Profile,
    library: &Library<'_, A>,
    vias: &ViaList<'a, A>,
    entry: &Cursor<'_, 'a>,
    parts: &[Cursor<'_, 'a>],
) -> Result<Via<'a, A>, ReadFault>
    ensures { Means (λ v. v) result (via_in profile library.now vias.now parts.now) }
{
    let [head, clauses @ ..] = parts else {
        return Err(entry.fault(FaultKind::Unexpected));
    };
    let name = via_head(library, vias, &mut head.again())?;
    let shapes = shapes(alloc, profile, library, vias, clauses, entry)?;
    let good = library.is_good_via(alloc, name, shapes.as_slice())?;
    Ok(Via {
        name: Name::new(name),
        default_via: false,
        good,
        shapes,
    })
}

/// One more via, up to the semicolon of its entry.
#[tactic(auto, using(crate::proofs::Vias::name_is_fresh), unfolding(leg_grammar::specs::Def::Via::via_entry))]
fn entry<'a, A: Allocator + Copy>(
    alloc: A,
    profile: Profile,
    library: &Library<'_, A>,
    vias: &mut ViaList<'a, A>,
    words: &mut Cursor<'_, 'a>,
) -> Result<(), ReadFault>
    ensures { Reads (λ _. vias.new) result words.new (via_entry profile library.now vias.old words.old) }
{
    let statement = words.statement()?;
    let parts = clauses(alloc, &statement)?;
    let via = via(alloc, profile, library, vias, &statement, &parts)?;
    vias.push(via)?;
    Ok(())
}

/// The entries of the section, up to its `END`.
#[tactic(auto, using(leg_lex::proofs::Until::ends, leg_lex::proofs::Until::goes_on, leg_lex::proofs::Until::fails, crate::proofs::Vias::entry_shortens, crate::proofs::Vias::entry_shorter))]
fn entries<'a, A: Allocator + Copy>(
    alloc: A,
    profile: Profile,
    library: &Library<'_, A>,
    words: &mut Cursor<'_, 'a>,
) -> Result<ViaList<'a, A>, ReadFault>
    ensures { Reads (λ v. v) result words.new (until at_end (via_entry profile library.now) [] words.old) }
{
    let mut vias = ViaList::new(alloc);
    'entries: while !words.is_at(b"END") {
        entry(alloc, profile, library, &mut vias, words)?;
    }
    Ok(vias)
}

/// The section `VIAS`.
#[tactic(auto, unfolding(leg_grammar::specs::Def::Via::vias_at, leg_grammar::specs::Def::Section::section_at))]
pub fn vias<'a, A: Allocator + Copy>(
    alloc: A,
    profile: Profile,
    library: &Library<'_, A>,
    words: &mut Cursor<'_, 'a>,
) -> Result<NamedList<'a, Via<'a, A>, A>, ReadFault>
    ensures { Reads (λ t. t) result words.new (vias_at profile library.now words.old) }
{
    section_start(b"VIAS", words)?;
    let start = words.again();
    let vias = match entries(alloc, profile, library, words) {
        Ok(vias) => vias,
        Err(fault) => return Err(start.with_first_entry(fault)),
    };
    words.end(b"VIAS")?;
    Ok(vias.into_list())
}
