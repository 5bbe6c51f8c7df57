//! Blockages of a DEF (LEF/DEF 5.8, "Blockages").

ghost use Rattle.std.specs.Prelude.{◌≡◌, true, [], ◌∷◌, ◌++◌, length, map, OnOk, codes};
ghost use Rattle.leg_lex.specs.Words.{Reads, keyword_at};
ghost use Rattle.leg_lex.specs.Until.{until};
ghost use Rattle.leg_lex.specs.Statements.{at_end};
ghost use Rattle.leg_design_records.specs.Records.{blockage_said};
ghost use Rattle.leg_grammar.specs.Def.BlockageClause.{blockage_clause};
ghost use Rattle.leg_grammar.specs.Def.Blockage.{blocked_layer_at, at_no_plus, one_rect, one_polygon, one_area, at_semicolon, rects_at, blockage_at, is_kept, is_room_for, blockage_entry, blockages_at};

use crate::blockage_clause::blockage_clause;
use leg_design_common::layers::{has_metal, layer};
use leg_design_common::placement::rect;
use leg_design_common::polygon::polygon;
use leg_design_common::section_start;
use leg_design_records::{Blockage, ENTRY_LIMIT, PART_LIMIT};
use leg_geom::Rect;
use leg_grammar::Profile;
use leg_lex::{Cursor, Entry, FaultKind, Need, ReadFault};
use leg_lib_records::{Items, Library};
use std::alloc::{AllocError, Allocator};
use std::marker::Model;

/// The blockages that were read so far, and how many rectangles they have. Contracts see it as the list of what the
/// blockages say.
#[derive(Drop)]
struct BlockageList<A: Allocator> {
    items: Vec<Blockage<A>, A>,
    rects: usize,
}

impl<A: Allocator> Model for BlockageList<A> {
    ghost use Rattle.std.specs.Prelude.{◌≡◌, List, map};
    ghost use Rattle.leg_design_records.specs.Records.{BlockageModel, blockage_said, rect_count};

    ghost Value = { List BlockageModel };

    ghost view = { λ b. map blockage_said b.items.items };

    ghost invariant = { λ b. b.rects ≡ rect_count (map blockage_said b.items.items) };
}

impl<A: Allocator + Copy> BlockageList<A> {
    /// No blockages.
    fn new(alloc: A) -> BlockageList<A>
        ensures { result ≡ [] }
    {
        BlockageList {
            items: Vec::new(alloc),
            rects: 0,
        }
    }

    /// Whether there may be this blockage besides those that are there.
    fn has_room_for(&self, blockage: &Blockage<A>) -> bool
        ensures { result ≡ is_room_for (blockage_said blockage.now) self.now }
    {
        let rects = self.rects.saturating_add(rect_count(blockage));
        (self.items.len() as u64) < ENTRY_LIMIT && rects as u64 <= PART_LIMIT
    }

    /// Adds a blockage, for which there is room.
    fn push(&mut self, blockage: Blockage<A>) -> Result<(), AllocError>
        requires { is_room_for (blockage_said blockage) self.old ≡ true }
        ensures { OnOk result (self.new ≡ self.old ++ blockage_said blockage ∷ []) }
    {
        self.items.reserve(1)?;
        self.rects += rect_count(&blockage);
        self.items.push(blockage).unwrap();
        Ok(())
    }

    /// The blockages alone.
    fn into_vec(self) -> Vec<Blockage<A>, A>
        ensures { map blockage_said result.items ≡ self }
    {
        self.items
    }
}

/// How many rectangles a blockage has.
fn rect_count<A: Allocator>(blockage: &Blockage<A>) -> usize
    ensures { result ≡ length (blockage_said blockage.now).rects }
{
    match blockage {
        Blockage::LayerRects { rects, .. } | Blockage::Placement { rects } => {
            rects.as_slice().len()
        }
    }
}

/// Whether a blockage is kept: one on a layer without metal isn't.
fn is_kept<A: Allocator + Copy>(library: &Library<'_, A>, blockage: &Blockage<A>) -> bool
    ensures { result ≡ is_kept library.now (blockage_said blockage.now).layer }
{
    match blockage {
        Blockage::LayerRects { layer, .. } => has_metal(library, *layer),
        Blockage::Placement { .. } => true,
    }
}

/// `PLACEMENT`, or `LAYER` and a layer of the library, of which the number is answered.
#[tactic(auto, unfolding(leg_grammar::specs::Def::Blockage::blocked_layer_at))]
fn blocked_layer<A: Allocator + Copy>(
    library: &Library<'_, A>,
    words: &mut Cursor<'_, '_>,
) -> Result<Option<usize>, ReadFault>
    ensures { Reads (λ l. l) result words.new (blocked_layer_at library.now words.old) }
{
    if words.is_at(b"PLACEMENT") {
        words.keyword(b"PLACEMENT")?;
        Ok(None)
    } else {
        words.keyword(b"LAYER")?;
        Ok(Some(layer(library, words)?))
    }
}

/// Reads past the clauses before the first rectangle: whether they keep the blockage.
#[tactic(auto, using(leg_lex::proofs::Until::ends, leg_lex::proofs::Until::goes_on, leg_lex::proofs::Until::fails, crate::proofs::BlockageClauses::clause_shortens, crate::proofs::BlockageClauses::clause_shorter))]
fn clauses(
    profile: Profile,
    layer: Option<usize>,
    words: &mut Cursor<'_, '_>,
) -> Result<bool, ReadFault>
    ensures { Reads (λ kept. kept) result words.new (until at_no_plus (blockage_clause profile layer) true words.old) }
{
    let mut kept = true;
    'clauses: while words.is_at(b"+") {
        kept = blockage_clause(profile, layer, kept, words)?;
    }
    Ok(kept)
}

/// The keyword of a rectangle. `POLYGON` in its place is `Unsupported`.
#[tactic(auto, using(crate::proofs::Blockages::no_polygon))]
fn rect_keyword(words: &mut Cursor<'_, '_>) -> Result<(), ReadFault>
    ensures { Reads (λ x. x) result words.new (keyword_at (codes "RECT") words.old) }
{
    if words.is_at(b"POLYGON") {
        return Err(words.fault(FaultKind::Unsupported));
    }
    words.keyword(b"RECT")
}

/// Adds the rectangle that comes next.
#[tactic(auto, unfolding(leg_grammar::specs::Def::Blockage::one_rect))]
fn one_rect<A: Allocator + Copy>(
    rects: &mut Vec<Rect, A>,
    words: &mut Cursor<'_, '_>,
) -> Result<(), ReadFault>
    ensures { Reads (λ _. rects.new.items) result words.new (one_rect rects.old.items words.old) }
{
    rect_keyword(words)?;
    rects.push(rect(words)?)?;
    Ok(())
}

/// Adds the slabs of the polygon that comes next.
#[tactic(auto, unfolding(leg_grammar::specs::Def::Blockage::one_polygon))]
fn one_polygon<A: Allocator + Copy>(
    alloc: A,
    rects: &mut Vec<Rect, A>,
    words: &mut Cursor<'_, '_>,
) -> Result<(), ReadFault>
    ensures { Reads (λ _. rects.new.items) result words.new (one_polygon rects.old.items words.old) }
{
    let first = words.again();
    words.keyword(b"POLYGON")?;
    let slabs = polygon(alloc, &first, words)?;
    rects.extend_from_slice(&slabs)?;
    Ok(())
}

/// Adds the rectangle, or in the wide profile the slabs of the polygon, that comes next.
#[tactic(auto, unfolding(leg_grammar::specs::Def::Blockage::one_area))]
fn one_area<A: Allocator + Copy>(
    alloc: A,
    profile: Profile,
    rects: &mut Vec<Rect, A>,
    words: &mut Cursor<'_, '_>,
) -> Result<(), ReadFault>
    ensures { Reads (λ _. rects.new.items) result words.new (one_area profile rects.old.items words.old) }
{
    if profile.is_wide() && words.is_at(b"POLYGON") {
        one_polygon(alloc, rects, words)
    } else {
        one_rect(rects, words)
    }
}

/// Adds the rectangles and polygons that are left, up to the `;` after them.
#[tactic(auto, using(leg_lex::proofs::Until::ends, leg_lex::proofs::Until::goes_on, leg_lex::proofs::Until::fails, crate::proofs::Blockages::one_area_shortens, crate::proofs::Blockages::one_area_shorter))]
fn more_areas<A: Allocator + Copy>(
    alloc: A,
    profile: Profile,
    rects: &mut Vec<Rect, A>,
    words: &mut Cursor<'_, '_>,
) -> Result<(), ReadFault>
    ensures { Reads (λ _. rects.new.items) result words.new (until at_semicolon (one_area profile) rects.old.items words.old) }
{
    'areas: while !words.is_at(b";") {
        one_area(alloc, profile, rects, words)?;
    }
    Ok(())
}

/// One rectangle or polygon at least, and the `;` after the last.
#[tactic(auto, unfolding(leg_grammar::specs::Def::Blockage::rects_at))]
fn rects<A: Allocator + Copy>(
    alloc: A,
    profile: Profile,
    words: &mut Cursor<'_, '_>,
) -> Result<Vec<Rect, A>, ReadFault>
    ensures { Reads (λ v. v.items) result words.new (rects_at profile words.old) }
{
    let mut rects = Vec::new(alloc);
    one_area(alloc, profile, &mut rects, words)?;
    more_areas(alloc, profile, &mut rects, words)?;
    words.mark(b';')?;
    Ok(rects)
}

/// A blockage, from the dash of its entry to the semicolon, and whether its clauses keep it.
#[tactic(auto, unfolding(leg_grammar::specs::Def::Blockage::blockage_at))]
fn blockage<A: Allocator + Copy>(
    alloc: A,
    profile: Profile,
    library: &Library<'_, A>,
    words: &mut Cursor<'_, '_>,
) -> Result<(Blockage<A>, bool), ReadFault>
    ensures { Reads (λ said. (blockage_said said.0, said.1)) result words.new (blockage_at profile library.now words.old) }
{
    words.mark(b'-')?;
    let layer = blocked_layer(library, words)?;
    let kept = clauses(profile, layer, words)?;
    let rects = Items::from_vec(rects(alloc, profile, words)?);
    match layer {
        Some(layer) => Ok((Blockage::LayerRects { layer, rects }, kept)),
        None => Ok((Blockage::Placement { rects }, kept)),
    }
}

/// One more entry. One that is kept and for which there is no room is `TooMany`.
#[tactic(auto, unfolding(leg_grammar::specs::Def::Blockage::blockage_entry))]
fn entry<A: Allocator + Copy>(
    alloc: A,
    profile: Profile,
    library: &Library<'_, A>,
    blockages: &mut BlockageList<A>,
    words: &mut Cursor<'_, '_>,
) -> Result<(), ReadFault>
    ensures { Reads (λ _. blockages.new) result words.new (blockage_entry profile library.now blockages.old words.old) }
{
    let dash = words.again();
    let (blockage, kept) = blockage(alloc, profile, library, words)?;
    if !kept || !is_kept(library, &blockage) {
        return Ok(());
    }
    if !blockages.has_room_for(&blockage) {
        return Err(dash.need(FaultKind::TooMany, Need::Fewer(Entry::Blockage)));
    }
    blockages.push(blockage)?;
    Ok(())
}

/// The entries of the section, up to its `END`.
#[tactic(auto, using(leg_lex::proofs::Until::ends, leg_lex::proofs::Until::goes_on, leg_lex::proofs::Until::fails, crate::proofs::Blockages::entry_shortens, crate::proofs::Blockages::entry_shorter))]
fn entries<A: Allocator + Copy>(
    alloc: A,
    profile: Profile,
    library: &Library<'_, A>,
    words: &mut Cursor<'_, '_>,
) -> Result<BlockageList<A>, ReadFault>
    ensures { Reads (λ b. b) result words.new (until at_end (blockage_entry profile library.now) [] words.old) }
{
    let mut blockages = BlockageList::new(alloc);
    'entries: while !words.is_at(b"END") {
        entry(alloc, profile, library, &mut blockages, words)?;
    }
    Ok(blockages)
}

/// The section `BLOCKAGES`.
#[tactic(auto, unfolding(leg_grammar::specs::Def::Blockage::blockages_at, leg_grammar::specs::Def::Section::section_at))]
pub fn blockages<A: Allocator + Copy>(
    alloc: A,
    profile: Profile,
    library: &Library<'_, A>,
    words: &mut Cursor<'_, '_>,
) -> Result<Vec<Blockage<A>, A>, ReadFault>
    ensures { Reads (λ v. map blockage_said v.items) result words.new (blockages_at profile library.now words.old) }
{
    section_start(b"BLOCKAGES", words)?;
    let blockages = entries(alloc, profile, library, words)?;
    words.end(b"BLOCKAGES")?;
    Ok(blockages.into_vec())
}
