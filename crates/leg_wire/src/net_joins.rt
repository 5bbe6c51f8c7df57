//! Which pieces of a net are joined, while the net gets wires.

ghost use Rattle.std.specs.Prelude.{◌≡◌, ◌↔◌, ◌<◌, ◌≤◌, ◌+◌, ◌^◌, ◌++◌, [], IsTrue, true, length, get_or, Contains, IfOk, OnOk};
ghost use Rattle.leg_design_records.specs.Records.{DesignModel};
ghost use Rattle.leg_rules.specs.Metal.Flat.{FlatModel};
ghost use Rattle.leg_rules.specs.Joins.Touch.{piece_count, AreJoined};
ghost use Rattle.leg_rules.specs.Joins.Violations.{IsOpenNet};
ghost use Rattle.leg_wire.specs.NetShapes.{AreNumbersOf};
ghost use Rattle.leg_wire.specs.PieceMarks.{AreFirsts};
ghost use Rattle.leg_wire.specs.Joins.{AreJoinsOf, AreNewlyJoined, HasGiven, HasOnePieceMore, metal_of_piece};
ghost use Rattle.leg_wire.specs.Steps.JoinSteps.{HavePlaces};
ghost use Rattle.leg_wire.specs.Steps.NumberSets.{AreGroups, HasGrown};
ghost use Rattle.leg_wire.specs.Steps.Joins.{first_rects, TakesNew, JoinsNew};

use crate::corner::Corners;
use crate::groups::Groups;
use crate::joining::joined_sets;
use crate::meeting::do_meet;
use crate::piece_shape::{PieceShape, metal_of, metal_of_net, sort_by_piece};
use leg_flat::{Flat, Shape};
use leg_sweep::BinIndex;
use std::alloc::{AllocError, Allocator};
use std::marker::Model;

/// Nothing is kept of a net with more shapes or pieces than this, which no net has.
const MOST: usize = 1 << 31;

/// The metal of a net's pieces, and which of these are joined, so that a piece more is looked at by itself. Contracts see the
/// metal, the sets of the pieces that it joins, and which of those that are joined to the first one were given.
#[derive(Drop)]
pub struct NetJoins<A: Allocator> {
    net: u32,
    is_whole: bool,
    metal: Vec<PieceShape, A>,
    // The rectangles of the first shapes of the metal: those that were looked for yet.
    index: BinIndex<A>,
    groups: Groups<A>,
    // How many of the pieces that are joined to the first one were given.
    given: usize,
}

impl<A: Allocator> Model for NetJoins<A> {
    ghost use Rattle.std.specs.Prelude.{[], get_or, take};
    ghost use Rattle.leg_wire.specs.Joins.{JoinsModel};
    ghost use Rattle.leg_wire.specs.Steps.Joins.{IsKeptSet};

    ghost Value = { JoinsModel };

    ghost view = { λ j. record {
      net = j.net;
      is_whole = j.is_whole;
      metal = j.metal.items;
      sets = j.groups.sets;
      given = take j.given (get_or j.groups.members.items 0 []);
    } };

    ghost invariant = { λ j. IsKeptSet j.metal.items j.index j.groups.sets j.groups.members.items j.given };
}

impl<A: Allocator + Copy> NetJoins<A> {
    /// What is kept of the net of this number, whose shapes have these numbers. It fails only when out of memory.
    pub fn new(
        alloc: A,
        flat: &Flat<A>,
        net: u32,
        numbers: &[u32],
    ) -> Result<NetJoins<A>, AllocError>
        requires net { net < length flat.now.pieces }
        requires numbers { AreNumbersOf flat.now.shapes net numbers.now }
        ensures of { IfOk result (λ joins. AreJoinsOf flat.now joins) }
        ensures net { IfOk result (λ joins. joins.net ≡ net) }
        ensures none_given { IfOk result (λ joins. joins.given ≡ []) }
    {
        let mut metal = metal_of_net(alloc, flat, net, numbers)?;
        let is_whole = metal.len() == numbers.len();
        sort_by_piece(&mut metal);
        let sets = joined_sets(alloc, flat, net, &metal)?;
        Ok(NetJoins {
            net,
            is_whole,
            metal,
            index: BinIndex::build(alloc, &[])?,
            groups: Groups::new(alloc, sets, flat.pieces_of_net(net))?,
            given: 0,
        })
    }

    /// The number of the net.
    pub fn net(&self) -> u32
        ensures { result ≡ self.now.net }
    {
        self.net
    }

    /// Whether a piece is not joined to the first one: whether the net is open.
    pub fn is_one_apart(&self) -> bool
        ensures { (design : DesignModel) (flat : FlatModel) → self.now.net < length design.nets → AreJoinsOf flat self.now
            → IsTrue result ↔ IsOpenNet design flat self.now.net }
    {
        self.groups.first().len() < self.groups.sets.len()
    }

    /// The pieces that are joined to the first one and were not given before. They are given with this. It fails only when out of
    /// memory.
    pub fn take_joined(&mut self, alloc: A) -> Result<Vec<u32, A>, AllocError>
        ensures joined { IfOk result (λ pieces. (flat : FlatModel) → AreJoinsOf flat self.old → AreNewlyJoined flat self.old pieces.items) }
        ensures given { IfOk result (λ pieces. HasGiven self.old pieces.items self.new) }
    {
        let joined = self.groups.first();
        let pieces = Vec::from_slice(alloc, &joined[self.given..])?;
        self.given = joined.len();
        Ok(pieces)
    }

    /// For each piece the least piece that it is joined to, by their numbers, as `groups_among` gives them. It fails only when out of
    /// memory.
    pub fn firsts(&self, alloc: A) -> Result<Vec<u32, A>, AllocError>
        ensures { IfOk result (λ firsts. (flat : FlatModel) → AreJoinsOf flat self.now
            → AreFirsts (AreJoined flat self.now.net) (piece_count flat self.now.net) firsts.items) }
    {
        self.groups.sets.roots(alloc)
    }

    /// The metal of the piece.
    pub fn metal_of(&self, piece: u32) -> &[PieceShape]
        ensures { (shape : PieceShape) → Contains result.now shape ↔ (Contains self.now.metal shape × (shape.piece ≡ piece)) }
    {
        metal_of(&self.metal, piece)
    }

    /// Whether a piece of this many shapes can be added: where there is metal of the net that is none of its pieces', or where
    /// there would be too much, the joins are found anew.
    pub fn can_add(&self, shapes: usize) -> bool
        ensures whole { result ≡ true → self.now.is_whole ≡ true }
        ensures few { result ≡ true → length self.now.metal + shapes ≤ 2 ^ 31 }
        ensures pieces { result ≡ true → length self.now.sets < 2 ^ 31 }
    {
        self.is_whole
            && self.metal.len() < MOST
            && shapes < MOST - self.metal.len()
            && self.groups.sets.len() < MOST
    }

    /// The same with one piece more, which is joined to those that its shapes touch. It fails only when out of memory.
    pub fn with_piece(self, shapes: &[Shape]) -> Result<NetJoins<A>, AllocError>
        requires few { length self.metal + length shapes.now ≤ 2 ^ 31 }
        requires pieces { length self.sets < 2 ^ 31 }
        ensures { IfOk result (λ after. HasOnePieceMore self shapes.now after) }
    {
        let NetJoins {
            net,
            is_whole,
            mut metal,
            mut index,
            mut groups,
            given,
        } = self;
        let alloc = *metal.allocator();
        index_all(&mut index, &metal)?;
        let piece = groups.add(alloc)?;
        push_metal(&mut metal, piece, shapes)?;
        join_new(alloc, &metal, &index, &mut groups)?;
        Ok(NetJoins {
            net,
            is_whole,
            metal,
            index,
            groups,
            given,
        })
    }
}

/// Puts the rectangles of all metal in the index, after those of the first shapes, which it has.
fn index_all<A: Allocator + Copy>(
    index: &mut BinIndex<A>,
    metal: &[PieceShape],
) -> Result<(), AllocError>
    requires few { length metal.now ≤ 2 ^ 31 }
    requires within { length index.old ≤ length metal.now }
    requires first { index.old ≡ first_rects (length index.old) metal.now }
    ensures { OnOk result (index.new ≡ first_rects (length metal.now) metal.now) }
{
    for number in index.len()..metal.len() {
        index.add(metal[number].rect)?;
    }
    Ok(())
}

/// Puts these shapes to the metal, as that of this piece.
fn push_metal<A: Allocator>(
    metal: &mut Vec<PieceShape, A>,
    piece: u32,
    shapes: &[Shape],
) -> Result<(), AllocError>
    ensures { OnOk result (metal.new.items ≡ metal.old.items ++ metal_of_piece piece shapes.now) }
{
    for shape in shapes {
        metal.push(PieceShape {
            piece,
            layer: shape.layer,
            rect: shape.rect,
        })?;
    }
    Ok(())
}

/// Joins the pieces of the metal that is not in the index to those of the metal that is.
fn join_new<A: Allocator + Copy>(
    alloc: A,
    metal: &[PieceShape],
    index: &BinIndex<A>,
    groups: &mut Groups<A>,
) -> Result<(), AllocError>
    requires few { length index.now ≤ length metal.now }
    requires first { index.now ≡ first_rects (length index.now) metal.now }
    requires places { HavePlaces groups.old.sets metal.now }
    requires listed { AreGroups groups.old.sets groups.old.members.items }
    ensures joins { OnOk result (JoinsNew metal.now (length index.now) groups.old.sets groups.new.sets) }
    ensures count { length groups.new.sets ≡ length groups.old.sets }
    ensures listed { OnOk result (AreGroups groups.new.sets groups.new.members.items) }
    ensures grown { OnOk result (HasGrown (get_or groups.old.members.items 0 []) (get_or groups.new.members.items 0 [])) }
{
    let mut corners = Corners::new(alloc);
    for number in index.len()..metal.len() {
        join_near(alloc, metal, index, number, groups, &mut corners)?;
    }
    Ok(())
}

/// Joins the piece of the shape of this number to those whose metal in the index meets it.
fn join_near<A: Allocator + Copy>(
    alloc: A,
    metal: &[PieceShape],
    index: &BinIndex<A>,
    number: usize,
    groups: &mut Groups<A>,
    corners: &mut Corners<A>,
) -> Result<(), AllocError>
    requires new { length index.now ≤ number }
    requires within { number < length metal.now }
    requires first { index.now ≡ first_rects (length index.now) metal.now }
    requires places { HavePlaces groups.old.sets metal.now }
    requires listed { AreGroups groups.old.sets groups.old.members.items }
    ensures takes { OnOk result (TakesNew metal.now (length index.now) number (number + 1) groups.old.sets groups.new.sets corners.old corners.new) }
    ensures count { length groups.new.sets ≡ length groups.old.sets }
    ensures listed { OnOk result (AreGroups groups.new.sets groups.new.members.items) }
    ensures grown { OnOk result (HasGrown (get_or groups.old.members.items 0 []) (get_or groups.new.members.items 0 [])) }
{
    let shape = &metal[number];
    for near in index.near(&shape.rect, 0) {
        let other = &metal[near as usize];
        if do_meet(other, shape) {
            groups.join(alloc, corners, other, shape)?;
        }
    }
    Ok(())
}
