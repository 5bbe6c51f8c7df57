//! Sets of pieces with their members.

ghost use Rattle.std.specs.Prelude.{◌≡◌, ◌<◌, ◌^◌, [], length, get_or, IfOk, OnOk};
ghost use Rattle.leg_wire.specs.Steps.Joins.{HasOneNumberMore};
ghost use Rattle.leg_wire.specs.Steps.JoinSteps.{IsJoinStep};
ghost use Rattle.leg_wire.specs.Steps.NumberSets.{AreTogether, AreUnited, AreGroups, HasGrown};

use crate::corner::Corners;
use crate::joining::are_newly_joined;
use crate::members::{members_of, merge};
use crate::piece_shape::PieceShape;
use crate::sets::Sets;
use leg_lib_records::Items;
use std::alloc::{AllocError, Allocator};

/// Sets of numbers, and for each number that is the least of its set the members of that. Where an allocation failed, they may have
/// lost some.
#[derive(Drop)]
pub(crate) struct Groups<A: Allocator> {
    pub(crate) sets: Sets<A>,
    pub(crate) members: Vec<Items<u32, A>, A>,
}

impl<A: Allocator + Copy> Groups<A> {
    /// The sets, of this many numbers, with their members.
    pub(crate) fn new(alloc: A, sets: Sets<A>, count: u32) -> Result<Groups<A>, AllocError>
        requires { count ≡ length sets }
        ensures same { IfOk result (λ groups. groups.sets ≡ sets) }
        ensures listed { IfOk result (λ groups. AreGroups groups.sets groups.members.items) }
    {
        let roots = sets.roots(alloc)?;
        let members = members_of(alloc, &roots, count)?;
        Ok(Groups { sets, members })
    }

    /// The members of the set of the number 0, in the order in which they came to it.
    pub(crate) fn first(&self) -> &[u32]
        ensures { result.now ≡ get_or self.now.members.items 0 [] }
    {
        match self.members.first() {
            Some(list) => list.as_slice(),
            None => &[],
        }
    }

    /// Adds a number, which is in a set of its own, and answers it.
    pub(crate) fn add(&mut self, alloc: A) -> Result<u32, AllocError>
        requires few { length self.old.sets < 2 ^ 32 }
        requires listed { AreGroups self.old.sets self.old.members.items }
        ensures number { IfOk result (λ number. number ≡ length self.old.sets) }
        ensures added { OnOk result (HasOneNumberMore self.old.sets self.new.sets) }
        ensures listed { OnOk result (AreGroups self.new.sets self.new.members.items) }
        ensures grown { OnOk result (HasGrown (get_or self.old.members.items 0 []) (get_or self.new.members.items 0 [])) }
    {
        let number = self.sets.add()?;
        let own = Vec::from_slice(alloc, &[number])?;
        self.members.push(Items::from_vec(own))?;
        Ok(number)
    }

    /// Makes one set of the pieces of two rectangles, where these make them touch. Nothing is asked where the pieces are
    /// together already.
    pub(crate) fn join(
        &mut self,
        alloc: A,
        corners: &mut Corners<A>,
        a: &PieceShape,
        b: &PieceShape,
    ) -> Result<(), AllocError>
        requires a { a.now.piece < length self.old.sets }
        requires b { b.now.piece < length self.old.sets }
        requires listed { AreGroups self.old.sets self.old.members.items }
        ensures step { OnOk result (IsJoinStep a.now b.now self.old.sets self.new.sets corners.old corners.new) }
        ensures count { length self.new.sets ≡ length self.old.sets }
        ensures listed { OnOk result (AreGroups self.new.sets self.new.members.items) }
        ensures grown { OnOk result (HasGrown (get_or self.old.members.items 0 []) (get_or self.new.members.items 0 [])) }
    {
        if are_newly_joined(&mut self.sets, corners, a, b)? {
            self.unite(alloc, a.piece, b.piece)?;
        }
        Ok(())
    }

    /// Makes the sets of the numbers one, which are in two.
    fn unite(&mut self, alloc: A, a: u32, b: u32) -> Result<(), AllocError>
        requires a { a < length self.old.sets }
        requires b { b < length self.old.sets }
        requires apart { AreTogether self.old.sets a b → ⊥ }
        requires listed { AreGroups self.old.sets self.old.members.items }
        ensures united { OnOk result (AreUnited a b self.old.sets self.new.sets) }
        ensures count { length self.new.sets ≡ length self.old.sets }
        ensures listed { OnOk result (AreGroups self.new.sets self.new.members.items) }
        ensures grown { OnOk result (HasGrown (get_or self.old.members.items 0 []) (get_or self.new.members.items 0 [])) }
    {
        let one = self.sets.least(a);
        let other = self.sets.least(b);
        self.sets.unite(a, b);
        merge(alloc, &mut self.members, one.min(other), one.max(other))?;
        Ok(())
    }
}
