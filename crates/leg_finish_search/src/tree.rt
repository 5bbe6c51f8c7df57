//! What is joined of a net on its turn.

ghost use Rattle.std.specs.Prelude.{◌≡◌, ◌<◌, ◌++◌, ◌∷◌, [], length, IfOk, IfSome, OnOk, map};
ghost use Rattle.leg_finish_search.specs.Slots.{AreSlotLists};
ghost use Rattle.leg_finish_search.specs.Steps.Tree.{IsTreeOf};

use crate::ground::Ground;
use crate::lattice::Lattice;
use crate::net::box_of;
use crate::place::{Place, PlaceBox};
use leg_lib_records::Items;
use std::alloc::{AllocError, Allocator};
use std::marker::Model;

/// A group of the net, as what is joined sees it.
#[derive(Clone, Copy)]
struct Aim {
    ends: PlaceBox,
    /// How far its middle is from what is joined.
    distance: u32,
    is_joined: bool,
}

/// A slot from which walks may begin, and whether the net uses it already.
#[derive(Clone, Copy)]
pub(crate) struct Source {
    pub(crate) slot: u32,
    pub(crate) is_used: bool,
}

/// What is joined of a net on its turn: some of its groups, and the walks that join them.
#[derive(Drop)]
pub(crate) struct Tree<A: Allocator> {
    /// For each group of the net.
    aims: Vec<Aim, A>,
    sources: Vec<Source, A>,
    walks: Vec<Items<u32, A>, A>,
}

impl<A: Allocator> Model for Tree<A> {
    ghost use Rattle.std.specs.Prelude.{length, map};
    ghost use Rattle.leg_finish_search.specs.declared.tree.Source.{Source};
    ghost use Rattle.leg_finish_search.specs.Steps.Tree.{TreeModel};

    ghost Value = { TreeModel };

    ghost view = { λ t. record { groups = length t.aims.items; sources = map (λ (s : Source). s.slot) t.sources.items; walks = t.walks.items } };
}

impl<A: Allocator + Copy> Tree<A> {
    /// With none of the groups. There is no tree where a group has no node.
    pub(crate) fn new<L: Lattice>(
        alloc: A,
        ground: &Ground<'_, A, L>,
        groups: &[Items<u32, A>],
    ) -> Result<Option<Tree<A>>, AllocError>
        requires { AreSlotLists (L.size_of ground.now.lattice.now) groups.now }
        ensures { IfOk result (λ made. IfSome made (IsTreeOf (L.size_of ground.now.lattice.now) (length groups.now))) }
    {
        let mut aims = Vec::with_capacity(alloc, groups.len())?;
        for group in groups {
            let Some(ends) = box_of(ground, group.as_slice()) else {
                return Ok(None);
            };
            aims.push(Aim {
                ends,
                distance: u32::MAX,
                is_joined: false,
            })?;
        }
        Ok(Some(Tree {
            aims,
            sources: Vec::new(alloc),
            walks: Vec::new(alloc),
        }))
    }
}

impl<A: Allocator> Tree<A> {
    /// The slots from which walks may begin.
    pub(crate) fn sources(&self) -> &[Source]
        ensures { map (λ (s : Source). s.slot) result.now ≡ self.now.sources }
    {
        &self.sources
    }

    /// Whether the group of this number is not joined.
    pub(crate) fn is_waiting(&self, group: usize) -> bool
        requires { group < self.now.groups }
    {
        !self.aims[group].is_joined
    }

    /// The box around the nearest group that is not joined, the first of several, if there is one.
    pub(crate) fn aim(&self) -> Option<PlaceBox> {
        let mut nearest: Option<Aim> = None;
        for aim in &self.aims {
            if !aim.is_joined && nearest.is_none_or(|other| aim.distance < other.distance) {
                nearest = Some(*aim);
            }
        }
        Some(nearest?.ends)
    }

    /// A slot more from which walks may begin.
    pub(crate) fn push_source(&mut self, source: Source, place: Place) -> Result<(), AllocError>
        ensures { OnOk result (self.new ≡ record self.old { sources = self.old.sources ++ source.slot ∷ [] }) }
    {
        self.sources.push(source)?;
        for aim in self.aims.iter_mut() {
            aim.distance = aim.distance.min(place.distance(aim.ends.middle()));
        }
        Ok(())
    }

    /// The group of this number is joined.
    pub(crate) fn set_joined(&mut self, group: usize)
        requires { group < self.old.groups }
        ensures { self.new ≡ self.old }
    {
        self.aims[group].is_joined = true;
    }

    /// One walk more.
    pub(crate) fn push_walk(&mut self, walk: Vec<u32, A>) -> Result<(), AllocError>
        ensures { OnOk result (self.new ≡ record self.old { walks = self.old.walks ++ walk.items ∷ [] }) }
    {
        self.walks.push(Items::from_vec(walk))?;
        Ok(())
    }

    /// The walks, in the order in which they were laid.
    pub(crate) fn into_walks(self) -> Vec<Items<u32, A>, A>
        ensures { result.items ≡ self.walks }
    {
        self.walks
    }
}
