//! The free sites of one row in parts, so that a change of a few of them does not touch all that lie behind.

ghost use Rattle.std.specs.Prelude.{◌≡◌, ◌↔◌, ◌<◌, ◌≤◌, ℕ, IsTrue, IfOk, OnOk};
ghost use Rattle.leg_legal_sites.specs.Steps.Stretches.{IsFreeSite};
ghost use Rattle.leg_legal_sites.specs.Steps.Nearest.{FitsFrom, FitsUpTo, IsFirstFit, IsLast};
ghost use Rattle.leg_legal_sites.specs.Steps.Parts.{HasSpan, LosesSites};

use crate::ends::Ends;
use crate::free_sites::FreeSites;
use crate::part_ends::ends_of;
use crate::part_groups::groups_of;
use crate::part_places::{place_beyond, place_from};
use crate::part_search::{first_in_parts, fits_beside, last_in_parts};
use crate::take_parts::{regroup, take_from_parts};
use std::alloc::{AllocError, Allocator};
use std::marker::Model;

/// The free sites of one row. Contracts see them as the list of the stretches of all parts.
#[derive(Drop)]
pub(crate) struct RowParts<A: Allocator> {
    /// From left to right. Those that have lost all their sites are let go, but for an only one.
    parts: Vec<FreeSites<A>, A>,
    /// How many sites are free side by side at most in a part of each group.
    groups: Vec<u64, A>,
}

impl<A: Allocator> Model for RowParts<A> {
    ghost use Rattle.std.specs.Prelude.{List};
    ghost use Rattle.leg_legal_sites.specs.declared.stretch.Stretch.{Stretch};
    ghost use Rattle.leg_legal_sites.specs.Steps.Parts.{all_of, AreParts};

    ghost Value = { List Stretch };

    ghost view = { λ f. all_of f.parts.items };

    ghost invariant = { λ f. AreParts f.parts.items f.groups.items };
}

impl<A: Allocator> RowParts<A> {
    /// Whether both have one part, of the same stretches.
    pub(crate) fn is_same(&self, other: &RowParts<A>) -> bool
        ensures { IsTrue result → self.now ≡ other.now }
    {
        if self.parts.len() != 1 {
            return false;
        }
        if other.parts.len() != 1 {
            return false;
        }
        self.parts[0].stretches() == other.parts[0].stretches()
    }

    /// The first and the last free site, and a number that no more sites are free side by side than, if any is free.
    pub(crate) fn ends(&self) -> Option<Ends>
        ensures { HasSpan self.now result }
    {
        ends_of(self.parts.as_slice(), self.groups.as_slice())
    }

    /// The first of this many consecutive free sites, the greatest that isn't above this one, and the least that isn't below it.
    pub(crate) fn fits_beside(&self, many: u64, site: u64) -> (Option<u64>, Option<u64>)
        requires { 1 ≤ many }
        ensures left { IsLast (FitsUpTo self.now many site) result.0 }
        ensures right { IsFirstFit (FitsFrom self.now many site) result.1 }
    {
        if self.parts.len() == 1 {
            return fits_beside(&self.parts[0], many, site);
        }
        (
            last_in_parts(self.parts.as_slice(), self.groups.as_slice(), many, site),
            first_in_parts(self.parts.as_slice(), self.groups.as_slice(), many, site),
        )
    }
}

impl<A: Allocator + Copy> RowParts<A> {
    /// The sites from the one of the first number up to the one of the second, which isn't among them.
    pub(crate) fn new(alloc: A, from: u64, end: u64) -> Result<RowParts<A>, AllocError>
        ensures { IfOk result (λ free. (k : ℕ) → IsFreeSite free k ↔ ((from ≤ k) × (k < end))) }
    {
        let sites = FreeSites::new(alloc, from, end)?;
        let mut parts = Vec::with_capacity(alloc, 1)?;
        parts.push(sites)?;
        let groups = Vec::new(alloc);
        Ok(RowParts { parts, groups })
    }

    /// The same free sites once more. It fails only when out of memory.
    pub(crate) fn copied(&self) -> Result<RowParts<A>, AllocError>
        ensures { IfOk result (λ copy. copy ≡ self.now) }
    {
        let alloc = *self.parts.allocator();
        let mut parts = Vec::with_capacity(alloc, self.parts.len())?;
        for part in &self.parts {
            let copy = part.copied()?;
            parts.push(copy)?;
        }
        let groups = groups_of(alloc, parts.as_slice())?;
        Ok(RowParts { parts, groups })
    }

    /// Takes the sites from the one of the first number up to the one of the second away, those of them that are free.
    pub(crate) fn take(&mut self, from: u64, end: u64) -> Result<(), AllocError>
        ensures { OnOk result (LosesSites self.old from end self.new) }
    {
        let first = place_from(self.parts.as_slice(), from);
        let last = place_beyond(self.parts.as_slice(), end);
        take_from_parts(self.parts.as_mut_slice(), first, last, from, end)?;
        regroup(&mut self.parts, &mut self.groups, first, last)
    }
}
