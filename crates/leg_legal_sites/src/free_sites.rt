//! The free sites of one row.

ghost use Rattle.std.specs.Prelude.{◌≡◌, ◌++◌, IsTrue, IfOk, OnOk, OnErr};
ghost use Rattle.leg_legal_sites.specs.Steps.Stretches.{AreFreeStretches, AreSitesBetween, IsWithout};
ghost use Rattle.leg_legal_sites.specs.Steps.Parts.{AreNoMoreThan, LosesSites, HasSpan, DoEndBy, DoBeginBeyond, has_any};

use crate::ends::Ends;
use crate::stretch::Stretch;
use crate::take_sites::{first_end_beyond, take_sites};
use std::alloc::{AllocError, Allocator};
use std::marker::Model;

/// The free sites of one row. Contracts see them as the list of their stretches, from left to right.
#[derive(Drop)]
pub struct FreeSites<A: Allocator> {
    stretches: Vec<Stretch, A>,
    /// No more sites than these are free side by side.
    longest: u64,
}

impl<A: Allocator> Model for FreeSites<A> {
    ghost use Rattle.std.specs.Prelude.{List};
    ghost use Rattle.leg_legal_sites.specs.declared.stretch.Stretch.{Stretch};
    ghost use Rattle.leg_legal_sites.specs.Steps.Parts.{AreMeasured};

    ghost Value = { List Stretch };

    ghost view = { λ f. f.stretches.items };

    ghost invariant = { λ f. AreMeasured f.longest f.stretches.items };
}

impl<A: Allocator> FreeSites<A> {
    /// The sites from the one of the first number up to the one of the second, which isn't among them. It fails only
    /// when out of memory.
    pub fn new(alloc: A, from: u64, end: u64) -> Result<FreeSites<A>, AllocError>
        ensures { IfOk result (AreSitesBetween from end) }
    {
        let mut stretches = Vec::new(alloc);
        if from < end {
            stretches.push(Stretch { from, end })?;
        }
        Ok(FreeSites {
            stretches,
            longest: end.saturating_sub(from),
        })
    }

    /// The stretches of free sites, from left to right, with a site that isn't free between any two.
    pub fn stretches(&self) -> &[Stretch]
        ensures is { result.now ≡ self.now }
        ensures apart { AreFreeStretches self.now }
    {
        self.stretches.as_slice()
    }

    /// Takes the sites from the one of the first number up to the one of the second away, those of them that are free.
    /// It fails only when out of memory, and then the free sites are as before.
    pub fn take(&mut self, from: u64, end: u64) -> Result<(), AllocError>
        ensures ok { OnOk result (IsWithout self.old from end self.new) }
        ensures err { OnErr result (self.new ≡ self.old) }
    {
        let first = first_end_beyond(self.stretches.as_slice(), from);
        let is_kept = are_in_shorter(self.stretches.as_slice(), first, self.longest, from, end);
        take_sites(&mut self.stretches, first, from, end)?;
        if is_kept {
            return Ok(());
        }
        self.longest = longest_of(self.stretches.as_slice());
        Ok(())
    }

    /// How many sites are free side by side at most.
    pub(crate) fn longest(&self) -> u64
        ensures { AreNoMoreThan result self.now }
    {
        self.longest
    }

    /// Whether all free sites lie before the one of the first number, or none before the one of the second.
    pub(crate) fn are_beside(&self, from: u64, end: u64) -> bool
        ensures { IsTrue result → LosesSites self.now from end self.now }
    {
        let free = self.stretches.as_slice();
        if free.is_empty() {
            return true;
        }
        if end <= free[0].from {
            return true;
        }
        free[free.len() - 1].end <= from
    }

    /// Whether a site is free, and all that are free lie before this one.
    pub(crate) fn end_by(&self, site: u64) -> bool
        ensures { IsTrue result → DoEndBy self.now site }
    {
        let free = self.stretches.as_slice();
        if free.is_empty() {
            return false;
        }
        free[free.len() - 1].end <= site
    }

    /// Whether a site is free, and all that are free lie beyond this one.
    pub(crate) fn begin_beyond(&self, site: u64) -> bool
        ensures { IsTrue result → DoBeginBeyond self.now site }
    {
        let free = self.stretches.as_slice();
        if free.is_empty() {
            return false;
        }
        site < free[0].from
    }

    /// Whether any site is free.
    pub(crate) fn has_sites(&self) -> bool
        ensures { result ≡ has_any self.now }
    {
        !self.stretches.is_empty()
    }

    /// The first and the last free site, and how many are free side by side at most, if any is free.
    pub(crate) fn ends(&self) -> Option<Ends>
        ensures { HasSpan self.now result }
    {
        let free = self.stretches.as_slice();
        if free.is_empty() {
            return None;
        }
        Some(Ends {
            from: free[0].from,
            end: free[free.len() - 1].end,
            longest: self.longest,
        })
    }
}

impl<A: Allocator + Copy> FreeSites<A> {
    /// The same free sites once more. It fails only when out of memory.
    pub(crate) fn copied(&self) -> Result<FreeSites<A>, AllocError>
        ensures { IfOk result (λ copy. copy ≡ self.now) }
    {
        let stretches = self.stretches.clone()?;
        Ok(FreeSites {
            stretches,
            longest: self.longest,
        })
    }

    /// The last quarter of the stretches, which are no longer among these.
    pub(crate) fn cut(&mut self) -> Result<FreeSites<A>, AllocError>
        ensures ok { IfOk result (λ rest. self.new ++ rest ≡ self.old) }
        ensures apart { AreFreeStretches self.old }
        ensures err { OnErr result (self.new ≡ self.old) }
    {
        let stretches = self.stretches.split_off(self.stretches.len() / 4 * 3)?;
        self.longest = longest_of(self.stretches.as_slice());
        let longest = longest_of(stretches.as_slice());
        Ok(FreeSites { stretches, longest })
    }
}

/// Whether the sites from the one of the first number up to the one of the second lie in the stretch at this place, and it is
/// shorter than this.
fn are_in_shorter(stretches: &[Stretch], place: usize, longest: u64, from: u64, end: u64) -> bool {
    if place >= stretches.len() {
        return false;
    }
    let stretch = stretches[place];
    stretch.from <= from && end <= stretch.end && stretch.end.saturating_sub(stretch.from) < longest
}

/// A number of sites that no stretch has more of.
fn longest_of(stretches: &[Stretch]) -> u64
    requires { AreFreeStretches stretches.now }
    ensures { AreNoMoreThan result stretches.now }
{
    let mut longest = 0;
    for stretch in stretches {
        longest = stretch.end.saturating_sub(stretch.from).max(longest);
    }
    longest
}
