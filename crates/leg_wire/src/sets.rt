//! Disjoint sets of numbers, of which two at a time are made one.

ghost use Rattle.std.specs.Prelude.{◌≡◌, ◌↔◌, ◌<◌, ◌^◌, ◌++◌, ◌∷◌, [], ℕ, All, min, max, IsTrue, length, Some, IfOk, OnOk, slice_get};
ghost use Rattle.std.specs.List.{range_with_len};
ghost use Rattle.leg_wire.specs.PieceMarks.{AreMarks, AreFirsts};
ghost use Rattle.leg_wire.specs.Steps.Joins.{HasOneNumberMore};
ghost use Rattle.leg_wire.specs.Steps.NumberSets.{AreTogether, AreUnited, IsMerged, AreParents, roots_of};

use std::alloc::{AllocError, Allocator};
use std::marker::Model;

/// Sets of the numbers below a size; each number is in one. Contracts see the list of the least number of each number's
/// set.
#[derive(Drop)]
pub(crate) struct Sets<A: Allocator> {
    /// A number of the same set for each, and no greater one. The least of a set has itself.
    parents: Vec<u32, A>,
}

impl<A: Allocator> Model for Sets<A> {
    ghost use Rattle.std.specs.Prelude.{ℕ, List};
    ghost use Rattle.leg_wire.specs.Steps.Joins.{HasOneNumberMore};
    ghost use Rattle.leg_wire.specs.Steps.NumberSets.{AreParents, roots_of};

    ghost Value = { List ℕ };

    ghost view = { λ s. roots_of s.parents.items };

    ghost invariant = { λ s. AreParents s.parents.items };
}

impl<A: Allocator> Sets<A> {
    /// Each of the numbers below the count is in a set of its own.
    pub(crate) fn new(alloc: A, count: u32) -> Result<Sets<A>, AllocError>
        ensures { IfOk result (λ sets. sets ≡ range_with_len 0 count) }
    {
        Ok(Sets {
            parents: numbers_below(alloc, count)?,
        })
    }

    /// How many numbers there are.
    pub(crate) fn len(&self) -> usize
        ensures { result ≡ length self.now }
    {
        self.parents.len()
    }

    /// Adds a number, which is in a set of its own, and answers it.
    pub(crate) fn add(&mut self) -> Result<u32, AllocError>
        requires { length self.old < 2 ^ 32 }
        ensures number { IfOk result (λ number. number ≡ length self.old) }
        ensures is { OnOk result (self.new ≡ self.old ++ length self.old ∷ []) }
        ensures low { All (λ least. least < length self.old) self.old }
        ensures added { OnOk result (HasOneNumberMore self.old self.new) }
    {
        let number = self.parents.len() as u32;
        self.parents.push(number)?;
        Ok(number)
    }

    /// Whether the numbers are in one set.
    pub(crate) fn are_together(&mut self, a: u32, b: u32) -> bool
        requires a { a < length self.old }
        requires b { b < length self.old }
        ensures answer { IsTrue result ↔ AreTogether self.old a b }
        ensures same { self.new ≡ self.old }
    {
        self.least(a) == self.least(b)
    }

    /// Makes the sets of the numbers one.
    pub(crate) fn unite(&mut self, a: u32, b: u32)
        requires a { a < length self.old }
        requires b { b < length self.old }
        ensures united { AreUnited a b self.old self.new }
        ensures merged { (one other : ℕ) → slice_get self.old a ≡ Some one → slice_get self.old b ≡ Some other
            → IsMerged (min one other) (max one other) self.old self.new }
    {
        let first = self.least(a);
        let second = self.least(b);
        self.parents[first.max(second) as usize] = first.min(second);
    }

    /// The least number of the number's set.
    pub(crate) fn least(&mut self, number: u32) -> u32
        requires { number < length self.old }
        ensures is { slice_get self.old number ≡ Some result }
        ensures within { result < length self.old }
        ensures same { self.new ≡ self.old }
    {
        root(&mut self.parents, number)
    }

    /// For each number whether it is in the set of the number 0.
    pub(crate) fn marks<B: Allocator>(&self, alloc: B) -> Result<Vec<bool, B>, AllocError>
        ensures { IfOk result (λ marks. AreMarks (AreTogether self.now 0) (length self.now) marks.items) }
    {
        let parents = self.parents.as_slice();
        let mut marks = Vec::with_capacity(alloc, parents.len())?;
        for number in 0..parents.len() {
            let parent = parents[number] as usize;
            let with_first = if parent < number {
                marks[parent]
            } else {
                number == 0
            };
            marks.push(with_first)?;
        }
        Ok(marks)
    }

    /// For each number the least number of its set.
    pub(crate) fn roots<B: Allocator>(&self, alloc: B) -> Result<Vec<u32, B>, AllocError>
        ensures are { IfOk result (λ roots. roots.items ≡ self.now) }
        ensures firsts { IfOk result (λ roots. AreFirsts (AreTogether self.now) (length self.now) roots.items) }
    {
        let parents = self.parents.as_slice();
        let mut roots = Vec::with_capacity(alloc, parents.len())?;
        for parent in parents {
            let root = roots.get(*parent as usize).copied().unwrap_or(*parent);
            roots.push(root)?;
        }
        Ok(roots)
    }
}

/// The numbers below the count.
fn numbers_below<A: Allocator>(alloc: A, count: u32) -> Result<Vec<u32, A>, AllocError>
    ensures { IfOk result (λ numbers. numbers.items ≡ range_with_len 0 count) }
{
    let mut numbers = Vec::with_capacity(alloc, count as usize)?;
    for number in 0..count {
        numbers.push(number)?;
    }
    Ok(numbers)
}

/// The root of the number's tree. Each number on the way gets its parent's parent (path halving), which changes no root.
fn root<A: Allocator>(parents: &mut Vec<u32, A>, number: u32) -> u32
    requires forest { AreParents parents.old.items }
    requires within { number < length parents.old.items }
    ensures is { slice_get (roots_of parents.old.items) number ≡ Some result }
    ensures same { roots_of parents.new.items ≡ roots_of parents.old.items }
    ensures forest { AreParents parents.new.items }
{
    let mut at = number;
    let mut parent = parents[at as usize];
    'up: while parent != at {
        let above = parents[parent as usize];
        parents[at as usize] = above;
        at = above;
        parent = parents[at as usize];
    }
    at
}
