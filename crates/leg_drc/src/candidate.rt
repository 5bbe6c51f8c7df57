//! Shapes of which a rule of pairs can hold.

ghost use Rattle.std.specs.Prelude.{◌≡◌, ◌<◌, ◌^◌, ◌↔◌, length, map, All, IfOk, IsTrue};
ghost use Rattle.leg_drc.specs.Steps.Candidates.{IsOneOf, IsCandidate, AreCandidates, numbers_in};

use crate::reach::reach_on;
use leg_rules::{Owner, Shape};
use std::alloc::{AllocError, Allocator};

/// Whose shapes a rule is for.
#[derive(Clone, Copy)]
pub(crate) enum Owners {
    /// Those of each owner.
    Each,
    /// Those of nets.
    Nets,
}

impl Owners {
    /// Whether the owner is among these.
    fn has(self, owner: Owner) -> bool
        ensures { IsTrue result ↔ IsOneOf self owner }
    {
        match self {
            Owners::Each => true,
            Owners::Nets => matches!(owner, Owner::Net(_)),
        }
    }
}

/// A shape of which a rule can hold, and its number in the flat.
#[derive(Clone, Copy)]
pub(crate) struct Candidate {
    pub number: u32,
    pub shape: Shape,
}

/// Whether the shape has such an owner, and lies on a layer whose reach is above 0.
fn is_candidate(owners: Owners, reaches: &[u32], shape: &Shape) -> bool
    ensures { IsTrue result ↔ IsCandidate owners reaches.now shape.now }
{
    reach_on(reaches, shape.layer) > 0 && owners.has(shape.owner)
}

/// The shapes that have such an owner, and lie on layers whose reach is above 0, in the order of their numbers.
pub(crate) fn candidates<A: Allocator + Copy>(
    alloc: A,
    owners: Owners,
    reaches: &[u32],
    shapes: &[Shape],
) -> Result<Vec<Candidate, A>, AllocError>
    requires { length shapes.now < 2 ^ 32 }
    ensures { IfOk result (λ found. AreCandidates owners reaches.now shapes.now (length shapes.now) found.items) }
{
    let mut found = Vec::new(alloc);
    for (k, shape) in shapes.iter().enumerate() {
        if is_candidate(owners, reaches, shape) {
            found.push(Candidate {
                number: k as u32,
                shape: *shape,
            })?;
        }
    }
    Ok(found)
}

/// The numbers of the shapes of these pairs of candidates.
pub(crate) fn shape_numbers<A: Allocator + Copy>(
    alloc: A,
    candidates: &[Candidate],
    pairs: &[(u32, u32)],
) -> Result<Vec<(u32, u32), A>, AllocError>
    requires first { All (λ p. p.0 < length candidates.now) pairs.now }
    requires second { All (λ p. p.1 < length candidates.now) pairs.now }
    ensures { IfOk result (λ numbers. numbers.items ≡ map (numbers_in candidates.now) pairs.now) }
{
    let mut numbers = Vec::new(alloc);
    for (i, j) in pairs {
        let first = candidates[*i as usize].number;
        numbers.push((first, candidates[*j as usize].number))?;
    }
    Ok(numbers)
}
