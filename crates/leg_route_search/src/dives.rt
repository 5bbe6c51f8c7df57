//! Dives from the ends, in rounds of a growing limit.

ghost use Rattle.std.specs.Prelude.{◌≡◌, ◌≤◌, ◌<◌, ℕ, false, length, get_or, All, Contains, IfOk, IfSome};
ghost use Rattle.std.specs.Option.{option_map};
ghost use Rattle.leg_route_search.specs.Steps.SideSteps.{IsStepIn};
ghost use Rattle.leg_route_search.specs.Steps.Dive.{IsStartIn, AreFar, AreTrueMarks, IsKnownNow, AreKnownNow, IsWalkFromStart};
ghost use Rattle.leg_route_search.specs.Steps.Search.{IsRound};

use crate::dive::{dive, is_open, one_more, steps_left};
use crate::graph::Graph;
use crate::mark::Mark;
use crate::marks::Marks;
use std::alloc::{AllocError, Allocator};

/// How many rounds there are at most. Where other wires are in the way, a walk often has some steps more than its
/// bound, and a round is needed for about each two of them. Among the wires of a block 30 rounds find nearly all walks.
const ROUNDS: u32 = 30;

/// The most steps of a walk that is looked for. A dive calls itself once for each step, so this keeps the stack small.
const DEEPEST: u32 = 2_000;

/// How many nodes the rounds note at most for each step of a walk, so that they cost little where walls are in the way.
/// With 64 nearly all walks among the wires of a block are found by dives; with 16 many go by levels, which look at far
/// more nodes.
const NOTED_FOR_EACH_STEP: usize = 64;

/// How many more they note for each end: so many steps to ends behind walls can be found out, and kept for the next walk, before
/// a search by levels looks at all starts.
const NOTED_FOR_EACH_END: usize = 32;

/// Looks for a shortest walk by dives, in a few rounds. Each round looks for a walk of as many steps as each has at least, as far as the
/// rounds before it have found. For each end `known` has a number of steps, of which an open walk from a start to it has no fewer: an end
/// that is further by that than the nearest is not asked about, and of the others `known` has what the dives find out. How many steps are
/// left from a node to the ends is not asked. Where no walk is found, `limit` is how many steps each has at least, and `left_out` whether
/// there may be one: there is none where no end is open. `far_walk` goes on from there. The walk is the one that `shortest` finds.
pub fn near_walk<G: Graph, A: Allocator + Copy>(
    alloc: A,
    graph: &G,
    ends: &[u32],
    known: &mut [u32],
    limit: &mut u64,
    marks: &mut Marks<A>,
    left_out: &mut bool,
) -> Result<Option<Vec<u32, A>>, AllocError>
    requires count { length marks.old ≡ G.size_of graph.now }
    requires ends { All (λ a. a < G.size_of graph.now) ends.now }
    requires known { AreFar (G.OpenNode graph.now) (IsStepIn G.Graph graph.now) (IsStartIn G.Graph graph.now) ends.now known.old }
    ensures found { IfOk result (λ walk. IsRound (G.OpenNode graph.now) (IsStepIn G.Graph graph.now) (IsStartIn G.Graph graph.now)
        (Contains ends.now) left_out.new (option_map (λ nodes. nodes.items) walk)) }
    ensures known { AreFar (G.OpenNode graph.now) (IsStepIn G.Graph graph.now) (IsStartIn G.Graph graph.now) ends.now known.new }
    ensures count { length marks.new ≡ length marks.old }
{
    marks.reset();
    let mut left = least_left(ends, known, marks);
    let for_ends = ends.len().saturating_mul(NOTED_FOR_EACH_END);
    let most = for_ends.saturating_add(left as usize * NOTED_FOR_EACH_STEP);
    'rounds: for _ in 0..ROUNDS {
        if left > DEEPEST || marks.noted() >= most {
            break;
        }
        let near = near_ends(alloc, ends, known, left)?;
        let walk = dive_from_ends(alloc, graph, &near, left, most, marks)?;
        left = least_left(ends, known, marks);
        if let Some(nodes) = walk {
            return Ok(Some(nodes));
        }
    }
    *limit = u64::from(left);
    *left_out = is_one_open(graph, ends);
    Ok(None)
}

/// How many steps a walk from a start to an end has at least, as far as is known. For each end `known` has how many a walk to it had at
/// least by what was known before, and then what is known now.
fn least_left<A: Allocator>(ends: &[u32], known: &mut [u32], marks: &Marks<A>) -> u32
    requires one_each { length known.old ≡ length ends.now }
    requires within { All (λ a. a < length marks.now) ends.now }
    ensures now { AreKnownNow marks.now ends.now known.old known.new }
    ensures least { (k : ℕ) → k < length ends.now → result ≤ get_or known.new k 0 }
{
    let mut least = u32::MAX;
    for k in 0..ends.len() {
        let steps = known_now(ends[k], known[k], marks);
        known[k] = steps;
        least = least.min(steps);
    }
    least
}

/// How many steps a walk from a start to the end has at least, to which it had at least so many by what was known before.
fn known_now<A: Allocator>(end: u32, known: u32, marks: &Marks<A>) -> u32
    requires { end < length marks.now }
    ensures { IsKnownNow marks.now end known result }
{
    match marks.mark(end) {
        Mark::Far { steps } => known.max(steps),
        Mark::Shut => u32::MAX,
        Mark::Unseen | Mark::Reached { .. } => known,
    }
}

/// The ends to which a walk has at most `left` steps by what is known, in increasing order.
fn near_ends<A: Allocator>(
    alloc: A,
    ends: &[u32],
    known: &[u32],
    left: u32,
) -> Result<Vec<u32, A>, AllocError>
    requires { length known.now ≡ length ends.now }
    ensures { IfOk result (λ near. (a : ℕ) → Contains near.items a → Contains ends.now a) }
{
    let mut near = Vec::new(alloc);
    for k in 0..ends.len() {
        if known[k] <= left {
            near.push(ends[k])?;
        }
    }
    near.sort_unstable();
    Ok(near)
}

/// Whether one of the ends is open.
fn is_one_open<G: Graph>(graph: &G, ends: &[u32]) -> bool
    requires { All (λ a. a < G.size_of graph.now) ends.now }
    ensures { result ≡ false → All (λ a. ¬ G.OpenNode graph.now a) ends.now }
{
    for end in ends {
        if graph.is_open_node(*end) {
            return true;
        }
    }
    false
}

/// An open walk of at most `left` steps from a start to the first of the ends to which one is found before `most` nodes are noted.
fn dive_from_ends<G: Graph, A: Allocator + Copy>(
    alloc: A,
    graph: &G,
    ends: &[u32],
    left: u32,
    most: usize,
    marks: &mut Marks<A>,
) -> Result<Option<Vec<u32, A>>, AllocError>
    requires within { (a : ℕ) → Contains ends.now a → a < G.size_of graph.now }
    requires known { AreTrueMarks G.Graph graph.now marks.old }
    ensures found { IfOk result (λ walk. IfSome walk (λ nodes. (end : ℕ) × Contains ends.now end
        × IsWalkFromStart (G.OpenNode graph.now) (IsStepIn G.Graph graph.now) (IsStartIn G.Graph graph.now) left end nodes.items)) }
    ensures known { AreTrueMarks G.Graph graph.now marks.new }
{
    for end in ends {
        let walk = dive_from(alloc, graph, *end, left, most, marks)?;
        if let Some(nodes) = walk {
            return Ok(Some(nodes));
        }
    }
    Ok(None)
}

/// An open walk of at most `left` steps from a start to the end, where there is one and it is found before `most` nodes are noted.
fn dive_from<G: Graph, A: Allocator + Copy>(
    alloc: A,
    graph: &G,
    end: u32,
    left: u32,
    most: usize,
    marks: &mut Marks<A>,
) -> Result<Option<Vec<u32, A>>, AllocError>
    requires within { end < G.size_of graph.now }
    requires known { AreTrueMarks G.Graph graph.now marks.old }
    ensures found { IfOk result (λ walk. IfSome walk (λ nodes.
        IsWalkFromStart (G.OpenNode graph.now) (IsStepIn G.Graph graph.now) (IsStartIn G.Graph graph.now) left end nodes.items)) }
    ensures known { AreTrueMarks G.Graph graph.now marks.new }
{
    let least = steps_left(graph, end, one_more(left), marks);
    let is_open = is_open(graph, end, least, marks)?;
    if !is_open || least > left {
        return Ok(None);
    }
    let walk = dive(alloc, graph, end, left, most, marks)?;
    Ok(walk)
}
