//! A shortest walk, found in rounds of a growing limit.

ghost use Rattle.std.specs.Prelude.{◌≡◌, ◌≤◌, ◌<◌, ◌+◌, ◌^◌, ◌↔◌, ℕ, true, false, length, All, Contains, IfOk, OnOk};
ghost use Rattle.std.specs.Option.{option_map};
ghost use Rattle.leg_route_search.specs.Steps.SideSteps.{IsStepIn};
ghost use Rattle.leg_route_search.specs.Steps.Dive.{IsStartIn, AreFar};
ghost use Rattle.leg_route_search.specs.Steps.Search.{IsRound, IsShortestIfAny};
ghost use Rattle.leg_route_search.specs.Steps.Starts.{AreLeast};

use crate::back::way_to;
use crate::dives::near_walk;
use crate::graph::Graph;
use crate::marks::Marks;
use crate::search::nearest_end;
use std::alloc::{AllocError, Allocator};

/// By how much the limit grows after the first round. Each time after that it grows by twice as much.
const FIRST_GROWTH: u64 = 2;

/// The nodes of a shortest open walk from a start to an end, or none where there is no such walk. Starts and ends may repeat
/// and need not be open; an open node that is both is a walk of no steps. The starts are those nodes to which the graph says that
/// no steps are left from a start. `marks` has one for each node.
///
/// Of the nearest ends it is the one with the least number. Each node before it is, of those from which a shortest walk can
/// enter the next one, the first of west, east, south, north, below and above.
pub fn shortest<G: Graph, A: Allocator + Copy>(
    alloc: A,
    graph: &G,
    starts: &[u32],
    ends: &[u32],
    marks: &mut Marks<A>,
) -> Result<Option<Vec<u32, A>>, AllocError>
    requires count { length marks.old ≡ G.size_of graph.now }
    requires few { G.size_of graph.now < 2 ^ 32 }
    requires starts { All (λ a. a < G.size_of graph.now) starts.now }
    requires ends { All (λ a. a < G.size_of graph.now) ends.now }
    requires at_start { (a : ℕ) → Contains starts.now a ↔ IsStartIn G.Graph graph.now a }
    requires at_end { All (λ a. G.bound_of graph.now a ≡ 0) ends.now }
    ensures found { IfOk result (λ walk. IsShortestIfAny (G.OpenNode graph.now) (IsStepIn G.Graph graph.now)
        (Contains starts.now) (Contains ends.now) (option_map (λ nodes. nodes.items) walk)) }
    ensures count { length marks.new ≡ length marks.old }
{
    let mut limit = 0;
    let mut left_out = false;
    let mut known = steps_told(alloc, graph, ends)?;
    let near = near_walk(
        alloc,
        graph,
        ends,
        &mut known,
        &mut limit,
        marks,
        &mut left_out,
    )?;
    if let Some(walk) = near {
        return Ok(Some(walk));
    }
    if !left_out {
        return Ok(None);
    }
    let walk = far_walk(alloc, graph, starts, ends, limit, marks)?;
    Ok(walk)
}

/// For each end how many steps are left to it at least from the starts, by what the graph tells.
fn steps_told<G: Graph, A: Allocator>(
    alloc: A,
    graph: &G,
    ends: &[u32],
) -> Result<Vec<u32, A>, AllocError>
    requires ends { All (λ a. a < G.size_of graph.now) ends.now }
    ensures { IfOk result (λ known. AreFar (G.OpenNode graph.now) (IsStepIn G.Graph graph.now) (IsStartIn G.Graph graph.now) ends.now known.items) }
{
    let mut known = Vec::with_capacity(alloc, ends.len())?;
    for end in ends {
        known.push(graph.back_bound(*end, u32::MAX))?;
    }
    Ok(known)
}

/// The nodes of a shortest walk from a start to an end, or none where there is no such walk, found level by level in rounds of a
/// growing limit, of which this is the first. It is the walk that `shortest` finds.
pub fn far_walk<G: Graph, A: Allocator + Copy>(
    alloc: A,
    graph: &G,
    starts: &[u32],
    ends: &[u32],
    first: u64,
    marks: &mut Marks<A>,
) -> Result<Option<Vec<u32, A>>, AllocError>
    requires count { length marks.old ≡ G.size_of graph.now }
    requires few { G.size_of graph.now < 2 ^ 32 }
    requires starts { All (λ a. a < G.size_of graph.now) starts.now }
    requires ends { All (λ a. a < G.size_of graph.now) ends.now }
    requires at_end { All (λ a. G.bound_of graph.now a ≡ 0) ends.now }
    ensures found { IfOk result (λ walk. IsShortestIfAny (G.OpenNode graph.now) (IsStepIn G.Graph graph.now)
        (Contains starts.now) (Contains ends.now) (option_map (λ nodes. nodes.items) walk)) }
    ensures count { length marks.new ≡ length marks.old }
{
    let mut limit = first;
    let mut least = Vec::from_elem(alloc, 0, starts.len())?;
    let mut told = 0;
    let mut growth = FIRST_GROWTH;
    'rounds: loop {
        let mut left_out = false;
        let found = one_round(
            alloc,
            graph,
            starts,
            &mut least,
            told,
            ends,
            limit,
            marks,
            &mut left_out,
        )?;
        if let Some(walk) = found {
            return Ok(Some(walk));
        }
        if !left_out {
            return Ok(None);
        }
        told = limit + 1;
        limit += growth;
        growth *= 2;
    }
}

/// Looks for a shortest walk within a limit.
fn one_round<G: Graph, A: Allocator + Copy>(
    alloc: A,
    graph: &G,
    starts: &[u32],
    least: &mut [u32],
    told: u64,
    ends: &[u32],
    limit: u64,
    marks: &mut Marks<A>,
    left_out: &mut bool,
) -> Result<Option<Vec<u32, A>>, AllocError>
    requires count { length marks.old ≡ G.size_of graph.now }
    requires few { G.size_of graph.now < 2 ^ 32 }
    requires starts { All (λ a. a < G.size_of graph.now) starts.now }
    requires ends { All (λ a. a < G.size_of graph.now) ends.now }
    requires at_end { All (λ a. G.bound_of graph.now a ≡ 0) ends.now }
    requires least { AreLeast (G.bound_of graph.now) starts.now told least.old }
    requires grows { told ≤ limit + 1 }
    requires not_left { left_out.old ≡ false }
    ensures found { IfOk result (λ walk. IsRound (G.OpenNode graph.now) (IsStepIn G.Graph graph.now)
        (Contains starts.now) (Contains ends.now) left_out.new (option_map (λ nodes. nodes.items) walk)) }
    ensures least { OnOk result (AreLeast (G.bound_of graph.now) starts.now (limit + 1) least.new) }
    ensures low { OnOk result (left_out.new ≡ true → limit < 2 ^ 33) }
    ensures count { length marks.new ≡ length marks.old }
{
    let Some(end) = nearest_end(
        alloc, graph, starts, least, told, ends, limit, marks, left_out,
    )?
    else {
        return Ok(None);
    };
    let nodes = way_to(alloc, marks, end)?;
    Ok(Some(nodes))
}
