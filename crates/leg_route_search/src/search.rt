//! A search within a limit, level by level, up to the nearest end.

ghost use Rattle.std.specs.Prelude.{◌≡◌, ◌≤◌, ◌<◌, ◌+◌, ◌^◌, true, false, length, All, Contains, IfOk, OnOk};
ghost use Rattle.leg_route_search.specs.Steps.SideSteps.{IsStepIn};
ghost use Rattle.leg_route_search.specs.Steps.Search.{IsFound};
ghost use Rattle.leg_route_search.specs.Steps.Starts.{AreLeast};

use crate::ends::least_end;
use crate::graph::Graph;
use crate::level::{Level, one_level};
use crate::marks::Marks;
use crate::starts::seed;
use std::alloc::{AllocError, Allocator};

/// The least end at the least level at which there is one. The marks of the search before are taken away first. A node is marked
/// only where its level and the steps that are left at least come to no more than the limit. `left_out` is whether one was left
/// out for this.
pub(crate) fn nearest_end<G: Graph, A: Allocator + Copy>(
    alloc: A,
    graph: &G,
    starts: &[u32],
    least: &mut [u32],
    told: u64,
    ends: &[u32],
    limit: u64,
    marks: &mut Marks<A>,
    left_out: &mut bool,
) -> Result<Option<u32>, AllocError>
    requires count { length marks.old ≡ G.size_of graph.now }
    requires few { G.size_of graph.now < 2 ^ 32 }
    requires starts { All (λ a. a < G.size_of graph.now) starts.now }
    requires ends { All (λ a. a < G.size_of graph.now) ends.now }
    requires at_end { All (λ a. G.bound_of graph.now a ≡ 0) ends.now }
    requires least { AreLeast (G.bound_of graph.now) starts.now told least.old }
    requires grows { told ≤ limit + 1 }
    requires not_left { left_out.old ≡ false }
    ensures found { IfOk result (λ end. IsFound (G.OpenNode graph.now) (IsStepIn G.Graph graph.now)
        (Contains starts.now) (Contains ends.now) marks.new left_out.new end) }
    ensures low { OnOk result (left_out.new ≡ true → limit < 2 ^ 33) }
    ensures least { OnOk result (AreLeast (G.bound_of graph.now) starts.now (limit + 1) least.new) }
    ensures count { length marks.new ≡ length marks.old }
{
    marks.reset();
    let mut front = Vec::new(alloc);
    seed(
        graph, starts, least, told, limit, marks, &mut front, left_out,
    )?;
    let mut level = Level { number: 0, limit };
    'levels: while !front.is_empty() {
        if let Some(end) = least_end(ends, marks, level.number) {
            return Ok(Some(end));
        }
        level.number += 1;
        let mut next = Vec::new(alloc);
        one_level(graph, &front, level, marks, &mut next, left_out)?;
        front = next;
    }
    Ok(None)
}
