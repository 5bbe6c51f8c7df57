//! The starts of a search, and how far each is from the ends.

ghost use Rattle.std.specs.Prelude.{◌≡◌, ◌≤◌, ◌<◌, ◌+◌, length, All, Contains, IfOk, OnOk};
ghost use Rattle.leg_route_search.specs.Steps.Spread.{IsSpread};
ghost use Rattle.leg_route_search.specs.Steps.Starts.{AreLeast};

use crate::graph::Graph;
use crate::level::enter;
use crate::mark::Mark;
use crate::marks::Marks;
use std::alloc::{AllocError, Allocator};

/// Marks the starts that are open and within the limit, and puts them into `next`. For each start `least` has how many steps are left
/// at least from it to the ends, as far as is known: a start that is too far by that is passed over, and so is the question of one to
/// which fewer than `told` are left by that: then no more are.
pub(crate) fn seed<G: Graph, A: Allocator>(
    graph: &G,
    starts: &[u32],
    least: &mut [u32],
    told: u64,
    limit: u64,
    marks: &mut Marks<A>,
    next: &mut Vec<u32, A>,
    left_out: &mut bool,
) -> Result<(), AllocError>
    requires count { length marks.old ≡ G.size_of graph.now }
    requires within { All (λ a. a < G.size_of graph.now) starts.now }
    requires least { AreLeast (G.bound_of graph.now) starts.now told least.old }
    requires grows { told ≤ limit + 1 }
    ensures spread { OnOk result (IsSpread (G.OpenNode graph.now) (λ _ b. Contains starts.now b) (G.bound_of graph.now) limit 0
        marks.old next.old.items left_out.old marks.new next.new.items left_out.new) }
    ensures least { OnOk result (AreLeast (G.bound_of graph.now) starts.now (limit + 1) least.new) }
    ensures count { length marks.new ≡ length marks.old }
{
    for k in 0..starts.len() {
        least[k] = seed_one(
            graph, starts[k], least[k], told, limit, marks, next, left_out,
        )?;
    }
    Ok(())
}

/// Tries one start, from which at least so many steps are left, and hands out how many they are as far as is known then.
fn seed_one<G: Graph, A: Allocator>(
    graph: &G,
    start: u32,
    least: u32,
    told: u64,
    limit: u64,
    marks: &mut Marks<A>,
    next: &mut Vec<u32, A>,
    left_out: &mut bool,
) -> Result<u32, AllocError>
    requires count { length marks.old ≡ G.size_of graph.now }
    requires within { start < G.size_of graph.now }
    requires least { least ≤ G.bound_of graph.now start }
    requires told { least < told → G.bound_of graph.now start < told }
    requires grows { told ≤ limit + 1 }
    ensures spread { OnOk result (IsSpread (G.OpenNode graph.now) (λ _ b. b ≡ start) (G.bound_of graph.now) limit 0
        marks.old next.old.items left_out.old marks.new next.new.items left_out.new) }
    ensures least { IfOk result (λ least. least ≤ G.bound_of graph.now start) }
    ensures told { IfOk result (λ least. least ≤ limit → G.bound_of graph.now start ≤ limit) }
    ensures count { length marks.new ≡ length marks.old }
{
    let least = look_again(graph, start, least, told, limit);
    if u64::from(least) > limit {
        *left_out = true;
        return Ok(least);
    }
    if !marks.is_unseen(start) {
        return Ok(least);
    }
    let mark = Mark::Reached {
        level: 0,
        from: start,
    };
    let is_open = graph.is_open_node(start);
    enter(start, is_open, mark, marks, next)?;
    Ok(least)
}

/// How many steps are left at least from the start to the ends: what is known, where that is more than the limit or less than is told,
/// and else what is asked.
fn look_again<G: Graph>(graph: &G, start: u32, least: u32, told: u64, limit: u64) -> u32
    requires within { start < G.size_of graph.now }
    requires least { least ≤ G.bound_of graph.now start }
    requires told { least < told → G.bound_of graph.now start < told }
    requires grows { told ≤ limit + 1 }
    ensures least { result ≤ G.bound_of graph.now start }
    ensures near { result ≤ limit → G.bound_of graph.now start ≤ limit }
{
    let known = u64::from(least);
    if known > limit || known < told {
        return least;
    }
    look_ahead(graph, start, limit)
}

/// How many times the limit a search looks ahead: so a start that is too far is not looked at again in the next few rounds.
const TIMES_AHEAD: u32 = 4;

/// The greatest limit that can be taken so many times.
const MOST_LIMIT: u32 = u32::MAX / TIMES_AHEAD;

/// How many steps are left at least from the node to the ends, where those are no more than the limit, and else more than the limit and
/// no more than they are.
fn look_ahead<G: Graph>(graph: &G, node: u32, limit: u64) -> u32
    requires { node < G.size_of graph.now }
    ensures least { result ≤ G.bound_of graph.now node }
    ensures near { result ≤ limit → G.bound_of graph.now node ≤ limit }
{
    let most = limit.min(u64::from(MOST_LIMIT)) as u32 * TIMES_AHEAD + (TIMES_AHEAD - 1);
    graph.bound(node, most)
}
