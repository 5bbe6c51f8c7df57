//! Shortest walks in a graph, found level by level.
//!
//! The graph is seen only through a trait (`Graph`): numbered nodes, each with at most one neighbour on each of six sides,
//! nodes and steps that are open or not, and for each node a lower bound on the steps that are left to the ends (`bound`)
//! and from the starts (`back_bound`), by the laws that one step changes these by at most one; the starts are just the
//! nodes to which none are left. A caller of a bound names the most that it cares about.
//!
//! `shortest` first dives: from each end that may be near enough, in increasing order, it searches depth first back to a
//! start, to the west before the east, the south, the north, below and above, for a walk with as many steps as every walk
//! is known to have at least. A node from which it finds none is marked with a lower bound on the steps of each walk to it,
//! which stays true in the next rounds. In the open a dive looks at little more than the nodes of the walk. It gives up
//! after 30 rounds, or when it notes more than 64 nodes for each step that a walk has at least. Where no end is open it
//! then looks no further. A caller of `near_walk` hands in how many steps a walk to each end has at least, and gets what
//! the dives have found out of it: so where metal only comes, and boxes come to the starts, ends that were found to be
//! far are not looked for again.
//!
//! Then `shortest` goes level by level: all nodes at a given number of steps from a start are marked before those that are
//! one more. It goes in rounds of a growing limit: a node is marked only if the sum of its level and its bound is no more
//! than the limit, which is at first what the dives have found, and then grows by 2, 4, 8 and so on. Whatever lies on a
//! walk within the limit is marked at its true distance, so an end that is reached is a nearest one; and if no end is
//! reached and no node was left out because of the limit, there is no walk. In a round a start, or an end, that is known to
//! be too far is passed over by one comparison. The marks (`Marks`) are made once for the graph: each search, and
//! each round, begins by taking away what the one before has left, so a caller owes nothing but marks of as many nodes.
//!
//! A level is made side by side: first all steps to the east from the nodes of the level before, then all to the west, the
//! north, the south, upwards and downwards. So a node is entered from the west if a shortest walk can come from there, and
//! otherwise from the east, the south, the north, below or above. The way back from the end follows these and asks nothing.
//! A step is asked about only towards a node that is not marked, and the node beyond it only if the step is open, so in a
//! round nothing is asked twice.
#![tactic(auto)]

mod back;
mod dive;
mod dives;
mod ends;
mod graph;
mod level;
mod mark;
mod marks;
mod rounds;
mod search;
mod side;
mod starts;

pub use dives::near_walk;
pub use graph::Graph;
pub use leg_rules::Side;
pub use mark::Mark;
pub use marks::Marks;
pub use rounds::{far_walk, shortest};
pub use side::opposite;
