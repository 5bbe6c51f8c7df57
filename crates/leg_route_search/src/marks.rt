//! The marks of all nodes.

ghost use Rattle.std.specs.Prelude.{◌≡◌, ◌<◌, true, false, Some, length, slice_get, slice_set, IfOk, OnOk, OnErr};
ghost use Rattle.leg_route_search.specs.Steps.Marks.{AreUnseen, IsSeen};

use crate::mark::Mark;
use std::alloc::{AllocError, Allocator};
use std::marker::Model;

/// What searches note of the nodes of a graph. It is made once for the graph: each search begins by taking away the marks that the one
/// before has left, also one that ran out of memory. Contracts see it as the list of the marks, one for each node.
#[derive(Drop)]
pub struct Marks<A: Allocator> {
    of_nodes: Vec<Mark, A>,
    /// The nodes that have a mark, each as often as it got one.
    noted: Vec<u32, A>,
}

impl<A: Allocator> Model for Marks<A> {
    ghost use Rattle.std.specs.Prelude.{List};
    ghost use Rattle.leg_route_search.specs.declared.mark.Mark.{Mark};
    ghost use Rattle.leg_route_search.specs.Steps.Marks.{IsNoted};

    ghost Value = { List Mark };

    ghost view = { λ m. m.of_nodes.items };

    ghost invariant = { λ m. IsNoted m.of_nodes.items m.noted.items };
}

impl<A: Allocator + Copy> Marks<A> {
    /// Of this many nodes, of which none has a mark.
    #[tactic(auto, using(crate::proofs::NewMarks::noted_none))]
    pub fn new(alloc: A, count: usize) -> Result<Marks<A>, AllocError>
        ensures { IfOk result (λ marks. length marks ≡ count) }
    {
        Ok(Marks {
            of_nodes: Vec::from_elem(alloc, Mark::Unseen, count)?,
            noted: Vec::new(alloc),
        })
    }
}

impl<A: Allocator> Marks<A> {
    /// What is noted of the node.
    #[inline]
    pub(crate) fn mark(&self, node: u32) -> Mark
        requires { node < length self.now }
        ensures { slice_get self.now node ≡ Some result }
    {
        self.of_nodes[node as usize]
    }

    /// Whether nothing is.
    #[inline]
    pub(crate) fn is_unseen(&self, node: u32) -> bool
        requires { node < length self.now }
        ensures unseen { result ≡ true → slice_get self.now node ≡ Some Mark.Unseen }
        ensures seen { result ≡ false → IsSeen self.now node }
    {
        matches!(self.of_nodes[node as usize], Mark::Unseen)
    }

    /// Gives the node a mark. It fails only when out of memory, before anything changes.
    #[inline]
    pub(crate) fn set(&mut self, node: u32, mark: Mark) -> Result<(), AllocError>
        requires { node < length self.old }
        ensures set { OnOk result (self.new ≡ slice_set self.old node mark) }
        ensures same { OnErr result (self.new ≡ self.old) }
    {
        self.noted.push(node)?;
        self.of_nodes[node as usize] = mark;
        Ok(())
    }

    /// How many nodes have got a mark. One that got another mark counts once more.
    pub(crate) fn noted(&self) -> usize {
        self.noted.len()
    }

    /// Takes the marks away again, of the nodes that have one alone.
    pub(crate) fn reset(&mut self)
        ensures unseen { AreUnseen self.new }
        ensures count { length self.new ≡ length self.old }
    {
        while let Some(node) = self.noted.pop() {
            self.of_nodes[node as usize] = Mark::Unseen;
        }
    }
}
