//! What a search asks of a graph.

ghost use Rattle.std.specs.Prelude.{◌≡◌, ◌≤◌, ◌<◌, ◌+◌, ◌^◌, ◌↔◌, ℕ, min, IsTrue, IfSome};

use leg_rules::Side;

/// A graph of numbered nodes, each with one neighbour at most on each of its sides. Nodes and steps are open or not. The
/// graph gives how many steps are left at least from a node to the ends of a search, and from its starts to a node; the
/// caller had both in mind when the graph was made.
pub trait Graph {
    ghost use Rattle.leg_rules.specs.declared.side.Side.{Side};
    ghost use Rattle.leg_route_search.specs.Steps.Side.{opposite};

    ghost size_of: { Self → ℕ };

    ghost IsBeside: { Self → Side → ℕ → ℕ → Type 0 };

    ghost OpenNode: { Self → ℕ → Type 0 };

    ghost OpenStep: { Self → Side → ℕ → Type 0 };

    ghost bound_of: { Self → ℕ → ℕ };

    ghost back_bound_of: { Self → ℕ → ℕ };

    /// The neighbour on this side of the node.
    fn beside(&self, node: u32, side: Side) -> Option<u32>
        requires { node < size_of self.now }
        ensures is { (to : ℕ) → (result ≡ Some to) ↔ IsBeside self.now side node to }
        ensures within { IfSome result (λ to. to < size_of self.now) };

    /// Whether the step to the neighbour on this side is open.
    fn is_open_step(&self, node: u32, side: Side) -> bool
        requires there { node < size_of self.now }
        requires beside { (to : ℕ) × IsBeside self.now side node to }
        ensures { IsTrue result ↔ OpenStep self.now side node };

    /// Whether the node is open.
    fn is_open_node(&self, node: u32) -> bool
        requires { node < size_of self.now }
        ensures { IsTrue result ↔ OpenNode self.now node };

    /// Whether the neighbour is open, where the step to it is: a graph may know so without a look, as where each point of a
    /// node is one of the step too.
    fn is_open_beyond(&self, node: u32, side: Side, next: u32) -> bool
        requires there { next < size_of self.now }
        requires beside { IsBeside self.now side node next }
        requires step { OpenStep self.now side node }
        ensures { IsTrue result ↔ OpenNode self.now next }
    {
        self.is_open_node(next)
    }

    /// How many steps are left at least from the node to an end, or `most` where those are more.
    fn bound(&self, node: u32, most: u32) -> u32
        requires { node < size_of self.now }
        ensures is { result ≡ min most (bound_of self.now node) }
        ensures small { bound_of self.now node < 2 ^ 32 };

    /// How many steps are left at least from a start to the node, or `most` where those are more.
    fn back_bound(&self, node: u32, most: u32) -> u32
        requires { node < size_of self.now }
        ensures { result ≡ min most (back_bound_of self.now node) };

    ghost one_nearer: { (g : Self) (side : Side) (a b : ℕ) → IsBeside g side a b → bound_of g a ≤ bound_of g b + 1 };

    ghost one_further: { (g : Self) (side : Side) (a b : ℕ) → IsBeside g side a b → back_bound_of g b ≤ back_bound_of g a + 1 };

    ghost both_ways: { (g : Self) (side : Side) (a b : ℕ) → IsBeside g side a b → IsBeside g (opposite side) b a };
}
