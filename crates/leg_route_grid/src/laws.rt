//! What follows from the definitions alone, as functions whose contracts state it.

ghost use Rattle.std.specs.Prelude.{◌≡◌, ◌↔◌, ◌+◌, ◌≤◌, ℕ, List, Contains};
ghost use Rattle.leg_rules.specs.declared.node.Node.{Node};
ghost use Rattle.leg_rules.specs.declared.side.Side.{Side};
ghost use Rattle.leg_route_grid.specs.declared.slot.Slot.{Slot};
ghost use Rattle.leg_rules.specs.Route.Nodes.{IsNode};
ghost use Rattle.leg_rules.specs.Route.Neighbours.{IsNeighbour};
ghost use Rattle.leg_route_grid.specs.Steps.SlotNeighbours.{IsSlotNeighbour};
ghost use Rattle.leg_route_grid.specs.declared.slot_box.SlotBox.{SlotBox};
ghost use Rattle.leg_route_grid.specs.Steps.WalkBounds.{bound_at, IsInBox};
ghost use Rattle.leg_route_grid.specs.Steps.Grid.{GridModel, IsDesignGrid, IsSlot, LiesAt, IsNumberOf};
ghost use Rattle.leg_route_grid.specs.Steps.NodeNumbers.{IsNeighbourAt};

/// Each node of the grid has a number, no two have one, and none has two.
#[tactic(auto, using(crate::proofs::GridSlots::one_node, crate::proofs::GridSlots::one_number, crate::proofs::GridSlots::numbered))]
pub fn nodes_have_numbers()
    ensures some { (grid : GridModel) (node : Node) → IsDesignGrid grid → IsNode grid.design node → (n : ℕ) × IsNumberOf grid n node }
    ensures apart { (grid : GridModel) (n : ℕ) (a b : Node) → IsDesignGrid grid → IsNumberOf grid n a → IsNumberOf grid n b → a ≡ b }
    ensures once { (grid : GridModel) (m n : ℕ) (node : Node) → IsDesignGrid grid → IsNumberOf grid m node → IsNumberOf grid n node → m ≡ n }
{}

/// Slots in which nodes lie step to the slots beside them exactly as their nodes do.
pub fn slots_step_as_nodes()
    ensures { (grid : GridModel) (side : Side) (s t : Slot) (a b : Node)
        → IsDesignGrid grid → LiesAt grid s.layer s.row s.column a → LiesAt grid t.layer t.row t.column b
        → IsNode grid.design a → IsNode grid.design b → (IsSlotNeighbour grid side s t ↔ IsNeighbour grid.design side a b) }
{}

/// A step comes one nearer to the nearest of some boxes at most, and from the slots of each of them none is left.
pub fn bounds_hold()
    ensures nearer { (grid : GridModel) (boxes : List SlotBox) (side : Side) (n to : ℕ)
        → IsDesignGrid grid → IsNeighbourAt grid side n to → bound_at grid boxes n ≤ bound_at grid boxes to + 1 }
    ensures inside { (grid : GridModel) (boxes : List SlotBox) (ends : SlotBox) (n : ℕ) (s : Slot)
        → IsSlot grid n s.layer s.row s.column → Contains boxes ends → IsInBox ends s → bound_at grid boxes n ≡ 0 }
{}
