//! What follows from the definitions alone, as functions whose contracts state it.

ghost use Rattle.std.specs.Prelude.{◌≡◌, ◌↔◌, ◌<◌, ℕ, List, All, Contains, length};
ghost use Rattle.std.specs.List.{AllZip};
ghost use Rattle.leg_lib_records.specs.Sound.{IsSound};
ghost use Rattle.leg_rules.specs.Metal.Flat.{FlatModel};
ghost use Rattle.leg_rules.specs.declared.node.Node.{Node};
ghost use Rattle.leg_route_access.specs.declared.slot_access.SlotAccess.{SlotAccess};
ghost use Rattle.leg_route_search.specs.Steps.SideSteps.{IsStep};
ghost use Rattle.leg_rules.specs.Route.Walk.{IsShortest, NoWalk};
ghost use Rattle.leg_route_grid.specs.declared.slot_box.SlotBox.{SlotBox};
ghost use Rattle.leg_rules.specs.Route.OpenMetal.{IsOpenNode, IsOpenStep};
ghost use Rattle.leg_route_access.specs.Steps.NearNeighbours.{IsNeighbourNear};
ghost use Rattle.leg_rules.specs.Route.GridWalk.{IsGridWalk};
ghost use Rattle.leg_design_records.specs.Records.{DesignModel};
ghost use Rattle.leg_rules.specs.Route.Meets.{MeetsJoined, MeetsRest};
ghost use Rattle.leg_rules.specs.Route.Run.{IsNextWalk, HasNoWalk};
ghost use Rattle.leg_route_grid.specs.Steps.Grid.{GridModel, IsDesignGrid, IsNumberOf, slot_total};
ghost use Rattle.leg_route_access.specs.Steps.AccessTable.{IsAccessTable};
ghost use Rattle.leg_route_access.specs.Steps.AccessToNet.{IsNodeAdmitted, IsStepAdmitted};
ghost use Rattle.leg_route_grid.specs.Steps.NodeNumbers.{IsOneOf, IsStepOf, IsNodeAmong, IsNeighbourAt, IsOpenStepAt, IsNextWalkAt, HasNoWalkAt};

/// What a search in the graph of a net answers, given by numbers, is an open walk of the net, where the table has what
/// is open in the flat, and the numbers of the starts and of the ends are those of the slots at which walks of the net
/// begin and end.
pub fn searches_walk_as_numbers()
    ensures shortest { (grid : GridModel) (origin around : List SlotBox) (flat : FlatModel) (slots : List SlotAccess) (net : ℕ) (starts finish numbers : List ℕ)
        → IsDesignGrid grid → IsSound grid.design.library → IsAccessTable grid flat slots
        → ((n : ℕ) → Contains starts n ↔ IsOneOf (IsNumberOf grid) (MeetsJoined flat net) n)
        → ((n : ℕ) → Contains finish n ↔ IsOneOf (IsNumberOf grid) (MeetsRest flat net) n)
        → IsShortest (IsNodeAdmitted slots net) (IsStep (IsNeighbourNear grid origin around) (IsStepAdmitted grid slots net))
        (Contains starts) (Contains finish) numbers
        → IsNextWalkAt grid flat net numbers }
    ensures none { (grid : GridModel) (origin around : List SlotBox) (flat : FlatModel) (slots : List SlotAccess) (net : ℕ) (starts finish : List ℕ)
        → IsDesignGrid grid → IsSound grid.design.library → IsAccessTable grid flat slots
        → ((n : ℕ) → Contains starts n ↔ IsOneOf (IsNumberOf grid) (MeetsJoined flat net) n)
        → ((n : ℕ) → Contains finish n ↔ IsOneOf (IsNumberOf grid) (MeetsRest flat net) n)
        → NoWalk (IsNodeAdmitted slots net) (IsStep (IsNeighbourNear grid origin around) (IsStepAdmitted grid slots net)) (Contains starts) (Contains finish)
        → HasNoWalkAt grid flat net }
    ensures within { (grid : GridModel) (origin around : List SlotBox) (slots : List SlotAccess) (net : ℕ) (starts finish numbers : List ℕ)
        → length slots ≡ slot_total grid
        → IsShortest (IsNodeAdmitted slots net) (IsStep (IsNeighbourNear grid origin around) (IsStepAdmitted grid slots net))
        (Contains starts) (Contains finish) numbers
        → All (λ n. n < slot_total grid) numbers }
{}

/// What a search in the graph of a net answers, from any numbers to any others, is an open walk of the net from the nodes of the
/// ones to the nodes of the others, where the table has what is open in the flat.
pub fn searches_walk_as_nodes()
    ensures shortest { (grid : GridModel) (origin around : List SlotBox) (flat : FlatModel) (slots : List SlotAccess) (net : ℕ) (starts finish numbers : List ℕ)
        → IsDesignGrid grid → IsSound grid.design.library → IsAccessTable grid flat slots
        → IsShortest (IsNodeAdmitted slots net) (IsStep (IsNeighbourNear grid origin around) (IsStepAdmitted grid slots net))
        (Contains starts) (Contains finish) numbers
        → (nodes : List Node) × AllZip (IsNumberOf grid) numbers nodes
        × IsShortest (IsOpenNode grid.design flat net) (IsOpenStep grid.design flat net) (IsNodeAmong grid starts) (IsNodeAmong grid finish) nodes }
    ensures none { (grid : GridModel) (origin around : List SlotBox) (flat : FlatModel) (slots : List SlotAccess) (net : ℕ) (starts finish : List ℕ)
        → IsDesignGrid grid → IsSound grid.design.library → IsAccessTable grid flat slots
        → NoWalk (IsNodeAdmitted slots net) (IsStep (IsNeighbourNear grid origin around) (IsStepAdmitted grid slots net)) (Contains starts) (Contains finish)
        → NoWalk (IsOpenNode grid.design flat net) (IsOpenStep grid.design flat net) (IsNodeAmong grid starts) (IsNodeAmong grid finish) }
{}

/// A shortest open walk that is given by numbers is one of nodes; where no numbers are those of an open walk, there is
/// none.
#[tactic(auto, using(crate::proofs::NextWalks::next_walk, crate::proofs::NextWalks::no_next_walk))]
pub fn numbers_walk_as_nodes()
    ensures shortest { (grid : GridModel) (flat : FlatModel) (net : ℕ) (numbers : List ℕ)
        → IsDesignGrid grid → IsNextWalkAt grid flat net numbers
        → (nodes : List Node) × AllZip (IsNumberOf grid) numbers nodes × IsNextWalk grid.design flat net nodes }
    ensures none { (grid : GridModel) (flat : FlatModel) (net : ℕ) → IsDesignGrid grid → HasNoWalkAt grid flat net → HasNoWalk grid.design flat net }
{}

/// An open step goes to some side, where it is open; and what is beside a node, where the step to that side is open, is an
/// open step away.
pub fn open_steps_have_sides()
    ensures { (grid : GridModel) (flat : FlatModel) (net m n : ℕ) → IsDesignGrid grid
        → (IsStepOf (IsNumberOf grid) (IsOpenStep grid.design flat net) m n ↔ IsStep (IsNeighbourAt grid) (IsOpenStepAt grid flat net) m n) }
{}

/// An open walk is a walk over the grid.
pub fn open_walks_are_grid_walks()
    ensures { (design : DesignModel) (flat : FlatModel) (net : ℕ) (nodes : List Node) → IsNextWalk design flat net nodes → IsGridWalk design nodes }
{}
