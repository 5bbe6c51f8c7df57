//! What the router works on.

ghost use Rattle.std.specs.Prelude.{◌≡◌, ◌<◌, ◌+◌, false, length, IfOk, IfErr, OnOk};
ghost use Rattle.leg_design_records.specs.declared.limits.TheConstants.{PART_LIMIT};
ghost use Rattle.leg_design_records.specs.WellFormedNets.{IsWire};
ghost use Rattle.leg_flat.specs.declared.fault.FlatFault.TheVariants.{TooMany};
ghost use Rattle.leg_rules.specs.Metal.Metal.{wire_outlines};
ghost use Rattle.leg_rules.specs.Metal.MoreWires.{HasOneMoreWire};
ghost use Rattle.leg_flat.specs.Limits.{IsWithinLimits};
ghost use Rattle.leg_route.specs.Steps.NextWires.{IsNextStep};

use leg_design_records::Wire;
use leg_flat::FlatFault;
use std::alloc::{AllocError, Allocator};

/// What a net asks for at a point of its turn.
#[derive(Drop)]
pub(crate) enum NextStep<A: Allocator> {
    /// Nothing: all its pieces are joined.
    Joined,
    /// The wires of a shortest open walk from the joined part of the net to the rest.
    Wires(Vec<Wire, A>),
    /// Such a walk, but there is none.
    NoWalk,
}

/// A design, and the flat of it that grows as nets get wires. What else a search needs is kept with them: it is ready
/// where all of this fits the flat.
pub(crate) trait Ground<A: Allocator + Copy> {
    ghost use Rattle.leg_design_records.specs.Records.{DesignModel};
    ghost use Rattle.leg_rules.specs.Metal.Flat.{FlatModel};

    ghost design: { Self → DesignModel };

    ghost flat: { Self → FlatModel };

    ghost IsReady: { Self → Type 0 };

    /// What the net asks for. It fails only when out of memory.
    fn next(&mut self, alloc: A, net: u32) -> Result<NextStep<A>, AllocError>
        requires ready { IsReady self.old }
        requires in_range { net < length (design self.old).nets }
        ensures step { IfOk result (λ step. IsNextStep (design self.old) (flat self.old) net step) }
        ensures ready { OnOk result (IsReady self.new) }
        ensures same_design { design self.new ≡ design self.old }
        ensures same_flat { flat self.new ≡ flat self.old };

    /// Adds a wire to the net. `TooMany` is returned only where the flat would have more than `PART_LIMIT` shapes.
    fn add(&mut self, net: u32, wire: Wire) -> Result<(), FlatFault>
        requires ready { IsReady self.old }
        requires in_range { net < length (design self.old).nets }
        requires spelled { IsWire (design self.old).library (design self.old).vias false wire }
        ensures added { OnOk result (HasOneMoreWire (design self.old) net wire (flat self.old) (flat self.new)) }
        ensures within { OnOk result (IsWithinLimits (flat self.new)) }
        ensures ready { OnOk result (IsReady self.new) }
        ensures many { IfErr result (λ fault. fault ≡ TooMany → PART_LIMIT < length (flat self.old).shapes + length (wire_outlines (design self.old) wire)) }
        ensures same_design { design self.new ≡ design self.old };
}
