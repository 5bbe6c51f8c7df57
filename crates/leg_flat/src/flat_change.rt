//! Changes of a flat: a net that gets a wire.

ghost use Rattle.std.specs.Prelude.{◌≡◌, ◌↔◌, ◌+◌, ◌^◌, ◌<◌, ◌≤◌, ℕ, List, false, length, IfOk, IfErr, OnOk, OnErr};
ghost use Rattle.leg_lib_records.specs.Scale.{OneForOne};
ghost use Rattle.leg_lib_records.specs.Sound.{IsSound};
ghost use Rattle.leg_design_records.specs.declared.limits.TheConstants.{PART_LIMIT};
ghost use Rattle.leg_design_records.specs.declared.records.Terminal.{Terminal};
ghost use Rattle.leg_design_records.specs.WellFormedNets.{IsWire};
ghost use Rattle.leg_flat.specs.declared.fault.FlatFault.TheVariants.{TooMany};
ghost use Rattle.leg_rules.specs.Metal.Metal.{wire_outlines};
ghost use Rattle.leg_rules.specs.Metal.Flat.{IsShapeOf, pieces_with};
ghost use Rattle.leg_rules.specs.Metal.MoreWires.{wire_metal, HasOneMoreWire};
ghost use Rattle.leg_flat.specs.Steps.AddedMetal.{IsWireWithin};

use crate::fault::FlatFault;
use crate::flat::Flat;
use crate::metal_count::wire_shapes;
use crate::metal_parts::Belongs;
use crate::metal_wires::add_wire;
use leg_design_records::laws::design_is_sound;
use leg_design_records::{Design, PART_LIMIT, Wire};
use leg_lib_records::Library;
use leg_rules::{Owner, Piece, Shape};
use std::alloc::{AllocError, Allocator};

impl<A: Allocator + Copy> Flat<A> {
    /// Adds a wire to the net of this number, as its last piece: the wire's shapes come after all others. The flat is of a
    /// design with these rows, components, pins and vias, which was read with this library; the wire is one that `NETS` can
    /// have.
    ///
    /// `TooMany` is returned exactly where the flat would have more than `PART_LIMIT` shapes. On each refusal the flat
    /// is as it was.
    pub fn add_wire(
        &mut self,
        library: &Library<'_, A>,
        design: &Design<'_, A>,
        net: u32,
        wire: &Wire,
    ) -> Result<(), FlatFault>
        requires of_design { library.now ≡ design.now.library }
        requires in_range { net < length self.old.pieces }
        requires spelled { IsWire design.now.library design.now.vias false wire.now }
        ensures added { OnOk result (HasOneMoreWire design.now net wire.now self.old self.new) }
        ensures few { OnOk result (length self.old.shapes + length (wire_outlines design.now wire.now) ≤ PART_LIMIT) }
        ensures many { IfErr result (λ fault. fault ≡ TooMany ↔ PART_LIMIT < length self.old.shapes + length (wire_outlines design.now wire.now)) }
        ensures unchanged { OnErr result (self.new ≡ self.old) }
    {
        design_is_sound(design);
        if wire_shapes(design, wire) > PART_LIMIT as usize - self.shapes.len() {
            return Err(FlatFault::TooMany);
        }
        let pieces = self.pieces[net as usize].as_slice();
        let number = next_wire(pieces);
        let mut added = shapes_of_wire(
            *self.shapes.allocator(),
            design,
            net,
            pieces.len() as u32,
            wire,
        )?;
        self.shapes.reserve(added.len())?;
        self.pieces[net as usize].push(Piece::Wire(number))?;
        self.shapes.append(&mut added).unwrap();
        Ok(())
    }
}

/// The number of a net's next wire, from how many of its pieces are wires.
fn next_wire(pieces: &[Piece]) -> u32
    requires few { length pieces.now < 2 ^ 32 }
    requires are { (terminals : List Terminal) × ((wires : ℕ) × (pieces.now ≡ pieces_with terminals wires)) }
    ensures { (terminals : List Terminal) (wires : ℕ) → pieces.now ≡ pieces_with terminals wires → result ≡ wires }
{
    match pieces.last() {
        Some(Piece::Wire(last)) => *last + 1,
        Some(Piece::Term(_terminal)) => 0,
        None => 0,
    }
}

/// The shapes of a wire, as a piece of this net.
fn shapes_of_wire<A: Allocator + Copy>(
    alloc: A,
    design: &Design<'_, A>,
    net: u32,
    piece: u32,
    wire: &Wire,
) -> Result<Vec<Shape, A>, AllocError>
    requires sound { IsSound design.now.library }
    requires within { IsWireWithin wire.now }
    ensures { IfOk result (λ shapes. OneForOne IsShapeOf (wire_metal design.now net piece wire.now) shapes.items) }
{
    let belongs = Belongs {
        owner: Owner::Net(net),
        component: None,
        piece: Some(piece),
    };
    let mut shapes = Vec::new(alloc);
    add_wire(&mut shapes, design, wire, &belongs)?;
    Ok(shapes)
}
