//! Flat designs.

ghost use Rattle.std.specs.Prelude.{◌≡◌, ◌↔◌, ◌<◌, ◌≤◌, length, Some, IfOk, IfErr, option_map, slice_get};
ghost use Rattle.leg_lib_records.specs.Scale.{OneForOne};
ghost use Rattle.leg_design_records.specs.declared.limits.TheConstants.{PART_LIMIT};
ghost use Rattle.leg_flat.specs.declared.fault.FlatFault.TheVariants.{TooMany};
ghost use Rattle.leg_rules.specs.Metal.Metal.{metal_of};
ghost use Rattle.leg_flat.specs.Steps.Places.{AreNetsOf};
ghost use Rattle.leg_flat.specs.Limits.{IsWithinLimits};
ghost use Rattle.leg_rules.specs.Metal.Flat.{IsShapeOf, IsFlatOf};

use crate::fault::FlatFault;
use crate::metal::{add_blockages, add_components, add_design_pins};
use crate::metal_count::shape_count;
use crate::metal_wires::{add_nets, add_specials};
use crate::nets::{Nets, nets_of};
use leg_design_records::laws::design_is_sound;
use leg_design_records::{Design, PART_LIMIT};
use leg_lib_records::{Items, Library};
use leg_rules::{Piece, Shape};
use std::alloc::{AllocError, Allocator};
use std::marker::Model;

/// The metal of a design as rectangles, and the pieces of its nets.
#[derive(Drop)]
pub struct Flat<A: Allocator> {
    pub(crate) shapes: Vec<Shape, A>,
    pub(crate) pieces: Vec<Items<Piece, A>, A>,
}

impl<A: Allocator> Model for Flat<A> {
    ghost use Rattle.leg_flat.specs.Limits.{IsWithinLimits};
    ghost use Rattle.leg_rules.specs.Metal.Flat.{FlatModel};

    ghost Value = { FlatModel };

    ghost view = { λ f. record { shapes = f.shapes.items; pieces = f.pieces.items } };

    ghost invariant = { λ f. IsWithinLimits (record { shapes = f.shapes.items; pieces = f.pieces.items }) };
}

impl<A: Allocator + Copy> Flat<A> {
    /// The shapes, in order: for each placed component in file order its pins and then its obstructions; the pins of the
    /// design, port by port; the rectangles of the blockages of layers; the wires of `NETS`, net by net; the wires of
    /// `SPECIALNETS`. A via has the rectangles of its definition, in their order.
    pub fn shapes(&self) -> &[Shape]
        ensures is { result.now ≡ self.now.shapes }
        ensures proper { IsWithinLimits self.now }
    {
        self.shapes.as_slice()
    }

    /// How many entries `NETS` and `SPECIALNETS` have together: numbers of nets lie below. A net that is in both
    /// sections has two entries and one number, so there may be fewer nets; the number left over has no pieces.
    pub fn net_count(&self) -> u32
        ensures is { result ≡ length self.now.pieces }
        ensures proper { IsWithinLimits self.now }
    {
        self.pieces.len() as u32
    }

    /// The pieces of the net of this number, in order: the terminals of its entry of `NETS`, those of its entry of
    /// `SPECIALNETS` that aren't among them, and the wires of both entries.
    pub fn pieces(&self, net: u32) -> &[Piece]
        requires { net < length self.now.pieces }
        ensures is { slice_get self.now.pieces net ≡ Some result.now }
    {
        self.pieces[net as usize].as_slice()
    }

    /// How many pieces the net of this number has.
    pub fn pieces_of_net(&self, net: u32) -> u32
        requires { net < length self.now.pieces }
        ensures is { option_map length (slice_get self.now.pieces net) ≡ Some result }
        ensures proper { IsWithinLimits self.now }
    {
        self.pieces[net as usize].as_slice().len() as u32
    }
}

/// The metal of the design, which was read with this library.
///
/// `TooMany` is returned exactly where it has more than `PART_LIMIT` shapes, which are counted before any memory is
/// asked for.
pub fn flatten<A: Allocator + Copy>(
    alloc: A,
    library: &Library<'_, A>,
    design: &Design<'_, A>,
) -> Result<Flat<A>, FlatFault>
    requires { library.now ≡ design.now.library }
    ensures ok { IfOk result (λ flat. IsFlatOf design.now flat) }
    ensures few { IfOk result (λ flat. length (metal_of design.now) ≤ PART_LIMIT) }
    ensures many { IfErr result (λ fault. fault ≡ TooMany ↔ PART_LIMIT < length (metal_of design.now)) }
{
    let count = shape_count(design);
    if count > PART_LIMIT {
        return Err(FlatFault::TooMany);
    }
    let nets = nets_of(alloc, design)?;
    let shapes = shapes_of(alloc, design, &nets, count as usize)?;
    Ok(Flat {
        shapes,
        pieces: nets.into_pieces(),
    })
}

/// The shapes of the design, whose nets these are, with room for this many from the start.
fn shapes_of<A: Allocator + Copy>(
    alloc: A,
    design: &Design<'_, A>,
    nets: &Nets<A>,
    count: usize,
) -> Result<Vec<Shape, A>, AllocError>
    requires { AreNetsOf design.now nets.now }
    ensures { IfOk result (λ shapes. OneForOne IsShapeOf (metal_of design.now) shapes.items) }
{
    design_is_sound(design);
    let mut shapes = Vec::with_capacity(alloc, count)?;
    add_components(&mut shapes, design, nets)?;
    add_design_pins(&mut shapes, design, nets)?;
    add_blockages(&mut shapes, design)?;
    add_nets(&mut shapes, design, nets)?;
    add_specials(&mut shapes, design, nets)?;
    Ok(shapes)
}
