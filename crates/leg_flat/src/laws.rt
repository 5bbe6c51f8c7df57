//! Laws of the definitions that contracts cite. The contract of a function is the law, and its body does nothing; that of
//! `every_design_has_a_flat` reads each shape of the library, of which it is then known that it has area.

ghost use Rattle.std.specs.Prelude.{◌≡◌, ◌↔◌, ℕ, length, Contains, None, Some, slice_get};
ghost use Rattle.leg_lib_records.specs.Sound.{IsSound};
ghost use Rattle.leg_design_records.specs.Records.{DesignModel, NetModel};
ghost use Rattle.leg_design_records.specs.declared.records.Terminal.{Terminal};
ghost use Rattle.leg_design_records.specs.WellFormed.{IsWellFormed};
ghost use Rattle.leg_rules.specs.declared.piece.Piece.{Piece};
ghost use Rattle.leg_rules.specs.Metal.Flat.{FlatModel, IsFlatOf};
ghost use Rattle.leg_rules.specs.Metal.Nets.{pieces_of};
ghost use Rattle.leg_rules.specs.Metal.Metal.{OnLayer, Metal, metal_of};
ghost use Rattle.leg_flat.specs.ProperLibrary.{IsProperLibrary};
ghost use Rattle.leg_rules.specs.Metal.Owner.{lone_owner, owner_of, piece_of};
ghost use Rattle.leg_rules.specs.Metal.Pieces.{IsOfTerminal, IsMetalOfPiece, HasItsPiece, of_piece, IsEntryOf};
ghost use Rattle.leg_flat.specs.Sources.{IsOfComponentObstruction, of_obstruction, IsOfBlockage, of_blockage, IsLone, of_terminal_shape, HasSource, shape_count};

use crate::proper::library_is_proper;
use leg_design_records::Design;
use leg_design_records::laws::design_is_sound;
use leg_geom::laws::placed_rectangles_are_images;
use std::alloc::Allocator;

/// Metal of a net is a shape of the piece whose number it has, and of that piece's component; other metal has no piece.
pub fn metal_has_its_piece()
    ensures { (design : DesignModel) → IsWellFormed design
        → (metal : Metal) → Contains (metal_of design) metal → HasItsPiece design metal }
{}

/// Each shape of a piece of a net is metal with the numbers of the net and of the piece.
pub fn piece_has_its_metal()
    ensures { (design : DesignModel) → IsWellFormed design
        → (n k : ℕ) (piece : Piece) (metal : OnLayer) → slice_get (pieces_of design n) k ≡ Some piece
        → IsMetalOfPiece design n piece metal → Contains (metal_of design) (of_piece n k piece metal) }
{}

/// Each obstruction of a component that has a place is metal of the component's obstructions.
pub fn obstruction_has_its_metal()
    ensures { (design : DesignModel) (c : ℕ) (metal : OnLayer) → IsOfComponentObstruction design c metal
        → Contains (metal_of design) (of_obstruction c metal) }
{}

/// Each rectangle of a blockage of a layer is metal of that layer, owned by the blockage.
pub fn blockage_has_its_metal()
    ensures { (design : DesignModel) (k : ℕ) (metal : OnLayer) → IsOfBlockage design k metal
        → Contains (metal_of design) (of_blockage k metal) }
{}

/// Each shape of a terminal is metal of the terminal's owner.
pub fn terminal_has_its_metal()
    ensures { (design : DesignModel) (terminal : Terminal) (metal : OnLayer) → IsOfTerminal design terminal metal
        → Contains (metal_of design) (of_terminal_shape design terminal metal) }
{}

/// A terminal that no net lists is of no piece, and its owner is the terminal itself or, by the `USE` of a component's pin, the
/// power or the ground.
pub fn lone_terminal_is_its_own()
    ensures owner { (design : DesignModel) (terminal : Terminal) → IsLone design terminal
        → owner_of design terminal ≡ lone_owner design terminal }
    ensures piece { (design : DesignModel) (terminal : Terminal) → IsLone design terminal → piece_of design terminal ≡ None }
{}

/// There is no metal but the obstructions of components, the rectangles of blockages of layers, the shapes of terminals and
/// those of wires, and it is owned so.
pub fn metal_has_a_source()
    ensures { (design : DesignModel) → IsWellFormed design
        → (metal : Metal) → Contains (metal_of design) metal → HasSource design metal }
{}

/// There are as many pieces of metal as shapes are drawn.
pub fn shapes_are_metal_once()
    ensures { (design : DesignModel) → length (metal_of design) ≡ shape_count design }
{}

/// Entries of both sections are of one net if and only if they have one name.
pub fn one_number_for_one_name()
    ensures { (design : DesignModel) → IsWellFormed design
        → (n m : ℕ) (a b : NetModel) → IsEntryOf design n a → IsEntryOf design m b → (n ≡ m) ↔ (a.name ≡ b.name) }
{}

/// A design has one flat at most.
pub fn design_has_one_flat()
    ensures { (design : DesignModel) (a b : FlatModel) → IsFlatOf design a → IsFlatOf design b → a ≡ b }
{}

/// A well-formed design under a sound and proper library has a flat: each piece of its metal is a rectangle.
pub fn design_has_a_flat()
    ensures { (design : DesignModel) → IsSound design.library → IsProperLibrary design.library → IsWellFormed design
        → (flat : FlatModel) × IsFlatOf design flat }
{
    placed_rectangles_are_images();
}

/// The same of a design that the program has: it and its library are as that law asks for, by their types.
pub fn every_design_has_a_flat<A: Allocator + Copy>(design: &Design<'_, A>)
    ensures { (flat : FlatModel) × IsFlatOf design.now flat }
{
    design_is_sound(design);
    library_is_proper(design.library());
    design_has_a_flat();
}
