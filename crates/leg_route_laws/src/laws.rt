//! Laws of flats and designs that grow by wires. Each function does nothing: its contract is the law.

ghost use Rattle.std.specs.Prelude.{◌≡◌, ◌≢◌, ◌↔◌, ◌<◌, ◌+◌, ◌⊎◌, ◌++◌, ◌-◌, ◌+ℤ◌, [], ◌≤ℤ◌, ◌≤◌, ℕ, ℤ, Bool, false, pos, List, All, Contains, length, replicate, Some, slice_get, slice_set};
ghost use Rattle.std.specs.List.{range_with_len};
ghost use Rattle.leg_geom.specs.Plane.{PointModel, RectModel, HasPoint};
ghost use Rattle.leg_lib_records.specs.Scale.{IsEven};
ghost use Rattle.leg_lib_records.specs.Records.{LibraryModel};
ghost use Rattle.leg_design_records.specs.declared.fault.Fault.{Fault};
ghost use Rattle.leg_design_records.specs.declared.records.Wire.{Wire};
ghost use Rattle.leg_design_records.specs.declared.records.Wire.TheVariants.{Segment, Patch};
ghost use Rattle.leg_design_records.specs.Records.{DesignModel, wire_count};
ghost use Rattle.leg_design_records.specs.MoreWires.{with_more_wires};
ghost use Rattle.leg_design_records.specs.WellFormed.{IsWellFormed};
ghost use Rattle.leg_design_records.specs.WellFormedNets.{IsWire};
ghost use Rattle.leg_lib_records.specs.Sound.{IsSound};
ghost use Rattle.leg_rules.specs.Placement.Violations.{IsPlacementViolation};
ghost use Rattle.leg_rules.specs.Metal.Nets.{terminals_of, regular_entry, entry_wires};
ghost use Rattle.leg_rules.specs.Metal.Metal.{OnLayer, wire_outlines, metal_of};
ghost use Rattle.leg_rules.specs.Metal.Flat.{FlatModel, IsFlatOf};
ghost use Rattle.leg_rules.specs.Metal.MoreWires.{HasOneMoreWire};
ghost use Rattle.leg_rules.specs.Spacing.Clean.{IsClean};
ghost use Rattle.leg_wire.specs.NetShapes.{AreNumbersOf};
ghost use Rattle.leg_wire.specs.PieceMarks.{AreMarks};
ghost use Rattle.leg_rules.specs.Joins.Touch.{piece_count, AreJoined};
ghost use Rattle.leg_route_laws.specs.Growth.{AddedWire, Grows, of_net, HasGrown};
ghost use Rattle.leg_route_laws.specs.CleanWire.{HasNoSpacingFault, IsCleanWire, HasCleanRect, LiesInClean};
ghost use Rattle.leg_route_laws.specs.Lines.{EachStep, last_spot, AreInLine, line_outline};
ghost use Rattle.leg_route_laws.specs.FinishedDesign.{finished, AreByNet, IsFinishedFrom};
ghost use Rattle.leg_rules.specs.Route.StepWires.{square};
ghost use Rattle.leg_rules.specs.Route.SameButForWires.{IsSameButForWires};
ghost use Rattle.leg_rules.specs.Violations.{IsViolationIn};
ghost use Rattle.leg_route_laws.specs.Violations.{HasShort, HasTooNear};
ghost use Rattle.leg_rules.specs.Joins.Violations.{IsOpenNet};

use leg_flat::laws::{metal_has_its_piece, piece_has_its_metal};
use leg_lib_records::laws::good_vias_join_layers;
use leg_wire::laws::{joined_both_ways, joined_onward};

/// A flat without shorts and without shapes too near one another stays so when a net gets a wire whose metal is clean in it.
pub fn clean_wire_stays_clean()
    ensures { (design : DesignModel) (net : ℕ) (wire : Wire) (old new : FlatModel)
        → HasNoSpacingFault design.library old → IsCleanWire design old net wire → HasOneMoreWire design net wire old new
        → HasNoSpacingFault design.library new }
{}

/// So it does when a net gets several wires, of each of which the metal is clean in the flat before all of them.
pub fn clean_wires_stay_clean()
    ensures { (design : DesignModel) (net : ℕ) (wires : List Wire) (old new : FlatModel)
        → HasNoSpacingFault design.library old → All (IsCleanWire design old net) wires → Grows design (of_net net wires) old new
        → HasNoSpacingFault design.library new }
{}

/// A rectangle is clean if each of its points lies in a clean one on the same layer.
pub fn covered_is_clean()
    ensures { (library : LibraryModel) (flat : FlatModel) (net layer : ℕ) (rect : RectModel)
        → ((p : PointModel) → HasPoint rect p → LiesInClean library flat net layer p) → IsClean library flat net layer rect }
{}

/// A wire is clean if for each of its pieces of metal some clean rectangle has all its points.
pub fn covered_wire_is_clean()
    ensures { (design : DesignModel) (flat : FlatModel) (net : ℕ) (wire : Wire)
        → ((metal : OnLayer) → Contains (wire_outlines design wire) metal → HasCleanRect design.library flat net metal.layer metal.outline)
        → IsCleanWire design flat net wire }
{}

/// A wire that runs straight over several points is clean if the metal from each point to the next is. All of it is on one
/// layer, of one width, and reaches equally far beyond its ends.
pub fn run_of_clean_steps_is_clean()
    ensures { (design : DesignModel) (flat : FlatModel) (net layer : ℕ) (width reach : ℤ) (from : PointModel) (spots : List PointModel)
        → pos 0 ≤ℤ reach → AreInLine from spots → from ≢ last_spot from spots
        → EachStep (λ a b. HasCleanRect design.library flat net layer (line_outline width reach a b)) from spots
        → IsCleanWire design flat net (Segment layer from (last_spot from spots) width reach reach) }
{}

/// The same where each step is a clean wire of its own, of an even width.
pub fn run_of_clean_wires_is_clean()
    ensures { (design : DesignModel) (flat : FlatModel) (net layer : ℕ) (width reach : ℤ) (from : PointModel) (spots : List PointModel)
        → IsEven width → pos 0 ≤ℤ reach → AreInLine from spots → from ≢ last_spot from spots → EachStep (λ a b. a ≢ b) from spots
        → EachStep (λ a b. IsCleanWire design flat net (Segment layer a b width reach reach)) from spots
        → IsCleanWire design flat net (Segment layer from (last_spot from spots) width reach reach) }
{}

/// The squares of a wire's width about its two ends are clean if the wire is, which reaches past both by half its width.
pub fn ends_of_clean_wire_are_clean()
    ensures { (design : DesignModel) (flat : FlatModel) (net layer : ℕ) (reach : ℤ) (a b : PointModel)
        → a ≢ b → (a.y ≡ b.y) ⊎ (a.x ≡ b.x) → IsCleanWire design flat net (Segment layer a b (reach +ℤ reach) reach reach)
        → IsCleanWire design flat net (Patch layer a (square reach)) × IsCleanWire design flat net (Patch layer b (square reach)) }
{}

/// What a flat has that grew by wires.
pub fn growth()
    ensures { (design : DesignModel) (added : List AddedWire) (before after : FlatModel)
        → Grows design added before after → HasGrown design added before after }
{}

/// A flat that grew by wires and then by others has grown by all of these.
pub fn growth_goes_on()
    ensures { (design : DesignModel) (first then : List AddedWire) (before between after : FlatModel)
        → Grows design first before between → Grows design then between after → Grows design (first ++ then) before after }
{}

/// When a net gets wires, the numbers of its shapes are those that it had and then those of all new shapes.
pub fn own_numbers_grow()
    ensures { (design : DesignModel) (net : ℕ) (wires : List Wire) (before after : FlatModel) (numbers : List ℕ)
        → Grows design (of_net net wires) before after → AreNumbersOf before.shapes net numbers
        → AreNumbersOf after.shapes net (numbers ++ range_with_len (length before.shapes) (length after.shapes - length before.shapes)) }
{}

/// The numbers of another net's shapes stay.
pub fn other_numbers_stay()
    ensures { (design : DesignModel) (net other : ℕ) (wires : List Wire) (before after : FlatModel) (numbers : List ℕ)
        → Grows design (of_net net wires) before after → other ≢ net → AreNumbersOf before.shapes other numbers
        → AreNumbersOf after.shapes other numbers }
{}

/// Empty lists, one for each of the first `count` nets, have the wires of these nets where none was added yet.
pub fn no_wires_by_net()
    ensures { (count : ℕ) → AreByNet count [] (replicate count []) }
{}

/// Lists that have the added wires net by net have them still when a net gets wires and its list gets the same at its end.
pub fn more_wires_by_net()
    ensures { (count : ℕ) (added : List AddedWire) (lists : List (List Wire)) (net : ℕ) (before wires : List Wire)
        → AreByNet count added lists → net < count → slice_get lists net ≡ Some before
        → AreByNet count (added ++ of_net net wires) (slice_set lists net (before ++ wires)) }
{}

/// A design that got wires is the same but for them, and has at least as many shapes as wires if each of those that it got is
/// spelled in its library and with its vias.
pub fn finished_design_is_same()
    ensures same { (design : DesignModel) (lists : List (List Wire)) → IsSameButForWires design (finished design lists) }
    ensures wires { (design : DesignModel) (lists : List (List Wire)) → IsSound design.library → IsWellFormed design
        → All (All (IsWire design.library design.vias false)) lists
        → wire_count (with_more_wires design.nets lists) + wire_count design.special ≤ length (metal_of (finished design lists)) }
{
    good_vias_join_layers();
}

/// A design that got the wires that its flat grew by has as many shapes as the grown flat.
pub fn shapes_stay_as_many()
    ensures { (design : DesignModel) (flat grown : FlatModel) (added : List AddedWire) (lists : List (List Wire))
        → IsFlatOf design flat → Grows design added flat grown → AreByNet (length design.nets) added lists
        → length (metal_of (finished design lists)) ≡ length grown.shapes }
{}

/// Where a flat grew by wires and its design got the same wires, the flat of that design has a short if and only if the
/// grown one has.
pub fn shorts_stay()
    ensures { (library : LibraryModel) (design : DesignModel) (added : List AddedWire) (grown : FlatModel) (lists : List (List Wire)) (end : FlatModel)
        → IsFinishedFrom design added grown lists end → HasShort library grown ↔ HasShort library end }
{
    metal_has_its_piece();
    piece_has_its_metal();
}

/// It has shapes too near one another if and only if the grown one has.
pub fn shapes_stay_too_near()
    ensures { (library : LibraryModel) (design : DesignModel) (added : List AddedWire) (grown : FlatModel) (lists : List (List Wire)) (end : FlatModel)
        → IsFinishedFrom design added grown lists end → HasTooNear library grown ↔ HasTooNear library end }
{
    metal_has_its_piece();
    piece_has_its_metal();
}

/// A net is not open in it if and only if it isn't open in the grown one. Pieces have other numbers there: wires that
/// were added to a net come before those of its entry of `SPECIALNETS`.
pub fn nets_stay_joined()
    ensures { (design : DesignModel) (added : List AddedWire) (grown : FlatModel) (lists : List (List Wire)) (end : FlatModel)
        → IsFinishedFrom design added grown lists end → (n : ℕ) → n < length design.nets
        → (¬ IsOpenNet design grown n) ↔ (¬ IsOpenNet (finished design lists) end n) }
{
    metal_has_its_piece();
    piece_has_its_metal();
    joined_both_ways();
    joined_onward();
}

/// A net that has a terminal, or had a wire in its entry of `NETS`, is open in it if and only if it is open in the
/// grown one: its first piece is the same.
pub fn open_nets_stay_open()
    ensures { (design : DesignModel) (added : List AddedWire) (grown : FlatModel) (lists : List (List Wire)) (end : FlatModel)
        → IsFinishedFrom design added grown lists end → (n : ℕ) → n < length design.nets
        → 0 < length (terminals_of design n) + length (entry_wires (regular_entry design n))
        → IsOpenNet design grown n ↔ IsOpenNet (finished design lists) end n }
{
    metal_has_its_piece();
    piece_has_its_metal();
    joined_both_ways();
    joined_onward();
}

/// So is any net for which there are marks, as `joined` finds them, of which pieces are joined to the first one.
pub fn marked_nets_stay_open()
    ensures { (design : DesignModel) (added : List AddedWire) (grown : FlatModel) (lists : List (List Wire)) (end : FlatModel)
        → IsFinishedFrom design added grown lists end → (n : ℕ) → n < length design.nets
        → (marks : List Bool) → AreMarks (AreJoined grown n 0) (piece_count grown n) marks
        → IsOpenNet design grown n ↔ IsOpenNet (finished design lists) end n }
{
    metal_has_its_piece();
    piece_has_its_metal();
    joined_both_ways();
    joined_onward();
}

/// Wires change nothing about placement.
pub fn placement_stays()
    ensures { (design : DesignModel) (lists : List (List Wire)) (fault : Fault)
        → IsPlacementViolation design fault ↔ IsPlacementViolation (finished design lists) fault }
{}

/// A design that got the wires that its flat grew by has no violation if its components are legally placed and the grown
/// flat has no short, no shapes too near one another and no open net.
pub fn finished_design_is_legal()
    ensures { (design : DesignModel) (added : List AddedWire) (grown : FlatModel) (lists : List (List Wire)) (end : FlatModel)
        → IsFinishedFrom design added grown lists end
        → ((fault : Fault) → ¬ IsPlacementViolation design fault) → HasNoSpacingFault design.library grown → ((n : ℕ) → ¬ IsOpenNet design grown n)
        → (fault : Fault) → ¬ IsViolationIn (finished design lists) end fault }
{
    metal_has_its_piece();
    piece_has_its_metal();
    joined_both_ways();
    joined_onward();
}
