//! Finishing a design.

ghost use Rattle.std.specs.Prelude.{◌≡◌, ◌≤◌, length, map, IfOk, IfErr, OnOk};
ghost use Rattle.leg_design_records.specs.declared.limits.TheConstants.{PART_LIMIT};
ghost use Rattle.leg_rules.specs.Metal.Metal.{metal_of};
ghost use Rattle.leg_rules.specs.declared.grid_limits.TheConstants.{GREATEST_GRID};
ghost use Rattle.leg_rules.specs.Route.GridSize.{IsGridBeyond};
ghost use Rattle.leg_rules.specs.Legal.{IsLegal};
ghost use Rattle.leg_rules.specs.Route.SameButForWires.{IsSameButForWires};
ghost use Rattle.leg_finish.specs.Refusal.{IsFinishRefusal};
ghost use Rattle.leg_rules.specs.Finish.Wires.{AddsToOpenNets, AddsWalks, HaveTotals};
ghost use Rattle.leg_finish.specs.Steps.Judgement.{AreFinishing};

use crate::fault::FinishFault;
use crate::found::{Found, found_wires};
use crate::groups::open_nets;
use crate::layout::empty_lists;
use crate::totals::{WireTotals, totals_of};
use crate::unfinished::why_unfinished;
use leg_check::clean_flat;
use leg_design_records::laws::design_is_sound;
use leg_design_records::{Design, Wire};
use leg_finish_search::{Budget, Progress};
use leg_flat::laws::{design_has_one_flat, every_design_has_a_flat};
use leg_lib_records::Library;
use leg_route_grid::{GREATEST_GRID, Grid};
use leg_route_laws::laws::{
    finished_design_is_legal, finished_design_is_same, no_wires_by_net, placement_stays,
    shapes_stay_as_many,
};
use std::alloc::Allocator;

/// The design with all its nets routed (lefdef's own rules), within the budget that lefdef takes. See `finish_within`.
pub fn finish<'a, A: Allocator + Copy, P: Progress>(
    alloc: A,
    library: &Library<'_, A>,
    design: Design<'a, A>,
    progress: &mut P,
) -> Result<(Design<'a, A>, WireTotals), (Design<'a, A>, FinishFault<A>)>
    requires { library.now ≡ design.library }
    ensures legal { IfOk result (λ done. IsLegal done.0) }
    ensures same { IfOk result (λ done. IsSameButForWires design.entry done.0) }
    ensures open_only { IfOk result (λ done. AddsToOpenNets design.entry done.0) }
    ensures walks { IfOk result (λ done. AddsWalks design.entry done.0) }
    ensures totals { IfOk result (λ done. HaveTotals design.entry done.0 done.1.length done.1.vias) }
    ensures few { IfOk result (λ done. length (metal_of done.0) ≤ PART_LIMIT) }
    ensures fits { OnOk result (¬ IsGridBeyond GREATEST_GRID design.entry) }
    ensures unchanged { IfErr result (λ back. back.0 ≡ design.entry) }
    ensures refused { IfErr result (λ back. IsFinishRefusal design.entry back.1) }
{
    finish_within(alloc, library, design, Budget::DEFAULT, progress)
}

/// The design with all its nets routed (lefdef's own rules): each entry of `NETS` keeps its wires, and gets further ones after them if
/// its net is open, until all pieces of each net are joined. Nothing else changes, and the design is then legal. With it come how
/// long the new wires are together and how many of them are vias.
///
/// What an entry gets are the wires of walks over the grid of tracks, one walk after another, each spelled as `route` of `leg_route`
/// spells its own. The walks are found by negotiation (see `negotiate` of `leg_finish_search`), and nothing is claimed of how many or
/// how long they are. The design is given only if it is legal, for which it is judged as `check` judges.
///
/// The library is the one that the design was read with. On each refusal the design comes back unchanged: `TooMany` where it has
/// more shapes than a flat may have, else `NotClean` with all violations of other kinds than open nets, else `GridTooLarge`, else
/// `Unreachable` with the first piece that no walk leads from whatever other nets do, else `Unfinished` with the nets that were left
/// when the search was given up, or all open nets where the wires that it found would have too many shapes or are judged not legal.
/// `Memory` is returned wherever an allocation failed.
pub fn finish_within<'a, A: Allocator + Copy, P: Progress>(
    alloc: A,
    library: &Library<'_, A>,
    design: Design<'a, A>,
    budget: Budget,
    progress: &mut P,
) -> Result<(Design<'a, A>, WireTotals), (Design<'a, A>, FinishFault<A>)>
    requires { library.now ≡ design.library }
    ensures legal { IfOk result (λ done. IsLegal done.0) }
    ensures same { IfOk result (λ done. IsSameButForWires design.entry done.0) }
    ensures open_only { IfOk result (λ done. AddsToOpenNets design.entry done.0) }
    ensures walks { IfOk result (λ done. AddsWalks design.entry done.0) }
    ensures totals { IfOk result (λ done. HaveTotals design.entry done.0 done.1.length done.1.vias) }
    ensures few { IfOk result (λ done. length (metal_of done.0) ≤ PART_LIMIT) }
    ensures fits { OnOk result (¬ IsGridBeyond GREATEST_GRID design.entry) }
    ensures unchanged { IfErr result (λ back. back.0 ≡ design.entry) }
    ensures refused { IfErr result (λ back. IsFinishRefusal design.entry back.1) }
{
    match wires_for(alloc, &design, budget, progress) {
        Ok(lists) => add_all(design, lists),
        Err(fault) => Err((design, fault)),
    }
}

/// Gives each entry of `NETS` the wires of its list. If an allocation fails, the design comes back as it was.
fn add_all<'a, A: Allocator + Copy>(
    design: Design<'a, A>,
    lists: Vec<Vec<Wire, A>, A>,
) -> Result<(Design<'a, A>, WireTotals), (Design<'a, A>, FinishFault<A>)>
    requires { AreFinishing design (map (λ wires. wires.items) lists.items) }
    ensures legal { IfOk result (λ done. IsLegal done.0) }
    ensures same { IfOk result (λ done. IsSameButForWires design.entry done.0) }
    ensures open_only { IfOk result (λ done. AddsToOpenNets design.entry done.0) }
    ensures walks { IfOk result (λ done. AddsWalks design.entry done.0) }
    ensures totals { IfOk result (λ done. HaveTotals design.entry done.0 done.1.length done.1.vias) }
    ensures few { IfOk result (λ done. length (metal_of done.0) ≤ PART_LIMIT) }
    ensures fits { OnOk result (¬ IsGridBeyond GREATEST_GRID design.entry) }
    ensures unchanged { IfErr result (λ back. back.0 ≡ design.entry) }
    ensures refused { IfErr result (λ back. IsFinishRefusal design.entry back.1) }
{
    finished_design_is_same();
    shapes_stay_as_many();
    design_has_one_flat();
    finished_design_is_legal();
    placement_stays();
    design_is_sound(&design);
    let totals = totals_of(&lists);
    match design.with_all_wires(lists) {
        Ok(done) => {
            design_is_sound(&done);
            every_design_has_a_flat(&done);
            Ok((done, totals))
        }
        Err((design, _refusal)) => Err((design, FinishFault::Memory)),
    }
}

/// For each entry of `NETS` the wires with which the design is finished.
fn wires_for<A: Allocator + Copy, P: Progress>(
    alloc: A,
    design: &Design<'_, A>,
    budget: Budget,
    progress: &mut P,
) -> Result<Vec<Vec<Wire, A>, A>, FinishFault<A>>
    ensures found { IfOk result (λ lists. AreFinishing design.now (map (λ wires. wires.items) lists.items)) }
    ensures refused { IfErr result (λ fault. IsFinishRefusal design.now fault) }
{
    no_wires_by_net();
    design_has_one_flat();
    let flat = clean_flat(alloc, design)?;
    let grid = Grid::new_within(alloc, design, GREATEST_GRID)?;
    let nets = open_nets(alloc, design, &flat)?;
    if nets.is_empty() {
        let lists = empty_lists(alloc, design.nets().len())?;
        return Ok(lists);
    }
    match found_wires(alloc, design, &grid, flat, &nets, budget, progress)? {
        Found::Wires(lists) => Ok(lists),
        Found::Left(left) => Err(why_unfinished(alloc, design, &grid, &nets, &left)),
    }
}
