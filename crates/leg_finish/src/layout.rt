//! Wires of walks that are laid out: a flat grows by them, and each net has a list of its own.

ghost use Rattle.std.specs.Prelude.{◌≡◌, ◌<◌, ◌≤◌, [], IsTrue, length, map, replicate, IfOk, IfSome};
ghost use Rattle.leg_finish.specs.Steps.OpenNets.{AreOpenNets};
ghost use Rattle.leg_finish.specs.Steps.Judgement.{IsLaidOut, IsMoreLaid};

use crate::groups::OpenNet;
use crate::grow::add_wires;
use crate::wires::wires_of_walks;
use leg_design_records::{Design, Wire};
use leg_flat::{Flat, FlatFault};
use leg_lib_records::Items;
use leg_route_grid::Grid;
use leg_route_laws::laws::{growth_goes_on, more_wires_by_net, no_wires_by_net};
use std::alloc::{AllocError, Allocator};

/// As many empty lists.
pub(crate) fn empty_lists<A: Allocator + Copy>(
    alloc: A,
    count: usize,
) -> Result<Vec<Vec<Wire, A>, A>, AllocError>
    ensures { IfOk result (λ lists. map (λ wires. wires.items) lists.items ≡ replicate count []) }
{
    let mut lists = Vec::with_capacity(alloc, count)?;
    for _ in 0..count {
        lists.push(Vec::new(alloc))?;
    }
    Ok(lists)
}

/// Lays out the walks of one net, and tells whether it did: not where one of them is no walk over the grid, or there would be too
/// many shapes.
fn lay_net<A: Allocator + Copy>(
    alloc: A,
    design: &Design<'_, A>,
    grid: &Grid<'_, '_, A>,
    flat: &mut Flat<A>,
    net: u32,
    walks: &[Items<u32, A>],
    lists: &mut Vec<Vec<Wire, A>, A>,
) -> Result<bool, AllocError>
    requires of_design { grid.now.design ≡ design.now }
    requires in_range { net < length flat.old.pieces }
    requires listed { net < length lists.old.items }
    ensures laid { IfOk result (λ is_laid. IsTrue is_laid
        → IsMoreLaid design.now net flat.old flat.new (map (λ wires. wires.items) lists.old.items) (map (λ wires. wires.items) lists.new.items)) }
    ensures nets { IfOk result (λ is_laid. IsTrue is_laid → length flat.new.pieces ≡ length flat.old.pieces) }
    ensures count { length lists.new.items ≡ length lists.old.items }
{
    let Some(mut wires) = wires_of_walks(alloc, grid, design, walks)? else {
        return Ok(false);
    };
    match add_wires(design, flat, net, &wires) {
        Ok(()) => {}
        Err(FlatFault::TooMany) => return Ok(false),
        Err(FlatFault::Memory) => return Err(AllocError),
    }
    lists[net as usize].append(&mut wires)?;
    Ok(true)
}

/// The wires of the walks of each of the open nets, in a list for each entry of `NETS`; the flat grows by them. None where one of them
/// is no walk over the grid, or there would be too many shapes.
pub(crate) fn lay_out<A: Allocator + Copy>(
    alloc: A,
    design: &Design<'_, A>,
    grid: &Grid<'_, '_, A>,
    flat: &mut Flat<A>,
    nets: &[OpenNet<A>],
    walks: &[Items<Items<u32, A>, A>],
) -> Result<Option<Vec<Vec<Wire, A>, A>>, AllocError>
    requires of_design { grid.now.design ≡ design.now }
    requires nets { AreOpenNets design.now flat.old nets.now }
    requires in_range { length design.now.nets ≤ length flat.old.pieces }
    requires count { length walks.now ≡ length nets.now }
    ensures laid { IfOk result (λ found. IfSome found (λ lists. IsLaidOut design.now flat.old flat.new (map (λ wires. wires.items) lists.items))) }
    ensures nets { IfOk result (λ found. IfSome found (λ lists. length flat.new.pieces ≡ length flat.old.pieces)) }
{
    no_wires_by_net();
    growth_goes_on();
    more_wires_by_net();
    let mut lists = empty_lists(alloc, design.nets().len())?;
    for place in 0..nets.len() {
        let net = nets[place].net;
        if !lay_net(
            alloc,
            design,
            grid,
            flat,
            net,
            walks[place].as_slice(),
            &mut lists,
        )? {
            return Ok(None);
        }
    }
    Ok(Some(lists))
}
