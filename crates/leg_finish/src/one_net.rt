//! The first piece of one net that cannot be reached.

ghost use Rattle.std.specs.Prelude.{◌≡◌, ◌≢◌, All, Contains, MatchOption, IfOk};
ghost use Rattle.leg_rules.specs.Metal.Flat.{IsFlatOf};
ghost use Rattle.leg_rules.specs.Route.GridSize.{IsGridTooLarge};
ghost use Rattle.leg_rules.specs.Finish.Reach.{IsFirstOfNetIfAny};

use crate::groups::{OpenNet, open_nets};
use crate::reach::unreachable_piece_of;
use leg_design_records::Design;
use leg_flat::Flat;
use leg_route_grid::Grid;
use std::alloc::{AllocError, Allocator};

/// The net of this number among these.
fn open_net<A: Allocator + Copy>(nets: &[OpenNet<A>], net: u32) -> Option<&OpenNet<A>>
    ensures { MatchOption result
        (All (λ other. other.net ≢ net) nets.now)
        (λ found. (found.now.net ≡ net) × Contains nets.now found.now) }
{
    for other in nets {
        if other.net == net {
            return Some(other);
        }
    }
    None
}

/// The first piece of this entry of `NETS` that cannot be reached, whatever other nets do (see `finish_within`); none where each can be,
/// as where the net is not open. The flat is the design's, whose grid is not too large for `route`.
pub fn first_unreachable_piece<A: Allocator + Copy>(
    alloc: A,
    design: &Design<'_, A>,
    flat: &Flat<A>,
    net: u32,
) -> Result<Option<u32>, AllocError>
    requires is_flat { IsFlatOf design.now flat.now }
    requires fits { ¬ IsGridTooLarge design.now }
    ensures { IfOk result (λ found. IsFirstOfNetIfAny design.now flat.now net found) }
{
    // (the grid is refused for memory alone)
    let Ok(grid) = Grid::new(alloc, design) else {
        return Err(AllocError);
    };
    let nets = open_nets(alloc, design, flat)?;
    match open_net(&nets, net) {
        Some(open) => unreachable_piece_of(alloc, &grid, design, flat, open),
        None => Ok(None),
    }
}
