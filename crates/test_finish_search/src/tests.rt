//! What becomes of nets that want the same nodes, of one that has no way, and without rounds.

ghost use Rattle.std.specs.Prelude.{◌≡◌, ◌<◌, ◌^◌, All, length, IfOk};
ghost use Rattle.leg_finish_search.specs.Slots.{AreSlotLists};

use crate::sheet::Sheet;
use leg_finish_search::{Budget, Element, Negotiated, NetToJoin, Part, negotiate};
use leg_geom::Rect;
use leg_lib_records::Items;
use std::alloc::{AllocError, Allocator};
use std::test::Fail;

// The rectangle of a node, or of a via, on the level.
fn part(element: Element, level: usize, layer: usize) -> Part
    ensures { result.level ≡ level }
{
    Part {
        element,
        level,
        layer,
        rect: Rect::new(-1, -1, 1, 1).unwrap(),
        spacing: 4,
    }
}

// A net with two groups of one node each, whose slots are the rests of these numbers.
fn net<A: Allocator + Copy>(
    alloc: A,
    net: u32,
    from: u32,
    to: u32,
) -> Result<NetToJoin<A>, AllocError>
    ensures { IfOk result (λ made. AreSlotLists 18 made.groups.items) }
{
    let mut groups = Vec::new(alloc);
    groups.push(Items::from_vec(Vec::from_slice(alloc, &[from % 18])?))?;
    groups.push(Items::from_vec(Vec::from_slice(alloc, &[to % 18])?))?;
    Ok(NetToJoin { net, groups })
}

// The nets between these pairs of slots.
fn nets_between<A: Allocator + Copy>(
    alloc: A,
    pairs: &[(u32, u32)],
) -> Result<Vec<NetToJoin<A>, A>, AllocError>
    ensures nets { IfOk result (λ nets. All (λ net. AreSlotLists 18 net.groups.items) nets.items) }
    ensures count { IfOk result (λ nets. length nets.items ≡ length pairs.now) }
{
    let mut nets = Vec::new(alloc);
    for (from, to) in pairs {
        nets.push(net(alloc, 0, *from, *to)?)?;
    }
    Ok(nets)
}

// What becomes of nets between these pairs of slots, on a sheet of which some are closed. A square is at each node, and one on both
// levels at each via.
fn routed<A: Allocator + Copy>(
    alloc: A,
    pairs: &[(u32, u32)],
    closed: &[u32],
    rounds: u32,
) -> Result<Negotiated<A>, AllocError>
    requires { length pairs.now < 2 ^ 32 }
{
    let nets = nets_between(alloc, pairs)?;
    let parts = [
        part(Element::Node, 0, 0),
        part(Element::Node, 1, 1),
        part(Element::Via, 0, 0),
        part(Element::Via, 0, 1),
    ];
    let budget = Budget {
        rounds,
        ..Budget::DEFAULT
    };
    negotiate(alloc, &Sheet { closed }, &parts, &nets, budget, &mut ())
}

// The slots of the first walk of the net of this place.
fn walk<A: Allocator>(found: &Negotiated<A>, place: usize) -> &[u32] {
    match found.walks.get(place) {
        Some(walks) => match walks.as_slice().first() {
            Some(walk) => walk.as_slice(),
            None => &[],
        },
        None => &[],
    }
}

#[test]
fn nets_pass_one_another(rt: HostRuntime) -> Result<(), Fail> {
    // The first runs along the middle row; the second begins in its middle, and goes north.
    let found = routed(rt.alloc(), &[(3, 5), (4, 16)], &[], 500)?;
    assert!(rt; found.left.is_empty());
    let (first, second) = (walk(&found, 0), walk(&found, 1));
    assert_eq!(rt; second, [4, 13, 16].as_slice());
    // Up, a row further, down, along, and back.
    assert_eq!(rt; first.first(), Some(&3));
    assert_eq!(rt; first.last(), Some(&5));
    assert!(rt; first.iter().all(|slot| !second.contains(slot)));
    assert_eq!(rt; first.len(), 9);
    Ok(())
}

#[test]
fn a_net_without_a_way_is_left(rt: HostRuntime) -> Result<(), Fail> {
    // The middle column is closed.
    let found = routed(rt.alloc(), &[(0, 1), (3, 5)], &[4, 7, 13, 16], 500)?;
    assert_eq!(rt; found.left.as_slice(), [0, 1].as_slice());
    Ok(())
}

#[test]
fn without_rounds_all_are_left(rt: HostRuntime) -> Result<(), Fail> {
    let found = routed(rt.alloc(), &[(0, 2)], &[], 0)?;
    assert_eq!(rt; found.left.as_slice(), [0].as_slice());
    assert!(rt; walk(&found, 0).is_empty());
    Ok(())
}
