//! The shapes of each net.

ghost use Rattle.std.specs.Prelude.{◌≡◌, ◌↔◌, ◌<◌, ◌^◌, ◌++◌, ◌∷◌, [], ℕ, IsTrue, Some, get_or, replicate, slice_set, length, IfOk, OnOk};
ghost use Rattle.leg_rules.specs.declared.owner.Owner.TheVariants.{Net};
ghost use Rattle.leg_wire.specs.NetShapes.{AreNumbersOf};

use leg_flat::{Owner, Shape};
use leg_lib_records::Items;
use std::alloc::{AllocError, Allocator};

/// For each net below this number the numbers of its shapes, in increasing order.
///
/// It fails only when out of memory.
pub fn numbers_by_net<A: Allocator + Copy>(
    alloc: A,
    shapes: &[Shape],
    nets: u32,
) -> Result<Vec<Items<u32, A>, A>, AllocError>
    requires { length shapes.now < 2 ^ 32 }
    ensures long { IfOk result (λ lists. length lists.items ≡ nets) }
    ensures each { IfOk result (λ lists. (net : ℕ) → net < nets → AreNumbersOf shapes.now net (get_or lists.items net [])) }
{
    let mut lists = empty_lists(alloc, nets)?;
    for (number, shape) in shapes.iter().enumerate() {
        if let Some(net) = net_below(shape.owner, nets) {
            add_number(&mut lists, net, number as u32)?;
        }
    }
    Ok(lists)
}

/// The numbers of the shapes of the net, in increasing order.
pub(crate) fn numbers_of_net<A: Allocator + Copy>(
    alloc: A,
    shapes: &[Shape],
    net: u32,
) -> Result<Vec<u32, A>, AllocError>
    requires { length shapes.now < 2 ^ 32 }
    ensures { IfOk result (λ numbers. AreNumbersOf shapes.now net numbers.items) }
{
    let mut numbers = Vec::new(alloc);
    for (number, shape) in shapes.iter().enumerate() {
        if is_net(shape.owner, net) {
            numbers.push(number as u32)?;
        }
    }
    Ok(numbers)
}

/// Whether the owner is this net.
fn is_net(owner: Owner, net: u32) -> bool
    ensures { IsTrue result ↔ owner ≡ Net net }
{
    owner == Owner::Net(net)
}

/// The net that the owner is, if it is one below this number.
fn net_below(owner: Owner, nets: u32) -> Option<u32>
    ensures { (net : ℕ) → result ≡ Some net ↔ ((owner ≡ Net net) × (net < nets)) }
{
    match owner {
        Owner::Net(net) if net < nets => Some(net),
        _ => None,
    }
}

/// Empty lists, `count` of them.
pub(crate) fn empty_lists<A: Allocator + Copy>(
    alloc: A,
    count: u32,
) -> Result<Vec<Items<u32, A>, A>, AllocError>
    ensures { IfOk result (λ lists. lists.items ≡ replicate count []) }
{
    let mut lists = Vec::with_capacity(alloc, count as usize)?;
    for _ in 0..count {
        lists.push(Items::from_vec(Vec::new(alloc)))?;
    }
    Ok(lists)
}

/// Adds a number to the list in this place.
pub(crate) fn add_number<A: Allocator + Copy>(
    lists: &mut [Items<u32, A>],
    place: u32,
    number: u32,
) -> Result<(), AllocError>
    requires { place < length lists.old }
    ensures { OnOk result (lists.new ≡ slice_set lists.old place (get_or lists.old place [] ++ number ∷ [])) }
{
    let list = &mut lists[place as usize];
    list.push(number)
}
