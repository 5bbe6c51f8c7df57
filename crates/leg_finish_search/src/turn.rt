//! The turn of a net: its groups are joined one after another.

ghost use Rattle.std.specs.Prelude.{◌≡◌, ◌<◌, length, IfOk, IfSome, OnOk, All};
ghost use Rattle.leg_finish_search.specs.Slots.{AreSlots, AreSlotLists};
ghost use Rattle.leg_finish_search.specs.Steps.Tree.{IsTreeOf};

use crate::ground::Ground;
use crate::lattice::Lattice;
use crate::net::NetToJoin;
use crate::price::Prices;
use crate::search::{Question, begin, find};
use crate::table::Table;
use crate::tree::{Source, Tree};
use crate::walk_back::way_to;
use leg_lib_records::Items;
use std::alloc::{AllocError, Allocator};

/// Walks that join all groups of the net, each the cheapest to the first of the other groups that it meets, at these prices. None
/// where a group cannot be reached, or where no more looks are left.
pub(crate) fn lay<A: Allocator + Copy, L: Lattice>(
    alloc: A,
    ground: &Ground<'_, A, L>,
    table: &mut Table<A>,
    net: &NetToJoin<A>,
    prices: Prices,
) -> Result<Option<Vec<Items<u32, A>, A>>, AllocError>
    requires size { table.old ≡ L.size_of ground.now.lattice.now }
    requires groups { AreSlotLists (L.size_of ground.now.lattice.now) net.now.groups.items }
    ensures same { table.new ≡ table.old }
    ensures walks { IfOk result (λ laid. IfSome laid (λ walks. AreSlotLists (L.size_of ground.now.lattice.now) walks.items)) }
{
    let Some(mut tree) = Tree::new(alloc, ground, &net.groups)? else {
        return Ok(None);
    };
    let is_joined = join_all(alloc, ground, table, net, prices, &mut tree)?;
    set_ends(table, &net.groups, false);
    Ok(if is_joined {
        Some(tree.into_walks())
    } else {
        None
    })
}

/// Joins the groups of the net, and says whether all are joined.
fn join_all<A: Allocator + Copy, L: Lattice>(
    alloc: A,
    ground: &Ground<'_, A, L>,
    table: &mut Table<A>,
    net: &NetToJoin<A>,
    prices: Prices,
    tree: &mut Tree<A>,
) -> Result<bool, AllocError>
    requires size { table.old ≡ L.size_of ground.now.lattice.now }
    requires groups { AreSlotLists (L.size_of ground.now.lattice.now) net.now.groups.items }
    requires tree { IsTreeOf (L.size_of ground.now.lattice.now) (length net.now.groups.items) tree.old }
    ensures same { table.new ≡ table.old }
    ensures tree { OnOk result (IsTreeOf (L.size_of ground.now.lattice.now) (length net.now.groups.items) tree.new) }
{
    if !net.groups.is_empty() {
        join(ground, &net.groups, 0, tree)?;
    }
    for _ in 0..net.groups.len() {
        let Some(ends) = tree.aim() else {
            return Ok(true);
        };
        set_waiting_ends(table, &net.groups, tree);
        let question = Question {
            net: net.net,
            prices,
            ends,
        };
        let Some(way) = next_way(alloc, ground, table, &question, tree.sources())? else {
            return Ok(false);
        };
        use_way(ground, table, &net.groups, &way, tree)?;
        tree.push_walk(way)?;
    }
    Ok(tree.aim().is_none())
}

/// The cheapest way from one of the sources to an end, if there is one and looks are left.
fn next_way<A: Allocator + Copy, L: Lattice>(
    alloc: A,
    ground: &Ground<'_, A, L>,
    table: &mut Table<A>,
    question: &Question,
    sources: &[Source],
) -> Result<Option<Vec<u32, A>>, AllocError>
    requires size { table.old ≡ L.size_of ground.now.lattice.now }
    requires sources { All (λ s. s.slot < L.size_of ground.now.lattice.now) sources.now }
    ensures same { table.new ≡ table.old }
    ensures way { IfOk result (λ found. IfSome found (λ way. AreSlots (L.size_of ground.now.lattice.now) way.items)) }
{
    for source in sources {
        begin(ground, table, question, *source)?;
    }
    let way = match find(ground, table, question)? {
        Some(end) => Some(way_to(alloc, ground, table, end)?),
        None => None,
    };
    table.forget();
    Ok(way)
}

/// Sets for all slots of the groups whether they are ends.
fn set_ends<A: Allocator>(table: &mut Table<A>, groups: &[Items<u32, A>], is_end: bool)
    requires { AreSlotLists table.old groups.now }
    ensures { table.new ≡ table.old }
{
    for group in groups {
        set_group_ends(table, group.as_slice(), is_end);
    }
}

/// Sets for these slots whether they are ends.
fn set_group_ends<A: Allocator>(table: &mut Table<A>, slots: &[u32], is_end: bool)
    requires { AreSlots table.old slots.now }
    ensures { table.new ≡ table.old }
{
    for slot in slots {
        table.set_end(*slot, is_end);
    }
}

/// Makes the slots of the groups ends that are not joined, and no others of the net. (A slot may be in several groups.)
fn set_waiting_ends<A: Allocator>(table: &mut Table<A>, groups: &[Items<u32, A>], tree: &Tree<A>)
    requires groups { AreSlotLists table.old groups.now }
    requires count { tree.now.groups ≡ length groups.now }
    ensures { table.new ≡ table.old }
{
    set_ends(table, groups, false);
    for k in 0..groups.len() {
        if tree.is_waiting(k) {
            set_group_ends(table, groups[k].as_slice(), true);
        }
    }
}

/// Joins the group of this number: walks may begin in its slots.
fn join<A: Allocator + Copy, L: Lattice>(
    ground: &Ground<'_, A, L>,
    groups: &[Items<u32, A>],
    k: usize,
    tree: &mut Tree<A>,
) -> Result<(), AllocError>
    requires there { k < length groups.now }
    requires groups { AreSlotLists (L.size_of ground.now.lattice.now) groups.now }
    requires tree { IsTreeOf (L.size_of ground.now.lattice.now) (length groups.now) tree.old }
    ensures { OnOk result (IsTreeOf (L.size_of ground.now.lattice.now) (length groups.now) tree.new) }
{
    tree.set_joined(k);
    add_sources(ground, groups[k].as_slice(), false, tree)
}

/// Walks may begin in these slots.
fn add_sources<A: Allocator + Copy, L: Lattice>(
    ground: &Ground<'_, A, L>,
    slots: &[u32],
    is_used: bool,
    tree: &mut Tree<A>,
) -> Result<(), AllocError>
    requires slots { AreSlots (L.size_of ground.now.lattice.now) slots.now }
    requires sources { AreSlots (L.size_of ground.now.lattice.now) tree.old.sources }
    ensures sources { OnOk result (AreSlots (L.size_of ground.now.lattice.now) tree.new.sources) }
    ensures groups { OnOk result (tree.new.groups ≡ tree.old.groups) }
    ensures walks { OnOk result (tree.new.walks ≡ tree.old.walks) }
{
    for slot in slots {
        let source = Source {
            slot: *slot,
            is_used,
        };
        tree.push_source(source, ground.place_at(*slot))?;
    }
    Ok(())
}

/// The net uses this way: it joins the groups whose slots it meets, and walks may begin in its slots.
fn use_way<A: Allocator + Copy, L: Lattice>(
    ground: &Ground<'_, A, L>,
    table: &Table<A>,
    groups: &[Items<u32, A>],
    way: &[u32],
    tree: &mut Tree<A>,
) -> Result<(), AllocError>
    requires size { table.now ≡ L.size_of ground.now.lattice.now }
    requires groups { AreSlotLists (L.size_of ground.now.lattice.now) groups.now }
    requires way { AreSlots (L.size_of ground.now.lattice.now) way.now }
    requires tree { IsTreeOf (L.size_of ground.now.lattice.now) (length groups.now) tree.old }
    ensures { OnOk result (IsTreeOf (L.size_of ground.now.lattice.now) (length groups.now) tree.new) }
{
    for slot in way {
        if table.is_end(*slot) {
            join_at(ground, groups, *slot, tree)?;
        }
    }
    add_sources(ground, way, true, tree)
}

/// Joins the groups that have this slot and are not joined yet.
fn join_at<A: Allocator + Copy, L: Lattice>(
    ground: &Ground<'_, A, L>,
    groups: &[Items<u32, A>],
    slot: u32,
    tree: &mut Tree<A>,
) -> Result<(), AllocError>
    requires groups { AreSlotLists (L.size_of ground.now.lattice.now) groups.now }
    requires tree { IsTreeOf (L.size_of ground.now.lattice.now) (length groups.now) tree.old }
    ensures { OnOk result (IsTreeOf (L.size_of ground.now.lattice.now) (length groups.now) tree.new) }
{
    for k in 0..groups.len() {
        if tree.is_waiting(k) && groups[k].as_slice().contains(&slot) {
            join(ground, groups, k, tree)?;
        }
    }
    Ok(())
}
