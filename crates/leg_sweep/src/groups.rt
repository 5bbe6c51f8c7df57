//! How rectangles are grouped.

ghost use Rattle.std.specs.Prelude.{◌≡◌, ◌<◌, ◌≤◌, ◌+◌, ◌-◌, ◌^◌, length, map, drop, All, IfOk};
ghost use Rattle.std.specs.List.{range_with_len};
ghost use Rattle.leg_sweep.specs.Steps.Bounds.{IsWithin};
ghost use Rattle.leg_sweep.specs.Steps.Nodes.{AreGrouped, IsGrouped, AreNodesFrom, AreNodesOf};

use crate::bounds::Bounds;
use crate::curve::curve_key;
use crate::node::{Content, Node};
use leg_geom::Rect;
use std::alloc::{AllocError, Allocator};

/// How many rectangles a group has that has no groups in it.
const LEAST_GROUP: usize = 8;

/// Nodes for the rectangles from this number on.
pub(crate) fn grouped<A: Allocator + Copy>(
    alloc: A,
    rects: &[Rect],
    first: usize,
) -> Result<Vec<Node, A>, AllocError>
    requires few { length rects.now < 2 ^ 32 }
    requires there { first ≤ length rects.now }
    ensures { IfOk result (λ nodes. AreNodesFrom rects.now first nodes.items) }
{
    let keys = keys_from(alloc, rects, first)?;
    nodes_of(alloc, rects, keys)
}

/// Nodes for the rectangles that have these keys.
pub(crate) fn nodes_of<A: Allocator + Copy>(
    alloc: A,
    rects: &[Rect],
    keys: Vec<(u64, u32), A>,
) -> Result<Vec<Node, A>, AllocError>
    requires { All (λ key. key.1 < length rects.now) keys.items }
    ensures { IfOk result (λ nodes. AreNodesOf rects.now (map (λ key. key.1) keys.items) nodes.items) }
{
    let mut keys = keys;
    keys.sort_unstable();
    let groups = keys.len().div_ceil(LEAST_GROUP);
    let mut nodes = Vec::with_capacity(alloc, keys.len() + 2 * groups + 1)?;
    push_group(rects, &keys, &mut nodes)?;
    Ok(nodes)
}

/// The keys of the rectangles from this number on, each with its number.
fn keys_from<A: Allocator>(
    alloc: A,
    rects: &[Rect],
    first: usize,
) -> Result<Vec<(u64, u32), A>, AllocError>
    requires few { length rects.now < 2 ^ 32 }
    requires there { first ≤ length rects.now }
    ensures { IfOk result (λ keys. map (λ key. key.1) keys.items ≡ range_with_len first (length rects.now - first)) }
{
    let mut keys = Vec::with_capacity(alloc, rects.len() - first)?;
    for number in first..rects.len() {
        keys.push((curve_key(&rects[number]), number as u32))?;
    }
    Ok(keys)
}

/// Adds a group of the rectangles with these numbers: a node, and after it those of its members. More rectangles than a
/// least group has are cut into two groups. It answers what encloses them.
fn push_group<A: Allocator>(
    rects: &[Rect],
    keys: &[(u64, u32)],
    nodes: &mut Vec<Node, A>,
) -> Result<Bounds, AllocError>
    requires { All (λ key. key.1 < length rects.now) keys.now }
    ensures { IfOk result (λ bounds. AreGrouped rects.now (map (λ key. key.1) keys.now) bounds nodes.old.items nodes.new.items) }
{
    let at = nodes.len();
    nodes.push(empty_group())?;
    if keys.len() <= LEAST_GROUP {
        let bounds = push_rects(rects, keys, nodes)?;
        close_group(nodes, at, bounds);
        return Ok(bounds);
    }
    let (front, back) = keys.split_at(keys.len().div_ceil(LEAST_GROUP) / 2 * LEAST_GROUP);
    let first = push_group(rects, front, nodes)?;
    let second = push_group(rects, back, nodes)?;
    let bounds = first.joined(&second);
    close_group(nodes, at, bounds);
    Ok(bounds)
}

/// A group without members.
fn empty_group() -> Node {
    Node {
        bounds: Bounds::of_nothing(),
        content: Content::Group(0),
    }
}

/// Makes the node at this place one for a group of all that follow it.
fn close_group(nodes: &mut [Node], at: usize, bounds: Bounds)
    requires there { at < length nodes.old }
    requires within { All (λ node. IsWithin node.bounds bounds) (drop (at + 1) nodes.old) }
    ensures { IsGrouped bounds at nodes.old nodes.new }
{
    let members = (nodes.len() - at - 1).min(u32::MAX as usize) as u32;
    nodes[at] = Node {
        bounds,
        content: Content::Group(members),
    };
}

/// Adds the rectangles with these numbers, and answers what encloses them.
fn push_rects<A: Allocator>(
    rects: &[Rect],
    keys: &[(u64, u32)],
    nodes: &mut Vec<Node, A>,
) -> Result<Bounds, AllocError>
    requires { All (λ key. key.1 < length rects.now) keys.now }
    ensures { IfOk result (λ bounds. AreGrouped rects.now (map (λ key. key.1) keys.now) bounds nodes.old.items nodes.new.items) }
{
    let mut bounds = Bounds::of_nothing();
    for key in keys {
        let node = Node {
            bounds: Bounds::around(&rects[key.1 as usize], 0),
            content: Content::Rect(key.1),
        };
        bounds = bounds.joined(&node.bounds);
        nodes.push(node)?;
    }
    Ok(bounds)
}
