//! To which side one node lies of another.

ghost use Rattle.std.specs.Prelude.{◌≡◌, ◌↔◌, ◌<◌, IsTrue, length};
ghost use Rattle.leg_rules.specs.declared.side.Side.{Side};
ghost use Rattle.leg_rules.specs.Route.Spelling.{IsOnLayer};
ghost use Rattle.leg_route_access.specs.Steps.Towards.{LiesTowards, LiesDue, IsRunTowards};

use leg_route_search::Side;
use leg_rules::Node;

/// Whether steps to this side stay on their layer.
pub(crate) fn stays_on_layer(side: Side) -> bool
    ensures { IsTrue result ↔ IsOnLayer side }
{
    match side {
        Side::West => true,
        Side::East => true,
        Side::South => true,
        Side::North => true,
        Side::Below => false,
        Side::Above => false,
    }
}

/// Whether b lies further to this side than a.
fn lies_towards(side: Side, a: &Node, b: &Node) -> bool
    ensures { IsTrue result ↔ LiesTowards side a.now b.now }
{
    match side {
        Side::West => b.layer == a.layer && b.at.x() < a.at.x(),
        Side::East => b.layer == a.layer && a.at.x() < b.at.x(),
        Side::South => b.layer == a.layer && b.at.y() < a.at.y(),
        Side::North => b.layer == a.layer && a.at.y() < b.at.y(),
        Side::Below => b.layer < a.layer,
        Side::Above => a.layer < b.layer,
    }
}

/// The side to which b lies, if it lies straight to one of them.
pub(crate) fn side_of(a: &Node, b: &Node) -> Side
    ensures { (side : Side) → LiesDue side a.now b.now → result ≡ side }
{
    if a.layer < b.layer {
        Side::Above
    } else if b.layer < a.layer {
        Side::Below
    } else if a.at.x() < b.at.x() {
        Side::East
    } else if b.at.x() < a.at.x() {
        Side::West
    } else if a.at.y() < b.at.y() {
        Side::North
    } else {
        Side::South
    }
}

/// How many steps the walk goes to this side, to which its first step goes.
pub(crate) fn run_length(nodes: &[Node], side: Side) -> usize
    requires { 1 < length nodes.now }
    ensures some { 0 < result }
    ensures within { result < length nodes.now }
    ensures run { IsRunTowards side nodes.now result }
{
    for k in 1..nodes.len() - 1 {
        if !lies_towards(side, &nodes[k], &nodes[k + 1]) {
            return k;
        }
    }
    nodes.len() - 1
}
