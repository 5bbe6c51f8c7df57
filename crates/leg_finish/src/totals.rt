//! How long wires are together, and how many of them are vias.

ghost use Rattle.std.specs.Prelude.{◌≡◌, ◌+◌, ◌<◌, ◌≤◌, ◌*◌, ◌^◌, ◌-ℤ◌, length, sum_by, count_by, unsigned_abs};
ghost use Rattle.leg_geom.specs.declared.limits.TheConstants.{COORDINATE_LIMIT};
ghost use Rattle.leg_design_records.specs.declared.limits.TheConstants.{PART_LIMIT};
ghost use Rattle.leg_rules.specs.Finish.Wires.{wire_length, is_via};

use leg_design_records::Wire;
use leg_geom::Point;
use std::alloc::Allocator;

/// How far the points are apart along x and along y together.
fn distance(from: &Point, to: &Point) -> u64
    ensures is { result ≡ unsigned_abs (to.now.x -ℤ from.now.x) + unsigned_abs (to.now.y -ℤ from.now.y) }
    ensures within { result ≤ 4 * COORDINATE_LIMIT }
{
    to.x().abs_diff(from.x()) + to.y().abs_diff(from.y())
}

/// How long the wire is from its first point to its last, in database units.
fn wire_length(wire: &Wire) -> u64
    ensures is { result ≡ wire_length wire.now }
    ensures within { result ≤ 4 * COORDINATE_LIMIT }
{
    match wire {
        Wire::Segment { from, to, .. } => distance(from, to),
        Wire::ViaAt { .. } => 0,
        Wire::Patch { .. } => 0,
    }
}

/// Whether the wire is a via.
fn is_via(wire: &Wire) -> bool
    ensures { result ≡ is_via wire.now }
{
    matches!(wire, Wire::ViaAt { .. })
}

/// How long wires are together, in database units, and how many of them are vias.
#[derive(Clone, Copy, PartialEq, Eq, Debug)]
pub struct WireTotals {
    pub length: u64,
    pub vias: u64,
}

impl WireTotals {
    /// Those of these wires too.
    fn with(self, wires: &[Wire]) -> WireTotals
        requires length { self.length + length wires.now * (4 * COORDINATE_LIMIT) < 2 ^ 64 }
        requires vias { self.vias + length wires.now < 2 ^ 64 }
        ensures length { result.length ≡ self.length + sum_by wire_length wires.now }
        ensures vias { result.vias ≡ self.vias + count_by is_via wires.now }
        ensures short { result.length ≤ self.length + length wires.now * (4 * COORDINATE_LIMIT) }
        ensures few { result.vias ≤ self.vias + length wires.now }
    {
        let mut length = self.length;
        let mut vias = self.vias;
        for wire in wires {
            length += wire_length(wire);
            vias += u64::from(is_via(wire));
        }
        WireTotals { length, vias }
    }
}

/// The totals of the wires of all lists.
pub(crate) fn totals_of<A: Allocator>(lists: &[Vec<Wire, A>]) -> WireTotals
    requires { sum_by (λ wires. length wires.items) lists.now ≤ PART_LIMIT }
    ensures length { result.length ≡ sum_by (λ wires. sum_by wire_length wires.items) lists.now }
    ensures vias { result.vias ≡ sum_by (λ wires. count_by is_via wires.items) lists.now }
{
    let mut totals = WireTotals { length: 0, vias: 0 };
    for wires in lists {
        totals = totals.with(wires);
    }
    totals
}
