//! What differs between two entries of one name.

ghost use Rattle.std.specs.Prelude.{◌≡◌, ◌↔◌, ◌<◌, length, IsTrue, IfOk};
ghost use Rattle.leg_rules.specs.Compare.Sections.{names_of};
ghost use Rattle.leg_rules.specs.Compare.Differences.{DiffersAsVia, IsOtherStatus, DiffersAsComponent, DiffersAsPin, DiffersAsNet, HasChanged};

use crate::equal::{are_same_shapes, is_same_name, is_same_place};
use crate::lists::are_same_ports;
use crate::spelling::{are_same_terminals, go_on, grow};
use leg_design_records::{Component, Design, Net, Pin, Status, may_move};
use leg_lib_records::Via;
use leg_rules::{Change, Section};
use std::alloc::{AllocError, Allocator};

/// Whether the vias are the same.
fn is_same_via<A: Allocator>(a: &Via<'_, A>, b: &Via<'_, A>) -> bool
    ensures { IsTrue result ↔ (a.now ≡ b.now) }
{
    a.name == b.name
        && a.default_via == b.default_via
        && a.good == b.good
        && are_same_shapes(&a.shapes, &b.shapes)
}

/// Whether the vias differ so.
fn via_differs<A: Allocator>(change: Change, a: &Via<'_, A>, b: &Via<'_, A>) -> bool
    ensures { IsTrue result ↔ DiffersAsVia change a.now b.now }
{
    match change {
        Change::Shapes => !is_same_via(a, b),
        _ => false,
    }
}

/// Whether the statuses differ, and not just as `UNPLACED` and `PLACED` do.
fn is_other_status(a: Status, b: Status) -> bool
    ensures { IsTrue result ↔ IsOtherStatus a b }
{
    a != b && !(may_move(a) && may_move(b))
}

/// Whether the components differ so.
fn component_differs(change: Change, a: &Component<'_>, b: &Component<'_>) -> bool
    ensures { IsTrue result ↔ DiffersAsComponent change a.now b.now }
{
    match change {
        Change::Macro => a.master != b.master,
        Change::Status => is_other_status(a.status, b.status),
        Change::Place => !is_same_place(&a.place, &b.place),
        _ => false,
    }
}

/// Whether the pins differ so.
fn pin_differs<A: Allocator>(change: Change, a: &Pin<'_, A>, b: &Pin<'_, A>) -> bool
    ensures { IsTrue result ↔ DiffersAsPin change a.now b.now }
{
    match change {
        Change::NetName => !is_same_name(&a.net_name, &b.net_name),
        Change::Direction => !is_same_name(&a.direction, &b.direction),
        Change::Usage => !is_same_name(&a.usage, &b.usage),
        Change::Ports => !are_same_ports(a.ports.as_slice(), b.ports.as_slice()),
        _ => false,
    }
}

/// Whether the nets differ so, each spelled in its own design. It fails only when out of memory.
fn net_differs<A: Allocator + Copy>(
    alloc: A,
    first: &Design<'_, A>,
    second: &Design<'_, A>,
    change: Change,
    a: &Net<'_, A>,
    b: &Net<'_, A>,
) -> Result<bool, AllocError>
    ensures { IfOk result (λ differs. IsTrue differs ↔ DiffersAsNet first.now second.now change a.now b.now) }
{
    let differs = match change {
        Change::Usage => !is_same_name(&a.usage, &b.usage),
        Change::Terminals => {
            let (before, after) = (a.terminals.as_slice(), b.terminals.as_slice());
            !are_same_terminals(alloc, first, second, before, after)?
        }
        Change::LostWires => !go_on(first, second, a.wires.as_slice(), b.wires.as_slice()),
        Change::MoreWires => grow(first, second, a.wires.as_slice(), b.wires.as_slice()),
        _ => false,
    };
    Ok(differs)
}

/// Whether entry `i` of the first design and entry `j` of the second differ so. It fails only when out of memory.
pub(crate) fn has_changed<A: Allocator + Copy>(
    alloc: A,
    first: &Design<'_, A>,
    second: &Design<'_, A>,
    section: Section,
    change: Change,
    i: usize,
    j: usize,
) -> Result<bool, AllocError>
    requires in_first { i < length (names_of section first.now) }
    requires in_second { j < length (names_of section second.now) }
    ensures { IfOk result (λ differs. IsTrue differs ↔ HasChanged section change first.now second.now i j) }
{
    let differs = match section {
        Section::Vias => via_differs(change, &first.vias()[i], &second.vias()[j]),
        Section::Components => {
            component_differs(change, &first.components()[i], &second.components()[j])
        }
        Section::Pins => pin_differs(change, &first.pins()[i], &second.pins()[j]),
        Section::SpecialNets => {
            let (a, b) = (&first.special()[i], &second.special()[j]);
            net_differs(alloc, first, second, change, a, b)?
        }
        Section::Nets => {
            let (a, b) = (&first.nets()[i], &second.nets()[j]);
            net_differs(alloc, first, second, change, a, b)?
        }
    };
    Ok(differs)
}
