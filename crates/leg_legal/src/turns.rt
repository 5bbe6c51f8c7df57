//! The order in which movable components are taken.

ghost use Rattle.std.specs.Prelude.{◌≡◌, pos, ◌-ℤ◌, length, IfOk};
ghost use Rattle.leg_design_records.specs.Movable.{IsMovable};
ghost use Rattle.leg_rules.specs.Legalise.Start.{start_of};
ghost use Rattle.leg_legal.specs.Steps.TurnKeys.{IsTurnKeyOf, AreTurnKeysBelow, AreInOrder};

use leg_design_records::Design;
use leg_geom::{Place, Point};
use leg_lib_records::Extent;
use std::alloc::{AllocError, Allocator};

/// What movable components are ordered by: the wider macro first, then the lower x of the start, then file order.
#[derive(Clone, Copy, PartialEq, Eq, PartialOrd, Ord)]
pub(crate) struct TurnKey {
    /// 0 less the width of the macro.
    pub narrow: i64,
    /// The x from which the component starts.
    pub x: i64,
    /// The component, by number.
    pub number: u32,
}

/// From where a component with this place, or with none, is moved.
pub(crate) fn start_of<A: Allocator + Copy>(design: &Design<'_, A>, place: &Option<Place>) -> Point
    ensures { result ≡ start_of design.now.die place.now }
{
    match place {
        Some(place) => place.at,
        None => Point::new(design.die().x1(), design.die().y1()).unwrap(),
    }
}

/// The key of a component of this number whose macro is of this size, with this start.
fn key_of(size: &Extent, start: &Point, number: u32) -> TurnKey
    ensures { result ≡ record { narrow = pos 0 -ℤ size.now.width; x = start.now.x; number = number } }
{
    TurnKey {
        narrow: 0 - size.width(),
        x: start.x(),
        number,
    }
}

/// The key of a movable component.
fn turn_key<A: Allocator + Copy>(design: &Design<'_, A>, number: usize) -> TurnKey
    requires { IsMovable design.now number }
    ensures is { IsTurnKeyOf design.now result }
    ensures number { result.number ≡ number }
{
    let component = &design.components()[number];
    let master = &design.library().masters()[component.master];
    key_of(
        &master.size,
        &start_of(design, &component.place),
        number as u32,
    )
}

/// The keys of all movable components, in file order.
fn turn_keys<A: Allocator + Copy>(
    alloc: A,
    design: &Design<'_, A>,
) -> Result<Vec<TurnKey, A>, AllocError>
    ensures { IfOk result (λ keys. AreTurnKeysBelow design.now (length design.now.components) keys.items) }
{
    let mut keys = Vec::new(alloc);
    for i in 0..design.components().len() {
        if design.is_movable(i) {
            keys.push(turn_key(design, i))?;
        }
    }
    Ok(keys)
}

/// The same in the order in which the components are taken.
pub(crate) fn order_of_taking<A: Allocator + Copy>(
    alloc: A,
    design: &Design<'_, A>,
) -> Result<Vec<TurnKey, A>, AllocError>
    ensures { IfOk result (λ keys. AreInOrder design.now keys.items) }
{
    let mut keys = turn_keys(alloc, design)?;
    keys.sort_unstable();
    Ok(keys)
}
