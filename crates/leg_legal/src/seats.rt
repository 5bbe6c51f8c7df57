//! The best place of a component where some boxes are in the way.

ghost use Rattle.std.specs.Prelude.{◌≡◌, ℕ, pos, ◌/◌, ◌≤ℤ◌, ◌+ℤ◌, ◌*ℤ◌, List, unsigned_abs, IfSome};
ghost use Rattle.leg_lex.specs.Number.{IsNumber};
ghost use Rattle.leg_geom.specs.Plane.{RectModel};
ghost use Rattle.leg_lib_records.specs.Measure.{IsExtent};
ghost use Rattle.leg_design_records.specs.WellFormedParts.{IsPosition};
ghost use Rattle.leg_legal_sites.specs.Steps.FreeLists.{AreFreeLists};
ghost use Rattle.leg_design_records.specs.Movable.{IsMovable};
ghost use Rattle.leg_rules.specs.Legalise.Places.{orient_if_placed, Takes};
ghost use Rattle.leg_rules.specs.Legalise.Refusals.{IsUnsuited};
ghost use Rattle.leg_legal.specs.Steps.Seats.{IsWantedOf, IsBestPlace, AreToBeAsked};

use crate::turns::start_of;
use leg_design_records::{Design, Row};
use leg_geom::{Orient, Place, Point};
use leg_legal_sites::{Candidate, FreeRows, Wanted, fits};
use leg_lib_records::{Extent, Master};
use std::alloc::Allocator;

/// The orientation that a component has, if it is placed.
fn orient_of(place: &Option<Place>) -> Option<Orient>
    ensures { result ≡ orient_if_placed place.now }
{
    match place {
        Some(place) => Some(place.orient),
        None => None,
    }
}

/// What a component of this macro asks that starts from this point and has this place, where its site is of this size.
fn wanted_with<A: Allocator>(
    start: Point,
    place: &Option<Place>,
    master: &Master<'_, A>,
    number: usize,
    site: &Extent,
) -> Wanted
    ensures is { result ≡ record {
      start = start;
      site = number;
      site_width = site.now.width;
      many = unsigned_abs master.now.size.width / unsigned_abs site.now.width;
      orient = orient_if_placed place.now;
      y_symmetric = master.now.y_symmetric;
    } }
    ensures area { IsExtent site.now }
    ensures has_area { IsExtent master.now.size }
{
    Wanted {
        start,
        site: number,
        site_width: site.width(),
        many: master.size.width().unsigned_abs() / site.width().unsigned_abs(),
        orient: orient_of(place),
        y_symmetric: master.y_symmetric,
    }
}

/// What a movable component whose macro fits some row asks.
pub(crate) fn wanted_of<A: Allocator + Copy>(design: &Design<'_, A>, number: usize) -> Wanted
    requires movable { IsMovable design.now number }
    requires suited { ¬ IsUnsuited design.now number }
    ensures { IsWantedOf design.now number result }
{
    let component = &design.components()[number];
    let master = &design.library().masters()[component.master];
    let site_number = master.site.unwrap();
    let site = &design.library().sites()[site_number];
    wanted_with(
        start_of(design, &component.place),
        &component.place,
        master,
        site_number,
        &site.size,
    )
}

/// The x at which the first site of the position begins.
fn site_x(row: &Row<'_>, wanted: &Wanted, found: &Candidate) -> i64
    requires wide { pos 1 ≤ℤ wanted.now.site_width }
    requires within { IsNumber (row.now.at.x +ℤ pos found.now.first *ℤ wanted.now.site_width) }
    ensures { result ≡ row.now.at.x +ℤ pos found.now.first *ℤ wanted.now.site_width }
{
    row.at.x() + (found.first * wanted.site_width.unsigned_abs()) as i64
}

/// The orientation that the component gets in a row of this one.
fn orient_in(row: Orient, wanted: &Wanted) -> Orient
    ensures { Takes row wanted.now.y_symmetric wanted.now.orient result }
{
    let Some(old) = wanted.orient else {
        return row;
    };
    if fits(row, old, wanted.y_symmetric) {
        old
    } else {
        row
    }
}

/// The place that the component gets at a position of this row.
fn place_in(row: &Row<'_>, wanted: &Wanted, found: &Candidate) -> Place
    requires wide { pos 1 ≤ℤ wanted.now.site_width }
    requires within { IsNumber (row.now.at.x +ℤ pos found.now.first *ℤ wanted.now.site_width) }
    ensures at { result.at ≡ record { x = row.now.at.x +ℤ pos found.now.first *ℤ wanted.now.site_width; y = row.now.at.y } }
    ensures takes { Takes row.now.orient wanted.now.y_symmetric wanted.now.orient result.orient }
{
    Place {
        at: Point::new(site_x(row, wanted, found), row.at.y()).unwrap(),
        orient: orient_in(row.orient, wanted),
    }
}

/// The best place of the component that asks this, or none where no position is free.
pub(crate) fn best_place<A: Allocator + Copy>(
    design: &Design<'_, A>,
    free: &FreeRows<A>,
    wanted: &Wanted,
) -> Option<Place>
    requires { AreToBeAsked design.now free.now wanted.now }
    ensures best { (c : ℕ) (boxes : List RectModel) → IsWantedOf design.now c wanted.now → AreFreeLists design.now boxes free.now
        → IsBestPlace design.now boxes c result }
    ensures position { IfSome result (λ place. IsPosition place.at) }
{
    let rows = design.rows();
    match free.best_position(design, wanted) {
        Some(found) => Some(place_in(&rows[found.row], wanted, &found)),
        None => None,
    }
}
