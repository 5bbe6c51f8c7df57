//! Movable components whose macro fits no row.

ghost use Rattle.std.specs.Prelude.{◌↔◌, IsTrue, MatchOption, IfOk};
ghost use Rattle.leg_legal.specs.Steps.SiteMarks.{AreSiteMarks};
ghost use Rattle.leg_rules.specs.Legalise.Refusals.{FitsSites, HasRowFor, IsUnsuited, IsLeastUnsuited, AreSuited};

use leg_design_records::Design;
use leg_lib_records::Extent;
use std::alloc::{AllocError, Allocator};

/// Whether a macro of this size is as high as a site, and as wide as a number of them.
fn fits_sites(site: &Extent, size: &Extent) -> bool
    ensures { IsTrue result ↔ FitsSites site.now size.now }
{
    if size.height() != site.height() {
        return false;
    }
    size.width().unsigned_abs() % site.width().unsigned_abs() == 0
}

/// A mark for each site of the library: whether a row has it. It fails only when out of memory.
fn marks_of_sites<A: Allocator + Copy>(
    alloc: A,
    design: &Design<'_, A>,
) -> Result<Vec<bool, A>, AllocError>
    ensures { IfOk result (λ marks. AreSiteMarks design.now marks.items) }
{
    let mut marks = Vec::from_elem(alloc, false, design.library().sites().len())?;
    for row in design.rows() {
        marks[row.site] = true;
    }
    Ok(marks)
}

/// Whether a macro of this size, of the site of this number, fits some row.
fn has_row_for<A: Allocator + Copy>(
    design: &Design<'_, A>,
    marks: &[bool],
    size: &Extent,
    number: usize,
) -> bool
    requires { AreSiteMarks design.now marks.now }
    ensures { IsTrue result ↔ HasRowFor design.now size.now number }
{
    if number >= design.library().sites().len() {
        return false;
    }
    let site = &design.library().sites()[number];
    if !fits_sites(&site.size, size) {
        return false;
    }
    marks[number]
}

/// Whether the component is movable, and its macro fits no row.
fn is_unsuited<A: Allocator + Copy>(design: &Design<'_, A>, marks: &[bool], number: usize) -> bool
    requires { AreSiteMarks design.now marks.now }
    ensures { IsTrue result ↔ IsUnsuited design.now number }
{
    if !design.is_movable(number) {
        return false;
    }
    let component = &design.components()[number];
    let master = &design.library().masters()[component.master];
    match master.site {
        Some(site) => !has_row_for(design, marks, &master.size, site),
        None => false,
    }
}

/// The first movable component whose macro fits no row, by the marks of the sites that rows have.
fn first_unsuited<A: Allocator + Copy>(design: &Design<'_, A>, marks: &[bool]) -> Option<u32>
    requires { AreSiteMarks design.now marks.now }
    ensures { MatchOption result (AreSuited design.now) (IsLeastUnsuited design.now) }
{
    for i in 0..design.components().len() {
        if is_unsuited(design, marks, i) {
            return Some(i as u32);
        }
    }
    None
}

/// The first movable component whose macro fits no row, if there is one. It fails only when out of memory.
pub(crate) fn least_unsuited<A: Allocator + Copy>(
    alloc: A,
    design: &Design<'_, A>,
) -> Result<Option<u32>, AllocError>
    ensures { IfOk result (λ least. MatchOption least (AreSuited design.now) (IsLeastUnsuited design.now)) }
{
    let marks = marks_of_sites(alloc, design)?;
    Ok(first_unsuited(design, marks.as_slice()))
}
