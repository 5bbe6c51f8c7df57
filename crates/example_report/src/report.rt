//! What is reported of a block.

use crate::violations::{KINDS, count_of, misplaced};
use leg_app::{DefText, Design, Fault, Library, ReadFault, TextFault, check_design, read_lefs};
use std::alloc::{AllocError, Allocator};
use std::io::Write;

/// A report.
#[derive(Drop)]
pub struct Report<A: Allocator> {
    /// A line for each kind with the number of its violations, and a line for each component that is not legally placed.
    pub text: Vec<u8, A>,
    /// Whether the block has no violation at all.
    pub is_legal: bool,
}

/// The report on the block of a LEF and a DEF.
pub fn report_on<'a, A: Allocator + Copy>(
    alloc: A,
    lef: &'a [u8],
    def: &[u8],
) -> Result<Report<A>, TextFault<'a>> {
    let raw = read_lefs(alloc, &[lef])?;
    let text = DefText::new(alloc, def).map_err(in_def)?;
    let units = text.units().map_err(in_def)?;
    match raw.at(alloc, units) {
        Ok(library) => report_under(alloc, &library, text),
        Err(fault) => Err(TextFault::Scale(fault, units)),
    }
}

// The report on the block that the DEF denotes under the library.
fn report_under<'a, A: Allocator + Copy>(
    alloc: A,
    library: &Library<'_, A>,
    text: DefText<'_, A>,
) -> Result<Report<A>, TextFault<'a>> {
    match text.design(alloc, library) {
        Ok(design) => report_of(alloc, &design),
        Err(fault) => Err(TextFault::Read(in_def(fault))),
    }
}

// The report on the design.
fn report_of<'a, A: Allocator + Copy>(
    alloc: A,
    design: &Design<'_, A>,
) -> Result<Report<A>, TextFault<'a>> {
    let checked = check_design(alloc, design)?;
    Ok(Report {
        text: report_text(alloc, design, &checked.violations)?,
        is_legal: checked.violations.is_empty(),
    })
}

// The fault of the DEF, which is numbered after the LEF.
fn in_def(fault: ReadFault) -> ReadFault {
    ReadFault { file: 1, ..fault }
}

// The lines of the report.
fn report_text<A: Allocator + Copy>(
    alloc: A,
    design: &Design<'_, A>,
    violations: &[Fault],
) -> Result<Vec<u8, A>, AllocError> {
    let mut text = Vec::new(alloc);
    for kind in KINDS {
        let count = format!(in alloc; "{}", count_of(violations, kind))?;
        push_line(&mut text, kind.as_bytes(), count.as_bytes())?;
    }
    for number in &misplaced(alloc, violations)? {
        if let Some(component) = design.components().get(*number as usize) {
            push_line(&mut text, b"misplaced", component.name.bytes())?;
        }
    }
    Ok(text)
}

// Adds a line of two words.
fn push_line<A: Allocator>(
    text: &mut Vec<u8, A>,
    first: &[u8],
    second: &[u8],
) -> Result<(), AllocError> {
    text.extend_from_slice(first)?;
    text.push(b' ')?;
    text.extend_from_slice(second)?;
    text.push(b'\n')?;
    Ok(())
}
