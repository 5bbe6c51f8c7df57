//! The lines of violations, of a wirelength and of texts that are refused.

ghost use Rattle.std.specs.Prelude.{◌≡◌, IfOk, option_map};
ghost use Rattle.leg_output.specs.Commands.Check.{kind_name, listing_text, refused_line, refused_text, scale_kind_name, scale_text, wirelength_text};

use leg_design_records::{Design, Fault};
use leg_flat::Flat;
use leg_lex::{FaultKind, ReadFault};
use leg_lib_records::{ScaleFault, ScaleKind};
use leg_print::print_faults;
use leg_print_words::{push_count, push_decimal};
use std::alloc::{AllocError, Allocator};

/// A line for each violation, and their number. The flat has the shapes and pieces that violations name.
pub fn listing_text<A: Allocator + Copy>(
    alloc: A,
    design: &Design<'_, A>,
    flat: Option<&Flat<A>>,
    violations: &[Fault],
) -> Result<Vec<u8, A>, AllocError>
    ensures { IfOk result (λ text. text.items ≡ listing_text design.now (option_map (λ flat. flat.now) flat.entry) violations.now) }
{
    let mut text = print_faults(alloc, design.library(), design, flat, violations)?;
    text.extend_from_slice(b"violations ")?;
    push_count(&mut text, violations.len() as u64)?;
    text.extend_from_slice(b"\n")?;
    Ok(text)
}

/// The line of a wirelength, in database units.
pub fn wirelength_text<A: Allocator + Copy>(alloc: A, length: i64) -> Result<Vec<u8, A>, AllocError>
    ensures { IfOk result (λ text. text.items ≡ wirelength_text length) }
{
    let mut text = Vec::from_slice(alloc, b"hpwl ")?;
    push_decimal(&mut text, length)?;
    text.extend_from_slice(b"\n")?;
    Ok(text)
}

/// The line for a text that isn't read.
pub fn refused_text<A: Allocator + Copy>(
    alloc: A,
    fault: &ReadFault,
) -> Result<Vec<u8, A>, AllocError>
    ensures { IfOk result (λ text. text.items ≡ refused_text fault.now) }
{
    refused_line(alloc, u64::from(fault.file), fault)
}

/// The line for a text of this number that isn't read.
pub fn refused_line<A: Allocator + Copy>(
    alloc: A,
    file: u64,
    fault: &ReadFault,
) -> Result<Vec<u8, A>, AllocError>
    ensures { IfOk result (λ text. text.items ≡ refused_line file fault.now.line fault.now.kind) }
{
    let mut text = Vec::from_slice(alloc, b"REFUSED ")?;
    push_count(&mut text, file)?;
    text.extend_from_slice(b" ")?;
    push_count(&mut text, u64::from(fault.line))?;
    text.extend_from_slice(b" ")?;
    text.extend_from_slice(kind_name(fault.kind))?;
    text.extend_from_slice(b"\n")?;
    Ok(text)
}

/// The line for a length that the DEF's units can't express.
pub fn scale_text<A: Allocator + Copy>(
    alloc: A,
    fault: &ScaleFault<'_>,
) -> Result<Vec<u8, A>, AllocError>
    ensures { IfOk result (λ text. text.items ≡ scale_text fault.now.name fault.now.kind) }
{
    let mut text = Vec::from_slice(alloc, b"SCALE ")?;
    text.extend_from_slice(fault.name.bytes())?;
    text.extend_from_slice(b" ")?;
    text.extend_from_slice(scale_kind_name(fault.kind))?;
    text.extend_from_slice(b"\n")?;
    Ok(text)
}

fn kind_name(kind: FaultKind) -> &'static [u8]
    ensures { result.now ≡ kind_name kind }
{
    match kind {
        FaultKind::UnclosedString => b"UnclosedString",
        FaultKind::UnexpectedEnd => b"UnexpectedEnd",
        FaultKind::Unexpected => b"Unexpected",
        FaultKind::BadNumber => b"BadNumber",
        FaultKind::TooLarge => b"TooLarge",
        FaultKind::EmptyRect => b"EmptyRect",
        FaultKind::UnknownName => b"UnknownName",
        FaultKind::DuplicateName => b"DuplicateName",
        FaultKind::Unsupported => b"Unsupported",
        FaultKind::Diagonal => b"Diagonal",
        FaultKind::ViaLayer => b"ViaLayer",
        FaultKind::PinTwice => b"PinTwice",
        FaultKind::TooMany => b"TooMany",
        FaultKind::BadRow => b"BadRow",
        FaultKind::BadVia => b"BadVia",
        FaultKind::OddWidth => b"OddWidth",
        FaultKind::Memory => b"Memory",
    }
}

fn scale_kind_name(kind: ScaleKind) -> &'static [u8]
    ensures { result.now ≡ scale_kind_name kind }
{
    match kind {
        ScaleKind::NotOnUnit => b"NotOnUnit",
        ScaleKind::TooLarge => b"TooLarge",
        ScaleKind::OddWidth => b"OddWidth",
        ScaleKind::Memory => b"Memory",
    }
}
