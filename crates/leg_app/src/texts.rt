//! What LEF and DEF texts denote together.

ghost use Rattle.std.specs.Prelude.{◌≡◌, map, IfOk, IfErr};
ghost use Rattle.leg_lib_records.specs.Records.{LibraryModel};
ghost use Rattle.leg_grammar.specs.Texts.{DenoteLibraryFor};
ghost use Rattle.leg_app.specs.Steps.OneLibrary.{DenoteNoLibrary};
ghost use Rattle.leg_app.specs.Refusal.{Refuses, HasUnitsOf};

use crate::text_fault::TextFault;
use leg_design::DefText;
use leg_grammar::Profile;
use leg_lex::ReadFault;
use leg_lib::{file_number, read_lefs_as};
use leg_lib_records::Library;
use std::alloc::Allocator;

/// The fault of a DEF, as the text that comes after this many LEFs.
pub(crate) fn behind_lefs(lefs: usize, fault: ReadFault) -> ReadFault
    ensures kind { result.kind ≡ fault.kind }
    ensures need { result.need ≡ fault.need }
{
    ReadFault {
        file: file_number(lefs),
        ..fault
    }
}

/// The library that the LEFs denote in a profile, at the DEF's own units, and the DEF with its words.
pub(crate) fn library_for<'a, 'd, A: Allocator + Copy>(
    alloc: A,
    profile: Profile,
    lefs: &[&'a [u8]],
    def: &'d [u8],
) -> Result<(Library<'a, A>, DefText<'d, A>), TextFault<'a>>
    ensures found { IfOk result (λ both. DenoteLibraryFor profile (map (λ t. t.now) lefs.now) def.now both.0) }
    // The texts denote no other library.
    ensures only { IfOk result (λ both. (said : LibraryModel)
        → DenoteLibraryFor profile (map (λ t. t.now) lefs.now) def.now said → said ≡ both.0) }
    ensures text { IfOk result (λ both. both.1 ≡ def.now) }
    ensures none { IfErr result (λ fault. Refuses (DenoteNoLibrary profile (map (λ t. t.now) lefs.now) def.now) ⊥ fault) }
    ensures units { IfErr result (λ fault. HasUnitsOf def.now fault) }
{
    let raw = read_lefs_as(alloc, profile, lefs)?;
    let text = match DefText::new(alloc, def) {
        Ok(text) => text,
        Err(fault) => return Err(TextFault::Read(behind_lefs(lefs.len(), fault))),
    };
    let n = match text.units() {
        Ok(n) => n,
        Err(fault) => return Err(TextFault::Read(behind_lefs(lefs.len(), fault))),
    };
    match raw.at(alloc, n) {
        Ok(library) => Ok((library, text)),
        Err(fault) => Err(TextFault::Scale(fault, n)),
    }
}
