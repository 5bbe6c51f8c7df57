//! Macros (LEF/DEF 5.8, "Macro").

ghost use Rattle.std.specs.Prelude.{◌≡◌, OnErr, codes, if◌then◌else◌, Some, None};
ghost use Rattle.std.specs.List.{list_any, list_all};
ghost use Rattle.leg_lex.specs.Words.{Reads, Means, is_word, is_keyword};
ghost use Rattle.leg_lex.specs.Statements.{only};
ghost use Rattle.leg_grammar.specs.Lef.Macro.{origin_in, origin_of_any, symmetry_in, symmetry_of_any, site_in, site_of_any, macro_said, macro_at, with_master};

use crate::macro_part::MacroParts;
use crate::named::second_definition;
use crate::point;
use leg_grammar::{MacroStatements, Profile};
use leg_lex::{Cursor, FaultKind, Micron, Name, NameKind, Need, ReadFault, is_keyword, only, the};
use leg_lib_records::{Items, RawExtent, RawLibrary, RawMaster, RawPoint};
use std::alloc::Allocator;

/// The point of an `ORIGIN` statement.
#[tactic(auto, unfolding(leg_grammar::specs::Lef::Macro::origin_in))]
fn origin(statement: &mut Cursor<'_, '_>) -> Result<RawPoint, ReadFault>
    ensures { Means (λ p. p) result (origin_in statement.old) }
{
    statement.keyword(b"ORIGIN")?;
    let point = point::point(statement)?;
    statement.nothing_more()?;
    Ok(point)
}

/// The same of a statement that may be missing: 0 0.
fn origin_of_any(statement: Option<Cursor<'_, '_>>) -> Result<RawPoint, ReadFault>
    ensures { Means (λ p. p) result (origin_of_any statement.entry) }
{
    match statement {
        Some(mut statement) => origin(&mut statement),
        None => Ok(RawPoint::new(Micron::zero(), Micron::zero())),
    }
}

/// Whether `Y` is among these words, each a name or a quoted word.
#[tactic(auto, using(crate::proofs::MacroForms::symmetry_ends, crate::proofs::MacroForms::symmetry_on, crate::proofs::MacroForms::symmetry_fails, crate::proofs::DrawnShapes::word_shorter))]
fn has_y(words: &mut Cursor<'_, '_>) -> Result<bool, ReadFault>
    ensures { Means (λ y. y) result (if list_all is_word words.old then Some (list_any (is_keyword (codes "Y")) words.old) else None) }
{
    let mut found = false;
    'words: while !words.is_at_end() {
        let word = words.word()?;
        found |= is_keyword(b"Y", word);
    }
    Ok(found)
}

/// Whether `Y` is among the words of a `SYMMETRY` statement.
#[tactic(auto, using(crate::proofs::MacroForms::symmetry_said), unfolding(leg_grammar::specs::Lef::Macro::symmetry_in))]
fn symmetry(statement: &mut Cursor<'_, '_>) -> Result<bool, ReadFault>
    ensures { Means (λ y. y) result (symmetry_in statement.old) }
{
    statement.keyword(b"SYMMETRY")?;
    let mut all = statement.again();
    statement.word()?;
    let with_y = has_y(&mut all)?;
    Ok(with_y)
}

/// The same of a statement that may be missing: no.
fn symmetry_of_any(statement: Option<Cursor<'_, '_>>) -> Result<bool, ReadFault>
    ensures { Means (λ y. y) result (symmetry_of_any statement.entry) }
{
    match statement {
        Some(mut statement) => symmetry(&mut statement),
        None => Ok(false),
    }
}

/// The `SITE` statement, if there is one. Macros of several sites are `Unsupported`.
fn site_statement<'t, 'a>(
    statements: &[Cursor<'t, 'a>],
) -> Result<Option<Cursor<'t, 'a>>, ReadFault>
    ensures { Means (λ found. found) result (only (codes "SITE") statements.now) }
{
    match only(statements, b"SITE") {
        Err(fault) if fault.kind == FaultKind::Unexpected => {
            Err(fault.of_kind(FaultKind::Unsupported))
        }
        found => found,
    }
}

/// The number of the site that a `SITE` statement names.
#[tactic(auto, unfolding(leg_grammar::specs::Lef::Macro::site_in, leg_lex::specs::Words::nothing_at))]
fn site<A: Allocator + Copy>(
    library: &RawLibrary<'_, A>,
    statement: &mut Cursor<'_, '_>,
) -> Result<usize, ReadFault>
    ensures { Means (λ k. k) result (site_in library.now statement.old) }
{
    statement.keyword(b"SITE")?;
    let named = statement.again();
    let name = statement.name()?;
    let Some(number) = library.site_named(name) else {
        return Err(named.need(FaultKind::UnknownName, Need::Known(NameKind::Site)));
    };
    if !statement.is_at_end() {
        return Err(statement.need(FaultKind::Unsupported, Need::PlainSite));
    }
    Ok(number)
}

/// The same of a statement that may be missing.
fn site_of_any<A: Allocator + Copy>(
    library: &RawLibrary<'_, A>,
    statement: Option<Cursor<'_, '_>>,
) -> Result<Option<usize>, ReadFault>
    ensures { Means (λ k. k) result (site_of_any library.now statement.entry) }
{
    match statement {
        Some(mut statement) => Ok(Some(site(library, &mut statement)?)),
        None => Ok(None),
    }
}

/// What these statements, which come before the words, give for a macro.
#[tactic(auto, unfolding(leg_grammar::specs::Lef::Macro::macro_said))]
fn macro_said<A: Allocator + Copy>(
    library: &RawLibrary<'_, A>,
    statements: &[Cursor<'_, '_>],
    words: &Cursor<'_, '_>,
) -> Result<MacroStatements, ReadFault>
    ensures { Means (λ said. said) result (macro_said library.now statements.now) }
{
    let mut of_size = the(statements, b"SIZE", words)?;
    let size = point::size(&mut of_size)?;
    let origin = origin_of_any(only(statements, b"ORIGIN")?)?;
    let y_symmetric = symmetry_of_any(only(statements, b"SYMMETRY")?)?;
    let site = site_of_any(library, site_statement(statements)?)?;
    Ok(MacroStatements {
        size,
        origin,
        y_symmetric,
        site,
    })
}

/// A macro, from `MACRO` to its `END`.
#[tactic(auto, unfolding(leg_grammar::specs::Lef::Macro::macro_at))]
fn master<'a, A: Allocator + Copy>(
    alloc: A,
    profile: Profile,
    library: &RawLibrary<'a, A>,
    words: &mut Cursor<'_, 'a>,
) -> Result<RawMaster<'a, A>, ReadFault>
    ensures { Reads (λ m. m) result words.new (macro_at profile library.now words.old) }
{
    words.keyword(b"MACRO")?;
    let name = words.name()?;
    let mut parts = MacroParts::new(alloc);
    parts.macro_parts(alloc, profile, library, words)?;
    let said = macro_said(library, &parts.statements, words)?;
    words.end_of(name)?;
    Ok(RawMaster {
        name: Name::new(name),
        size: said.size,
        origin: said.origin,
        y_symmetric: said.y_symmetric,
        site: said.site,
        pins: Items::from_vec(parts.pins),
        obstructions: Items::from_vec(parts.obstructions),
    })
}

/// Adds the macro that comes next, whose name is new.
#[tactic(auto, unfolding(leg_grammar::specs::Lef::Macro::with_master))]
pub(crate) fn master_form<'a, A: Allocator + Copy>(
    alloc: A,
    profile: Profile,
    library: &mut RawLibrary<'a, A>,
    words: &mut Cursor<'_, 'a>,
) -> Result<(), ReadFault>
    ensures reads { Reads (λ _. library.new) result words.new (with_master profile library.old words.old) }
    // A refusal adds nothing.
    ensures unchanged { OnErr result (library.new ≡ library.old) }
{
    let first = words.again();
    // The vias of the library are on its layers.
    let _sound = library.layers();
    let master = master(alloc, profile, library, words)?;
    if library.master_named(master.name.bytes()).is_some() {
        return Err(second_definition(&first, NameKind::Macro));
    }
    library.push_master(master)?;
    Ok(())
}
