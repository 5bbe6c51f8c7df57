//! Rows that the wide profile drops: those that are turned, or have more than one line of sites (LEF/DEF 5.8, "Rows"; lefdef's own
//! rule).

ghost use Rattle.std.specs.Prelude.{◌≡◌, IfOk, slice_get};
ghost use Rattle.leg_lex.specs.Number.{IsNumber};
ghost use Rattle.leg_lex.specs.Words.{Reads, Means};
ghost use Rattle.leg_grammar.specs.Def.Row.{head_of};
ghost use Rattle.leg_grammar.specs.Def.DroppedRow.{any_step_in, lines_in, dropped_site_in, dropped_row_at, is_of_site, have_site};

use crate::row::{is_upright, site};
use leg_design_common::placement::orient;
use leg_design_records::Component;
use leg_lex::{Cursor, FaultKind, Need, ReadFault, clauses};
use leg_lib_records::Library;
use std::alloc::Allocator;

/// Reads past the step from site to site, if it is written.
#[tactic(auto, unfolding(leg_grammar::specs::Def::DroppedRow::any_step_in))]
fn any_step(words: &mut Cursor<'_, '_>) -> Result<(), ReadFault>
    ensures { Means (λ x. x) result (any_step_in words.old) }
{
    if words.is_at_end() {
        return Ok(());
    }
    words.keyword(b"STEP")?;
    words.whole()?;
    words.whole()?;
    words.nothing_more()
}

/// How many lines of sites a row has: one, where it isn't written. Fewer lines or sites than one are `TooLarge`.
#[tactic(auto, using(leg_design_common::proofs::Numbers::whole_is_number), unfolding(leg_grammar::specs::Def::DroppedRow::lines_in))]
fn lines(words: &mut Cursor<'_, '_>) -> Result<i64, ReadFault>
    ensures said { Means (λ n. n) result (lines_in words.old) }
    ensures number { IfOk result (λ n. IsNumber n) }
{
    if words.is_at_end() {
        return Ok(1);
    }
    words.keyword(b"DO")?;
    let number = words.again();
    let count = words.whole()?;
    words.keyword(b"BY")?;
    let lines = words.again();
    let line_count = words.whole()?;
    if count < 1 {
        return Err(number.need(FaultKind::TooLarge, Need::AtLeast(1)));
    }
    if line_count < 1 {
        return Err(lines.need(FaultKind::TooLarge, Need::AtLeast(1)));
    }
    any_step(words)?;
    Ok(line_count)
}

/// The number of the site of a row that is turned or has more than one line. Another row is `BadRow`.
#[tactic(auto, unfolding(leg_grammar::specs::Def::DroppedRow::dropped_site_in))]
fn dropped_site<A: Allocator + Copy>(
    library: &Library<'_, A>,
    head: &mut Cursor<'_, '_>,
) -> Result<usize, ReadFault>
    ensures { Means (λ number. number) result (dropped_site_in library.now head.old) }
{
    head.keyword(b"ROW")?;
    head.name()?;
    let (number, _) = site(library, head)?;
    head.whole()?;
    head.whole()?;
    let turn = head.again();
    let orient = orient(head)?;
    let line_count = lines(head)?;
    if is_upright(orient) && line_count == 1 {
        return Err(turn.need(FaultKind::BadRow, Need::RowOrient));
    }
    Ok(number)
}

/// The same, of the head of the row's statement; the clauses are read past.
#[tactic(auto, using(crate::proofs::DroppedRows::no_head))]
fn dropped_site_of_head<A: Allocator + Copy>(
    library: &Library<'_, A>,
    statement: &Cursor<'_, '_>,
    clauses: &[Cursor<'_, '_>],
) -> Result<usize, ReadFault>
    ensures { Means (λ number. number) result (dropped_site_in library.now (head_of clauses.now)) }
{
    match clauses {
        [head, ..] => dropped_site(library, &mut head.again()),
        [] => Err(statement.fault(FaultKind::Unexpected)),
    }
}

/// A row that is turned or has more than one line, from `ROW` to its `;`: the number of its site. Another row is `BadRow`.
#[tactic(auto, unfolding(leg_grammar::specs::Def::DroppedRow::dropped_row_at))]
pub fn dropped_row<A: Allocator + Copy>(
    alloc: A,
    library: &Library<'_, A>,
    words: &mut Cursor<'_, '_>,
) -> Result<usize, ReadFault>
    ensures { Reads (λ number. number) result words.new (dropped_row_at library.now words.old) }
{
    let statement = words.statement()?;
    let clauses = clauses(alloc, &statement)?;
    dropped_site_of_head(library, &statement, &clauses)
}

/// Whether the macro of a component has this site.
fn is_of_site<A: Allocator + Copy>(
    library: &Library<'_, A>,
    site: usize,
    component: &Component<'_>,
) -> bool
    ensures { result ≡ is_of_site site (slice_get library.now.masters component.now.master) }
{
    match library.masters().get(component.master) {
        Some(master) => match master.site {
            Some(number) => number == site,
            None => false,
        },
        None => false,
    }
}

/// Whether the macro of one of the components has this site.
pub fn have_site<A: Allocator + Copy>(
    library: &Library<'_, A>,
    components: &[Component<'_>],
    site: usize,
) -> bool
    ensures { result ≡ have_site library.now components.now site }
{
    components
        .iter()
        .any(|component| is_of_site(library, site, component))
}
