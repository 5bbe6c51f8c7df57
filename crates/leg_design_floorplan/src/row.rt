//! Rows (LEF/DEF 5.8, "Rows").

ghost use Rattle.std.specs.Prelude.{◌≡◌, ◌+ℤ◌, ◌*ℤ◌, IfOk};
ghost use Rattle.leg_lex.specs.Number.{IsNumber};
ghost use Rattle.leg_lex.specs.Words.{Reads, Means};
ghost use Rattle.leg_grammar.specs.Def.Guard.{is_within};
ghost use Rattle.leg_design_records.specs.Rows.{is_upright};
ghost use Rattle.leg_grammar.specs.Def.Row.{site_named_at, step_in, sites_in, row_in, head_of, row_at};

use leg_design_common::placement::orient;
use leg_design_records::Row;
use leg_geom::{Orient, Point};
use leg_lex::{Cursor, FaultKind, NUMBER_LIMIT, Name, NameKind, Need, ReadFault, clauses};
use leg_lib_records::{Library, Site};
use std::alloc::Allocator;

/// Whether a row may have this orientation: it may be mirrored, but not turned.
pub(crate) fn is_upright(orient: Orient) -> bool
    ensures { result ≡ is_upright orient }
{
    matches!(orient, Orient::N | Orient::S | Orient::FN | Orient::FS)
}

/// Whether the number that lies `steps` steps from the start is within the limit of numbers.
pub(crate) fn ends_within(start: i64, steps: i64, step: i64) -> bool
    requires start { IsNumber start }
    requires steps { IsNumber steps }
    requires step { IsNumber step }
    ensures { result ≡ is_within (start +ℤ steps *ℤ step) }
{
    let end = start + steps * step;
    end.unsigned_abs() <= NUMBER_LIMIT
}

/// The number of a site, and the site. A name that no site of the library has is `UnknownName`.
#[tactic(auto, using(crate::proofs::Rows::site_within, crate::proofs::Rows::site_read), unfolding(leg_grammar::specs::Def::Row::site_named_at))]
pub(crate) fn site<'l, 'a, A: Allocator + Copy>(
    library: &'l Library<'a, A>,
    words: &mut Cursor<'_, '_>,
) -> Result<(usize, &'l Site<'a>), ReadFault>
    ensures { Reads (λ s. (s.0, s.1.now)) result words.new (site_named_at library.now words.old) }
{
    let first = words.again();
    let name = words.name()?;
    match library.site_named(name) {
        Some(number) => Ok((number, &library.sites()[number])),
        None => Err(first.need(FaultKind::UnknownName, Need::Known(NameKind::Site))),
    }
}

/// The step from site to site, if it is written. Where there is more than one site, an x other than the site's width is
/// `BadRow`.
#[tactic(auto, unfolding(leg_grammar::specs::Def::Row::step_in))]
fn step(width: i64, count: i64, words: &mut Cursor<'_, '_>) -> Result<(), ReadFault>
    ensures { Means (λ x. x) result (step_in width count words.old) }
{
    if words.is_at_end() {
        return Ok(());
    }
    words.keyword(b"STEP")?;
    let first = words.again();
    let x = words.whole()?;
    words.whole()?;
    words.nothing_more()?;
    if count == 1 || x == width {
        Ok(())
    } else {
        Err(first.need(FaultKind::BadRow, Need::SiteStep(width)))
    }
}

/// How many sites a row has: one, where it isn't written. Fewer are `TooLarge`, and more than one line of them
/// `BadRow`.
#[tactic(auto, using(leg_design_common::proofs::Numbers::whole_is_number), unfolding(leg_grammar::specs::Def::Row::sites_in))]
fn sites(width: i64, words: &mut Cursor<'_, '_>) -> Result<i64, ReadFault>
    ensures said { Means (λ n. n) result (sites_in width words.old) }
    ensures number { IfOk result (λ n. IsNumber n) }
{
    if words.is_at_end() {
        return Ok(1);
    }
    words.keyword(b"DO")?;
    let number = words.again();
    let count = words.whole()?;
    words.keyword(b"BY")?;
    let lines = words.again();
    let line_count = words.whole()?;
    if count < 1 {
        return Err(number.need(FaultKind::TooLarge, Need::AtLeast(1)));
    }
    if line_count != 1 {
        return Err(lines.need(FaultKind::BadRow, Need::OneLine));
    }
    step(width, count, words)?;
    Ok(count)
}

/// A row, of the words before its first `+`. An orientation that turns it is `BadRow`, and a right end beyond the
/// limit of numbers `TooLarge`.
#[tactic(auto, using(leg_design_common::proofs::Numbers::whole_is_number, leg_design_common::proofs::Numbers::whole_is_coordinate), unfolding(leg_grammar::specs::Def::Row::row_in))]
fn row_of<'a, A: Allocator + Copy>(
    library: &Library<'_, A>,
    head: &mut Cursor<'_, 'a>,
) -> Result<Row<'a>, ReadFault>
    ensures { Means (λ r. r) result (row_in library.now head.old) }
{
    head.keyword(b"ROW")?;
    let name = head.name()?;
    let (number, site) = site(library, head)?;
    let corner = head.again();
    let x = head.whole()?;
    let y = head.whole()?;
    // Numbers are within the limit of coordinates.
    let at = Point::new(x, y).unwrap();
    let turn = head.again();
    let orient = orient(head)?;
    if !is_upright(orient) {
        return Err(turn.need(FaultKind::BadRow, Need::RowOrient));
    }
    let width = site.size.width();
    let count = sites(width, head)?;
    if !ends_within(x, count, width) {
        return Err(corner.need(FaultKind::TooLarge, Need::EndInRange));
    }
    Ok(Row {
        name: Name::new(name),
        site: number,
        at,
        orient,
        count,
    })
}

/// A row of the head of its statement; the clauses are read past.
#[tactic(auto, using(crate::proofs::Rows::no_head))]
fn row_of_head<'a, A: Allocator + Copy>(
    library: &Library<'_, A>,
    statement: &Cursor<'_, 'a>,
    clauses: &[Cursor<'_, 'a>],
) -> Result<Row<'a>, ReadFault>
    ensures { Means (λ r. r) result (row_in library.now (head_of clauses.now)) }
{
    match clauses {
        [head, ..] => row_of(library, &mut head.again()),
        [] => Err(statement.fault(FaultKind::Unexpected)),
    }
}

/// A row, from `ROW` to its `;`. One that isn't a single line of abutting sites is `BadRow`, as is a turned one.
#[tactic(auto, unfolding(leg_grammar::specs::Def::Row::row_at))]
pub fn row<'a, A: Allocator + Copy>(
    alloc: A,
    library: &Library<'_, A>,
    words: &mut Cursor<'_, 'a>,
) -> Result<Row<'a>, ReadFault>
    ensures { Reads (λ r. r) result words.new (row_at library.now words.old) }
{
    let statement = words.statement()?;
    let clauses = clauses(alloc, &statement)?;
    row_of_head(library, &statement, &clauses)
}
