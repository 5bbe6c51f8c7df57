//! Clauses of a generated via (LEF/DEF 5.8, "Vias", "Via").

ghost use Rattle.std.specs.Prelude.{◌≡◌, pos};
ghost use Rattle.std.specs.List.{list_any};
ghost use Rattle.leg_lex.specs.Words.{Reads, Means};
ghost use Rattle.leg_grammar.specs.Def.Guard.{unless};
ghost use Rattle.leg_grammar.specs.Def.GeneratedVia.{is_generated, is_drawn, after_keyword, via_number_at, pair_at, pair_from, pair_of, rule_in, via_reach_in, no_shift, via_offset_of, via_offset_in, via_origin_of, via_origin_in, line_count_at, rows_columns_of, rows_columns_in, cut_array_in, plates_in, via_between};

use leg_design_common::number::is_within;
use leg_geom::Point;
use leg_grammar::{CUT_LIMIT, CutArray, GeneratedVia, Plate, ViaLayers, ViaNumbers};
use leg_lex::{Cursor, FaultKind, Need, ReadFault, only, the};

/// Whether a via is generated: one of its clauses is `VIARULE`.
pub fn is_generated(clauses: &[Cursor<'_, '_>]) -> bool
    ensures { result ≡ is_generated clauses.now }
{
    clauses.iter().any(|clause| clause.is_at(b"VIARULE"))
}

/// Whether a clause is one of those that a generated via has not.
fn is_drawn(clause: &Cursor<'_, '_>) -> bool
    ensures { result ≡ is_drawn clause.now }
{
    clause.is_at(b"RECT")
        || clause.is_at(b"POLYGON")
        || clause.is_at(b"PATTERNNAME")
        || clause.is_at(b"MASK")
}

/// That no clause is one of those: such a clause is `Unsupported`.
#[tactic(auto, using(crate::proofs::DrawnClauses::one_more, crate::proofs::DrawnClauses::one_drawn, crate::proofs::DrawnClauses::none_drawn))]
pub fn none_drawn(clauses: &[Cursor<'_, '_>]) -> Result<(), ReadFault>
    ensures { Means (λ x. x) result (unless (list_any is_drawn clauses.now)) }
{
    for clause in clauses {
        if is_drawn(clause) {
            return Err(clause.fault(FaultKind::Unsupported));
        }
    }
    Ok(())
}

/// What stands behind the keyword of a clause. Where there is no such clause, or a second one, that is `Unexpected`.
#[tactic(auto, unfolding(leg_grammar::specs::Def::GeneratedVia::after_keyword))]
pub fn after_keyword<'t, 'a>(
    clauses: &[Cursor<'t, 'a>],
    keyword: &[u8],
    entry: &Cursor<'t, 'a>,
) -> Result<Cursor<'t, 'a>, ReadFault>
    ensures { Means (λ words. words) result (after_keyword keyword.now clauses.now) }
{
    let mut words = the(clauses, keyword, entry)?;
    words.keyword(keyword)?;
    Ok(words)
}

/// A length in millionths of a micron. One beyond the limit of numbers is `TooLarge`.
#[tactic(auto, unfolding(leg_grammar::specs::Def::GeneratedVia::via_number_at))]
fn millionths(words: &mut Cursor<'_, '_>) -> Result<i64, ReadFault>
    ensures { Reads (λ z. z) result words.new (via_number_at ViaNumbers.Microns words.old) }
{
    let first = words.again();
    let length = words.length()?.millionths();
    if is_within(length) {
        Ok(length)
    } else {
        Err(first.fault(FaultKind::TooLarge))
    }
}

/// A number, as these are written.
#[tactic(auto, unfolding(leg_grammar::specs::Def::GeneratedVia::via_number_at))]
fn number(numbers: ViaNumbers, words: &mut Cursor<'_, '_>) -> Result<i64, ReadFault>
    ensures { Reads (λ z. z) result words.new (via_number_at numbers words.old) }
{
    match numbers {
        ViaNumbers::Units => words.whole(),
        ViaNumbers::Microns => millionths(words),
    }
}

/// Two numbers.
#[tactic(auto, using(crate::proofs::ViaPairs::number_is_coordinate), unfolding(leg_grammar::specs::Def::GeneratedVia::pair_at))]
fn pair(numbers: ViaNumbers, words: &mut Cursor<'_, '_>) -> Result<Point, ReadFault>
    ensures { Reads (λ p. p) result words.new (pair_at numbers words.old) }
{
    let x = number(numbers, words)?;
    let y = number(numbers, words)?;
    // Numbers are within the limit of coordinates.
    let pair = Point::new(x, y).unwrap();
    Ok(pair)
}

/// Two numbers. One below the least is `TooLarge`.
#[tactic(auto, unfolding(leg_grammar::specs::Def::GeneratedVia::pair_from))]
fn pair_from(numbers: ViaNumbers, least: u8, words: &mut Cursor<'_, '_>) -> Result<Point, ReadFault>
    ensures { Reads (λ p. p) result words.new (pair_from numbers (pos least) words.old) }
{
    let first = words.again();
    let pair = pair(numbers, words)?;
    if i64::from(least) <= pair.x() && i64::from(least) <= pair.y() {
        Ok(pair)
    } else {
        Err(first.need(FaultKind::TooLarge, Need::AtLeast(u32::from(least))))
    }
}

/// The two numbers of a clause. One below the least is `TooLarge`.
#[tactic(auto, unfolding(leg_grammar::specs::Def::GeneratedVia::pair_of))]
fn pair_of(
    numbers: ViaNumbers,
    clauses: &[Cursor<'_, '_>],
    keyword: &[u8],
    least: u8,
    entry: &Cursor<'_, '_>,
) -> Result<Point, ReadFault>
    ensures { Means (λ p. p) result (pair_of numbers keyword.now (pos least) clauses.now) }
{
    let mut words = after_keyword(clauses, keyword, entry)?;
    let pair = pair_from(numbers, least, &mut words)?;
    words.nothing_more()?;
    Ok(pair)
}

/// The clause `VIARULE`, whose word isn't looked up.
#[tactic(auto, unfolding(leg_grammar::specs::Def::GeneratedVia::rule_in))]
pub fn rule(clauses: &[Cursor<'_, '_>], entry: &Cursor<'_, '_>) -> Result<(), ReadFault>
    ensures { Means (λ x. x) result (rule_in clauses.now) }
{
    let mut words = after_keyword(clauses, b"VIARULE", entry)?;
    words.word()?;
    words.nothing_more()
}

/// How far the plates reach beyond the cuts: the clause `ENCLOSURE`.
#[tactic(auto, unfolding(leg_grammar::specs::Def::GeneratedVia::via_reach_in))]
fn reach(
    numbers: ViaNumbers,
    clauses: &[Cursor<'_, '_>],
    entry: &Cursor<'_, '_>,
) -> Result<(Point, Point), ReadFault>
    ensures { Means (λ r. r) result (via_reach_in numbers clauses.now) }
{
    let mut words = after_keyword(clauses, b"ENCLOSURE", entry)?;
    let low = pair_from(numbers, 0, &mut words)?;
    let high = pair_from(numbers, 0, &mut words)?;
    words.nothing_more()?;
    Ok((low, high))
}

/// The point 0 0.
fn no_shift() -> Point
    ensures { result ≡ no_shift }
{
    Point::new(0, 0).unwrap()
}

/// By how much the plates are moved: a clause `OFFSET`, if there is one.
#[tactic(auto, unfolding(leg_grammar::specs::Def::GeneratedVia::via_offset_of))]
fn offset_of(
    numbers: ViaNumbers,
    clause: Option<Cursor<'_, '_>>,
) -> Result<(Point, Point), ReadFault>
    ensures { Means (λ o. o) result (via_offset_of numbers clause.entry) }
{
    let Some(mut words) = clause else {
        return Ok((no_shift(), no_shift()));
    };
    words.keyword(b"OFFSET")?;
    let low = pair(numbers, &mut words)?;
    let high = pair(numbers, &mut words)?;
    words.nothing_more()?;
    Ok((low, high))
}

/// By how much the plates are moved, of all clauses.
#[tactic(auto, unfolding(leg_grammar::specs::Def::GeneratedVia::via_offset_in))]
fn offset(numbers: ViaNumbers, clauses: &[Cursor<'_, '_>]) -> Result<(Point, Point), ReadFault>
    ensures { Means (λ o. o) result (via_offset_in numbers clauses.now) }
{
    offset_of(numbers, only(clauses, b"OFFSET")?)
}

/// The middle of the array: a clause `ORIGIN`, if there is one.
#[tactic(auto, unfolding(leg_grammar::specs::Def::GeneratedVia::via_origin_of))]
fn origin_of(numbers: ViaNumbers, clause: Option<Cursor<'_, '_>>) -> Result<Point, ReadFault>
    ensures { Means (λ p. p) result (via_origin_of numbers clause.entry) }
{
    let Some(mut words) = clause else {
        return Ok(no_shift());
    };
    words.keyword(b"ORIGIN")?;
    let middle = pair(numbers, &mut words)?;
    words.nothing_more()?;
    Ok(middle)
}

/// The middle of the array, of all clauses.
#[tactic(auto, unfolding(leg_grammar::specs::Def::GeneratedVia::via_origin_in))]
fn origin(numbers: ViaNumbers, clauses: &[Cursor<'_, '_>]) -> Result<Point, ReadFault>
    ensures { Means (λ p. p) result (via_origin_in numbers clauses.now) }
{
    origin_of(numbers, only(clauses, b"ORIGIN")?)
}

/// A number of rows or of columns. One below 1 or beyond `CUT_LIMIT` is `TooLarge`.
#[tactic(auto, unfolding(leg_grammar::specs::Def::GeneratedVia::line_count_at))]
fn line_count(words: &mut Cursor<'_, '_>) -> Result<u16, ReadFault>
    ensures { Reads (λ n. n) result words.new (line_count_at words.old) }
{
    let first = words.again();
    let count = words.whole()?;
    if count < 1 {
        return Err(first.need(FaultKind::TooLarge, Need::AtLeast(1)));
    }
    let lines = count.unsigned_abs();
    if lines > CUT_LIMIT {
        return Err(first.fault(FaultKind::TooLarge));
    }
    Ok(lines as u16)
}

/// How many rows and columns there are: a clause `ROWCOL`, if there is one. More than `CUT_LIMIT` cuts are `TooLarge`.
#[tactic(auto, unfolding(leg_grammar::specs::Def::GeneratedVia::rows_columns_of))]
fn rows_columns_of(clause: Option<Cursor<'_, '_>>) -> Result<(u16, u16), ReadFault>
    ensures { Means (λ n. n) result (rows_columns_of clause.entry) }
{
    let Some(mut words) = clause else {
        return Ok((1, 1));
    };
    words.keyword(b"ROWCOL")?;
    let first = words.again();
    let rows = line_count(&mut words)?;
    let columns = line_count(&mut words)?;
    words.nothing_more()?;
    if u64::from(rows) * u64::from(columns) <= CUT_LIMIT {
        Ok((rows, columns))
    } else {
        Err(first.fault(FaultKind::TooLarge))
    }
}

/// How many rows and columns there are, of all clauses.
#[tactic(auto, unfolding(leg_grammar::specs::Def::GeneratedVia::rows_columns_in))]
fn rows_columns(clauses: &[Cursor<'_, '_>]) -> Result<(u16, u16), ReadFault>
    ensures { Means (λ n. n) result (rows_columns_in clauses.now) }
{
    rows_columns_of(only(clauses, b"ROWCOL")?)
}

/// The cuts, which lie on this layer.
#[tactic(auto, unfolding(leg_grammar::specs::Def::GeneratedVia::cut_array_in))]
fn cut_array(
    numbers: ViaNumbers,
    layer: usize,
    clauses: &[Cursor<'_, '_>],
    entry: &Cursor<'_, '_>,
) -> Result<CutArray, ReadFault>
    ensures { Means (λ c. c) result (cut_array_in numbers layer clauses.now) }
{
    let cut = pair_of(numbers, clauses, b"CUTSIZE", 1, entry)?;
    let gap = pair_of(numbers, clauses, b"CUTSPACING", 0, entry)?;
    let (rows, columns) = rows_columns(clauses)?;
    let middle = origin(numbers, clauses)?;
    Ok(CutArray {
        layer,
        middle,
        cut,
        gap,
        rows,
        columns,
    })
}

/// The plates, which lie on these layers.
#[tactic(auto, unfolding(leg_grammar::specs::Def::GeneratedVia::plates_in))]
fn plates(
    numbers: ViaNumbers,
    layers: &ViaLayers,
    clauses: &[Cursor<'_, '_>],
    entry: &Cursor<'_, '_>,
) -> Result<(Plate, Plate), ReadFault>
    ensures { Means (λ p. p) result (plates_in numbers layers.now.low layers.now.high clauses.now) }
{
    let reach = reach(numbers, clauses, entry)?;
    let shift = offset(numbers, clauses)?;
    let low = Plate {
        layer: layers.low,
        reach: reach.0,
        shift: shift.0,
    };
    let high = Plate {
        layer: layers.high,
        reach: reach.1,
        shift: shift.1,
    };
    Ok((low, high))
}

/// What the clauses of a generated via, whose plates and cuts lie on these layers, say of these.
#[tactic(auto, unfolding(leg_grammar::specs::Def::GeneratedVia::via_between))]
pub fn via_between(
    numbers: ViaNumbers,
    layers: &ViaLayers,
    clauses: &[Cursor<'_, '_>],
    entry: &Cursor<'_, '_>,
) -> Result<GeneratedVia, ReadFault>
    ensures { Means (λ v. v) result (via_between numbers layers.now clauses.now) }
{
    let (low, high) = plates(numbers, layers, clauses, entry)?;
    let cuts = cut_array(numbers, layers.cut, clauses, entry)?;
    Ok(GeneratedVia { low, cuts, high })
}
