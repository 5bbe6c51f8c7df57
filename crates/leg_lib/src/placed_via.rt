//! Vias of ports and of obstructions (LEF/DEF 5.8, "Layer Geometries").

ghost use Rattle.std.specs.Prelude.{◌≡◌};
ghost use Rattle.leg_lex.specs.Words.{Reads, Means};
ghost use Rattle.leg_grammar.specs.Lef.PlacedVia.{is_placed_via, good_via_at, iterate_at, once, pattern_after, with_placed_via};

use crate::copies::{StepPattern, pattern, push_copies};
use crate::point::point;
use leg_grammar::Profile;
use leg_grammar::mask::past_mask;
use leg_lex::{Cursor, FaultKind, Micron, NameKind, Need, ReadFault};
use leg_lib_records::{RawLibrary, RawShape, RawVia};
use std::alloc::Allocator;

/// Whether a statement is a via that is read.
pub(crate) fn is_placed_via(profile: Profile, statement: &Cursor<'_, '_>) -> bool
    ensures { result ≡ is_placed_via profile statement.now }
{
    profile.is_wide() && statement.is_at(b"VIA")
}

/// A via by its name, which was defined before. Another name is `UnknownName`, and a via that isn't good `BadVia`.
#[tactic(auto, unfolding(leg_grammar::specs::Lef::PlacedVia::good_via_at))]
fn good_via<'k, 'a, A: Allocator + Copy>(
    library: &'k RawLibrary<'a, A>,
    words: &mut Cursor<'_, '_>,
) -> Result<&'k RawVia<'a, A>, ReadFault>
    ensures { Reads (λ via. via.now) result words.new (good_via_at library.now words.old) }
{
    let first = words.again();
    let name = words.name()?;
    let Some(number) = library.via_named(name) else {
        return Err(first.need(FaultKind::UnknownName, Need::Known(NameKind::Via)));
    };
    let Some(via) = library.vias().get(number) else {
        return Err(first.need(FaultKind::UnknownName, Need::Known(NameKind::Via)));
    };
    if !via.good {
        return Err(first.fault(FaultKind::BadVia));
    }
    Ok(via)
}

/// Whether `ITERATE` comes next, which is read past.
#[tactic(auto, unfolding(leg_grammar::specs::Lef::PlacedVia::iterate_at))]
fn iterate(words: &mut Cursor<'_, '_>) -> Result<bool, ReadFault>
    ensures { Reads (λ is. is) result words.new (iterate_at words.old) }
{
    if words.is_at(b"ITERATE") {
        words.keyword(b"ITERATE")?;
        Ok(true)
    } else {
        Ok(false)
    }
}

/// How what stands once lies.
fn once() -> StepPattern
    ensures { result ≡ once }
{
    StepPattern {
        columns: 1,
        rows: 1,
        x_step: Micron::zero(),
        y_step: Micron::zero(),
    }
}

/// The pattern of copies after `ITERATE`; without it, of what stands once.
fn pattern_after(iterate: bool, words: &mut Cursor<'_, '_>) -> Result<StepPattern, ReadFault>
    ensures { Reads (λ p. p) result words.new (pattern_after iterate words.old) }
{
    if iterate { pattern(words) } else { Ok(once()) }
}

/// Adds the rectangles of the via of a `VIA` statement, moved to its point, or their copies. Where masks are refused, one with `MASK`
/// is `BadNumber`.
#[tactic(auto, unfolding(leg_grammar::specs::Lef::PlacedVia::with_placed_via))]
fn push_via<A: Allocator + Copy>(
    profile: Profile,
    library: &RawLibrary<'_, A>,
    shapes: &mut Vec<RawShape, A>,
    statement: &mut Cursor<'_, '_>,
) -> Result<(), ReadFault>
    ensures { Means (λ _. shapes.new.items) result (with_placed_via profile library.now shapes.old.items statement.old) }
{
    let place = statement.place();
    statement.keyword(b"VIA")?;
    let iterate = iterate(statement)?;
    past_mask(profile, statement)?;
    let at = point(statement)?;
    let via = good_via(library, statement)?;
    let pattern = pattern_after(iterate, statement)?;
    statement.nothing_more()?;
    push_copies(via.shapes.as_slice(), &pattern, &at, place, shapes)
}

// Whether a mask stands in a `VIA` statement.
fn is_masked(statement: &Cursor<'_, '_>) -> bool {
    let mut words = statement.again();
    let _via = words.any();
    let _iterate = iterate(&mut words);
    words.is_at(b"MASK")
}

/// Adds the rectangles of the via of a `VIA` statement, moved to its point, or their copies. Where masks are refused, one with `MASK`
/// is `Unsupported`.
pub(crate) fn push_placed_via<A: Allocator + Copy>(
    profile: Profile,
    library: &RawLibrary<'_, A>,
    shapes: &mut Vec<RawShape, A>,
    statement: &mut Cursor<'_, '_>,
) -> Result<(), ReadFault>
    ensures { Means (λ _. shapes.new.items) result (with_placed_via profile library.now shapes.old.items statement.old) }
{
    let first = statement.again();
    match push_via(profile, library, shapes, statement) {
        Err(fault) if fault.kind == FaultKind::BadNumber && is_masked(&first) => {
            Err(fault.of_kind(FaultKind::Unsupported))
        }
        pushed => pushed,
    }
}
