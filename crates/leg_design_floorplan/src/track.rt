//! Tracks (LEF/DEF 5.8, "Tracks").

ghost use Rattle.leg_lex.specs.Words.{Reads, Means};
ghost use Rattle.leg_lex.specs.Until.{until};
ghost use Rattle.leg_grammar.specs.Def.Guard.{is_over};
ghost use Rattle.leg_grammar.specs.Def.Track.{axis_at, one_layer, layers_in, track_in, track_at};

use crate::row::ends_within;
use crate::track_mask::past_track_mask;
use leg_design_records::{Axis, Track};
use leg_grammar::Profile;
use leg_lex::{Cursor, FaultKind, NameKind, Need, ReadFault};
use leg_lib_records::{Items, Library};
use std::alloc::Allocator;

/// `X` or `Y`.
#[tactic(auto, unfolding(leg_grammar::specs::Def::Track::axis_at))]
fn axis(words: &mut Cursor<'_, '_>) -> Result<Axis, ReadFault>
    ensures { Reads (λ a. a) result words.new (axis_at words.old) }
{
    if words.is_at(b"X") {
        words.keyword(b"X")?;
        Ok(Axis::X)
    } else {
        words.keyword(b"Y")?;
        Ok(Axis::Y)
    }
}

/// Adds the number of the layer whose name comes next. A name that no layer of the library has is `UnknownName`.
#[tactic(auto, unfolding(leg_grammar::specs::Def::Track::one_layer))]
fn one_layer<A: Allocator + Copy>(
    library: &Library<'_, A>,
    numbers: &mut Vec<usize, A>,
    words: &mut Cursor<'_, '_>,
) -> Result<(), ReadFault>
    ensures { Reads (λ _. numbers.new.items) result words.new (one_layer library.now numbers.old.items words.old) }
{
    let first = words.again();
    let name = words.name()?;
    let Some(number) = library.layer_named(name) else {
        return Err(first.need(FaultKind::UnknownName, Need::Known(NameKind::Layer)));
    };
    numbers.push(number)?;
    Ok(())
}

/// Adds the numbers of the layers whose names are left.
#[tactic(auto, using(leg_lex::proofs::Until::ends, leg_lex::proofs::Until::goes_on, leg_lex::proofs::Until::fails, leg_design_common::proofs::Guards::over_is, leg_design_common::proofs::Guards::not_over_is, crate::proofs::Tracks::one_layer_shortens, crate::proofs::Tracks::one_layer_shorter))]
fn more_layers<A: Allocator + Copy>(
    library: &Library<'_, A>,
    numbers: &mut Vec<usize, A>,
    words: &mut Cursor<'_, '_>,
) -> Result<(), ReadFault>
    ensures { Reads (λ _. numbers.new.items) result words.new (until is_over (one_layer library.now) numbers.old.items words.old) }
{
    'layers: while !words.is_at_end() {
        one_layer(library, numbers, words)?;
    }
    Ok(())
}

/// The layers of tracks, which are those of `LAYER`; without it there are none. `MASK` is `Unsupported`.
#[tactic(auto, using(crate::proofs::Tracks::no_mask), unfolding(leg_grammar::specs::Def::Track::layers_in))]
fn layers<A: Allocator + Copy>(
    alloc: A,
    library: &Library<'_, A>,
    words: &mut Cursor<'_, '_>,
) -> Result<Vec<usize, A>, ReadFault>
    ensures { Means (λ v. v.items) result (layers_in library.now words.old) }
{
    let mut numbers = Vec::new(alloc);
    if words.is_at_end() {
        return Ok(numbers);
    }
    if words.is_at(b"MASK") {
        return Err(words.fault(FaultKind::Unsupported));
    }
    words.keyword(b"LAYER")?;
    one_layer(library, &mut numbers, words)?;
    more_layers(library, &mut numbers, words)?;
    Ok(numbers)
}

/// Tracks, of a statement. Fewer than one, a step below 1, and a last track beyond the limit of numbers are `TooLarge`.
#[tactic(auto, using(leg_design_common::proofs::Numbers::whole_is_number), unfolding(leg_grammar::specs::Def::Track::track_in))]
fn track_of<A: Allocator + Copy>(
    alloc: A,
    profile: Profile,
    library: &Library<'_, A>,
    statement: &mut Cursor<'_, '_>,
) -> Result<Track<A>, ReadFault>
    ensures { Means (λ t. t) result (track_in profile library.now statement.old) }
{
    statement.keyword(b"TRACKS")?;
    let axis = axis(statement)?;
    let place = statement.again();
    let start = statement.whole()?;
    statement.keyword(b"DO")?;
    let number = statement.again();
    let count = statement.whole()?;
    if count < 1 {
        return Err(number.need(FaultKind::TooLarge, Need::AtLeast(1)));
    }
    statement.keyword(b"STEP")?;
    let distance = statement.again();
    let step = statement.whole()?;
    if step < 1 {
        return Err(distance.need(FaultKind::TooLarge, Need::AtLeast(1)));
    }
    if !ends_within(start, count - 1, step) {
        return Err(place.need(FaultKind::TooLarge, Need::EndInRange));
    }
    past_track_mask(profile, statement)?;
    let layers = layers(alloc, library, statement)?;
    Ok(Track {
        axis,
        start,
        count,
        step,
        layers: Items::from_vec(layers),
    })
}

/// Tracks, from `TRACKS` to its `;`.
#[tactic(auto, unfolding(leg_grammar::specs::Def::Track::track_at))]
pub fn track<A: Allocator + Copy>(
    alloc: A,
    profile: Profile,
    library: &Library<'_, A>,
    words: &mut Cursor<'_, '_>,
) -> Result<Track<A>, ReadFault>
    ensures { Reads (λ t. t) result words.new (track_at profile library.now words.old) }
{
    let mut statement = words.statement()?;
    track_of(alloc, profile, library, &mut statement)
}
