//! Clauses, each after a `+`.

ghost use Rattle.std.specs.Prelude.{◌≡◌, ◌++◌, ◌∷◌, OnOk, codes, option_map, map};
ghost use Rattle.leg_output.specs.Words.{spaced};
ghost use Rattle.leg_output.specs.Text.Clauses.{clause_words, kept_clause, shape_clause, status_word, placement_clause};

use crate::name::layer_name;
use crate::points::{orient_word, push_corners};
use itoa::Buffer;
use leg_design_records::{Design, Status};
use leg_geom::Place;
use leg_lex::Name;
use leg_lib_records::Shape;
use leg_print_words::push_words;
use std::alloc::{AllocError, Allocator};

/// Adds a keyword and a word as a clause, where the word was kept.
pub(crate) fn push_kept<A: Allocator>(
    text: &mut Vec<u8, A>,
    keyword: &[u8],
    word: &Option<Name<'_>>,
) -> Result<(), AllocError>
    ensures { OnOk result (text.new.items ≡ text.old.items ++ spaced (clause_words (kept_clause keyword.now word.now))) }
{
    let Some(word) = word else {
        return Ok(());
    };
    push_words(text, &[b"+", keyword, word.bytes()])
}

/// Adds a rectangle on a layer as a clause of this keyword.
fn push_shape<A: Allocator + Copy>(
    text: &mut Vec<u8, A>,
    design: &Design<'_, A>,
    keyword: &[u8],
    shape: &Shape,
) -> Result<(), AllocError>
    ensures { OnOk result (text.new.items ≡ text.old.items ++ spaced (codes "+" ∷ shape_clause keyword.now design.now shape.now)) }
{
    push_words(text, &[b"+", keyword, layer_name(design, shape.layer)])?;
    push_corners(text, &shape.rect)
}

/// Adds rectangles on layers, each as a clause of this keyword.
pub(crate) fn push_shapes<A: Allocator + Copy>(
    text: &mut Vec<u8, A>,
    design: &Design<'_, A>,
    keyword: &[u8],
    shapes: &[Shape],
) -> Result<(), AllocError>
    ensures { OnOk result (text.new.items ≡ text.old.items ++ spaced (clause_words (map (shape_clause keyword.now design.now) shapes.now))) }
{
    for shape in shapes {
        push_shape(text, design, keyword, shape)?;
    }
    Ok(())
}

/// The word of a status.
fn status_word(status: Status) -> &'static [u8]
    ensures { result.now ≡ status_word status }
{
    match status {
        Status::Unplaced => b"UNPLACED",
        Status::Placed => b"PLACED",
        Status::Fixed => b"FIXED",
        Status::Cover => b"COVER",
    }
}

/// Adds a status and a place, where there is one, as a clause.
pub(crate) fn push_placement<A: Allocator>(
    text: &mut Vec<u8, A>,
    status: Status,
    place: Option<&Place>,
) -> Result<(), AllocError>
    ensures { OnOk result (text.new.items ≡ text.old.items ++ spaced (codes "+" ∷ placement_clause status (option_map (λ place. place.now) place.entry))) }
{
    let Some(place) = place else {
        return push_words(text, &[b"+", status_word(status)]);
    };
    let mut x = Buffer::new();
    let mut y = Buffer::new();
    push_words(
        text,
        &[
            b"+",
            status_word(status),
            b"(",
            x.format(place.at.x()).as_bytes(),
            y.format(place.at.y()).as_bytes(),
            b")",
            orient_word(place.orient),
        ],
    )
}
