//! How far apart shapes of one layer have to lie. No other code asks a layer of a library for its spacing.

ghost use Rattle.std.specs.Prelude.{◌≡◌, ◌≤◌};
ghost use Rattle.leg_lex.specs.declared.limits.TheConstants.{NUMBER_LIMIT};
ghost use Rattle.leg_rules.specs.Spacing.RequiredSpacing.{greatest_spacing_on, required_spacing};

use leg_lib_records::Library;
use leg_rules::Shape;
use std::alloc::Allocator;

/// No two shapes on the layer of this number have to lie farther apart than this, in database units; 0 where there is no such
/// layer. What lays wires keeps it from all shapes, since it doesn't know which metal comes next to them.
#[tactic(auto, unfolding(leg_rules::specs::Spacing::RequiredSpacing::greatest_spacing_on))]
pub fn greatest_spacing_on<A: Allocator + Copy>(library: &Library<'_, A>, layer: usize) -> u64
    ensures is { result ≡ greatest_spacing_on library.now layer }
    ensures within { result ≤ NUMBER_LIMIT }
{
    match library.layers().get(layer) {
        Some(layer) => layer.spacing.unsigned_abs(),
        None => 0,
    }
}

/// How far apart two shapes of one layer have to lie at least, in database units, if they share no point. Today this is the
/// spacing of their layer, whatever the shapes are.
#[tactic(auto, unfolding(leg_rules::specs::Spacing::RequiredSpacing::greatest_spacing_on, leg_rules::specs::Spacing::RequiredSpacing::required_spacing))]
pub fn required_spacing<A: Allocator + Copy>(library: &Library<'_, A>, a: &Shape, b: &Shape) -> u64
    ensures is { result ≡ required_spacing library.now a.now b.now }
    ensures within { result ≤ NUMBER_LIMIT }
{
    greatest_spacing_on(library, a.layer)
}
