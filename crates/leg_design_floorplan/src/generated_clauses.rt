//! Clauses of a generated via of a DEF (LEF/DEF 5.8, "Vias").

ghost use Rattle.std.specs.Prelude.{◌≡◌};
ghost use Rattle.leg_lex.specs.Words.{Reads, Means};
ghost use Rattle.leg_grammar.specs.Def.GeneratedVia.{is_cut, three_layers_at, via_layers_in, generated_in};

use leg_design_common::layers::{has_metal, is_routing, layer};
use leg_generated_via::{after_keyword, rule, via_between};
use leg_grammar::{GeneratedVia, ViaLayers, ViaNumbers};
use leg_lex::{Cursor, FaultKind, ReadFault};
use leg_lib_records::Library;
use std::alloc::Allocator;

/// Whether the layer of this number is one of cuts.
fn is_cut<A: Allocator + Copy>(library: &Library<'_, A>, number: usize) -> bool
    ensures { result ≡ is_cut library.now number }
{
    has_metal(library, number) && !is_routing(library, number)
}

/// Three layers, as `LAYERS` names them.
#[tactic(auto, unfolding(leg_grammar::specs::Def::GeneratedVia::three_layers_at))]
fn three_layers<A: Allocator + Copy>(
    library: &Library<'_, A>,
    words: &mut Cursor<'_, '_>,
) -> Result<ViaLayers, ReadFault>
    ensures { Reads (λ l. l) result words.new (three_layers_at library.now words.old) }
{
    let low = layer(library, words)?;
    let cut = layer(library, words)?;
    let high = layer(library, words)?;
    Ok(ViaLayers { low, cut, high })
}

/// The layers of the clause `LAYERS`. Others than a layer of wires, one of cuts and one of wires are `Unexpected`.
#[tactic(auto, unfolding(leg_grammar::specs::Def::GeneratedVia::via_layers_in))]
fn layers<A: Allocator + Copy>(
    library: &Library<'_, A>,
    clauses: &[Cursor<'_, '_>],
    entry: &Cursor<'_, '_>,
) -> Result<ViaLayers, ReadFault>
    ensures { Means (λ l. l) result (via_layers_in library.now clauses.now) }
{
    let mut words = after_keyword(clauses, b"LAYERS", entry)?;
    let first = words.again();
    let layers = three_layers(library, &mut words)?;
    words.nothing_more()?;
    if is_routing(library, layers.low)
        && is_cut(library, layers.cut)
        && is_routing(library, layers.high)
    {
        Ok(layers)
    } else {
        Err(first.fault(FaultKind::Unexpected))
    }
}

/// What the clauses of a generated via say of its plates and its cuts.
#[tactic(auto, unfolding(leg_grammar::specs::Def::GeneratedVia::generated_in))]
pub(crate) fn generated<A: Allocator + Copy>(
    library: &Library<'_, A>,
    clauses: &[Cursor<'_, '_>],
    entry: &Cursor<'_, '_>,
) -> Result<GeneratedVia, ReadFault>
    ensures { Means (λ v. v) result (generated_in library.now clauses.now) }
{
    rule(clauses, entry)?;
    let layers = layers(library, clauses, entry)?;
    via_between(ViaNumbers::Units, &layers, clauses, entry)
}
