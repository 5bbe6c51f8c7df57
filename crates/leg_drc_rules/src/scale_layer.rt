//! The rules of layers in database units (lefdef's own rules).

ghost use Rattle.std.specs.Prelude.{◌≡◌, ◌≢◌, ◌≤◌, [], List, slice_get, IfOk, IfErr};
ghost use Rattle.leg_lib_records.specs.declared.scale_fault.ScaleKind.TheVariants.{Memory};
ghost use Rattle.leg_drc_rules.specs.Records.{LayerRulesModel, DeckModel, no_rules};
ghost use Rattle.leg_drc_rules.specs.Scale.{flat, width_of, AreRulesAt, AreAnyRulesAt, AreLayersAt, IsDeckAt};

use crate::raw::{RawDeckRules, RawLayerRules};
use crate::records::{DeckRules, LayerRules};
use crate::scale::{any_table_at, length_or, line_ends_at};
use leg_lex::{Name, UNITS_LIMIT};
use leg_lib_records::{Items, Layer, LayerKind, Library, ScaleFault, ScaleKind};
use std::alloc::Allocator;

/// The width of the wires of a layer of this kind.
fn width_of(kind: LayerKind) -> i64
    ensures { result ≡ width_of kind }
{
    match kind {
        LayerKind::Routing { width, .. } => width,
        LayerKind::Cut | LayerKind::Other => 0,
    }
}

/// The rules of a layer in database units, from those that are stated.
fn rules_at<A: Allocator + Copy>(
    alloc: A,
    layer: &Layer<'_>,
    raw: &RawLayerRules<A>,
    n: u32,
) -> Result<LayerRules<A>, ScaleKind>
    requires above { 1 ≤ n }
    requires within { n ≤ UNITS_LIMIT }
    ensures ok { IfOk result (λ rules. AreRulesAt n layer.now raw.now rules) }
    ensures none { IfErr result (λ kind. kind ≢ Memory → (rules : LayerRulesModel) → ¬ AreRulesAt n layer.now raw.now rules) }
{
    let width = length_or(raw.width, width_of(layer.kind), n)?;
    let net_spacing = length_or(raw.net_spacing, layer.spacing, n)?;
    let table = any_table_at(alloc, &raw.table, n)?;
    let line_ends = line_ends_at(alloc, raw.line_ends.as_slice(), n)?;
    Ok(LayerRules {
        area: raw.area,
        width,
        net_spacing,
        table,
        line_ends,
    })
}

/// The rules of a layer that states none.
fn no_rules_at<A: Allocator + Copy>(alloc: A, layer: &Layer<'_>, n: u32) -> LayerRules<A>
    ensures { AreRulesAt n layer.now no_rules result }
{
    LayerRules {
        area: None,
        width: width_of(layer.kind),
        net_spacing: layer.spacing,
        table: None,
        line_ends: Items::from_vec(Vec::new(alloc)),
    }
}

/// The rules of the layer of this number in database units, from those that are stated, if it has a section.
fn any_rules_at<'a, A: Allocator + Copy>(
    alloc: A,
    layer: &Layer<'a>,
    raw: &[Option<RawLayerRules<A>>],
    number: usize,
    n: u32,
) -> Result<LayerRules<A>, ScaleFault<'a>>
    requires above { 1 ≤ n }
    requires within { n ≤ UNITS_LIMIT }
    ensures ok { IfOk result (λ rules. AreAnyRulesAt n layer.now (flat (slice_get raw.now number)) rules) }
    ensures none { IfErr result (λ fault. fault.kind ≢ Memory
        → (rules : LayerRulesModel) → ¬ AreAnyRulesAt n layer.now (flat (slice_get raw.now number)) rules) }
    ensures nameless { IfErr result (λ fault. fault.kind ≡ Memory → fault.name ≡ []) }
{
    match raw.get(number) {
        Some(Some(raw)) => match rules_at(alloc, layer, raw, n) {
            Ok(rules) => Ok(rules),
            Err(kind) => Err(fault_of(layer, kind)),
        },
        _ => Ok(no_rules_at(alloc, layer, n)),
    }
}

/// The fault of a length of a layer. Where memory ran out, nothing is named.
fn fault_of<'a>(layer: &Layer<'a>, kind: ScaleKind) -> ScaleFault<'a>
    ensures kind { result.kind ≡ kind }
    ensures nameless { kind ≡ Memory → result.name ≡ [] }
{
    let name = match kind {
        ScaleKind::Memory => Name::new(b""),
        _ => Name::new(layer.name.bytes()),
    };
    ScaleFault { name, kind }
}

/// The rules of all layers of a library in database units.
fn layers_at<'a, A: Allocator + Copy>(
    alloc: A,
    raw: &[Option<RawLayerRules<A>>],
    layers: &[Layer<'a>],
    n: u32,
) -> Result<Items<LayerRules<A>, A>, ScaleFault<'a>>
    requires above { 1 ≤ n }
    requires within { n ≤ UNITS_LIMIT }
    ensures ok { IfOk result (λ rules. AreLayersAt n layers.now raw.now rules) }
    ensures none { IfErr result (λ fault. fault.kind ≢ Memory → (rules : List LayerRulesModel) → ¬ AreLayersAt n layers.now raw.now rules) }
    ensures nameless { IfErr result (λ fault. fault.kind ≡ Memory → fault.name ≡ []) }
{
    let mut rules = Vec::new(alloc);
    'layers: for (number, layer) in layers.iter().enumerate() {
        rules.push(any_rules_at(alloc, layer, raw, number, n)?)?;
    }
    Ok(Items::from_vec(rules))
}

impl<A: Allocator + Copy> RawDeckRules<A> {
    /// The rules at the units of a library, the one for which they were read: a width or a spacing that a layer doesn't state is the
    /// width or the spacing that the library has for it. Areas and the grid stay in millionths.
    ///
    /// A length that is no whole number of units is `NotOnUnit`, and one beyond the limit of numbers `TooLarge`, of the first such layer.
    pub fn at<'a>(&self, alloc: A, library: &Library<'a, A>) -> Result<DeckRules<A>, ScaleFault<'a>>
        ensures ok { IfOk result (λ deck. IsDeckAt library.now self.now deck) }
        ensures only { IfOk result (λ deck. (said : DeckModel) → IsDeckAt library.now self.now said → said ≡ deck) }
        ensures none { IfErr result (λ fault. fault.kind ≢ Memory → (deck : DeckModel) → ¬ IsDeckAt library.now self.now deck) }
        ensures nameless { IfErr result (λ fault. fault.kind ≡ Memory → fault.name ≡ []) }
    {
        let layers = layers_at(
            alloc,
            self.layers.as_slice(),
            library.layers(),
            library.units(),
        )?;
        Ok(DeckRules {
            grid: self.grid,
            layers,
        })
    }
}
