//! A library in database units: no length is rounded (lefdef's own rule).

ghost use Rattle.std.specs.Prelude.{◌≡◌, ◌≢◌, ◌≤◌, ℤ, List, [], IfOk, IfErr};
ghost use Rattle.leg_lib_records.specs.declared.scale_fault.ScaleKind.TheVariants.{Memory};
ghost use Rattle.leg_lib_records.specs.declared.records.Layer.{Layer};
ghost use Rattle.leg_lib_records.specs.declared.records.LayerKind.{LayerKind};
ghost use Rattle.leg_lib_records.specs.declared.records.Site.{Site};
ghost use Rattle.leg_lib_records.specs.Measure.{ExtentModel};
ghost use Rattle.leg_lib_records.specs.Records.{LibraryModel};
ghost use Rattle.leg_lib_records.specs.Scale.{IsLengthAt, IsSizeAt, IsEven, IsKindAt, IsLayerAt, IsSiteAt, OneForOne, IsLibraryAt};

use crate::library::Library;
use crate::measure::{Extent, RawExtent};
use crate::raw::{RawKind, RawLayer, RawSite};
use crate::raw_library::RawLibrary;
use crate::records::{Layer, LayerKind, Site};
use crate::scale_fault::{ScaleFault, ScaleKind};
use crate::scale_rules::rules_at;
use crate::scale_shapes::{masters_at, vias_at};
use leg_lex::{Micron, Name, NamedList, NumFault, UNITS_LIMIT};
use std::alloc::Allocator;

/// A length in database units.
pub(crate) fn length_at(length: Micron, n: u32) -> Result<i64, ScaleKind>
    requires above { 1 ≤ n }
    requires within { n ≤ UNITS_LIMIT }
    ensures ok { IfOk result (λ u. IsLengthAt n length u) }
    ensures none { IfErr result (λ kind. (u : ℤ) → ¬ IsLengthAt n length u) }
{
    match length.to_units(n) {
        Ok(units) => Ok(units),
        Err(NumFault::NotOnUnit) => Err(ScaleKind::NotOnUnit),
        Err(_) => Err(ScaleKind::TooLarge),
    }
}

/// A size in database units.
pub(crate) fn size_at(size: &RawExtent, n: u32) -> Result<Extent, ScaleKind>
    requires above { 1 ≤ n }
    requires within { n ≤ UNITS_LIMIT }
    ensures ok { IfOk result (λ scaled. IsSizeAt n size.now scaled) }
    ensures none { IfErr result (λ kind. (scaled : ExtentModel) → ¬ IsSizeAt n size.now scaled) }
{
    let width = length_at(size.width(), n)?;
    let height = length_at(size.height(), n)?;
    Ok(Extent::new(width, height))
}

/// The width of a routing layer in database units, which is even.
#[tactic(auto, using(crate::proofs::Scaling::even_width, crate::proofs::Scaling::odd_width))]
fn even_at(width: Micron, n: u32) -> Result<i64, ScaleKind>
    requires above { 1 ≤ n }
    requires within { n ≤ UNITS_LIMIT }
    ensures exact { IfOk result (λ u. IsLengthAt n width u) }
    ensures even { IfOk result (λ u. IsEven u) }
    ensures none { IfErr result (λ kind. (u : ℤ) → IsLengthAt n width u → ¬ IsEven u) }
{
    let units = length_at(width, n)?;
    if units.unsigned_abs() % 2 != 0 {
        return Err(ScaleKind::OddWidth);
    }
    Ok(units)
}

/// What a layer is for, with its width in database units.
fn kind_at(kind: RawKind, n: u32) -> Result<LayerKind, ScaleKind>
    requires above { 1 ≤ n }
    requires within { n ≤ UNITS_LIMIT }
    ensures ok { IfOk result (λ scaled. IsKindAt n kind scaled) }
    ensures none { IfErr result (λ fault. (scaled : LayerKind) → ¬ IsKindAt n kind scaled) }
{
    match kind {
        RawKind::Routing { direction, width } => Ok(LayerKind::Routing {
            direction,
            width: even_at(width, n)?,
        }),
        RawKind::Cut => Ok(LayerKind::Cut),
        RawKind::Other => Ok(LayerKind::Other),
    }
}

/// A layer's kind and spacing in database units.
fn layer_parts(layer: &RawLayer<'_>, n: u32) -> Result<(LayerKind, i64), ScaleKind>
    requires above { 1 ≤ n }
    requires within { n ≤ UNITS_LIMIT }
    ensures kind { IfOk result (λ parts. IsKindAt n layer.now.kind parts.0) }
    ensures spacing { IfOk result (λ parts. IsLengthAt n layer.now.spacing parts.1) }
    ensures none { IfErr result (λ fault. (scaled : Layer) → ¬ IsLayerAt n layer.now scaled) }
{
    let kind = kind_at(layer.kind, n)?;
    let spacing = length_at(layer.spacing, n)?;
    Ok((kind, spacing))
}

/// A layer in database units.
fn layer_at<'a>(layer: &RawLayer<'a>, n: u32) -> Result<Layer<'a>, ScaleFault<'a>>
    requires above { 1 ≤ n }
    requires within { n ≤ UNITS_LIMIT }
    ensures ok { IfOk result (λ scaled. IsLayerAt n layer.now scaled) }
    ensures none { IfErr result (λ fault. (scaled : Layer) → ¬ IsLayerAt n layer.now scaled) }
    ensures nameless { IfErr result (λ fault. fault.kind ≡ Memory → fault.name ≡ []) }
{
    let name = Name::new(layer.name.bytes());
    match layer_parts(layer, n) {
        Ok((kind, spacing)) => Ok(Layer {
            name,
            kind,
            spacing,
        }),
        Err(kind) => Err(ScaleFault::of(name, kind)),
    }
}

/// The layers in database units.
fn layers_at<'a, A: Allocator + Copy>(
    alloc: A,
    raw: &NamedList<'a, RawLayer<'a>, A>,
    n: u32,
) -> Result<NamedList<'a, Layer<'a>, A>, ScaleFault<'a>>
    requires above { 1 ≤ n }
    requires within { n ≤ UNITS_LIMIT }
    ensures ok { IfOk result (λ layers. OneForOne (IsLayerAt n) raw.now layers) }
    ensures none { IfErr result (λ fault. fault.kind ≢ Memory → (layers : List Layer) → ¬ OneForOne (IsLayerAt n) raw.now layers) }
    ensures nameless { IfErr result (λ fault. fault.kind ≡ Memory → fault.name ≡ []) }
{
    let mut layers = Vec::new(alloc);
    for layer in raw.as_slice() {
        layers.push(layer_at(layer, n)?)?;
    }
    Ok(raw.with_items(alloc, layers)?)
}

/// A site in database units.
fn site_at<'a>(site: &RawSite<'a>, n: u32) -> Result<Site<'a>, ScaleFault<'a>>
    requires above { 1 ≤ n }
    requires within { n ≤ UNITS_LIMIT }
    ensures ok { IfOk result (λ scaled. IsSiteAt n site.now scaled) }
    ensures none { IfErr result (λ fault. (scaled : Site) → ¬ IsSiteAt n site.now scaled) }
    ensures nameless { IfErr result (λ fault. fault.kind ≡ Memory → fault.name ≡ []) }
{
    let name = Name::new(site.name.bytes());
    match size_at(&site.size, n) {
        Ok(size) => Ok(Site { name, size }),
        Err(kind) => Err(ScaleFault::of(name, kind)),
    }
}

/// The sites in database units.
fn sites_at<'a, A: Allocator + Copy>(
    alloc: A,
    raw: &NamedList<'a, RawSite<'a>, A>,
    n: u32,
) -> Result<NamedList<'a, Site<'a>, A>, ScaleFault<'a>>
    requires above { 1 ≤ n }
    requires within { n ≤ UNITS_LIMIT }
    ensures ok { IfOk result (λ sites. OneForOne (IsSiteAt n) raw.now sites) }
    ensures none { IfErr result (λ fault. fault.kind ≢ Memory → (sites : List Site) → ¬ OneForOne (IsSiteAt n) raw.now sites) }
    ensures nameless { IfErr result (λ fault. fault.kind ≡ Memory → fault.name ≡ []) }
{
    let mut sites = Vec::new(alloc);
    for site in raw.as_slice() {
        sites.push(site_at(site, n)?)?;
    }
    Ok(raw.with_items(alloc, sites)?)
}

impl<'a, A: Allocator + Copy> RawLibrary<'a, A> {
    /// The library at `n` database units a micron, with each macro's origin added to its shapes.
    ///
    /// ExtentModel are looked at in file order: those of layers first, then those of sites, macros, vias and nondefault rules.
    pub fn at(&self, alloc: A, n: u32) -> Result<Library<'a, A>, ScaleFault<'a>>
        requires above { 1 ≤ n }
        requires within { n ≤ UNITS_LIMIT }
        ensures ok { IfOk result (λ library. IsLibraryAt n self.now library) }
        ensures only { IfOk result (λ library. (said : LibraryModel) → IsLibraryAt n self.now said → said ≡ library) }
        ensures none { IfErr result (λ fault. fault.kind ≢ Memory → (library : LibraryModel) → ¬ IsLibraryAt n self.now library) }
        ensures nameless { IfErr result (λ fault. fault.kind ≡ Memory → fault.name ≡ []) }
    {
        let layers = layers_at(alloc, &self.layers, n)?;
        let sites = sites_at(alloc, &self.sites, n)?;
        let masters = masters_at(alloc, &self.masters, n)?;
        let vias = vias_at(alloc, &self.vias, n)?;
        let rules = rules_at(alloc, &self.rules, n)?;
        Ok(Library {
            units: n,
            layers,
            sites,
            vias,
            masters,
            rules,
        })
    }
}
