//! Good vias, which join two routing layers (lefdef's own rule).

ghost use Rattle.std.specs.Prelude.{◌≡◌, ◌+◌, ◌<◌, [], length, map, MatchOption};
ghost use Rattle.std.specs.List.{list_any, list_all, slice_range};
ghost use Rattle.leg_lex.specs.Words.{is_keyword};
ghost use Rattle.leg_lib_records.specs.Joins.{is_wiring_word, has_wires, has_cuts, is_routing, is_cut, is_part, join, join_layers};
ghost use Rattle.leg_lib_records.specs.Steps.ShapeLayers.{AreOuter, IsThird, OnTwo};

/// What a layer is to vias.
#[derive(Clone, Copy, PartialEq, Eq, Debug)]
pub enum LayerUse {
    /// Wires run on it.
    Wires,
    /// It has the cuts of vias.
    Cuts,
    /// Anything else.
    Neither,
}

impl LayerUse {
    /// Whether wires run there.
    fn has_wires(self) -> bool
        ensures { result ≡ has_wires self }
    {
        matches!(self, LayerUse::Wires)
    }

    /// Whether cuts are there.
    fn has_cuts(self) -> bool
        ensures { result ≡ has_cuts self }
    {
        matches!(self, LayerUse::Cuts)
    }
}

/// A layer of a library.
pub(crate) trait ViaLayer {
    ghost use Rattle.leg_lib_records.specs.declared.joins.LayerUse.{LayerUse};

    ghost use_of: { Self → LayerUse };

    /// What vias find on it.
    fn layer_use(&self) -> LayerUse
        ensures { result ≡ use_of self.now };
}

/// What a rectangle is to a via: the number of its layer, and whether the point 0 0 lies inside it, and not on its
/// border.
#[derive(Clone, Copy, PartialEq, Eq, Debug)]
pub struct ViaPart {
    pub layer: usize,
    pub holds_origin: bool,
}

/// The words that mean something else in wiring.
const WIRING_WORDS: [&[u8]; 16] = [
    b"NEW",
    b"RECT",
    b"TAPER",
    b"TAPERRULE",
    b"STYLE",
    b"MASK",
    b"VIRTUAL",
    b"DO",
    b"N",
    b"S",
    b"W",
    b"E",
    b"FN",
    b"FS",
    b"FW",
    b"FE",
];

/// Whether a word is one of these keywords, in capitals or small letters.
fn is_one_of(keywords: &[&[u8]], word: &[u8]) -> bool
    ensures { result ≡ list_any (λ keyword. is_keyword keyword.now word.now) keywords.now }
{
    keywords
        .iter()
        .any(|keyword| leg_lex::is_keyword(keyword, word))
}

/// Whether a name is a word that means something else in wiring: no via of this name is good.
pub fn is_wiring_word(name: &[u8]) -> bool
    ensures { result ≡ is_wiring_word name.now }
{
    is_one_of(&WIRING_WORDS, name)
}

/// Whether the layer of this number is a routing layer.
fn is_routing<L: ViaLayer>(layers: &[L], number: usize) -> bool
    ensures { result ≡ is_routing (map L.use_of layers.now) number }
{
    match layers.get(number) {
        Some(layer) => layer.layer_use().has_wires(),
        None => false,
    }
}

/// Whether the layer of this number is a cut layer.
fn is_cut<L: ViaLayer>(layers: &[L], number: usize) -> bool
    ensures { result ≡ is_cut (map L.use_of layers.now) number }
{
    match layers.get(number) {
        Some(layer) => layer.layer_use().has_cuts(),
        None => false,
    }
}

/// Whether one of the layers is a routing layer.
fn any_routing<L: ViaLayer>(layers: &[L]) -> bool
    ensures { result ≡ list_any (λ layer. has_wires (L.use_of layer)) layers.now }
{
    layers.iter().any(|layer| layer.layer_use().has_wires())
}

/// Whether one of the layers between the two is a routing layer.
#[tactic(auto, using(crate::proofs::JoinLayers::any_in_range))]
fn any_routing_between<L: ViaLayer>(layers: &[L], low: usize, high: usize) -> bool
    requires above { low < high }
    requires within { high < length layers.now }
    ensures { result ≡ list_any has_wires (slice_range (map L.use_of layers.now) (low + 1) high) }
{
    any_routing(&layers[low + 1..high])
}

/// Whether a part is a cut, or a piece of one of the two routing layers that holds the point 0 0.
fn is_part(low: usize, cut: usize, high: usize, part: &ViaPart) -> bool
    ensures { result ≡ is_part low cut high part.now }
{
    part.layer == cut || ((part.layer == low || part.layer == high) && part.holds_origin)
}

/// Whether each part is one of a via of these layers.
fn all_parts(low: usize, cut: usize, high: usize, parts: &[ViaPart]) -> bool
    ensures { result ≡ list_all (is_part low cut high) parts.now }
{
    parts.iter().all(|part| is_part(low, cut, high, part))
}

/// Whether the parts join the routing layers `low` and `high` by cuts on the layer `cut`.
fn join<L: ViaLayer>(layers: &[L], low: usize, cut: usize, high: usize, parts: &[ViaPart]) -> bool
    ensures { result ≡ join (map L.use_of layers.now) low cut high parts.now }
{
    is_routing(layers, low)
        && is_cut(layers, cut)
        && is_routing(layers, high)
        && low < cut
        && cut < high
        && !any_routing_between(layers, low, high)
        && all_parts(low, cut, high, parts)
}

/// The lowest and the highest layer of the parts, if there are any.
#[tactic(auto, using(crate::proofs::JoinLayers::outer_start))]
fn outer_layers(parts: &[ViaPart]) -> Option<(usize, usize)>
    ensures { MatchOption result (parts.now ≡ []) (λ outer. AreOuter parts.now outer.0 outer.1) }
{
    let first = parts.first()?;
    let mut low = first.layer;
    let mut high = first.layer;
    for part in parts {
        low = low.min(part.layer);
        high = high.max(part.layer);
    }
    Some((low, high))
}

/// The layer of the first part that lies on neither of the two, if there is one.
#[tactic(auto, using(crate::proofs::JoinLayers::two_start, crate::proofs::JoinLayers::low_more, crate::proofs::JoinLayers::high_more, crate::proofs::JoinLayers::two_all, crate::proofs::JoinLayers::third_there))]
fn third_layer(low: usize, high: usize, parts: &[ViaPart]) -> Option<usize>
    ensures { MatchOption result (OnTwo parts.now low high) (λ cut. IsThird parts.now low high cut) }
{
    for part in parts {
        if part.layer != low && part.layer != high {
            return Some(part.layer);
        }
    }
    None
}

/// Whether the parts lie on three layers that a via joins: two routing layers and a cut layer between them. Of the layers it
/// asks only these and those between them.
#[tactic(auto, using(crate::proofs::JoinLayers::tested_once))]
pub(crate) fn joins_layers<L: ViaLayer>(layers: &[L], parts: &[ViaPart]) -> bool
    ensures { result ≡ join_layers (map L.use_of layers.now) parts.now }
{
    let Some((low, high)) = outer_layers(parts) else {
        return false;
    };
    match third_layer(low, high, parts) {
        Some(cut) => join(layers, low, cut, high, parts),
        None => false,
    }
}
