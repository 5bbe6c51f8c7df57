//! The library for whose layers rules are read, and how the tests read them.

use leg_drc_rules::{DeckRules, RawDeckRules, read_rules};
use leg_lex::{Micron, ReadFault};
use leg_lib::read_lefs;
use leg_lib_records::{Library, ScaleFault};
use std::alloc::Global;

// Two routing layers with a cut layer between them, and a layer without metal.
const LIBRARY: &str =
    "LAYER m1 TYPE ROUTING ; DIRECTION HORIZONTAL ; WIDTH 0.1 ; SPACING 0.2 ; END m1
LAYER v1 TYPE CUT ; SPACING 0.3 ; END v1
LAYER m2 TYPE ROUTING ; DIRECTION VERTICAL ; WIDTH 0.4 ; SPACING 0.5 ; END m2
LAYER over TYPE OVERLAP ; END over
END LIBRARY
";

// The library at 1000 database units a micron.
pub(super) fn library(alloc: Global) -> Option<Library<'static, Global>> {
    let raw = read_lefs(alloc, &[LIBRARY.as_bytes()]).ok()?;
    raw.at(alloc, 1000).ok()
}

// The rules that the texts state, in millionths of a micron.
pub(super) fn rules(alloc: Global, lefs: &[&[u8]]) -> Option<RawDeckRules<Global>> {
    let library = library(alloc)?;
    read_rules(alloc, &library, lefs).ok()
}

// Why the texts are refused, if they are.
pub(super) fn fault(alloc: Global, lefs: &[&[u8]]) -> Option<ReadFault> {
    let library = library(alloc)?;
    read_rules(alloc, &library, lefs).err()
}

// The rules of a text in database units.
pub(super) fn deck(alloc: Global, text: &str) -> Option<DeckRules<Global>> {
    let library = library(alloc)?;
    let raw = read_rules(alloc, &library, &[text.as_bytes()]).ok()?;
    raw.at(alloc, &library).ok()
}

// Why the rules of a text can't be given in database units, if they can't.
pub(super) fn scale_fault(alloc: Global, text: &str) -> Option<ScaleFault<'static>> {
    let library = library(alloc)?;
    let raw = read_rules(alloc, &library, &[text.as_bytes()]).ok()?;
    raw.at(alloc, &library).err()
}

// The number in millionths, or -1 where there is none.
pub(super) fn number(stated: Option<Micron>) -> i64 {
    match stated {
        Some(micron) => micron.millionths(),
        None => -1,
    }
}

// The area, the width and the spacing of one net that texts state for a layer, if they have a section of it.
pub(super) fn numbers(alloc: Global, lefs: &[&[u8]], layer: usize) -> Option<[i64; 3]> {
    let deck = rules(alloc, lefs)?;
    match deck.layers().get(layer) {
        Some(Some(stated)) => Some([
            number(stated.area),
            number(stated.width),
            number(stated.net_spacing),
        ]),
        _ => None,
    }
}

// Whether a text states these for a layer.
pub(super) fn states(alloc: Global, text: &str, layer: usize, wanted: [i64; 3]) -> bool {
    match numbers(alloc, &[text.as_bytes()], layer) {
        Some(found) => found == wanted,
        None => false,
    }
}
