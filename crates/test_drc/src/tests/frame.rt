//! How the tests read a block and the rules of its layers.

use leg_design::read_def;
use leg_design_records::Design;
use leg_drc::{DrcFault, drc_faults};
use leg_drc_rules::{DeckRules, read_rules};
use leg_flat::flatten;
use leg_lib::read_lefs;
use leg_lib_records::{Library, RawLibrary};
use std::alloc::Global;

/// Two routing layers with rules, and a via between them.
fn layers() -> &'static [u8] {
    b"MANUFACTURINGGRID 0.005 ;
LAYER m1 TYPE ROUTING ; DIRECTION HORIZONTAL ; WIDTH 0.1 ; MINWIDTH 0.1 ;
SPACINGTABLE PARALLELRUNLENGTH 0 0.5 WIDTH 0 0.1 0.1 WIDTH 0.3 0.1 0.2 ;
END m1
LAYER v1 TYPE CUT ; SPACING 0.1 ; END v1
LAYER m2 TYPE ROUTING ; DIRECTION VERTICAL ; WIDTH 0.1 ; SPACING 0.1 ; END m2
VIA V12 DEFAULT LAYER m1 ; RECT -0.1 -0.05 0.1 0.05 ; LAYER v1 ; RECT -0.05 -0.05 0.05 0.05 ; LAYER m2 ; RECT -0.05 -0.1 0.05 0.1 ; END V12
MACRO PAD CLASS BLOCK ; SIZE 1 BY 1 ; PIN P PORT LAYER m2 ; RECT 0 0 0.2 0.2 ; END END P PIN Q END Q END PAD
END LIBRARY
"
}

/// Whether the violations of the text by the rules of these layers are just these.
pub(super) fn has_faults(alloc: Global, def: &str, expected: &[DrcFault]) -> bool {
    match read_lefs(alloc, &[layers()]) {
        Ok(raw) => has_faults_under_raw(alloc, &raw, def, expected),
        Err(_) => false,
    }
}

fn has_faults_under_raw(
    alloc: Global,
    raw: &RawLibrary<'_, Global>,
    def: &str,
    expected: &[DrcFault],
) -> bool {
    match raw.at(alloc, 1000) {
        Ok(library) => has_faults_under(alloc, &library, def, expected),
        Err(_) => false,
    }
}

fn has_faults_under(
    alloc: Global,
    library: &Library<'_, Global>,
    def: &str,
    expected: &[DrcFault],
) -> bool {
    let Ok(rules) = read_rules(alloc, library, &[layers()]) else {
        return false;
    };
    let Ok(deck) = rules.at(alloc, library) else {
        return false;
    };
    match read_def(alloc, library, def.as_bytes()) {
        Ok(design) => are(alloc, &design, &deck, expected),
        Err(_) => false,
    }
}

fn are(
    alloc: Global,
    design: &Design<'_, Global>,
    deck: &DeckRules<Global>,
    expected: &[DrcFault],
) -> bool {
    match flatten(alloc, design.library(), design) {
        Ok(flat) => match drc_faults(alloc, design, deck, &flat) {
            Ok(faults) => faults.as_slice() == expected,
            Err(_) => false,
        },
        Err(_) => false,
    }
}
