//! Sections of layers.

use super::frame::{numbers, states};
use std::alloc::Global;

#[test]
fn a_layer_that_is_only_named_begins_no_section(rt: HostRuntime) {
    let text =
        "MACRO M1 OBS LAYER m1 ; RECT 0 0 1 1 ; AREA 5 ; END m1 END M1 LAYER m1 AREA 2 ; END m1";
    assert!(rt; states(rt.alloc(), text, 0, [2_000_000, -1, -1]));
}

#[test]
fn a_layer_whose_next_end_has_another_name_begins_no_section(rt: HostRuntime) {
    let text = "MACRO c OBS LAYER m1 SPACING 0 ; RECT 0 0 1 1 ; LAYER m2 SPACING 0 ; END END c
LAYER m1 LAYER v1 SPACING 0.1 SAMENET ; END v1 LAYER m1 AREA 2 ; END m1";
    assert!(rt; states(rt.alloc(), text, 0, [2_000_000, -1, -1]));
    assert!(rt; states(rt.alloc(), text, 1, [-1, -1, 100_000]));
}

#[test]
fn a_statement_without_a_semicolon_is_none(rt: HostRuntime) {
    let text = "LAYER m1 MINWIDTH 0.1 ; AREA 5 END m1 AREA 7 ; LAYER m2 AREA 3 ; END m2";
    assert!(rt; states(rt.alloc(), text, 0, [-1, 100_000, -1]));
    assert!(rt; states(rt.alloc(), text, 2, [3_000_000, -1, -1]));
}

#[test]
fn names_are_compared_as_bytes_and_keywords_in_capitals(rt: HostRuntime) {
    assert!(rt;
        states(
            rt.alloc(),
            "layer m1 area 2 ; end m1",
            0,
            [2_000_000, -1, -1]
        )
    );
    assert!(rt; numbers(rt.alloc(), &[b"LAYER M1 AREA 2 ; END M1".as_slice()], 0).is_none());
    assert!(rt; numbers(rt.alloc(), &[b"LAYER m1 AREA 2 ; END M1".as_slice()], 0).is_none());
}

// Whether two texts state these for a layer.
fn both_state(alloc: Global, first: &str, second: &str, layer: usize, wanted: [i64; 3]) -> bool {
    match numbers(alloc, &[first.as_bytes(), second.as_bytes()], layer) {
        Some(found) => found == wanted,
        None => false,
    }
}

#[test]
fn the_first_section_of_two_texts_counts(rt: HostRuntime) {
    let first = "LAYER m1 AREA 2 ; END m1";
    let second = "LAYER m1 AREA 3 ; MINWIDTH 0.1 ; END m1 LAYER m2 AREA 4 ; END m2";
    assert!(rt; both_state(rt.alloc(), first, second, 0, [2_000_000, -1, -1]));
    assert!(rt; both_state(rt.alloc(), first, second, 2, [4_000_000, -1, -1]));
}
