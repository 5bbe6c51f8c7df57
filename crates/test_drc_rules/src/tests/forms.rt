//! Each form of a statement.

use super::frame::{number, rules, states};
use std::alloc::Global;

#[test]
fn an_area_is_of_a_routing_layer(rt: HostRuntime) {
    assert!(rt;
        states(
            rt.alloc(),
            "LAYER m1 AREA 0.08 ; END m1",
            0,
            [80_000, -1, -1]
        )
    );
    assert!(rt; states(rt.alloc(), "LAYER v1 AREA 0.08 ; END v1", 1, [-1, -1, -1]));
    assert!(rt;
        states(
            rt.alloc(),
            "LAYER over AREA 0.08 ; END over",
            3,
            [-1, -1, -1]
        )
    );
}

#[test]
fn the_first_statement_of_exactly_a_form_counts(rt: HostRuntime) {
    let text =
        "LAYER m1 AREA 1 2 ; AREA ; area 0.5 ; AREA 0.7 ; MINWIDTH 0.05 ; MINWIDTH x ; END m1";
    assert!(rt; states(rt.alloc(), text, 0, [500_000, 50_000, -1]));
}

#[test]
fn a_spacing_of_one_net_may_be_of_supplies_on_routing_layers(rt: HostRuntime) {
    let first =
        "LAYER m1 SPACING 0.2 ; SPACING 0.11 SAMENET PGONLY ; SPACING 0.12 SAMENET ; END m1";
    assert!(rt; states(rt.alloc(), first, 0, [-1, -1, 110_000]));
    let second =
        "LAYER v1 SPACING 0.2 ; SPACING 0.11 SAMENET PGONLY ; SPACING 0.12 SAMENET ; END v1";
    assert!(rt; states(rt.alloc(), second, 1, [-1, -1, 120_000]));
    let third = "LAYER m1 SPACING 0.11 SAMENET 2 ; SPACING 0.12 RANGE 1 2 ; END m1";
    assert!(rt; states(rt.alloc(), third, 0, [-1, -1, -1]));
}

// Whether the ends of lines of m1 are those that are wanted: three numbers of each.
fn has_line_ends(alloc: Global, text: &str, wanted: &[[i64; 3]]) -> bool {
    let Some(deck) = rules(alloc, &[text.as_bytes()]) else {
        return false;
    };
    let Some(Some(stated)) = deck.layers().first() else {
        return false;
    };
    let found = stated.line_ends.as_slice();
    found.len() == wanted.len()
        && found.iter().zip(wanted).all(|(end, numbers)| {
            end.spacing.millionths() == numbers[0]
                && end.width.millionths() == numbers[1]
                && end.within.millionths() == numbers[2]
        })
}

#[test]
fn each_end_of_line_counts(rt: HostRuntime) {
    let text = "LAYER m1 SPACING 0.3 ENDOFLINE 0.2 WITHIN 0.1 ;
SPACING 0.3 ENDOFLINE 0.2 WITHIN 0.1 PARALLELEDGE 1 WITHIN 2 ;
Spacing 0.4 EndOfLine 0.5 Within 0 ; END m1";
    assert!(rt;
        has_line_ends(
            rt.alloc(),
            text,
            &[[300_000, 200_000, 100_000], [400_000, 500_000, 0]]
        )
    );
    assert!(rt; has_line_ends(rt.alloc(), "LAYER m1 AREA 1 ; END m1", &[]));
}

// The grid that a text states, in millionths, or -1.
fn grid_of(alloc: Global, text: &str) -> Option<i64> {
    let deck = rules(alloc, &[text.as_bytes()])?;
    Some(number(deck.grid()))
}

#[test]
fn the_first_grid_outside_of_layers_counts(rt: HostRuntime) {
    let text =
        "LAYER m1 MANUFACTURINGGRID 1 ; END m1 MANUFACTURINGGRID 2 3 ; ManufacturingGrid 0.005 ; MANUFACTURINGGRID x ;";
    assert!(rt; matches!(grid_of(rt.alloc(), text), Some(5000)));
    assert!(rt; matches!(grid_of(rt.alloc(), "VERSION 5.8 ;"), Some(-1)));
}
