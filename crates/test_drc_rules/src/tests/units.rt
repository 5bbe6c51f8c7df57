//! Rules in database units.

use super::frame::{deck, number, scale_fault};
use leg_drc_rules::LineEnd;
use leg_lib_records::ScaleKind;
use std::alloc::Global;

// Whether a layer of the text has this area in millionths, or -1, and this width and spacing of one net in database units.
fn is_at(alloc: Global, text: &str, layer: usize, wanted: [i64; 3]) -> bool {
    let Some(deck) = deck(alloc, text) else {
        return false;
    };
    match deck.layers().get(layer) {
        Some(rules) => [number(rules.area), rules.width, rules.net_spacing] == wanted,
        None => false,
    }
}

#[test]
fn what_is_not_stated_is_that_of_the_layer(rt: HostRuntime) {
    assert!(rt; is_at(rt.alloc(), "VERSION 5.8 ;", 0, [-1, 100, 200]));
    assert!(rt; is_at(rt.alloc(), "VERSION 5.8 ;", 1, [-1, 0, 300]));
    let text = "LAYER m2 AREA 0.08 ; MINWIDTH 0.09 ; SPACING 0.7 SAMENET ; END m2";
    assert!(rt; is_at(rt.alloc(), text, 2, [80_000, 90, 700]));
    assert!(rt; is_at(rt.alloc(), text, 0, [-1, 100, 200]));
}

// Whether m1 has a table of one row and one run, and an end of line, of these numbers.
fn has_table_and_line_end(alloc: Global, text: &str, table: [i64; 3], line_end: LineEnd) -> bool {
    let Some(deck) = deck(alloc, text) else {
        return false;
    };
    let Some(rules) = deck.layers().first() else {
        return false;
    };
    let Some(found) = &rules.table else {
        return false;
    };
    match (found.runs.as_slice(), found.rows.as_slice()) {
        ([run], [row]) => {
            [*run, row.width] == [table[0], table[1]]
                && row.values.as_slice() == [table[2]].as_slice()
                && rules.line_ends.as_slice() == [line_end].as_slice()
        }
        _ => false,
    }
}

#[test]
fn tables_and_ends_of_lines_are_in_units(rt: HostRuntime) {
    let text =
        "LAYER m1 SPACINGTABLE PARALLELRUNLENGTH 0.4 WIDTH 0.5 0.6 ; SPACING 0.1 ENDOFLINE 0.2 WITHIN 0.3 ; END m1";
    let line_end = LineEnd {
        spacing: 100,
        width: 200,
        within: 300,
    };
    assert!(rt; has_table_and_line_end(rt.alloc(), text, [400, 500, 600], line_end));
}

// Whether the text is refused for a length of a layer that is no whole number of units.
fn is_off(alloc: Global, text: &str, name: &[u8]) -> bool {
    match scale_fault(alloc, text) {
        Some(fault) => fault.kind == ScaleKind::NotOnUnit && fault.name.bytes() == name,
        None => false,
    }
}

#[test]
fn a_length_off_the_unit_is_a_fault_of_its_layer(rt: HostRuntime) {
    assert!(rt;
        is_off(
            rt.alloc(),
            "LAYER v1 SPACING 0.0005 SAMENET ; END v1",
            b"v1"
        )
    );
    assert!(rt;
        is_off(
            rt.alloc(),
            "LAYER m2 SPACINGTABLE PARALLELRUNLENGTH 0 WIDTH 0 0.0005 ; END m2",
            b"m2"
        )
    );
    assert!(rt;
        !is_off(
            rt.alloc(),
            "MANUFACTURINGGRID 0.0005 ; LAYER m1 AREA 0.0005 ; END m1",
            b"m1"
        )
    );
}
