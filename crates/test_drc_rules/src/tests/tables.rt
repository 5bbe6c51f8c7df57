//! Tables of spacings.

use super::frame::rules;
use leg_lex::Micron;
use std::alloc::Global;

// Whether these are so many tenths of a micron.
fn are_tenths(found: &[Micron], wanted: &[i64]) -> bool {
    found.len() == wanted.len()
        && found.iter().zip(wanted).all(|(micron, tenths)| {
            micron.millionths() % 100_000 == 0 && micron.millionths() / 100_000 == *tenths
        })
}

// Whether m1 has a table of these runs, and of two rows with these widths and values, in tenths of a micron.
fn has_table(alloc: Global, text: &str, runs: &[i64], first: &[i64], second: &[i64]) -> bool {
    let Some(deck) = rules(alloc, &[text.as_bytes()]) else {
        return false;
    };
    let Some(Some(stated)) = deck.layers().first() else {
        return false;
    };
    let Some(table) = &stated.table else {
        return false;
    };
    match table.rows.as_slice() {
        [a, b] => {
            are_tenths(table.runs.as_slice(), runs)
                && are_tenths(&[a.width], &[0])
                && are_tenths(&[b.width], &[5])
                && are_tenths(a.values.as_slice(), first)
                && are_tenths(b.values.as_slice(), second)
        }
        _ => false,
    }
}

#[test]
fn a_table_has_a_value_for_each_run_in_each_row(rt: HostRuntime) {
    let text = "LAYER m1 SPACINGTABLE PARALLELRUNLENGTH 0 0.4 1
WIDTH 0 0.2 0.2 0.3
Width 0.5 0.2 0.4 0.6 ; END m1";
    assert!(rt; has_table(rt.alloc(), text, &[0, 4, 10], &[2, 2, 3], &[2, 4, 6]));
}

#[test]
fn the_first_run_may_be_above_0(rt: HostRuntime) {
    let text = "LAYER m1 SPACINGTABLE PARALLELRUNLENGTH 0.3 WIDTH 0 0.2 WIDTH 0.5 0.4 ; END m1";
    assert!(rt; has_table(rt.alloc(), text, &[3], &[2], &[4]));
}

#[test]
fn the_first_table_of_the_shape_counts(rt: HostRuntime) {
    let text =
        "LAYER m1 SPACINGTABLE TWOWIDTHS WIDTH 0 PRL 0 1 ; SPACINGTABLE PARALLELRUNLENGTH 0 WIDTH 0 ;
SPACINGTABLE PARALLELRUNLENGTH 0.3 WIDTH 0 0.2 WIDTH 0.5 0.4 ;
SPACINGTABLE PARALLELRUNLENGTH 0.4 WIDTH 0 0.2 WIDTH 0.5 0.4 ; END m1";
    assert!(rt; has_table(rt.alloc(), text, &[3], &[2], &[4]));
}

// Whether m1 has rules and no table.
fn has_no_table(alloc: Global, text: &str) -> bool {
    let Some(deck) = rules(alloc, &[text.as_bytes()]) else {
        return false;
    };
    match deck.layers().first() {
        Some(Some(stated)) => stated.table.is_none(),
        _ => false,
    }
}

static NO_TABLES: [&str; 8] = [
    "LAYER m1 SPACINGTABLE PARALLELRUNLENGTH 0 0 WIDTH 0 1 1 ; END m1",
    "LAYER m1 SPACINGTABLE PARALLELRUNLENGTH 0 2 1 WIDTH 0 1 1 1 ; END m1",
    "LAYER m1 SPACINGTABLE PARALLELRUNLENGTH 0 WIDTH 1 1 WIDTH 1 2 ; END m1",
    "LAYER m1 SPACINGTABLE PARALLELRUNLENGTH 0 1 WIDTH 0 1 1 WIDTH 1 2 ; END m1",
    "LAYER m1 SPACINGTABLE PARALLELRUNLENGTH 0 1 WIDTH 0 1 1 1 ; END m1",
    "LAYER m1 SPACINGTABLE PARALLELRUNLENGTH WIDTH 0 1 ; END m1",
    "LAYER m1 SPACINGTABLE PARALLELRUNLENGTH 0 1 ; END m1",
    "LAYER m1 SPACINGTABLE PARALLELRUNLENGTH 0 WIDTH 0 1 SPACINGTABLE INFLUENCE WIDTH 1 WITHIN 2 SPACING 3 ; END m1",
];

#[test]
fn a_table_of_another_shape_or_order_is_none(rt: HostRuntime) {
    for text in NO_TABLES.iter() {
        assert!(rt; has_no_table(rt.alloc(), text));
    }
}
