//! The stretches and the keys at values.

use leg_design_records::Row;
use leg_geom::{Orient, Point};
use leg_legal_sites::{FreeSites, Stretch, row_order};
use leg_lex::Name;

/// Sites that are taken, and what is left after it.
#[derive(Clone, Copy)]
struct Taken<'a> {
    from: u64,
    end: u64,
    free: &'a [Stretch],
}

#[test]
fn taken_sites_leave_those_around_them(rt: HostRuntime) {
    static ALL_TAKEN: [Taken; 5] = [
        Taken {
            from: 2,
            end: 5,
            free: &[Stretch { from: 0, end: 2 }, Stretch { from: 5, end: 10 }],
        },
        Taken {
            from: 7,
            end: 8,
            free: &[
                Stretch { from: 0, end: 2 },
                Stretch { from: 5, end: 7 },
                Stretch { from: 8, end: 10 },
            ],
        },
        Taken {
            from: 1,
            end: 9,
            free: &[Stretch { from: 0, end: 1 }, Stretch { from: 9, end: 10 }],
        },
        Taken {
            from: 4,
            end: 4,
            free: &[Stretch { from: 0, end: 1 }, Stretch { from: 9, end: 10 }],
        },
        Taken {
            from: 0,
            end: 20,
            free: &[],
        },
    ];
    let mut free = FreeSites::new(rt.alloc(), 0, 10).expect(&rt, "memory");
    for taken in &ALL_TAKEN {
        free.take(taken.from, taken.end).expect(&rt, "memory");
        assert_eq!(rt; free.stretches(), taken.free);
    }
}

#[test]
fn no_sites_are_free_in_a_row_without_any(rt: HostRuntime) {
    let free = FreeSites::new(rt.alloc(), 3, 3).expect(&rt, "memory");
    assert!(rt; free.stretches().is_empty());
}

/// A row of this site, at this point.
#[derive(Clone, Copy)]
struct Begun {
    site: usize,
    x: i64,
    y: i64,
}

#[test]
fn rows_of_one_site_stand_from_the_lowest_up_and_from_left_to_right(rt: HostRuntime) {
    static ROWS: [Begun; 6] = [
        Begun {
            site: 1,
            x: 0,
            y: -4000,
        },
        Begun {
            site: 0,
            x: 0,
            y: 2000,
        },
        Begun {
            site: 0,
            x: 600,
            y: 0,
        },
        Begun {
            site: 0,
            x: 0,
            y: 2000,
        },
        Begun {
            site: 0,
            x: -600,
            y: 0,
        },
        Begun {
            site: 0,
            x: 0,
            y: -2000,
        },
    ];
    static NUMBERS: [usize; 6] = [5, 4, 2, 1, 3, 0];
    let mut rows = Vec::new(rt.alloc());
    for begun in &ROWS {
        let row = Row {
            name: Name::new(b"row"),
            site: begun.site,
            at: Point::new(begun.x, begun.y).expect(&rt, "too far away"),
            orient: Orient::N,
            count: 4,
        };
        rows.push(row).expect(&rt, "memory");
    }
    let order = row_order(rt.alloc(), &rows).expect(&rt, "memory");
    let mut numbers = Vec::new(rt.alloc());
    for key in order.as_slice() {
        numbers.push(key.row).expect(&rt, "memory");
    }
    assert_eq!(rt; numbers.as_slice(), NUMBERS.as_slice());
}
