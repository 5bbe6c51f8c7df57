//! A lattice of two levels, three rows and three columns.

use leg_finish_search::{GridPoint, Lattice};
use leg_lib_records::Direction;

static LINES: [i64; 3] = [0, 10, 20];

/// A lattice of two levels, three rows and three columns, ten apart: level 0 is horizontal and level 1 vertical. All steps are open, and
/// all nodes but those of the slots that are closed.
#[derive(Drop)]
pub struct Sheet<'c> {
    pub closed: &'c [u32],
}

impl Lattice for Sheet<'_> {
    ghost use Rattle.test_finish_search.specs.Lines.{lines};

    ghost size_of = { λ _. 18 };

    ghost levels_of = { λ _. 2 };

    ghost xs_of = { λ _. lines };

    ghost ys_of = { λ _. lines };

    fn size(&self) -> u32 {
        18
    }

    fn levels(&self) -> usize {
        2
    }

    fn xs(&self) -> &[i64] {
        &LINES
    }

    fn ys(&self) -> &[i64] {
        &LINES
    }

    fn direction(&self, level: usize) -> Direction {
        if level == 0 {
            Direction::Horizontal
        } else {
            Direction::Vertical
        }
    }

    fn point(&self, slot: u32) -> GridPoint {
        let slot = slot as usize;
        GridPoint {
            level: slot / 9,
            row: slot / 3 % 3,
            column: slot % 3,
        }
    }

    fn slot(&self, point: GridPoint) -> u32 {
        (point.level * 9 + point.row * 3 + point.column) as u32
    }

    fn is_open_node(&self, slot: u32, _net: u32) -> bool {
        !self.closed.contains(&slot)
    }

    fn is_open_along(&self, slot: u32, _net: u32) -> bool {
        if slot < 9 { slot % 3 < 2 } else { slot < 15 }
    }

    fn is_open_above(&self, slot: u32, _net: u32) -> bool {
        slot < 9
    }
}
