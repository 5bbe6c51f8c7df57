//! Which vias are turned (LEF/DEF 5.8, "Regular Wiring Statement", "Special Wiring Statement").

ghost use Rattle.std.specs.Prelude.{◌≡◌, ◌↔◌, [], ◌∷◌, length, nat_eq, IsTrue, OnOk};
ghost use Rattle.std.specs.HashMap.{get_by};
ghost use Rattle.leg_grammar.specs.Def.Turns.{turn_number};
ghost use Rattle.leg_design_common.specs.Steps.TurnRow.{no_row, number_in, row_with, row_or_none};

use leg_geom::Orient;
use leg_grammar::TurnedVia;
use std::alloc::{AllocError, Allocator};
use std::collections::HashMap;
use std::hash::{BuildHasherDefault, FoldHasher};
use std::marker::Model;

/// The number of a via in each orientation, where it is turned so.
#[derive(Clone, Copy)]
pub(crate) struct TurnRow {
    north: Option<usize>,
    south: Option<usize>,
    west: Option<usize>,
    east: Option<usize>,
    flipped_north: Option<usize>,
    flipped_south: Option<usize>,
    flipped_west: Option<usize>,
    flipped_east: Option<usize>,
}

impl TurnRow {
    /// It is not turned.
    fn new() -> TurnRow
        ensures { result ≡ no_row }
    {
        TurnRow {
            north: None,
            south: None,
            west: None,
            east: None,
            flipped_north: None,
            flipped_south: None,
            flipped_west: None,
            flipped_east: None,
        }
    }

    /// The number in an orientation.
    fn number(&self, orient: Orient) -> Option<usize>
        ensures { result ≡ number_in self.now orient }
    {
        match orient {
            Orient::N => self.north,
            Orient::S => self.south,
            Orient::W => self.west,
            Orient::E => self.east,
            Orient::FN => self.flipped_north,
            Orient::FS => self.flipped_south,
            Orient::FW => self.flipped_west,
            Orient::FE => self.flipped_east,
        }
    }

    /// The row with this number in an orientation.
    fn with(self, orient: Orient, number: usize) -> TurnRow
        ensures { result ≡ row_with self orient number }
    {
        let mut row = self;
        match orient {
            Orient::N => row.north = Some(number),
            Orient::S => row.south = Some(number),
            Orient::W => row.west = Some(number),
            Orient::E => row.east = Some(number),
            Orient::FN => row.flipped_north = Some(number),
            Orient::FS => row.flipped_south = Some(number),
            Orient::FW => row.flipped_west = Some(number),
            Orient::FE => row.flipped_east = Some(number),
        }
        row
    }
}

/// The rows of vias, by their numbers.
type Rows<A> = HashMap<usize, TurnRow, BuildHasherDefault<FoldHasher>, A>;

/// The row of a via.
fn row_of<A: Allocator>(rows: &Rows<A>, via: usize) -> TurnRow
    ensures { result ≡ row_or_none (get_by (nat_eq via) rows.now) }
{
    match rows.get(&via) {
        Some(row) => *row,
        None => TurnRow::new(),
    }
}

/// Vias that are turned, no two in the same way, and the number of a via in an orientation. Contracts see it as the list of them, the last first.
#[derive(Drop)]
pub struct TurnTable<A: Allocator> {
    items: Vec<TurnedVia, A>,
    rows: Rows<A>,
}

impl<A: Allocator> Model for TurnTable<A> {
    ghost use Rattle.std.specs.Prelude.{◌≡◌, ℕ, List, reverse};
    ghost use Rattle.leg_geom.specs.declared.orient.Orient.{Orient};
    ghost use Rattle.leg_grammar.specs.declared.turned_via.TurnedVia.{TurnedVia};
    ghost use Rattle.leg_grammar.specs.Def.Turns.{turn_number};
    ghost use Rattle.leg_design_common.specs.Steps.TurnRow.{number_by};

    ghost Value = { List TurnedVia };

    ghost view = { λ t. reverse t.items.items };

    ghost invariant = { λ t. (via : ℕ) (orient : Orient) → number_by t.rows via orient ≡ turn_number (reverse t.items.items) via orient };
}

impl<A: Allocator + Copy> TurnTable<A> {
    /// No via is turned.
    pub fn new(alloc: A) -> TurnTable<A>
        ensures { result ≡ [] }
    {
        TurnTable {
            items: Vec::new(alloc),
            rows: HashMap::with_hasher(alloc, BuildHasherDefault::new()),
        }
    }

    /// Whether no via is turned.
    #[inline(always)]
    pub fn is_empty(&self) -> bool
        ensures { IsTrue result ↔ (length self.now ≡ 0) }
    {
        self.items.is_empty()
    }

    /// The number of a via in an orientation, where it is turned so.
    pub fn number(&self, via: usize, orient: Orient) -> Option<usize>
        ensures { result ≡ turn_number self.now via orient }
    {
        row_of(&self.rows, via).number(orient)
    }

    /// One more via is turned.
    pub fn add(&mut self, turned: TurnedVia) -> Result<(), AllocError>
        ensures { OnOk result (self.new ≡ turned ∷ self.old) }
    {
        let row = row_of(&self.rows, turned.via);
        self.items.reserve(1)?;
        self.rows
            .insert(turned.via, row.with(turned.orient, turned.number))?;
        self.items.push(turned).unwrap();
        Ok(())
    }
}
