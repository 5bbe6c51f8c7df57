//! Which piece of which net a terminal is.

ghost use Rattle.std.specs.Prelude.{◌≡◌, cond, None, Some, OnOk};
ghost use Rattle.leg_design_records.specs.declared.records.Terminal.{Terminal};
ghost use Rattle.leg_design_records.specs.Terminals.{is_same_terminal};
ghost use Rattle.leg_flat.specs.Steps.Places.{place_in};

use leg_design_records::Terminal;
use std::alloc::{AllocError, Allocator};
use std::collections::HashMap;
use std::hash::{BuildHasherDefault, FoldHasher};
use std::marker::Model;

/// The net of each terminal, and which piece of it the terminal is. Contracts see it as the list
/// of these, in no order.
#[derive(Drop)]
pub(crate) struct PieceNumbers<A: Allocator> {
    places: HashMap<Terminal, (u32, u32), BuildHasherDefault<FoldHasher>, A>,
}

impl<A: Allocator> Model for PieceNumbers<A> {
    ghost use Rattle.std.specs.Prelude.{ℕ, List};
    ghost use Rattle.leg_design_records.specs.declared.records.Terminal.{Terminal};

    ghost Value = { List (Terminal × (ℕ × ℕ)) };

    ghost view = { λ s. s.places.entries };
}

impl<A: Allocator + Copy> PieceNumbers<A> {
    /// No terminal is in a net.
    pub(crate) fn new(alloc: A) -> PieceNumbers<A>
        ensures { (terminal : Terminal) → place_in result terminal ≡ None }
    {
        PieceNumbers {
            places: HashMap::with_hasher(alloc, BuildHasherDefault::new()),
        }
    }

    /// The net of the terminal, and which piece of it the terminal is, if it is in one.
    pub(crate) fn place_of(&self, terminal: &Terminal) -> Option<(u32, u32)>
        ensures { result ≡ place_in self.now terminal.now }
    {
        self.places.get(terminal).copied()
    }

    /// The terminal is this piece of this net.
    pub(crate) fn push(
        &mut self,
        terminal: Terminal,
        net: u32,
        piece: u32,
    ) -> Result<(), AllocError>
        ensures { OnOk result ((other : Terminal) → place_in self.new other
            ≡ cond (is_same_terminal terminal other) (Some (net, piece)) (place_in self.old other)) }
    {
        self.places.insert(terminal, (net, piece))?;
        Ok(())
    }
}
