//! The nets of a design: their pieces, and where terminals are.

ghost use Rattle.std.specs.Prelude.{◌≡◌, ◌≢◌, ℕ, ◌<◌, ◌^◌, suc, ◌+◌, ◌++◌, ◌∷◌, [], length, map, Some, option_map, All, AllPairs, IfOk, OnOk, slice_get};
ghost use Rattle.std.specs.List.{range_with_len};
ghost use Rattle.leg_design_records.specs.declared.records.Terminal.{Terminal};
ghost use Rattle.leg_rules.specs.declared.piece.Piece.TheVariants.{Wire};
ghost use Rattle.leg_rules.specs.Metal.Nets.{entry_terminals, entry_wires, terminals_of, pieces_of};
ghost use Rattle.leg_flat.specs.Limits.{ArePieces};
ghost use Rattle.leg_flat.specs.Steps.Places.{AreSpecialNumbers, AreNetsOf, place_in};
ghost use Rattle.leg_flat.specs.Steps.PlacesBelow.{place_below, ArePiecesAdded};

use crate::net_index::NetIndex;
use crate::piece_numbers::PieceNumbers;
use leg_design_records::{Design, Net, Terminal};
use leg_lib_records::Items;
use leg_rules::Piece;
use std::alloc::{AllocError, Allocator};
use std::marker::Model;

/// The pieces of each net by its number, which net a terminal is in and which piece of it, and the nets of the entries
/// of `SPECIALNETS`.
#[derive(Drop)]
pub(crate) struct Nets<A: Allocator + Copy> {
    pieces: Vec<Items<Piece, A>, A>,
    counts: Vec<u32, A>,
    places: PieceNumbers<A>,
    special: Vec<u32, A>,
}

impl<A: Allocator + Copy> Model for Nets<A> {
    ghost use Rattle.leg_flat.specs.Steps.Places.{NetsModel};

    ghost Value = { NetsModel };

    ghost view = { λ s. record { pieces = s.pieces.items; counts = s.counts.items; placed = s.places; special = s.special.items } };
}

impl<A: Allocator + Copy> Nets<A> {
    /// The net of the terminal, and which piece of it the terminal is, if it is in one.
    pub(crate) fn place_of(&self, terminal: &Terminal) -> Option<(u32, u32)>
        ensures { result ≡ place_in self.now.placed terminal.now }
    {
        self.places.place_of(terminal)
    }

    /// The number of the net that entry `k` of `SPECIALNETS` is of.
    pub(crate) fn number_of_special(&self, k: usize) -> u32
        requires { k < length self.now.special }
        ensures { slice_get self.now.special k ≡ Some result }
    {
        self.special[k]
    }

    /// How many of the pieces of net `n` are terminals.
    pub(crate) fn terminal_count(&self, n: usize) -> u32
        requires { n < length self.now.counts }
        ensures { slice_get self.now.counts n ≡ Some result }
    {
        self.counts[n]
    }

    /// The pieces of each net alone.
    pub(crate) fn into_pieces(self) -> Vec<Items<Piece, A>, A>
        ensures { result.items ≡ self.pieces }
    {
        self.pieces
    }
}

/// The numbers of the nets that the entries of `SPECIALNETS` are of.
fn special_numbers<A: Allocator + Copy>(
    alloc: A,
    index: &NetIndex<'_, '_, A>,
) -> Result<Vec<u32, A>, AllocError>
    ensures { IfOk result (λ numbers. AreSpecialNumbers index.now numbers.items) }
{
    let mut numbers = Vec::new(alloc);
    for (k, net) in index.design().special().iter().enumerate() {
        numbers.push(index.number_of_special(k, net) as u32)?;
    }
    Ok(numbers)
}

/// Adds to the pieces of a net those of these terminals that are in no net yet.
fn add_terminals<A: Allocator + Copy>(
    places: &mut PieceNumbers<A>,
    pieces: &mut Vec<Piece, A>,
    net: u32,
    terminals: &[Terminal],
) -> Result<(), AllocError>
    requires once { AllPairs (λ t u. t ≢ u) terminals.now }
    requires few { length pieces.old.items + length terminals.now < 2 ^ 32 }
    ensures { OnOk result (ArePiecesAdded net terminals.now places.old pieces.old.items places.new pieces.new.items) }
{
    for terminal in terminals {
        if places.place_of(terminal).is_none() {
            places.push(*terminal, net, pieces.len() as u32)?;
            pieces.push(Piece::Term(*terminal))?;
        }
    }
    Ok(())
}

/// Adds this many wires to the pieces of a net.
fn add_wires<A: Allocator + Copy>(pieces: &mut Vec<Piece, A>, count: u32) -> Result<(), AllocError>
    ensures { OnOk result (pieces.new.items ≡ pieces.old.items ++ map Wire (range_with_len 0 count)) }
{
    for wire in 0..count {
        pieces.push(Piece::Wire(wire))?;
    }
    Ok(())
}

/// The terminals that an entry lists.
fn entry_terminals<'d, A: Allocator + Copy>(entry: Option<&'d Net<'_, A>>) -> &'d [Terminal]
    ensures { result.now ≡ entry_terminals (option_map (λ net. net.now) entry.entry) }
{
    match entry {
        Some(net) => net.terminals.as_slice(),
        None => &[],
    }
}

/// How many wires an entry has.
fn wire_count<A: Allocator + Copy>(entry: Option<&Net<'_, A>>) -> usize
    ensures { result ≡ length (entry_wires (option_map (λ net. net.now) entry.entry)) }
{
    match entry {
        Some(net) => net.wires.as_slice().len(),
        None => 0,
    }
}

/// The pieces of net `n`, and how many of them are terminals, where the terminals of the nets below it are known.
fn net_pieces<A: Allocator + Copy>(
    alloc: A,
    index: &NetIndex<'_, '_, A>,
    places: &mut PieceNumbers<A>,
    n: usize,
) -> Result<(Vec<Piece, A>, u32), AllocError>
    requires within { n < length index.now.nets + length index.now.special }
    requires below { (terminal : Terminal) → place_in places.old terminal ≡ place_below index.now n terminal }
    ensures pieces { IfOk result (λ made. made.0.items ≡ pieces_of index.now n) }
    ensures count { IfOk result (λ made. made.1 ≡ length (terminals_of index.now n)) }
    ensures places { OnOk result ((terminal : Terminal) → place_in places.new terminal ≡ place_below index.now (suc n) terminal) }
{
    let regular = index.regular_entry(n);
    let special = index.special_entry(n);
    let mut pieces = Vec::new(alloc);
    add_terminals(places, &mut pieces, n as u32, entry_terminals(regular))?;
    add_terminals(places, &mut pieces, n as u32, entry_terminals(special))?;
    let terminals = pieces.len() as u32;
    let wires = wire_count(regular) + wire_count(special);
    add_wires(&mut pieces, wires as u32)?;
    Ok((pieces, terminals))
}

/// Adds net `n` to the nets below it.
fn add_net<A: Allocator + Copy>(
    alloc: A,
    index: &NetIndex<'_, '_, A>,
    nets: &mut Nets<A>,
    n: usize,
) -> Result<(), AllocError>
    requires within { n < length index.now.nets + length index.now.special }
    requires below { (terminal : Terminal) → place_in nets.old.placed terminal ≡ place_below index.now n terminal }
    ensures pieces { OnOk result (nets.new.pieces ≡ nets.old.pieces ++ pieces_of index.now n ∷ []) }
    ensures counts { OnOk result (nets.new.counts ≡ nets.old.counts ++ length (terminals_of index.now n) ∷ []) }
    ensures places { OnOk result ((terminal : Terminal) → place_in nets.new.placed terminal ≡ place_below index.now (suc n) terminal) }
    ensures special { OnOk result (nets.new.special ≡ nets.old.special) }
{
    let (made, terminals) = net_pieces(alloc, index, &mut nets.places, n)?;
    nets.pieces.push(Items::from_vec(made))?;
    nets.counts.push(terminals)?;
    Ok(())
}

/// The nets of a design.
pub(crate) fn nets_of<A: Allocator + Copy>(
    alloc: A,
    design: &Design<'_, A>,
) -> Result<Nets<A>, AllocError>
    ensures is { IfOk result (λ nets. AreNetsOf design.now nets) }
    ensures nets { IfOk result (λ nets. length nets.pieces < 2 ^ 32) }
    ensures pieces { IfOk result (λ nets. All (λ pieces. length pieces < 2 ^ 32) nets.pieces) }
    ensures of_nets { IfOk result (λ nets. (shapes : ℕ) → All (ArePieces shapes) nets.pieces) }
{
    let index = NetIndex::new(alloc, design)?;
    let special = special_numbers(alloc, &index)?;
    let mut nets = Nets {
        pieces: Vec::new(alloc),
        counts: Vec::new(alloc),
        places: PieceNumbers::new(alloc),
        special,
    };
    for n in 0..design.nets().len() + design.special().len() {
        add_net(alloc, &index, &mut nets, n)?;
    }
    Ok(nets)
}
