//! The entries of a section of nets.

ghost use Rattle.std.specs.Prelude.{◌≡◌, ◌++◌, ◌∷◌, [], ◌+◌, ◌<◌, ◌≤◌, ◌||◌, false, length, is_some, None, OnOk, OnErr, nat_lt};
ghost use Rattle.leg_lex.specs.Words.{Means};
ghost use Rattle.leg_lex.specs.NameLookup.{place_of};
ghost use Rattle.leg_design_records.specs.declared.limits.TheConstants.{ENTRY_LIMIT, PART_LIMIT};
ghost use Rattle.leg_design_records.specs.Terminals.{is_among};
ghost use Rattle.leg_grammar.specs.Def.Terminal.{is_of_other_net, add_terminal};
ghost use Rattle.leg_grammar.specs.Def.LonePins.{is_listed, with_terminal};
ghost use Rattle.leg_design_records.specs.Records.{net_names, terminal_count, wire_count};

use crate::terminal_index::TerminalIndex;
use leg_design_records::{Net, PART_LIMIT, Terminal, Wire};
use leg_lex::{Cursor, FaultKind, Name, Names, ReadFault};
use leg_lib_records::Items;
use std::alloc::{AllocError, Allocator};
use std::marker::Model;
use std::mem;

/// The entries of a section of nets, in file order. No two have one name, and no two list one terminal. Contracts see
/// it as the list of them.
#[derive(Drop)]
pub struct NetTable<'a, A: Allocator + Copy> {
    items: Vec<Net<'a, A>, A>,
    names: Names<'a, A>,
    index: TerminalIndex<A>,
    terminals: usize,
    wires: usize,
}

impl<'a, A: Allocator + Copy> Model for NetTable<'a, A> {
    ghost use Rattle.std.specs.Prelude.{List};
    ghost use Rattle.leg_design_records.specs.Records.{NetModel};
    ghost use Rattle.leg_design_nets.specs.Steps.Index.{number_of, lists_of, IsIndexOf};

    ghost Value = { List NetModel };

    ghost view = { λ t. t.items.items };

    ghost invariant = { λ t. IsIndexOf t.items.items (lists_of t.items.items) t.names (number_of t.index.numbers) t.terminals t.wires };
}

impl<'a, A: Allocator + Copy> NetTable<'a, A> {
    /// No entries.
    pub fn new(alloc: A) -> NetTable<'a, A>
        ensures { result ≡ [] }
    {
        NetTable {
            items: Vec::new(alloc),
            names: Names::new(alloc),
            index: TerminalIndex::new(alloc),
            terminals: 0,
            wires: 0,
        }
    }

    /// How many entries there are.
    pub(crate) fn len(&self) -> usize
        ensures { result ≡ length self.now }
    {
        self.items.len()
    }

    /// How many terminals the entries list.
    pub fn terminal_count(&self) -> usize
        ensures { result ≡ terminal_count self.now }
    {
        self.terminals
    }

    /// How many wires the entries have.
    pub(crate) fn wire_count(&self) -> usize
        ensures { result ≡ wire_count self.now }
    {
        self.wires
    }

    /// Whether an entry of another name lists the terminal.
    #[tactic(auto, using(crate::proofs::ListedNets::other_found, crate::proofs::ListedNets::no_other))]
    pub(crate) fn is_of_other_net(&self, name: &[u8], terminal: &Terminal) -> bool
        ensures { result ≡ is_of_other_net name.now terminal.now self.now }
    {
        let Some(number) = self.index.number_of(terminal) else {
            return false;
        };
        match self.items.get(number) {
            Some(net) => net.name.bytes() != name,
            None => false,
        }
    }

    /// Whether an entry lists the terminal.
    pub(crate) fn is_listed(&self, terminal: &Terminal) -> bool
        ensures { result ≡ is_listed terminal.now self.now }
    {
        self.index.number_of(terminal).is_some()
    }

    /// The number of the entry of this name.
    pub(crate) fn place_of(&self, name: &[u8]) -> Option<usize>
        ensures { result ≡ place_of name.now (net_names self.now) }
    {
        self.names.place_of(name)
    }

    /// Adds a terminal, which no entry lists, to the entry of this number, if there is such an entry.
    pub(crate) fn push_terminal(
        &mut self,
        number: usize,
        terminal: Terminal,
    ) -> Result<(), AllocError>
        requires unlisted { is_listed terminal self.old ≡ false }
        requires few { terminal_count self.old ≤ PART_LIMIT + ENTRY_LIMIT }
        ensures { OnOk result (self.new ≡ with_terminal terminal number self.old) }
    {
        if number >= self.items.len() {
            return Ok(());
        }
        self.index.reserve()?;
        list_terminal(&mut self.items, number, terminal)?;
        self.index.push(terminal, number);
        self.terminals += 1;
        Ok(())
    }

    /// The entries, and their names.
    pub fn into_parts(self) -> (Vec<Net<'a, A>, A>, Names<'a, A>)
        ensures entries { result.0.items ≡ self.entry }
        ensures names { result.1 ≡ net_names self.entry }
    {
        (self.items, self.names)
    }

    /// The entries alone.
    pub fn into_vec(self) -> Vec<Net<'a, A>, A>
        ensures { result.items ≡ self.entry }
    {
        self.items
    }
}

/// The entries of a section while they are read: those that are whole, and the terminals so far of the one that is being
/// read.
#[derive(Drop)]
pub(crate) struct NetsBegun<'a, A: Allocator + Copy> {
    items: Vec<Net<'a, A>, A>,
    names: Names<'a, A>,
    index: TerminalIndex<A>,
    begun: Vec<Terminal, A>,
    terminals: usize,
    wires: usize,
}

impl<'a, A: Allocator + Copy> Model for NetsBegun<'a, A> {
    ghost use Rattle.std.specs.Prelude.{◌++◌, ◌∷◌, []};
    ghost use Rattle.leg_design_nets.specs.Steps.Index.{BegunNets, number_of, lists_of, IsIndexOf};

    ghost Value = { BegunNets };

    ghost view = { λ t. record { nets = t.items.items; terminals = t.begun.items } };

    ghost invariant = { λ t. IsIndexOf t.items.items (lists_of t.items.items ++ t.begun.items ∷ []) t.names (number_of t.index.numbers) t.terminals t.wires };
}

impl<'a, A: Allocator + Copy> NetsBegun<'a, A> {
    /// No entries.
    pub(crate) fn new(alloc: A) -> NetsBegun<'a, A>
        ensures { result ≡ record { nets = []; terminals = [] } }
    {
        NetsBegun {
            items: Vec::new(alloc),
            names: Names::new(alloc),
            index: TerminalIndex::new(alloc),
            begun: Vec::new(alloc),
            terminals: 0,
            wires: 0,
        }
    }

    /// How many entries are whole.
    pub(crate) fn len(&self) -> usize
        ensures { result ≡ length self.now.nets }
    {
        self.items.len()
    }

    /// Whether an entry has this name.
    pub(crate) fn has_name(&self, name: &[u8]) -> bool
        ensures { result ≡ is_some (place_of name.now (net_names self.now.nets)) }
    {
        self.names.place_of(name).is_some()
    }

    /// Whether a whole entry lists the terminal.
    fn is_listed(&self, terminal: &Terminal) -> bool
        ensures { result ≡ is_listed terminal.now self.now.nets }
    {
        match self.index.number_of(terminal) {
            Some(number) => number < self.items.len(),
            None => false,
        }
    }

    /// Whether the entry that is being read lists the terminal.
    fn is_begun(&self, terminal: &Terminal) -> bool
        ensures { result ≡ is_among terminal.now self.now.terminals }
    {
        match self.index.number_of(terminal) {
            Some(number) => number == self.items.len(),
            None => false,
        }
    }

    /// Adds a terminal, which no entry lists, to the entry that is being read. If an allocation fails, nothing changes.
    fn push(&mut self, terminal: Terminal) -> Result<(), AllocError>
        requires before { is_listed terminal self.old.nets ≡ false }
        requires here { is_among terminal self.old.terminals ≡ false }
        ensures { OnOk result (self.new ≡ record { nets = self.old.nets; terminals = self.old.terminals ++ terminal ∷ [] }) }
    {
        self.begun.reserve(1)?;
        self.index.reserve()?;
        self.index.push(terminal, self.items.len());
        self.begun.push(terminal).unwrap();
        Ok(())
    }

    /// One more terminal of the entry of this name that is being read. It counts once in its entry, and is in no other
    /// net, neither in one of this section nor in one of the other; else the fault is at the next word of `open`.
    #[tactic(auto, using(crate::proofs::ListedNets::other_split), unfolding(leg_grammar::specs::Def::Terminal::add_terminal))]
    pub(crate) fn add(
        &mut self,
        others: &NetTable<'a, A>,
        name: &[u8],
        terminal: Terminal,
        open: &Cursor<'_, '_>,
    ) -> Result<(), ReadFault>
        requires { place_of name.now (net_names self.old.nets) ≡ None }
        ensures said { Means (λ _. self.new.terminals) result (add_terminal name.now (self.old.nets ++ others.now) self.old.terminals terminal) }
        ensures kept { OnOk result (self.new.nets ≡ self.old.nets) }
    {
        if self.is_listed(&terminal) || others.is_of_other_net(name, &terminal) {
            return Err(open.fault(FaultKind::PinTwice));
        }
        if !self.is_begun(&terminal) {
            self.push(terminal)?;
        }
        Ok(())
    }

    /// Whether there are too many terminals, or too many wires, with those of the entry that is being read, which has
    /// this many wires, and those of the other section.
    pub(crate) fn is_too_large(&self, others: &NetTable<'a, A>, wires: usize) -> bool
        ensures { result ≡ (nat_lt PART_LIMIT (terminal_count self.now.nets + length self.now.terminals + terminal_count others.now)
            || nat_lt PART_LIMIT (wire_count self.now.nets + wires + wire_count others.now)) }
    {
        is_over(self.terminals, self.begun.len(), others.terminal_count())
            || is_over(self.wires, wires, others.wire_count())
    }

    /// The entry that is being read is whole, and has this name, which is new, this use and these wires.
    pub(crate) fn close(
        &mut self,
        alloc: A,
        name: &'a [u8],
        usage: Option<Name<'a>>,
        wires: Vec<Wire, A>,
    ) -> Result<(), AllocError>
        requires new { place_of name.now (net_names self.old.nets) ≡ None }
        requires few { terminal_count self.old.nets + length self.old.terminals ≤ PART_LIMIT }
        requires few_wires { wire_count self.old.nets + length wires.items ≤ PART_LIMIT }
        ensures { OnOk result (self.new ≡ record {
          nets = self.old.nets ++ (record { name = name.now; usage = usage.entry; terminals = self.old.terminals; wires = wires.items }) ∷ [];
          terminals = [];
        }) }
    {
        self.items.reserve(1)?;
        self.names.push(name)?;
        let terminals = mem::replace(&mut self.begun, Vec::new(alloc));
        self.terminals += terminals.len();
        self.wires += wires.len();
        self.items
            .push(Net {
                name: Name::new(name),
                usage,
                terminals: Items::from_vec(terminals),
                wires: Items::from_vec(wires),
            })
            .unwrap();
        Ok(())
    }

    /// The section is whole.
    pub(crate) fn finish(self) -> NetTable<'a, A>
        requires { self.terminals ≡ [] }
        ensures { result ≡ self.entry.nets }
    {
        NetTable {
            items: self.items,
            names: self.names,
            index: self.index,
            terminals: self.terminals,
            wires: self.wires,
        }
    }
}

// The entry of this number lists one more terminal. If an allocation fails, nothing changes.
fn list_terminal<'a, A: Allocator + Copy>(
    nets: &mut [Net<'a, A>],
    number: usize,
    terminal: Terminal,
) -> Result<(), AllocError>
    requires { number < length nets.old }
    ensures listed { OnOk result (nets.new ≡ with_terminal terminal number nets.old) }
    ensures unchanged { OnErr result (nets.new ≡ nets.old) }
{
    let net = &mut nets[number];
    net.terminals.push(terminal)?;
    Ok(())
}

// Whether three numbers of parts are together more than there may be.
fn is_over(a: usize, b: usize, c: usize) -> bool
    ensures { result ≡ nat_lt PART_LIMIT (a + b + c) }
{
    a.saturating_add(b).saturating_add(c) as u64 > PART_LIMIT
}
