//! Which entry of a section lists a terminal.

ghost use Rattle.std.specs.Prelude.{◌≡◌, ◌<◌, cond, None, Some, OnOk};
ghost use Rattle.std.specs.HashMap.{spare};
ghost use Rattle.leg_design_records.specs.declared.records.Terminal.{Terminal};
ghost use Rattle.leg_design_records.specs.Terminals.{is_same_terminal};
ghost use Rattle.leg_design_nets.specs.Steps.Index.{number_of};

use leg_design_records::Terminal;
use std::alloc::{AllocError, Allocator};
use std::collections::HashMap;
use std::hash::{BuildHasherDefault, FoldHasher};

/// The number of the entry that lists a terminal.
#[derive(Drop)]
pub(crate) struct TerminalIndex<A: Allocator> {
    pub(crate) numbers: HashMap<Terminal, usize, BuildHasherDefault<FoldHasher>, A>,
}

impl<A: Allocator + Copy> TerminalIndex<A> {
    /// No terminals.
    pub(crate) fn new(alloc: A) -> TerminalIndex<A>
        ensures { (terminal : Terminal) → number_of result.numbers terminal ≡ None }
    {
        TerminalIndex {
            numbers: HashMap::with_hasher(alloc, BuildHasherDefault::new()),
        }
    }

    /// The number of the entry that lists the terminal, if one does.
    pub(crate) fn number_of(&self, terminal: &Terminal) -> Option<usize>
        ensures { result ≡ number_of self.now.numbers terminal.now }
    {
        self.numbers.get(terminal).copied()
    }

    /// Takes memory for one more terminal.
    pub(crate) fn reserve(&mut self) -> Result<(), AllocError>
        ensures same { (terminal : Terminal) → number_of self.new.numbers terminal ≡ number_of self.old.numbers terminal }
        ensures room { OnOk result (0 < spare self.new.numbers) }
    {
        self.numbers.reserve(1)?;
        Ok(())
    }

    /// Adds a terminal that the entry of this number lists, for which there is memory.
    pub(crate) fn push(&mut self, terminal: Terminal, number: usize)
        requires { 0 < spare self.old.numbers }
        ensures { (other : Terminal) → number_of self.new.numbers other
            ≡ cond (is_same_terminal terminal other) (Some number) (number_of self.old.numbers other) }
    {
        let inserted: Result<_, _> = self.numbers.insert(terminal, number);
        inserted.unwrap();
    }
}
