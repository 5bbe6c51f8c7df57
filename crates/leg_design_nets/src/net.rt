//! Entries of `NETS` and `SPECIALNETS` (LEF/DEF 5.8, "Nets", "Special Nets").

ghost use Rattle.std.specs.Prelude.{◌≡◌, ◌++◌, ◌+◌, [], nat_le, Some, None, IfOk, OnOk};
ghost use Rattle.leg_lex.specs.Words.{Reads, Means};
ghost use Rattle.leg_lex.specs.Until.{until, over};
ghost use Rattle.leg_lex.specs.Statements.{at_end};
ghost use Rattle.leg_lex.specs.NameLookup.{place_of};
ghost use Rattle.leg_design_records.specs.declared.limits.TheConstants.{ENTRY_LIMIT};
ghost use Rattle.leg_design_records.specs.Records.{net_names};
ghost use Rattle.leg_grammar.specs.Def.Terminal.{add_terminal, terminal_form, at_no_terminal};
ghost use Rattle.leg_grammar.specs.Def.Net.{is_left_out_of_wiring, is_left_out, use_clause, is_rule_clause, rule_clause, wiring_clause, shape_clause, from_plus, past_clause, clause_at, net_clause, plain_clauses, net_name_at, net_in, net_entry, nets_at};

use crate::known_pins::KnownPins;
use crate::net_table::{NetTable, NetsBegun};
use crate::terminal::terminals;
use leg_design_common::{NetScope, section_start};
use leg_design_records::{ENTRY_LIMIT, Terminal, Wire, net_section};
use leg_design_wires::{is_wiring, rule, shape, wiring};
use leg_grammar::Profile;
use leg_lex::{Cursor, Entry, FaultKind, Name, NameKind, Need, ReadFault, is_keyword};
use std::alloc::Allocator;
use std::marker::Model;

/// What the clauses of an entry gave so far.
#[derive(Drop)]
struct Parts<'a, A: Allocator> {
    usage: Option<Name<'a>>,
    wires: Vec<Wire, A>,
    rule: Option<usize>,
}

impl<'a, A: Allocator> Model for Parts<'a, A> {
    ghost use Rattle.leg_grammar.specs.Def.Net.{NetParts};

    ghost Value = { NetParts };

    ghost view = { λ p. record { usage = p.usage; wires = p.wires.items; rule = p.rule } };
}

/// Whether a clause begins with a word that wiring may not have.
fn is_left_out_of_wiring(clause: &Cursor<'_, '_>) -> bool
    ensures { result ≡ is_left_out_of_wiring clause.now }
{
    clause.is_at(b"TAPERRULE")
        || clause.is_at(b"STYLE")
        || clause.is_at(b"MASK")
        || clause.is_at(b"VIRTUAL")
}

/// Whether a clause is one that would change a shape or a rule.
fn is_left_out(special: bool, clause: &Cursor<'_, '_>) -> bool
    ensures { result ≡ is_left_out special clause.now }
{
    clause.is_at(b"NONDEFAULTRULE")
        || clause.is_at(b"SUBNET")
        || clause.is_at(b"VPIN")
        || is_left_out_of_wiring(clause)
        || (special && (clause.is_at(b"RECT") || clause.is_at(b"POLYGON") || clause.is_at(b"VIA")))
}

/// Whether a clause names the rule of an entry: in `NETS` of the wide profile alone.
fn is_rule_clause(profile: Profile, special: bool, clause: &Cursor<'_, '_>) -> bool
    ensures { result ≡ is_rule_clause profile special clause.now }
{
    profile.is_wide() && !special && clause.is_at(b"NONDEFAULTRULE")
}

/// Reads past the words up to the next `+`.
#[tactic(auto, using(crate::proofs::NetClauses::from_plus_on, crate::proofs::NetClauses::from_plus_here, crate::proofs::NetClauses::from_plus_all, crate::proofs::NetClauses::surely_next, leg_lex::proofs::ReadPast::next_shorter))]
fn from_plus(words: &mut Cursor<'_, '_>) -> Result<(), ReadFault>
    ensures { Reads (λ x. x) result words.new (Some (tt, from_plus words.old)) }
{
    'words: while !words.is_at_end() && !words.is_at(b"+") {
        words.any()?;
    }
    Ok(())
}

impl<'a, A: Allocator + Copy> Parts<'a, A> {
    /// `USE word`, at most once.
    #[tactic(auto, unfolding(leg_grammar::specs::Def::Net::use_clause))]
    fn use_clause(&mut self, clause: &mut Cursor<'_, 'a>) -> Result<(), ReadFault>
        ensures { Reads (λ _. self.new) result clause.new (use_clause self.old clause.old) }
    {
        if self.usage.is_some() {
            return Err(clause.need(FaultKind::Unexpected, Need::NoSecond));
        }
        clause.keyword(b"USE")?;
        let word = clause.word()?;
        self.usage = Some(Name::new(word));
        Ok(())
    }

    /// `NONDEFAULTRULE rule`, at most once.
    #[tactic(auto, unfolding(leg_grammar::specs::Def::Net::rule_clause))]
    fn rule_clause(
        &mut self,
        scope: &NetScope<'_, 'a, A>,
        clause: &mut Cursor<'_, 'a>,
    ) -> Result<(), ReadFault>
        ensures { Reads (λ _. self.new) result clause.new (rule_clause scope.now self.old clause.old) }
    {
        if self.rule.is_some() {
            return Err(clause.need(FaultKind::Unexpected, Need::NoSecond));
        }
        clause.keyword(b"NONDEFAULTRULE")?;
        let number = rule(scope, clause)?;
        self.rule = Some(number);
        Ok(())
    }

    /// More wires.
    #[tactic(auto, unfolding(leg_grammar::specs::Def::Net::wiring_clause))]
    fn wiring_clause(
        &mut self,
        alloc: A,
        scope: &NetScope<'_, 'a, A>,
        special: bool,
        clause: &mut Cursor<'_, 'a>,
    ) -> Result<(), ReadFault>
        ensures { Reads (λ _. self.new) result clause.new (wiring_clause scope.now special self.old clause.old) }
    {
        let wires = wiring(alloc, scope, special, clause)?;
        self.wires.extend_from_slice(&wires)?;
        Ok(())
    }

    /// A clause that would change a shape or a rule, where the profile reads it.
    #[tactic(auto, unfolding(leg_grammar::specs::Def::Net::shape_clause))]
    fn shape_clause(
        &mut self,
        alloc: A,
        scope: &NetScope<'_, 'a, A>,
        special: bool,
        clause: &mut Cursor<'_, 'a>,
    ) -> Result<(), ReadFault>
        ensures { Reads (λ _. self.new) result clause.new (shape_clause scope.now special self.old clause.old) }
    {
        let wires = shape(alloc, scope.profile, scope, special, clause)?;
        self.wires.extend_from_slice(&wires)?;
        Ok(())
    }

    /// Another clause is read past.
    #[tactic(auto, unfolding(leg_grammar::specs::Def::Net::past_clause))]
    fn past_clause(&self, clause: &mut Cursor<'_, 'a>) -> Result<(), ReadFault>
        ensures { Reads (λ _. self.now) result clause.new (past_clause self.now clause.old) }
    {
        clause.word()?;
        from_plus(clause)
    }

    /// One more clause, from the word after its `+`.
    #[inline(always)]
    #[tactic(auto, unfolding(leg_grammar::specs::Def::Net::clause_at))]
    fn clause(
        &mut self,
        alloc: A,
        scope: &NetScope<'_, 'a, A>,
        special: bool,
        clause: &mut Cursor<'_, 'a>,
    ) -> Result<(), ReadFault>
        ensures { Reads (λ _. self.new) result clause.new (clause_at scope.now special self.old clause.old) }
    {
        if clause.is_at(b"USE") {
            self.use_clause(clause)
        } else if is_wiring(special, clause) {
            self.wiring_clause(alloc, scope, special, clause)
        } else if is_rule_clause(scope.profile, special, clause) {
            self.rule_clause(scope, clause)
        } else if is_left_out(special, clause) {
            self.shape_clause(alloc, scope, special, clause)
        } else {
            self.past_clause(clause)
        }
    }

    /// One more clause.
    #[inline(always)]
    #[tactic(auto, unfolding(leg_grammar::specs::Def::Net::net_clause))]
    fn add(
        &mut self,
        alloc: A,
        scope: &NetScope<'_, 'a, A>,
        special: bool,
        words: &mut Cursor<'_, 'a>,
    ) -> Result<(), ReadFault>
        ensures { Reads (λ _. self.new) result words.new (net_clause scope.now special self.old words.old) }
    {
        words.mark(b'+')?;
        self.clause(alloc, scope, special, words)
    }
}

/// The clauses of an entry under no rule, or under that of the scope, up to its end.
#[inline(always)]
#[tactic(auto, using(crate::proofs::NetClauses::clauses_on, crate::proofs::NetClauses::clauses_end, crate::proofs::NetClauses::clauses_fail, crate::proofs::NetClauses::net_clause_shorter))]
fn all_clauses<'a, A: Allocator + Copy>(
    alloc: A,
    scope: &NetScope<'_, 'a, A>,
    special: bool,
    words: &mut Cursor<'_, 'a>,
) -> Result<Parts<'a, A>, ReadFault>
    ensures { Reads (λ p. p) result words.new (plain_clauses scope.now special words.old) }
{
    let mut parts = Parts {
        usage: None,
        wires: Vec::new(alloc),
        rule: None,
    };
    'clauses: while !words.is_at_end() {
        parts.add(alloc, scope, special, words)?;
    }
    Ok(parts)
}

/// The terminals of a pair of parentheses are added to the entry of this name that is being read. A fault is at the next
/// word of `open`.
#[tactic(auto, using(crate::proofs::NetEntries::added_on, crate::proofs::NetEntries::added_fail, crate::proofs::NetEntries::added_end))]
fn add_all<'a, A: Allocator + Copy>(
    others: &NetTable<'a, A>,
    name: &[u8],
    terminals: &[Terminal],
    open: &Cursor<'_, '_>,
    table: &mut NetsBegun<'a, A>,
) -> Result<(), ReadFault>
    requires { place_of name.now (net_names table.old.nets) ≡ None }
    ensures said { Means (λ _. table.new.terminals) result (over (add_terminal name.now (table.old.nets ++ others.now)) table.old.terminals terminals.now) }
    ensures kept { OnOk result (table.new.nets ≡ table.old.nets) }
{
    for terminal in terminals {
        table.add(others, name, *terminal, open)?;
    }
    Ok(())
}

/// One more pair of parentheses.
#[tactic(auto, unfolding(leg_grammar::specs::Def::Terminal::terminal_form))]
fn terminal_form<'a, A: Allocator + Copy>(
    alloc: A,
    scope: &KnownPins<'_, '_, 'a, A>,
    special: bool,
    others: &NetTable<'a, A>,
    name: &[u8],
    table: &mut NetsBegun<'a, A>,
    words: &mut Cursor<'_, 'a>,
) -> Result<(), ReadFault>
    requires { place_of name.now (net_names table.old.nets) ≡ None }
    ensures said { Reads (λ _. table.new.terminals) result words.new
        (terminal_form scope.now special name.now (table.old.nets ++ others.now) table.old.terminals words.old) }
    ensures kept { OnOk result (table.new.nets ≡ table.old.nets) }
{
    let open = words.again();
    let said = terminals(alloc, scope, special, words)?;
    add_all(others, name, &said, &open, table)
}

/// The terminals of an entry, up to its clauses.
#[tactic(auto, using(crate::proofs::NetEntries::terminals_on, crate::proofs::NetEntries::terminals_fail, crate::proofs::NetEntries::terminals_end, crate::proofs::NetEntries::terminal_form_shorter))]
fn all_terminals<'a, A: Allocator + Copy>(
    alloc: A,
    scope: &KnownPins<'_, '_, 'a, A>,
    special: bool,
    others: &NetTable<'a, A>,
    name: &[u8],
    table: &mut NetsBegun<'a, A>,
    words: &mut Cursor<'_, 'a>,
) -> Result<(), ReadFault>
    requires { place_of name.now (net_names table.old.nets) ≡ None }
    ensures said { Reads (λ _. table.new.terminals) result words.new
        (until at_no_terminal (terminal_form scope.now special name.now (table.old.nets ++ others.now)) table.old.terminals words.old) }
    ensures kept { OnOk result (table.new.nets ≡ table.old.nets) }
{
    'terminals: while words.is_at(b"(") {
        terminal_form(alloc, scope, special, others, name, table, words)?;
    }
    Ok(())
}

/// A name that no entry of the section has, and not `MUSTJOIN`.
#[tactic(auto, using(crate::proofs::NetEntries::new_name), unfolding(leg_grammar::specs::Def::Net::net_name_at))]
fn net_name<'a, A: Allocator + Copy>(
    table: &NetsBegun<'a, A>,
    words: &mut Cursor<'_, 'a>,
) -> Result<&'a [u8], ReadFault>
    ensures said { Reads (λ name. name.now) result words.new (net_name_at table.now.nets words.old) }
    ensures new { IfOk result (λ name. place_of name.now (net_names table.now.nets) ≡ None) }
{
    let first = words.again();
    let name = words.name()?;
    if is_keyword(b"MUSTJOIN", name) {
        return Err(first.fault(FaultKind::Unsupported));
    }
    if table.has_name(name) {
        return Err(first.need(FaultKind::DuplicateName, Need::New(NameKind::Net)));
    }
    Ok(name)
}

/// The name, the terminals and the clauses of an entry; its terminals are those of the entry that is being read. Where a clause names a
/// rule, all clauses are read again under it.
#[tactic(auto, unfolding(leg_grammar::specs::Def::Net::net_in, leg_grammar::specs::Def::Net::clauses_under))]
fn net<'a, A: Allocator + Copy>(
    alloc: A,
    scope: &KnownPins<'_, '_, 'a, A>,
    special: bool,
    others: &NetTable<'a, A>,
    table: &mut NetsBegun<'a, A>,
    statement: &mut Cursor<'_, 'a>,
) -> Result<(&'a [u8], Parts<'a, A>), ReadFault>
    requires { table.old.terminals ≡ [] }
    ensures said { Means (λ n. record { name = n.0.now; usage = n.1.usage; terminals = table.new.terminals; wires = n.1.wires }) result
        (net_in scope.now special others.now table.old.nets statement.old) }
    ensures kept { OnOk result (table.new.nets ≡ table.old.nets) }
    ensures new { IfOk result (λ n. place_of n.0.now (net_names table.old.nets) ≡ None) }
{
    statement.mark(b'-')?;
    let name = net_name(table, statement)?;
    all_terminals(alloc, scope, special, others, name, table, statement)?;
    let mut first = statement.again();
    let mut parts = all_clauses(alloc, scope.scope(), special, &mut first)?;
    if let Some(rule) = parts.rule {
        parts = all_clauses(alloc, &scope.scope().under(rule), special, statement)?;
    }
    Ok((name, parts))
}

/// Whether there is no room for another entry where this section and the other already have these numbers of entries.
fn is_full(entries: usize, others: usize) -> bool
    ensures { result ≡ nat_le ENTRY_LIMIT (entries + others) }
{
    entries.saturating_add(others) as u64 >= ENTRY_LIMIT
}

/// One more entry.
#[tactic(auto, using(crate::proofs::NetEntries::too_many, crate::proofs::NetEntries::few_terminals, crate::proofs::NetEntries::few_wires), unfolding(leg_grammar::specs::Def::Net::net_entry))]
fn entry<'a, A: Allocator + Copy>(
    alloc: A,
    scope: &KnownPins<'_, '_, 'a, A>,
    special: bool,
    others: &NetTable<'a, A>,
    table: &mut NetsBegun<'a, A>,
    words: &mut Cursor<'_, 'a>,
) -> Result<(), ReadFault>
    requires { table.old.terminals ≡ [] }
    ensures said { Reads (λ _. table.new.nets) result words.new (net_entry scope.now special others.now table.old.nets words.old) }
    ensures closed { OnOk result (table.new.terminals ≡ []) }
{
    let first = words.again();
    if is_full(table.len(), others.len()) {
        return Err(first.need(FaultKind::TooMany, Need::Fewer(Entry::Net)));
    }
    let mut statement = words.statement()?;
    let (name, parts) = net(alloc, scope, special, others, table, &mut statement)?;
    if table.is_too_large(others, parts.wires.len()) {
        return Err(first.need(FaultKind::TooMany, Need::Fewer(Entry::NetPart)));
    }
    table.close(alloc, name, parts.usage, parts.wires)?;
    Ok(())
}

/// The entries of a section, up to its `END`.
#[tactic(auto, using(leg_lex::proofs::Until::ends, leg_lex::proofs::Until::goes_on, leg_lex::proofs::Until::fails, crate::proofs::NetEntries::net_entry_shortens, crate::proofs::NetEntries::net_entry_shorter))]
fn entries<'a, A: Allocator + Copy>(
    alloc: A,
    scope: &KnownPins<'_, '_, 'a, A>,
    special: bool,
    others: &NetTable<'a, A>,
    words: &mut Cursor<'_, 'a>,
) -> Result<NetTable<'a, A>, ReadFault>
    ensures { Reads (λ t. t) result words.new (until at_end (net_entry scope.now special others.now) [] words.old) }
{
    let mut table = NetsBegun::new(alloc);
    'entries: while !words.is_at(b"END") {
        entry(alloc, scope, special, others, &mut table, words)?;
    }
    Ok(table.finish())
}

/// The same, with an index of what the entries name, which is made first.
fn indexed_entries<'a, A: Allocator + Copy>(
    alloc: A,
    scope: &NetScope<'_, 'a, A>,
    special: bool,
    others: &NetTable<'a, A>,
    words: &mut Cursor<'_, 'a>,
) -> Result<NetTable<'a, A>, ReadFault>
    ensures { Reads (λ t. t) result words.new (until at_end (net_entry scope.now special others.now) [] words.old) }
{
    let scope = KnownPins::new(alloc, scope)?;
    entries(alloc, &scope, special, others, words)
}

/// The section `NETS`, or `SPECIALNETS` where `special`; the other section has the entries `others`.
#[tactic(auto, unfolding(leg_grammar::specs::Def::Net::nets_at, leg_grammar::specs::Def::Section::section_at))]
pub fn nets<'a, A: Allocator + Copy>(
    alloc: A,
    scope: &NetScope<'_, 'a, A>,
    special: bool,
    others: &NetTable<'a, A>,
    words: &mut Cursor<'_, 'a>,
) -> Result<NetTable<'a, A>, ReadFault>
    ensures { Reads (λ t. t) result words.new (nets_at scope.now special others.now words.old) }
{
    section_start(net_section(special), words)?;
    let start = words.again();
    let table = match indexed_entries(alloc, scope, special, others, words) {
        Ok(table) => table,
        Err(fault) => return Err(start.with_first_entry(fault)),
    };
    words.end(net_section(special))?;
    Ok(table)
}
