//! Nondefault rules of a DEF (LEF/DEF 5.8, "Nondefault Rules").

ghost use Rattle.std.specs.Prelude.{◌≡◌, ◌==◌, [], Some};
ghost use Rattle.std.specs.List.{list_any};
ghost use Rattle.leg_lex.specs.Words.{Reads, Means};
ghost use Rattle.leg_lex.specs.Until.{over, until};
ghost use Rattle.leg_lex.specs.Statements.{at_end};
ghost use Rattle.leg_grammar.specs.Def.Rule.{layer_width_at, rule_clause, rule_head, rule_in, with_rule, rule_entry, rules_at};

use leg_design_common::layers::{has_metal, layer};
use leg_design_common::section_start;
use leg_lex::{Cursor, FaultKind, Name, NameKind, NamedList, Need, ReadFault, clauses};
use leg_lib_records::{Items, Library, Rule, RuleWidth};
use std::alloc::Allocator;

/// Whether one of the widths is of this layer.
fn has_width(widths: &[RuleWidth], layer: usize) -> bool
    ensures { result ≡ list_any (λ w. w.layer == layer) widths.now }
{
    widths.iter().any(|width| width.layer == layer)
}

/// Adds the width of a clause `LAYER`. A layer without metal, or of which there is a width, is `Unexpected`, and a width below 1
/// `TooLarge`.
#[tactic(auto, unfolding(leg_grammar::specs::Def::Rule::layer_width_at))]
fn layer_width<A: Allocator + Copy>(
    library: &Library<'_, A>,
    widths: &mut Items<RuleWidth, A>,
    part: &mut Cursor<'_, '_>,
) -> Result<(), ReadFault>
    ensures { Means (λ _. widths.new) result (layer_width_at library.now widths.old part.old) }
{
    part.keyword(b"LAYER")?;
    let named = part.again();
    let layer = layer(library, part)?;
    if !has_metal(library, layer) {
        return Err(named.fault(FaultKind::Unexpected));
    }
    if has_width(widths.as_slice(), layer) {
        return Err(named.fault(FaultKind::Unexpected));
    }
    part.keyword(b"WIDTH")?;
    let number = part.again();
    let width = part.whole()?;
    if 1 <= width {
        widths.push(RuleWidth { layer, width })?;
        Ok(())
    } else {
        Err(number.need(FaultKind::TooLarge, Need::AtLeast(1)))
    }
}

/// One more clause. Others than `LAYER` are read past.
#[tactic(auto, unfolding(leg_grammar::specs::Def::Rule::rule_clause))]
fn rule_clause<A: Allocator + Copy>(
    library: &Library<'_, A>,
    widths: &mut Items<RuleWidth, A>,
    part: &mut Cursor<'_, '_>,
) -> Result<(), ReadFault>
    ensures { Means (λ _. widths.new) result (rule_clause library.now widths.old part.old) }
{
    if part.is_at(b"LAYER") {
        layer_width(library, widths, part)
    } else {
        Ok(())
    }
}

/// The widths that all clauses of a rule give.
#[tactic(auto, using(leg_lex::proofs::EachElement::over_ends, leg_lex::proofs::EachElement::over_goes_on, leg_lex::proofs::EachElement::over_fails))]
fn all_widths<A: Allocator + Copy>(
    alloc: A,
    library: &Library<'_, A>,
    clauses: &[Cursor<'_, '_>],
) -> Result<Items<RuleWidth, A>, ReadFault>
    ensures { Means (λ w. w) result (over (rule_clause library.now) [] clauses.now) }
{
    let mut widths = Items::from_vec(Vec::new(alloc));
    for part in clauses {
        rule_clause(library, &mut widths, &mut part.again())?;
    }
    Ok(widths)
}

/// The entry's head: `- NAME`, a name that no rule before has.
#[tactic(auto, unfolding(leg_grammar::specs::Def::Rule::rule_head))]
fn rule_head<'a, A: Allocator + Copy>(
    rules: &NamedList<'a, Rule<'a, A>, A>,
    head: &mut Cursor<'_, 'a>,
) -> Result<&'a [u8], ReadFault>
    ensures { Means (λ name. name.now) result (rule_head rules.now head.old) }
{
    head.mark(b'-')?;
    let named = head.again();
    let name = head.name()?;
    if rules.place_of(name).is_some() {
        return Err(named.need(FaultKind::DuplicateName, Need::New(NameKind::Rule)));
    }
    head.nothing_more()?;
    Ok(name)
}

/// A rule of the head and the clauses of its entry.
#[tactic(auto, unfolding(leg_grammar::specs::Def::Rule::rule_in))]
fn rule<'a, A: Allocator + Copy>(
    alloc: A,
    library: &Library<'_, A>,
    rules: &NamedList<'a, Rule<'a, A>, A>,
    entry: &Cursor<'_, 'a>,
    parts: &[Cursor<'_, 'a>],
) -> Result<Rule<'a, A>, ReadFault>
    ensures { Means (λ r. r) result (rule_in library.now rules.now parts.now) }
{
    let [head, clauses @ ..] = parts else {
        return Err(entry.fault(FaultKind::Unexpected));
    };
    let name = rule_head(rules, &mut head.again())?;
    let widths = all_widths(alloc, library, clauses)?;
    Ok(Rule {
        name: Name::new(name),
        widths,
    })
}

/// Adds the rule of an entry, if it can be read as one.
#[tactic(auto, using(crate::proofs::Rules::rule_is_new))]
fn add_rule<'a, A: Allocator + Copy>(
    alloc: A,
    library: &Library<'_, A>,
    rules: &mut NamedList<'a, Rule<'a, A>, A>,
    entry: &Cursor<'_, 'a>,
    parts: &[Cursor<'_, 'a>],
) -> Result<(), ReadFault>
    ensures { Means (λ _. rules.new) result (Some (with_rule rules.old (rule_in library.now rules.old parts.now))) }
{
    match rule(alloc, library, rules, entry, parts) {
        Ok(rule) => {
            rules.push(rule.name.bytes(), rule)?;
            Ok(())
        }
        Err(fault) if fault.kind == FaultKind::Memory => Err(fault),
        Err(_) => Ok(()),
    }
}

/// One more entry, up to its semicolon.
#[tactic(auto, unfolding(leg_grammar::specs::Def::Rule::rule_entry))]
fn entry<'a, A: Allocator + Copy>(
    alloc: A,
    library: &Library<'_, A>,
    rules: &mut NamedList<'a, Rule<'a, A>, A>,
    words: &mut Cursor<'_, 'a>,
) -> Result<(), ReadFault>
    ensures { Reads (λ _. rules.new) result words.new (rule_entry library.now rules.old words.old) }
{
    let statement = words.statement()?;
    let parts = clauses(alloc, &statement)?;
    add_rule(alloc, library, rules, &statement, &parts)
}

/// The entries of the section, up to its `END`.
#[tactic(auto, using(leg_lex::proofs::Until::ends, leg_lex::proofs::Until::goes_on, leg_lex::proofs::Until::fails, crate::proofs::Rules::rule_shortens, crate::proofs::Rules::rule_shorter))]
fn entries<'a, A: Allocator + Copy>(
    alloc: A,
    library: &Library<'_, A>,
    words: &mut Cursor<'_, 'a>,
) -> Result<NamedList<'a, Rule<'a, A>, A>, ReadFault>
    ensures { Reads (λ r. r) result words.new (until at_end (rule_entry library.now) [] words.old) }
{
    let mut rules = NamedList::new(alloc);
    'entries: while !words.is_at(b"END") {
        entry(alloc, library, &mut rules, words)?;
    }
    Ok(rules)
}

/// The section `NONDEFAULTRULES`: the rules of those of its entries that can be read as rules.
#[tactic(auto, unfolding(leg_grammar::specs::Def::Rule::rules_at, leg_grammar::specs::Def::Section::section_at))]
pub fn rules<'a, A: Allocator + Copy>(
    alloc: A,
    library: &Library<'_, A>,
    words: &mut Cursor<'_, 'a>,
) -> Result<NamedList<'a, Rule<'a, A>, A>, ReadFault>
    ensures { Reads (λ r. r) result words.new (rules_at library.now words.old) }
{
    section_start(b"NONDEFAULTRULES", words)?;
    let rules = entries(alloc, library, words)?;
    words.end(b"NONDEFAULTRULES")?;
    Ok(rules)
}
