//! Nondefault rules, in the wide profile (LEF/DEF 5.8, "Nondefault Rule").

ghost use Rattle.std.specs.Prelude.{◌≡◌, []};
ghost use Rattle.leg_lex.specs.Until.{until};
ghost use Rattle.leg_lex.specs.Statements.{at_end};
ghost use Rattle.leg_lex.specs.Words.{Reads, Means};
ghost use Rattle.leg_grammar.specs.Lef.Rule.{is_at_rule, rule_width_in, rule_layer_at, rule_parts, has_width, with_width, past_rule_part, rule_part, with_rule};

use crate::named::second_definition;
use crate::skipped::{past_section, past_statement};
use crate::via::via_form;
use leg_grammar::Profile;
use leg_lex::{Cursor, FaultKind, Micron, Name, NameKind, Need, ReadFault, the};
use leg_lib_records::{Items, RawLibrary, RawRule, RawRuleWidth};
use std::alloc::Allocator;

/// Whether a rule is next that is read. In the narrow profile rules are read past.
pub(crate) fn is_at_rule(profile: Profile, words: &Cursor<'_, '_>) -> bool
    ensures { result ≡ is_at_rule profile words.now }
{
    profile.is_wide() && words.is_at(b"NONDEFAULTRULE")
}

/// The width that a `WIDTH` statement gives, above 0.
#[tactic(auto, unfolding(leg_grammar::specs::Lef::Rule::rule_width_in))]
fn width(statement: &mut Cursor<'_, '_>) -> Result<Micron, ReadFault>
    ensures { Means (λ w. w) result (rule_width_in statement.old) }
{
    statement.keyword(b"WIDTH")?;
    let number = statement.again();
    let width = statement.length()?;
    statement.nothing_more()?;
    if width.millionths() > 0 {
        Ok(width)
    } else {
        Err(number.need(FaultKind::TooLarge, Need::AboveZero))
    }
}

/// The width on a layer of the library, from `LAYER` to its `END`.
#[tactic(auto, unfolding(leg_grammar::specs::Lef::Rule::rule_layer_at))]
fn layer_width<A: Allocator + Copy>(
    alloc: A,
    library: &RawLibrary<'_, A>,
    words: &mut Cursor<'_, '_>,
) -> Result<RawRuleWidth, ReadFault>
    ensures { Reads (λ w. w) result words.new (rule_layer_at library.now words.old) }
{
    words.keyword(b"LAYER")?;
    let named = words.again();
    let name = words.name()?;
    let Some(layer) = library.layer_named(name) else {
        return Err(named.need(FaultKind::UnknownName, Need::Known(NameKind::Layer)));
    };
    let statements = words.statements(alloc)?;
    let mut statement = the(&statements, b"WIDTH", words)?;
    let width = width(&mut statement)?;
    words.end_of(name)?;
    Ok(RawRuleWidth { layer, width })
}

/// Whether a layer has a width already.
fn has_width(layer: usize, widths: &[RawRuleWidth]) -> bool
    ensures { result ≡ has_width layer widths.now }
{
    widths.iter().any(|width| width.layer == layer)
}

/// Adds the width that comes next, on a layer that has none.
#[tactic(auto, unfolding(leg_grammar::specs::Lef::Rule::with_width))]
fn width_part<A: Allocator + Copy>(
    alloc: A,
    library: &RawLibrary<'_, A>,
    widths: &mut Items<RawRuleWidth, A>,
    words: &mut Cursor<'_, '_>,
) -> Result<(), ReadFault>
    ensures { Reads (λ _. rule_parts library.now widths.new) result words.new (with_width (rule_parts library.now widths.old) words.old) }
{
    let first = words.again();
    let width = layer_width(alloc, library, words)?;
    if has_width(width.layer, widths.as_slice()) {
        return Err(first.need(FaultKind::Unexpected, Need::NoSecond));
    }
    widths.push(width)?;
    Ok(())
}

/// `SPACING`, and everything up to `END SPACING`, or any other statement.
#[tactic(auto, unfolding(leg_grammar::specs::Lef::Rule::past_rule_part))]
fn past_part(words: &mut Cursor<'_, '_>) -> Result<(), ReadFault>
    ensures { Reads (λ x. x) result words.new (past_rule_part words.old) }
{
    if words.is_at(b"SPACING") {
        past_section(b"SPACING", words)
    } else {
        past_statement(words)
    }
}

/// One more part of a rule: a width, a via, or what is read past.
#[tactic(auto, unfolding(leg_grammar::specs::Lef::Rule::rule_part, leg_grammar::specs::Lef::Rule::with_rule_via))]
fn part<'a, A: Allocator + Copy>(
    alloc: A,
    profile: Profile,
    library: &mut RawLibrary<'a, A>,
    widths: &mut Items<RawRuleWidth, A>,
    words: &mut Cursor<'_, 'a>,
) -> Result<(), ReadFault>
    ensures { Reads (λ _. rule_parts library.new widths.new) result words.new (rule_part profile (rule_parts library.old widths.old) words.old) }
{
    if words.is_at(b"LAYER") {
        width_part(alloc, library, widths, words)
    } else if words.is_at(b"VIA") {
        via_form(alloc, profile, library, words)
    } else {
        past_part(words)
    }
}

/// All parts of a rule, up to its `END`: its vias join those of the library, and its widths are returned.
#[tactic(auto, using(crate::proofs::Rules::parts_end, crate::proofs::Rules::parts_on, crate::proofs::Rules::parts_fail, crate::proofs::Rules::part_shorter))]
fn parts<'a, A: Allocator + Copy>(
    alloc: A,
    profile: Profile,
    library: &mut RawLibrary<'a, A>,
    words: &mut Cursor<'_, 'a>,
) -> Result<Items<RawRuleWidth, A>, ReadFault>
    ensures { Reads (λ widths. rule_parts library.new widths) result words.new (until at_end (rule_part profile) (rule_parts library.old []) words.old) }
{
    let mut widths = Items::from_vec(Vec::new(alloc));
    'parts: while !words.is_at(b"END") {
        part(alloc, profile, library, &mut widths, words)?;
    }
    Ok(widths)
}

/// Adds the rule that comes next, whose name is new, and its vias.
#[tactic(auto, unfolding(leg_grammar::specs::Lef::Rule::with_rule))]
pub(crate) fn rule_form<'a, A: Allocator + Copy>(
    alloc: A,
    profile: Profile,
    library: &mut RawLibrary<'a, A>,
    words: &mut Cursor<'_, 'a>,
) -> Result<(), ReadFault>
    ensures { Reads (λ _. library.new) result words.new (with_rule profile library.old words.old) }
{
    let first = words.again();
    words.keyword(b"NONDEFAULTRULE")?;
    let name = words.name()?;
    let widths = parts(alloc, profile, library, words)?;
    words.end_of(name)?;
    if library.rule_named(name).is_some() {
        return Err(second_definition(&first, NameKind::Rule));
    }
    library.push_rule(RawRule {
        name: Name::new(name),
        widths,
    })?;
    Ok(())
}
