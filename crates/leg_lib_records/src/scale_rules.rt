//! Nondefault rules in database units.

ghost use Rattle.std.specs.Prelude.{◌≡◌, ◌≢◌, ◌≤◌, List, [], IfOk, IfErr};
ghost use Rattle.leg_lib_records.specs.declared.scale_fault.ScaleKind.TheVariants.{Memory};
ghost use Rattle.leg_lib_records.specs.declared.records.RuleWidth.{RuleWidth};
ghost use Rattle.leg_lib_records.specs.Records.{RuleModel};
ghost use Rattle.leg_lib_records.specs.Scale.{IsRuleWidthAt, IsRuleAt, OneForOne};

use crate::items::Items;
use crate::raw::{RawRule, RawRuleWidth};
use crate::records::{Rule, RuleWidth};
use crate::scale::length_at;
use crate::scale_fault::{ScaleFault, ScaleKind};
use leg_lex::{Name, NamedList, UNITS_LIMIT};
use std::alloc::Allocator;

/// A width of a rule in database units.
fn width_at(raw: &RawRuleWidth, n: u32) -> Result<RuleWidth, ScaleKind>
    requires above { 1 ≤ n }
    requires within { n ≤ UNITS_LIMIT }
    ensures ok { IfOk result (λ width. IsRuleWidthAt n raw.now width) }
    ensures none { IfErr result (λ kind. (width : RuleWidth) → ¬ IsRuleWidthAt n raw.now width) }
{
    let width = length_at(raw.width, n)?;
    Ok(RuleWidth {
        layer: raw.layer,
        width,
    })
}

/// The widths of a rule in database units.
fn widths_at<A: Allocator + Copy>(
    alloc: A,
    raw: &[RawRuleWidth],
    n: u32,
) -> Result<Items<RuleWidth, A>, ScaleKind>
    requires above { 1 ≤ n }
    requires within { n ≤ UNITS_LIMIT }
    ensures ok { IfOk result (λ widths. OneForOne (IsRuleWidthAt n) raw.now widths) }
    ensures none { IfErr result (λ kind. kind ≢ Memory → (widths : List RuleWidth) → ¬ OneForOne (IsRuleWidthAt n) raw.now widths) }
{
    let mut widths = Vec::new(alloc);
    for width in raw {
        widths.push(width_at(width, n)?)?;
    }
    Ok(Items::from_vec(widths))
}

/// A nondefault rule in database units.
fn rule_at<'a, A: Allocator + Copy>(
    alloc: A,
    rule: &RawRule<'a, A>,
    n: u32,
) -> Result<Rule<'a, A>, ScaleFault<'a>>
    requires above { 1 ≤ n }
    requires within { n ≤ UNITS_LIMIT }
    ensures ok { IfOk result (λ scaled. IsRuleAt n rule.now scaled) }
    ensures none { IfErr result (λ fault. fault.kind ≢ Memory → (scaled : RuleModel) → ¬ IsRuleAt n rule.now scaled) }
    ensures nameless { IfErr result (λ fault. fault.kind ≡ Memory → fault.name ≡ []) }
{
    let name = Name::new(rule.name.bytes());
    match widths_at(alloc, rule.widths.as_slice(), n) {
        Ok(widths) => Ok(Rule { name, widths }),
        Err(kind) => Err(ScaleFault::of(name, kind)),
    }
}

/// The nondefault rules in database units.
pub(crate) fn rules_at<'a, A: Allocator + Copy>(
    alloc: A,
    raw: &NamedList<'a, RawRule<'a, A>, A>,
    n: u32,
) -> Result<NamedList<'a, Rule<'a, A>, A>, ScaleFault<'a>>
    requires above { 1 ≤ n }
    requires within { n ≤ UNITS_LIMIT }
    ensures ok { IfOk result (λ rules. OneForOne (IsRuleAt n) raw.now rules) }
    ensures none { IfErr result (λ fault. fault.kind ≢ Memory → (rules : List RuleModel) → ¬ OneForOne (IsRuleAt n) raw.now rules) }
    ensures nameless { IfErr result (λ fault. fault.kind ≡ Memory → fault.name ≡ []) }
{
    let mut rules = Vec::new(alloc);
    for rule in raw.as_slice() {
        rules.push(rule_at(alloc, rule, n)?)?;
    }
    Ok(raw.with_items(alloc, rules)?)
}
