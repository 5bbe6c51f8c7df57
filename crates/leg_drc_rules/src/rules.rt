//! The rules that the statements of a layer state (LEF/DEF 5.8, "Layer (Cut)", "Layer (Routing)").

ghost use Rattle.std.specs.Prelude.{◌≡◌, [], IfErr};
ghost use Rattle.leg_lex.specs.Until.{over};
ghost use Rattle.leg_lex.specs.Words.{Means};
ghost use Rattle.leg_drc_rules.specs.Fault.{IsNumberOrMemory};
ghost use Rattle.leg_drc_rules.specs.Records.{no_rules};
ghost use Rattle.leg_drc_rules.specs.Rules.{line_end_in, with_line_end, routing_rules, cut_rules, rules_in};

use crate::amount::{amount, amount_of_any};
use crate::form::{Form, first_of, is_form};
use crate::raw::{RawLayerRules, RawLineEnd};
use crate::skip::skip;
use crate::table::table_of_any;
use leg_lex::{Cursor, ReadFault};
use leg_lib_records::{Items, LayerKind};
use std::alloc::Allocator;

/// What a statement of an end of line says.
#[tactic(auto, unfolding(crate::specs::Rules::line_end_in))]
fn line_end_in(statement: &mut Cursor<'_, '_>) -> Result<RawLineEnd, ReadFault>
    ensures means { Means (λ e. e) result (line_end_in statement.old) }
    ensures number { IfErr result (λ fault. IsNumberOrMemory fault.kind) }
{
    skip(statement, 1);
    let spacing = amount(statement)?;
    skip(statement, 1);
    let width = amount(statement)?;
    skip(statement, 1);
    let within = amount(statement)?;
    Ok(RawLineEnd {
        spacing,
        width,
        within,
    })
}

/// Adds the end of line that a statement states, if it states one.
#[tactic(auto, unfolding(crate::specs::Rules::with_line_end))]
fn with_line_end<A: Allocator + Copy>(
    line_ends: &mut Vec<RawLineEnd, A>,
    statement: &Cursor<'_, '_>,
) -> Result<(), ReadFault>
    ensures means { Means (λ _. line_ends.new.items) result (with_line_end line_ends.old.items statement.now) }
    ensures number { IfErr result (λ fault. IsNumberOrMemory fault.kind) }
{
    if !is_form(Form::LineEnd, statement) {
        return Ok(());
    }
    line_ends.push(line_end_in(&mut statement.again())?)?;
    Ok(())
}

/// All ends of lines that statements state.
#[tactic(auto, using(leg_lex::proofs::EachElement::over_ends, leg_lex::proofs::EachElement::over_goes_on, leg_lex::proofs::EachElement::over_fails))]
fn line_ends<A: Allocator + Copy>(
    alloc: A,
    statements: &[Cursor<'_, '_>],
) -> Result<Items<RawLineEnd, A>, ReadFault>
    ensures means { Means (λ v. v) result (over with_line_end [] statements.now) }
    ensures number { IfErr result (λ fault. IsNumberOrMemory fault.kind) }
{
    let mut line_ends = Vec::new(alloc);
    for statement in statements {
        with_line_end(&mut line_ends, statement)?;
    }
    Ok(Items::from_vec(line_ends))
}

/// No rules.
fn no_rules<A: Allocator>(alloc: A) -> RawLayerRules<A>
    ensures { result ≡ no_rules }
{
    RawLayerRules {
        area: None,
        width: None,
        net_spacing: None,
        table: None,
        line_ends: Items::from_vec(Vec::new(alloc)),
    }
}

/// The rules of a routing layer with these statements.
#[tactic(auto, unfolding(crate::specs::Rules::routing_rules))]
fn routing_rules<A: Allocator + Copy>(
    alloc: A,
    statements: &[Cursor<'_, '_>],
) -> Result<RawLayerRules<A>, ReadFault>
    ensures means { Means (λ r. r) result (routing_rules statements.now) }
    ensures number { IfErr result (λ fault. IsNumberOrMemory fault.kind) }
{
    let area = amount_of_any(first_of(Form::Area, statements))?;
    let width = amount_of_any(first_of(Form::Width, statements))?;
    let net_spacing = amount_of_any(first_of(Form::NetSpacing, statements))?;
    let table = table_of_any(alloc, first_of(Form::Table, statements))?;
    let line_ends = line_ends(alloc, statements)?;
    Ok(RawLayerRules {
        area,
        width,
        net_spacing,
        table,
        line_ends,
    })
}

/// The rules of a cut layer with these statements.
#[tactic(auto, unfolding(crate::specs::Rules::cut_rules))]
fn cut_rules<A: Allocator + Copy>(
    alloc: A,
    statements: &[Cursor<'_, '_>],
) -> Result<RawLayerRules<A>, ReadFault>
    ensures means { Means (λ r. r) result (cut_rules statements.now) }
    ensures number { IfErr result (λ fault. IsNumberOrMemory fault.kind) }
{
    let net_spacing = amount_of_any(first_of(Form::CutNetSpacing, statements))?;
    let mut rules = no_rules(alloc);
    rules.net_spacing = net_spacing;
    Ok(rules)
}

/// The rules of a layer of this kind with these statements.
pub(crate) fn rules_in<A: Allocator + Copy>(
    alloc: A,
    kind: LayerKind,
    statements: &[Cursor<'_, '_>],
) -> Result<RawLayerRules<A>, ReadFault>
    ensures means { Means (λ r. r) result (rules_in kind statements.now) }
    ensures number { IfErr result (λ fault. IsNumberOrMemory fault.kind) }
{
    match kind {
        LayerKind::Routing { .. } => routing_rules(alloc, statements),
        LayerKind::Cut => cut_rules(alloc, statements),
        LayerKind::Other => Ok(no_rules(alloc)),
    }
}
