//! The statements that state rules (LEF/DEF 5.8, "Layer (Cut)", "Layer (Routing)").

ghost use Rattle.std.specs.Prelude.{◌≡◌, ◌≢◌, IfErr};
ghost use Rattle.leg_lex.specs.declared.read_fault.FaultKind.TheVariants.{Memory};
ghost use Rattle.leg_lex.specs.Words.{Means};
ghost use Rattle.leg_drc_rules.specs.Forms.{one_number_form, same_net_form, supply_net_form, line_end_form, is_form, first_of};

use crate::table::table_form;
use leg_lex::{Cursor, ReadFault};

/// What a statement states.
#[derive(Clone, Copy, PartialEq, Eq, Debug)]
pub(crate) enum Form {
    /// `AREA`.
    Area,
    /// `MINWIDTH`.
    Width,
    /// `SPACING` with `SAMENET`, also of supplies alone.
    NetSpacing,
    /// `SPACING` with `SAMENET` of a cut layer.
    CutNetSpacing,
    /// `SPACINGTABLE PARALLELRUNLENGTH`.
    Table,
    /// `SPACING` with `ENDOFLINE`.
    LineEnd,
}

/// A keyword and a number.
#[tactic(auto, unfolding(crate::specs::Forms::one_number_form))]
fn one_number(statement: &mut Cursor<'_, '_>, keyword: &[u8]) -> Result<(), ReadFault>
    ensures means { Means (λ x. x) result (one_number_form keyword.now statement.old) }
    ensures no_memory { IfErr result (λ fault. fault.kind ≢ Memory) }
{
    statement.keyword(keyword)?;
    statement.any()?;
    statement.nothing_more()
}

/// `SPACING` of one net.
#[tactic(auto, unfolding(crate::specs::Forms::same_net_form))]
fn same_net(statement: &mut Cursor<'_, '_>) -> Result<(), ReadFault>
    ensures means { Means (λ x. x) result (same_net_form statement.old) }
    ensures no_memory { IfErr result (λ fault. fault.kind ≢ Memory) }
{
    statement.keyword(b"SPACING")?;
    statement.any()?;
    statement.keyword(b"SAMENET")?;
    statement.nothing_more()
}

/// `SPACING` of one net that is a supply.
#[tactic(auto, unfolding(crate::specs::Forms::supply_net_form))]
fn supply_net(statement: &mut Cursor<'_, '_>) -> Result<(), ReadFault>
    ensures means { Means (λ x. x) result (supply_net_form statement.old) }
    ensures no_memory { IfErr result (λ fault. fault.kind ≢ Memory) }
{
    statement.keyword(b"SPACING")?;
    statement.any()?;
    statement.keyword(b"SAMENET")?;
    statement.keyword(b"PGONLY")?;
    statement.nothing_more()
}

/// `SPACING` of an end of line.
#[tactic(auto, unfolding(crate::specs::Forms::line_end_form))]
fn line_end(statement: &mut Cursor<'_, '_>) -> Result<(), ReadFault>
    ensures means { Means (λ x. x) result (line_end_form statement.old) }
    ensures no_memory { IfErr result (λ fault. fault.kind ≢ Memory) }
{
    statement.keyword(b"SPACING")?;
    statement.any()?;
    statement.keyword(b"ENDOFLINE")?;
    statement.any()?;
    statement.keyword(b"WITHIN")?;
    statement.any()?;
    statement.nothing_more()
}

/// Whether a statement is of exactly this form.
pub(crate) fn is_form(form: Form, statement: &Cursor<'_, '_>) -> bool
    ensures { result ≡ is_form form statement.now }
{
    let mut words = statement.again();
    match form {
        Form::Area => one_number(&mut words, b"AREA").is_ok(),
        Form::Width => one_number(&mut words, b"MINWIDTH").is_ok(),
        Form::NetSpacing => {
            let mut same_words = statement.again();
            same_net(&mut words).is_ok() || supply_net(&mut same_words).is_ok()
        }
        Form::CutNetSpacing => same_net(&mut words).is_ok(),
        Form::Table => table_form(&mut words).is_ok(),
        Form::LineEnd => line_end(&mut words).is_ok(),
    }
}

/// The first statement of exactly this form.
#[tactic(auto, using(crate::proofs::Search::found_here, crate::proofs::Search::found_later, crate::proofs::Search::found_nowhere))]
pub(crate) fn first_of<'t, 'a>(form: Form, statements: &[Cursor<'t, 'a>]) -> Option<Cursor<'t, 'a>>
    ensures { result ≡ first_of form statements.now }
{
    for statement in statements {
        if is_form(form, statement) {
            return Some(statement.again());
        }
    }
    None
}
