//! The statements of a section.

ghost use Rattle.std.specs.Prelude.{◌≡◌, ◌-◌, ◌≤◌, length, take, IfOk, IfErr};
ghost use Rattle.std.specs.List.{list_any};
ghost use Rattle.leg_lex.specs.declared.read_fault.FaultKind.TheVariants.{Memory};
ghost use Rattle.leg_lex.specs.Statements.{is_semicolon};
ghost use Rattle.leg_drc_rules.specs.Section.{statements_in};

use crate::skip::{is_at_semicolon, skip};
use leg_lex::{Cursor, ReadFault};
use std::alloc::Allocator;

/// Whether there is a semicolon among the words up to where so many are left.
#[tactic(auto, using(crate::proofs::Cuts::mark_here, crate::proofs::Cuts::mark_later, crate::proofs::Cuts::mark_nowhere, crate::proofs::Cuts::skip_less))]
fn has_semicolon(words: &Cursor<'_, '_>, left: usize) -> bool
    ensures { result ≡ list_any is_semicolon (take (length words.now - left) words.now) }
{
    let mut words = words.again();
    'words: while words.len() > left {
        if is_at_semicolon(&words) {
            return true;
        }
        skip(&mut words, 1);
    }
    false
}

/// The statements among the words up to where so many are left.
#[tactic(auto, using(crate::proofs::Cuts::no_statement))]
pub(crate) fn statements<'t, 'a, A: Allocator + Copy>(
    alloc: A,
    words: &Cursor<'t, 'a>,
    left: usize,
) -> Result<Vec<Cursor<'t, 'a>, A>, ReadFault>
    requires { left ≤ length words.now }
    ensures found { IfOk result (λ v. v.items ≡ statements_in (take (length words.now - left) words.now)) }
    ensures memory { IfErr result (λ fault. fault.kind ≡ Memory) }
{
    let mut statements = Vec::new(alloc);
    let mut rest = words.again();
    'statements: while has_semicolon(&rest, left) {
        statements.push(rest.statement()?)?;
    }
    Ok(statements)
}
