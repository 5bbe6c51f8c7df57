//! What is asked of the statements of a block, and the clauses of a statement.

ghost use Rattle.std.specs.Prelude.{◌≡◌, ◌≢◌, IfOk, IfErr};
ghost use Rattle.leg_lex.specs.Words.{Means};
ghost use Rattle.leg_lex.specs.Statements.{only, the, clauses_of};

use crate::cursor::Cursor;
use crate::read_fault::{FaultKind, Keyword, Need, ReadFault};
use std::alloc::{AllocError, Allocator};

/// The statement of this keyword, if there is one. A second one is `Unexpected`.
#[tactic(auto, using(crate::proofs::StatementSearch::passed_over, crate::proofs::StatementSearch::found_first))]
pub fn only<'t, 'a>(
    statements: &[Cursor<'t, 'a>],
    keyword: &[u8],
) -> Result<Option<Cursor<'t, 'a>>, ReadFault>
    ensures means { Means (λ found. found) result (only keyword.now statements.now) }
    ensures no_memory { IfErr result (λ fault. fault.kind ≢ FaultKind.Memory) }
{
    let mut found = None;
    for statement in statements {
        if statement.is_at(keyword) {
            if found.is_some() {
                return Err(statement.need(FaultKind::Unexpected, Need::NoSecond));
            }
            found = Some(statement.again());
        }
    }
    Ok(found)
}

/// The statement of this keyword. Where there is none, the next word of `end` is `Unexpected`; so is a
/// second one.
#[tactic(auto, unfolding(crate::specs::Statements::the))]
pub fn the<'t, 'a>(
    statements: &[Cursor<'t, 'a>],
    keyword: &[u8],
    end: &Cursor<'t, 'a>,
) -> Result<Cursor<'t, 'a>, ReadFault>
    ensures means { Means (λ found. found) result (the keyword.now statements.now) }
    ensures no_memory { IfErr result (λ fault. fault.kind ≢ FaultKind.Memory) }
{
    match only(statements, keyword)? {
        Some(statement) => Ok(statement),
        None => Err(end.need(
            FaultKind::Unexpected,
            Need::Statement(Keyword::new(keyword)),
        )),
    }
}

/// The head of a statement and its clauses, each without the `+` that it begins with.
#[tactic(auto, using(crate::proofs::StatementSearch::clause_shorter, crate::proofs::StatementSearch::last_clause))]
pub fn clauses<'t, 'a, A: Allocator + Copy>(
    alloc: A,
    statement: &Cursor<'t, 'a>,
) -> Result<Vec<Cursor<'t, 'a>, A>, AllocError>
    ensures { IfOk result (λ clauses. clauses.items ≡ clauses_of statement.now) }
{
    let mut clauses = Vec::new(alloc);
    let mut rest = statement.again();
    'clauses: while let Some(clause) = rest.up_to(b'+') {
        clauses.push(clause)?;
    }
    clauses.push(rest)?;
    Ok(clauses)
}
