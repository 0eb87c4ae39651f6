//! The changes of statements in which each `<=` that assigns becomes `=`.
ghost use Rattle.std.specs.Prelude.{◌≡◌, ◌<◌, ◌+◌, ◌^◌, ◌++◌, ◌∷◌, [], length, IfOk};
ghost use Rattle.rr_syntax.specs.Statements.{spell_arms, spell_statement, spell_statements};
ghost use Rattle.rr_syntax.specs.View.{plain_arms, plain_statement, plain_statements};
ghost use Rattle.rr_patch.specs.Changes.{changes, plain_changes};
ghost use Rattle.rr_lint.specs.Walks.{mark_pieces};
ghost use Rattle.rr_lint_print.specs.Pieces.{all_immediate_pieces, arms_immediate_pieces, immediate_pieces};

use crate::lengths::{label_len, labels_len};
use rr_patch::{Added, Change, Fixed};
use rr_syntax::{Arm, Stmt, expression_len, loop_len};
use std::alloc::AllocError;

/// One change more.
fn add<'a>(out: &mut Vec<Change<'a>>, change: Change<'a>) -> Result<(), AllocError>
    ensures { IfOk result (λ _. out.new.items ≡ out.old.items ++ (change.entry ∷ [])) }
{
    out.push(change)?;
    Ok(())
}

/// Adds the change of an assignment, of which the mark has the number `mark`: a `<=` becomes `=`.
fn assignment<'a>(out: &mut Vec<Change<'a>>, mark: u64, now: bool) -> Result<(), AllocError>
    ensures { IfOk result (λ _. plain_changes out.new.items ≡ plain_changes out.old.items ++ changes mark (mark_pieces now)) }
{
    if now {
        return Ok(());
    }
    let change = Change {
        place: mark,
        over: true,
        new: Added::Fixed(Fixed::Equals),
    };
    add(out, change)?;
    Ok(())
}

/// Adds the changes of a statement whose first token has the number `at`, and answers the number of the
/// token after it.
#[cycle(immediate_walks)]
#[tactic(auto, using(rr_syntax::proofs::Lengths::statement_sizes))]
pub(crate) fn statement<'a>(
    stmt: &Stmt,
    at: u64,
    out: &mut Vec<Change<'a>>,
) -> Result<u64, AllocError>
    requires fits { at + length (spell_statement (plain_statement stmt.now)) < 2 ^ 63 }
    ensures next { IfOk result (λ next. next ≡ at + length (spell_statement (plain_statement stmt.now))) }
    ensures made { IfOk result (λ _. plain_changes out.new.items ≡ plain_changes out.old.items ++ changes at (immediate_pieces (plain_statement stmt.now))) }
{
    match stmt {
        Stmt::Null => Ok(at + 1),
        Stmt::Block { label, body } => {
            let end = statements(body, at + 1 + label_len(label), out)?;
            Ok(end + 1)
        }
        Stmt::If {
            test,
            yes,
            no: None,
        } => {
            let next = statement(yes, at + 3 + expression_len(test), out)?;
            Ok(next)
        }
        Stmt::If {
            test,
            yes,
            no: Some(other),
        } => {
            let middle = statement(yes, at + 3 + expression_len(test), out)?;
            let next = statement(other, middle + 1, out)?;
            Ok(next)
        }
        Stmt::Case { on, arms, .. } => {
            let end = case_arms(arms, at + 3 + expression_len(on), out)?;
            Ok(end + 1)
        }
        Stmt::Assign { target, now, value } => {
            let mark = at + expression_len(target);
            assignment(out, mark, *now)?;
            Ok(mark + 1 + expression_len(value) + 1)
        }
        Stmt::For { head, body } => {
            let next = statement(body, at + 1 + loop_len(head), out)?;
            Ok(next)
        }
    }
}

/// Several statements.
#[cycle(immediate_walks)]
fn statements<'a>(body: &[Stmt], at: u64, out: &mut Vec<Change<'a>>) -> Result<u64, AllocError>
    requires fits { at + length (spell_statements (plain_statements body.now)) < 2 ^ 63 }
    ensures next { IfOk result (λ next. next ≡ at + length (spell_statements (plain_statements body.now))) }
    ensures made { IfOk result (λ _. plain_changes out.new.items ≡ plain_changes out.old.items ++ changes at (all_immediate_pieces (plain_statements body.now))) }
{
    let mut place = at;
    for stmt in body.iter() {
        let next = statement(stmt, place, out)?;
        place = next;
    }
    Ok(place)
}

/// The arms of a `case`.
#[cycle(immediate_walks)]
fn case_arms<'a>(arms: &[Arm], at: u64, out: &mut Vec<Change<'a>>) -> Result<u64, AllocError>
    requires fits { at + length (spell_arms (plain_arms arms.now)) < 2 ^ 63 }
    ensures next { IfOk result (λ next. next ≡ at + length (spell_arms (plain_arms arms.now))) }
    ensures made { IfOk result (λ _. plain_changes out.new.items ≡ plain_changes out.old.items ++ changes at (arms_immediate_pieces (plain_arms arms.now))) }
{
    let mut place = at;
    for arm in arms.iter() {
        let colon = place + labels_len(arm.labels, arm.colon);
        let next = statement(arm.body, colon, out)?;
        place = next;
    }
    Ok(place)
}
