//! The changes of statements.

ghost use Rattle.std.specs.Prelude.{◌≡◌, ◌<◌, ◌+◌, ◌^◌, ◌++◌, length, IfOk};
ghost use Rattle.rr_syntax.specs.Statements.{spell_arms, spell_label, spell_labels, spell_statement, spell_statements};
ghost use Rattle.rr_syntax.specs.View.{plain_arms, plain_label, plain_list, plain_statement, plain_statements};
ghost use Rattle.rr_patch.specs.Changes.{changes, plain_changes};
ghost use Rattle.rr_respell.specs.Printing.{arms_pieces, label_pieces, statement_pieces, statements_pieces};

use crate::change::Change;
use crate::expression::{condition, expression, expressions};
use rr_choice::{Choice, SiteList};
use rr_syntax::{Arm, Expr, Named, Stmt, expression_len, loop_len};
use std::alloc::AllocError;

#[tactic(auto, unfolding(rr_syntax::specs::Statements::spell_label, rr_syntax::specs::View::plain_label))]
fn label_len(label: &Option<Named>) -> u64
    ensures { result ≡ length (spell_label (plain_label label.now)) }
{
    match label {
        None => 0,
        Some(_) => 2,
    }
}

/// Adds the changes of the labels of an arm, and answers the number of the token after their colon.
#[tactic(auto, using(crate::proofs::StatementWalks::label_steps))]
fn labels<'a>(
    parts: &[Expr],
    colon: bool,
    at: u64,
    list: &SiteList<'a>,
    choice: &Choice,
    out: &mut Vec<Change<'a>>,
) -> Result<u64, AllocError>
    requires some { 0 < at }
    requires fits { at + length (spell_labels (plain_list parts.now) colon) < 2 ^ 63 }
    ensures next { IfOk result (λ next. next ≡ at + length (spell_labels (plain_list parts.now) colon)) }
    ensures made { IfOk result (λ _. plain_changes out.new.items ≡ plain_changes out.old.items ++ changes at (label_pieces list.now choice.now.picks.items (plain_list parts.now) colon)) }
{
    if parts.len() == 0 {
        if colon { Ok(at + 2) } else { Ok(at + 1) }
    } else {
        let next = expressions(parts, at - 1, list, choice, out)?;
        Ok(next + 1)
    }
}

/// Adds the changes of a statement whose first token has the number `at`, without last assignments, and
/// answers the number of the token after it.
#[cycle(statement_walks)]
#[tactic(auto, using(rr_syntax::proofs::Lengths::statement_sizes))]
pub(crate) fn statement<'a>(
    stmt: &Stmt,
    at: u64,
    list: &SiteList<'a>,
    choice: &Choice,
    out: &mut Vec<Change<'a>>,
) -> Result<u64, AllocError>
    requires fits { at + length (spell_statement (plain_statement stmt.now)) < 2 ^ 63 }
    ensures next { IfOk result (λ next. next ≡ at + length (spell_statement (plain_statement stmt.now))) }
    ensures made { IfOk result (λ _. plain_changes out.new.items ≡ plain_changes out.old.items ++ changes at (statement_pieces list.now choice.now.picks.items (plain_statement stmt.now))) }
{
    match stmt {
        Stmt::Null => Ok(at + 1),
        Stmt::Block { label, body } => {
            let end = statements(body, at + 1 + label_len(label), list, choice, out)?;
            Ok(end + 1)
        }
        Stmt::If {
            test,
            yes,
            no: None,
        } => {
            let close = condition(test, at + 2, list, choice, out)?;
            let next = statement(yes, close + 1, list, choice, out)?;
            Ok(next)
        }
        Stmt::If {
            test,
            yes,
            no: Some(other),
        } => {
            let close = condition(test, at + 2, list, choice, out)?;
            let middle = statement(yes, close + 1, list, choice, out)?;
            let next = statement(other, middle + 1, list, choice, out)?;
            Ok(next)
        }
        Stmt::Case { on, arms, .. } => {
            let close = expression(on, at + 2, list, choice, out)?;
            let end = case_arms(arms, close + 1, list, choice, out)?;
            Ok(end + 1)
        }
        Stmt::Assign { target, value, .. } => {
            let end = expression(value, at + expression_len(target) + 1, list, choice, out)?;
            Ok(end + 1)
        }
        Stmt::For { head, body } => {
            let next = statement(body, at + 1 + loop_len(head), list, choice, out)?;
            Ok(next)
        }
    }
}

/// Several statements.
#[cycle(statement_walks)]
fn statements<'a>(
    body: &[Stmt],
    at: u64,
    list: &SiteList<'a>,
    choice: &Choice,
    out: &mut Vec<Change<'a>>,
) -> Result<u64, AllocError>
    requires fits { at + length (spell_statements (plain_statements body.now)) < 2 ^ 63 }
    ensures next { IfOk result (λ next. next ≡ at + length (spell_statements (plain_statements body.now))) }
    ensures made { IfOk result (λ _. plain_changes out.new.items ≡ plain_changes out.old.items ++ changes at (statements_pieces list.now choice.now.picks.items (plain_statements body.now))) }
{
    let mut place = at;
    for stmt in body.iter() {
        let next = statement(stmt, place, list, choice, out)?;
        place = next;
    }
    Ok(place)
}

/// The arms of a `case`.
#[cycle(statement_walks)]
fn case_arms<'a>(
    arms: &[Arm],
    at: u64,
    list: &SiteList<'a>,
    choice: &Choice,
    out: &mut Vec<Change<'a>>,
) -> Result<u64, AllocError>
    requires some { 0 < at }
    requires fits { at + length (spell_arms (plain_arms arms.now)) < 2 ^ 63 }
    ensures next { IfOk result (λ next. next ≡ at + length (spell_arms (plain_arms arms.now))) }
    ensures made { IfOk result (λ _. plain_changes out.new.items ≡ plain_changes out.old.items ++ changes at (arms_pieces list.now choice.now.picks.items (plain_arms arms.now))) }
{
    let mut place = at;
    for arm in arms.iter() {
        let colon = labels(arm.labels, arm.colon, place, list, choice, out)?;
        let next = statement(arm.body, colon, list, choice, out)?;
        place = next;
    }
    Ok(place)
}
