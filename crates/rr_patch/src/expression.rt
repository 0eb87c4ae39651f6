//! The changes of expressions.

ghost use Rattle.std.specs.Prelude.{◌≡◌, ◌<◌, ◌≤◌, ◌+◌, ◌-◌, ◌^◌, ◌++◌, length, IfOk};
ghost use Rattle.rr_syntax.specs.Expressions.{spell, spell_more};
ghost use Rattle.rr_syntax.specs.View.{plain, plain_list};
ghost use Rattle.rr_patch.specs.Changes.{changes, plain_changes};
ghost use Rattle.rr_respell.specs.Printing.{condition_pieces, more_pieces, tree_pieces};

use crate::change::Change;
use crate::forms::{close, literal, open};
use rr_choice::{Choice, SiteList, find};
use rr_expr::{first_token, infix_of, takes_constants};
use rr_syntax::{Expr, expression_len};
use std::alloc::AllocError;

/// Adds the changes of an expression whose first token has the number `at`, and answers the number of
/// the token after it.
#[cycle(walks)]
#[tactic(auto, using(rr_syntax::proofs::Lengths::sizes, rr_syntax::proofs::Lengths::parts_len, crate::proofs::TreeWalks::walks))]
pub(crate) fn expression<'a>(
    expr: &Expr,
    at: u64,
    list: &SiteList<'a>,
    choice: &Choice,
    out: &mut Vec<Change<'a>>,
) -> Result<u64, AllocError>
    requires fits { at + length (spell (plain expr.now)) < 2 ^ 63 }
    ensures next { IfOk result (λ next. next ≡ at + length (spell (plain expr.now))) }
    ensures made { IfOk result (λ _. plain_changes out.new.items ≡ plain_changes out.old.items ++ changes at (tree_pieces list.now choice.now.picks.items (plain expr.now))) }
{
    match expr {
        Expr::Name { .. } => Ok(at + 1),
        Expr::Literal { token, number } => {
            let found = find(list, choice, *token, None);
            literal(out, at, found, *number)?;
            Ok(at + 1)
        }
        Expr::Bit { .. } => Ok(at + expression_len(expr)),
        Expr::Part { .. } => Ok(at + expression_len(expr)),
        Expr::Indexed { .. } => Ok(at + expression_len(expr)),
        Expr::Unary { of, .. } => {
            let next = expression(of, at + 1, list, choice, out)?;
            Ok(next)
        }
        Expr::Binary { op, left, right } => {
            if takes_constants(infix_of(*op)) {
                Ok(at + expression_len(expr))
            } else {
                let middle = expression(left, at, list, choice, out)?;
                let next = expression(right, middle + 1, list, choice, out)?;
                Ok(next)
            }
        }
        Expr::Cond { test, yes, no } => {
            let question = condition(test, at, list, choice, out)?;
            let colon = expression(yes, question + 1, list, choice, out)?;
            let next = expression(no, colon + 1, list, choice, out)?;
            Ok(next)
        }
        Expr::Concat { parts } => {
            let end = expressions(parts, at, list, choice, out)?;
            Ok(past_list(at, end))
        }
        Expr::Repeat { count, parts } => {
            let brace = at + 1 + expression_len(count);
            let end = expressions(parts, brace, list, choice, out)?;
            Ok(past_list(brace, end) + 1)
        }
        Expr::Cast { of, .. } => {
            let next = expression(of, at + 2, list, choice, out)?;
            Ok(next + 1)
        }
        Expr::Paren { of } => {
            let next = expression(of, at + 1, list, choice, out)?;
            Ok(next + 1)
        }
    }
}

/// The changes of a condition, with its guard.
#[cycle(walks)]
#[tactic(auto, using(crate::proofs::TreeWalks::made_condition))]
pub(crate) fn condition<'a>(
    test: &Expr,
    at: u64,
    list: &SiteList<'a>,
    choice: &Choice,
    out: &mut Vec<Change<'a>>,
) -> Result<u64, AllocError>
    requires fits { at + length (spell (plain test.now)) < 2 ^ 63 }
    ensures next { IfOk result (λ next. next ≡ at + length (spell (plain test.now))) }
    ensures made { IfOk result (λ _. plain_changes out.new.items ≡ plain_changes out.old.items ++ changes at (condition_pieces list.now choice.now.picks.items (plain test.now))) }
{
    let found = find(list, choice, first_token(test), Some(expression_len(test)));
    open(out, at, &found)?;
    let next = expression(test, at, list, choice, out)?;
    close(out, next, &found)?;
    Ok(next)
}

/// The number of the token after a list and the mark behind it, where `before` is the number of the mark
/// before the list, and `end` that of the token after its last entry; an empty list ends at its mark.
pub(crate) fn past_list(before: u64, end: u64) -> u64
    requires order { before ≤ end }
    requires fits { end < 2 ^ 63 }
    ensures { result ≡ before + 2 + (end - before - 1) }
{
    before + 2 + (end - before).saturating_sub(1)
}

/// The changes of several expressions, each after a comma, of which the first has the number `at`, and
/// the number of the token after them.
#[cycle(walks)]
pub(crate) fn expressions<'a>(
    parts: &[Expr],
    at: u64,
    list: &SiteList<'a>,
    choice: &Choice,
    out: &mut Vec<Change<'a>>,
) -> Result<u64, AllocError>
    requires fits { at + length (spell_more (plain_list parts.now)) < 2 ^ 63 }
    ensures next { IfOk result (λ next. next ≡ at + length (spell_more (plain_list parts.now))) }
    ensures made { IfOk result (λ _. plain_changes out.new.items ≡ plain_changes out.old.items ++ changes at (more_pieces list.now choice.now.picks.items (plain_list parts.now))) }
{
    let mut comma = at;
    for expr in parts.iter() {
        let next = expression(expr, comma + 1, list, choice, out)?;
        comma = next;
    }
    Ok(comma)
}
