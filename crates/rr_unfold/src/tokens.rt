//! The number of tokens that spell a statement, of which no more are counted than 64 bits hold.

ghost use Rattle.std.specs.Prelude.{◌≡◌, ℕ, ◌+◌, ◌-◌, ◌≤◌, cond, length, min};
ghost use Rattle.rr_syntax.specs.Expressions.{spell, spell_more, spell_parts};
ghost use Rattle.rr_syntax.specs.Statements.{spell_arms, spell_label, spell_labels, spell_loop, spell_statement, spell_statements};
ghost use Rattle.rr_syntax.specs.View.{plain, plain_arms, plain_label, plain_list, plain_loop, plain_statement, plain_statements};
ghost use Rattle.rr_unfold.specs.Unfold.{tokens_of as tokens_of_statement};

use rr_syntax::{Arm, Expr, Head, Named, Stmt};

/// Those of an expression.
#[cycle(expression_tokens)]
#[tactic(auto, using(rr_syntax::proofs::Lengths::sizes))]
fn expression_tokens(expr: &Expr) -> u64
    ensures { result ≡ min (length (spell (plain expr.now))) 18446744073709551615 }
{
    match expr {
        Expr::Name { .. } | Expr::Literal { .. } => 1,
        Expr::Bit { index, .. } => expression_tokens(index).saturating_add(3),
        Expr::Part { left, right, .. } => two_tokens(left, right).saturating_add(4),
        Expr::Indexed { from, width, .. } => two_tokens(from, width).saturating_add(4),
        Expr::Unary { of, .. } => expression_tokens(of).saturating_add(1),
        Expr::Binary { left, right, .. } => two_tokens(left, right).saturating_add(1),
        Expr::Cond { test, yes, no } => {
            let ends = two_tokens(test, no);
            expression_tokens(yes)
                .saturating_add(ends)
                .saturating_add(2)
        }
        Expr::Concat { parts } => list_tokens(parts),
        Expr::Repeat { count, parts } => {
            let list = list_tokens(parts);
            expression_tokens(count)
                .saturating_add(list)
                .saturating_add(2)
        }
        Expr::Cast { of, .. } => expression_tokens(of).saturating_add(3),
        Expr::Paren { of } => expression_tokens(of).saturating_add(2),
    }
}

/// Those of two expressions.
#[cycle(expression_tokens)]
fn two_tokens(first: &Expr, second: &Expr) -> u64
    ensures { result ≡ min (length (spell (plain first.now)) + length (spell (plain second.now))) 18446744073709551615 }
{
    expression_tokens(first).saturating_add(expression_tokens(second))
}

/// Those of several expressions, with a comma for each.
#[cycle(expression_tokens)]
fn more_tokens(parts: &[Expr]) -> u64
    ensures { result ≡ min (length (spell_more (plain_list parts.now))) 18446744073709551615 }
{
    let mut total: u64 = 0;
    for part in parts.iter() {
        total = total
            .saturating_add(1)
            .saturating_add(expression_tokens(part));
    }
    total
}

/// Those of a list in its brackets.
#[cycle(expression_tokens)]
fn list_tokens(parts: &[Expr]) -> u64
    ensures { result ≡ min (2 + length (spell_parts (plain_list parts.now))) 18446744073709551615 }
{
    bracketed(more_tokens(parts))
}

/// Those of a list in its brackets, of which so many are counted with a comma for each part: there is one
/// comma less than parts.
fn bracketed(more: u64) -> u64
    ensures { (count : ℕ) → more ≡ min count 18446744073709551615 → result ≡ min (2 + (count - 1)) 18446744073709551615 }
{
    if more == 0 { 2 } else { more.saturating_add(1) }
}

/// Those of the name of a block, with its colon.
#[tactic(auto, unfolding(rr_syntax::specs::Statements::spell_label, rr_syntax::specs::View::plain_label))]
fn label_tokens(label: &Option<Named>) -> u64
    ensures value { result ≡ length (spell_label (plain_label label.now)) }
    ensures few { result ≤ 2 }
{
    match label {
        None => 0,
        Some(_) => 2,
    }
}

/// Those of `default`, with or without a colon.
fn default_tokens(colon: bool) -> u64
    ensures { result ≡ cond colon 2 1 }
{
    if colon { 2 } else { 1 }
}

/// Those of the labels of an arm with their colon, or `default` with or without one.
#[tactic(auto, using(crate::proofs::Sizes::label_sizes))]
fn labels_tokens(labels: &[Expr], colon: bool) -> u64
    ensures { result ≡ min (length (spell_labels (plain_list labels.now) colon)) 18446744073709551615 }
{
    if labels.is_empty() {
        default_tokens(colon)
    } else {
        more_tokens(labels)
    }
}

/// Those of a loop's head, brackets included.
#[tactic(auto, using(rr_syntax::proofs::Lengths::loop_sizes))]
fn loop_tokens(head: &Head) -> u64
    ensures { result ≡ min (length (spell_loop (plain_loop head.now))) 18446744073709551615 }
{
    let ends = two_tokens(head.start, head.test);
    expression_tokens(head.step)
        .saturating_add(ends)
        .saturating_add(8)
}

/// Those of a statement.
#[cycle(statement_tokens)]
#[tactic(auto, using(rr_syntax::proofs::Lengths::statement_sizes))]
pub(crate) fn tokens_of(stmt: &Stmt) -> u64
    ensures { result ≡ tokens_of_statement (plain_statement stmt.now) }
{
    match stmt {
        Stmt::Null => 1,
        Stmt::Block { label, body } => {
            statements_tokens(body).saturating_add(2 + label_tokens(label))
        }
        Stmt::If {
            test,
            yes,
            no: None,
        } => {
            let before = expression_tokens(test);
            tokens_of(yes).saturating_add(before).saturating_add(3)
        }
        Stmt::If {
            test,
            yes,
            no: Some(other),
        } => {
            let before = expression_tokens(test).saturating_add(tokens_of(yes));
            tokens_of(other).saturating_add(before).saturating_add(4)
        }
        Stmt::Case { on, arms, .. } => {
            let before = expression_tokens(on);
            arms_tokens(arms).saturating_add(before).saturating_add(4)
        }
        Stmt::Assign { target, value, .. } => two_tokens(target, value).saturating_add(2),
        Stmt::For { head, body } => {
            let before = loop_tokens(head);
            tokens_of(body).saturating_add(before).saturating_add(1)
        }
    }
}

#[cycle(statement_tokens)]
fn statements_tokens(body: &[Stmt]) -> u64
    ensures { result ≡ min (length (spell_statements (plain_statements body.now))) 18446744073709551615 }
{
    let mut total: u64 = 0;
    for stmt in body.iter() {
        total = total.saturating_add(tokens_of(stmt));
    }
    total
}

#[cycle(statement_tokens)]
fn arms_tokens(arms: &[Arm]) -> u64
    ensures { result ≡ min (length (spell_arms (plain_arms arms.now))) 18446744073709551615 }
{
    let mut total: u64 = 0;
    for arm in arms.iter() {
        let labels = labels_tokens(arm.labels, arm.colon);
        total = total
            .saturating_add(labels)
            .saturating_add(tokens_of(arm.body));
    }
    total
}
