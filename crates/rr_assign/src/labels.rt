//! Labels with digits that match anything (IEEE 1364-2005 section 9.5.1).
ghost use Rattle.std.specs.Prelude.{◌≡◌, IfSome, IfNone};
ghost use Rattle.rr_syntax.specs.View.{plain, plain_arms, plain_list, plain_statement, plain_statements};
ghost use Rattle.rr_flat.specs.Lawful.{RightLabels, has_wild as is_wild_number};
ghost use Rattle.rr_flat.specs.Reads.{literals_in, literals_in_parts};
ghost use Rattle.rr_flat.specs.View.{plain_flat};
ghost use Rattle.rr_text_names.specs.Firsts.{earliest};
ghost use Rattle.rr_assign.specs.Labels.{all_wild, wild, wild_label, wild_labels, wild_in, wild_in_all, wild_in_arms, wild_literal as wild_literal_tokens, wild_of_part};

use rr_flat::{Flat, Part};
use rr_syntax::{Arm, Expr, Keyword, Number, Stmt};

fn has_wild(number: &Number) -> bool
    ensures { result ≡ is_wild_number number.now }
{
    number.any != 0 || number.unknown != 0
}

/// The first literal of an expression that has such digits.
#[cycle(literals)]
#[tactic(auto, using(crate::proofs::WildNodes::wild_nodes))]
fn first_wild(expr: &Expr) -> Option<u32>
    ensures { result ≡ earliest (wild (literals_in (plain expr.now))) }
{
    match expr {
        Expr::Name { .. } => None,
        Expr::Literal { token, number } => { if has_wild(number) { Some(*token) } else { None } }
        Expr::Bit { index, .. } => first_wild(index),
        Expr::Part { left, right, .. } => first_wild(left).or(first_wild(right)),
        Expr::Indexed { from, width, .. } => first_wild(from).or(first_wild(width)),
        Expr::Unary { of, .. } | Expr::Cast { of, .. } | Expr::Paren { of } => first_wild(of),
        Expr::Binary { left, right, .. } => first_wild(left).or(first_wild(right)),
        Expr::Cond { test, yes, no } => first_wild(test).or(first_wild(yes)).or(first_wild(no)),
        Expr::Concat { parts } => first_wild_of_all(parts),
        Expr::Repeat { count, parts } => first_wild(count).or(first_wild_of_all(parts)),
    }
}

#[cycle(literals)]
fn first_wild_of_all(list: &[Expr]) -> Option<u32>
    ensures { result ≡ earliest (wild (literals_in_parts (plain_list list.now))) }
{
    for expr in list.iter() {
        let found = first_wild(expr);
        if found.is_some() {
            return found;
        }
    }
    None
}

/// The same of a literal that is a label.
#[tactic(auto, unfolding(rr_text_names::specs::Firsts::earliest))]
fn wild_literal(kind: Keyword, token: u32, number: &Number) -> Option<u32>
    ensures { result ≡ earliest (wild_literal_tokens kind.0 token number.now) }
{
    if kind.0 == Keyword::CASE.0 {
        if has_wild(number) { Some(token) } else { None }
    } else if kind.0 == Keyword::CASEZ.0 && number.unknown != 0 {
        Some(token)
    } else {
        None
    }
}

/// The first literal at fault in a label.
#[tactic(auto, using(crate::proofs::WildNodes::label_nodes))]
fn first_in_label(kind: Keyword, label: &Expr) -> Option<u32>
    ensures { result ≡ earliest (wild_label kind.0 (plain label.now)) }
{
    match label {
        Expr::Paren { of } => first_in_label(kind, of),
        Expr::Literal { token, number } => wild_literal(kind, *token, number),
        Expr::Name { .. } => None,
        Expr::Bit { .. }
        | Expr::Part { .. }
        | Expr::Indexed { .. }
        | Expr::Unary { .. }
        | Expr::Binary { .. }
        | Expr::Cond { .. }
        | Expr::Concat { .. }
        | Expr::Repeat { .. }
        | Expr::Cast { .. } => first_wild(label),
    }
}

fn first_in_labels(kind: Keyword, labels: &[Expr]) -> Option<u32>
    ensures { result ≡ earliest (wild_labels kind.0 (plain_list labels.now)) }
{
    for label in labels.iter() {
        let found = first_in_label(kind, label);
        if found.is_some() {
            return found;
        }
    }
    None
}

/// The first literal at fault in the labels of a statement.
#[cycle(wild)]
#[tactic(auto, using(crate::proofs::WildNodes::statement_nodes))]
fn first_in(stmt: &Stmt) -> Option<u32>
    ensures { result ≡ earliest (wild_in (plain_statement stmt.now)) }
{
    match stmt {
        Stmt::Null | Stmt::Assign { .. } | Stmt::For { .. } => None,
        Stmt::Block { body, .. } => first_in_all(body),
        Stmt::If { yes, no: None, .. } => first_in(yes),
        Stmt::If {
            yes,
            no: Some(other),
            ..
        } => first_in(yes).or(first_in(other)),
        Stmt::Case { kind, arms, .. } => first_in_arms(*kind, arms),
    }
}

#[cycle(wild)]
fn first_in_all(body: &[Stmt]) -> Option<u32>
    ensures { result ≡ earliest (wild_in_all (plain_statements body.now)) }
{
    for stmt in body.iter() {
        let found = first_in(stmt);
        if found.is_some() {
            return found;
        }
    }
    None
}

#[cycle(wild)]
fn first_in_arms(kind: Keyword, arms: &[Arm]) -> Option<u32>
    ensures { result ≡ earliest (wild_in_arms kind.0 (plain_arms arms.now)) }
{
    for arm in arms.iter() {
        let found = first_in_labels(kind, arm.labels).or(first_in(arm.body));
        if found.is_some() {
            return found;
        }
    }
    None
}

/// The first literal at fault in a label, by its token: one with x, z or ? digits in a label of `case`,
/// with an x digit in one of `casez`, or with such digits and only a part of its label, brackets aside.
pub fn first_wild_label(flat: &Flat) -> Option<u32>
    ensures first { result ≡ earliest (all_wild (plain_flat flat.now)) }
    ensures none { IfNone result (RightLabels (plain_flat flat.now)) }
    ensures some { IfSome result (λ at. RightLabels (plain_flat flat.now) → ⊥) }
{
    let walk = flat.parts();
    for part in walk.iter() {
        let found = wild_in_part(flat, *part);
        if found.is_some() {
            return found;
        }
    }
    None
}

#[tactic(auto, unfolding(crate::specs::Labels::wild_in, rr_text_names::specs::Firsts::earliest))]
fn wild_in_part(flat: &Flat, part: Part) -> Option<u32>
    ensures { result ≡ earliest (wild_of_part (plain_flat flat.now) part) }
{
    match flat.block_of(part) {
        Some(block) => first_in(block.body),
        None => None,
    }
}
