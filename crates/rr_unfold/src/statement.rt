//! Statements without loops: each loop is the block of its turns.

ghost use Rattle.std.specs.Prelude.{◌≡◌, MatchResult, IfOk, Ok, []};
ghost use Rattle.rr_syntax.specs.Tree.{Assign};
ghost use Rattle.rr_syntax.specs.View.{plain, plain_arms, plain_loop, plain_statement, plain_statements};
ghost use Rattle.rr_flat.specs.Faults.{Refuses, and_then};
ghost use Rattle.rr_loop_names.specs.Turns.{put_target as put_target_of, put_tree};
ghost use Rattle.rr_loop_names.specs.View.{plain_turn};
ghost use Rattle.rr_unfold.specs.Unfold.{counted, counted_all, counted_arms, each_turn, inside, one_more as one_more_of, tokens_of as tokens_of_statement, turns_from, unfold_arms, unfold_statement, unfold_statements, values_from, values_of};
ghost use Rattle.rr_unfold.specs.View.{loop_counted, plain_counts};

use crate::counts::{Counts, one_more};
use crate::forms::{
    add_arm, add_statement, arm_of, assign, block, case, if_else, if_then, label_of,
};
use crate::freedom::is_loop_free;
use crate::opening::opening;
use crate::tokens::tokens_of;
use crate::values::{following, inside_of};
use bumpalo::Bump;
use bumpalo::collections::into_bump_slice;
use rr_expr::Scope;
use rr_flat::{FlatFault, Limit};
use rr_loop_names::{TurnName, put, put_all, put_target};
use rr_loop_rules::LoopNames;
use rr_syntax::{Arm, Expr, Head, Stmt};
use std::alloc::{AllocError, Global};

/// An assignment in a turn.
fn assignment<'a>(
    target: &Expr<'a>,
    now: bool,
    value: &Expr<'a>,
    turn: &[TurnName<'a>],
    arena: &'a Bump,
) -> Result<Stmt<'a>, AllocError>
    ensures { IfOk result (λ r. plain_statement r ≡ Assign (put_target_of (plain_turn turn.now) (plain target.now)) now (put_tree (plain_turn turn.now) (plain value.now))) }
{
    let target = put_target(target, turn, arena)?;
    let value = put(value, turn, arena)?;
    let whole = assign(target, now, value, arena)?;
    Ok(whole)
}

/// A statement in a turn, without loops.
#[cycle(turning)]
#[tactic(auto, using(crate::proofs::Nodes::nodes))]
fn statement<'a>(
    stmt: &Stmt<'a>,
    names: &LoopNames,
    scope: &Scope,
    limit: Option<u64>,
    turn: &[TurnName<'a>],
    counts: &mut Counts,
    arena: &'a Bump,
    alloc: Global,
) -> Result<Stmt<'a>, FlatFault>
    ensures counted { MatchResult result
        (λ _. counted limit names.now scope.now (plain_turn turn.now) (plain_statement stmt.now) (plain_counts counts.old) ≡ Ok (plain_counts counts.new))
        (Refuses (counted limit names.now scope.now (plain_turn turn.now) (plain_statement stmt.now) (plain_counts counts.old))) }
    ensures made { IfOk result (λ r. plain_statement r ≡ unfold_statement scope.now (plain_turn turn.now) (plain_statement stmt.now)) }
{
    match stmt {
        Stmt::Null => Ok(Stmt::Null),
        Stmt::Block { label, body } => {
            let list = statements(body, names, scope, limit, turn, counts, arena, alloc)?;
            Ok(block(*label, list))
        }
        Stmt::If {
            test,
            yes,
            no: None,
        } => {
            let yes = statement(yes, names, scope, limit, turn, counts, arena, alloc)?;
            let test = put(test, turn, arena)?;
            let whole = if_then(test, yes, arena)?;
            Ok(whole)
        }
        Stmt::If {
            test,
            yes,
            no: Some(other),
        } => {
            let both = two(yes, other, names, scope, limit, turn, counts, arena, alloc)?;
            let test = put(test, turn, arena)?;
            let whole = if_else(test, both.0, both.1, arena)?;
            Ok(whole)
        }
        Stmt::Case { kind, on, arms } => {
            let list = cases(arms, names, scope, limit, turn, counts, arena, alloc)?;
            let on = put(on, turn, arena)?;
            let whole = case(*kind, on, list, arena)?;
            Ok(whole)
        }
        Stmt::Assign { target, now, value } => {
            let whole = assignment(target, *now, value, turn, arena)?;
            Ok(whole)
        }
        Stmt::For { head, body } => {
            let list = looped(body, head, names, scope, limit, turn, counts, arena, alloc)?;
            Ok(block(label_of(head), list))
        }
    }
}

/// Two statements, one behind the other.
#[cycle(turning)]
fn two<'a>(
    first: &Stmt<'a>,
    second: &Stmt<'a>,
    names: &LoopNames,
    scope: &Scope,
    limit: Option<u64>,
    turn: &[TurnName<'a>],
    counts: &mut Counts,
    arena: &'a Bump,
    alloc: Global,
) -> Result<(Stmt<'a>, Stmt<'a>), FlatFault>
    ensures counted { MatchResult result
        (λ _. and_then (counted limit names.now scope.now (plain_turn turn.now) (plain_statement first.now) (plain_counts counts.old)) (counted limit names.now scope.now (plain_turn turn.now) (plain_statement second.now)) ≡ Ok (plain_counts counts.new))
        (Refuses (and_then (counted limit names.now scope.now (plain_turn turn.now) (plain_statement first.now) (plain_counts counts.old)) (counted limit names.now scope.now (plain_turn turn.now) (plain_statement second.now)))) }
    ensures first { IfOk result (λ r. plain_statement r.0 ≡ unfold_statement scope.now (plain_turn turn.now) (plain_statement first.now)) }
    ensures second { IfOk result (λ r. plain_statement r.1 ≡ unfold_statement scope.now (plain_turn turn.now) (plain_statement second.now)) }
{
    let before = statement(first, names, scope, limit, turn, counts, arena, alloc)?;
    let behind = statement(second, names, scope, limit, turn, counts, arena, alloc)?;
    Ok((before, behind))
}

/// Several statements.
#[cycle(turning)]
fn statements<'a>(
    body: &[Stmt<'a>],
    names: &LoopNames,
    scope: &Scope,
    limit: Option<u64>,
    turn: &[TurnName<'a>],
    counts: &mut Counts,
    arena: &'a Bump,
    alloc: Global,
) -> Result<&'a [Stmt<'a>], FlatFault>
    ensures counted { MatchResult result
        (λ _. counted_all limit names.now scope.now (plain_turn turn.now) (plain_statements body.now) (plain_counts counts.old) ≡ Ok (plain_counts counts.new))
        (Refuses (counted_all limit names.now scope.now (plain_turn turn.now) (plain_statements body.now) (plain_counts counts.old))) }
    ensures made { IfOk result (λ r. plain_statements r.now ≡ unfold_statements scope.now (plain_turn turn.now) (plain_statements body.now)) }
{
    let mut list = Vec::new(arena);
    for stmt in body.iter() {
        let new = statement(stmt, names, scope, limit, turn, counts, arena, alloc)?;
        add_statement(&mut list, new)?;
    }
    Ok(into_bump_slice(list))
}

/// The arms of a `case`.
#[cycle(turning)]
fn cases<'a>(
    arms: &[Arm<'a>],
    names: &LoopNames,
    scope: &Scope,
    limit: Option<u64>,
    turn: &[TurnName<'a>],
    counts: &mut Counts,
    arena: &'a Bump,
    alloc: Global,
) -> Result<&'a [Arm<'a>], FlatFault>
    ensures counted { MatchResult result
        (λ _. counted_arms limit names.now scope.now (plain_turn turn.now) (plain_arms arms.now) (plain_counts counts.old) ≡ Ok (plain_counts counts.new))
        (Refuses (counted_arms limit names.now scope.now (plain_turn turn.now) (plain_arms arms.now) (plain_counts counts.old))) }
    ensures made { IfOk result (λ r. plain_arms r.now ≡ unfold_arms scope.now (plain_turn turn.now) (plain_arms arms.now)) }
{
    let mut list = Vec::new(arena);
    for arm in arms.iter() {
        let body = statement(arm.body, names, scope, limit, turn, counts, arena, alloc)?;
        let labels = put_all(arm.labels, turn, arena)?;
        let new = arm_of(labels, arm.colon, body, arena)?;
        add_arm(&mut list, new)?;
    }
    Ok(into_bump_slice(list))
}

/// The body of a loop in one turn more.
#[cycle(turning)]
fn in_turn<'a>(
    body: &Stmt<'a>,
    names: &LoopNames,
    scope: &Scope,
    limit: Option<u64>,
    inner: &[TurnName<'a>],
    counts: &mut Counts,
    arena: &'a Bump,
    alloc: Global,
) -> Result<Stmt<'a>, FlatFault>
    ensures counted { MatchResult result
        (λ _. and_then (one_more_of limit (tokens_of_statement (plain_statement body.now)) (plain_counts counts.old)) (counted limit names.now scope.now (plain_turn inner.now) (plain_statement body.now)) ≡ Ok (plain_counts counts.new))
        (Refuses (and_then (one_more_of limit (tokens_of_statement (plain_statement body.now)) (plain_counts counts.old)) (counted limit names.now scope.now (plain_turn inner.now) (plain_statement body.now)))) }
    ensures made { IfOk result (λ r. plain_statement r ≡ unfold_statement scope.now (plain_turn inner.now) (plain_statement body.now)) }
{
    one_more(counts, tokens_of(body), limit)?;
    let new = statement(body, names, scope, limit, inner, counts, arena, alloc)?;
    Ok(new)
}

/// The turns of a loop whose name begins at that value.
#[cycle(turning)]
fn turns<'a>(
    body: &Stmt<'a>,
    head: &Head<'a>,
    first: u32,
    names: &LoopNames,
    scope: &Scope,
    limit: Option<u64>,
    turn: &[TurnName<'a>],
    counts: &mut Counts,
    arena: &'a Bump,
    alloc: Global,
) -> Result<&'a [Stmt<'a>], FlatFault>
    ensures counted { MatchResult result
        (λ _. turns_from 65537 limit scope.now (plain_turn turn.now) (plain_loop head.now) (tokens_of_statement (plain_statement body.now)) (λ t d. counted limit names.now scope.now t (plain_statement body.now) d) first (plain_counts counts.old) ≡ Ok (plain_counts counts.new))
        (Refuses (turns_from 65537 limit scope.now (plain_turn turn.now) (plain_loop head.now) (tokens_of_statement (plain_statement body.now)) (λ t d. counted limit names.now scope.now t (plain_statement body.now) d) first (plain_counts counts.old))) }
    ensures made { IfOk result (λ r. plain_statements r.now ≡ each_turn (λ v. unfold_statement scope.now (inside (plain_loop head.now) (plain_turn turn.now) v) (plain_statement body.now)) (values_from 65537 scope.now (plain_turn turn.now) (plain_loop head.now) first)) }
{
    let mut list = Vec::new(arena);
    let mut value = first;
    let mut left: u32 = 65537;
    while left > 0 {
        let entered = inside_of(alloc, turn, head, value)?;
        let inner = entered.as_slice();
        let next = following(head, inner, scope, arena)?;
        let Some(next) = next else {
            return Ok(into_bump_slice(list));
        };
        let new = in_turn(body, names, scope, limit, inner, counts, arena, alloc)?;
        add_statement(&mut list, new)?;
        value = next;
        left -= 1;
    }
    Err(FlatFault::TooMany(Limit::Turns, 65537))
}

/// The turns of a loop.
#[cycle(turning)]
fn looped<'a>(
    body: &Stmt<'a>,
    head: &Head<'a>,
    names: &LoopNames,
    scope: &Scope,
    limit: Option<u64>,
    turn: &[TurnName<'a>],
    counts: &mut Counts,
    arena: &'a Bump,
    alloc: Global,
) -> Result<&'a [Stmt<'a>], FlatFault>
    ensures counted { MatchResult result
        (λ _. loop_counted limit names.now scope.now (plain_turn turn.now) (plain_loop head.now) (plain_statement body.now) (plain_counts counts.old) ≡ Ok (plain_counts counts.new))
        (Refuses (loop_counted limit names.now scope.now (plain_turn turn.now) (plain_loop head.now) (plain_statement body.now) (plain_counts counts.old))) }
    ensures made { IfOk result (λ r. plain_statements r.now ≡ each_turn (λ v. unfold_statement scope.now (inside (plain_loop head.now) (plain_turn turn.now) v) (plain_statement body.now)) (values_of scope.now (plain_turn turn.now) (plain_loop head.now))) }
{
    let first = opening(head, names, scope, turn, arena, alloc)?;
    turns(
        body, head, first, names, scope, limit, turn, counts, arena, alloc,
    )
}

/// A statement in the arena.
fn kept<'a>(stmt: Stmt<'a>, arena: &'a Bump) -> Result<&'a Stmt<'a>, AllocError>
    ensures { IfOk result (λ r. plain_statement r.now ≡ plain_statement stmt.entry) }
{
    let whole = arena.try_alloc(stmt)?;
    Ok(whole)
}

/// A statement of an item without loops, each of which is the block of its turns; the turns and the tokens
/// of their bodies are added to those so far. One in which no loop stands is given back as it is. The fault
/// is the first one of a loop, or that a limit is passed: there are at most 65,536 turns, and tokens as many
/// as the limit says, if there is one.
#[tactic(auto, using(crate::proofs::LoopFree::loop_free_answers))]
pub fn unfolded<'a>(
    stmt: &'a Stmt<'a>,
    names: &LoopNames,
    scope: &Scope,
    limit: Option<u64>,
    counts: &mut Counts,
    arena: &'a Bump,
    alloc: Global,
) -> Result<&'a Stmt<'a>, FlatFault>
    ensures counted { MatchResult result
        (λ _. counted limit names.now scope.now [] (plain_statement stmt.now) (plain_counts counts.old) ≡ Ok (plain_counts counts.new))
        (Refuses (counted limit names.now scope.now [] (plain_statement stmt.now) (plain_counts counts.old))) }
    ensures made { IfOk result (λ r. plain_statement r.now ≡ unfold_statement scope.now [] (plain_statement stmt.now)) }
{
    if is_loop_free(stmt) {
        return Ok(stmt);
    }
    let whole = statement(stmt, names, scope, limit, &[], counts, arena, alloc)?;
    let whole = kept(whole, arena)?;
    Ok(whole)
}
