//! Statements of an instance.

ghost use Rattle.std.specs.Prelude.{◌≡◌, ◌<◌, ◌^◌, ◌++◌, ◌∷◌, [], length, IfOk};
ghost use Rattle.rr_syntax.specs.Expressions.{spell};
ghost use Rattle.rr_syntax.specs.Statements.{spell_arms, spell_statement, spell_statements};
ghost use Rattle.rr_syntax.specs.Tree.{Assign, Block, Case, CaseItem, For, If, IfElse};
ghost use Rattle.rr_syntax.specs.View.{plain, plain_arm, plain_arms, plain_label, plain_list, plain_loop, plain_statement, plain_statements};
ghost use Rattle.rr_instance.specs.Instances.{instance_arms, instance_statement, instance_statements};

use crate::expression::{condition, expression_instance, expression_instances};
use bumpalo::Bump;
use bumpalo::collections::into_bump_slice;
use rr_choice::{Choice, SiteList};
use rr_syntax::{Arm, Expr, Head, Keyword, Named, Stmt};
use std::alloc::AllocError;

/// A block.
#[tactic(auto, using(rr_syntax::proofs::Rows::plain_block))]
pub(crate) fn block<'a>(label: Option<Named<'a>>, body: &'a [Stmt<'a>]) -> Stmt<'a>
    ensures { plain_statement result ≡ Block (plain_label label.entry) (plain_statements body.now) }
{
    Stmt::Block { label, body }
}

/// An `if` without `else`.
#[tactic(auto, unfolding(rr_syntax::specs::View::plain_statement))]
pub(crate) fn if_then<'a>(
    test: Expr<'a>,
    yes: Stmt<'a>,
    arena: &'a Bump,
) -> Result<Stmt<'a>, AllocError>
    ensures { IfOk result (λ r. plain_statement r ≡ If (plain test.entry) (plain_statement yes.entry)) }
{
    let test = arena.try_alloc(test)?;
    let yes = arena.try_alloc(yes)?;
    Ok(Stmt::If {
        test,
        yes,
        no: None,
    })
}

/// An `if` with `else`.
#[tactic(auto, unfolding(rr_syntax::specs::View::plain_statement))]
fn if_else<'a>(
    test: Expr<'a>,
    yes: Stmt<'a>,
    no: Stmt<'a>,
    arena: &'a Bump,
) -> Result<Stmt<'a>, AllocError>
    ensures { IfOk result (λ r. plain_statement r ≡ IfElse (plain test.entry) (plain_statement yes.entry) (plain_statement no.entry)) }
{
    let test = arena.try_alloc(test)?;
    let yes = arena.try_alloc(yes)?;
    let other: &'a Stmt<'a> = arena.try_alloc(no)?;
    Ok(Stmt::If {
        test,
        yes,
        no: Some(other),
    })
}

/// A `case`.
#[tactic(auto, using(rr_syntax::proofs::Rows::plain_case))]
fn case<'a>(
    kind: Keyword,
    on: Expr<'a>,
    arms: &'a [Arm<'a>],
    arena: &'a Bump,
) -> Result<Stmt<'a>, AllocError>
    ensures { IfOk result (λ r. plain_statement r ≡ Case kind.0 (plain on.entry) (plain_arms arms.now)) }
{
    let on = arena.try_alloc(on)?;
    Ok(Stmt::Case { kind, on, arms })
}

/// An assignment.
#[tactic(auto, unfolding(rr_syntax::specs::View::plain_statement))]
pub(crate) fn assign<'a>(
    target: &'a Expr<'a>,
    now: bool,
    value: Expr<'a>,
    arena: &'a Bump,
) -> Result<Stmt<'a>, AllocError>
    ensures { IfOk result (λ r. plain_statement r ≡ Assign (plain target.now) now (plain value.entry)) }
{
    let value = arena.try_alloc(value)?;
    Ok(Stmt::Assign { target, now, value })
}

/// A loop.
#[tactic(auto, unfolding(rr_syntax::specs::View::plain_statement))]
fn for_loop<'a>(head: Head<'a>, body: Stmt<'a>, arena: &'a Bump) -> Result<Stmt<'a>, AllocError>
    ensures { IfOk result (λ r. plain_statement r ≡ For (plain_loop head.entry) (plain_statement body.entry)) }
{
    let body = arena.try_alloc(body)?;
    Ok(Stmt::For { head, body })
}

/// An arm of a `case`.
#[tactic(auto, unfolding(rr_syntax::specs::View::plain_arm))]
fn arm_of<'a>(
    labels: &'a [Expr<'a>],
    colon: bool,
    body: Stmt<'a>,
    arena: &'a Bump,
) -> Result<Arm<'a>, AllocError>
    ensures { IfOk result (λ r. plain_arm r ≡ CaseItem (plain_list labels.now) colon (plain_statement body.entry)) }
{
    let body = arena.try_alloc(body)?;
    Ok(Arm {
        labels,
        colon,
        body,
    })
}

/// One statement more.
fn add_statement<'a>(list: &mut Vec<Stmt<'a>, &'a Bump>, stmt: Stmt<'a>) -> Result<(), AllocError>
    ensures { IfOk result (λ _. list.new.items ≡ list.old.items ++ (stmt.entry ∷ [])) }
{
    list.push(stmt)?;
    Ok(())
}

/// One arm more.
fn add_arm<'a>(list: &mut Vec<Arm<'a>, &'a Bump>, arm: Arm<'a>) -> Result<(), AllocError>
    ensures { IfOk result (λ _. list.new.items ≡ list.old.items ++ (arm.entry ∷ [])) }
{
    list.push(arm)?;
    Ok(())
}

/// A statement of an instance, without last assignments.
#[cycle(statement_instances)]
#[tactic(auto, using(crate::proofs::StatementArms::arms))]
pub(crate) fn statement<'a>(
    stmt: &Stmt<'a>,
    sites: &SiteList<'a>,
    choice: &Choice,
    arena: &'a Bump,
) -> Result<Stmt<'a>, AllocError>
    requires fits { length (spell_statement (plain_statement stmt.now)) < 2 ^ 64 }
    ensures { IfOk result (λ r. plain_statement r ≡ instance_statement sites.now choice.now.picks.items (plain_statement stmt.now)) }
{
    match stmt {
        Stmt::Null => Ok(Stmt::Null),
        Stmt::Block { label, body } => {
            let list = statements(body, sites, choice, arena)?;
            Ok(block(*label, list))
        }
        Stmt::If {
            test,
            yes,
            no: None,
        } => {
            let test = condition(test, sites, choice, arena)?;
            let yes = statement(yes, sites, choice, arena)?;
            let whole = if_then(test, yes, arena)?;
            Ok(whole)
        }
        Stmt::If {
            test,
            yes,
            no: Some(other),
        } => {
            let test = condition(test, sites, choice, arena)?;
            let yes = statement(yes, sites, choice, arena)?;
            let other = statement(other, sites, choice, arena)?;
            let whole = if_else(test, yes, other, arena)?;
            Ok(whole)
        }
        Stmt::Case { kind, on, arms } => {
            let on = expression_instance(on, sites, choice, arena)?;
            let list = case_arms(arms, sites, choice, arena)?;
            let whole = case(*kind, on, list, arena)?;
            Ok(whole)
        }
        Stmt::Assign { target, now, value } => {
            let value = expression_instance(value, sites, choice, arena)?;
            let whole = assign(target, *now, value, arena)?;
            Ok(whole)
        }
        Stmt::For { head, body } => {
            let body = statement(body, sites, choice, arena)?;
            let whole = for_loop(*head, body, arena)?;
            Ok(whole)
        }
    }
}

/// Several statements.
#[cycle(statement_instances)]
fn statements<'a>(
    body: &[Stmt<'a>],
    sites: &SiteList<'a>,
    choice: &Choice,
    arena: &'a Bump,
) -> Result<&'a [Stmt<'a>], AllocError>
    requires fits { length (spell_statements (plain_statements body.now)) < 2 ^ 64 }
    ensures { IfOk result (λ r. plain_statements r.now ≡ instance_statements sites.now choice.now.picks.items (plain_statements body.now)) }
{
    let mut list = Vec::new(arena);
    for stmt in body.iter() {
        let new = statement(stmt, sites, choice, arena)?;
        add_statement(&mut list, new)?;
    }
    Ok(into_bump_slice(list))
}

/// The arms of a `case`.
#[cycle(statement_instances)]
fn case_arms<'a>(
    arms: &[Arm<'a>],
    sites: &SiteList<'a>,
    choice: &Choice,
    arena: &'a Bump,
) -> Result<&'a [Arm<'a>], AllocError>
    requires fits { length (spell_arms (plain_arms arms.now)) < 2 ^ 64 }
    ensures { IfOk result (λ r. plain_arms r.now ≡ instance_arms sites.now choice.now.picks.items (plain_arms arms.now)) }
{
    let mut list = Vec::new(arena);
    for arm in arms.iter() {
        let labels = expression_instances(arm.labels, sites, choice, arena)?;
        let body = statement(arm.body, sites, choice, arena)?;
        let new = arm_of(labels, arm.colon, body, arena)?;
        add_arm(&mut list, new)?;
    }
    Ok(into_bump_slice(list))
}
