//! Statements in which each `<=` that assigns is `=`, as trees.
ghost use Rattle.std.specs.Prelude.{◌≡◌, ◌++◌, ◌∷◌, [], IfOk};
ghost use Rattle.rr_syntax.specs.Tree.{Block, Case, CaseItem, For, If, IfElse};
ghost use Rattle.rr_syntax.specs.View.{plain, plain_arm, plain_arms, plain_label, plain_list, plain_loop, plain_statement, plain_statements};
ghost use Rattle.rr_latch.specs.Immediate.{immediate as immediate_of, immediate_all, immediate_arms as immediate_arms_of};

use bumpalo::Bump;
use bumpalo::collections::into_bump_slice;
use rr_syntax::{Arm, Expr, Head, Keyword, Named, Stmt};
use std::alloc::AllocError;

/// A block.
#[tactic(auto, using(rr_syntax::proofs::Rows::plain_block))]
pub(crate) fn block<'a>(label: Option<Named<'a>>, body: &'a [Stmt<'a>]) -> Stmt<'a>
    ensures { plain_statement result ≡ Block (plain_label label.entry) (plain_statements body.now) }
{
    Stmt::Block { label, body }
}

/// An `if` without `else`.
#[tactic(auto, unfolding(rr_syntax::specs::View::plain_statement))]
fn if_then<'a>(test: &'a Expr<'a>, yes: Stmt<'a>, arena: &'a Bump) -> Result<Stmt<'a>, AllocError>
    ensures { IfOk result (λ r. plain_statement r ≡ If (plain test.now) (plain_statement yes.entry)) }
{
    let yes = arena.try_alloc(yes)?;
    Ok(Stmt::If {
        test,
        yes,
        no: None,
    })
}

/// An `if` with `else`.
#[tactic(auto, unfolding(rr_syntax::specs::View::plain_statement))]
fn if_else<'a>(
    test: &'a Expr<'a>,
    yes: Stmt<'a>,
    no: Stmt<'a>,
    arena: &'a Bump,
) -> Result<Stmt<'a>, AllocError>
    ensures { IfOk result (λ r. plain_statement r ≡ IfElse (plain test.now) (plain_statement yes.entry) (plain_statement no.entry)) }
{
    let yes = arena.try_alloc(yes)?;
    let other: &'a Stmt<'a> = arena.try_alloc(no)?;
    Ok(Stmt::If {
        test,
        yes,
        no: Some(other),
    })
}

/// A `case`.
#[tactic(auto, using(rr_syntax::proofs::Rows::plain_case))]
fn case<'a>(kind: Keyword, on: &'a Expr<'a>, arms: &'a [Arm<'a>]) -> Stmt<'a>
    ensures { plain_statement result ≡ Case kind.0 (plain on.now) (plain_arms arms.now) }
{
    Stmt::Case { kind, on, arms }
}

/// A loop.
#[tactic(auto, unfolding(rr_syntax::specs::View::plain_statement))]
fn for_each<'a>(head: Head<'a>, body: Stmt<'a>, arena: &'a Bump) -> Result<Stmt<'a>, AllocError>
    ensures { IfOk result (λ r. plain_statement r ≡ For (plain_loop head.entry) (plain_statement body.entry)) }
{
    let body = arena.try_alloc(body)?;
    Ok(Stmt::For { head, body })
}

/// An arm of a `case`.
#[tactic(auto, unfolding(rr_syntax::specs::View::plain_arm))]
fn arm_of<'a>(
    labels: &'a [Expr<'a>],
    colon: bool,
    body: Stmt<'a>,
    arena: &'a Bump,
) -> Result<Arm<'a>, AllocError>
    ensures { IfOk result (λ r. plain_arm r ≡ CaseItem (plain_list labels.now) colon (plain_statement body.entry)) }
{
    let body = arena.try_alloc(body)?;
    Ok(Arm {
        labels,
        colon,
        body,
    })
}

/// One statement more.
pub(crate) fn add_statement<'a>(
    list: &mut Vec<Stmt<'a>, &'a Bump>,
    stmt: Stmt<'a>,
) -> Result<(), AllocError>
    ensures { IfOk result (λ _. list.new.items ≡ list.old.items ++ (stmt.entry ∷ [])) }
{
    list.push(stmt)?;
    Ok(())
}

/// One arm more.
fn add_arm<'a>(list: &mut Vec<Arm<'a>, &'a Bump>, arm: Arm<'a>) -> Result<(), AllocError>
    ensures { IfOk result (λ _. list.new.items ≡ list.old.items ++ (arm.entry ∷ [])) }
{
    list.push(arm)?;
    Ok(())
}

/// A statement in which each `<=` that assigns is `=`. It shares its expressions with the old one, and the
/// heads of its loops.
#[cycle(immediate_statements)]
#[tactic(auto, using(crate::proofs::ImmediateArms::arms))]
pub(crate) fn immediate<'a>(stmt: &Stmt<'a>, arena: &'a Bump) -> Result<Stmt<'a>, AllocError>
    ensures { IfOk result (λ r. plain_statement r ≡ immediate_of (plain_statement stmt.now)) }
{
    match stmt {
        Stmt::Null => Ok(Stmt::Null),
        Stmt::Block { label, body } => {
            let list = immediates(body, arena)?;
            Ok(block(*label, list))
        }
        Stmt::If {
            test,
            yes,
            no: None,
        } => {
            let yes = immediate(yes, arena)?;
            let whole = if_then(*test, yes, arena)?;
            Ok(whole)
        }
        Stmt::If {
            test,
            yes,
            no: Some(other),
        } => {
            let yes = immediate(yes, arena)?;
            let other = immediate(other, arena)?;
            let whole = if_else(*test, yes, other, arena)?;
            Ok(whole)
        }
        Stmt::Case { kind, on, arms } => {
            let list = immediate_arms(arms, arena)?;
            Ok(case(*kind, *on, list))
        }
        Stmt::Assign { target, value, .. } => Ok(Stmt::Assign {
            target: *target,
            now: true,
            value: *value,
        }),
        Stmt::For { head, body } => {
            let body = immediate(body, arena)?;
            let whole = for_each(*head, body, arena)?;
            Ok(whole)
        }
    }
}

/// Several statements.
#[cycle(immediate_statements)]
fn immediates<'a>(body: &[Stmt<'a>], arena: &'a Bump) -> Result<&'a [Stmt<'a>], AllocError>
    ensures { IfOk result (λ r. plain_statements r.now ≡ immediate_all (plain_statements body.now)) }
{
    let mut list = Vec::new(arena);
    for stmt in body.iter() {
        let new = immediate(stmt, arena)?;
        add_statement(&mut list, new)?;
    }
    Ok(into_bump_slice(list))
}

/// The arms of a `case`.
#[cycle(immediate_statements)]
fn immediate_arms<'a>(arms: &[Arm<'a>], arena: &'a Bump) -> Result<&'a [Arm<'a>], AllocError>
    ensures { IfOk result (λ r. plain_arms r.now ≡ immediate_arms_of (plain_arms arms.now)) }
{
    let mut list = Vec::new(arena);
    for arm in arms.iter() {
        let body = immediate(arm.body, arena)?;
        let new = arm_of(arm.labels, arm.colon, body, arena)?;
        add_arm(&mut list, new)?;
    }
    Ok(into_bump_slice(list))
}
