//! Statements of parts that are made anew.

ghost use Rattle.std.specs.Prelude.{◌≡◌, ◌++◌, ◌∷◌, [], IfOk};
ghost use Rattle.rr_syntax.specs.Tree.{Assign, Block, Case, CaseItem, If, IfElse};
ghost use Rattle.rr_syntax.specs.View.{plain, plain_arm, plain_arms, plain_label, plain_list, plain_loop, plain_statement, plain_statements};
ghost use Rattle.rr_unfold.specs.Unfold.{loop_label};

use bumpalo::Bump;
use rr_syntax::{Arm, Expr, Head, Keyword, Named, Stmt};
use std::alloc::AllocError;

/// A block.
#[tactic(auto, using(rr_syntax::proofs::Rows::plain_block))]
pub(crate) fn block<'a>(label: Option<Named<'a>>, body: &'a [Stmt<'a>]) -> Stmt<'a>
    ensures { plain_statement result ≡ Block (plain_label label.entry) (plain_statements body.now) }
{
    Stmt::Block { label, body }
}

/// The label of the block of a loop's turns: its name.
#[tactic(auto, unfolding(rr_syntax::specs::View::plain_loop, rr_syntax::specs::View::plain_label))]
pub(crate) fn label_of<'a>(head: &Head<'a>) -> Option<Named<'a>>
    ensures { plain_label result ≡ loop_label (plain_loop head.now) }
{
    Some(Named {
        token: head.token,
        name: head.name,
    })
}

/// An `if` without `else`.
#[tactic(auto, unfolding(rr_syntax::specs::View::plain_statement))]
pub(crate) fn if_then<'a>(
    test: Expr<'a>,
    yes: Stmt<'a>,
    arena: &'a Bump,
) -> Result<Stmt<'a>, AllocError>
    ensures { IfOk result (λ r. plain_statement r ≡ If (plain test.entry) (plain_statement yes.entry)) }
{
    let test = arena.try_alloc(test)?;
    let yes = arena.try_alloc(yes)?;
    Ok(Stmt::If {
        test,
        yes,
        no: None,
    })
}

/// An `if` with `else`.
#[tactic(auto, unfolding(rr_syntax::specs::View::plain_statement))]
pub(crate) fn if_else<'a>(
    test: Expr<'a>,
    yes: Stmt<'a>,
    no: Stmt<'a>,
    arena: &'a Bump,
) -> Result<Stmt<'a>, AllocError>
    ensures { IfOk result (λ r. plain_statement r ≡ IfElse (plain test.entry) (plain_statement yes.entry) (plain_statement no.entry)) }
{
    let test = arena.try_alloc(test)?;
    let yes = arena.try_alloc(yes)?;
    let other: &'a Stmt<'a> = arena.try_alloc(no)?;
    Ok(Stmt::If {
        test,
        yes,
        no: Some(other),
    })
}

/// A `case`.
#[tactic(auto, using(rr_syntax::proofs::Rows::plain_case))]
pub(crate) fn case<'a>(
    kind: Keyword,
    on: Expr<'a>,
    arms: &'a [Arm<'a>],
    arena: &'a Bump,
) -> Result<Stmt<'a>, AllocError>
    ensures { IfOk result (λ r. plain_statement r ≡ Case kind.0 (plain on.entry) (plain_arms arms.now)) }
{
    let on = arena.try_alloc(on)?;
    Ok(Stmt::Case { kind, on, arms })
}

/// An assignment.
#[tactic(auto, unfolding(rr_syntax::specs::View::plain_statement))]
pub(crate) fn assign<'a>(
    target: Expr<'a>,
    now: bool,
    value: Expr<'a>,
    arena: &'a Bump,
) -> Result<Stmt<'a>, AllocError>
    ensures { IfOk result (λ r. plain_statement r ≡ Assign (plain target.entry) now (plain value.entry)) }
{
    let target = arena.try_alloc(target)?;
    let value = arena.try_alloc(value)?;
    Ok(Stmt::Assign { target, now, value })
}

/// An arm of a `case`.
#[tactic(auto, unfolding(rr_syntax::specs::View::plain_arm))]
pub(crate) fn arm_of<'a>(
    labels: &'a [Expr<'a>],
    colon: bool,
    body: Stmt<'a>,
    arena: &'a Bump,
) -> Result<Arm<'a>, AllocError>
    ensures { IfOk result (λ r. plain_arm r ≡ CaseItem (plain_list labels.now) colon (plain_statement body.entry)) }
{
    let body = arena.try_alloc(body)?;
    Ok(Arm {
        labels,
        colon,
        body,
    })
}

/// One statement more.
pub(crate) fn add_statement<'a>(
    list: &mut Vec<Stmt<'a>, &'a Bump>,
    stmt: Stmt<'a>,
) -> Result<(), AllocError>
    ensures { IfOk result (λ _. list.new.items ≡ list.old.items ++ (stmt.entry ∷ [])) }
{
    list.push(stmt)?;
    Ok(())
}

/// One arm more.
pub(crate) fn add_arm<'a>(list: &mut Vec<Arm<'a>, &'a Bump>, arm: Arm<'a>) -> Result<(), AllocError>
    ensures { IfOk result (λ _. list.new.items ≡ list.old.items ++ (arm.entry ∷ [])) }
{
    list.push(arm)?;
    Ok(())
}
