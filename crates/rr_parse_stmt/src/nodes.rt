//! Nodes of the tree, put into the arena.

ghost use Rattle.std.specs.Prelude.{◌≡◌, [], IfOk};
ghost use Rattle.rr_syntax.specs.Tree.{CaseItem, For, If, IfElse};
ghost use Rattle.rr_syntax.specs.View.{plain, plain_list, plain_loop, plain_statement};
ghost use Rattle.rr_parse_stmt.specs.Answer.{IsArmPiece, IsPiece};

use crate::expressions::Placed;
use crate::heads::HeadPiece;
use bumpalo::Bump;
use bumpalo::collections::into_bump_slice;
use rr_syntax::{Arm, Expr, Named, Stmt};
use std::alloc::AllocError;

/// A statement and the token after it.
#[derive(Clone, Copy)]
pub(crate) struct Piece<'a> {
    pub(crate) stmt: Stmt<'a>,
    pub(crate) next: u32,
}

/// An arm and the token after it.
#[derive(Clone, Copy)]
pub(crate) struct ArmPiece<'a> {
    pub(crate) arm: Arm<'a>,
    pub(crate) next: u32,
}

/// The name of a block, if it has one, and the token after it.
#[derive(Clone, Copy)]
pub(crate) struct LabelPiece<'a> {
    pub(crate) label: Option<Named<'a>>,
    pub(crate) next: u32,
}

/// An `if` without an `else`.
pub(crate) fn if_alone<'a>(
    test: Placed<'a>,
    first: Piece<'a>,
    arena: &'a Bump,
) -> Result<Piece<'a>, AllocError>
    ensures { IfOk result (λ r. IsPiece (If (plain test.entry.expr.now) (plain_statement first.entry.stmt)) first.entry.next r) }
{
    let yes = arena.try_alloc(first.stmt)?;
    let stmt = Stmt::If {
        test: test.expr,
        yes,
        no: None,
    };
    Ok(Piece {
        stmt,
        next: first.next,
    })
}

/// An `if` with an `else`.
pub(crate) fn if_else<'a>(
    test: Placed<'a>,
    first: Piece<'a>,
    second: Piece<'a>,
    arena: &'a Bump,
) -> Result<Piece<'a>, AllocError>
    ensures { IfOk result (λ r. IsPiece (IfElse (plain test.entry.expr.now) (plain_statement first.entry.stmt) (plain_statement second.entry.stmt)) second.entry.next r) }
{
    let yes = arena.try_alloc(first.stmt)?;
    let other = arena.try_alloc(second.stmt)?;
    let stmt = Stmt::If {
        test: test.expr,
        yes,
        no: Some(other),
    };
    Ok(Piece {
        stmt,
        next: second.next,
    })
}

/// A loop with this head.
pub(crate) fn loop_over<'a>(
    found: HeadPiece<'a>,
    turn: Piece<'a>,
    arena: &'a Bump,
) -> Result<Piece<'a>, AllocError>
    ensures { IfOk result (λ r. IsPiece (For (plain_loop found.entry.head) (plain_statement turn.entry.stmt)) turn.entry.next r) }
{
    let body = arena.try_alloc(turn.stmt)?;
    let stmt = Stmt::For {
        head: found.head,
        body,
    };
    Ok(Piece {
        stmt,
        next: turn.next,
    })
}

/// An arm with these labels.
pub(crate) fn case_item<'a>(
    labels: &'a [Expr<'a>],
    colon: bool,
    body: Piece<'a>,
    arena: &'a Bump,
) -> Result<ArmPiece<'a>, AllocError>
    ensures { IfOk result (λ r. IsArmPiece (CaseItem (plain_list labels.now) colon (plain_statement body.entry.stmt)) body.entry.next r) }
{
    let place = arena.try_alloc(body.stmt)?;
    let arm = Arm {
        labels,
        colon,
        body: place,
    };
    Ok(ArmPiece {
        arm,
        next: body.next,
    })
}

/// The labels of a default arm.
pub(crate) fn no_labels<'a>(arena: &'a Bump) -> &'a [Expr<'a>]
    ensures { result.now ≡ [] }
{
    into_bump_slice(Vec::new(arena))
}
