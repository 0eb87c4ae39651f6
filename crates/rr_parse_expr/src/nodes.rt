//! Nodes of expressions, made from what was read of their parts.

ghost use Rattle.std.specs.Prelude.{◌≡◌, ◌<◌, ◌+◌, max, IfOk};
ghost use Rattle.rr_syntax.specs.Tree.{Bit, Unary, Binary, Cond, Concat, Repeat, Cast, Paren};
ghost use Rattle.rr_syntax.specs.View.{plain, plain_list};
ghost use Rattle.rr_parse_expr.specs.Answer.{IsNode};
ghost use Rattle.rr_parse_expr.specs.Made.{select_of};

use bumpalo::Bump;
use rr_syntax::{Expr, Mark};
use std::alloc::AllocError;

/// An expression, the token after it, and its depth.
#[derive(Clone, Copy)]
pub(crate) struct Read<'a> {
    pub(crate) expr: Expr<'a>,
    pub(crate) next: u32,
    pub(crate) depth: u32,
}

/// The token after a list, and the depth of the node that holds it.
#[derive(Clone, Copy)]
pub(crate) struct End {
    pub(crate) next: u32,
    pub(crate) depth: u32,
}

/// An operator before one operand.
pub(crate) fn unary<'a>(op: Mark, inner: Read<'a>, arena: &'a Bump) -> Result<Read<'a>, AllocError>
    requires { inner.depth < 1000 }
    ensures { IfOk result (λ r. IsNode (Unary op.0 (plain inner.entry.expr)) inner.entry.next (inner.entry.depth + 1) r) }
{
    let of = arena.try_alloc(inner.expr)?;
    Ok(Read {
        expr: Expr::Unary { op, of },
        next: inner.next,
        depth: inner.depth + 1,
    })
}

/// An expression in brackets.
pub(crate) fn paren<'a>(inner: Read<'a>, arena: &'a Bump) -> Result<Read<'a>, AllocError>
    requires { inner.depth < 1000 }
    ensures { IfOk result (λ r. IsNode (Paren (plain inner.entry.expr)) inner.entry.next (inner.entry.depth + 1) r) }
{
    let of = arena.try_alloc(inner.expr)?;
    Ok(Read {
        expr: Expr::Paren { of },
        next: inner.next,
        depth: inner.depth + 1,
    })
}

/// A cast.
pub(crate) fn cast<'a>(
    signed: bool,
    inner: Read<'a>,
    arena: &'a Bump,
) -> Result<Read<'a>, AllocError>
    requires { inner.depth < 1000 }
    ensures { IfOk result (λ r. IsNode (Cast signed (plain inner.entry.expr)) inner.entry.next (inner.entry.depth + 1) r) }
{
    let of = arena.try_alloc(inner.expr)?;
    Ok(Read {
        expr: Expr::Cast { signed, of },
        next: inner.next,
        depth: inner.depth + 1,
    })
}

/// A bit-select, whose closing bracket stands at `first.next`.
pub(crate) fn bit<'a>(
    token: u32,
    name: &'a str,
    first: Read<'a>,
    arena: &'a Bump,
) -> Result<Read<'a>, AllocError>
    requires shallow { first.depth < 1000 }
    requires inside { first.next + 1 < 4294967296 }
    ensures { IfOk result (λ r. IsNode (Bit token name.now (plain first.entry.expr)) (first.entry.next + 1) (first.entry.depth + 1) r) }
{
    let index = arena.try_alloc(first.expr)?;
    Ok(Read {
        expr: Expr::Bit { token, name, index },
        next: first.next + 1,
        depth: first.depth + 1,
    })
}

/// A part-select, with a mark between its two expressions.
pub(crate) fn part<'a>(
    token: u32,
    name: &'a str,
    between: Mark,
    first: Read<'a>,
    second: Read<'a>,
    arena: &'a Bump,
) -> Result<Read<'a>, AllocError>
    requires first_shallow { first.depth < 1000 }
    requires second_shallow { second.depth < 1000 }
    ensures { IfOk result (λ r. IsNode (select_of token name.now between.0 (plain first.entry.expr) (plain second.entry.expr)) second.entry.next (max first.entry.depth second.entry.depth + 1) r) }
{
    let left = arena.try_alloc(first.expr)?;
    let right = arena.try_alloc(second.expr)?;
    let depth = first.depth.max(second.depth) + 1;
    let next = second.next;
    if between == Mark::COLON {
        let expr = Expr::Part {
            token,
            name,
            left,
            right,
        };
        Ok(Read { expr, next, depth })
    } else {
        let up = between == Mark::PART_UP;
        let expr = Expr::Indexed {
            token,
            name,
            from: left,
            width: right,
            up,
        };
        Ok(Read { expr, next, depth })
    }
}

/// A concatenation.
pub(crate) fn concat<'a>(parts: &'a [Expr<'a>], end: End) -> Read<'a>
    ensures { IsNode (Concat (plain_list parts.now)) end.next end.depth result }
{
    Read {
        expr: Expr::Concat { parts },
        next: end.next,
        depth: end.depth,
    }
}

/// A replication, whose last brace stands at `end.next`.
pub(crate) fn repeat<'a>(
    count: Read<'a>,
    parts: &'a [Expr<'a>],
    end: End,
    arena: &'a Bump,
) -> Result<Read<'a>, AllocError>
    requires shallow { count.depth < 1000 }
    requires inside { end.next + 1 < 4294967296 }
    ensures { IfOk result (λ r. IsNode (Repeat (plain count.entry.expr) (plain_list parts.now)) (end.next + 1) (max (count.entry.depth + 1) end.depth) r) }
{
    let times = arena.try_alloc(count.expr)?;
    Ok(Read {
        expr: Expr::Repeat {
            count: times,
            parts,
        },
        next: end.next + 1,
        depth: (count.depth + 1).max(end.depth),
    })
}

/// An operator between two operands.
pub(crate) fn binary<'a>(
    op: Mark,
    left: Read<'a>,
    right: Read<'a>,
    arena: &'a Bump,
) -> Result<Read<'a>, AllocError>
    requires left_shallow { left.depth < 1000 }
    requires right_shallow { right.depth < 1000 }
    ensures { IfOk result (λ r. IsNode (Binary op.0 (plain left.entry.expr) (plain right.entry.expr)) right.entry.next (max left.entry.depth right.entry.depth + 1) r) }
{
    let first = arena.try_alloc(left.expr)?;
    let second = arena.try_alloc(right.expr)?;
    Ok(Read {
        expr: Expr::Binary {
            op,
            left: first,
            right: second,
        },
        next: right.next,
        depth: left.depth.max(right.depth) + 1,
    })
}

/// A conditional.
pub(crate) fn cond<'a>(
    left: Read<'a>,
    middle: Read<'a>,
    last: Read<'a>,
    arena: &'a Bump,
) -> Result<Read<'a>, AllocError>
    requires left_shallow { left.depth < 1000 }
    requires middle_shallow { middle.depth < 1000 }
    requires last_shallow { last.depth < 1000 }
    ensures { IfOk result (λ r. IsNode (Cond (plain left.entry.expr) (plain middle.entry.expr) (plain last.entry.expr)) last.entry.next (max left.entry.depth (max middle.entry.depth last.entry.depth) + 1) r) }
{
    let test = arena.try_alloc(left.expr)?;
    let yes = arena.try_alloc(middle.expr)?;
    let no = arena.try_alloc(last.expr)?;
    Ok(Read {
        expr: Expr::Cond { test, yes, no },
        next: last.next,
        depth: left.depth.max(middle.depth.max(last.depth)) + 1,
    })
}
