//! The forms of expressions, from parts that are made anew.

ghost use Rattle.std.specs.Prelude.{◌≡◌, IfOk};
ghost use Rattle.rr_syntax.specs.Tree.{Binary, Bit, Cast, Concat, Cond, Indexed, Paren, Part, Repeat, Unary};
ghost use Rattle.rr_syntax.specs.View.{plain, plain_list};
ghost use Rattle.rr_loop_names.specs.Turns.{put_name};

use bumpalo::Bump;
use rr_syntax::{Expr, Mark, Number};
use std::alloc::AllocError;

/// A name, or the literal of its value where it has one: 32 bits, signed (IEEE 1364-2005 section 3.9).
#[tactic(auto, unfolding(rr_syntax::specs::View::plain))]
pub(crate) fn name_or_value<'a>(token: u32, name: &'a str, value: Option<u32>) -> Expr<'a>
    ensures { plain result ≡ put_name token name.now value }
{
    match value {
        None => Expr::Name { token, name },
        Some(value) => Expr::Literal {
            token,
            number: Number {
                width: 32,
                signed: true,
                value: value as u128,
                any: 0,
                unknown: 0,
            },
        },
    }
}

/// A select of a bit.
#[tactic(auto, unfolding(rr_syntax::specs::View::plain))]
pub(crate) fn bit<'a>(
    token: u32,
    name: &'a str,
    index: Expr<'a>,
    arena: &'a Bump,
) -> Result<Expr<'a>, AllocError>
    ensures { IfOk result (λ r. plain r ≡ Bit token name.now (plain index.entry)) }
{
    let index = arena.try_alloc(index)?;
    Ok(Expr::Bit { token, name, index })
}

/// A select of a part.
#[tactic(auto, unfolding(rr_syntax::specs::View::plain))]
pub(crate) fn part<'a>(
    token: u32,
    name: &'a str,
    left: Expr<'a>,
    right: Expr<'a>,
    arena: &'a Bump,
) -> Result<Expr<'a>, AllocError>
    ensures { IfOk result (λ r. plain r ≡ Part token name.now (plain left.entry) (plain right.entry)) }
{
    let left = arena.try_alloc(left)?;
    let right = arena.try_alloc(right)?;
    Ok(Expr::Part {
        token,
        name,
        left,
        right,
    })
}

/// A select of so many bits from an index up or down.
#[tactic(auto, unfolding(rr_syntax::specs::View::plain))]
pub(crate) fn indexed<'a>(
    token: u32,
    name: &'a str,
    from: Expr<'a>,
    width: Expr<'a>,
    up: bool,
    arena: &'a Bump,
) -> Result<Expr<'a>, AllocError>
    ensures { IfOk result (λ r. plain r ≡ Indexed token name.now (plain from.entry) (plain width.entry) up) }
{
    let from = arena.try_alloc(from)?;
    let width = arena.try_alloc(width)?;
    Ok(Expr::Indexed {
        token,
        name,
        from,
        width,
        up,
    })
}

/// An operation of one expression.
#[tactic(auto, unfolding(rr_syntax::specs::View::plain))]
pub(crate) fn unary<'a>(op: Mark, of: Expr<'a>, arena: &'a Bump) -> Result<Expr<'a>, AllocError>
    ensures { IfOk result (λ r. plain r ≡ Unary op.0 (plain of.entry)) }
{
    let of = arena.try_alloc(of)?;
    Ok(Expr::Unary { op, of })
}

/// An operation of two expressions.
#[tactic(auto, unfolding(rr_syntax::specs::View::plain))]
pub(crate) fn binary<'a>(
    op: Mark,
    left: Expr<'a>,
    right: Expr<'a>,
    arena: &'a Bump,
) -> Result<Expr<'a>, AllocError>
    ensures { IfOk result (λ r. plain r ≡ Binary op.0 (plain left.entry) (plain right.entry)) }
{
    let left = arena.try_alloc(left)?;
    let right = arena.try_alloc(right)?;
    Ok(Expr::Binary { op, left, right })
}

/// A conditional.
#[tactic(auto, unfolding(rr_syntax::specs::View::plain))]
pub(crate) fn conditional<'a>(
    test: Expr<'a>,
    yes: Expr<'a>,
    no: Expr<'a>,
    arena: &'a Bump,
) -> Result<Expr<'a>, AllocError>
    ensures { IfOk result (λ r. plain r ≡ Cond (plain test.entry) (plain yes.entry) (plain no.entry)) }
{
    let test = arena.try_alloc(test)?;
    let yes = arena.try_alloc(yes)?;
    let no = arena.try_alloc(no)?;
    Ok(Expr::Cond { test, yes, no })
}

/// A concatenation.
#[tactic(auto, using(rr_syntax::proofs::Rows::plain_concat))]
pub(crate) fn concat<'a>(parts: &'a [Expr<'a>]) -> Expr<'a>
    ensures { plain result ≡ Concat (plain_list parts.now) }
{
    Expr::Concat { parts }
}

/// A replication of parts in the arena.
#[tactic(auto, using(rr_syntax::proofs::Rows::plain_repeat))]
fn replication<'a>(count: &'a Expr<'a>, parts: &'a [Expr<'a>]) -> Expr<'a>
    ensures { plain result ≡ Repeat (plain count.now) (plain_list parts.now) }
{
    Expr::Repeat { count, parts }
}

/// A replication.
pub(crate) fn repeat<'a>(
    count: Expr<'a>,
    parts: &'a [Expr<'a>],
    arena: &'a Bump,
) -> Result<Expr<'a>, AllocError>
    ensures { IfOk result (λ r. plain r ≡ Repeat (plain count.entry) (plain_list parts.now)) }
{
    let count = arena.try_alloc(count)?;
    Ok(replication(count, parts))
}

/// A cast.
#[tactic(auto, unfolding(rr_syntax::specs::View::plain))]
pub(crate) fn cast<'a>(signed: bool, of: Expr<'a>, arena: &'a Bump) -> Result<Expr<'a>, AllocError>
    ensures { IfOk result (λ r. plain r ≡ Cast signed (plain of.entry)) }
{
    let of = arena.try_alloc(of)?;
    Ok(Expr::Cast { signed, of })
}

/// An expression in brackets.
#[tactic(auto, unfolding(rr_syntax::specs::View::plain))]
pub(crate) fn in_brackets<'a>(of: Expr<'a>, arena: &'a Bump) -> Result<Expr<'a>, AllocError>
    ensures { IfOk result (λ r. plain r ≡ Paren (plain of.entry)) }
{
    let of = arena.try_alloc(of)?;
    Ok(Expr::Paren { of })
}
