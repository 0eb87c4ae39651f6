//! Expressions and targets with the values of a turn.

ghost use Rattle.std.specs.Prelude.{◌≡◌, ◌++◌, ◌∷◌, [], cond, Some, IfOk};
ghost use Rattle.std.specs.Str.{bytes_eq};
ghost use Rattle.rr_syntax.specs.View.{plain, plain_list};
ghost use Rattle.rr_loop_names.specs.Turns.{put_parts, put_target as target_with, put_targets as targets_with, put_tree, turned};
ghost use Rattle.rr_loop_names.specs.View.{plain_turn};

use crate::forms::{
    binary, bit, cast, concat, conditional, in_brackets, indexed, name_or_value, part, repeat,
    unary,
};
use bumpalo::Bump;
use bumpalo::collections::into_bump_slice;
use rr_syntax::Expr;
use std::alloc::AllocError;

/// A loop's name and the 32 bits of its value in a turn. A turn is a slice of these, in which the
/// innermost loop is last.
#[derive(Clone, Copy)]
pub struct TurnName<'a> {
    pub name: &'a str,
    pub value: u32,
}

/// The value of a name by a loop, or by those around it.
fn nearer(name: &str, inner: &TurnName, outer: Option<u32>) -> Option<u32>
    ensures { result ≡ cond (bytes_eq name.now inner.now.name.now) (Some inner.now.value) outer }
{
    if name == inner.name {
        Some(inner.value)
    } else {
        outer
    }
}

/// The value of a name in a turn.
fn value_in(name: &str, turn: &[TurnName]) -> Option<u32>
    ensures { result ≡ turned name.now (plain_turn turn.now) }
{
    let mut value = None;
    for inner in turn.iter() {
        value = nearer(name, inner, value);
    }
    value
}

/// One part more.
fn add_part<'a>(parts: &mut Vec<Expr<'a>, &'a Bump>, part: Expr<'a>) -> Result<(), AllocError>
    ensures { IfOk result (λ _. parts.new.items ≡ parts.old.items ++ (part.entry ∷ [])) }
{
    parts.push(part)?;
    Ok(())
}

/// An expression in which each name of a loop, where it stands by itself, is the literal of its value in a
/// turn, with the number of the name's token; what is selected from stays. The error is want of memory.
#[cycle(putting)]
#[tactic(auto, using(crate::proofs::PutNodes::put_nodes))]
pub fn put<'a>(
    expr: &Expr<'a>,
    turn: &[TurnName<'a>],
    arena: &'a Bump,
) -> Result<Expr<'a>, AllocError>
    ensures { IfOk result (λ r. plain r ≡ put_tree (plain_turn turn.now) (plain expr.now)) }
{
    match expr {
        Expr::Name { token, name } => Ok(name_or_value(*token, name, value_in(name, turn))),
        Expr::Literal { .. } => Ok(*expr),
        Expr::Bit { token, name, index } => {
            let index = put(index, turn, arena)?;
            let whole = bit(*token, name, index, arena)?;
            Ok(whole)
        }
        Expr::Part {
            token,
            name,
            left,
            right,
        } => {
            let left = put(left, turn, arena)?;
            let right = put(right, turn, arena)?;
            let whole = part(*token, name, left, right, arena)?;
            Ok(whole)
        }
        Expr::Indexed {
            token,
            name,
            from,
            width,
            up,
        } => {
            let from = put(from, turn, arena)?;
            let width = put(width, turn, arena)?;
            let whole = indexed(*token, name, from, width, *up, arena)?;
            Ok(whole)
        }
        Expr::Unary { op, of } => {
            let of = put(of, turn, arena)?;
            let whole = unary(*op, of, arena)?;
            Ok(whole)
        }
        Expr::Binary { op, left, right } => {
            let left = put(left, turn, arena)?;
            let right = put(right, turn, arena)?;
            let whole = binary(*op, left, right, arena)?;
            Ok(whole)
        }
        Expr::Cond { test, yes, no } => {
            let test = put(test, turn, arena)?;
            let yes = put(yes, turn, arena)?;
            let no = put(no, turn, arena)?;
            let whole = conditional(test, yes, no, arena)?;
            Ok(whole)
        }
        Expr::Concat { parts } => {
            let list = put_all(parts, turn, arena)?;
            Ok(concat(list))
        }
        Expr::Repeat { count, parts } => {
            let count = put(count, turn, arena)?;
            let list = put_all(parts, turn, arena)?;
            let whole = repeat(count, list, arena)?;
            Ok(whole)
        }
        Expr::Cast { signed, of } => {
            let of = put(of, turn, arena)?;
            let whole = cast(*signed, of, arena)?;
            Ok(whole)
        }
        Expr::Paren { of } => {
            let of = put(of, turn, arena)?;
            let whole = in_brackets(of, arena)?;
            Ok(whole)
        }
    }
}

/// The same of several expressions, in their order.
#[cycle(putting)]
pub fn put_all<'a>(
    list: &[Expr<'a>],
    turn: &[TurnName<'a>],
    arena: &'a Bump,
) -> Result<&'a [Expr<'a>], AllocError>
    ensures { IfOk result (λ r. plain_list r.now ≡ put_parts (plain_turn turn.now) (plain_list list.now)) }
{
    let mut parts = Vec::new(arena);
    for expr in list.iter() {
        let part = put(expr, turn, arena)?;
        add_part(&mut parts, part)?;
    }
    Ok(into_bump_slice(parts))
}

/// A target with the values of a turn in its indices; what it assigns stays. The error is want of memory.
#[cycle(aiming)]
#[tactic(auto, using(crate::proofs::PutNodes::target_nodes))]
pub fn put_target<'a>(
    target: &Expr<'a>,
    turn: &[TurnName<'a>],
    arena: &'a Bump,
) -> Result<Expr<'a>, AllocError>
    ensures { IfOk result (λ r. plain r ≡ target_with (plain_turn turn.now) (plain target.now)) }
{
    match target {
        Expr::Name { .. } => Ok(*target),
        Expr::Concat { parts } => {
            let list = put_targets(parts, turn, arena)?;
            Ok(concat(list))
        }
        Expr::Literal { .. }
        | Expr::Bit { .. }
        | Expr::Part { .. }
        | Expr::Indexed { .. }
        | Expr::Unary { .. }
        | Expr::Binary { .. }
        | Expr::Cond { .. }
        | Expr::Repeat { .. }
        | Expr::Cast { .. }
        | Expr::Paren { .. } => put(target, turn, arena),
    }
}

/// The same of several targets, in their order.
#[cycle(aiming)]
pub fn put_targets<'a>(
    list: &[Expr<'a>],
    turn: &[TurnName<'a>],
    arena: &'a Bump,
) -> Result<&'a [Expr<'a>], AllocError>
    ensures { IfOk result (λ r. plain_list r.now ≡ targets_with (plain_turn turn.now) (plain_list list.now)) }
{
    let mut parts = Vec::new(arena);
    for target in list.iter() {
        let part = put_target(target, turn, arena)?;
        add_part(&mut parts, part)?;
    }
    Ok(into_bump_slice(parts))
}
