//! Constant expressions in a turn, and the names of its loops.

ghost use Rattle.std.specs.Prelude.{◌≡◌, ◌<◌, ◌++◌, ◌∷◌, [], length, get_or, IfOk, MatchResult, Ok};
ghost use Rattle.rr_syntax.specs.View.{plain, plain_loop};
ghost use Rattle.rr_flat.specs.Faults.{Refuses};
ghost use Rattle.rr_loop_names.specs.declared.turns.TurnName.{TurnName as TurnNameOf};
ghost use Rattle.rr_loop_names.specs.View.{plain_turn};
ghost use Rattle.rr_loop_rules.specs.View.{plain_around};
ghost use Rattle.rr_unfold.specs.Unfold.{around, following as following_of, inside, loop_truth as loop_truth_of, loop_value as loop_value_of, map_ok, value_in as value_in_of};

use bumpalo::Bump;
use rr_bits::Bits;
use rr_declarations::constant_of;
use rr_expr::Scope;
use rr_flat::FlatFault;
use rr_loop_names::{TurnName, put};
use rr_syntax::{Expr, Head};
use std::alloc::{AllocError, Global};

/// A turn with one loop more, the innermost.
fn with_name<'a>(
    alloc: Global,
    turn: &[TurnName<'a>],
    inner: TurnName<'a>,
) -> Result<Vec<TurnName<'a>>, AllocError>
    ensures { IfOk result (λ r. r.items ≡ turn.now ++ inner.entry ∷ []) }
{
    let mut names = Vec::new(alloc);
    names.extend_from_slice(turn)?;
    names.push(inner)?;
    Ok(names)
}

/// The turn of a loop inside others in which its name has that value.
#[tactic(auto, using(crate::proofs::Entering::turn_last), unfolding(rr_syntax::specs::View::plain_loop))]
pub(crate) fn inside_of<'a>(
    alloc: Global,
    turn: &[TurnName<'a>],
    head: &Head<'a>,
    value: u32,
) -> Result<Vec<TurnName<'a>>, AllocError>
    ensures { IfOk result (λ r. plain_turn r.items ≡ inside (plain_loop head.now) (plain_turn turn.now) value) }
{
    let inner = TurnName {
        name: head.name,
        value,
    };
    let names = with_name(alloc, turn, inner)?;
    Ok(names)
}

/// The name of a loop of a turn.
fn name_at<'a>(turn: &[TurnName<'a>], at: usize) -> &'a str
    requires { at < length turn.now }
    ensures { (other : TurnNameOf) → result ≡ (get_or turn.now at other).name }
{
    turn[at].name
}

/// One name more.
fn add_name<'a>(names: &mut Vec<&'a str>, name: &'a str) -> Result<(), AllocError>
    ensures { IfOk result (λ _. names.new.items ≡ names.old.items ++ (name.entry ∷ [])) }
{
    names.push(name)?;
    Ok(())
}

/// The names of the loops of a turn.
pub(crate) fn around_of<'a>(
    alloc: Global,
    turn: &[TurnName<'a>],
) -> Result<Vec<&'a str>, AllocError>
    ensures { IfOk result (λ r. plain_around r.items ≡ around (plain_turn turn.now)) }
{
    let mut names = Vec::new(alloc);
    let mut at = 0;
    while at < turn.len() {
        add_name(&mut names, name_at(turn, at))?;
        at += 1;
    }
    Ok(names)
}

/// A value as the 32 bits of an integer.
fn loop_value(value: &(Bits, bool)) -> u32
    ensures { result ≡ loop_value_of value.now }
{
    value.0.extend(32, value.1).to_u128() as u32
}

/// Whether a value is true.
fn loop_truth(value: &(Bits, bool)) -> bool
    ensures { result ≡ loop_truth_of value.now }
{
    value.0.to_u128() != 0
}

/// An answer as the 32 bits of an integer.
fn integer(value: &Result<(Bits, bool), FlatFault>) -> Result<u32, FlatFault>
    ensures { result ≡ map_ok loop_value_of value.now }
{
    match value {
        Ok(value) => Ok(loop_value(value)),
        Err(fault) => Err(*fault),
    }
}

/// An answer as a truth value.
fn truth(value: &Result<(Bits, bool), FlatFault>) -> Result<bool, FlatFault>
    ensures { result ≡ map_ok loop_truth_of value.now }
{
    match value {
        Ok(value) => Ok(loop_truth(value)),
        Err(fault) => Err(*fault),
    }
}

/// The value of a constant expression in a turn, or its first fault. The outer error is want of memory; so
/// below.
#[tactic(auto, unfolding(crate::specs::Unfold::value_in))]
fn value_in<'a>(
    expr: &Expr<'a>,
    turn: &[TurnName<'a>],
    scope: &Scope,
    arena: &'a Bump,
) -> Result<Result<(Bits, bool), FlatFault>, AllocError>
    ensures { IfOk result (λ r. r ≡ value_in_of scope.now (plain_turn turn.now) (plain expr.now)) }
{
    let put = put(expr, turn, arena)?;
    Ok(constant_of(&put, scope))
}

/// The value of a constant expression in a turn as the 32 bits of an integer.
pub(crate) fn integer_in<'a>(
    expr: &Expr<'a>,
    turn: &[TurnName<'a>],
    scope: &Scope,
    arena: &'a Bump,
) -> Result<Result<u32, FlatFault>, AllocError>
    ensures { IfOk result (λ r. r ≡ map_ok loop_value_of (value_in_of scope.now (plain_turn turn.now) (plain expr.now))) }
{
    let value = value_in(expr, turn, scope, arena)?;
    Ok(integer(&value))
}

/// The value of a constant expression in a turn as a truth value.
pub(crate) fn truth_in<'a>(
    expr: &Expr<'a>,
    turn: &[TurnName<'a>],
    scope: &Scope,
    arena: &'a Bump,
) -> Result<Result<bool, FlatFault>, AllocError>
    ensures { IfOk result (λ r. r ≡ map_ok loop_truth_of (value_in_of scope.now (plain_turn turn.now) (plain expr.now))) }
{
    let value = value_in(expr, turn, scope, arena)?;
    Ok(truth(&value))
}

/// The value of a loop's name that comes next; none where there is no turn with the values of that one. The
/// fault is that of the test or the step, or want of memory.
#[tactic(auto, using(crate::proofs::Following::followings), unfolding(rr_syntax::specs::View::plain_loop))]
pub(crate) fn following<'a>(
    head: &Head<'a>,
    inner: &[TurnName<'a>],
    scope: &Scope,
    arena: &'a Bump,
) -> Result<Option<u32>, FlatFault>
    ensures { MatchResult result
        (λ next. following_of scope.now (plain_turn inner.now) (plain_loop head.now) ≡ Ok next)
        (Refuses (following_of scope.now (plain_turn inner.now) (plain_loop head.now))) }
{
    let more = truth_in(head.test, inner, scope, arena)?;
    if !more? {
        return Ok(None);
    }
    let next = integer_in(head.step, inner, scope, arena)?;
    let next = next?;
    Ok(Some(next))
}
