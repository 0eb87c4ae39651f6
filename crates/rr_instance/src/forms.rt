//! The forms that a choice puts at the sites of expressions.

ghost use Rattle.std.specs.Prelude.{◌≡◌, IfOk};
ghost use Rattle.rr_syntax.specs.Tree.{Binary, Paren, Unary};
ghost use Rattle.rr_syntax.specs.View.{plain};
ghost use Rattle.rr_instance.specs.Instances.{fresh, guarded as guarded_of, named as named_of, negated as negated_of, new_literal as new_literal_of, new_test as new_test_of, number_with as number_with_of};
ghost use Rattle.rr_choice.specs.View.{plain_found};

use bumpalo::Bump;
use rr_choice::{Found, cut, guard_names, picked_form, picked_name};
use rr_syntax::{Expr, Mark, Number};
use std::alloc::AllocError;

/// The token number of a leaf that no source has.
pub(crate) const FRESH: u32 = u32::MAX;

/// A number with another value, in which each digit is known.
fn number_with(number: Number, value: u128) -> Number
    ensures { result ≡ number_with_of number value }
{
    Number {
        width: number.width,
        signed: number.signed,
        value: cut(value, number.width),
        any: 0,
        unknown: 0,
    }
}

/// A literal with the value of its pick.
#[tactic(auto, unfolding(rr_syntax::specs::View::plain))]
pub(crate) fn new_literal<'a>(found: Option<Found<'a>>, token: u32, number: Number) -> Expr<'a>
    ensures { plain result ≡ new_literal_of (plain_found found.entry) token number }
{
    match found {
        None => Expr::Literal { token, number },
        Some(found) => {
            if found.pick.on {
                Expr::Literal {
                    token: FRESH,
                    number: number_with(number, found.pick.value),
                }
            } else {
                Expr::Literal { token, number }
            }
        }
    }
}

/// A name that no source spells.
#[tactic(auto, unfolding(rr_syntax::specs::View::plain))]
pub(crate) fn named<'a>(name: &'a str) -> Expr<'a>
    ensures { plain result ≡ named_of name.now }
{
    Expr::Name { token: FRESH, name }
}

/// The negation of an expression.
#[tactic(auto, unfolding(rr_syntax::specs::View::plain))]
pub(crate) fn negated<'a>(of: Expr<'a>, arena: &'a Bump) -> Result<Expr<'a>, AllocError>
    ensures { IfOk result (λ r. plain r ≡ negated_of (plain of.entry)) }
{
    let of = arena.try_alloc(of)?;
    Ok(Expr::Unary { op: Mark::NOT, of })
}

/// An expression in brackets.
#[tactic(auto, unfolding(rr_syntax::specs::View::plain))]
pub(crate) fn in_brackets<'a>(of: Expr<'a>, arena: &'a Bump) -> Result<Expr<'a>, AllocError>
    ensures { IfOk result (λ r. plain r ≡ Paren (plain of.entry)) }
{
    let of = arena.try_alloc(of)?;
    Ok(Expr::Paren { of })
}

/// An operation of two expressions.
#[tactic(auto, unfolding(rr_syntax::specs::View::plain))]
pub(crate) fn operation<'a>(
    op: Mark,
    left: Expr<'a>,
    right: Expr<'a>,
    arena: &'a Bump,
) -> Result<Expr<'a>, AllocError>
    ensures { IfOk result (λ r. plain r ≡ Binary op.0 (plain left.entry) (plain right.entry)) }
{
    let left = arena.try_alloc(left)?;
    let right = arena.try_alloc(right)?;
    Ok(Expr::Binary { op, left, right })
}

/// A condition in a form of a guard; a form past the last counts as the last.
pub(crate) fn guarded<'a>(
    test: Expr<'a>,
    form: u8,
    name: &'a str,
    arena: &'a Bump,
) -> Result<Expr<'a>, AllocError>
    ensures { IfOk result (λ r. plain r ≡ guarded_of form name.now (plain test.entry)) }
{
    let test = in_brackets(test, arena)?;
    if form == 0 {
        let whole = negated(test, arena)?;
        return Ok(whole);
    }
    if form == 1 {
        let whole = operation(Mark::LOGICAL_AND, test, named(name), arena)?;
        return Ok(whole);
    }
    if form == 3 {
        let whole = operation(Mark::LOGICAL_OR, test, named(name), arena)?;
        return Ok(whole);
    }
    let other = negated(named(name), arena)?;
    if form == 2 {
        let whole = operation(Mark::LOGICAL_AND, test, other, arena)?;
        return Ok(whole);
    }
    let whole = operation(Mark::LOGICAL_OR, test, other, arena)?;
    Ok(whole)
}

/// A condition with the guard of its pick round it, where one is found that is switched on. The error is
/// want of memory.
pub fn new_test<'a>(
    found: Option<Found<'a>>,
    test: Expr<'a>,
    arena: &'a Bump,
) -> Result<Expr<'a>, AllocError>
    ensures { IfOk result (λ r. plain r ≡ new_test_of (plain_found found.entry) (plain test.entry)) }
{
    match found {
        None => Ok(test),
        Some(found) => {
            if found.pick.on {
                let names = guard_names(&found.site);
                let form = picked_form(names, &found.pick);
                let whole = guarded(test, form, picked_name(names, &found.pick), arena)?;
                Ok(whole)
            } else {
                Ok(test)
            }
        }
    }
}
