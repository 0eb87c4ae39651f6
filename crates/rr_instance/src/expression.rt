//! Expressions of an instance.

ghost use Rattle.std.specs.Prelude.{◌≡◌, ◌<◌, ◌^◌, ◌++◌, ◌∷◌, [], length, IfOk};
ghost use Rattle.rr_syntax.specs.Expressions.{spell, spell_more};
ghost use Rattle.rr_syntax.specs.Tree.{Cast, Concat, Cond, Repeat, Unary};
ghost use Rattle.rr_syntax.specs.View.{plain, plain_list};
ghost use Rattle.rr_instance.specs.Instances.{instance_tree, instance_parts, instance_test};

use crate::forms::{in_brackets, new_literal, new_test, operation};
use bumpalo::Bump;
use bumpalo::collections::into_bump_slice;
use rr_choice::{Choice, SiteList, find};
use rr_expr::{first_token, infix_of, takes_constants};
use rr_syntax::{Expr, Mark, expression_len};
use std::alloc::AllocError;

/// An operation of one expression.
#[tactic(auto, unfolding(rr_syntax::specs::View::plain))]
fn unary<'a>(op: Mark, of: Expr<'a>, arena: &'a Bump) -> Result<Expr<'a>, AllocError>
    ensures { IfOk result (λ r. plain r ≡ Unary op.0 (plain of.entry)) }
{
    let of = arena.try_alloc(of)?;
    Ok(Expr::Unary { op, of })
}

/// A cast.
#[tactic(auto, unfolding(rr_syntax::specs::View::plain))]
fn cast<'a>(signed: bool, of: Expr<'a>, arena: &'a Bump) -> Result<Expr<'a>, AllocError>
    ensures { IfOk result (λ r. plain r ≡ Cast signed (plain of.entry)) }
{
    let of = arena.try_alloc(of)?;
    Ok(Expr::Cast { signed, of })
}

/// A conditional.
#[tactic(auto, unfolding(rr_syntax::specs::View::plain))]
fn conditional<'a>(
    test: Expr<'a>,
    yes: Expr<'a>,
    no: Expr<'a>,
    arena: &'a Bump,
) -> Result<Expr<'a>, AllocError>
    ensures { IfOk result (λ r. plain r ≡ Cond (plain test.entry) (plain yes.entry) (plain no.entry)) }
{
    let test = arena.try_alloc(test)?;
    let yes = arena.try_alloc(yes)?;
    let no = arena.try_alloc(no)?;
    Ok(Expr::Cond { test, yes, no })
}

/// A concatenation.
#[tactic(auto, using(rr_syntax::proofs::Rows::plain_concat))]
fn concat<'a>(parts: &'a [Expr<'a>]) -> Expr<'a>
    ensures { plain result ≡ Concat (plain_list parts.now) }
{
    Expr::Concat { parts }
}

/// A replication.
#[tactic(auto, using(rr_syntax::proofs::Rows::plain_repeat))]
fn repeat<'a>(count: &'a Expr<'a>, parts: &'a [Expr<'a>]) -> Expr<'a>
    ensures { plain result ≡ Repeat (plain count.now) (plain_list parts.now) }
{
    Expr::Repeat { count, parts }
}

/// One part more.
fn add_part<'a>(parts: &mut Vec<Expr<'a>, &'a Bump>, part: Expr<'a>) -> Result<(), AllocError>
    ensures { IfOk result (λ _. parts.new.items ≡ parts.old.items ++ (part.entry ∷ [])) }
{
    parts.push(part)?;
    Ok(())
}

/// What a choice makes of an expression of fewer than 2^64 tokens: its literals and conditions that are
/// sites are changed as they are picked; what `/`, `%` and `**` take, indices, bounds and counts stay.
/// The error is want of memory.
#[cycle(instances)]
#[tactic(auto, using(crate::proofs::Arms::arms))]
pub fn expression_instance<'a>(
    expr: &Expr<'a>,
    sites: &SiteList<'a>,
    choice: &Choice,
    arena: &'a Bump,
) -> Result<Expr<'a>, AllocError>
    requires fits { length (spell (plain expr.now)) < 2 ^ 64 }
    ensures { IfOk result (λ r. plain r ≡ instance_tree sites.now choice.now.picks.items (plain expr.now)) }
{
    match expr {
        Expr::Name { .. } | Expr::Bit { .. } | Expr::Part { .. } | Expr::Indexed { .. } => Ok(
            *expr,
        ),
        Expr::Literal { token, number } => {
            let found = find(sites, choice, *token, None);
            Ok(new_literal(found, *token, *number))
        }
        Expr::Unary { op, of } => {
            let of = expression_instance(of, sites, choice, arena)?;
            let whole = unary(*op, of, arena)?;
            Ok(whole)
        }
        Expr::Binary { op, left, right } => {
            if takes_constants(infix_of(*op)) {
                return Ok(*expr);
            }
            let left = expression_instance(left, sites, choice, arena)?;
            let right = expression_instance(right, sites, choice, arena)?;
            let whole = operation(*op, left, right, arena)?;
            Ok(whole)
        }
        Expr::Cond { test, yes, no } => {
            let test = condition(test, sites, choice, arena)?;
            let yes = expression_instance(yes, sites, choice, arena)?;
            let no = expression_instance(no, sites, choice, arena)?;
            let whole = conditional(test, yes, no, arena)?;
            Ok(whole)
        }
        Expr::Concat { parts } => {
            let list = expression_instances(parts, sites, choice, arena)?;
            Ok(concat(list))
        }
        Expr::Repeat { count, parts } => {
            let list = expression_instances(parts, sites, choice, arena)?;
            Ok(repeat(count, list))
        }
        Expr::Cast { signed, of } => {
            let of = expression_instance(of, sites, choice, arena)?;
            let whole = cast(*signed, of, arena)?;
            Ok(whole)
        }
        Expr::Paren { of } => {
            let of = expression_instance(of, sites, choice, arena)?;
            let whole = in_brackets(of, arena)?;
            Ok(whole)
        }
    }
}

/// A condition of an instance, with its guard.
#[cycle(instances)]
#[tactic(auto, using(crate::proofs::Arms::arms))]
pub(crate) fn condition<'a>(
    test: &Expr<'a>,
    sites: &SiteList<'a>,
    choice: &Choice,
    arena: &'a Bump,
) -> Result<Expr<'a>, AllocError>
    requires fits { length (spell (plain test.now)) < 2 ^ 64 }
    ensures { IfOk result (λ r. plain r ≡ instance_test sites.now choice.now.picks.items (plain test.now)) }
{
    let inner = expression_instance(test, sites, choice, arena)?;
    let found = find(sites, choice, first_token(test), Some(expression_len(test)));
    let whole = new_test(found, inner, arena)?;
    Ok(whole)
}

/// What a choice makes of several expressions, in their order.
#[cycle(instances)]
pub fn expression_instances<'a>(
    list: &[Expr<'a>],
    sites: &SiteList<'a>,
    choice: &Choice,
    arena: &'a Bump,
) -> Result<&'a [Expr<'a>], AllocError>
    requires fits { length (spell_more (plain_list list.now)) < 2 ^ 64 }
    ensures { IfOk result (λ r. plain_list r.now ≡ instance_parts sites.now choice.now.picks.items (plain_list list.now)) }
{
    let mut parts = Vec::new(arena);
    for expr in list.iter() {
        let part = expression_instance(expr, sites, choice, arena)?;
        add_part(&mut parts, part)?;
    }
    Ok(into_bump_slice(parts))
}
