//! The values that variables begin with (IEEE 1364-2005 section 6.2.1).
ghost use Rattle.std.specs.Prelude.{◌≡◌, ◌≤◌, ◌<◌, ◌^◌, OnOk, IfOk, IfErr, fold, None, Some};
ghost use Rattle.rr_syntax.specs.View.{plain_declarator, plain_value};
ghost use Rattle.rr_flat.specs.Faults.{sooner};
ghost use Rattle.rr_declarations.specs.Declarations.{start_faults, start_or as start_or_in, starting as starting_in};

use crate::declare::Declaration;
use rr_expr::Scope;
use rr_flat::FlatFault;
use rr_starts::{note_constant, start_value};
use rr_syntax::{Declarator, Expr};

/// The expression of the value that a variable begins with; that of a net drives it.
#[tactic(auto, unfolding(rr_syntax::specs::View::plain_declarator, rr_syntax::specs::View::plain_value))]
pub(crate) fn starting<'a>(one: &Declaration, name: &Declarator<'a>) -> Option<&'a Expr<'a>>
    ensures { plain_value result ≡ starting_in one.now (plain_declarator name.now) }
{
    if one.variable { name.value } else { None }
}

/// The number that a variable of so many bits begins with, `start` where it is given none, or the
/// first of a fault that was found, if any, and that of the expression.
#[tactic(auto, unfolding(rr_syntax::specs::View::plain_value))]
pub(crate) fn start_or(
    found: Option<FlatFault>,
    start: u128,
    value: Option<&Expr>,
    known: &Scope,
    width: u32,
) -> Result<u128, FlatFault>
    requires low { 1 ≤ width }
    requires high { found ≡ None → width ≤ 128 }
    requires fits { start < 2 ^ width }
    ensures none { OnOk result (fold sooner found (start_faults known.now (plain_value value.entry)) ≡ None) }
    ensures narrow { OnOk result (width ≤ 128) }
    ensures value { IfOk result (λ n. n ≡ start_or_in known.now width start (plain_value value.entry)) }
    ensures fits { IfOk result (λ n. n < 2 ^ width) }
    ensures fault { IfErr result (λ f. fold sooner found (start_faults known.now (plain_value value.entry)) ≡ Some f) }
{
    match value {
        None => match found {
            None => Ok(start),
            Some(fault) => Err(fault),
        },
        Some(expr) => match note_constant(found, expr, known) {
            None => start_value(expr, known, width),
            Some(fault) => Err(fault),
        },
    }
}
