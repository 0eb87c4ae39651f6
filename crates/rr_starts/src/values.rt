//! The number that a constant gives a variable.
ghost use Rattle.std.specs.Prelude.{◌≡◌, ◌≤◌, ◌<◌, ◌^◌, IfOk, None, true, fold};
ghost use Rattle.rr_syntax.specs.View.{plain};
ghost use Rattle.rr_expr.specs.Faults.{fault};
ghost use Rattle.rr_expr.specs.Indices.{integer_of};
ghost use Rattle.rr_expr.specs.Selects.{integer_with};
ghost use Rattle.rr_expr.specs.Values.{form, value as value_of, nowhere};
ghost use Rattle.rr_flat.specs.Faults.{sooner};
ghost use Rattle.rr_starts.specs.Starts.{start, start_of, constant_faults};

use rr_expr::{Index, Scope, assigned_constant, constant, index_of};
use rr_flat::{FlatFault, sooner_of};
use rr_syntax::Expr;

/// The number that a variable of so many bits, 1 to 128, begins with, or the first fault of the
/// expression that gives it.
#[tactic(auto, using(crate::proofs::Numbers::lowest_fit), unfolding(crate::specs::Starts::start))]
pub fn start_value(expr: &Expr, names: &Scope, width: u32) -> Result<u128, FlatFault>
    requires low { 1 ≤ width }
    requires high { width ≤ 128 }
    ensures value { result ≡ start names.now width (plain expr.now) }
    ensures fits { IfOk result (λ n. n < 2 ^ width) }
{
    match assigned_constant(expr, names, width) {
        Ok(bits) => Ok(bits.select(0, width).to_u128()),
        Err(fault) => Err(FlatFault::from(fault)),
    }
}

/// That number, of an expression without a fault.
#[tactic(auto, unfolding(crate::specs::Starts::start))]
pub(crate) fn start_number(expr: &Expr, names: &Scope, width: u32) -> u128
    requires low { 1 ≤ width }
    requires high { width ≤ 128 }
    requires none { fault names.now (plain expr.now) true ≡ None }
    ensures value { result ≡ start_of names.now width (plain expr.now) }
    ensures fits { result < 2 ^ width }
{
    start_value(expr, names, width).unwrap_or(0)
}

/// The number that a constant index without a fault is.
pub(crate) fn index_number(index: &Expr, names: &Scope) -> Index
    requires { fault names.now (plain index.now) true ≡ None }
    ensures { integer_of result ≡ integer_with (form names.now (plain index.now)) (value_of names.now (plain index.now) nowhere) }
{
    match constant(index, names) {
        Ok((bits, signed)) => index_of(bits, signed),
        Err(_) => Index {
            negative: false,
            size: 0,
        },
    }
}

/// The first of a fault that was found, if any, and that of a constant.
pub fn note_constant(found: Option<FlatFault>, expr: &Expr, names: &Scope) -> Option<FlatFault>
    ensures { result ≡ fold sooner found (constant_faults names.now (plain expr.now)) }
{
    match constant(expr, names) {
        Ok(_) => found,
        Err(fault) => sooner_of(found, FlatFault::from(fault)),
    }
}
