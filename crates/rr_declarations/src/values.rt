//! Constant expressions and ranges.
ghost use Rattle.std.specs.Prelude.{◌≡◌, ◌+◌, ◌<◌, ◌≤◌, IfOk, fold, is_none, unwrap_or};
ghost use Rattle.rr_bits.specs.Words.{reading};
ghost use Rattle.rr_syntax.specs.View.{plain, plain_range};
ghost use Rattle.rr_expr.specs.Scopes.{range_width as width_of_range};
ghost use Rattle.rr_flat.specs.Faults.{sooner};
ghost use Rattle.rr_declarations.specs.Values.{constant as constant_in, bound_of, is_beyond as beyond, bound_or_zero as bound_value, bound_faults, between as between_bounds, range_in};
ghost use Rattle.rr_declarations.specs.Sound.{IsRange};

use rr_bits::Bits;
use rr_expr::{Scope, constant, first_token};
use rr_flat::{FlatFault, note, note_if};
use rr_syntax::{Bounds, Expr};

/// The word and the sign of a constant expression, or its first fault.
#[tactic(auto, unfolding(crate::specs::Values::constant))]
pub fn constant_of(expr: &Expr, names: &Scope) -> Result<(Bits, bool), FlatFault>
    ensures { result ≡ constant_in names.now (plain expr.now) }
{
    match constant(expr, names) {
        Ok(value) => Ok(value),
        Err(fault) => Err(FlatFault::from(fault)),
    }
}

/// A value as a bound of a range, if it is 0 to 65,535.
#[tactic(auto, using(crate::proofs::Firsts::negative_bound))]
fn bound(value: &(Bits, bool)) -> Option<u32>
    ensures { result ≡ bound_of (reading value.now.1 value.now.0) }
{
    if value.0.is_negative(value.1) {
        return None;
    }
    let number = value.0.to_u128();
    if number < 65536 {
        Some(number as u32)
    } else {
        None
    }
}

/// Whether a bound has a value that a bound may not have.
fn is_beyond(value: &Result<(Bits, bool), FlatFault>) -> bool
    ensures { result ≡ beyond value.now }
{
    match value {
        Ok(value) => bound(value).is_none(),
        Err(_) => false,
    }
}

/// A bound, or 0 where it is none.
fn bound_or_zero(value: &Result<(Bits, bool), FlatFault>) -> u32
    ensures value { result ≡ bound_value value.now }
    ensures small { result < 65536 }
{
    match value {
        Ok(value) => bound(value).unwrap_or(0),
        Err(_) => 0,
    }
}

/// The first of a fault that was found, if any, and those of a bound of a range that begins at that
/// token.
fn note_bound(
    found: Option<FlatFault>,
    token: u32,
    value: &Result<(Bits, bool), FlatFault>,
) -> Option<FlatFault>
    ensures { result ≡ fold sooner found (bound_faults token value.now) }
{
    let found = note(found, value);
    note_if(found, is_beyond(value), FlatFault::BadRange(token))
}

/// The bounds of a range, or its first fault (IEEE 1364-2005 section 3.3.1).
#[tactic(auto, unfolding(crate::specs::Values::range_in, rr_syntax::specs::View::plain_range))]
pub(crate) fn range_of(
    range: &Option<Bounds>,
    names: &Scope,
) -> Result<Option<(u32, u32)>, FlatFault>
    ensures value { result ≡ range_in names.now (plain_range range.now) }
    ensures small { IfOk result (λ r. IsRange r) }
{
    match range {
        None => Ok(None),
        Some(bounds) => {
            let token = first_token(bounds.left).saturating_sub(1);
            let left = constant_of(bounds.left, names);
            let right = constant_of(bounds.right, names);
            between(token, &left, &right)
        }
    }
}

/// The range between two bounds that begins at that token.
fn between(
    token: u32,
    left: &Result<(Bits, bool), FlatFault>,
    right: &Result<(Bits, bool), FlatFault>,
) -> Result<Option<(u32, u32)>, FlatFault>
    ensures value { result ≡ between_bounds token left.now right.now }
    ensures small { IfOk result (λ r. IsRange r) }
{
    let found = note_bound(None, token, left);
    match note_bound(found, token, right) {
        Some(fault) => Err(fault),
        None => Ok(Some((bound_or_zero(left), bound_or_zero(right)))),
    }
}

/// The number of bits of a range, 1 for a scalar.
pub(crate) fn range_width(range: Option<(u32, u32)>) -> u32
    requires { IsRange range }
    ensures value { result ≡ width_of_range range }
    ensures low { 1 ≤ result }
    ensures high { result ≤ 65536 }
{
    match range {
        None => 1,
        Some((left, right)) => {
            if left < right {
                right - left + 1
            } else {
                left - right + 1
            }
        }
    }
}
