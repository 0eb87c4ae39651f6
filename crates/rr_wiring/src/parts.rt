//! The walk down to the part that has a bit.
ghost use Rattle.std.specs.Prelude.{◌≡◌, ◌<◌, ◌≤◌, IfSome, IfNone, None, false, get_or};
ghost use Rattle.rr_syntax.specs.Tree.{Concat};
ghost use Rattle.rr_syntax.specs.View.{plain, plain_list};
ghost use Rattle.rr_expr.specs.Faults.{fault, faults};
ghost use Rattle.rr_expr.specs.Scopes.{env_of};
ghost use Rattle.rr_expr.specs.Values.{form, widths, own};
ghost use Rattle.rr_wiring.specs.Parts.{PartAt, is_joined};

use rr_expr::{Env, Scope, shape_of, value};
use rr_syntax::Expr;

/// Whether an expression is a concatenation.
#[tactic(auto, using(crate::proofs::Nodes::nodes))]
pub fn is_concatenation(expr: &Expr) -> bool
    ensures { result ≡ is_joined (plain expr.now) }
{
    match expr {
        Expr::Concat { .. } => true,
        Expr::Name { .. }
        | Expr::Literal { .. }
        | Expr::Bit { .. }
        | Expr::Part { .. }
        | Expr::Indexed { .. }
        | Expr::Unary { .. }
        | Expr::Binary { .. }
        | Expr::Cond { .. }
        | Expr::Repeat { .. }
        | Expr::Cast { .. }
        | Expr::Paren { .. } => false,
    }
}

/// An expression and the place of a bit in it.
#[derive(Clone, Copy)]
pub struct Part<'e> {
    pub expr: &'e Expr<'e>,
    pub place: u32,
}

/// The whole of an expression that is no concatenation.
fn whole<'e>(expr: &'e Expr<'e>, scope: &Scope, place: u32) -> Option<Part<'e>>
    requires none { fault scope.now (plain expr.now) false ≡ None }
    requires single { is_joined (plain expr.now) ≡ false }
    ensures part { IfSome result (λ r. PartAt scope.now (plain r.expr.now) r.place (plain expr.now) place) }
    ensures single { IfSome result (λ r. is_joined (plain r.expr.now) ≡ false) }
    ensures none { IfSome result (λ r. fault scope.now (plain r.expr.now) false ≡ None) }
    ensures within { IfSome result (λ r. r.place < (form scope.now (plain r.expr.now)).width) }
    ensures past { IfNone result ((form scope.now (plain expr.now)).width ≤ place) }
{
    if place < shape_of(expr, scope).width {
        Some(Part { expr, place })
    } else {
        None
    }
}

/// The part of an expression, itself no concatenation, that has the bit at a place: the expression
/// where it is none, else found in its parts, of which the last has the lowest bits (IEEE 1364-2005
/// section 5.1.14). `None` where the expression has no such bit.
#[cycle(parts)]
#[tactic(auto, using(crate::proofs::Nodes::nodes))]
pub fn part_at<'e>(expr: &'e Expr<'e>, scope: &Scope, place: u32) -> Option<Part<'e>>
    requires none { fault scope.now (plain expr.now) false ≡ None }
    ensures part { IfSome result (λ r. PartAt scope.now (plain r.expr.now) r.place (plain expr.now) place) }
    ensures single { IfSome result (λ r. is_joined (plain r.expr.now) ≡ false) }
    ensures none { IfSome result (λ r. fault scope.now (plain r.expr.now) false ≡ None) }
    ensures within { IfSome result (λ r. r.place < (form scope.now (plain r.expr.now)).width) }
    ensures past { IfNone result ((form scope.now (plain expr.now)).width ≤ place) }
{
    match expr {
        Expr::Concat { parts } => part_in(parts, scope, place),
        Expr::Name { .. }
        | Expr::Literal { .. }
        | Expr::Bit { .. }
        | Expr::Part { .. }
        | Expr::Indexed { .. }
        | Expr::Unary { .. }
        | Expr::Binary { .. }
        | Expr::Cond { .. }
        | Expr::Repeat { .. }
        | Expr::Cast { .. }
        | Expr::Paren { .. } => whole(expr, scope, place),
    }
}

/// The same of the parts of a concatenation.
#[cycle(parts)]
fn part_in<'e>(parts: &'e [Expr<'e>], scope: &Scope, place: u32) -> Option<Part<'e>>
    requires none { faults scope.now (plain_list parts.now) false ≡ None }
    ensures part { IfSome result (λ r. PartAt scope.now (plain r.expr.now) r.place (Concat (plain_list parts.now)) place) }
    ensures single { IfSome result (λ r. is_joined (plain r.expr.now) ≡ false) }
    ensures none { IfSome result (λ r. fault scope.now (plain r.expr.now) false ≡ None) }
    ensures within { IfSome result (λ r. r.place < (form scope.now (plain r.expr.now)).width) }
    ensures past { IfNone result (widths scope.now (plain_list parts.now) ≤ place) }
{
    let mut rest = place;
    let mut left = parts.len();
    while left > 0 {
        left -= 1;
        let part = &parts[left];
        let width = shape_of(part, scope).width;
        if rest < width {
            return part_at(part, scope, rest);
        }
        rest -= width;
    }
    None
}

/// The bit at a place of an expression by itself, false where it has none. Of a concatenation only the
/// part that has the bit is evaluated.
pub fn own_bit(expr: &Expr, scope: &Scope, env: &Env, place: u32) -> bool
    requires { fault scope.now (plain expr.now) false ≡ None }
    ensures { result ≡ get_or (own scope.now (plain expr.now) (env_of env.now.values.items)) place false }
{
    match part_at(expr, scope, place) {
        Some(part) => {
            let shape = shape_of(part.expr, scope);
            value(part.expr, scope, env, shape.width, shape.signed).get(part.place)
        }
        None => false,
    }
}
