//! Width and sign of an expression that has a shape. Operands that they do not stand on are not looked
//! at, so a chain of comparisons takes time in its length (IEEE 1364-2005 sections 5.4.1 and 5.5.1).
ghost use Rattle.std.specs.Prelude.{◌≡◌, ◌≤◌, None, false};
ghost use Rattle.rr_syntax.specs.Tree.{Binary};
ghost use Rattle.rr_syntax.specs.View.{plain, plain_list};
ghost use Rattle.rr_expr.specs.Faults.{fault, faults};
ghost use Rattle.rr_expr.specs.Operators.{prefix_shape};
ghost use Rattle.rr_expr.specs.Values.{form, widths, unsigned_of};

use crate::operands::copies_of;
use rr_blast_sites::Inputs;
use rr_expr::{Infix, Prefix, Scope, Shape, infix_of, joined, prefix_of, shape_of};
use rr_syntax::{Expr, Mark};

/// So many bits without a sign.
fn unsigned(width: u32) -> Shape
    ensures { result ≡ unsigned_of width }
{
    Shape {
        width,
        signed: false,
    }
}

/// The shape of an operator before its operand.
#[cycle(shapes)]
fn prefix_form(op: Prefix, of: &Expr, scope: &Scope) -> Shape
    requires { fault scope.now (plain of.now) false ≡ None }
    ensures { result ≡ prefix_shape op (form scope.now (plain of.now)) }
{
    match op {
        Prefix::Plus => own_form(of, scope),
        Prefix::Minus => own_form(of, scope),
        Prefix::Invert => own_form(of, scope),
        Prefix::Reduced(_) => unsigned(1),
    }
}

/// The shape of an operator between its operands.
#[cycle(shapes)]
fn infix_form(expr: &Expr, op: Mark, left: &Expr, right: &Expr, scope: &Scope) -> Shape
    requires is { plain expr.now ≡ Binary op.0 (plain left.now) (plain right.now) }
    requires none { fault scope.now (plain expr.now) false ≡ None }
    ensures { result ≡ form scope.now (plain expr.now) }
{
    match infix_of(op) {
        Infix::Arithmetic(_) => joined(own_form(left, scope), own_form(right, scope)),
        Infix::Shifted(_) => own_form(left, scope),
        Infix::Compared(_) => unsigned(1),
        Infix::Both => unsigned(1),
        Infix::Either => unsigned(1),
        Infix::Divide => shape_of(expr, scope),
        Infix::Remainder => shape_of(expr, scope),
        Infix::Power => shape_of(expr, scope),
    }
}

/// The number of bits of all parts.
#[cycle(shapes)]
fn parts_width(parts: &[Expr], scope: &Scope) -> u32
    requires none { faults scope.now (plain_list parts.now) false ≡ None }
    requires high { widths scope.now (plain_list parts.now) ≤ 128 }
    ensures { result ≡ widths scope.now (plain_list parts.now) }
{
    let mut total = 0;
    for i in 0..parts.len() {
        total += own_form(&parts[i], scope).width;
    }
    total
}

/// The shape of an expression.
#[cycle(shapes)]
fn own_form(expr: &Expr, scope: &Scope) -> Shape
    requires { fault scope.now (plain expr.now) false ≡ None }
    ensures { result ≡ form scope.now (plain expr.now) }
{
    match expr {
        Expr::Unary { op, of } => prefix_form(prefix_of(*op), of, scope),
        Expr::Binary { op, left, right } => infix_form(expr, *op, left, right, scope),
        Expr::Cond { yes, no, .. } => joined(own_form(yes, scope), own_form(no, scope)),
        Expr::Concat { parts } => unsigned(parts_width(parts, scope)),
        Expr::Repeat { count, parts } => {
            let copies = copies_of(count, scope) as u32;
            unsigned(copies * parts_width(parts, scope))
        }
        Expr::Cast { signed, of } => Shape {
            width: own_form(of, scope).width,
            signed: *signed,
        },
        Expr::Paren { of } => own_form(of, scope),
        _ => shape_of(expr, scope),
    }
}

/// The shape of an expression that stands by itself.
pub(crate) fn own_shape(expr: &Expr, scope: &Scope) -> Shape
    requires none { fault scope.now (plain expr.now) false ≡ None }
    ensures value { result ≡ form scope.now (plain expr.now) }
    ensures low { 1 ≤ result.width }
    ensures high { result.width ≤ 128 }
{
    own_form(expr, scope)
}

/// The number of bits of an operand that stands by itself.
pub(crate) fn width(expr: &Expr, inputs: &Inputs) -> u32
    requires none { fault inputs.now.scope.now (plain expr.now) false ≡ None }
    ensures value { result ≡ (form inputs.now.scope.now (plain expr.now)).width }
    ensures low { 1 ≤ result }
    ensures high { result ≤ 128 }
{
    shape_of(expr, inputs.scope).width
}
