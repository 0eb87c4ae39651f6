//! Widths, signs and values of expressions (IEEE 1364-2005 section 5). It is right where shape and
//! value are those of the definition by cases on plain trees, over lists of truth values. It stands
//! on `rr_syntax`'s trees and `rr_bits`'s words.
#![tactic(auto)]

ghost use Rattle.std.specs.Prelude.{◌≡◌, ◌≤◌, max, IfOk, IfErr, Some, None, true, false, []};
ghost use Rattle.rr_syntax.specs.View.{plain};
ghost use Rattle.rr_expr.specs.Faults.{fault};
ghost use Rattle.rr_expr.specs.Scopes.{env_of};
ghost use Rattle.rr_expr.specs.Values.{form, value as value_of, own, nowhere};

mod entities;
mod laws;
mod memories;
mod notes;
mod operators;
mod scope;
mod selects;
mod shapes;
mod types;
mod values;

pub use entities::{entity_range, entity_shape};
pub use laws::{context_laws, scope_laws, value_laws};
pub use memories::{index_shape, word_at};
use notes::Notes;
pub use operators::{
    Infix, Operation, Prefix, Reduction, Relation, Shift, infix_of, joined, prefix_of,
};
use rr_bits::Bits;
use rr_syntax::Expr;
pub use scope::Scope;
pub use selects::{Index, below_index, index_of, near_place};
use shapes::shape_in;
pub use shapes::{first_token, takes_constants};
pub use types::{Bit, Entity, Env, ExprFault, Shape};
use values::{own_shape, value_in};

/// Width and sign of an expression (IEEE 1364-2005 sections 5.4.1 and 5.5.1), or its first fault in
/// the order of the tokens; of two at one token the lower in the order of the variants.
pub fn shape(expr: &Expr, scope: &Scope) -> Result<Shape, ExprFault>
    ensures none { IfOk result (λ a. fault scope.now (plain expr.now) false ≡ None) }
    ensures value { IfOk result (λ a. a ≡ form scope.now (plain expr.now)) }
    ensures fault { IfErr result (λ f. fault scope.now (plain expr.now) false ≡ Some f) }
{
    let mut notes = Notes::new();
    shape_in(expr, scope, false, &mut notes)
}

/// Width and sign of an expression that has a shape. It looks for no fault, so it evaluates only the
/// constants that widths stand on.
pub fn shape_of(expr: &Expr, scope: &Scope) -> Shape
    requires none { fault scope.now (plain expr.now) false ≡ None }
    ensures value { result ≡ form scope.now (plain expr.now) }
    ensures low { 1 ≤ result.width }
    ensures high { result.width ≤ 128 }
{
    let mut notes = Notes::new();
    own_shape(expr, scope, &mut notes)
}

/// The value of an expression that has a shape, in a context of a width and a sign (IEEE 1364-2005
/// sections 5.4 and 5.5). The width is at least the expression's own and at most 128. A signal
/// without a value in the environment is 0.
pub fn value(expr: &Expr, scope: &Scope, env: &Env, width: u32, signed: bool) -> Bits
    requires none { fault scope.now (plain expr.now) false ≡ None }
    requires low { (form scope.now (plain expr.now)).width ≤ width }
    requires high { width ≤ 128 }
    ensures { result ≡ value_of scope.now (plain expr.now) (env_of env.now.values.items) width signed }
{
    let mut notes = Notes::new();
    let context = Shape { width, signed };
    value_in(expr, scope, env.values.as_slice(), context, &mut notes)
}

/// The value and the sign of a constant expression, or its first fault; a signal in it is one, as is
/// a divisor that is 0 and a negative exponent.
pub fn constant(expr: &Expr, scope: &Scope) -> Result<(Bits, bool), ExprFault>
    ensures none { IfOk result (λ r. fault scope.now (plain expr.now) true ≡ None) }
    ensures value { IfOk result (λ r. r.0 ≡ own scope.now (plain expr.now) nowhere) }
    ensures signed { IfOk result (λ r. r.1 ≡ (form scope.now (plain expr.now)).signed) }
    ensures fault { IfErr result (λ f. fault scope.now (plain expr.now) true ≡ Some f) }
{
    let mut notes = Notes::new();
    let shape = shape_in(expr, scope, true, &mut notes)?;
    Ok((value_in(expr, scope, &[], shape, &mut notes), shape.signed))
}

/// The value of a constant expression as the right side of an assignment to so many bits (IEEE
/// 1364-2005 section 5.4), in the wider of the two widths; or its first fault, as that of `constant`.
pub fn assigned_constant(expr: &Expr, scope: &Scope, width: u32) -> Result<Bits, ExprFault>
    requires low { 1 ≤ width }
    requires high { width ≤ 128 }
    ensures none { IfOk result (λ b. fault scope.now (plain expr.now) true ≡ None) }
    ensures value { IfOk result (λ b. b ≡ value_of scope.now (plain expr.now) nowhere (max width (form scope.now (plain expr.now)).width) (form scope.now (plain expr.now)).signed) }
    ensures fault { IfErr result (λ f. fault scope.now (plain expr.now) true ≡ Some f) }
{
    let mut notes = Notes::new();
    let own = shape_in(expr, scope, true, &mut notes)?;
    let context = Shape {
        width: width.max(own.width),
        signed: own.signed,
    };
    Ok(value_in(expr, scope, &[], context, &mut notes))
}
