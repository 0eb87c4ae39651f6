//! Conditions and labels (IEEE 1364-2005 sections 9.4 and 9.5).
ghost use Rattle.std.specs.Prelude.{◌≡◌, ◌≤◌, None, [], false, length};
ghost use Rattle.rr_syntax.specs.View.{plain, plain_list, plain_arms};
ghost use Rattle.rr_expr.specs.Faults.{fault};
ghost use Rattle.rr_expr.specs.Operators.{joined as joined_shapes};
ghost use Rattle.rr_expr.specs.Scopes.{Names, env_of};
ghost use Rattle.rr_expr.specs.Values.{form, value as value_of};
ghost use Rattle.rr_flat.specs.Shapes.{list_faults, arms_faults, shape_faults};
ghost use Rattle.rr_exec.specs.Work.{AreNarrow, ArmsNarrow};
ghost use Rattle.rr_cycle.specs.Exec.{is_true as holds, joined_all as joined_of_all, case_shape as shape_of_case, wild_digits as wild_places, wild as wild_of, is_equal as are_equal, is_matched as matches};

use rr_bits::Bits;
use rr_expr::{Env, Scope, Shape, shape_of, value};
use rr_syntax::{Arm, Expr, Keyword, Number};

/// Width and sign of an expression that has a shape.
pub fn own_shape(expr: &Expr, scope: &Scope) -> Shape
    requires { shape_faults scope.now (plain expr.now) ≡ [] }
    ensures value { result ≡ form scope.now (plain expr.now) }
    ensures low { 1 ≤ result.width }
    ensures high { result.width ≤ 128 }
{
    shape_of(expr, scope)
}

/// Whether a condition is true: some bit of it is one.
pub(crate) fn is_true(expr: &Expr, scope: &Scope, env: &Env) -> bool
    requires { shape_faults scope.now (plain expr.now) ≡ [] }
    ensures { result ≡ holds scope.now (plain expr.now) (env_of env.now.values.items) }
{
    let own = own_shape(expr, scope);
    value(expr, scope, env, own.width, own.signed).to_u128() != 0
}

/// The greater width, signed where both are.
fn joined(a: Shape, b: Shape) -> Shape
    ensures { result ≡ joined_shapes a b }
{
    Shape {
        width: a.width.max(b.width),
        signed: a.signed && b.signed,
    }
}

fn joined_all(first: Shape, labels: &[Expr], scope: &Scope) -> Shape
    requires shaped { list_faults scope.now (plain_list labels.now) ≡ [] }
    requires high { first.width ≤ 128 }
    ensures value { result ≡ joined_of_all scope.now first (plain_list labels.now) }
    ensures low { first.width ≤ result.width }
    ensures high { result.width ≤ 128 }
{
    let mut all = first;
    for label in labels.iter() {
        all = joined(all, own_shape(label, scope));
    }
    all
}

/// The width and the sign in which a `case` compares: the greatest of the widths of the selector and
/// of all labels, signed where all are.
pub fn case_shape(on: &Expr, arms: &[Arm], scope: &Scope) -> Shape
    requires on { shape_faults scope.now (plain on.now) ≡ [] }
    requires arms { arms_faults scope.now (plain_arms arms.now) ≡ [] }
    ensures value { result ≡ shape_of_case scope.now (plain on.now) (plain_arms arms.now) }
    ensures low { (form scope.now (plain on.now)).width ≤ result.width }
    ensures narrow { ArmsNarrow scope.now result.width (plain_arms arms.now) }
    ensures high { result.width ≤ 128 }
{
    let mut all = own_shape(on, scope);
    for arm in arms.iter() {
        all = joined_all(all, arm.labels, scope);
    }
    all
}

/// The places of a literal that match anything in that kind of `case`.
fn wild_digits(kind: Keyword, number: &Number) -> Bits
    requires low { 1 ≤ number.now.width }
    requires high { number.now.width ≤ 128 }
    ensures { result ≡ wild_places kind.0 number.now }
{
    let any = Bits::from_u128(number.width, number.any);
    if kind.0 == Keyword::CASE.0 {
        Bits::from_u128(number.width, 0)
    } else if kind.0 == Keyword::CASEZ.0 {
        any
    } else {
        any.or(Bits::from_u128(number.width, number.unknown))
    }
}

/// Those of a label, up to a width.
#[tactic(auto, using(crate::proofs::Labels::wild_nodes))]
pub fn wild(kind: Keyword, label: &Expr, width: u32) -> Bits
    requires shaped { (names : Names) × (fault names (plain label.now) false ≡ None) }
    requires low { 1 ≤ width }
    requires high { width ≤ 128 }
    ensures { result ≡ wild_of kind.0 (plain label.now) width }
{
    match label {
        Expr::Paren { of } => wild(kind, of, width),
        Expr::Literal { number, .. } => wild_digits(kind, number).extend(width, false),
        Expr::Name { .. }
        | Expr::Bit { .. }
        | Expr::Part { .. }
        | Expr::Indexed { .. }
        | Expr::Unary { .. }
        | Expr::Binary { .. }
        | Expr::Cond { .. }
        | Expr::Concat { .. }
        | Expr::Repeat { .. }
        | Expr::Cast { .. } => Bits::from_u128(width, 0),
    }
}

/// Whether two words are equal but for wild places. All have one width.
fn is_equal(wilds: Bits, a: Bits, b: Bits) -> bool
    requires one { length wilds ≡ length a }
    requires two { length b ≡ length a }
    ensures { result ≡ are_equal wilds a b }
{
    a.xor(b).and(wilds.inverted()).to_u128() == 0
}

/// A `case` that is compared: its kind, the shape in which it compares, and its selector's value.
#[derive(Clone, Copy)]
pub(crate) struct Selector {
    pub(crate) kind: Keyword,
    pub(crate) shape: Shape,
    pub(crate) value: Bits,
}

/// The selector of a `case`, in the shape in which it is compared.
pub(crate) fn selector_of(
    kind: Keyword,
    on: &Expr,
    arms: &[Arm],
    scope: &Scope,
    env: &Env,
) -> Selector
    requires on { shape_faults scope.now (plain on.now) ≡ [] }
    requires arms { arms_faults scope.now (plain_arms arms.now) ≡ [] }
    ensures kind { result.kind ≡ kind }
    ensures shape { result.shape ≡ shape_of_case scope.now (plain on.now) (plain_arms arms.now) }
    ensures value { result.value ≡ value_of scope.now (plain on.now) (env_of env.now.values.items) result.shape.width result.shape.signed }
    ensures width { length result.value ≡ result.shape.width }
    ensures narrow { ArmsNarrow scope.now result.shape.width (plain_arms arms.now) }
    ensures high { result.shape.width ≤ 128 }
{
    let shape = case_shape(on, arms, scope);
    let value = value(on, scope, env, shape.width, shape.signed);
    Selector { kind, shape, value }
}

/// Whether a label is equal to the selector's value.
fn is_label(selector: &Selector, label: &Expr, scope: &Scope, env: &Env) -> bool
    requires shaped { shape_faults scope.now (plain label.now) ≡ [] }
    requires narrow { (form scope.now (plain label.now)).width ≤ selector.now.shape.width }
    requires width { length selector.now.value ≡ selector.now.shape.width }
    requires high { selector.now.shape.width ≤ 128 }
    ensures { result ≡ are_equal (wild_of selector.now.kind.0 (plain label.now) selector.now.shape.width) selector.now.value (value_of scope.now (plain label.now) (env_of env.now.values.items) selector.now.shape.width selector.now.shape.signed) }
{
    let shape = selector.shape;
    let word = value(label, scope, env, shape.width, shape.signed);
    is_equal(
        wild(selector.kind, label, shape.width),
        selector.value,
        word,
    )
}

/// Whether one of the labels is.
pub(crate) fn is_matched(selector: &Selector, labels: &[Expr], scope: &Scope, env: &Env) -> bool
    requires shaped { list_faults scope.now (plain_list labels.now) ≡ [] }
    requires narrow { AreNarrow scope.now selector.now.shape.width (plain_list labels.now) }
    requires width { length selector.now.value ≡ selector.now.shape.width }
    requires high { selector.now.shape.width ≤ 128 }
    ensures { result ≡ matches scope.now selector.now.kind.0 selector.now.shape selector.now.value (plain_list labels.now) (env_of env.now.values.items) }
{
    for label in labels.iter() {
        if is_label(selector, label, scope, env) {
            return true;
        }
    }
    false
}
