//! Literals and conditions that are sites: an expression, its sites, the bits of a choice, and the
//! expression that this choice makes of it.
ghost use Rattle.std.specs.Prelude.{◌≡◌, ◌≤◌, false, None, length, IfOk};
ghost use Rattle.rr_syntax.specs.View.{plain};
ghost use Rattle.rr_expr.specs.Faults.{fault};
ghost use Rattle.rr_expr.specs.Values.{form};
ghost use Rattle.rr_choice.specs.Choices.{total_bits};

use crate::bench::{bits_of, expr_of, list_of, names};
use crate::circuits::{agrees_always, circuit_of, condition_of, inputs, wider};
use bumpalo::Bump;
use rr_blast_sites::literal_changes;
use rr_choice::SiteList;
use rr_circuit::{Builder, Circuit};
use rr_expr::{Scope, Shape, shape, shape_of};
use rr_syntax::{Expr, Site, SiteKind};
use std::alloc::{AllocError, Global};
use std::test::Fail;

/// A literal of four bits.
fn literal<'a>(token: u32, signed: bool) -> Site<'a> {
    let width = 4;
    Site {
        kind: SiteKind::Literal { width, signed },
        token,
    }
}

/// A condition of so many tokens.
fn guard<'a>(token: u32, extent: u32, names: &'a [&'a str]) -> Site<'a> {
    let module = 0;
    Site {
        kind: SiteKind::Guard {
            module,
            extent,
            names,
        },
        token,
    }
}

/// Whether the gates of an expression give, for a choice of these bits, the value of another in a
/// context.
fn agrees_in(
    alloc: Global,
    tree: &Expr,
    instance: &Expr,
    scope: &Scope,
    list: &SiteList,
    choice: &[bool],
    context: Shape,
) -> Result<bool, AllocError>
    requires few { total_bits list.now ≤ 400 }
    requires count { length choice.now ≡ total_bits list.now }
    requires tree { fault scope.now (plain tree.now) false ≡ None }
    requires low { (form scope.now (plain tree.now)).width ≤ context.width }
    requires instance { fault scope.now (plain instance.now) false ≡ None }
    requires instance_low { (form scope.now (plain instance.now)).width ≤ context.width }
    requires wide { context.width ≤ 128 }
{
    let circuit = circuit_of(alloc, tree, scope, list, 4, context)?;
    agrees_always(alloc, &circuit, instance, scope, 4, context, choice, 30)
}

/// Whether they do so in the expression's own context and in a wider one, with the other sign.
fn agrees_everywhere(
    alloc: Global,
    tree: &Expr,
    instance: &Expr,
    scope: &Scope,
    list: &SiteList,
    choice: &[bool],
) -> Result<bool, AllocError>
    requires few { total_bits list.now ≤ 400 }
    requires count { length choice.now ≡ total_bits list.now }
    requires tree { fault scope.now (plain tree.now) false ≡ None }
    requires instance { fault scope.now (plain instance.now) false ≡ None }
{
    let own = shape_of(tree, scope);
    if shape_of(instance, scope).width > own.width {
        return Ok(false);
    }
    if !agrees_in(alloc, tree, instance, scope, list, choice, own)? {
        return Ok(false);
    }
    agrees_in(alloc, tree, instance, scope, list, choice, wider(own))
}

/// Whether the wire of a condition is, for a choice of these bits, an expression of one bit.
fn is_tested(
    alloc: Global,
    tree: &Expr,
    instance: &Expr,
    scope: &Scope,
    list: &SiteList,
    choice: &[bool],
    context: Shape,
) -> Result<bool, AllocError>
    requires few { total_bits list.now ≤ 400 }
    requires count { length choice.now ≡ total_bits list.now }
    requires tree { fault scope.now (plain tree.now) false ≡ None }
    requires instance { fault scope.now (plain instance.now) false ≡ None }
    requires low { (form scope.now (plain instance.now)).width ≤ context.width }
    requires wide { context.width ≤ 128 }
{
    let circuit = condition_of(alloc, tree, scope, list, 4)?;
    agrees_always(alloc, &circuit, instance, scope, 4, context, choice, 30)
}

/// Whether the gates of an expression, or of a condition, give the value of another.
fn agrees_with(
    alloc: Global,
    tree: &Expr,
    instance: &Expr,
    scope: &Scope,
    list: &SiteList,
    choice: &[bool],
    tested: bool,
) -> Result<bool, AllocError>
    requires few { total_bits list.now ≤ 400 }
    requires count { length choice.now ≡ total_bits list.now }
    requires tree { fault scope.now (plain tree.now) false ≡ None }
    requires instance { fault scope.now (plain instance.now) false ≡ None }
{
    if tested {
        let own = shape_of(instance, scope);
        return is_tested(alloc, tree, instance, scope, list, choice, own);
    }
    agrees_everywhere(alloc, tree, instance, scope, list, choice)
}

/// The same of trees that have shapes, for a choice whose bits are written by digits.
fn is_instance(
    alloc: Global,
    tree: &Expr,
    instance: &Expr,
    scope: &Scope,
    list: &SiteList,
    digits: &str,
    tested: bool,
) -> Result<bool, Fail>
    requires { total_bits list.now ≤ 400 }
{
    if shape(tree, scope).is_err() {
        return Err(Fail::from("no shape"));
    }
    if shape(instance, scope).is_err() {
        return Err(Fail::from("no shape"));
    }
    let choice = bits_of(alloc, digits)?;
    if list.bits() as usize != choice.len() {
        return Err(Fail::from("another number of bits"));
    }
    let bits = choice.as_slice();
    Ok(agrees_with(alloc, tree, instance, scope, list, bits, tested)?)
}

/// Whether an expression with sites, or a condition, is another expression for a choice.
fn check(
    alloc: Global,
    text: &str,
    list: &SiteList,
    digits: &str,
    expected: &str,
    tested: bool,
) -> Result<bool, Fail>
    requires { total_bits list.now ≤ 400 }
{
    let arena = Bump::new(alloc);
    let tree = expr_of(text, &arena)?;
    let instance = expr_of(expected, &arena)?;
    let scope = names(alloc, 4)?;
    is_instance(alloc, tree, instance, &scope, list, digits, tested)
}

/// Whether an expression with sites is each of some expressions, for a choice whose bits are written
/// before it, the first first.
fn check_all(
    alloc: Global,
    text: &str,
    list: &SiteList,
    cases: &[&str],
    tested: bool,
) -> Result<bool, Fail>
    requires { total_bits list.now ≤ 400 }
{
    for case in cases {
        let Some((digits, expected)) = case.split_once(": ") else {
            return Err(Fail::from("a case without bits"));
        };
        if !check(alloc, text, list, digits, expected, tested)? {
            return Ok(false);
        }
    }
    Ok(true)
}

/// A sum with a literal of four bits, for choices of its value.
const VALUES: [&str; 4] = [
    "00011: a + 4'd3",
    "10011: a + 4'd12",
    "11000: a + 4'd1",
    "11111: a + 4'd15",
];

#[test]
fn a_literal_takes_the_value_where_its_switch_is_on(rt: HostRuntime) -> Result<(), Fail> {
    let list = list_of(rt.alloc(), &[literal(2, false)])?;
    assert!(rt; check_all(rt.alloc(), "a + 4'd3", &list, &VALUES, false)?);
    Ok(())
}

/// A difference from a literal with a sign.
const SIGNED: [&str; 2] = ["00001: 4'sd3 - s", "10001: 4'sb1000 - s"];

#[test]
fn a_literal_keeps_its_sign(rt: HostRuntime) -> Result<(), Fail> {
    let list = list_of(rt.alloc(), &[literal(0, true)])?;
    assert!(rt; check_all(rt.alloc(), "4'sd3 - s", &list, &SIGNED, false)?);
    Ok(())
}

/// A condition with two names, for choices of its form and its name.
const FORMS: [&str; 7] = [
    "01001: a ? b : t",
    "10000: !a ? b : t",
    "11000: (a != 0) && b ? b : t",
    "10101: (a != 0) && !s ? b : t",
    "11101: (a != 0) || s ? b : t",
    "10010: (a != 0) || !b ? b : t",
    "11111: (a != 0) || !s ? b : t",
];

#[test]
fn a_condition_takes_each_form_of_a_guard(rt: HostRuntime) -> Result<(), Fail> {
    let list = list_of(rt.alloc(), &[guard(0, 1, &["b", "s"])])?;
    assert!(rt; check_all(rt.alloc(), "a ? b : t", &list, &FORMS, false)?);
    Ok(())
}

/// A condition without names.
const NEGATED: [&str; 2] = ["0: a < b ? s : t", "1: a < b ? t : s"];

#[test]
fn a_condition_without_names_is_negated(rt: HostRuntime) -> Result<(), Fail> {
    let list = list_of(rt.alloc(), &[guard(0, 3, &[])])?;
    assert!(rt; check_all(rt.alloc(), "a < b ? s : t", &list, &NEGATED, false)?);
    Ok(())
}

/// A condition within a condition.
const NESTED: [&str; 3] = [
    "01: (!a ? b : 1'd1) ? s : t",
    "10: !(a ? b : 1'd1) ? s : t",
    "11: !(!a ? b : 1'd1) ? s : t",
];

#[test]
fn an_inner_condition_changes_before_an_outer_one(rt: HostRuntime) -> Result<(), Fail> {
    let list = list_of(rt.alloc(), &[guard(0, 7, &[]), guard(1, 1, &[])])?;
    let text = "(a ? b : 1'd1) ? s : t";
    assert!(rt; check_all(rt.alloc(), text, &list, &NESTED, false)?);
    Ok(())
}

/// Two conditions at one token.
const LENGTHS: [&str; 3] = [
    "00100: !(!(a ? b : 1'd1))",
    "10100: (a ? b : 1'd1) && !s",
    "10101: (!a ? b : 1'd1) && !s",
];

#[test]
fn two_conditions_at_one_token_differ_by_their_length(rt: HostRuntime) -> Result<(), Fail> {
    let list = list_of(rt.alloc(), &[guard(0, 5, &["s"]), guard(0, 1, &[])])?;
    assert!(rt; check_all(rt.alloc(), "a ? b : 1'd1", &list, &LENGTHS, true)?);
    Ok(())
}

/// A literal in an index and one beside it.
const INDEX: [&str; 1] = ["1110010000: a[4'd1] + 4'd0"];

#[test]
fn an_index_stays_whatever_the_choice(rt: HostRuntime) -> Result<(), Fail> {
    let list = list_of(rt.alloc(), &[literal(2, false), literal(5, false)])?;
    assert!(rt; check_all(rt.alloc(), "a[4'd1] + 4'd2", &list, &INDEX, false)?);
    Ok(())
}

/// The circuit of whether the literal at a token changes, over the bits of a choice.
fn change_of(alloc: Global, list: &SiteList, token: u32) -> Result<Circuit, AllocError>
    requires few { total_bits list.now ≤ 400 }
    ensures { IfOk result (λ c. c.netlist.inputs ≡ total_bits list.now) }
{
    let b = Builder::new(alloc, list.bits())?;
    let choice = inputs(alloc, &b, 0, list.bits())?;
    let out = literal_changes(&b, token, list, choice.as_slice());
    let outputs = vec![in alloc; out]?;
    Ok(b.finish(outputs))
}

/// Whether the literal at a token changes by a choice of the literals at 2 and at 5.
fn changes(alloc: Global, token: u32, digits: &str) -> Result<bool, Fail> {
    let list = list_of(alloc, &[literal(2, false), literal(5, false)])?;
    let choice = bits_of(alloc, digits)?;
    if list.bits() as usize != choice.len() {
        return Err(Fail::from("another number of bits"));
    }
    let circuit = change_of(alloc, &list, token)?;
    let found = circuit.eval(alloc, choice.as_slice())?;
    Ok(found.as_slice() == &[true][..])
}

// A label with wild digits has none where its literal changes.
#[test]
fn a_label_changes_where_its_switch_is_on(rt: HostRuntime) -> Result<(), Fail> {
    let alloc = rt.alloc();
    assert!(rt; !changes(alloc, 2, "0111110000")?);
    assert!(rt; changes(alloc, 5, "0111110000")?);
    assert!(rt; !changes(alloc, 4, "1111111111")?);
    Ok(())
}
