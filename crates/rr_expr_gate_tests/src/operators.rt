//! Each operator and each form of an operand, without sites.
ghost use Rattle.std.specs.Prelude.{◌≡◌, ◌≤◌, false, None};
ghost use Rattle.rr_syntax.specs.View.{plain};
ghost use Rattle.rr_expr.specs.Faults.{fault};
ghost use Rattle.rr_expr.specs.Values.{form};
ghost use Rattle.rr_choice.specs.Choices.{total_bits};

use crate::bench::{expr_of, list_of, names};
use crate::circuits::{agrees_always, circuit_of, own_circuit, wider};
use bumpalo::Bump;
use rr_choice::SiteList;
use rr_expr::{Scope, Shape, shape, shape_of};
use rr_syntax::Expr;
use std::alloc::{AllocError, Global};
use std::test::Fail;

/// Operands by themselves; an index may be past the end.
const OPERANDS: [&str; 23] = [
    "a",
    "s",
    "P",
    "4'd5",
    "4'sb1010",
    "(s)",
    "$signed(a)",
    "$unsigned(s)",
    "a[0]",
    "t[0]",
    "a[7]",
    "a[b]",
    "a[s]",
    "t[a]",
    "a[P]",
    "b[0:0]",
    "b[a +: 1]",
    "a[b +: 3]",
    "t[a -: 2]",
    "{a[0], s[0], b[0]}",
    "{3{a[0], s[0]}}",
    "{2{2'd1}}",
    "a[a[0] + b[0]]",
];

/// Words of memories by an index, which may be outside.
const INDICES: [&str; 15] = [
    "m[2]",
    "m[5]",
    "m[1]",
    "m[6]",
    "m[-3]",
    "m[P]",
    "w[0]",
    "m[a]",
    "m[s]",
    "w[b]",
    "w[t]",
    "m[a[0] + 2]",
    "m[{s[0], t[0]} + 2]",
    "w[w[a[0]]]",
    "m[s[0] + 3] + w[a[0]]",
];

/// Operators before an operand.
const PREFIXES: [&str; 14] = [
    "+s",
    "-a",
    "-s",
    "~a",
    "!a",
    "!s",
    "&a",
    "|a",
    "^a",
    "~&a",
    "~|a",
    "~^a",
    "^~s",
    "-$signed(b)",
];

/// Operators between operands, without a sign, with one, and mixed.
const WORDS: [&str; 22] = [
    "a + b",
    "s + t",
    "s + a",
    "a - b",
    "s - t",
    "a * b",
    "s * t",
    "a & b",
    "s | t",
    "a ^ s",
    "a ~^ b",
    "s ^~ t",
    "a << b",
    "s <<< t",
    "a >> b",
    "s >> t",
    "s >>> t",
    "a >>> b",
    "a + P / 2",
    "b - P % 4",
    "a + 2 ** 3",
    "s + 4'sd7",
];

/// Operators whose answer is one bit, and the choice between two operands.
const TRUTHS: [&str; 22] = [
    "a < b",
    "s < t",
    "s < a",
    "a <= b",
    "s <= t",
    "a > b",
    "s > t",
    "a >= b",
    "s >= t",
    "a == b",
    "s == t",
    "a != s",
    "a === b",
    "s !== t",
    "a && b",
    "s && a",
    "a || b",
    "s || t",
    "a ? b : s",
    "a < b ? s : t",
    "(a == b) == (s < t)",
    "a + b < 5'd9",
];

/// Whether the gates of an expression without sites give its value in a context.
fn agrees_in(
    alloc: Global,
    tree: &Expr,
    scope: &Scope,
    list: &SiteList,
    width: u32,
    context: Shape,
    turns: u32,
) -> Result<bool, AllocError>
    requires positive { 1 ≤ width }
    requires high { width ≤ 128 }
    requires none { fault scope.now (plain tree.now) false ≡ None }
    requires low { (form scope.now (plain tree.now)).width ≤ context.width }
    requires wide { context.width ≤ 128 }
    requires sites { total_bits list.now ≡ 0 }
{
    let circuit = circuit_of(alloc, tree, scope, list, width, context)?;
    agrees_always(alloc, &circuit, tree, scope, width, context, &[], turns)
}

/// Whether they give it by itself.
fn agrees_alone(
    alloc: Global,
    tree: &Expr,
    scope: &Scope,
    width: u32,
    turns: u32,
) -> Result<bool, AllocError>
    requires positive { 1 ≤ width }
    requires high { width ≤ 128 }
    requires none { fault scope.now (plain tree.now) false ≡ None }
{
    let own = shape_of(tree, scope);
    let circuit = own_circuit(alloc, tree, scope, width)?;
    agrees_always(alloc, &circuit, tree, scope, width, own, &[], turns)
}

/// Whether they give it by itself, in its own context and in one that is four bits wider, with the
/// other sign.
fn agrees_everywhere(
    alloc: Global,
    tree: &Expr,
    scope: &Scope,
    list: &SiteList,
    width: u32,
    turns: u32,
) -> Result<bool, AllocError>
    requires positive { 1 ≤ width }
    requires high { width ≤ 128 }
    requires none { fault scope.now (plain tree.now) false ≡ None }
    requires sites { total_bits list.now ≡ 0 }
{
    let own = shape_of(tree, scope);
    if !agrees_alone(alloc, tree, scope, width, turns)? {
        return Ok(false);
    }
    if !agrees_in(alloc, tree, scope, list, width, own, turns)? {
        return Ok(false);
    }
    agrees_in(alloc, tree, scope, list, width, wider(own), turns)
}

/// Whether the gates give the value of an expression that has a shape.
fn check_tree(
    alloc: Global,
    tree: &Expr,
    scope: &Scope,
    width: u32,
    turns: u32,
) -> Result<bool, Fail>
    requires low { 1 ≤ width }
    requires high { width ≤ 128 }
{
    let list = list_of(alloc, &[])?;
    if list.bits() != 0 {
        return Err(Fail::from("sites"));
    }
    match shape(tree, scope) {
        Err(_) => Err(Fail::from("no shape")),
        Ok(_) => Ok(agrees_everywhere(alloc, tree, scope, &list, width, turns)?),
    }
}

/// Whether the gates give the value of a text, of signals of a width.
fn check(alloc: Global, text: &str, width: u32, turns: u32) -> Result<bool, Fail>
    requires low { 1 ≤ width }
    requires high { width ≤ 128 }
{
    let arena = Bump::new(alloc);
    let tree = expr_of(text, &arena)?;
    let scope = names(alloc, width)?;
    check_tree(alloc, tree, &scope, width, turns)
}

/// Whether all of some texts are right at widths 1, 4 and 128.
fn check_all(alloc: Global, texts: &[&str]) -> Result<bool, Fail> {
    for text in texts {
        if !check(alloc, *text, 1, 8)?
            || !check(alloc, *text, 4, 40)?
            || !check(alloc, *text, 128, 3)?
        {
            return Ok(false);
        }
    }
    Ok(true)
}

#[test]
fn operands_are_their_values(rt: HostRuntime) -> Result<(), Fail> {
    assert!(rt; check_all(rt.alloc(), &OPERANDS)?);
    Ok(())
}

#[test]
fn indices_of_memories_are_their_values(rt: HostRuntime) -> Result<(), Fail> {
    assert!(rt; check_all(rt.alloc(), &INDICES)?);
    Ok(())
}

#[test]
fn prefixes_are_their_values(rt: HostRuntime) -> Result<(), Fail> {
    assert!(rt; check_all(rt.alloc(), &PREFIXES)?);
    Ok(())
}

#[test]
fn words_are_their_values(rt: HostRuntime) -> Result<(), Fail> {
    assert!(rt; check_all(rt.alloc(), &WORDS)?);
    Ok(())
}

#[test]
fn truths_are_their_values(rt: HostRuntime) -> Result<(), Fail> {
    assert!(rt; check_all(rt.alloc(), &TRUTHS)?);
    Ok(())
}
