//! The circuits of expressions over the signals and the bits of a choice, and whether they give what
//! an expression is worth.
ghost use Rattle.std.specs.Prelude.{◌≡◌, ◌+◌, ◌*◌, ◌≤◌, false, None, length, IfOk};
ghost use Rattle.rr_circuit.specs.Values.{Netlist, AreWires};
ghost use Rattle.rr_syntax.specs.View.{plain};
ghost use Rattle.rr_expr.specs.Faults.{fault};
ghost use Rattle.rr_expr.specs.Values.{form};
ghost use Rattle.rr_choice.specs.Choices.{total_bits};
ghost use Rattle.rr_blast_sites.specs.Signals.{AreSignals};

use crate::bench::next_numbers;
use rr_bits::Bits;
use rr_blast_expr::{condition, own_wires, wires};
use rr_choice::SiteList;
use rr_circuit::{Builder, Circuit, Wire};
use rr_expr::{Env, Scope, Shape, value};
use rr_syntax::Expr;
use std::alloc::{AllocError, Global};

/// The wires of some inputs, from the first of them on.
pub(crate) fn inputs(
    alloc: Global,
    b: &Builder,
    first: u32,
    count: u32,
) -> Result<Vec<Wire>, AllocError>
    requires within { first + count ≤ b.now.inputs }
    requires few { first + count ≤ 1000 }
    ensures width { IfOk result (λ r. length r.items ≡ count) }
    ensures wires { IfOk result (λ r. AreWires b.now r.items) }
{
    let mut wires = Vec::new(alloc);
    for i in 0..count {
        wires.push(b.input(first + i))?;
    }
    Ok(wires)
}

/// The wires of the four signals.
fn signals(alloc: Global, b: &Builder, width: u32) -> Result<Vec<Vec<Wire>>, AllocError>
    requires within { 4 * width ≤ b.now.inputs }
    requires high { width ≤ 128 }
    ensures wires { IfOk result (λ r. AreSignals b.now r.items) }
{
    let mut all = Vec::new(alloc);
    for i in 0..4u32 {
        let word = inputs(alloc, b, i * width, width)?;
        all.push(word)?;
    }
    Ok(all)
}

/// The circuit of an expression in a context.
pub(crate) fn circuit_of(
    alloc: Global,
    tree: &Expr,
    scope: &Scope,
    list: &SiteList,
    width: u32,
    context: Shape,
) -> Result<Circuit, AllocError>
    requires high { width ≤ 128 }
    requires few { total_bits list.now ≤ 400 }
    requires none { fault scope.now (plain tree.now) false ≡ None }
    requires low { (form scope.now (plain tree.now)).width ≤ context.width }
    requires wide { context.width ≤ 128 }
    ensures { IfOk result (λ c. c.netlist.inputs ≡ 4 * width + total_bits list.now) }
{
    let count = list.bits();
    let mut b = Builder::new(alloc, 4 * width + count)?;
    let names = signals(alloc, &b, width)?;
    let choice = inputs(alloc, &b, 4 * width, count)?;
    let out = wires(
        alloc,
        &mut b,
        tree,
        scope,
        names.as_slice(),
        list,
        choice.as_slice(),
        context.width,
        context.signed,
    )?;
    Ok(b.finish(out))
}

/// The circuit of an expression by itself, without sites.
pub(crate) fn own_circuit(
    alloc: Global,
    tree: &Expr,
    scope: &Scope,
    width: u32,
) -> Result<Circuit, AllocError>
    requires high { width ≤ 128 }
    requires none { fault scope.now (plain tree.now) false ≡ None }
    ensures { IfOk result (λ c. c.netlist.inputs ≡ 4 * width) }
{
    let mut b = Builder::new(alloc, 4 * width)?;
    let names = signals(alloc, &b, width)?;
    let out = own_wires(alloc, &mut b, tree, scope, names.as_slice())?;
    Ok(b.finish(out))
}

/// The circuit of a condition.
pub(crate) fn condition_of(
    alloc: Global,
    tree: &Expr,
    scope: &Scope,
    list: &SiteList,
    width: u32,
) -> Result<Circuit, AllocError>
    requires high { width ≤ 128 }
    requires few { total_bits list.now ≤ 400 }
    requires none { fault scope.now (plain tree.now) false ≡ None }
    ensures { IfOk result (λ c. c.netlist.inputs ≡ 4 * width + total_bits list.now) }
{
    let count = list.bits();
    let mut b = Builder::new(alloc, 4 * width + count)?;
    let names = signals(alloc, &b, width)?;
    let choice = inputs(alloc, &b, 4 * width, count)?;
    let out = condition(
        alloc,
        &mut b,
        tree,
        scope,
        names.as_slice(),
        list,
        choice.as_slice(),
    )?;
    let outputs = vec![in alloc; out]?;
    Ok(b.finish(outputs))
}

/// Writes the bits of a number, lowest first.
fn push_bits(bits: &mut Vec<bool>, width: u32, number: u128) -> Result<(), AllocError>
    requires { width ≤ 128 }
    ensures { IfOk result (λ u. length bits.new.items ≡ length bits.old.items + width) }
{
    for i in 0..width {
        bits.push((number >> i) & 1 == 1)?;
    }
    Ok(())
}

/// The inputs of a circuit: the bits of the signals and then those of the choice.
fn given(
    alloc: Global,
    width: u32,
    numbers: [u128; 4],
    choice: &[bool],
) -> Result<Vec<bool>, AllocError>
    requires { width ≤ 128 }
    ensures { IfOk result (λ r. length r.items ≡ 4 * width + length choice.now) }
{
    let mut bits = Vec::new(alloc);
    push_bits(&mut bits, width, numbers[0])?;
    push_bits(&mut bits, width, numbers[1])?;
    push_bits(&mut bits, width, numbers[2])?;
    push_bits(&mut bits, width, numbers[3])?;
    bits.extend_from_slice(choice)?;
    Ok(bits)
}

fn is_same(found: &[bool], word: Bits) -> bool {
    if found.len() != word.width() as usize {
        return false;
    }
    let mut place: u32 = 0;
    for bit in found {
        if *bit != word.get(place) {
            return false;
        }
        place = place.wrapping_add(1);
    }
    true
}

/// Whether a circuit gives the value of an expression for these numbers and this choice.
fn agrees(
    alloc: Global,
    circuit: &Circuit,
    expected: &Expr,
    scope: &Scope,
    width: u32,
    context: Shape,
    numbers: [u128; 4],
    choice: &[bool],
) -> Result<bool, AllocError>
    requires high { width ≤ 128 }
    requires count { circuit.now.netlist.inputs ≡ 4 * width + length choice.now }
    requires none { fault scope.now (plain expected.now) false ≡ None }
    requires low { (form scope.now (plain expected.now)).width ≤ context.width }
    requires wide { context.width ≤ 128 }
{
    let bits = given(alloc, width, numbers, choice)?;
    let found = circuit.eval(alloc, bits.as_slice())?;
    let mut values = Vec::new(alloc);
    values.extend_from_slice(&numbers)?;
    let env = Env { values };
    let word = value(expected, scope, &env, context.width, context.signed);
    Ok(is_same(found.as_slice(), word))
}

/// Whether it does so for as many rows of numbers, which are always the same.
pub(crate) fn agrees_always(
    alloc: Global,
    circuit: &Circuit,
    expected: &Expr,
    scope: &Scope,
    width: u32,
    context: Shape,
    choice: &[bool],
    turns: u32,
) -> Result<bool, AllocError>
    requires positive { 1 ≤ width }
    requires high { width ≤ 128 }
    requires count { circuit.now.netlist.inputs ≡ 4 * width + length choice.now }
    requires none { fault scope.now (plain expected.now) false ≡ None }
    requires low { (form scope.now (plain expected.now)).width ≤ context.width }
    requires wide { context.width ≤ 128 }
{
    let mut seed = 20261128;
    for _ in 0..turns {
        let (numbers, next) = next_numbers(seed, width);
        seed = next;
        if !agrees(
            alloc, circuit, expected, scope, width, context, numbers, choice,
        )? {
            return Ok(false);
        }
    }
    Ok(true)
}

/// A context that is four bits wider, with the other sign.
pub(crate) fn wider(own: Shape) -> Shape
    requires { own.width ≤ 128 }
    ensures low { own.width ≤ result.width }
    ensures high { result.width ≤ 128 }
{
    Shape {
        width: (own.width + 4).min(128),
        signed: !own.signed,
    }
}
