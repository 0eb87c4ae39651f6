//! The operators of expressions on words of wires (IEEE 1364-2005 section 5.1).
ghost use Rattle.std.specs.Prelude.{◌≡◌, ◌≤◌, ℕ, IfOk, length};
ghost use Rattle.rr_bits.specs.Words.{number, less as is_less};
ghost use Rattle.rr_circuit.specs.Values.{AreWires, wire_values, Extends};
ghost use Rattle.rr_expr.specs.Operators.{operation_value, shift_value, relation_holds, reduction_holds};
ghost use Rattle.rr_word_gates.specs.Carried.{Carries, CarriesBit};

use crate::words::{Connective, bitwise, fill_of, inverted, of_all};
use rr_arith::{add, equal, less_signed, less_unsigned, mul, shift_left, shift_right, sub};
use rr_circuit::{Builder, Wire};
use rr_expr::{Operation, Reduction, Relation, Shift};
use std::alloc::{AllocError, Global};

/// The complement of the exclusive or, bit by bit.
fn alike(alloc: Global, b: &mut Builder, xs: &[Wire], ys: &[Wire]) -> Result<Vec<Wire>, AllocError>
    requires x { AreWires b.old xs.now }
    requires y { AreWires b.old ys.now }
    requires widths { length xs.now ≡ length ys.now }
    ensures extends { Extends b.old b.new }
    ensures width { IfOk result (λ r. length r.items ≡ length xs.now) }
    ensures value { IfOk result (λ r. Carries b.new r.items (λ input. operation_value Operation.Xnor (wire_values b.old input xs.now) (wire_values b.old input ys.now))) }
{
    let unlike = bitwise(alloc, b, Connective::Xor, xs, ys)?;
    let out = inverted(alloc, b, unlike.as_slice())?;
    Ok(out)
}

/// An operator that takes both operands in the context of the whole, on words of one width.
pub fn computed(
    alloc: Global,
    b: &mut Builder,
    op: Operation,
    xs: &[Wire],
    ys: &[Wire],
) -> Result<Vec<Wire>, AllocError>
    requires x { AreWires b.old xs.now }
    requires y { AreWires b.old ys.now }
    requires widths { length xs.now ≡ length ys.now }
    requires high { length xs.now ≤ 128 }
    ensures extends { Extends b.old b.new }
    ensures width { IfOk result (λ r. length r.items ≡ length xs.now) }
    ensures value { IfOk result (λ r. Carries b.new r.items (λ input. operation_value op (wire_values b.old input xs.now) (wire_values b.old input ys.now))) }
{
    match op {
        Operation::Add => {
            let out = add(alloc, b, xs, ys)?;
            Ok(out)
        }
        Operation::Subtract => {
            let out = sub(alloc, b, xs, ys)?;
            Ok(out)
        }
        Operation::Multiply => {
            let out = mul(alloc, b, xs, ys)?;
            Ok(out)
        }
        Operation::And => {
            let out = bitwise(alloc, b, Connective::And, xs, ys)?;
            Ok(out)
        }
        Operation::Or => {
            let out = bitwise(alloc, b, Connective::Or, xs, ys)?;
            Ok(out)
        }
        Operation::Xor => {
            let out = bitwise(alloc, b, Connective::Xor, xs, ys)?;
            Ok(out)
        }
        Operation::Xnor => {
            let out = alike(alloc, b, xs, ys)?;
            Ok(out)
        }
    }
}

/// A shift of a word of at most 128 bits by the number that a second word writes; `>>>` fills with
/// the top bit where the result is signed.
pub fn shifted(
    alloc: Global,
    b: &mut Builder,
    op: Shift,
    signed: bool,
    xs: &[Wire],
    by: &[Wire],
) -> Result<Vec<Wire>, AllocError>
    requires x { AreWires b.old xs.now }
    requires by { AreWires b.old by.now }
    requires high { length xs.now ≤ 128 }
    ensures extends { Extends b.old b.new }
    ensures width { IfOk result (λ r. length r.items ≡ length xs.now) }
    ensures value { IfOk result (λ r. Carries b.new r.items (λ input. shift_value op signed (wire_values b.old input xs.now) (number (wire_values b.old input by.now)))) }
{
    match op {
        Shift::Left => {
            let out = shift_left(alloc, b, xs, by)?;
            Ok(out)
        }
        Shift::Right => {
            let fill = b.constant(false);
            let out = shift_right(alloc, b, xs, by, fill)?;
            Ok(out)
        }
        Shift::SignedRight => {
            let fill = fill_of(b, xs, signed);
            let out = shift_right(alloc, b, xs, by, fill)?;
            Ok(out)
        }
    }
}

/// Whether the first number is less than the second, of words of one width of at least 1.
fn less(b: &mut Builder, signed: bool, xs: &[Wire], ys: &[Wire]) -> Result<Wire, AllocError>
    requires x { AreWires b.old xs.now }
    requires y { AreWires b.old ys.now }
    requires widths { length xs.now ≡ length ys.now }
    requires low { 1 ≤ length xs.now }
    ensures extends { Extends b.old b.new }
    ensures value { IfOk result (λ w. CarriesBit b.new w (λ input. is_less signed (wire_values b.old input xs.now) (wire_values b.old input ys.now))) }
{
    if signed {
        let out = less_signed(b, xs, ys)?;
        return Ok(out);
    }
    let out = less_unsigned(b, xs, ys)?;
    Ok(out)
}

/// Whether a comparison holds, of words of one width of at least 1.
pub fn holds(
    b: &mut Builder,
    op: Relation,
    signed: bool,
    xs: &[Wire],
    ys: &[Wire],
) -> Result<Wire, AllocError>
    requires x { AreWires b.old xs.now }
    requires y { AreWires b.old ys.now }
    requires widths { length xs.now ≡ length ys.now }
    requires low { 1 ≤ length xs.now }
    ensures extends { Extends b.old b.new }
    ensures value { IfOk result (λ w. CarriesBit b.new w (λ input. relation_holds op signed (wire_values b.old input xs.now) (wire_values b.old input ys.now))) }
{
    match op {
        Relation::Less => {
            let out = less(b, signed, xs, ys)?;
            Ok(out)
        }
        Relation::Greater => {
            let out = less(b, signed, ys, xs)?;
            Ok(out)
        }
        Relation::LessOrEqual => {
            let over = less(b, signed, ys, xs)?;
            let out = b.not(over);
            Ok(out)
        }
        Relation::GreaterOrEqual => {
            let under = less(b, signed, xs, ys)?;
            let out = b.not(under);
            Ok(out)
        }
        Relation::Equal => {
            let out = equal(b, xs, ys)?;
            Ok(out)
        }
        Relation::NotEqual => {
            let same = equal(b, xs, ys)?;
            let out = b.not(same);
            Ok(out)
        }
    }
}

/// A reduction of a word (IEEE 1364-2005 section 5.1.11).
pub fn reduced(b: &mut Builder, op: Reduction, xs: &[Wire]) -> Result<Wire, AllocError>
    requires { AreWires b.old xs.now }
    ensures extends { Extends b.old b.new }
    ensures value { IfOk result (λ w. CarriesBit b.new w (λ input. reduction_holds op (wire_values b.old input xs.now))) }
{
    match op {
        Reduction::And => {
            let out = of_all(b, Connective::And, xs)?;
            Ok(out)
        }
        Reduction::Nand => {
            let all = of_all(b, Connective::And, xs)?;
            let out = b.not(all);
            Ok(out)
        }
        Reduction::Or => {
            let out = of_all(b, Connective::Or, xs)?;
            Ok(out)
        }
        Reduction::Nor => {
            let some = of_all(b, Connective::Or, xs)?;
            let out = b.not(some);
            Ok(out)
        }
        Reduction::Xor => {
            let out = of_all(b, Connective::Xor, xs)?;
            Ok(out)
        }
        Reduction::Xnor => {
            let odd = of_all(b, Connective::Xor, xs)?;
            let out = b.not(odd);
            Ok(out)
        }
    }
}
