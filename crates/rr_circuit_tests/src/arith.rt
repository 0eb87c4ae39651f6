//! Circuits of operations against the operations on words.
ghost use Rattle.std.specs.Prelude.{◌≡◌, ◌+◌, ◌*◌, ◌≤◌, length, IfOk};
ghost use Rattle.rr_circuit.specs.Values.{IsWire, AreWires, Extends};

use rr_arith::{
    add, equal, less_signed, less_unsigned, mul, select_bit, shift_left, shift_right, sub,
};
use rr_bits::Bits;
use rr_circuit::{Builder, Circuit, Wire};
use std::alloc::{AllocError, Global};
use std::test::Fail;

#[derive(Clone, Copy)]
enum Operator {
    Add,
    Sub,
    Mul,
    LessUnsigned,
    LessSigned,
    Equal,
    ShiftLeft,
    ShiftRight,
    ShiftSigned,
    SelectBit,
}

const OPERATORS: [Operator; 10] = [
    Operator::Add,
    Operator::Sub,
    Operator::Mul,
    Operator::LessUnsigned,
    Operator::LessSigned,
    Operator::Equal,
    Operator::ShiftLeft,
    Operator::ShiftRight,
    Operator::ShiftSigned,
    Operator::SelectBit,
];

const EXTREMES: [u128; 8] = [0, 1, 3, 127, 128, 1 << 127, u128::MAX >> 1, u128::MAX];

// The wires of some inputs, from the first of them on.
pub(crate) fn inputs(
    alloc: Global,
    b: &Builder,
    first: u32,
    count: u32,
) -> Result<Vec<Wire>, AllocError>
    requires within { first + count ≤ b.now.inputs }
    requires few { first + count ≤ 256 }
    ensures width { IfOk result (λ r. length r.items ≡ count) }
    ensures wires { IfOk result (λ r. AreWires b.now r.items) }
{
    let mut wires = Vec::new(alloc);
    for i in 0..count {
        wires.push(b.input(first + i))?;
    }
    Ok(wires)
}

// One of the comparisons, or the selection.
fn compared(
    alloc: Global,
    operator: Operator,
    b: &mut Builder,
    x: &[Wire],
    y: &[Wire],
) -> Result<Wire, AllocError>
    requires x { AreWires b.old x.now }
    requires y { AreWires b.old y.now }
    requires widths { length x.now ≡ length y.now }
    requires low { 1 ≤ length x.now }
    requires high { length x.now ≤ 128 }
    ensures extends { Extends b.old b.new }
    ensures wire { IfOk result (λ w. IsWire b.new w) }
{
    match operator {
        Operator::LessUnsigned => less_unsigned(b, x, y),
        Operator::LessSigned => less_signed(b, x, y),
        Operator::Equal => equal(b, x, y),
        _ => select_bit(alloc, b, x, y),
    }
}

// One of the other operations.
fn computed(
    alloc: Global,
    operator: Operator,
    b: &mut Builder,
    x: &[Wire],
    y: &[Wire],
) -> Result<Vec<Wire>, AllocError>
    requires x { AreWires b.old x.now }
    requires y { AreWires b.old y.now }
    requires widths { length x.now ≡ length y.now }
    requires low { 1 ≤ length x.now }
    requires high { length x.now ≤ 128 }
    ensures extends { Extends b.old b.new }
    ensures wires { IfOk result (λ r. AreWires b.new r.items) }
{
    match operator {
        Operator::Add => add(alloc, b, x, y),
        Operator::Sub => sub(alloc, b, x, y),
        Operator::Mul => mul(alloc, b, x, y),
        Operator::ShiftLeft => shift_left(alloc, b, x, y),
        Operator::ShiftRight => {
            let zero = b.constant(false);
            shift_right(alloc, b, x, y, zero)
        }
        Operator::ShiftSigned => shift_right(alloc, b, x, y, x[x.len() - 1]),
        _ => {
            let wire = compared(alloc, operator, b, x, y)?;
            Ok(vec![in alloc; wire]?)
        }
    }
}

// The outputs of an operator over two words of inputs.
fn outputs(
    alloc: Global,
    operator: Operator,
    b: &mut Builder,
    width: u32,
) -> Result<Vec<Wire>, AllocError>
    requires inputs { b.old.inputs ≡ 2 * width }
    requires low { 1 ≤ width }
    requires high { width ≤ 128 }
    ensures inputs { b.new.inputs ≡ 2 * width }
    ensures wires { IfOk result (λ r. AreWires b.new r.items) }
{
    let x = inputs(alloc, b, 0, width)?;
    let y = inputs(alloc, b, width, width)?;
    computed(alloc, operator, b, x.as_slice(), y.as_slice())
}

// The circuit of an operator over two words of inputs.
fn circuit_of(alloc: Global, operator: Operator, width: u32) -> Result<Circuit, AllocError>
    requires low { 1 ≤ width }
    requires high { width ≤ 128 }
    ensures { IfOk result (λ c. c.netlist.inputs ≡ 2 * width) }
{
    let mut b = Builder::new(alloc, 2 * width)?;
    let outputs = outputs(alloc, operator, &mut b, width)?;
    Ok(b.finish(outputs))
}

// The bits of a number, lowest first.
fn push_bits(bits: &mut Vec<bool>, width: u32, value: u128) -> Result<(), AllocError>
    requires { width ≤ 128 }
    ensures { IfOk result (λ u. length bits.new.items ≡ length bits.old.items + width) }
{
    for i in 0..width {
        bits.push((value >> i) & 1 == 1)?;
    }
    Ok(())
}

// The number that bits write, lowest first.
fn number_of(bits: &[bool]) -> u128 {
    let mut number = 0;
    let mut place: u128 = 1;
    for bit in bits {
        if *bit {
            number |= place;
        }
        place = place.wrapping_mul(2);
    }
    number
}

// The operation on words.
fn expected(operator: Operator, x: Bits, y: Bits) -> u128
    requires { length x ≡ length y }
{
    match operator {
        Operator::Add => x.add(y).to_u128(),
        Operator::Sub => x.sub(y).to_u128(),
        Operator::Mul => x.mul(y).to_u128(),
        Operator::LessUnsigned => u128::from(x.less(y, false)),
        Operator::LessSigned => u128::from(x.less(y, true)),
        Operator::Equal => u128::from(x == y),
        Operator::ShiftLeft => x.shl(y.to_u128()).to_u128(),
        Operator::ShiftRight => x.shr(y.to_u128()).to_u128(),
        Operator::ShiftSigned => x.sar(y.to_u128()).to_u128(),
        Operator::SelectBit => x.shr(y.to_u128()).to_u128() & 1,
    }
}

// Two words of one width.
#[tactic(auto, using(rr_bits::specs::Fields::length_word))]
fn pair(width: u32, x: u128, y: u128) -> (Bits, Bits)
    requires low { 1 ≤ width }
    requires high { width ≤ 128 }
    ensures { length result.0 ≡ length result.1 }
{
    (Bits::from_u128(width, x), Bits::from_u128(width, y))
}

// The bits of two numbers.
fn bits_of(alloc: Global, width: u32, numbers: (u128, u128)) -> Result<Vec<bool>, AllocError>
    requires { width ≤ 128 }
    ensures { IfOk result (λ r. length r.items ≡ 2 * width) }
{
    let mut bits = Vec::new(alloc);
    push_bits(&mut bits, width, numbers.0)?;
    push_bits(&mut bits, width, numbers.1)?;
    Ok(bits)
}

// The number that the circuit gives for these bits.
fn number_given(alloc: Global, circuit: &Circuit, bits: &[bool]) -> Result<u128, AllocError>
    requires { length bits.now ≡ circuit.now.netlist.inputs }
{
    let values = circuit.eval(alloc, bits)?;
    Ok(number_of(values.as_slice()))
}

// Whether the circuit of the operator gives the word's value for these two numbers.
fn agrees(
    alloc: Global,
    operator: Operator,
    circuit: &Circuit,
    width: u32,
    numbers: (u128, u128),
) -> Result<bool, AllocError>
    requires low { 1 ≤ width }
    requires high { width ≤ 128 }
    requires count { circuit.now.netlist.inputs ≡ 2 * width }
{
    let bits = bits_of(alloc, width, numbers)?;
    let given = number_given(alloc, circuit, bits.as_slice())?;
    let (x, y) = pair(width, numbers.0, numbers.1);
    Ok(given == expected(operator, x, y))
}

// Whether it does so for all pairs of numbers below 16.
fn agrees_on_small(
    alloc: Global,
    operator: Operator,
    circuit: &Circuit,
    width: u32,
) -> Result<bool, AllocError>
    requires low { 1 ≤ width }
    requires high { width ≤ 128 }
    requires count { circuit.now.netlist.inputs ≡ 2 * width }
{
    for x in 0..16u32 {
        for y in 0..16u32 {
            let numbers = (u128::from(x), u128::from(y));
            if !agrees(alloc, operator, circuit, width, numbers)? {
                return Ok(false);
            }
        }
    }
    Ok(true)
}

fn is_right_on_small(alloc: Global, operator: Operator, width: u32) -> Result<bool, AllocError>
    requires low { 1 ≤ width }
    requires high { width ≤ 128 }
{
    let circuit = circuit_of(alloc, operator, width)?;
    agrees_on_small(alloc, operator, &circuit, width)
}

#[test]
fn operators_at_small_widths_are_those_of_words(rt: HostRuntime) -> Result<(), Fail> {
    for operator in OPERATORS.iter() {
        assert!(rt; is_right_on_small(rt.alloc(), *operator, 1)?);
        assert!(rt; is_right_on_small(rt.alloc(), *operator, 4)?);
    }
    Ok(())
}

// Whether it does so for all pairs of the extremes.
fn agrees_on_extremes(
    alloc: Global,
    operator: Operator,
    circuit: &Circuit,
) -> Result<bool, AllocError>
    requires { circuit.now.netlist.inputs ≡ 256 }
{
    for x in EXTREMES.iter() {
        for y in EXTREMES.iter() {
            if !agrees(alloc, operator, circuit, 128, (*x, *y))? {
                return Ok(false);
            }
        }
    }
    Ok(true)
}

fn is_right_on_extremes(alloc: Global, operator: Operator) -> Result<bool, AllocError> {
    let circuit = circuit_of(alloc, operator, 128)?;
    agrees_on_extremes(alloc, operator, &circuit)
}

#[test]
fn operators_at_width_128_are_those_of_words(rt: HostRuntime) -> Result<(), Fail> {
    for operator in OPERATORS.iter() {
        assert!(rt; is_right_on_extremes(rt.alloc(), *operator)?);
    }
    Ok(())
}
