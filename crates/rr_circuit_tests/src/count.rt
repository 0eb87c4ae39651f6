//! Counts of wires against counts of their values.
ghost use Rattle.std.specs.Prelude.{◌≡◌, ◌≤◌, length, IfOk};
ghost use Rattle.rr_circuit.specs.Values.{AreWires};

use crate::arith::inputs;
use rr_circuit::{Builder, Circuit, Wire};
use rr_count::at_most;
use std::alloc::{AllocError, Global};
use std::test::Fail;

/// Whether of three true wires at most two are true, and at most three.
fn bounds_of_three(alloc: Global, b: &mut Builder) -> Result<Vec<Wire>, AllocError>
    requires { b.old.inputs ≡ 0 }
    ensures inputs { b.new.inputs ≡ 0 }
    ensures wires { IfOk result (λ r. AreWires b.new r.items) }
{
    let one = b.constant(true);
    let two = at_most(alloc, b, &[one, one, one], 2)?;
    let three = at_most(alloc, b, &[one, one, one], 3)?;
    Vec::from_slice(alloc, &[two, three])
}

fn circuit_of_three(alloc: Global) -> Result<Circuit, AllocError>
    ensures { IfOk result (λ c. c.netlist.inputs ≡ 0) }
{
    let mut b = Builder::new(alloc, 0)?;
    let outputs = bounds_of_three(alloc, &mut b)?;
    Ok(b.finish(outputs))
}

#[test]
fn three_wires_are_at_most_three(rt: HostRuntime) -> Result<(), Fail> {
    let circuit = circuit_of_three(rt.alloc())?;
    let values = circuit.eval(rt.alloc(), &[])?;
    assert!(rt; values.as_slice() == [false, true].as_slice());
    Ok(())
}

/// Whether at most so many inputs are true.
fn counted(alloc: Global, b: &mut Builder, count: u32, bound: u32) -> Result<Vec<Wire>, AllocError>
    requires inputs { b.old.inputs ≡ count }
    requires few { count ≤ 256 }
    ensures inputs { b.new.inputs ≡ count }
    ensures wires { IfOk result (λ r. AreWires b.new r.items) }
{
    let wires = inputs(alloc, b, 0, count)?;
    let wire = at_most(alloc, b, wires.as_slice(), bound)?;
    Vec::from_slice(alloc, &[wire])
}

/// The circuit that counts so many inputs.
fn counter(alloc: Global, count: u32, bound: u32) -> Result<Circuit, AllocError>
    requires { count ≤ 256 }
    ensures { IfOk result (λ c. c.netlist.inputs ≡ count) }
{
    let mut b = Builder::new(alloc, count)?;
    let outputs = counted(alloc, &mut b, count, bound)?;
    Ok(b.finish(outputs))
}

/// Whether the circuit tells whether at most so many of the six bits of a number are 1.
fn tells(alloc: Global, circuit: &Circuit, number: u32, bound: u32) -> Result<bool, AllocError>
    requires { circuit.now.netlist.inputs ≡ 6 }
{
    let inputs = [
        number & 1 == 1,
        (number >> 1) & 1 == 1,
        (number >> 2) & 1 == 1,
        (number >> 3) & 1 == 1,
        (number >> 4) & 1 == 1,
        (number >> 5) & 1 == 1,
    ];
    let values = circuit.eval(alloc, &inputs)?;
    Ok(values.as_slice() == [number.count_ones() <= bound].as_slice())
}

fn tells_of_each(alloc: Global, circuit: &Circuit, bound: u32) -> Result<bool, AllocError>
    requires { circuit.now.netlist.inputs ≡ 6 }
{
    for number in 0..64u32 {
        if !tells(alloc, circuit, number, bound)? {
            return Ok(false);
        }
    }
    Ok(true)
}

fn counts_six(alloc: Global, bound: u32) -> Result<bool, AllocError> {
    let circuit = counter(alloc, 6, bound)?;
    tells_of_each(alloc, &circuit, bound)
}

#[test]
fn counts_of_six_wires_are_those_of_their_values(rt: HostRuntime) -> Result<(), Fail> {
    for bound in 0..8 {
        assert!(rt; counts_six(rt.alloc(), bound)?, "bound {bound}");
    }
    Ok(())
}

/// The number of gates that count so many inputs.
fn gates(alloc: Global, count: u32, bound: u32) -> Result<usize, AllocError>
    requires { count ≤ 256 }
{
    let circuit = counter(alloc, count, bound)?;
    Ok(circuit.gates.len())
}

/// For each bound, the gates that count six wires: two for each count and each wire that may be left
/// false, but for the first count and for each count's first wire.
const GATES: [(u32, usize); 7] = [(0, 5), (1, 13), (2, 17), (3, 17), (4, 13), (5, 5), (6, 0)];

#[test]
fn counts_that_cannot_reach_the_bound_make_no_gate(rt: HostRuntime) -> Result<(), Fail> {
    for (bound, expected) in GATES.iter() {
        assert!(rt; gates(rt.alloc(), 6, *bound)? == *expected, "bound {bound}");
    }
    Ok(())
}

#[test]
fn all_but_one_of_256_wires_are_255_gates(rt: HostRuntime) -> Result<(), Fail> {
    assert!(rt; gates(rt.alloc(), 256, 255)? == 255);
    Ok(())
}

/// Seventy inputs of which exactly `number` are true: steps of 37 come to each place once.
fn spread(alloc: Global, number: u32) -> Result<Vec<bool>, AllocError>
    ensures { IfOk result (λ r. length r.items ≡ 70) }
{
    let mut inputs = Vec::with_capacity(alloc, 70)?;
    for i in 0..70u32 {
        inputs.push((37 * i) % 70 < number)?;
    }
    Ok(inputs)
}

/// Whether the circuit tells whether at most so many of seventy inputs are true, of which `number` are.
fn tells_of_spread(
    alloc: Global,
    circuit: &Circuit,
    number: u32,
    bound: u32,
) -> Result<bool, AllocError>
    requires { circuit.now.netlist.inputs ≡ 70 }
{
    let inputs = spread(alloc, number)?;
    let values = circuit.eval(alloc, inputs.as_slice())?;
    Ok(values.as_slice() == [number <= bound].as_slice())
}

fn tells_of_each_spread(alloc: Global, circuit: &Circuit, bound: u32) -> Result<bool, AllocError>
    requires { circuit.now.netlist.inputs ≡ 70 }
{
    for number in 0..71u32 {
        if !tells_of_spread(alloc, circuit, number, bound)? {
            return Ok(false);
        }
    }
    Ok(true)
}

fn counts_seventy(alloc: Global, bound: u32) -> Result<bool, AllocError> {
    let circuit = counter(alloc, 70, bound)?;
    tells_of_each_spread(alloc, &circuit, bound)
}

const BOUNDS: [u32; 4] = [25, 31, 32, 45];

#[test]
fn counts_of_seventy_wires_in_binary_are_those_of_their_values(
    rt: HostRuntime,
) -> Result<(), Fail> {
    for bound in BOUNDS.iter() {
        assert!(rt; counts_seventy(rt.alloc(), *bound)?, "bound {bound}");
    }
    Ok(())
}

#[test]
fn counts_in_binary_have_at_most_eight_gates_a_wire(rt: HostRuntime) -> Result<(), Fail> {
    let alloc = rt.alloc();
    assert!(rt; gates(alloc, 65, 32)? <= 8 * 65);
    assert!(rt; gates(alloc, 256, 18)? <= 8 * 256 && gates(alloc, 256, 128)? <= 8 * 256);
    Ok(())
}

// The gates are 2 * (bound + 1) * (count - bound) - count - 1.
#[test]
fn counts_of_few_wires_or_with_low_bounds_are_in_unary(rt: HostRuntime) -> Result<(), Fail> {
    let alloc = rt.alloc();
    assert!(rt; gates(alloc, 64, 32)? == 2047 && gates(alloc, 256, 17)? == 8347);
    Ok(())
}
