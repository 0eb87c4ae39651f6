//! Small transitions.
use rr_circuit::{Builder, Circuit};
use rr_transition::Transition;
use std::alloc::Global;
use std::test::Fail;

/// `always @(posedge clk) if (!rst) q <= 1'b0; else q <= ~q;` with two sites: the switch of a negation
/// of the condition; the switch of the literal, and its new value.
pub(crate) fn inverted_reset(alloc: Global) -> Result<Transition, Fail> {
    inverted_reset_from(alloc, false)
}

/// The same, where `q` begins with a value.
pub(crate) fn inverted_reset_from(alloc: Global, q_start: bool) -> Result<Transition, Fail> {
    let mut b = Builder::new(alloc, 5)?;
    let (negated, changed, value) = (b.input(0), b.input(1), b.input(2));
    let (q, rst) = (b.input(3), b.input(4));
    let not_rst = b.not(rst);
    let test = b.xor(not_rst, negated)?;
    let literal = b.and(changed, value)?;
    let not_q = b.not(q);
    let next = b.mux(test, literal, not_q)?;
    let circuit = b.finish(vec![in alloc; next, q]?);
    if circuit.inputs != 5 || circuit.outputs.len() != 2 {
        return Err(Fail::from("another circuit"));
    }
    Ok(Transition {
        circuit,
        choice_bits: 3,
        state_bits: 1,
        input_bits: 1,
        start: vec![in alloc; q_start]?,
        switches: vec![in alloc; 0, 1]?,
        input_widths: vec![in alloc; 1]?,
        output_widths: vec![in alloc; 1]?,
    })
}

/// `module m(input [3:0] a, output [3:0] y); assign y = a; endmodule` without sites.
pub(crate) fn wires(alloc: Global) -> Result<Transition, Fail> {
    let b = Builder::new(alloc, 4)?;
    let outputs = vec![in alloc; b.input(0), b.input(1), b.input(2), b.input(3)]?;
    let circuit = b.finish(outputs);
    if circuit.inputs != 4 || circuit.outputs.len() != 4 {
        return Err(Fail::from("another circuit"));
    }
    Ok(Transition {
        circuit,
        choice_bits: 0,
        state_bits: 0,
        input_bits: 4,
        start: Vec::new(alloc),
        switches: Vec::new(alloc),
        input_widths: vec![in alloc; 4]?,
        output_widths: vec![in alloc; 4]?,
    })
}

/// The values of a circuit's outputs.
pub(crate) fn values(alloc: Global, circuit: &Circuit, bits: &[bool]) -> Result<Vec<bool>, Fail> {
    if circuit.inputs != bits.len() as u64 {
        return Err(Fail::from("another number of inputs"));
    }
    Ok(circuit.eval(alloc, bits)?)
}
