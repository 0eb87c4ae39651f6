//! The gates that outputs need, alone.

ghost use Rattle.std.specs.Prelude.{◌≡◌, ◌++◌, ℕ, ◌+◌, ◌^◌, ◌<◌, ◌≤◌, Bool, true, false, List, IfOk, OnOk, length, replicate, slice_set, slice_index_or};
ghost use Rattle.rr_circuit.specs.Values.{IsGateAt, output_values};
ghost use Rattle.rr_circuit.specs.Sweeps.{AreUsed, AreMarked, AreKept, gate_at, moved_wire, variable};

use crate::{Circuit, Gate, Wire};
use std::alloc::{AllocError, Global};

// Marks the variable of a literal.
fn mark(marks: &mut [bool], wire: Wire)
    requires { variable wire < length marks.old }
    ensures { marks.new ≡ slice_set marks.old (variable wire) true }
{
    marks[(wire.0 / 2) as usize] = true;
}

// The gate with this number.
fn gate(circuit: &Circuit, number: usize) -> Gate
    requires { number < length circuit.now.netlist.gates }
    ensures gate { result ≡ gate_at circuit.now.netlist number }
    ensures known { IsGateAt circuit.now.netlist.inputs number result }
{
    circuit.gates[number]
}

// Whether the gate with this number is marked.
fn stays(circuit: &Circuit, marks: &[bool], number: usize) -> bool
    requires number { number < length circuit.now.netlist.gates }
    requires marks { length marks.now ≡ 1 + circuit.now.netlist.inputs + length circuit.now.netlist.gates }
    ensures { result ≡ slice_index_or marks.now (1 + circuit.now.netlist.inputs + number) false }
{
    marks[circuit.inputs as usize + number + 1]
}

// Marks the operands of a marked gate.
fn mark_operands(circuit: &Circuit, marks: &mut [bool], number: usize)
    requires number { number < length circuit.now.netlist.gates }
    requires marks { AreMarked circuit.now marks.old (number + 1) }
    ensures { AreMarked circuit.now marks.new number }
{
    if stays(circuit, marks, number) {
        let gate = gate(circuit, number);
        mark(marks, gate.left);
        mark(marks, gate.right);
    }
}

// Marks what outputs name.
fn mark_outputs(circuit: &Circuit, marks: &mut [bool])
    requires { marks.old ≡ replicate (circuit.now.netlist.inputs + 1) true ++ replicate (length circuit.now.netlist.gates) false }
    ensures { AreMarked circuit.now marks.new (length circuit.now.netlist.gates) }
{
    for wire in &circuit.outputs {
        mark(marks, *wire);
    }
}

// Marks the constant and the inputs.
fn inputs_marked(alloc: Global, circuit: &Circuit) -> Result<Vec<bool>, AllocError>
    ensures { IfOk result (λ r. r.items ≡ replicate (circuit.now.netlist.inputs + 1) true ++ replicate (length circuit.now.netlist.gates) false) }
{
    let mut marks = vec![in alloc; true; circuit.inputs as usize + 1]?;
    let gates = vec![in alloc; false; circuit.gates.len()]?;
    marks.extend_from_slice(gates.as_slice())?;
    Ok(marks)
}

// Marks what is needed: from the last gate to the first, the operands of each one that is.
fn needed(alloc: Global, circuit: &Circuit) -> Result<Vec<bool>, AllocError>
    ensures { IfOk result (λ r. AreMarked circuit.now r.items 0) }
{
    let mut marks = inputs_marked(alloc, circuit)?;
    mark_outputs(circuit, marks.as_mut_slice());
    let mut left = circuit.gates.len();
    while left > 0 {
        left -= 1;
        mark_operands(circuit, marks.as_mut_slice(), left);
    }
    Ok(marks)
}

// The gates that stay, and for each variable the one that it becomes: 0 where it is left out.
#[derive(Drop)]
struct Kept {
    gates: Vec<Gate>,
    variables: Vec<u64>,
}

// A literal over the variables that stay.
fn moved(variables: &[u64], wire: Wire) -> Wire
    requires room { variable wire < length variables.now }
    requires fits { (v : ℕ) → slice_index_or variables.now v 0 < 2 ^ 62 }
    ensures { result ≡ moved_wire variables.now wire }
{
    Wire(2 * variables[(wire.0 / 2) as usize] + wire.0 % 2)
}

// What stays before the first gate: the constant and the inputs.
fn kept_inputs(alloc: Global, circuit: &Circuit) -> Result<Kept, AllocError>
    ensures { IfOk result (λ r. (marks : List Bool) → AreKept circuit.now.netlist marks r.gates.items r.variables.items 0) }
{
    let mut variables = Vec::with_capacity(
        alloc,
        circuit.inputs as usize + circuit.gates.len() + 1,
    )?;
    for variable in 0..circuit.inputs + 1 {
        variables.push(variable)?;
    }
    Ok(Kept {
        gates: Vec::new(alloc),
        variables,
    })
}

// Keeps a gate where it is marked.
fn keep(kept: &mut Kept, circuit: &Circuit, marks: &[bool], number: usize) -> Result<(), AllocError>
    requires number { number < length circuit.now.netlist.gates }
    requires marks { AreMarked circuit.now marks.now 0 }
    requires kept { AreKept circuit.now.netlist marks.now kept.old.gates.items kept.old.variables.items number }
    ensures { OnOk result (AreKept circuit.now.netlist marks.now kept.new.gates.items kept.new.variables.items (number + 1)) }
{
    let inputs = circuit.inputs;
    if !stays(circuit, marks, number) {
        kept.variables.push(0)?;
        return Ok(());
    }
    let gate = gate(circuit, number);
    let left = moved(kept.variables.as_slice(), gate.left);
    let right = moved(kept.variables.as_slice(), gate.right);
    kept.gates.push(Gate { left, right })?;
    kept.variables.push(inputs + kept.gates.len() as u64)?;
    Ok(())
}

// What stays of all gates.
fn kept_gates(alloc: Global, circuit: &Circuit, marks: &[bool]) -> Result<Kept, AllocError>
    requires { AreMarked circuit.now marks.now 0 }
    ensures { IfOk result (λ r. AreKept circuit.now.netlist marks.now r.gates.items r.variables.items (length circuit.now.netlist.gates)) }
{
    let mut kept = kept_inputs(alloc, circuit)?;
    for k in 0..circuit.gates.len() {
        keep(&mut kept, circuit, marks, k)?;
    }
    Ok(kept)
}

impl Circuit {
    /// The circuit without the gates that no output needs: those that stay keep their order. For
    /// every input each output has the same value. Two passes over the gates.
    pub fn swept(&self, alloc: Global) -> Result<Circuit, AllocError>
        ensures inputs { IfOk result (λ c. c.netlist.inputs ≡ self.now.netlist.inputs) }
        ensures outputs { IfOk result (λ c. length c.outputs ≡ length self.now.outputs) }
        ensures values { IfOk result (λ c. (env : ℕ → Bool) → output_values c env ≡ output_values self.now env) }
        ensures gates { IfOk result (λ c. length c.netlist.gates ≤ length self.now.netlist.gates) }
        ensures used { IfOk result AreUsed }
    {
        let marks = needed(alloc, self)?;
        let Kept { gates, variables } = kept_gates(alloc, self, marks.as_slice())?;
        let mut outputs = Vec::with_capacity(alloc, self.outputs.len())?;
        for wire in &self.outputs {
            outputs.push(moved(variables.as_slice(), *wire))?;
        }
        Ok(Circuit {
            inputs: self.inputs,
            gates,
            outputs,
        })
    }
}
