//! Circuits of AND gates over inputs (AIGER, "The AIGER And-Inverter Graph (AIG) Format Version
//! 20071012"): a builder that makes them, an evaluator, a copy onto another builder, and the ASCII
//! text with its reader. It is right where the wires' values are the one solution of the equations of
//! the gates for every input. It stands on `rr_decimal`'s numbers.
#![tactic(auto)]

ghost use Rattle.std.specs.Prelude.{◌≡◌, ℕ, ◌+◌, ◌*◌, ◌^◌, ◌<◌, ◌≤◌, Bool, true, false, not, [], length, slice_get, IfOk, OnOk};
ghost use Rattle.rr_circuit.specs.Values.{Netlist, OutputNetlist, AreWires, output_values, wire_values, variable_values, literal_value, given, IsWire, wire_value, Extends, IsNetlist, AreOrdered, SolvesItsEquations, DependsOnInputs};

mod aag;
mod gates;
mod sweep;

pub use aag::{AagFault, read_aag, write_aag};
use indexmap::IndexMap;
use std::alloc::{AllocError, Global};
use std::marker::Model;

/// A literal of AIGER: twice a variable, and one more where it is negated. Variable 0 is the
/// constant, so `Wire(0)` is false and `Wire(1)` is true. The variables of the inputs follow from 1,
/// and after them those of the gates.
#[derive(Clone, Copy, PartialEq, Eq, Hash, Debug)]
pub struct Wire(pub u64);

/// The conjunction of two wires. In a circuit each of them is an input or an earlier gate, or the
/// negation of one.
#[derive(Clone, Copy, PartialEq, Eq, Hash, Debug)]
pub struct Gate {
    pub left: Wire,
    pub right: Wire,
}

/// A circuit that grows by gates and has no outputs yet. Its wires are the two constants, its
/// inputs, its gates, and the negations of these. No call takes a wire away or changes its value,
/// whether it succeeds or not. Constants and equal or opposite operands are folded, and equal gates
/// are made once.
#[derive(Drop)]
pub struct Builder {
    inputs: u64,
    gates: Vec<Gate>,
    // The wire of each gate.
    known: IndexMap<Gate, Wire>,
}

impl Model for Builder {
    ghost use Rattle.std.specs.Prelude.{◌+◌, ◌^◌, ◌<◌, length};
    ghost use Rattle.rr_circuit.specs.Values.{Netlist, IsNetlist, AreOrdered, AreKnown};

    ghost Value = { Netlist };

    ghost view = { λ b. record { inputs = b.inputs; gates = b.gates.items } };

    ghost invariant = { λ b. IsNetlist b.inputs b.gates.items
        × (b.inputs + length b.gates.items < 2 ^ 62)
        × AreOrdered b.gates.items
        × AreKnown (record { inputs = b.inputs; gates = b.gates.items }) b.known.entries };
}

// Inputs and gates together stay below this number, so that every literal fits.
const LIMIT: u64 = 1 << 62;

impl Builder {
    /// A builder with so many inputs and no gate.
    pub fn new(alloc: Global, inputs: u32) -> Result<Builder, AllocError>
        ensures { IfOk result (λ b. b ≡ record { inputs = inputs; gates = [] }) }
    {
        Ok(Builder {
            inputs: u64::from(inputs),
            gates: Vec::new(alloc),
            known: IndexMap::new(alloc),
        })
    }

    /// The constant wire of this value.
    pub fn constant(&self, value: bool) -> Wire
        ensures wire { IsWire self.now result }
        ensures value { (env : ℕ → Bool) → wire_value self.now env result ≡ value }
    {
        if value { Wire(1) } else { Wire(0) }
    }

    /// The wire of an input, counted from 0.
    pub fn input(&self, number: u32) -> Wire
        requires { number < self.now.inputs }
        ensures wire { IsWire self.now result }
        ensures value { (env : ℕ → Bool) → wire_value self.now env result ≡ env number }
    {
        Wire(2 * (u64::from(number) + 1))
    }
}

/// A finished circuit. Its gates name only inputs and earlier gates, or their negations, and its
/// outputs moreover constants. Inputs and gates together are fewer than 2^62.
#[derive(Drop)]
pub struct Circuit {
    pub inputs: u64,
    pub gates: Vec<Gate>,
    pub outputs: Vec<Wire>,
}

impl Model for Circuit {
    ghost use Rattle.std.specs.Prelude.{◌+◌, ◌^◌, ◌<◌, length};
    ghost use Rattle.rr_circuit.specs.Values.{Netlist, OutputNetlist, IsNetlist, AreWires};

    ghost Value = { OutputNetlist };

    ghost view = { λ c. record { netlist = record { inputs = c.inputs; gates = c.gates.items }; outputs = c.outputs.items } };

    ghost invariant = { λ c. IsNetlist c.inputs c.gates.items
        × (c.inputs + length c.gates.items < 2 ^ 62)
        × AreWires (record { inputs = c.inputs; gates = c.gates.items }) c.outputs.items };
}

impl Builder {
    /// The circuit with these outputs. In each gate `left` is at least `right`.
    pub fn finish(self, outputs: Vec<Wire>) -> Circuit
        requires { AreWires self outputs.items }
        ensures result { result ≡ record { netlist = self; outputs = outputs.items } }
        ensures ordered { AreOrdered self.gates }
    {
        let Builder { inputs, gates, .. } = self;
        Circuit {
            inputs,
            gates,
            outputs,
        }
    }
}

// The value of a literal over the values of the variables.
fn value_of(values: &[bool], wire: Wire) -> bool
    requires { wire.0 < 2 * length values.now }
    ensures { result ≡ literal_value values.now wire.0 }
{
    let plain = values[(wire.0 / 2) as usize];
    if wire.0 % 2 == 1 { !plain } else { plain }
}

impl Circuit {
    /// The wire of an output, counted from 0; `None` exactly where there is no such output.
    pub fn wire(&self, output: u64) -> Option<Wire>
        ensures { result ≡ slice_get self.now.outputs output }
    {
        self.outputs.get(output as usize).copied()
    }

    /// The values of the outputs for these values of the inputs, in one pass over the gates.
    pub fn eval(&self, alloc: Global, inputs: &[bool]) -> Result<Vec<bool>, AllocError>
        requires { length inputs.now ≡ self.now.netlist.inputs }
        ensures outputs { IfOk result (λ r. r.items ≡ output_values self.now (given inputs.now)) }
        // For every input the wires' values are the one solution of the gates' equations, and the
        // outputs depend on the inputs alone.
        ensures equations { OnOk result (SolvesItsEquations self.now.netlist) }
        ensures inputs_alone { OnOk result (DependsOnInputs self.now) }
    {
        let mut values = Vec::with_capacity(alloc, inputs.len() + self.gates.len() + 1)?;
        values.push(false)?;
        values.extend_from_slice(inputs)?;
        for gate in &self.gates {
            let left = value_of(values.as_slice(), gate.left);
            let right = value_of(values.as_slice(), gate.right);
            values.push(left && right)?;
        }
        let mut outputs = Vec::with_capacity(alloc, self.outputs.len())?;
        for wire in &self.outputs {
            outputs.push(value_of(values.as_slice(), *wire))?;
        }
        Ok(outputs)
    }
}

// The copy of a literal.
fn literal_copy(b: &Builder, copies: &[Wire], wire: Wire) -> Wire
    requires copies { AreWires b.now copies.now }
    requires room { wire.0 < 2 * length copies.now }
    ensures wire { IsWire b.now result }
    ensures value { (env : ℕ → Bool) → wire_value b.now env result ≡ literal_value (wire_values b.now env copies.now) wire.0 }
{
    let plain = copies[(wire.0 / 2) as usize];
    if wire.0 % 2 == 1 { b.not(plain) } else { plain }
}

// The copies of all variables, in their order.
fn gates_copied(
    alloc: Global,
    b: &mut Builder,
    circuit: &Circuit,
    inputs: &[Wire],
) -> Result<Vec<Wire>, AllocError>
    requires inputs { AreWires b.old inputs.now }
    requires count { length inputs.now ≡ circuit.now.netlist.inputs }
    ensures extends { Extends b.old b.new }
    ensures wires { IfOk result (λ r. AreWires b.new r.items) }
    ensures value { IfOk result (λ r. (env : ℕ → Bool) → wire_values b.new env r.items ≡ variable_values circuit.now.netlist (given (wire_values b.old env inputs.now))) }
{
    let mut copies = Vec::with_capacity(alloc, inputs.len() + circuit.gates.len() + 1)?;
    copies.push(b.constant(false))?;
    copies.extend_from_slice(inputs)?;
    for gate in &circuit.gates {
        let left = literal_copy(b, copies.as_slice(), gate.left);
        let right = literal_copy(b, copies.as_slice(), gate.right);
        let wire = b.and(left, right)?;
        copies.push(wire)?;
    }
    Ok(copies)
}

impl Circuit {
    /// Copies this circuit onto a builder, over the given wires for its inputs. It answers the
    /// wires of the outputs. Gates of the copy are folded and shared as those of `Builder::and`.
    pub fn copy_onto(
        &self,
        alloc: Global,
        b: &mut Builder,
        inputs: &[Wire],
    ) -> Result<Vec<Wire>, AllocError>
        requires inputs { AreWires b.old inputs.now }
        requires count { length inputs.now ≡ self.now.netlist.inputs }
        ensures extends { Extends b.old b.new }
        ensures wires { IfOk result (λ r. AreWires b.new r.items) }
        ensures value { IfOk result (λ r. (env : ℕ → Bool) →
            wire_values b.new env r.items ≡ output_values self.now (given (wire_values b.old env inputs.now))) }
    {
        let copies = gates_copied(alloc, b, self, inputs)?;
        let mut outputs = Vec::with_capacity(alloc, self.outputs.len())?;
        for wire in &self.outputs {
            outputs.push(literal_copy(b, copies.as_slice(), *wire))?;
        }
        Ok(outputs)
    }
}
