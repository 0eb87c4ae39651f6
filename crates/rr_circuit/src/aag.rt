//! The text of a circuit in ASCII AIGER, and its reader.

ghost use Rattle.std.specs.Prelude.{◌≡◌, ◌≢◌, ℕ, ◌+◌, ◌*◌, ◌^◌, ◌<◌, ◌≤◌, ◌↔◌, List, All, codes, [], ◌∷◌, ◌++◌, length, decimal, IfSome, IfNone, IfOk, IfErr, OnOk, IsTrue};
ghost use Rattle.rr_circuit.specs.Aag.{AreCounts, header_line, output_line, gate_line, input_lines, output_lines, gate_lines, text_of, aag, IsCircuit, IsTextOf, IsText, IsCause, IsUnread, ReadsAs, GoesWrong, GoesWrongBy};
ghost use Rattle.rr_circuit.specs.Values.{OutputNetlist, IsGateAt, IsNetlist};
ghost use Rattle.rr_circuit.specs.declared.aag.Counts.{Counts};
ghost use Rattle.rr_circuit.specs.declared.Gate.{Gate};
ghost use Rattle.rr_circuit.specs.declared.Wire.{Wire};

use crate::{Circuit, Gate, LIMIT, Wire};
use rr_decimal::{number_then, push_number};
use std::alloc::{AllocError, AllocFailed, Global};
use thiserror::Error;

/// Why no circuit was read.
#[derive(Error, Debug, Clone, Copy, PartialEq, Eq)]
pub enum AagFault {
    /// The bytes are no circuit's text; the first bad line, counted from 1.
    #[error("line {0} is no line of a circuit")]
    BadCircuit(u64),
    #[error("out of memory")]
    Memory,
}

impl From<AllocError> for AagFault {
    ghost use Rattle.std.specs.Prelude.{◌≡◌};
    ghost use Rattle.rr_circuit.specs.declared.aag.AagFault.TheVariants.{Memory};

    ghost from_gives = { λ _ e. e ≡ Memory };

    fn from(_error: AllocError) -> AagFault {
        AagFault::Memory
    }
}

impl<T: Drop> From<AllocFailed<T>> for AagFault {
    ghost use Rattle.std.specs.Prelude.{◌≡◌};
    ghost use Rattle.rr_circuit.specs.declared.aag.AagFault.TheVariants.{Memory};

    ghost from_gives = { λ _ e. e ≡ Memory };

    fn from(_error: AllocFailed<T>) -> AagFault {
        AagFault::Memory
    }
}

/// The numbers of a header line, without the greatest variable, which is `inputs + gates`.
#[derive(Clone, Copy)]
struct Counts {
    inputs: u64,
    outputs: u64,
    gates: u64,
}

fn push_header(out: &mut Vec<u8>, counts: Counts) -> Result<(), AllocError>
    requires { AreCounts counts }
    ensures { OnOk result (out.new.items ≡ out.old.items ++ text_of (header_line counts ∷ [])) }
{
    out.extend_from_slice(b"aag ")?;
    push_number(out, counts.inputs + counts.gates, b' ')?;
    push_number(out, counts.inputs, b' ')?;
    push_number(out, 0, b' ')?;
    push_number(out, counts.outputs, b' ')?;
    push_number(out, counts.gates, b'\n')?;
    Ok(())
}

fn push_gate_line(out: &mut Vec<u8>, variable: u64, gate: Gate) -> Result<(), AllocError>
    requires { variable < 2 ^ 62 }
    ensures { OnOk result (out.new.items ≡ out.old.items ++ text_of (gate_line variable gate ∷ [])) }
{
    push_number(out, 2 * variable, b' ')?;
    push_number(out, gate.left.0, b' ')?;
    push_number(out, gate.right.0, b'\n')
}

fn push_inputs(out: &mut Vec<u8>, inputs: u64) -> Result<(), AllocError>
    requires { inputs < 2 ^ 62 }
    ensures { OnOk result (out.new.items ≡ out.old.items ++ text_of (input_lines inputs)) }
{
    for k in 0..inputs {
        push_number(out, 2 * (k + 1), b'\n')?;
    }
    Ok(())
}

fn push_outputs(out: &mut Vec<u8>, outputs: &[Wire]) -> Result<(), AllocError>
    ensures { OnOk result (out.new.items ≡ out.old.items ++ text_of (output_lines outputs.now)) }
{
    for wire in outputs {
        push_number(out, wire.0, b'\n')?;
    }
    Ok(())
}

// The gates' lines, where the first gate has this variable.
fn push_gates(out: &mut Vec<u8>, variable: u64, gates: &[Gate]) -> Result<(), AllocError>
    requires { variable + length gates.now ≤ 2 ^ 62 }
    ensures { OnOk result (out.new.items ≡ out.old.items ++ text_of (gate_lines variable gates.now)) }
{
    for (number, gate) in gates.iter().enumerate() {
        push_gate_line(out, variable + number as u64, *gate)?;
    }
    Ok(())
}

/// The text of a circuit in ASCII AIGER.
pub fn write_aag(alloc: Global, circuit: &Circuit) -> Result<Vec<u8>, AllocError>
    ensures text { IfOk result (λ r. r.items ≡ aag circuit.now) }
    ensures circuit { OnOk result (IsCircuit circuit.now) }
{
    let counts = Counts {
        inputs: circuit.inputs,
        outputs: circuit.outputs.len() as u64,
        gates: circuit.gates.len() as u64,
    };
    // So many outputs have no text. They would not fit in memory either.
    if counts.outputs >= LIMIT {
        return Err(AllocError);
    }
    let mut out = Vec::new(alloc);
    push_header(&mut out, counts)?;
    push_inputs(&mut out, circuit.inputs)?;
    push_outputs(&mut out, &circuit.outputs)?;
    push_gates(&mut out, 1 + circuit.inputs, &circuit.gates)?;
    Ok(out)
}

// Whether these are the numbers of a header.
fn is_header(variables: u64, inputs: u64, latches: u64, outputs: u64, gates: u64) -> bool
    ensures { IsTrue result ↔ ((latches ≡ 0) × (variables < 2 ^ 62) × (outputs < 2 ^ 62) × (variables ≡ inputs + gates)) }
{
    latches == 0
        && variables < LIMIT
        && outputs < LIMIT
        && inputs <= variables
        && gates == variables - inputs
}

// The header's five numbers after `aag`.
fn header_numbers(text: &[u8]) -> Option<(Counts, &[u8])>
    ensures some { IfSome result (λ r. codes "aag " ++ text.now ≡ header_line r.0 ++ 10 ∷ r.1.now) }
    ensures bounds { IfSome result (λ r. AreCounts r.0) }
    ensures none { IfNone result ((h : Counts) (rest : List ℕ) → AreCounts h → codes "aag " ++ text.now ≢ header_line h ++ 10 ∷ rest) }
{
    let (variables, text) = number_then(text, b' ')?;
    let (inputs, text) = number_then(text, b' ')?;
    let (latches, text) = number_then(text, b' ')?;
    let (outputs, text) = number_then(text, b' ')?;
    let (gates, text) = number_then(text, b'\n')?;
    if !is_header(variables, inputs, latches, outputs, gates) {
        return None;
    }
    Some((
        Counts {
            inputs,
            outputs,
            gates,
        },
        text,
    ))
}

fn header(text: &[u8]) -> Option<(Counts, &[u8])>
    ensures some { IfSome result (λ r. text.now ≡ header_line r.0 ++ 10 ∷ r.1.now) }
    ensures bounds { IfSome result (λ r. AreCounts r.0) }
    ensures none { IfNone result ((h : Counts) (rest : List ℕ) → AreCounts h → text.now ≢ header_line h ++ 10 ∷ rest) }
{
    header_numbers(text.strip_prefix(b"aag ")?)
}

// Whether these are the numbers of the gate with this literal.
fn is_gate(own: u64, literal: u64, left: u64, right: u64) -> bool
    ensures { IsTrue result ↔ ((literal ≡ own) × (2 ≤ left) × (left < own) × (2 ≤ right) × (right < own)) }
{
    literal == own && 2 <= left && left < own && 2 <= right && right < own
}

// The line of the gate that stands after so many others.
fn gate_then(text: &[u8], inputs: u64, number: u64) -> Option<(Gate, &[u8])>
    requires { inputs + number < 2 ^ 62 }
    ensures some { IfSome result (λ r. text.now ≡ gate_line (1 + inputs + number) r.0 ++ 10 ∷ r.1.now) }
    ensures known { IfSome result (λ r. IsGateAt inputs number r.0) }
    ensures none { IfNone result ((g : Gate) (rest : List ℕ) → IsGateAt inputs number g →
        text.now ≢ gate_line (1 + inputs + number) g ++ 10 ∷ rest) }
{
    let own = 2 * (1 + inputs + number);
    let (literal, text) = number_then(text, b' ')?;
    let (left, text) = number_then(text, b' ')?;
    let (right, text) = number_then(text, b'\n')?;
    if !is_gate(own, literal, left, right) {
        return None;
    }
    let gate = Gate {
        left: Wire(left),
        right: Wire(right),
    };
    Some((gate, text))
}

// What follows the line of this literal.
fn literal_then(text: &[u8], literal: u64) -> Option<&[u8]>
    ensures some { IfSome result (λ r. text.now ≡ decimal literal ++ 10 ∷ r.now) }
    ensures none { IfNone result ((rest : List ℕ) → text.now ≢ decimal literal ++ 10 ∷ rest) }
{
    let (found, rest) = number_then(text, b'\n')?;
    if found == literal { Some(rest) } else { None }
}

// The line of an output whose literal is below the bound.
fn output_then(text: &[u8], bound: u64) -> Option<(Wire, &[u8])>
    ensures some { IfSome result (λ r. text.now ≡ output_line r.0 ++ 10 ∷ r.1.now) }
    ensures known { IfSome result (λ r. r.0.0 < bound) }
    ensures none { IfNone result ((w : Wire) (rest : List ℕ) → w.0 < bound → text.now ≢ output_line w ++ 10 ∷ rest) }
{
    let (found, rest) = number_then(text, b'\n')?;
    if found < bound {
        Some((Wire(found), rest))
    } else {
        None
    }
}

// The inputs' lines. The error is the first bad line, counted from 1.
fn read_inputs(counts: Counts, text: &[u8]) -> Result<&[u8], u64>
    requires { AreCounts counts }
    ensures ok { IfOk result (λ r. text.now ≡ text_of (input_lines counts.inputs) ++ r.now) }
    ensures err { IfErr result (λ bad. GoesWrong counts 1 text.now bad) }
{
    let mut rest = text;
    for k in 0..counts.inputs {
        match literal_then(rest, 2 * (k + 1)) {
            Some(after) => rest = after,
            None => return Err(k + 2),
        }
    }
    Ok(rest)
}

// The outputs' lines.
fn read_outputs<'a>(
    outputs: &mut Vec<Wire>,
    counts: Counts,
    text: &'a [u8],
) -> Result<&'a [u8], AagFault>
    requires counts { AreCounts counts }
    requires none { outputs.old.items ≡ [] }
    ensures ok { IfOk result (λ r. text.now ≡ text_of (output_lines outputs.new.items) ++ r.now) }
    ensures count { OnOk result (length outputs.new.items ≡ counts.outputs) }
    ensures known { OnOk result (All (λ w. w.0 < 2 * (1 + counts.inputs + counts.gates)) outputs.new.items) }
    ensures err { IfErr result (GoesWrongBy counts (1 + counts.inputs) text.now) }
{
    let bound = 2 * (1 + counts.inputs + counts.gates);
    let mut rest = text;
    for k in 0..counts.outputs {
        match output_then(rest, bound) {
            Some((wire, after)) => {
                outputs.push(wire)?;
                rest = after;
            }
            None => return Err(AagFault::BadCircuit(counts.inputs + k + 2)),
        }
    }
    Ok(rest)
}

// The gates' lines.
fn read_gates<'a>(
    gates: &mut Vec<Gate>,
    counts: Counts,
    text: &'a [u8],
) -> Result<&'a [u8], AagFault>
    requires counts { AreCounts counts }
    requires none { gates.old.items ≡ [] }
    ensures ok { IfOk result (λ r. text.now ≡ text_of (gate_lines (1 + counts.inputs) gates.new.items) ++ r.now) }
    ensures count { OnOk result (length gates.new.items ≡ counts.gates) }
    ensures known { OnOk result (IsNetlist counts.inputs gates.new.items) }
    ensures err { IfErr result (GoesWrongBy counts (1 + counts.inputs + counts.outputs) text.now) }
{
    let mut rest = text;
    for k in 0..counts.gates {
        match gate_then(rest, counts.inputs, k) {
            Some((gate, after)) => {
                gates.push(gate)?;
                rest = after;
            }
            None => {
                let line = counts.inputs + counts.outputs + k + 2;
                return Err(AagFault::BadCircuit(line));
            }
        }
    }
    Ok(rest)
}

fn is_unread(text: &[u8]) -> bool
    ensures { IsTrue result ↔ IsUnread text.now }
{
    text.is_empty() || text[0] == b'i' || text[0] == b'o' || text[0] == b'c'
}

fn read_text(alloc: Global, bytes: &[u8]) -> Result<Circuit, AagFault>
    ensures circuit { IfOk result (λ c. IsTextOf bytes.now c) }
    ensures lawful { IfOk result IsCircuit }
    ensures cause { IfErr result (IsCause bytes.now) }
{
    let Some((counts, text)) = header(bytes) else {
        return Err(AagFault::BadCircuit(1));
    };
    let text = match read_inputs(counts, text) {
        Ok(rest) => rest,
        Err(line) => return Err(AagFault::BadCircuit(line)),
    };
    let mut outputs = Vec::new(alloc);
    let text = match read_outputs(&mut outputs, counts, text) {
        Ok(rest) => rest,
        Err(fault) => return Err(fault),
    };
    let mut gates = Vec::new(alloc);
    let text = match read_gates(&mut gates, counts, text) {
        Ok(rest) => rest,
        Err(fault) => return Err(fault),
    };
    if !is_unread(text) {
        let last = 1 + counts.inputs + counts.outputs + counts.gates;
        return Err(AagFault::BadCircuit(last + 1));
    }
    Ok(Circuit {
        inputs: counts.inputs,
        gates,
        outputs,
    })
}

/// Reads the text of a circuit in ASCII AIGER, of the form that `write_aag` gives: a fixed
/// numbering, no latches, and no constant as an operand. Symbols and a comment may follow and are
/// not read. It takes room only for lines that it has seen.
pub fn read_aag(alloc: Global, bytes: &[u8]) -> Result<Circuit, AagFault>
    ensures circuit { IfOk result (λ c. IsTextOf bytes.now c) }
    ensures text { OnOk result (IsText bytes.now) }
    // The bytes are no text, and the line is the first that does not go on with one.
    ensures cause { IfErr result (IsCause bytes.now) }
    // What is a circuit's text is read as that circuit, but for want of memory.
    ensures back { (c : OutputNetlist) → IsCircuit c → IsTextOf bytes.now c → ReadsAs result c }
{
    read_text(alloc, bytes)
}
