//! The copies of the transition, row after row.

ghost use Rattle.std.specs.Prelude.{◌≡◌, ℕ, ◌+◌, [], ◌∷◌, ◌++◌, Bool, cond, IfOk, OnOk, length, map, take, drop, get_or};
ghost use Rattle.std.specs.List.{sum};
ghost use Rattle.rr_circuit.specs.Values.{IsWire, AreWires, wire_value, wire_values, output_values, given, Extends};
ghost use Rattle.rr_trace.specs.View.{plain_table};
ghost use Rattle.rr_trace.specs.declared.cell.Cell.{Cell};
ghost use Rattle.rr_unroll.specs.Questions.{is_same, agree, agree_row, judged as judged_of};
ghost use Rattle.rr_unroll.specs.Fixed.{AreFixed};

use crate::wires::followed;
use crate::words::words;
use rr_circuit::{Builder, Circuit, Wire};
use rr_trace::{Cell, Table};
use rr_transition::Transition;
use std::alloc::{AllocError, Global};

// Whether a bit is the one that is expected.
fn agrees(b: &Builder, expected: bool, bit: Wire) -> Wire
    requires { IsWire b.now bit }
    ensures wire { IsWire b.now result }
    ensures value { (env : ℕ → Bool) → wire_value b.now env result ≡ is_same expected (wire_value b.now env bit) }
{
    if expected { bit } else { b.not(bit) }
}

// Asks at a place that is known whether the expected bit is the one that was found.
fn ask_bit(
    b: &Builder,
    out: &mut Vec<Wire>,
    known: bool,
    expected: bool,
    found: Wire,
) -> Result<(), AllocError>
    requires out { AreWires b.now out.old.items }
    requires found { IsWire b.now found }
    ensures wires { OnOk result (AreWires b.now out.new.items) }
    ensures value { OnOk result ((env : ℕ → Bool) →
        wire_values b.now env out.new.items ≡ wire_values b.now env out.old.items ++ cond known (is_same expected (wire_value b.now env found) ∷ []) []) }
{
    if !known {
        return Ok(());
    }
    out.push(agrees(b, expected, found))?;
    Ok(())
}

// Asks at each place.
fn ask(
    b: &Builder,
    out: &mut Vec<Wire>,
    known: &[bool],
    expected: &[bool],
    found: &[Wire],
) -> Result<(), AllocError>
    requires out { AreWires b.now out.old.items }
    requires found { AreWires b.now found.now }
    requires expected_width { length expected.now ≡ length known.now }
    requires found_width { length found.now ≡ length known.now }
    ensures wires { OnOk result (AreWires b.now out.new.items) }
    ensures value { OnOk result ((env : ℕ → Bool) →
        wire_values b.now env out.new.items ≡ wire_values b.now env out.old.items ++ agree known.now expected.now (wire_values b.now env found.now)) }
{
    for i in 0..known.len() {
        ask_bit(b, out, known[i], expected[i], found[i])?;
    }
    Ok(())
}

// Asks of a row of outputs whether it has the known bits of the cells.
fn ask_row(
    alloc: Global,
    b: &Builder,
    out: &mut Vec<Wire>,
    widths: &[u32],
    cells: &[Cell],
    found: &[Wire],
) -> Result<(), AllocError>
    requires out { AreWires b.now out.old.items }
    requires found { AreWires b.now found.now }
    requires width { length found.now ≡ sum widths.now }
    ensures wires { OnOk result (AreWires b.now out.new.items) }
    ensures value { OnOk result ((env : ℕ → Bool) →
        wire_values b.now env out.new.items ≡ wire_values b.now env out.old.items ++ agree_row widths.now cells.now (wire_values b.now env found.now)) }
{
    let known: Vec<u128> = cells.iter().map(|cell| cell.known).collect(alloc)?;
    let values: Vec<u128> = cells.iter().map(|cell| cell.value).collect(alloc)?;
    let known_bits = words(alloc, widths, known.as_slice())?;
    let value_bits = words(alloc, widths, values.as_slice())?;
    ask(b, out, known_bits.as_slice(), value_bits.as_slice(), found)?;
    Ok(())
}

// A copy of the circuit of one row: the next state and the outputs.
fn cycle(
    alloc: Global,
    b: &mut Builder,
    circuit: &Circuit,
    choice: &[Wire],
    state: &[Wire],
) -> Result<Vec<Wire>, AllocError>
    requires choice { AreWires b.old choice.now }
    requires state { AreWires b.old state.now }
    requires count { length choice.now + length state.now ≡ circuit.now.netlist.inputs }
    ensures extends { Extends b.old b.new }
    ensures wires { IfOk result (λ r. AreWires b.new r.items) }
    ensures width { IfOk result (λ r. length r.items ≡ length circuit.now.outputs) }
    ensures value { IfOk result (λ r. (env : ℕ → Bool) →
        wire_values b.new env r.items ≡ output_values circuit.now (given (wire_values b.old env choice.now ++ wire_values b.old env state.now))) }
{
    let mut inputs = Vec::with_capacity(alloc, choice.len() + state.len())?;
    inputs.extend_from_slice(choice)?;
    inputs.extend_from_slice(state)?;
    let out = circuit.copy_onto(alloc, b, inputs.as_slice())?;
    Ok(out)
}

// Copies the circuit of one row, and asks whether its outputs have the known bits of the cells. It
// answers the next state.
fn push_row(
    alloc: Global,
    b: &mut Builder,
    out: &mut Vec<Wire>,
    transition: &Transition,
    choice: &[Wire],
    state: &[Wire],
    circuit: &Circuit,
    cells: &[Cell],
) -> Result<Vec<Wire>, AllocError>
    requires out { AreWires b.old out.old.items }
    requires choice { AreWires b.old choice.now }
    requires state { AreWires b.old state.now }
    requires inputs { length choice.now + length state.now ≡ circuit.now.netlist.inputs }
    requires outputs { length circuit.now.outputs ≡ transition.now.state_bits + sum transition.now.output_widths }
    ensures extends { Extends b.old b.new }
    ensures out { OnOk result (AreWires b.new out.new.items) }
    ensures asked { OnOk result ((env : ℕ → Bool) →
        wire_values b.new env out.new.items ≡ wire_values b.old env out.old.items ++ agree_row transition.now.output_widths cells.now
        (drop transition.now.state_bits (output_values circuit.now (given (wire_values b.old env choice.now ++ wire_values b.old env state.now))))) }
    ensures state { IfOk result (λ r. AreWires b.new r.items) }
    ensures width { IfOk result (λ r. length r.items ≡ transition.now.state_bits) }
    ensures next { IfOk result (λ r. (env : ℕ → Bool) →
        wire_values b.new env r.items ≡ take transition.now.state_bits (output_values circuit.now (given (wire_values b.old env choice.now ++ wire_values b.old env state.now)))) }
{
    let bits = cycle(alloc, b, circuit, choice, state)?;
    let (next, found) = bits.as_slice().split_at(transition.state_bits as usize);
    ask_row(
        alloc,
        b,
        out,
        transition.output_widths.as_slice(),
        cells,
        found,
    )?;
    let mut after = Vec::new(alloc);
    after.extend_from_slice(next)?;
    Ok(after)
}

/// The numbers of a row, none where it is not there.
pub(crate) fn numbers_at(rows: &[Vec<u128>], row: usize) -> &[u128]
    ensures { result.now ≡ get_or (map (λ v. v.items) rows.now) row [] }
{
    match rows.get(row) {
        Some(numbers) => numbers.as_slice(),
        None => &[],
    }
}

/// The cells of a row, none where it is not there.
pub(crate) fn cells_at(rows: &[Vec<Cell>], row: usize) -> &[Cell]
    ensures { result.now ≡ get_or (map (λ v. v.items) rows.now) row [] }
{
    match rows.get(row) {
        Some(cells) => cells.as_slice(),
        None => &[],
    }
}

/// For each known expected bit of a table, whether the transition's outputs have it, from the state on
/// that a run starts in: copies of the circuits of its rows, one after the other.
pub(crate) fn judged(
    alloc: Global,
    b: &mut Builder,
    transition: &Transition,
    circuits: &[Circuit],
    table: &Table,
    choice: &[Wire],
) -> Result<Vec<Wire>, AllocError>
    requires circuits { AreFixed transition.now (plain_table table.now).inputs circuits.now }
    requires choice { AreWires b.old choice.now }
    requires width { length choice.now ≡ transition.now.choice_bits }
    ensures extends { Extends b.old b.new }
    ensures wires { IfOk result (λ r. AreWires b.new r.items) }
    ensures value { IfOk result (λ r. (env : ℕ → Bool) → wire_values b.new env r.items
        ≡ judged_of transition.now (wire_values b.old env choice.now) transition.now.start (plain_table table.now).inputs (plain_table table.now).expected) }
{
    let mut out = Vec::new(alloc);
    let mut state = followed(alloc, b, &[], transition.start.as_slice())?;
    for r in 0..circuits.len() {
        let cells = cells_at(table.expected.as_slice(), r);
        state = push_row(
            alloc,
            b,
            &mut out,
            transition,
            choice,
            state.as_slice(),
            &circuits[r],
            cells,
        )?;
    }
    Ok(out)
}
