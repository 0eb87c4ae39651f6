//! A whole cycle on wires: from a choice, the values of registers and a row of inputs to the registers'
//! next values and the outputs.
ghost use Rattle.std.specs.Prelude.{◌≡◌, ◌<◌, ◌≤◌, ◌+◌, ◌^◌, ◌++◌, ◌∷◌, [], ℕ, Bool, All, IfOk, OnOk, length, map};
ghost use Rattle.std.specs.List.{range_with_len, sum};
ghost use Rattle.rr_circuit.specs.Sweeps.{AreUsed};
ghost use Rattle.rr_circuit.specs.Values.{Extends, Netlist, AreWires, wire_values};
ghost use Rattle.rr_flat.specs.Ordered.{IsStep};
ghost use Rattle.rr_flat.specs.View.{plain_flat};
ghost use Rattle.rr_choice.specs.Choices.{total_bits};
ghost use Rattle.rr_flat.specs.Inputs.{row_inputs};
ghost use Rattle.rr_blast_steps.specs.Designs.{signal_widths};
ghost use Rattle.rr_flat_instance.specs.Flats.{instance_flat};
ghost use Rattle.rr_blast.specs.Rows.{AreRegisters, BasesStay, bits_of_row};
ghost use Rattle.rr_transition.specs.Placed.{settled_of};
ghost use Rattle.rr_transition.specs.Cycles.{output_bits, widths_of as flat_widths};
ghost use Rattle.rr_blast.specs.Circuits.{answers_of, PerformsCycles};
ghost use Rattle.rr_signal_wires.specs.Words.{AreWords, IsThere, carried, widths_of};
ghost use Rattle.rr_blast_terms.specs.Choosing.{IsReady, picks_of};

use crate::beginning::{base_words, zero_words};
use rr_blast_steps::{edge, perform_all};
use rr_blast_stmt::Machine;
use rr_blast_terms::ChoiceWires;
use rr_choice::SiteList;
use rr_circuit::{Builder, Circuit, Wire};
use rr_expr::Bit;
use rr_flat::{Flat, Step};
use rr_signal_wires::wire_at;
use std::alloc::{AllocError, Global};

fn push_bit(list: &mut Vec<Bit>, bit: Bit) -> Result<(), AllocError>
    ensures { OnOk result (list.new.items ≡ list.old.items ++ bit ∷ []) }
{
    list.push(bit)?;
    Ok(())
}

fn push_wire(list: &mut Vec<Wire>, wire: Wire) -> Result<(), AllocError>
    ensures { OnOk result (list.new.items ≡ list.old.items ++ wire ∷ []) }
{
    list.push(wire)?;
    Ok(())
}

fn add_bits(list: &mut Vec<Bit>, signal: u32, width: u32) -> Result<(), AllocError>
    ensures { OnOk result (list.new.items ≡ list.old.items ++ map (λ (p : ℕ). record { signal = signal; place = p }) (range_with_len 0 width)) }
{
    for place in 0..width {
        push_bit(list, Bit { signal, place })?;
    }
    Ok(())
}

/// The bits of the inputs of a row, input after input, the lowest first.
pub fn row_bits(alloc: Global, flat: &Flat, inputs: &[u32]) -> Result<Vec<Bit>, AllocError>
    requires inside { All (λ id. id < length flat.now.signals) inputs.now }
    ensures value { IfOk result (λ r. r.items ≡ bits_of_row (plain_flat flat.now).signals inputs.now) }
    ensures there { IfOk result (λ r. All (IsThere (signal_widths flat.now.signals)) r.items) }
{
    let mut bits = Vec::new(alloc);
    for id in inputs.iter() {
        add_bits(&mut bits, *id, flat.signals[*id as usize].width)?;
    }
    Ok(bits)
}

/// The wires of these bits.
fn wires_at(alloc: Global, words: &[Vec<Wire>], bits: &[Bit]) -> Result<Vec<Wire>, AllocError>
    requires { All (IsThere (widths_of words.now)) bits.now }
    ensures wires { IfOk result (λ r. (n : Netlist) → AreWords n words.now → AreWires n r.items) }
    ensures value { IfOk result (λ r. (n : Netlist) (env : ℕ → Bool) → wire_values n env r.items ≡ map (carried n env words.now) bits.now) }
{
    let mut wires = Vec::new(alloc);
    for bit in bits.iter() {
        wires.push(wire_at(words, *bit))?;
    }
    Ok(wires)
}

fn add_word(list: &mut Vec<Wire>, word: &[Wire]) -> Result<(), AllocError>
    ensures { OnOk result (list.new.items ≡ list.old.items ++ word.now) }
{
    for wire in word.iter() {
        list.push(*wire)?;
    }
    Ok(())
}

/// The wires of the outputs, output after output, the lowest first.
fn output_wires(
    alloc: Global,
    b: &Builder,
    flat: &Flat,
    words: &[Vec<Wire>],
) -> Result<Vec<Wire>, AllocError>
    requires words { AreWords b.now words.now }
    requires widths { widths_of words.now ≡ signal_widths flat.now.signals }
    ensures wires { IfOk result (λ r. AreWires b.now r.items) }
    ensures value { IfOk result (λ r. (env : ℕ → Bool) → wire_values b.now env r.items ≡ output_bits (plain_flat flat.now) (carried b.now env words.now)) }
{
    let mut wires = Vec::new(alloc);
    for id in flat.outputs.iter() {
        add_word(&mut wires, words[*id as usize].as_slice())?;
    }
    Ok(wires)
}

/// The registers' next values and then the outputs of a cycle of the instance.
fn cycle_answers(
    alloc: Global,
    b: &mut Builder,
    flat: &Flat,
    clock: Option<u32>,
    steps: &[Step],
    choice: &ChoiceWires,
    registers: &[Bit],
    inputs: &[Bit],
    state: &[Wire],
    row: &[Wire],
) -> Result<Vec<Wire>, AllocError>
    requires steps { All (IsStep (plain_flat flat.now)) steps.now }
    requires bases { BasesStay (plain_flat flat.now) clock choice.now.sites.now }
    requires choice { IsReady b.old choice.now }
    requires registers { AreRegisters (plain_flat flat.now) registers.now }
    requires there { All (IsThere (signal_widths flat.now.signals)) registers.now }
    requires inputs { inputs.now ≡ bits_of_row (plain_flat flat.now).signals (row_inputs clock flat.now.inputs) }
    requires inside { All (IsThere (signal_widths flat.now.signals)) inputs.now }
    requires state { AreWires b.old state.now }
    requires row { AreWires b.old row.now }
    requires state_count { length state.now ≡ length registers.now }
    requires row_count { length row.now ≡ length inputs.now }
    ensures extends { Extends b.old b.new }
    ensures wires { IfOk result (λ r. AreWires b.new r.items) }
    ensures value { IfOk result (λ r. (env : ℕ → Bool) → wire_values b.new env r.items
        ≡ answers_of (instance_flat choice.now.sites.now (picks_of b.old env choice.now) (plain_flat flat.now)) registers.now
        (settled_of (instance_flat choice.now.sites.now (picks_of b.old env choice.now) (plain_flat flat.now)) clock steps.now registers.now (wire_values b.old env state.now) (wire_values b.old env row.now))) }
{
    let now = base_words(alloc, b, flat, registers, inputs, state, row)?;
    let later = zero_words(alloc, b, flat)?;
    let mut machine = Machine { now, later };
    perform_all(alloc, b, flat, steps, choice, &mut machine)?;
    let next = edge(alloc, b, flat, choice, machine.now.as_slice())?;
    let mut answers = wires_at(alloc, next.as_slice(), registers)?;
    let outputs = output_wires(alloc, b, flat, machine.now.as_slice())?;
    add_word(&mut answers, outputs.as_slice())?;
    Ok(answers)
}

/// The wires of so many inputs of a builder, from one on.
fn input_wires(alloc: Global, b: &Builder, from: u32, count: u32) -> Result<Vec<Wire>, AllocError>
    requires inputs { from + count ≤ b.now.inputs }
    requires few { from + count < 4294967296 }
    ensures wires { IfOk result (λ r. AreWires b.now r.items) }
    ensures value { IfOk result (λ r. (env : ℕ → Bool) → wire_values b.now env r.items ≡ map env (range_with_len from count)) }
    ensures count { IfOk result (λ r. length r.items ≡ count) }
{
    let mut wires = Vec::new(alloc);
    for place in 0..count {
        push_wire(&mut wires, b.input(from + place))?;
    }
    Ok(wires)
}

/// The circuit of a cycle, whose inputs are the bits of a choice, so many as the sites have, the values
/// of the registers, and the bits of a row; and whose outputs are the registers' next values and the bits
/// of the outputs. It has no gate that none of these stands on: signals that no output and no next state
/// needs are left out.
pub(crate) fn cycle_circuit(
    alloc: Global,
    flat: &Flat,
    clock: Option<u32>,
    steps: &[Step],
    sites: &SiteList,
    registers: &[Bit],
    inputs: &[Bit],
) -> Result<Circuit, AllocError>
    requires steps { All (IsStep (plain_flat flat.now)) steps.now }
    requires few { total_bits sites.now + length registers.now + length inputs.now < 2 ^ 32 }
    requires bases { BasesStay (plain_flat flat.now) clock sites.now }
    requires registers { AreRegisters (plain_flat flat.now) registers.now }
    requires there { All (IsThere (signal_widths flat.now.signals)) registers.now }
    requires inputs { inputs.now ≡ bits_of_row (plain_flat flat.now).signals (row_inputs clock flat.now.inputs) }
    requires inside { All (IsThere (signal_widths flat.now.signals)) inputs.now }
    ensures performs { IfOk result (λ c. PerformsCycles (plain_flat flat.now) clock steps.now sites.now registers.now c) }
    ensures inputs { IfOk result (λ c. c.netlist.inputs ≡ total_bits sites.now + length registers.now + length inputs.now) }
    ensures outputs { IfOk result (λ c. length c.outputs ≡ length registers.now + sum (flat_widths (plain_flat flat.now) flat.now.outputs)) }
    ensures used { IfOk result AreUsed }
{
    let first = sites.bits();
    let second = registers.len() as u32;
    let third = inputs.len() as u32;
    let mut b = Builder::new(alloc, first + second + third)?;
    let picks = input_wires(alloc, &b, 0, first)?;
    let state = input_wires(alloc, &b, first, second)?;
    let given = input_wires(alloc, &b, first + second, third)?;
    let choice = ChoiceWires {
        sites,
        wires: picks.as_slice(),
    };
    let answers = cycle_answers(
        alloc,
        &mut b,
        flat,
        clock,
        steps,
        &choice,
        registers,
        inputs,
        state.as_slice(),
        given.as_slice(),
    )?;
    let whole = b.finish(answers);
    let circuit = whole.swept(alloc)?;
    Ok(circuit)
}
