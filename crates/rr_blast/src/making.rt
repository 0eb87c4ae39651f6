//! Transitions of flat designs.
ghost use Rattle.std.specs.Prelude.{List, ◌≡◌, ◌<◌, ◌^◌, ◌++◌, ◌∷◌, [], IfOk, OnOk, All, length};
ghost use Rattle.rr_circuit.specs.Sweeps.{AreUsed};
ghost use Rattle.rr_flat.specs.View.{plain_flat};
ghost use Rattle.rr_choice.specs.declared.pick.Pick.{Pick};
ghost use Rattle.rr_choice.specs.Choices.{total_bits};
ghost use Rattle.rr_transition.specs.Cycles.{Cycle, Design, switch_places, widths_of};
ghost use Rattle.rr_registers.specs.Registers.{registers_of};
ghost use Rattle.rr_blast.specs.Circuits.{FitsArguments, StaysLawful, bit_count};

use crate::cycle::{cycle_circuit, row_bits};
use rr_choice::{SiteList, site_bits};
use rr_flat::{Flat, Order};
use rr_registers::{register_bits, start_bits};
use rr_transition::Transition;
use std::alloc::{AllocError, Global};

fn push_number(list: &mut Vec<u32>, number: u32) -> Result<(), AllocError>
    ensures { OnOk result (list.new.items ≡ list.old.items ++ number ∷ []) }
{
    list.push(number)?;
    Ok(())
}

/// Where the switches of sites stand among the bits of a choice.
fn switches(alloc: Global, list: &SiteList) -> Result<Vec<u32>, AllocError>
    requires { total_bits list.now < 2 ^ 32 }
    ensures { IfOk result (λ r. r.items ≡ switch_places 0 list.now) }
{
    let sites = list.sites();
    let mut places = Vec::new(alloc);
    let mut at: u32 = 0;
    for site in sites.iter() {
        push_number(&mut places, at)?;
        at += site_bits(site);
    }
    Ok(places)
}

/// The widths of signals.
fn widths(alloc: Global, flat: &Flat, ids: &[u32]) -> Result<Vec<u32>, AllocError>
    requires { All (λ id. id < length flat.now.signals) ids.now }
    ensures { IfOk result (λ r. r.items ≡ widths_of (plain_flat flat.now) ids.now) }
{
    let mut list = Vec::new(alloc);
    for id in ids.iter() {
        push_number(&mut list, flat.signal_at(*id).width)?;
    }
    Ok(list)
}

/// The circuit of one cycle of a flat design, for every choice among the changes of the sites of a
/// list. The design is lawful, and its steps stand in that order; the bits of a choice, of a state and
/// of a row of inputs together are below 2^32. The registers are the bits that clocked blocks write,
/// signal after signal, each lowest bit first; a run starts in what they begin with. The circuit has no gate that no bit of the next state and of
/// the outputs stands on. Every instance is lawful, with the signals, the clock, the registers and the
/// order of the design.
pub fn transition(
    alloc: Global,
    flat: &Flat,
    order: &Order,
    list: &SiteList,
) -> Result<Transition, AllocError>
    requires fits { (j : Design) × FitsArguments j (plain_flat flat.now) order.now.clock order.now.rising order.now.steps.items list.now }
    requires few { bit_count (plain_flat flat.now) order.now.clock list.now < 2 ^ 32 }
    ensures stands { IfOk result (λ t. (j : Design) → FitsArguments j (plain_flat flat.now) order.now.clock order.now.rising order.now.steps.items list.now → Cycle j list.now t) }
    ensures registers { IfOk result (λ t. (j : Design) → FitsArguments j (plain_flat flat.now) order.now.clock order.now.rising order.now.steps.items list.now → (c : Cycle j list.now t) × (c.registers ≡ registers_of (plain_flat flat.now))) }
    ensures used { IfOk result (λ t. AreUsed t.circuit) }
    ensures lawful { (j : Design) (picks : List Pick) → FitsArguments j (plain_flat flat.now) order.now.clock order.now.rising order.now.steps.items list.now → StaysLawful j (plain_flat flat.now) order.now.clock order.now.rising order.now.steps.items list.now picks }
{
    swept_cycle(alloc, flat, order, list)
}

/// The circuit, and what belongs to it.
fn swept_cycle(
    alloc: Global,
    flat: &Flat,
    order: &Order,
    list: &SiteList,
) -> Result<Transition, AllocError>
    requires fits { (j : Design) × FitsArguments j (plain_flat flat.now) order.now.clock order.now.rising order.now.steps.items list.now }
    requires few { bit_count (plain_flat flat.now) order.now.clock list.now < 2 ^ 32 }
    ensures stands { IfOk result (λ t. (j : Design) → FitsArguments j (plain_flat flat.now) order.now.clock order.now.rising order.now.steps.items list.now → Cycle j list.now t) }
    ensures registers { IfOk result (λ t. (j : Design) → FitsArguments j (plain_flat flat.now) order.now.clock order.now.rising order.now.steps.items list.now → (c : Cycle j list.now t) × (c.registers ≡ registers_of (plain_flat flat.now))) }
    ensures used { IfOk result (λ t. AreUsed t.circuit) }
{
    let registers = register_bits(alloc, flat)?;
    let ids = flat.row_inputs(alloc, order.clock)?;
    let row = row_bits(alloc, flat, ids.as_slice())?;
    let circuit = cycle_circuit(
        alloc,
        flat,
        order.clock,
        order.steps.as_slice(),
        list,
        registers.as_slice(),
        row.as_slice(),
    )?;
    let start = start_bits(alloc, flat, registers.as_slice())?;
    let switches = switches(alloc, list)?;
    let input_widths = widths(alloc, flat, ids.as_slice())?;
    let output_widths = widths(alloc, flat, flat.outputs.as_slice())?;
    Ok(Transition {
        circuit,
        choice_bits: list.bits(),
        state_bits: registers.len() as u32,
        input_bits: row.len() as u32,
        start,
        switches,
        input_widths,
        output_widths,
    })
}
