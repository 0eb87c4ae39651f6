//! A transition whose runs start before a row of a table.
ghost use Rattle.std.specs.Prelude.{◌≡◌, IfOk, length, take};
ghost use Rattle.rr_trace.specs.View.{plain_table};
ghost use Rattle.rr_unroll.specs.Walking.{state_after};
ghost use Rattle.rr_window.specs.Windows.{off};

use rr_trace::Table;
use rr_transition::Transition;
use rr_unroll::state_before;
use std::alloc::{AllocError, Global};

/// The bits of the choice that changes nothing: all switches are off.
pub(crate) fn switches_off(alloc: Global, transition: &Transition) -> Result<Vec<bool>, AllocError>
    ensures off { IfOk result (λ r. r.items ≡ off transition.now) }
    ensures count { IfOk result (λ r. length r.items ≡ transition.now.choice_bits) }
{
    let bits = vec![in alloc; false; transition.choice_bits as usize]?;
    Ok(bits)
}

/// A copy of numbers.
fn copied(alloc: Global, numbers: &[u32]) -> Result<Vec<u32>, AllocError>
    ensures { IfOk result (λ r. r.items ≡ numbers.now) }
{
    let mut copy = Vec::new(alloc);
    copy.extend_from_slice(numbers)?;
    Ok(copy)
}

/// The same transition, where a run starts in a state.
fn begun(alloc: Global, transition: &Transition, start: Vec<bool>) -> Result<Transition, AllocError>
    requires { length start.items ≡ transition.now.state_bits }
    ensures bits { IfOk result (λ t. t.choice_bits ≡ transition.now.choice_bits) }
    ensures start { IfOk result (λ t. t.start ≡ start.items) }
{
    let circuit = transition.circuit.swept(alloc)?;
    let switches = copied(alloc, transition.switches.as_slice())?;
    let input_widths = copied(alloc, transition.input_widths.as_slice())?;
    let output_widths = copied(alloc, transition.output_widths.as_slice())?;
    Ok(Transition {
        circuit,
        choice_bits: transition.choice_bits,
        state_bits: transition.state_bits,
        input_bits: transition.input_bits,
        start,
        switches,
        input_widths,
        output_widths,
    })
}

/// The transition whose runs start where the run of the design as it is stands before a row of a table.
pub(crate) fn begun_before(
    alloc: Global,
    transition: &Transition,
    table: &Table,
    row: usize,
) -> Result<Transition, AllocError>
    ensures bits { IfOk result (λ t. t.choice_bits ≡ transition.now.choice_bits) }
    ensures start { IfOk result (λ t. t.start ≡ state_after transition.now (off transition.now) transition.now.start (take row (plain_table table.now).inputs)) }
{
    let bits = switches_off(alloc, transition)?;
    let start = state_before(alloc, transition, table, bits.as_slice(), row)?;
    let there = begun(alloc, transition, start)?;
    Ok(there)
}
