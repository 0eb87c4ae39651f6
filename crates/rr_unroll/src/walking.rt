//! The states that a transition comes to under one choice, by evaluation.

ghost use Rattle.std.specs.Prelude.{◌≡◌, ◌+◌, IfOk, OnOk, length, take};
ghost use Rattle.std.specs.List.{sum};
ghost use Rattle.rr_trace.specs.View.{plain_table};
ghost use Rattle.rr_transition.specs.Transitions.{cycle_bits};
ghost use Rattle.rr_unroll.specs.Walking.{state_after};

use crate::rows::numbers_at;
use crate::words::words;
use rr_trace::Table;
use rr_transition::Transition;
use std::alloc::{AllocError, Global};

/// The state that a run starts in.
pub(crate) fn first_state(alloc: Global, transition: &Transition) -> Result<Vec<bool>, AllocError>
    ensures state { IfOk result (λ r. r.items ≡ transition.now.start) }
    ensures width { IfOk result (λ r. length r.items ≡ transition.now.state_bits) }
{
    let mut state = Vec::new(alloc);
    state.extend_from_slice(transition.start.as_slice())?;
    Ok(state)
}

// The next state's bits and then the outputs' bits.
fn cycle(
    alloc: Global,
    transition: &Transition,
    choice: &[bool],
    state: &[bool],
    row: &[u128],
) -> Result<Vec<bool>, AllocError>
    requires choice { length choice.now ≡ transition.now.choice_bits }
    requires state { length state.now ≡ transition.now.state_bits }
    ensures bits { IfOk result (λ r. r.items ≡ cycle_bits transition.now choice.now state.now row.now) }
    ensures width { IfOk result (λ r. length r.items ≡ transition.now.state_bits + sum transition.now.output_widths) }
{
    let bits = words(alloc, transition.input_widths.as_slice(), row)?;
    let mut inputs = Vec::with_capacity(alloc, choice.len() + state.len() + bits.len())?;
    inputs.extend_from_slice(choice)?;
    inputs.extend_from_slice(state)?;
    inputs.extend_from_slice(bits.as_slice())?;
    let out = transition.circuit.eval(alloc, inputs.as_slice())?;
    Ok(out)
}

/// Moves the state by a row. It answers what the cycle gives: the next state's bits and then the outputs' bits.
pub(crate) fn turn(
    alloc: Global,
    transition: &Transition,
    choice: &[bool],
    state: &mut Vec<bool>,
    row: &[u128],
) -> Result<Vec<bool>, AllocError>
    requires choice { length choice.now ≡ transition.now.choice_bits }
    requires state { length state.old.items ≡ transition.now.state_bits }
    ensures state { OnOk result (state.new.items ≡ take transition.now.state_bits (cycle_bits transition.now choice.now state.old.items row.now)) }
    ensures state_width { OnOk result (length state.new.items ≡ transition.now.state_bits) }
    ensures bits { IfOk result (λ r. r.items ≡ cycle_bits transition.now choice.now state.old.items row.now) }
    ensures width { IfOk result (λ r. length r.items ≡ transition.now.state_bits + sum transition.now.output_widths) }
{
    let bits = cycle(alloc, transition, choice, state.as_slice(), row)?;
    let (next, _) = bits.as_slice().split_at(transition.state_bits as usize);
    state.clear();
    state.extend_from_slice(next)?;
    Ok(bits)
}

/// The state before a row of a table, of the run under a choice's bits from the state on that a run starts
/// in; past the last row it is the state after all of them.
pub fn state_before(
    alloc: Global,
    transition: &Transition,
    table: &Table,
    choice: &[bool],
    row: usize,
) -> Result<Vec<bool>, AllocError>
    requires { length choice.now ≡ transition.now.choice_bits }
    ensures state { IfOk result (λ r. r.items ≡ state_after transition.now choice.now transition.now.start (take row (plain_table table.now).inputs)) }
    ensures width { IfOk result (λ r. length r.items ≡ transition.now.state_bits) }
{
    let rows = table.inputs.as_slice();
    let end = row.min(table.inputs.len());
    let mut state = first_state(alloc, transition)?;
    for r in 0..end {
        let numbers = numbers_at(rows, r);
        turn(alloc, transition, choice, &mut state, numbers)?;
    }
    Ok(state)
}
