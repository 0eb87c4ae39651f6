//! Circuits of one cycle whose row of inputs is fixed, and those of all rows, made at once.

ghost use Rattle.std.specs.Prelude.{◌≡◌, ℕ, List, ◌*◌, ◌+◌, ◌<◌, ◌≤◌, IfOk, drop, flat_map, length, map, take};
ghost use Rattle.rr_unroll.specs.Fixed.{AreFixed, IsFixed, made};

use crate::rows::numbers_at;
use crate::wires::{followed, inputs};
use crate::words::words;
use rr_circuit::{Builder, Circuit};
use rr_transition::Transition;
use std::alloc::{AllocError, Global};
use std::thread;
use std::thread::Threads;

/// The circuit of a cycle in which the inputs of a row have these bits: from the bits of a choice and
/// of a state to those of the next state and of the outputs. What the bits make constant is folded,
/// and the gates that are not needed any more are left out.
pub fn fixed(alloc: Global, transition: &Transition, row: &[bool]) -> Result<Circuit, AllocError>
    requires { length row.now ≡ transition.now.input_bits }
    ensures { IfOk result (IsFixed transition.now row.now) }
{
    let count = transition.choice_bits + transition.state_bits;
    let mut b = Builder::new(alloc, count)?;
    let free = inputs(alloc, &b, count)?;
    let all = followed(alloc, &b, free.as_slice(), row)?;
    let outputs = transition.circuit.copy_onto(alloc, &mut b, all.as_slice())?;
    let circuit = b.finish(outputs);
    let swept = circuit.swept(alloc)?;
    Ok(swept)
}

// The fixed circuits of some rows.
fn fixed_rows(
    alloc: Global,
    transition: &Transition,
    rows: &[Vec<u128>],
) -> Result<Vec<Circuit>, AllocError>
    ensures { IfOk result (λ r. AreFixed transition.now (map (λ v. v.items) rows.now) r.items) }
{
    let mut circuits = Vec::with_capacity(alloc, rows.len())?;
    for r in 0..rows.len() {
        let numbers = numbers_at(rows, r);
        let row = words(alloc, transition.input_widths.as_slice(), numbers)?;
        let circuit = fixed(alloc, transition, row.as_slice())?;
        circuits.push(circuit)?;
    }
    Ok(circuits)
}

// The circuits of each part, where none wants memory.
fn all_made(
    alloc: Global,
    all: Vec<Result<Vec<Circuit>, AllocError>>,
) -> Result<Vec<Vec<Circuit>>, AllocError>
    ensures { IfOk result (λ v. map made v.items ≡ all.items) }
{
    let mut parts = Vec::new(alloc);
    for part in all {
        parts.push(part?)?;
    }
    Ok(parts)
}

// The circuits of all parts, in their order.
fn joined(alloc: Global, parts: Vec<Vec<Circuit>>) -> Result<Vec<Circuit>, AllocError>
    ensures { IfOk result (λ v. v.items ≡ flat_map (λ p. p.items) parts.items) }
{
    let mut circuits = Vec::new(alloc);
    for part in parts {
        let mut part = part;
        circuits.append(&mut part)?;
    }
    Ok(circuits)
}

/// The fixed circuits of all rows, in their order, of which so many workers make a part each.
pub(crate) fn fixed_copies<R: Threads + Sync>(
    rt: &R,
    alloc: Global,
    transition: &Transition,
    rows: &[Vec<u128>],
    workers: u32,
) -> Result<Vec<Circuit>, AllocError>
    requires { 1 ≤ workers }
    ensures { IfOk result (λ r. AreFixed transition.now (map (λ v. v.items) rows.now) r.items) }
{
    let size = rows.len().div_ceil(workers as usize).max(1);
    let all = thread::map_chunks(
        rt,
        alloc,
        rows,
        size,
        &|_, chunk| fixed_rows(alloc, transition, chunk),
    )?;
    let parts = all_made(alloc, all)?;
    let circuits = joined(alloc, parts)?;
    Ok(circuits)
}
