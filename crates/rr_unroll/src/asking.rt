//! The question.

ghost use Rattle.std.specs.Prelude.{◌≡◌, ℕ, ◌≤◌, [], ◌∷◌, ◌++◌, Bool, List, IfOk, length};
ghost use Rattle.rr_circuit.specs.Sweeps.{AreUsed};
ghost use Rattle.rr_circuit.specs.Values.{output_values, given};
ghost use Rattle.rr_count.specs.Counts.{is_at_most};
ghost use Rattle.rr_choice.specs.Sites.{Site};
ghost use Rattle.rr_trace.specs.View.{plain_table};
ghost use Rattle.rr_transition.specs.Cycles.{Cycle, Design};
ghost use Rattle.rr_unroll.specs.Faithful.{Faithful};
ghost use Rattle.rr_unroll.specs.Questions.{judged as judged_of};
ghost use Rattle.rr_transition.specs.Transitions.{switched as switched_of};

use crate::copies::fixed_copies;
use crate::rows::judged;
use crate::wires::{inputs, switched};
use rr_circuit::{Builder, Circuit};
use rr_count::at_most;
use rr_trace::Table;
use rr_transition::Transition;
use std::alloc::{AllocError, Global};
use std::thread::Threads;

/// The circuit over the bits of a choice that asks whether its instance runs as a table expects, from
/// the state on that a run starts in, and whether its cost is at most a bound. It has one output for
/// each known expected bit, row by row, output by output and lowest bit first, and one output more. The
/// circuits of its rows are made at once, in a part for each worker, of which there are from 1 to 64; it
/// is the same for every number of workers. It has no gate that no output needs.
pub fn question<R: Threads + Sync>(
    rt: &R,
    alloc: Global,
    transition: &Transition,
    table: &Table,
    bound: u32,
    workers: u32,
) -> Result<Circuit, AllocError>
    requires some_worker { 1 ≤ workers }
    requires few_workers { workers ≤ 64 }
    ensures inputs { IfOk result (λ c. c.netlist.inputs ≡ transition.now.choice_bits) }
    ensures outputs { IfOk result (λ c. (bits : List Bool) → length bits ≡ transition.now.choice_bits → output_values c (given bits)
        ≡ judged_of transition.now bits transition.now.start (plain_table table.now).inputs (plain_table table.now).expected
        ++ is_at_most bound (switched_of transition.now.switches bits) ∷ []) }
    ensures faithful { IfOk result (λ c. (j : Design) (sites : List Site) → Cycle j sites transition.now → Faithful c j sites (plain_table table.now) bound) }
    ensures used { IfOk result AreUsed }
{
    let circuits = fixed_copies(rt, alloc, transition, table.inputs.as_slice(), workers)?;
    let mut b = Builder::new(alloc, transition.choice_bits)?;
    let choice = inputs(alloc, &b, transition.choice_bits)?;
    let mut outputs = judged(
        alloc,
        &mut b,
        transition,
        circuits.as_slice(),
        table,
        choice.as_slice(),
    )?;
    let switches = switched(alloc, &b, choice.as_slice(), transition.switches.as_slice())?;
    let cheap = at_most(alloc, &mut b, switches.as_slice(), bound)?;
    outputs.push(cheap)?;
    let circuit = b.finish(outputs);
    let swept = circuit.swept(alloc)?;
    Ok(swept)
}
