//! One question.

ghost use Rattle.std.specs.Prelude.{◌≡◌, ◌<◌, IfOk, drop, length, take};
ghost use Rattle.rr_choice.specs.Choices.{decode as decode_of, total_bits};
ghost use Rattle.rr_choice.specs.Sites.{IsSiteList};
ghost use Rattle.rr_search.specs.Answers.{IsTask, task_of};
ghost use Rattle.rr_search.specs.Replies.{ReplyIs};

use crate::answer::Job;
use rr_choice::{Choice, decode};
use rr_circuit::Circuit;
use rr_derive::Journal;
use rr_members::{OpenGate, solve};
use rr_solver::Outcome;
use rr_tseitin::formula_of;
use rr_unroll::question;
use std::alloc::{AllocError, Global};
use std::thread::Threads;

/// The outcome of a question.
#[derive(Drop)]
pub(crate) enum Reply {
    /// A choice within the bound mends the design.
    Mended(Choice),
    /// None does: the circuit, and lines that refute its formula.
    Refuted(Circuit, Journal),
    /// It is open: the circuit, and the lines that were learned.
    Open(Circuit, Journal),
}

/// The choice that the values of variables write, from variable 1 on; the value of no variable stands
/// first.
fn chosen(alloc: Global, job: &Job, values: &[bool]) -> Result<Choice, AllocError>
    requires bits { job.now.transition.now.choice_bits ≡ total_bits job.now.list.now }
    requires room { total_bits job.now.list.now < length values.now }
    ensures { IfOk result (λ c. c.picks.items ≡ decode_of job.now.list.now (take (total_bits job.now.list.now) (drop 1 values.now))) }
{
    let transition = job.transition;
    let count = transition.choice_bits as usize;
    let choice = decode(alloc, job.list, &values[1..][..count])?;
    Ok(choice)
}

/// Asks whether at most `bound` changes mend the design.
pub(crate) fn ask<R: Threads + Sync>(
    rt: &R,
    alloc: Global,
    job: &Job,
    bound: u32,
) -> Result<Reply, AllocError>
    requires task { IsTask (task_of job.now) }
    requires listed { IsSiteList job.now.list.now }
    ensures { IfOk result (ReplyIs (task_of job.now) bound) }
{
    let circuit = question(rt, alloc, job.transition, job.table, bound, job.members)?;
    let formula = formula_of(alloc, &circuit)?;
    let inputs = circuit.inputs;
    match solve(
        rt,
        alloc,
        &formula,
        inputs,
        job.members,
        job.budget,
        &OpenGate,
    )? {
        Outcome::Model(values) => {
            let choice = chosen(alloc, job, values.as_slice())?;
            Ok(Reply::Mended(choice))
        }
        Outcome::Refuted(journal) => Ok(Reply::Refuted(circuit, journal)),
        Outcome::Spent(journal) => Ok(Reply::Open(circuit, journal)),
    }
}
