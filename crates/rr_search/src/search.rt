//! The search for a least repair: bounds on the cost, downwards.

ghost use Rattle.std.specs.Prelude.{◌≡◌, ◌≤◌, ◌↔◌, All, IfOk};
ghost use Rattle.rr_choice.specs.Choices.{IsChoice, cost};
ghost use Rattle.rr_transition.specs.Cycles.{Design};
ghost use Rattle.rr_unroll.specs.Matches.{Matches};
ghost use Rattle.rr_search.specs.Answers.{AnswerIs, IsOf, IsOpenBelow, IsTask, IsUnchanged, Mends, plain_choices, task_of};
ghost use Rattle.rr_search.specs.Replies.{AreFaulty, IsMending};

use crate::answer::{Answer, Job};
use crate::asking::{Reply, ask};
use crate::judging::{cheapest, cost_in, matches, site_count};
use rr_choice::Choice;
use std::alloc::{AllocError, Global};
use std::thread::Threads;

/// From a choice that mends the design: asks for fewer changes until there are none.
fn lower<R: Threads + Sync>(
    rt: &R,
    alloc: Global,
    job: &Job,
    choice: Choice,
) -> Result<Answer, AllocError>
    requires task { IsTask (task_of job.now) }
    requires faulty { AreFaulty (task_of job.now) }
    requires choice { IsMending (task_of job.now) choice.picks.items }
    ensures answer { IfOk result (λ a. (j : Design) → IsOf (task_of job.now) j → AnswerIs (task_of job.now) j a) }
    ensures below { IfOk result (IsOpenBelow (cost choice.picks.items)) }
{
    let mut best = choice;
    'fewer: loop {
        let k = cost_in(job, &best);
        if k == 0 {
            // A choice that changes nothing makes the design itself.
            return Ok(Answer::Unchanged);
        }
        match ask(rt, alloc, job, k - 1)? {
            Reply::Mended(choice) => best = choice,
            Reply::Refuted(circuit, journal) => {
                return Ok(Answer::Repair {
                    choice: best,
                    k,
                    circuit,
                    journal,
                });
            }
            Reply::Open(circuit, journal) => {
                return Ok(Answer::Spent {
                    bound: k - 1,
                    circuit,
                    journal,
                    found: Some(best),
                });
            }
        }
    }
}

/// Asks for any number of changes, and then for fewer.
fn from_all<R: Threads + Sync>(rt: &R, alloc: Global, job: &Job) -> Result<Answer, AllocError>
    requires task { IsTask (task_of job.now) }
    requires faulty { AreFaulty (task_of job.now) }
    ensures { IfOk result (λ a. (j : Design) → IsOf (task_of job.now) j → AnswerIs (task_of job.now) j a) }
{
    let bound = site_count(job);
    match ask(rt, alloc, job, bound)? {
        Reply::Mended(choice) => {
            let answer = lower(rt, alloc, job, choice)?;
            Ok(answer)
        }
        Reply::Refuted(circuit, journal) => Ok(Answer::NoRepair { circuit, journal }),
        Reply::Open(circuit, journal) => Ok(Answer::Spent {
            bound,
            circuit,
            journal,
            found: None,
        }),
    }
}

/// From a copy of a choice that mends the design.
fn from_choice<R: Threads + Sync>(
    rt: &R,
    alloc: Global,
    job: &Job,
    choice: &Choice,
) -> Result<Answer, AllocError>
    requires task { IsTask (task_of job.now) }
    requires faulty { AreFaulty (task_of job.now) }
    requires choice { IsMending (task_of job.now) choice.now.picks.items }
    ensures answer { IfOk result (λ a. (j : Design) → IsOf (task_of job.now) j → AnswerIs (task_of job.now) j a) }
    ensures below { IfOk result (IsOpenBelow (cost choice.now.picks.items)) }
{
    let mut picks = Vec::new(alloc);
    picks.extend_from_slice(choice.picks.as_slice())?;
    let answer = lower(rt, alloc, job, Choice { picks })?;
    Ok(answer)
}

/// The least repair of the design that a job stands for. The design as it is is tested first, and then
/// each proposal, over the whole table. Then bounds are asked downwards, from the cost of the cheapest
/// proposal that mends the design less 1, or else from the number of sites; a choice that satisfies a
/// question mends the design, and the next bound is its cost less 1. One question stands at a time. Where
/// its lines are spent, the cheapest choice that was found to mend the design goes with the answer.
///
/// What is answered holds of every design that has the sites and the transition. The proposals are
/// choices of the sites; what is left open is below the cost of each that mends the design.
pub fn least<R: Threads + Sync>(
    rt: &R,
    alloc: Global,
    job: &Job,
    proposals: &[Choice],
) -> Result<Answer, AllocError>
    requires task { IsTask (task_of job.now) }
    requires proposals { All (IsChoice job.now.list.now) (plain_choices proposals.now) }
    ensures answer { IfOk result (λ a. (j : Design) → IsOf (task_of job.now) j → AnswerIs (task_of job.now) j a) }
    ensures unchanged { IfOk result (λ a. (j : Design) → IsOf (task_of job.now) j → (IsUnchanged a ↔ Matches j (task_of job.now).table)) }
    ensures below { IfOk result (λ a. (j : Design) → IsOf (task_of job.now) j → All (λ c. Mends j (task_of job.now) c → IsOpenBelow (cost c) a) (plain_choices proposals.now)) }
{
    let same = matches(alloc, job)?;
    if same {
        return Ok(Answer::Unchanged);
    }
    match cheapest(alloc, job, proposals)? {
        Some(place) => {
            let answer = from_choice(rt, alloc, job, &proposals[place])?;
            Ok(answer)
        }
        None => {
            let answer = from_all(rt, alloc, job)?;
            Ok(answer)
        }
    }
}
