//! Choices that are tested over the whole table.

ghost use Rattle.std.specs.Prelude.{◌≡◌, ◌≤◌, ◌<◌, ◌+◌, ◌^◌, ◌↔◌, All, IfOk, IsTrue, length};
ghost use Rattle.rr_choice.specs.Choices.{IsChoice, cost as cost_of};
ghost use Rattle.rr_choice.specs.Sites.{IsSiteList};
ghost use Rattle.rr_transition.specs.Cycles.{Design};
ghost use Rattle.rr_unroll.specs.Matches.{Matches};
ghost use Rattle.rr_search.specs.Answers.{IsOf, IsTask, Mends, plain_choices, task_of};
ghost use Rattle.rr_search.specs.Replies.{IsCheapest};

use crate::answer::Job;
use rr_choice::{Choice, cost};
use rr_choice_bits::encode;
use rr_unroll::judges;
use std::alloc::{AllocError, Global};

/// The number of sites. Each has a switch, so there are no more of them than choice bits.
pub(crate) fn site_count(job: &Job) -> u32
    requires { IsTask (task_of job.now) }
    ensures value { result ≡ length job.now.list.now }
    ensures few { length job.now.list.now < 2 ^ 32 }
    ensures listed { IsSiteList job.now.list.now }
{
    let transition = job.transition;
    let sites = job.list.sites();
    sites.len().min(transition.choice_bits as usize) as u32
}

/// The cost of a choice, which is no more than the number of sites.
pub(crate) fn cost_in(job: &Job, choice: &Choice) -> u32
    requires task { IsTask (task_of job.now) }
    requires choice { IsChoice job.now.list.now choice.now.picks.items }
    ensures value { result ≡ cost_of choice.now.picks.items }
    ensures most { result ≤ length job.now.list.now }
    ensures listed { IsSiteList job.now.list.now }
{
    let sites = site_count(job);
    cost(choice).min(sites)
}

/// Whether the design matches as it is.
pub(crate) fn matches(alloc: Global, job: &Job) -> Result<bool, AllocError>
    requires { IsTask (task_of job.now) }
    ensures { IfOk result (λ r. (j : Design) → IsOf (task_of job.now) j → (IsTrue r ↔ Matches j (task_of job.now).table)) }
{
    let transition = job.transition;
    let bits = vec![in alloc; false; transition.choice_bits as usize]?;
    let same = judges(alloc, transition, job.table, bits.as_slice())?;
    Ok(same)
}

/// Whether a choice mends the design.
fn mends(alloc: Global, job: &Job, choice: &Choice) -> Result<bool, AllocError>
    requires task { IsTask (task_of job.now) }
    requires choice { IsChoice job.now.list.now choice.now.picks.items }
    ensures { IfOk result (λ r. (j : Design) → IsOf (task_of job.now) j → (IsTrue r ↔ Mends j (task_of job.now) choice.now.picks.items)) }
{
    let bits = encode(alloc, job.list, choice)?;
    let mended = judges(alloc, job.transition, job.table, bits.as_slice())?;
    Ok(mended)
}

/// The place of the cheapest proposal that mends the design, of those up to and with one at `k`, where
/// `best` is that of those before.
fn cheaper(
    alloc: Global,
    job: &Job,
    proposals: &[Choice],
    best: Option<usize>,
    k: usize,
) -> Result<Option<usize>, AllocError>
    requires task { IsTask (task_of job.now) }
    requires proposals { All (IsChoice job.now.list.now) (plain_choices proposals.now) }
    requires inside { k < length proposals.now }
    requires best { IsCheapest (task_of job.now) (plain_choices proposals.now) k best }
    ensures { IfOk result (IsCheapest (task_of job.now) (plain_choices proposals.now) (k + 1)) }
{
    let mended = mends(alloc, job, &proposals[k])?;
    if !mended {
        return Ok(best);
    }
    match best {
        None => Ok(Some(k)),
        Some(other) => {
            if cost_in(job, &proposals[other]) <= cost_in(job, &proposals[k]) {
                Ok(best)
            } else {
                Ok(Some(k))
            }
        }
    }
}

/// The place of the cheapest proposal that mends the design.
pub(crate) fn cheapest(
    alloc: Global,
    job: &Job,
    proposals: &[Choice],
) -> Result<Option<usize>, AllocError>
    requires task { IsTask (task_of job.now) }
    requires proposals { All (IsChoice job.now.list.now) (plain_choices proposals.now) }
    ensures { IfOk result (IsCheapest (task_of job.now) (plain_choices proposals.now) (length proposals.now)) }
{
    let mut best = None;
    for k in 0..proposals.len() {
        best = cheaper(alloc, job, proposals, best, k)?;
    }
    Ok(best)
}
