//! The check of a whole proof, in parts that are checked at once (LRAT without RAT lines). It is
//! right where its verdict is that of the additions in order: accepted, the least one that fails the
//! hint check, or no empty clause; for every number of workers. It stands on the hint check of
//! `rr_derive`.
#![tactic(auto)]

ghost use Rattle.std.specs.Prelude.{◌≡◌, ◌<◌, ◌≤◌, All, IfOk, length};
ghost use Rattle.rr_cnf.specs.Clauses.{IsUnsatisfiable, IsWithin};
ghost use Rattle.rr_check.specs.Verdicts.{VerdictIs};

mod laws;
mod part;
mod verdict;

pub use laws::one_verdict;
use part::check_parts;
pub use part::{Part, parts_of};
use rr_cnf::Formula;
use rr_derive::Journal;
use std::alloc::{AllocError, Global};
use std::thread;
use std::thread::Threads;
pub use verdict::Verdict;
use verdict::joined;

/// Checks the additions of a journal against a formula (LRAT without RAT lines), in at most
/// `workers` parts at once, which are from 1 to 64. The parts have about equally many hints, and
/// each has a workspace of its own. The ids of the journal are above those of the formula, and its
/// variables are the formula's. The verdict is the same for every number of workers. The error is
/// want of memory.
pub fn first_bad<R: Threads + Sync>(
    rt: &R,
    alloc: Global,
    formula: &Formula,
    journal: &Journal,
    workers: u32,
) -> Result<Verdict, AllocError>
    requires ids { All (λ s. length formula.now.clauses < s.id) journal.now.lines }
    requires within { All (λ s. All (IsWithin formula.now.vars) s.clause) journal.now.lines }
    requires some_worker { 1 ≤ workers }
    requires few_workers { workers ≤ 64 }
    // The verdict is that of the definition, and where one is due, it is this one.
    ensures verdict { IfOk result (VerdictIs formula.now.clauses journal.now.lines) }
    ensures exact { (v : Verdict) → VerdictIs formula.now.clauses journal.now.lines v → IfOk result (λ w. w ≡ v) }
    // What an accepted proof means.
    ensures sound { IfOk result (λ v. v ≡ Verdict.Accepted → IsUnsatisfiable formula.now.clauses) }
{
    let parts = parts_of(alloc, journal.lines(), workers)?;
    let found = thread::map_chunks(
        rt,
        alloc,
        parts.as_slice(),
        1,
        &|_, chunk| check_parts(alloc, formula, journal, chunk),
    )?;
    joined(found.as_slice())
}
