//! A search by one member alone.
ghost use Rattle.std.specs.Prelude.{◌≤◌, IfOk};
ghost use Rattle.rr_cnf.specs.Partial.{Determined};
ghost use Rattle.rr_solver.specs.Outcomes.{OutcomeIs};

use crate::engine::Stepped;
use crate::solver::Solver;
use rr_cnf::Formula;
use rr_derive::Journal;
use std::alloc::{AllocError, Global};

/// How a search ends.
#[derive(Drop)]
pub enum Outcome {
    /// Values that satisfy the formula, by variable from 1.
    Model(Vec<bool>),
    /// Lines that refute the formula.
    Refuted(Journal),
    /// As many fresh lines as were to be learned.
    Spent(Journal),
}

/// Searches until the formula is satisfied or refuted, or `budget` lines are learned. Only the
/// variables 1 to `inputs` are decided, which determine all others.
pub fn solve(
    alloc: Global,
    formula: &Formula,
    inputs: u64,
    budget: u32,
) -> Result<Outcome, AllocError>
    requires few { inputs ≤ formula.now.vars }
    requires determined { Determined formula.now inputs }
    ensures { IfOk result (OutcomeIs formula.now inputs budget) }
{
    let mut solver = Solver::new(alloc, formula, inputs, 1)?;
    for _number in 0..budget {
        match solver.conflict_step()? {
            Stepped::Learned => {}
            Stepped::Model => return Ok(Outcome::Model(solver.into_assignment())),
            Stepped::Refuted => return Ok(Outcome::Refuted(solver.into_journal())),
        }
    }
    Ok(Outcome::Spent(solver.into_journal()))
}
