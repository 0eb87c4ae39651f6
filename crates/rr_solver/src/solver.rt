//! The solver.
ghost use Rattle.std.specs.Prelude.{◌≡◌, ℕ, ◌+◌, ◌^◌, ◌<◌, ◌≤◌, ◌++◌, ◌∷◌, [], All, length, IfOk, OnOk, OnErr, IsErr, Ok};
ghost use Rattle.rr_cnf.specs.Clauses.{IsWithin};
ghost use Rattle.rr_cnf.specs.Partial.{Determined};
ghost use Rattle.rr_derive.specs.Fresh.{Fresh};
ghost use Rattle.rr_solver.specs.Searches.{HaveOwnIds, IsLogOf, IsModel, IsNewId, Same, SteppedIs, held_of};

use crate::engine::{Engine, Status, Stepped};
use rr_cnf::{Clause, Formula};
use rr_derive::Journal;
use std::alloc::{AllocError, Global};
use std::marker::Model;

/// One member of a search: it decides inputs, propagates, and learns a clause from each false one.
#[derive(Drop)]
pub struct Solver<'f> {
    engine: Engine<'f>,
}

impl<'f> Model for Solver<'f> {
    ghost use Rattle.rr_solver.specs.Searches.{Search};
    ghost use Rattle.rr_solver.specs.Engines.{Ready, Whole, search_of};

    ghost Value = { Search };

    ghost view = { λ s. search_of s.engine };

    ghost invariant = { λ s. Whole s.engine × Ready s.engine };
}

impl<'f> Solver<'f> {
    /// A solver for the formula that decides only the variables 1 to `inputs`, which determine all
    /// others. The member's number, from 1, varies the order of its decisions.
    pub fn new(
        alloc: Global,
        formula: &'f Formula,
        inputs: u64,
        member: u32,
    ) -> Result<Solver<'f>, AllocError>
        requires few { inputs ≤ formula.now.vars }
        requires determined { Determined formula.now inputs }
        ensures { IfOk result (λ s. s ≡ record { formula = formula.now; inputs = inputs; lines = []; handed = []; depth = 0; status = Status.Running; bits = [] }) }
    {
        Ok(Solver {
            engine: Engine::new(alloc, formula, inputs, member)?,
        })
    }

    /// Decides and propagates until a clause is false, and learns one from it, which is fresh; or ends,
    /// where values that satisfy the formula are found, or the empty clause is learned. After an end or
    /// want of memory it answers the same again.
    pub fn conflict_step(&mut self) -> Result<Stepped, AllocError>
        ensures same { Same self.old self.new }
        ensures running { self.old.status ≡ Status.Running → IfOk result (SteppedIs self.old self.new) }
        ensures model { self.old.status ≡ Status.Model → (result ≡ Ok Stepped.Model) × (self.new ≡ self.old) }
        ensures refuted { self.old.status ≡ Status.Refuted → (result ≡ Ok Stepped.Refuted) × (self.new ≡ self.old) }
        ensures failed { self.old.status ≡ Status.Failed → IsErr result × (self.new ≡ self.old) }
        ensures err { OnErr result ((self.new.status ≡ Status.Failed) × (self.new.lines ≡ self.old.lines)) }
    {
        match self.engine.status {
            Status::Running => self.engine.step(),
            Status::Model => Ok(Stepped::Model),
            Status::Refuted => Ok(Stepped::Refuted),
            Status::Failed => Err(AllocError),
        }
    }

    /// Holds a clause that was handed over, under an id above all others, while nothing is decided. The
    /// solver stays the same where memory runs out.
    pub fn import(&mut self, id: u64, clause: &Clause) -> Result<(), AllocError>
        requires depth { self.old.depth ≡ 0 }
        requires id { IsNewId self.old.formula self.old.lines self.old.handed id }
        requires small { id < 2 ^ 62 }
        requires within { All (IsWithin self.old.formula.vars) clause.now }
        ensures ok { OnOk result (self.new ≡ record self.old { handed = self.old.handed ++ record { id = id; clause = clause.now } ∷ [] }) }
        ensures err { OnErr result (self.new ≡ self.old) }
    {
        self.engine.import(id, clause)
    }

    /// Takes every decision back.
    pub fn restart(&mut self)
        ensures { self.new ≡ record self.old { depth = 0 } }
    {
        self.engine.restart();
    }

    /// The lines that were learned, in order.
    pub fn journal(&self) -> &Journal
        ensures lines { result.now.lines ≡ self.now.lines }
        ensures log { IsLogOf self.now }
        ensures ids { HaveOwnIds self.now.formula self.now.lines self.now.handed }
        ensures fresh { (self.now.status ≡ Status.Refuted → ⊥) → Fresh self.now.formula.clauses self.now.inputs (held_of self.now.handed self.now.lines) self.now.lines }
    {
        let _lines = self.engine.journal.lines();
        &self.engine.journal
    }

    /// The greatest id so far: of the formula's clauses, of the lines, and of what was handed over.
    pub fn last_id(&self) -> u64
        ensures formula { length self.now.formula.clauses ≤ result }
        ensures lines { All (λ s. s.id ≤ result) self.now.lines }
        ensures handed { All (λ h. h.id ≤ result) self.now.handed }
    {
        self.engine.last
    }

    /// The values that satisfy the formula, by variable from 1, once a step has found them.
    pub fn assignment(&self) -> &[bool]
        requires { self.now.status ≡ Status.Model }
        ensures bits { result.now ≡ self.now.bits }
        ensures model { IsModel self.now.formula result.now }
    {
        self.engine.assignment.as_slice()
    }

    /// The lines that were learned, by value.
    pub fn into_journal(self) -> Journal
        ensures lines { result.lines ≡ self.entry.lines }
        ensures log { IsLogOf self.entry }
        ensures ids { HaveOwnIds self.entry.formula self.entry.lines self.entry.handed }
        ensures fresh { (self.entry.status ≡ Status.Refuted → ⊥) → Fresh self.entry.formula.clauses self.entry.inputs (held_of self.entry.handed self.entry.lines) self.entry.lines }
    {
        let Solver { engine } = self;
        let Engine { journal, .. } = engine;
        let _lines = journal.lines();
        journal
    }

    /// The values that satisfy the formula, by value, once a step has found them.
    pub fn into_assignment(self) -> Vec<bool>
        ensures bits { result.items ≡ self.entry.bits }
        ensures model { self.entry.status ≡ Status.Model → IsModel self.entry.formula result.items }
    {
        let Solver { engine } = self;
        let Engine { assignment, .. } = engine;
        assignment
    }
}
