//! A search for one clause at a time.
ghost use Rattle.std.specs.Prelude.{◌≡◌, ℕ, ◌+◌, ◌-◌, ◌*◌, ◌^◌, ◌<◌, ◌≤◌, ◌++◌, ◌∷◌, [], ◌⊎◌, All, Contains, length, List, IfOk, IfSome, OnOk, OnErr, IsErr, Option, Some, None, MatchOption, take, true, false};
ghost use Rattle.rr_cnf.specs.Clauses.{IsWithin, Literal, negated};
ghost use Rattle.rr_cnf.specs.Partial.{Determined, IsAssigned, IsFalse, IsQuiet};
ghost use Rattle.rr_derive.specs.Derive.{Passes};
ghost use Rattle.rr_trail.specs.Trails.{Entry, entry, lits};
ghost use Rattle.rr_watch.specs.Watches.{IsBack, Named, PropagatedIs, bare};
ghost use Rattle.rr_analysis.specs.Analysis.{AreNamed, IsConflict, Learns};
ghost use Rattle.rr_analysis.specs.OpenInputs.{IsOpenInput};
ghost use Rattle.rr_solver.specs.Searches.{IsNewId, Same, SteppedIs};
ghost use Rattle.rr_solver.specs.Engines.{Agrees, Moves, Ready, Whole, search_of};

use crate::restarts::Restarts;
use rr_analysis::{Chains, Learned, Order, Workspace, analyze};
use rr_cnf::{Clause, Formula, Lit};
use rr_derive::Journal;
use rr_watch::{Propagated, Watch};
use std::alloc::{AllocError, Global};

/// How a search stands.
#[derive(Debug, Clone, Copy, PartialEq, Eq)]
pub enum Status {
    /// It goes on.
    Running,
    /// It has found values that satisfy the formula.
    Model,
    /// It has learned the empty clause.
    Refuted,
    /// It was out of memory once.
    Failed,
}

/// What a step did.
#[derive(Debug, Clone, Copy, PartialEq, Eq)]
pub enum Stepped {
    /// It learned one clause, which is fresh.
    Learned,
    /// It found values that satisfy the formula.
    Model,
    /// It learned the empty clause.
    Refuted,
}

/// The clauses at hand, the lines that were learned, and where the search stands.
#[derive(Drop)]
pub(crate) struct Engine<'f> {
    alloc: Global,
    pub(crate) watch: Watch<'f>,
    pub(crate) journal: Journal,
    order: Order,
    work: Workspace,
    chains: Chains,
    restarts: Restarts,
    inputs: u64,
    /// So many of the clauses at hand are the formula, the first ones.
    count: u64,
    /// The greatest id of a clause at hand or a line.
    pub(crate) last: u64,
    /// The places of the clauses that were handed over.
    handed: Vec<usize>,
    pub(crate) status: Status,
    /// The values of the variables, once they satisfy the formula.
    pub(crate) assignment: Vec<bool>,
}

/// The most variables, so that their places in a trail fit 32 bits.
const MOST_VARS: u64 = 4_294_967_294;

/// An input that has no value, if there is one.
pub fn open_input(watch: &Watch<'_>, order: &mut Order, inputs: u64) -> Option<Lit>
    requires few { inputs ≤ watch.now.vars }
    requires room { watch.now.vars < 2 ^ 62 }
    ensures { MatchOption result ((v : ℕ) → 1 ≤ v → v ≤ inputs → IsAssigned (lits watch.now.trail) v) (IsOpenInput (lits watch.now.trail) inputs) }
{
    if let Some(lit) = order.next_open(watch, inputs) {
        return Some(lit);
    }
    for index in 0..inputs {
        let lit = Lit::new(index + 1, true);
        if watch.value(lit).is_none() {
            return Some(lit);
        }
    }
    None
}

/// The values of the variables, by their numbers.
pub fn bits_of(alloc: Global, watch: &Watch<'_>) -> Result<Vec<bool>, AllocError>
    requires room { watch.now.vars < 2 ^ 62 }
    ensures long { IfOk result (λ v. length v.items ≡ watch.now.vars + 1) }
    ensures agrees { IfOk result (λ v. Agrees v.items watch.now.vars (lits watch.now.trail)) }
{
    let mut bits = Vec::new(alloc);
    bits.push(false)?;
    for index in 0..watch.vars() {
        bits.push(is_true(watch, index + 1))?;
    }
    Ok(bits)
}

/// Whether the variable is true.
fn is_true(watch: &Watch<'_>, var: u64) -> bool
    requires room { watch.now.vars < 2 ^ 62 }
    requires low { 1 ≤ var }
    requires high { var ≤ watch.now.vars }
    ensures positive { Contains (lits watch.now.trail) record { var = var; negative = false } → result ≡ true }
    ensures negative { Contains (lits watch.now.trail) record { var = var; negative = true } → result ≡ false }
{
    let _trail = watch.trail();
    match watch.value(Lit::new(var, false)) {
        Some(value) => value,
        None => false,
    }
}

/// Tells the order which literals will lose their values on the way back to a level.
pub fn release(watch: &Watch<'_>, order: &mut Order, level: u32) {
    let trail = watch.trail();
    let mut place = trail.len();
    while place > 0 {
        place -= 1;
        let lit = trail[place];
        if watch.level(lit) <= level {
            return;
        }
        order.release(lit);
    }
}

impl<'f> Engine<'f> {
    /// Holds the formula, with nothing learned.
    pub(crate) fn new(
        alloc: Global,
        formula: &'f Formula,
        inputs: u64,
        member: u32,
    ) -> Result<Engine<'f>, AllocError>
        requires few { inputs ≤ formula.now.vars }
        requires determined { Determined formula.now inputs }
        ensures whole { IfOk result Whole }
        ensures ready { IfOk result Ready }
        ensures search { IfOk result (λ e. search_of e ≡ record { formula = formula.now; inputs = inputs; lines = []; handed = []; depth = 0; status = Status.Running; bits = [] }) }
    {
        let vars = formula.vars();
        let count = formula.len();
        if vars > MOST_VARS {
            return Err(AllocError);
        }
        if count == u64::MAX {
            return Err(AllocError);
        }
        let watch = Watch::new(alloc, formula)?;
        Ok(Engine {
            alloc,
            watch,
            journal: Journal::new(alloc, count + 1),
            order: Order::new(alloc, inputs, member)?,
            work: Workspace::new(alloc, vars)?,
            chains: Chains::new(alloc, vars)?,
            restarts: Restarts::new(),
            inputs,
            count,
            last: count,
            handed: Vec::new(alloc),
            status: Status::Running,
            assignment: Vec::new(alloc),
        })
    }

    // Propagates.
    fn propagate(&mut self) -> Propagated
        requires { Whole self.old }
        ensures whole { Whole self.new }
        ensures result { PropagatedIs self.new.watch.clauses (lits self.new.watch.trail) result }
        ensures moves { Moves self.old self.new }
        ensures longer { length self.old.watch.trail ≤ length self.new.watch.trail }
    {
        self.watch.propagate()
    }

    // Decides an open input, where nothing is false or unit.
    fn decide(&mut self, lit: Lit)
        requires whole { Whole self.old }
        requires input { IsOpenInput (lits self.old.watch.trail) self.old.inputs lit }
        requires quiet { IsQuiet (bare self.old.watch.clauses) (lits self.old.watch.trail) }
        ensures whole { Whole self.new }
        ensures moves { Moves self.old self.new }
        ensures longer { length self.new.watch.trail ≡ length self.old.watch.trail + 1 }
        ensures room { length self.new.watch.trail ≤ self.new.watch.vars }
    {
        self.watch.decide(lit);
        self.order.decide(self.watch.depth(), lit);
        let _trail = self.watch.trail();
    }

    // Takes the values of the variables as the answer.
    fn finish(&mut self) -> Result<Stepped, AllocError>
        requires whole { Whole self.old }
        requires ready { Ready self.old }
        requires running { self.old.status ≡ Status.Running }
        requires quiet { IsQuiet (bare self.old.watch.clauses) (lits self.old.watch.trail) }
        requires assigned { (v : ℕ) → 1 ≤ v → v ≤ self.old.inputs → IsAssigned (lits self.old.watch.trail) v }
        ensures whole { Whole self.new }
        ensures ready { Ready self.new }
        ensures same { Same (search_of self.old) (search_of self.new) }
        ensures result { IfOk result (SteppedIs (search_of self.old) (search_of self.new)) }
        ensures kept { OnErr result (self.new.journal ≡ self.old.journal) }
        ensures going { OnErr result (self.new.status ≡ Status.Refuted → ⊥) }
    {
        let _trail = self.watch.trail();
        self.assignment = bits_of(self.alloc, &self.watch)?;
        self.status = Status::Model;
        Ok(Stepped::Model)
    }

    // The id of the next line.
    fn next_id(&self) -> Result<u64, AllocError>
        ensures { IfOk result (λ id. id ≡ self.now.last + 1) }
    {
        if self.last == u64::MAX {
            return Err(AllocError);
        }
        Ok(self.last + 1)
    }

    // Adds the empty clause.
    fn refute(&mut self, clause: Clause, hints: Vec<u64>) -> Result<Stepped, AllocError>
        requires whole { Whole self.old }
        requires ready { Ready self.old }
        requires running { self.old.status ≡ Status.Running }
        requires empty { clause ≡ [] }
        requires passes { Passes (Named self.old.watch.clauses) [] hints.items }
        requires named { AreNamed (Named self.old.watch.clauses) hints.items }
        ensures whole { Whole self.new }
        ensures ready { Ready self.new }
        ensures same { Same (search_of self.old) (search_of self.new) }
        ensures result { IfOk result (SteppedIs (search_of self.old) (search_of self.new)) }
        ensures kept { OnErr result (self.new.journal ≡ self.old.journal) }
        ensures going { OnErr result (self.new.status ≡ Status.Refuted → ⊥) }
    {
        let id = self.next_id()?;
        self.journal.push_at(id, clause, hints)?;
        self.last = id;
        self.status = Status::Refuted;
        Ok(Stepped::Refuted)
    }

    // Goes back, holds the learned clause and writes its line.
    fn keep(&mut self, learned: Learned) -> Result<Stepped, AllocError>
        requires whole { Whole self.old }
        requires ready { Ready self.old }
        requires running { self.old.status ≡ Status.Running }
        requires some { 0 < length learned.clause }
        requires conflict { (id : ℕ) × IsConflict self.old.watch id }
        requires learns { Learns self.old.watch learned.clause learned.hints.items learned.level }
        ensures whole { Whole self.new }
        ensures ready { Ready self.new }
        ensures same { Same (search_of self.old) (search_of self.new) }
        ensures result { IfOk result (SteppedIs (search_of self.old) (search_of self.new)) }
        ensures kept { OnErr result (self.new.journal ≡ self.old.journal) }
        ensures going { OnErr result (self.new.status ≡ Status.Refuted → ⊥) }
    {
        let Learned {
            clause,
            hints,
            level,
        } = learned;
        let id = self.next_id()?;
        let _trail = self.watch.trail();
        self.status = Status::Failed;
        release(&self.watch, &mut self.order, level);
        self.watch.back(level);
        self.last = id;
        let _kept = self.watch.trail();
        self.watch.add(id, &clause)?;
        self.journal.push_at(id, clause, hints)?;
        self.status = Status::Running;
        Ok(Stepped::Learned)
    }

    // Learns from a false clause.
    fn learn(&mut self, id: u64) -> Result<Stepped, AllocError>
        requires whole { Whole self.old }
        requires ready { Ready self.old }
        requires running { self.old.status ≡ Status.Running }
        requires conflict { IsConflict self.old.watch id }
        ensures whole { Whole self.new }
        ensures ready { Ready self.new }
        ensures same { Same (search_of self.old) (search_of self.new) }
        ensures result { IfOk result (SteppedIs (search_of self.old) (search_of self.new)) }
        ensures kept { OnErr result (self.new.journal ≡ self.old.journal) }
        ensures going { OnErr result (self.new.status ≡ Status.Refuted → ⊥) }
    {
        let learned = analyze(
            self.alloc,
            &self.watch,
            &mut self.order,
            &mut self.work,
            &mut self.chains,
            id,
        )?;
        if learned.clause.lits().is_empty() {
            let Learned { clause, hints, .. } = learned;
            return self.refute(clause, hints);
        }
        self.keep(learned)
    }

    // Decides and propagates until a clause is false or every input has a value.
    fn search(&mut self) -> Result<Stepped, AllocError>
        requires whole { Whole self.old }
        requires ready { Ready self.old }
        requires running { self.old.status ≡ Status.Running }
        ensures whole { Whole self.new }
        ensures ready { Ready self.new }
        ensures same { Same (search_of self.old) (search_of self.new) }
        ensures result { IfOk result (SteppedIs (search_of self.old) (search_of self.new)) }
        ensures kept { OnErr result (self.new.journal ≡ self.old.journal) }
        ensures going { OnErr result (self.new.status ≡ Status.Refuted → ⊥) }
    {
        loop {
            match self.propagate() {
                Propagated::Conflict(id) => return self.learn(id),
                Propagated::Quiet => {}
            }
            match open_input(&self.watch, &mut self.order, self.inputs) {
                None => return self.finish(),
                Some(lit) => self.decide(lit),
            }
        }
    }

    // Gives up.
    fn fail(&mut self)
        requires whole { Whole self.old }
        requires ready { Ready self.old }
        requires going { self.old.status ≡ Status.Refuted → ⊥ }
        ensures whole { Whole self.new }
        ensures ready { Ready self.new }
        ensures search { search_of self.new ≡ record (search_of self.old) { status = Status.Failed } }
    {
        self.status = Status::Failed;
    }

    // Begins anew where that is due.
    fn renew(&mut self)
        requires whole { Whole self.old }
        requires ready { Ready self.old }
        ensures whole { Whole self.new }
        ensures ready { Ready self.new }
        ensures search { (d : ℕ) × (search_of self.new ≡ record (search_of self.old) { depth = d }) }
        ensures journal { self.new.journal ≡ self.old.journal }
    {
        if self.restarts.is_due() {
            self.restart();
        }
    }

    /// Learns one fresh line, or ends.
    pub(crate) fn step(&mut self) -> Result<Stepped, AllocError>
        requires whole { Whole self.old }
        requires ready { Ready self.old }
        requires running { self.old.status ≡ Status.Running }
        ensures whole { Whole self.new }
        ensures ready { Ready self.new }
        ensures same { Same (search_of self.old) (search_of self.new) }
        ensures result { IfOk result (SteppedIs (search_of self.old) (search_of self.new)) }
        ensures kept { OnErr result (self.new.journal ≡ self.old.journal) }
        ensures failed { OnErr result (self.new.status ≡ Status.Failed) }
    {
        self.renew();
        match self.search() {
            Ok(stepped) => Ok(stepped),
            Err(error) => {
                self.fail();
                Err(error)
            }
        }
    }

    /// Holds a clause that was handed over. Stays the same where memory runs out.
    pub(crate) fn import(&mut self, id: u64, clause: &Clause) -> Result<(), AllocError>
        requires whole { Whole self.old }
        requires ready { Ready self.old }
        requires depth { self.old.watch.depth ≡ 0 }
        requires id { IsNewId (search_of self.old).formula (search_of self.old).lines (search_of self.old).handed id }
        requires within { All (IsWithin self.old.watch.vars) clause.now }
        ensures whole { Whole self.new }
        ensures ready { Ready self.new }
        ensures ok { OnOk result (search_of self.new ≡ record (search_of self.old) { handed = (search_of self.old).handed ++ record { id = id; clause = clause.now } ∷ [] }) }
        ensures err { OnErr result (search_of self.new ≡ search_of self.old) }
    {
        if id <= self.last {
            return Err(AllocError);
        }
        self.handed.reserve(1)?;
        let place = self.watch.len() as usize;
        let _trail = self.watch.trail();
        self.watch.add(id, clause)?;
        self.handed.push_reserved(place);
        self.last = id;
        Ok(())
    }

    /// Takes every decision back.
    pub(crate) fn restart(&mut self)
        requires whole { Whole self.old }
        requires ready { Ready self.old }
        ensures whole { Whole self.new }
        ensures ready { Ready self.new }
        ensures search { search_of self.new ≡ record (search_of self.old) { depth = 0 } }
        ensures journal { self.new.journal ≡ self.old.journal }
    {
        release(&self.watch, &mut self.order, 0);
        self.watch.back(0);
    }
}
