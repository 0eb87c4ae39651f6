//! The state of a free search.
ghost use Rattle.std.specs.Prelude.{◌≡◌, ℕ, ◌+◌, ◌^◌, ◌<◌, ◌≤◌, [], All, Contains, length, IfOk, OnOk, IsTrue};
ghost use Rattle.rr_cnf.specs.Clauses.{IsWithin, negated};
ghost use Rattle.rr_cnf.specs.Partial.{IsAssigned, IsQuiet};
ghost use Rattle.rr_derive.specs.Derive.{Derives};
ghost use Rattle.rr_derive.specs.Lrat.{AreWritable};
ghost use Rattle.rr_trail.specs.Trails.{lits};
ghost use Rattle.rr_watch.specs.Watches.{MayAdd, PropagatedIs, bare};
ghost use Rattle.rr_solver.specs.Searches.{IsModel};
ghost use Rattle.rr_analysis.specs.Analysis.{IsConflict, IsDerived};
ghost use Rattle.rr_analysis.specs.OpenInputs.{IsOpenInput};
ghost use Rattle.rr_free.specs.Engines.{HasLine, MovedIs, Moves, Whole};

use rr_analysis::{Chains, Learned, Order, Workspace, analyze_freely};
use rr_cnf::{Clause, Formula, Lit};
use rr_derive::Journal;
use rr_solver::{Restarts, bits_of, open_input, release};
use rr_watch::{Propagated, Watch};
use std::alloc::{AllocError, Global};

/// What a step did.
#[derive(Drop)]
pub(crate) enum Moved {
    /// It learned a line.
    Learned,
    /// It found values that satisfy the formula, by variable from 1.
    Model(Vec<bool>),
    /// It learned the empty clause.
    Refuted,
}

/// The clauses at hand, the lines that were learned, and where the search stands.
#[derive(Drop)]
pub(crate) struct Engine<'f> {
    alloc: Global,
    pub(crate) formula: &'f Formula,
    pub(crate) watch: Watch<'f>,
    pub(crate) journal: Journal,
    order: Order,
    pub(crate) work: Workspace,
    chains: Chains,
    restarts: Restarts,
    /// The greatest id of a clause at hand.
    pub(crate) last: u64,
}

/// The most variables, so that their places in a trail fit 32 bits.
const MOST_VARS: u64 = 4_294_967_294;

/// The greatest id that the text of a proof can hold.
const MOST_ID: u64 = 4_611_686_018_427_387_903;

/// The most lines from one restart to the next, whatever the sequence of restarts says.
const MOST_LINES: usize = 256;

/// Whether it is known that the literal is false.
fn is_false(watch: &Watch<'_>, lit: Lit) -> bool
    requires { IsWithin watch.now.vars lit }
    ensures { IsTrue result → Contains (lits watch.now.trail) (negated lit) }
{
    match watch.value(lit) {
        Some(value) => !value,
        None => false,
    }
}

/// Whether the clause may be held under the decisions that stand: its first literal is open, its others are
/// false, and one of them is so since the last decision.
fn is_asserting(watch: &Watch<'_>, clause: &[Lit]) -> bool
    requires { All (IsWithin watch.now.vars) clause.now }
    ensures { IsTrue result → MayAdd watch.now.trail watch.now.depth clause.now }
{
    let depth = watch.depth();
    let Some(lit) = clause.first() else {
        return false;
    };
    let first = *lit;
    if watch.value(first).is_some() {
        return false;
    }
    let mut is_late = false;
    for lit in clause {
        if *lit != first {
            if !is_false(watch, *lit) {
                return false;
            }
            if watch.level(*lit) == depth {
                is_late = true;
            }
        }
    }
    is_late
}

impl<'f> Engine<'f> {
    /// Holds the formula, with nothing learned.
    pub(crate) fn new(alloc: Global, formula: &'f Formula) -> Result<Engine<'f>, AllocError>
        ensures whole { IfOk result Whole }
        ensures formula { IfOk result (λ e. e.formula.now ≡ formula.now) }
        ensures lines { IfOk result (λ e. e.journal.lines ≡ []) }
    {
        let vars = formula.vars();
        let count = formula.len();
        if vars > MOST_VARS {
            return Err(AllocError);
        }
        if count >= MOST_ID {
            return Err(AllocError);
        }
        let watch = Watch::new(alloc, formula)?;
        Ok(Engine {
            alloc,
            formula,
            watch,
            journal: Journal::new(alloc, count + 1),
            order: Order::new(alloc, vars, 1)?,
            work: Workspace::new(alloc, vars)?,
            chains: Chains::new(alloc, vars)?,
            restarts: Restarts::new(),
            last: count,
        })
    }

    // Undoes the later levels.
    fn back(&mut self, level: u32)
        requires whole { Whole self.old }
        requires level { level ≤ self.old.watch.depth }
        ensures whole { Whole self.new }
        ensures moves { Moves self.old self.new }
        ensures depth { self.new.watch.depth ≡ level }
    {
        release(&self.watch, &mut self.order, level);
        self.watch.back(level);
    }

    // Begins anew where that is due, and after each 256 lines.
    fn renew(&mut self)
        requires whole { Whole self.old }
        ensures whole { Whole self.new }
        ensures moves { Moves self.old self.new }
    {
        let is_due = self.restarts.is_due();
        if is_due || self.journal.lines().len() % MOST_LINES == 0 {
            self.back(0);
        }
    }

    // Goes back as far as the clause asks, which may be held then.
    fn make_way(&mut self, clause: &[Lit], level: u32)
        requires whole { Whole self.old }
        requires within { All (IsWithin self.old.watch.vars) clause.now }
        requires level { level ≤ self.old.watch.depth }
        ensures whole { Whole self.new }
        ensures moves { Moves self.old self.new }
        ensures may { MayAdd self.new.watch.trail self.new.watch.depth clause.now }
    {
        self.back(level);
        if !is_asserting(&self.watch, clause) {
            self.back(0);
        }
    }

    // Holds the learned clause and writes its line.
    fn hold(&mut self, clause: Clause, hints: Vec<u64>) -> Result<(), AllocError>
        requires whole { Whole self.old }
        requires derived { IsDerived self.old.watch clause hints.items }
        requires may { MayAdd self.old.watch.trail self.old.watch.depth clause }
        ensures whole { OnOk result (Whole self.new) }
        ensures formula { self.new.formula.now ≡ self.old.formula.now }
        ensures more { OnOk result (HasLine self.old.journal self.new.journal clause) }
    {
        if self.last >= MOST_ID {
            return Err(AllocError);
        }
        let id = self.last + 1;
        self.watch.add(id, &clause)?;
        self.journal.push_at(id, clause, hints)?;
        self.last = id;
        Ok(())
    }

    // Learns from a false clause.
    fn learn(&mut self, id: u64) -> Result<Moved, AllocError>
        requires whole { Whole self.old }
        requires conflict { IsConflict self.old.watch id }
        ensures whole { OnOk result (Whole self.new) }
        ensures formula { self.new.formula.now ≡ self.old.formula.now }
        ensures moved { IfOk result (MovedIs self.old.formula.now self.old.journal self.new.journal) }
    {
        let Learned {
            clause,
            hints,
            level,
        } = analyze_freely(
            self.alloc,
            &self.watch,
            &mut self.order,
            &mut self.work,
            &mut self.chains,
            id,
        )?;
        let is_empty = clause.lits().is_empty();
        self.make_way(clause.lits(), level);
        self.hold(clause, hints)?;
        if is_empty {
            Ok(Moved::Refuted)
        } else {
            Ok(Moved::Learned)
        }
    }

    // Propagates.
    fn propagate(&mut self) -> Propagated
        requires { Whole self.old }
        ensures whole { Whole self.new }
        ensures moves { Moves self.old self.new }
        ensures result { PropagatedIs self.new.watch.clauses (lits self.new.watch.trail) result }
        ensures longer { length self.old.watch.trail ≤ length self.new.watch.trail }
    {
        self.watch.propagate()
    }

    // Decides an open variable.
    fn decide(&mut self, lit: Lit)
        requires whole { Whole self.old }
        requires input { IsOpenInput (lits self.old.watch.trail) self.old.watch.vars lit }
        ensures whole { Whole self.new }
        ensures moves { Moves self.old self.new }
        ensures longer { length self.new.watch.trail ≡ length self.old.watch.trail + 1 }
        ensures room { length self.new.watch.trail ≤ self.new.watch.vars }
    {
        self.watch.decide(lit);
        self.order.decide(self.watch.depth(), lit);
        let _trail = self.watch.trail();
    }

    // The values of all variables, where nothing is false or unit.
    fn model(&self) -> Result<Vec<bool>, AllocError>
        requires whole { Whole self.now }
        requires quiet { IsQuiet (bare self.now.watch.clauses) (lits self.now.watch.trail) }
        requires assigned { (v : ℕ) → 1 ≤ v → v ≤ self.now.watch.vars → IsAssigned (lits self.now.watch.trail) v }
        ensures { IfOk result (λ v. IsModel self.now.formula.now v.items) }
    {
        let _trail = self.watch.trail();
        let bits = bits_of(self.alloc, &self.watch)?;
        Ok(bits)
    }

    /// Decides and propagates until a clause is false, from which a line is learned, or every variable has a
    /// value.
    pub(crate) fn step(&mut self) -> Result<Moved, AllocError>
        requires whole { Whole self.old }
        ensures whole { OnOk result (Whole self.new) }
        ensures formula { self.new.formula.now ≡ self.old.formula.now }
        ensures moved { IfOk result (MovedIs self.old.formula.now self.old.journal self.new.journal) }
    {
        self.renew();
        loop {
            match self.propagate() {
                Propagated::Conflict(id) => return self.learn(id),
                Propagated::Quiet => {}
            }
            let vars = self.watch.vars();
            match open_input(&self.watch, &mut self.order, vars) {
                None => return Ok(Moved::Model(self.model()?)),
                Some(lit) => self.decide(lit),
            }
        }
    }

    /// The lines by value.
    pub(crate) fn into_journal(self) -> Journal
        requires { Whole self }
        ensures lines { result.lines ≡ self.entry.journal.lines }
        ensures derives { Derives self.entry.formula.now.clauses result.lines }
        ensures writable { AreWritable self.entry.formula.now result.lines }
    {
        let Engine { journal, .. } = self;
        let _lines = journal.lines();
        journal
    }
}
