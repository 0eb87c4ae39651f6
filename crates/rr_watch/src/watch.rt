//! Clauses and a trail.
ghost use Rattle.std.specs.Prelude.{◌≡◌, ℕ, ◌+◌, ◌<◌, ◌≤◌, ◌++◌, ◌∷◌, [], All, Contains, length, List, take, IfOk, IfSome, IfNone, MatchBool, MatchOption, OnErr, OnOk, Option, Some, None};
ghost use Rattle.rr_cnf.specs.Clauses.{IsWithin, Literal, negated};
ghost use Rattle.rr_trail.specs.Trails.{AreForced, Entry, Grown, IsTrail, Reason, decisions, entry, lits};
ghost use Rattle.rr_watch.specs.Watches.{AreHeld, IsBack, IsPair, MayAdd, Named, PropagatedIs};
ghost use Rattle.rr_watch_lists.specs.Numbers.{Numbered, numbered_from};

use crate::propagator::Propagator;
use rr_cnf::{Clause, Formula, Lit};
use rr_watch_lists::Source;
use std::alloc::{AllocError, Global};
use std::marker::Model;

/// The most variables, so that a literal and a mark beside it fit 32 bits.
const MOST_VARS: u64 = 1_073_741_823;

/// What propagation comes to.
#[derive(Debug, Clone, Copy, PartialEq, Eq)]
pub enum Propagated {
    /// No clause is false, and none has all literals but one false and that one open.
    Quiet,
    /// All literals of the clause with this id are false.
    Conflict(u64),
}

/// Clauses, and a trail: the literals that are taken to be true, decided ones and ones that clauses
/// force. A level is the number of decisions up to a literal. The clauses of the formula are read in
/// it, so that several watches share one.
#[derive(Drop)]
pub struct Watch<'f> {
    propagator: Propagator<'f>,
    /// Where a clause came last, as many literals of the trail have been seen by the clauses before it.
    ahead: Option<usize>,
}

impl<'f> Model for Watch<'f> {
    ghost use Rattle.rr_watch.specs.Watches.{State};
    ghost use Rattle.rr_watch.specs.Lists.{IsWatching};
    ghost use Rattle.rr_watch_lists.specs.Holdings.{all_numbered};

    ghost Value = { State };

    ghost view = { λ w. record { vars = w.propagator.trail.vars; clauses = all_numbered w.propagator.hand.held; trail = w.propagator.trail.entries; depth = w.propagator.trail.depth } };

    ghost invariant = { λ w. IsWatching w.propagator w.ahead };
}

impl<'f> Watch<'f> {
    /// Holds the clauses of a formula by their numbers, with no literal true. Takes the room for every
    /// assignment, and is out of memory too beyond 2^30 - 1 variables, 2^32 - 1 clauses, or as many
    /// places in the table of watch lists, which has one for each literal of each clause.
    pub fn new(alloc: Global, formula: &'f Formula) -> Result<Watch<'f>, AllocError>
        ensures { IfOk result (λ w. w ≡ record { vars = formula.now.vars; clauses = numbered_from 1 formula.now.clauses; trail = []; depth = 0 }) }
    {
        if formula.vars() > MOST_VARS {
            return Err(AllocError);
        }
        let mut propagator = Propagator::new(alloc, formula)?;
        for index in 0..formula.len() {
            if let Some(clause) = formula.clause(index + 1) {
                propagator.add(Source::OfFormula, clause.lits())?;
            }
        }
        Ok(Watch {
            propagator,
            ahead: None,
        })
    }

    /// Holds one more clause, whose id exceeds all others. While decisions stand, one literal of it is
    /// open and its others are false, one of them, where there are others, since the last decision. The
    /// watch stays the same where memory runs out.
    pub fn add(&mut self, id: u64, clause: &Clause) -> Result<(), AllocError>
        requires id { All (λ n. n.id < id) self.old.clauses }
        requires within { All (IsWithin self.old.vars) clause.now }
        requires may { MayAdd self.old.trail self.old.depth clause.now }
        ensures ok { OnOk result (self.new ≡ record self.old { clauses = self.old.clauses ++ record { id = id; clause = clause.now } ∷ [] }) }
        ensures err { OnErr result (self.new ≡ self.old) }
    {
        let head = self.propagator.head;
        self.ahead = None;
        self.propagator.add(Source::Given(id), clause.lits())?;
        self.ahead = Some(head);
        Ok(())
    }

    /// Begins a new level with an open literal.
    pub fn decide(&mut self, lit: Lit)
        requires within { IsWithin self.old.vars lit }
        requires not_true { Contains (lits self.old.trail) lit → ⊥ }
        requires not_false { Contains (lits self.old.trail) (negated lit) → ⊥ }
        ensures { self.new ≡ record self.old { trail = self.old.trail ++ record { lit = lit; level = self.old.depth + 1; reason = None } ∷ []; depth = self.old.depth + 1 } }
    {
        self.ahead = None;
        self.propagator.decide(lit);
    }

    /// Undoes the levels after this one.
    pub fn back(&mut self, level: u32)
        requires { level ≤ self.old.depth }
        ensures { IsBack self.old self.new level }
    {
        self.ahead = None;
        self.propagator.back(level);
    }

    /// The value of a literal; `None` exactly where its variable is not assigned.
    pub fn value(&self, lit: Lit) -> Option<bool>
        requires { IsWithin self.now.vars lit }
        ensures { MatchOption result ((Contains (lits self.now.trail) lit → ⊥) × (Contains (lits self.now.trail) (negated lit) → ⊥))
            (λ v. MatchBool v (Contains (lits self.now.trail) lit) (Contains (lits self.now.trail) (negated lit))) }
    {
        self.propagator.trail.value(lit)
    }

    /// The literals that are true, in the order in which they became so.
    pub fn trail(&self) -> &[Lit]
        ensures trail { result.now ≡ lits self.now.trail }
        ensures lawful { IsTrail self.now.trail self.now.depth }
        ensures forced { AreForced (Named self.now.clauses) self.now.trail }
        ensures within { All (IsWithin self.now.vars) result.now }
        ensures room { length self.now.trail ≤ self.now.vars }
        ensures clauses { AreHeld self.now.vars self.now.clauses }
    {
        self.propagator.trail.lits()
    }

    /// The number of decisions that stand.
    pub fn depth(&self) -> u32
        ensures depth { result ≡ self.now.depth }
        ensures count { result ≡ decisions self.now.trail }
    {
        self.propagator.trail.depth()
    }

    /// The number of clauses.
    pub fn len(&self) -> u64
        ensures { result ≡ length self.now.clauses }
    {
        self.propagator.hand.len() as u64
    }

    /// The number of variables.
    pub fn vars(&self) -> u64
        ensures { result ≡ self.now.vars }
    {
        self.propagator.trail.vars()
    }

    /// The level of an assigned literal: the number of decisions in the trail up to it, its own included.
    pub fn level(&self, lit: Lit) -> u32
        requires { IsWithin self.now.vars lit }
        ensures level { (k : ℕ) → k < length self.now.trail → (entry self.now.trail k).lit.var ≡ lit.var → result ≡ (entry self.now.trail k).level }
        ensures count { (k : ℕ) → k < length self.now.trail → (entry self.now.trail k).lit.var ≡ lit.var → result ≡ decisions (take (k + 1) self.now.trail) }
    {
        self.propagator.trail.level(lit)
    }

    /// The place in the trail of an assigned literal, or of its negation, from 0.
    pub fn place(&self, lit: Lit) -> usize
        requires { IsWithin self.now.vars lit }
        ensures { (k : ℕ) → k < length self.now.trail → (entry self.now.trail k).lit.var ≡ lit.var → result ≡ k }
    {
        self.propagator.trail.place(lit)
    }

    /// The id of the clause that forced a true literal: one that has the literal, and whose others were
    /// false before it. `None` exactly where it was decided.
    pub fn reason(&self, lit: Lit) -> Option<u64>
        requires { IsWithin self.now.vars lit }
        ensures reason { (k : ℕ) → k < length self.now.trail → (entry self.now.trail k).lit.var ≡ lit.var → (entry self.now.trail k).reason ≡ result }
        ensures forced { (k : ℕ) → k < length self.now.trail → (entry self.now.trail k).lit ≡ lit → IfSome result (Reason (Named self.now.clauses) self.now.trail k) }
    {
        self.propagator.trail.reason(lit)
    }

    /// The number of clauses that watch a literal. Where a clause has this literal and one other, and no
    /// third, it is among them.
    pub fn watchers(&self, lit: Lit) -> usize
        requires { IsWithin self.now.vars lit }
        ensures { (id : ℕ) (c : List Literal) → Named self.now.clauses id c → IsPair lit c → 0 < result }
    {
        self.propagator.lists.len(lit)
    }

    /// The clause with this id; `None` exactly where there is none.
    pub fn clause(&self, id: u64) -> Option<&[Lit]>
        ensures found { IfSome result (λ c. Named self.now.clauses id c.now) }
        ensures one { IfSome result (λ c. (d : List Literal) → Named self.now.clauses id d → d ≡ c.now) }
        ensures none { IfNone result ((c : List Literal) → Named self.now.clauses id c → ⊥) }
        ensures within { IfSome result (λ c. All (IsWithin self.now.vars) c.now) }
    {
        match self.propagator.find(id) {
            None => None,
            Some(place) => Some(self.propagator.hand.clause(place)),
        }
    }

    /// Makes the open literals of unit clauses true, until there is none or a clause is false. Takes no
    /// memory.
    pub fn propagate(&mut self) -> Propagated
        ensures result { PropagatedIs self.new.clauses (lits self.new.trail) result }
        ensures clauses { self.new.clauses ≡ self.old.clauses }
        ensures vars { self.new.vars ≡ self.old.vars }
        ensures depth { self.new.depth ≡ self.old.depth }
        ensures grown { Grown self.old.trail self.new.trail }
    {
        let ahead = self.ahead.take();
        match self.propagator.propagate(ahead) {
            None => Propagated::Quiet,
            Some(id) => Propagated::Conflict(id),
        }
    }
}
