//! The true literals, with their levels and reasons.
ghost use Rattle.std.specs.Prelude.{◌≡◌, ℕ, ◌+◌, ◌<◌, ◌≤◌, ◌++◌, ◌∷◌, [], All, Contains, length, IfOk, IsTrue, ◌↔◌, MatchOption, MatchBool, Some, None};
ghost use Rattle.rr_cnf.specs.Clauses.{IsWithin, negated};
ghost use Rattle.rr_trail.specs.Trails.{Entry, IsCutBack, IsTrail, entry, lits};

use crate::assignment::Assignment;
use rr_cnf::Lit;
use std::alloc::{AllocError, Global};
use std::marker::Model;

/// The true literals, in the order in which they became so, each with its level, which is the number of
/// decisions up to it, and its reason, which is the id of the clause that forces it.
#[derive(Drop)]
pub struct Trail {
    assignment: Assignment,
    /// For each level from 1 on, the place of its decision.
    starts: Vec<u32>,
}

impl Model for Trail {
    ghost use Rattle.std.specs.Prelude.{length, vec_capacity};
    ghost use Rattle.rr_trail.specs.Trails.{Standing};
    ghost use Rattle.rr_trail.specs.Tables.{IsLevelled, standing};

    ghost Value = { Standing };

    ghost view = { λ t. standing t.assignment (length t.starts.items) };

    ghost invariant = { λ t. IsLevelled t.assignment t.starts.items (vec_capacity t.starts) };
}

impl Trail {
    /// Nothing is true. Takes the room for every assignment of the variables 1 to `vars`, at most 2^32 - 2,
    /// and for as many levels; no other call takes memory.
    pub fn new(alloc: Global, vars: u64) -> Result<Trail, AllocError>
        requires { vars ≤ 4294967294 }
        ensures { IfOk result (λ t. t ≡ record { vars = vars; entries = []; depth = 0 }) }
    {
        Ok(Trail {
            assignment: Assignment::new(alloc, vars)?,
            starts: Vec::with_capacity(alloc, vars as usize)?,
        })
    }

    /// Begins a new level with an open literal.
    pub fn decide(&mut self, lit: Lit)
        requires within { IsWithin self.old.vars lit }
        requires not_true { Contains (lits self.old.entries) lit → ⊥ }
        requires not_false { Contains (lits self.old.entries) (negated lit) → ⊥ }
        ensures state { self.new ≡ record self.old { entries = self.old.entries ++ record { lit = lit; level = self.old.depth + 1; reason = None } ∷ []; depth = self.old.depth + 1 } }
        ensures lawful { IsTrail self.new.entries self.new.depth }
        ensures room { length self.new.entries ≤ self.new.vars }
    {
        let place = self.assignment.lits().len() as u32;
        let level = self.starts.len() as u32 + 1;
        self.assignment.push(lit, level, None);
        self.starts.push_reserved(place);
    }

    /// Makes an open literal true by the clause with this id.
    pub fn force(&mut self, lit: Lit, id: u64)
        requires within { IsWithin self.old.vars lit }
        requires not_true { Contains (lits self.old.entries) lit → ⊥ }
        requires not_false { Contains (lits self.old.entries) (negated lit) → ⊥ }
        ensures state { self.new ≡ record self.old { entries = self.old.entries ++ record { lit = lit; level = self.old.depth; reason = Some id } ∷ [] } }
        ensures lawful { IsTrail self.new.entries self.new.depth }
        ensures room { length self.new.entries ≤ self.new.vars }
    {
        let level = self.starts.len() as u32;
        self.assignment.push(lit, level, Some(id));
    }

    /// Undoes the levels after this one, which is at most the last.
    pub fn back(&mut self, level: u32)
        requires { level ≤ self.old.depth }
        ensures back { IsCutBack self.old self.new level }
        ensures lawful { IsTrail self.new.entries self.new.depth }
        ensures room { length self.new.entries ≤ self.new.vars }
    {
        if level < self.depth() {
            let start = self.starts[level as usize] as usize;
            self.assignment.cut(start);
            self.starts.truncate(level as usize);
        }
    }

    /// The true literals, oldest first.
    pub fn lits(&self) -> &[Lit]
        ensures lits { result.now ≡ lits self.now.entries }
        ensures within { All (IsWithin self.now.vars) result.now }
        ensures lawful { IsTrail self.now.entries self.now.depth }
        ensures room { length self.now.entries ≤ self.now.vars }
    {
        self.assignment.lits()
    }

    /// The number of decisions that stand.
    pub fn depth(&self) -> u32
        ensures { result ≡ self.now.depth }
    {
        self.starts.len() as u32
    }

    /// The number of variables.
    pub fn vars(&self) -> u64
        ensures value { result ≡ self.now.vars }
        ensures most { result ≤ 4294967294 }
    {
        self.assignment.vars()
    }

    /// The value of a literal, if it has one.
    pub fn value(&self, lit: Lit) -> Option<bool>
        requires { IsWithin self.now.vars lit }
        ensures { MatchOption result ((Contains (lits self.now.entries) lit → ⊥) × (Contains (lits self.now.entries) (negated lit) → ⊥))
            (λ v. MatchBool v (Contains (lits self.now.entries) lit) (Contains (lits self.now.entries) (negated lit))) }
    {
        if self.is_true(lit) {
            Some(true)
        } else if self.is_false(lit) {
            Some(false)
        } else {
            None
        }
    }

    /// Whether the literal is true.
    pub fn is_true(&self, lit: Lit) -> bool
        requires { IsWithin self.now.vars lit }
        ensures { IsTrue result ↔ Contains (lits self.now.entries) lit }
    {
        self.assignment.is_true(lit)
    }

    /// Whether the literal is false.
    pub fn is_false(&self, lit: Lit) -> bool
        requires { IsWithin self.now.vars lit }
        ensures { IsTrue result ↔ Contains (lits self.now.entries) (negated lit) }
    {
        self.is_true(lit.negated())
    }

    /// The level of an assigned literal.
    pub fn level(&self, lit: Lit) -> u32
        requires { IsWithin self.now.vars lit }
        ensures { (k : ℕ) → k < length self.now.entries → (entry self.now.entries k).lit.var ≡ lit.var → (entry self.now.entries k).level ≡ result }
    {
        self.assignment.variable(lit).level
    }

    /// The place of an assigned literal, or of its negation, in the list of the true ones, from 0.
    pub fn place(&self, lit: Lit) -> usize
        requires { IsWithin self.now.vars lit }
        ensures { (k : ℕ) → k < length self.now.entries → (entry self.now.entries k).lit.var ≡ lit.var → result ≡ k }
    {
        self.assignment.variable(lit).place as usize
    }

    /// The id of the clause that forces a true literal, if it was not decided.
    pub fn reason(&self, lit: Lit) -> Option<u64>
        requires { IsWithin self.now.vars lit }
        ensures { (k : ℕ) → k < length self.now.entries → (entry self.now.entries k).lit.var ≡ lit.var → (entry self.now.entries k).reason ≡ result }
    {
        self.assignment.variable(lit).reason
    }
}
