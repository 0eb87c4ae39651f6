//! The literals that are true, and what is known of each.
ghost use Rattle.std.specs.Prelude.{◌≡◌, ℕ, ◌<◌, ◌≤◌, ◌++◌, ◌∷◌, [], All, Contains, length, take, IfOk, IsTrue, ◌↔◌};
ghost use Rattle.rr_cnf.specs.Clauses.{IsWithin, negated};
ghost use Rattle.rr_cnf.specs.Codes.{code_of};
ghost use Rattle.rr_trail.specs.Trails.{entry, lits};
ghost use Rattle.rr_trail.specs.Tables.{Cleared, literal_at};

use rr_cnf::Lit;
use std::alloc::{AllocError, Global};
use std::marker::Model;

/// What is known of an assigned variable.
#[derive(Clone, Copy)]
pub(crate) struct Variable {
    /// The number of decisions up to its literal.
    pub(crate) level: u32,
    /// The place of its literal.
    pub(crate) place: u32,
    /// The id of the clause that forces it, if it was not decided.
    pub(crate) reason: Option<u64>,
}

/// The true literals, in the order in which they became so.
#[derive(Drop)]
pub(crate) struct Assignment {
    /// By the code of a literal, whether it is true. This alone is what propagation reads, so it is kept
    /// apart and small.
    truths: Vec<bool>,
    /// By variable, what it got last.
    variables: Vec<Variable>,
    lits: Vec<Lit>,
}

impl Model for Assignment {
    ghost use Rattle.std.specs.Prelude.{◌-◌, length, vec_capacity};
    ghost use Rattle.rr_trail.specs.Tables.{Assigned, IsTables, entries};

    ghost Value = { Assigned };

    ghost view = { λ a. record { vars = length a.variables.items - 1; entries = entries a.variables.items a.lits.items } };

    ghost invariant = { λ a. IsTables a.truths.items a.variables.items a.lits.items (vec_capacity a.lits) };
}

impl Assignment {
    /// Nothing is true. Takes the room for every assignment of the variables 1 to `vars`.
    pub(crate) fn new(alloc: Global, vars: u64) -> Result<Assignment, AllocError>
        requires { vars ≤ 4294967294 }
        ensures { IfOk result (λ a. a ≡ record { vars = vars; entries = [] }) }
    {
        let size = vars as usize + 1;
        let open = Variable {
            level: 0,
            place: 0,
            reason: None,
        };
        Ok(Assignment {
            truths: vec![in alloc; false; 2 * size]?,
            variables: vec![in alloc; open; size]?,
            lits: Vec::with_capacity(alloc, size - 1)?,
        })
    }

    /// Makes an open literal true.
    pub(crate) fn push(&mut self, lit: Lit, level: u32, reason: Option<u64>)
        requires within { IsWithin self.old.vars lit }
        requires not_true { Contains (lits self.old.entries) lit → ⊥ }
        requires not_false { Contains (lits self.old.entries) (negated lit) → ⊥ }
        ensures state { self.new ≡ record self.old { entries = self.old.entries ++ record { lit = lit; level = level; reason = reason } ∷ [] } }
        ensures room { length self.new.entries ≤ self.new.vars }
    {
        let place = self.lits.len() as u32;
        self.lits.push_reserved(lit);
        self.truths[lit.code() as usize] = true;
        self.variables[lit.var() as usize] = Variable {
            level,
            place,
            reason,
        };
    }

    /// Keeps only the first literals, so many.
    pub(crate) fn cut(&mut self, len: usize)
        requires { len ≤ length self.old.entries }
        ensures { self.new ≡ record self.old { entries = take len self.old.entries } }
    {
        clear(&mut self.truths, self.lits.as_slice(), len);
        self.lits.truncate(len);
    }

    /// The true literals, oldest first.
    pub(crate) fn lits(&self) -> &[Lit]
        ensures lits { result.now ≡ lits self.now.entries }
        ensures within { All (IsWithin self.now.vars) result.now }
        ensures room { length self.now.entries ≤ self.now.vars }
    {
        self.lits.as_slice()
    }

    /// The number of variables.
    pub(crate) fn vars(&self) -> u64
        ensures { result ≡ self.now.vars }
    {
        (self.variables.len() - 1) as u64
    }

    /// Whether the literal is true.
    pub(crate) fn is_true(&self, lit: Lit) -> bool
        requires { IsWithin self.now.vars lit }
        ensures { IsTrue result ↔ Contains (lits self.now.entries) lit }
    {
        self.truths[lit.code() as usize]
    }

    /// What is known of the variable of an assigned literal.
    pub(crate) fn variable(&self, lit: Lit) -> Variable
        requires { IsWithin self.now.vars lit }
        ensures level { (k : ℕ) → k < length self.now.entries → (entry self.now.entries k).lit.var ≡ lit.var → (entry self.now.entries k).level ≡ result.level }
        ensures place { (k : ℕ) → k < length self.now.entries → (entry self.now.entries k).lit.var ≡ lit.var → result.place ≡ k }
        ensures reason { (k : ℕ) → k < length self.now.entries → (entry self.now.entries k).lit.var ≡ lit.var → (entry self.now.entries k).reason ≡ result.reason }
    {
        self.variables[lit.var() as usize]
    }
}

// Marks the literals from this place on as not true.
fn clear(truths: &mut Vec<bool>, lits: &[Lit], from: usize)
    requires from { from ≤ length lits.now }
    requires within { All (λ l. code_of l < length truths.old.items) lits.now }
    ensures { Cleared truths.old.items truths.new.items lits.now from (length lits.now) }
{
    for place in from..lits.len() {
        truths[lits[place].code() as usize] = false;
    }
}
