//! Proof lines and journals.
ghost use Rattle.std.specs.Prelude.{◌≡◌, ◌-◌, ◌^◌, ◌<◌, ◌≤◌, ◌++◌, ◌∷◌, [], All, IfOk, OnOk, OnErr};
ghost use Rattle.rr_derive.specs.Derive.{IsLastBelow, IsRising, next_id};

use rr_cnf::Clause;
use std::alloc::{AllocError, Global};
use std::marker::Model;

/// An addition of a proof (LRAT): a clause with its id, and the ids of the clauses that lead to it.
#[derive(Drop)]
pub struct Line {
    pub id: u64,
    pub clause: Clause,
    pub hints: Vec<u64>,
}

impl Model for Line {
    ghost use Rattle.rr_derive.specs.Derive.{Step};

    ghost Value = { Step };

    ghost view = { λ l. record { id = l.id; clause = l.clause; hints = l.hints.items } };
}

/// The additions of a proof, with rising ids from `first` on.
#[derive(Drop)]
pub struct Journal {
    first: u64,
    lines: Vec<Line>,
}

impl Model for Journal {
    ghost use Rattle.std.specs.Prelude.{◌≤◌, All};
    ghost use Rattle.rr_derive.specs.Derive.{Proof, IsRising};

    ghost Value = { Proof };

    ghost view = { λ j. record { first = j.first; lines = j.lines.items } };

    ghost invariant = { λ j. IsRising j.lines.items × All (λ s. j.first ≤ s.id) j.lines.items };
}

impl Journal {
    /// No lines; ids will begin at `first`.
    pub fn new(alloc: Global, first: u64) -> Journal
        ensures { result ≡ record { first = first; lines = [] } }
    {
        Journal {
            first,
            lines: Vec::new(alloc),
        }
    }

    /// The lines, whose ids rise from `first` on.
    pub fn lines(&self) -> &[Line]
        ensures lines { result.now ≡ self.now.lines }
        ensures rising { IsRising self.now.lines }
        ensures first { All (λ s. self.now.first ≤ s.id) self.now.lines }
    {
        self.lines.as_slice()
    }

    /// The lines by value, whose ids rise from `first` on.
    pub fn into_lines(self) -> Vec<Line>
        ensures lines { result.items ≡ self.lines }
        ensures rising { IsRising self.lines }
        ensures first { All (λ s. self.first ≤ s.id) self.lines }
    {
        let Journal { lines, .. } = self;
        lines
    }

    /// Adds a line behind the others, whose id must be at least the first and above all others. The
    /// journal stays the same where memory runs out.
    pub fn push_at(&mut self, id: u64, clause: Clause, hints: Vec<u64>) -> Result<(), AllocError>
        requires first { self.old.first ≤ id }
        requires last { All (λ s. s.id < id) self.old.lines }
        ensures ok { OnOk result (self.new ≡ record { first = self.old.first; lines = self.old.lines ++ record { id = id; clause = clause; hints = hints.items } ∷ [] }) }
        ensures err { OnErr result (self.new ≡ self.old) }
    {
        self.lines.push(Line { id, clause, hints })?;
        Ok(())
    }

    /// Adds a line behind the others with the next id, which is answered: `first`, or one above the
    /// last. The last id, where there is one, is below 2^64 - 1. The journal stays the same where memory
    /// runs out.
    pub fn push(&mut self, clause: Clause, hints: Vec<u64>) -> Result<u64, AllocError>
        requires { IsLastBelow (2 ^ 64 - 1) self.old.lines }
        ensures ok { IfOk result (λ id. self.new ≡ record { first = self.old.first; lines = self.old.lines ++ record { id = id; clause = clause; hints = hints.items } ∷ [] }) }
        ensures id { IfOk result (λ id. id ≡ next_id self.old) }
        ensures err { OnErr result (self.new ≡ self.old) }
    {
        let id = self.next_id();
        self.push_at(id, clause, hints)?;
        Ok(id)
    }

    fn next_id(&self) -> u64
        requires { IsLastBelow (2 ^ 64 - 1) self.now.lines }
        ensures value { result ≡ next_id self.now }
        ensures first { self.now.first ≤ result }
        ensures last { All (λ s. s.id < result) self.now.lines }
    {
        match self.lines().last() {
            Some(line) => line.id + 1,
            None => self.first,
        }
    }
}
