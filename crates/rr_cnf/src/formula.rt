//! Formulas in conjunctive normal form.
ghost use Rattle.std.specs.Prelude.{◌≡◌, ◌-◌, ◌≤◌, [], ◌∷◌, ◌++◌, length, slice_get, All, OnOk, OnErr, IfSome, Some, None};
ghost use Rattle.std.specs.Option.{option_copied};
ghost use Rattle.rr_cnf.specs.Clauses.{IsWithin};

use crate::clause::Clause;
use std::alloc::{AllocError, Global};
use std::marker::Model;

/// A list of clauses over the variables 1 to `vars`. A clause is named by its place, from 1.
#[derive(Drop)]
pub struct Formula {
    vars: u64,
    clauses: Vec<Clause>,
}

impl Model for Formula {
    ghost use Rattle.std.specs.Prelude.{List};
    ghost use Rattle.rr_cnf.specs.Clauses.{Clauses, AreWithin};

    ghost Value = { Clauses };

    ghost view = { λ f. record { vars = f.vars; clauses = f.clauses.items } };

    ghost invariant = { λ f. AreWithin f.vars f.clauses.items };
}

impl Formula {
    /// No clauses over the variables 1 to `vars`.
    pub fn new(alloc: Global, vars: u64) -> Formula
        ensures { result ≡ record { vars = vars; clauses = [] } }
    {
        Formula {
            vars,
            clauses: Vec::new(alloc),
        }
    }

    /// Takes the room for this many clauses more, so that their pushes take none. The formula stays
    /// the same, also where memory runs out.
    pub fn reserve(&mut self, clauses: usize) -> Result<(), AllocError>
        ensures { self.new ≡ self.old }
    {
        self.clauses.reserve_exact(clauses)
    }

    /// Adds a clause behind the others. The formula stays the same where memory runs out.
    pub fn push(&mut self, clause: Clause) -> Result<(), AllocError>
        requires { All (IsWithin self.old.vars) clause }
        ensures ok { OnOk result (self.new ≡ record { vars = self.old.vars; clauses = self.old.clauses ++ clause ∷ [] }) }
        ensures err { OnErr result (self.new ≡ self.old) }
    {
        self.clauses.push(clause)?;
        Ok(())
    }

    /// The number of clauses.
    pub fn len(&self) -> u64
        ensures { result ≡ length self.now.clauses }
    {
        self.clauses.len() as u64
    }

    /// The greatest variable that a clause may have.
    pub fn vars(&self) -> u64
        ensures { result ≡ self.now.vars }
    {
        self.vars
    }

    /// The clause with this number, from 1; `None` exactly where there is none.
    pub fn clause(&self, id: u64) -> Option<&Clause>
        ensures found { 1 ≤ id → option_copied result ≡ slice_get self.now.clauses (id - 1) }
        ensures none { id ≡ 0 → result ≡ None }
        ensures within { IfSome result (λ c. All (IsWithin self.now.vars) c.now) }
    {
        let index = id.checked_sub(1)?;
        self.clauses.get(index as usize)
    }

    /// The clauses in order.
    pub(crate) fn clauses(&self) -> &[Clause]
        ensures { result.now ≡ self.now.clauses }
    {
        self.clauses.as_slice()
    }
}
