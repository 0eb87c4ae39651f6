//! Clauses.
ghost use Rattle.std.specs.Prelude.{◌≡◌, IfOk};

use crate::lit::Lit;
use smallvec::SmallVec;
use std::alloc::{AllocError, Global};
use std::marker::Model;

/// A list of literals, of which one is to be true. Up to four of them lie in the value itself.
#[derive(Drop)]
pub struct Clause {
    lits: SmallVec<Lit, 4>,
}

impl Model for Clause {
    ghost use Rattle.std.specs.Prelude.{List};
    ghost use Rattle.rr_cnf.specs.Clauses.{Literal};

    ghost Value = { List Literal };

    ghost view = { λ c. c.lits.items };
}

impl Clause {
    /// The clause of these literals, in this order. Takes heap memory for five and more.
    pub fn from_lits(alloc: Global, lits: &[Lit]) -> Result<Clause, AllocError>
        ensures { IfOk result (λ c. c ≡ lits.now) }
    {
        Ok(Clause {
            lits: SmallVec::from_slice(alloc, lits)?,
        })
    }

    /// The literals, in order.
    pub fn lits(&self) -> &[Lit]
        ensures { result.now ≡ self.now }
    {
        self.lits.as_slice()
    }
}
