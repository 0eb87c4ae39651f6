//! Names with numbers.
ghost use Rattle.std.specs.Prelude.{◌≡◌, ◌++◌, ◌∷◌, [], IfOk, OnOk};
ghost use Rattle.rr_trace.specs.Names.{Text, number_of};

use indexmap::IndexMap;
use std::alloc::{AllocError, Global};
use std::marker::Model;

/// Names and the first number that each was given. The texts are borrowed.
#[derive(Drop)]
pub(crate) struct Numbers<'a> {
    names: IndexMap<&'a [u8], u32>,
}

impl<'a> Model for Numbers<'a> {
    ghost use Rattle.std.specs.Prelude.{ℕ, List, map};

    ghost Value = { List (List ℕ × ℕ) };

    ghost view = { λ s. map (λ e. (e.0.now, e.1)) s.names.entries };
}

impl<'a> Numbers<'a> {
    /// No names.
    pub(crate) fn new(alloc: Global) -> Numbers<'a>
        ensures { result ≡ [] }
    {
        Numbers {
            names: IndexMap::new(alloc),
        }
    }

    /// The number of a name, where it has one.
    pub(crate) fn find(&self, name: &[u8]) -> Option<u32>
        ensures { result ≡ number_of name.now self.now }
    {
        self.names.get(name).copied()
    }

    /// Gives a name a number, if it has none.
    pub(crate) fn add(&mut self, name: &'a [u8], number: u32) -> Result<(), AllocError>
        ensures { OnOk result ((t : Text) → number_of t self.new ≡ number_of t (self.old ++ (name.now, number) ∷ [])) }
    {
        if self.names.contains_key(name) {
            return Ok(());
        }
        match self.names.insert(name, number) {
            Ok(_) => Ok(()),
            Err(_) => Err(AllocError),
        }
    }
}
