//! The names that are noted for the blocks which keep a bit of them.
ghost use Rattle.std.specs.Prelude.{◌≡◌, ◌&&◌, ◌||◌, ℕ, List, [], nat_eq, OnOk};
ghost use Rattle.std.specs.Str.{bytes_eq};
ghost use Rattle.rr_lint_names.specs.Latched.{marks};

use indexmap::IndexSet;
use std::alloc::{AllocError, Global};
use std::marker::Model;

/// The token of an `always`, and a name that its body assigns.
#[derive(Clone, Copy, PartialEq, Eq, Hash)]
pub(crate) struct Key<'a> {
    token: u32,
    name: &'a str,
}

/// Names with the tokens of the blocks that keep a bit of them. The texts are borrowed.
#[derive(Drop)]
pub struct Noted<'a> {
    keys: IndexSet<Key<'a>>,
}

impl<'a> Model for Noted<'a> {
    ghost use Rattle.std.specs.Prelude.{ℕ, List, map};

    ghost Value = { List (ℕ × List ℕ) };

    ghost view = { λ s. map (λ k. (k.token, k.name.now)) s.keys.keys };
}

impl<'a> Noted<'a> {
    /// No names.
    pub(crate) fn new(alloc: Global) -> Noted<'a>
        ensures { result ≡ [] }
    {
        Noted {
            keys: IndexSet::new(alloc),
        }
    }

    /// Whether a name is noted for the `always` with a token.
    pub(crate) fn has(&self, token: u32, name: &str) -> bool
        ensures { result ≡ marks self.now token name.now }
    {
        self.keys.contains(&Key { token, name })
    }

    /// Notes a name for the `always` with a token.
    pub(crate) fn add(&mut self, token: u32, name: &'a str) -> Result<(), AllocError>
        ensures { OnOk result ((t : ℕ) (text : List ℕ) → marks self.new t text ≡ (marks self.old t text || (nat_eq t token && bytes_eq text name.now))) }
    {
        match self.keys.insert(Key { token, name }) {
            Ok(_) => Ok(()),
            Err(_) => Err(AllocError),
        }
    }
}
