//! Sets of texts.
ghost use Rattle.std.specs.Prelude.{◌≡◌, ◌++◌, ◌∷◌, [], ◌||◌, not, IfOk, OnErr, OnOk, if◌then◌else◌};
ghost use Rattle.std.specs.List.{list_any};
ghost use Rattle.std.specs.Str.{bytes_eq};
ghost use Rattle.rr_flat.specs.Signals.{Text};

use indexmap::IndexSet;
use std::alloc::{AllocError, Global};
use std::marker::Model;

/// Texts, each once, in the order in which they were added. They are borrowed.
#[derive(Drop)]
pub struct TextSet<'a> {
    texts: IndexSet<&'a str>,
}

impl<'a> Model for TextSet<'a> {
    ghost use Rattle.std.specs.Prelude.{ℕ, List, map};

    ghost Value = { List (List ℕ) };

    ghost view = { λ s. map (λ t. t.now) s.texts.keys };
}

impl<'a> TextSet<'a> {
    /// No texts.
    pub fn new(alloc: Global) -> TextSet<'a>
        ensures { result ≡ [] }
    {
        TextSet {
            texts: IndexSet::new(alloc),
        }
    }

    /// Whether a text is there.
    pub fn has(&self, text: &str) -> bool
        ensures { result ≡ list_any (bytes_eq text.now) self.now }
    {
        self.texts.contains(text)
    }

    /// Adds a text behind the others, where it is not there, and answers whether it was new. Where
    /// memory runs out nothing has changed.
    pub fn add(&mut self, text: &'a str) -> Result<bool, AllocError>
        ensures was_new { IfOk result (λ r. r ≡ not (list_any (bytes_eq text.now) self.old)) }
        ensures among { OnOk result ((name : Text) → list_any (bytes_eq name) self.new ≡ (list_any (bytes_eq name) self.old || bytes_eq name text.now)) }
        ensures added { OnOk result (self.new ≡ (if list_any (bytes_eq text.now) self.old then self.old else self.old ++ text.now ∷ [])) }
        ensures unchanged { OnErr result (self.new ≡ self.old) }
    {
        match self.texts.insert(text) {
            Ok(was_new) => Ok(was_new),
            Err(_) => Err(AllocError),
        }
    }
}
