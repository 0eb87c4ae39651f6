//! Names and what they stand for.
ghost use Rattle.std.specs.Prelude.{◌≡◌, ◌++◌, ◌∷◌, [], IfOk, OnErr, is_some, not, if◌then◌else◌, length, ◌≤◌, IsTrue};
ghost use Rattle.rr_expr.specs.Scopes.{lookup, meant};

use crate::types::Entity;
use indexmap::IndexMap;
use std::alloc::{AllocError, Global};
use std::marker::Model;

/// Names in the order in which they were added, and what they stand for. The texts are borrowed.
#[derive(Drop)]
pub struct Scope<'a> {
    names: IndexMap<&'a str, Entity>,
}

impl<'a> Model for Scope<'a> {
    ghost use Rattle.std.specs.Prelude.{ℕ, List, map};
    ghost use Rattle.rr_expr.specs.declared.types.Entity.{Entity};

    ghost Value = { List (List ℕ × Entity) };

    ghost view = { λ s. map (λ e. (e.0.now, e.1)) s.names.entries };
}

impl<'a> Scope<'a> {
    /// No names.
    pub fn new(alloc: Global) -> Scope<'a>
        ensures { result ≡ [] }
    {
        Scope {
            names: IndexMap::new(alloc),
        }
    }

    /// What the name stands for; `None` exactly where it is not there.
    pub fn find(&self, name: &str) -> Option<Entity>
        ensures { result ≡ lookup name.now self.now }
    {
        self.names.get(name).copied()
    }

    /// Adds a name after the others, and answers whether it was new. A name that is there keeps what
    /// it stands for, and where memory runs out nothing has changed.
    pub fn add(&mut self, name: &'a str, entity: Entity) -> Result<bool, AllocError>
        ensures was_new { IfOk result (λ r. r ≡ not (is_some (lookup name.now self.old))) }
        ensures added { IfOk result (λ r. self.new ≡ (if r then self.old ++ (name.now, entity) ∷ [] else self.old)) }
        ensures unchanged { OnErr result (self.new ≡ self.old) }
    {
        if self.names.contains_key(name) {
            return Ok(false);
        }
        match self.names.insert(name, entity) {
            Ok(_) => Ok(true),
            Err(_) => Err(AllocError),
        }
    }

    /// What a name in an expression stands for; a name that is not there stands for nothing that an
    /// expression may use, as that of an instance.
    pub fn meaning(&self, name: &str) -> Entity
        ensures { result ≡ meant self.now name.now }
    {
        self.find(name).unwrap_or(Entity::Instance)
    }
}
