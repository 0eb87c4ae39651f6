//! Which scope of a dump has the ports, and by which identifiers.
ghost use Rattle.std.specs.Prelude.{◌≡◌, ◌≤◌, ℕ, List, [], map, Option, option_map, is_some, MatchOption, IfOk, OnOk, Some, None, if◌then◌else◌};
ghost use Rattle.std.specs.List.{list_all};
ghost use Rattle.rr_vcd_text.specs.Dump.{Declared as PlainDeclared, Variable as PlainVariable};
ghost use Rattle.rr_vcd_text.specs.View.{plain_variable};
ghost use Rattle.rr_vcd.specs.Tops.{Port as PlainPort, Top as PlainTop};
ghost use Rattle.rr_vcd.specs.Scopes.{bare_name as bare_name_of, stands_for, IsScope, HasNone, has_inputs};
ghost use Rattle.rr_vcd.specs.View.{plain_port, plain_top, place_at, ArePlaces};

use crate::ports::{Port, Top};
use indexmap::IndexMap;
use rr_vcd_text::Variable;
use std::alloc::{AllocError, Global};
use std::marker::Model;

/// A scope, and the size and the name of a variable directly in it.
#[derive(Clone, Copy, PartialEq, Eq, Hash)]
pub(crate) struct Key<'a> {
    scope: u32,
    size: u64,
    name: &'a [u8],
}

/// The identifier of the first variable with each key. The texts are borrowed.
#[derive(Drop)]
pub(crate) struct Places<'a> {
    ids: IndexMap<Key<'a>, &'a [u8]>,
}

impl<'a> Model for Places<'a> {
    ghost use Rattle.std.specs.Prelude.{ℕ, List, map};
    ghost use Rattle.rr_vcd.specs.declared.places.Key.{Key as PlainKey};

    ghost Value = { List (PlainKey × List ℕ) };

    ghost view = { λ s. map (λ e. (e.0, e.1.now)) s.ids.entries };
}

/// A name without one leading `\`.
fn bare_name(name: &[u8]) -> &[u8]
    ensures { result.now ≡ bare_name_of name.now }
{
    match name.split_first() {
        Some((b'\\', rest)) => rest,
        _ => name,
    }
}

impl<'a> Places<'a> {
    fn new(alloc: Global) -> Places<'a>
        ensures { result ≡ [] }
    {
        Places {
            ids: IndexMap::new(alloc),
        }
    }

    /// Notes the identifier of a variable, if there is none with its key.
    fn add(&mut self, variable: Variable<'a>) -> Result<(), AllocError>
        ensures { OnOk result ((s : ℕ) (p : PlainPort) → place_at s p self.new
            ≡ (if is_some (place_at s p self.old) then place_at s p self.old else if stands_for s p (plain_variable variable.entry) then Some variable.entry.id.now else None)) }
    {
        let Some(scope) = variable.scope else {
            return Ok(());
        };
        let key = Key {
            scope,
            size: variable.size,
            name: bare_name(variable.name),
        };
        if self.ids.contains_key(&key) {
            return Ok(());
        }
        match self.ids.insert(key, variable.id) {
            Ok(_) => Ok(()),
            Err(_) => Err(AllocError),
        }
    }

    /// The identifiers of variables.
    pub(crate) fn of(alloc: Global, variables: &[Variable<'a>]) -> Result<Places<'a>, AllocError>
        ensures { IfOk result (ArePlaces (map plain_variable variables.now)) }
    {
        let mut places = Places::new(alloc);
        for &variable in variables.iter() {
            places.add(variable)?;
        }
        Ok(places)
    }

    /// The identifier of a port in a scope, where it has one.
    pub(crate) fn find(&self, scope: u32, port: Port) -> Option<&'a [u8]>
        ensures { option_map (λ t. t.now) result ≡ place_at scope (plain_port port.entry) self.now }
    {
        let key = Key {
            scope,
            size: u64::from(port.width),
            name: port.name,
        };
        self.ids.get(&key).copied()
    }

    /// Whether a scope has all of these ports.
    fn has_all(&self, scope: u32, ports: &[Port]) -> bool
        ensures { result ≡ list_all (λ p. is_some (place_at scope (plain_port p) self.now)) ports.now }
    {
        ports.iter().all(|port| self.find(scope, *port).is_some())
    }

    /// The scope in which ports are looked up: of so many the first that has every input and every
    /// output; where none has, the first that has every input.
    pub(crate) fn choose(&self, scopes: u32, top: &Top) -> Option<u32>
        ensures { (d : PlainDeclared) → ArePlaces d.variables self.now → d.scopes ≡ scopes →
            MatchOption result (HasNone (has_inputs (plain_top top.now) d) scopes) (IsScope (plain_top top.now) d) }
    {
        let mut alone = None;
        for scope in 0..scopes {
            if self.has_all(scope, top.every.as_slice()) {
                if self.has_all(scope, top.outputs.as_slice()) {
                    return Some(scope);
                }
                if alone.is_none() {
                    alone = Some(scope);
                }
            }
        }
        alone
    }
}
