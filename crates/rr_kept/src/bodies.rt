//! The bodies of `always` items by their first tokens.

ghost use Rattle.std.specs.Prelude.{◌≡◌, ◌<◌, ◌^◌, ◌==◌, ℕ, Some, None, if◌then◌else◌, length, map, nat_eq, unwrap_or, IfOk, OnOk};
ghost use Rattle.std.specs.List.{flat_map};
ghost use Rattle.std.specs.Option.{option_or};
ghost use Rattle.indexmap.specs.IndexMap.{get};
ghost use Rattle.rr_syntax.specs.Items.{spell_all, spell_item, spell_module, spell_source};
ghost use Rattle.rr_syntax.specs.View.{plain_item, plain_module, plain_source};
ghost use Rattle.rr_kept.specs.Bodies.{first_body};
ghost use Rattle.rr_kept.specs.Kept.{body_at, body_length_in};

use indexmap::IndexMap;
use rr_patch::statement_len;
use rr_syntax::{Item, Module, Source, events_len};
use std::alloc::{AllocError, Global};

/// Puts a body into a table, where none with its first token is there.
fn put(bodies: &mut IndexMap<u64, u64>, token: u64, size: u64) -> Result<(), AllocError>
    ensures { OnOk result ((k : ℕ) → get nat_eq bodies.new k ≡ option_or (get nat_eq bodies.old k) (if token == k then Some size else None)) }
{
    if bodies.contains_key(&token) {
        return Ok(());
    }
    match bodies.insert(token, size) {
        Ok(_) => Ok(()),
        Err(_) => Err(AllocError),
    }
}

/// Puts the body of an item into a table, where it has one: it stands behind `always`, `@` and the events.
#[tactic(auto, using(crate::proofs::BodyTable::item_steps))]
fn item(alloc: Global, item: &Item, bodies: &mut IndexMap<u64, u64>) -> Result<(), AllocError>
    requires fits { length (spell_item (plain_item item.now)) < 2 ^ 61 }
    ensures { OnOk result ((k : ℕ) → get nat_eq bodies.new k ≡ option_or (get nat_eq bodies.old k) (body_at k (plain_item item.now))) }
{
    match item {
        Item::Ports(_) => Ok(()),
        Item::Nets { .. } => Ok(()),
        Item::Variables { .. } => Ok(()),
        Item::Integers { .. } => Ok(()),
        Item::Parameters(_) => Ok(()),
        Item::Assigns { .. } => Ok(()),
        Item::Initial { .. } => Ok(()),
        Item::Instances { .. } => Ok(()),
        Item::Always {
            events,
            body,
            token,
        } => {
            let start = u64::from(*token) + 2 + events_len(events);
            let size = statement_len(alloc, body)?;
            put(bodies, start, size)?;
            Ok(())
        }
    }
}

/// Puts the bodies of items into a table.
fn items(alloc: Global, entries: &[Item], bodies: &mut IndexMap<u64, u64>) -> Result<(), AllocError>
    requires fits { length (spell_all spell_item (map plain_item entries.now)) < 2 ^ 61 }
    ensures { OnOk result ((k : ℕ) → get nat_eq bodies.new k ≡ option_or (get nat_eq bodies.old k) (first_body k (map plain_item entries.now))) }
{
    for one in entries.iter() {
        item(alloc, one, bodies)?;
    }
    Ok(())
}

/// Puts the bodies of modules into a table.
fn modules(
    alloc: Global,
    entries: &[Module],
    bodies: &mut IndexMap<u64, u64>,
) -> Result<(), AllocError>
    requires fits { length (spell_all spell_module (map plain_module entries.now)) < 2 ^ 61 }
    ensures { OnOk result ((k : ℕ) → get nat_eq bodies.new k ≡ option_or (get nat_eq bodies.old k) (first_body k (flat_map (λ m. m.items) (map plain_module entries.now)))) }
{
    for one in entries.iter() {
        items(alloc, one.items, bodies)?;
    }
    Ok(())
}

/// The numbers of tokens of the bodies of a source.
pub(crate) fn bodies_of(alloc: Global, source: &Source) -> Result<IndexMap<u64, u64>, AllocError>
    requires fits { length (spell_source (plain_source source.now)) < 2 ^ 61 }
    ensures { IfOk result (λ bodies. (k : ℕ) → unwrap_or (get nat_eq bodies k) 0 ≡ body_length_in (plain_source source.now) k) }
{
    let mut bodies = IndexMap::new(alloc);
    modules(alloc, source.modules, &mut bodies)?;
    Ok(bodies)
}

/// The number of tokens of the body that begins at a token, and 0 where none does.
pub(crate) fn body_len(bodies: &IndexMap<u64, u64>, token: u32) -> u64
    ensures { result ≡ unwrap_or (get nat_eq bodies.now token) 0 }
{
    bodies.get(&u64::from(token)).copied().unwrap_or(0)
}
