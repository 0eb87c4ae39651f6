//! The changes of items and modules. Where a body stands in the source is read from the number of its
//! `always`, so what stays needs no step.
ghost use Rattle.std.specs.Prelude.{◌≡◌, ◌<◌, ◌+◌, ◌^◌, ◌++◌, ℕ, List, length, map, nat_eq, IfOk};
ghost use Rattle.std.specs.List.{list_any};
ghost use Rattle.indexmap.specs.IndexSet.{contains};
ghost use Rattle.rr_syntax.specs.Items.{spell_all, spell_item, spell_module, NumberedAll};
ghost use Rattle.rr_syntax.specs.Statements.{spell_statement};
ghost use Rattle.rr_syntax.specs.View.{plain_item, plain_module, plain_statement, texts};
ghost use Rattle.rr_respell.specs.Pieces.{puts};
ghost use Rattle.rr_respell.specs.Printing.{all_pieces};
ghost use Rattle.rr_patch.specs.Changes.{changes, plain_changes};
ghost use Rattle.rr_patch.specs.Walks.{Adds, ItemAt, ModuleAt};
ghost use Rattle.rr_lint_names.specs.Latched.{marks};
ghost use Rattle.rr_lint.specs.Walks.{numbered_pieces};
ghost use Rattle.rr_lint_print.specs.Pieces.{cleared_news, defaulted_pieces, immediate_pieces, item_pieces, mended_pieces, module_pieces, modules_pieces};

use crate::walk::statement;
use indexmap::IndexSet;
use rr_lint_names::{Noted, cleared_names, has_edges, has_number};
use rr_patch::{Added, Change, Fixed, put_all};
use rr_syntax::{Item, Module, Stmt, events_len};
use std::alloc::{AllocError, Global};

/// The new tokens `v = 0;` for each of some names.
fn clear_all<'a>(out: &mut Vec<Change<'a>>, place: u64, names: &[&'a str]) -> Result<(), AllocError>
    ensures { IfOk result (λ _. plain_changes out.new.items ≡ plain_changes out.old.items ++ changes place (puts (cleared_news (texts names.now)))) }
{
    for name in names.iter() {
        put_all(
            out,
            place,
            &[
                Added::Name(*name),
                Added::Fixed(Fixed::Equals),
                Added::Fixed(Fixed::Zero),
                Added::Fixed(Fixed::Semicolon),
            ],
        )?;
    }
    Ok(())
}

/// The changes of a body whose first token has the number `at`, which clears some names.
fn defaulted<'a>(
    out: &mut Vec<Change<'a>>,
    at: u64,
    names: &[&'a str],
    body: &Stmt,
) -> Result<(), AllocError>
    requires fits { at + length (spell_statement (plain_statement body.now)) < 2 ^ 63 }
    ensures { IfOk result (λ _. plain_changes out.new.items ≡ plain_changes out.old.items ++ changes at (defaulted_pieces (texts names.now) (immediate_pieces (plain_statement body.now)))) }
{
    if names.len() == 0 {
        statement(body, at, out)?;
        return Ok(());
    }
    put_all(out, at, &[Added::Fixed(Fixed::Begin)])?;
    clear_all(out, at, names)?;
    let next = statement(body, at, out)?;
    put_all(out, next, &[Added::Fixed(Fixed::End)])?;
    Ok(())
}

/// The changes of the body of the `always` with a token, whose first token has the number `at`.
fn mended<'a>(
    alloc: Global,
    noted: &Noted,
    token: u32,
    at: u64,
    body: &'a Stmt<'a>,
    out: &mut Vec<Change<'a>>,
) -> Result<(), AllocError>
    requires fits { at + length (spell_statement (plain_statement body.now)) < 2 ^ 63 }
    ensures { IfOk result (λ _. plain_changes out.new.items ≡ plain_changes out.old.items ++ changes at (mended_pieces (marks noted.now) token (plain_statement body.now))) }
{
    let names = cleared_names(alloc, noted, token, body)?;
    defaulted(out, at, names.as_slice(), body)?;
    Ok(())
}

/// The changes of an item: those of the body of an `always` without edges.
#[tactic(auto, using(rr_patch::proofs::ItemWalks::item_walks))]
fn item<'a>(
    alloc: Global,
    noted: &Noted,
    item: &Item<'a>,
    out: &mut Vec<Change<'a>>,
) -> Result<(), AllocError>
    requires fits { length (spell_item (plain_item item.now)) < 2 ^ 61 }
    ensures { IfOk result (λ _. Adds (plain_changes out.old.items) (plain_changes out.new.items) (ItemAt (plain_item item.now)) (item_pieces (marks noted.now) (plain_item item.now))) }
{
    match item {
        Item::Ports(_) => Ok(()),
        Item::Nets { .. } => Ok(()),
        Item::Variables { .. } => Ok(()),
        Item::Integers { .. } => Ok(()),
        Item::Parameters(_) => Ok(()),
        Item::Assigns { .. } => Ok(()),
        Item::Initial { .. } => Ok(()),
        Item::Instances { .. } => Ok(()),
        Item::Always {
            events,
            body,
            token,
        } => {
            if has_edges(events) {
                return Ok(());
            }
            let start = u64::from(*token) + 2 + events_len(events);
            mended(alloc, noted, *token, start, body, out)?;
            Ok(())
        }
    }
}

/// The changes of the items of a module.
fn items<'a>(
    alloc: Global,
    noted: &Noted,
    entries: &[Item<'a>],
    out: &mut Vec<Change<'a>>,
) -> Result<(), AllocError>
    requires fits { length (spell_all spell_item (map plain_item entries.now)) < 2 ^ 61 }
    ensures { IfOk result (λ _. Adds (plain_changes out.old.items) (plain_changes out.new.items) (NumberedAll spell_item ItemAt (map plain_item entries.now)) (all_pieces (item_pieces (marks noted.now)) (map plain_item entries.now))) }
{
    for one in entries.iter() {
        item(alloc, noted, one, out)?;
    }
    Ok(())
}

/// The changes of a module: those of its items, since its head stays.
#[tactic(auto, using(rr_patch::proofs::ItemWalks::module_walks))]
fn declaration<'a>(
    alloc: Global,
    noted: &Noted,
    declaration: &Module<'a>,
    out: &mut Vec<Change<'a>>,
) -> Result<(), AllocError>
    requires fits { length (spell_module (plain_module declaration.now)) < 2 ^ 61 }
    ensures { IfOk result (λ _. Adds (plain_changes out.old.items) (plain_changes out.new.items) (ModuleAt (plain_module declaration.now)) (module_pieces (marks noted.now) (plain_module declaration.now))) }
{
    items(alloc, noted, declaration.items, out)?;
    Ok(())
}

/// The changes of a module with a number, where that is among some.
fn numbered<'a>(
    alloc: Global,
    noted: &Noted,
    reached: &IndexSet<u64>,
    number: usize,
    one: &Module<'a>,
    out: &mut Vec<Change<'a>>,
) -> Result<(), AllocError>
    requires fits { length (spell_module (plain_module one.now)) < 2 ^ 61 }
    ensures { IfOk result (λ _. (numbers : List ℕ) → ((k : ℕ) → contains nat_eq reached.now k ≡ list_any (nat_eq k) numbers) → Adds (plain_changes out.old.items) (plain_changes out.new.items) (ModuleAt (plain_module one.now)) (numbered_pieces numbers (marks noted.now) number (plain_module one.now))) }
{
    if has_number(reached, number) {
        declaration(alloc, noted, one, out)?;
    }
    Ok(())
}

/// The changes of the modules whose numbers are among some.
pub(crate) fn declarations<'a>(
    alloc: Global,
    noted: &Noted,
    reached: &IndexSet<u64>,
    entries: &[Module<'a>],
    out: &mut Vec<Change<'a>>,
) -> Result<(), AllocError>
    requires fits { length (spell_all spell_module (map plain_module entries.now)) < 2 ^ 61 }
    ensures { IfOk result (λ _. (numbers : List ℕ) → ((k : ℕ) → contains nat_eq reached.now k ≡ list_any (nat_eq k) numbers) → Adds (plain_changes out.old.items) (plain_changes out.new.items) (NumberedAll spell_module ModuleAt (map plain_module entries.now)) (modules_pieces numbers (marks noted.now) 0 (map plain_module entries.now))) }
{
    for (i, one) in entries.iter().enumerate() {
        numbered(alloc, noted, reached, i, one, out)?;
    }
    Ok(())
}
