//! The changes of modules and of a whole source.

ghost use Rattle.std.specs.Prelude.{◌<◌, ◌^◌, length, map, IfOk};
ghost use Rattle.rr_syntax.specs.Items.{spell_all, spell_item, spell_module, NumberedAll};
ghost use Rattle.rr_syntax.specs.View.{plain_item, plain_module};
ghost use Rattle.rr_respell.specs.Printing.{all_pieces, item_pieces, module_pieces};
ghost use Rattle.rr_patch.specs.Changes.{plain_changes};
ghost use Rattle.rr_patch.specs.Walks.{Adds, ItemAt, ModuleAt};

use crate::change::Change;
use crate::item::item;
use rr_choice::{Choice, SiteList};
use rr_syntax::{Item, Module};
use std::alloc::AllocError;

/// The changes of the items of a module.
fn items<'a>(
    entries: &[Item],
    list: &SiteList<'a>,
    choice: &Choice,
    out: &mut Vec<Change<'a>>,
) -> Result<(), AllocError>
    requires fits { length (spell_all spell_item (map plain_item entries.now)) < 2 ^ 61 }
    ensures { IfOk result (λ _. Adds (plain_changes out.old.items) (plain_changes out.new.items) (NumberedAll spell_item ItemAt (map plain_item entries.now)) (all_pieces (item_pieces list.now choice.now.picks.items) (map plain_item entries.now))) }
{
    for one in entries.iter() {
        item(one, list, choice, out)?;
    }
    Ok(())
}

/// The changes of a module: those of its items, since its head stays.
#[tactic(auto, using(crate::proofs::ItemWalks::module_walks))]
fn declaration<'a>(
    declaration: &Module,
    list: &SiteList<'a>,
    choice: &Choice,
    out: &mut Vec<Change<'a>>,
) -> Result<(), AllocError>
    requires fits { length (spell_module (plain_module declaration.now)) < 2 ^ 61 }
    ensures { IfOk result (λ _. Adds (plain_changes out.old.items) (plain_changes out.new.items) (ModuleAt (plain_module declaration.now)) (module_pieces list.now choice.now.picks.items (plain_module declaration.now))) }
{
    items(declaration.items, list, choice, out)?;
    Ok(())
}

/// The changes of modules.
pub(crate) fn declarations<'a>(
    entries: &[Module],
    list: &SiteList<'a>,
    choice: &Choice,
    out: &mut Vec<Change<'a>>,
) -> Result<(), AllocError>
    requires fits { length (spell_all spell_module (map plain_module entries.now)) < 2 ^ 61 }
    ensures { IfOk result (λ _. Adds (plain_changes out.old.items) (plain_changes out.new.items) (NumberedAll spell_module ModuleAt (map plain_module entries.now)) (all_pieces (module_pieces list.now choice.now.picks.items) (map plain_module entries.now))) }
{
    for one in entries.iter() {
        declaration(one, list, choice, out)?;
    }
    Ok(())
}
