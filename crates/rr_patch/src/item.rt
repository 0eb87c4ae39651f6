//! The changes of module items. Where a part of an item stands in the source is read from the numbers
//! of its tokens, so what stays needs no step.

ghost use Rattle.std.specs.Prelude.{◌<◌, ◌^◌, length, map, IfOk};
ghost use Rattle.rr_syntax.specs.Items.{spell_each, spell_item, spell_declarator, spell_pair, NumberedEach};
ghost use Rattle.rr_syntax.specs.View.{plain_item, plain_declarator, plain_pair};
ghost use Rattle.rr_respell.specs.Printing.{each_pieces, item_pieces, net_pieces, pair_pieces};
ghost use Rattle.rr_patch.specs.Changes.{plain_changes};
ghost use Rattle.rr_patch.specs.Walks.{Adds, ItemAt, NetAt, PairAt};

use crate::body::body;
use crate::change::Change;
use crate::connections::children;
use crate::expression::expression;
use rr_choice::{Choice, SiteList};
use rr_expr::first_token;
use rr_syntax::{Declarator, Item, Pair, events_len, expression_len};
use std::alloc::AllocError;

/// The changes of a declared net, whose value begins two tokens after its name.
#[tactic(auto, using(crate::proofs::ItemWalks::net_walks))]
fn net<'a>(
    net: &Declarator,
    list: &SiteList<'a>,
    choice: &Choice,
    out: &mut Vec<Change<'a>>,
) -> Result<(), AllocError>
    requires fits { length (spell_declarator (plain_declarator net.now)) < 2 ^ 62 }
    ensures { IfOk result (λ _. Adds (plain_changes out.old.items) (plain_changes out.new.items) (NetAt (plain_declarator net.now)) (net_pieces list.now choice.now.picks.items (plain_declarator net.now))) }
{
    match net.value {
        None => Ok(()),
        Some(value) => {
            let start = u64::from(net.token) + 2;
            expression(value, start, list, choice, out)?;
            Ok(())
        }
    }
}

/// The changes of declared nets, each after a comma.
fn nets<'a>(
    entries: &[Declarator],
    list: &SiteList<'a>,
    choice: &Choice,
    out: &mut Vec<Change<'a>>,
) -> Result<(), AllocError>
    requires fits { length (spell_each spell_declarator (map plain_declarator entries.now)) < 2 ^ 62 }
    ensures { IfOk result (λ _. Adds (plain_changes out.old.items) (plain_changes out.new.items) (NumberedEach spell_declarator NetAt (map plain_declarator entries.now)) (each_pieces (net_pieces list.now choice.now.picks.items) (map plain_declarator entries.now))) }
{
    for one in entries.iter() {
        net(one, list, choice, out)?;
    }
    Ok(())
}

/// The changes of a continuous assignment, whose value stands after the target, which stays, and `=`.
#[tactic(auto, using(crate::proofs::ItemWalks::pair_walks))]
fn pair<'a>(
    pair: &Pair,
    list: &SiteList<'a>,
    choice: &Choice,
    out: &mut Vec<Change<'a>>,
) -> Result<(), AllocError>
    requires fits { length (spell_pair (plain_pair pair.now)) < 2 ^ 62 }
    ensures { IfOk result (λ _. Adds (plain_changes out.old.items) (plain_changes out.new.items) (PairAt (plain_pair pair.now)) (pair_pieces list.now choice.now.picks.items (plain_pair pair.now))) }
{
    let equals = u64::from(first_token(pair.target)) + expression_len(pair.target);
    expression(pair.value, equals + 1, list, choice, out)?;
    Ok(())
}

/// The changes of continuous assignments, each after a comma.
fn pairs<'a>(
    entries: &[Pair],
    list: &SiteList<'a>,
    choice: &Choice,
    out: &mut Vec<Change<'a>>,
) -> Result<(), AllocError>
    requires fits { length (spell_each spell_pair (map plain_pair entries.now)) < 2 ^ 62 }
    ensures { IfOk result (λ _. Adds (plain_changes out.old.items) (plain_changes out.new.items) (NumberedEach spell_pair PairAt (map plain_pair entries.now)) (each_pieces (pair_pieces list.now choice.now.picks.items) (map plain_pair entries.now))) }
{
    for one in entries.iter() {
        pair(one, list, choice, out)?;
    }
    Ok(())
}

/// The changes of an item; declarations of ports, variables and parameters stay, and so do ranges,
/// overrides, event lists and `initial` items.
#[tactic(auto, using(crate::proofs::ItemWalks::item_walks))]
pub(crate) fn item<'a>(
    item: &Item,
    list: &SiteList<'a>,
    choice: &Choice,
    out: &mut Vec<Change<'a>>,
) -> Result<(), AllocError>
    requires fits { length (spell_item (plain_item item.now)) < 2 ^ 61 }
    ensures { IfOk result (λ _. Adds (plain_changes out.old.items) (plain_changes out.new.items) (ItemAt (plain_item item.now)) (item_pieces list.now choice.now.picks.items (plain_item item.now))) }
{
    match item {
        Item::Ports(_) => Ok(()),
        Item::Variables { .. } => Ok(()),
        Item::Integers { .. } => Ok(()),
        Item::Parameters(_) => Ok(()),
        Item::Initial { .. } => Ok(()),
        Item::Nets { names, .. } => {
            nets(names, list, choice, out)?;
            Ok(())
        }
        Item::Assigns { pairs: entries } => {
            pairs(entries, list, choice, out)?;
            Ok(())
        }
        Item::Always {
            events,
            body: stmt,
            token,
        } => {
            let start = u64::from(*token) + 2 + events_len(events);
            body(stmt, start, list, choice, out)?;
            Ok(())
        }
        Item::Instances { list: entries, .. } => {
            children(entries, list, choice, out)?;
            Ok(())
        }
    }
}
