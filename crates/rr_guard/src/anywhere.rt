//! What the clocked blocks of a module assign, in their loops too.

ghost use Rattle.std.specs.Prelude.{◌≡◌, ◌++◌, IfOk, OnOk, flat_map, map};
ghost use Rattle.rr_syntax.specs.View.{plain_arms, plain_item, plain_module, plain_statement, plain_statements};
ghost use Rattle.rr_text_names.specs.View.{plain_target};
ghost use Rattle.rr_guard.specs.Anywhere.{anywhere_at_edges as anywhere_of, assigned_anywhere, assigned_anywhere_by_all, assigned_anywhere_by_arms};

use rr_syntax::{Arm, Events, Item, Module, Stmt};
use rr_text_names::{Target, add_parts};
use std::alloc::{AllocError, Global};

/// The names and selects that a statement assigns, in the bodies of its loops too (IEEE 1364-2005
/// section 9.6).
#[cycle(targets)]
#[tactic(auto, using(crate::proofs::AnywhereNodes::statement_nodes))]
fn add_targets<'a>(list: &mut Vec<Target<'a>>, stmt: &'a Stmt<'a>) -> Result<(), AllocError>
    ensures { OnOk result (map plain_target list.new.items ≡ map plain_target list.old.items ++ assigned_anywhere (plain_statement stmt.now)) }
{
    match stmt {
        Stmt::Null => Ok(()),
        Stmt::Block { body, .. } => add_targets_of_all(list, body),
        Stmt::If { yes, no: None, .. } => add_targets(list, yes),
        Stmt::If {
            yes,
            no: Some(other),
            ..
        } => {
            add_targets(list, yes)?;
            add_targets(list, other)
        }
        Stmt::Case { arms, .. } => add_targets_of_arms(list, arms),
        Stmt::Assign { target, now, .. } => add_parts(list, target, *now),
        Stmt::For { body, .. } => add_targets(list, body),
    }
}

#[cycle(targets)]
fn add_targets_of_all<'a>(
    list: &mut Vec<Target<'a>>,
    body: &'a [Stmt<'a>],
) -> Result<(), AllocError>
    ensures { OnOk result (map plain_target list.new.items ≡ map plain_target list.old.items ++ assigned_anywhere_by_all (plain_statements body.now)) }
{
    for stmt in body.iter() {
        add_targets(list, stmt)?;
    }
    Ok(())
}

#[cycle(targets)]
fn add_targets_of_arms<'a>(
    list: &mut Vec<Target<'a>>,
    arms: &'a [Arm<'a>],
) -> Result<(), AllocError>
    ensures { OnOk result (map plain_target list.new.items ≡ map plain_target list.old.items ++ assigned_anywhere_by_arms (plain_arms arms.now)) }
{
    for arm in arms.iter() {
        add_targets(list, arm.body)?;
    }
    Ok(())
}

#[tactic(auto, using(crate::proofs::AnywhereNodes::item_nodes))]
fn add_item<'a>(list: &mut Vec<Target<'a>>, item: &'a Item<'a>) -> Result<(), AllocError>
    ensures { OnOk result (map plain_target list.new.items ≡ map plain_target list.old.items ++ anywhere_of (plain_item item.now)) }
{
    match item {
        Item::Always {
            events: Events::Edges { .. },
            body,
            ..
        } => add_targets(list, body),
        Item::Always {
            events: Events::Star { .. },
            ..
        }
        | Item::Always {
            events: Events::Levels { .. },
            ..
        }
        | Item::Ports(_)
        | Item::Nets { .. }
        | Item::Variables { .. }
        | Item::Integers { .. }
        | Item::Parameters(_)
        | Item::Assigns { .. }
        | Item::Initial { .. }
        | Item::Instances { .. } => Ok(()),
    }
}

/// The names and selects that the clocked blocks of a module assign, in loops too, in the order of the
/// text.
pub(crate) fn anywhere_at_edges<'a>(
    alloc: Global,
    module: &Module<'a>,
) -> Result<Vec<Target<'a>>, AllocError>
    ensures { IfOk result (λ r. map plain_target r.items ≡ flat_map anywhere_of (plain_module «module».now).items) }
{
    let mut list = Vec::new(alloc);
    for item in module.items.iter() {
        add_item(&mut list, item)?;
    }
    Ok(list)
}
