//! What the clocked blocks of a module assign outside their loops.

ghost use Rattle.std.specs.Prelude.{◌≡◌, ◌++◌, ◌||◌, IfOk, OnOk, flat_map, map, option_map};
ghost use Rattle.std.specs.List.{list_any};
ghost use Rattle.std.specs.Str.{bytes_eq};
ghost use Rattle.rr_syntax.specs.View.{plain, plain_item, plain_module};
ghost use Rattle.rr_flat.specs.Signals.{Text};
ghost use Rattle.rr_text_names.specs.View.{plain_target};
ghost use Rattle.rr_guard.specs.Names.{assigned_at_edges as assigned_of, is_later, is_now, whole_name as whole_name_of};

use crate::texts::TextSet;
use rr_syntax::{Events, Expr, Item, Module};
use rr_text_names::{Target, add_assigned_targets, identifier_of};
use std::alloc::{AllocError, Global};

#[tactic(auto, using(crate::proofs::AssignedNodes::assigned_nodes))]
fn add_item<'a>(list: &mut Vec<Target<'a>>, item: &'a Item<'a>) -> Result<(), AllocError>
    ensures { OnOk result (map plain_target list.new.items ≡ map plain_target list.old.items ++ assigned_of (plain_item item.now)) }
{
    match item {
        Item::Always {
            events: Events::Edges { .. },
            body,
            ..
        } => add_assigned_targets(list, body),
        Item::Always {
            events: Events::Star { .. },
            ..
        }
        | Item::Always {
            events: Events::Levels { .. },
            ..
        }
        | Item::Ports(_)
        | Item::Nets { .. }
        | Item::Variables { .. }
        | Item::Integers { .. }
        | Item::Parameters(_)
        | Item::Assigns { .. }
        | Item::Initial { .. }
        | Item::Instances { .. } => Ok(()),
    }
}

/// The names and selects that the clocked blocks of a module assign outside their loops, in the order of
/// the text.
pub(crate) fn assigned_at_edges<'a>(
    alloc: Global,
    module: &Module<'a>,
) -> Result<Vec<Target<'a>>, AllocError>
    ensures { IfOk result (λ r. map plain_target r.items ≡ flat_map assigned_of (plain_module «module».now).items) }
{
    let mut list = Vec::new(alloc);
    for item in module.items.iter() {
        add_item(&mut list, item)?;
    }
    Ok(list)
}

/// The name of a target that is a name as a whole.
#[tactic(auto, using(crate::proofs::AssignedNodes::whole_nodes))]
pub fn whole_name<'a>(part: &'a Expr<'a>) -> Option<&'a str>
    ensures { option_map (λ n. n.now) result ≡ whole_name_of (plain part.now) }
{
    match part {
        Expr::Name { name, .. } => Some(name),
        Expr::Literal { .. }
        | Expr::Bit { .. }
        | Expr::Part { .. }
        | Expr::Indexed { .. }
        | Expr::Unary { .. }
        | Expr::Binary { .. }
        | Expr::Cond { .. }
        | Expr::Concat { .. }
        | Expr::Repeat { .. }
        | Expr::Cast { .. }
        | Expr::Paren { .. } => None,
    }
}

/// The name of a target that is assigned by `=`, whole or in part.
fn add_now<'a>(set: &mut TextSet<'a>, target: &Target<'a>) -> Result<(), AllocError>
    ensures { OnOk result ((name : Text) → list_any (bytes_eq name) set.new ≡ (list_any (bytes_eq name) set.old || is_now name (plain_target target.now))) }
{
    if target.blocking {
        let named = identifier_of(target.part);
        set.add(named.name)?;
    }
    Ok(())
}

/// The name of a target that is assigned by `<=` as a whole.
fn add_later<'a>(set: &mut TextSet<'a>, target: &Target<'a>) -> Result<(), AllocError>
    ensures { OnOk result ((name : Text) → list_any (bytes_eq name) set.new ≡ (list_any (bytes_eq name) set.old || is_later name (plain_target target.now))) }
{
    if target.blocking {
        return Ok(());
    }
    if let Some(name) = whole_name(target.part) {
        set.add(name)?;
    }
    Ok(())
}

/// The names that are assigned by `=`.
pub(crate) fn written_now<'a>(
    alloc: Global,
    targets: &[Target<'a>],
) -> Result<TextSet<'a>, AllocError>
    ensures { IfOk result (λ set. (name : Text) → list_any (bytes_eq name) set ≡ list_any (is_now name) (map plain_target targets.now)) }
{
    let mut set = TextSet::new(alloc);
    for target in targets.iter() {
        add_now(&mut set, target)?;
    }
    Ok(set)
}

/// The names that are assigned by `<=`.
pub(crate) fn written_later<'a>(
    alloc: Global,
    targets: &[Target<'a>],
) -> Result<TextSet<'a>, AllocError>
    ensures { IfOk result (λ set. (name : Text) → list_any (bytes_eq name) set ≡ list_any (is_later name) (map plain_target targets.now)) }
{
    let mut set = TextSet::new(alloc);
    for target in targets.iter() {
        add_later(&mut set, target)?;
    }
    Ok(set)
}
