//! The names that are declared anywhere in a module (IEEE 1364-2005 section 12.7).
ghost use Rattle.std.specs.Prelude.{◌≡◌, OnOk, map, fold};
ghost use Rattle.rr_syntax.specs.View.{plain_identifier, plain_declarator, plain_port, plain_item, plain_module};
ghost use Rattle.rr_declarations.specs.Declarations.{know as know_in, know_identifier, know_declarator, know_ports as know_ports_in, know_item as know_item_in, know_port_item as know_port_item_in, known};

use crate::parameters::put;
use rr_expr::{Entity, Scope};
use rr_syntax::{Declarator, Group, Item, Module, Named};
use std::alloc::AllocError;

/// A net or a variable, wherever it stands.
pub(crate) fn know<'a>(names: &mut Scope<'a>, name: &'a str) -> Result<(), AllocError>
    ensures { OnOk result (names.new ≡ know_in names.old name.now) }
{
    let entity = Entity::Signal {
        id: 0,
        range: None,
        signed: false,
    };
    put(names, name, entity)
}

fn know_identifiers<'a>(names: &mut Scope<'a>, list: &[Named<'a>]) -> Result<(), AllocError>
    ensures { OnOk result (names.new ≡ fold know_identifier names.old (map plain_identifier list.now)) }
{
    for named in list.iter() {
        know(names, named.name)?;
    }
    Ok(())
}

fn know_declarators<'a>(names: &mut Scope<'a>, list: &[Declarator<'a>]) -> Result<(), AllocError>
    ensures { OnOk result (names.new ≡ fold know_declarator names.old (map plain_declarator list.now)) }
{
    for declarator in list.iter() {
        know(names, declarator.name)?;
    }
    Ok(())
}

#[tactic(auto, unfolding(crate::specs::Declarations::know_ports, rr_syntax::specs::View::plain_port))]
fn know_ports<'a>(names: &mut Scope<'a>, group: &Group<'a>) -> Result<(), AllocError>
    ensures { OnOk result (names.new ≡ know_ports_in names.old (plain_port group.now)) }
{
    know_declarators(names, group.names)
}

#[tactic(auto, unfolding(crate::specs::Declarations::know_item, rr_syntax::specs::View::plain_item))]
fn know_item<'a>(names: &mut Scope<'a>, item: &Item<'a>) -> Result<(), AllocError>
    ensures { OnOk result (names.new ≡ know_item_in names.old (plain_item item.now)) }
{
    match item {
        Item::Ports(group) => know_ports(names, group),
        Item::Nets { names: list, .. } | Item::Variables { names: list, .. } => {
            know_declarators(names, list)
        }
        Item::Integers { names: list } => know_identifiers(names, list),
        Item::Parameters(_)
        | Item::Assigns { .. }
        | Item::Always { .. }
        | Item::Initial { .. }
        | Item::Instances { .. } => Ok(()),
    }
}

#[tactic(auto, unfolding(crate::specs::Declarations::know_port_item, rr_syntax::specs::View::plain_item))]
fn know_port_item<'a>(names: &mut Scope<'a>, item: &Item<'a>) -> Result<(), AllocError>
    ensures { OnOk result (names.new ≡ know_port_item_in names.old (plain_item item.now)) }
{
    match item {
        Item::Ports(group) => know_ports(names, group),
        Item::Nets { .. }
        | Item::Variables { .. }
        | Item::Integers { .. }
        | Item::Parameters(_)
        | Item::Assigns { .. }
        | Item::Always { .. }
        | Item::Initial { .. }
        | Item::Instances { .. } => Ok(()),
    }
}

/// The names in declarations of ports.
pub(crate) fn know_groups<'a>(names: &mut Scope<'a>, groups: &[Group<'a>]) -> Result<(), AllocError>
    ensures { OnOk result (names.new ≡ fold know_ports_in names.old (map plain_port groups.now)) }
{
    for group in groups.iter() {
        know_ports(names, group)?;
    }
    Ok(())
}

fn know_items<'a>(names: &mut Scope<'a>, items: &[Item<'a>]) -> Result<(), AllocError>
    ensures { OnOk result (names.new ≡ fold know_item_in names.old (map plain_item items.now)) }
{
    for item in items.iter() {
        know_item(names, item)?;
    }
    Ok(())
}

/// The names in `input` and `output` items.
pub(crate) fn know_port_items<'a>(
    names: &mut Scope<'a>,
    items: &[Item<'a>],
) -> Result<(), AllocError>
    ensures { OnOk result (names.new ≡ fold know_port_item_in names.old (map plain_item items.now)) }
{
    for item in items.iter() {
        know_port_item(names, item)?;
    }
    Ok(())
}

/// Adds each net and variable of a module, wherever it stands, to its parameters.
#[tactic(auto, unfolding(crate::specs::Declarations::known, rr_syntax::specs::View::plain_module))]
pub(crate) fn know_module<'a>(names: &mut Scope<'a>, own: &Module<'a>) -> Result<(), AllocError>
    ensures { OnOk result (names.new ≡ known (plain_module own.now) names.old) }
{
    know_groups(names, own.groups)?;
    know_items(names, own.items)
}
