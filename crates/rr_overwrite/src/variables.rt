//! The variables of a module.

ghost use Rattle.std.specs.Prelude.{◌≡◌, ◌||◌, ◌&&◌, IfOk, OnOk, flat_map, map};
ghost use Rattle.std.specs.List.{list_any};
ghost use Rattle.rr_syntax.specs.View.{plain_identifier, plain_item, plain_module, plain_declarator, plain_port, plain_range};
ghost use Rattle.rr_flat.specs.Signals.{Text};
ghost use Rattle.rr_guard.specs.Candidates.{is_among};
ghost use Rattle.rr_guard.specs.Names.{net_name, wordless_name};
ghost use Rattle.rr_overwrite.specs.Overwrites.{is_in, is_open as is_open_range, item_opens, item_sets, port_opens, port_sets};
ghost use Rattle.rr_overwrite.specs.Variables.{AreVariables};

use crate::ranges::is_open;
use rr_guard::TextSet;
use rr_syntax::{Bounds, Declarator, Dir, Group, Item, Module, Named};
use std::alloc::{AllocError, Global};

/// The names that a module declares by `reg`, and those that no last assignment may write: those of an
/// `integer`, and those with a range in which a parameter is named.
#[derive(Drop)]
pub struct Variables<'a> {
    pub declared: TextSet<'a>,
    pub barred: TextSet<'a>,
}

fn add_names<'a>(set: &mut TextSet<'a>, names: &[Named<'a>]) -> Result<(), AllocError>
    ensures { OnOk result ((name : Text) → is_among name set.new ≡ (is_among name set.old || is_in name (map plain_identifier names.now))) }
{
    for named in names.iter() {
        set.add(named.name)?;
    }
    Ok(())
}

fn add_declared<'a>(set: &mut TextSet<'a>, names: &[Declarator<'a>]) -> Result<(), AllocError>
    ensures { OnOk result ((name : Text) → is_among name set.new ≡ (is_among name set.old || is_in name (map net_name (map plain_declarator names.now)))) }
{
    for declared in names.iter() {
        set.add(declared.name)?;
    }
    Ok(())
}

/// A variable with words is a memory, which is never assigned as a whole (IEEE 1364-2005 section 4.9.3).
#[tactic(auto, using(crate::proofs::Declared::wordless_nodes))]
fn add_wordless<'a>(set: &mut TextSet<'a>, declared: &Declarator<'a>) -> Result<(), AllocError>
    ensures { OnOk result ((name : Text) → is_among name set.new ≡ (is_among name set.old || is_in name (wordless_name (plain_declarator declared.now)))) }
{
    match declared.words {
        None => {
            set.add(declared.name)?;
            Ok(())
        }
        Some(_) => Ok(()),
    }
}

fn add_variables<'a>(set: &mut TextSet<'a>, names: &[Declarator<'a>]) -> Result<(), AllocError>
    ensures { OnOk result ((name : Text) → is_among name set.new ≡ (is_among name set.old || is_in name (flat_map wordless_name (map plain_declarator names.now)))) }
{
    for declared in names.iter() {
        add_wordless(set, declared)?;
    }
    Ok(())
}

/// The names of a port declaration with `reg`.
#[tactic(auto, using(crate::proofs::Declared::sets_nodes))]
fn add_set_by_port<'a>(set: &mut TextSet<'a>, group: &Group<'a>) -> Result<(), AllocError>
    ensures { OnOk result ((name : Text) → is_among name set.new ≡ (is_among name set.old || port_sets name (plain_port group.now))) }
{
    match group.dir {
        Dir::OutputReg => add_declared(set, group.names),
        Dir::Input | Dir::InputWire | Dir::Output | Dir::OutputWire => Ok(()),
    }
}

#[tactic(auto, using(crate::proofs::Declared::sets_nodes))]
fn add_set_by_item<'a>(set: &mut TextSet<'a>, item: &Item<'a>) -> Result<(), AllocError>
    ensures { OnOk result ((name : Text) → is_among name set.new ≡ (is_among name set.old || item_sets name (plain_item item.now))) }
{
    match item {
        Item::Ports(group) => add_set_by_port(set, group),
        Item::Variables { names, .. } => add_variables(set, names),
        Item::Nets { .. }
        | Item::Integers { .. }
        | Item::Parameters(_)
        | Item::Assigns { .. }
        | Item::Always { .. }
        | Item::Initial { .. }
        | Item::Instances { .. } => Ok(()),
    }
}

/// The names of a port declaration with a range in which a name stands.
#[tactic(auto, using(crate::proofs::Declared::opens_nodes))]
fn add_open_by_port<'a>(
    alloc: Global,
    set: &mut TextSet<'a>,
    group: &Group<'a>,
) -> Result<(), AllocError>
    ensures { OnOk result ((name : Text) → is_among name set.new ≡ (is_among name set.old || port_opens name (plain_port group.now))) }
{
    if is_open(alloc, &group.range)? {
        return add_declared(set, group.names);
    }
    Ok(())
}

fn add_open_names<'a>(
    alloc: Global,
    set: &mut TextSet<'a>,
    range: &Option<Bounds<'a>>,
    names: &[Declarator<'a>],
) -> Result<(), AllocError>
    ensures { OnOk result ((name : Text) → is_among name set.new ≡ (is_among name set.old || (is_open_range (plain_range range.now) && is_in name (map net_name (map plain_declarator names.now))))) }
{
    if is_open(alloc, range)? {
        return add_declared(set, names);
    }
    Ok(())
}

fn add_open_variables<'a>(
    alloc: Global,
    set: &mut TextSet<'a>,
    range: &Option<Bounds<'a>>,
    names: &[Declarator<'a>],
) -> Result<(), AllocError>
    ensures { OnOk result ((name : Text) → is_among name set.new ≡ (is_among name set.old || (is_open_range (plain_range range.now) && is_in name (flat_map wordless_name (map plain_declarator names.now))))) }
{
    if is_open(alloc, range)? {
        return add_variables(set, names);
    }
    Ok(())
}

/// The names that an item declares as `integer` or with such a range.
#[tactic(auto, using(crate::proofs::Declared::opens_nodes))]
fn add_open_by_item<'a>(
    alloc: Global,
    set: &mut TextSet<'a>,
    item: &Item<'a>,
) -> Result<(), AllocError>
    ensures { OnOk result ((name : Text) → is_among name set.new ≡ (is_among name set.old || item_opens name (plain_item item.now))) }
{
    match item {
        Item::Ports(group) => add_open_by_port(alloc, set, group),
        Item::Nets { range, names, .. } => add_open_names(alloc, set, range, names),
        Item::Variables { range, names, .. } => add_open_variables(alloc, set, range, names),
        Item::Integers { names } => add_names(set, names),
        Item::Parameters(_)
        | Item::Assigns { .. }
        | Item::Always { .. }
        | Item::Initial { .. }
        | Item::Instances { .. } => Ok(()),
    }
}

fn add_set_by_ports<'a>(set: &mut TextSet<'a>, groups: &[Group<'a>]) -> Result<(), AllocError>
    ensures { OnOk result ((name : Text) → is_among name set.new ≡ (is_among name set.old || list_any (port_sets name) (map plain_port groups.now))) }
{
    for group in groups.iter() {
        add_set_by_port(set, group)?;
    }
    Ok(())
}

fn add_set_by_items<'a>(set: &mut TextSet<'a>, items: &[Item<'a>]) -> Result<(), AllocError>
    ensures { OnOk result ((name : Text) → is_among name set.new ≡ (is_among name set.old || list_any (item_sets name) (map plain_item items.now))) }
{
    for item in items.iter() {
        add_set_by_item(set, item)?;
    }
    Ok(())
}

fn add_open_by_ports<'a>(
    alloc: Global,
    set: &mut TextSet<'a>,
    groups: &[Group<'a>],
) -> Result<(), AllocError>
    ensures { OnOk result ((name : Text) → is_among name set.new ≡ (is_among name set.old || list_any (port_opens name) (map plain_port groups.now))) }
{
    for group in groups.iter() {
        add_open_by_port(alloc, set, group)?;
    }
    Ok(())
}

fn add_open_by_items<'a>(
    alloc: Global,
    set: &mut TextSet<'a>,
    items: &[Item<'a>],
) -> Result<(), AllocError>
    ensures { OnOk result ((name : Text) → is_among name set.new ≡ (is_among name set.old || list_any (item_opens name) (map plain_item items.now))) }
{
    for item in items.iter() {
        add_open_by_item(alloc, set, item)?;
    }
    Ok(())
}

/// The variables of a module, and those of its names that no last assignment may write.
pub fn variables_of<'a>(alloc: Global, module: &Module<'a>) -> Result<Variables<'a>, AllocError>
    ensures { IfOk result (λ v. AreVariables (plain_module «module».now) v) }
{
    let mut declared = TextSet::new(alloc);
    add_set_by_ports(&mut declared, module.groups)?;
    add_set_by_items(&mut declared, module.items)?;
    let mut barred = TextSet::new(alloc);
    add_open_by_ports(alloc, &mut barred, module.groups)?;
    add_open_by_items(alloc, &mut barred, module.items)?;
    Ok(Variables { declared, barred })
}
