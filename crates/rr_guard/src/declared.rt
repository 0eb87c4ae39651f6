//! The names that a module declares without a range, not as `integer` and as no memory.

ghost use Rattle.std.specs.Prelude.{◌≡◌, ◌++◌, ◌∷◌, [], IfOk, OnOk, flat_map, map};
ghost use Rattle.rr_syntax.specs.View.{plain_identifier, plain_item, plain_module, plain_declarator, plain_port};
ghost use Rattle.rr_guard.specs.Names.{firsts, item_scalars, net_name, port_scalars, scalars as scalars_of, texts_of, with_first, wordless_name};

use crate::texts::TextSet;
use rr_syntax::{Declarator, Group, Item, Module, Named};
use std::alloc::{AllocError, Global};

fn push_named<'a>(list: &mut Vec<Named<'a>>, name: &Named<'a>) -> Result<(), AllocError>
    ensures { OnOk result (map plain_identifier list.new.items ≡ map plain_identifier list.old.items ++ plain_identifier name.now ∷ []) }
{
    list.push(*name)?;
    Ok(())
}

#[tactic(auto, unfolding(rr_syntax::specs::View::plain_identifier, rr_syntax::specs::View::plain_declarator))]
fn push_declared<'a>(list: &mut Vec<Named<'a>>, name: &Declarator<'a>) -> Result<(), AllocError>
    ensures { OnOk result (map plain_identifier list.new.items ≡ map plain_identifier list.old.items ++ net_name (plain_declarator name.now) ∷ []) }
{
    list.push(Named {
        token: name.token,
        name: name.name,
    })?;
    Ok(())
}

fn add_declared<'a>(list: &mut Vec<Named<'a>>, names: &[Declarator<'a>]) -> Result<(), AllocError>
    ensures { OnOk result (map plain_identifier list.new.items ≡ map plain_identifier list.old.items ++ map net_name (map plain_declarator names.now)) }
{
    for name in names.iter() {
        push_declared(list, name)?;
    }
    Ok(())
}

/// A variable with words is a memory, which is no scalar.
#[tactic(auto, using(crate::proofs::ScalarNodes::wordless_nodes))]
fn push_wordless<'a>(list: &mut Vec<Named<'a>>, name: &Declarator<'a>) -> Result<(), AllocError>
    ensures { OnOk result (map plain_identifier list.new.items ≡ map plain_identifier list.old.items ++ wordless_name (plain_declarator name.now)) }
{
    match name.words {
        None => push_declared(list, name),
        Some(_) => Ok(()),
    }
}

fn add_variables<'a>(list: &mut Vec<Named<'a>>, names: &[Declarator<'a>]) -> Result<(), AllocError>
    ensures { OnOk result (map plain_identifier list.new.items ≡ map plain_identifier list.old.items ++ flat_map wordless_name (map plain_declarator names.now)) }
{
    for name in names.iter() {
        push_wordless(list, name)?;
    }
    Ok(())
}

#[tactic(auto, using(crate::proofs::ScalarNodes::port_nodes))]
fn add_port<'a>(list: &mut Vec<Named<'a>>, group: &Group<'a>) -> Result<(), AllocError>
    ensures { OnOk result (map plain_identifier list.new.items ≡ map plain_identifier list.old.items ++ port_scalars (plain_port group.now)) }
{
    match group.range {
        None => add_declared(list, group.names),
        Some(_) => Ok(()),
    }
}

#[tactic(auto, using(crate::proofs::ScalarNodes::item_nodes))]
fn add_item<'a>(list: &mut Vec<Named<'a>>, item: &Item<'a>) -> Result<(), AllocError>
    ensures { OnOk result (map plain_identifier list.new.items ≡ map plain_identifier list.old.items ++ item_scalars (plain_item item.now)) }
{
    match item {
        Item::Ports(group) => add_port(list, group),
        Item::Nets {
            range: None,
            names,
            ..
        } => add_declared(list, names),
        Item::Variables {
            range: None,
            names,
            ..
        } => add_variables(list, names),
        Item::Nets { range: Some(_), .. }
        | Item::Variables { range: Some(_), .. }
        | Item::Integers { .. }
        | Item::Parameters(_)
        | Item::Assigns { .. }
        | Item::Always { .. }
        | Item::Initial { .. }
        | Item::Instances { .. } => Ok(()),
    }
}

fn add_ports<'a>(list: &mut Vec<Named<'a>>, groups: &[Group<'a>]) -> Result<(), AllocError>
    ensures { OnOk result (map plain_identifier list.new.items ≡ map plain_identifier list.old.items ++ flat_map port_scalars (map plain_port groups.now)) }
{
    for group in groups.iter() {
        add_port(list, group)?;
    }
    Ok(())
}

fn add_items<'a>(list: &mut Vec<Named<'a>>, items: &[Item<'a>]) -> Result<(), AllocError>
    ensures { OnOk result (map plain_identifier list.new.items ≡ map plain_identifier list.old.items ++ flat_map item_scalars (map plain_item items.now)) }
{
    for item in items.iter() {
        add_item(list, item)?;
    }
    Ok(())
}

/// The names that a module declares as scalars, in the order of the declarations; a port that is
/// declared twice stands there twice.
#[tactic(auto, using(crate::proofs::ScalarNodes::module_scalars))]
pub(crate) fn scalars<'a>(alloc: Global, module: &Module<'a>) -> Result<Vec<Named<'a>>, AllocError>
    ensures { IfOk result (λ r. map plain_identifier r.items ≡ scalars_of (plain_module «module».now)) }
{
    let mut list = Vec::new(alloc);
    add_ports(&mut list, module.groups)?;
    add_items(&mut list, module.items)?;
    Ok(list)
}

/// A name that is not among those that were seen, behind the others.
fn add_first<'a>(
    list: &mut Vec<Named<'a>>,
    seen: &mut TextSet<'a>,
    name: &Named<'a>,
) -> Result<(), AllocError>
    requires { seen.old ≡ texts_of (map plain_identifier list.old.items) }
    ensures added { OnOk result (map plain_identifier list.new.items ≡ with_first (map plain_identifier list.old.items) (plain_identifier name.now)) }
    ensures same { OnOk result (seen.new ≡ texts_of (map plain_identifier list.new.items)) }
{
    if !seen.add(name.name)? {
        return Ok(());
    }
    push_named(list, name)?;
    Ok(())
}

/// Each name once, at its first declaration.
pub(crate) fn first_declarations<'a>(
    alloc: Global,
    names: &[Named<'a>],
) -> Result<Vec<Named<'a>>, AllocError>
    ensures { IfOk result (λ r. map plain_identifier r.items ≡ firsts (map plain_identifier names.now)) }
{
    let mut seen = TextSet::new(alloc);
    let mut list = Vec::new(alloc);
    for name in names.iter() {
        add_first(&mut list, &mut seen, name)?;
    }
    Ok(list)
}
