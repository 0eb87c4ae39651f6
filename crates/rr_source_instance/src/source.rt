//! Items, modules and sources of an instance.

ghost use Rattle.std.specs.Prelude.{◌≡◌, ◌<◌, ◌^◌, length, map, IfOk, IfSome};
ghost use Rattle.rr_syntax.specs.Expressions.{spell};
ghost use Rattle.rr_syntax.specs.Items.{spell_all, spell_connection, spell_connections, spell_each, spell_instance, spell_item, spell_module, spell_declarator, spell_pair, spell_source};
ghost use Rattle.rr_syntax.specs.View.{plain, plain_connection, plain_connections, plain_instance, plain_item, plain_module, plain_declarator, plain_pair, plain_source, plain_value};
ghost use Rattle.rr_instance.specs.Instances.{instance_child, instance_connection, instance_connections, instance_item, instance_module, instance_net, instance_pair, instance_source, instance_value};

use bumpalo::Bump;
use bumpalo::collections::into_bump_slice;
use rr_choice::{Choice, SiteList};
use rr_instance::{body_instance, expression_instance, expression_instances};
use rr_syntax::{Connection, Conns, Declarator, Expr, Instance, Item, Module, Pair, Source, Stmt};
use std::alloc::AllocError;

/// A value where there is one.
#[tactic(auto, unfolding(rr_syntax::specs::View::plain_value, rr_instance::specs::Instances::instance_value))]
fn new_value<'a>(
    value: Option<&'a Expr<'a>>,
    sites: &SiteList<'a>,
    choice: &Choice,
    arena: &'a Bump,
) -> Result<Option<&'a Expr<'a>>, AllocError>
    requires fits { IfSome value (λ e. length (spell (plain e.now)) < 2 ^ 64) }
    ensures { IfOk result (λ r. plain_value r ≡ instance_value sites.now choice.now.picks.items (plain_value value.entry)) }
{
    match value {
        None => Ok(None),
        Some(expr) => {
            let new = expression_instance(expr, sites, choice, arena)?;
            let place: &'a Expr<'a> = arena.try_alloc(new)?;
            Ok(Some(place))
        }
    }
}

/// A declared net.
#[tactic(auto, using(crate::proofs::Items::net_fits), unfolding(rr_syntax::specs::View::plain_declarator, rr_instance::specs::Instances::instance_net))]
fn new_net<'a>(
    net: &Declarator<'a>,
    sites: &SiteList<'a>,
    choice: &Choice,
    arena: &'a Bump,
) -> Result<Declarator<'a>, AllocError>
    requires fits { length (spell_declarator (plain_declarator net.now)) < 2 ^ 64 }
    ensures { IfOk result (λ r. plain_declarator r ≡ instance_net sites.now choice.now.picks.items (plain_declarator net.now)) }
{
    let value = new_value(net.value, sites, choice, arena)?;
    Ok(Declarator {
        token: net.token,
        name: net.name,
        words: net.words,
        value,
    })
}

/// A continuous assignment.
#[tactic(auto, using(crate::proofs::Items::pair_fits), unfolding(rr_syntax::specs::View::plain_pair, rr_instance::specs::Instances::instance_pair))]
fn new_pair<'a>(
    pair: &Pair<'a>,
    sites: &SiteList<'a>,
    choice: &Choice,
    arena: &'a Bump,
) -> Result<Pair<'a>, AllocError>
    requires fits { length (spell_pair (plain_pair pair.now)) < 2 ^ 64 }
    ensures { IfOk result (λ r. plain_pair r ≡ instance_pair sites.now choice.now.picks.items (plain_pair pair.now)) }
{
    let new = expression_instance(pair.value, sites, choice, arena)?;
    let value: &'a Expr<'a> = arena.try_alloc(new)?;
    Ok(Pair {
        target: pair.target,
        value,
    })
}

/// A connection by name.
#[tactic(auto, using(crate::proofs::Items::connection_fits), unfolding(rr_syntax::specs::View::plain_connection, rr_instance::specs::Instances::instance_connection))]
fn new_connection<'a>(
    connection: &Connection<'a>,
    sites: &SiteList<'a>,
    choice: &Choice,
    arena: &'a Bump,
) -> Result<Connection<'a>, AllocError>
    requires fits { length (spell_connection (plain_connection connection.now)) < 2 ^ 64 }
    ensures { IfOk result (λ r. plain_connection r ≡ instance_connection sites.now choice.now.picks.items (plain_connection connection.now)) }
{
    let value = new_value(connection.value, sites, choice, arena)?;
    Ok(Connection {
        token: connection.token,
        name: connection.name,
        value,
    })
}

/// The nets of a declaration.
fn new_nets<'a>(
    old: &[Declarator<'a>],
    sites: &SiteList<'a>,
    choice: &Choice,
    arena: &'a Bump,
) -> Result<&'a [Declarator<'a>], AllocError>
    requires fits { length (spell_each spell_declarator (map plain_declarator old.now)) < 2 ^ 63 }
    ensures { IfOk result (λ r. map plain_declarator r.now ≡ map (instance_net sites.now choice.now.picks.items) (map plain_declarator old.now)) }
{
    let mut list = Vec::new(arena);
    for one in old.iter() {
        let new = new_net(one, sites, choice, arena)?;
        list.push(new)?;
    }
    Ok(into_bump_slice(list))
}

/// The assignments of an item.
fn new_pairs<'a>(
    old: &[Pair<'a>],
    sites: &SiteList<'a>,
    choice: &Choice,
    arena: &'a Bump,
) -> Result<&'a [Pair<'a>], AllocError>
    requires fits { length (spell_each spell_pair (map plain_pair old.now)) < 2 ^ 63 }
    ensures { IfOk result (λ r. map plain_pair r.now ≡ map (instance_pair sites.now choice.now.picks.items) (map plain_pair old.now)) }
{
    let mut list = Vec::new(arena);
    for one in old.iter() {
        let new = new_pair(one, sites, choice, arena)?;
        list.push(new)?;
    }
    Ok(into_bump_slice(list))
}

/// Connections by name.
fn new_named<'a>(
    old: &[Connection<'a>],
    sites: &SiteList<'a>,
    choice: &Choice,
    arena: &'a Bump,
) -> Result<&'a [Connection<'a>], AllocError>
    requires fits { length (spell_each spell_connection (map plain_connection old.now)) < 2 ^ 63 }
    ensures { IfOk result (λ r. map plain_connection r.now ≡ map (instance_connection sites.now choice.now.picks.items) (map plain_connection old.now)) }
{
    let mut list = Vec::new(arena);
    for one in old.iter() {
        let new = new_connection(one, sites, choice, arena)?;
        list.push(new)?;
    }
    Ok(into_bump_slice(list))
}

/// The connections of an instance.
#[tactic(auto, using(crate::proofs::Items::connection_arms))]
fn new_connections<'a>(
    conns: &Conns<'a>,
    sites: &SiteList<'a>,
    choice: &Choice,
    arena: &'a Bump,
) -> Result<Conns<'a>, AllocError>
    requires fits { length (spell_connections (plain_connections conns.now)) < 2 ^ 62 }
    ensures { IfOk result (λ r. plain_connections r ≡ instance_connections sites.now choice.now.picks.items (plain_connections conns.now)) }
{
    match conns {
        Conns::Positions(list) => {
            let new = expression_instances(list, sites, choice, arena)?;
            Ok(Conns::Positions(new))
        }
        Conns::Names(list) => {
            let new = new_named(list, sites, choice, arena)?;
            Ok(Conns::Names(new))
        }
    }
}

/// An instance of a module.
#[tactic(auto, using(crate::proofs::Items::child_fits), unfolding(rr_syntax::specs::View::plain_instance, rr_instance::specs::Instances::instance_child))]
fn new_child<'a>(
    child: &Instance<'a>,
    sites: &SiteList<'a>,
    choice: &Choice,
    arena: &'a Bump,
) -> Result<Instance<'a>, AllocError>
    requires fits { length (spell_instance (plain_instance child.now)) < 2 ^ 62 }
    ensures { IfOk result (λ r. plain_instance r ≡ instance_child sites.now choice.now.picks.items (plain_instance child.now)) }
{
    let conns = new_connections(&child.conns, sites, choice, arena)?;
    Ok(Instance {
        token: child.token,
        name: child.name,
        conns,
    })
}

/// The instances of an item.
fn new_children<'a>(
    old: &[Instance<'a>],
    sites: &SiteList<'a>,
    choice: &Choice,
    arena: &'a Bump,
) -> Result<&'a [Instance<'a>], AllocError>
    requires fits { length (spell_each spell_instance (map plain_instance old.now)) < 2 ^ 62 }
    ensures { IfOk result (λ r. map plain_instance r.now ≡ map (instance_child sites.now choice.now.picks.items) (map plain_instance old.now)) }
{
    let mut list = Vec::new(arena);
    for one in old.iter() {
        let new = new_child(one, sites, choice, arena)?;
        list.push(new)?;
    }
    Ok(into_bump_slice(list))
}

/// An item.
#[tactic(auto, using(crate::proofs::Items::item_arms))]
fn new_item<'a>(
    item: &Item<'a>,
    sites: &SiteList<'a>,
    choice: &Choice,
    arena: &'a Bump,
) -> Result<Item<'a>, AllocError>
    requires fits { length (spell_item (plain_item item.now)) < 2 ^ 61 }
    ensures { IfOk result (λ r. plain_item r ≡ instance_item sites.now choice.now.picks.items (plain_item item.now)) }
{
    match item {
        Item::Ports(_)
        | Item::Variables { .. }
        | Item::Integers { .. }
        | Item::Parameters(_)
        | Item::Initial { .. } => Ok(*item),
        Item::Nets {
            signed,
            range,
            names,
        } => {
            let names = new_nets(names, sites, choice, arena)?;
            Ok(Item::Nets {
                signed: *signed,
                range: *range,
                names,
            })
        }
        Item::Assigns { pairs } => {
            let pairs = new_pairs(pairs, sites, choice, arena)?;
            Ok(Item::Assigns { pairs })
        }
        Item::Always {
            events,
            body,
            token,
        } => {
            let whole = body_instance(body, sites, choice, arena)?;
            let body: &'a Stmt<'a> = arena.try_alloc(whole)?;
            Ok(Item::Always {
                events: *events,
                body,
                token: *token,
            })
        }
        Item::Instances {
            module,
            token,
            overrides,
            list,
        } => {
            let list = new_children(list, sites, choice, arena)?;
            Ok(Item::Instances {
                module,
                token: *token,
                overrides: *overrides,
                list,
            })
        }
    }
}

/// The items of a module.
fn new_items<'a>(
    old: &[Item<'a>],
    sites: &SiteList<'a>,
    choice: &Choice,
    arena: &'a Bump,
) -> Result<&'a [Item<'a>], AllocError>
    requires fits { length (spell_all spell_item (map plain_item old.now)) < 2 ^ 61 }
    ensures { IfOk result (λ r. map plain_item r.now ≡ map (instance_item sites.now choice.now.picks.items) (map plain_item old.now)) }
{
    let mut list = Vec::new(arena);
    for one in old.iter() {
        let new = new_item(one, sites, choice, arena)?;
        list.push(new)?;
    }
    Ok(into_bump_slice(list))
}

/// A module.
#[tactic(auto, using(crate::proofs::Items::module_fits), unfolding(rr_syntax::specs::View::plain_module, rr_instance::specs::Instances::instance_module))]
fn new_module<'a>(
    declaration: &Module<'a>,
    sites: &SiteList<'a>,
    choice: &Choice,
    arena: &'a Bump,
) -> Result<Module<'a>, AllocError>
    requires fits { length (spell_module (plain_module declaration.now)) < 2 ^ 61 }
    ensures { IfOk result (λ r. plain_module r ≡ instance_module sites.now choice.now.picks.items (plain_module declaration.now)) }
{
    let items = new_items(declaration.items, sites, choice, arena)?;
    Ok(Module {
        name: declaration.name,
        token: declaration.token,
        params: declaration.params,
        header: declaration.header,
        groups: declaration.groups,
        items,
    })
}

/// The modules of a source.
fn new_modules<'a>(
    old: &[Module<'a>],
    sites: &SiteList<'a>,
    choice: &Choice,
    arena: &'a Bump,
) -> Result<&'a [Module<'a>], AllocError>
    requires fits { length (spell_all spell_module (map plain_module old.now)) < 2 ^ 61 }
    ensures { IfOk result (λ r. map plain_module r.now ≡ map (instance_module sites.now choice.now.picks.items) (map plain_module old.now)) }
{
    let mut list = Vec::new(arena);
    for one in old.iter() {
        let new = new_module(one, sites, choice, arena)?;
        list.push(new)?;
    }
    Ok(into_bump_slice(list))
}

/// The source that a choice among the sites makes of a source of fewer than 2^32 tokens. It shares
/// what is no site with the source.
#[tactic(auto, using(rr_syntax::proofs::ItemLengths::source_len), unfolding(rr_syntax::specs::View::plain_source, rr_instance::specs::Instances::instance_source))]
pub fn instance<'a>(
    source: &Source<'a>,
    sites: &SiteList<'a>,
    choice: &Choice,
    arena: &'a Bump,
) -> Result<&'a Source<'a>, AllocError>
    requires fits { length (spell_source (plain_source source.now)) < 2 ^ 32 }
    ensures { IfOk result (λ r. plain_source r.now ≡ instance_source sites.now choice.now.picks.items (plain_source source.now)) }
{
    let modules = new_modules(source.modules, sites, choice, arena)?;
    Ok(arena.try_alloc(Source { modules })?)
}
