//! Modules, parameters and ports by name.
ghost use Rattle.std.specs.Prelude.{◌≡◌, ◌+◌, ◌<◌, ◌^◌, MatchResult, OnOk, IfOk, IfSome, Ok, Some, None, [], ◌∷◌, ◌++◌, is_some, if◌then◌else◌, map, fold, length};
ghost use Rattle.rr_syntax.specs.View.{plain_assignment, plain_identifier, plain_declarator, plain_parameter, plain_port, plain_item, plain_module, plain_header, texts};
ghost use Rattle.rr_expr.specs.Scopes.{lookup};
ghost use Rattle.rr_flat.specs.Faults.{Refuses, each};
ghost use Rattle.rr_flat.specs.Signals.{with_name};
ghost use Rattle.rr_declarations.specs.Declarations.{plain_names as names_of};
ghost use Rattle.rr_declarations.specs.Sound.{ArePlaces};
ghost use Rattle.rr_flatten.specs.Tables.{at_place, place_of as place_of_entity, add_module as add_module_to, instantiated_by_item, instantiated_by, last_free as last_free_of, add_parameter_name, add_parameter_names as add_parameter_names_to, add_item_parameter_names, parameter_table as parameter_table_of, add_open_name, add_open_names as add_open_names_to, add_item_open_names, open_names as open_names_of, add_port_name, add_declarator_name, add_port_names as add_port_names_to, port_names as port_names_of, add_text, name_set as name_set_of};

use rr_expr::{Entity, Scope};
use rr_flat::FlatFault;
use rr_syntax::{Declarator, Group, Item, Module, Named, Params, Setting};
use std::alloc::{AllocError, Global};

/// Adds a name after the others, if it is new.
pub(crate) fn put<'a>(
    names: &mut Scope<'a>,
    name: &'a str,
    entity: Entity,
) -> Result<(), AllocError>
    ensures { OnOk result (names.new ≡ with_name names.old name.now entity) }
{
    names.add(name, entity)?;
    Ok(())
}

/// Gives a name a place, if it is new.
pub(crate) fn put_place<'a>(
    table: &mut Scope<'a>,
    name: &'a str,
    place: u32,
) -> Result<(), AllocError>
    ensures { OnOk result (table.new ≡ at_place table.old name.now place) }
{
    let entity = Entity::Signal {
        id: place,
        range: None,
        signed: false,
    };
    put(table, name, entity)
}

/// The place that a table gives a name.
pub(crate) fn place_of(table: &Scope, name: &str) -> Option<u32>
    ensures { result ≡ place_of_entity (lookup name.now table.now) }
{
    match table.find(name) {
        Some(Entity::Signal { id, .. }) => Some(id),
        Some(Entity::Constant { .. })
        | Some(Entity::Memory { .. })
        | Some(Entity::Instance)
        | None => None,
    }
}

/// Adds a module, or says that its name is there.
#[tactic(auto, unfolding(crate::specs::Tables::add_module, rr_syntax::specs::View::plain_module, rr_flat::specs::Faults::sooner))]
fn add_module<'a>(table: &mut Scope<'a>, own: &Module<'a>, place: u32) -> Result<(), FlatFault>
    requires { place ≡ length table.old }
    ensures value { MatchResult result
        (λ _. add_module_to (plain_module own.now) table.old ≡ Ok table.new)
        (Refuses (add_module_to (plain_module own.now) table.old)) }
    ensures grown { OnOk result (length table.new ≡ length table.old + 1) }
    ensures places { OnOk result (ArePlaces place table.old → ArePlaces (place + 1) table.new) }
{
    if table.find(own.name).is_some() {
        return Err(FlatFault::NameTwice(own.token));
    }
    put_place(table, own.name, place)?;
    Ok(())
}

/// The modules of a source by name, or the second of a name.
pub(crate) fn module_table<'a>(
    alloc: Global,
    modules: &[Module<'a>],
) -> Result<Scope<'a>, FlatFault>
    requires { length modules.now < 2 ^ 32 }
    ensures value { MatchResult result
        (λ table. each add_module_to (map plain_module modules.now) [] ≡ Ok table)
        (Refuses (each add_module_to (map plain_module modules.now) [])) }
    ensures places { IfOk result (λ table. ArePlaces (length modules.now) table) }
{
    let mut table = Scope::new(alloc);
    let mut place = 0u32;
    for own in modules.iter() {
        add_module(&mut table, own, place)?;
        place += 1;
    }
    Ok(table)
}

#[tactic(auto, unfolding(crate::specs::Tables::instantiated_by_item, rr_syntax::specs::View::plain_item))]
fn add_instantiated_of_item<'a>(names: &mut Scope<'a>, item: &Item<'a>) -> Result<(), AllocError>
    ensures { OnOk result (names.new ≡ instantiated_by_item names.old (plain_item item.now)) }
{
    match item {
        Item::Instances { module, .. } => put_place(names, module, 0),
        Item::Ports(_)
        | Item::Nets { .. }
        | Item::Variables { .. }
        | Item::Integers { .. }
        | Item::Parameters(_)
        | Item::Assigns { .. }
        | Item::Always { .. }
        | Item::Initial { .. } => Ok(()),
    }
}

#[tactic(auto, unfolding(crate::specs::Tables::instantiated_by, rr_syntax::specs::View::plain_module))]
fn add_instantiated<'a>(names: &mut Scope<'a>, own: &Module<'a>) -> Result<(), AllocError>
    ensures { OnOk result (names.new ≡ instantiated_by names.old (plain_module own.now)) }
{
    add_instantiated_of_items(names, own.items)
}

fn add_instantiated_of_items<'a>(
    names: &mut Scope<'a>,
    items: &[Item<'a>],
) -> Result<(), AllocError>
    ensures { OnOk result (names.new ≡ fold instantiated_by_item names.old (map plain_item items.now)) }
{
    for item in items.iter() {
        add_instantiated_of_item(names, item)?;
    }
    Ok(())
}

/// The names of the modules that some module instantiates.
fn instantiated<'a>(alloc: Global, modules: &[Module<'a>]) -> Result<Scope<'a>, AllocError>
    ensures { IfOk result (λ names. names ≡ fold instantiated_by [] (map plain_module modules.now)) }
{
    let mut names = Scope::new(alloc);
    for own in modules.iter() {
        add_instantiated(&mut names, own)?;
    }
    Ok(names)
}

/// The place of a module, where no module instantiates it, else one that was found.
#[tactic(auto, unfolding(rr_syntax::specs::View::plain_module))]
fn later_free(names: &Scope, own: &Module, found: Option<u32>, place: u32) -> Option<u32>
    ensures { result ≡ (if is_some (lookup (plain_module own.now).text names.now) then found else Some place) }
{
    if names.find(own.name).is_some() {
        found
    } else {
        Some(place)
    }
}

/// The place of the last module that no module instantiates.
pub(crate) fn last_free(alloc: Global, modules: &[Module]) -> Result<Option<u32>, AllocError>
    requires { length modules.now < 2 ^ 32 }
    ensures value { IfOk result (λ r. r ≡ last_free_of (fold instantiated_by [] (map plain_module modules.now)) 0 (map plain_module modules.now) None) }
    ensures within { IfOk result (λ r. IfSome r (λ k. k < length modules.now)) }
{
    let names = instantiated(alloc, modules)?;
    let mut found = None;
    let mut place = 0u32;
    for own in modules.iter() {
        found = later_free(&names, own, found, place);
        place += 1;
    }
    Ok(found)
}

/// Adds the parameters that are declared together, with the mark of a `localparam`.
#[tactic(auto, unfolding(crate::specs::Tables::add_parameter_names, rr_syntax::specs::View::plain_parameter))]
fn add_parameter_names<'a>(table: &mut Scope<'a>, one: &Params<'a>) -> Result<(), AllocError>
    ensures { OnOk result (table.new ≡ add_parameter_names_to table.old (plain_parameter one.now)) }
{
    add_marked(table, one.local, one.sets)
}

fn add_marked<'a>(
    table: &mut Scope<'a>,
    local: bool,
    sets: &[Setting<'a>],
) -> Result<(), AllocError>
    ensures { OnOk result (table.new ≡ fold (add_parameter_name local) table.old (map plain_assignment sets.now)) }
{
    for set in sets.iter() {
        let entity = Entity::Signal {
            id: 0,
            range: None,
            signed: local,
        };
        put(table, set.name, entity)?;
    }
    Ok(())
}

#[tactic(auto, unfolding(crate::specs::Tables::add_item_parameter_names, rr_syntax::specs::View::plain_item))]
fn add_names_of_item<'a>(table: &mut Scope<'a>, item: &Item<'a>) -> Result<(), AllocError>
    ensures { OnOk result (table.new ≡ add_item_parameter_names table.old (plain_item item.now)) }
{
    match item {
        Item::Parameters(one) => add_parameter_names(table, one),
        Item::Ports(_)
        | Item::Nets { .. }
        | Item::Variables { .. }
        | Item::Integers { .. }
        | Item::Assigns { .. }
        | Item::Always { .. }
        | Item::Initial { .. }
        | Item::Instances { .. } => Ok(()),
    }
}

fn add_names_of_params<'a>(table: &mut Scope<'a>, params: &[Params<'a>]) -> Result<(), AllocError>
    ensures { OnOk result (table.new ≡ fold add_parameter_names_to table.old (map plain_parameter params.now)) }
{
    for one in params.iter() {
        add_parameter_names(table, one)?;
    }
    Ok(())
}

fn add_names_of_items<'a>(table: &mut Scope<'a>, items: &[Item<'a>]) -> Result<(), AllocError>
    ensures { OnOk result (table.new ≡ fold add_item_parameter_names table.old (map plain_item items.now)) }
{
    for item in items.iter() {
        add_names_of_item(table, item)?;
    }
    Ok(())
}

/// The parameters of a module by name.
#[tactic(auto, unfolding(crate::specs::Tables::parameter_table, rr_syntax::specs::View::plain_module))]
pub(crate) fn parameter_table<'a>(alloc: Global, own: &Module<'a>) -> Result<Scope<'a>, AllocError>
    ensures { IfOk result (λ table. table ≡ parameter_table_of (plain_module own.now)) }
{
    let mut table = Scope::new(alloc);
    add_names_of_params(&mut table, own.params)?;
    add_names_of_items(&mut table, own.items)?;
    Ok(table)
}

fn push_name<'a>(names: &mut Vec<&'a str>, name: &'a str) -> Result<(), AllocError>
    ensures { OnOk result (texts names.new.items ≡ texts names.old.items ++ name.now ∷ []) }
{
    names.push(name)?;
    Ok(())
}

/// Adds the parameters that are declared together and that positions override.
#[tactic(auto, unfolding(crate::specs::Tables::add_open_names, rr_syntax::specs::View::plain_parameter))]
fn add_open_names<'a>(names: &mut Vec<&'a str>, one: &Params<'a>) -> Result<(), AllocError>
    ensures { OnOk result (texts names.new.items ≡ add_open_names_to (texts names.old.items) (plain_parameter one.now)) }
{
    if one.local {
        return Ok(());
    }
    add_sets(names, one.sets)
}

fn add_sets<'a>(names: &mut Vec<&'a str>, sets: &[Setting<'a>]) -> Result<(), AllocError>
    ensures { OnOk result (texts names.new.items ≡ fold add_open_name (texts names.old.items) (map plain_assignment sets.now)) }
{
    for set in sets.iter() {
        push_name(names, set.name)?;
    }
    Ok(())
}

#[tactic(auto, unfolding(crate::specs::Tables::add_item_open_names, rr_syntax::specs::View::plain_item))]
fn add_open_of_item<'a>(names: &mut Vec<&'a str>, item: &Item<'a>) -> Result<(), AllocError>
    ensures { OnOk result (texts names.new.items ≡ add_item_open_names (texts names.old.items) (plain_item item.now)) }
{
    match item {
        Item::Parameters(one) => add_open_names(names, one),
        Item::Ports(_)
        | Item::Nets { .. }
        | Item::Variables { .. }
        | Item::Integers { .. }
        | Item::Assigns { .. }
        | Item::Always { .. }
        | Item::Initial { .. }
        | Item::Instances { .. } => Ok(()),
    }
}

fn add_open_of_params<'a>(names: &mut Vec<&'a str>, params: &[Params<'a>]) -> Result<(), AllocError>
    ensures { OnOk result (texts names.new.items ≡ fold add_open_names_to (texts names.old.items) (map plain_parameter params.now)) }
{
    for one in params.iter() {
        add_open_names(names, one)?;
    }
    Ok(())
}

fn add_open_of_items<'a>(names: &mut Vec<&'a str>, items: &[Item<'a>]) -> Result<(), AllocError>
    ensures { OnOk result (texts names.new.items ≡ fold add_item_open_names (texts names.old.items) (map plain_item items.now)) }
{
    for item in items.iter() {
        add_open_of_item(names, item)?;
    }
    Ok(())
}

/// The names of the parameters that positions override, in order.
#[tactic(auto, unfolding(crate::specs::Tables::open_names, rr_syntax::specs::View::plain_module))]
pub(crate) fn open_names<'a>(alloc: Global, own: &Module<'a>) -> Result<Vec<&'a str>, AllocError>
    ensures { IfOk result (λ v. texts v.items ≡ open_names_of (plain_module own.now)) }
{
    let mut names = Vec::new(alloc);
    add_open_of_params(&mut names, own.params)?;
    add_open_of_items(&mut names, own.items)?;
    Ok(names)
}

/// The plain names in the brackets.
#[tactic(auto, unfolding(rr_syntax::specs::View::plain_header))]
fn plain_names<'m, 'a>(own: &'m Module<'a>) -> &'m [Named<'a>]
    ensures { map plain_identifier result.now ≡ names_of (plain_header own.now.header) }
{
    match own.header {
        None => &[],
        Some(names) => names,
    }
}

fn add_identifiers<'a>(names: &mut Vec<&'a str>, list: &[Named<'a>]) -> Result<(), AllocError>
    ensures { OnOk result (texts names.new.items ≡ fold add_port_name (texts names.old.items) (map plain_identifier list.now)) }
{
    for named in list.iter() {
        push_name(names, named.name)?;
    }
    Ok(())
}

fn add_declarators<'a>(names: &mut Vec<&'a str>, list: &[Declarator<'a>]) -> Result<(), AllocError>
    ensures { OnOk result (texts names.new.items ≡ fold add_declarator_name (texts names.old.items) (map plain_declarator list.now)) }
{
    for declarator in list.iter() {
        push_name(names, declarator.name)?;
    }
    Ok(())
}

#[tactic(auto, unfolding(crate::specs::Tables::add_port_names, rr_syntax::specs::View::plain_port))]
fn add_group<'a>(names: &mut Vec<&'a str>, group: &Group<'a>) -> Result<(), AllocError>
    ensures { OnOk result (texts names.new.items ≡ add_port_names_to (texts names.old.items) (plain_port group.now)) }
{
    add_declarators(names, group.names)
}

fn add_groups<'a>(names: &mut Vec<&'a str>, groups: &[Group<'a>]) -> Result<(), AllocError>
    ensures { OnOk result (texts names.new.items ≡ fold add_port_names_to (texts names.old.items) (map plain_port groups.now)) }
{
    for group in groups.iter() {
        add_group(names, group)?;
    }
    Ok(())
}

/// The names of the ports in the order of the brackets.
#[tactic(auto, unfolding(crate::specs::Tables::port_names, rr_syntax::specs::View::plain_module))]
pub(crate) fn port_names<'a>(alloc: Global, own: &Module<'a>) -> Result<Vec<&'a str>, AllocError>
    ensures { IfOk result (λ v. texts v.items ≡ port_names_of (plain_module own.now)) }
{
    let mut names = Vec::new(alloc);
    add_identifiers(&mut names, plain_names(own))?;
    add_groups(&mut names, own.groups)?;
    Ok(names)
}

/// A set of names.
#[tactic(auto, unfolding(crate::specs::Tables::name_set))]
pub(crate) fn name_set<'a>(alloc: Global, names: &[&'a str]) -> Result<Scope<'a>, AllocError>
    ensures { IfOk result (λ table. table ≡ name_set_of (texts names.now)) }
{
    let mut table = Scope::new(alloc);
    for name in names.iter() {
        put_place(&mut table, name, 0)?;
    }
    Ok(table)
}
