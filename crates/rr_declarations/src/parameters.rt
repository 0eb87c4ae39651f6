//! The parameters of a module (IEEE 1364-2005 sections 4.10 and 12.2).
ghost use Rattle.std.specs.Prelude.{◌≡◌, ◌≤◌, ◌<◌, MatchResult, OnOk, OnErr, IfOk, IfErr, map, fold, Some, None};
ghost use Rattle.rr_syntax.specs.View.{plain_parameter, plain_assignment, plain_item, plain_module};
ghost use Rattle.rr_expr.specs.Scopes.{range_width as width_of_range};
ghost use Rattle.rr_flat.specs.Faults.{Refuses, sooner, either, faults_in, each};
ghost use Rattle.rr_flat.specs.Signals.{with_name};
ghost use Rattle.rr_declarations.specs.Parameters.{given_or as given_value, override_of, typed as typed_value, parameter as parameter_of, width_faults, add_parameter as add_parameter_to, add_parameters as add_parameters_to, add_item_parameters as add_item_parameters_to, parameters as parameters_of};
ghost use Rattle.rr_declarations.specs.Sound.{IsRange, IsPlace, ArePlaces};

use crate::values::{constant_of, range_of, range_width};
use rr_bits::Bits;
use rr_expr::{Entity, Scope};
use rr_flat::{FlatFault, earlier, note_if};
use rr_syntax::{Item, Module, Params, Setting};
use std::alloc::{AllocError, Global};

/// Adds a name after the others, if it is new.
pub(crate) fn put<'a>(
    names: &mut Scope<'a>,
    name: &'a str,
    entity: Entity,
) -> Result<(), AllocError>
    ensures added { OnOk result (names.new ≡ with_name names.old name.now entity) }
    ensures unchanged { OnErr result (names.new ≡ names.old) }
{
    names.add(name, entity)?;
    Ok(())
}

/// The width of a range, or the first of a fault that was found, if any, and that it has more than
/// 128 bits.
fn sized(found: Option<FlatFault>, token: u32, range: Option<(u32, u32)>) -> Result<u32, FlatFault>
    requires { IsRange range }
    ensures none { OnOk result (fold sooner found (width_faults token range) ≡ None) }
    ensures width { IfOk result (λ w. w ≡ width_of_range range) }
    ensures low { IfOk result (λ w. 1 ≤ w) }
    ensures high { IfOk result (λ w. w ≤ 128) }
    ensures fault { IfErr result (λ f. fold sooner found (width_faults token range) ≡ Some f) }
{
    let width = range_width(range);
    if width > 128 {
        let fault = FlatFault::TooWide(token, width);
        return match found {
            None => Err(fault),
            Some(other) => Err(earlier(other, fault)),
        };
    }
    match found {
        None => Ok(width),
        Some(fault) => Err(fault),
    }
}

/// The value of a parameter's own expression, or the first of its fault, one that was found, if any,
/// and that its range has more than 128 bits.
fn own_of(
    found: Option<FlatFault>,
    token: u32,
    range: Option<(u32, u32)>,
    own: Result<(Bits, bool), FlatFault>,
) -> Result<(Bits, bool), FlatFault>
    requires { IsRange range }
    ensures value { result ≡ either (fold sooner (fold sooner found (width_faults token range)) (faults_in own)) own }
    ensures narrow { OnOk result (width_of_range range ≤ 128) }
{
    match sized(found, token, range) {
        Ok(_) => own,
        Err(fault) => match own {
            Ok(_) => Err(fault),
            Err(other) => Err(earlier(fault, other)),
        },
    }
}

/// The value with which an instance overrides a parameter, else its own.
fn given_or(given: &Option<Entity>, own: &(Bits, bool)) -> (Bits, bool)
    ensures { result ≡ given_value given.now own.now }
{
    match given {
        Some(Entity::Constant { bits, signed }) => (*bits, *signed),
        Some(Entity::Signal { .. }) | Some(Entity::Memory { .. }) | Some(Entity::Instance) | None =>
            *own,
    }
}

/// The parameter that a declaration makes of a value.
#[tactic(auto, unfolding(rr_syntax::specs::View::plain_parameter))]
fn parameter(one: &Params, range: Option<(u32, u32)>, value: &(Bits, bool)) -> Entity
    requires small { IsRange range }
    requires narrow { width_of_range range ≤ 128 }
    ensures { result ≡ parameter_of (plain_parameter one.now) range value.now }
{
    if one.integer {
        return Entity::Constant {
            bits: value.0.extend(32, value.1),
            signed: true,
        };
    }
    match range {
        None => Entity::Constant {
            bits: value.0,
            signed: one.signed || value.1,
        },
        Some(_) => Entity::Constant {
            bits: value.0.extend(range_width(range), value.1),
            signed: one.signed,
        },
    }
}

/// Adds a parameter.
#[tactic(auto, unfolding(crate::specs::Parameters::add_parameter, rr_syntax::specs::View::plain_assignment, rr_syntax::specs::View::plain_parameter))]
fn add_parameter<'a>(
    names: &mut Scope<'a>,
    given: &Scope,
    one: &Params<'a>,
    range: Option<(u32, u32)>,
    set: &Setting<'a>,
) -> Result<(), FlatFault>
    requires { IsRange range }
    ensures value { MatchResult result
        (λ _. add_parameter_to given.now (plain_parameter one.now) range (plain_assignment set.now) names.old ≡ Ok names.new)
        (Refuses (add_parameter_to given.now (plain_parameter one.now) range (plain_assignment set.now) names.old)) }
    ensures constants { OnOk result (ArePlaces 0 names.old → ArePlaces 0 names.new) }
{
    let own = constant_of(set.value, names);
    let found = note_if(
        None,
        names.find(set.name).is_some(),
        FlatFault::NameTwice(set.token),
    );
    let own = own_of(found, set.token, range, own)?;
    let given = if one.local {
        None
    } else {
        given.find(set.name)
    };
    put(
        names,
        set.name,
        parameter(one, range, &given_or(&given, &own)),
    )?;
    Ok(())
}

/// Adds the parameters that are declared together.
#[tactic(auto, unfolding(crate::specs::Parameters::add_parameters, rr_syntax::specs::View::plain_parameter))]
fn add_parameters<'a>(
    names: &mut Scope<'a>,
    given: &Scope,
    one: &Params<'a>,
) -> Result<(), FlatFault>
    ensures value { MatchResult result
        (λ _. add_parameters_to given.now (plain_parameter one.now) names.old ≡ Ok names.new)
        (Refuses (add_parameters_to given.now (plain_parameter one.now) names.old)) }
    ensures constants { OnOk result (ArePlaces 0 names.old → ArePlaces 0 names.new) }
{
    let range = range_of(&one.range, names)?;
    add_sets(names, given, one, range)
}

fn add_sets<'a>(
    names: &mut Scope<'a>,
    given: &Scope,
    one: &Params<'a>,
    range: Option<(u32, u32)>,
) -> Result<(), FlatFault>
    requires { IsRange range }
    ensures value { MatchResult result
        (λ _. each (add_parameter_to given.now (plain_parameter one.now) range) (map plain_assignment one.now.sets.now) names.old ≡ Ok names.new)
        (Refuses (each (add_parameter_to given.now (plain_parameter one.now) range) (map plain_assignment one.now.sets.now) names.old)) }
    ensures constants { OnOk result (ArePlaces 0 names.old → ArePlaces 0 names.new) }
{
    for set in one.sets.iter() {
        add_parameter(names, given, one, range, set)?;
    }
    Ok(())
}

/// Adds the parameters of an item, if it is a declaration of some.
#[tactic(auto, unfolding(crate::specs::Parameters::add_item_parameters, rr_syntax::specs::View::plain_item))]
fn add_item_parameters<'a>(
    names: &mut Scope<'a>,
    given: &Scope,
    item: &Item<'a>,
) -> Result<(), FlatFault>
    ensures value { MatchResult result
        (λ _. add_item_parameters_to given.now (plain_item item.now) names.old ≡ Ok names.new)
        (Refuses (add_item_parameters_to given.now (plain_item item.now) names.old)) }
    ensures constants { OnOk result (ArePlaces 0 names.old → ArePlaces 0 names.new) }
{
    match item {
        Item::Parameters(one) => add_parameters(names, given, one),
        Item::Ports(_)
        | Item::Nets { .. }
        | Item::Variables { .. }
        | Item::Integers { .. }
        | Item::Assigns { .. }
        | Item::Always { .. }
        | Item::Initial { .. }
        | Item::Instances { .. } => Ok(()),
    }
}

fn add_header_parameters<'a>(
    names: &mut Scope<'a>,
    given: &Scope,
    params: &[Params<'a>],
) -> Result<(), FlatFault>
    ensures value { MatchResult result
        (λ _. each (add_parameters_to given.now) (map plain_parameter params.now) names.old ≡ Ok names.new)
        (Refuses (each (add_parameters_to given.now) (map plain_parameter params.now) names.old)) }
    ensures constants { OnOk result (ArePlaces 0 names.old → ArePlaces 0 names.new) }
{
    for one in params.iter() {
        add_parameters(names, given, one)?;
    }
    Ok(())
}

fn add_items_parameters<'a>(
    names: &mut Scope<'a>,
    given: &Scope,
    items: &[Item<'a>],
) -> Result<(), FlatFault>
    ensures value { MatchResult result
        (λ _. each (add_item_parameters_to given.now) (map plain_item items.now) names.old ≡ Ok names.new)
        (Refuses (each (add_item_parameters_to given.now) (map plain_item items.now) names.old)) }
    ensures constants { OnOk result (ArePlaces 0 names.old → ArePlaces 0 names.new) }
{
    for item in items.iter() {
        add_item_parameters(names, given, item)?;
    }
    Ok(())
}

/// The parameters of a module, of which some are given values.
#[tactic(auto, unfolding(crate::specs::Parameters::parameters, rr_syntax::specs::View::plain_module))]
pub(crate) fn parameters<'a>(
    alloc: Global,
    given: &Scope,
    own: &Module<'a>,
) -> Result<Scope<'a>, FlatFault>
    ensures value { MatchResult result
        (λ names. parameters_of given.now (plain_module own.now) ≡ Ok names)
        (Refuses (parameters_of given.now (plain_module own.now))) }
    ensures constants { IfOk result (λ names. ArePlaces 0 names) }
{
    let mut names = Scope::new(alloc);
    add_header_parameters(&mut names, given, own.params)?;
    add_items_parameters(&mut names, given, own.items)?;
    Ok(names)
}
