//! The names of modules that are the clock.
ghost use Rattle.std.specs.Prelude.{◌≡◌, ◌++◌, IfOk, OnOk, map};
ghost use Rattle.rr_expr.specs.declared.types.Entity.TheVariants as entity;
ghost use Rattle.rr_flat.specs.Signals.{with_name};
ghost use Rattle.rr_flat.specs.View.{plain_signal};
ghost use Rattle.rr_flat.specs.View.{plain_flat};
ghost use Rattle.rr_syntax.specs.View.{texts};
ghost use Rattle.rr_text_names.specs.Names.{entry, is_the as is_the_clock, scalar_named as scalar_named_in};
ghost use Rattle.rr_clock.specs.Clock.{IsClockInput, has};
ghost use Rattle.rr_clock.specs.Places.{AreNames, ArePlaces, clock_name, clock_names, clock_set, names_in, owner_at, place_of as place_in, with_clock};
ghost use Rattle.rr_clock.specs.View.{plain_name, plain_place};

use crate::clock::is_the;
use crate::sources::{sources, told_by};
use bumpalo::Bump;
use rr_expr::{Entity, Scope};
use rr_flat::{Flat, Signal};
use rr_syntax::ModulePlace;
use rr_text_names::scalar_named;
use std::alloc::{AllocError, Global};

/// A name of a module that is the clock in one of its instances.
#[derive(Clone, Copy)]
pub(crate) struct ClockName<'a> {
    pub(crate) owner: u32,
    pub(crate) name: &'a str,
}

/// The module of an instance.
fn owner_of(flat: &Flat, instance: u32) -> u32
    ensures { result ≡ owner_at (plain_flat flat.now) instance }
{
    match flat.owners.get(instance as usize) {
        Some(owner) => *owner,
        None => 0,
    }
}

/// Whether the name of a signal leads to the clock in its instance.
fn is_clock_name(flat: &Flat, table: &[Option<u32>], clock: u32, signal: &Signal) -> bool
    ensures { result ≡ has (λ x. is_the_clock clock (entry table.now x)) (scalar_named_in (plain_flat flat.now) (plain_signal signal.now).instance (plain_signal signal.now).name) }
{
    is_the(
        clock,
        told_by(table, scalar_named(flat, signal.instance, signal.name)),
    )
}

/// The name of a signal with its module, where it is one.
fn add_name<'a>(
    names: &mut Vec<ClockName<'a>>,
    flat: &Flat<'a>,
    table: &[Option<u32>],
    clock: u32,
    signal: &Signal<'a>,
) -> Result<(), AllocError>
    ensures { OnOk result (map plain_name names.new.items ≡ map plain_name names.old.items ++ clock_name (plain_flat flat.now) (λ x. is_the_clock clock (entry table.now x)) (plain_signal signal.now)) }
{
    if is_clock_name(flat, table, clock, signal) {
        names.push(ClockName {
            owner: owner_of(flat, signal.instance),
            name: signal.name,
        })?;
    }
    Ok(())
}

/// The names of signals that lead to the clock, each with its module.
fn add_names<'a>(
    names: &mut Vec<ClockName<'a>>,
    flat: &Flat<'a>,
    table: &[Option<u32>],
    clock: u32,
) -> Result<(), AllocError>
    ensures { OnOk result (map plain_name names.new.items ≡ map plain_name names.old.items ++ clock_names (plain_flat flat.now) (λ x. is_the_clock clock (entry table.now x))) }
{
    for signal in flat.signal_list().iter() {
        add_name(names, flat, table, clock, signal)?;
    }
    Ok(())
}

/// The same of a clock that may be missing.
fn names_of_clock<'a>(
    alloc: Global,
    flat: &Flat<'a>,
    clock: Option<u32>,
) -> Result<Vec<ClockName<'a>>, AllocError>
    requires { IsClockInput (plain_flat flat.now) clock }
    ensures { IfOk result (λ names. AreNames (plain_flat flat.now) clock (map plain_name names.items)) }
{
    let mut names = Vec::new(alloc);
    match clock {
        None => Ok(names),
        Some(clock) => {
            let table = sources(alloc, flat)?;
            add_names(&mut names, flat, table.as_slice(), clock)?;
            Ok(names)
        }
    }
}

/// A name that is new, into a set and the list of its names.
fn add_once<'a>(
    set: &mut Scope<'a>,
    list: &mut Vec<&'a str>,
    name: &'a str,
) -> Result<(), AllocError>
    requires same { texts list.old.items ≡ names_in set.old }
    ensures set { OnOk result (set.new ≡ with_name set.old name.now entity.Instance) }
    ensures list { OnOk result (texts list.new.items ≡ names_in set.new) }
{
    if set.add(name, Entity::Instance)? {
        list.push(name)?;
    }
    Ok(())
}

/// The same of a name of this module alone.
fn add_clock<'a>(
    set: &mut Scope<'a>,
    list: &mut Vec<&'a str>,
    owner: u32,
    clock: &ClockName<'a>,
) -> Result<(), AllocError>
    requires same { texts list.old.items ≡ names_in set.old }
    ensures set { OnOk result (set.new ≡ with_clock owner set.old (plain_name clock.now)) }
    ensures list { OnOk result (texts list.new.items ≡ names_in set.new) }
{
    if clock.owner == owner {
        add_once(set, list, clock.name)
    } else {
        Ok(())
    }
}

/// The names of one module, each once.
fn names_in_module<'a>(
    alloc: Global,
    names: &[ClockName<'a>],
    owner: u32,
) -> Result<Vec<&'a str>, AllocError>
    ensures { IfOk result (λ list. texts list.items ≡ names_in (clock_set owner (map plain_name names.now))) }
{
    let mut set = Scope::new(alloc);
    let mut list = Vec::new(alloc);
    for clock in names.iter() {
        add_clock(&mut set, &mut list, owner, clock)?;
    }
    Ok(list)
}

/// The place of one module.
fn place_of<'a>(
    alloc: Global,
    names: &[ClockName<'a>],
    owner: u32,
    arena: &'a Bump,
) -> Result<ModulePlace<'a>, AllocError>
    ensures { IfOk result (λ p. plain_place p ≡ place_in (map plain_name names.now) owner) }
{
    let list = names_in_module(alloc, names, owner)?;
    let clocks = arena.try_alloc_slice_copy(list.as_slice())?;
    Ok(ModulePlace {
        module: owner,
        clocks,
    })
}

/// The place of each of these modules.
fn places_of<'a>(
    alloc: Global,
    names: &[ClockName<'a>],
    owners: &[u32],
    arena: &'a Bump,
) -> Result<&'a [ModulePlace<'a>], AllocError>
    ensures { IfOk result (λ ps. map plain_place ps.now ≡ map (place_in (map plain_name names.now)) owners.now) }
{
    let mut places = Vec::new(alloc);
    for owner in owners.iter() {
        let place = place_of(alloc, names, *owner, arena)?;
        places.push(place)?;
    }
    Ok(arena.try_alloc_slice_copy(places.as_slice())?)
}

/// For each module that has instances, in the order of `reached`, the names of its signals that lead to
/// the clock in one of its instances, each once, in the order of the signals. Without a clock there are
/// none.
pub fn clock_places<'a>(
    alloc: Global,
    flat: &Flat<'a>,
    clock: Option<u32>,
    arena: &'a Bump,
) -> Result<&'a [ModulePlace<'a>], AllocError>
    requires input { IsClockInput (plain_flat flat.now) clock }
    ensures { IfOk result (λ ps. ArePlaces (plain_flat flat.now) clock (map plain_place ps.now)) }
{
    let names = names_of_clock(alloc, flat, clock)?;
    places_of(alloc, names.as_slice(), flat.reached.as_slice(), arena)
}
