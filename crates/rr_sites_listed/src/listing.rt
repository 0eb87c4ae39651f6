//! The walk over the modules that have instances.

ghost use Rattle.std.specs.Prelude.{◌≡◌, ◌++◌, [], IfOk, IsTrue, List, MatchOption, OnOk, flat_map, map, true};
ghost use Rattle.std.specs.List.{AllByRecursion};
ghost use Rattle.rr_syntax.specs.Tree.{ModuleDeclaration};
ghost use Rattle.rr_syntax.specs.View.{plain_identifier, plain_item, plain_module, plain_source, texts};
ghost use Rattle.rr_expr.specs.Faults.{is_width};
ghost use Rattle.rr_flat.specs.Signals.{Text};
ghost use Rattle.rr_choice.specs.View.{plain_sites};
ghost use Rattle.rr_change_places.specs.Spots.{AreCountable, HasFewTokens, IsCountable};
ghost use Rattle.rr_change_places.specs.View.{plain_spot, plain_spots};
ghost use Rattle.rr_guard.specs.Candidates.{AreGuardNames, is_among};
ghost use Rattle.rr_guard.specs.Names.{first_names};
ghost use Rattle.rr_overwrite.specs.Overwrites.{width_in};
ghost use Rattle.rr_overwrite.specs.Variables.{AreFit, AreVariables};
ghost use Rattle.rr_clock.specs.View.{plain_place};
ghost use Rattle.rr_sites_listed.specs.Listing.{AreFitScopes, IsFitPlace, item_sites, module_at, module_sites, place_sites, scope_of as scope_in, sites_by, sites_of};

use bumpalo::Bump;
use rr_change_places::{Spot, is_clocked, spots_of_item};
use rr_expr::Scope;
use rr_guard::{GuardNames, add_guard, guard_names};
use rr_literal::add_literal;
use rr_overwrite::{Variables, add_overwrites, variables_of};
use rr_syntax::{Item, Module, ModulePlace, Named, Site, Source};
use std::alloc::{AllocError, Global};

/// The sites at a spot: overwrites, a guard or a literal.
fn add_sites<'a>(
    alloc: Global,
    list: &mut Vec<Site<'a>>,
    spot: &Spot<'a>,
    module: u32,
    variables: &Variables<'a>,
    scope: &Scope<'a>,
    names: &[Named<'a>],
    arena: &'a Bump,
) -> Result<(), AllocError>
    requires few { HasFewTokens (plain_spot spot.now) }
    requires fit { (name : Text) → is_among name variables.now.declared ≡ true → IsTrue (is_width (width_in scope.now name)) }
    ensures { OnOk result ((m : ModuleDeclaration) → AreVariables m variables.now → plain_sites list.new.items ≡ plain_sites list.old.items ++ sites_by m «module» scope.now (first_names (map plain_identifier names.now)) (plain_spot spot.now)) }
{
    add_overwrites(alloc, list, spot, module, variables, scope, names, arena)?;
    add_guard(alloc, list, spot, module, names, arena)?;
    add_literal(list, spot)?;
    Ok(())
}

fn add_sites_at<'a>(
    alloc: Global,
    list: &mut Vec<Site<'a>>,
    spots: &[Spot<'a>],
    module: u32,
    variables: &Variables<'a>,
    scope: &Scope<'a>,
    names: &[Named<'a>],
    arena: &'a Bump,
) -> Result<(), AllocError>
    requires few { AllByRecursion HasFewTokens (plain_spots spots.now) }
    requires fit { (name : Text) → is_among name variables.now.declared ≡ true → IsTrue (is_width (width_in scope.now name)) }
    ensures { OnOk result ((m : ModuleDeclaration) → AreVariables m variables.now → plain_sites list.new.items ≡ plain_sites list.old.items ++ flat_map (sites_by m «module» scope.now (first_names (map plain_identifier names.now))) (plain_spots spots.now)) }
{
    for spot in spots.iter() {
        add_sites(alloc, list, spot, module, variables, scope, names, arena)?;
    }
    Ok(())
}

/// The sites of an item.
fn add_sites_of_item<'a>(
    alloc: Global,
    list: &mut Vec<Site<'a>>,
    item: &'a Item<'a>,
    module: u32,
    variables: &Variables<'a>,
    scope: &Scope<'a>,
    names: &GuardNames<'a>,
    arena: &'a Bump,
) -> Result<(), AllocError>
    requires few { AreCountable (plain_item item.now) }
    requires fit { (name : Text) → is_among name variables.now.declared ≡ true → IsTrue (is_width (width_in scope.now name)) }
    ensures { OnOk result ((m : ModuleDeclaration) (clocks : List Text) → AreVariables m variables.now → AreGuardNames m clocks names.now → plain_sites list.new.items ≡ plain_sites list.old.items ++ item_sites m «module» scope.now clocks (plain_item item.now)) }
{
    let spots = spots_of_item(alloc, item)?;
    add_sites_at(
        alloc,
        list,
        spots.as_slice(),
        module,
        variables,
        scope,
        names.of_item(is_clocked(item)),
        arena,
    )?;
    Ok(())
}

/// The sites of a module, with the widths of one instance.
fn add_sites_of_module<'a>(
    alloc: Global,
    list: &mut Vec<Site<'a>>,
    module: &Module<'a>,
    scope: &Scope<'a>,
    place: &ModulePlace<'a>,
    arena: &'a Bump,
) -> Result<(), AllocError>
    requires few { IsCountable (plain_module «module».now) }
    requires fit { AreFit (plain_module «module».now) scope.now }
    ensures { OnOk result (plain_sites list.new.items ≡ plain_sites list.old.items ++ module_sites (plain_module «module».now) place.now.«module» scope.now (texts place.now.clocks.now)) }
{
    let names = guard_names(alloc, module, place)?;
    let variables = variables_of(alloc, module)?;
    for item in module.items.iter() {
        add_sites_of_item(
            alloc,
            list,
            item,
            place.module,
            &variables,
            scope,
            &names,
            arena,
        )?;
    }
    Ok(())
}

/// The names of the first instance of a module.
fn scope_of<'s, 'a>(scopes: &'s [Scope<'a>], owners: &[u32], module: u32) -> Option<&'s Scope<'a>>
    ensures { MatchOption result (scope_in scopes.now owners.now «module» ≡ []) (λ s. s.now ≡ scope_in scopes.now owners.now «module») }
{
    let end = scopes.len().min(owners.len());
    let mut i = 0;
    while i < end {
        if owners[i] == module {
            return Some(&scopes[i]);
        }
        i += 1;
    }
    None
}

/// The sites of the module of a place.
fn add_sites_of_place<'a>(
    alloc: Global,
    list: &mut Vec<Site<'a>>,
    source: &'a Source<'a>,
    scopes: &[Scope<'a>],
    owners: &[u32],
    place: &ModulePlace<'a>,
    arena: &'a Bump,
) -> Result<(), AllocError>
    requires few { AllByRecursion IsCountable (plain_source source.now).modules }
    requires fit { IsFitPlace (plain_source source.now) scopes.now owners.now (plain_place place.now) }
    ensures { OnOk result (plain_sites list.new.items ≡ plain_sites list.old.items ++ place_sites (plain_source source.now) scopes.now owners.now (plain_place place.now)) }
{
    match source.modules.get(place.module as usize) {
        None => Ok(()),
        Some(module) => match scope_of(scopes, owners, place.module) {
            Some(scope) => add_sites_of_module(alloc, list, module, scope, place, arena),
            None => {
                let none = Scope::new(alloc);
                add_sites_of_module(alloc, list, module, &none, place, arena)
            }
        },
    }
}

/// The sites of a source: those of the modules of the places, in the order of the places and then of
/// the text; at one token overwrites, in the order of their variables' first targets, before guards,
/// an outer guard before an inner one, and guards before a literal. `scopes` has the names of each
/// instance and `owners` the number of its module; widths are those of a module's first instance, in
/// which each variable has 1 to 128 bits. Each condition has fewer than 2^32 tokens.
pub fn listed<'a>(
    alloc: Global,
    source: &'a Source<'a>,
    scopes: &[Scope<'a>],
    owners: &[u32],
    places: &[ModulePlace<'a>],
    arena: &'a Bump,
) -> Result<Vec<Site<'a>>, AllocError>
    requires few { AllByRecursion IsCountable (plain_source source.now).modules }
    requires fit { AreFitScopes (plain_source source.now) scopes.now owners.now (map plain_place places.now) }
    ensures { IfOk result (λ r. plain_sites r.items ≡ sites_of (plain_source source.now) scopes.now owners.now (map plain_place places.now)) }
{
    let mut list = Vec::new(alloc);
    for place in places.iter() {
        add_sites_of_place(alloc, &mut list, source, scopes, owners, place, arena)?;
    }
    Ok(list)
}
