//! Overwrite sites.

ghost use Rattle.std.specs.Prelude.{◌≡◌, ◌++◌, ◌∷◌, [], IfOk, IsTrue, List, OnOk, filter, flat_map, if◌then◌else◌, map, true};
ghost use Rattle.rr_syntax.specs.Tree.{ModuleDeclaration};
ghost use Rattle.rr_syntax.specs.View.{plain_identifier, plain_item, plain_module, plain_statement, texts};
ghost use Rattle.rr_expr.specs.Faults.{is_width};
ghost use Rattle.rr_flat.specs.Signals.{Text};
ghost use Rattle.rr_choice.specs.View.{plain_sites};
ghost use Rattle.rr_change_places.specs.Spots.{is_clocked as is_clocked_item, spots_of_item as spots_in_item};
ghost use Rattle.rr_change_places.specs.View.{plain_spot, plain_spots};
ghost use Rattle.rr_guard.specs.Candidates.{AreGuardNames, is_among};
ghost use Rattle.rr_guard.specs.Names.{first_names};
ghost use Rattle.rr_overwrite.specs.Overwrites.{overwrite_of, overwrite_sites, overwrites_at, overwrites_of, width_in};
ghost use Rattle.rr_overwrite.specs.Variables.{AreFit, AreVariables, may_be, plain_whole};

use crate::targets::{WholeTarget, targets_of};
use crate::variables::{Variables, variables_of};
use bumpalo::Bump;
use rr_change_places::{Spot, is_clocked, spots_of_item};
use rr_expr::{Scope, entity_shape};
use rr_guard::{GuardNames, guard_names, names_before};
use rr_instance::first_token;
use rr_syntax::{Item, Module, ModulePlace, Named, Site, SiteKind, Stmt};
use std::alloc::{AllocError, Global};

/// Whether a last assignment may write the variable of a target.
fn may_overwrite(variables: &Variables, target: &WholeTarget) -> bool
    ensures { result ≡ may_be variables.now (plain_whole target.now) }
{
    variables.declared.has(target.name) && !variables.barred.has(target.name)
}

/// The width of a variable in an instance.
fn width_of(scope: &Scope, name: &str) -> u32
    requires { IsTrue (is_width (width_in scope.now name.now)) }
    ensures { result ≡ width_in scope.now name.now }
{
    entity_shape(&scope.meaning(name)).width
}

/// The overwrite of a target, where it is one.
fn add_overwrite<'a>(
    list: &mut Vec<Site<'a>>,
    body: &Stmt<'a>,
    target: &WholeTarget<'a>,
    module: u32,
    variables: &Variables<'a>,
    scope: &Scope<'a>,
    names: &'a [&'a str],
) -> Result<(), AllocError>
    requires fit { (name : Text) → is_among name variables.now.declared ≡ true → IsTrue (is_width (width_in scope.now name)) }
    ensures { OnOk result (plain_sites list.new.items ≡ plain_sites list.old.items ++ (if may_be variables.now (plain_whole target.now) then overwrite_of «module» scope.now (texts names.now) (plain_statement body.now) (plain_whole target.now) ∷ [] else [])) }
{
    if !may_overwrite(variables, target) {
        return Ok(());
    }
    list.push(Site {
        kind: SiteKind::Overwrite {
            module,
            target: target.name,
            width: width_of(scope, target.name),
            now: target.blocking,
            names,
        },
        token: first_token(body),
    })?;
    Ok(())
}

fn add_overwrites_of<'a>(
    list: &mut Vec<Site<'a>>,
    body: &Stmt<'a>,
    targets: &[WholeTarget<'a>],
    module: u32,
    variables: &Variables<'a>,
    scope: &Scope<'a>,
    names: &'a [&'a str],
) -> Result<(), AllocError>
    requires fit { (name : Text) → is_among name variables.now.declared ≡ true → IsTrue (is_width (width_in scope.now name)) }
    ensures { OnOk result (plain_sites list.new.items ≡ plain_sites list.old.items ++ map (overwrite_of «module» scope.now (texts names.now) (plain_statement body.now)) (filter (may_be variables.now) (map plain_whole targets.now))) }
{
    for target in targets.iter() {
        add_overwrite(list, body, target, module, variables, scope, names)?;
    }
    Ok(())
}

/// The overwrites of a body, behind the sites that stand in the list, with those of `names` that are
/// declared before it, in the order of the variables' first targets. Other spots have none. Each
/// variable has 1 to 128 bits in the scope.
pub fn add_overwrites<'a>(
    alloc: Global,
    list: &mut Vec<Site<'a>>,
    spot: &Spot<'a>,
    module: u32,
    variables: &Variables<'a>,
    scope: &Scope<'a>,
    names: &[Named<'a>],
    arena: &'a Bump,
) -> Result<(), AllocError>
    requires fit { (name : Text) → is_among name variables.now.declared ≡ true → IsTrue (is_width (width_in scope.now name)) }
    ensures { OnOk result ((m : ModuleDeclaration) → AreVariables m variables.now → plain_sites list.new.items ≡ plain_sites list.old.items ++ overwrites_of m «module» scope.now (first_names (map plain_identifier names.now)) (plain_spot spot.now)) }
{
    match spot {
        Spot::Test(_) | Spot::Value { .. } => Ok(()),
        Spot::Body(body) => {
            let targets = targets_of(alloc, body)?;
            let names = names_before(alloc, names, first_token(body), arena)?;
            add_overwrites_of(
                list,
                body,
                targets.as_slice(),
                module,
                variables,
                scope,
                names,
            )?;
            Ok(())
        }
    }
}

fn add_overwrites_at<'a>(
    alloc: Global,
    list: &mut Vec<Site<'a>>,
    spots: &[Spot<'a>],
    module: u32,
    variables: &Variables<'a>,
    scope: &Scope<'a>,
    names: &[Named<'a>],
    arena: &'a Bump,
) -> Result<(), AllocError>
    requires fit { (name : Text) → is_among name variables.now.declared ≡ true → IsTrue (is_width (width_in scope.now name)) }
    ensures { OnOk result ((m : ModuleDeclaration) → AreVariables m variables.now → plain_sites list.new.items ≡ plain_sites list.old.items ++ flat_map (overwrites_of m «module» scope.now (first_names (map plain_identifier names.now))) (plain_spots spots.now)) }
{
    for spot in spots.iter() {
        add_overwrites(alloc, list, spot, module, variables, scope, names, arena)?;
    }
    Ok(())
}

fn add_overwrites_of_item<'a>(
    alloc: Global,
    list: &mut Vec<Site<'a>>,
    item: &'a Item<'a>,
    module: u32,
    variables: &Variables<'a>,
    scope: &Scope<'a>,
    names: &GuardNames<'a>,
    arena: &'a Bump,
) -> Result<(), AllocError>
    requires fit { (name : Text) → is_among name variables.now.declared ≡ true → IsTrue (is_width (width_in scope.now name)) }
    ensures { OnOk result ((m : ModuleDeclaration) (clocks : List Text) → AreVariables m variables.now → AreGuardNames m clocks names.now → plain_sites list.new.items ≡ plain_sites list.old.items ++ flat_map (overwrites_at m «module» scope.now clocks (is_clocked_item (plain_item item.now))) (spots_in_item (plain_item item.now))) }
{
    let spots = spots_of_item(alloc, item)?;
    add_overwrites_at(
        alloc,
        list,
        spots.as_slice(),
        module,
        variables,
        scope,
        names.of_item(is_clocked(item)),
        arena,
    )?;
    Ok(())
}

/// The overwrite sites of a module, in the order of the text: for the body of each `always` each
/// variable that stands in it as a whole target, in the order of their first such targets, but those
/// that are an `integer` or have a range that names a parameter. The widths are those of a scope, in
/// which each variable of the module has 1 to 128 bits. The module's number and the names of its clock
/// stand in its place.
pub fn sites<'a>(
    alloc: Global,
    module: &Module<'a>,
    scope: &Scope<'a>,
    place: &ModulePlace<'a>,
    arena: &'a Bump,
) -> Result<Vec<Site<'a>>, AllocError>
    requires { AreFit (plain_module «module».now) scope.now }
    ensures { IfOk result (λ r. plain_sites r.items ≡ overwrite_sites (plain_module «module».now) place.now.«module» scope.now (texts place.now.clocks.now)) }
{
    let names = guard_names(alloc, module, place)?;
    let variables = variables_of(alloc, module)?;
    let mut list = Vec::new(alloc);
    for item in module.items.iter() {
        add_overwrites_of_item(
            alloc,
            &mut list,
            item,
            place.module,
            &variables,
            scope,
            &names,
            arena,
        )?;
    }
    Ok(list)
}
