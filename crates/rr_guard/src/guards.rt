//! Guard sites.

ghost use Rattle.std.specs.Prelude.{◌≡◌, ◌++◌, IfOk, List, OnOk, flat_map, map};
ghost use Rattle.std.specs.List.{AllByRecursion};
ghost use Rattle.rr_syntax.specs.Tree.{ModuleDeclaration};
ghost use Rattle.rr_syntax.specs.View.{plain_identifier, plain_item, plain_module, texts};
ghost use Rattle.rr_choice.specs.View.{plain_sites};
ghost use Rattle.rr_flat.specs.Signals.{Text};
ghost use Rattle.rr_change_places.specs.Spots.{AreCountable, HasFewTokens, IsCountable, is_clocked as is_clocked_item, spots_of_item as spots_in_item};
ghost use Rattle.rr_change_places.specs.View.{plain_spot, plain_spots};
ghost use Rattle.rr_guard.specs.Guards.{guard_at, guard_of, guard_sites};
ghost use Rattle.rr_guard.specs.Candidates.{AreGuardNames};
ghost use Rattle.rr_guard.specs.Names.{first_names};

use crate::candidates::{GuardNames, guard_names, names_before};
use bumpalo::Bump;
use rr_change_places::{Spot, is_clocked, spots_of_item};
use rr_expr::first_token;
use rr_syntax::{Item, Module, ModulePlace, Named, Site, SiteKind, expression_len};
use std::alloc::{AllocError, Global};

/// The guard of a condition, behind the sites that stand in the list, with those of `names` that are
/// declared before it. Other spots have none.
pub fn add_guard<'a>(
    alloc: Global,
    list: &mut Vec<Site<'a>>,
    spot: &Spot<'a>,
    module: u32,
    names: &[Named<'a>],
    arena: &'a Bump,
) -> Result<(), AllocError>
    requires { HasFewTokens (plain_spot spot.now) }
    ensures { OnOk result (plain_sites list.new.items ≡ plain_sites list.old.items ++ guard_of «module» (first_names (map plain_identifier names.now)) (plain_spot spot.now)) }
{
    match spot {
        Spot::Body(_) | Spot::Value { .. } => Ok(()),
        Spot::Test(test) => {
            let token = first_token(test);
            let names = names_before(alloc, names, token, arena)?;
            list.push(Site {
                kind: SiteKind::Guard {
                    module,
                    extent: expression_len(test) as u32,
                    names,
                },
                token,
            })?;
            Ok(())
        }
    }
}

/// The guards of an item, with the names that they may be there.
fn add_guards<'a>(
    alloc: Global,
    list: &mut Vec<Site<'a>>,
    spots: &[Spot<'a>],
    module: u32,
    names: &[Named<'a>],
    arena: &'a Bump,
) -> Result<(), AllocError>
    requires { AllByRecursion HasFewTokens (plain_spots spots.now) }
    ensures { OnOk result (plain_sites list.new.items ≡ plain_sites list.old.items ++ flat_map (guard_of «module» (first_names (map plain_identifier names.now))) (plain_spots spots.now)) }
{
    for spot in spots.iter() {
        add_guard(alloc, list, spot, module, names, arena)?;
    }
    Ok(())
}

fn add_guards_of_item<'a>(
    alloc: Global,
    list: &mut Vec<Site<'a>>,
    item: &'a Item<'a>,
    module: u32,
    names: &GuardNames<'a>,
    arena: &'a Bump,
) -> Result<(), AllocError>
    requires { AreCountable (plain_item item.now) }
    ensures { OnOk result ((m : ModuleDeclaration) (clocks : List Text) → AreGuardNames m clocks names.now → plain_sites list.new.items ≡ plain_sites list.old.items ++ flat_map (guard_at m «module» clocks (is_clocked_item (plain_item item.now))) (spots_in_item (plain_item item.now))) }
{
    let spots = spots_of_item(alloc, item)?;
    add_guards(
        alloc,
        list,
        spots.as_slice(),
        module,
        names.of_item(is_clocked(item)),
        arena,
    )?;
    Ok(())
}

/// The guard sites of a module, in the order of the text: each condition of an `if` in an `always` and
/// each test of a `?:` outside the places that are constant. Each has fewer than 2^32 tokens. The
/// module's number and the names of its clock stand in its place.
pub fn sites<'a>(
    alloc: Global,
    module: &Module<'a>,
    place: &ModulePlace<'a>,
    arena: &'a Bump,
) -> Result<Vec<Site<'a>>, AllocError>
    requires { IsCountable (plain_module «module».now) }
    ensures { IfOk result (λ r. plain_sites r.items ≡ guard_sites (plain_module «module».now) place.now.«module» (texts place.now.clocks.now)) }
{
    let names = guard_names(alloc, module, place)?;
    let mut list = Vec::new(alloc);
    for item in module.items.iter() {
        add_guards_of_item(alloc, &mut list, item, place.module, &names, arena)?;
    }
    Ok(list)
}
