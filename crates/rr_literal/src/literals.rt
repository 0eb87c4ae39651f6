//! Literal sites.

ghost use Rattle.std.specs.Prelude.{◌≡◌, ◌++◌, IfOk, OnOk, flat_map};
ghost use Rattle.rr_syntax.specs.View.{plain_item, plain_module};
ghost use Rattle.rr_choice.specs.View.{plain_sites};
ghost use Rattle.rr_change_places.specs.Spots.{spots_of_item as spots_in_item};
ghost use Rattle.rr_change_places.specs.View.{plain_spot, plain_spots};
ghost use Rattle.rr_literal.specs.Literals.{literal_at, literal_sites};

use rr_change_places::{Spot, spots_of_item};
use rr_syntax::{Item, Module, ModulePlace, Site, SiteKind};
use std::alloc::{AllocError, Global};

/// The literal site at a spot, behind the sites that stand in the list: a literal without x and z
/// digits, of which the width and the sign stay. Other spots have none.
pub fn add_literal<'a>(list: &mut Vec<Site<'a>>, spot: &Spot<'a>) -> Result<(), AllocError>
    ensures { OnOk result (plain_sites list.new.items ≡ plain_sites list.old.items ++ literal_at (plain_spot spot.now)) }
{
    match spot {
        Spot::Body(_) | Spot::Test(_) => Ok(()),
        Spot::Value { token, number } => {
            if number.any == 0 && number.unknown == 0 {
                list.push(Site {
                    kind: SiteKind::Literal {
                        width: number.width,
                        signed: number.signed,
                    },
                    token: *token,
                })?;
            }
            Ok(())
        }
    }
}

/// The literal sites at these spots.
fn add_literals<'a>(list: &mut Vec<Site<'a>>, spots: &[Spot<'a>]) -> Result<(), AllocError>
    ensures { OnOk result (plain_sites list.new.items ≡ plain_sites list.old.items ++ flat_map literal_at (plain_spots spots.now)) }
{
    for spot in spots.iter() {
        add_literal(list, spot)?;
    }
    Ok(())
}

/// The literal sites of an item.
fn add_literals_of_item<'a>(
    alloc: Global,
    list: &mut Vec<Site<'a>>,
    item: &'a Item<'a>,
) -> Result<(), AllocError>
    ensures { OnOk result (plain_sites list.new.items ≡ plain_sites list.old.items ++ flat_map literal_at (spots_in_item (plain_item item.now))) }
{
    let spots = spots_of_item(alloc, item)?;
    add_literals(list, spots.as_slice())
}

/// The literal sites of a module, in the order of the text: each literal without x and z digits in a
/// right side, a condition, a selector, a label or a port connection, outside the places that are
/// constant. A literal has no names, so the place of the module does not matter.
#[tactic(auto, using(crate::proofs::Modules::module_literals))]
pub fn sites<'a>(
    alloc: Global,
    module: &Module<'a>,
    _place: &ModulePlace<'a>,
) -> Result<Vec<Site<'a>>, AllocError>
    ensures { IfOk result (λ r. plain_sites r.items ≡ literal_sites (plain_module «module».now)) }
{
    let mut list = Vec::new(alloc);
    for item in module.items.iter() {
        add_literals_of_item(alloc, &mut list, item)?;
    }
    Ok(list)
}
