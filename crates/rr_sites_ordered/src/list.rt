//! The list of the sites of a source.
ghost use Rattle.std.specs.Prelude.{◌≡◌, ◌<◌, ◌^◌, IfOk, length, map};
ghost use Rattle.rr_syntax.specs.Items.{FitLiteralsSource, NumberedSource, WellFormedSource, spell_source};
ghost use Rattle.rr_syntax.specs.View.{plain_source};
ghost use Rattle.rr_clock.specs.View.{plain_place};
ghost use Rattle.rr_sites_listed.specs.Listing.{AreFitScopes, AreRising, sites_of};

use bumpalo::Bump;
use rr_choice::SiteList;
use rr_expr::Scope;
use rr_sites_listed::listed;
use rr_syntax::{ModulePlace, Source};
use std::alloc::{AllocError, Global};

/// The sites of a source, of the modules of the places, in the order of the text. `scopes` has the
/// names of each instance and `owners` the number of its module; `places` has a module of the source
/// each, in the order of the modules, with the names that are its clock. The source is well-formed, its
/// leaves have the numbers of their tokens, which are fewer than 2^32, and each variable of a module
/// has 1 to 128 bits in its first instance.
pub fn list_of<'a>(
    alloc: Global,
    source: &'a Source<'a>,
    scopes: &[Scope<'a>],
    owners: &[u32],
    places: &[ModulePlace<'a>],
    arena: &'a Bump,
) -> Result<SiteList<'a>, AllocError>
    requires formed { WellFormedSource (plain_source source.now) }
    requires numbered { NumberedSource (plain_source source.now) }
    requires literals { FitLiteralsSource (plain_source source.now) }
    requires few { length (spell_source (plain_source source.now)) < 2 ^ 32 }
    requires rising { AreRising (length (plain_source source.now).modules) (map plain_place places.now) }
    requires fit { AreFitScopes (plain_source source.now) scopes.now owners.now (map plain_place places.now) }
    ensures { IfOk result (λ list. list ≡ sites_of (plain_source source.now) scopes.now owners.now (map plain_place places.now)) }
{
    let sites = listed(alloc, source, scopes, owners, places, arena)?;
    Ok(SiteList::new(sites))
}
