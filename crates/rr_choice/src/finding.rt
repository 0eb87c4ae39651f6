//! The site at a place of a tree, with what is chosen at it.

ghost use Rattle.std.specs.Prelude.{◌≡◌};
ghost use Rattle.rr_choice.specs.Places.{find_pick};
ghost use Rattle.rr_choice.specs.View.{is_at as is_at_of, plain_found, plain_site};

use crate::list::SiteList;
use crate::pick::{Choice, Pick};
use rr_syntax::{Site, SiteKind};

/// A site of a list, and what is chosen at it.
#[derive(Clone, Copy)]
pub struct Found<'a> {
    pub site: Site<'a>,
    pub pick: Pick,
}

/// Whether a site is the literal at a token or, where `extent` is given, the condition of so many
/// tokens that begins there.
fn is_at(site: &Site, token: u32, extent: Option<u64>) -> bool
    ensures { result ≡ is_at_of extent token (plain_site site.now) }
{
    match site.kind {
        SiteKind::Literal { .. } => match extent {
            None => site.token == token,
            Some(_) => false,
        },
        SiteKind::Guard { extent: own, .. } => match extent {
            None => false,
            Some(count) => own as u64 == count && site.token == token,
        },
        SiteKind::Overwrite { .. } => false,
    }
}

/// The first site of a list that is the literal at a token or, where `extent` is given, the condition
/// of so many tokens that begins there, with its pick. The list is searched by halves.
pub fn find<'a>(
    sites: &SiteList<'a>,
    choice: &Choice,
    token: u32,
    extent: Option<u64>,
) -> Option<Found<'a>>
    ensures { plain_found result ≡ find_pick (is_at_of extent token) sites.now choice.now.picks.items }
{
    let list = sites.sites();
    let picks = choice.picks.as_slice();
    let end = list.len().min(picks.len());
    let mut i = sites.first_at(token);
    while i < end {
        let site = list[i];
        if site.token != token {
            return None;
        }
        if is_at(&site, token, extent) {
            return Some(Found {
                site,
                pick: picks[i],
            });
        }
        i += 1;
    }
    None
}
