//! Lists of sites, in the order of their tokens.

ghost use Rattle.std.specs.Prelude.{◌≡◌, ◌<◌, ◌^◌, true};
ghost use Rattle.rr_choice.specs.Choices.{total_bits};
ghost use Rattle.rr_choice.specs.Sites.{IsFirstAt, IsSiteList};
ghost use Rattle.rr_choice.specs.View.{plain_sites};

use crate::sites::{is_site, site_bits};
use rr_syntax::Site;
use std::marker::Model;

/// The sites of a source, or some of them in their order. The type keeps that each width is 1 to 128,
/// that each site has at most 64 names, and that no site begins before the one that it follows.
#[derive(Drop)]
pub struct SiteList<'a> {
    sites: Vec<Site<'a>>,
}

impl<'a> Model for SiteList<'a> {
    ghost use Rattle.std.specs.Prelude.{List};
    ghost use Rattle.rr_choice.specs.Sites.{Site, IsSiteList};

    ghost Value = { List Site };

    ghost use Rattle.rr_choice.specs.View.{plain_sites};

    ghost view = { λ l. plain_sites l.sites.items };

    ghost invariant = { λ l. IsSiteList (plain_sites l.sites.items) };
}

/// Whether sites make a list: each has a width of 1 to 128, where it has one, and at most 64 names, and
/// none begins before the one that it follows.
pub fn are_listed(sites: &[Site]) -> bool
    ensures yes { result ≡ true → IsSiteList (plain_sites sites.now) }
    ensures no { IsSiteList (plain_sites sites.now) → result ≡ true }
{
    let mut last: u32 = 0;
    for site in sites.iter() {
        let token = site.token;
        if token < last {
            return false;
        }
        if !is_site(site) {
            return false;
        }
        last = token;
    }
    true
}

impl<'a> SiteList<'a> {
    /// The list of these sites, which must make one, as `are_listed` tells.
    pub fn new(sites: Vec<Site<'a>>) -> SiteList<'a>
        requires { IsSiteList (plain_sites sites.items) }
        ensures { result ≡ plain_sites sites.entry.items }
    {
        SiteList { sites }
    }

    /// The sites.
    pub fn sites(&self) -> &[Site<'a>]
        ensures same { plain_sites result.now ≡ self.now }
        ensures kept { IsSiteList self.now }
    {
        self.sites.as_slice()
    }

    /// The number of choice bits, which must be below 2^32.
    pub fn bits(&self) -> u32
        requires { total_bits self.now < 2 ^ 32 }
        ensures { result ≡ total_bits self.now }
    {
        let list = self.sites();
        let mut total: u32 = 0;
        for site in list.iter() {
            total += site_bits(site);
        }
        total
    }

    /// The place of the first site that begins at a token or behind it; the number of sites where there
    /// is none.
    pub fn first_at(&self, token: u32) -> usize
        ensures { IsFirstAt self.now token result }
    {
        let list = self.sites();
        list.partition_point(|site| site.token < token)
    }
}
