//! The site at a place of an expression, and where its bits begin in a choice.
ghost use Rattle.std.specs.Prelude.{◌≡◌, ◌+◌, ◌-◌, ◌<◌, ◌≤◌, ◌==◌, true, length, take};
ghost use Rattle.std.specs.List.{All};
ghost use Rattle.rr_syntax.specs.View.{plain};
ghost use Rattle.rr_choice.specs.Choices.{total_bits};
ghost use Rattle.rr_choice.specs.Places.{is_literal_at as is_literal_there};
ghost use Rattle.rr_instance.specs.Instances.{is_guard_of as is_guard_there};
ghost use Rattle.rr_choice.specs.Sites.{IsSite};
ghost use Rattle.rr_choice.specs.View.{is_at, plain_site, plain_sites};
ghost use Rattle.rr_blast_sites.specs.Instances.{listed};
ghost use Rattle.rr_blast_sites.specs.Finding.{IsFound, extent_of};

use crate::extents::has_extent;
use crate::inputs::Inputs;
use rr_choice::{SiteList, site_bits};
use rr_expr::first_token;
use rr_syntax::{Expr, Site, SiteKind};

/// A site, and where its bits begin.
#[derive(Clone, Copy)]
pub(crate) struct Found<'a> {
    pub site: Site<'a>,
    pub at: usize,
}

/// What is looked for at a token: a literal, or a condition that begins there.
#[derive(Clone, Copy)]
pub(crate) enum Sought<'a> {
    Literal,
    Condition(&'a Expr<'a>),
}

/// Whether a site is what is looked for at a token.
fn is_sought(site: &Site, token: u32, sought: Sought) -> bool
    ensures { result ≡ is_at (extent_of sought.entry) token (plain_site site.now) }
{
    match site.kind {
        SiteKind::Literal { .. } => match sought {
            Sought::Literal => site.token == token,
            Sought::Condition(_) => false,
        },
        SiteKind::Guard { extent, .. } => match sought {
            Sought::Literal => false,
            Sought::Condition(test) => has_extent(test, extent) && site.token == token,
        },
        SiteKind::Overwrite { .. } => false,
    }
}

/// The number of choice bits of the first sites; those of all sites are at most `room`.
fn bits_before(sites: &[Site], count: usize, room: usize) -> usize
    requires each { All IsSite (plain_sites sites.now) }
    requires within { count ≤ length sites.now }
    requires room { total_bits (plain_sites sites.now) ≤ room }
    ensures { result ≡ total_bits (take count (plain_sites sites.now)) }
{
    let mut total = 0;
    for i in 0..count {
        total += site_bits(&sites[i]) as usize;
    }
    total
}

/// The first site that is what is looked for at a token. The list is searched by halves, and bits are
/// counted for a site that is there alone. The sites have at most `room` bits.
pub(crate) fn site_at<'a>(
    list: &SiteList<'a>,
    token: u32,
    sought: Sought,
    room: usize,
) -> Option<Found<'a>>
    requires { total_bits list.now ≤ room }
    ensures { IsFound (is_at (extent_of sought.entry) token) list.now result }
{
    let sites = list.sites();
    let mut i = list.first_at(token);
    while i < sites.len() {
        let site = sites[i];
        if site.token != token {
            return None;
        }
        if is_sought(&site, token, sought) {
            let at = bits_before(sites, i, room);
            return Some(Found { site, at });
        }
        i += 1;
    }
    None
}

/// The same of the sites of inputs, and none where all stays as it is.
fn site_in<'a>(inputs: &Inputs<'a>, token: u32, sought: Sought) -> Option<Found<'a>>
    requires { total_bits (listed inputs.now) ≤ length inputs.now.choice.now }
    ensures { IsFound (is_at (extent_of sought.entry) token) (listed inputs.now) result }
{
    if inputs.still {
        return None;
    }
    site_at(inputs.sites, token, sought, inputs.choice.len())
}

/// The first site that is the literal at a token.
pub(crate) fn literal_site<'a>(inputs: &Inputs<'a>, token: u32) -> Option<Found<'a>>
    requires { total_bits (listed inputs.now) ≤ length inputs.now.choice.now }
    ensures { IsFound (is_literal_there token) (listed inputs.now) result }
{
    site_in(inputs, token, Sought::Literal)
}

/// The first site that is a condition.
pub(crate) fn guard_site<'a>(inputs: &Inputs<'a>, test: &Expr) -> Option<Found<'a>>
    requires { total_bits (listed inputs.now) ≤ length inputs.now.choice.now }
    ensures { IsFound (is_guard_there (plain test.now)) (listed inputs.now) result }
{
    site_in(inputs, first_token(test), Sought::Condition(test))
}
