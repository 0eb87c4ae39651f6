//! What a site offers to a choice, and how many bits write it.

ghost use Rattle.std.specs.Prelude.{◌≡◌, ◌<◌, ◌≤◌, ◌^◌, ◌*◌, length, true};
ghost use Rattle.rr_choice.specs.Choices.{guard_width as guard_width_of, name_width as name_width_of, site_bits as site_bits_of};
ghost use Rattle.rr_choice.specs.Sites.{IsSite, guard_names as names_of_kind, value_width as value_width_of, last_form as last_form_of, form_width as form_width_of};
ghost use Rattle.rr_choice.specs.View.{plain_kind, plain_site};
ghost use Rattle.rr_syntax.specs.View.{texts};

use rr_syntax::{Site, SiteKind};

/// The names that a guard may be at a site, of which a literal has none.
pub fn guard_names<'a>(site: &Site<'a>) -> &'a [&'a str]
    ensures { texts result.now ≡ names_of_kind (plain_kind site.now.kind) }
{
    match site.kind {
        SiteKind::Literal { .. } => &[],
        SiteKind::Guard { names, .. } => names,
        SiteKind::Overwrite { names, .. } => names,
    }
}

/// The width of the new value at a site, in bits: 0 for a condition, which has none.
pub fn value_width(site: &Site) -> u32
    ensures { result ≡ value_width_of (plain_kind site.now.kind) }
{
    match site.kind {
        SiteKind::Literal { width, .. } => width,
        SiteKind::Guard { .. } => 0,
        SiteKind::Overwrite { width, .. } => width,
    }
}

/// The number of the last form: a condition has five, a last assignment three.
pub(crate) fn last_form(site: &Site) -> u8
    ensures value { result ≡ last_form_of (plain_kind site.now.kind) }
    ensures small { result ≤ 4 }
{
    match site.kind {
        SiteKind::Literal { .. } => 0,
        SiteKind::Guard { .. } => 4,
        SiteKind::Overwrite { .. } => 2,
    }
}

/// The number of bits that write a form.
pub fn form_width(site: &Site) -> u32
    ensures value { result ≡ form_width_of (plain_kind site.now.kind) }
    ensures small { result ≤ 3 }
{
    match site.kind {
        SiteKind::Literal { .. } => 0,
        SiteKind::Guard { .. } => 3,
        SiteKind::Overwrite { .. } => 2,
    }
}

/// The fewest bits that write each number below the count, for at most 64 numbers.
pub(crate) fn name_width(count: usize) -> u32
    ensures value { result ≡ name_width_of count }
    ensures small { result ≤ 6 }
{
    if count < 2 {
        0
    } else if count < 3 {
        1
    } else if count < 5 {
        2
    } else if count < 9 {
        3
    } else if count < 17 {
        4
    } else if count < 33 {
        5
    } else {
        6
    }
}

/// The number of bits that write a form and a name.
fn guard_width(site: &Site) -> u32
    ensures value { result ≡ guard_width_of (plain_kind site.now.kind) }
    ensures small { result ≤ 9 }
{
    let count = guard_names(site).len();
    if count == 0 {
        0
    } else {
        form_width(site) + name_width(count)
    }
}

/// Whether a site has a width of 1 to 128, where it has one, and at most 64 names.
pub(crate) fn is_site(site: &Site) -> bool
    ensures yes { result ≡ true → IsSite (plain_site site.now) }
    ensures no { IsSite (plain_site site.now) → result ≡ true }
{
    let width = match site.kind {
        SiteKind::Literal { width, .. } => width,
        SiteKind::Guard { .. } => 1,
        SiteKind::Overwrite { width, .. } => width,
    };
    1 <= width && width <= 128 && guard_names(site).len() <= 64
}

/// The number of choice bits of a site: its switch, its value, its form and its name.
pub fn site_bits(site: &Site) -> u32
    requires { IsSite (plain_site site.now) }
    ensures value { result ≡ site_bits_of (plain_site site.now) }
    ensures small { result ≤ 138 }
{
    1 + value_width(site) + guard_width(site)
}
