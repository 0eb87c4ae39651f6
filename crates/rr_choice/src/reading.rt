//! Choices from the bits that write them.

ghost use Rattle.std.specs.Prelude.{◌≡◌, ◌+◌, ◌<◌, ◌≤◌, ◌^◌, drop, length, IfOk};
ghost use Rattle.rr_bits.specs.Words.{bit as bit_of, number};
ghost use Rattle.rr_choice.specs.Choices.{cost as cost_of, decode as decode_of, read_pick as read_pick_of, site_bits as site_bits_of, total_bits};
ghost use Rattle.rr_choice.specs.Sites.{IsSite};
ghost use Rattle.rr_choice.specs.View.{plain_site};

use crate::list::SiteList;
use crate::pick::{Choice, Pick};
use crate::sites::{form_width, guard_names, last_form, name_width, site_bits, value_width};
use rr_syntax::Site;
use std::alloc::{AllocError, Global};

/// The number of switches that are on, of fewer than 2^32.
pub fn cost(choice: &Choice) -> u32
    requires { length choice.now.picks.items < 2 ^ 32 }
    ensures { result ≡ cost_of choice.now.picks.items }
{
    choice.picks.iter().filter(|pick| pick.on).count() as u32
}

/// A bit as a number.
fn bit_value(bit: bool) -> u128
    ensures { result ≡ bit_of bit }
{
    if bit { 1 } else { 0 }
}

/// The number that at most 128 bits write, lowest first.
fn number_of(bits: &[bool]) -> u128
    requires { length bits.now ≤ 128 }
    ensures { result ≡ number bits.now }
{
    let mut value: u128 = 0;
    let mut i = bits.len();
    while i > 0 {
        i -= 1;
        value = bit_value(bits[i]) + 2 * value;
    }
    value
}

/// The pick of a site that the bits from a place on write.
fn read_pick(site: &Site, bits: &[bool], at: usize) -> Pick
    requires site { IsSite (plain_site site.now) }
    requires room { at + site_bits_of (plain_site site.now) ≤ length bits.now }
    ensures { result ≡ read_pick_of (plain_site site.now) (drop at bits.now) }
{
    let width = value_width(site) as usize;
    let value = number_of(&bits[at + 1..][..width]);
    let count = guard_names(site).len();
    if count == 0 {
        return Pick {
            on: bits[at],
            value,
            form: 0,
            name: 0,
        };
    }
    let from = at + 1 + width;
    let forms = form_width(site) as usize;
    let form = number_of(&bits[from..][..forms]) as u8;
    let name = number_of(&bits[from + forms..][..name_width(count) as usize]) as u8;
    Pick {
        on: bits[at],
        value,
        form: form.min(last_form(site)),
        name: name.min((count - 1) as u8),
    }
}

/// The choice that as many bits as the sites have write, site after site, each number lowest bit first:
/// the switch, the value, the form and the name. A form or a name past the last counts as the last.
pub fn decode(alloc: Global, sites: &SiteList, bits: &[bool]) -> Result<Choice, AllocError>
    requires bits { length bits.now ≡ total_bits sites.now }
    ensures { IfOk result (λ r. r.picks.items ≡ decode_of sites.now bits.now) }
{
    let list = sites.sites();
    let mut picks = Vec::new(alloc);
    let mut at = 0;
    for site in list.iter() {
        picks.push(read_pick(site, bits, at))?;
        at += site_bits(site) as usize;
    }
    Ok(Choice { picks })
}
