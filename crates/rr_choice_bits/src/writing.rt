//! Bits from choices.

ghost use Rattle.std.specs.Prelude.{◌≡◌, ℕ, ◌≤◌, ◌++◌, List, false, length, replicate, IfOk, OnOk};
ghost use Rattle.rr_bits.specs.Words.{word};
ghost use Rattle.rr_choice.specs.Choices.{IsChoice, cost, decode, total_bits};
ghost use Rattle.rr_choice.specs.Sites.{IsSite, Site as PlainSite};
ghost use Rattle.rr_choice.specs.View.{plain_kind, plain_site};
ghost use Rattle.rr_choice.specs.Codes.{code_of, guard_code};

use rr_bits::Bits;
use rr_choice::{Choice, Pick, SiteList, form_width, guard_names, site_bits, value_width};
use rr_syntax::Site;
use std::alloc::{AllocError, Global};

/// Adds the lowest bits of a number, as many as the width, lowest first.
fn push_word(bits: &mut Vec<bool>, width: u32, number: u128) -> Result<(), AllocError>
    requires { width ≤ 128 }
    ensures { OnOk result (bits.new.items ≡ bits.old.items ++ word width number) }
{
    if width == 0 {
        return Ok(());
    }
    let word = Bits::from_u128(width, number);
    for place in 0..width {
        bits.push(word.get(place))?;
    }
    Ok(())
}

/// Adds the form and the name of a pick, of which a site without names has none.
fn push_guard(bits: &mut Vec<bool>, site: &Site, pick: Pick) -> Result<(), AllocError>
    requires { IsSite (plain_site site.now) }
    ensures { OnOk result (bits.new.items ≡ bits.old.items ++ guard_code (plain_kind site.now.kind) pick) }
{
    if guard_names(site).is_empty() {
        return Ok(());
    }
    let forms = form_width(site);
    let names = site_bits(site) - 1 - value_width(site) - forms;
    push_word(bits, forms, pick.form as u128)?;
    push_word(bits, names, pick.name as u128)?;
    Ok(())
}

/// Adds the bits of a pick: the switch, the value, the form and the name.
fn push_pick(bits: &mut Vec<bool>, site: &Site, pick: Pick) -> Result<(), AllocError>
    requires { IsSite (plain_site site.now) }
    ensures { OnOk result (bits.new.items ≡ bits.old.items ++ code_of (plain_site site.now) pick) }
{
    bits.push(pick.on)?;
    push_word(bits, value_width(site), pick.value)?;
    push_guard(bits, site, pick)?;
    Ok(())
}

/// The bits that write a choice, site after site, each number lowest bit first, as
/// `rr_choice::decode` reads them. There are as many as the sites have.
pub fn encode(alloc: Global, sites: &SiteList, choice: &Choice) -> Result<Vec<bool>, AllocError>
    requires { IsChoice sites.now choice.now.picks.items }
    ensures count { IfOk result (λ bits. length bits.items ≡ total_bits sites.now) }
    ensures read { IfOk result (λ bits. decode sites.now bits.items ≡ choice.now.picks.items) }
{
    let picks = choice.picks.as_slice();
    let list = sites.sites();
    let mut bits = Vec::new(alloc);
    for (k, site) in list.iter().enumerate() {
        push_pick(&mut bits, site, picks[k])?;
    }
    Ok(bits)
}

/// Bits that are all 0 write a choice that changes nothing.
pub fn no_switch_is_on()
    ensures { (sites : List PlainSite) (n : ℕ) → cost (decode sites (replicate n false)) ≡ 0 }
{}
