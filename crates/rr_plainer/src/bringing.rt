//! Changes that go back to what the source has, where the rows of a table are still mended.
ghost use Rattle.std.specs.Prelude.{◌≡◌, IfOk, OnOk, length};
ghost use Rattle.rr_choice.specs.Choices.{IsChoice, total_bits};

use crate::source::Near;
use rr_choice::{Choice, SiteList, decode, form_width, guard_names, site_bits, value_width};
use rr_choice_bits::encode;
use rr_syntax::{Site, SiteKind};
use rr_trace::Table;
use rr_transition::Transition;
use rr_unroll::first_miss;
use std::alloc::{AllocError, Global};

/// Rows of a table, and the design that runs on them.
#[derive(Clone, Copy)]
struct Rows<'r> {
    transition: &'r Transition,
    table: &'r Table,
}

impl Rows<'_> {
    /// Whether the choice that bits write mends each row.
    fn are_mended(&self, alloc: Global, bits: &[bool]) -> Result<bool, AllocError>
        requires { length bits.now ≡ self.now.transition.now.choice_bits }
    {
        let missed = first_miss(alloc, self.transition, self.table, bits)?;
        Ok(missed.is_none())
    }
}

/// The bit at a place, false past the last.
fn bit_at(bits: &[bool], place: usize) -> bool {
    bits.get(place).copied().unwrap_or(false)
}

/// Sets the bit at a place, where there is one.
fn set(bits: &mut [bool], place: usize, bit: bool)
    ensures { length bits.new ≡ length bits.old }
{
    if place < bits.len() {
        bits[place] = bit;
    }
}

/// Sets the bits from a place on to those of a number, lowest first.
fn set_number(bits: &mut [bool], from: usize, count: u32, number: u8)
    ensures { length bits.new ≡ length bits.old }
{
    for place in 0..count.min(8) {
        set(
            bits,
            from.saturating_add(place as usize),
            (number >> place) & 1 == 1,
        );
    }
}

/// The number that bits from a place on write, lowest first.
fn number_at(bits: &[bool], from: usize, count: u32) -> u8 {
    let mut number: u8 = 0;
    for place in 0..count.min(8) {
        if bit_at(bits, from.saturating_add(place as usize)) {
            number |= 1 << place;
        }
    }
    number
}

/// Gives each bit of a value back that the source has otherwise, where the rows stay mended.
fn give_back(
    alloc: Global,
    rows: &Rows<'_>,
    bits: &mut [bool],
    from: usize,
    width: u32,
    value: u128,
) -> Result<(), AllocError>
    requires { length bits.old ≡ rows.now.transition.now.choice_bits }
    ensures { OnOk result (length bits.new ≡ length bits.old) }
{
    for place in 0..width.min(128) {
        let at = from.saturating_add(place as usize);
        let own = (value >> place) & 1 == 1;
        if bit_at(bits, at) != own {
            set(bits, at, own);
            if !rows.are_mended(alloc, bits)? {
                set(bits, at, !own);
            }
        }
    }
    Ok(())
}

/// Takes the first of the names near a site with which the rows stay mended.
fn take_name(
    alloc: Global,
    rows: &Rows<'_>,
    bits: &mut [bool],
    from: usize,
    count: u32,
    names: &[u8],
) -> Result<(), AllocError>
    requires { length bits.old ≡ rows.now.transition.now.choice_bits }
    ensures { OnOk result (length bits.new ≡ length bits.old) }
{
    let own = number_at(bits, from, count);
    for place in 0..names.len() {
        if names[place] == own {
            return Ok(());
        }
        set_number(bits, from, count, names[place]);
        if rows.are_mended(alloc, bits)? {
            return Ok(());
        }
    }
    set_number(bits, from, count, own);
    Ok(())
}

/// Brings the change of a site, whose bits begin at a place, nearer to the source.
fn bring(
    alloc: Global,
    rows: &Rows<'_>,
    bits: &mut [bool],
    at: usize,
    site: &Site,
    near: &Near,
    number: usize,
) -> Result<(), AllocError>
    requires { length bits.old ≡ rows.now.transition.now.choice_bits }
    ensures { OnOk result (length bits.new ≡ length bits.old) }
{
    if !bit_at(bits, at) {
        return Ok(());
    }
    let value = at.saturating_add(1);
    if let SiteKind::Literal { width, .. } = site.kind {
        return give_back(alloc, rows, bits, value, width, near.value(number));
    }
    let form = value.saturating_add(value_width(site) as usize);
    let forms = form_width(site);
    if guard_names(site).is_empty() || number_at(bits, form, forms) == 0 {
        return Ok(());
    }
    let name = form.saturating_add(forms as usize);
    take_name(alloc, rows, bits, name, 6, near.names(number))
}

/// A choice as near to the source as single bits of its values and single names bring it, where the rows of the
/// table that it mends stay mended.
pub fn nearer(
    alloc: Global,
    transition: &Transition,
    table: &Table,
    list: &SiteList<'_>,
    near: &Near,
    choice: &Choice,
) -> Result<Choice, AllocError>
    requires bits { transition.now.choice_bits ≡ total_bits list.now }
    requires choice { IsChoice list.now choice.now.picks.items }
    ensures { IfOk result (λ c. IsChoice list.now c.picks.items) }
{
    let rows = Rows { transition, table };
    let mut bits = encode(alloc, list, choice)?;
    let each = list.sites();
    let mut at: usize = 0;
    let mut number: usize = 0;
    for site in each.iter() {
        bring(alloc, &rows, &mut bits, at, site, near, number)?;
        at = at.saturating_add(site_bits(site) as usize);
        number = number.saturating_add(1);
    }
    let choice = decode(alloc, list, bits.as_slice())?;
    Ok(choice)
}
