//! Sites in expressions: literals and conditions.
ghost use Rattle.std.specs.Prelude.{◌≡◌, ◌+◌, ◌<◌, ◌≤◌, ◌==◌, ℕ, Bool, true, false, if◌then◌else◌, IfOk, IsTrue, length, slice_index_or, take, drop, Some};
ghost use Rattle.rr_bits.specs.Words.{number as number_of, word};
ghost use Rattle.rr_circuit.specs.Values.{IsWire, AreWires, wire_value, wire_values, Extends};
ghost use Rattle.rr_syntax.specs.View.{plain};
ghost use Rattle.rr_expr.specs.Faults.{is_width};
ghost use Rattle.rr_choice.specs.Choices.{decode, total_bits, name_width};
ghost use Rattle.rr_choice.specs.Places.{find_pick, is_guard, is_literal_at};
ghost use Rattle.rr_choice.specs.Sites.{IsSite, guard_names as names_of_kind};
ghost use Rattle.rr_choice.specs.View.{plain_site};
ghost use Rattle.rr_word_gates.specs.Carried.{Carries, CarriesBit};
ghost use Rattle.rr_blast_sites.specs.Finding.{is_on};
ghost use Rattle.rr_blast_sites.specs.Instances.{World, Reads, place_of, truth, test_truth, literal_worth, HasWires};

use crate::finding::{Sought, guard_site, literal_site, site_at};
use crate::guards::guard_wire;
use crate::inputs::Inputs;
use rr_bits::Bits;
use rr_choice::{SiteList, guard_names, site_bits, value_width};
use rr_circuit::{Builder, Wire};
use rr_syntax::{Expr, Number, Site};
use rr_word_gates::{chosen_or, constants, extended};
use std::alloc::{AllocError, Global};

/// A literal with the value of `own` bits that the bits of its site write, where their first, the
/// switch, is on; one gate a bit.
fn literal_by(
    alloc: Global,
    b: &mut Builder,
    number: Number,
    own: u32,
    bits: &[Wire],
) -> Result<Vec<Wire>, AllocError>
    requires bits { AreWires b.old bits.now }
    requires room { 1 + own ≤ length bits.now }
    requires width { IsTrue (is_width number.width) }
    ensures extends { Extends b.old b.new }
    ensures width { IfOk result (λ r. length r.items ≡ number.width) }
    ensures value { IfOk result (λ r. Carries b.new r.items (λ input. word number.width (if (slice_index_or (wire_values b.old input bits.now) 0 false) then (number_of (take own (drop 1 (wire_values b.old input bits.now)))) else number.value))) }
{
    let old = Bits::from_u128(number.width, number.value);
    let new = extended(alloc, b, &bits[1..][..own as usize], number.width, false)?;
    let out = chosen_or(alloc, b, bits[0], new.as_slice(), old)?;
    Ok(out)
}

/// A literal of the instance.
pub fn literal_word(
    alloc: Global,
    b: &mut Builder,
    token: u32,
    number: Number,
    inputs: &Inputs,
) -> Result<Vec<Wire>, AllocError>
    requires wires { HasWires b.old inputs.now }
    requires width { IsTrue (is_width number.width) }
    ensures extends { Extends b.old b.new }
    ensures wires { IfOk result (λ r. AreWires b.new r.items) }
    ensures width { IfOk result (λ r. length r.items ≡ number.width) }
    ensures value { IfOk result (λ r. (W : World) → Reads b.old inputs.now W → Carries b.new r.items (literal_worth (place_of inputs.now W) token number)) }
{
    match literal_site(inputs, token) {
        None => {
            let out = constants(alloc, b, Bits::from_u128(number.width, number.value))?;
            Ok(out)
        }
        Some(found) => {
            let own = value_width(&found.site);
            let out = literal_by(alloc, b, number, own, &inputs.choice[found.at..])?;
            Ok(out)
        }
    }
}

/// The number of bits that write the name of a condition's guard: all but the switch and the three of
/// the form.
fn name_bits(site: &Site) -> usize
    requires { IsSite (plain_site site.now) }
    ensures { (extent : ℕ) → is_guard extent (plain_site site.now).kind ≡ true → result ≡ name_width (length (names_of_kind (plain_site site.now).kind)) }
{
    site_bits(site).saturating_sub(4) as usize
}

/// A condition of the instance, from what it is without its guard.
pub fn test_wire(
    b: &mut Builder,
    test: &Expr,
    before: Wire,
    inputs: &Inputs,
) -> Result<Wire, AllocError>
    requires wires { HasWires b.old inputs.now }
    requires before { IsWire b.old before }
    ensures extends { Extends b.old b.new }
    ensures wire { IfOk result (λ w. IsWire b.new w) }
    ensures value { IfOk result (λ w. (W : World) → Reads b.old inputs.now W → CarriesBit b.old before (truth (place_of inputs.now W) (plain test.now)) → CarriesBit b.new w (test_truth (place_of inputs.now W) (plain test.now))) }
{
    match guard_site(inputs, test) {
        None => Ok(before),
        Some(found) => {
            let names = guard_names(&found.site);
            let bits = &inputs.choice[found.at..];
            let out = guard_wire(b, names, name_bits(&found.site), bits, before, inputs)?;
            Ok(out)
        }
    }
}

/// The wire of whether a literal changes: for every input whether the choice that the wires of
/// `choice` write has a switch at the literal's token, and it is on. There is one wire for each bit of
/// the choice.
pub fn literal_changes(b: &Builder, token: u32, list: &SiteList, choice: &[Wire]) -> Wire
    requires choice { AreWires b.now choice.now }
    requires room { length choice.now ≡ total_bits list.now }
    ensures wire { IsWire b.now result }
    ensures value { (input : ℕ → Bool) → wire_value b.now input result ≡ is_on (find_pick (is_literal_at token) list.now (decode list.now (wire_values b.now input choice.now))) }
{
    match site_at(list, token, Sought::Literal, choice.len()) {
        None => b.constant(false),
        Some(found) => choice[found.at],
    }
}
