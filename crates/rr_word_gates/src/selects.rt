//! Selects of bits by constant places and by the number that wires write (IEEE 1364-2005 section
//! 5.2.1).
ghost use Rattle.std.specs.Prelude.{◌≡◌, ◌≤◌, ◌<◌, ◌==◌, ℕ, ℤ, pos, ◌+ℤ◌, ◌-ℤ◌, not, if◌then◌else◌, IfOk, length, unsigned_abs};
ghost use Rattle.std.specs.Ordering.{int_eq};
ghost use Rattle.rr_bits.specs.Words.{bit_in, select, reading, number, of_integer};
ghost use Rattle.rr_circuit.specs.Values.{IsWire, AreWires, wire_value, wire_values, Extends};
ghost use Rattle.rr_expr.specs.Indices.{integer_of};
ghost use Rattle.rr_expr.specs.Selects.{place};
ghost use Rattle.rr_word_gates.specs.Carried.{Carries, CarriesBit};

use rr_bits::Bits;
use rr_circuit::{Builder, Wire};
use rr_expr::{Index, index_of, near_place};
use std::alloc::{AllocError, Global};

/// The bit at a place, 0 where there is none.
fn bit_at(b: &Builder, xs: &[Wire], at: i64) -> Wire
    requires { AreWires b.now xs.now }
    ensures { CarriesBit b.now result (λ input. bit_in (wire_values b.now input xs.now) at) }
{
    if at < 0 {
        return b.constant(false);
    }
    match xs.get(at as usize) {
        Some(x) => *x,
        None => b.constant(false),
    }
}

/// So many bits from a place up, 0 where there is none.
fn picked(
    alloc: Global,
    b: &Builder,
    xs: &[Wire],
    from: i64,
    count: u32,
) -> Result<Vec<Wire>, AllocError>
    requires x { AreWires b.now xs.now }
    requires near { unsigned_abs from < 1152921504606846976 }
    ensures width { IfOk result (λ r. length r.items ≡ count) }
    ensures value { IfOk result (λ r. Carries b.now r.items (λ input. select (wire_values b.now input xs.now) from count)) }
{
    let mut out = Vec::new(alloc);
    for i in 0..count {
        out.push(bit_at(b, xs, from + i as i64))?;
    }
    Ok(out)
}

/// So many bits from `below` places under that of a constant index up, 0 where there is none.
pub fn picked_at(
    alloc: Global,
    b: &Builder,
    xs: &[Wire],
    range: (u32, u32),
    index: Index,
    below: u32,
    count: u32,
) -> Result<Vec<Wire>, AllocError>
    requires x { AreWires b.now xs.now }
    requires size { length xs.now ≤ 128 }
    requires below { below ≤ 128 }
    requires count { count ≤ 128 }
    ensures width { IfOk result (λ r. length r.items ≡ count) }
    ensures value { IfOk result (λ r. Carries b.now r.items (λ input. select (wire_values b.now input xs.now) (place range (integer_of index) -ℤ pos below) count)) }
{
    match near_place(range, index) {
        // No bit is that far.
        None => {
            let out = picked(alloc, b, &[], 0, count)?;
            Ok(out)
        }
        Some(place) => {
            let out = picked(alloc, b, xs, place - below as i64, count)?;
            Ok(out)
        }
    }
}

/// The wire, or its negation where the bit is 0.
fn matched(b: &Builder, x: Wire, one: bool) -> Wire
    requires { IsWire b.now x }
    ensures { CarriesBit b.now result (λ input. (if one then (wire_value b.now input x) else (not (wire_value b.now input x)))) }
{
    if one { x } else { b.not(x) }
}

/// Whether wires carry a constant word of their width. The top bits come first, so that the tests
/// for small numbers share gates.
pub fn matches(b: &mut Builder, ys: &[Wire], bits: Bits) -> Result<Wire, AllocError>
    requires y { AreWires b.old ys.now }
    requires width { length ys.now ≡ length bits }
    ensures extends { Extends b.old b.new }
    ensures value { IfOk result (λ w. CarriesBit b.new w (λ input. number (wire_values b.old input ys.now) == number bits)) }
{
    let mut same = b.constant(true);
    for i in 0..ys.len() {
        let at = ys.len() - 1 - i;
        let bit = matched(b, ys[at], bits.get(at as u32));
        same = b.and(same, bit)?;
    }
    Ok(same)
}

/// The low bits of an integer.
fn word_of(width: u32, at: i64) -> Bits
    requires low { 1 ≤ width }
    requires high { width ≤ 128 }
    ensures { result ≡ of_integer width at }
{
    let size = Bits::from_u128(width, at.unsigned_abs() as u128);
    if at < 0 { size.negated() } else { size }
}

/// Whether an index is this number.
fn is_index(index: Index, at: i64) -> bool
    ensures { result ≡ int_eq (integer_of index) at }
{
    if index.size != at.unsigned_abs() as u128 {
        return false;
    }
    if index.negative { at <= 0 } else { at >= 0 }
}

/// Whether the number that wires write is this one; there are 1 to 128 wires.
pub fn reads(b: &mut Builder, ys: &[Wire], signed: bool, at: i64) -> Result<Wire, AllocError>
    requires y { AreWires b.old ys.now }
    requires low { 1 ≤ length ys.now }
    requires high { length ys.now ≤ 128 }
    ensures extends { Extends b.old b.new }
    ensures value { IfOk result (λ w. CarriesBit b.new w (λ input. int_eq (reading signed (wire_values b.old input ys.now)) at)) }
{
    let bits = word_of(ys.len() as u32, at);
    if !is_index(index_of(bits, signed), at) {
        return Ok(b.constant(false));
    }
    let out = matches(b, ys, bits)?;
    Ok(out)
}

/// The index of a place.
fn index_for(range: (u32, u32), at: i64) -> i64
    requires { unsigned_abs at < 1152921504606846976 }
    ensures { (v : ℤ) → int_eq v result ≡ int_eq (place range v) at }
{
    if range.0 < range.1 {
        range.1 as i64 - at
    } else {
        range.1 as i64 + at
    }
}

/// Whether an index that wires write names this place of a range; there are 1 to 128 wires.
pub fn names_place(
    b: &mut Builder,
    ys: &[Wire],
    signed: bool,
    range: (u32, u32),
    at: i64,
) -> Result<Wire, AllocError>
    requires y { AreWires b.old ys.now }
    requires low { 1 ≤ length ys.now }
    requires high { length ys.now ≤ 128 }
    requires near { unsigned_abs at < 1152921504606846976 }
    ensures extends { Extends b.old b.new }
    ensures value { IfOk result (λ w. CarriesBit b.new w (λ input. int_eq (place range (reading signed (wire_values b.old input ys.now))) at)) }
{
    let out = reads(b, ys, signed, index_for(range, at))?;
    Ok(out)
}

/// The bit `up` places above the one `below` places under that of an index that wires write, 0 where
/// there is none.
fn bit_by(
    b: &mut Builder,
    xs: &[Wire],
    ys: &[Wire],
    signed: bool,
    range: (u32, u32),
    below: u32,
    up: u32,
) -> Result<Wire, AllocError>
    requires x { AreWires b.old xs.now }
    requires size { length xs.now ≤ 128 }
    requires y { AreWires b.old ys.now }
    requires low { 1 ≤ length ys.now }
    requires high { length ys.now ≤ 128 }
    ensures extends { Extends b.old b.new }
    ensures value { IfOk result (λ w. CarriesBit b.new w (λ input. bit_in (wire_values b.old input xs.now) ((place range (reading signed (wire_values b.old input ys.now)) -ℤ pos below) +ℤ pos up))) }
{
    let mut any = b.constant(false);
    for i in 0..xs.len() {
        let at = i as i64 + below as i64 - up as i64;
        let here = names_place(b, ys, signed, range, at)?;
        let bit = b.and(here, xs[i])?;
        any = b.or(any, bit)?;
    }
    Ok(any)
}

/// So many bits from `below` places under that of an index that wires write up, 0 where there is
/// none.
pub fn selected(
    alloc: Global,
    b: &mut Builder,
    xs: &[Wire],
    ys: &[Wire],
    signed: bool,
    range: (u32, u32),
    below: u32,
    count: u32,
) -> Result<Vec<Wire>, AllocError>
    requires x { AreWires b.old xs.now }
    requires size { length xs.now ≤ 128 }
    requires y { AreWires b.old ys.now }
    requires low { 1 ≤ length ys.now }
    requires high { length ys.now ≤ 128 }
    requires below { below ≤ 128 }
    requires count { count ≤ 128 }
    ensures extends { Extends b.old b.new }
    ensures width { IfOk result (λ r. length r.items ≡ count) }
    ensures value { IfOk result (λ r. Carries b.new r.items (λ input. select (wire_values b.old input xs.now) (place range (reading signed (wire_values b.old input ys.now)) -ℤ pos below) count)) }
{
    let mut out = Vec::new(alloc);
    for i in 0..count {
        let bit = bit_by(b, xs, ys, signed, range, below, i)?;
        out.push(bit)?;
    }
    Ok(out)
}
