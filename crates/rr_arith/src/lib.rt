//! Arithmetic on lists of wires, lowest bit first: each call adds the gates of one operation on words
//! (IEEE 1364-2005 section 5.1). It is right where for every input the answered wires carry the word
//! that `rr_bits` gives for the operands' words. It stands on `rr_circuit`'s builder and `rr_bits`'s
//! words. The wires that were there keep their values, also after an error, which is want of memory
//! or of numbers for gates.
#![tactic(auto)]

ghost use Rattle.std.specs.Prelude.{◌≡◌, ℕ, ◌+◌, ◌-◌, ◌*◌, ◌/◌, ◌^◌, ◌%◌, ◌<◌, ◌≤◌, ◌==◌, Bool, true, false, not, ◌&&◌, ◌||◌, length, map, reverse, take, IfOk, slice_index_or, nat_lt, cond};
ghost use Rattle.rr_circuit.specs.Values.{xor, IsWire, AreWires, wire_value, wire_values, Extends};
ghost use Rattle.rr_bits.specs.Words.{bit, number, less as less_than, add as sum_of, sub as difference_of, mul as product_of, shl as shifted_left, shr, sar, top};
ghost use Rattle.rr_arith.specs.Shifts.{shift_filled};
ghost use Rattle.rr_arith.specs.Orders.{less_next};

use rr_circuit::{Builder, Wire};
use std::alloc::{AllocError, Global};

/// The sum of three bits, and its carry, by seven gates, and by up to nine where wires are negated.
pub fn full_add(b: &mut Builder, x: Wire, y: Wire, carry: Wire) -> Result<(Wire, Wire), AllocError>
    requires x { IsWire b.old x }
    requires y { IsWire b.old y }
    requires carry { IsWire b.old carry }
    ensures extends { Extends b.old b.new }
    ensures sum { IfOk result (λ r. IsWire b.new r.0) }
    ensures carry { IfOk result (λ r. IsWire b.new r.1) }
    ensures value { IfOk result (λ r. (env : ℕ → Bool) →
        bit (wire_value b.new env r.0) + 2 * bit (wire_value b.new env r.1)
        ≡ bit (wire_value b.old env x) + bit (wire_value b.old env y) + bit (wire_value b.old env carry)) }
{
    let half = b.xor(x, y)?;
    let sum = b.xor(half, carry)?;
    // The builder shares these two gates with those of the sums where no wire is negated.
    let both = b.and(x, y)?;
    let through = b.and(half, carry)?;
    let next = b.or(both, through)?;
    Ok((sum, next))
}

// The sum of two words and of a carry at the lowest bit, without the carry at the top.
fn sum(
    alloc: Global,
    b: &mut Builder,
    x: &[Wire],
    y: &[Wire],
    carry: Wire,
) -> Result<Vec<Wire>, AllocError>
    requires x { AreWires b.old x.now }
    requires y { AreWires b.old y.now }
    requires carry { IsWire b.old carry }
    requires widths { length x.now ≡ length y.now }
    ensures extends { Extends b.old b.new }
    ensures width { IfOk result (λ r. length r.items ≡ length x.now) }
    ensures wires { IfOk result (λ r. AreWires b.new r.items) }
    ensures value { IfOk result (λ r. (env : ℕ → Bool) →
        number (wire_values b.new env r.items)
        ≡ (number (wire_values b.old env x.now) + number (wire_values b.old env y.now) + bit (wire_value b.old env carry)) % 2 ^ length x.now) }
{
    let mut sums = Vec::with_capacity(alloc, x.len())?;
    let mut rest = carry;
    for i in 0..x.len() {
        let (bit, next) = full_add(b, x[i], y[i], rest)?;
        sums.push(bit)?;
        rest = next;
    }
    Ok(sums)
}

// Each wire negated.
fn inverted(alloc: Global, b: &Builder, x: &[Wire]) -> Result<Vec<Wire>, AllocError>
    requires { AreWires b.now x.now }
    ensures wires { IfOk result (λ r. AreWires b.now r.items) }
    ensures width { IfOk result (λ r. length r.items ≡ length x.now) }
    ensures value { IfOk result (λ r. (env : ℕ → Bool) → wire_values b.now env r.items ≡ map not (wire_values b.now env x.now)) }
{
    let mut wires = Vec::with_capacity(alloc, x.len())?;
    for i in 0..x.len() {
        wires.push(b.not(x[i]))?;
    }
    Ok(wires)
}

/// The sum modulo 2 to the width, of two lists of one length.
pub fn add(alloc: Global, b: &mut Builder, x: &[Wire], y: &[Wire]) -> Result<Vec<Wire>, AllocError>
    requires x { AreWires b.old x.now }
    requires y { AreWires b.old y.now }
    requires widths { length x.now ≡ length y.now }
    ensures extends { Extends b.old b.new }
    ensures width { IfOk result (λ r. length r.items ≡ length x.now) }
    ensures wires { IfOk result (λ r. AreWires b.new r.items) }
    ensures value { IfOk result (λ r. (env : ℕ → Bool) →
        wire_values b.new env r.items ≡ sum_of (wire_values b.old env x.now) (wire_values b.old env y.now)) }
{
    let carry = b.constant(false);
    let sums = sum(alloc, b, x, y, carry)?;
    Ok(sums)
}

/// The difference modulo 2 to the width, of two lists of one length.
pub fn sub(alloc: Global, b: &mut Builder, x: &[Wire], y: &[Wire]) -> Result<Vec<Wire>, AllocError>
    requires x { AreWires b.old x.now }
    requires y { AreWires b.old y.now }
    requires widths { length x.now ≡ length y.now }
    ensures extends { Extends b.old b.new }
    ensures width { IfOk result (λ r. length r.items ≡ length x.now) }
    ensures wires { IfOk result (λ r. AreWires b.new r.items) }
    ensures value { IfOk result (λ r. (env : ℕ → Bool) →
        wire_values b.new env r.items ≡ difference_of (wire_values b.old env x.now) (wire_values b.old env y.now)) }
{
    // x - y is x + (2^w - 1 - y) + 1.
    let rest = inverted(alloc, b, y)?;
    let carry = b.constant(true);
    let sums = sum(alloc, b, x, rest.as_slice(), carry)?;
    Ok(sums)
}

// The order of two words, from that of their lower parts and from their top bits, by four gates.
fn less_turn(b: &mut Builder, below: Wire, x: Wire, y: Wire) -> Result<Wire, AllocError>
    requires below { IsWire b.old below }
    requires x { IsWire b.old x }
    requires y { IsWire b.old y }
    ensures extends { Extends b.old b.new }
    ensures wire { IfOk result (λ w. IsWire b.new w) }
    ensures value { IfOk result (λ w. (env : ℕ → Bool) →
        wire_value b.new env w ≡ less_next (wire_value b.old env below) (wire_value b.old env x) (wire_value b.old env y)) }
{
    let not_x = b.not(x);
    let not_y = b.not(y);
    let under = b.and(not_x, y)?;
    let over = b.and(x, not_y)?;
    let not_over = b.not(over);
    let kept = b.and(not_over, below)?;
    b.or(under, kept)
}

/// Whether the first number is less than the second, of two lists of one length.
pub fn less_unsigned(b: &mut Builder, x: &[Wire], y: &[Wire]) -> Result<Wire, AllocError>
    requires x { AreWires b.old x.now }
    requires y { AreWires b.old y.now }
    requires widths { length x.now ≡ length y.now }
    ensures extends { Extends b.old b.new }
    ensures wire { IfOk result (λ w. IsWire b.new w) }
    ensures value { IfOk result (λ w. (env : ℕ → Bool) →
        wire_value b.new env w ≡ less_than false (wire_values b.old env x.now) (wire_values b.old env y.now)) }
{
    let mut below = b.constant(false);
    for i in 0..x.len() {
        below = less_turn(b, below, x[i], y[i])?;
    }
    Ok(below)
}

/// Whether the first number is less than the second in two's complement, of two lists of one length,
/// which is at least 1.
pub fn less_signed(b: &mut Builder, x: &[Wire], y: &[Wire]) -> Result<Wire, AllocError>
    requires x { AreWires b.old x.now }
    requires y { AreWires b.old y.now }
    requires widths { length x.now ≡ length y.now }
    requires some { 1 ≤ length x.now }
    ensures extends { Extends b.old b.new }
    ensures wire { IfOk result (λ w. IsWire b.new w) }
    ensures value { IfOk result (λ w. (env : ℕ → Bool) →
        wire_value b.new env w ≡ less_than true (wire_values b.old env x.now) (wire_values b.old env y.now)) }
{
    let top = x.len() - 1;
    let below = less_unsigned(b, &x[..top], &y[..top])?;
    // A top bit that is set makes a number the lesser.
    let less = less_turn(b, below, y[top], x[top])?;
    Ok(less)
}

// Whether two words are equal, from whether their lower parts are and from their top bits, by four
// gates.
fn equal_turn(b: &mut Builder, same: Wire, x: Wire, y: Wire) -> Result<Wire, AllocError>
    requires same { IsWire b.old same }
    requires x { IsWire b.old x }
    requires y { IsWire b.old y }
    ensures extends { Extends b.old b.new }
    ensures wire { IfOk result (λ w. IsWire b.new w) }
    ensures value { IfOk result (λ w. (env : ℕ → Bool) →
        wire_value b.new env w ≡ (wire_value b.old env same && not (xor (wire_value b.old env x) (wire_value b.old env y)))) }
{
    let differs = b.xor(x, y)?;
    let agrees = b.not(differs);
    b.and(same, agrees)
}

/// Whether two lists of one length have the same values.
pub fn equal(b: &mut Builder, x: &[Wire], y: &[Wire]) -> Result<Wire, AllocError>
    requires x { AreWires b.old x.now }
    requires y { AreWires b.old y.now }
    requires widths { length x.now ≡ length y.now }
    ensures extends { Extends b.old b.new }
    ensures wire { IfOk result (λ w. IsWire b.new w) }
    ensures value { IfOk result (λ w. (env : ℕ → Bool) →
        wire_value b.new env w ≡ (number (wire_values b.old env x.now) == number (wire_values b.old env y.now))) }
{
    let mut same = b.constant(true);
    for i in 0..x.len() {
        same = equal_turn(b, same, x[i], y[i])?;
    }
    Ok(same)
}

// The wire `by` places above another, or `fill` past the end.
fn place_above(x: &[Wire], at: usize, by: usize, fill: Wire) -> Wire
    requires { at < length x.now }
    ensures { result ≡ slice_index_or x.now (at + by) fill }
{
    if by < x.len() - at { x[at + by] } else { fill }
}

// The wires `by` places lower where the test is true, filled from above.
fn shift_turn(
    alloc: Global,
    b: &mut Builder,
    x: &[Wire],
    test: Wire,
    by: usize,
    fill: Wire,
) -> Result<Vec<Wire>, AllocError>
    requires x { AreWires b.old x.now }
    requires test { IsWire b.old test }
    requires fill { IsWire b.old fill }
    ensures extends { Extends b.old b.new }
    ensures width { IfOk result (λ r. length r.items ≡ length x.now) }
    ensures wires { IfOk result (λ r. AreWires b.new r.items) }
    ensures value { IfOk result (λ r. (env : ℕ → Bool) →
        wire_values b.new env r.items
        ≡ shift_filled (wire_values b.old env x.now) (by * bit (wire_value b.old env test)) (wire_value b.old env fill)) }
{
    let mut wires = Vec::with_capacity(alloc, x.len())?;
    for i in 0..x.len() {
        let from = place_above(x, i, by, fill);
        let wire = b.mux(test, from, x[i])?;
        wires.push(wire)?;
    }
    Ok(wires)
}

// The wires as many places lower as at most seven wires say.
fn shift_low(
    alloc: Global,
    b: &mut Builder,
    x: &[Wire],
    by: &[Wire],
    fill: Wire,
) -> Result<Vec<Wire>, AllocError>
    requires x { AreWires b.old x.now }
    requires by { AreWires b.old by.now }
    requires fill { IsWire b.old fill }
    requires count { length by.now ≤ 7 }
    ensures extends { Extends b.old b.new }
    ensures width { IfOk result (λ r. length r.items ≡ length x.now) }
    ensures wires { IfOk result (λ r. AreWires b.new r.items) }
    ensures value { IfOk result (λ r. (env : ℕ → Bool) →
        wire_values b.new env r.items
        ≡ shift_filled (wire_values b.old env x.now) (number (wire_values b.old env by.now)) (wire_value b.old env fill)) }
{
    let mut wires = Vec::with_capacity(alloc, x.len())?;
    wires.extend_from_slice(x)?;
    let mut step = 1;
    for i in 0..by.len() {
        wires = shift_turn(alloc, b, wires.as_slice(), by[i], step, fill)?;
        step *= 2;
    }
    Ok(wires)
}

// Whether some wire is true.
fn any(b: &mut Builder, x: &[Wire]) -> Result<Wire, AllocError>
    requires { AreWires b.old x.now }
    ensures extends { Extends b.old b.new }
    ensures wire { IfOk result (λ w. IsWire b.new w) }
    ensures value { IfOk result (λ w. (env : ℕ → Bool) →
        wire_value b.new env w ≡ nat_lt 0 (number (wire_values b.old env x.now))) }
{
    let mut any = b.constant(false);
    for i in 0..x.len() {
        any = b.or(any, x[i])?;
    }
    Ok(any)
}

// How many of the low bits of a distance can move a word of this width by less than the width.
fn distance_bits(width: usize, count: usize) -> usize
    requires { width ≤ 128 }
    ensures few { result ≤ 7 }
    ensures within { result ≤ count }
    ensures enough { result < count → width ≤ 2 ^ result }
{
    let mut bits = 0;
    let mut reach = 1;
    while bits < count && bits < 7 && reach < width {
        bits += 1;
        reach *= 2;
    }
    bits
}

/// The bits as many places lower as the second number says, with a given wire from above
/// (IEEE 1364-2005 section 5.1.12). There are at most 128 wires to shift.
pub fn shift_right(
    alloc: Global,
    b: &mut Builder,
    x: &[Wire],
    by: &[Wire],
    fill: Wire,
) -> Result<Vec<Wire>, AllocError>
    requires x { AreWires b.old x.now }
    requires by { AreWires b.old by.now }
    requires fill { IsWire b.old fill }
    requires width { length x.now ≤ 128 }
    ensures extends { Extends b.old b.new }
    ensures width { IfOk result (λ r. length r.items ≡ length x.now) }
    ensures wires { IfOk result (λ r. AreWires b.new r.items) }
    ensures value { IfOk result (λ r. (env : ℕ → Bool) →
        wire_values b.new env r.items
        ≡ shift_filled (wire_values b.old env x.now) (number (wire_values b.old env by.now)) (wire_value b.old env fill)) }
    // With 0 from above it is the logical shift, and with the top bit the arithmetic one.
    ensures logical { IfOk result (λ r. (env : ℕ → Bool) →
        wire_value b.old env fill ≡ false
        → wire_values b.new env r.items ≡ shr (wire_values b.old env x.now) (number (wire_values b.old env by.now))) }
    ensures arithmetic { IfOk result (λ r. (env : ℕ → Bool) →
        wire_value b.old env fill ≡ top (wire_values b.old env x.now)
        → wire_values b.new env r.items ≡ sar (wire_values b.old env x.now) (number (wire_values b.old env by.now))) }
{
    let low = distance_bits(x.len(), by.len());
    let moved = shift_low(alloc, b, x, &by[..low], fill)?;
    // Each bit above those moves all wires out.
    let past = any(b, &by[low..])?;
    let wires = shift_turn(alloc, b, moved.as_slice(), past, x.len(), fill)?;
    Ok(wires)
}

// The wires in the other order.
fn reversed(alloc: Global, x: &[Wire]) -> Result<Vec<Wire>, AllocError>
    ensures { IfOk result (λ r. r.items ≡ reverse x.now) }
{
    let mut wires = Vec::with_capacity(alloc, x.len())?;
    wires.extend_from_slice(x)?;
    wires.reverse();
    Ok(wires)
}

/// The bits as many places higher as the second number says, with 0 from below (IEEE 1364-2005
/// section 5.1.12). There are at most 128 wires to shift.
pub fn shift_left(
    alloc: Global,
    b: &mut Builder,
    x: &[Wire],
    by: &[Wire],
) -> Result<Vec<Wire>, AllocError>
    requires x { AreWires b.old x.now }
    requires by { AreWires b.old by.now }
    requires width { length x.now ≤ 128 }
    ensures extends { Extends b.old b.new }
    ensures width { IfOk result (λ r. length r.items ≡ length x.now) }
    ensures wires { IfOk result (λ r. AreWires b.new r.items) }
    ensures value { IfOk result (λ r. (env : ℕ → Bool) →
        wire_values b.new env r.items
        ≡ shifted_left (wire_values b.old env x.now) (number (wire_values b.old env by.now))) }
{
    // A shift to the right of the word turned round.
    let turned = reversed(alloc, x)?;
    let fill = b.constant(false);
    let moved = shift_right(alloc, b, turned.as_slice(), by, fill)?;
    let wires = reversed(alloc, moved.as_slice())?;
    Ok(wires)
}

// Every second wire from the place that the test says on, or false past the end.
fn halved(alloc: Global, b: &mut Builder, x: &[Wire], test: Wire) -> Result<Vec<Wire>, AllocError>
    requires x { AreWires b.old x.now }
    requires test { IsWire b.old test }
    requires width { length x.now ≤ 128 }
    ensures extends { Extends b.old b.new }
    ensures width { IfOk result (λ r. length r.items ≡ (length x.now + 1) / 2) }
    ensures wires { IfOk result (λ r. AreWires b.new r.items) }
    ensures value { IfOk result (λ r. (env : ℕ → Bool) (k : ℕ) →
        slice_index_or (wire_values b.new env r.items) k false
        ≡ slice_index_or (wire_values b.old env x.now) (2 * k + bit (wire_value b.old env test)) false) }
{
    let none = b.constant(false);
    let count = x.len().div_ceil(2);
    let mut wires = Vec::with_capacity(alloc, count)?;
    for i in 0..count {
        let odd = place_above(x, 2 * i, 1, none);
        let wire = b.mux(test, odd, x[2 * i])?;
        wires.push(wire)?;
    }
    Ok(wires)
}

/// The bit at the place that the second number says, and false where there is none. There are 1 to
/// 128 wires to select from.
pub fn select_bit(
    alloc: Global,
    b: &mut Builder,
    x: &[Wire],
    at: &[Wire],
) -> Result<Wire, AllocError>
    requires x { AreWires b.old x.now }
    requires at { AreWires b.old at.now }
    requires some { 1 ≤ length x.now }
    requires width { length x.now ≤ 128 }
    ensures extends { Extends b.old b.new }
    ensures wire { IfOk result (λ w. IsWire b.new w) }
    ensures value { IfOk result (λ w. (env : ℕ → Bool) →
        wire_value b.new env w
        ≡ slice_index_or (wire_values b.old env x.now) (number (wire_values b.old env at.now)) false) }
{
    let mut wires = Vec::with_capacity(alloc, x.len())?;
    wires.extend_from_slice(x)?;
    for i in 0..at.len() {
        wires = halved(alloc, b, wires.as_slice(), at[i])?;
    }
    Ok(wires[0])
}

// One bit of a row of a product.
fn row_bit(
    b: &mut Builder,
    x: &[Wire],
    test: Wire,
    at: usize,
    by: usize,
) -> Result<Wire, AllocError>
    requires x { AreWires b.old x.now }
    requires test { IsWire b.old test }
    requires within { at < length x.now }
    ensures extends { Extends b.old b.new }
    ensures wire { IfOk result (λ w. IsWire b.new w) }
    ensures value { IfOk result (λ w. (env : ℕ → Bool) →
        wire_value b.new env w
        ≡ cond (nat_lt at by) false (wire_value b.old env test && slice_index_or (wire_values b.old env x.now) (at - by) false)) }
{
    if at < by {
        return Ok(b.constant(false));
    }
    let wire = b.and(test, x[at - by])?;
    Ok(wire)
}

// One row of a product: the word `by` places higher where the test is true, else 0.
fn product_row(
    alloc: Global,
    b: &mut Builder,
    x: &[Wire],
    test: Wire,
    by: usize,
) -> Result<Vec<Wire>, AllocError>
    requires x { AreWires b.old x.now }
    requires test { IsWire b.old test }
    requires width { length x.now ≤ 128 }
    ensures extends { Extends b.old b.new }
    ensures width { IfOk result (λ r. length r.items ≡ length x.now) }
    ensures wires { IfOk result (λ r. AreWires b.new r.items) }
    ensures value { IfOk result (λ r. (env : ℕ → Bool) →
        number (wire_values b.new env r.items)
        ≡ (number (wire_values b.old env x.now) * (2 ^ by * bit (wire_value b.old env test))) % 2 ^ length x.now) }
{
    let mut wires = Vec::with_capacity(alloc, x.len())?;
    for i in 0..x.len() {
        let wire = row_bit(b, x, test, i, by)?;
        wires.push(wire)?;
    }
    Ok(wires)
}

/// The product modulo 2 to the width, of two lists of one length, which is at most 128. A row whose
/// factor is constant 0 adds no gates, since the builder folds them.
pub fn mul(alloc: Global, b: &mut Builder, x: &[Wire], y: &[Wire]) -> Result<Vec<Wire>, AllocError>
    requires x { AreWires b.old x.now }
    requires y { AreWires b.old y.now }
    requires widths { length x.now ≡ length y.now }
    requires width { length x.now ≤ 128 }
    ensures extends { Extends b.old b.new }
    ensures width { IfOk result (λ r. length r.items ≡ length x.now) }
    ensures wires { IfOk result (λ r. AreWires b.new r.items) }
    ensures value { IfOk result (λ r. (env : ℕ → Bool) →
        wire_values b.new env r.items ≡ product_of (wire_values b.old env x.now) (wire_values b.old env y.now)) }
{
    let zero = b.constant(false);
    let mut product = product_row(alloc, b, x, zero, 0)?;
    for i in 0..y.len() {
        let row = product_row(alloc, b, x, y[i], i)?;
        product = add(alloc, b, product.as_slice(), row.as_slice())?;
    }
    Ok(product)
}
