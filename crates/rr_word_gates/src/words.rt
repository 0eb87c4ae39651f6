//! Operations on words of wires, lowest bit first (IEEE 1364-2005 sections 5.1 and 5.4.1).
ghost use Rattle.std.specs.Prelude.{◌≡◌, ◌≤◌, ◌<◌, ℕ, Bool, false, not, ◌&&◌, if◌then◌else◌, [], length, slice_index_or, IfOk};
ghost use Rattle.rr_bits.specs.Words.{extend, inverted as inverted_word, negated as negated_word, top};
ghost use Rattle.rr_circuit.specs.Values.{Netlist, IsWire, AreWires, wire_value, wire_values, Extends};
ghost use Rattle.rr_expr.specs.Selects.{repeated as repeated_word};
ghost use Rattle.rr_word_gates.specs.Carried.{Carries, CarriesBit};
ghost use Rattle.rr_word_gates.specs.Gates.{connected as connected_bits, bitwise as bitwise_word, of_all as of_all_bits};

use rr_arith::sub;
use rr_bits::Bits;
use rr_circuit::{Builder, Wire};
use std::alloc::{AllocError, Global};

/// What joins two truth values.
#[derive(Clone, Copy)]
pub enum Connective {
    And,
    Or,
    Xor,
}

/// The wires of a constant word.
pub fn constants(alloc: Global, b: &Builder, bits: Bits) -> Result<Vec<Wire>, AllocError>
    ensures width { IfOk result (λ r. length r.items ≡ length bits) }
    ensures value { IfOk result (λ r. Carries b.now r.items (λ input. bits)) }
{
    let mut out = Vec::new(alloc);
    for i in 0..bits.width() {
        out.push(b.constant(bits.get(i)))?;
    }
    Ok(out)
}

/// The wire at a place, or `fill` past the end.
fn wire_at(xs: &[Wire], at: usize, fill: Wire) -> Wire
    ensures { result ≡ slice_index_or xs.now at fill }
{
    match xs.get(at) {
        Some(x) => *x,
        None => fill,
    }
}

/// What stands above the top of a word: its top bit where it is signed, else 0.
pub(crate) fn fill_of(b: &Builder, xs: &[Wire], signed: bool) -> Wire
    requires { AreWires b.now xs.now }
    ensures { CarriesBit b.now result (λ input. signed && top (wire_values b.now input xs.now)) }
{
    if signed && xs.len() > 0 {
        return xs[xs.len() - 1];
    }
    b.constant(false)
}

/// A word in so many bits: cut from the top, or filled with the top bit where signed, else with 0
/// (IEEE 1364-2005 section 5.4.1).
pub fn extended(
    alloc: Global,
    b: &Builder,
    xs: &[Wire],
    width: u32,
    signed: bool,
) -> Result<Vec<Wire>, AllocError>
    requires { AreWires b.now xs.now }
    ensures width { IfOk result (λ r. length r.items ≡ width) }
    ensures value { IfOk result (λ r. Carries b.now r.items (λ input. extend width signed (wire_values b.now input xs.now))) }
{
    let fill = fill_of(b, xs, signed);
    let mut out = Vec::new(alloc);
    for i in 0..width {
        out.push(wire_at(xs, i as usize, fill))?;
    }
    Ok(out)
}

/// Each bit negated.
pub fn inverted(alloc: Global, b: &Builder, xs: &[Wire]) -> Result<Vec<Wire>, AllocError>
    requires { AreWires b.now xs.now }
    ensures width { IfOk result (λ r. length r.items ≡ length xs.now) }
    ensures value { IfOk result (λ r. Carries b.now r.items (λ input. inverted_word (wire_values b.now input xs.now))) }
{
    let mut out = Vec::new(alloc);
    for i in 0..xs.len() {
        out.push(b.not(xs[i]))?;
    }
    Ok(out)
}

/// The negation modulo 2 to the width.
pub fn negated(alloc: Global, b: &mut Builder, xs: &[Wire]) -> Result<Vec<Wire>, AllocError>
    requires { AreWires b.old xs.now }
    ensures extends { Extends b.old b.new }
    ensures width { IfOk result (λ r. length r.items ≡ length xs.now) }
    ensures value { IfOk result (λ r. Carries b.new r.items (λ input. negated_word (wire_values b.old input xs.now))) }
{
    let mut zeros = Vec::new(alloc);
    for i in 0..xs.len() {
        zeros.push(b.constant(false))?;
    }
    let out = sub(alloc, b, zeros.as_slice(), xs)?;
    Ok(out)
}

/// Two truth values joined.
pub fn connected(b: &mut Builder, op: Connective, x: Wire, y: Wire) -> Result<Wire, AllocError>
    requires x { IsWire b.old x }
    requires y { IsWire b.old y }
    ensures extends { Extends b.old b.new }
    ensures value { IfOk result (λ w. CarriesBit b.new w (λ input. connected_bits op (wire_value b.old input x) (wire_value b.old input y))) }
{
    match op {
        Connective::And => {
            let out = b.and(x, y)?;
            Ok(out)
        }
        Connective::Or => {
            let out = b.or(x, y)?;
            Ok(out)
        }
        Connective::Xor => {
            let out = b.xor(x, y)?;
            Ok(out)
        }
    }
}

/// Each two bits joined, of two words of one width (IEEE 1364-2005 section 5.1.10).
pub fn bitwise(
    alloc: Global,
    b: &mut Builder,
    op: Connective,
    xs: &[Wire],
    ys: &[Wire],
) -> Result<Vec<Wire>, AllocError>
    requires x { AreWires b.old xs.now }
    requires y { AreWires b.old ys.now }
    requires widths { length xs.now ≡ length ys.now }
    ensures extends { Extends b.old b.new }
    ensures width { IfOk result (λ r. length r.items ≡ length xs.now) }
    ensures value { IfOk result (λ r. Carries b.new r.items (λ input. bitwise_word op (wire_values b.old input xs.now) (wire_values b.old input ys.now))) }
{
    let mut out = Vec::new(alloc);
    for i in 0..xs.len() {
        let bit = connected(b, op, xs[i], ys[i])?;
        out.push(bit)?;
    }
    Ok(out)
}

/// What no bits give.
fn of_none(b: &Builder, op: Connective) -> Wire
    ensures { CarriesBit b.now result (λ input. of_all_bits op []) }
{
    match op {
        Connective::And => b.constant(true),
        Connective::Or => b.constant(false),
        Connective::Xor => b.constant(false),
    }
}

/// All bits joined (IEEE 1364-2005 section 5.1.11); with `Or`, whether a word is true.
pub fn of_all(b: &mut Builder, op: Connective, xs: &[Wire]) -> Result<Wire, AllocError>
    requires { AreWires b.old xs.now }
    ensures extends { Extends b.old b.new }
    ensures value { IfOk result (λ w. CarriesBit b.new w (λ input. of_all_bits op (wire_values b.old input xs.now))) }
{
    let mut all = of_none(b, op);
    for i in 0..xs.len() {
        all = connected(b, op, all, xs[i])?;
    }
    Ok(all)
}

/// The first word where the test is true, else the second, of two words of one width.
pub fn chosen(
    alloc: Global,
    b: &mut Builder,
    test: Wire,
    xs: &[Wire],
    ys: &[Wire],
) -> Result<Vec<Wire>, AllocError>
    requires test { IsWire b.old test }
    requires x { AreWires b.old xs.now }
    requires y { AreWires b.old ys.now }
    requires widths { length xs.now ≡ length ys.now }
    ensures extends { Extends b.old b.new }
    ensures width { IfOk result (λ r. length r.items ≡ length xs.now) }
    ensures value { IfOk result (λ r. Carries b.new r.items (λ input. (if (wire_value b.old input test) then (wire_values b.old input xs.now) else (wire_values b.old input ys.now)))) }
{
    let mut out = Vec::new(alloc);
    for i in 0..xs.len() {
        let bit = b.mux(test, xs[i], ys[i])?;
        out.push(bit)?;
    }
    Ok(out)
}

/// The wire where the test is true, else a constant, by one gate.
fn bit_or(b: &mut Builder, test: Wire, x: Wire, other: bool) -> Result<Wire, AllocError>
    requires test { IsWire b.old test }
    requires x { IsWire b.old x }
    ensures extends { Extends b.old b.new }
    ensures value { IfOk result (λ w. CarriesBit b.new w (λ input. (if (wire_value b.old input test) then (wire_value b.old input x) else other))) }
{
    if other {
        let not_test = b.not(test);
        let out = b.or(not_test, x)?;
        return Ok(out);
    }
    let out = b.and(test, x)?;
    Ok(out)
}

/// The word where the test is true, else a constant of its width; one gate a bit.
pub fn chosen_or(
    alloc: Global,
    b: &mut Builder,
    test: Wire,
    xs: &[Wire],
    other: Bits,
) -> Result<Vec<Wire>, AllocError>
    requires test { IsWire b.old test }
    requires x { AreWires b.old xs.now }
    requires widths { length xs.now ≡ length other }
    ensures extends { Extends b.old b.new }
    ensures width { IfOk result (λ r. length r.items ≡ length xs.now) }
    ensures value { IfOk result (λ r. Carries b.new r.items (λ input. (if (wire_value b.old input test) then (wire_values b.old input xs.now) else other))) }
{
    let mut out = Vec::new(alloc);
    for i in 0..xs.len() {
        let bit = bit_or(b, test, xs[i], other.get(i as u32))?;
        out.push(bit)?;
    }
    Ok(out)
}

/// That many copies of a word, one after the other (IEEE 1364-2005 section 5.1.14).
pub fn repeated(alloc: Global, word: &[Wire], copies: u128) -> Result<Vec<Wire>, AllocError>
    ensures { IfOk result (λ r. (n : Netlist) → AreWires n word.now → Carries n r.items (λ input. repeated_word copies (wire_values n input word.now))) }
{
    let mut out = Vec::new(alloc);
    let mut done: u128 = 0;
    while done < copies {
        out.extend_from_slice(word)?;
        done += 1;
    }
    Ok(out)
}
