//! The number of true wires in binary: a network of full adders (Eén and Sörensson, "Translating
//! Pseudo-Boolean Constraints into SAT", JSAT 2, 2006, section 5.2).
ghost use Rattle.std.specs.Prelude.{◌≡◌, ℕ, ◌^◌, ◌*◌, ◌/◌, ◌%◌, ◌<◌, ◌≤◌, ◌+◌, Bool, not, length, IfOk};
ghost use Rattle.rr_circuit.specs.Values.{IsWire, AreWires, wire_value, wire_values, Extends};
ghost use Rattle.rr_bits.specs.Words.{bit, number};
ghost use Rattle.rr_count.specs.Counts.{is_at_most, true_count};

use rr_arith::{full_add, less_unsigned};
use rr_circuit::{Builder, Wire};
use std::alloc::{AllocError, Global};

// The wires, and one that is false where they are even in number.
fn odd_wires(alloc: Global, b: &Builder, wires: &[Wire]) -> Result<Vec<Wire>, AllocError>
    requires { AreWires b.now wires.now }
    ensures width { IfOk result (λ r. length r.items ≡ 2 * (length wires.now / 2) + 1) }
    ensures wires { IfOk result (λ r. AreWires b.now r.items) }
    ensures value { IfOk result (λ r. (env : ℕ → Bool) →
        true_count (wire_values b.now env r.items) ≡ true_count (wire_values b.now env wires.now)) }
{
    let mut odd = Vec::with_capacity(alloc, wires.len())?;
    odd.extend_from_slice(wires)?;
    if wires.len() % 2 == 0 {
        odd.push(b.constant(false))?;
    }
    Ok(odd)
}

// The lowest bit of the number of true wires, and wires that count two each, by a full adder for every
// two wires. Each adder takes three from the front of a queue and puts their sum at its end, so that
// the adders are a tree of little depth.
fn halved(alloc: Global, b: &mut Builder, wires: &[Wire]) -> Result<(Wire, Vec<Wire>), AllocError>
    requires { AreWires b.old wires.now }
    ensures extends { Extends b.old b.new }
    ensures bit { IfOk result (λ r. IsWire b.new r.0) }
    ensures carries { IfOk result (λ r. AreWires b.new r.1.items) }
    ensures width { IfOk result (λ r. length r.1.items ≡ length wires.now / 2) }
    ensures value { IfOk result (λ r. (env : ℕ → Bool) →
        true_count (wire_values b.old env wires.now)
        ≡ bit (wire_value b.new env r.0) + 2 * true_count (wire_values b.new env r.1.items)) }
{
    let mut queue = odd_wires(alloc, b, wires)?;
    let adders = wires.len() / 2;
    let mut carries = Vec::with_capacity(alloc, adders)?;
    for i in 0..adders {
        let (sum, carry) = full_add(b, queue[3 * i], queue[3 * i + 1], queue[3 * i + 2])?;
        queue.push(sum)?;
        carries.push(carry)?;
    }
    Ok((queue[3 * adders], carries))
}

// The number of true wires as a word that is wide enough for all of them, lowest bit first.
fn sum(alloc: Global, b: &mut Builder, wires: &[Wire]) -> Result<Vec<Wire>, AllocError>
    requires { AreWires b.old wires.now }
    ensures extends { Extends b.old b.new }
    ensures wires { IfOk result (λ r. AreWires b.new r.items) }
    ensures width { IfOk result (λ r. length wires.now < 2 ^ length r.items) }
    ensures value { IfOk result (λ r. (env : ℕ → Bool) →
        number (wire_values b.new env r.items) ≡ true_count (wire_values b.old env wires.now)) }
{
    let mut word = Vec::new(alloc);
    let (lowest, mut rest) = halved(alloc, b, wires)?;
    word.push(lowest)?;
    while !rest.is_empty() {
        let (bit, carries) = halved(alloc, b, rest.as_slice())?;
        word.push(bit)?;
        rest = carries;
    }
    Ok(word)
}

// A number as a word of constants, lowest bit first.
fn constant_word(
    alloc: Global,
    b: &Builder,
    value: usize,
    width: usize,
) -> Result<Vec<Wire>, AllocError>
    requires { value < 2 ^ width }
    ensures wires { IfOk result (λ r. AreWires b.now r.items) }
    ensures width { IfOk result (λ r. length r.items ≡ width) }
    ensures value { IfOk result (λ r. (env : ℕ → Bool) → number (wire_values b.now env r.items) ≡ value) }
{
    let mut word = Vec::with_capacity(alloc, width)?;
    let mut rest = value;
    for _ in 0..width {
        word.push(b.constant(rest % 2 == 1))?;
        rest /= 2;
    }
    Ok(word)
}

// Whether more than `bound` of the wires are true, of which there are more: by fewer full adders than
// wires, and one gate for each bit of the number.
pub(crate) fn passes(
    alloc: Global,
    b: &mut Builder,
    wires: &[Wire],
    bound: usize,
) -> Result<Wire, AllocError>
    requires wires { AreWires b.old wires.now }
    requires bound { bound < length wires.now }
    ensures extends { Extends b.old b.new }
    ensures wire { IfOk result (λ w. IsWire b.new w) }
    ensures value { IfOk result (λ w. (env : ℕ → Bool) →
        wire_value b.new env w ≡ not (is_at_most bound (wire_values b.old env wires.now))) }
{
    let sum = sum(alloc, b, wires)?;
    let limit = constant_word(alloc, b, bound, sum.len())?;
    less_unsigned(b, limit.as_slice(), sum.as_slice())
}
