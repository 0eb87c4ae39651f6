//! Counting of true wires. It is right where the answered wire is true exactly where at most so many
//! of the wires are, for every input. It stands on `rr_circuit`'s builder and on `rr_arith`'s gates of
//! words.
#![tactic(auto)]

ghost use Rattle.std.specs.Prelude.{◌≡◌, ℕ, ◌^◌, ◌*◌, ◌<◌, ◌≤◌, ◌-◌, Bool, not, ◌↔◌, IsTrue, length, IfOk};
ghost use Rattle.rr_circuit.specs.Values.{IsWire, AreWires, wire_value, wire_values, Extends};
ghost use Rattle.rr_count.specs.Counts.{is_at_most};

use rr_circuit::{Builder, Wire};
use std::alloc::{AllocError, Global};

mod binary;
mod unary;

// How many gates for each wire a counter in unary may have before a sum in binary, of some eight gates
// a wire, is taken in its place. Once as many wires are true as the bound allows, unit propagation
// finds in unary that the others are false, and in binary it does not: so the counter may be larger.
const UNARY_GATES: u128 = 32;

// Whether a counter in unary of so many wires is small enough.
fn is_unary(count: usize, bound: usize) -> bool
    requires within { bound ≤ count }
    requires few { bound < 2 ^ 32 }
    ensures { IsTrue result ↔ 2 * bound * (count - bound) ≤ 32 * count }
{
    2 * bound as u128 * (count - bound) as u128 <= UNARY_GATES * count as u128
}

// Whether more than `bound` of the wires are true, of which there are more.
fn passes(alloc: Global, b: &mut Builder, wires: &[Wire], bound: usize) -> Result<Wire, AllocError>
    requires wires { AreWires b.old wires.now }
    requires bound { bound < length wires.now }
    requires few { bound < 2 ^ 32 }
    ensures extends { Extends b.old b.new }
    ensures wire { IfOk result (λ w. IsWire b.new w) }
    ensures value { IfOk result (λ w. (env : ℕ → Bool) →
        wire_value b.new env w ≡ not (is_at_most bound (wire_values b.old env wires.now))) }
{
    if is_unary(wires.len(), bound) {
        unary::passes(alloc, b, wires, bound)
    } else {
        binary::passes(alloc, b, wires, bound)
    }
}

/// Whether at most `bound` of the wires are true. For n wires this is a sequential counter in unary
/// where 2 * bound * (n - bound) is at most 32 * n (Sinz, "Towards an Optimal CNF Encoding of Boolean
/// Cardinality Constraints", CP 2005), of the counts that can be reached and from which the bound can
/// be passed: at most two gates for each wire that may be left false and each number up to the bound.
/// Else it is their number in binary by a network of full adders (Eén and Sörensson, "Translating
/// Pseudo-Boolean Constraints into SAT", JSAT 2, 2006, section 5.2), compared with the bound: at most
/// nine gates a wire, eight where the wires are inputs, and one a bit of the number. There is no gate
/// where the bound is no less than the number of wires.
pub fn at_most(
    alloc: Global,
    b: &mut Builder,
    wires: &[Wire],
    bound: u32,
) -> Result<Wire, AllocError>
    requires { AreWires b.old wires.now }
    ensures extends { Extends b.old b.new }
    ensures wire { IfOk result (λ w. IsWire b.new w) }
    ensures value { IfOk result (λ w. (env : ℕ → Bool) →
        wire_value b.new env w ≡ is_at_most bound (wire_values b.old env wires.now)) }
{
    let bound = bound as usize;
    if bound >= wires.len() {
        return Ok(b.constant(true));
    }
    let passes = passes(alloc, b, wires, bound)?;
    Ok(b.not(passes))
}
