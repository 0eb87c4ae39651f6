//! Counts of true wires in unary: a sequential counter (Sinz, "Towards an Optimal CNF Encoding of Boolean
//! Cardinality Constraints", CP 2005).
ghost use Rattle.std.specs.Prelude.{◌≡◌, ℕ, ◌^◌, ◌<◌, ◌≤◌, min, ◌+◌, ◌-◌, Bool, false, not, ◌&&◌, ◌||◌, length, IfOk, slice_index_or};
ghost use Rattle.rr_circuit.specs.Values.{IsWire, AreWires, wire_value, wire_values, Extends};
ghost use Rattle.rr_count.specs.Counts.{is_at_most, count_value, value_before, next_count};

use rr_circuit::{Builder, Wire};
use std::alloc::{AllocError, Global};

// A part of the counts of some wires: count `k` says that more than `k` of them are true. Those from
// `first` on are here, and those past the last one are false.
#[derive(Drop)]
struct Counts {
    first: usize,
    wires: Vec<Wire>,
}

// The first count from which the bound can be passed, with so many wires left.
fn first_count(bound: usize, left: usize) -> usize
    ensures { result ≡ bound - left }
{
    bound.saturating_sub(left)
}

// The count past the last one that is of use, with so many wires before.
fn end_count(bound: usize, before: usize) -> usize
    requires { bound < 2 ^ 32 }
    ensures { result ≡ min before bound + 1 }
{
    before.min(bound) + 1
}

// A count from the first one on.
fn count_at(b: &Builder, counts: &Counts, number: usize) -> Wire
    requires wires { AreWires b.now counts.now.wires.items }
    requires first { counts.now.first ≤ number }
    ensures wire { IsWire b.now result }
    ensures value { (env : ℕ → Bool) → wire_value b.now env result ≡ count_value (wire_values b.now env counts.now.wires.items) counts.now.first number }
{
    match counts.wires.get(number - counts.first) {
        Some(wire) => *wire,
        None => b.constant(false),
    }
}

// The count before this one, and true before count 0.
fn count_before(b: &Builder, counts: &Counts, number: usize) -> Wire
    requires wires { AreWires b.now counts.now.wires.items }
    requires first { 1 ≤ number → counts.now.first + 1 ≤ number }
    ensures wire { IsWire b.now result }
    ensures value { (env : ℕ → Bool) → wire_value b.now env result ≡ value_before (wire_values b.now env counts.now.wires.items) counts.now.first number }
{
    if number == 0 {
        b.constant(true)
    } else {
        count_at(b, counts, number - 1)
    }
}

// Whether a number is reached that was so before, or whose predecessor was.
fn count_turn(b: &mut Builder, count: Wire, x: Wire, before: Wire) -> Result<Wire, AllocError>
    requires count { IsWire b.old count }
    requires x { IsWire b.old x }
    requires before { IsWire b.old before }
    ensures extends { Extends b.old b.new }
    ensures wire { IfOk result (λ w. IsWire b.new w) }
    ensures value { IfOk result (λ w. (env : ℕ → Bool) →
        wire_value b.new env w ≡ (wire_value b.old env count || (wire_value b.old env x && wire_value b.old env before))) }
{
    let reached = b.and(x, before)?;
    b.or(count, reached)
}

// The counts with one wire more, from `first` up to `end`, by at most two gates a count.
fn counted(
    alloc: Global,
    b: &mut Builder,
    counts: &Counts,
    x: Wire,
    first: usize,
    end: usize,
) -> Result<Counts, AllocError>
    requires wires { AreWires b.old counts.now.wires.items }
    requires x { IsWire b.old x }
    requires first { counts.now.first ≤ first }
    requires second { 1 ≤ first → counts.now.first + 1 ≤ first }
    requires end { first ≤ end }
    ensures extends { Extends b.old b.new }
    ensures first { IfOk result (λ r. r.first ≡ first) }
    ensures width { IfOk result (λ r. length r.wires.items ≡ end - first) }
    ensures wires { IfOk result (λ r. AreWires b.new r.wires.items) }
    ensures value { IfOk result (λ r. (env : ℕ → Bool) (k : ℕ) → first + k < end →
        slice_index_or (wire_values b.new env r.wires.items) k false
        ≡ next_count (wire_values b.old env counts.now.wires.items) counts.now.first (wire_value b.old env x) (first + k)) }
{
    let mut next = Vec::with_capacity(alloc, end - first)?;
    for number in first..end {
        let count = count_at(b, counts, number);
        let before = count_before(b, counts, number);
        next.push(count_turn(b, count, x, before)?)?;
    }
    Ok(Counts { first, wires: next })
}

// Whether more than `bound` of the wires are true, of which there are more: by at most two gates for
// each wire that may be left false and each number up to the bound.
pub(crate) fn passes(
    alloc: Global,
    b: &mut Builder,
    wires: &[Wire],
    bound: usize,
) -> Result<Wire, AllocError>
    requires wires { AreWires b.old wires.now }
    requires bound { bound < length wires.now }
    requires few { bound < 2 ^ 32 }
    ensures extends { Extends b.old b.new }
    ensures wire { IfOk result (λ w. IsWire b.new w) }
    ensures value { IfOk result (λ w. (env : ℕ → Bool) →
        wire_value b.new env w ≡ not (is_at_most bound (wire_values b.old env wires.now))) }
{
    let mut counts = Counts {
        first: 0,
        wires: Vec::new(alloc),
    };
    for i in 0..wires.len() {
        let first = first_count(bound, wires.len() - i - 1);
        let end = end_count(bound, i);
        counts = counted(alloc, b, &counts, wires[i], first, end)?;
    }
    Ok(count_at(b, &counts, bound))
}
