//! Gates on a builder. A wire that is known to carry the value already is given again, so that a gate
//! is made only where none of the rules of two gates tells its wire.

ghost use Rattle.std.specs.Prelude.{◌≡◌, ℕ, ◌*◌, ◌/◌, ◌%◌, ◌≤◌, ◌==◌, Bool, true, not, ◌&&◌, ◌||◌, if◌then◌else◌, slice_get, All, IfOk, IfSome};
ghost use Rattle.std.specs.Int.Bits.{bit_xor};
ghost use Rattle.rr_circuit.specs.Values.{xor, IsWire, wire_value, Extends, Computes};

use crate::{Builder, Gate, LIMIT, Wire};
use std::alloc::AllocError;

// Whether the literal is negated.
fn is_negated(a: Wire) -> bool
    ensures { result ≡ ((a.0 % 2) == 1) }
{
    a.0 % 2 == 1
}

// The other sign.
fn flipped(a: Wire) -> Wire
    ensures { result ≡ record { 0 = bit_xor a.0 1 } }
{
    Wire(a.0 ^ 1)
}

// Whether a gate has this operand.
fn has_operand(gate: Gate, a: Wire) -> bool
    ensures { result ≡ ((gate.left.0 == a.0) || (gate.right.0 == a.0)) }
{
    gate.left.0 == a.0 || gate.right.0 == a.0
}

// Whether a wire is true wherever the test is, as the numbers tell.
fn is_implied(test: Wire, a: Wire) -> bool
    ensures { result ≡ ((a.0 == 1) || (a.0 == test.0)) }
{
    a.0 == 1 || a.0 == test.0
}

impl Builder {
    /// The negation.
    pub fn not(&self, a: Wire) -> Wire
        requires { IsWire self.now a }
        ensures wire { IsWire self.now result }
        ensures value { (env : ℕ → Bool) → wire_value self.now env result ≡ not (wire_value self.now env a) }
    {
        flipped(a)
    }

    // The wire, or its negation.
    fn signed(&self, a: Wire, negated: bool) -> Wire
        requires { IsWire self.now a }
        ensures wire { IsWire self.now result }
        ensures value { (env : ℕ → Bool) → wire_value self.now env result ≡ xor negated (wire_value self.now env a) }
    {
        if negated { self.not(a) } else { a }
    }

    // The gate with this number, counted from 0.
    fn gate_at(&self, number: u64) -> Option<Gate>
        ensures { result ≡ slice_get self.now.gates number }
    {
        self.gates.get(number as usize).copied()
    }

    // The gate whose conjunction the wire carries, or the negation of it.
    fn gate_of(&self, a: Wire) -> Option<Gate>
        requires { IsWire self.now a }
        ensures gate { IfSome result (λ g. Computes self.now g (record { 0 = 2 * (a.0 / 2) })) }
        ensures left { IfSome result (λ g. 2 ≤ g.left.0) }
        ensures right { IfSome result (λ g. 2 ≤ g.right.0) }
    {
        let variable = a.0 / 2;
        if variable <= self.inputs {
            return None;
        }
        self.gate_at(variable - self.inputs - 1)
    }

    // What the conjunction is where one operand is an operand of the other's gate: a & (a & r) is
    // a & r, a & (!a & r) is false, and a & !(!a & r) is a.
    fn absorbed(&self, a: Wire, b: Wire) -> Option<Wire>
        requires a { IsWire self.now a }
        requires b { IsWire self.now b }
        ensures wire { IfSome result (IsWire self.now) }
        ensures value { IfSome result (λ w. (env : ℕ → Bool) →
            wire_value self.now env w ≡ (wire_value self.now env a && wire_value self.now env b)) }
    {
        let gate = self.gate_of(b)?;
        let negated = is_negated(b);
        if has_operand(gate, self.not(a)) {
            return Some(if negated { a } else { Wire(0) });
        }
        if has_operand(gate, a) && !negated {
            return Some(b);
        }
        None
    }

    // What stands for b in a conjunction with a: for !(a & r) it is !r, as a & !(a & r) is a & !r.
    fn beside(&self, a: Wire, b: Wire) -> Wire
        requires a { IsWire self.now a }
        requires b { IsWire self.now b }
        requires low { 2 ≤ b.0 }
        ensures wire { IsWire self.now result }
        ensures low { 2 ≤ result.0 }
        ensures value { (env : ℕ → Bool) →
            (wire_value self.now env a && wire_value self.now env result) ≡ (wire_value self.now env a && wire_value self.now env b) }
    {
        let Some(gate) = self.gate_of(b) else {
            return b;
        };
        if !is_negated(b) {
            return b;
        }
        if gate.left.0 == a.0 {
            return flipped(gate.right);
        }
        if gate.right.0 == a.0 {
            return flipped(gate.left);
        }
        b
    }

    // The wire that carries the conjunction already, where a constant or one of the wires tells it.
    fn folded(&self, a: Wire, b: Wire) -> Option<Wire>
        requires a { IsWire self.now a }
        requires b { IsWire self.now b }
        ensures wire { IfSome result (IsWire self.now) }
        ensures value { IfSome result (λ w. (env : ℕ → Bool) →
            wire_value self.now env w ≡ (wire_value self.now env a && wire_value self.now env b)) }
        ensures low { result ≡ None → (2 ≤ a.0) × (2 ≤ b.0) }
    {
        if a.0 == 0 || b.0 == 0 || a.0 == (b.0 ^ 1) {
            return Some(Wire(0));
        }
        if a.0 == 1 || a.0 == b.0 {
            return Some(b);
        }
        if b.0 == 1 {
            return Some(a);
        }
        if let Some(wire) = self.absorbed(a, b) {
            return Some(wire);
        }
        self.absorbed(b, a)
    }

    // The gate of two wires that are no constants, the greater first. It is made where it is new.
    fn push_gate(&mut self, left: Wire, right: Wire) -> Result<Wire, AllocError>
        requires low { 2 ≤ right.0 }
        requires order { right.0 ≤ left.0 }
        requires wire { IsWire self.old left }
        ensures extends { Extends self.old self.new }
        ensures wire { IfOk result (λ w. IsWire self.new w) }
        ensures value { IfOk result (λ w. (env : ℕ → Bool) →
            wire_value self.new env w ≡ (wire_value self.old env left && wire_value self.old env right)) }
    {
        let gate = Gate { left, right };
        if let Some(wire) = self.known.get(&gate).copied() {
            return Ok(wire);
        }
        let at = self.inputs + self.gates.len() as u64 + 1;
        if at >= LIMIT {
            return Err(AllocError);
        }
        let wire = Wire(2 * at);
        self.gates.push(gate)?;
        self.known.insert(gate, wire)?;
        Ok(wire)
    }

    /// The conjunction. The error is want of memory, or of numbers: inputs and gates stay below
    /// 2^62. The wires that were there keep their values after it too, as in the calls below.
    pub fn and(&mut self, a: Wire, b: Wire) -> Result<Wire, AllocError>
        requires a { IsWire self.old a }
        requires b { IsWire self.old b }
        ensures extends { Extends self.old self.new }
        ensures wire { IfOk result (λ w. IsWire self.new w) }
        ensures value { IfOk result (λ w. (env : ℕ → Bool) →
            wire_value self.new env w ≡ (wire_value self.old env a && wire_value self.old env b)) }
    {
        if let Some(wire) = self.folded(a, b) {
            return Ok(wire);
        }
        let right = self.beside(a, b);
        let left = self.beside(right, a);
        if left.0 < right.0 {
            return self.push_gate(right, left);
        }
        self.push_gate(left, right)
    }

    /// The disjunction.
    pub fn or(&mut self, a: Wire, b: Wire) -> Result<Wire, AllocError>
        requires a { IsWire self.old a }
        requires b { IsWire self.old b }
        ensures extends { Extends self.old self.new }
        ensures wire { IfOk result (λ w. IsWire self.new w) }
        ensures value { IfOk result (λ w. (env : ℕ → Bool) →
            wire_value self.new env w ≡ (wire_value self.old env a || wire_value self.old env b)) }
    {
        let not_a = self.not(a);
        let not_b = self.not(b);
        let neither = self.and(not_a, not_b)?;
        Ok(self.not(neither))
    }

    // Exactly one of the two, by three gates.
    fn differ(&mut self, a: Wire, b: Wire) -> Result<Wire, AllocError>
        requires a { IsWire self.old a }
        requires b { IsWire self.old b }
        ensures extends { Extends self.old self.new }
        ensures wire { IfOk result (λ w. IsWire self.new w) }
        ensures value { IfOk result (λ w. (env : ℕ → Bool) →
            wire_value self.new env w ≡ xor (wire_value self.old env a) (wire_value self.old env b)) }
    {
        let both = self.and(a, b)?;
        let any = self.or(a, b)?;
        let not_both = self.not(both);
        self.and(any, not_both)
    }

    /// True where exactly one of the two is. Two wires and their negations share three gates.
    pub fn xor(&mut self, a: Wire, b: Wire) -> Result<Wire, AllocError>
        requires a { IsWire self.old a }
        requires b { IsWire self.old b }
        ensures extends { Extends self.old self.new }
        ensures wire { IfOk result (λ w. IsWire self.new w) }
        ensures value { IfOk result (λ w. (env : ℕ → Bool) →
            wire_value self.new env w ≡ xor (wire_value self.old env a) (wire_value self.old env b)) }
    {
        let (a_negated, b_negated) = (is_negated(a), is_negated(b));
        let plain_a = self.signed(a, a_negated);
        let plain_b = self.signed(b, b_negated);
        let differ = self.differ(plain_a, plain_b)?;
        Ok(self.signed(differ, a_negated != b_negated))
    }

    // The value of `yes` where `test` is true, and of `no` where it is false, by three gates that
    // are shared with those of the negation.
    fn chosen(&mut self, test: Wire, yes: Wire, no: Wire) -> Result<Wire, AllocError>
        requires test { IsWire self.old test }
        requires yes { IsWire self.old yes }
        requires no { IsWire self.old no }
        ensures extends { Extends self.old self.new }
        ensures wire { IfOk result (λ w. IsWire self.new w) }
        ensures value { IfOk result (λ w. (env : ℕ → Bool) →
            wire_value self.new env w ≡ (if (wire_value self.old env test) then (wire_value self.old env yes) else (wire_value self.old env no))) }
    {
        let negated = is_negated(yes);
        let plain_yes = self.signed(yes, negated);
        let plain_no = self.signed(no, negated);
        let taken = self.and(test, plain_yes)?;
        let not_test = self.not(test);
        let other = self.and(not_test, plain_no)?;
        let either = self.or(taken, other)?;
        Ok(self.signed(either, negated))
    }

    // The same, where one of the three wires tells another.
    fn plain_mux(&mut self, test: Wire, yes: Wire, no: Wire) -> Result<Wire, AllocError>
        requires test { IsWire self.old test }
        requires yes { IsWire self.old yes }
        requires no { IsWire self.old no }
        ensures extends { Extends self.old self.new }
        ensures wire { IfOk result (λ w. IsWire self.new w) }
        ensures value { IfOk result (λ w. (env : ℕ → Bool) →
            wire_value self.new env w ≡ (if (wire_value self.old env test) then (wire_value self.old env yes) else (wire_value self.old env no))) }
    {
        let not_test = self.not(test);
        if yes.0 == no.0 {
            return Ok(yes);
        }
        if yes.0 == (no.0 ^ 1) {
            return self.xor(not_test, yes);
        }
        if is_implied(test, yes) {
            return self.or(test, no);
        }
        if is_implied(test, self.not(yes)) {
            return self.and(not_test, no);
        }
        if is_implied(not_test, no) {
            return self.or(not_test, yes);
        }
        if is_implied(not_test, self.not(no)) {
            return self.and(test, yes);
        }
        self.chosen(test, yes, no)
    }

    /// The value of `yes` where `test` is true, and of `no` where it is false.
    pub fn mux(&mut self, test: Wire, yes: Wire, no: Wire) -> Result<Wire, AllocError>
        requires test { IsWire self.old test }
        requires yes { IsWire self.old yes }
        requires no { IsWire self.old no }
        ensures extends { Extends self.old self.new }
        ensures wire { IfOk result (λ w. IsWire self.new w) }
        ensures value { IfOk result (λ w. (env : ℕ → Bool) →
            wire_value self.new env w ≡ (if (wire_value self.old env test) then (wire_value self.old env yes) else (wire_value self.old env no))) }
    {
        if is_negated(test) {
            let not_test = self.not(test);
            return self.plain_mux(not_test, no, yes);
        }
        self.plain_mux(test, yes, no)
    }
}
