//! Lists of wires: the bits of a choice, of a state, of a row and of switches.

ghost use Rattle.std.specs.Prelude.{◌≡◌, ℕ, ◌+◌, ◌++◌, ◌<◌, ◌≤◌, Bool, All, IfOk, length, map};
ghost use Rattle.std.specs.List.{range_with_len};
ghost use Rattle.rr_circuit.specs.Values.{AreWires, wire_values};
ghost use Rattle.rr_transition.specs.Transitions.{switched as switched_of};

use rr_circuit::{Builder, Wire};
use std::alloc::{AllocError, Global};

/// The first inputs of a builder.
pub(crate) fn inputs(alloc: Global, b: &Builder, count: u32) -> Result<Vec<Wire>, AllocError>
    requires { count ≤ b.now.inputs }
    ensures wires { IfOk result (λ r. AreWires b.now r.items) }
    ensures value { IfOk result (λ r. (env : ℕ → Bool) → wire_values b.now env r.items ≡ map env (range_with_len 0 count)) }
    ensures width { IfOk result (λ r. length r.items ≡ count) }
{
    let mut out = Vec::new(alloc);
    for k in 0..count {
        out.push(b.input(k))?;
    }
    Ok(out)
}

/// These wires, and behind them constants.
pub(crate) fn followed(
    alloc: Global,
    b: &Builder,
    wires: &[Wire],
    bits: &[bool],
) -> Result<Vec<Wire>, AllocError>
    requires { AreWires b.now wires.now }
    ensures wires { IfOk result (λ r. AreWires b.now r.items) }
    ensures value { IfOk result (λ r. (env : ℕ → Bool) → wire_values b.now env r.items ≡ wire_values b.now env wires.now ++ bits.now) }
    ensures width { IfOk result (λ r. length r.items ≡ length wires.now + length bits.now) }
{
    let mut all = Vec::with_capacity(alloc, wires.len() + bits.len())?;
    all.extend_from_slice(wires)?;
    for bit in bits {
        all.push(b.constant(*bit))?;
    }
    Ok(all)
}

/// The wires at these places of a choice.
pub(crate) fn switched(
    alloc: Global,
    b: &Builder,
    choice: &[Wire],
    places: &[u32],
) -> Result<Vec<Wire>, AllocError>
    requires choice { AreWires b.now choice.now }
    requires inside { All (λ k. k < length choice.now) places.now }
    ensures wires { IfOk result (λ r. AreWires b.now r.items) }
    ensures value { IfOk result (λ r. (env : ℕ → Bool) → wire_values b.now env r.items ≡ switched_of places.now (wire_values b.now env choice.now)) }
{
    let mut out = Vec::with_capacity(alloc, places.len())?;
    for place in places {
        out.push(choice[*place as usize])?;
    }
    Ok(out)
}
