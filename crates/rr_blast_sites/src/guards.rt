//! Conditions under a guard that the bits of a choice write.
ghost use Rattle.std.specs.Prelude.{◌≡◌, ◌+◌, ◌<◌, ◌≤◌, ◌==◌, ℕ, min, not, if◌then◌else◌, [], IfOk, length, slice_index_or, drop};
ghost use Rattle.rr_bits.specs.Words.{number};
ghost use Rattle.rr_circuit.specs.Values.{IsWire, AreWires, wire_value, wire_values, Extends};
ghost use Rattle.rr_syntax.specs.View.{texts};
ghost use Rattle.rr_expr.specs.Scopes.{range_width as width_of_range};
ghost use Rattle.rr_choice.specs.Choices.{name_width as name_width_of};
ghost use Rattle.rr_instance_laws.specs.Truth.{guard_truth, name_truth};
ghost use Rattle.rr_word_gates.specs.Carried.{CarriesBit};
ghost use Rattle.rr_blast_sites.specs.Finding.{changed, guarded_by, name_place};
ghost use Rattle.rr_blast_sites.specs.Instances.{World, Reads, place_of, env_in, HasWires};

use crate::inputs::Inputs;
use crate::names::signal_wires;
use rr_bits::Bits;
use rr_circuit::{Builder, Wire};
use rr_expr::Entity;
use rr_word_gates::{Connective, matches, of_all};
use std::alloc::{AllocError, Global};

/// Whether wires write a number; there are 1 to 128 of them.
fn is_number(b: &mut Builder, xs: &[Wire], n: u64) -> Result<Wire, AllocError>
    requires x { AreWires b.old xs.now }
    requires low { 1 ≤ length xs.now }
    requires high { length xs.now ≤ 128 }
    ensures extends { Extends b.old b.new }
    ensures value { IfOk result (λ w. CarriesBit b.new w (λ input. number (wire_values b.old input xs.now) == n)) }
{
    let bits = Bits::from_u128(xs.len() as u32, n as u128);
    if bits.to_u128() != n as u128 {
        return Ok(b.constant(false));
    }
    let out = matches(b, xs, bits)?;
    Ok(out)
}

/// The number of bits of a range or a scalar.
fn range_width(range: Option<(u32, u32)>) -> usize
    ensures { result ≡ width_of_range range }
{
    match range {
        None => 1,
        Some((left, right)) => {
            if left < right {
                (right - left) as usize + 1
            } else {
                (left - right) as usize + 1
            }
        }
    }
}

/// Whether a name is true.
pub fn name_wire(b: &mut Builder, name: &str, inputs: &Inputs) -> Result<Wire, AllocError>
    requires { HasWires b.old inputs.now }
    ensures extends { Extends b.old b.new }
    ensures wire { IfOk result (λ w. IsWire b.new w) }
    ensures value { IfOk result (λ w. (W : World) → Reads b.old inputs.now W → CarriesBit b.new w (λ input. name_truth inputs.now.scope.now (env_in (place_of inputs.now W) input) name.now)) }
{
    match inputs.scope.meaning(name) {
        Entity::Constant { bits, .. } => Ok(b.constant(bits.to_u128() != 0)),
        Entity::Signal { id, range, .. } => {
            let wires = signal_wires(inputs.signals, id as usize);
            let count = range_width(range).min(wires.len());
            let out = of_all(b, Connective::Or, &wires[..count])?;
            Ok(out)
        }
        Entity::Memory { .. } => Ok(b.constant(false)),
        Entity::Instance => Ok(b.constant(false)),
    }
}

/// The first wire where other wires write a number, else the second.
pub fn chosen_if(
    b: &mut Builder,
    bits: &[Wire],
    n: u64,
    yes: Wire,
    no: Wire,
) -> Result<Wire, AllocError>
    requires bits { AreWires b.old bits.now }
    requires low { 1 ≤ length bits.now }
    requires high { length bits.now ≤ 128 }
    requires yes { IsWire b.old yes }
    requires no { IsWire b.old no }
    ensures extends { Extends b.old b.new }
    ensures value { IfOk result (λ w. CarriesBit b.new w (λ input. (if (number (wire_values b.old input bits.now) == n) then (wire_value b.old input yes) else (wire_value b.old input no)))) }
{
    let here = is_number(b, bits, n)?;
    let out = b.mux(here, yes, no)?;
    Ok(out)
}

/// A condition with a name in the form that three wires write; a form past the last counts as the
/// last.
fn form_wire(b: &mut Builder, form: &[Wire], e: Wire, s: Wire) -> Result<Wire, AllocError>
    requires form { AreWires b.old form.now }
    requires three { length form.now ≡ 3 }
    requires e { IsWire b.old e }
    requires s { IsWire b.old s }
    ensures extends { Extends b.old b.new }
    ensures value { IfOk result (λ w. CarriesBit b.new w (λ input. guard_truth (min (number (wire_values b.old input form.now)) 4) (wire_value b.old input e) (wire_value b.old input s))) }
{
    let not_s = b.not(s);
    let last = b.or(e, not_s)?;
    let or = b.or(e, s)?;
    let and_not = b.and(e, not_s)?;
    let and = b.and(e, s)?;
    let not_e = b.not(e);
    let from_3 = chosen_if(b, form, 3, or, last)?;
    let from_2 = chosen_if(b, form, 2, and_not, from_3)?;
    let from_1 = chosen_if(b, form, 1, and, from_2)?;
    let from_0 = chosen_if(b, form, 0, not_e, from_1)?;
    Ok(from_0)
}

/// Whether the name is true that wires write; a number past the last counts as the last.
pub fn chosen_name(
    b: &mut Builder,
    names: &[&str],
    bits: &[Wire],
    inputs: &Inputs,
) -> Result<Wire, AllocError>
    requires wires { HasWires b.old inputs.now }
    requires bits { AreWires b.old bits.now }
    requires some { 1 ≤ length names.now }
    requires room { length bits.now ≡ name_width_of (length names.now) }
    ensures extends { Extends b.old b.new }
    ensures wire { IfOk result (λ w. IsWire b.new w) }
    ensures value { IfOk result (λ w. (W : World) → Reads b.old inputs.now W → CarriesBit b.new w (λ input. name_truth inputs.now.scope.now (env_in (place_of inputs.now W) input) (slice_index_or (texts names.now) (name_place (length names.now) (wire_values b.old input bits.now)) []))) }
{
    let last = names.len() - 1;
    let mut name = name_wire(b, names[last], inputs)?;
    for i in 0..last {
        let other = name_wire(b, names[i], inputs)?;
        name = chosen_if(b, bits, i as u64, other, name)?;
    }
    Ok(name)
}

/// A condition in the form and with the name that the bits of its site write; `places` of them write
/// the name.
fn changed_wire(
    b: &mut Builder,
    names: &[&str],
    places: usize,
    bits: &[Wire],
    e: Wire,
    inputs: &Inputs,
) -> Result<Wire, AllocError>
    requires wires { HasWires b.old inputs.now }
    requires places { places ≡ name_width_of (length names.now) }
    requires bits { AreWires b.old bits.now }
    requires room { (if length names.now == 0 then 0 else (3 + name_width_of (length names.now))) ≤ length bits.now }
    requires e { IsWire b.old e }
    ensures extends { Extends b.old b.new }
    ensures wire { IfOk result (λ w. IsWire b.new w) }
    ensures value { IfOk result (λ w. (W : World) → Reads b.old inputs.now W → CarriesBit b.new w (λ input. changed (texts names.now) (wire_values b.old input bits.now) (wire_value b.old input e) (name_truth inputs.now.scope.now (env_in (place_of inputs.now W) input)))) }
{
    if names.len() == 0 {
        return Ok(b.not(e));
    }
    let form = &bits[..3];
    let place = &bits[3..][..places];
    let s = chosen_name(b, names, place, inputs)?;
    let out = form_wire(b, form, e, s)?;
    Ok(out)
}

/// A condition, changed where the switch of its site is on; `places` of the site's bits write the name
/// of its guard.
pub fn guard_wire(
    b: &mut Builder,
    names: &[&str],
    places: usize,
    bits: &[Wire],
    e: Wire,
    inputs: &Inputs,
) -> Result<Wire, AllocError>
    requires wires { HasWires b.old inputs.now }
    requires places { places ≡ name_width_of (length names.now) }
    requires bits { AreWires b.old bits.now }
    requires room { 1 + (if length names.now == 0 then 0 else (3 + name_width_of (length names.now))) ≤ length bits.now }
    requires e { IsWire b.old e }
    ensures extends { Extends b.old b.new }
    ensures wire { IfOk result (λ w. IsWire b.new w) }
    ensures value { IfOk result (λ w. (W : World) → Reads b.old inputs.now W → CarriesBit b.new w (λ input. guarded_by (texts names.now) (wire_values b.old input bits.now) (wire_value b.old input e) (name_truth inputs.now.scope.now (env_in (place_of inputs.now W) input)))) }
{
    let changed = changed_wire(b, names, places, &bits[1..], e, inputs)?;
    let out = b.mux(bits[0], changed, e)?;
    Ok(out)
}
