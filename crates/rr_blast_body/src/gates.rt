//! The conditions of last assignments, from the bits that write them.
ghost use Rattle.std.specs.Prelude.{◌≡◌, ◌+◌, ◌≤◌, ◌==◌, min, if◌then◌else◌, IfOk, length};
ghost use Rattle.rr_bits.specs.Words.{number};
ghost use Rattle.rr_circuit.specs.Values.{IsWire, AreWires, wire_value, wire_values, Extends};
ghost use Rattle.rr_syntax.specs.View.{texts};
ghost use Rattle.rr_choice.specs.Choices.{name_width};
ghost use Rattle.rr_instance_laws.specs.Truth.{gate_truth, name_truth};
ghost use Rattle.rr_word_gates.specs.Carried.{CarriesBit};
ghost use Rattle.rr_blast_sites.specs.Instances.{World, Reads, place_of, env_in, HasWires};
ghost use Rattle.rr_blast_body.specs.Lasts.{gated};

use rr_blast_sites::{Inputs, chosen_if, chosen_name};
use rr_circuit::{Builder, Wire};
use std::alloc::AllocError;

/// Whether a last assignment is made in the form that two wires write: always, where a name is true,
/// or where it is not; a form past the last counts as the last.
fn form_gate(b: &mut Builder, form: &[Wire], name: Wire) -> Result<Wire, AllocError>
    requires form { AreWires b.old form.now }
    requires two { length form.now ≡ 2 }
    requires name { IsWire b.old name }
    ensures extends { Extends b.old b.new }
    ensures value { IfOk result (λ w. CarriesBit b.new w (λ input. gate_truth (min (number (wire_values b.old input form.now)) 2) (wire_value b.old input name))) }
{
    let inverse = b.not(name);
    let always = b.constant(true);
    let from_1 = chosen_if(b, form, 1, name, inverse)?;
    let from_0 = chosen_if(b, form, 0, always, from_1)?;
    Ok(from_0)
}

/// Whether a last assignment is made, with the form and the name that the bits after its value write;
/// `places` of them write the name. Without names it is made always.
pub(crate) fn gate_wire(
    b: &mut Builder,
    names: &[&str],
    places: usize,
    bits: &[Wire],
    inputs: &Inputs,
) -> Result<Wire, AllocError>
    requires wires { HasWires b.old inputs.now }
    requires places { places ≡ name_width (length names.now) }
    requires bits { AreWires b.old bits.now }
    requires room { (if length names.now == 0 then 0 else (2 + name_width (length names.now))) ≤ length bits.now }
    ensures extends { Extends b.old b.new }
    ensures wire { IfOk result (λ w. IsWire b.new w) }
    ensures value { IfOk result (λ w. (W : World) → Reads b.old inputs.now W → CarriesBit b.new w (λ input. gated (texts names.now) (wire_values b.old input bits.now) (name_truth inputs.now.scope.now (env_in (place_of inputs.now W) input)))) }
{
    if names.len() == 0 {
        return Ok(b.constant(true));
    }
    let form = &bits[..2];
    let place = &bits[2..][..places];
    let name = chosen_name(b, names, place, inputs)?;
    let out = form_gate(b, form, name)?;
    Ok(out)
}
