//! The wires of names.
ghost use Rattle.std.specs.Prelude.{◌≡◌, ℕ, Bool, [], IsTrue, IfOk, length, slice_index_or};
ghost use Rattle.rr_circuit.specs.Values.{Netlist, AreWires, wire_values};
ghost use Rattle.rr_expr.specs.Faults.{is_width};
ghost use Rattle.rr_expr.specs.Scopes.{entity_shape as shape_of_entity, entity_value, env_of_lists};
ghost use Rattle.rr_word_gates.specs.Carried.{Carries};
ghost use Rattle.rr_blast_sites.specs.Signals.{AreSignals, signal_values};

use rr_circuit::{Builder, Wire};
use rr_expr::{Entity, entity_shape};
use rr_word_gates::{constants, extended};
use std::alloc::{AllocError, Global};

/// The wires of a signal, none where there is no such signal.
pub fn signal_wires<'a>(signals: &'a [Vec<Wire>], id: usize) -> &'a [Wire]
    ensures value { (n : Netlist) (input : ℕ → Bool) → wire_values n input result.now ≡ slice_index_or (signal_values n input signals.now) id [] }
    ensures wires { (n : Netlist) → AreSignals n signals.now → AreWires n result.now }
{
    match signals.get(id) {
        Some(wires) => wires.as_slice(),
        None => &[],
    }
}

/// The value of what a name stands for.
pub fn name_word(
    alloc: Global,
    b: &Builder,
    entity: &Entity,
    signals: &[Vec<Wire>],
) -> Result<Vec<Wire>, AllocError>
    requires name { IsTrue (is_width (shape_of_entity entity.now).width) }
    requires signals { AreSignals b.now signals.now }
    ensures width { IfOk result (λ r. length r.items ≡ (shape_of_entity entity.now).width) }
    ensures value { IfOk result (λ r. Carries b.now r.items (λ input. entity_value (env_of_lists (signal_values b.now input signals.now)) entity.now)) }
{
    match entity {
        Entity::Constant { bits, .. } => {
            let out = constants(alloc, b, *bits)?;
            Ok(out)
        }
        Entity::Signal { id, .. } => {
            let width = entity_shape(entity).width;
            let wires = signal_wires(signals, *id as usize);
            let out = extended(alloc, b, wires, width, false)?;
            Ok(out)
        }
        // Of itself a memory is never read.
        Entity::Memory { .. } => {
            let width = entity_shape(entity).width;
            let out = extended(alloc, b, &[], width, false)?;
            Ok(out)
        }
        Entity::Instance => Ok(Vec::new(alloc)),
    }
}
