//! The circuit of one cycle.

use rr_circuit::Circuit;
use std::marker::Model;

/// The circuit of one cycle of a design, for every choice among the changes of its sites. Its inputs
/// are the bits of a choice, of a state and of a row of inputs; its outputs are the bits of the next
/// state and of the design's outputs. `switches` are the places of the switches among the bits of a
/// choice. A run starts in the state `start`. The widths are those of the inputs but the clock, and of
/// the outputs, in port order.
#[derive(Drop)]
pub struct Transition {
    pub circuit: Circuit,
    pub choice_bits: u32,
    pub state_bits: u32,
    pub input_bits: u32,
    pub start: Vec<bool>,
    pub switches: Vec<u32>,
    pub input_widths: Vec<u32>,
    pub output_widths: Vec<u32>,
}

impl Model for Transition {
    ghost use Rattle.rr_transition.specs.Transitions.{Transition, IsTransition};

    ghost Value = { Transition };

    ghost view = { λ t. record {
      circuit = t.circuit;
      choice_bits = t.choice_bits;
      state_bits = t.state_bits;
      input_bits = t.input_bits;
      start = t.start.items;
      switches = t.switches.items;
      input_widths = t.input_widths.items;
      output_widths = t.output_widths.items;
    } };

    ghost invariant = { λ t. IsTransition (record {
      circuit = t.circuit;
      choice_bits = t.choice_bits;
      state_bits = t.state_bits;
      input_bits = t.input_bits;
      start = t.start.items;
      switches = t.switches.items;
      input_widths = t.input_widths.items;
      output_widths = t.output_widths.items;
    }) };
}
