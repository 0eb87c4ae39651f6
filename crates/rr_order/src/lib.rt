//! The order of the steps of a flat design, or a combinational loop (IEEE 1364-2005 sections 6.1 and
//! 9). It is right where each bit is written before a step reads it, or the bits of the answer name
//! each other in a ring. It stands on `rr_sort`'s graphs and `rr_named_bits`'s pieces.
#![tactic(auto)]

ghost use Rattle.std.specs.Prelude.{List};
ghost use Rattle.rr_expr.specs.declared.types.Bit.{Bit};
ghost use Rattle.rr_flat.specs.declared.design.Step as design;
ghost use Rattle.rr_flat.specs.Lawful.{HasRanks};
ghost use Rattle.rr_flat.specs.Plain.{Flat as PlainFlat};
ghost use Rattle.rr_order.specs.Loops.{AreOrdered, BitChain};

mod graph;
mod layout;
mod nodes;
mod order;
mod reading;
mod rows;
mod sides;
mod steps;
mod wiring;

pub use order::{Loop, Ordering, order_steps};

/// Where the steps have an order, the bits have ranks; where bits name each other in a ring, they
/// have none.
pub fn order_laws()
    ensures order { (flat : PlainFlat) (steps : List design.Step) → AreOrdered flat steps → HasRanks flat }
    ensures ring { (flat : PlainFlat) (bit : Bit) (bits : List Bit) → BitChain flat bit bits bit → HasRanks flat → ⊥ }
{}
