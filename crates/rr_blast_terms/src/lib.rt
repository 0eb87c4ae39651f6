//! What statements stand on, on wires: right sides and conditions of the instance that a choice makes,
//! labels of `case`, and the bits that targets name (IEEE 1364-2005 sections 5.2.1, 9.4 and 9.5). It is
//! right where, for every input, the wires carry what `rr_cycle`'s `Exec` says of the instance in the
//! environment that the wires of the signals carry. It stands on `rr_blast_expr`'s expressions and
//! `rr_signal_wires`'s words and guarded pieces.
#![tactic(auto)]

mod cases;
mod choice;
mod expression;
mod targets;

pub use cases::{Selector, is_matched};
pub use choice::ChoiceWires;
pub use expression::{test, wires};
pub use targets::guarded_pieces_of;
