//! The sites of expressions as gates: literals and conditions whose instance a choice on wires writes,
//! and the words of names. It is right where for every input the wires carry what `rr_instance` makes of
//! the literal or the condition by the choice that the wires of the choice write. It stands on
//! `rr_word_gates`' operations on words, `rr_circuit`'s builder and `rr_choice`'s sites. After an
//! error, which is want of memory or of numbers for gates, the wires that were there keep their values.
#![tactic(auto)]

mod extents;
mod finding;
mod guards;
mod inputs;
mod names;
mod sites;

pub use guards::{chosen_if, chosen_name, guard_wire, name_wire};
pub use inputs::Inputs;
pub use names::{name_word, signal_wires};
pub use sites::{literal_changes, literal_word, test_wire};
