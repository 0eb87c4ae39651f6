//! The bits that write a choice, for circuits whose inputs are choices. It is right where reading the
//! bits of a choice gives the choice back, and the bits of no change are read to a choice of cost 0.
//! It stands on `rr_choice`, which reads them, and on the words of `rr_bits`.
#![tactic(auto)]

mod writing;

pub use writing::{encode, no_switch_is_on};
