//! The transition of a flat design: the circuit of one cycle, for every choice among the changes of its
//! sites (IEEE 1364-2005 sections 6.1, 9 and 11). It is right where the circuit gives, for every choice,
//! state and row of inputs, the settled outputs and the next state of the choice's instance, by
//! `rr_transition`'s `Cycle`. It stands on `rr_blast_steps` and on the laws of `rr_lawful_instance`.
#![tactic(auto)]

mod beginning;
mod cycle;
mod making;

pub use cycle::row_bits;
pub use making::transition;
