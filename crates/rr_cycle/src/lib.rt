//! What the cycles of a flat design mean: statements, settled environments, clock edges and runs
//! (IEEE 1364-2005 sections 6.1, 9 and 11), and the laws of these words: one settled environment, one
//! next state, one run. It stands on `rr_flat`'s designs and `rr_expr`'s values. No code of it runs:
//! what it says is for the evaluator and for the circuit of a cycle, which stand above it.
#![tactic(auto)]

mod laws;

pub use laws::{inputs_are_free, one_next_state, one_run, one_settled_environment, statement_laws};
