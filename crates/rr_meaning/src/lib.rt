//! The evaluator: settled environments, clock edges and runs of a lawful flat design (IEEE 1364-2005
//! sections 6.1, 9 and 11). It is right where its answers are the one settled environment, next state
//! and run of `rr_cycle`. It stands on `rr_exec`'s statements; the order of the steps is given to it.
#![tactic(auto)]

mod cycle;
mod laws;
mod registers;
mod starts;
mod steps;

pub use cycle::{run_table, settle, step};
pub use laws::table_rows;
pub use registers::register_masks;
pub use starts::starts_inside;
