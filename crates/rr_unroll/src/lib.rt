//! The question whether some choice makes a design run as a table expects: the circuit of a cycle
//! copied row after row; and the same of one choice, by evaluation. It is right where, for every
//! choice, its outputs say of each known expected bit whether the run of the choice's instance has it,
//! and whether the cost is at most a bound. It stands on `rr_circuit`'s builder and on `rr_transition`'s
//! cycles.
#![tactic(auto)]

mod asking;
mod copies;
mod judging;
mod laws;
mod rows;
mod walking;
mod wires;
mod words;

pub use asking::question;
pub use copies::fixed;
pub use judging::{first_miss, judges};
pub use laws::verdict_laws;
pub use walking::state_before;
