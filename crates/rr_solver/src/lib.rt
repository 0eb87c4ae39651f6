//! Conflict-driven search: decisions on inputs alone, clauses learned at the last decision, and a
//! proof line for each. It is right where each line passes the hint check of `rr_derive` and is
//! fresh, and an answer is values that satisfy the formula or lines that refute it. It stands on
//! `rr_watch`'s propagation.
#![tactic(auto)]

mod engine;
mod outcome;
mod restarts;
mod solver;

pub use engine::{Status, Stepped, bits_of, open_input, release};
pub use outcome::{Outcome, solve};
pub use restarts::Restarts;
pub use solver::Solver;
