//! Of several choices that mend some rows of a table a plain one: kinds of changes are ruled out, those that are
//! furthest from the source first, values go back to those that the source has, bit by bit, and names to those
//! that stand nearest. Each is a choice among the sites; which of them it is, no contract says, since whoever
//! takes one tests it over the whole table. It stands on the free search of `rr_free`, and on `rr_unroll`, which
//! runs a design under a choice.
#![tactic(auto)]

mod asking;
mod bringing;
mod kinds;
mod source;

pub use asking::{chosen, plainer};
pub use bringing::nearer;
pub use kinds::rank;
pub use source::{Near, distance};
