//! Members of a search that work in rounds, each in a thread of its own, and hand their short clauses
//! over to one another. It is right where the lines of all members, joined into one journal, derive
//! from the formula whatever the order of their events. It stands on `rr_member` and `rr_rounds`.
#![tactic(auto)]

mod join;
mod members;
mod search;

pub use members::{Members, Round};
pub use rr_member::{Gate, OpenGate};
pub use rr_rounds::Place;
pub use search::solve;
