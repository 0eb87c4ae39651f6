//! One member of a search in rounds: its solver, its events of a round behind a gate, and the short
//! clauses that it hands over to the others and takes from them. It is right where each event is one
//! that the rounds allow, and where each other member takes each short clause of a round under an id
//! that is new to it. It stands on `rr_solver` and `rr_rounds`.
#![tactic(auto)]

mod gate;
mod seat;
mod sharing;

pub use gate::{Gate, OpenGate};
pub use seat::{MOST_ID, Seat, work};
pub use sharing::hand_over;
