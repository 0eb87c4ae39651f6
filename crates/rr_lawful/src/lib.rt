//! The laws that a flat design keeps so that each cycle has one meaning, and the order of its steps
//! (IEEE 1364-2005 sections 6.1, 9, 11 and 12). It is right where an order comes exactly for lawful
//! designs, and else the first law that is broken, at its first place. It stands on a crate for each
//! law: `rr_clock`, `rr_assign`, `rr_writers`, `rr_latch`, `rr_order`.
#![tactic(auto)]

mod clocks;
mod laws;
mod once;

pub use clocks::places;
pub use laws::{LawFault, check, check_texts};
pub use once::one_fault;
pub use rr_flat::Bit;
