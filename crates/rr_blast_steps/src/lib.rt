//! The steps of an order and the clock edge of a flat design on wires, for every choice among the
//! changes of its sites (IEEE 1364-2005 sections 6.1, 9.2, 9.9 and 11). It is right where, for every
//! input, the wires of the signals carry afterwards what `rr_cycle`'s `Performing` says of the instance of
//! the flat design. It stands on `rr_blast_body`'s bodies and `rr_signal_wires`'s words.
#![tactic(auto)]

mod clocking;
mod performing;
mod steps;
mod wiring;

pub use clocking::edge;
pub use performing::{perform, perform_all};
