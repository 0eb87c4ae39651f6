//! The registers of a flat design: the bits that its clocked blocks write, in the order of the signals
//! and of their places, and what they begin with. It is right where the list has each bit that a clocked
//! block writes, and no other, and the starting values are those of the bits. It stands on `rr_writers` and on `rr_cycle`'s definitions.
#![tactic(auto)]

mod registers;

pub use registers::{register_bits, start_bits};
