//! Statements of a flat design, run on an environment (IEEE 1364-2005 section 9). It is right where
//! the environment and what is left for later are those of `rr_cycle`'s `Exec`. It stands on
//! `rr_cycle`'s definitions and `rr_named_bits`'s pieces.
#![tactic(auto)]

mod cases;
mod exec;
mod writes;

pub use cases::{case_shape, own_shape, wild};
pub use exec::{Machine, execute};
pub use writes::{Later, apply, merged, write_pieces};
