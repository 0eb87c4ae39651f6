//! The made input: from a seed the texts of a faulty design and of its table, for tests and measurements
//! that everyone can repeat. It is right where both texts are those of the seed, byte for byte, and the
//! expected cells are the run of the design as it should be. It stands on `rr_decimal` for numbers.
#![tactic(auto)]

mod design;
mod draws;
mod making;
mod table;

pub use making::{Input, made};
