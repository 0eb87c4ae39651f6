//! The laws that the meaning of a flat design sees nothing of the numbers of tokens: designs that are
//! equal without them keep the same laws, and have the same orders and runs. They stand on
//! `rr_token_numbers`'s words and on `rr_cycle`'s.
#![tactic(auto)]

mod laws;

pub use laws::{same_laws, same_runs};
