//! The flat design of a source text, or the first fault of its bytes, words, tree or elaboration
//! (IEEE 1364-2005 sections 3, 12 and annex A). It is right where the design is that of the one tree
//! which the one list of tokens of the bytes spells. It stands on `rr_lex`, `rr_parse` and `rr_flat`.
#![tactic(auto)]

mod design;
mod laws;

pub use design::{Design, DesignFault, elaborate, start_of};
pub use laws::one_design;
pub use rr_flat::{Flat, FlatFault, Limit};
pub use rr_lex::Wrong;
