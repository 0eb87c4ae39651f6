//! The law that elaboration and instances commute: where the sites of a source fit its flat design,
//! the flat design of an instance of the source is the instance of its flat design. It stands on
//! `rr_instance`'s definitions and on `rr_flatten`'s, and on the laws of loops of `rr_unfold_instance` and of
//! token numbers of `rr_token_numbers`.
#![tactic(auto)]

mod laws;

pub use laws::{counting_agrees, first_tokens, instances_flatten, listed_sites_fit};
