//! The law that unfolding of loops and instances commute: a site in the body of a loop is one site of all its turns. It stands on
//! `rr_unfold`'s definitions and on `rr_instance`'s. There is no code here that runs.
#![tactic(auto)]

mod laws;

pub use laws::{rules_of_instances, unfolded_instances};
