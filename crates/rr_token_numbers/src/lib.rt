//! The law that elaboration sees nothing of the numbers of tokens: sources that are equal without
//! them have flat designs that are equal without them, or none. It stands on `rr_flatten`'s definitions.
#![tactic(auto)]

mod laws;

pub use laws::{numbers_stay_apart, unfolding_sees_no_numbers};
