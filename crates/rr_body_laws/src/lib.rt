//! The law that elaboration commutes with a change of the bodies of combinational blocks. It stands on
//! `rr_flatten`'s definition of the flat design of a source, and runs nothing.
#![tactic(auto)]

mod laws;

pub use laws::bodies_elaborate;
