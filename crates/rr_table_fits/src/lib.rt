//! That a table which was read for the ports of a design's top is one for its outputs, and for those of
//! a transition that stands for it: laws over the definitions of `rr_trace`, `rr_vcd` and `rr_unroll`. It
//! has no code.
#![tactic(auto)]

mod laws;

pub use laws::table_laws;
