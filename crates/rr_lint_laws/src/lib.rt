//! What a source is in which two faults of combinational blocks are mended, and that it has neither
//! afterwards. It stands on `rr_latch`'s definition of kept bits and on `rr_body_laws` for elaboration, and
//! runs nothing.
#![tactic(auto)]

mod laws;

pub use laws::{lint_laws, lint_stays_formed};
