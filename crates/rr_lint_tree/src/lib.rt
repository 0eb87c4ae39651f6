//! The tree of a source in which two faults of its combinational blocks are mended. It is right where it is
//! that of `rr_lint_laws`, for the variables of which the blocks keep a bit. It stands on `rr_lint_names`
//! for these.
#![tactic(auto)]

mod mending;
mod statement;

pub use mending::lint;
