//! The edits of the text of a source that mend two faults of its combinational blocks. They are right where
//! they are those of `rr_lint_print`, for the variables of which the blocks keep a bit. It stands on
//! `rr_lint_names` for these.
#![tactic(auto)]

mod changes;
mod editing;
mod lengths;
mod walk;

pub use editing::edits;
