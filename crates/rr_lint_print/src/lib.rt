//! The text in which two faults of the combinational blocks of a source are mended, and that its tree is
//! the mended source. It stands on `rr_lex`'s law of patches and on `rr_lint_laws`, and runs nothing.
#![tactic(auto)]

mod laws;

pub use laws::{print_laws, spelling_laws};
