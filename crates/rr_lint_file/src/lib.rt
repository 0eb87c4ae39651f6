//! The file in which two faults of the combinational blocks of its design are mended, or the first refusal.
//! It is right where the file is that of `rr_lint`'s edits, made in the file itself, and where the tree of
//! its expansion is the mended source. It stands on `rr_run` for the design and on `rr_map` for the edits.
#![tactic(auto)]

mod laws;
mod mend;
mod read;

pub use laws::{mended_are_clean, one_mended};
pub use mend::mend_file;
