//! Edits of a text, whether they can be made in the file that the text is the expansion of, and what the
//! file becomes with them. It stands on `rr_directive` for the origins of bytes.
#![tactic(auto)]

mod edit;
mod lifting;

pub use edit::Edit;
pub use lifting::lifts;
