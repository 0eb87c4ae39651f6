//! The sites of an expanded text that can be changed in the file that it is the expansion of, and the law
//! that all edits of each choice of them lift. It stands on `rr_edit` for what lifts and on `rr_patch` for
//! the edits of a choice.
#![tactic(auto)]

mod bodies;
mod keeping;
mod laws;
mod lifts;

pub use keeping::kept;
pub use laws::kept_laws;
