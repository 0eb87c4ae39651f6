//! The overwrite sites of a module: the bodies of its `always`, each with the variables that a last
//! assignment may write. They are right where they are those of the definitions on plain trees, in the
//! order of the text. It stands on `rr_change_places`' bodies, `rr_text_names`' lists of targets and `rr_guard`'s
//! names.
#![tactic(auto)]

mod overwrites;
mod ranges;
mod targets;
mod variables;
mod wrapping;

pub use overwrites::{add_overwrites, sites};
pub use variables::{Variables, variables_of};
pub use wrapping::wrapped;
