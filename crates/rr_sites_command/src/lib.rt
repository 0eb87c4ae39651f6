//! The sites of a text at which a repair may change it, as a list and as lines, or the first refusal.
//! They are right where the list is that of the one lawful design of the text, and the lines tell it.
//! It stands on `rr_run` for the design, on `rr_sites_ordered` for the list, and on `rr_sites_fit` for what
//! holds of it.
#![tactic(auto)]

mod laws;
mod lines;
mod list;

pub use laws::one_outcome;
pub use list::{design_sites, file_sites, list_sites};
