//! The sites of a source as a list: those of the modules that have instances, in the order of the
//! text. They are right where they are those of the definition on plain trees, which takes the spots
//! of each item in order, and at each spot overwrites, guards and literals. It stands on `rr_change_places` and
//! on the crates of the three kinds.
#![tactic(auto)]

mod listing;

pub use listing::listed;
