//! The list of sites that is told of a text has exactly the places of the text at which a repair may
//! change it. It stands on `rr_sites_command` for the list and on `rr_sites_complete` for the places, and has no code.
#![tactic(auto)]

mod laws;

pub use laws::lists_are_exact;
