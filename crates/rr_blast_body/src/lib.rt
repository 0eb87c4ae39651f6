//! Bodies of `always` on wires, with the last assignments that a choice adds to them (IEEE 1364-2005
//! sections 9.2 and 9.9). It is right where, for every input, the wires carry afterwards what the
//! instance of the body makes of what they carried, as `rr_blast_stmt` says of statements. It stands on
//! `rr_blast_stmt` and on `rr_blast_sites`' names.
#![tactic(auto)]

mod bodies;
mod gates;
mod lasts;
mod laws;

pub use bodies::execute_body;
pub use laws::bodies_by_sites;
