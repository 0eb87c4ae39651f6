//! Statements on wires (IEEE 1364-2005 sections 9.2, 9.4, 9.5 and 9.8). It is right where, for every
//! input, the wires of the signals carry afterwards what `rr_cycle`'s `Exec` says that the instance of
//! the statement makes of the environment that they carried, and a second list of wires what its updates
//! make of theirs. It stands on `rr_blast_terms`.
#![tactic(auto)]

mod statements;

pub use statements::{Machine, execute, store};
