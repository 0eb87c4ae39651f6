//! Clauses under a partial assignment of decisions and of literals that the clauses force: unit
//! propagation with two watched literals for each clause (Moskewicz et al., "Chaff", DAC 2001). It is
//! right where it is quiet exactly where no clause is false or unit. It stands on `rr_watch_lists`,
//! `rr_trail` and `rr_cnf`.
#![tactic(auto)]

mod propagator;
mod watch;

pub use watch::{Propagated, Watch};
