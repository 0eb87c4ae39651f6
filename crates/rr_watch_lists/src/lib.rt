//! What propagation with two watched literals keeps of its clauses (Moskewicz et al., "Chaff", DAC
//! 2001): the clauses at hand, each with the places of the literals that it watches, and for each
//! literal the list of the clauses that watch it. It is right where a clause is answered as it came in,
//! and where a change of a list leaves the others as they were. It stands on `rr_cnf`.
#![tactic(auto)]

mod hand;
mod watchers;

pub use hand::{Hand, Source, Watched};
pub use watchers::{WatchLists, Watcher};
