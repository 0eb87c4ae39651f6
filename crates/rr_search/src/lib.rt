//! The least repair: a search over bounds on the number of changes, each asked as a circuit. It is right
//! where every answer says what holds of each design that the transition stands for: that it matches as
//! it is; a repair of least cost, with a refutation of fewer changes; that no choice repairs it, with a
//! refutation; or that the members have spent their lines on an open question, with the repair that the
//! question was to undercut, where there is one. It stands on `rr_unroll`, which asks, `rr_tseitin`, which
//! makes formulas, and `rr_members`, which answers them.
#![tactic(auto)]

mod answer;
mod asking;
mod judging;
mod search;

pub use answer::{Answer, Job};
pub use search::least;
