//! What a search learns from a false clause, and which input it decides next. It is right where the
//! learned clause passes the hint check of `rr_derive`, each of its literals stands in a hinted clause
//! and is the negation of a decision or of a literal below the last level, and where the input is open.
//! It stands on `rr_watch`'s clauses and trail.
#![tactic(auto)]

mod analysis;
mod chains;
mod free;
mod order;
mod workspace;

pub use analysis::{Learned, analyze};
pub use chains::Chains;
pub use free::analyze_freely;
pub use order::Order;
pub use workspace::Workspace;
