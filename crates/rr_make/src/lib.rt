//! The made input of a seed, repaired: the summary and the files, or why there are none. It is right
//! where the summary tells the least number of changes with which the made design matches its table,
//! and the files are those of its repair. It stands on `rr_made_input` for the texts and on `rr_repair`.
#![tactic(auto)]

mod laws;
mod making;

pub use laws::summary_laws;
pub use making::make;
