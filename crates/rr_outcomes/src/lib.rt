//! What a design and its table come to, apart from any answer: that some changes match, with the least
//! number of them, or that none do. It is decided by their bytes alone, whatever the budget and the members
//! of a search, and each answer of `rr_repair` tells it or leaves it open. Laws; there is no code.
#![tactic(auto)]

mod laws;

pub use laws::{repair_answers, repair_counts, repair_outcomes};
