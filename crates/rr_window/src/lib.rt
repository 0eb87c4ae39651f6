//! Proposals for a search: changes that mend a few rows of a table, found by small questions over a
//! window of rows around the first miss, or over a whole table that is not large. Each is a choice among
//! the sites; nothing else is promised of them, and whoever takes one tests it over the whole table. It
//! stands on `rr_unroll`, which asks over a table, and on the free search of `rr_free`.
#![tactic(auto)]

mod asking;
mod beginning;
mod proposing;

pub use proposing::{proposals, propose};
