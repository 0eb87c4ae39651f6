//! Literals, clauses and formulas in conjunctive normal form, and their DIMACS text (DIMACS
//! challenge, "Satisfiability: Suggested Format", 1993). It is right where a formula is the list of
//! the clauses that were pushed, and its text is exactly that of the list. It stands on `rr_decimal`.
#![tactic(auto)]

mod clause;
mod dimacs;
mod formula;
mod lit;

pub use clause::Clause;
pub use dimacs::{push_literal, same_text_same_formula, write_dimacs};
pub use formula::Formula;
pub use lit::Lit;
