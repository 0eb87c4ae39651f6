//! The grammar of items, modules and source texts (IEEE 1364-2005 annex A), and its laws: no words
//! are spelled by two well-formed texts. It stands on the readers of expressions and statements. No
//! code of it runs: what it says is for the reader of modules, which stands above it.
#![tactic(auto)]

mod laws;

pub use laws::{grammar_is_exact, one_source, one_tree};
