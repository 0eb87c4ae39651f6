//! Reads source texts of the Verilog profile from tokens (IEEE 1364-2005 annex A). It is right where
//! the tree is the one that spells the tokens, or where none does. It stands on the readers of
//! expressions and statements, and its proof on `rr_grammar`.
#![tactic(auto)]

mod connections;
mod declarations;
mod events;
mod expressions;
mod initial;
mod items;
mod laws;
mod lists;
mod modules;
mod ports;
mod source;
mod tokens;

pub use laws::words_have_rules;
pub use source::parse;
