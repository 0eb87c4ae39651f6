//! Reads statements of the Verilog profile from tokens (IEEE 1364-2005 section 9 and annex A.6). It
//! is right where the tree is the statement of a depth that stands at a token, with each `else` at
//! the nearest `if`. It stands on `rr_parse_expr`.
#![tactic(auto)]

mod expressions;
mod heads;
mod laws;
mod nodes;
mod parts;
mod reader;
mod statement;

pub use laws::one_statement;
pub use statement::stmt;
