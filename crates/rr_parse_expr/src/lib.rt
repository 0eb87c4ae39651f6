//! Reads expressions of the Verilog profile from tokens (IEEE 1364-2005 section 5.1 and annex A.8).
//! It is right where the tree is the longest well-formed one of a depth that begins at a token. It
//! stands on `rr_syntax`'s trees. The readers above share what stands at a token, and the reader of
//! lists with commas between.
#![tactic(auto)]

mod expression;
mod laws;
mod lists;
mod marks;
mod nodes;
mod reader;
mod tokens;

pub use expression::{
    ParseFault, expr, expr_before, expr_within, operand, operand_within, target_within,
};
pub use laws::one_tree;
pub use lists::{Input, Piece, add, list};
pub use tokens::{is_keyword, is_mark, keyword_at, mark_at, name_at};
