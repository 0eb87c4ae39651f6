//! The exact lexer of the Verilog profile, the texts of literals, and the law of patches (IEEE
//! 1364-2005 section 3 and annex B). It is right where the tokens are the one list of the definition
//! on whole spans, or the fault the first in the order of the text. It stands on `rr_syntax`'s
//! tokens.
#![tactic(auto)]

mod bytes;
mod laws;
mod lexer;
mod literal;
mod number;
mod piece;
mod words;

pub use laws::{
    decimal_is_new, keyword_is_new, literal_is_new, mark_is_new, name_is_new, one_first_fault,
    one_token_list, patched_text_reads, tokens_or_fault, words_are_sound, words_of_tokens,
};
pub use lexer::{TextFault, lex};
pub use literal::number_text;
pub use number::read_number;
pub use piece::Wrong;
pub use words::is_plain_name;
