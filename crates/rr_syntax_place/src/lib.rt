//! Where a text leaves the grammar: the first token that no module in progress can take (IEEE
//! 1364-2005 annex A, as far as the profile has it).
//!
//! It builds no tree. The reader of modules asks it only for texts that it has refused. That its
//! answer is a token or the number of tokens, and the first one exactly where that is not `module`, is
//! proved; which later one is shown by tests. It stands on `rr_syntax`, whose table of operators the
//! reader of expressions asks too.
#![tactic(auto)]

mod cursor;
mod expressions;
mod lists;
mod modules;
mod statements;

pub use modules::stop;
