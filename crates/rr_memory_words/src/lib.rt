//! The words of memories (IEEE 1364-2005 section 4.9.3): the signals that a declaration makes, and
//! what its name stands for. It is right where both are those of the definition, and where each
//! signal among these is one that the name says. It stands on `rr_flat`'s signals.
#![tactic(auto)]

mod words;

pub use words::{add_words, word_count, words_entity};
