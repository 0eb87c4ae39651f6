//! The words of the command line: which command they name, or that they name none. It is right where
//! the command is the one that `clap` matches. It stands on no other crate.
#![tactic(auto)]

mod line;
mod read;

pub use read::{Command, WordsFault, read_words, usage};
