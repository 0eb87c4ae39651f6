//! Tests of the crates that read texts, through their public functions: tokens, trees, words without
//! a rule, and where a text leaves the grammar. Nothing stands on it.
#![tactic(auto)]

#[cfg(test)]
mod expressions;
#[cfg(test)]
mod lex;
#[cfg(test)]
mod parse;
#[cfg(test)]
mod profile;
#[cfg(test)]
mod statements;
#[cfg(test)]
mod stop;
#[cfg(test)]
mod syntax;
#[cfg(test)]
mod texts;
