//! What the contracts of value change dumps do not say: dumps written by hand with the rows that they
//! give, each refusal with its line, and that each call succeeds where memory is left. It has tests
//! alone.
#![tactic(auto)]

#[cfg(test)]
mod dumps;
#[cfg(test)]
mod texts;
