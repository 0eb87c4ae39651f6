//! What the contracts of `rr_transition` and `rr_unroll` do not say: questions and runs of small
//! transitions against values written by hand, and that each call succeeds where memory is left. It has tests
//! alone.
#![tactic(auto)]

#[cfg(test)]
mod questions;
#[cfg(test)]
mod runs;
#[cfg(test)]
mod tables;
#[cfg(test)]
mod transitions;
