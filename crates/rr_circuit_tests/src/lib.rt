//! What the contracts of `rr_circuit`, `rr_arith`, `rr_count` and `rr_tseitin` do not say: truth tables
//! and texts from outside, operations at many words, and that each call succeeds where memory is left.
//! It has tests alone.
#![tactic(auto)]

#[cfg(test)]
mod arith;
#[cfg(test)]
mod circuit;
#[cfg(test)]
mod count;
#[cfg(test)]
mod gates;
#[cfg(test)]
mod tseitin;
