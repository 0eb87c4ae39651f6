//! What the contract of `rr_blast` does not say: that the transition of a small design is there where
//! memory is left, and what it gives, against values that are written by hand. It has tests alone.
#![tactic(auto)]

#[cfg(test)]
mod transitions;
