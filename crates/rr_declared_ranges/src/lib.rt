//! What the names of an instance stand for, above the definition of the walk: each declared name for a
//! signal with the declared range or a memory of such words, and each signal that a name stands for
//! has that name, in that instance (IEEE 1364-2005 sections 3.2, 3.3.1, 4.9.3 and 12.3). It stands on
//! `rr_flat_laws` and on the definitions of `rr_flatten`, and has no code.
#![tactic(auto)]

mod laws;

pub use laws::{loops_are_vectors, names_are_located, names_have_ranges, words_are_located};
