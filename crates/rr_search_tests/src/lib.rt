//! Tests of searches for least repairs, over circuits of one cycle that are written by hand: each answer,
//! with one and with several members, and the bits of choices. It has tests alone.
#![tactic(auto)]

#[cfg(test)]
mod bits;
#[cfg(test)]
mod searches;
