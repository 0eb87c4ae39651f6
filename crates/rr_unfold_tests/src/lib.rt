//! What the contracts of `rr_unfold` do not say: loops of texts with their turns, tokens and literals by worked
//! examples, faults of heads, and that each call succeeds where memory is left. It has tests alone.
#![tactic(auto)]

#[cfg(test)]
mod literals;
#[cfg(test)]
mod loops;
