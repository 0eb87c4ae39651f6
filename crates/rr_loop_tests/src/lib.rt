//! What the contracts of the crates of loops do not say: values of expressions in turns, and places where the
//! name of a loop may not stand, by worked examples, and that each call succeeds where memory is left. It has
//! tests alone.
#![tactic(auto)]

#[cfg(test)]
mod rules;
#[cfg(test)]
mod values;
