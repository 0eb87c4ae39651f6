//! What the contracts of the crates of laws do not say: designs that keep them or break one or two,
//! by the law and the place that are told first, and that each call succeeds where memory is left. It
//! has tests alone.
#![tactic(auto)]

#[cfg(test)]
mod assignments;
#[cfg(test)]
mod clocks;
#[cfg(test)]
mod latches;
#[cfg(test)]
mod laws;
#[cfg(test)]
mod memories;
#[cfg(test)]
mod orders;
#[cfg(test)]
mod texts;
#[cfg(test)]
mod writers;
