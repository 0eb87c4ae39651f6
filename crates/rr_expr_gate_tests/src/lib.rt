//! Tests of expressions on wires: what the gates of an expression carry against the values of the
//! expression, or of its instance, on words. Nothing stands on it.
#![tactic(auto)]

#[cfg(test)]
mod bench;
#[cfg(test)]
mod circuits;
#[cfg(test)]
mod operators;
#[cfg(test)]
mod sites;
