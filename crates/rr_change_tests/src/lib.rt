//! Tests of the report of a repair, line by line. Nothing stands on it.
#![tactic(auto)]

#[cfg(test)]
mod lines;
