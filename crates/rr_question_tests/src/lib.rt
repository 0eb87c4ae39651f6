//! Tests of cycles and of questions of designs with sites: each list of bits of a choice against the
//! printed instance, which is elaborated and run by itself. It has tests alone.
#![tactic(auto)]

#[cfg(test)]
mod cycles;
#[cfg(test)]
mod designs;
#[cfg(test)]
mod instances;
#[cfg(test)]
mod questions;
