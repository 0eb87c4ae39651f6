//! Tests of printing: a design, its sites and a choice in, the bytes out. Nothing stands on it.
#![tactic(auto)]

#[cfg(test)]
mod designs;
#[cfg(test)]
mod printing;
