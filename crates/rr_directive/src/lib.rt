//! The expansion of compiler directives (IEEE 1364-2005 sections 19.3 and 19.4): `define without
//! arguments, `undef, `ifdef, `ifndef, `else and `endif, with the origin of each expanded byte. It is
//! right where the bytes are those that the units of the file give in their order, or the fault is the
//! first in the order of the file. It stands on no other crate.
#![tactic(auto)]

mod bytes;
mod definitions;
mod expanded;
mod expansion;
mod fault;
mod laws;
mod origin;
mod output;
mod piece;
mod reading;
#[cfg(test)]
mod tests;
mod text;
mod unclosed;
mod using;

pub use expanded::{Expanded, place};
pub use expansion::expand;
pub use fault::{DirectiveFault, Wrong};
pub use laws::{one_expansion, plain_files_stay};
pub use origin::Origin;
pub use piece::{Directive, Kind};
