//! Starting values (IEEE 1364-2005 sections 6.2.1 and 9.9.1): the number that a declaration or an
//! `initial` item gives a variable. It is right where that number is the value of an assignment of
//! the constant to the variable. It stands on `rr_flat`'s designs.
#![tactic(auto)]

mod initials;
mod values;

pub use initials::{note_initial, set_starts};
pub use values::{note_constant, start_value};
