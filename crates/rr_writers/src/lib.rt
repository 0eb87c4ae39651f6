//! The writers of the bits of a flat design: no bit has two (IEEE 1364-2005 sections 6.1 and 9.2). It
//! is right where it answers the first writer of the walk that writes a bit for the second time. It
//! stands on `rr_named_bits`'s pieces.
#![tactic(auto)]

mod assigned;
mod doubles;
mod marks;
mod reaches;
mod table;

pub use assigned::add_assigned_bits;
pub use doubles::{TwoDrivers, first_two_drivers};
pub use reaches::{distinct, distinct_writes, word_of};
pub use table::BitTable;
