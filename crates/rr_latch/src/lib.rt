//! Combinational blocks of a flat design that keep a bit (IEEE 1364-2005 sections 9.2.1, 9.4 and
//! 9.5). It is right where it answers the first block on some path of which a written bit is read
//! before it is assigned, or left without a value, and where it lists all such bits of a block. It stands
//! on `rr_writers`' table and `rr_named_bits`'s pieces.
#![tactic(auto)]

mod branches;
mod early;
mod kept;
mod latches;
mod paths;

pub use kept::{Room, latched_bits};
pub use latches::{Latch, first_latch};
