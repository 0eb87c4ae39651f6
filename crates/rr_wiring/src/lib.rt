//! The part of a concatenation that has a bit (IEEE 1364-2005 section 5.1.14), so that one bit of a
//! wide concatenation is found without the others. It is right where the part's bit is the
//! concatenation's in every environment. It stands on `rr_expr`.
#![tactic(auto)]

mod laws;
mod parts;

pub use laws::part_laws;
pub use parts::{Part, is_concatenation, own_bit, part_at};
