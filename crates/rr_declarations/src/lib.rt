//! The head of a module: its parameters and declarations (IEEE 1364-2005 sections 3, 4 and 12). It is
//! right where the head is that of the definition, or the fault its first one in the order of the
//! walk. It stands on `rr_expr`'s constants, `rr_syntax`'s trees and `rr_flat`'s signals.
#![tactic(auto)]

mod brackets;
mod declare;
mod head;
mod known;
mod parameters;
mod starts;
mod values;
mod words;

/// The greatest number of flat bits: the widths of all signals together.
pub const FLAT_BITS: u64 = 65536;

pub use head::{Head, open_head};
pub use values::constant_of;
