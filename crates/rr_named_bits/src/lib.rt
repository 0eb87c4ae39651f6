//! The bits that names and selects of a flat design name (IEEE 1364-2005 sections 5.2.1 and 5.2.2). It
//! is right where the pieces are, bit by bit, those of `rr_flat`'s `Targets` and `Reads`. It stands on
//! `rr_flat` and `rr_expr`.
#![tactic(auto)]

mod piece;
mod reads;
mod select;
mod targets;
mod writes;

pub use piece::{Piece, Reach, named_bit, push_piece};
pub use reads::{add_named_bits, add_target_reads};
pub use select::no_values;
pub use targets::{add_driven, add_pieces};
pub use writes::{Write, add_writes};
