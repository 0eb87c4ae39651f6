//! The wires of a flat design's signals, and pieces of them that an assignment may write (IEEE
//! 1364-2005 sections 5.2.1, 5.2.2, 6.1 and 9.2). It is right where, for every input, the wires carry the
//! environment that `rr_cycle`'s `write` makes of the one that they carried. It stands on `rr_circuit`'s
//! builder and on `rr_named_bits`'s pieces. After an error, which is want of memory or of numbers for gates,
//! the wires that were there keep their values.
#![tactic(auto)]

mod guarded_pieces;
mod words;

pub use guarded_pieces::{
    GuardedPiece, Moving, MovingWord, add_fixed, add_moving, add_word, push_guarded_piece, put_all,
    whole_guarded_pieces,
};
pub use words::{bit_at, set_wire, wire_at};
