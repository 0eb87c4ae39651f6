//! Operations on words of wires, lowest bit first: the gates of each operator of an expression, of its
//! selects and of its constants. It is right where for every input the answered wires carry the word
//! that `rr_expr` gives to the operation, or `rr_bits` to the word, for what the operands' wires carry.
//! It stands on `rr_arith`'s arithmetic, `rr_circuit`'s builder and `rr_expr`'s operators. Constant
//! wires, bits at a constant place, extensions and copies add no gate. After an error, which is want of
//! memory or of numbers for gates, the wires that were there keep their values.
#![tactic(auto)]

mod operators;
mod selects;
mod words;

pub use operators::{computed, holds, reduced, shifted};
pub use selects::{matches, names_place, picked_at, selected};
pub use words::{
    Connective, bitwise, chosen, chosen_or, connected, constants, extended, inverted, negated,
    of_all, repeated,
};
