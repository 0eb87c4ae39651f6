//! Shapes, names' meanings, environments and faults.

use rr_bits::Bits;

/// A width in bits and a sign (IEEE 1364-2005 sections 5.4 and 5.5).
#[derive(Clone, Copy, Debug, PartialEq, Eq)]
pub struct Shape {
    pub width: u32,
    pub signed: bool,
}

/// What a name stands for: a parameter with its value, a net or variable with its number and its
/// declared range `[left:right]` where it has one, a memory, or an instance, which no expression may
/// name. The words of a memory (IEEE 1364-2005 section 4.9.3) are the signals from `first` on in the
/// order of their indices, of which `low` is the lowest; range and sign are those of a word.
#[derive(Clone, Copy, Debug, PartialEq, Eq)]
pub enum Entity {
    Constant {
        bits: Bits,
        signed: bool,
    },
    Signal {
        id: u32,
        range: Option<(u32, u32)>,
        signed: bool,
    },
    Memory {
        first: u32,
        low: u32,
        words: u32,
        range: Option<(u32, u32)>,
        signed: bool,
    },
    Instance,
}

/// A bit of a signal: the signal's number, and the bit's place, 0 at the right bound of the range.
#[derive(Clone, Copy, Debug, PartialEq, Eq, Hash)]
pub struct Bit {
    pub signal: u32,
    pub place: u32,
}

/// The values of the signals by their numbers, the bit at place 0 lowest. A signal without a value
/// is 0.
#[derive(Drop)]
pub struct Env {
    pub values: Vec<u128>,
}

/// Why an expression has no shape, with the number of the token at which it shows: a name that is
/// not there or that stands for an instance; a select of a scalar, against the direction of its
/// declaration or of no bits, a memory without an index, or a replication count below 1; a signal, a zero divisor or a negative
/// exponent where a constant must stand; a width outside 1 to 128, given whole, or as 2^32 - 1 where
/// it is greater.
#[derive(Clone, Copy, Debug, PartialEq, Eq)]
pub enum ExprFault {
    UnknownName(u32),
    BadRange(u32),
    NotConstant(u32),
    TooWide(u32, u32),
}
