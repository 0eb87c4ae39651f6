//! The operators of the profile (IEEE 1364-2005 section 5.1) and what they do to words.
ghost use Rattle.std.specs.Prelude.{◌≡◌, length, get_or};
ghost use Rattle.rr_expr.specs.Operators.{infixes, prefixes, operation_value, shift_value, relation_holds, reduction_holds, joined as joined_shape, prefix_shape as prefix_shaped, infix_shape as infix_shaped, truth as truth_word, every, parity};
ghost use Rattle.rr_expr.specs.declared.operators.Infix.TheVariants.{Either};
ghost use Rattle.rr_expr.specs.declared.operators.Prefix.TheVariants.{Plus};

use crate::types::Shape;
use rr_bits::Bits;
use rr_syntax::Mark;

/// An operator that takes both operands in the context of the whole (IEEE 1364-2005 section 5.4.1).
#[derive(Clone, Copy)]
pub enum Operation {
    Add,
    Subtract,
    Multiply,
    And,
    Or,
    Xor,
    Xnor,
}

/// A shift by the number of its right operand (section 5.1.12).
#[derive(Clone, Copy)]
pub enum Shift {
    Left,
    Right,
    SignedRight,
}

/// A comparison (sections 5.1.7 and 5.1.8); with two values of a bit `===` and `!==` are `==` and `!=`.
#[derive(Clone, Copy)]
pub enum Relation {
    Less,
    Greater,
    LessOrEqual,
    GreaterOrEqual,
    Equal,
    NotEqual,
}

/// A reduction (section 5.1.11); `!` is `~|`, since a word is true where some bit is one.
#[derive(Clone, Copy)]
pub enum Reduction {
    And,
    Nand,
    Or,
    Nor,
    Xor,
    Xnor,
}

/// An operator between operands; `Both` and `Either` are `&&` and `||`.
#[derive(Clone, Copy)]
pub enum Infix {
    Arithmetic(Operation),
    Divide,
    Remainder,
    Power,
    Shifted(Shift),
    Compared(Relation),
    Both,
    Either,
}

/// An operator before an operand.
#[derive(Clone, Copy)]
pub enum Prefix {
    Plus,
    Minus,
    Invert,
    Reduced(Reduction),
}

const INFIXES: [Infix; 45] = [
    Infix::Either,
    Infix::Either,
    Infix::Either,
    Infix::Either,
    Infix::Either,
    Infix::Either,
    Infix::Either,
    Infix::Either,
    Infix::Either,
    Infix::Either,
    Infix::Either,
    Infix::Either,
    Infix::Either,
    Infix::Either,
    Infix::Arithmetic(Operation::Add),
    Infix::Arithmetic(Operation::Subtract),
    Infix::Arithmetic(Operation::Multiply),
    Infix::Divide,
    Infix::Remainder,
    Infix::Either,
    Infix::Either,
    Infix::Arithmetic(Operation::And),
    Infix::Arithmetic(Operation::Or),
    Infix::Arithmetic(Operation::Xor),
    Infix::Compared(Relation::Less),
    Infix::Compared(Relation::Greater),
    Infix::Power,
    Infix::Compared(Relation::Equal),
    Infix::Compared(Relation::NotEqual),
    Infix::Compared(Relation::Equal),
    Infix::Compared(Relation::NotEqual),
    Infix::Compared(Relation::LessOrEqual),
    Infix::Compared(Relation::GreaterOrEqual),
    Infix::Shifted(Shift::Left),
    Infix::Shifted(Shift::Right),
    Infix::Shifted(Shift::Left),
    Infix::Shifted(Shift::SignedRight),
    Infix::Both,
    Infix::Either,
    Infix::Either,
    Infix::Either,
    Infix::Arithmetic(Operation::Xnor),
    Infix::Arithmetic(Operation::Xnor),
    Infix::Either,
    Infix::Either,
];

const PREFIXES: [Prefix; 45] = [
    Prefix::Plus,
    Prefix::Plus,
    Prefix::Plus,
    Prefix::Plus,
    Prefix::Plus,
    Prefix::Plus,
    Prefix::Plus,
    Prefix::Plus,
    Prefix::Plus,
    Prefix::Plus,
    Prefix::Plus,
    Prefix::Plus,
    Prefix::Plus,
    Prefix::Plus,
    Prefix::Plus,
    Prefix::Minus,
    Prefix::Plus,
    Prefix::Plus,
    Prefix::Plus,
    Prefix::Reduced(Reduction::Nor),
    Prefix::Invert,
    Prefix::Reduced(Reduction::And),
    Prefix::Reduced(Reduction::Or),
    Prefix::Reduced(Reduction::Xor),
    Prefix::Plus,
    Prefix::Plus,
    Prefix::Plus,
    Prefix::Plus,
    Prefix::Plus,
    Prefix::Plus,
    Prefix::Plus,
    Prefix::Plus,
    Prefix::Plus,
    Prefix::Plus,
    Prefix::Plus,
    Prefix::Plus,
    Prefix::Plus,
    Prefix::Plus,
    Prefix::Plus,
    Prefix::Reduced(Reduction::Nand),
    Prefix::Reduced(Reduction::Nor),
    Prefix::Reduced(Reduction::Xnor),
    Prefix::Reduced(Reduction::Xnor),
    Prefix::Plus,
    Prefix::Plus,
];

/// The operator that a mark between operands is.
#[tactic(auto, using(crate::proofs::Words::no_infix))]
pub fn infix_of(op: Mark) -> Infix
    ensures { result ≡ get_or infixes op.0 Either }
{
    if op.0 > 44 {
        return Infix::Either;
    }
    INFIXES[op.0 as usize]
}

/// The operator that a mark before an operand is.
pub fn prefix_of(op: Mark) -> Prefix
    ensures { result ≡ get_or prefixes op.0 Plus }
{
    PREFIXES.get(op.0 as usize).copied().unwrap_or(Prefix::Plus)
}

/// The shape of two operands in one context: the greater width, signed where both are (section 5.5.1).
pub fn joined(left: Shape, right: Shape) -> Shape
    ensures { result ≡ joined_shape left right }
{
    Shape {
        width: left.width.max(right.width),
        signed: left.signed && right.signed,
    }
}

const ONE_BIT: Shape = Shape {
    width: 1,
    signed: false,
};

pub(crate) fn prefix_shape(op: Prefix, of: Shape) -> Shape
    ensures { result ≡ prefix_shaped op of }
{
    match op {
        Prefix::Plus | Prefix::Minus | Prefix::Invert => of,
        Prefix::Reduced(_) => ONE_BIT,
    }
}

pub(crate) fn infix_shape(op: Infix, left: Shape, right: Shape) -> Shape
    ensures { result ≡ infix_shaped op left right }
{
    match op {
        Infix::Arithmetic(_) | Infix::Divide | Infix::Remainder => joined(left, right),
        Infix::Power | Infix::Shifted(_) => left,
        Infix::Compared(_) | Infix::Both | Infix::Either => ONE_BIT,
    }
}

/// The word of one bit that a truth value is.
pub(crate) fn truth(holds: bool) -> Bits
    ensures { result ≡ truth_word holds }
{
    Bits::from_u128(1, holds as u128)
}

pub(crate) fn computed(op: Operation, left: Bits, right: Bits) -> Bits
    requires { length left ≡ length right }
    ensures { result ≡ operation_value op left right }
{
    match op {
        Operation::Add => left.add(right),
        Operation::Subtract => left.sub(right),
        Operation::Multiply => left.mul(right),
        Operation::And => left.and(right),
        Operation::Or => left.or(right),
        Operation::Xor => left.xor(right),
        Operation::Xnor => left.xor(right).inverted(),
    }
}

pub(crate) fn shifted(op: Shift, signed: bool, word: Bits, by: u128) -> Bits
    ensures { result ≡ shift_value op signed word by }
{
    match op {
        Shift::Left => word.shl(by),
        Shift::Right => word.shr(by),
        Shift::SignedRight => { if signed { word.sar(by) } else { word.shr(by) } }
    }
}

pub(crate) fn holds(op: Relation, signed: bool, left: Bits, right: Bits) -> bool
    requires { length left ≡ length right }
    ensures { result ≡ relation_holds op signed left right }
{
    match op {
        Relation::Less => left.less(right, signed),
        Relation::Greater => right.less(left, signed),
        Relation::LessOrEqual => !right.less(left, signed),
        Relation::GreaterOrEqual => !left.less(right, signed),
        Relation::Equal => left.to_u128() == right.to_u128(),
        Relation::NotEqual => left.to_u128() != right.to_u128(),
    }
}

fn is_full(word: Bits) -> bool
    ensures { result ≡ every word }
{
    word.to_u128() == u128::MAX >> (128 - word.width())
}

fn is_odd(word: Bits) -> bool
    ensures { result ≡ parity word }
{
    let mut odd = false;
    for place in 0..word.width() {
        odd = odd != word.get(place);
    }
    odd
}

pub(crate) fn reduced(op: Reduction, word: Bits) -> bool
    ensures { result ≡ reduction_holds op word }
{
    match op {
        Reduction::And => is_full(word),
        Reduction::Nand => !is_full(word),
        Reduction::Or => word.to_u128() != 0,
        Reduction::Nor => word.to_u128() == 0,
        Reduction::Xor => is_odd(word),
        Reduction::Xnor => !is_odd(word),
    }
}
