//! Words of 1 to 128 bits: the values of the profile (IEEE 1364-2005 sections 4.3, 5.1 and 5.4). It
//! is right where each call is its operation on lists of truth values, lowest first. It stands on no
//! other crate.
#![tactic(auto)]

ghost use Rattle.std.specs.Prelude.{◌≡◌, ℕ, ◌+◌, ◌-◌, ◌*◌, ◌/◌, ◌%◌, ◌^◌, ◌<◌, ◌≤◌, Bool, List, length, get_or, false, ℤ, pos, unsigned_abs, ◌&&◌, ◌++◌};
ghost use Rattle.rr_bits.specs.Words.{number, word, extend as extended, add as sum_of, sub as difference_of, mul as product_of, shl as shifted_left, shr as shifted_right, sar as shifted_signed, less as is_less, select as selected, inverted, top as top_of, both, either, one_of, negated, reading, quotient, remainder, power as power_of};

use std::marker::Model;

/// A word of 1 to 128 bits, seen as the list of its truth values, lowest first.
#[derive(Clone, Copy, Debug, PartialEq, Eq)]
pub struct Bits {
    width: u32,
    value: u128,
}

impl Model for Bits {
    ghost use Rattle.std.specs.Prelude.{List, Bool, ◌≤◌, ◌<◌, ◌^◌, length, ℕ};
    ghost use Rattle.rr_bits.specs.Words.{number, word};
    ghost use Rattle.rr_bits.specs.Fields.{rebuilt};

    ghost Value = { List Bool };

    ghost view = { λ b. word b.width b.value };

    ghost invariant = { λ b. (1 ≤ b.width) × (b.width ≤ 128) × (b.value < 2 ^ b.width) };

    ghost inverse = { λ xs. record { width = length xs; value = number xs } };

    ghost inverse_ok = { λ b h. rebuilt (λ w n. record { width = w; value = n }) b.width b.value h.2 };
}

/// The number with the lowest `width` bits one.
fn mask(width: u32) -> u128
    requires low { 1 ≤ width }
    requires high { width ≤ 128 }
    ensures { result ≡ 2 ^ width - 1 }
{
    u128::MAX >> (128 - width)
}

impl Bits {
    /// The lowest `width` bits of `value`; `width` is from 1 to 128.
    pub fn from_u128(width: u32, value: u128) -> Bits
        requires low { 1 ≤ width }
        requires high { width ≤ 128 }
        ensures { result ≡ word width value }
    {
        Bits {
            width,
            value: value & mask(width),
        }
    }

    /// The unsigned number that the bits write, lowest first.
    pub fn to_u128(self) -> u128
        ensures { result ≡ number self }
    {
        self.value
    }

    /// The number of bits, from 1 to 128.
    pub fn width(self) -> u32
        ensures value { result ≡ length self }
        ensures low { 1 ≤ result }
        ensures high { result ≤ 128 }
    {
        self.width
    }

    /// The bit at a place, counted from 0 at the lowest; false at or above the width.
    pub fn get(self, place: u32) -> bool
        ensures { result ≡ get_or self place false }
    {
        place < self.width && (self.value >> place) & 1 == 1
    }

    /// The highest bit.
    fn top(self) -> bool
        ensures { result ≡ top_of self }
    {
        (self.value >> (self.width - 1)) & 1 == 1
    }

    /// Whether the word is read as signed and its top bit is one.
    pub fn is_negative(self, signed: bool) -> bool
        ensures { result ≡ (signed && top_of self) }
    {
        signed && self.top()
    }

    /// The word in `width` bits, from 1 to 128 (IEEE 1364-2005 section 5.4.1): cut from the top, or
    /// filled with the top bit where signed, else with 0.
    pub fn extend(self, width: u32, signed: bool) -> Bits
        requires low { 1 ≤ width }
        requires high { width ≤ 128 }
        ensures { result ≡ extended width signed self }
    {
        if self.is_negative(signed) {
            Bits::from_u128(width, self.value | (mask(self.width) ^ u128::MAX))
        } else {
            Bits::from_u128(width, self.value)
        }
    }

    /// The sum modulo 2 to the width. Both words have one width.
    pub fn add(self, other: Bits) -> Bits
        requires { length self ≡ length other }
        ensures { result ≡ sum_of self other }
    {
        Bits::from_u128(self.width, self.value.wrapping_add(other.value))
    }

    /// The difference modulo 2 to the width. Both words have one width.
    pub fn sub(self, other: Bits) -> Bits
        requires { length self ≡ length other }
        ensures { result ≡ difference_of self other }
    {
        Bits::from_u128(self.width, self.value.wrapping_sub(other.value))
    }

    /// The product modulo 2 to the width. Both words have one width.
    pub fn mul(self, other: Bits) -> Bits
        requires { length self ≡ length other }
        ensures { result ≡ product_of self other }
    {
        Bits::from_u128(self.width, self.value.wrapping_mul(other.value))
    }

    /// The bits `by` places higher, filled with 0 from below (IEEE 1364-2005 section 5.1.12).
    pub fn shl(self, by: u128) -> Bits
        ensures { result ≡ shifted_left self by }
    {
        if by < self.width as u128 {
            Bits::from_u128(self.width, self.value << by as u32)
        } else {
            Bits::from_u128(self.width, 0)
        }
    }

    /// The bits `by` places lower, filled with 0 from above (IEEE 1364-2005 section 5.1.12).
    pub fn shr(self, by: u128) -> Bits
        ensures { result ≡ shifted_right self by }
    {
        if by < self.width as u128 {
            Bits::from_u128(self.width, self.value >> by as u32)
        } else {
            Bits::from_u128(self.width, 0)
        }
    }

    /// The bits `by` places lower, filled with the top bit (IEEE 1364-2005 section 5.1.12).
    pub fn sar(self, by: u128) -> Bits
        ensures { result ≡ shifted_signed self by }
    {
        if self.top() {
            self.inverted().shr(by).inverted()
        } else {
            self.shr(by)
        }
    }

    /// Each bit negated (IEEE 1364-2005 section 5.1.10).
    pub fn inverted(self) -> Bits
        ensures { result ≡ inverted self }
    {
        Bits::from_u128(self.width, self.value ^ mask(self.width))
    }

    /// Whether the number is less than the other, both read as signed or both as unsigned (IEEE
    /// 1364-2005 section 5.1.7). Both words have one width.
    pub fn less(self, other: Bits, signed: bool) -> bool
        requires { length self ≡ length other }
        ensures { result ≡ is_less signed self other }
    {
        let negative = self.top();
        if signed && negative != other.top() {
            negative
        } else {
            self.value < other.value
        }
    }

    /// The `width` bits from the place `from` up, 0 where there is no such place (`width` is from 1
    /// to 128).
    pub fn select(self, from: i64, width: u32) -> Bits
        requires low { 1 ≤ width }
        requires high { width ≤ 128 }
        ensures { result ≡ selected self from width }
    {
        let far = from.unsigned_abs();
        if far >= 128 {
            Bits::from_u128(width, 0)
        } else if from < 0 {
            Bits::from_u128(width, self.value << far as u32)
        } else {
            Bits::from_u128(width, self.value >> far as u32)
        }
    }

    /// The conjunction bit by bit. Both words have one width.
    pub fn and(self, other: Bits) -> Bits
        requires { length self ≡ length other }
        ensures { result ≡ both self other }
    {
        Bits::from_u128(self.width, self.value & other.value)
    }

    /// The disjunction bit by bit. Both words have one width.
    pub fn or(self, other: Bits) -> Bits
        requires { length self ≡ length other }
        ensures { result ≡ either self other }
    {
        Bits::from_u128(self.width, self.value | other.value)
    }

    /// The exclusive or bit by bit. Both words have one width.
    pub fn xor(self, other: Bits) -> Bits
        requires { length self ≡ length other }
        ensures { result ≡ one_of self other }
    {
        Bits::from_u128(self.width, self.value ^ other.value)
    }

    /// The negation modulo 2 to the width.
    pub fn negated(self) -> Bits
        ensures { result ≡ negated self }
    {
        Bits::from_u128(self.width, 0u128.wrapping_sub(self.value))
    }

    /// The absolute value of the number, read as signed or unsigned.
    fn magnitude(self, signed: bool) -> u128
        ensures { result ≡ unsigned_abs (reading signed self) }
    {
        if self.is_negative(signed) {
            0u128.wrapping_sub(self.value) & mask(self.width)
        } else {
            self.value
        }
    }

    /// The quotient, cut toward zero (IEEE 1364-2005 section 5.1.5); 0 where the divisor is 0. Both
    /// words have one width.
    pub fn div(self, other: Bits, signed: bool) -> Bits
        requires { length self ≡ length other }
        ensures { result ≡ quotient signed self other }
    {
        let divisor = other.magnitude(signed);
        if divisor == 0 {
            return Bits::from_u128(self.width, 0);
        }
        let whole = Bits::from_u128(self.width, self.magnitude(signed) / divisor);
        if self.is_negative(signed) != other.is_negative(signed) {
            whole.negated()
        } else {
            whole
        }
    }

    /// The remainder, with the sign of the first operand (IEEE 1364-2005 section 5.1.5); 0 where the
    /// divisor is 0. Both words have one width.
    pub fn rem(self, other: Bits, signed: bool) -> Bits
        requires { length self ≡ length other }
        ensures { result ≡ remainder signed self other }
    {
        let divisor = other.magnitude(signed);
        if divisor == 0 {
            return Bits::from_u128(self.width, 0);
        }
        let rest = Bits::from_u128(self.width, self.magnitude(signed) % divisor);
        if self.is_negative(signed) {
            rest.negated()
        } else {
            rest
        }
    }

    /// The power modulo 2 to the width.
    pub fn power(self, exponent: u128) -> Bits
        ensures { result ≡ power_of self exponent }
    {
        let mut power: u128 = 1;
        let mut base = self.value;
        let mut left = exponent;
        while 0 < left {
            if left % 2 == 1 {
                power = power.wrapping_mul(base);
            }
            base = base.wrapping_mul(base);
            left /= 2;
        }
        Bits::from_u128(self.width, power)
    }

    /// The bits of the word, and above them those of `high`; at most 128 bits together.
    pub fn append(self, high: Bits) -> Bits
        requires { length self + length high ≤ 128 }
        ensures { result ≡ self ++ high }
    {
        Bits::from_u128(
            self.width + high.width,
            high.value << self.width | self.value,
        )
    }
}

/// A list of truth values is a word by its length and its number: the list of a width and a number
/// has them, up to a power of two, and no other list does.
pub fn words_are_numbers()
    ensures width { (w n : ℕ) → length (word w n) ≡ w }
    ensures value { (w n : ℕ) → number (word w n) ≡ n % 2 ^ w }
    ensures below { (xs : List Bool) → number xs < 2 ^ length xs }
    ensures only { (xs : List Bool) → word (length xs) (number xs) ≡ xs }
{}

/// A list whose number is that of a sum, a difference or a product modulo 2 to the width is the
/// word of that operation: what a circuit that computes numbers owes of its list of bits.
#[tactic(auto, using(crate::proofs::Gates::gates))]
pub fn words_from_numbers()
    ensures sum { (xs ys zs : List Bool) → length zs ≡ length xs → number zs ≡ (number xs + number ys) % 2 ^ length xs → zs ≡ sum_of xs ys }
    ensures difference { (xs ys zs : List Bool) → length zs ≡ length xs → number zs ≡ (number xs + (2 ^ length xs - number ys)) % 2 ^ length xs → zs ≡ difference_of xs ys }
    ensures product { (xs ys zs : List Bool) → length zs ≡ length xs → number zs ≡ (number xs * number ys) % 2 ^ length xs → zs ≡ product_of xs ys }
{}
