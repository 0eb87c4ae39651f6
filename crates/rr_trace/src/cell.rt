//! Cells: what a field of a table says of a column.
ghost use Rattle.std.specs.Prelude.{◌≡◌, ℕ, ◌+◌, ◌*◌, ◌-◌, ◌<◌, ◌≤◌, ◌^◌, Some, option_map};
ghost use Rattle.rr_trace.specs.Cells.{Number, fitted, unknown_digit as unknown_digit_of, is_x as is_x_of, is_unknown as is_unknown_of, starts as starts_of, Numeral as NumeralPair, radix as radix_of, digit_value as digit_value_of, digit as digit_of, is_separator as is_separator_of, numeral as numeral_of, written as written_of, cell_of, is_framed as is_framed_of};
ghost use Rattle.rr_trace.specs.Numbers.{IsNumeral, IsValue, Reads, Writes};

/// What a cell says of a column's bits, lowest bit first: those that are ones, and those that are
/// known. A bit that is not known is 0 in `value`.
#[derive(Clone, Copy, Debug, PartialEq, Eq)]
pub struct Cell {
    pub value: u128,
    pub known: u128,
}

impl Cell {
    /// No bit is known.
    pub(crate) const UNKNOWN: Cell = Cell { value: 0, known: 0 };
}

/// Why a text is no cell of its column.
#[derive(Clone, Copy, Debug, PartialEq, Eq)]
pub(crate) enum CellFault {
    Malformed,
    TooLarge,
}

#[derive(Clone, Copy, Debug, PartialEq, Eq)]
enum Base {
    Binary,
    Decimal,
    Hexadecimal,
}

/// A digit, and which of its bits are unknown.
#[derive(Clone, Copy, Debug, PartialEq, Eq)]
struct Digit {
    value: u8,
    unknown: u8,
}

/// A numeral: its value, `None` from 2^128 on, and the lowest 128 places of its unknown bits.
#[derive(Clone, Copy)]
struct Numeral {
    value: Option<u128>,
    unknown: u128,
}

enum Written {
    Unknown,
    Number(Numeral),
}

impl Base {
    fn radix(self) -> u8
        ensures { result ≡ radix_of self }
    {
        match self {
            Base::Binary => 2,
            Base::Decimal => 10,
            Base::Hexadecimal => 16,
        }
    }

    fn is_separator(self, byte: u8) -> bool
        ensures { result ≡ is_separator_of self byte }
    {
        match self {
            Base::Binary | Base::Hexadecimal => byte == b'_',
            Base::Decimal => false,
        }
    }

    fn digit(self, byte: u8) -> Option<Digit>
        ensures { result ≡ digit_of self byte }
    {
        if is_x(byte) {
            return self.unknown_digit();
        }
        match digit_value(byte) {
            Some(value) if value < self.radix() => Some(Digit { value, unknown: 0 }),
            _ => None,
        }
    }

    fn unknown_digit(self) -> Option<Digit>
        ensures { result ≡ unknown_digit_of self }
    {
        let unknown = match self {
            Base::Binary => 1,
            Base::Decimal => return None,
            Base::Hexadecimal => 15,
        };
        Some(Digit { value: 0, unknown })
    }
}

fn digit_value(byte: u8) -> Option<u8>
    ensures { result ≡ digit_value_of byte }
{
    match byte {
        b'0'..=b'9' => Some(byte - b'0'),
        b'a'..=b'f' => Some(byte - b'a' + 10),
        b'A'..=b'F' => Some(byte - b'A' + 10),
        _ => None,
    }
}

fn is_x(byte: u8) -> bool
    ensures { result ≡ is_x_of byte }
{
    byte == b'x' || byte == b'X'
}

impl Numeral {
    /// The lowest `width` bits, where no one stands above them.
    fn fit(self, width: u32) -> Result<Cell, CellFault>
        requires low { 1 ≤ width }
        requires high { width ≤ 128 }
        ensures { (n : NumeralPair) → IsNumeral self n → result ≡ fitted width (Some (Number n)) }
    {
        match self.value {
            Some(value) if value <= ones(width) => Ok(Cell {
                value,
                known: ones(width) - (self.unknown & ones(width)),
            }),
            _ => Err(CellFault::TooLarge),
        }
    }

    /// The numeral with one digit more.
    fn then(self, radix: u8, digit: Digit) -> Numeral
        requires { 1 ≤ radix }
        ensures { (n : NumeralPair) → IsNumeral self n → IsNumeral result (n.0 * radix + digit.value, n.1 * radix + digit.unknown) }
    {
        Numeral {
            value: with_digit(self.value, radix, digit.value),
            unknown: self
                .unknown
                .wrapping_mul(u128::from(radix))
                .wrapping_add(u128::from(digit.unknown)),
        }
    }
}

fn with_digit(value: Option<u128>, radix: u8, digit: u8) -> Option<u128>
    requires { 1 ≤ radix }
    ensures { (v : ℕ) → IsValue value v → IsValue result (v * radix + digit) }
{
    value?
        .checked_mul(u128::from(radix))?
        .checked_add(u128::from(digit))
}

/// A digit stands at both ends.
fn is_framed(text: &[u8]) -> bool
    ensures { result ≡ is_framed_of text.now }
{
    match (text.first(), text.last()) {
        (Some(&first), Some(&last)) => first != b'_' && last != b'_',
        _ => false,
    }
}

fn read_numeral(base: Base, text: &[u8]) -> Option<Numeral>
    ensures { Reads result (numeral_of base text.now) }
{
    if !is_framed(text) {
        return None;
    }
    let mut number = Numeral {
        value: Some(0),
        unknown: 0,
    };
    for &byte in text {
        if !base.is_separator(byte) {
            number = number.then(base.radix(), base.digit(byte)?);
        }
    }
    Some(number)
}

/// No bit of the text is known.
fn is_unknown(text: &[u8]) -> bool
    ensures { result ≡ is_unknown_of text.now }
{
    text.len() == 0 || text.len() == 1 && is_x(text[0])
}

/// The text begins with `0` and this letter.
fn starts(letter: u8, text: &[u8]) -> bool
    ensures { result ≡ starts_of letter text.now }
{
    text.len() >= 2 && text[0] == b'0' && text[1] == letter
}

/// What a text writes; `None` where it is no cell of any column.
fn read_written(text: &[u8]) -> Option<Written>
    ensures { Writes result (written_of text.now) }
{
    if is_unknown(text) {
        return Some(Written::Unknown);
    }
    if starts(b'b', text) {
        return numbered(Base::Binary, &text[2..]);
    }
    if starts(b'x', text) {
        return numbered(Base::Hexadecimal, &text[2..]);
    }
    numbered(Base::Decimal, text)
}

fn numbered(base: Base, text: &[u8]) -> Option<Written>
    ensures { Writes result (option_map Number (numeral_of base text.now)) }
{
    match read_numeral(base, text) {
        Some(number) => Some(Written::Number(number)),
        None => None,
    }
}

/// The number with the lowest `width` bits one.
fn ones(width: u32) -> u128
    requires low { 1 ≤ width }
    requires high { width ≤ 128 }
    ensures { result ≡ 2 ^ width - 1 }
{
    u128::MAX >> (128 - width)
}

/// What a text without blanks around it says of a column of so many bits.
pub(crate) fn read_cell(width: u32, text: &[u8]) -> Result<Cell, CellFault>
    requires low { 1 ≤ width }
    requires high { width ≤ 128 }
    ensures { result ≡ cell_of width text.now }
{
    match read_written(text) {
        None => Err(CellFault::Malformed),
        Some(Written::Unknown) => Ok(Cell::UNKNOWN),
        Some(Written::Number(number)) => number.fit(width),
    }
}
