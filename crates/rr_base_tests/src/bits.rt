//! Vectors of two's complement arithmetic.
ghost use Rattle.std.specs.Prelude.{◌≡◌, ◌≤◌, IfSome, length};

use rr_bits::Bits;

/// A width and two words; then sum, difference, product; less unsigned and signed; quotient and
/// remainder unsigned, and signed; and, or, exclusive or.
type Pair = (
    (u32, u128, u128),
    (u128, u128, u128),
    (bool, bool),
    (u128, u128),
    (u128, u128),
    (u128, u128, u128),
);

const PAIRS: [Pair; 43] = [
    (
        (1, 1, 1),
        (0, 0, 1),
        (false, false),
        (1, 0),
        (1, 0),
        (1, 1, 0),
    ),
    (
        (1, 1, 1),
        (0, 0, 1),
        (false, false),
        (1, 0),
        (1, 0),
        (1, 1, 0),
    ),
    (
        (1, 1, 1),
        (0, 0, 1),
        (false, false),
        (1, 0),
        (1, 0),
        (1, 1, 0),
    ),
    (
        (1, 0, 1),
        (1, 1, 0),
        (true, false),
        (0, 0),
        (0, 0),
        (0, 1, 1),
    ),
    (
        (1, 0, 1),
        (1, 1, 0),
        (true, false),
        (0, 0),
        (0, 0),
        (0, 1, 1),
    ),
    (
        (1, 1, 0),
        (1, 1, 0),
        (false, true),
        (0, 0),
        (0, 0),
        (0, 1, 1),
    ),
    (
        (4, 0xf, 1),
        (0, 0xe, 0xf),
        (false, true),
        (0xf, 0),
        (0xf, 0),
        (1, 0xf, 0xe),
    ),
    (
        (4, 0xf, 0xf),
        (0xe, 0, 1),
        (false, false),
        (1, 0),
        (1, 0),
        (0xf, 0xf, 0),
    ),
    (
        (4, 8, 0xf),
        (7, 9, 8),
        (true, true),
        (0, 8),
        (8, 0),
        (8, 0xf, 7),
    ),
    (
        (4, 0, 0xf),
        (0xf, 1, 0),
        (true, false),
        (0, 0),
        (0, 0),
        (0, 0xf, 0xf),
    ),
    (
        (4, 7, 8),
        (0xf, 0xf, 8),
        (true, false),
        (0, 7),
        (0, 7),
        (0, 0xf, 0xf),
    ),
    (
        (4, 5, 0xf),
        (4, 6, 0xb),
        (true, false),
        (0, 5),
        (0xb, 0),
        (5, 0xf, 0xa),
    ),
    (
        (4, 5, 0),
        (5, 5, 0),
        (false, false),
        (0, 0),
        (0, 0),
        (0, 5, 5),
    ),
    (
        (8, 0xff, 1),
        (0, 0xfe, 0xff),
        (false, true),
        (0xff, 0),
        (0xff, 0),
        (1, 0xff, 0xfe),
    ),
    (
        (8, 0xff, 0xff),
        (0xfe, 0, 1),
        (false, false),
        (1, 0),
        (1, 0),
        (0xff, 0xff, 0),
    ),
    (
        (8, 0x80, 0xff),
        (0x7f, 0x81, 0x80),
        (true, true),
        (0, 0x80),
        (0x80, 0),
        (0x80, 0xff, 0x7f),
    ),
    (
        (8, 0, 0xff),
        (0xff, 1, 0),
        (true, false),
        (0, 0),
        (0, 0),
        (0, 0xff, 0xff),
    ),
    (
        (8, 0x7f, 0x80),
        (0xff, 0xff, 0x80),
        (true, false),
        (0, 0x7f),
        (0, 0x7f),
        (0, 0xff, 0xff),
    ),
    (
        (8, 0x26, 0x65),
        (0x8b, 0xc1, 0xfe),
        (true, true),
        (0, 0x26),
        (0, 0x26),
        (0x24, 0x67, 0x43),
    ),
    (
        (8, 0xf9, 2),
        (0xfb, 0xf7, 0xf2),
        (false, true),
        (0x7c, 1),
        (0xfd, 0xff),
        (0, 0xfb, 0xfb),
    ),
    (
        (8, 7, 0xfe),
        (5, 9, 0xf2),
        (true, false),
        (0, 7),
        (0xfd, 1),
        (6, 0xff, 0xf9),
    ),
    (
        (8, 5, 0),
        (5, 5, 0),
        (false, false),
        (0, 0),
        (0, 0),
        (0, 5, 5),
    ),
    (
        (64, 0xffffffffffffffff, 1),
        (0, 0xfffffffffffffffe, 0xffffffffffffffff),
        (false, true),
        (0xffffffffffffffff, 0),
        (0xffffffffffffffff, 0),
        (1, 0xffffffffffffffff, 0xfffffffffffffffe),
    ),
    (
        (64, 0xffffffffffffffff, 0xffffffffffffffff),
        (0xfffffffffffffffe, 0, 1),
        (false, false),
        (1, 0),
        (1, 0),
        (0xffffffffffffffff, 0xffffffffffffffff, 0),
    ),
    (
        (64, 0x8000000000000000, 0xffffffffffffffff),
        (0x7fffffffffffffff, 0x8000000000000001, 0x8000000000000000),
        (true, true),
        (0, 0x8000000000000000),
        (0x8000000000000000, 0),
        (0x8000000000000000, 0xffffffffffffffff, 0x7fffffffffffffff),
    ),
    (
        (64, 0, 0xffffffffffffffff),
        (0xffffffffffffffff, 1, 0),
        (true, false),
        (0, 0),
        (0, 0),
        (0, 0xffffffffffffffff, 0xffffffffffffffff),
    ),
    (
        (64, 0x7fffffffffffffff, 0x8000000000000000),
        (0xffffffffffffffff, 0xffffffffffffffff, 0x8000000000000000),
        (true, false),
        (0, 0x7fffffffffffffff),
        (0, 0x7fffffffffffffff),
        (0, 0xffffffffffffffff, 0xffffffffffffffff),
    ),
    (
        (64, 0xc5c7fd0a6a3a450, 0xd23f0824128b2f33),
        (0xde9b87f4b92ed383, 0x3a1d77ac9418751d, 0x1fbc5cd115346bf0),
        (true, false),
        (0, 0xc5c7fd0a6a3a450),
        (0, 0xc5c7fd0a6a3a450),
        (0x1c080002832410, 0xde7f7ff4b6abaf73, 0xde6377f4b4288b63),
    ),
    (
        (64, 5, 0),
        (5, 5, 0),
        (false, false),
        (0, 0),
        (0, 0),
        (0, 5, 5),
    ),
    (
        (127, 0x7fffffffffffffffffffffffffffffff, 1),
        (
            0,
            0x7ffffffffffffffffffffffffffffffe,
            0x7fffffffffffffffffffffffffffffff,
        ),
        (false, true),
        (0x7fffffffffffffffffffffffffffffff, 0),
        (0x7fffffffffffffffffffffffffffffff, 0),
        (
            1,
            0x7fffffffffffffffffffffffffffffff,
            0x7ffffffffffffffffffffffffffffffe,
        ),
    ),
    (
        (
            127,
            0x7fffffffffffffffffffffffffffffff,
            0x7fffffffffffffffffffffffffffffff,
        ),
        (0x7ffffffffffffffffffffffffffffffe, 0, 1),
        (false, false),
        (1, 0),
        (1, 0),
        (
            0x7fffffffffffffffffffffffffffffff,
            0x7fffffffffffffffffffffffffffffff,
            0,
        ),
    ),
    (
        (
            127,
            0x40000000000000000000000000000000,
            0x7fffffffffffffffffffffffffffffff,
        ),
        (
            0x3fffffffffffffffffffffffffffffff,
            0x40000000000000000000000000000001,
            0x40000000000000000000000000000000,
        ),
        (true, true),
        (0, 0x40000000000000000000000000000000),
        (0x40000000000000000000000000000000, 0),
        (
            0x40000000000000000000000000000000,
            0x7fffffffffffffffffffffffffffffff,
            0x3fffffffffffffffffffffffffffffff,
        ),
    ),
    (
        (127, 0, 0x7fffffffffffffffffffffffffffffff),
        (0x7fffffffffffffffffffffffffffffff, 1, 0),
        (true, false),
        (0, 0),
        (0, 0),
        (
            0,
            0x7fffffffffffffffffffffffffffffff,
            0x7fffffffffffffffffffffffffffffff,
        ),
    ),
    (
        (
            127,
            0x3fffffffffffffffffffffffffffffff,
            0x40000000000000000000000000000000,
        ),
        (
            0x7fffffffffffffffffffffffffffffff,
            0x7fffffffffffffffffffffffffffffff,
            0x40000000000000000000000000000000,
        ),
        (true, false),
        (0, 0x3fffffffffffffffffffffffffffffff),
        (0, 0x3fffffffffffffffffffffffffffffff),
        (
            0,
            0x7fffffffffffffffffffffffffffffff,
            0x7fffffffffffffffffffffffffffffff,
        ),
    ),
    (
        (
            127,
            0x4a98cc2e5d9dc9f81818e811892f902b,
            0x1b7b3ae681e74ef5e8e25d940ed90475,
        ),
        (
            0x66140714df8518ee00fb45a5980894a0,
            0x2f1d9147dbb67b022f368a7d7a568bb6,
            0x657339b64da4cb55e8353137ff708fa7,
        ),
        (false, true),
        (2, 0x13a2566159cf2c0c46542ce96b7d8741),
        (
            0x7fffffffffffffffffffffffffffffff,
            0x66140714df8518ee00fb45a5980894a0,
        ),
        (
            0xa180826018548f00800481008090021,
            0x5bfbfeeeddffcffdf8fafd958fff947f,
            0x51e3f6c8dc7a870df0fab58587f6945e,
        ),
    ),
    (
        (127, 5, 0),
        (5, 5, 0),
        (false, false),
        (0, 0),
        (0, 0),
        (0, 5, 5),
    ),
    (
        (128, 0xffffffffffffffffffffffffffffffff, 1),
        (
            0,
            0xfffffffffffffffffffffffffffffffe,
            0xffffffffffffffffffffffffffffffff,
        ),
        (false, true),
        (0xffffffffffffffffffffffffffffffff, 0),
        (0xffffffffffffffffffffffffffffffff, 0),
        (
            1,
            0xffffffffffffffffffffffffffffffff,
            0xfffffffffffffffffffffffffffffffe,
        ),
    ),
    (
        (
            128,
            0xffffffffffffffffffffffffffffffff,
            0xffffffffffffffffffffffffffffffff,
        ),
        (0xfffffffffffffffffffffffffffffffe, 0, 1),
        (false, false),
        (1, 0),
        (1, 0),
        (
            0xffffffffffffffffffffffffffffffff,
            0xffffffffffffffffffffffffffffffff,
            0,
        ),
    ),
    (
        (
            128,
            0x80000000000000000000000000000000,
            0xffffffffffffffffffffffffffffffff,
        ),
        (
            0x7fffffffffffffffffffffffffffffff,
            0x80000000000000000000000000000001,
            0x80000000000000000000000000000000,
        ),
        (true, true),
        (0, 0x80000000000000000000000000000000),
        (0x80000000000000000000000000000000, 0),
        (
            0x80000000000000000000000000000000,
            0xffffffffffffffffffffffffffffffff,
            0x7fffffffffffffffffffffffffffffff,
        ),
    ),
    (
        (128, 0, 0xffffffffffffffffffffffffffffffff),
        (0xffffffffffffffffffffffffffffffff, 1, 0),
        (true, false),
        (0, 0),
        (0, 0),
        (
            0,
            0xffffffffffffffffffffffffffffffff,
            0xffffffffffffffffffffffffffffffff,
        ),
    ),
    (
        (
            128,
            0x7fffffffffffffffffffffffffffffff,
            0x80000000000000000000000000000000,
        ),
        (
            0xffffffffffffffffffffffffffffffff,
            0xffffffffffffffffffffffffffffffff,
            0x80000000000000000000000000000000,
        ),
        (true, false),
        (0, 0x7fffffffffffffffffffffffffffffff),
        (0, 0x7fffffffffffffffffffffffffffffff),
        (
            0,
            0xffffffffffffffffffffffffffffffff,
            0xffffffffffffffffffffffffffffffff,
        ),
    ),
    (
        (
            128,
            0x6b0d549b6f03675a1600a35a099950d8,
            0x8d116ece1738f7d93d9c172411e20b8f,
        ),
        (
            0xf81ec369863c5f33539cba7e1b7b5c67,
            0xddfbe5cd57ca6f80d8648c35f7b74549,
            0xc6bc6f9dae7671fc5cf28bcca9cd70a8,
        ),
        (true, false),
        (0, 0x6b0d549b6f03675a1600a35a099950d8),
        (0, 0x6b0d549b6f03675a1600a35a099950d8),
        (
            0x901448a070067581400030001800088,
            0xef1d7edf7f3bf7db3f9cb77e19fb5bdf,
            0xe61c3a55783b90832b9cb47e187b5b57,
        ),
    ),
    (
        (128, 5, 0),
        (5, 5, 0),
        (false, false),
        (0, 0),
        (0, 0),
        (0, 5, 5),
    ),
];

/// A width, a word and an amount; then the word shifted left, right, and right as signed.
const SHIFTS: [(u32, u128, u128, u128, u128, u128); 30] = [
    (1, 1, 0, 1, 1, 1),
    (1, 1, 1, 0, 0, 1),
    (1, 1, 0, 1, 1, 1),
    (1, 1, 1, 0, 0, 1),
    (1, 1, 0x80000000000000000000000000000000, 0, 0, 1),
    (4, 9, 0, 9, 9, 9),
    (4, 9, 1, 2, 4, 0xc),
    (4, 9, 3, 8, 1, 0xf),
    (4, 9, 4, 0, 0, 0xf),
    (4, 9, 0x80000000000000000000000000000000, 0, 0, 0xf),
    (8, 0xa9, 0, 0xa9, 0xa9, 0xa9),
    (8, 0xa9, 1, 0x52, 0x54, 0xd4),
    (8, 0xa9, 7, 0x80, 1, 0xff),
    (8, 0xa9, 8, 0, 0, 0xff),
    (8, 0xa9, 0x80000000000000000000000000000000, 0, 0, 0xff),
    (
        64,
        0x97a6b5c4d3e2f1a9,
        0,
        0x97a6b5c4d3e2f1a9,
        0x97a6b5c4d3e2f1a9,
        0x97a6b5c4d3e2f1a9,
    ),
    (
        64,
        0x97a6b5c4d3e2f1a9,
        1,
        0x2f4d6b89a7c5e352,
        0x4bd35ae269f178d4,
        0xcbd35ae269f178d4,
    ),
    (
        64,
        0x97a6b5c4d3e2f1a9,
        0x3f,
        0x8000000000000000,
        1,
        0xffffffffffffffff,
    ),
    (64, 0x97a6b5c4d3e2f1a9, 0x40, 0, 0, 0xffffffffffffffff),
    (
        64,
        0x97a6b5c4d3e2f1a9,
        0x80000000000000000000000000000000,
        0,
        0,
        0xffffffffffffffff,
    ),
    (
        127,
        0x45a3965b1d2e4f8097a6b5c4d3e2f1a9,
        0,
        0x45a3965b1d2e4f8097a6b5c4d3e2f1a9,
        0x45a3965b1d2e4f8097a6b5c4d3e2f1a9,
        0x45a3965b1d2e4f8097a6b5c4d3e2f1a9,
    ),
    (
        127,
        0x45a3965b1d2e4f8097a6b5c4d3e2f1a9,
        1,
        0xb472cb63a5c9f012f4d6b89a7c5e352,
        0x22d1cb2d8e9727c04bd35ae269f178d4,
        0x62d1cb2d8e9727c04bd35ae269f178d4,
    ),
    (
        127,
        0x45a3965b1d2e4f8097a6b5c4d3e2f1a9,
        0x7e,
        0x40000000000000000000000000000000,
        1,
        0x7fffffffffffffffffffffffffffffff,
    ),
    (
        127,
        0x45a3965b1d2e4f8097a6b5c4d3e2f1a9,
        0x7f,
        0,
        0,
        0x7fffffffffffffffffffffffffffffff,
    ),
    (
        127,
        0x45a3965b1d2e4f8097a6b5c4d3e2f1a9,
        0x80000000000000000000000000000000,
        0,
        0,
        0x7fffffffffffffffffffffffffffffff,
    ),
    (
        128,
        0xc5a3965b1d2e4f8097a6b5c4d3e2f1a9,
        0,
        0xc5a3965b1d2e4f8097a6b5c4d3e2f1a9,
        0xc5a3965b1d2e4f8097a6b5c4d3e2f1a9,
        0xc5a3965b1d2e4f8097a6b5c4d3e2f1a9,
    ),
    (
        128,
        0xc5a3965b1d2e4f8097a6b5c4d3e2f1a9,
        1,
        0x8b472cb63a5c9f012f4d6b89a7c5e352,
        0x62d1cb2d8e9727c04bd35ae269f178d4,
        0xe2d1cb2d8e9727c04bd35ae269f178d4,
    ),
    (
        128,
        0xc5a3965b1d2e4f8097a6b5c4d3e2f1a9,
        0x7f,
        0x80000000000000000000000000000000,
        1,
        0xffffffffffffffffffffffffffffffff,
    ),
    (
        128,
        0xc5a3965b1d2e4f8097a6b5c4d3e2f1a9,
        0x80,
        0,
        0,
        0xffffffffffffffffffffffffffffffff,
    ),
    (
        128,
        0xc5a3965b1d2e4f8097a6b5c4d3e2f1a9,
        0x80000000000000000000000000000000,
        0,
        0,
        0xffffffffffffffffffffffffffffffff,
    ),
];

/// A width and a word, a place, and a number of bits; then these bits.
const SELECTS: [(u32, u128, i64, u32, u128); 13] = [
    (8, 0xa5, -3, 8, 0x28),
    (8, 0xa5, -3, 2, 0),
    (8, 0xa5, 7, 1, 1),
    (8, 0xa5, 7, 4, 1),
    (8, 0xa5, 8, 4, 0),
    (8, 0xa5, 2, 3, 1),
    (
        128,
        0xffffffffffffffffffffffffffffffff,
        -1,
        128,
        0xfffffffffffffffffffffffffffffffe,
    ),
    (4, 9, -127, 128, 0x80000000000000000000000000000000),
    (4, 9, -128, 128, 0),
    (4, 9, i64::MAX, 5, 0),
    (4, 9, i64::MIN, 5, 0),
    (128, 0x80000000000000000000000000000000, 127, 1, 1),
    (1, 1, 0, 128, 1),
];

/// A width and a word, another width, a sign; then the word in that width.
const EXTENSIONS: [(u32, u128, u32, bool, u128); 16] = [
    (4, 9, 8, false, 9),
    (4, 9, 8, true, 0xf9),
    (4, 9, 2, false, 1),
    (4, 9, 2, true, 1),
    (4, 5, 8, false, 5),
    (4, 5, 8, true, 5),
    (1, 1, 128, false, 1),
    (1, 1, 128, true, 0xffffffffffffffffffffffffffffffff),
    (128, 0x80000000000000000000000000000000, 1, false, 0),
    (128, 0x80000000000000000000000000000000, 1, true, 0),
    (128, 0x80000000000000000000000000000003, 127, false, 3),
    (128, 0x80000000000000000000000000000003, 127, true, 3),
    (8, 0x80, 128, false, 0x80),
    (8, 0x80, 128, true, 0xffffffffffffffffffffffffffffff80),
    (64, 0x8000000000000000, 65, false, 0x8000000000000000),
    (64, 0x8000000000000000, 65, true, 0x18000000000000000),
];

/// A width, a word and an exponent; then the power.
const POWERS: [(u32, u128, u128, u128); 9] = [
    (4, 2, 3, 8),
    (4, 3, 3, 0xb),
    (8, 3, 0xc8, 0xa1),
    (64, 0xfffffffffffffff1, 7, 0xfffffffff5d0e491),
    (128, 3, 0x51, 0x4d98d5cea149e834b6bf0c69d56d7cc3),
    (
        128,
        0xffffffffffffffffffffffffffffffff,
        0xffffffffffffffffffffffffffffffff,
        0xffffffffffffffffffffffffffffffff,
    ),
    (1, 1, 0, 1),
    (127, 2, 0x7e, 0x40000000000000000000000000000000),
    (127, 2, 0x7f, 0),
];

/// The word of a vector, whose width is from 1 to 128.
fn word(width: u32, value: u128) -> Bits {
    Bits::from_u128(width.clamp(1, 128), value)
}

/// The two words of a pair.
fn words(pair: &Pair) -> Option<(Bits, Bits)>
    ensures { IfSome result (λ p. length p.0 ≡ length p.1) }
{
    let (width, a, b) = pair.0;
    let (a, b) = (word(width, a), word(width, b));
    if a.width() == b.width() {
        Some((a, b))
    } else {
        None
    }
}

fn adds(pair: &Pair) -> bool {
    let Some((a, b)) = words(pair) else {
        return false;
    };
    let sums = (a.add(b).to_u128(), a.sub(b).to_u128(), a.mul(b).to_u128());
    sums == pair.1
}

fn joins(pair: &Pair) -> bool {
    let Some((a, b)) = words(pair) else {
        return false;
    };
    let bitwise = (a.and(b).to_u128(), a.or(b).to_u128(), a.xor(b).to_u128());
    bitwise == pair.5
}

fn compares(pair: &Pair) -> bool {
    let Some((a, b)) = words(pair) else {
        return false;
    };
    (a.less(b, false), a.less(b, true)) == pair.2
}

fn divides(pair: &Pair) -> bool {
    let Some((a, b)) = words(pair) else {
        return false;
    };
    let unsigned = (a.div(b, false).to_u128(), a.rem(b, false).to_u128());
    let signed = (a.div(b, true).to_u128(), a.rem(b, true).to_u128());
    unsigned == pair.3 && signed == pair.4
}

/// The place of the first pair of which a test does not hold.
fn misses(pairs: &[Pair]) -> Option<usize> {
    pairs.iter().position(|pair| !(adds(pair) && joins(pair) && compares(pair) && divides(pair)))
}

#[test]
fn computes(rt: HostRuntime) {
    assert!(rt; misses(&PAIRS).is_none());
}

fn shifts(case: &(u32, u128, u128, u128, u128, u128)) -> bool {
    let (width, a, by, left, right, signed) = *case;
    let a = word(width, a);
    a.shl(by).to_u128() == left && a.shr(by).to_u128() == right && a.sar(by).to_u128() == signed
}

fn selects(case: &(u32, u128, i64, u32, u128)) -> bool {
    let (width, a, from, count, bits) = *case;
    word(width, a).select(from, count.clamp(1, 128)).to_u128() == bits
}

fn extends(case: &(u32, u128, u32, bool, u128)) -> bool {
    let (width, a, wide, signed, bits) = *case;
    word(width, a).extend(wide.clamp(1, 128), signed).to_u128() == bits
}

fn powers(case: &(u32, u128, u128, u128)) -> bool {
    let (width, a, exponent, power) = *case;
    word(width, a).power(exponent).to_u128() == power
}

#[test]
fn moves(rt: HostRuntime) {
    assert!(rt; SHIFTS.iter().all(shifts), "shifts");
    assert!(rt; SELECTS.iter().all(selects), "selects");
    assert!(rt; EXTENSIONS.iter().all(extends), "extensions");
    assert!(rt; POWERS.iter().all(powers), "powers");
}

#[test]
fn looks(rt: HostRuntime) {
    let word = Bits::from_u128(4, 0b1010);
    assert!(rt;
        !word.get(0) && word.get(1) && word.get(3) && !word.get(4) && !word.get(u32::MAX),
        "bits"
    );
    assert!(rt; word.is_negative(true) && !word.is_negative(false), "sign");
    assert!(rt; word.width() == 4 && Bits::from_u128(8, 0x1ff).to_u128() == 0xff);
    let found = [word.inverted(), Bits::from_u128(4, 3).negated()];
    assert!(rt; found == [Bits::from_u128(4, 0b0101), Bits::from_u128(4, 13)]);
}

/// A word with another above it, where both fit 128 bits.
fn appended(low: Bits, high: Bits) -> Option<Bits> {
    if low.width() + high.width() <= 128 {
        Some(low.append(high))
    } else {
        None
    }
}

#[test]
fn appends(rt: HostRuntime) {
    let seven = appended(Bits::from_u128(4, 0b1010), Bits::from_u128(3, 0b110));
    let whole = appended(Bits::from_u128(127, 1), Bits::from_u128(1, 1));
    let wanted = [
        Bits::from_u128(7, 0b110_1010),
        Bits::from_u128(128, 1 << 127 | 1),
    ];
    assert!(rt; [seven, whole] == [Some(wanted[0]), Some(wanted[1])]);
}
