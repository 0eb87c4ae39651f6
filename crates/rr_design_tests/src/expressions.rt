//! Vectors of IEEE 1364-2005 section 5.
use rr_expr::{Entity, Env, ExprFault, Scope, constant, first_token, shape, shape_of, value};
use rr_syntax::{Expr, Mark, Number};
use std::alloc::{AllocError, Global};
use std::test::Fail;

/// A literal: width, sign and number.
type Operand = (u32, bool, u128);

/// A mark, two operands, and the width, the sign and the number of the result.
type Pair = (u8, Operand, Operand, Operand);

/// 7, 2 and 3 as plain decimals, and as words that write their negations.
const SEVEN: Operand = (32, true, 7);

const TWO: Operand = (32, true, 2);

const THREE: Operand = (32, true, 3);

const MINUS_SEVEN: Operand = (32, true, 4294967289);

const MINUS_TWO: Operand = (32, true, 4294967294);

const ARITHMETIC: [Pair; 22] = [
    (14, SEVEN, TWO, (32, true, 9)),
    (14, (4, false, 15), (4, false, 1), (4, false, 0)),
    (14, (4, false, 15), (5, false, 1), (5, false, 16)),
    (14, (4, true, 15), (8, true, 1), (8, true, 0)),
    (14, (4, true, 15), (8, false, 1), (8, false, 16)),
    (15, TWO, SEVEN, (32, true, 4294967291)),
    (15, (4, false, 0), (8, false, 1), (8, false, 255)),
    (16, (4, false, 15), (4, false, 15), (4, false, 1)),
    (16, (4, true, 15), (8, true, 3), (8, true, 253)),
    (17, MINUS_SEVEN, TWO, (32, true, 4294967293)),
    (17, SEVEN, MINUS_TWO, (32, true, 4294967293)),
    (17, MINUS_SEVEN, (32, false, 2), (32, false, 2147483644)),
    (18, MINUS_SEVEN, TWO, (32, true, 4294967295)),
    (18, SEVEN, MINUS_TWO, (32, true, 1)),
    (18, (8, false, 249), (8, false, 2), (8, false, 1)),
    (26, TWO, THREE, (32, true, 8)),
    (26, (4, false, 2), (32, true, 4), (4, false, 0)),
    (26, MINUS_TWO, THREE, (32, true, 4294967288)),
    (21, (4, false, 12), (8, false, 250), (8, false, 8)),
    (22, (4, true, 12), (8, true, 1), (8, true, 253)),
    (23, (4, false, 12), (4, false, 10), (4, false, 6)),
    (41, (4, false, 12), (4, false, 10), (4, false, 9)),
];

const COMPARISONS: [Pair; 22] = [
    (24, (4, true, 15), (4, false, 2), (1, false, 0)),
    (24, (4, true, 15), (4, true, 2), (1, false, 1)),
    (24, (4, true, 15), (8, true, 0), (1, false, 1)),
    (24, (4, false, 15), (8, true, 0), (1, false, 0)),
    (25, (4, false, 15), (8, false, 14), (1, false, 1)),
    (31, (4, true, 8), (4, true, 7), (1, false, 1)),
    (32, (4, true, 8), (4, true, 7), (1, false, 0)),
    (31, (4, false, 8), (4, false, 8), (1, false, 1)),
    (27, (4, true, 15), (8, true, 255), (1, false, 1)),
    (27, (4, false, 15), (8, true, 255), (1, false, 0)),
    (28, (4, true, 15), (8, true, 255), (1, false, 0)),
    (29, (4, false, 5), (8, false, 5), (1, false, 1)),
    (30, (4, false, 5), (8, false, 5), (1, false, 0)),
    (33, (4, false, 9), (2, false, 1), (4, false, 2)),
    (33, (4, false, 9), (128, false, 1 << 127), (4, false, 0)),
    (34, (4, true, 8), (1, false, 1), (4, true, 4)),
    (35, (4, true, 9), (1, true, 1), (4, true, 2)),
    (36, (4, true, 8), (32, true, 1), (4, true, 12)),
    (36, (4, false, 8), (32, true, 1), (4, false, 4)),
    (36, (4, true, 8), (2, true, 3), (4, true, 15)),
    (37, (4, false, 2), (1, false, 0), (1, false, 0)),
    (38, (4, false, 0), (4, true, 8), (1, false, 1)),
];

const UNARY: [(u8, Operand, Operand); 14] = [
    (14, (4, true, 9), (4, true, 9)),
    (15, (4, false, 1), (4, false, 15)),
    (19, (4, false, 8), (1, false, 0)),
    (19, (4, false, 0), (1, false, 1)),
    (20, (4, true, 9), (4, true, 6)),
    (21, (4, false, 15), (1, false, 1)),
    (21, (4, false, 14), (1, false, 0)),
    (39, (4, false, 15), (1, false, 0)),
    (22, (4, false, 4), (1, false, 1)),
    (40, (4, false, 4), (1, false, 0)),
    (23, (4, false, 7), (1, false, 1)),
    (23, (4, false, 6), (1, false, 0)),
    (41, (4, false, 7), (1, false, 0)),
    (42, (128, false, 3), (1, false, 1)),
];

fn literal<'a>(token: u32, operand: &Operand) -> Expr<'a> {
    Expr::Literal {
        token,
        number: Number {
            width: operand.0,
            signed: operand.1,
            value: operand.2,
            any: 0,
            unknown: 0,
        },
    }
}

fn is_constant(expr: &Expr, scope: &Scope, want: &Operand) -> bool {
    match constant(expr, scope) {
        Ok((bits, signed)) => {
            bits.width() == want.0 && signed == want.1 && bits.to_u128() == want.2
        }
        Err(_) => false,
    }
}

fn gives(pair: &Pair, scope: &Scope) -> bool {
    let left = literal(0, &pair.1);
    let right = literal(2, &pair.2);
    let whole = Expr::Binary {
        op: Mark(pair.0),
        left: &left,
        right: &right,
    };
    is_constant(&whole, scope, &pair.3)
}

fn turns(case: &(u8, Operand, Operand), scope: &Scope) -> bool {
    let of = literal(1, &case.1);
    let whole = Expr::Unary {
        op: Mark(case.0),
        of: &of,
    };
    is_constant(&whole, scope, &case.2)
}

#[test]
fn computes(rt: HostRuntime) {
    let scope = Scope::new(rt.alloc());
    assert!(rt;
        ARITHMETIC.iter().position(|pair| !gives(pair, &scope)) == None
            && COMPARISONS.iter().position(|pair| !gives(pair, &scope)) == None
            && UNARY.iter().position(|case| !turns(case, &scope)) == None
    );
}

fn fault_of(op: u8, left: &Operand, right: &Operand, scope: &Scope) -> Option<ExprFault> {
    let left = literal(4, left);
    let right = literal(6, right);
    let whole = Expr::Binary {
        op: Mark(op),
        left: &left,
        right: &right,
    };
    shape(&whole, scope).err()
}

#[test]
fn refuses(rt: HostRuntime) {
    let scope = Scope::new(rt.alloc());
    assert!(rt;
        fault_of(17, &(4, false, 1), &(4, false, 0), &scope) == Some(ExprFault::NotConstant(6))
            && fault_of(18, &SEVEN, &(4, false, 0), &scope) == Some(ExprFault::NotConstant(6))
            && fault_of(26, &TWO, &(4, true, 15), &scope) == Some(ExprFault::NotConstant(6))
    );
    assert!(rt; fault_of(26, &TWO, &(4, false, 15), &scope) == None);
}

/// The three bits down from an index of a signal of eight bits with the value 0xd2, in a range.
fn three_down(
    left: u32,
    right: u32,
    index: u128,
    alloc: Global,
) -> Result<Option<u128>, AllocError> {
    let mut scope = Scope::new(alloc);
    let entity = Entity::Signal {
        id: 0,
        range: Some((left, right)),
        signed: false,
    };
    scope.add("a", entity)?;
    let mut values = Vec::new(alloc);
    values.push(0xd2)?;
    let env = Env { values };
    let from = literal(2, &(32, true, index));
    let width = literal(4, &(32, true, 3));
    let part = Expr::Indexed {
        token: 0,
        name: "a",
        from: &from,
        width: &width,
        up: false,
    };
    match shape(&part, &scope) {
        Ok(shape) if shape.width <= 8 => Ok(Some(value(
            &part,
            &scope,
            &env,
            shape.width,
            false,
        ).to_u128())),
        Ok(_) | Err(_) => Ok(None),
    }
}

/// A range and an index, with the three bits down from there.
const SELECTS: [(u32, u32, u128, u128); 8] = [
    (7, 0, 7, 6),
    (7, 0, 0, 0),
    (7, 0, 1, 4),
    (7, 0, 8, 3),
    (0, 7, 2, 6),
    (0, 7, 0, 1),
    (0, 7, 8, 4),
    (0, 7, 4294967295, 0),
];

#[test]
fn selects(rt: HostRuntime) -> Result<(), Fail> {
    for (left, right, index, expected) in SELECTS.iter() {
        let found = three_down(*left, *right, *index, rt.alloc())?;
        assert!(rt; found == Some(*expected), "[{left}:{right}] at {index}");
    }
    Ok(())
}

/// A memory behind another signal, whose words have eight bits, a sign, and the indices 2 to 4.
fn memory(alloc: Global) -> Result<Scope<'static>, AllocError> {
    let mut scope = Scope::new(alloc);
    let entity = Entity::Memory {
        first: 1,
        low: 2,
        words: 3,
        range: Some((7, 0)),
        signed: true,
    };
    scope.add("m", entity)?;
    Ok(scope)
}

/// The word at an index, in a context of sixteen bits with a sign.
fn word_in_context(index: &Operand, alloc: Global) -> Result<Option<u128>, AllocError> {
    let scope = memory(alloc)?;
    let mut values = Vec::new(alloc);
    values.push(9)?;
    values.push(129)?;
    values.push(2)?;
    values.push(3)?;
    values.push(5)?;
    let env = Env { values };
    let index = literal(2, index);
    let word = Expr::Bit {
        token: 0,
        name: "m",
        index: &index,
    };
    match shape(&word, &scope) {
        Ok(shape) if shape.width == 8 && shape.signed => Ok(Some(value(
            &word, &scope, &env, 16, true,
        ).to_u128())),
        Ok(_) | Err(_) => Ok(None),
    }
}

/// Indices of the three words, and outside: below, above and below 0, also in few bits.
const WORDS: [(Operand, u128); 9] = [
    ((32, true, 2), 65409),
    ((32, true, 3), 2),
    ((32, true, 4), 3),
    ((32, true, 1), 0),
    ((32, true, 5), 0),
    ((32, true, 4294967294), 0),
    ((2, false, 2), 65409),
    ((2, true, 2), 0),
    ((128, false, 1 << 127), 0),
];

#[test]
fn reads_words(rt: HostRuntime) -> Result<(), Fail> {
    for (index, expected) in WORDS.iter() {
        let found = word_in_context(index, rt.alloc())?;
        assert!(rt; found == Some(*expected), "a word that is not {expected}");
    }
    Ok(())
}

/// A memory is read by an index alone, and by none where no signal may stand.
#[test]
fn refuses_memories(rt: HostRuntime) -> Result<(), Fail> {
    let scope = memory(rt.alloc())?;
    let index = literal(8, &(32, true, 3));
    let whole = name!(7, "m");
    let word = Expr::Bit {
        token: 7,
        name: "m",
        index: &index,
    };
    let part = Expr::Part {
        token: 7,
        name: "m",
        left: &index,
        right: &index,
    };
    let other = name!(8, "x");
    let lost = Expr::Bit {
        token: 7,
        name: "m",
        index: &other,
    };
    assert!(rt;
        shape(&whole, &scope).err() == Some(ExprFault::BadRange(7))
            && shape(&part, &scope).err() == Some(ExprFault::BadRange(7))
            && shape(&lost, &scope).err() == Some(ExprFault::UnknownName(8))
            && shape(&word, &scope).err() == None
    );
    assert!(rt;
        constant(&whole, &scope).err() == Some(ExprFault::NotConstant(7))
            && constant(&part, &scope).err() == Some(ExprFault::NotConstant(7))
            && constant(&word, &scope).err() == Some(ExprFault::NotConstant(7))
    );
    Ok(())
}

/// The number that an expression without names has in a context.
fn in_context(expr: &Expr, width: u32, signed: bool, alloc: Global) -> Option<u128> {
    let scope = Scope::new(alloc);
    let env = Env {
        values: Vec::new(alloc),
    };
    match shape(expr, &scope) {
        Ok(shape) if shape == shape_of(expr, &scope) && shape.width <= width && width <= 128 => {
            Some(value(expr, &scope, &env, width, signed).to_u128())
        }
        Ok(_) | Err(_) => None,
    }
}

/// The shift to the right by one of 15 + 1 in four bits, whose carry a wider context keeps.
#[test]
fn carries(rt: HostRuntime) {
    let left = literal(1, &(4, false, 15));
    let right = literal(3, &(4, false, 1));
    let sum = Expr::Binary {
        op: Mark::PLUS,
        left: &left,
        right: &right,
    };
    let by = literal(6, &(32, true, 1));
    let half = Expr::Binary {
        op: Mark::SHIFT_RIGHT,
        left: &sum,
        right: &by,
    };
    assert!(rt;
        first_token(&half) == 1
            && in_context(&half, 4, false, rt.alloc()) == Some(0)
            && in_context(&half, 5, false, rt.alloc()) == Some(8)
    );
}

/// The negation of 1 in four bits.
#[test]
fn negates(rt: HostRuntime) {
    let plain = literal(1, &(4, false, 1));
    let signed = literal(1, &(4, true, 1));
    let minus = Expr::Unary {
        op: Mark::MINUS,
        of: &plain,
    };
    let minus_signed = Expr::Unary {
        op: Mark::MINUS,
        of: &signed,
    };
    assert!(rt;
        in_context(&minus, 8, false, rt.alloc()) == Some(255)
            && in_context(&minus_signed, 4, true, rt.alloc()) == Some(15)
            && in_context(&minus_signed, 8, true, rt.alloc()) == Some(255)
    );
}

/// Two copies of two bits.
#[test]
fn repeats(rt: HostRuntime) {
    let count = literal(1, &TWO);
    let parts = [literal(3, &(2, true, 1))];
    let copies = Expr::Repeat {
        count: &count,
        parts: &parts,
    };
    let scope = Scope::new(rt.alloc());
    assert!(rt; is_constant(&copies, &scope, &(4, false, 5)));
}

/// Branches of three widths, of which one is unsigned.
#[test]
fn chooses(rt: HostRuntime) {
    let test = literal(0, &(1, false, 1));
    let other = literal(2, &(1, false, 0));
    let four = literal(4, &(4, true, 15));
    let six = literal(6, &(6, true, 63));
    let eight = literal(8, &(8, false, 3));
    let inner = Expr::Cond {
        test: &other,
        yes: &four,
        no: &six,
    };
    let outer = Expr::Cond {
        test: &test,
        yes: &inner,
        no: &eight,
    };
    let scope = Scope::new(rt.alloc());
    assert!(rt;
        is_constant(&inner, &scope, &(6, true, 63)) && is_constant(&outer, &scope, &(8, false, 63))
    );
}

/// A digit x counts as 0: `&4'b1x11` and `|4'bx000`.
#[test]
fn unknown_digits(rt: HostRuntime) {
    let number = Number {
        width: 4,
        signed: false,
        value: 11,
        any: 0,
        unknown: 4,
    };
    let digits = Expr::Literal { token: 1, number };
    let all = Expr::Unary {
        op: Mark::AND,
        of: &digits,
    };
    let some = Expr::Unary {
        op: Mark::OR,
        of: &digits,
    };
    let scope = Scope::new(rt.alloc());
    assert!(rt;
        is_constant(&all, &scope, &(1, false, 0)) && is_constant(&some, &scope, &(1, false, 1))
    );
}
