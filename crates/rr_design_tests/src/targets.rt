//! Bits of names and selects, by IEEE 1364-2005 sections 5.2.1 and 5.2.2.
use rr_expr::{Entity, Env, Scope, shape};
use rr_named_bits::{
    Piece, Reach, Write, add_named_bits, add_pieces, add_target_reads, add_writes,
};
use rr_syntax::{Expr, Number};
use std::alloc::{AllocError, Global};
use std::test::Fail;

macro_rules! number {
    ($value:literal) => {
        Expr::Literal { token: 0, number: Number { width: 32, signed: true, value: $value, any: 0, unknown: 0 } }
    };
}

/// `d[i]`, `u[2:5]`, `u[i +: 3]`, `{d[7:6], c}` and `{d[i], c}`.
const BIT: Expr<'static> = Expr::Bit {
    token: 0,
    name: "d",
    index: &name!(0, "i"),
};

const PART: Expr<'static> = Expr::Part {
    token: 0,
    name: "u",
    left: &number!(2),
    right: &number!(5),
};

const UP: Expr<'static> = Expr::Indexed {
    token: 0,
    name: "u",
    from: &name!(0, "i"),
    width: &number!(3),
    up: true,
};

const PAIR: Expr<'static> = Expr::Concat {
    parts: &[
        Expr::Part {
            token: 0,
            name: "d",
            left: &number!(7),
            right: &number!(6),
        },
        name!(0, "c"),
    ],
};

const MIXED: Expr<'static> = Expr::Concat {
    parts: &[
        Expr::Bit {
            token: 0,
            name: "d",
            index: &name!(0, "i"),
        },
        name!(0, "c"),
    ],
};

/// `m[i]`, `m[3]`, `m[9]` and `{m[i], c}`.
const WORD: Expr<'static> = Expr::Bit {
    token: 0,
    name: "m",
    index: &name!(0, "i"),
};

const THIRD: Expr<'static> = Expr::Bit {
    token: 0,
    name: "m",
    index: &number!(3),
};

const OUTSIDE: Expr<'static> = Expr::Bit {
    token: 0,
    name: "m",
    index: &number!(9),
};

const WORD_AND_BIT: Expr<'static> = Expr::Concat {
    parts: &[
        Expr::Bit {
            token: 0,
            name: "m",
            index: &name!(0, "i"),
        },
        name!(0, "c"),
    ],
};

/// `wire [7:0] d; wire [0:7] u; wire c; wire signed [3:0] i; reg [7:0] m [2:5];`, numbered in this
/// order.
fn names<'a>(alloc: Global) -> Result<Scope<'a>, AllocError> {
    let mut scope = Scope::new(alloc);
    let _ = scope.add(
        "d",
        Entity::Signal {
            id: 0,
            range: Some((7, 0)),
            signed: false,
        },
    )?;
    let _ = scope.add(
        "u",
        Entity::Signal {
            id: 1,
            range: Some((0, 7)),
            signed: false,
        },
    )?;
    let _ = scope.add(
        "c",
        Entity::Signal {
            id: 2,
            range: None,
            signed: false,
        },
    )?;
    let _ = scope.add(
        "i",
        Entity::Signal {
            id: 3,
            range: Some((3, 0)),
            signed: true,
        },
    )?;
    let _ = scope.add(
        "m",
        Entity::Memory {
            first: 4,
            low: 2,
            words: 4,
            range: Some((7, 0)),
            signed: false,
        },
    )?;
    Ok(scope)
}

/// The pieces of a target where `i` has a value.
fn pieces(alloc: Global, target: &Expr, i: u128) -> Result<Vec<Piece>, AllocError> {
    let scope = names(alloc)?;
    let mut values = Vec::new(alloc);
    for _ in 0..3 {
        values.push(0)?;
    }
    values.push(i)?;
    let env = Env { values };
    let mut list = Vec::new(alloc);
    if let Ok(_) = shape(target, &scope) {
        add_pieces(&mut list, target, &scope, &env)?;
    }
    Ok(list)
}

/// What it may write, the bits that it reads as an expression, and those of its indices.
fn texts(alloc: Global, target: &Expr) -> Result<(Vec<Write>, Vec<Reach>, Vec<Reach>), AllocError> {
    let scope = names(alloc)?;
    let mut writes = Vec::new(alloc);
    let mut named = Vec::new(alloc);
    let mut indices = Vec::new(alloc);
    if let Ok(_) = shape(target, &scope) {
        add_writes(alloc, &mut writes, target, &scope)?;
        add_named_bits(alloc, &mut named, target, &scope)?;
        add_target_reads(alloc, &mut indices, target, &scope)?;
    }
    Ok((writes, named, indices))
}

const fn piece(signal: u32, width: u32, from: i64, count: u32) -> Piece {
    Piece {
        signal,
        width,
        from,
        count,
    }
}

const fn one(piece: Piece) -> Reach {
    Reach { piece, words: 1 }
}

const fn certain(piece: Piece) -> Write {
    Write {
        reach: one(piece),
        certain: true,
    }
}

#[test]
fn in_an_environment(rt: HostRuntime) -> Result<(), Fail> {
    let alloc = rt.alloc();
    assert!(rt;
        pieces(alloc, &BIT, 5)?.as_slice() == [piece(0, 8, 5, 1)].as_slice()
            && pieces(alloc, &BIT, 15)?.as_slice() == [piece(0, 8, -1, 1)].as_slice()
            && pieces(alloc, &PART, 0)?.as_slice() == [piece(1, 8, 2, 4)].as_slice()
    );
    assert!(rt;
        pieces(alloc, &UP, 1)?.as_slice() == [piece(1, 8, 4, 3)].as_slice()
            && pieces(alloc, &UP, 6)?.as_slice() == [piece(1, 8, -1, 3)].as_slice()
            && pieces(alloc, &PAIR, 0)?.as_slice()
                == [piece(0, 8, 6, 2), piece(2, 1, 0, 1)].as_slice()
            && piece(1, 8, -1, 3).range() == (0, 2)
    );
    assert!(rt; piece(0, 8, 6, 4).range() == (6, 8));
    Ok(())
}

#[test]
fn whatever_the_values(rt: HostRuntime) -> Result<(), Fail> {
    let alloc = rt.alloc();
    let (writes, named, indices) = texts(alloc, &MIXED)?;
    let first = Write {
        reach: one(piece(0, 8, 0, 8)),
        certain: false,
    };
    let second = certain(piece(2, 1, 0, 1));
    let index = one(piece(3, 4, 0, 4));
    assert!(rt;
        writes.as_slice() == [first, second].as_slice()
            && named.as_slice() == [first.reach, index, second.reach].as_slice()
            && indices.as_slice() == [index].as_slice()
    );
    let (writes, named, indices) = texts(alloc, &PAIR)?;
    assert!(rt;
        writes.len() == 2
            && named.as_slice() == [one(piece(0, 8, 6, 2)), one(piece(2, 1, 0, 1))].as_slice()
            && indices.is_empty()
    );
    Ok(())
}

#[test]
fn words_in_an_environment(rt: HostRuntime) -> Result<(), Fail> {
    let alloc = rt.alloc();
    assert!(rt;
        pieces(alloc, &WORD, 2)?.as_slice() == [piece(4, 8, 0, 8)].as_slice()
            && pieces(alloc, &WORD, 5)?.as_slice() == [piece(7, 8, 0, 8)].as_slice()
            && pieces(alloc, &THIRD, 0)?.as_slice() == [piece(5, 8, 0, 8)].as_slice()
    );
    // Below, above, and below 0: as many places, without a bit.
    let none = Piece::absent(8);
    assert!(rt;
        pieces(alloc, &WORD, 1)?.as_slice() == [none].as_slice()
            && pieces(alloc, &WORD, 6)?.as_slice() == [none].as_slice()
            && pieces(alloc, &WORD, 13)?.as_slice() == [none].as_slice()
            && pieces(alloc, &OUTSIDE, 0)?.as_slice() == [none].as_slice()
    );
    assert!(rt;
        pieces(alloc, &WORD_AND_BIT, 4)?.as_slice()
            == [piece(6, 8, 0, 8), piece(2, 1, 0, 1)].as_slice()
    );
    Ok(())
}

#[test]
fn words_whatever_the_values(rt: HostRuntime) -> Result<(), Fail> {
    let alloc = rt.alloc();
    let all = Reach {
        piece: piece(4, 8, 0, 8),
        words: 4,
    };
    let index = one(piece(3, 4, 0, 4));
    let (writes, named, indices) = texts(alloc, &WORD_AND_BIT)?;
    let first = Write {
        reach: all,
        certain: false,
    };
    let second = certain(piece(2, 1, 0, 1));
    assert!(rt;
        writes.as_slice() == [first, second].as_slice()
            && named.as_slice() == [all, index, second.reach].as_slice()
            && indices.as_slice() == [index].as_slice()
    );
    let (writes, named, indices) = texts(alloc, &THIRD)?;
    let third = certain(piece(5, 8, 0, 8));
    assert!(rt;
        writes.as_slice() == [third].as_slice()
            && named.as_slice() == [third.reach].as_slice()
            && indices.is_empty()
    );
    let (writes, named, indices) = texts(alloc, &OUTSIDE)?;
    let outside = certain(Piece::absent(8));
    assert!(rt;
        writes.as_slice() == [outside].as_slice()
            && named.as_slice() == [outside.reach].as_slice()
            && indices.is_empty()
    );
    // The memory by itself has no value, and so no bits.
    let (writes, named, indices) = texts(alloc, &name!(0, "m"))?;
    assert!(rt; writes.is_empty() && named.is_empty() && indices.is_empty());
    Ok(())
}
