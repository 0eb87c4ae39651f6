//! Statements run by hand, by IEEE 1364-2005 section 9.
ghost use Rattle.std.specs.Prelude.{◌≡◌, ◌+◌, ◌<◌, ◌≤◌, [], ℕ, IfOk, OnOk, true, length};
ghost use Rattle.rr_syntax.specs.View.{plain, plain_arms, plain_list, plain_statement, plain_statements};
ghost use Rattle.rr_expr.specs.Scopes.{range_width};
ghost use Rattle.rr_flat.specs.Shapes.{shape_faults, list_faults, statement_faults, statements_faults, arms_faults};
ghost use Rattle.rr_exec.specs.Work.{Holds};

use rr_bits::Bits;
use rr_exec::{Machine, apply, execute, merged, own_shape};
use rr_expr::{Entity, Env, Scope, shape};
use rr_syntax::{Arm, Expr, Keyword, Mark, Number, Stmt};
use std::alloc::{AllocError, Global};
use std::test::Fail;

macro_rules! name {
    ($name:literal) => {
        Expr::Name { token: 0, name: $name }
    };
}

macro_rules! number {
    ($width:literal, $signed:literal, $value:literal, $any:literal) => {
        Expr::Literal { token: 0, number: Number { width: $width, signed: $signed, value: $value, any: $any, unknown: 0 } }
    };
}

macro_rules! binary {
    ($left:expr, $op:literal, $right:expr) => {
        Expr::Binary { op: Mark($op), left: &$left, right: &$right }
    };
}

macro_rules! assign {
    ($target:expr, $now:literal, $value:expr) => {
        Stmt::Assign { target: &$target, now: $now, value: &$value }
    };
}

/// A name of a signal.
fn declare<'a>(
    scope: &mut Scope<'a>,
    name: &'a str,
    id: u32,
    range: Option<(u32, u32)>,
    signed: bool,
) -> Result<(), AllocError>
    requires { range_width range ≤ 128 }
    ensures { OnOk result ((n : ℕ) → id < n → Holds scope.old n → Holds scope.new n) }
{
    let _ = scope.add(name, Entity::Signal { id, range, signed })?;
    Ok(())
}

/// A name of a memory (section 4.9.3).
fn declare_words<'a>(
    scope: &mut Scope<'a>,
    name: &'a str,
    first: u32,
    low: u32,
    words: u32,
    range: Option<(u32, u32)>,
) -> Result<(), AllocError>
    requires { range_width range ≤ 128 }
    ensures { OnOk result ((n : ℕ) → first + words ≤ n → Holds scope.old n → Holds scope.new n) }
{
    let memory = Entity::Memory {
        first,
        low,
        words,
        range,
        signed: false,
    };
    let _ = scope.add(name, memory)?;
    Ok(())
}

/// `reg signed [3:0] i; reg [7:0] m [2:4];`, numbered in this order.
fn words<'a>(alloc: Global) -> Result<Scope<'a>, AllocError>
    ensures { IfOk result (λ s. Holds s 4) }
{
    let mut scope = Scope::new(alloc);
    declare(&mut scope, "i", 0, Some((3, 0)), true)?;
    declare_words(&mut scope, "m", 1, 2, 3, Some((7, 0)))?;
    Ok(scope)
}

/// `reg [3:0] a; reg [7:0] b; reg c; reg signed [3:0] i;`, numbered in this order.
fn names<'a>(alloc: Global) -> Result<Scope<'a>, AllocError>
    ensures { IfOk result (λ s. Holds s 4) }
{
    let mut scope = Scope::new(alloc);
    declare(&mut scope, "a", 0, Some((3, 0)), false)?;
    declare(&mut scope, "b", 1, Some((7, 0)), false)?;
    declare(&mut scope, "c", 2, None, false)?;
    declare(&mut scope, "i", 3, Some((3, 0)), true)?;
    Ok(scope)
}

/// Whether an expression has a shape.
fn has_shape(expr: &Expr, scope: &Scope) -> bool
    ensures { result ≡ true → shape_faults scope.now (plain expr.now) ≡ [] }
{
    match shape(expr, scope) {
        Ok(_) => true,
        Err(_) => false,
    }
}

/// The sum of four and eight bits has eight.
#[test]
fn shapes(rt: HostRuntime) -> Result<(), Fail> {
    let scope = names(rt.alloc())?;
    let sum = binary!(name!("a"), 14, name!("b"));
    let found = has_shape(&sum, &scope);
    assert!(rt; found);
    if found {
        assert!(rt; own_shape(&sum, &scope).width == 8);
    }
    Ok(())
}

fn have_shapes(list: &[Expr], scope: &Scope) -> bool
    ensures { result ≡ true → list_faults scope.now (plain_list list.now) ≡ [] }
{
    for expr in list.iter() {
        if !has_shape(expr, scope) {
            return false;
        }
    }
    true
}

/// Whether each expression of a statement has one.
#[cycle(shaped)]
#[tactic(auto, using(crate::proofs::Declaring::whole_nodes))]
fn is_shaped(stmt: &Stmt, scope: &Scope) -> bool
    ensures { result ≡ true → statement_faults scope.now (plain_statement stmt.now) ≡ [] }
{
    match stmt {
        Stmt::Null | Stmt::For { .. } => true,
        Stmt::Block { body, .. } => are_shaped(body, scope),
        Stmt::If {
            test,
            yes,
            no: None,
        } => has_shape(test, scope) && is_shaped(yes, scope),
        Stmt::If {
            test,
            yes,
            no: Some(other),
        } => has_shape(test, scope) && is_shaped(yes, scope) && is_shaped(other, scope),
        Stmt::Case { on, arms, .. } => has_shape(on, scope) && arms_are_shaped(arms, scope),
        Stmt::Assign { target, value, .. } => has_shape(target, scope) && has_shape(value, scope),
    }
}

#[cycle(shaped)]
fn are_shaped(body: &[Stmt], scope: &Scope) -> bool
    ensures { result ≡ true → statements_faults scope.now (plain_statements body.now) ≡ [] }
{
    for stmt in body.iter() {
        if !is_shaped(stmt, scope) {
            return false;
        }
    }
    true
}

#[cycle(shaped)]
fn arms_are_shaped(arms: &[Arm], scope: &Scope) -> bool
    ensures { result ≡ true → arms_faults scope.now (plain_arms arms.now) ≡ [] }
{
    for arm in arms.iter() {
        if !have_shapes(arm.labels, scope) {
            return false;
        }
        if !is_shaped(arm.body, scope) {
            return false;
        }
    }
    true
}

fn values_of(alloc: Global, values: [u128; 4]) -> Result<Vec<u128>, AllocError>
    ensures { IfOk result (λ v. length v.items ≡ 4) }
{
    Vec::from_array(alloc, values).map_err(AllocError::from)
}

/// The values of the four signals of a scope after the `=` of a statement, and after its `<=`.
fn run(
    alloc: Global,
    scope: &Scope,
    stmt: &Stmt,
    values: [u128; 4],
) -> Result<(Vec<u128>, Vec<u128>), AllocError>
    requires { Holds scope.now 4 }
{
    let mut machine = Machine {
        env: Env {
            values: values_of(alloc, values)?,
        },
        later: Vec::new(alloc),
        pieces: Vec::new(alloc),
        none: Env {
            values: Vec::new(alloc),
        },
    };
    if is_shaped(stmt, scope) {
        execute(stmt, scope, &mut machine)?;
    }
    let now = machine.env.values.clone()?;
    apply(&mut machine.env.values, machine.later.as_slice());
    let Machine { env, .. } = machine;
    Ok((now, env.values))
}

fn gives(
    alloc: Global,
    scope: &Scope,
    stmt: &Stmt,
    values: [u128; 4],
    now: [u128; 4],
    then: [u128; 4],
) -> Result<bool, AllocError>
    requires { Holds scope.now 4 }
{
    let (first, second) = run(alloc, scope, stmt, values)?;
    Ok(first.as_slice() == now.as_slice() && second.as_slice() == then.as_slice())
}

/// `begin a = b; b = a + 8'd16; end`
const IN_ORDER: Stmt<'static> = Stmt::Block {
    label: None,
    body: &[
        assign!(name!("a"), true, name!("b")),
        assign!(
            name!("b"),
            true,
            binary!(name!("a"), 14, number!(8, false, 16, 0))
        ),
    ],
};

/// `begin a <= b; b <= a; a <= 4'd9; end`
const LATE: Stmt<'static> = Stmt::Block {
    label: None,
    body: &[
        assign!(name!("a"), false, name!("b")),
        assign!(name!("b"), false, name!("a")),
        assign!(name!("a"), false, number!(4, false, 9, 0)),
    ],
};

/// `{c, a} = a + b;`
const CARRY: Stmt<'static> = assign!(
    Expr::Concat {
        parts: &[name!("c"), name!("a")]
    },
    true,
    binary!(name!("a"), 14, name!("b"))
);

/// `b[5:2] <= 4'd9;`, `b[i +: 3] = 3'd7;` and `b[i] <= 1'b1;`
const PART: Stmt<'static> = assign!(
    Expr::Part {
        token: 0,
        name: "b",
        left: &number!(32, true, 5, 0),
        right: &number!(32, true, 2, 0)
    },
    false,
    number!(4, false, 9, 0)
);

const INDEXED: Stmt<'static> = assign!(
    Expr::Indexed {
        token: 0,
        name: "b",
        from: &name!("i"),
        width: &number!(32, true, 3, 0),
        up: true
    },
    true,
    number!(3, false, 5, 0)
);

const BIT: Stmt<'static> = assign!(
    Expr::Bit {
        token: 0,
        name: "b",
        index: &name!("i")
    },
    false,
    number!(1, false, 1, 0)
);

/// `case (a) default: c = 1'b0; 4'd3: c = 1'b1; 4'd3, 4'd5: b = 8'd1; endcase`
const FIRST_ARM: Stmt<'static> = Stmt::Case {
    kind: Keyword::CASE,
    on: &name!("a"),
    arms: &[
        Arm {
            labels: &[],
            colon: false,
            body: &assign!(name!("c"), true, number!(1, false, 0, 0)),
        },
        Arm {
            labels: &[number!(4, false, 3, 0)],
            colon: true,
            body: &assign!(name!("c"), true, number!(1, false, 1, 0)),
        },
        Arm {
            labels: &[number!(4, false, 3, 0), number!(4, false, 5, 0)],
            colon: true,
            body: &assign!(name!("b"), true, number!(8, false, 1, 0)),
        },
    ],
};

/// `casez (a) 4'b1???: b <= 8'd3; 4'b01??: b <= 8'd2; endcase`
const WILD: Stmt<'static> = Stmt::Case {
    kind: Keyword::CASEZ,
    on: &name!("a"),
    arms: &[
        Arm {
            labels: &[number!(4, false, 8, 7)],
            colon: true,
            body: &assign!(name!("b"), false, number!(8, false, 3, 0)),
        },
        Arm {
            labels: &[number!(4, false, 4, 3)],
            colon: true,
            body: &assign!(name!("b"), false, number!(8, false, 2, 0)),
        },
    ],
};

/// `if (i < 4'sd2) c = 1'b1; else c = 1'b0;` and the same with `4'd2`
const SIGNED: Stmt<'static> = Stmt::If {
    test: &binary!(name!("i"), 24, number!(4, true, 2, 0)),
    yes: &assign!(name!("c"), true, number!(1, false, 1, 0)),
    no: Some(&assign!(name!("c"), true, number!(1, false, 0, 0))),
};

const UNSIGNED: Stmt<'static> = Stmt::If {
    test: &binary!(name!("i"), 24, number!(4, false, 2, 0)),
    yes: &assign!(name!("c"), true, number!(1, false, 1, 0)),
    no: Some(&assign!(name!("c"), true, number!(1, false, 0, 0))),
};

/// `b = i;`, `b = i + 4'd0;` and `b = a * a;`
const EXTENDED: Stmt<'static> = assign!(name!("b"), true, name!("i"));

const MIXED: Stmt<'static> = assign!(
    name!("b"),
    true,
    binary!(name!("i"), 14, number!(4, false, 0, 0))
);

const SQUARE: Stmt<'static> = assign!(name!("b"), true, binary!(name!("a"), 16, name!("a")));

/// Without an arm for it and without a `default`, and with a false condition, nothing is done.
const NOTHING: Stmt<'static> = Stmt::If {
    test: &name!("c"),
    yes: &assign!(name!("a"), true, number!(4, false, 7, 0)),
    no: None,
};

/// A statement, the values of `a`, `b`, `c` and `i` before it, after its `=`, and after its `<=`. Past the
/// ends of `b`, where `i` is 7 or less than 0, some of the bits are not there.
type Case = (&'static Stmt<'static>, [u128; 4], [u128; 4], [u128; 4]);

const CASES: [Case; 23] = [
    (&IN_ORDER, [1, 37, 0, 0], [5, 21, 0, 0], [5, 21, 0, 0]),
    (&LATE, [1, 37, 0, 0], [1, 37, 0, 0], [9, 1, 0, 0]),
    (&CARRY, [9, 9, 0, 0], [2, 9, 1, 0], [2, 9, 1, 0]),
    (&PART, [0, 255, 0, 0], [0, 255, 0, 0], [0, 231, 0, 0]),
    (&INDEXED, [0, 0, 0, 4], [0, 80, 0, 4], [0, 80, 0, 4]),
    (&BIT, [0, 0, 0, 6], [0, 0, 0, 6], [0, 64, 0, 6]),
    (&INDEXED, [0, 0, 0, 7], [0, 128, 0, 7], [0, 128, 0, 7]),
    (&INDEXED, [0, 0, 0, 15], [0, 2, 0, 15], [0, 2, 0, 15]),
    (&BIT, [0, 9, 0, 15], [0, 9, 0, 15], [0, 9, 0, 15]),
    (&FIRST_ARM, [3, 0, 0, 0], [3, 0, 1, 0], [3, 0, 1, 0]),
    (&FIRST_ARM, [5, 0, 1, 0], [5, 1, 1, 0], [5, 1, 1, 0]),
    (&FIRST_ARM, [6, 0, 1, 0], [6, 0, 0, 0], [6, 0, 0, 0]),
    (&WILD, [13, 0, 0, 0], [13, 0, 0, 0], [13, 3, 0, 0]),
    (&WILD, [6, 0, 0, 0], [6, 0, 0, 0], [6, 2, 0, 0]),
    (&WILD, [3, 9, 0, 0], [3, 9, 0, 0], [3, 9, 0, 0]),
    (&SIGNED, [0, 0, 0, 15], [0, 0, 1, 15], [0, 0, 1, 15]),
    (&UNSIGNED, [0, 0, 1, 15], [0, 0, 0, 15], [0, 0, 0, 15]),
    (&EXTENDED, [0, 0, 0, 8], [0, 248, 0, 8], [0, 248, 0, 8]),
    (&MIXED, [0, 0, 0, 8], [0, 8, 0, 8], [0, 8, 0, 8]),
    (&SQUARE, [15, 0, 0, 0], [15, 225, 0, 0], [15, 225, 0, 0]),
    (&NOTHING, [1, 2, 0, 4], [1, 2, 0, 4], [1, 2, 0, 4]),
    (&NOTHING, [1, 2, 1, 4], [7, 2, 1, 4], [7, 2, 1, 4]),
    (&Stmt::Null, [1, 2, 3, 4], [1, 2, 3, 4], [1, 2, 3, 4]),
];

#[test]
fn statements_by_hand(rt: HostRuntime) -> Result<(), Fail> {
    let scope = names(rt.alloc())?;
    for (place, case) in CASES.iter().enumerate() {
        assert!(rt;
            gives(rt.alloc(), &scope, case.0, case.1, case.2, case.3)?,
            "{place}"
        );
    }
    Ok(())
}

macro_rules! word {
    ($index:expr) => {
        Expr::Bit { token: 0, name: "m", index: &$index }
    };
}

/// `m[i] <= 8'd9;`
const WORD: Stmt<'static> = assign!(word!(name!("i")), false, number!(8, false, 9, 0));

/// `begin m[i] = m[i] + 8'd1; i = 4'sd4; m[i] <= m[2]; end`: each index as it is when it is taken.
const WORDS: Stmt<'static> = Stmt::Block {
    label: None,
    body: &[
        assign!(
            word!(name!("i")),
            true,
            binary!(word!(name!("i")), 14, number!(8, false, 1, 0))
        ),
        assign!(name!("i"), true, number!(4, true, 4, 0)),
        assign!(word!(name!("i")), false, word!(number!(32, true, 2, 0))),
    ],
};

/// `{m[i], i} = 12'd1202;`: where there is no such word, its bits are left out.
const JOINED: Stmt<'static> = assign!(
    Expr::Concat {
        parts: &[word!(name!("i")), name!("i")]
    },
    true,
    number!(12, false, 1202, 0)
);

/// Statements on `i` and the words 2 to 4 of `m`, the index 1, 5 or below 0 where no word has it.
const CASES_OF_WORDS: [Case; 9] = [
    (&WORD, [2, 1, 2, 3], [2, 1, 2, 3], [2, 9, 2, 3]),
    (&WORD, [4, 1, 2, 3], [4, 1, 2, 3], [4, 1, 2, 9]),
    (&WORD, [1, 1, 2, 3], [1, 1, 2, 3], [1, 1, 2, 3]),
    (&WORD, [5, 1, 2, 3], [5, 1, 2, 3], [5, 1, 2, 3]),
    (&WORD, [13, 1, 2, 3], [13, 1, 2, 3], [13, 1, 2, 3]),
    (&WORDS, [2, 6, 0, 0], [4, 7, 0, 0], [4, 7, 0, 7]),
    (&WORDS, [7, 6, 0, 0], [4, 6, 0, 0], [4, 6, 0, 6]),
    (&JOINED, [3, 0, 0, 0], [2, 0, 75, 0], [2, 0, 75, 0]),
    (&JOINED, [0, 1, 1, 1], [2, 1, 1, 1], [2, 1, 1, 1]),
];

#[test]
fn words_by_hand(rt: HostRuntime) -> Result<(), Fail> {
    let scope = words(rt.alloc())?;
    for (place, case) in CASES_OF_WORDS.iter().enumerate() {
        assert!(rt;
            gives(rt.alloc(), &scope, case.0, case.1, case.2, case.3)?,
            "{place}"
        );
    }
    Ok(())
}

#[test]
fn numbers(rt: HostRuntime) -> Result<(), Fail> {
    assert!(rt; merged(0b1111_0000, 2, Bits::from_u128(4, 0b1010)) == 0b1110_1000);
    assert!(rt; merged(u128::MAX, 127, Bits::from_u128(1, 0)) == u128::MAX >> 1);
    Ok(())
}
