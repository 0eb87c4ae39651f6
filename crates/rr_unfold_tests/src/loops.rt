//! Loops of texts, turn by turn (IEEE 1364-2005 section 9.6).
ghost use Rattle.std.specs.Prelude.{◌<◌, ◌^◌, length, IfOk};

use crate::literals::add_literals;
use bumpalo::Bump;
use rr_declarations::open_head;
use rr_expr::Scope;
use rr_flat::{FlatFault, Limit};
use rr_lex::lex;
use rr_loop_rules::loop_names;
use rr_parse::parse;
use rr_syntax::{Item, Module, Stmt, Token};
use rr_unfold::{Counts, form_laws, limit_laws, loop_free_laws, meaning_laws, unfolded};
use std::alloc::Global;
use std::test::Fail;

const START: &str =
    "module m(input c, output reg q); parameter N = 3; parameter [3:0] M = 9; parameter signed [3:0] S = -2; integer i, j; reg [7:0] a, b; always @(posedge c) ";

/// A statement, the turns of its loops, the tokens of the bodies of these, and the literals of the statement
/// without loops.
type Case = (&'static str, u64, u64, &'static [u128]);

const CASES: [Case; 12] = [
    // Parity.
    (
        "begin q = 0; for (i = 0; i < 8; i = i + 1) q = q ^ a[i]; end",
        8,
        72,
        &[0, 0, 1, 2, 3, 4, 5, 6, 7],
    ),
    // A loop in a loop, whose first value is that of the outer one.
    (
        "for (i = 0; i < 2; i = i + 1) for (j = i; j < 2; j = j + 1) a[i * 2 + j] <= c;",
        5,
        87,
        &[0, 2, 0, 0, 2, 1, 1, 2, 1],
    ),
    // No turns, and none of a loop inside.
    ("for (i = 8; i < 8; i = i + 1) a[i] <= c;", 0, 0, &[]),
    (
        "for (i = 0; i < 2; i = i + 1) for (j = 0; 0; j = j) a[i] <= c;",
        2,
        38,
        &[],
    ),
    // Parameters as bounds: one of 4 bits without a sign is 9, one with a sign -2.
    ("for (i = 0; i < N; i = i + 1) ;", 3, 3, &[]),
    ("for (i = M; i < 11; i = i + 1) a[i] <= c;", 2, 14, &[9, 10]),
    (
        "for (i = S; i < 1; i = i + 1) if (i == 0) a = i;",
        3,
        30,
        &[
            4294967294, 0, 4294967294, 4294967295, 0, 4294967295, 0, 0, 0,
        ],
    ),
    // Down, and by a product.
    (
        "for (i = 2; i >= 0; i = i - 1) a[i] <= c;",
        3,
        21,
        &[2, 1, 0],
    ),
    (
        "for (i = 1; i < 100; i = i * 4) a <= i;",
        4,
        16,
        &[1, 4, 16, 64],
    ),
    // The inner name is used again behind its loop, and the test is true where any bit is.
    (
        "begin for (i = 2; i; i = i - 1) a <= i; for (i = 0; i < 1; i = i + 1) b <= i; end",
        3,
        12,
        &[2, 1, 0],
    ),
    // Labels, and both parts of an `if`.
    (
        "for (i = 0; i < 2; i = i + 1) case (a) i: b <= i; default: if (b[i]) q <= 1; else q <= 0; endcase",
        2,
        58,
        &[0, 0, 0, 1, 0, 1, 1, 1, 1, 0],
    ),
    // No loop.
    ("if (a[1]) q <= 0;", 0, 0, &[1, 0]),
];

/// The limit on tokens, a statement, and what refuses it.
type Wrong = (Option<u64>, &'static str, FlatFault);

const WRONG: [Wrong; 6] = [
    // A step of 0.
    (
        None,
        "for (i = 0; i < 1; i = i) ;",
        FlatFault::TooMany(Limit::Turns, 65537),
    ),
    (
        None,
        "for (i = 0; i < 65537; i = i + 1) ;",
        FlatFault::TooMany(Limit::Turns, 65537),
    ),
    (
        None,
        "for (i = 0; i < 2; i = i + 1) for (j = 0; j < 32768; j = j + 1) ;",
        FlatFault::TooMany(Limit::Turns, 65537),
    ),
    (
        Some(20),
        "for (i = 0; i < 4; i = i + 1) a[i] <= c;",
        FlatFault::TooMany(Limit::Unfolded, 21),
    ),
    (
        Some(65535),
        "for (i = 0; i < 65537; i = i + 1) ;",
        FlatFault::TooMany(Limit::Unfolded, 65536),
    ),
    // Of the two limits that of the turns comes first.
    (
        Some(65536),
        "for (i = 0; i < 65537; i = i + 1) ;",
        FlatFault::TooMany(Limit::Turns, 65537),
    ),
];

/// The text before a place that is wrong, the text from there on, and the number of its refusal.
const AT: [(&str, &str, u32); 6] = [
    // A head is read where there is no turn.
    ("for (i = 0; ", "a < 8; i = i + 1) ;", 13),
    ("for (i = 0; 0; i = ", "a) ;", 13),
    ("for (i = ", "a; 0; i = i + 1) ;", 13),
    ("for (i = 0; i < 2; ", "j = i + 1) ;", 37),
    ("for (", "k = 0; k < 2; k = k + 1) ;", 37),
    (
        "for (i = 0; i < 2; i = i + 1) for (j = 0; ",
        "b; j = j + 1) ;",
        13,
    ),
];

/// The tokens of a text.
fn tokens_of<'a>(text: &str, arena: &'a Bump) -> Result<&'a [Token<'a>], Fail>
    ensures { IfOk result (λ tokens. length tokens.now < 2 ^ 32) }
{
    if text.len() > 1_000_000 {
        return Err(Fail::from("a text too long"));
    }
    match lex(text.as_bytes(), arena) {
        Err(_) => Err(Fail::from("no tokens")),
        Ok(tokens) => Ok(tokens),
    }
}

/// The module of a text.
fn module_of<'a>(text: &str, arena: &'a Bump) -> Result<Module<'a>, Fail> {
    let tokens = tokens_of(text, arena)?;
    let Ok(source) = parse(tokens, arena) else {
        return Err(Fail::from("no tree"));
    };
    let Some(module) = source.modules.first() else {
        return Err(Fail::from("no module"));
    };
    Ok(*module)
}

/// The body of the last `always` of a module.
fn body_of<'a>(module: &Module<'a>) -> Result<&'a Stmt<'a>, Fail> {
    match module.items.last() {
        Some(Item::Always { body, .. }) => Ok(*body),
        _ => Err(Fail::from("no always")),
    }
}

/// A statement, or the beginning of one, behind the declarations.
fn text_of(alloc: Global, stmt: &str) -> Result<String<Global>, Fail> {
    let mut text = String::new(alloc);
    text.push_str(START)?;
    text.push_str(stmt)?;
    Ok(text)
}

/// A statement without loops with the counts of its loops, or what refuses it.
fn answer<'a>(
    alloc: Global,
    text: &str,
    limit: Option<u64>,
    arena: &'a Bump,
) -> Result<Result<(&'a Stmt<'a>, Counts), FlatFault>, Fail> {
    let mut whole = text_of(alloc, text)?;
    whole.push_str(" endmodule")?;
    let module = module_of(whole.as_str(), arena)?;
    let names = loop_names(alloc, &module)?;
    let Ok(head) = open_head(alloc, 0, 0, 0, &Scope::new(alloc), &module) else {
        return Err(Fail::from("no head"));
    };
    let body = body_of(&module)?;
    let mut counts = Counts::none();
    match unfolded(body, &names, &head.scope, limit, &mut counts, arena, alloc) {
        Ok(stmt) => Ok(Ok((stmt, counts))),
        Err(fault) => Ok(Err(fault)),
    }
}

#[test]
fn loops_of_texts(rt: HostRuntime) -> Result<(), Fail> {
    // The laws hold also where nothing is asked of them.
    form_laws();
    loop_free_laws();
    limit_laws();
    meaning_laws();
    let arena = Bump::new(rt.alloc());
    for (text, turns, tokens, literals) in CASES {
        let Ok((stmt, counts)) = answer(rt.alloc(), text, Some(tokens), &arena)? else {
            return Err(Fail::from("a loop is refused"));
        };
        let due = Counts { turns, tokens };
        assert!(rt; counts == due);
        let mut found = Vec::new(rt.alloc());
        add_literals(stmt, &mut found)?;
        assert!(rt; found.as_slice() == literals);
    }
    Ok(())
}

#[test]
fn loops_past_limits(rt: HostRuntime) -> Result<(), Fail> {
    for (limit, text, due) in WRONG {
        let arena = Bump::new(rt.alloc());
        let Err(fault) = answer(rt.alloc(), text, limit, &arena)? else {
            return Err(Fail::from("a loop is not refused"));
        };
        assert!(rt; fault == due);
    }
    let arena = Bump::new(rt.alloc());
    let most = answer(
        rt.alloc(),
        "for (i = 0; i < 65536; i = i + 1) ;",
        Some(65536),
        &arena,
    )?;
    assert!(rt; most.is_ok());
    Ok(())
}

/// A statement of two parts, or what refuses it.
fn faulty<'a>(
    alloc: Global,
    before: &str,
    after: &str,
    arena: &'a Bump,
) -> Result<Result<(&'a Stmt<'a>, Counts), FlatFault>, Fail> {
    let mut text = String::new(alloc);
    text.push_str(before)?;
    text.push_str(after)?;
    answer(alloc, text.as_str(), None, arena)
}

#[test]
fn heads_with_faults(rt: HostRuntime) -> Result<(), Fail> {
    let arena = Bump::new(rt.alloc());
    for (before, after, number) in AT {
        let start = text_of(rt.alloc(), before)?;
        let at = tokens_of(start.as_str(), &arena)?.len() as u32;
        let Err(fault) = faulty(rt.alloc(), before, after, &arena)? else {
            return Err(Fail::from("a head is not refused"));
        };
        assert!(rt; (fault.number(), fault.token()) == (number, at));
    }
    Ok(())
}
