//! Tokens with their spans, faults of texts, texts of literals, and patched texts.

ghost use Rattle.std.specs.Prelude.{◌≤◌, length};

use bumpalo::Bump;
use rr_lex::{TextFault, lex, number_text, read_number};
use rr_syntax::{Keyword, Kind, Mark, Number, Token};
use std::alloc::{AllocError, Global};
use std::test::Fail;

fn same(found: Kind, wanted: Kind) -> bool {
    match (found, wanted) {
        (Kind::Name(a), Kind::Name(b)) => a == b,
        (Kind::System(a), Kind::System(b)) => a == b,
        (Kind::Number(a), Kind::Number(b)) => a == b,
        (Kind::Keyword(a), Kind::Keyword(b)) => a == b,
        (Kind::Mark(a), Kind::Mark(b)) => a == b,
        _ => false,
    }
}

/// Whether a text has these tokens with these spans.
fn lexes(alloc: Global, text: &[u8], wanted: &[(Kind, u32, u32)]) -> bool
    requires { length text.now ≤ 1048576 }
{
    let arena = Bump::new(alloc);
    match lex(text, &arena) {
        Ok(tokens) => {
            if tokens.len() != wanted.len() {
                return false;
            }
            for (token, (kind, start, end)) in tokens.iter().zip(wanted) {
                if !same(token.kind, *kind)
                    || token.span.start != *start
                    || token.span.end != *end
                {
                    return false;
                }
            }
            true
        }
        Err(_) => false,
    }
}

fn fails(alloc: Global, text: &[u8], wanted: TextFault) -> bool
    requires { length text.now ≤ 1048576 }
{
    let arena = Bump::new(alloc);
    match lex(text, &arena) {
        Ok(_) => false,
        Err(fault) => fault == wanted,
    }
}

fn number(width: u32, signed: bool, value: u128, any: u128, unknown: u128) -> Number {
    Number {
        width,
        signed,
        value,
        any,
        unknown,
    }
}

/// Texts with the width, sign, value and don't-care and unknown bits of the number.
const NUMBERS: [(&[u8], (u32, bool, u128, u128, u128)); 20] = [
    (b"8'd300", (8, false, 44, 0, 0)),
    (b"'h1F", (32, false, 31, 0, 0)),
    (b"4 'b 1x0z", (4, false, 8, 1, 4)),
    (b"3'sd7", (3, true, 7, 0, 0)),
    (b"3'Sd7", (3, true, 7, 0, 0)),
    (b"1_000", (32, true, 1000, 0, 0)),
    (b"12'hx", (12, false, 0, 0, 4095)),
    (b"4'bz1", (4, false, 1, 14, 0)),
    (b"'o17", (32, false, 15, 0, 0)),
    (b"8'hx?", (8, false, 0, 15, 240)),
    (b"'dx_", (32, false, 0, 0, 4294967295)),
    (b"6'DZ", (6, false, 0, 63, 0)),
    (b"9'o7X", (9, false, 56, 0, 7)),
    (b"2'o7", (2, false, 3, 0, 0)),
    (b"4'bX1?0", (4, false, 4, 2, 8)),
    (b"4294967295", (32, true, 4294967295, 0, 0)),
    (b"12\n'h\t1_F", (12, false, 31, 0, 0)),
    (b"'hFFFF_ffff", (32, false, 4294967295, 0, 0)),
    (
        b"128'd340282366920938463463374607431768211455",
        (128, false, 340282366920938463463374607431768211455, 0, 0),
    ),
    (
        b"128'hz",
        (128, false, 0, 340282366920938463463374607431768211455, 0),
    ),
];

#[test]
fn reads_numbers(rt: HostRuntime) -> Result<(), Fail> {
    for &(text, (width, signed, value, any, unknown)) in NUMBERS.iter() {
        assert!(rt; read_number(text) == Some(number(width, signed, value, any, unknown)));
    }
    Ok(())
}

/// Texts that are no number.
const NO_NUMBERS: &[&[u8]] = &[
    b"",
    b"2'd",
    b"0'd1",
    b"129'd1",
    b"128'd340282366920938463463374607431768211456",
    b"99999999999",
    b"4294967296",
    b"'h100000000",
    b"'hx00000000",
    b"4'd_1",
    b"4'dxx",
    b"4'b2",
    b"a",
    b"4'b1 ",
];

#[test]
fn refuses_numbers(rt: HostRuntime) -> Result<(), Fail> {
    for text in NO_NUMBERS.iter() {
        assert!(rt; read_number(text).is_none());
    }
    Ok(())
}

/// Names and keywords with their tokens.
const NAMES: [(&[u8], &[(Kind, u32, u32)]); 5] = [
    (
        b"\\a+b c",
        &[(Kind::Name("a+b"), 0, 4), (Kind::Name("c"), 5, 6)],
    ),
    (b"\\module ", &[(Kind::Name("module"), 0, 7)]),
    (b"modules", &[(Kind::Name("modules"), 0, 7)]),
    (
        b"pulsestyle_ondetect",
        &[(Kind::Keyword(Keyword::PULSESTYLE_ONDETECT), 0, 19)],
    ),
    (
        b"$signed(",
        &[
            (Kind::System("signed"), 0, 7),
            (Kind::Mark(Mark::OPEN_PARENTHESIS), 7, 8),
        ],
    ),
];

#[test]
fn reads_names_and_keywords(rt: HostRuntime) -> Result<(), Fail> {
    for &(text, wanted) in NAMES.iter() {
        if text.len() <= 1048576 {
            assert!(rt; lexes(rt.alloc(), text, wanted));
        }
    }
    Ok(())
}

/// Marks with their tokens.
const MARKS: [(&[u8], &[(Kind, u32, u32)]); 3] = [
    (
        b"a<=b<<<c",
        &[
            (Kind::Name("a"), 0, 1),
            (Kind::Mark(Mark::LESS_OR_EQUAL), 1, 3),
            (Kind::Name("b"), 3, 4),
            (Kind::Mark(Mark::SIGNED_SHIFT_LEFT), 4, 7),
            (Kind::Name("c"), 7, 8),
        ],
    ),
    (
        b"@(*)",
        &[
            (Kind::Mark(Mark::AT), 0, 1),
            (Kind::Mark(Mark::OPEN_PARENTHESIS), 1, 2),
            (Kind::Mark(Mark::STAR), 2, 3),
            (Kind::Mark(Mark::CLOSE_PARENTHESIS), 3, 4),
        ],
    ),
    (
        b"( *)",
        &[
            (Kind::Mark(Mark::OPEN_PARENTHESIS), 0, 1),
            (Kind::Mark(Mark::STAR), 2, 3),
            (Kind::Mark(Mark::CLOSE_PARENTHESIS), 3, 4),
        ],
    ),
];

#[test]
fn reads_marks(rt: HostRuntime) -> Result<(), Fail> {
    for &(text, wanted) in MARKS.iter() {
        if text.len() <= 1048576 {
            assert!(rt; lexes(rt.alloc(), text, wanted));
        }
    }
    Ok(())
}

/// The number of `4'd3`.
const THREE: Number = Number {
    width: 4,
    signed: false,
    value: 3,
    any: 0,
    unknown: 0,
};

/// Numbers beside other tokens.
const NUMBERS_AMONG_TOKENS: [(&[u8], &[(Kind, u32, u32)]); 3] = [
    (
        b"4'd3else",
        &[
            (Kind::Number(THREE), 0, 4),
            (Kind::Keyword(Keyword::ELSE), 4, 8),
        ],
    ),
    (
        b"4'dx1",
        &[
            (
                Kind::Number(Number {
                    width: 4,
                    signed: false,
                    value: 0,
                    any: 0,
                    unknown: 15,
                }),
                0,
                4,
            ),
            (
                Kind::Number(Number {
                    width: 32,
                    signed: true,
                    value: 1,
                    any: 0,
                    unknown: 0,
                }),
                4,
                5,
            ),
        ],
    ),
    (
        b"2 'b\t1 ~^^~",
        &[
            (
                Kind::Number(Number {
                    width: 2,
                    signed: false,
                    value: 1,
                    any: 0,
                    unknown: 0,
                }),
                0,
                6,
            ),
            (Kind::Mark(Mark::XNOR), 7, 9),
            (Kind::Mark(Mark::XNOR_REVERSED), 9, 11),
        ],
    ),
];

#[test]
fn reads_numbers_among_tokens(rt: HostRuntime) -> Result<(), Fail> {
    for &(text, wanted) in NUMBERS_AMONG_TOKENS.iter() {
        if text.len() <= 1048576 {
            assert!(rt; lexes(rt.alloc(), text, wanted));
        }
    }
    Ok(())
}

/// Comments and directives with the tokens beside them.
const SKIPPED: [(&[u8], &[(Kind, u32, u32)]); 6] = [
    (
        b"(* x *)3",
        &[(
            Kind::Number(Number {
                width: 32,
                signed: true,
                value: 3,
                any: 0,
                unknown: 0,
            }),
            7,
            8,
        )],
    ),
    (b"(**)", &[]),
    (b"/* * */ // the end", &[]),
    (b"/*/ */\\b//", &[(Kind::Name("b//"), 6, 10)]),
    (b"`timescale 1ns\n4'd3", &[(Kind::Number(THREE), 15, 19)]),
    (b"`resetall", &[]),
];

#[test]
fn skips_comments_and_directives(rt: HostRuntime) -> Result<(), Fail> {
    for &(text, wanted) in SKIPPED.iter() {
        if text.len() <= 1048576 {
            assert!(rt; lexes(rt.alloc(), text, wanted));
        }
    }
    Ok(())
}

/// Whether each of these texts has its first fault.
fn all_fail(alloc: Global, cases: &[(&[u8], TextFault)]) -> bool {
    for &(text, wanted) in cases {
        if text.len() <= 1048576 && !fails(alloc, text, wanted) {
            return false;
        }
    }
    true
}

/// Texts with a byte that begins no token.
const BAD_BYTES: [(&[u8], TextFault); 10] = [
    (
        b"module m(output y);assign y = \"a\";endmodule",
        TextFault::BadByte(30),
    ),
    (b"\x00", TextFault::BadByte(0)),
    (b"ab\x7f", TextFault::BadByte(2)),
    (b"\xff", TextFault::BadByte(0)),
    (b"\\", TextFault::BadByte(0)),
    (b"\\ab\xc8", TextFault::BadByte(0)),
    (b"$ ", TextFault::BadByte(0)),
    (b"$(", TextFault::BadByte(0)),
    (b"\" `define", TextFault::BadByte(0)),
    (b"// x\n\"", TextFault::BadByte(5)),
];

#[test]
fn finds_bad_bytes(rt: HostRuntime) -> Result<(), Fail> {
    assert!(rt; all_fail(rt.alloc(), &BAD_BYTES));
    Ok(())
}

/// Texts with a bad number.
const BAD_NUMBERS: [(&[u8], TextFault); 8] = [
    (
        b"module m(output y);assign y = 2'd;endmodule",
        TextFault::BadNumber(30),
    ),
    (b"4 'z", TextFault::BadNumber(0)),
    (b"a '", TextFault::BadNumber(2)),
    (b"2 '\tb1", TextFault::BadNumber(0)),
    (b"0'd1", TextFault::BadNumber(0)),
    (b"129'd1", TextFault::BadNumber(0)),
    (b"99999999999 /* ", TextFault::BadNumber(0)),
    (
        b"a 128'd340282366920938463463374607431768211456",
        TextFault::BadNumber(2),
    ),
];

#[test]
fn finds_bad_numbers(rt: HostRuntime) -> Result<(), Fail> {
    assert!(rt; all_fail(rt.alloc(), &BAD_NUMBERS));
    Ok(())
}

/// Texts with an open comment or a directive that is not taken.
const OPEN_COMMENTS: [(&[u8], TextFault); 7] = [
    (b"module m(output y);/* x", TextFault::OpenComment(19)),
    (b"`include \"a.v\"", TextFault::Directive(0)),
    (b" `define", TextFault::Directive(1)),
    (b"`resetallx", TextFault::Directive(0)),
    (b"a /*/", TextFault::OpenComment(2)),
    (b"(* x )", TextFault::OpenComment(0)),
    (b"(* x *) (*", TextFault::OpenComment(8)),
];

#[test]
fn finds_open_comments_and_directives(rt: HostRuntime) -> Result<(), Fail> {
    assert!(rt; all_fail(rt.alloc(), &OPEN_COMMENTS));
    Ok(())
}

/// A width, a sign and a value, with the text.
const LITERALS: [(u32, bool, u128, &[u8]); 5] = [
    (4, false, 1, b"4'h1"),
    (32, true, 1, b"32'sh00000001"),
    (9, false, 482, b"9'h1e2"),
    (1, true, 0, b"1'sh0"),
    (
        128,
        false,
        340282366920938463463374607431768211455,
        b"128'hffffffffffffffffffffffffffffffff",
    ),
];

#[test]
fn writes_literals(rt: HostRuntime) -> Result<(), Fail> {
    let alloc = rt.alloc();
    for &(width, signed, value, wanted) in LITERALS.iter() {
        if 1 <= width && width <= 128 && (width == 128 || value < 1u128 << width) {
            let text = number_text(alloc, width, signed, value)?;
            assert!(rt;
                text.as_slice() == wanted
                    && read_number(&text) == Some(number(width, signed, value, 0, 0))
            );
        }
    }
    Ok(())
}

/// A new text for the token of this number, and texts put after it.
struct Edit<'e> {
    token: usize,
    text: Option<&'e [u8]>,
    run: &'e [&'e [u8]],
}

fn push_part(out: &mut Vec<u8>, bytes: &[u8], from: usize, to: usize) -> Result<(), AllocError> {
    for (at, byte) in bytes.iter().enumerate() {
        if from <= at && at < to {
            out.push(*byte)?;
        }
    }
    Ok(())
}

/// The kinds of the tokens of a text, after those that are there.
fn push_kinds<'a>(
    kinds: &mut Vec<Kind<'a>>,
    text: &[u8],
    arena: &'a Bump,
) -> Result<(), AllocError> {
    if text.len() <= 1048576 {
        match lex(text, arena) {
            Ok(tokens) => {
                for token in tokens {
                    kinds.push(token.kind)?;
                }
            }
            Err(_) => return Err(AllocError),
        }
    }
    Ok(())
}

/// Writes what follows a token, and notes its kinds.
fn push_run<'a>(
    out: &mut Vec<u8>,
    kinds: &mut Vec<Kind<'a>>,
    run: &[&[u8]],
    arena: &'a Bump,
) -> Result<(), AllocError> {
    for text in run {
        out.push(32)?;
        push_part(out, text, 0, text.len())?;
        push_kinds(kinds, text, arena)?;
    }
    if !run.is_empty() {
        out.push(32)?;
    }
    Ok(())
}

/// Writes a token with its edits, and notes its kinds.
fn push_token<'a>(
    out: &mut Vec<u8>,
    kinds: &mut Vec<Kind<'a>>,
    bytes: &[u8],
    token: Token<'a>,
    edits: &[Edit],
    at: usize,
    arena: &'a Bump,
) -> Result<(), AllocError> {
    let mut replaced = false;
    for edit in edits {
        if edit.token == at {
            if let Some(text) = edit.text {
                push_run(out, kinds, &[text], arena)?;
                replaced = true;
            }
        }
    }
    if !replaced {
        push_part(
            out,
            bytes,
            token.span.start as usize,
            token.span.end as usize,
        )?;
        kinds.push(token.kind)?;
    }
    for edit in edits {
        if edit.token == at {
            push_run(out, kinds, edit.run, arena)?;
        }
    }
    Ok(())
}

fn are_same(found: &[Kind], wanted: &[Kind]) -> bool {
    if found.len() != wanted.len() {
        return false;
    }
    for (a, b) in found.iter().zip(wanted) {
        if !same(*a, *b) {
            return false;
        }
    }
    true
}

/// Writes the tokens with their edits, and notes their kinds.
fn push_tokens<'a>(
    out: &mut Vec<u8>,
    kinds: &mut Vec<Kind<'a>>,
    bytes: &[u8],
    tokens: &[Token<'a>],
    edits: &[Edit],
    arena: &'a Bump,
) -> Result<(), AllocError> {
    let mut from = 0;
    for (at, token) in tokens.iter().enumerate() {
        push_part(out, bytes, from, token.span.start as usize)?;
        push_token(out, kinds, bytes, *token, edits, at, arena)?;
        from = token.span.end as usize;
    }
    push_part(out, bytes, from, bytes.len())?;
    Ok(())
}

/// The patched text, where its tokens are those of the source with the edits.
fn patched(alloc: Global, arena: &Bump, bytes: &[u8], edits: &[Edit]) -> Result<Vec<u8>, AllocError>
    requires { length bytes.now ≤ 1048576 }
{
    let mut out = Vec::new(alloc);
    let mut kinds = Vec::new(alloc);
    match lex(bytes, arena) {
        Ok(tokens) => push_tokens(&mut out, &mut kinds, bytes, tokens, edits, arena)?,
        Err(_) => return Err(AllocError),
    }
    let mut found = Vec::new(alloc);
    push_kinds(&mut found, &out, arena)?;
    if are_same(&found, &kinds) {
        Ok(out)
    } else {
        Err(AllocError)
    }
}

/// A module of one line, patched where no blank stands between its tokens.
fn patched_at_edges(alloc: Global, arena: &Bump) -> Result<Vec<u8>, AllocError> {
    patched(
        alloc,
        arena,
        b"module m(input clk,input s,output reg[3:0]q);always@(posedge clk)q<=s?4'd3:4'd0;endmodule",
        &[
            Edit {
                token: 24,
                text: None,
                run: &[b"begin"],
            },
            Edit {
                token: 26,
                text: None,
                run: &[b"("],
            },
            Edit {
                token: 27,
                text: None,
                run: &[b")", b"&&", b"!", b"s"],
            },
            Edit {
                token: 29,
                text: Some(b"4'ha"),
                run: &[],
            },
            Edit {
                token: 32,
                text: None,
                run: &[
                    b"if", b"(", b"!", b"s", b")", b"q", b"<=", b"4'h9", b";", b"end",
                ],
            },
        ],
    )
}

#[test]
fn patches_at_token_edges(rt: HostRuntime) -> Result<(), Fail> {
    let alloc = rt.alloc();
    let arena = Bump::new(alloc);
    let text = patched_at_edges(alloc, &arena)?;
    assert!(rt;
        text.as_slice()
            == b"module m(input clk,input s,output reg[3:0]q);always@(posedge clk) begin q<= ( s ) && ! s ? 4'ha :4'd0; if ( ! s ) q <= 4'h9 ; end endmodule".as_slice()
    );
    Ok(())
}

#[test]
fn patches_between_comments(rt: HostRuntime) -> Result<(), Fail> {
    let alloc = rt.alloc();
    let arena = Bump::new(alloc);
    let text = patched(
        alloc,
        &arena,
        b"a// x\nb",
        &[Edit {
            token: 0,
            text: Some(b"\\+"),
            run: &[b"c", b"d"],
        }],
    )?;
    assert!(rt; text.as_slice() == b" \\+  c d // x\nb".as_slice());
    let text = patched(
        alloc,
        &arena,
        b"a/* x */b",
        &[Edit {
            token: 0,
            text: None,
            run: &[b"/"],
        }],
    )?;
    assert!(rt; text.as_slice() == b"a / /* x */b".as_slice());
    let text = patched(
        alloc,
        &arena,
        b"(*x*)a(*y*)",
        &[Edit {
            token: 0,
            text: Some(b"("),
            run: &[],
        }],
    )?;
    assert!(rt; text.as_slice() == b"(*x*) ( (*y*)".as_slice());
    Ok(())
}

#[test]
fn patches_beside_names_and_numbers(rt: HostRuntime) -> Result<(), Fail> {
    let alloc = rt.alloc();
    let arena = Bump::new(alloc);
    let text = patched(
        alloc,
        &arena,
        b"\\a+ \\b",
        &[Edit {
            token: 0,
            text: None,
            run: &[b"\\if"],
        }],
    )?;
    assert!(rt; text.as_slice() == b"\\a+ \\if  \\b".as_slice());
    let text = patched(
        alloc,
        &arena,
        b"a 4'd3 'h1",
        &[Edit {
            token: 1,
            text: Some(b"4'h2"),
            run: &[],
        }],
    )?;
    assert!(rt; text.as_slice() == b"a  4'h2  'h1".as_slice());
    Ok(())
}

#[test]
fn patches_of_two_edits(rt: HostRuntime) -> Result<(), Fail> {
    let alloc = rt.alloc();
    let arena = Bump::new(alloc);
    let text = patched(
        alloc,
        &arena,
        b"@(*)a",
        &[
            Edit {
                token: 0,
                text: None,
                run: &[b"("],
            },
            Edit {
                token: 3,
                text: None,
                run: &[b"begin"],
            },
        ],
    )?;
    assert!(rt; text.as_slice() == b"@ ( (*) begin a".as_slice());
    let text = patched(
        alloc,
        &arena,
        b"a",
        &[
            Edit {
                token: 0,
                text: None,
                run: &[b"b"],
            },
            Edit {
                token: 0,
                text: None,
                run: &[b"4'sh1", b"end"],
            },
        ],
    )?;
    assert!(rt; text.as_slice() == b"a b  4'sh1 end ".as_slice());
    Ok(())
}
