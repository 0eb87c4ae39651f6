//! Texts that leave the grammar: what may be taken of each, and what stands behind it.

use crate::texts::{push_times, tokens_of};
use bumpalo::Bump;
use rr_syntax_place::stop;
use std::alloc::Global;
use std::test::Fail;

/// How many tokens a text has, and at which of them it leaves the grammar.
fn count_and_place(alloc: Global, text: &str) -> Result<(usize, u32), Fail> {
    let arena = Bump::new(alloc);
    let tokens = tokens_of(text, &arena)?;
    Ok((tokens.len(), stop(tokens)))
}

/// Whether a text leaves the grammar directly behind its first part.
fn leaves_behind(alloc: Global, head: &str, first: &str, rest: &str) -> Result<bool, Fail> {
    let text = format!(in alloc; "{head}{first}")?;
    let (count, _) = count_and_place(alloc, text.as_str())?;
    let text = format!(in alloc; "{head}{first} {rest}")?;
    let (_, place) = count_and_place(alloc, text.as_str())?;
    Ok(place as usize == count)
}

const MODULES: [(&str, &str); 43] = [
    ("", ""),
    ("", "wire w;"),
    ("module m; endmodule", ""),
    ("module m; endmodule", "endmodule"),
    ("module", "3; endmodule"),
    ("module m(a,", "); endmodule"),
    ("module m(a,", "input b); endmodule"),
    ("module m(input a, b, output reg signed [3:0] c);", ")"),
    ("module m(input", "reg a); endmodule"),
    ("module m #(parameter integer", "[1:0] n = 1); endmodule"),
    (
        "module m #(parameter a = 1, b = 2, parameter signed [1:0] c = 3)();",
        "end",
    ),
    ("module m #(", "); endmodule"),
    (
        "module m; wire w = 1, v; reg r = 1, s; integer i",
        "= 1; endmodule",
    ),
    ("module m(output reg a = 1, b, input c", "= 1); endmodule"),
    (
        "module m(output reg a, b = 2, output wire c",
        "= 1); endmodule",
    ),
    ("module m(output a", "= 1); endmodule"),
    (
        "module m; output reg signed a = 1, b = 2; output c",
        "= 1; endmodule",
    ),
    ("module m; input a", "= 1; endmodule"),
    (
        "module m; initial ; initial begin : n a = b; begin end end initial a",
        "<= 1; endmodule",
    ),
    ("module m; initial", "if (a) ; endmodule"),
    (
        "module m; initial a[0] = 1; initial a[1",
        ":0] = 1; endmodule",
    ),
    ("module m; initial a[0]", "[1] = 1; endmodule"),
    ("module m; initial a[i", "+: 2] = 1; endmodule"),
    (
        "module m; reg [7:0] a [0:15], b = 1, c [0:1]",
        "= 1; endmodule",
    ),
    ("module m; reg a [0", "]; endmodule"),
    ("module m; reg a = 1", "[0:1]; endmodule"),
    ("module m; wire w", "[0:1]; endmodule"),
    ("module m; output reg q", "[0:1]; endmodule"),
    ("module m(output reg q", "[0:1]); endmodule"),
    ("module m; initial", "{a, b} = 1; endmodule"),
    (
        "module m; initial begin : n a = 1;",
        "case (a) default: ; endcase end endmodule",
    ),
    (
        "module m; initial for (i = 0; i; i = i) begin a = 1; end initial for (i = 0; i; i = i) a",
        "<= 1; endmodule",
    ),
    ("module m; integer", "[3:0] i; endmodule"),
    ("module m; localparam p = 1, q", "; endmodule"),
    (
        "module m; assign {a, b[1]} = c, d = e; assign a",
        "<= b; endmodule",
    ),
    (
        "module m; always @* ; always @(*) ; always @(posedge a,",
        "b) ; endmodule",
    ),
    (
        "module m; always @(a or b, c) ; always @(a",
        "posedge b) ; endmodule",
    ),
    (
        "module m; n a(b), c(); n #(1) d(.e(f), .g()), h(.i(j),",
        "k); endmodule",
    ),
    ("module m; n #(.p(1))", "(a); endmodule"),
    ("module m; n a", "; endmodule"),
    ("module m; wire w", ""),
    ("module m; parameter a = 1;", "module"),
    ("module m; endmodule module k", ""),
];

const BODIES: [(&str, &str); 27] = [
    ("begin : name end", "end"),
    ("begin a = 1; b <= 2; end", ";"),
    ("if (a) if (b) ; else ; else ;", "else ;"),
    ("if", "a ;"),
    ("case (a)", "endcase"),
    ("casez (a) 1, 2: ; default ;", "default: ; endcase"),
    ("case (a) default: ; 1: ; endcase", ":"),
    ("casex (a) b: ; endcase", "endcase"),
    ("for (i = 0; i < 4; i = i + 1) ;", ";"),
    ("for", "i = 0; i; i = i) ;"),
    ("for (i", "[0] = 0; i; i = i) ;"),
    ("for (i = 0; i; i = i)", "endmodule"),
    ("a[1] = b[1:0]", ""),
    ("a[1:0", ":1] = b;"),
    ("{a, b[1 +: 2]} = c;", "= c"),
    ("{a,", "1} = c;"),
    ("", "(a) = b;"),
    ("a = b +", ";"),
    ("a = -b * ~&c **", "** d;"),
    ("a = b ? c : d ? e : f;", "?"),
    ("a = b ? c", ";"),
    ("a = {2{b, c}};", "}"),
    ("a = {b{c}", "d};"),
    ("a = {", "};"),
    ("a = $signed(b) >>> $unsigned", "c;"),
    ("a = b", "c;"),
    ("a = 1", "1;"),
];

#[test]
fn modules_and_items(rt: HostRuntime) -> Result<(), Fail> {
    for (first, rest) in MODULES.iter() {
        assert!(rt;
            leaves_behind(rt.alloc(), "", first, rest)?,
            "{first} {rest}"
        );
    }
    Ok(())
}

/// What stands before a statement.
const HEAD: &str = "module m; always @* ";

#[test]
fn statements_and_expressions(rt: HostRuntime) -> Result<(), Fail> {
    for (first, rest) in BODIES.iter() {
        assert!(rt;
            leaves_behind(rt.alloc(), HEAD, first, rest)?,
            "{first} {rest}"
        );
    }
    Ok(())
}

/// Whether a name in so many brackets may stand in an assignment, and nothing at their end.
fn takes_nested(alloc: Global, count: u32) -> Result<bool, Fail> {
    let mut first = String::new(alloc);
    first.push_str("a = ")?;
    push_times(&mut first, "(", count)?;
    let mut rest = String::new(alloc);
    rest.push_str("(b)")?;
    push_times(&mut rest, ")", count)?;
    rest.push_str(";")?;
    leaves_behind(alloc, HEAD, first.as_str(), rest.as_str())
}

/// Whether a text in so many blocks leaves the grammar directly behind its first part.
fn leaves_in_blocks(
    alloc: Global,
    before: &str,
    count: u32,
    first: &str,
    rest: &str,
) -> Result<bool, Fail> {
    let mut head = String::new(alloc);
    head.push_str(before)?;
    push_times(&mut head, "begin ", count)?;
    leaves_behind(alloc, head.as_str(), first, rest)
}

/// How many blocks there are, what is read in them, and what is left.
const IN_BLOCKS: [(u32, &str, &str); 17] = [
    (496, "a = b;", "= c"),
    (496, "a =", "(b);"),
    (496, "a =", "-b;"),
    (496, "a =", "$signed(b);"),
    (495, "a = $signed(b", "+ c);"),
    (497, "", "a = b;"),
    (497, "", "if (a) ;"),
    (496, "if (a) begin end", "endmodule"),
    (496, "for (i = 0; i; i = i) begin end", "endmodule"),
    (496, "for (i =", "(0); i; i = i) ;"),
    (497, "", "for (i = 0; i; i = i) ;"),
    (495, "case (a) default", "= ;"),
    (495, "casex (a) b: ; default:", "c = d;"),
    (495, "casez (a) b: ;", "= endcase"),
    (496, "", "case (a) default: ; endcase"),
    (498, "end", "= ;"),
    (498, "", "begin end"),
];

/// The same in an `initial` item.
const IN_INITIAL_BLOCKS: [(u32, &str, &str); 11] = [
    (496, "a = b;", "= c"),
    (496, "a =", "(b);"),
    (495, "a = $signed(b", "+ c);"),
    (496, "a", "[0] = b;"),
    (495, "a[0] = b;", "= c"),
    (495, "a[", "(0)] = b;"),
    (497, "", "a = b;"),
    (496, "for (i = 0; i; i = i) ;", "= c"),
    (497, "", "for (i = 0; i; i = i) ;"),
    (498, "end", "= ;"),
    (498, "", "begin end"),
];

// The levels of modules, items, statements, arms and expressions count together: a token is taken
// where what it begins may still have its least depth.
#[test]
fn depth_five_hundred(rt: HostRuntime) -> Result<(), Fail> {
    assert!(rt;
        takes_nested(rt.alloc(), 496)?
            && !takes_nested(rt.alloc(), 495)?
            && !takes_nested(rt.alloc(), 497)?
    );
    for &(count, first, rest) in IN_BLOCKS.iter() {
        assert!(rt;
            leaves_in_blocks(rt.alloc(), HEAD, count, first, rest)?,
            "{count} {first} {rest}"
        );
    }
    for &(count, first, rest) in IN_INITIAL_BLOCKS.iter() {
        assert!(rt;
            leaves_in_blocks(rt.alloc(), "module m; initial ", count, first, rest)?,
            "{count} {first} {rest}"
        );
    }
    Ok(())
}
