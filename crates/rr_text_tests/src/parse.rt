//! Texts that are read, and texts that are refused, each at its place.

use crate::texts::{is_in_rules, push_times, tokens_of};
use bumpalo::Bump;
use rr_lex::lex;
use rr_parse::parse;
use rr_parse_expr::ParseFault;
use rr_syntax::{Bounds, Declarator, Expr, Group, Item, KEYWORDS, Source, Stmt, depth, spell_len};
use rr_syntax_place::stop;
use std::alloc::{AllocError, Global};
use std::test::Fail;

/// What reading a text came to.
#[derive(Clone, Copy, Debug, PartialEq, Eq)]
enum Outcome {
    /// A tree with so many modules.
    Tree(usize),
    Unsupported(u32),
    Syntax(u32),
    Nothing,
}

fn outcome_of(answer: Result<&Source, ParseFault>) -> Outcome {
    match answer {
        Ok(source) => Outcome::Tree(source.modules.len()),
        Err(ParseFault::Unsupported(at)) => Outcome::Unsupported(at),
        Err(ParseFault::Syntax(at)) => Outcome::Syntax(at),
        Err(ParseFault::Memory) => Outcome::Nothing,
    }
}

/// What reading a text comes to, how many tokens it has, and where it leaves the grammar.
fn read_text(alloc: Global, text: &str) -> Result<(Outcome, u32, u32), Fail> {
    let arena = Bump::new(alloc);
    let tokens = tokens_of(text, &arena)?;
    let outcome = outcome_of(parse(tokens, &arena));
    Ok((outcome, tokens.len() as u32, stop(tokens)))
}

/// A rule of the grammar: a text of it, what may be taken of another text, and what is refused
/// behind that.
type Rule = (&'static str, &'static str, &'static str);

/// Whether the text of a rule, with this around it, is one module, which is taken to its end, and the
/// other text is refused directly behind what may be taken.
fn is_rule(alloc: Global, before: &str, rule: Rule, behind: &str) -> Result<bool, Fail> {
    let (accepted, taken, refused) = rule;
    let good = format!(in alloc; "{before} {accepted} {behind}")?;
    let (outcome, count, place) = read_text(alloc, good.as_str())?;
    if outcome != Outcome::Tree(1) || place != count {
        return Ok(false);
    }
    let head = format!(in alloc; "{before} {taken}")?;
    let (_, count, _) = read_text(alloc, head.as_str())?;
    let bad = format!(in alloc; "{before} {taken} {refused} {behind}")?;
    let (outcome, _, _) = read_text(alloc, bad.as_str())?;
    Ok(outcome == Outcome::Syntax(count))
}

/// Source texts, modules and their heads.
const HEADS: [Rule; 17] = [
    ("module m; endmodule", "", "wire w;"),
    ("module m; endmodule", "module", "; endmodule"),
    ("module m (); endmodule", "module m (", "; endmodule"),
    ("module m (a, b); endmodule", "module m (a,", "); endmodule"),
    (
        "module m (input a, b, output wire c); endmodule",
        "module m (input a,",
        ", c); endmodule",
    ),
    (
        "module m (input signed [3:0] a, output reg b); endmodule",
        "module m (input",
        "reg a); endmodule",
    ),
    (
        "module m #(parameter a = 1, b = 2) (c); endmodule",
        "module m #(",
        ") (c); endmodule",
    ),
    (
        "module m #(parameter integer a = 1, parameter [1:0] b = 2); endmodule",
        "module m #(parameter integer",
        "[1:0] a = 1); endmodule",
    ),
    (
        "module m #(parameter signed a = 1); endmodule",
        "module m #(parameter a",
        ", b = 2); endmodule",
    ),
    (
        "module m #(parameter a = 1) (input b); endmodule",
        "module m #(",
        "localparam a = 1) (input b); endmodule",
    ),
    (
        "module m (input [1:0] a); endmodule",
        "module m (input [1:0",
        ":0] a); endmodule",
    ),
    (
        "module m (output reg [3:0] q = 4'd5, input x); endmodule",
        "module m (output q",
        "= 1'b0); endmodule",
    ),
    (
        "module m (output reg a, b = 1, c, output d); endmodule",
        "module m (input q",
        "= 1'b0); endmodule",
    ),
    (
        "module m (input a, output reg b = 1); endmodule",
        "module m (output reg a = 1, b = 2, output wire c",
        "= 1); endmodule",
    ),
    (
        "module m (output reg signed a = -1); endmodule",
        "module m (output reg a = 1, input wire b",
        "= 1); endmodule",
    ),
    (
        "module m (output reg [1:0] q, r); endmodule",
        "module m (output reg q",
        "[0:1]); endmodule",
    ),
    ("module m; wire w; endmodule", "module m; wire w;", "module"),
];

/// Items, declarations, connections and event controls.
const ITEMS: [Rule; 36] = [
    ("input a, b; output reg [1:0] c;", "input a", "output b;"),
    (
        "output signed d; output wire e; input wire f;",
        "input wire",
        "wire f;",
    ),
    ("wire a, b = 1, c;", "wire", ";"),
    ("wire signed [3:0] a;", "wire [3:0]", "signed a;"),
    ("reg a, b; reg signed [7:0] c;", "reg a =", ";"),
    ("reg q = 1'b0;", "integer i", "= 0;"),
    ("reg [3:0] a = 1 + 2, b, c = 4'd5;", "reg a [0", "] = 1;"),
    (
        "reg m [0:15]; reg [7:0] a, b [3:0], c = 1;",
        "reg [7:0] m [0:1]",
        "= 1;",
    ),
    (
        "reg signed [7:0] m [P - 1:0], n [0:1];",
        "reg m [0:1]",
        "[0:1];",
    ),
    ("reg a = 1, m [0:1];", "reg a = 1", "[0:1];"),
    ("wire w; reg m [0:1];", "wire w", "[0:1];"),
    (
        "output reg q; reg m [0:1];",
        "output reg a = 1, q",
        "[0:1];",
    ),
    ("integer i; reg m [0:1];", "integer i", "[0:1];"),
    ("output reg q = 1'b0, r;", "output q", "= 1'b0;"),
    ("output reg [3:0] q = 4'd5; input x;", "input q", "= 1'b0;"),
    ("initial q = 1'b1;", "initial q", "<= 1'b1;"),
    (
        "initial begin : n a = 1'b1; ; begin b = 1'b0; end end",
        "initial",
        "if (a) q = 1'b1;",
    ),
    ("initial ; initial begin end", "initial q[1", ":0] = 1'b1;"),
    (
        "initial begin m[0] = 1; m[P + 1] = 2; end",
        "initial m[0]",
        "[1] = 1;",
    ),
    (
        "initial begin q = a ? b : c; end",
        "initial",
        "{a, b} = 2'd0;",
    ),
    (
        "initial a = 1; reg b; initial b = 2;",
        "initial begin : n a = 1;",
        "case (a) default: ; endcase end",
    ),
    (
        "initial for (i = 0; i < 4; i = i + 1) a = i;",
        "initial for (i = 0; i < 4; i = i + 1)",
        "if (a) q = 1;",
    ),
    (
        "initial begin for (i = 0; i < 4; i = i + 1) begin a = i; end end",
        "initial for (i = 0; i < 4; i = i + 1) a[i",
        "+: 2] = 1;",
    ),
    ("integer i, j;", "integer", "[1:0] i;"),
    (
        "parameter a = 1, b = 2; parameter integer c = 3;",
        "parameter a",
        ";",
    ),
    (
        "localparam signed [3:0] a = 1; localparam integer b = 2;",
        "localparam integer",
        "signed b = 2;",
    ),
    ("assign a = b, {c, d[0]} = e;", "assign a", "<= b;"),
    ("assign a[3:0] = b, c[1 +: 2] = d;", "assign a = b,", ";"),
    ("n a (), b (c, d);", "n a", ";"),
    ("n #(1, 2) a (.b (c), .d ());", "n #(1,", ") a (b);"),
    ("n #() a (b); n #(.p (1)) c (d);", "n a (.b (c), ", "d);"),
    ("n a (.b (c));", "n a (.b", "c);"),
    ("always @* ; always @(*) ;", "always @", ";"),
    (
        "always @(posedge a or negedge b, posedge c) ;",
        "always @(posedge a or",
        "b) ;",
    ),
    (
        "always @(a or b[0], c & d) ;",
        "always @(a or",
        "posedge b) ;",
    ),
    ("always @(a) ;", "always", "(a) ;"),
];

/// Statements, targets, selects and primaries.
const STATEMENTS: [Rule; 22] = [
    (";", "", "end"),
    ("begin : name a = 1; end", "begin :", "; end"),
    ("begin ; ; end", "begin a", "end"),
    ("if (a) ; else ;", "if", "a ;"),
    ("if (a) if (b) ; else ; else ;", "if (a) ; else ;", "else ;"),
    ("case (a) 1, b: ; default: ; endcase", "case (a)", "endcase"),
    (
        "casez (a) 1: ; default ; endcase",
        "casez (a) default ;",
        "default: ; endcase",
    ),
    ("casex (a) b ? c : d: ; endcase", "casex (a) 1", "; endcase"),
    (
        "for (i = 0; i < 4; i = i + 1) a = i;",
        "for (i",
        "<= 0; i < 4; i = i + 1) ;",
    ),
    (
        "for (i = 0; i; i = i) for (j = 0; j; j = j) ;",
        "for (i = 0; i;",
        "; i = i) ;",
    ),
    (
        "if (a) for (i = 0; i; i = i) ; else ;",
        "for (i = 0; i; i = i",
        "; a = b;",
    ),
    ("a = b;", "a", "+ b;"),
    ("a[1] <= b <= c;", "a[1]", "[2] <= b;"),
    ("{a, {b[1:0], c[d +: 2]}} = e;", "{a,", "1} = e;"),
    ("a[b -: 2] = c;", "a[b -: 2", ": 3] = c;"),
    ("a = b[1];", "a = b[1]", "[2];"),
    ("a = (b);", "a = (b", "c);"),
    ("a = {b, c, 1};", "a = {b", ": c};"),
    ("a = {2{b, c}};", "a = {2{b, c}", ", d};"),
    ("a = $signed(b) + $unsigned(c);", "a = $signed", "b;"),
    (
        "a = -b ** ~&c * d + e << f < g == h & i ^ j | k && l || m;",
        "a = b *",
        "/ c;",
    ),
    ("a = b ? c : d ? e : f;", "a = b ? c", ";"),
];

fn all_rules(alloc: Global, before: &str, rules: &[Rule], behind: &str) -> Result<(), Fail> {
    for rule in rules.iter() {
        if !is_rule(alloc, before, *rule, behind)? {
            return Err(Fail::from(rule.0));
        }
    }
    Ok(())
}

#[test]
fn each_rule(rt: HostRuntime) -> Result<(), Fail> {
    all_rules(rt.alloc(), "", &HEADS, "")?;
    all_rules(rt.alloc(), "module m;", &ITEMS, "endmodule")?;
    all_rules(rt.alloc(), "module m; always @*", &STATEMENTS, "endmodule")
}

/// Texts with what is read of them.
const WORDS_OUTSIDE: [(&str, Outcome); 13] = [
    ("", Outcome::Tree(0)),
    ("module m; $display(a); endmodule", Outcome::Unsupported(3)),
    (
        "module m; always @* #5 a = b; endmodule",
        Outcome::Unsupported(6),
    ),
    ("module m; n #(5) a (b); endmodule", Outcome::Tree(1)),
    ("module m; ; wire = 1 forever", Outcome::Unsupported(7)),
    ("module m; ; wire = 1 initial", Outcome::Syntax(3)),
    (
        "module m; initial #5 a = b; endmodule",
        Outcome::Unsupported(4),
    ),
    ("module m; function f; for", Outcome::Unsupported(3)),
    ("module m; generate for", Outcome::Unsupported(3)),
    ("module m; for genvar", Outcome::Unsupported(4)),
    (
        "module m; for (i = 0; i; i = i) ; endmodule",
        Outcome::Syntax(3),
    ),
    ("module m; wire a; endmodule wait", Outcome::Unsupported(7)),
    ("module a; endmodule module b; endmodule", Outcome::Tree(2)),
];

/// The words outside the profile are looked for first, also behind other faults.
#[test]
fn words_outside(rt: HostRuntime) -> Result<(), Fail> {
    for (text, wanted) in WORDS_OUTSIDE.iter() {
        let (outcome, _, _) = read_text(rt.alloc(), text)?;
        assert!(rt; outcome == *wanted, "{text}");
    }
    Ok(())
}

/// Whether a reserved word among items is refused as its part in the grammar asks.
fn is_judged(alloc: Global, word: &str) -> Result<bool, Fail> {
    let text = format!(in alloc; "module m; wire {word} endmodule")?;
    let (outcome, _, _) = read_text(alloc, text.as_str())?;
    match outcome {
        Outcome::Unsupported(at) => Ok(at == 4 && !is_in_rules(word)),
        Outcome::Syntax(_) => Ok(is_in_rules(word)),
        _ => Ok(false),
    }
}

#[test]
fn each_reserved_word(rt: HostRuntime) -> Result<(), Fail> {
    for word in KEYWORDS.iter() {
        assert!(rt; is_judged(rt.alloc(), *word)?, "{word}");
    }
    Ok(())
}

/// An `else` belongs to the nearest `if`.
#[test]
fn nearest_if(rt: HostRuntime) -> Result<(), Fail> {
    let arena = Bump::new(rt.alloc());
    let text = "module m; always @* if (a) if (b) y = 1; else y = 0; endmodule";
    let tokens = tokens_of(text, &arena)?;
    let Ok(source) = parse(tokens, &arena) else {
        return Err(Fail::from("tree"));
    };
    let Some(module) = source.modules.get(0) else {
        return Err(Fail::from("module"));
    };
    let Some(
        Item::Always {
            body: Stmt::If { yes, no: None, .. },
            ..
        },
    ) = module.items.get(0)
    else {
        return Err(Fail::from("outer"));
    };
    assert!(rt; matches!(yes, Stmt::If { no: Some(_), .. }));
    Ok(())
}

/// A variable with a starting value, a port with one, and what an `initial` item sets.
#[test]
fn starting_values(rt: HostRuntime) -> Result<(), Fail> {
    let arena = Bump::new(rt.alloc());
    let text =
        "module m(input a, output reg q = 1'b1); reg r, s = 1'b0; initial r = 1'b1; endmodule";
    let tokens = tokens_of(text, &arena)?;
    let Ok(source) = parse(tokens, &arena) else {
        return Err(Fail::from("tree"));
    };
    let Some(module) = source.modules.get(0) else {
        return Err(Fail::from("module"));
    };
    assert!(rt; starts(module.groups.get(0), 0) == Some(false));
    assert!(rt; starts(module.groups.get(1), 0) == Some(true));
    let Some(Item::Variables { names, .. }) = module.items.get(0) else {
        return Err(Fail::from("variables"));
    };
    assert!(rt; has_value(names, 0) == Some(false) && has_value(names, 1) == Some(true));
    assert!(rt;
        matches!(
            module.items.get(1),
            Some(Item::Initial {
                body: Stmt::Assign { now: true, .. },
                token: 20,
            })
        )
    );
    Ok(())
}

/// A memory and a variable, the bounds of the memory's words, and a word that an `initial` item sets.
#[test]
fn memories(rt: HostRuntime) -> Result<(), Fail> {
    let arena = Bump::new(rt.alloc());
    let text = "module m; reg [7:0] a [0:15], b = 1; initial a[2] = 3; endmodule";
    let tokens = tokens_of(text, &arena)?;
    let Ok(source) = parse(tokens, &arena) else {
        return Err(Fail::from("tree"));
    };
    let Some(module) = source.modules.get(0) else {
        return Err(Fail::from("module"));
    };
    let Some(Item::Variables { names, .. }) = module.items.get(0) else {
        return Err(Fail::from("variables"));
    };
    assert!(rt; has_words(names, 0) == Some(true) && has_value(names, 0) == Some(false));
    assert!(rt; has_words(names, 1) == Some(false) && has_value(names, 1) == Some(true));
    assert!(rt;
        matches!(
            names.get(0),
            Some(Declarator {
                token: 9,
                words: Some(Bounds {
                    left: Expr::Literal { token: 11, .. },
                    right: Expr::Literal { token: 13, .. },
                }),
                ..
            })
        )
    );
    assert!(rt;
        matches!(
            module.items.get(1),
            Some(Item::Initial {
                body: Stmt::Assign {
                    target: Expr::Bit { token: 21, .. },
                    now: true,
                    ..
                },
                token: 20,
            })
        )
    );
    Ok(())
}

/// Whether a name of a list is that of a memory.
fn has_words(names: &[Declarator], at: usize) -> Option<bool> {
    names.get(at).map(|name| name.words.is_some())
}

/// Whether a name of a list has a value.
fn has_value(names: &[Declarator], at: usize) -> Option<bool> {
    names.get(at).map(|name| name.value.is_some())
}

/// Whether a port of a group has a starting value.
fn starts(group: Option<&Group>, at: usize) -> Option<bool> {
    has_value(group?.names, at)
}

/// An item of blocks in one another, and an assignment of a name in brackets.
fn nested(
    alloc: Global,
    item: &str,
    blocks: u32,
    brackets: u32,
) -> Result<String<Global>, AllocError> {
    let mut text = String::new(alloc);
    text.push_str("module m; ")?;
    text.push_str(item)?;
    text.push_str(" ")?;
    push_times(&mut text, "begin ", blocks)?;
    text.push_str("a = ")?;
    push_times(&mut text, "(", brackets)?;
    text.push_str("b")?;
    push_times(&mut text, ")", brackets)?;
    text.push_str("; ")?;
    push_times(&mut text, "end ", blocks)?;
    text.push_str("endmodule")?;
    Ok(text)
}

/// The levels of modules, items, statements and expressions count together.
#[test]
fn depth_five_hundred(rt: HostRuntime) -> Result<(), Fail> {
    for (item, blocks, brackets, wanted) in [
        ("always @*", 200, 296, Outcome::Tree(1)),
        ("always @*", 496, 0, Outcome::Tree(1)),
        ("always @*", 0, 496, Outcome::Tree(1)),
        ("always @*", 200, 297, Outcome::Syntax(504)),
        ("always @*", 497, 0, Outcome::Syntax(503)),
        ("always @*", 0, 497, Outcome::Syntax(504)),
        ("initial", 200, 296, Outcome::Tree(1)),
        ("initial", 496, 0, Outcome::Tree(1)),
        ("initial", 200, 297, Outcome::Syntax(502)),
        ("initial", 497, 0, Outcome::Syntax(501)),
    ] {
        let text = nested(rt.alloc(), item, blocks, brackets)?;
        let (outcome, _, _) = read_text(rt.alloc(), text.as_str())?;
        assert!(rt; outcome == wanted, "{item} {blocks} {brackets}");
    }
    Ok(())
}

/// A serial transmitter, as such designs are usually written.
const TRANSMITTER: &str = "`timescale 1ns/1ps
module tx(clk, rst_n, start, data, line, busy);
  parameter BITS = 8;
  localparam IDLE = 2'd0, SEND = 2'd1, STOP = 2'd2;
  input clk, rst_n, start;
  input [BITS-1:0] data;
  output line, busy;
  reg [1:0] state;
  reg [BITS-1:0] sh;
  reg [3:0] n;
  reg line;
  assign busy = state != IDLE;
  always @(posedge clk or negedge rst_n)
    if (!rst_n) begin
      state <= IDLE; line <= 1'b1; sh <= 0; n <= 0;
    end else case (state)
      IDLE: if (start) begin
        state <= SEND; line <= 1'b0; sh <= data; n <= 0;
      end
      SEND: begin
        line <= sh[0]; sh <= sh >> 1; n <= n + 1;
        if (n == 4'd8) state <= STOP;
      end
      STOP: begin line <= 1'b1; state <= IDLE; end
      default: state <= IDLE;
    endcase
endmodule
";

/// A design without blanks, where tokens stand side by side.
const TOKEN_EDGES: &str = "module m(input clk,input s,output reg[3:0]q=4'd2,r);reg t=1'b1,u;\
    initial begin:n r=4'd0;u=1'b0;end always@(posedge clk)q<=s?4'd3:4'd0;\
    integer i;initial for(i=0;i<4;i=i+1)u=1'b0;always@*for(i=0;i<4;i=i+1)if(s)u=t;else;\
    reg[3:0]v[0:3],w;initial v[0]=4'd1;always@(posedge clk)v[q]<=v[3];endmodule";

/// Whether a text has a tree that spells as many tokens.
fn spells(alloc: Global, text: &str) -> bool {
    let arena = Bump::new(alloc);
    if text.len() > 1_000_000 {
        return false;
    }
    match lex(text.as_bytes(), &arena) {
        Err(_) => false,
        Ok(tokens) => match parse(tokens, &arena) {
            Err(_) => false,
            Ok(source) => spell_len(source) == tokens.len() as u64 && depth(source) <= 500,
        },
    }
}

#[test]
fn usual_designs(rt: HostRuntime) -> Result<(), Fail> {
    assert!(rt;
        spells(rt.alloc(), TRANSMITTER) && spells(rt.alloc(), TOKEN_EDGES) && spells(rt.alloc(), "")
    );
    Ok(())
}
