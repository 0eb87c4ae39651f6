//! Expressions at tokens, with trees that the standard's table of operators gives.

ghost use Rattle.std.specs.Prelude.{◌≤◌, ◌<◌, ◌^◌, length, IfOk};

use crate::texts::{push_times, tokens_of};
use bumpalo::Bump;
use rr_parse_expr::{
    ParseFault, Piece, expr, expr_before, expr_within, is_mark, list, mark_at, name_at, operand,
    operand_within, target_within,
};
use rr_syntax::{Expr, MARKS, Mark, Named, Token};
use std::alloc::{AllocError, Global};
use std::test::Fail;

/// The operators between two operands with their rows of IEEE 1364-2005 table 5-4, the highest row 11.
const OPERATORS: [(&str, u8); 25] = [
    ("**", 11),
    ("*", 10),
    ("/", 10),
    ("%", 10),
    ("+", 9),
    ("-", 9),
    ("<<", 8),
    (">>", 8),
    ("<<<", 8),
    (">>>", 8),
    ("<", 7),
    ("<=", 7),
    (">", 7),
    (">=", 7),
    ("==", 6),
    ("!=", 6),
    ("===", 6),
    ("!==", 6),
    ("&", 5),
    ("^", 4),
    ("^~", 4),
    ("~^", 4),
    ("|", 3),
    ("&&", 2),
    ("||", 1),
];

/// Writes a tree with a pair of brackets for each operator, and names without their tokens.
#[cycle(show)]
fn show(expr: &Expr, out: &mut String<Global>) -> Result<(), AllocError> {
    match expr {
        Expr::Name { name, .. } => out.push_str(*name),
        Expr::Literal { number, .. } => out.push_str(if number.value == 2 { "2" } else { "?" }),
        Expr::Bit { .. } | Expr::Part { .. } | Expr::Indexed { .. } => show_select(expr, out),
        Expr::Unary { op, of } => show_one("(", spelled(*op), of, ")", out),
        Expr::Binary { op, left, right } => {
            show_one("", "(", left, spelled(*op), out)?;
            show_one("", "", right, ")", out)
        }
        Expr::Cond { test, yes, no } => {
            show_one("(", "", test, "?", out)?;
            show_one("", "", yes, ":", out)?;
            show_one("", "", no, ")", out)
        }
        Expr::Concat { parts } => show_list(parts, out),
        Expr::Repeat { count, parts } => {
            show_one("", "{", count, "", out)?;
            show_list(parts, out)?;
            out.push_str("}")
        }
        Expr::Cast { signed, of } => {
            let name = if *signed { "$signed" } else { "$unsigned" };
            show_one(name, "(", of, ")", out)
        }
        Expr::Paren { of } => show_one("", "<", of, ">", out),
    }
}

/// Writes a name with its select.
#[cycle(show)]
fn show_select(expr: &Expr, out: &mut String<Global>) -> Result<(), AllocError> {
    match expr {
        Expr::Bit { name, index, .. } => show_one(*name, "[", index, "]", out),
        Expr::Part {
            name,
            left,
            right,
            ..
        } => {
            show_one(*name, "[", left, ":", out)?;
            show_one("", "", right, "]", out)
        }
        Expr::Indexed {
            name,
            from,
            width,
            up,
            ..
        } => {
            show_one(*name, "[", from, if *up { "+:" } else { "-:" }, out)?;
            show_one("", "", width, "]", out)
        }
        _ => Ok(()),
    }
}

#[cycle(show)]
fn show_one(
    name: &str,
    open: &str,
    inner: &Expr,
    close: &str,
    out: &mut String<Global>,
) -> Result<(), AllocError> {
    out.push_str(name)?;
    out.push_str(open)?;
    show(inner, out)?;
    out.push_str(close)
}

#[cycle(show)]
fn show_list(parts: &[Expr], out: &mut String<Global>) -> Result<(), AllocError> {
    out.push_str("{")?;
    for part in parts.iter() {
        show(part, out)?;
        out.push_str(",")?;
    }
    out.push_str("}")
}

fn spelled(mark: Mark) -> &'static str {
    match MARKS.get(mark.0 as usize) {
        Some(text) => *text,
        None => "",
    }
}

/// Whether the text begins with this tree, of as many tokens.
fn reads(alloc: Global, text: &str, wanted: &str, count: u32) -> Result<bool, Fail> {
    let arena = Bump::new(alloc);
    let tokens = tokens_of(text, &arena)?;
    match expr(tokens, 0, &arena) {
        Err(_) => Ok(false),
        Ok((tree, next)) => {
            let mut out = String::new(alloc);
            show(tree, &mut out)?;
            Ok(out.as_str() == wanted && next == count)
        }
    }
}

/// Whether `a x b y c` has the tree of the table: to the left, but where y stands above x.
fn pair(alloc: Global, x: &str, above: u8, y: &str, row: u8) -> Result<bool, Fail> {
    let text = format!(in alloc; "a {x} b {y} c")?;
    if row > above {
        let wanted = format!(in alloc; "(a{x}(b{y}c))")?;
        return reads(alloc, text.as_str(), wanted.as_str(), 5);
    }
    let wanted = format!(in alloc; "((a{x}b){y}c)")?;
    reads(alloc, text.as_str(), wanted.as_str(), 5)
}

#[test]
fn pairs_of_operators(rt: HostRuntime) -> Result<(), Fail> {
    for (x, above) in OPERATORS {
        for (y, row) in OPERATORS {
            assert!(rt; pair(rt.alloc(), x, above, y, row)?, "{x} {y}");
        }
    }
    Ok(())
}

/// Texts with the expression at their front and the token after it.
const PRIMARIES: [(&str, &str, u32); 26] = [
    ("a ? b : c ? d : e", "(a?b:(c?d:e))", 9),
    ("a ? b ? c : d : e", "(a?(b?c:d):e)", 9),
    ("a || b ? c && d : e || f", "((a||b)?(c&&d):(e||f))", 11),
    ("{ 2 { a , b } }", "{2{a,b,}}", 8),
    ("{ a { b } }", "{a{b,}}", 6),
    ("{ a , { b , c } }", "{a,{b,c,},}", 9),
    ("a [ 2 : b ]", "a[2:b]", 6),
    ("a [ i +: 2 ] + b", "(a[i+:2]+b)", 8),
    ("a [ i -: 2 ]", "a[i-:2]", 6),
    ("a [ b [ i ] ]", "a[b[i]]", 7),
    ("a [ i ? b : c : 2 ]", "a[(i?b:c):2]", 10),
    ("$signed ( a )", "$signed(a)", 4),
    ("$unsigned ( a + b ) * c", "($unsigned((a+b))*c)", 8),
    ("( a + b ) * c", "(<(a+b)>*c)", 7),
    ("- - a", "(-(-a))", 3),
    ("& & a", "(&(&a))", 3),
    ("a & & b", "(a&(&b))", 4),
    ("a && & b", "(a&&(&b))", 4),
    ("- a ** b", "((-a)**b)", 4),
    ("a ** - b", "(a**(-b))", 4),
    ("~^ a [ 2 ] ^~ ! b", "((~^a[2])^~(!b))", 8),
    ("2", "2", 1),
    ("a + b ;", "(a+b)", 3),
    ("a * b ) + c", "(a*b)", 3),
    ("a + b + ", "(a+b)", 3),
    ("a ? b : ;", "a", 1),
];

#[test]
fn each_primary_and_prefix(rt: HostRuntime) -> Result<(), Fail> {
    for &(text, wanted, count) in PRIMARIES.iter() {
        assert!(rt; reads(rt.alloc(), text, wanted, count)?, "{text}");
    }
    Ok(())
}

/// Texts with what is read of them and the token after it.
const CUT_SHORT: [(&str, &str, u32); 8] = [
    ("a [ b", "a", 1),
    ("a [ b ; ]", "a", 1),
    ("a [ b [ c ]", "a", 1),
    ("a + b [ 2 : ]", "(a+b)", 3),
    ("a + { b , }", "a", 1),
    ("a + ( b", "a", 1),
    ("a [ b ] [ c ]", "a[b]", 4),
    ("a , b", "a", 1),
];

/// A select, a cast or a list that does not end leaves what stands before it.
#[test]
fn cut_short(rt: HostRuntime) -> Result<(), Fail> {
    for &(text, wanted, count) in CUT_SHORT.iter() {
        assert!(rt; reads(rt.alloc(), text, wanted, count)?, "{text}");
    }
    Ok(())
}

fn fails(alloc: Global, text: &str, from: u32) -> Result<bool, Fail> {
    let arena = Bump::new(alloc);
    let tokens = tokens_of(text, &arena)?;
    Ok(matches!(expr(tokens, from, &arena), Err(ParseFault::Syntax(at)) if at == from))
}

/// Texts with no expression at their front.
const NO_EXPRESSIONS: &[&str] = &[
    "",
    "; a",
    ") a",
    "* a",
    "begin",
    "$time ( a )",
    "$signed a",
    "( a",
    "{ }",
    "{ 2 { } }",
    "-",
    "< a",
];

#[test]
fn nothing_begins(rt: HostRuntime) -> Result<(), Fail> {
    for &text in NO_EXPRESSIONS.iter() {
        assert!(rt; fails(rt.alloc(), text, 0)?, "{text}");
    }
    assert!(rt;
        fails(rt.alloc(), "a + b", 1)? == false
            && fails(rt.alloc(), "a * b", 1)?
            && fails(rt.alloc(), "a", 1)?
            && fails(rt.alloc(), "a", 9)?
    );
    Ok(())
}

/// The token after the operand at the front, and that after the expression.
fn ends(alloc: Global, text: &str, depth: u32) -> Result<(Option<u32>, Option<u32>), Fail> {
    let arena = Bump::new(alloc);
    let tokens = tokens_of(text, &arena)?;
    if depth > 500 {
        return Ok((None, None));
    }
    let first = match operand_within(tokens, 0, depth, &arena) {
        Ok((_, next)) => Some(next),
        Err(_) => None,
    };
    match expr_within(tokens, 0, depth, &arena) {
        Ok((_, next)) => Ok((first, Some(next))),
        Err(_) => Ok((first, None)),
    }
}

/// Texts with a depth, the token after the operand at the front, and that after the expression.
const ENDS: [(&str, u32, Option<u32>, Option<u32>); 7] = [
    ("a <= b", 500, Some(1), Some(3)),
    ("{ a , b [ 2 ] } <= c", 500, Some(8), Some(10)),
    ("- a + b", 1, Some(2), Some(2)),
    ("- a + b", 2, Some(2), Some(4)),
    ("- a", 0, None, None),
    ("a + b", 0, Some(1), Some(1)),
    ("a [ b ]", 0, Some(1), Some(1)),
];

#[test]
fn operands_and_depths(rt: HostRuntime) -> Result<(), Fail> {
    for (text, depth, operand, whole) in ENDS.iter() {
        assert!(rt;
            ends(rt.alloc(), text, *depth)? == (*operand, *whole),
            "{text}"
        );
    }
    let arena = Bump::new(rt.alloc());
    let tokens = tokens_of("a = b", &arena)?;
    assert!(rt;
        matches!(
            operand(tokens, 2, &arena),
            Ok((Expr::Name { token: 2, .. }, 3))
        )
    );
    Ok(())
}

/// The token after the target at the front, if one stands there.
fn target_end(alloc: Global, text: &str) -> Result<Option<u32>, Fail> {
    let arena = Bump::new(alloc);
    let tokens = tokens_of(text, &arena)?;
    match target_within(tokens, 0, 500, &arena) {
        Ok((_, next)) => Ok(Some(next)),
        Err(_) => Ok(None),
    }
}

/// Texts with no target at their front.
const NO_TARGETS: &[&str] = &["", "3 = a", "{ a , 3 } = b", "( a ) = b", "- a"];

#[test]
fn targets(rt: HostRuntime) -> Result<(), Fail> {
    assert!(rt; target_end(rt.alloc(), "{ a , b [ 2 ] } <= c")? == Some(8));
    for &text in NO_TARGETS.iter() {
        assert!(rt; target_end(rt.alloc(), text)? == None, "{text}");
    }
    Ok(())
}

/// The token after the colon behind the expression at the front, if both stand there.
fn closed_end(alloc: Global, text: &str) -> Result<Option<u32>, Fail> {
    let arena = Bump::new(alloc);
    let tokens = tokens_of(text, &arena)?;
    match expr_before(tokens, 0, Mark::COLON, 1, &arena) {
        Ok((_, next)) => Ok(Some(next)),
        Err(_) => Ok(None),
    }
}

/// Texts with no expression and a colon at their front.
const NOT_CLOSED: &[&str] = &["", ": a", "a", "a ; b", "a + b", "a + ( b ) : c"];

#[test]
fn before_a_mark(rt: HostRuntime) -> Result<(), Fail> {
    assert!(rt; closed_end(rt.alloc(), "a + b : c")? == Some(4));
    for &text in NOT_CLOSED.iter() {
        assert!(rt; closed_end(rt.alloc(), text)? == None, "{text}");
    }
    Ok(())
}

/// A name is told where one stands, with its token's number, and no other token is taken for one.
#[test]
fn names(rt: HostRuntime) -> Result<(), Fail> {
    let arena = Bump::new(rt.alloc());
    let tokens = tokens_of("begin a 3 $time ;", &arena)?;
    assert!(rt;
        matches!(
            name_at(tokens, 1),
            Some(Named {
                token: 1,
                name: "a"
            })
        )
    );
    for at in [0, 2, 3, 4, 5, u32::MAX] {
        assert!(rt; name_at(tokens, at).is_none());
    }
    Ok(())
}

/// The name at a token, as a part of a list.
fn named<'a>(tokens: &'a [Token<'a>], at: u32) -> Result<Piece<Named<'a>>, ParseFault>
    requires short { length tokens.now < 2 ^ 32 }
    ensures { IfOk result (λ p. (at < p.next) × (p.next ≤ length tokens.now)) }
{
    match name_at(tokens, at) {
        Some(value) => Ok(Piece {
            value,
            next: at + 1,
        }),
        None => Err(ParseFault::Syntax(at)),
    }
}

/// Whether the list at the front of a text has these names, and is of as many tokens.
fn lists(alloc: Global, text: &str, wanted: &str, count: u32) -> Result<bool, Fail> {
    let arena = Bump::new(alloc);
    let tokens = tokens_of(text, &arena)?;
    match list(tokens, 0, &arena, |at| named(tokens, at)) {
        Err(_) => Ok(false),
        Ok(found) => {
            let mut out = String::new(alloc);
            for part in found.value.iter() {
                out.push_str(part.name)?;
            }
            Ok(out.as_str() == wanted && found.next == count)
        }
    }
}

/// A list goes on as far as a name stands behind a comma; a comma with none is left.
#[test]
fn lists_with_commas(rt: HostRuntime) -> Result<(), Fail> {
    assert!(rt;
        lists(rt.alloc(), "a , b , c ;", "abc", 5)?
            && lists(rt.alloc(), "a , 3", "a", 1)?
            && !lists(rt.alloc(), ", a", "", 0)?
    );
    Ok(())
}

/// Where the expression at the front of a text ends.
fn end_of(alloc: Global, text: &str) -> Result<Option<u32>, Fail> {
    let arena = Bump::new(alloc);
    let tokens = tokens_of(text, &arena)?;
    match expr(tokens, 0, &arena) {
        Ok((_, next)) => Ok(Some(next)),
        Err(_) => Ok(None),
    }
}

/// Where the expression ends that begins with `deep` openings, a name and as many closings.
fn nested(alloc: Global, open: &str, close: &str, deep: u32) -> Result<Option<u32>, Fail> {
    let mut text = String::new(alloc);
    push_times(&mut text, open, deep)?;
    text.push_str("a ")?;
    push_times(&mut text, close, deep)?;
    end_of(alloc, text.as_str())
}

/// Openings and closings, how many there are, and where the expression ends.
const LEVELS: [(&str, &str, u32, Option<u32>); 6] = [
    ("(", ")", 500, Some(1001)),
    ("(", ")", 501, None),
    ("{", "}", 500, Some(1001)),
    ("{", "}", 501, None),
    ("- ", ";", 500, Some(501)),
    ("- ", ";", 501, None),
];

#[test]
fn five_hundred_levels(rt: HostRuntime) -> Result<(), Fail> {
    for (open, close, deep, end) in LEVELS.iter() {
        assert!(rt;
            nested(rt.alloc(), open, close, *deep)? == *end,
            "{open} {deep}"
        );
    }
    Ok(())
}

/// Where the expression ends that begins with an opening and has this many operands.
fn in_a_row(alloc: Global, open: &str, between: &str, count: u32) -> Result<Option<u32>, Fail> {
    let mut text = String::new(alloc);
    text.push_str(open)?;
    text.push_str("a")?;
    for _ in 1..count {
        text.push_str(between)?;
    }
    text.push_str("}")?;
    end_of(alloc, text.as_str())
}

#[test]
fn many_operands(rt: HostRuntime) -> Result<(), Fail> {
    assert!(rt;
        in_a_row(rt.alloc(), "{", ", a", 100_000)? == Some(200_001)
            && in_a_row(rt.alloc(), "- ", "+ a", 100_000)? == Some(1000)
    );
    Ok(())
}

/// A mark is told where one stands, and no other token is taken for one.
#[test]
fn marks(rt: HostRuntime) -> Result<(), Fail> {
    let arena = Bump::new(rt.alloc());
    let tokens = tokens_of("a <<< begin 3 (", &arena)?;
    assert!(rt;
        mark_at(tokens, 1) == Some(Mark::SIGNED_SHIFT_LEFT)
            && mark_at(tokens, 4) == Some(Mark::OPEN_PARENTHESIS)
            && is_mark(tokens, 4, Mark::OPEN_PARENTHESIS)
            && !is_mark(tokens, 1, Mark::SHIFT_LEFT)
    );
    for at in [0, 2, 3, 5, u32::MAX] {
        assert!(rt; mark_at(tokens, at) == None);
    }
    Ok(())
}
