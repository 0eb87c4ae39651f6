//! Statements at tokens.

ghost use Rattle.std.specs.Prelude.{◌≡◌, ◌+◌, length, IfOk};
ghost use Rattle.rr_syntax.specs.Items.{depth_source, spell_source};
ghost use Rattle.rr_syntax.specs.Statements.{depth_statement, spell_statement};
ghost use Rattle.rr_syntax.specs.View.{plain_source, plain_statement};

use crate::texts::{push_times, tokens_of};
use bumpalo::Bump;
use bumpalo::collections::into_bump_slice;
use rr_parse_expr::{ParseFault, is_keyword, keyword_at};
use rr_parse_stmt::stmt;
use rr_syntax::{Arm, Events, Expr, Head, Item, Keyword, Module, Source, Stmt, depth, spell_len};
use std::alloc::{AllocError, Global};
use std::test::Fail;

fn show_expr(expr: &Expr, out: &mut String<Global>) -> Result<(), AllocError> {
    match expr {
        Expr::Name { name, .. } => out.push_str(*name),
        _ => out.push_str("*"),
    }
}

fn show_assignment(
    target: &Expr,
    now: bool,
    value: &Expr,
    out: &mut String<Global>,
) -> Result<(), AllocError> {
    show_expr(target, out)?;
    out.push_str(if now { "=" } else { "<=" })?;
    show_expr(value, out)?;
    out.push_str(";")
}

fn case_word(kind: Keyword) -> &'static str {
    if kind == Keyword::CASE {
        "case "
    } else if kind == Keyword::CASEX {
        "casex "
    } else {
        "casez "
    }
}

fn show_head(head: &Head, out: &mut String<Global>) -> Result<(), AllocError> {
    out.push_str("for ")?;
    out.push_str(head.name)?;
    out.push_str("=")?;
    show_expr(head.start, out)?;
    out.push_str(";")?;
    show_expr(head.test, out)?;
    out.push_str(";")?;
    out.push_str(head.step_name)?;
    out.push_str("=")?;
    show_expr(head.step, out)
}

/// Writes a statement with a pair of brackets for each part of an `if` and for what a loop repeats.
#[cycle(show)]
fn show(stmt: &Stmt, out: &mut String<Global>) -> Result<(), AllocError> {
    match stmt {
        Stmt::Null => out.push_str(";"),
        Stmt::Block { label, body } => {
            out.push_str("{")?;
            if let Some(name) = label {
                out.push_str(name.name)?;
                out.push_str(":")?;
            }
            for part in body.iter() {
                show(part, out)?;
            }
            out.push_str("}")
        }
        Stmt::If { test, yes, no } => {
            out.push_str("if ")?;
            show_expr(test, out)?;
            out.push_str("(")?;
            show(yes, out)?;
            out.push_str(")")?;
            match no {
                None => Ok(()),
                Some(other) => {
                    out.push_str("else(")?;
                    show(other, out)?;
                    out.push_str(")")
                }
            }
        }
        Stmt::Case { kind, on, arms } => {
            out.push_str(case_word(*kind))?;
            show_expr(on, out)?;
            for arm in arms.iter() {
                show_arm(arm, out)?;
            }
            out.push_str(" end")
        }
        Stmt::Assign { target, now, value } => show_assignment(target, *now, value, out),
        Stmt::For { head, body } => {
            show_head(head, out)?;
            out.push_str("(")?;
            show(body, out)?;
            out.push_str(")")
        }
    }
}

#[cycle(show)]
fn show_arm(arm: &Arm, out: &mut String<Global>) -> Result<(), AllocError> {
    out.push_str("|")?;
    for label in arm.labels.iter() {
        show_expr(label, out)?;
        out.push_str(",")?;
    }
    out.push_str(if arm.colon { ":" } else { "" })?;
    show(arm.body, out)
}

/// The statement at the front of a text and the number of its tokens, written as one text.
fn shown(alloc: Global, text: &str) -> Result<String<Global>, Fail> {
    let arena = Bump::new(alloc);
    let tokens = tokens_of(text, &arena)?;
    let mut out = String::new(alloc);
    match stmt(tokens, 0, 500, &arena) {
        Err(ParseFault::Syntax(at)) => {
            let place = format!(in alloc; "fault {at}")?;
            out.push_str(place.as_str())?;
        }
        Err(_) => out.push_str("other fault")?,
        Ok((tree, next)) => {
            show(tree, &mut out)?;
            let count = format!(in alloc; " {next}")?;
            out.push_str(count.as_str())?;
        }
    }
    Ok(out)
}

/// Blocks and assignments, as they are shown.
const BLOCKS: [(&str, &str); 10] = [
    ("; ;", "; 1"),
    ("begin end", "{} 2"),
    ("begin : b ; a = b ; end", "{b:;a=b;} 9"),
    ("begin begin end ; end end", "{{};} 5"),
    ("a = b ; c", "a=b; 4"),
    ("a <= b ;", "a<=b; 4"),
    ("a <= b <= c ;", "a<=*; 6"),
    ("a [ 2 ] <= b ;", "*<=b; 7"),
    ("a [ 2 : 1 ] = b ;", "*=b; 9"),
    ("{ a , { b [ i ] } } = c + d ;", "*=*; 15"),
];

#[test]
fn each_block_and_assignment(rt: HostRuntime) -> Result<(), Fail> {
    for &(text, wanted) in BLOCKS.iter() {
        assert!(rt; shown(rt.alloc(), text)?.as_str() == wanted, "{text}");
    }
    Ok(())
}

/// Statements with `if` and `case`, as they are shown.
const CHOICES: [(&str, &str); 10] = [
    ("if ( a ) ; end", "if a(;) 5"),
    ("if ( a ) b = c ; else ;", "if a(b=c;)else(;) 10"),
    ("if ( a ) if ( b ) ; else ;", "if a(if b(;)else(;)) 11"),
    (
        "if ( a ) begin if ( b ) ; end else ;",
        "if a({if b(;)})else(;) 13",
    ),
    (
        "if ( a ) ; else if ( b ) ; else ;",
        "if a(;)else(if b(;)else(;)) 13",
    ),
    ("case ( a ) b : ; endcase", "case a|b,:; end 8"),
    (
        "casez ( a ) b , 2 : ; default ; endcase",
        "casez a|b,*,:;|; end 12",
    ),
    (
        "case ( a ) default : if ( b ) ; c : ; endcase",
        "case a|:if b(;)|c,:; end 15",
    ),
    ("case ( a ) b ? c : d : ; endcase", "case a|*,:; end 12"),
    (
        "casex ( { a , b } ) default begin end endcase",
        "casex *|{} end 12",
    ),
];

#[test]
fn each_if_and_case(rt: HostRuntime) -> Result<(), Fail> {
    for &(text, wanted) in CHOICES.iter() {
        assert!(rt; shown(rt.alloc(), text)?.as_str() == wanted, "{text}");
    }
    Ok(())
}

/// Loops, as they are shown.
const LOOPS: [(&str, &str); 5] = [
    (
        "for ( i = 0 ; i < n ; i = i + 1 ) a = i ; c",
        "for i=*;*;i=*(a=i;) 20",
    ),
    ("for ( a = b ; a ; c = b ) ;", "for a=b;a;c=b(;) 13"),
    (
        "if ( a ) for ( i = b ; i ; i = b ) ; else ;",
        "if a(for i=b;i;i=b(;))else(;) 19",
    ),
    (
        "if ( a ) for ( i = b ; i ; i = b ) if ( c ) ; else ;",
        "if a(for i=b;i;i=b(if c(;)else(;))) 23",
    ),
    (
        "case ( a ) b : for ( i = b ; i ; i = b ) for ( j = i ; j ; j = i ) ; endcase",
        "case a|b,:for i=b;i;i=b(for j=i;j;j=i(;)) end 32",
    ),
];

#[test]
fn each_loop(rt: HostRuntime) -> Result<(), Fail> {
    for &(text, wanted) in LOOPS.iter() {
        assert!(rt; shown(rt.alloc(), text)?.as_str() == wanted, "{text}");
    }
    Ok(())
}

/// Texts with no statement at their front.
const NO_STATEMENTS: &[&str] = &[
    "",
    "end",
    "else ;",
    "begin",
    "begin : ; end",
    "begin : 2 end",
    "begin a = b end",
    "a",
    "a = ;",
    "a = b",
    "a + b = c ;",
    "2 = a ;",
    "( a ) = b ;",
    "{ a , 2 } = b ;",
    "{ 2 { a } } = b ;",
    "- a = b ;",
    "a == b ;",
    "if a ;",
    "if ( ) ;",
    "if ( a ; )",
    "if ( a )",
    "if ( a ) else ;",
    "if ( a ) ; else",
    "case a b : ; endcase",
    "case ( a ) endcase",
    "case ( a ) b ; endcase",
    "case ( a ) b , : ; endcase",
    "case ( a ) b : endcase",
    "case ( a ) b : ;",
    "case ( a ) default : ; default ; endcase",
    "case ( a ) default : ; b : ; default : ; endcase",
    "for a = b ; a ; a = b ) ;",
    "for ( a <= b ; a ; a = b ) ;",
    "for ( a [ 0 ] = b ; a ; a = b ) ;",
    "for ( ; a ; a = b ) ;",
    "for ( a = b ; ; a = b ) ;",
    "for ( a = b ; a ; ) ;",
    "for ( a = b , a ; a = b ) ;",
    "for ( a = b ; a ; a = b ; ) ;",
    "for ( a = b ; a ; a + b ) ;",
    "for ( a = b ; a ; a = b )",
    "for ( a = b ; a ; a = b ) end",
];

/// A fault of a statement stands at its first token.
#[test]
fn no_statement(rt: HostRuntime) -> Result<(), Fail> {
    for &text in NO_STATEMENTS.iter() {
        assert!(rt; shown(rt.alloc(), text)?.as_str() == "fault 0", "{text}");
    }
    Ok(())
}

/// Whether a statement of `deep` times a front, a middle, and as many ends is read within a depth.
fn nested(
    alloc: Global,
    front: &str,
    middle: &str,
    end: &str,
    deep: u32,
    depth: u32,
) -> Result<bool, Fail> {
    let mut text = String::new(alloc);
    push_times(&mut text, front, deep)?;
    text.push_str(middle)?;
    push_times(&mut text, end, deep)?;
    let arena = Bump::new(alloc);
    let tokens = tokens_of(text.as_str(), &arena)?;
    if depth > 500 {
        return Ok(false);
    }
    Ok(stmt(tokens, 0, depth, &arena).is_ok())
}

/// A front, a middle and an end, how often the front and the end stand, a depth, and whether it is read.
const DEPTHS: [(&str, &str, &str, u32, u32, bool); 17] = [
    ("begin ", ";", " end", 500, 500, true),
    ("begin ", ";", " end", 501, 500, false),
    ("if ( a ) ", ";", "", 500, 500, true),
    ("if ( a ) ", ";", "", 501, 500, false),
    ("if ( a ) ; else ", "b = c ;", "", 499, 500, true),
    ("if ( a ) ; else ", "b = c ;", "", 500, 500, false),
    ("case ( a ) b : ", ";", " endcase", 250, 500, true),
    ("case ( a ) b : ", ";", " endcase", 251, 500, false),
    ("for ( a = b ; a ; a = b ) ", ";", "", 500, 500, true),
    ("for ( a = b ; a ; a = b ) ", ";", "", 501, 500, false),
    ("for ( a = ( b ) ; a ; a = b ) ", ";", "", 1, 2, true),
    ("for ( a = b ; a ; a = ( b ) ) ", ";", "", 1, 1, false),
    ("begin ", "a = ( ( b ) ) ;", " end", 497, 500, true),
    ("begin ", "a = ( ( b ) ) ;", " end", 498, 500, false),
    ("", ";", "", 1, 0, true),
    ("", "a = b ;", "", 1, 0, false),
    ("", "a = b ;", "", 1, 1, true),
];

/// The levels of statements, arms and expressions count together.
#[test]
fn depths(rt: HostRuntime) -> Result<(), Fail> {
    for (front, middle, end, deep, depth, expected) in DEPTHS.iter() {
        let is_read = nested(rt.alloc(), front, middle, end, *deep, *depth)?;
        assert!(rt; is_read == *expected, "{front} {deep}");
    }
    Ok(())
}

/// Leaves and names have the numbers of their tokens, also where a statement begins later.
#[test]
fn token_numbers(rt: HostRuntime) -> Result<(), Fail> {
    let arena = Bump::new(rt.alloc());
    let tokens = tokens_of("; begin : b a <= c ; end", &arena)?;
    match stmt(tokens, 1, 500, &arena) {
        Ok(
            (
                Stmt::Block {
                    label: Some(name),
                    body,
                },
                9,
            ),
        ) => {
            assert!(rt;
                name.token == 3
                    && matches!(
                        body.get(0),
                        Some(Stmt::Assign {
                            target: Expr::Name { token: 4, .. },
                            now: false,
                            value: Expr::Name { token: 6, .. }
                        })
                    )
            );
        }
        _ => assert!(rt; false),
    }
    Ok(())
}

/// The names of a loop have the numbers of their tokens.
#[test]
fn loop_numbers(rt: HostRuntime) -> Result<(), Fail> {
    let arena = Bump::new(rt.alloc());
    let tokens = tokens_of("; for ( i = a + b ; i ; i = c ) d = i ;", &arena)?;
    match stmt(tokens, 1, 500, &arena) {
        Ok((Stmt::For { head, body }, 19)) => {
            assert!(rt; head.token == 3 && head.step_token == 11);
            assert!(rt; matches!(head.test, Expr::Name { token: 9, .. }));
            assert!(rt; matches!(head.step, Expr::Name { token: 13, .. }));
            assert!(rt;
                matches!(
                    body,
                    Stmt::Assign {
                        target: Expr::Name { token: 15, .. },
                        ..
                    }
                )
            );
        }
        _ => assert!(rt; false),
    }
    Ok(())
}

/// A block of many statements and a `case` of many labels.
#[test]
fn many_parts(rt: HostRuntime) -> Result<(), Fail> {
    let arena = Bump::new(rt.alloc());
    let mut text = String::new(rt.alloc());
    text.push_str("begin case ( a ) b")?;
    push_times(&mut text, ", b", 50_000)?;
    text.push_str(": ; endcase")?;
    push_times(&mut text, "; ;", 50_000)?;
    text.push_str("end")?;
    let tokens = tokens_of(text.as_str(), &arena)?;
    assert!(rt; matches!(stmt(tokens, 0, 500, &arena), Ok((_, 200_010))));
    Ok(())
}

/// A source whose one module has one item, `always @*` and this statement.
fn source_of<'a>(body: &'a Stmt<'a>, arena: &'a Bump) -> Result<Source<'a>, AllocError>
    ensures lengths { IfOk result (λ s. length (spell_source (plain_source s)) ≡ length (spell_statement (plain_statement body.now)) + 7) }
    ensures levels { IfOk result (λ s. depth_source (plain_source s) ≡ depth_statement (plain_statement body.now) + 3) }
{
    let mut items = Vec::new(arena);
    items.push(Item::Always {
        events: Events::Star { brackets: false },
        body,
        token: 0,
    })?;
    let mut modules = Vec::new(arena);
    modules.push(Module {
        name: "m",
        token: 0,
        params: into_bump_slice(Vec::new(arena)),
        header: None,
        groups: into_bump_slice(Vec::new(arena)),
        items: into_bump_slice(items),
    })?;
    Ok(Source {
        modules: into_bump_slice(modules),
    })
}

/// The number of tokens and the depth of a whole source with `deep` times `if (a)` in one another.
fn measures(alloc: Global, deep: u32) -> Result<Option<(u64, u32)>, Fail> {
    let arena = Bump::new(alloc);
    let mut text = String::new(alloc);
    push_times(&mut text, "if ( a ) ", deep)?;
    text.push_str(";")?;
    let tokens = tokens_of(text.as_str(), &arena)?;
    match stmt(tokens, 0, 500, &arena) {
        Err(_) => Ok(None),
        Ok((body, _)) => {
            let source = source_of(body, &arena)?;
            Ok(Some((spell_len(&source), depth(&source))))
        }
    }
}

/// A source of the greatest depth, made in the arena, on the default stack.
#[test]
fn whole_source(rt: HostRuntime) -> Result<(), Fail> {
    assert!(rt; measures(rt.alloc(), 497)? == Some((1996, 500)));
    Ok(())
}

/// A reserved word is told where one stands, and no other token is taken for one.
#[test]
fn reserved_words(rt: HostRuntime) -> Result<(), Fail> {
    let arena = Bump::new(rt.alloc());
    let tokens = tokens_of("a begin <= 3 endcase", &arena)?;
    assert!(rt;
        keyword_at(tokens, 1) == Some(Keyword::BEGIN)
            && keyword_at(tokens, 4) == Some(Keyword::ENDCASE)
            && is_keyword(tokens, 4, Keyword::ENDCASE)
            && !is_keyword(tokens, 1, Keyword::END)
    );
    for at in [0, 2, 3, 5, u32::MAX] {
        assert!(rt; keyword_at(tokens, at) == None);
    }
    Ok(())
}
