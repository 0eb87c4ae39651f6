//! Sources from texts, and what drives and assigns in them as text again.

ghost use Rattle.std.specs.Prelude.{◌<◌, ◌^◌, length, IfOk};
ghost use Rattle.rr_syntax.specs.Items.{spell_source};
ghost use Rattle.rr_syntax.specs.View.{plain_source};

use bumpalo::Bump;
use rr_lex::lex;
use rr_parse::parse;
use rr_syntax::{Arm, Expr, Head, Item, MARKS, Mark, Number, Source, Stmt};
use std::alloc::{AllocError, Global};
use std::test::Fail;

/// The tree of a text that has one.
pub(crate) fn source_of<'a>(text: &str, arena: &'a Bump) -> Result<&'a Source<'a>, Fail>
    ensures { IfOk result (λ source. length (spell_source (plain_source source.now)) < 2 ^ 32) }
{
    if text.len() > 1_000_000 {
        return Err(Fail::from("a text too long"));
    }
    match lex(text.as_bytes(), arena) {
        Err(_) => Err(Fail::from("no tokens")),
        Ok(tokens) => match parse(tokens, arena) {
            Err(_) => Err(Fail::from("no tree")),
            Ok(source) => Ok(source),
        },
    }
}

fn spelled(mark: Mark) -> &'static str {
    let place = mark.0 as usize;
    if place < MARKS.len() {
        MARKS[place]
    } else {
        "?"
    }
}

/// Writes a number in binary, highest digit first, with `s` before it where it is signed.
fn put_number(number: &Number, out: &mut String<Global>) -> Result<(), AllocError> {
    out.push_str(if number.signed { "s" } else { "" })?;
    let digits = number.width.min(128);
    for place in 0..digits {
        let at = digits - 1 - place;
        let digit = number.value >> at & 1;
        out.push_str(if digit == 1 { "1" } else { "0" })?;
    }
    Ok(())
}

/// Writes an expression with its brackets; a select is written as its name and `[]`.
#[cycle(put)]
fn put(expr: &Expr, out: &mut String<Global>) -> Result<(), AllocError> {
    match expr {
        Expr::Name { name, .. } => out.push_str(*name),
        Expr::Literal { number, .. } => put_number(number, out),
        Expr::Bit { name, .. } | Expr::Part { name, .. } | Expr::Indexed { name, .. } => {
            out.push_str(*name)?;
            out.push_str("[]")
        }
        Expr::Unary { op, of } => {
            out.push_str(spelled(*op))?;
            put(of, out)
        }
        Expr::Binary { op, left, right } => {
            put(left, out)?;
            out.push_str(spelled(*op))?;
            put(right, out)
        }
        Expr::Cond { test, yes, no } => {
            put(test, out)?;
            out.push_str("?")?;
            put(yes, out)?;
            out.push_str(":")?;
            put(no, out)
        }
        Expr::Concat { parts } => put_list(parts, out),
        Expr::Repeat { parts, .. } => put_list(parts, out),
        Expr::Cast { of, .. } | Expr::Paren { of } => {
            out.push_str("(")?;
            put(of, out)?;
            out.push_str(")")
        }
    }
}

#[cycle(put)]
fn put_list(parts: &[Expr], out: &mut String<Global>) -> Result<(), AllocError> {
    out.push_str("{")?;
    for part in parts.iter() {
        put(part, out)?;
        out.push_str(",")?;
    }
    out.push_str("}")
}

/// Writes what a loop tells of its name.
fn put_head(head: &Head, out: &mut String<Global>) -> Result<(), AllocError> {
    out.push_str(head.name)?;
    out.push_str("=")?;
    put(head.start, out)?;
    out.push_str(";")?;
    put(head.test, out)?;
    out.push_str(";")?;
    out.push_str(head.step_name)?;
    out.push_str("=")?;
    put(head.step, out)
}

/// Writes a statement, each block in braces and each part of an `if` and each body of a loop in square
/// brackets; of a `case` its selector and its arms.
#[cycle(put_statement)]
fn put_statement(stmt: &Stmt, out: &mut String<Global>) -> Result<(), AllocError> {
    match stmt {
        Stmt::Null => out.push_str(";"),
        Stmt::Block { body, .. } => put_block(body, out),
        Stmt::If { test, yes, no } => {
            out.push_str("if ")?;
            put(test, out)?;
            out.push_str("[")?;
            put_statement(yes, out)?;
            out.push_str("]")?;
            match no {
                None => Ok(()),
                Some(other) => {
                    out.push_str("else[")?;
                    put_statement(other, out)?;
                    out.push_str("]")
                }
            }
        }
        Stmt::Case { on, arms, .. } => {
            out.push_str("case ")?;
            put(on, out)?;
            put_arms(arms, out)
        }
        Stmt::Assign { target, now, value } => {
            put(target, out)?;
            out.push_str(if *now { "=" } else { "<=" })?;
            put(value, out)?;
            out.push_str(";")
        }
        Stmt::For { head, body } => {
            out.push_str("for ")?;
            put_head(head, out)?;
            out.push_str("[")?;
            put_statement(body, out)?;
            out.push_str("]")
        }
    }
}

#[cycle(put_statement)]
fn put_block(body: &[Stmt], out: &mut String<Global>) -> Result<(), AllocError> {
    out.push_str("{")?;
    for part in body.iter() {
        put_statement(part, out)?;
    }
    out.push_str("}")
}

#[cycle(put_statement)]
fn put_arms(arms: &[Arm], out: &mut String<Global>) -> Result<(), AllocError> {
    for arm in arms.iter() {
        out.push_str("|")?;
        put_list(arm.labels, out)?;
        put_statement(arm.body, out)?;
    }
    Ok(())
}

/// Writes what an item drives or assigns.
fn put_item(item: &Item, out: &mut String<Global>) -> Result<(), AllocError> {
    match item {
        Item::Assigns { pairs } => {
            for pair in pairs.iter() {
                put(pair.target, out)?;
                out.push_str(" is ")?;
                put(pair.value, out)?;
                out.push_str(";")?;
            }
            Ok(())
        }
        Item::Always { body, .. } => {
            out.push_str("always ")?;
            put_statement(body, out)
        }
        _ => Ok(()),
    }
}

/// What the modules of a source drive and assign.
pub(crate) fn shown(alloc: Global, source: &Source) -> Result<String<Global>, AllocError> {
    let mut out = String::new(alloc);
    for module in source.modules.iter() {
        out.push_str("module ")?;
        for item in module.items.iter() {
            put_item(item, &mut out)?;
        }
    }
    Ok(out)
}
