//! Where the name of a loop may stand, in modules with loops (IEEE 1364-2005 section 9.6).
ghost use Rattle.std.specs.Prelude.{◌<◌, ◌^◌, length, IfOk};

use bumpalo::Bump;
use rr_flat::FlatFault;
use rr_lex::lex;
use rr_loop_rules::{
    LoopNames, loop_names, note_loop_faults, note_part_strays, note_stray, note_strays,
};
use rr_parse::parse;
use rr_syntax::{Events, Item, Module, Token};
use std::alloc::{AllocError, Global};
use std::test::Fail;

const START: &str = "module m(input c, output reg q); integer i, j, k; reg [7:0] a, b; reg i2;";

/// The text before a place that is wrong, and the text from there on; all is right where the first is empty.
type Case = (&'static str, &'static str);

const RIGHT: [&str; 6] = [
    "always @(posedge c) for (i = 0; i < 8; i = i + 1) a[i] <= b[7 - i];",
    "always @(posedge c) for (i = 0; i < 2; i = i + 1) for (j = i; j < 4; j = j + 1) a[i * 4 + j] <= c;",
    // One name in two loops that stand beside each other, and in two items.
    "always @(posedge c) begin for (i = 0; i < 2; i = i + 1) a[i] <= c; for (i = 2; i < 8; i = i + 1) a[i] <= b[i]; end",
    "initial for (i = 0; i < 1; i = i + 1) a = 1; always @(posedge c) for (i = 0; i < 8; i = i + 1) if (b[i]) case (i) 3: a[i] <= c; endcase",
    // An integer that no loop has is a variable.
    "always @* begin k = c; b = k; end always @(posedge c) for (i = 0; i < 8; i = i + 1) a[i] <= k;",
    "always @(posedge c) for (i = 8; i < 8; i = i + 1) ;",
];

const WRONG: [Case; 16] = [
    // The name is no integer of the module.
    (
        "always @(posedge c) for (",
        "a = 0; a < 8; a = a + 1) q <= c;",
    ),
    (
        "always @(posedge c) for (",
        "n = 0; n < 8; n = n + 1) q <= c;",
    ),
    // A loop inside has the same name.
    (
        "always @(posedge c) for (i = 0; i < 2; i = i + 1) for (",
        "i = 0; i < 2; i = i + 1) q <= c;",
    ),
    // The step sets another name.
    (
        "always @(posedge c) for (i = 0; i < 2; ",
        "k = i + 1) q <= c;",
    ),
    // The first value of a loop stands outside it.
    (
        "always @(posedge c) for (i = ",
        "i; i < 2; i = i + 1) q <= c;",
    ),
    // The name is read, assigned or selected from.
    (
        "always @(posedge c) begin for (i = 0; i < 2; i = i + 1) ; q <= ",
        "i; end",
    ),
    (
        "always @(posedge c) begin for (i = 0; i < 2; i = i + 1) ; ",
        "i <= 0; end",
    ),
    (
        "always @(posedge c) for (i = 0; i < 2; i = i + 1) ",
        "i = 0;",
    ),
    (
        "always @(posedge c) for (i = 0; i < 2; i = i + 1) q <= ",
        "i[0];",
    ),
    (
        "always @(posedge c) for (i = 0; i < 2; i = i + 1) {q, ",
        "i[0]} <= c;",
    ),
    (
        "always @(posedge c) for (i = 0; i < 2; i = i + 1) for (j = 0; ",
        "i[0] < 2; j = j + 1) q <= c;",
    ),
    // So it is in other items of the module, and before the loop.
    (
        "always @(posedge c) q <= a[",
        "i]; always @(posedge c) for (i = 0; i < 2; i = i + 1) ;",
    ),
    (
        "initial for (i = 0; i < 2; i = i + 1) ; assign b = a + ",
        "i;",
    ),
    (
        "initial for (i = 0; i < 2; i = i + 1) ; always @(posedge c or posedge ",
        "i) q <= c;",
    ),
    (
        "initial for (i = 0; i < 2; i = i + 1) ; always @(c or ",
        "i) q = c;",
    ),
    // Of two the first.
    (
        "always @(posedge c) for (i = ",
        "j; i < j; k = j) for (j = 0; j < 1; j = j + 1) i = 0;",
    ),
];

/// The first fault of an item.
fn noted(
    alloc: Global,
    found: Option<FlatFault>,
    names: &LoopNames,
    item: &Item,
) -> Result<Option<FlatFault>, AllocError> {
    match item {
        Item::Always { events, body, .. } => {
            let mut found = note_loop_faults(alloc, found, names, body)?;
            match events {
                Events::Star { .. } => Ok(found),
                Events::Edges { list, .. } => {
                    for edge in list.iter() {
                        found = note_stray(found, names, edge.token, edge.name);
                    }
                    Ok(found)
                }
                Events::Levels { list, .. } => Ok(note_part_strays(found, names, list)),
            }
        }
        Item::Initial { body, .. } => note_loop_faults(alloc, found, names, body),
        Item::Assigns { pairs } => {
            let mut found = found;
            for pair in pairs.iter() {
                found = note_strays(found, names, pair.target);
                found = note_strays(found, names, pair.value);
            }
            Ok(found)
        }
        _ => Ok(found),
    }
}

/// The first fault of a module.
fn fault_of(alloc: Global, module: &Module) -> Result<Option<FlatFault>, AllocError> {
    let names = loop_names(alloc, module)?;
    let mut found = None;
    for item in module.items.iter() {
        found = noted(alloc, found, &names, item)?;
    }
    Ok(found)
}

/// A text behind the declarations.
fn text_of(alloc: Global, before: &str, after: &str) -> Result<String<Global>, AllocError> {
    let mut text = String::new(alloc);
    text.push_str(START)?;
    text.push_str(before)?;
    text.push_str(after)?;
    Ok(text)
}

/// The tokens of a text.
fn tokens_of<'a>(text: &str, arena: &'a Bump) -> Result<&'a [Token<'a>], Fail>
    ensures { IfOk result (λ tokens. length tokens.now < 2 ^ 32) }
{
    if text.len() > 1_000_000 {
        return Err(Fail::from("a text too long"));
    }
    match lex(text.as_bytes(), arena) {
        Err(_) => Err(Fail::from("no tokens")),
        Ok(tokens) => Ok(tokens),
    }
}

/// The number of a fault's refusal and the tokens before it, of the first module of a text.
fn told(alloc: Global, text: &str, arena: &Bump) -> Result<Option<(u32, u32)>, Fail> {
    let tokens = tokens_of(text, arena)?;
    let Ok(source) = parse(tokens, arena) else {
        return Err(Fail::from("no tree"));
    };
    let Some(module) = source.modules.first() else {
        return Err(Fail::from("no module"));
    };
    match fault_of(alloc, module)? {
        None => Ok(None),
        Some(fault) => Ok(Some((fault.number(), fault.token()))),
    }
}

#[test]
fn names_of_loops_in_loops(rt: HostRuntime) -> Result<(), Fail> {
    let arena = Bump::new(rt.alloc());
    for text in RIGHT {
        let whole = text_of(rt.alloc(), text, " endmodule")?;
        assert!(rt; told(rt.alloc(), whole.as_str(), &arena)? == None);
    }
    Ok(())
}

#[test]
fn names_of_loops_outside(rt: HostRuntime) -> Result<(), Fail> {
    let arena = Bump::new(rt.alloc());
    for (before, after) in WRONG {
        let start = text_of(rt.alloc(), before, "")?;
        let at = tokens_of(start.as_str(), &arena)?.len() as u32;
        let mut whole = text_of(rt.alloc(), before, after)?;
        whole.push_str(" endmodule")?;
        assert!(rt; told(rt.alloc(), whole.as_str(), &arena)? == Some((37, at)));
    }
    Ok(())
}
