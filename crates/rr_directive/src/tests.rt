//! Rows of expansions, origins and faults.
use crate::{DirectiveFault, expand, place};
use std::alloc::Global;

/// Whether a file expands to this text.
fn gives(alloc: Global, file: &[u8], text: &[u8]) -> bool {
    if file.len() > 1000 {
        return false;
    }
    match expand(alloc, file) {
        Ok(expanded) => {
            expanded.text.as_slice() == text && expanded.origins.len() == expanded.text.len()
        }
        Err(_) => false,
    }
}

/// Whether a file is refused so.
fn fails(alloc: Global, file: &[u8], fault: DirectiveFault) -> bool {
    if file.len() > 1000 {
        return false;
    }
    match expand(alloc, file) {
        Ok(_) => false,
        Err(found) => found == fault,
    }
}

/// Whether the byte at a place comes from there.
fn comes(alloc: Global, file: &[u8], at: usize, offset: u32, exact: bool) -> bool {
    if file.len() > 1000 {
        return false;
    }
    match expand(alloc, file) {
        Ok(expanded) => match expanded.origins.get(at) {
            Some(origin) => origin.offset == offset && origin.exact == exact,
            None => false,
        },
        Err(_) => false,
    }
}

#[test]
fn texts_are_given(rt: HostRuntime) {
    let alloc = rt.alloc();
    assert!(rt; gives(alloc, b"", b""));
    assert!(rt; gives(alloc, b"a // `B\n\\c`D e", b"a // `B\n\\c`D e"));
    assert!(rt; gives(alloc, b"`define A 4'd2\nq + `A;", b" \nq + 4'd2;"));
    assert!(rt; gives(alloc, b"`define A x // c\n`A;", b" // c\nx ;"));
    assert!(rt; gives(alloc, b"`define A x\\\ny\n`A;", b" \nx y;"));
    assert!(rt; gives(alloc, b"`define A `B`B\n`define B b\n`A", b" \n \nbb"));
    assert!(rt; gives(alloc, b"`define A a\n`define A b\n`A", b" \n \nb"));
    assert!(rt; gives(alloc, b"`define W 8\n`W'd0", b" \n8'd0"));
    assert!(rt; gives(alloc, b"`define E\nx`E;", b" \nx;"));
    assert!(rt; gives(alloc, b"`timescale 1ns/`X\nm", b"`timescale 1ns/`X\nm"));
    assert!(rt; gives(alloc, b"`include \"a`b\"\n", b"`include \"a`b\"\n"));
    assert!(rt; gives(alloc, b"`define A x /* y\n`A", b" \nx /* y"));
    assert!(rt; gives(alloc, b"` `1 ``", b"` `1 ``"));
    assert!(rt; gives(alloc, b"`define S _q\nx`S", b" \nx_q"));
    assert!(rt;
        gives(
            alloc,
            b"`define A x /* // */\ny `A */ z",
            b" // */\ny x /*  */ z"
        )
    );
    assert!(rt; gives(alloc, b"`define A `\n`A", b" \n`"));
    assert!(rt; gives(alloc, b"`define N \\a\n`N;", b" \n\\a;"));
    assert!(rt; gives(alloc, b"`define E\n4`E'd2", b" \n4'd2"));
    assert!(rt; gives(alloc, b"`undef A", b" "));
    assert!(rt; gives(alloc, b"`define E\n\\x`E\xc8", b" \n\\x`E\xc8"));
}

/// Lines that end by CR and LF.
#[test]
fn returns_end_lines(rt: HostRuntime) {
    let alloc = rt.alloc();
    assert!(rt; gives(alloc, b"`define W 8\r\n`W'd0", b" \r\n8'd0"));
    assert!(rt; gives(alloc, b"`define E\r\nx`E;", b" \r\nx;"));
    assert!(rt; gives(alloc, b"`define A x\\\r\ny\r\n`A;", b" \r\nx y;"));
    assert!(rt; gives(alloc, b"`define A x\\\ry\n`A;", b" \nx\\\ry;"));
}

#[test]
fn branches_are_taken(rt: HostRuntime) {
    let alloc = rt.alloc();
    assert!(rt; gives(alloc, b"`ifdef A\nx`else y`endif z", b"   y  z"));
    assert!(rt;
        gives(
            alloc,
            b"`define A\n`ifdef A\nx`else y`endif z",
            b" \n \nx   z"
        )
    );
    assert!(rt; gives(alloc, b"`ifndef A\nx`else y`endif z", b" \nx   z"));
    assert!(rt;
        gives(
            alloc,
            b"`define A\n`undef A\n`ifdef A\nx`endif",
            b" \n \n  "
        )
    );
    assert!(rt;
        gives(
            alloc,
            b"`ifdef A`ifdef B x`else y`endif`U`define(`endif",
            b"  "
        )
    );
    assert!(rt; gives(alloc, b"`ifdef A /* `endif */ x`endif", b"  "));
    assert!(rt; gives(alloc, b"`ifdef A x // `endif\n`endif", b"  "));
    assert!(rt; gives(alloc, b"`ifdef A\n`define F(x) x\n`endif", b"  "));
}

#[test]
fn faults_are_told(rt: HostRuntime) {
    let alloc = rt.alloc();
    assert!(rt; fails(alloc, b"`A", DirectiveFault::UnknownMacro(0)));
    assert!(rt; fails(alloc, b"`ifdef A", DirectiveFault::BadDirective(0)));
    assert!(rt; fails(alloc, b"`define A `A\n`A", DirectiveFault::MacroLoop(13)));
    assert!(rt; fails(alloc, b"`define A `B\n`A", DirectiveFault::UnknownMacro(13)));
    assert!(rt;
        fails(
            alloc,
            b"`define A `B\n`define B `A\n x `B",
            DirectiveFault::MacroLoop(29)
        )
    );
    assert!(rt; fails(alloc, b"`define\nA", DirectiveFault::BadDirective(0)));
    assert!(rt; fails(alloc, b"`define A(x) x\n", DirectiveFault::BadDirective(0)));
    assert!(rt; fails(alloc, b"`define else x\n", DirectiveFault::BadDirective(0)));
    assert!(rt;
        fails(
            alloc,
            b"x `define A `ifdef B\n",
            DirectiveFault::BadDirective(2)
        )
    );
    assert!(rt; fails(alloc, b"`else", DirectiveFault::BadDirective(0)));
    assert!(rt;
        fails(
            alloc,
            b"`ifdef A `else `else `endif",
            DirectiveFault::BadDirective(15)
        )
    );
    assert!(rt; fails(alloc, b"`endif", DirectiveFault::BadDirective(0)));
    assert!(rt; fails(alloc, b"`elsif A", DirectiveFault::BadDirective(0)));
    assert!(rt; fails(alloc, b"`ifndef A `U", DirectiveFault::BadDirective(0)));
    assert!(rt; fails(alloc, b"`U `ifndef A", DirectiveFault::UnknownMacro(0)));
    assert!(rt;
        fails(
            alloc,
            b"`ifndef A `U `endif",
            DirectiveFault::UnknownMacro(10)
        )
    );
    assert!(rt; fails(alloc, b"`ifdef \nA", DirectiveFault::BadDirective(0)));
    assert!(rt;
        fails(
            alloc,
            b"`ifdef A\n`elsif B\n`endif",
            DirectiveFault::BadDirective(9)
        )
    );
    assert!(rt;
        fails(
            alloc,
            b"`ifdef A\n`timescale `endif",
            DirectiveFault::BadDirective(0)
        )
    );
    assert!(rt; fails(alloc, b"`pragma x", DirectiveFault::UnknownMacro(0)));
    assert!(rt;
        fails(
            alloc,
            b"`ifdef A `ifdef \n`endif",
            DirectiveFault::BadDirective(0)
        )
    );
    assert!(rt;
        fails(
            alloc,
            b"`define A a\n`undef A\n`A",
            DirectiveFault::UnknownMacro(21)
        )
    );
}

#[test]
fn origins_are_told(rt: HostRuntime) {
    let alloc = rt.alloc();
    assert!(rt; comes(alloc, b"`define A bc\nx `A y", 0, 0, false));
    assert!(rt; comes(alloc, b"`define A bc\nx `A y", 2, 13, true));
    assert!(rt; comes(alloc, b"`define A bc\nx `A y", 5, 15, false));
    assert!(rt; comes(alloc, b"`define A bc\nx `A y", 7, 18, true));
    assert!(rt; comes(alloc, b"a /* b */ c", 5, 5, false));
    assert!(rt; comes(alloc, b"\\ab c", 1, 1, false));
    assert!(rt; comes(alloc, b"\\ab c", 2, 2, true));
    assert!(rt; comes(alloc, b"(* // *) assign y = ;", 20, 20, false));
    assert!(rt; comes(alloc, b"`ifdef A\n`else\nx`endif", 3, 15, true));
}

/// Whether the byte at a place of the text stands there in the file.
fn stands(alloc: Global, file: &[u8], at: u32, offset: u32) -> bool {
    if file.len() > 1000 {
        return false;
    }
    match expand(alloc, file) {
        Ok(expanded) => { (at as usize) < expanded.text.len() && place(&expanded, at) == offset }
        Err(_) => false,
    }
}

#[test]
fn places_are_told(rt: HostRuntime) {
    let alloc = rt.alloc();
    assert!(rt; stands(alloc, b"`define A bc\nx `A y", 2, 13));
    assert!(rt; stands(alloc, b"`define A bc\nx `A y", 5, 15));
    assert!(rt; stands(alloc, b"`define A bc\nx `A y", 7, 18));
}

/// An escaped name that begins inside an attribute may hold what the lexer reads as a token and the front
/// of a comment: a text put in after that token would hide the use that ends the comment.
#[test]
fn names_are_not_cut(rt: HostRuntime) {
    let alloc = rt.alloc();
    assert!(rt;
        gives(
            alloc,
            b"`define Y */\nif((* \\z*)a/*c `Y )",
            b" \nif((* \\z*)a/*c */ )"
        )
    );
    assert!(rt;
        gives(
            alloc,
            b"`define Y */\nif((* \\z*)a && s /*c `Y )",
            b" \nif((* \\z*)a && s /*c `Y )"
        )
    );
    assert!(rt; comes(alloc, b"`define Y */\nif((* \\z*)a/*c `Y )", 11, 22, false));
}
