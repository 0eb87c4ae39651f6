//! Flat designs of texts with memories (IEEE 1364-2005 sections 4.9.3 and 5.2.2): one signal for each word, in
//! the order of the indices. And where there is none.
use crate::texts::design_of;
use crate::walks::{Case, all_right};
use bumpalo::Bump;
use rr_expr::Entity;
use std::alloc::Global;
use std::test::Fail;

/// Words by falling and rising bounds, from an index other than 0, of vectors and of scalars; among ports
/// and other names; one word; and by parameters that an instance overrides.
const WORDS: [Case; 5] = [
    (
        "module m; reg [7:0] a [0:3]; reg b; endmodule",
        &None,
        "0.a[0]:8 0.a[1]:8 0.a[2]:8 0.a[3]:8 0.b:1 | | | | | | 0 | 0 | 1",
    ),
    (
        "module m; reg r [7:4]; endmodule",
        &None,
        "0.r[4]:1 0.r[5]:1 0.r[6]:1 0.r[7]:1 | | | | | | 0 | 0 | 1",
    ),
    (
        "module m(input k, output reg [1:0] q); reg signed [1:0] a [2:2], b; wire w; endmodule",
        &None,
        "0.k:1 0.q:2 0.a[2]:2 0.b:2 0.w:1 | | | | 0 | 1 | 0 | 0 | 1",
    ),
    (
        "module n #(parameter N = 2); reg [N:0] a [0:N-1]; endmodule module m; n u(); n #(.N(1)) v(); endmodule",
        &None,
        "1.a[0]:3 1.a[1]:3 2.a[0]:2 | | | | | | 1 0 0 | 0 1 | 27",
    ),
    (
        "module m; reg r [65535:65534]; endmodule",
        &None,
        "0.r[65534]:1 0.r[65535]:1 | | | | | | 0 | 0 | 1",
    ),
];

/// Words that `initial` items set: the last value counts, an index without a word sets none, and the index
/// is that of a parameter or of a loop's turn.
const INITIALS: [Case; 4] = [
    (
        "module m; reg [7:0] a [0:1]; initial begin a[0] = 3; a[1] = -1; a[0] = 8'd5; end endmodule",
        &None,
        "0.a[0]:8=5 0.a[1]:8=255 | | i0 | 16/0 | | | 0 | 0 | 1",
    ),
    (
        "module m; reg [7:0] a [4:5]; initial begin a[3] = 1; a[6] = 2; a[5] = 3; a[-1] = 4; end endmodule",
        &None,
        "0.a[4]:8 0.a[5]:8=3 | | i0 | 16/0 | | | 0 | 0 | 1",
    ),
    (
        "module m; parameter P = 1; reg a [0:1]; initial a[P] = 2'd3; endmodule",
        &None,
        "0.a[0]:1 0.a[1]:1=1 | | i0 | 16/0 | | | 0 | 0 | 1",
    ),
    (
        "module m; reg [7:0] a [0:3]; integer i; initial for (i = 0; i < 4; i = i + 1) a[i] = i * 2; endmodule",
        &None,
        "0.a[0]:8 0.a[1]:8=2 0.a[2]:8=4 0.a[3]:8=6 0.i:32 | | i0 | 19/0 | | | 0 | 0 | 1",
    ),
];

/// Faults of declarations with words, the bounds' among the others, then too many words, then too many bits.
const FAULTS: [Case; 13] = [
    (
        "module m;wire r;reg r [0:300];endmodule",
        &None,
        "NameTwice(20)",
    ),
    (
        "module m(output r);reg r [0:1];endmodule",
        &None,
        "NameTwice(23)",
    ),
    ("module m;reg r [x:0];endmodule", &None, "UnknownName(16)"),
    (
        "module m;reg r [0:1];reg r [x:0];endmodule",
        &None,
        "NameTwice(25)",
    ),
    ("module m;reg r [0:65536];endmodule", &None, "BadRange(15)"),
    ("module m;reg r [-1:0];endmodule", &None, "BadRange(15)"),
    (
        "module m;reg a;reg r [a:0];endmodule",
        &None,
        "NotConstant(22)",
    ),
    (
        "module m;reg [128:0] r [0:1];endmodule",
        &None,
        "TooWide(21, 129)",
    ),
    (
        "module m;reg [128:0] r [x:0];endmodule",
        &None,
        "TooWide(21, 129)",
    ),
    (
        "module m;reg r [0:300];endmodule",
        &None,
        "TooMany(Words, 301)",
    ),
    (
        "module m;reg r [0:256];endmodule",
        &None,
        "TooMany(Words, 257)",
    ),
    (
        "module m;reg [127:0] r [600:0];endmodule",
        &None,
        "TooMany(Words, 601)",
    ),
    (
        "module m;reg [127:0] a [0:255], b [255:0], c [0:0];endmodule",
        &None,
        "TooMany(FlatBits, 65664)",
    ),
];

/// Faults of the name of a memory: without an index, with a part, and where a constant must stand.
const NAMES: [Case; 8] = [
    (
        "module m(output y);reg r [0:1];assign y = r;endmodule",
        &None,
        "BadRange(42)",
    ),
    (
        "module m(output y);reg [3:0] r [0:1];assign y = r[1:0];endmodule",
        &None,
        "BadRange(48)",
    ),
    (
        "module m(output y);reg [3:0] r [0:1];assign y = r[0 +: 2];endmodule",
        &None,
        "BadRange(48)",
    ),
    (
        "module m;reg r [0:1];wire [r[0]:0] w;endmodule",
        &None,
        "NotConstant(27)",
    ),
    (
        "module m;reg r [0:1];initial r = 1'b0;endmodule",
        &None,
        "BadRange(29)",
    ),
    (
        "module m;reg r [0:1];reg a;initial r[a] = 1'b0;endmodule",
        &None,
        "NotConstant(37)",
    ),
    (
        "module m;reg a;reg r [0:1];initial r[1] = a;endmodule",
        &None,
        "NotConstant(42)",
    ),
    (
        "module m;initial x[y] = z;endmodule",
        &None,
        "UnknownName(17)",
    ),
];

#[test]
fn memories(rt: HostRuntime) -> Result<(), Fail> {
    all_right(rt.alloc(), &[&WORDS, &INITIALS, &FAULTS, &NAMES])
}

/// What the name of that text stands for in its top, and how many signals its design has.
fn named(alloc: Global, text: &str, name: &str) -> Option<(Option<Entity>, usize)> {
    let arena = Bump::new(alloc);
    let design = design_of(alloc, text, None, &arena).ok()?;
    let scope = design.flat.scopes.first()?;
    Some((scope.find(name), design.flat.signals.len()))
}

#[test]
fn names_of_memories(rt: HostRuntime) -> Result<(), Fail> {
    let low = named(
        rt.alloc(),
        "module m; reg a; reg signed [3:0] r [6:4]; reg b; endmodule",
        "r",
    );
    assert!(rt;
        low == Some((
            Some(Entity::Memory {
                first: 1,
                low: 4,
                words: 3,
                range: Some((3, 0)),
                signed: true,
            }),
            5,
        ))
    );
    let after = named(
        rt.alloc(),
        "module m; reg a; reg [3:0] r [6:4]; reg b; endmodule",
        "b",
    );
    assert!(rt;
        after
            == Some((
                Some(Entity::Signal {
                    id: 4,
                    range: None,
                    signed: false,
                }),
                5,
            ))
    );
    Ok(())
}

#[test]
fn most_words(rt: HostRuntime) -> Result<(), Fail> {
    let full = named(rt.alloc(), "module m; reg r [0:255]; endmodule", "r");
    assert!(rt;
        full == Some((
            Some(Entity::Memory {
                first: 0,
                low: 0,
                words: 256,
                range: None,
                signed: false,
            }),
            256,
        ))
    );
    Ok(())
}
