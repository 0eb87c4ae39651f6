//! Targets, labels, kinds of assignment and races of small designs, by the rules of IEEE 1364-2005 sections
//! 6.1, 9.2, 9.5.1 and 11.4.
use crate::texts::{byte_of, design_of};
use bumpalo::Bump;
use rr_assign::{first_bad_target, first_race, first_wild_label, first_wrong_kind};
use rr_flat::Flat;
use rr_syntax::Token;
use std::alloc::{AllocError, Global};
use std::test::Fail;

#[derive(Clone, Copy)]
enum Law {
    Target,
    Label,
    Kind,
    Race,
}

/// What a law says of a text: the byte at which the first token that breaks it begins.
#[derive(Clone, Copy, Debug, PartialEq, Eq)]
enum Told {
    NoDesign,
    Kept,
    Broken(u32),
}

/// A law, a text, and what the law says of it.
type Case = (Law, &'static str, Told);

fn asked(alloc: Global, law: Law, flat: &Flat) -> Result<Option<u32>, AllocError> {
    match law {
        Law::Target => first_bad_target(alloc, flat),
        Law::Label => Ok(first_wild_label(flat)),
        Law::Kind => first_wrong_kind(alloc, flat),
        Law::Race => first_race(alloc, flat),
    }
}

fn placed(tokens: &[Token<'_>], broken: Option<u32>) -> Told {
    match broken {
        None => Told::Kept,
        Some(at) => match byte_of(tokens, at) {
            Some(byte) => Told::Broken(byte),
            None => Told::NoDesign,
        },
    }
}

fn answer(alloc: Global, law: Law, text: &str) -> Result<Told, AllocError> {
    let arena = Bump::new(alloc);
    match design_of(alloc, text, &arena) {
        Err(_) => Ok(Told::NoDesign),
        Ok(design) => Ok(placed(design.tokens, asked(alloc, law, &design.flat)?)),
    }
}

/// The place of the first case that is told otherwise.
fn first_wrong(alloc: Global, cases: &[Case]) -> Result<Option<usize>, AllocError> {
    for (place, case) in cases.iter().enumerate() {
        if answer(alloc, case.0, case.1)? != case.2 {
            return Ok(Some(place));
        }
    }
    Ok(None)
}

/// Fails at the first case of these tables that is told otherwise.
fn all_right(alloc: Global, tables: &[&[Case]]) -> Result<(), Fail> {
    for (table, cases) in tables.iter().enumerate() {
        if let Some(place) = first_wrong(alloc, cases)? {
            return Err(Fail::new(format_args!("case {place} of table {table}")));
        }
    }
    Ok(())
}

const WHOLE_TARGETS: [Case; 4] = [
    (
        Law::Target,
        "module m(input a, output y); assign y = a; endmodule",
        Told::Kept,
    ),
    (
        Law::Target,
        "module m(input a, output y); assign a = y; endmodule",
        Told::Broken(36),
    ),
    (
        Law::Target,
        "module m(input a, output y); always @* y = a; endmodule",
        Told::Broken(39),
    ),
    (
        Law::Target,
        "module m(input a, output reg y); assign y = a; endmodule",
        Told::Broken(40),
    ),
];

const PARTS_OF_TARGETS: [Case; 3] = [
    (
        Law::Target,
        "module m(input [1:0] i, output [3:0] y); assign y[i] = 1'b1; endmodule",
        Told::Broken(48),
    ),
    (
        Law::Target,
        "module m(input [1:0] i, output [3:0] y); assign y[2 - 1] = i[0]; endmodule",
        Told::Kept,
    ),
    (
        Law::Target,
        "module m(input a, output y); assign {y, a} = 2'b0; endmodule",
        Told::Broken(40),
    ),
];

const TARGETS_OF_BLOCKS: [Case; 2] = [
    (
        Law::Target,
        "module m(input a, output reg y); parameter P = 1; always @* begin y = a; P = a; end endmodule",
        Told::Broken(73),
    ),
    (
        Law::Target,
        "module m(input a, output reg y); always @* begin y = a; a = y; end endmodule",
        Told::Broken(56),
    ),
];

const TARGETS_OF_INITIAL_ITEMS: [Case; 6] = [
    (
        Law::Target,
        "module m(input a, output reg y); integer i; initial begin y = 1'b1; i = 2; end always @* y = a; endmodule",
        Told::Kept,
    ),
    (
        Law::Target,
        "module m(output y); initial y = 1'b1; endmodule",
        Told::Broken(28),
    ),
    (
        Law::Target,
        "module m(input a, output reg y); initial begin y = 1'b1; a = 1'b1; end endmodule",
        Told::Broken(57),
    ),
    (
        Law::Target,
        "module m(output reg y); parameter P = 1; initial P = 0; endmodule",
        Told::Broken(49),
    ),
    (
        Law::Target,
        "module m(input a, output reg y); initial a = 1'b1; always @* a = y; endmodule",
        Told::Broken(41),
    ),
    (
        Law::Target,
        "module c(output reg y, output z); initial z = 1'b0; endmodule module m(output y, output z); c one(y, z); endmodule",
        Told::Broken(42),
    ),
];

const TARGETS_OF_CONNECTIONS: [Case; 3] = [
    (
        Law::Target,
        "module c(input a, output y); assign y = a; endmodule module m(input a, output y); c one(a, a & y); endmodule",
        Told::Broken(91),
    ),
    (
        Law::Target,
        "module c(input a, output y); assign y = a; endmodule module m(input a, output reg y); c one(a, y); endmodule",
        Told::Broken(95),
    ),
    (
        Law::Target,
        "module c(input a, output y); assign y = a; endmodule module m(input a, output y); c one(a, y); endmodule",
        Told::Kept,
    ),
];

const LABELS: [Case; 5] = [
    (
        Law::Label,
        "module m(input [1:0] a, output reg y); always @* case (a) 2'b01: y = 1'b0; default: y = 1'b1; endcase endmodule",
        Told::Kept,
    ),
    (
        Law::Label,
        "module m(input [1:0] a, output reg y); always @* case (a) 2'b0x: y = 1'b0; default: y = 1'b1; endcase endmodule",
        Told::Broken(58),
    ),
    (
        Law::Label,
        "module m(input [1:0] a, output reg y); always @* case (a) 2'b00, 2'b1z: y = 1'b0; default: y = 1'b1; endcase endmodule",
        Told::Broken(65),
    ),
    (
        Law::Label,
        "module m(input [1:0] a, output reg y); always @* casez (a) 2'b0?: y = 1'b0; default: y = 1'b1; endcase endmodule",
        Told::Kept,
    ),
    (
        Law::Label,
        "module m(input [1:0] a, output reg y); always @* casez (a) 2'b0x: y = 1'b0; default: y = 1'b1; endcase endmodule",
        Told::Broken(59),
    ),
];

const LABELS_OF_WILD_CASES: [Case; 5] = [
    (
        Law::Label,
        "module m(input [1:0] a, output reg y); always @* casex (a) 2'b0x: y = 1'b0; default: y = 1'b1; endcase endmodule",
        Told::Kept,
    ),
    (
        Law::Label,
        "module m(input [1:0] a, output reg y); always @* casez (a) (2'b0?): y = 1'b0; default: y = 1'b1; endcase endmodule",
        Told::Kept,
    ),
    (
        Law::Label,
        "module m(input [1:0] a, output reg y); always @* casez (a) {1'b0, 1'b?}: y = 1'b0; default: y = 1'b1; endcase endmodule",
        Told::Broken(66),
    ),
    (
        Law::Label,
        "module m(input [1:0] a, output reg y); always @* casex (a) ~2'bx0: y = 1'b0; default: y = 1'b1; endcase endmodule",
        Told::Broken(60),
    ),
    (
        Law::Label,
        "module m(input a, output reg y); always @* if (a) y = a; else begin case (y) 1'bx: y = a; endcase end endmodule",
        Told::Broken(77),
    ),
];

const KINDS_OF_ONE_BLOCK: [Case; 3] = [
    (
        Law::Kind,
        "module m(input clk, input d, output reg y, output reg z); always @(posedge clk) y <= d; always @* z = y; endmodule",
        Told::Kept,
    ),
    (
        Law::Kind,
        "module m(input clk, input d, output reg y, output reg z); always @* y <= d; endmodule",
        Told::Broken(68),
    ),
    (
        Law::Kind,
        "module m(input clk, input d, output reg y, output reg z); always @(posedge clk) if (d) y <= d; else y = d; endmodule",
        Told::Broken(100),
    ),
];

const KINDS_OF_TWO_BLOCKS: [Case; 3] = [
    (
        Law::Kind,
        "module m(input clk, input d, output reg y, output reg z); always @(posedge clk) y <= d; always @* y = d; endmodule",
        Told::Broken(98),
    ),
    (
        Law::Kind,
        "module m(input clk, input d, output reg y, output reg z); always @(posedge clk) y = d; always @(posedge clk) begin z <= d; y <= z; end endmodule",
        Told::Broken(123),
    ),
    (
        Law::Kind,
        "module m(input clk, input d, output reg y, output reg z); always @(posedge clk) if (d) y = d; else z = y; always @(posedge clk) if (y) y <= d; endmodule",
        Told::Broken(135),
    ),
];

const RACES_BETWEEN_BLOCKS: [Case; 3] = [
    (
        Law::Race,
        "module m(input clk, input d, output reg y, output reg z); always @(posedge clk) y = d; always @(posedge clk) z <= y; endmodule",
        Told::Broken(114),
    ),
    (
        Law::Race,
        "module m(input clk, input d, output reg y, output reg z); always @(posedge clk) z <= y; always @(posedge clk) y = y; endmodule",
        Told::Broken(85),
    ),
    (
        Law::Race,
        "module m(input clk, input d, output reg y, output reg z); always @(posedge clk) if (d) y = d; else z = y; always @(posedge clk) if (y) y <= d; endmodule",
        Told::Broken(132),
    ),
];

const READS_WITHOUT_A_RACE: [Case; 3] = [
    (
        Law::Race,
        "module m(input clk, input d, output reg y, output reg z); always @(posedge clk) y <= z; always @(posedge clk) z <= y; endmodule",
        Told::Kept,
    ),
    (
        Law::Race,
        "module m(input clk, input d, output reg y, output reg z); always @(posedge clk) y = y; always @(posedge clk) z <= d; endmodule",
        Told::Kept,
    ),
    (
        Law::Race,
        "module m(input clk, input d, output reg y, output reg z); always @(posedge clk) y = d; always @* z = y; endmodule",
        Told::Kept,
    ),
];

#[test]
fn assignments_by_each_law(rt: HostRuntime) -> Result<(), Fail> {
    all_right(
        rt.alloc(),
        &[
            &WHOLE_TARGETS,
            &PARTS_OF_TARGETS,
            &TARGETS_OF_BLOCKS,
            &TARGETS_OF_INITIAL_ITEMS,
            &TARGETS_OF_CONNECTIONS,
            &LABELS,
            &LABELS_OF_WILD_CASES,
            &KINDS_OF_ONE_BLOCK,
            &KINDS_OF_TWO_BLOCKS,
            &RACES_BETWEEN_BLOCKS,
            &READS_WITHOUT_A_RACE,
        ],
    )
}
