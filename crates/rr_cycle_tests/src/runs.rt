//! Lawful designs, runs of small ones on tables, and the first refusal where there is none, by its text.
use bumpalo::Bump;
use rr_run::{
    Fault, LawfulDesign, Limit, Refusal, RunFault, TableKind, lawful_design, read_rows, run_files,
};
use std::alloc::{AllocError, Global};
use std::test::Fail;

const CELLS: &str = "module m(input [3:0] a, output [3:0] y); assign y = a; endmodule";

fn design_of<'a>(
    alloc: Global,
    text: &str,
    top: Option<&str>,
    clock: Option<&str>,
    arena: &'a Bump,
) -> Result<LawfulDesign<'a>, RunFault<'a>> {
    let bytes = text.as_bytes();
    if bytes.len() > 1_048_576 {
        return Err(RunFault::Memory);
    }
    lawful_design(alloc, bytes, top, clock, arena)
}

fn run_of<'a>(
    alloc: Global,
    design: &str,
    table: &[u8],
    top: Option<&str>,
    arena: &'a Bump,
) -> Result<Vec<u8>, RunFault<'a>> {
    let bytes = design.as_bytes();
    if bytes.len() > 1_048_576 {
        return Err(RunFault::Memory);
    }
    run_files(alloc, bytes, TableKind::Csv, table, top, None, arena)
}

pub(crate) fn gives(
    alloc: Global,
    design: &str,
    table: &str,
    top: Option<&str>,
    expected: &str,
) -> bool {
    let arena = Bump::new(alloc);
    match run_of(alloc, design, table.as_bytes(), top, &arena) {
        Ok(text) => text.as_slice() == expected.as_bytes(),
        Err(_) => false,
    }
}

/// Whether a design and a table have this refusal.
fn refuses(alloc: Global, design: &str, table: &[u8], expected: Refusal<'_>) -> bool {
    let arena = Bump::new(alloc);
    match run_of(alloc, design, table, None, &arena) {
        Err(RunFault::Refused(refusal)) => refusal == expected,
        _ => false,
    }
}

/// Whether a design with an empty table is refused by this text.
pub(crate) fn tells(
    alloc: Global,
    design: &str,
    top: Option<&str>,
    expected: &str,
) -> Result<bool, AllocError> {
    let arena = Bump::new(alloc);
    match run_of(alloc, design, b"", top, &arena) {
        Err(RunFault::Refused(refusal)) => {
            let text = format!(in alloc; "{refusal}")?;
            Ok(text.as_str() == expected)
        }
        _ => Ok(false),
    }
}

/// Whether the clock is the second signal of a design, and falls.
fn falls(alloc: Global, design: &str, word: &str) -> bool {
    let arena = Bump::new(alloc);
    match design_of(alloc, design, None, Some(word), &arena) {
        Ok(design) => design.order.clock == Some(1) && !design.order.rising,
        Err(_) => false,
    }
}

/// Whether a word names no clock of a design, whose top stands at a byte.
fn is_no_clock(alloc: Global, design: &str, word: &str, byte: u32) -> bool {
    let arena = Bump::new(alloc);
    match design_of(alloc, design, None, Some(word), &arena) {
        Ok(_) => false,
        Err(fault) => fault == RunFault::Refused(Refusal::At(Fault::UnknownName, byte)),
    }
}

/// How many rows a table has for a design with a clock.
fn rows_of(alloc: Global, design: &str, word: &str, table: &[u8]) -> Option<usize> {
    let arena = Bump::new(alloc);
    match design_of(alloc, design, None, Some(word), &arena) {
        Ok(design) => match read_rows(alloc, &design, TableKind::Csv, table) {
            Ok(rows) => Some(rows.inputs.len()),
            Err(_) => None,
        },
        Err(_) => None,
    }
}

#[test]
fn designs(rt: HostRuntime) -> Result<(), Fail> {
    let alloc = rt.alloc();
    let falling = "module m(input d, input c, output reg q); always @(negedge c) q <= d; endmodule";
    assert!(rt;
        falls(alloc, falling, "c")
            && is_no_clock(alloc, falling, "q", 7)
            && rows_of(alloc, falling, "c", b"d\n1\n0\n") == Some(2)
            && rows_of(alloc, falling, "c", b"c\n1\n0\n") == None
    );
    Ok(())
}

#[test]
fn runs(rt: HostRuntime) -> Result<(), Fail> {
    let alloc = rt.alloc();
    let two =
        "module n(input a, output y); assign y = ~a; endmodule module m(input a, output y); assign y = a; endmodule";
    let register =
        "module m(input c, input r, input d, output reg q); always @(negedge r or posedge c) if (!r) q <= 1'b0; else q <= d; endmodule";
    for (design, table, top, expected) in [
        (
            CELLS,
            "a,y\n1,x\n2,\n9,0b1x01\n",
            None,
            "a,y\n1,1\n2,2\n9,9\n",
        ),
        (
            register,
            "r,d\n1,1\n1,0\n0,1\n1,0\n",
            None,
            "r,d,q\n1,1,0\n1,0,1\n0,1,0\n1,0,0\n",
        ),
        (two, "a\n0\n1\n", None, "a,y\n0,0\n1,1\n"),
        (two, "a\n0\n1\n", Some("n"), "a,y\n0,1\n1,0\n"),
    ] {
        assert!(rt; gives(alloc, design, table, top, expected), "{expected}");
    }
    Ok(())
}

#[test]
fn refusals_of_tables(rt: HostRuntime) -> Result<(), Fail> {
    let alloc = rt.alloc();
    assert!(rt;
        refuses(alloc, CELLS, b"", Refusal::NoHeader)
            && refuses(alloc, CELLS, b"a,b\n", Refusal::UnknownColumn(1))
            && refuses(alloc, CELLS, b"a,a\n", Refusal::ColumnTwice(1))
            && refuses(alloc, CELLS, b"y\n", Refusal::MissingInput("a"))
    );
    assert!(rt;
        refuses(alloc, CELLS, b"a,y\n1\n", Refusal::RowLength(1))
            && refuses(
                alloc,
                CELLS,
                b"a,y\n1,q\n",
                Refusal::BadCell { row: 1, column: 1 }
            )
            && refuses(
                alloc,
                CELLS,
                b"a,y\n1,16\n",
                Refusal::CellTooLarge { row: 1, column: 1 }
            )
    );
    assert!(rt; refuses(alloc, CELLS, b"\xff", Refusal::NotUtf8));
    let both = "module m(input a,output y);always @* y = a;endmodule";
    assert!(rt; refuses(alloc, both, b"", Refusal::At(Fault::BadTarget, 37)));
    Ok(())
}

/// A design, its top, and the text of its refusal.
type Refused = (&'static str, &'static Option<&'static str>, &'static str);

const REFUSED: [Refused; 25] = [
    (
        "module m(output y);assign y = \"a\";endmodule",
        &None,
        "1 BadByte at 30",
    ),
    (
        "module m(output y);assign y = 2'd;endmodule",
        &None,
        "2 BadNumber at 30",
    ),
    ("module m(output y);/* x", &None, "3 OpenComment at 19"),
    ("`include \"a.v\"", &None, "4 Directive at 0"),
    (
        "module m(output y);function f;endmodule",
        &None,
        "5 Unsupported at 19",
    ),
    (
        "module m(output y);assign y = ;endmodule",
        &None,
        "6 Syntax at 30",
    ),
    ("", &None, "7 NoTop at 0"),
    (CELLS, &Some("q"), "7 NoTop at 0"),
    (
        "module m(output y);n u(y);endmodule",
        &None,
        "8 UnknownModule at 19",
    ),
    (
        "module m(output y);m u(y);endmodule",
        &Some("m"),
        "9 SelfInstance at 19",
    ),
    (
        "module m(output y);wire a;wire a;endmodule",
        &None,
        "10 NameTwice at 31",
    ),
    (
        "module m(output y);assign y = b;endmodule",
        &None,
        "11 UnknownName at 30",
    ),
    (
        "module m(output y);wire [3:0] a;assign y = a[0:1];endmodule",
        &None,
        "12 BadRange at 43",
    ),
    (
        "module m(output y);wire [y:0] a;endmodule",
        &None,
        "13 NotConstant at 25",
    ),
    (
        "module n(input a);endmodule module m(output y);n u(.b(y));endmodule",
        &None,
        "14 PortMismatch at 52",
    ),
    (
        "module m(output y);wire [128:0] a;endmodule",
        &None,
        "15 TooWide at 32",
    ),
    (
        "module m(output y);assign y = 1'b0;assign y = 1'b1;endmodule",
        &None,
        "17 TwoDrivers at 42",
    ),
    (
        "module m(input clk,output reg y);always @(posedge clk) begin y <= 1'b0; y = 1'b1; end endmodule",
        &None,
        "18 WrongAssign at 72",
    ),
    (
        "module m(input clk,output reg y);reg t;always @(posedge clk) t = ~t;always @(posedge clk) y <= t;endmodule",
        &None,
        "19 Race at 95",
    ),
    (
        "module m(input a,output reg y);always @* if (a) y = 1'b1;endmodule",
        &None,
        "20 Latch at 31",
    ),
    (
        "module m(output y);wire a;wire b;assign a = b;assign b = ~a;assign y = a;endmodule",
        &None,
        "21 Loop at 40",
    ),
    (
        "module m(input clk,output reg y);always @(posedge clk) y <= clk;endmodule",
        &None,
        "22 ClockUse at 60",
    ),
    (
        "module m(input clk,input d,output reg y,output reg z);always @(posedge clk) y <= d;always @(negedge clk) z <= d;endmodule",
        &None,
        "23 TwoClocks at 83",
    ),
    (
        "module m(input a,output y);always @* y = a;endmodule",
        &None,
        "24 BadTarget at 37",
    ),
    (
        "module m(input a,output reg y);always @* case(a) 1'bx: y = a; default: y = 1'b0; endcase endmodule",
        &None,
        "25 WildLabel at 49",
    ),
];

/// Refusals of starting values and of `initial` items.
const REFUSED_STARTS: [Refused; 12] = [
    (
        "module m(output reg q = a, input a);wire [128:0] w;endmodule",
        &None,
        "13 NotConstant at 24",
    ),
    (
        "module m(input a, output reg y);initial y = a;endmodule",
        &None,
        "13 NotConstant at 44",
    ),
    (
        "module m(output reg y);initial y = x;endmodule",
        &None,
        "11 UnknownName at 35",
    ),
    (
        "module m(output reg y);reg y = x;endmodule",
        &None,
        "10 NameTwice at 27",
    ),
    (
        "module m(output y);initial y=1'b1;assign y=1'b0;assign y=1'b1;endmodule",
        &None,
        "24 BadTarget at 27",
    ),
    (
        "module m(output y = 1'b1);endmodule",
        &None,
        "6 Syntax at 18",
    ),
    (
        "module m(output y);integer i = 0;endmodule",
        &None,
        "6 Syntax at 29",
    ),
    (
        "module m(output reg y);initial y <= 1'b1;endmodule",
        &None,
        "6 Syntax at 33",
    ),
    (
        "module m(output reg [1:0] y);initial y[0] = 1'b1;endmodule",
        &None,
        "24 BadTarget at 37",
    ),
    (
        "module m(output reg [1:0] y);initial y[1:0] = 2'b1;endmodule",
        &None,
        "6 Syntax at 40",
    ),
    (
        "module m(output y);reg r [0:1];initial r = 1'b1;assign y = r[0];endmodule",
        &None,
        "12 BadRange at 39",
    ),
    (
        "module m(output reg y);initial #1 y = 1'b1;endmodule",
        &None,
        "5 Unsupported at 31",
    ),
];

#[test]
fn refusals_of_starts(rt: HostRuntime) -> Result<(), Fail> {
    for (design, top, expected) in REFUSED_STARTS.iter() {
        assert!(rt; tells(rt.alloc(), design, **top, expected)?, "{expected}");
    }
    Ok(())
}

#[test]
fn refusals_of_designs(rt: HostRuntime) -> Result<(), Fail> {
    for (design, top, expected) in REFUSED.iter() {
        assert!(rt; tells(rt.alloc(), design, **top, expected)?, "{expected}");
    }
    Ok(())
}

#[test]
fn texts(rt: HostRuntime) -> Result<(), Fail> {
    let alloc = rt.alloc();
    for (refusal, expected) in [
        (Refusal::At(Fault::Loop, 42), "21 Loop at 42"),
        (Refusal::At(Fault::BadLoop, 42), "37 BadLoop at 42"),
        (
            Refusal::TooMany(Limit::Turns, 65_537),
            "16 TooMany turns 65537",
        ),
        (
            Refusal::TooMany(Limit::Unfolded, 1_048_577),
            "16 TooMany unfolded 1048577",
        ),
        (
            Refusal::TooMany(Limit::Rows, 65_537),
            "16 TooMany rows 65537",
        ),
        (Refusal::NoHeader, "26 NoHeader row 0"),
        (Refusal::UnknownColumn(1), "27 UnknownColumn row 0 column 1"),
        (Refusal::ColumnTwice(1), "28 ColumnTwice row 0 column 1"),
        (Refusal::MissingInput("a"), "29 MissingInput input a"),
        (Refusal::RowLength(1), "30 RowLength row 1"),
        (
            Refusal::BadCell { row: 1, column: 1 },
            "31 BadCell row 1 column 1",
        ),
        (
            Refusal::CellTooLarge { row: 3, column: 1 },
            "32 CellTooLarge row 3 column 1",
        ),
        (Refusal::NotUtf8, "33 NotUtf8"),
    ] {
        let text = format!(in alloc; "{refusal}")?;
        assert!(rt; text.as_str() == expected);
    }
    Ok(())
}
