//! Dumps for small designs, with their rows or their refusal.
use bumpalo::Bump;
use rr_elaborate::elaborate;
use rr_flat::{Flat, Order};
use rr_trace::Cell;
use rr_vcd::{Limit, Table, VcdFault, one_sample, read_vcd};
use std::alloc::{AllocError, Global};
use std::test::Fail;

const COUNTER: &str =
    "module counter(input clk, input rst, output reg [3:0] q); always @(posedge clk) if (rst) q <= 4'd0; else q <= q + 4'd2; endmodule";

/// The counter's dump of three cycles, which counts by one.
const CYCLES: &[u8] =
    b"$timescale 1ns $end\n$scope module tb $end\n$var wire 1 ! clk $end\n$var wire 1 \" rst $end\n$var wire 4 # q [3:0] $end\n$upscope $end\n$enddefinitions $end\n#0\n$dumpvars\n0!\n1\"\nbx #\n$end\n#5\n1!\nb0 #\n#8\n0\"\n#10\n0!\n#15\n1!\nb1 #\n#20\n0!\n#25\n1!\nb10 #\n";

/// A dump of two moments, without the output, in which both inputs have one identifier.
const MOMENTS: &[u8] =
    b"$scope module m $end $var wire 1 ! clk $end $var wire 1 ! rst $end $enddefinitions $end 1! #1 #2 x!";

/// The table of a dump for the design of a text of at most 2^20 bytes, with this clock and edge.
fn read(
    alloc: Global,
    design: &str,
    clock: Option<u32>,
    rising: bool,
    bytes: &[u8],
) -> Result<Table, VcdFault> {
    if design.len() > 1_048_576 {
        return Err(VcdFault::Memory);
    }
    let arena = Bump::new(alloc);
    match elaborate(alloc, design.as_bytes(), None, &arena) {
        Ok(design) => read_order(alloc, &design.flat, clock, rising, bytes),
        Err(_) => Err(VcdFault::Memory),
    }
}

/// The table of a dump for a flat design, with this clock and edge.
fn read_order(
    alloc: Global,
    flat: &Flat,
    clock: Option<u32>,
    rising: bool,
    bytes: &[u8],
) -> Result<Table, VcdFault> {
    let order = Order {
        clock,
        rising,
        steps: Vec::new(alloc),
    };
    read_vcd(alloc, bytes, flat, &order)
}

/// Writes the inputs of a row in decimal.
fn write_inputs(text: &mut String, inputs: &[u128]) -> Result<(), AllocError> {
    for value in inputs {
        write!(text, "{value} ")?;
    }
    Ok(())
}

/// Writes for each output of a row its bits and which are known.
fn write_outputs(text: &mut String, outputs: &[Cell]) -> Result<(), AllocError> {
    for cell in outputs {
        write!(text, "{}/{} ", cell.value, cell.known)?;
    }
    text.push_str("; ")
}

/// Writes the rows.
fn write_rows(text: &mut String, table: &Table) -> Result<(), AllocError> {
    for (inputs, outputs) in table.inputs.iter().zip(table.expected.iter()) {
        write_inputs(text, inputs.as_slice())?;
        write_outputs(text, outputs.as_slice())?;
    }
    Ok(())
}

/// The rows of a dump for the counter, as text; or the refusal.
fn rows(alloc: Global, clock: Option<u32>, rising: bool, bytes: &[u8]) -> Result<String, VcdFault> {
    let table = read(alloc, COUNTER, clock, rising, bytes)?;
    let mut text = String::new(alloc);
    write_rows(&mut text, &table)?;
    Ok(text)
}

/// Whether a dump for the counter has these rows.
fn gives(alloc: Global, clock: Option<u32>, rising: bool, bytes: &[u8], expected: &str) -> bool {
    match rows(alloc, clock, rising, bytes) {
        Ok(text) => text.as_str() == expected,
        Err(_) => false,
    }
}

/// Why a dump for the counter, with its clock, has no table.
fn fault_of(alloc: Global, bytes: &[u8]) -> Option<VcdFault> {
    match read(alloc, COUNTER, Some(0), true, bytes) {
        Ok(_) => None,
        Err(fault) => Some(fault),
    }
}

/// A declaration by a letter: `(` and `)` open and close a scope, and each letter declares a variable.
fn piece(letter: u8) -> &'static [u8] {
    match letter {
        b'(' => b"$scope module m $end ",
        b')' => b"$upscope $end ",
        b'c' => b"$var wire 1 ! clk $end ",
        b'r' => b"$var wire 1 \" rst $end ",
        b'q' => b"$var reg 4 # \\q [3:0] $end ",
        b'C' => b"$var wire 1 % clk $end ",
        b'R' => b"$var wire 1 & rst $end ",
        b'Q' => b"$var reg 4 $ q $end ",
        b'w' => b"$var reg 8 # q $end ",
        b's' => b"$var wire 1 ! rst $end ",
        _ => b"",
    }
}

/// The dump of these declarations and this body.
fn joined(alloc: Global, head: &[u8], body: &[u8]) -> Result<Vec<u8>, AllocError> {
    let mut text = Vec::new(alloc);
    for letter in head.iter() {
        text.extend_from_slice(piece(*letter))?;
    }
    text.extend_from_slice(b"$enddefinitions $end\n".as_slice())?;
    text.extend_from_slice(body)?;
    Ok(text)
}

#[test]
fn counter(rt: HostRuntime) -> Result<(), Fail> {
    let alloc = rt.alloc();
    assert!(rt; gives(alloc, Some(0), true, CYCLES, "1 0/0 ; 0 0/15 ; 0 1/15 ; "));
    assert!(rt; gives(alloc, Some(0), false, CYCLES, "0 0/15 ; 0 1/15 ; "));
    assert!(rt; gives(alloc, None, true, MOMENTS, "1 1 0/0 ; 0 0 0/0 ; "));
    Ok(())
}

#[test]
fn laws(_rt: HostRuntime) {
    one_sample();
}

/// Declarations, changes, and the rows that they give.
const CASES: [(&[u8], &[u8], &str); 18] = [
    (
        b"(crq)",
        b"#0 0! 1\" bx # #5 1! b0 # #8 0\" #10 0! #15 1!",
        "1 0/0 ; 0 0/15 ; ",
    ),
    // No edge from x, from z, in the first moment or before it.
    (b"(crq)", b"#0 1\" #5 1! b0 # #10 0! #15 1!", "1 0/15 ; "),
    (b"(crq)", b"#0 z! 1\" #5 1!", ""),
    (b"(crq)", b"0! #0 1!", ""),
    // Up and down within a moment, and a clock that is 1 from the start.
    (b"(crq)", b"0! #0 1\" #5 1! 0! #6 1!", "1 0/0 ; "),
    (b"(crq)", b"#0 1! 1\" #5 0! 0\" #6 1!", "0 0/0 ; "),
    // Digits that are missing, and unknown ones.
    (b"(crq)", b"#0 0! x\" b10x # #5 1!", "0 4/14 ; "),
    (b"(crq)", b"#0 0! 1\" bx1 # #5 1! B0 #", "1 1/1 ; "),
    // The moment in which dumping ends is not read, nor what follows.
    (
        b"(crq)",
        b"#0 0! 1\" #5 1! #6 0! #7 1! $dumpoff #8 0! #9 1!",
        "1 0/0 ; ",
    ),
    (b"(crq)", b"$dumpoff #0 0! #5 1!", ""),
    // A test bench with the inputs alone stands above the design.
    (b"(CR(crq))", b"#0 0! 1\" b1 # #5 1!", "1 1/15 ; "),
    // No scope has the output, and the first with the inputs is taken.
    (b"q(cr)(CR)", b"#0 0! 1\" b1 # #5 1!", "1 0/0 ; "),
    // Of two scopes with all ports the first, and of two variables.
    (b"(crqQ)(CRQ)", b"#0 0! 1\" b1 # #5 1!", "1 1/15 ; "),
    // A scope that is opened again is another one.
    (b"(cr)(q)", b"#0 0! 1\" b1 # #5 1!", "1 0/0 ; "),
    // A variable behind an inner scope is one of the outer.
    (b"(c(R)rq)", b"#0 0! 1\" b1 # #5 1!", "1 1/15 ; "),
    // Another size is another variable, of the same identifier or not.
    (b"(crw)", b"#0 0! 1\" b1 # #5 1!", "1 0/0 ; "),
    (b"(crwq)", b"#0 0! 1\" b1 # #5 1!", "1 1/15 ; "),
    // Two ports share an identifier; `$` and `#` begin other words too.
    (b"(csQ)", b"#0 0! b1 $ #5 1!", "0 1/15 ; "),
];

/// Whether the dump of these declarations and this body has these rows.
fn is_case(alloc: Global, head: &[u8], body: &[u8], expected: &str) -> Result<bool, AllocError> {
    let bytes = joined(alloc, head, body)?;
    Ok(gives(alloc, Some(0), true, bytes.as_slice(), expected))
}

#[test]
fn cases(rt: HostRuntime) -> Result<(), Fail> {
    let alloc = rt.alloc();
    for (head, body, expected) in CASES.iter() {
        assert!(rt; is_case(alloc, head, body, expected)?, "{expected}");
    }
    Ok(())
}

/// Declarations and changes without a table, and their refusals.
const FAULTS: [(&[u8], &[u8], VcdFault); 5] = [
    (b"(c)(r)q", b"#1 #2", VcdFault::NoScope),
    (b"cr", b"", VcdFault::NoScope),
    // The form comes before the scope.
    (b"(c)", b"#1\n#1", VcdFault::BadVcd(3)),
    (b"(cr)", b"$dumpoff\n#1\n1\"\n1#", VcdFault::BadVcd(5)),
    (b"(cr", b"#1\nb11 !", VcdFault::BadVcd(3)),
];

/// Why the dump of these declarations and this body has no table.
fn case_fault(alloc: Global, head: &[u8], body: &[u8]) -> Result<Option<VcdFault>, AllocError> {
    let bytes = joined(alloc, head, body)?;
    Ok(fault_of(alloc, bytes.as_slice()))
}

#[test]
fn faults(rt: HostRuntime) -> Result<(), Fail> {
    let alloc = rt.alloc();
    for (head, body, fault) in FAULTS.iter() {
        assert!(rt; case_fault(alloc, head, body)? == Some(*fault), "{fault:?}");
    }
    Ok(())
}

/// A text without its last three bytes.
fn cut(bytes: &[u8]) -> &[u8] {
    let (kept, _) = bytes.split_at(bytes.len().saturating_sub(3));
    kept
}

/// The last change of the cycles without its identifier.
#[test]
fn cut_short(rt: HostRuntime) -> Result<(), Fail> {
    assert!(rt; fault_of(rt.alloc(), cut(CYCLES)) == Some(VcdFault::BadVcd(28)));
    Ok(())
}

/// Writes so many moments, the times of which are their numbers.
fn write_moments(text: &mut String, count: u32) -> Result<(), AllocError> {
    for time in 0..count {
        write!(text, " #{time}")?;
    }
    Ok(())
}

/// A dump of so many moments, and this behind them.
fn moments(alloc: Global, count: u32, behind: &str) -> Result<String, AllocError> {
    let mut text = String::new(alloc);
    text.push_str("$scope module m $end $var wire 1 ! a $end $enddefinitions $end")?;
    write_moments(&mut text, count)?;
    text.push_str(behind)?;
    Ok(text)
}

/// The number of rows for a design of one input, of a dump of so many moments, and this behind them.
fn length_of(alloc: Global, count: u32, behind: &str) -> Result<usize, VcdFault> {
    let text = moments(alloc, count, behind)?;
    let table = read(
        alloc,
        "module m(input a); endmodule",
        None,
        true,
        text.as_bytes(),
    )?;
    Ok(table.inputs.len())
}

#[test]
fn limit(rt: HostRuntime) -> Result<(), Fail> {
    let alloc = rt.alloc();
    assert!(rt; length_of(alloc, 65_536, "") == Ok(65_536));
    assert!(rt; length_of(alloc, 65_537, "") == Err(VcdFault::TooMany(Limit::Rows, 65_537)));
    assert!(rt; length_of(alloc, 65_537, "\n\n1\"") == Err(VcdFault::BadVcd(3)));
    Ok(())
}
