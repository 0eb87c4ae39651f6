//! Tables of one design, with their values or their first fault.
ghost use Rattle.std.specs.Prelude.{◌≡◌, ◌<◌, ◌^◌, [], ℕ, true, length, map, get_or};

use crate::texts::design_of;
use bumpalo::Bump;
use rr_trace::{Cell, Limit, Miss, Table, TableFault, read_table, write_table};
use std::alloc::Global;
use std::test::Fail;

const DESIGN: &str =
    "module m(input clk, input [3:0] a, input [127:0] w, output [3:0] y, output z); endmodule";

/// The table of a text, with the clock at the first port.
fn read(alloc: Global, text: &[u8]) -> Result<Table, TableFault> {
    let arena = Bump::new(alloc);
    match design_of(alloc, DESIGN, None, &arena) {
        Ok(design) => read_table(alloc, text, &design.flat, Some(0)),
        Err(_) => Err(TableFault::Memory),
    }
}

const FAULTS: [(&[u8], TableFault); 24] = [
    (b"", TableFault::NoHeader),
    (b"\n\r\n", TableFault::NoHeader),
    (b"\xff", TableFault::NotUtf8),
    (b"a,w\n1,q\n1,\xff", TableFault::NotUtf8),
    (b"a,b,a", TableFault::UnknownColumn(1)),
    (b"a,a,b", TableFault::ColumnTwice(1)),
    (b"A,w", TableFault::UnknownColumn(0)),
    (b"time,time", TableFault::ColumnTwice(1)),
    (b"y", TableFault::MissingInput(1)),
    (b"a,y,clk", TableFault::MissingInput(2)),
    (b"a,w\n1,2\n1", TableFault::RowLength(2)),
    (b"a,w\n1,2,3\nq,q", TableFault::RowLength(1)),
    (b"a,w\n1,q", TableFault::BadCell { row: 1, column: 1 }),
    (b"w,a\n1,16", TableFault::CellTooLarge { row: 1, column: 1 }),
    (b"a,w\n0b,1", TableFault::BadCell { row: 1, column: 0 }),
    (b"a,w\n0x_1,1", TableFault::BadCell { row: 1, column: 0 }),
    (b"a,w\n0x1_,1", TableFault::BadCell { row: 1, column: 0 }),
    (b"a,w\n1_1,1", TableFault::BadCell { row: 1, column: 0 }),
    (b"a,w\n0B1,1", TableFault::BadCell { row: 1, column: 0 }),
    (b"a,w\n-1,1", TableFault::BadCell { row: 1, column: 0 }),
    (b"a,w\n0b102,1", TableFault::BadCell { row: 1, column: 0 }),
    (
        b"a,w\n1,10000000000000000000000000000000000000000",
        TableFault::CellTooLarge { row: 1, column: 1 },
    ),
    (
        b"a,w\n1,340282366920938463463374607431768211456",
        TableFault::CellTooLarge { row: 1, column: 1 },
    ),
    (
        b"a,w\n0b1_0000,q",
        TableFault::CellTooLarge { row: 1, column: 0 },
    ),
];

#[test]
fn faults(rt: HostRuntime) -> Result<(), Fail> {
    for (text, fault) in FAULTS.iter() {
        match read(rt.alloc(), text) {
            Ok(_) => assert!(rt; false, "a table"),
            Err(found) => assert!(rt; found == *fault, "{found:?} for {fault:?}"),
        }
    }
    Ok(())
}

/// Cells of `a`, each with the value that it gives.
const VALUES: [(&str, u128); 14] = [
    ("15", 15),
    ("0015", 15),
    ("", 0),
    ("x", 0),
    ("X", 0),
    ("0b1", 1),
    ("0b1x01", 9),
    ("0bx_1_1", 3),
    ("0bxxxxxx01", 1),
    ("0xF", 15),
    ("0xf", 15),
    ("0xx5", 5),
    (" \t7\t ", 7),
    ("\" 0b0111 \"", 7),
];

#[test]
fn cells(rt: HostRuntime) -> Result<(), Fail> {
    let alloc = rt.alloc();
    for (cell, value) in VALUES.iter() {
        let mut text = String::new(alloc);
        text.push_str("a,w\n")?;
        text.push_str(cell)?;
        text.push_str(",1\n")?;
        match read(alloc, text.as_bytes()) {
            Ok(table) => assert!(rt;
                table.inputs.len() == 1 && table.inputs[0].as_slice() == [*value, 1].as_slice(),
                "{cell}"
            ),
            Err(_) => assert!(rt; false, "{cell}"),
        }
    }
    Ok(())
}

/// A byte order mark, columns that are not read, ends of lines of each kind, and 128 bits in each form.
const WIDE: &[u8] =
    b"\xef\xbb\xbftime, y ,clk,w,a\r\n0,0b1x01,1,340282366920938463463374607431768211455,1\n,,,0xffffffffffffffffffffffffffffffff,2\r9,5,q,0x8000000000000000_0000000000000000,\"3\"";

#[test]
fn tables(rt: HostRuntime) -> Result<(), Fail> {
    match read(rt.alloc(), WIDE) {
        Err(fault) => assert!(rt; false, "{fault:?}"),
        Ok(table) => {
            assert!(rt; table.inputs.len() == 3 && table.expected.len() == 3);
            assert!(rt; table.inputs[0].as_slice() == [1, u128::MAX].as_slice());
            assert!(rt; table.inputs[1].as_slice() == [2, u128::MAX].as_slice());
            assert!(rt; table.inputs[2].as_slice() == [3, 1 << 127].as_slice());
            assert!(rt;
                table.expected[0].as_slice()
                    == [
                        Cell {
                            value: 9,
                            known: 11
                        },
                        Cell { value: 0, known: 0 }
                    ]
                    .as_slice()
            );
            assert!(rt;
                table.expected[1].as_slice()
                    == [Cell { value: 0, known: 0 }, Cell { value: 0, known: 0 }].as_slice()
            );
            assert!(rt;
                table.expected[2].as_slice()
                    == [
                        Cell {
                            value: 5,
                            known: 15
                        },
                        Cell { value: 0, known: 0 }
                    ]
                    .as_slice()
            );
        }
    }
    Ok(())
}

#[test]
fn rows(rt: HostRuntime) -> Result<(), Fail> {
    let alloc = rt.alloc();
    let mut text = Vec::from_slice(alloc, b"a,w\n".as_slice())?;
    for _ in 0..65536 {
        text.extend_from_slice(b"1,2\n")?;
    }
    match read(alloc, text.as_slice()) {
        Ok(table) => assert!(rt; table.inputs.len() == 65536),
        Err(fault) => assert!(rt; false, "{fault:?}"),
    }
    text.extend_from_slice(b"1\n")?;
    match read(alloc, text.as_slice()) {
        Ok(_) => assert!(rt; false, "too many"),
        Err(fault) => assert!(rt;
            fault == TableFault::TooMany(Limit::Rows, 65537),
            "{fault:?}"
        ),
    }
    Ok(())
}

/// Two rows of outputs.
fn outputs(alloc: Global, last: u128) -> Result<Vec<Vec<u128>>, Fail> {
    let mut rows = Vec::new(alloc);
    rows.push(Vec::from_slice(alloc, [13, 1].as_slice())?)?;
    rows.push(Vec::from_slice(alloc, [last, 0].as_slice())?)?;
    Ok(rows)
}

/// Whether no row is longer than a table of this test has them.
fn are_short(rows: &[Vec<Cell>]) -> bool
    ensures { result ≡ true → (r : ℕ) → length (get_or (map (λ v. v.items) rows.now) r []) < 2 ^ 32 }
{
    for row in rows.iter() {
        if row.len() > 1_000 {
            return false;
        }
    }
    true
}

/// The text and the first miss of a table with such outputs.
fn told(alloc: Global, last: u128) -> Result<Option<(Vec<u8>, Option<Miss>)>, Fail> {
    let arena = Bump::new(alloc);
    let Ok(design) = design_of(alloc, DESIGN, None, &arena) else {
        return Ok(None);
    };
    let flat = &design.flat;
    let Ok(table) = read_table(alloc, b"w,y,a\n1,0b1x01,15\n2,5,0\n", flat, Some(0)) else {
        return Ok(None);
    };
    let rows = outputs(alloc, last)?;
    let text = write_table(alloc, flat, Some(0), &table, rows.as_slice())?;
    if table.expected.len() > 2 || !are_short(table.expected.as_slice()) {
        return Ok(None);
    }
    Ok(Some((text, table.first_miss(rows.as_slice()))))
}

#[test]
fn written_and_compared(rt: HostRuntime) -> Result<(), Fail> {
    match told(rt.alloc(), 5)? {
        None => assert!(rt; false, "no table"),
        Some((text, miss)) => {
            assert!(rt; text.as_slice() == b"a,w,y,z\n15,1,13,1\n0,2,5,0\n".as_slice());
            assert!(rt; miss == None);
        }
    }
    match told(rt.alloc(), 4)? {
        None => assert!(rt; false, "no table"),
        Some((_, miss)) => assert!(rt; miss == Some(Miss { row: 1, output: 0 })),
    }
    Ok(())
}
