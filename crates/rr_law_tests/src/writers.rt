//! Writers of bits in small flat designs, by the rules of IEEE 1364-2005 sections 6.1, 9 and 12.3.
use crate::texts::design_of;
use bumpalo::Bump;
use rr_flat::{Bit, Flat};
use rr_named_bits::{Piece, Write, add_driven, no_values, push_piece};
use rr_writers::{BitTable, TwoDrivers, add_assigned_bits, first_two_drivers};
use std::alloc::{AllocError, Global};
use std::test::Fail;

/// A text, and the bit that is written twice with the tokens of both writers, if there is one.
type Case = (&'static str, Option<TwoDrivers>);

macro_rules! clash {
    ($signal:literal, $place:literal, $first:literal, $second:literal) => {
        Some(TwoDrivers { bit: Bit { signal: $signal, place: $place }, first: $first, second: $second })
    };
}

const BRANCHES: &str =
    "module m(input a, output reg y); always @* if (a) y = a; else y = a; endmodule";

const CASES: [Case; 10] = [
    (
        "module m(input a, output [1:0] y); assign y[0] = a; assign y[1] = a; endmodule",
        None,
    ),
    (
        "module m(input a, output [1:0] y); assign y[1] = a; assign y[1] = a; endmodule",
        clash!(1, 1, 16, 24),
    ),
    (
        "module m(input a, output [1:0] y); assign {y[1], y[1]} = a; endmodule",
        clash!(1, 1, 16, 16),
    ),
    (
        "module m(input a, output [1:0] y); assign y[0] = a; always @* y = a; endmodule",
        clash!(1, 0, 16, 23),
    ),
    (
        "module m(input a, output [1:0] y); assign y[1] = a; always @* y[a] = a; endmodule",
        clash!(1, 1, 16, 23),
    ),
    (
        "module m(input a, output reg y); always @(posedge a) y <= a; always @* y = a; endmodule",
        clash!(1, 0, 11, 21),
    ),
    (BRANCHES, None),
    (
        "module n(output q); endmodule module m(output y); n u(.q(y)); n v(.q(y)); endmodule",
        clash!(0, 0, 21, 31),
    ),
    (
        "module m(input clk, input d, output y); reg r [0:1]; assign y = r[0]; always @(posedge clk) r[0] <= d; always @(posedge clk) r[1] <= d; endmodule",
        None,
    ),
    (
        "module m(input clk, input i, input d, output y); reg r [0:1]; assign y = r[0]; always @(posedge clk) r[1] <= d; always @(posedge clk) r[i] <= d; endmodule",
        clash!(5, 0, 32, 45),
    ),
];

/// What the law says of a text, if it has a flat design.
fn told(alloc: Global, text: &str) -> Result<Option<Option<TwoDrivers>>, AllocError> {
    let arena = Bump::new(alloc);
    match design_of(alloc, text, &arena) {
        Err(_) => Ok(None),
        Ok(design) => Ok(Some(first_two_drivers(alloc, &design.flat)?)),
    }
}

#[test]
fn two_drivers(rt: HostRuntime) -> Result<(), Fail> {
    for (text, expected) in CASES.iter() {
        assert!(rt; told(rt.alloc(), text)? == Some(*expected), "{text}");
    }
    Ok(())
}

/// What the first combinational block of a design assigns.
fn assigned(alloc: Global, flat: &Flat) -> Result<Vec<Write>, AllocError> {
    let mut writes = Vec::new(alloc);
    if let Some(block) = flat.combinational_block(0) {
        let names = flat.scope_at(block.scope);
        add_assigned_bits(alloc, &mut writes, block.body, names, false)?;
    }
    Ok(writes)
}

#[test]
fn assigned_bits(rt: HostRuntime) -> Result<(), Fail> {
    let alloc = rt.alloc();
    let arena = Bump::new(alloc);
    match design_of(alloc, BRANCHES, &arena) {
        Err(_) => assert!(rt; false),
        Ok(design) => {
            let writes = assigned(alloc, &design.flat)?;
            assert!(rt; writes.len() == 2);
            assert!(rt; writes[1].reach.piece.signal == 1);
        }
    }
    Ok(())
}

#[test]
fn numbers_of_bits(rt: HostRuntime) -> Result<(), Fail> {
    let mut table = BitTable::new(rt.alloc());
    let bit = Bit {
        signal: 2,
        place: 5,
    };
    assert!(rt; table.get(bit) == 0);
    table.put(bit, 7)?;
    assert!(rt; table.get(bit) == 7);
    assert!(rt;
        table.get(Bit {
            signal: 2,
            place: 4
        }) == 0
    );
    assert!(rt;
        table.get(Bit {
            signal: 5,
            place: 5
        }) == 0
    );
    Ok(())
}

/// What a driver drives, and a piece of bits that are not there behind it.
fn driven(alloc: Global, flat: &Flat, number: u32) -> Result<Vec<Piece>, AllocError> {
    let mut pieces = Vec::new(alloc);
    if let Some(driver) = flat.driver(number) {
        add_driven(&mut pieces, flat, &driver.target, &no_values(alloc))?;
    }
    push_piece(&mut pieces, Piece::absent(3))?;
    Ok(pieces)
}

/// Whether this is the piece with so many bits of a signal from a place on.
fn is_piece(piece: Option<&Piece>, signal: u32, from: i64, count: u32) -> bool {
    match piece {
        None => false,
        Some(piece) => piece.signal == signal && piece.from == from && piece.count == count,
    }
}

/// A concatenated target, and a port that takes a concatenation.
#[test]
fn driven_pieces(rt: HostRuntime) -> Result<(), Fail> {
    let alloc = rt.alloc();
    let arena = Bump::new(alloc);
    let text = "module n(input [1:0] p); endmodule
        module m(input a, output [2:0] y); assign {y[2], y[1:0]} = a; n u({a, a}); endmodule";
    match design_of(alloc, text, &arena) {
        Err(_) => assert!(rt; false),
        Ok(design) => {
            let assigned = driven(alloc, &design.flat, 0)?;
            assert!(rt; assigned.len() == 3);
            assert!(rt; is_piece(assigned.first(), 1, 2, 1));
            assert!(rt; is_piece(assigned.get(1), 1, 0, 2));
            let connected = driven(alloc, &design.flat, 1)?;
            assert!(rt; connected.len() == 2);
            assert!(rt; is_piece(connected.first(), 2, 0, 2));
        }
    }
    Ok(())
}
