//! Combinational blocks of small flat designs, by the rules of IEEE 1364-2005 sections 9.2.1, 9.4 and
//! 9.5.
use crate::texts::design_of;
use bumpalo::Bump;
use rr_flat::Bit;
use rr_latch::{Latch, Room, first_latch, latched_bits};
use std::alloc::{AllocError, Global};
use std::test::Fail;

/// A text, and the bit that holds its value with the token of the block, if there is one.
type Case = (&'static str, Option<Latch>);

macro_rules! latch {
    ($signal:literal, $place:literal, $block:literal) => {
        Some(Latch { bit: Bit { signal: $signal, place: $place }, block: $block })
    };
}

const CASES: [Case; 16] = [
    (
        "module m(input a, b, output reg [1:0] y, output reg z); always @* if (a) z = b; endmodule",
        latch!(3, 0, 22),
    ),
    (
        "module m(input a, b, output reg [1:0] y, output reg z); always @* if (a) z = b; else z = a; endmodule",
        None,
    ),
    (
        "module m(input a, b, output reg [1:0] y, output reg z); always @* case (a) 0: z = a; 1: z = b; endcase endmodule",
        latch!(3, 0, 22),
    ),
    (
        "module m(input a, b, output reg [1:0] y, output reg z); always @* case (a) 0: z = a; default: z = b; endcase endmodule",
        None,
    ),
    (
        "module m(input a, b, output reg [1:0] y, output reg z); always @* begin y[0] = z; z = a; end endmodule",
        latch!(3, 0, 22),
    ),
    (
        "module m(input a, b, output reg [1:0] y, output reg z); always @* begin z = a; y[0] = z; end endmodule",
        None,
    ),
    (
        "module m(input a, b, output reg [1:0] y, output reg z); always @* if (a) y = b; else y[0] = a; endmodule",
        latch!(2, 1, 22),
    ),
    (
        "module m(input a, b, output reg [1:0] y, output reg z); always @* y[a] = b; endmodule",
        latch!(2, 0, 22),
    ),
    (
        "module m(input a, b, output reg [1:0] y, output reg z); always @* begin z = a; if (b) z = b; end endmodule",
        None,
    ),
    (
        "module m(input a, b, output reg [1:0] y, output reg z); always @* if (a) begin if (b) z = a; else z = b; end else z = a; endmodule",
        None,
    ),
    (
        "module m(input a, b, output reg [1:0] y, output reg z); always @* if (a) begin if (b) z = a; end else z = a; endmodule",
        latch!(3, 0, 22),
    ),
    (
        "module m(input a, b, output reg [1:0] y, output reg z); always @* z = a; always @* if (a) y = b; endmodule",
        latch!(2, 0, 29),
    ),
    (
        "module m(input a, b, output reg [1:0] y, output reg z); always @(posedge a) if (b) z <= b; endmodule",
        None,
    ),
    (
        "module m(input i, output y); reg r [0:1]; assign y = r[0]; always @* r[i] = 1'b1; endmodule",
        latch!(2, 0, 26),
    ),
    (
        "module m(input i, input d, output reg y); reg [1:0] r [1:2]; always @* begin r[1] = d; y = r[i]; r[2] = d; end endmodule",
        latch!(4, 0, 27),
    ),
    (
        "module m(input i, input d, output reg y); reg [1:0] r [1:2]; always @* begin r[1] = d; r[2] = d; r[i] = d; y = r[i]; end endmodule",
        None,
    ),
];

/// The latch of a text, if it has a flat design.
fn told(alloc: Global, text: &str) -> Result<Option<Option<Latch>>, AllocError> {
    let arena = Bump::new(alloc);
    match design_of(alloc, text, &arena) {
        Err(_) => Ok(None),
        Ok(design) => Ok(Some(first_latch(alloc, &design.flat)?)),
    }
}

#[test]
fn latches(rt: HostRuntime) -> Result<(), Fail> {
    for (text, expected) in CASES.iter() {
        assert!(rt; told(rt.alloc(), text)? == Some(*expected), "{text}");
    }
    Ok(())
}

/// A text, and the bits that its block keeps where it assigns by `=` alone.
type KeptCase = (&'static str, &'static [Bit]);

const Y_0: Bit = Bit {
    signal: 2,
    place: 0,
};

const Y_1: Bit = Bit {
    signal: 2,
    place: 1,
};

const Z: Bit = Bit {
    signal: 3,
    place: 0,
};

/// The bits of the first word of a memory.
const R_0_0: Bit = Bit {
    signal: 4,
    place: 0,
};

const R_0_1: Bit = Bit {
    signal: 4,
    place: 1,
};

/// Those of the second.
const R_1_0: Bit = Bit {
    signal: 5,
    place: 0,
};

const R_1_1: Bit = Bit {
    signal: 5,
    place: 1,
};

const KEPT: [KeptCase; 12] = [
    (
        "module m(input a, b, output reg [1:0] y, output reg z); always @* begin y[0] = a; if (a) y[1] = b; end endmodule",
        &[Y_1],
    ),
    (
        "module m(input a, b, output reg [1:0] y, output reg z); always @* begin y[0] = z; y[1] = z; z = z; end endmodule",
        &[Z],
    ),
    (
        "module m(input a, b, output reg [1:0] y, output reg z); always @* begin y[0] = z; z = a; if (y[0]) y[1] = z; end endmodule",
        &[Z, Y_1],
    ),
    (
        "module m(input a, b, output reg [1:0] y, output reg z); always @* if (a) z <= b; else z = a; endmodule",
        &[],
    ),
    (
        "module m(input a, b, output reg [1:0] y, output reg z); always @* begin y <= b; if (y[1]) z <= b; end endmodule",
        &[Z],
    ),
    (
        "module m(input a, b, output reg [1:0] y, output reg z); always @* case (a) 0: z = a; 1: begin z = b; y = b; end endcase endmodule",
        &[Z, Y_0, Y_1],
    ),
    (
        "module m(input a, b, output reg [1:0] y, output reg z); always @* case (a) 0: z = a; default: z <= b; endcase endmodule",
        &[],
    ),
    (
        "module m(input a, b, output reg [1:0] y, output reg z); always @* y[a] <= b; endmodule",
        &[Y_0, Y_1],
    ),
    (
        "module m(input a, b, output reg [1:0] y, output reg z); reg [1:0] r [0:1]; always @* begin r[0] = a; r[b] <= a; end endmodule",
        &[R_1_0, R_1_1],
    ),
    (
        "module m(input a, b, output reg [1:0] y, output reg z); reg [1:0] r [0:1]; always @* begin r[0] = a; z = r[b]; y = r[b]; r[1] = a; end endmodule",
        &[R_1_0, R_1_1],
    ),
    (
        "module m(input a, b, output reg [1:0] y, output reg z); reg [1:0] r [0:1]; always @* begin r[0] = a; r[1] = b; r[a] = b; z = r[b]; end endmodule",
        &[],
    ),
    (
        "module m(input a, b, output reg [1:0] y, output reg z); reg [1:0] r [0:1]; always @* begin if (a) begin r[1] = b; r[0] = r[b]; end else begin r[0] = b; r[1] = r[0]; end end endmodule",
        &[R_0_0, R_0_1],
    ),
];

/// The bits that the one block of a text keeps, if it has a flat design.
fn kept_by(alloc: Global, text: &str) -> Result<Option<Vec<Bit>>, AllocError> {
    let arena = Bump::new(alloc);
    match design_of(alloc, text, &arena) {
        Err(_) => Ok(None),
        Ok(design) => {
            let flat = &design.flat;
            match flat.combinational_blocks().first() {
                None => Ok(None),
                Some(block) => {
                    let names = flat.scope_at(block.scope);
                    let mut room = Room::new(alloc);
                    // Asked twice, since nothing may be left of the first time.
                    latched_bits(alloc, block.body, names, &mut room)?;
                    Ok(Some(latched_bits(alloc, block.body, names, &mut room)?))
                }
            }
        }
    }
}

#[test]
fn latched(rt: HostRuntime) -> Result<(), Fail> {
    for (text, expected) in KEPT.iter() {
        let found = kept_by(rt.alloc(), text)?;
        match found {
            None => assert!(rt; false, "{text}"),
            Some(bits) => {
                assert!(rt; bits.len() == expected.len(), "{text}");
                for bit in expected.iter() {
                    assert!(rt; bits.contains(bit), "{text}");
                }
            }
        }
    }
    Ok(())
}
