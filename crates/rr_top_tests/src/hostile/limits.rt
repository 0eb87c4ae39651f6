//! Designs and tables at their limits and one beyond, made as texts.
use crate::hostile::made::{Made, rows};
use crate::shelves::{NO_FAILS, NONE, command, leaves, shelf_of};
use std::alloc::Global;
use std::test::Fail;
use std::thread::Threads;

/// A top with instances of one module.
const INSTANCES: Made = Made {
    front: "module n(input a); endmodule module m(input a, output y); assign y = a; ",
    before: "n u",
    between: "",
    after: "(.a(a)); ",
    back: "endmodule",
};

/// Modules, each with an instance of the one before.
const LEVELS: Made = Made {
    front: "module m0(input a); endmodule ",
    before: "module m",
    between: "(input a); m",
    after: " u(.a(a)); endmodule ",
    back: "",
};

/// An output, a net of 127 bits, and nets of 128.
const BITS: Made = Made {
    front: "module m(output y); wire [126:0] w0; ",
    before: "wire [127:0] w",
    between: "",
    after: "; ",
    back: "endmodule",
};

/// An output and nets of 128 bits.
const ODD_BITS: Made = Made {
    front: "module m(output y); ",
    ..BITS
};

/// Nets, each driven by a literal.
const SITES: Made = Made {
    front: "module m(output y); ",
    before: "wire w",
    between: "",
    after: " = 1'b0; ",
    back: "endmodule",
};

/// What is made, with so many lines, and the refusal, empty where there is none.
const DESIGNS: [(Made, u32, &str); 7] = [
    (INSTANCES, 255, ""),
    (INSTANCES, 256, "refused 16 TooMany instances 257\n"),
    (LEVELS, 15, ""),
    (LEVELS, 16, "refused 16 TooMany depth 17\n"),
    (BITS, 511, ""),
    (ODD_BITS, 512, "refused 16 TooMany flatbits 65537\n"),
    (SITES, 1025, "refused 16 TooMany sites 1025\n"),
];

#[test]
fn designs_have_their_limits(rt: HostRuntime) -> Result<(), Fail> {
    let alloc = rt.alloc();
    for (made, count, notes) in DESIGNS.iter() {
        let design = made.text(alloc, *count)?;
        let mut shelf = shelf_of(alloc, NONE, &design, "")?;
        let found = command(&rt, alloc, &mut shelf, "rtl_repair sites d.v", NO_FAILS)?;
        let status = if notes.is_empty() { 0 } else { 3 };
        assert!(rt; leaves(&found, status, "", *notes), "{notes}");
    }
    Ok(())
}

/// Whether the repair of a design by 65,536 rows leaves this.
fn ends<R: Threads + Sync>(
    rt: &R,
    alloc: Global,
    design: &str,
    status: u8,
    out: &str,
    notes: &str,
) -> Result<bool, Fail> {
    let table = rows(alloc, "a,y\n", "1,1\n", 65_536)?;
    let mut shelf = shelf_of(alloc, NONE, design, &table)?;
    let line = "rtl_repair repair d.v t.csv c";
    let found = command(rt, alloc, &mut shelf, line, NO_FAILS)?;
    Ok(leaves(&found, status, out, notes) && shelf.held("c.aag").is_none())
}

#[test]
fn the_work_has_its_limit(rt: HostRuntime) -> Result<(), Fail> {
    let alloc = rt.alloc();
    let design = "module m(input [1:0] a, output [1:0] y); assign y = a; endmodule";
    assert!(rt; ends(&rt, alloc, design, 0, design, "unchanged\n")?);
    let design = "module m(input [2:0] a, output [1:0] y); assign y = a; endmodule";
    let notes = "refused 16 TooMany work 327680\n";
    assert!(rt; ends(&rt, alloc, design, 3, "", notes)?);
    Ok(())
}
