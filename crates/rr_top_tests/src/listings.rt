//! The command `sites`: lists of designs, the greatest number of sites, refusals, and calls that fail.
use crate::repairs::{Case, check, list, words_of};
use crate::shelves::NONE;
use rr_edge::{MemoryShelf, MemorySink};
use rr_top::run;
use std::alloc::{AllocError, Global};
use std::process::Abort;
use std::thread::Threads;

/// A counter: an overwrite, a guard and two literals.
const FIRST: Case = Case {
    words: "rtl_repair sites d.v",
    design: "module counter(input clk, input rst, output reg [3:0] q);\n  always @(posedge clk)\n    if (rst) q <= 4'd0;\n    else q <= q + 4'd2;\nendmodule\n",
    table: "",
    shelf_fails: NONE,
    out_fails: NONE,
    notes_fails: NONE,
    room: 1000,
    status: 0,
    out: "0 overwrite 86 q guards 1\n1 guard 90 guards 1\n2 literal 100 4'h0\n3 literal 124 4'h2\n",
    notes: "",
    certified: 0,
};

const REFUSED: Case = Case {
    status: 3,
    out: "",
    ..FIRST
};

const FAULT: Case = Case {
    status: 4,
    out: "",
    ..FIRST
};

#[test]
fn sites_are_listed(rt: HostRuntime) {
    check(&rt, &FIRST);
    check(
        &rt,
        &Case {
            words: "rtl_repair sites --clock=k d.v --top n",
            design: "module n(input k, input a, output reg y); always @(posedge k) y <= a; endmodule module m(output y); assign y = 1'b1; endmodule",
            out: "0 overwrite 62 y guards 2\n",
            ..FIRST
        },
    );
    check(
        &rt,
        &Case {
            design: "module m(input a, output y); assign y = a; endmodule",
            out: "",
            ..FIRST
        },
    );
}

#[test]
fn designs_without_lists(rt: HostRuntime) {
    check(
        &rt,
        &Case {
            design: "module m(output y);assign y = ;endmodule",
            notes: "refused 6 Syntax at 30\n",
            ..REFUSED
        },
    );
    check(
        &rt,
        &Case {
            words: "rtl_repair sites d.v --clock q",
            notes: "refused 11 UnknownName at 7\n",
            ..REFUSED
        },
    );
    check(
        &rt,
        &Case {
            words: "rtl_repair sites none.v",
            notes: "absent none.v\n",
            ..FAULT
        },
    );
}

#[test]
fn calls_of_lists_fail(rt: HostRuntime) {
    check(
        &rt,
        &Case {
            shelf_fails: 0,
            notes: "fault read d.v\n",
            ..FAULT
        },
    );
    check(
        &rt,
        &Case {
            out_fails: 0,
            notes: "fault out\n",
            ..FAULT
        },
    );
    check(
        &rt,
        &Case {
            room: 9,
            out: "0 overwri",
            notes: "fault out\n",
            ..FAULT
        },
    );
}

/// Eight nets of 128 bits, each driven by as many literals, and an output driven by what is given.
fn design_of(alloc: Global, last: &str) -> Result<String, AllocError> {
    let mut text = String::from_str(
        alloc,
        "module m(input a, output y); wire [127:0] w0, w1, w2, w3, w4, w5, w6, w7;",
    )?;
    for net in ["w0", "w1", "w2", "w3", "w4", "w5", "w6", "w7"] {
        text.push_str(" assign ")?;
        text.push_str(net)?;
        text.push_str(" = {1'b0")?;
        for _ in 1..128 {
            text.push_str(",1'b0")?;
        }
        text.push_str("};")?;
    }
    text.push_str(" assign y = ")?;
    text.push_str(last)?;
    text.push_str("; endmodule")?;
    Ok(text)
}

/// The status of the command on a design, the number of lines on its output, and its notes.
fn listed<R: Abort + AllocGlobal + Threads + Sync>(rt: &R, last: &str, wanted: (u8, usize, &str)) {
    let alloc = rt.alloc();
    let words = words_of(rt, FIRST.words);
    let mut shelf = MemoryShelf::new(alloc, list(rt, NONE));
    let design = design_of(alloc, last).expect(rt, "room");
    shelf.place("d.v", design.as_bytes()).expect(rt, "room");
    let mut out = MemorySink::new(alloc, 1_000_000, Vec::new(alloc)).expect(rt, "room");
    let mut notes = MemorySink::new(alloc, 1000, Vec::new(alloc)).expect(rt, "room");
    let status = run(rt, alloc, &words, &mut shelf, &mut out, &mut notes);
    let (due, lines, text) = wanted;
    assert!(rt;
        status == due
            && out.written().iter().filter(|byte| **byte == b'\n').count() == lines
            && notes.written() == text.as_bytes()
    );
}

#[test]
fn sites_have_a_greatest_number(rt: HostRuntime) {
    listed(&rt, "a", (0, 1024, ""));
    listed(&rt, "1'b1", (3, 0, "refused 16 TooMany sites 1025\n"));
}
