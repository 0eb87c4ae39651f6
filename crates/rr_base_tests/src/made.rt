//! The made input: the first lines of both texts, and how long they are.
use rr_made_input::made;
use std::process::Abort;

/// The head of each design.
const HEAD: &str =
    "module made(input clk, input rst, input en, output reg [7:0] r0, output reg [7:0] r1, output reg [7:0] r2, output reg [7:0] r3, output reg [7:0] r4, output reg [7:0] r5, output reg [7:0] r6, output reg [7:0] r7);\n";

/// A seed with the steps that the design counts by, in hexadecimal digits, the first rows of its table
/// and its last one, and how long the table is.
struct Known {
    seed: u64,
    steps: &'static [&'static str; 8],
    rows: &'static str,
    last: &'static str,
    length: usize,
}

const KNOWN: [Known; 4] = [
    Known {
        seed: 0,
        steps: &["97", "71", "e6", "99", "b0", "86", "1f", "f0"],
        rows: "1,0,0,0,0,0,0,0,0,0\n0,1,0,0,0,0,0,0,0,0\n1,1,150,113,230,153,176,134,31,240\n0,0,0,0,0,0,0,0,0,0\n0,1,0,0,0,0,0,0,0,0\n0,0,150,113,230,153,176,134,31,240\n",
        last: "0,0,52,46,148,94,160,84,178,32\n",
        length: 8212,
    },
    Known {
        seed: 1,
        steps: &["aa", "bf", "41", "cd", "4b", "bc", "29", "0b"],
        rows: "1,0,0,0,0,0,0,0,0,0\n0,1,0,0,0,0,0,0,0,0\n0,0,169,190,65,205,75,188,41,11\n0,0,169,190,65,205,75,188,41,11\n0,0,169,190,65,205,75,188,41,11\n0,0,169,190,65,205,75,188,41,11\n",
        last: "0,1,67,42,203,207,57,20,195,121\n",
        length: 8155,
    },
    Known {
        seed: 2,
        steps: &["bc", "0e", "9c", "03", "dc", "f2", "2b", "2d"],
        rows: "1,0,0,0,0,0,0,0,0,0\n0,1,0,0,0,0,0,0,0,0\n0,0,187,13,155,3,220,242,43,45\n0,0,187,13,155,3,220,242,43,45\n0,0,187,13,155,3,220,242,43,45\n1,0,187,13,155,3,220,242,43,45\n",
        last: "0,1,216,104,216,24,224,144,88,104\n",
        length: 7876,
    },
    Known {
        seed: u64::MAX,
        steps: &["8c", "2c", "8c", "65", "1f", "50", "1c", "d6"],
        rows: "1,0,0,0,0,0,0,0,0,0\n0,1,0,0,0,0,0,0,0,0\n0,0,139,44,140,101,31,80,28,214\n0,0,139,44,140,101,31,80,28,214\n0,0,139,44,140,101,31,80,28,214\n0,0,139,44,140,101,31,80,28,214\n",
        last: "0,0,37,148,52,235,209,176,164,138\n",
        length: 7933,
    },
];

/// The design of these steps.
fn design_of<R: Abort + AllocGlobal>(rt: &R, steps: &[&'static str; 8]) -> String {
    let alloc = rt.alloc();
    let mut text = String::from_str(alloc, HEAD).expect(rt, "room");
    for (i, step) in steps.iter().enumerate() {
        let lines = format!(in alloc;
            "  always @(posedge clk)\n    if (rst) r{i} <= 8'h00;\n    else if (en) r{i} <= r{i} + 8'h{step};\n"
        ).expect(rt, "room");
        text.push_str(lines.as_str()).expect(rt, "room");
    }
    text.push_str("endmodule\n").expect(rt, "room");
    text
}

fn is_known<R: Abort + AllocGlobal>(rt: &R, known: &Known) {
    let alloc = rt.alloc();
    let input = made(alloc, known.seed).expect(rt, "room");
    let design = design_of(rt, known.steps);
    assert!(rt;
        input.design.as_str() == design.as_str(),
        "design of {}",
        known.seed
    );
    let head = format!(in alloc; "rst,en,r0,r1,r2,r3,r4,r5,r6,r7\n{}", known.rows).expect(
        rt, "room",
    );
    let table = input.table.as_slice();
    assert!(rt;
        table.starts_with(head.as_bytes()),
        "head of {}",
        known.seed
    );
    assert!(rt;
        table.ends_with(known.last.as_bytes()),
        "end of {}",
        known.seed
    );
    assert!(rt; table.len() == known.length, "length of {}", known.seed);
}

#[test]
fn inputs_are_made(rt: HostRuntime) {
    for known in KNOWN.iter() {
        is_known(&rt, known);
    }
}
