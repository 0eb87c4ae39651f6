//! Files that are not mended, with the refusal of each.
use bumpalo::Bump;
use rr_lint_file::mend_file;
use rr_run::{Fault, Refusal, RunFault};
use std::alloc::Global;
use std::test::Fail;

/// A design with the name of its top, and why it is not mended.
type Case = (
    &'static str,
    &'static Option<&'static str>,
    &'static Refusal<'static>,
);

const REFUSED: [Case; 21] = [
    // An edit that a macro hides, at the backtick of its use; one before it lifts.
    (
        "`define N <=\nmodule m(input a, output reg y, output reg z); always @* z <= a; always @* y `N a; endmodule\n",
        &None,
        &Refusal::At(Fault::FromMacro, 90),
    ),
    // A body behind a use.
    (
        "`define ON @*\nmodule m(input e, input a, output reg y); always `ON if (e) y = a; endmodule\n",
        &None,
        &Refusal::At(Fault::FromMacro, 63),
    ),
    // Directives first, then the text, then elaboration, then targets, then labels.
    (
        "module m(input a, output reg y); always @* y <= `N; assign y = 1'b1; endmodule\n",
        &None,
        &Refusal::At(Fault::UnknownMacro, 48),
    ),
    (
        "module m(input a, output reg y); always @* y <= 'q; endmodule\n",
        &None,
        &Refusal::At(Fault::BadNumber, 48),
    ),
    (
        "module m(input a, output reg y); function y; endmodule\n",
        &None,
        &Refusal::At(Fault::Unsupported, 33),
    ),
    // A starting value that is no constant, and a net that an `initial` item sets.
    (
        "module m(input a, output reg y); initial y = a; endmodule\n",
        &None,
        &Refusal::At(Fault::NotConstant, 45),
    ),
    (
        "module m(input a, output y); initial y = 1'b0; always @* y <= a; endmodule\n",
        &None,
        &Refusal::At(Fault::BadTarget, 37),
    ),
    (
        "module m(input a, output reg y); always @* y <= b; endmodule\n",
        &None,
        &Refusal::At(Fault::UnknownName, 48),
    ),
    (
        "module m(input a, output y); always @* y <= a; endmodule\n",
        &None,
        &Refusal::At(Fault::BadTarget, 39),
    ),
    (
        "module m(input a, output reg y); always @* case (a) 1'bx: y <= a; endcase endmodule\n",
        &None,
        &Refusal::At(Fault::WildLabel, 52),
    ),
    // The name of a loop that its body assigns.
    (
        "module m(input a, output reg y); integer i; always @* for (i = 0; i < 2; i = i + 1) i = a; endmodule\n",
        &None,
        &Refusal::At(Fault::BadLoop, 84),
    ),
    (
        "module m(input a, output reg y); always @* y <= a; endmodule\n",
        &Some("n"),
        &Refusal::At(Fault::NoTop, 0),
    ),
    // A memory that a block keeps: by an index that is not constant, whatever else it writes for certain.
    (
        "module m(input [1:0] i, input [7:0] a, output [7:0] y); reg [7:0] r [0:3]; always @* r[i] = a; assign y = r[0]; endmodule\n",
        &None,
        &Refusal::At(Fault::Latch, 75),
    ),
    // .. on some path, in the second block; what the first keeps is cleared, and so is no fault.
    (
        "module m(input e, input a, output reg q, output y); reg r [0:1]; always @* if (e) q = a; always @* if (e) r[1] <= a; assign y = r[1]; endmodule\n",
        &None,
        &Refusal::At(Fault::Latch, 89),
    ),
    // .. as a word that is read before its value, in the first of two blocks that keep one.
    (
        "module m(input e, input a, output reg y, output z); reg r [0:1]; reg s [7:7]; always @* begin y = r[0]; r[0] = a; end always @* if (e) s[7] = a; assign z = s[7]; endmodule\n",
        &None,
        &Refusal::At(Fault::Latch, 78),
    ),
    // .. in one instance of two.
    (
        "module n #(parameter P = 0) (input e, input a, output y); reg r [0:1]; always @* begin if (e) r[P] = a; r[0] = a; end assign y = r[P]; endmodule\nmodule m(input e, input a, output y, output z); n u(.e(e), .a(a), .y(y)); n #(.P(1)) v(.e(e), .a(a), .y(z)); endmodule\n",
        &None,
        &Refusal::At(Fault::Latch, 71),
    ),
    // .. after targets and before what a macro hides, at a place of the file.
    (
        "`define N <=\nmodule m(input e, input a, output y); reg r [0:1]; always @* r[a] `N a; assign y = r[0]; endmodule\n",
        &None,
        &Refusal::At(Fault::Latch, 64),
    ),
    (
        "module m(input e, input a, output y); reg r [0:1]; always @* r[a] = a; always @* y = a; endmodule\n",
        &None,
        &Refusal::At(Fault::BadTarget, 81),
    ),
    // Places of the file, behind a definition.
    (
        "`define N <=\nmodule m(input a, output y); always @* y `N a; endmodule\n",
        &None,
        &Refusal::At(Fault::BadTarget, 52),
    ),
    (
        "module m(input a, output reg y) always @* y <= a; endmodule\n",
        &None,
        &Refusal::At(Fault::Syntax, 32),
    ),
    (
        "module m(input [65535:0] a, output reg y); always @* y <= a[0]; endmodule\n",
        &None,
        &Refusal::At(Fault::TooWide, 25),
    ),
];

/// Whether the file is refused for this.
fn is_refused(alloc: Global, case: &Case) -> bool {
    if case.0.len() > 1000 {
        return false;
    }
    let arena = Bump::new(alloc);
    match mend_file(alloc, case.0.as_bytes(), *case.1, &arena) {
        Err(RunFault::Refused(refusal)) => refusal == *case.2,
        Err(RunFault::Memory) => false,
        Ok(_) => false,
    }
}

#[test]
fn files_are_refused(rt: HostRuntime) -> Result<(), Fail> {
    let alloc = rt.alloc();
    for case in REFUSED.iter() {
        assert!(rt; is_refused(alloc, case));
    }
    Ok(())
}
