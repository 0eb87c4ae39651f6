//! The command `lint`: mended files, refusals, and calls that fail.
use crate::repairs::{Case, check};
use crate::shelves::NONE;

/// A block that keeps `y` where `e` is 0, and assigns by `<=`.
const FIRST: Case = Case {
    words: "rtl_repair lint d.v",
    design: "module m(input a, input e, output reg y); always @* if (e) y <= a; endmodule",
    table: "",
    shelf_fails: NONE,
    out_fails: NONE,
    notes_fails: NONE,
    room: 1000,
    status: 0,
    out: "module m(input a, input e, output reg y); always @* begin y = 0 ;  if (e) y  =  a; end  endmodule",
    notes: "",
    certified: 0,
};

/// A module without faults, and one with them that is not reached from the other.
const TWO: &str =
    "module n(input a, output y); assign y = a; endmodule module m(input a, output reg y); always @(a) y <= a; endmodule";

const REFUSED: Case = Case {
    status: 3,
    out: "",
    ..FIRST
};

#[test]
fn designs_are_mended(rt: HostRuntime) {
    check(&rt, &FIRST);
    check(
        &rt,
        &Case {
            words: "rtl_repair lint d.v --top n",
            design: TWO,
            out: TWO,
            ..FIRST
        },
    );
}

#[test]
fn designs_that_are_not_mended(rt: HostRuntime) {
    check(
        &rt,
        &Case {
            design: "module m(input a, output y); always @* y = a; endmodule",
            notes: "refused 24 BadTarget at 39\n",
            ..REFUSED
        },
    );
    check(
        &rt,
        &Case {
            design: "`define LATER <=\nmodule m(input a, output reg y); always @* y `LATER a; endmodule",
            notes: "refused 43 FromMacro at 62\n",
            ..REFUSED
        },
    );
    check(
        &rt,
        &Case {
            design: "module m(input i, input a, output y); reg r [0:1]; always @* r[i] = a; assign y = r[0]; endmodule",
            notes: "refused 20 Latch at 51\n",
            ..REFUSED
        },
    );
    check(
        &rt,
        &Case {
            status: 4,
            out: "module m",
            room: 8,
            notes: "fault out\n",
            ..FIRST
        },
    );
}
