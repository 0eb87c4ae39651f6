//! Texts with their flat designs, and texts without one.
use crate::texts::design_of;
use bumpalo::Bump;
use rr_elaborate::{DesignFault, FlatFault, Wrong};
use std::alloc::Global;
use std::test::Fail;

/// Why a text has no flat design with the last module that stands in none.
fn fault_of(alloc: Global, text: &str) -> Option<DesignFault> {
    let arena = Bump::new(alloc);
    match design_of(alloc, text, None, &arena) {
        Ok(_) => None,
        Err(fault) => Some(fault),
    }
}

/// The numbers of signals, drivers, clocked and combinational blocks of a text.
fn counts(alloc: Global, text: &str, top: Option<&str>) -> Option<(usize, usize, usize, usize)> {
    let arena = Bump::new(alloc);
    match design_of(alloc, text, top, &arena) {
        Ok(design) => Some((
            design.flat.signals.len(),
            design.flat.drivers.len(),
            design.flat.clocked.len(),
            design.flat.combinational.len(),
        )),
        Err(_) => None,
    }
}

const COUNTER: &str = "module counter(input clk, input rst, output reg [3:0] q);
  always @(posedge clk) if (rst) q <= 4'h0; else q <= q + 4'h1;
endmodule
module top(input clk, input rst, output [3:0] a, output [3:0] b);
  counter one(clk, rst, a);
  counter two(.clk(clk), .rst(rst), .q(b));
endmodule
";

#[test]
fn hierarchy(rt: HostRuntime) -> Result<(), Fail> {
    let alloc = rt.alloc();
    assert!(rt;
        counts(alloc, COUNTER, None) == Some((10, 6, 2, 0))
            && counts(alloc, COUNTER, Some("counter")) == Some((3, 0, 1, 0))
            && counts(alloc, COUNTER, Some("clock")) == None
    );
    Ok(())
}

#[test]
fn faults_in_order(rt: HostRuntime) -> Result<(), Fail> {
    let alloc = rt.alloc();
    assert!(rt;
        fault_of(alloc, "module m; wire w = 4'h; event endmodule")
            == Some(DesignFault::Text(Wrong::Number, 19))
            && fault_of(alloc, "module m; wire w event endmodule")
                == Some(DesignFault::Unsupported(17))
    );
    assert!(rt;
        fault_of(alloc, "module m; wire w endmodule") == Some(DesignFault::Syntax(17))
            && fault_of(alloc, "module m; wire w = v; endmodule")
                == Some(DesignFault::Flaw(FlatFault::UnknownName(19)))
            && fault_of(alloc, "module m; wire w; endmodule") == None
    );
    Ok(())
}
