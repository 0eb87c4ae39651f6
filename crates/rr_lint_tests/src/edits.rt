//! Texts, and what they are with both faults of combinational blocks mended.
use bumpalo::Bump;
use rr_edit::Edit;
use rr_elaborate::elaborate;
use rr_lint::edits;
use rr_lint_tree::lint;
use std::alloc::{AllocError, Global};
use std::test::Fail;

/// The bytes with edits made that stand in their order.
fn edited(alloc: Global, bytes: &[u8], made: &[Edit]) -> Result<Vec<u8>, AllocError> {
    let mut out = Vec::new(alloc);
    let mut at = 0;
    for edit in made.iter() {
        let (from, to) = (edit.from as usize, edit.to as usize);
        if at <= from && from <= bytes.len() {
            out.extend_from_slice(&bytes[at..from])?;
            out.extend_from_slice(edit.text.as_slice())?;
        }
        at = to;
    }
    if at <= bytes.len() {
        out.extend_from_slice(&bytes[at..])?;
    }
    Ok(out)
}

/// Whether a text is mended to another, and its tree is made.
fn mends(alloc: Global, text: &str, wanted: &str) -> Result<bool, AllocError> {
    let arena = Bump::new(alloc);
    let bytes = text.as_bytes();
    if bytes.len() > 1_048_576 {
        return Ok(false);
    }
    let Ok(design) = elaborate(alloc, bytes, None, &arena) else {
        return Ok(false);
    };
    let Ok(made) = edits(alloc, bytes, design.tokens, design.source, &design.flat) else {
        return Ok(false);
    };
    if lint(alloc, design.source, &design.flat, &arena).is_err() {
        return Ok(false);
    }
    let out = edited(alloc, bytes, made.as_slice())?;
    Ok(out.as_slice() == wanted.as_bytes())
}

/// `<=` becomes `=`, with a blank on both sides.
#[test]
fn assignments(rt: HostRuntime) -> Result<(), Fail> {
    assert!(rt;
        mends(
            rt.alloc(),
            "module m(input a, output reg y); always @* y <= a; endmodule",
            "module m(input a, output reg y); always @* y  =  a; endmodule",
        )?
    );
    assert!(rt;
        mends(
            rt.alloc(),
            "module m(input a, output reg y); always @* y = a; endmodule",
            "module m(input a, output reg y); always @* y = a; endmodule",
        )?
    );
    Ok(())
}

/// A variable that a block would keep is cleared first, once, in the order of first targets.
#[test]
fn latches(rt: HostRuntime) -> Result<(), Fail> {
    assert!(rt;
        mends(
            rt.alloc(),
            "module m(input a, input b, output reg y, output reg [1:0] z);
  always @* begin
    if (a) z[0] <= b;
    if (b) y = a;
    if (a) y <= b;
  end
endmodule
",
            "module m(input a, input b, output reg y, output reg [1:0] z);
  always @* begin z = 0 ; y = 0 ;  begin
    if (a) z[0]  =  b;
    if (b) y = a;
    if (a) y  =  b;
  end end 
endmodule
",
        )?
    );
    Ok(())
}

/// A block that waits for an edge stays.
#[test]
fn others(rt: HostRuntime) -> Result<(), Fail> {
    let text = "module m(input clk, input a, output reg y);
  always @(posedge clk) if (a) y <= a;
endmodule
";
    assert!(rt; mends(rt.alloc(), text, text)?);
    Ok(())
}
