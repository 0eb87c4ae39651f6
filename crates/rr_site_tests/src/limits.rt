//! The greatest number of sites, and one more.
use bumpalo::Bump;
use rr_run::{Limit, Refusal, RunFault};
use rr_sites_command::list_sites;
use std::alloc::{AllocError, Global};
use std::test::Fail;

/// Eight nets of 128 bits, each driven by as many literals, and an output driven by what is given: 1,024
/// literals and those of the last value.
fn design_of(alloc: Global, last: &str) -> Result<String, AllocError> {
    let mut text = String::from_str(
        alloc,
        "module m(input a, output y); wire [127:0] w0, w1, w2, w3, w4, w5, w6, w7;",
    )?;
    for net in ["w0", "w1", "w2", "w3", "w4", "w5", "w6", "w7"] {
        text.push_str(" assign ")?;
        text.push_str(net)?;
        text.push_str(" = {1'b0")?;
        for _ in 1..128 {
            text.push_str(",1'b0")?;
        }
        text.push_str("};")?;
    }
    text.push_str(" assign y = ")?;
    text.push_str(last)?;
    text.push_str("; endmodule")?;
    Ok(text)
}

/// How many lines the list of a design has, or how many sites are told to be too many.
fn counted(alloc: Global, design: &str) -> Option<(usize, u64)> {
    let bytes = design.as_bytes();
    if bytes.len() > 1_048_576 {
        return None;
    }
    let arena = Bump::new(alloc);
    match list_sites(alloc, bytes, None, None, &arena) {
        Ok(text) => Some((text.iter().filter(|byte| **byte == b'\n').count(), 0)),
        Err(RunFault::Refused(Refusal::TooMany(Limit::Sites, count))) => Some((0, count)),
        Err(_) => None,
    }
}

#[test]
fn most_sites(rt: HostRuntime) -> Result<(), Fail> {
    let alloc = rt.alloc();
    let most = design_of(alloc, "a")?;
    assert!(rt; counted(alloc, most.as_str()) == Some((1024, 0)));
    let more = design_of(alloc, "1'b1")?;
    assert!(rt; counted(alloc, more.as_str()) == Some((0, 1025)));
    Ok(())
}
