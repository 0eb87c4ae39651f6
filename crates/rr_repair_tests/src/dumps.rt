//! Repairs by value change dumps.
use crate::designs::COUNTER;
use bumpalo::Bump;
use rr_endings::{Refusal, Stop};
use rr_repair::{Request, repair};
use rr_run::{Refusal as RunRefusal, TableKind};
use std::alloc::Global;
use std::test::Fail;
use std::thread::Threads;

/// A dump of three cycles of a counter that counts by one.
const DUMP: &str =
    "$timescale 1ns $end\n$scope module tb $end\n$var wire 1 ! clk $end\n$var wire 1 \" rst $end\n$var wire 4 # q [3:0] $end\n$upscope $end\n$enddefinitions $end\n#0\n$dumpvars\n0!\n1\"\nbx #\n$end\n#5\n1!\nb0 #\n#8\n0\"\n#10\n0!\n#15\n1!\nb1 #\n#20\n0!\n#25\n1!\nb10 #\n";

/// Whether the repair of the counter by a dump reports this with status 0, or is refused at this line.
fn tells<R: Threads + Sync>(rt: &R, alloc: Global, dump: &[u8], notes: &str, line: u64) -> bool {
    let arena = Bump::new(alloc);
    let request = Request {
        kind: TableKind::Vcd,
        top: None,
        clock: None,
        cert: "c",
        budget: 1000,
        members: 2,
    };
    let design = COUNTER.as_bytes();
    match repair(rt, alloc, design, dump, &request, &arena) {
        Ok(found) => found.status == 0 && found.notes.as_bytes() == notes.as_bytes(),
        Err(Stop::Refused(Refusal::Input(refusal))) => refusal == RunRefusal::BadVcd(line),
        Err(_) => false,
    }
}

/// A text without its last three bytes.
fn cut(bytes: &[u8]) -> &[u8] {
    let (kept, _) = bytes.split_at(bytes.len().saturating_sub(3));
    kept
}

/// The literal of the counter's step becomes 1; a change of no identifier is refused.
#[test]
fn a_counter_by_its_dump(rt: HostRuntime) -> Result<(), Fail> {
    let alloc = rt.alloc();
    let dump = DUMP.as_bytes();
    let notes = "repaired 1\nsite 3 literal 124 4'h1\nproposals 1\n";
    assert!(rt; tells(&rt, alloc, dump, notes, 0));
    assert!(rt; tells(&rt, alloc, cut(dump), "", 28));
    Ok(())
}
