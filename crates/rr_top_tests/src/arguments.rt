//! The program's arguments, and each reason for which there are none.
use crate::repairs::words_of;
use rr_edge::MemorySink;
use rr_effects::put_report;
use rr_top::arguments;
use std::env;
use std::io::{Error, ErrorKind};

#[test]
fn arguments_are_taken_in_order(rt: HostRuntime) {
    let alloc = rt.alloc();
    let line = words_of(&rt, "p run d t");
    let words = arguments(alloc, Ok(line.into_iter()))
        .ok()
        .expect(&rt, "room");
    assert!(rt; words == words_of(&rt, "p run d t") && arguments(alloc, env::args(&rt)).is_ok());
}

#[test]
fn arguments_that_are_not_had_are_reported(rt: HostRuntime) {
    let alloc = rt.alloc();
    for (kind, due, text) in [
        (ErrorKind::OutOfMemory, 5, "out of memory\n"),
        (ErrorKind::InvalidData, 6, rr_words::usage()),
        (ErrorKind::Other, 6, rr_words::usage()),
    ] {
        let report = arguments(alloc, Err(Error::from(kind)))
            .err()
            .expect(&rt, "a report");
        let mut notes = MemorySink::new(alloc, 1000, Vec::new(alloc)).expect(&rt, "room");
        assert!(rt; put_report(&report, &mut notes) == due, "{text}");
        assert!(rt; notes.written() == text.as_bytes(), "{text}");
    }
}
