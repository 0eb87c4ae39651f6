//! The command `make`: the summary, the certificate, which `check` accepts, and calls that fail. No file
//! is there to be read.
use crate::repairs::{list, words_of};
use crate::shelves::NONE;
use rr_edge::{MemoryShelf, MemorySink};
use rr_top::run;
use std::process::Abort;
use std::thread::Threads;

/// The status of a command over a shelf, and whether it prints and reports these texts.
fn tells<R: Abort + AllocGlobal + Threads + Sync>(
    rt: &R,
    shelf: &mut MemoryShelf,
    words: &str,
    room: u64,
    out_text: &str,
    notes_text: &str,
) -> u8 {
    let alloc = rt.alloc();
    let words = words_of(rt, words);
    let mut out = MemorySink::new(alloc, room, list(rt, NONE)).expect(rt, "room");
    let mut notes = MemorySink::new(alloc, 1000, list(rt, NONE)).expect(rt, "room");
    let status = run(rt, alloc, &words, shelf, &mut out, &mut notes);
    assert!(rt; out.written() == out_text.as_bytes(), "out of {out_text}");
    assert!(rt;
        notes.written() == notes_text.as_bytes(),
        "notes of {notes_text}"
    );
    status
}

/// A seed whose input is mended by so many changes, with a certificate that is accepted.
fn mends<R: Abort + AllocGlobal + Threads + Sync>(rt: &R, words: &str, summary: &str) {
    let mut shelf = MemoryShelf::new(rt.alloc(), list(rt, NONE));
    assert!(rt;
        tells(rt, &mut shelf, words, 1000, summary, "") == 0
            && shelf.held("c.cnf").is_some()
            && tells(
                rt,
                &mut shelf,
                "rtl_repair check c.aag c.lrat",
                1000,
                "accepted\n",
                ""
            ) == 0
    );
}

#[test]
fn one_change_is_least(rt: HostRuntime) {
    mends(
        &rt,
        "rtl_repair make 0 c",
        "seed 0\nrows 256\nsites 40\nchanges 1\n",
    );
}

#[test]
fn two_changes_are_least(rt: HostRuntime) {
    mends(
        &rt,
        "rtl_repair make 1 c",
        "seed 1\nrows 256\nsites 40\nchanges 2\n",
    );
}

#[test]
fn three_changes_are_least(rt: HostRuntime) {
    mends(
        &rt,
        "rtl_repair make 2 c",
        "seed 2\nrows 256\nsites 40\nchanges 3\n",
    );
}

/// The first call of the shelf is the first write, since nothing is read.
#[test]
fn nothing_is_read(rt: HostRuntime) {
    let mut shelf = MemoryShelf::new(rt.alloc(), list(&rt, 0));
    assert!(rt;
        tells(
            &rt,
            &mut shelf,
            "rtl_repair make 0 c",
            1000,
            "",
            "fault write c.aag\n"
        ) == 4
            && shelf.held("c.aag").is_none()
    );
}

#[test]
fn the_room_is_small(rt: HostRuntime) {
    let mut shelf = MemoryShelf::new(rt.alloc(), list(&rt, NONE));
    assert!(rt;
        tells(
            &rt,
            &mut shelf,
            "rtl_repair make 0 c",
            8,
            "seed 0\nr",
            "fault out\n"
        ) == 4
            && shelf.held("c.lrat").is_some()
    );
}
