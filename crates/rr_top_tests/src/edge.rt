//! Shelves and sinks, in memory and over real files.
use crate::repairs::list;
use rr_edge::{FileShelf, MemoryShelf, MemorySink, OutSink, Shelf, ShelfFault, Sink};
use std::fs::{self, File};
use std::process::Abort;

#[test]
fn memory_shelf_holds_what_is_written(rt: HostRuntime) {
    let alloc = rt.alloc();
    let mut shelf = MemoryShelf::new(alloc, Vec::new(alloc));
    shelf.place("a", b"abc").expect(&rt, "room");
    let bytes = shelf.read(alloc, "a", 3).expect(&rt, "held");
    assert!(rt;
        bytes.as_slice() == b"abc".as_slice()
            && shelf.read(alloc, "a", 2).err() == Some(ShelfFault::TooLong(3))
            && shelf.read(alloc, "b", 2).err() == Some(ShelfFault::Absent)
            && shelf.write("b", b"x").is_ok()
    );
    assert!(rt;
        shelf.write("a", b"").is_ok()
            && shelf.held("b") == Some(b"x")
            && shelf.held("a") == Some(b"")
            && shelf.held("c").is_none()
    );
}

#[test]
fn memory_shelf_fails_at_each_call_in_turn(rt: HostRuntime) {
    let alloc = rt.alloc();
    for failing in 0..5u64 {
        let mut shelf = MemoryShelf::new(alloc, list(&rt, failing));
        shelf.place("a", b"abc").expect(&rt, "room");
        let faults = [
            shelf.read(alloc, "a", 3).err(),
            shelf.read(alloc, "a", 2).err(),
            shelf.read(alloc, "b", 3).err(),
            shelf.write("a", b"d").err(),
            shelf.write("b", b"e").err(),
        ];
        let mut due = [
            None,
            Some(ShelfFault::TooLong(3)),
            Some(ShelfFault::Absent),
            None,
            None,
        ];
        due[failing as usize] = Some(ShelfFault::Failed);
        assert!(rt; faults == due, "call {failing}");
        let a = if failing == 3 {
            b"abc".as_slice()
        } else {
            b"d".as_slice()
        };
        assert!(rt; shelf.held("a") == Some(a), "call {failing}");
        assert!(rt;
            shelf.held("b").is_some() == (failing != 4),
            "call {failing}"
        );
    }
}

#[test]
fn memory_sink_takes_what_fits(rt: HostRuntime) {
    let alloc = rt.alloc();
    let mut sink = MemorySink::new(alloc, 4, list(&rt, 1)).expect(&rt, "room");
    assert!(rt;
        sink.put(b"abc").is_ok()
            && sink.put(b"d").is_err()
            && sink.put(b"de").is_err()
            && sink.put(b"").is_ok()
    );
    assert!(rt;
        sink.written() == b"abcd".as_slice()
            && MemorySink::new(alloc, u64::MAX, Vec::new(alloc)).is_err()
    );
}

#[test]
fn file_shelf_reads_and_writes_files(rt: HostRuntime) {
    let alloc = rt.alloc();
    let mut shelf = FileShelf::new(&rt);
    // Several pieces, of bytes that tell a piece that came twice or at a wrong place.
    let mut long: Vec<u8> = Vec::new(alloc);
    for place in 0..400_000u64 {
        long.push((place % 251) as u8).expect(&rt, "room");
    }
    assert!(rt;
        shelf.write("long", &long).is_ok()
            && shelf.read(alloc, "long", 400_000).expect(&rt, "held") == long
            && shelf.read(alloc, "long", u64::MAX).expect(&rt, "held") == long
    );
    for limit in [0, 5000, 399_999u64] {
        let fault = shelf.read(alloc, "long", limit).err();
        assert!(rt;
            fault == Some(ShelfFault::TooLong(limit + 1)),
            "limit {limit}"
        );
    }
    assert!(rt;
        shelf.write("long", b"ab").is_ok()
            && shelf.read(alloc, "long", 2).expect(&rt, "held").as_slice() == b"ab".as_slice()
            && shelf.read(alloc, "long", 1).err() == Some(ShelfFault::TooLong(2))
            && shelf.write("empty", b"").is_ok()
    );
    assert!(rt; shelf.read(alloc, "empty", 0).expect(&rt, "held").is_empty());
}

#[test]
fn file_shelf_counts_what_it_cannot_open(rt: HostRuntime) {
    let alloc = rt.alloc();
    let mut shelf = FileShelf::new(&rt);
    fs::create_dir(&rt, "folder").expect(&rt, "a folder");
    for name in ["missing", "missing/name", "folder", "", "a\0b"] {
        let fault = shelf.read(alloc, name, 9).err();
        assert!(rt; fault == Some(ShelfFault::Failed), "read {name:?}");
    }
    for name in ["missing/name", "folder", "", "a\0b", "/dev/full"] {
        let fault = shelf.write(name, b"x").err();
        assert!(rt; fault == Some(ShelfFault::Failed), "write {name:?}");
    }
    // A file that has no end, and one whose length is not known before.
    let fault = shelf.read(alloc, "/dev/zero", 300_000).err();
    assert!(rt; fault == Some(ShelfFault::TooLong(300_001)));
    let fault = shelf.read(alloc, "/dev/zero", u64::MAX).err();
    assert!(rt;
        fault == Some(ShelfFault::Memory)
            && !shelf
                .read(alloc, "/proc/self/status", 1_000_000)
                .expect(&rt, "held")
                .is_empty()
    );
}

#[test]
fn out_sink_writes_to_its_writer(rt: HostRuntime) {
    let alloc = rt.alloc();
    let mut text: Vec<u8> = Vec::new(alloc);
    let mut sink = OutSink::new(&mut text);
    assert!(rt;
        sink.put(b"abc").is_ok()
            && sink.put(b"").is_ok()
            && sink.put(b"de").is_ok()
            && text.as_slice() == b"abcde".as_slice()
    );
    let mut cell = [0u8; 2];
    let mut short = OutSink::new(&mut cell[..]);
    assert!(rt; short.put(b"xyz").is_err() && short.put(b"").is_ok() && cell == *b"xy");
}

#[test]
fn out_sink_writes_to_files(rt: HostRuntime) {
    let mut file = OutSink::new(File::create(&rt, "out").expect(&rt, "a file"));
    assert!(rt;
        file.put(b"abc").is_ok()
            && file.put(b"de").is_ok()
            && fs::read(&rt, "out").expect(&rt, "a file").as_slice() == b"abcde".as_slice()
    );
    let mut full = OutSink::new(File::create(&rt, "/dev/full").expect(&rt, "a device"));
    assert!(rt; full.put(b"abc").is_err() && OutSink::new(rt.stdout()).put(b"").is_ok());
}

/// The file that is opened is the one with the name, also where the name has a blank.
#[test]
fn file_shelf_opens_the_name(rt: HostRuntime) {
    let alloc = rt.alloc();
    let mut shelf = FileShelf::new(&rt);
    for name in ["a", "a b", " a", "b", "a.b/../c", "é"] {
        let _ = fs::create_dir(&rt, "a.b");
        assert!(rt;
            shelf.write(name, name.as_bytes()).is_ok(),
            "write {name:?}"
        );
    }
    for name in ["a", "a b", " a", "b", "a.b/../c", "é"] {
        let bytes = shelf.read(alloc, name, 9).expect(&rt, "held");
        assert!(rt; bytes.as_slice() == name.as_bytes(), "read {name:?}");
        let bytes = fs::read(&rt, name).expect(&rt, "a file");
        assert!(rt; bytes.as_slice() == name.as_bytes(), "file {name:?}");
    }
    let bytes = shelf.read(alloc, "c", 9).expect(&rt, "held");
    assert!(rt; bytes.as_slice() == b"a.b/../c".as_slice());
}
