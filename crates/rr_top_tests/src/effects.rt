//! Reads, and answers that are carried out, with each call failing in turn or lacking memory.
ghost use Rattle.rr_edge.specs.Shelf.{Reads, Writes, Counts};

use crate::repairs::{list, words_of};
use crate::shelves::NONE;
use rr_edge::{MemoryShelf, MemorySink, Shelf, ShelfFault};
use rr_effects::{Read, deliver, fetch, put_report};
use rr_endings::{File, Found, Piece, Text, status};
use rr_top::run;
use std::alloc::Global;
use std::process::Abort;

fn file<R: Abort + AllocGlobal>(rt: &R, name: &str, bytes: &[u8]) -> File {
    let alloc = rt.alloc();
    let name = String::from_str(alloc, name).expect(rt, "room");
    let bytes = Vec::from_slice(alloc, bytes).expect(rt, "room");
    File::new(alloc, name, bytes).expect(rt, "room")
}

/// Three files, a piece and a report.
fn found<'b, R: Abort + AllocGlobal>(rt: &R) -> Found<'b> {
    let alloc = rt.alloc();
    let mut files = Vec::new(alloc);
    for (name, bytes) in [("c.aag", "one"), ("c.cnf", "two"), ("c.lrat", "three")] {
        files
            .push(file(rt, name, bytes.as_bytes()))
            .expect(rt, "room");
    }
    Found {
        status: 0,
        files,
        out: Piece::Source(b"source"),
        notes: Text::Fixed("report\n"),
    }
}

/// Which calls fail, and what is wanted: so many whole files, and what the output and the notes hold.
#[derive(Clone, Copy)]
struct Case {
    shelf_fails: u64,
    out_fails: u64,
    notes_fails: u64,
    status: u8,
    whole: usize,
    out: &'static str,
    notes: &'static str,
}

const FINE: Case = Case {
    shelf_fails: NONE,
    out_fails: NONE,
    notes_fails: NONE,
    status: 0,
    whole: 3,
    out: "source",
    notes: "report\n",
};

const FAULT: Case = Case {
    status: 4,
    out: "",
    ..FINE
};

const CASES: [Case; 6] = [
    FINE,
    Case {
        shelf_fails: 0,
        whole: 0,
        notes: "fault write c.aag\n",
        ..FAULT
    },
    Case {
        shelf_fails: 1,
        whole: 1,
        notes: "fault write c.cnf\n",
        ..FAULT
    },
    Case {
        shelf_fails: 2,
        whole: 2,
        notes: "fault write c.lrat\n",
        ..FAULT
    },
    Case {
        out_fails: 0,
        notes: "fault out\n",
        ..FAULT
    },
    Case {
        notes_fails: 0,
        status: 4,
        notes: "",
        ..FINE
    },
];

#[test]
fn answers_are_carried_out(rt: HostRuntime) {
    let alloc = rt.alloc();
    for case in CASES.iter() {
        let mut shelf = MemoryShelf::new(alloc, list(&rt, case.shelf_fails));
        let mut out = MemorySink::new(alloc, 100, list(&rt, case.out_fails)).expect(&rt, "room");
        let mut notes = MemorySink::new(alloc, 100, list(&rt, case.notes_fails)).expect(
            &rt, "room",
        );
        let report = deliver(found(&rt), &mut shelf, &mut out);
        let status = put_report(&report, &mut notes);
        assert!(rt; status == case.status, "{}", case.notes);
        assert!(rt; out.written() == case.out.as_bytes(), "{}", case.notes);
        assert!(rt; notes.written() == case.notes.as_bytes(), "{}", case.notes);
        assert!(rt;
            shelf.held("c.aag").is_some() == (case.whole > 0),
            "{}",
            case.notes
        );
        assert!(rt;
            shelf.held("c.cnf").is_some() == (case.whole > 1),
            "{}",
            case.notes
        );
        assert!(rt;
            shelf.held("c.lrat").is_some() == (case.whole > 2),
            "{}",
            case.notes
        );
    }
}

const A: Read<'static> = Read {
    name: "a",
    limit: 3,
};

const B: Read<'static> = Read {
    name: "b",
    limit: 0,
};

const C: Read<'static> = Read {
    name: "c",
    limit: 2,
};

const SHORT_A: Read<'static> = Read { limit: 2, ..A };

const SHORT_C: Read<'static> = Read { limit: 1, ..C };

const NOWHERE: Read<'static> = Read {
    name: "d",
    limit: 3,
};

/// Which call of the shelf fails, the reads, and what is wanted: a status, and the files, each with a
/// mark behind it, or the report.
type Reading = (u64, &'static [Read<'static>], u8, &'static str);

const READINGS: [Reading; 13] = [
    (NONE, &[], 0, ""),
    (0, &[], 0, ""),
    (NONE, &[A], 0, "abc;"),
    (NONE, &[B, C], 0, ";xy;"),
    (NONE, &[C, A, B, A], 0, "xy;abc;;abc;"),
    (NONE, &[SHORT_A, NOWHERE], 3, "refused 16 TooMany bytes 3\n"),
    (NONE, &[NOWHERE, SHORT_A], 4, "absent d\n"),
    (
        NONE,
        &[A, SHORT_C, NOWHERE],
        3,
        "refused 16 TooMany bytes 2\n",
    ),
    (NONE, &[A, B, NOWHERE], 4, "absent d\n"),
    (0, &[A, B, C], 4, "fault read a\n"),
    (1, &[A, B, C], 4, "fault read b\n"),
    (2, &[A, B, C], 4, "fault read c\n"),
    (3, &[A, B, C], 0, "abc;;xy;"),
];

/// How reads end: a status, and the files, each with a mark behind it, or the report.
fn fetched<R: Abort + AllocGlobal>(rt: &R, fails: u64, reads: &[Read<'static>]) -> (u8, Vec<u8>) {
    let alloc = rt.alloc();
    let mut shelf = MemoryShelf::new(alloc, list(rt, fails));
    shelf.place("a", b"abc").expect(rt, "room");
    shelf.place("b", b"").expect(rt, "room");
    shelf.place("c", b"xy").expect(rt, "room");
    match fetch(alloc, &mut shelf, reads) {
        Ok(files) => {
            let mut text = Vec::new(alloc);
            for file in files.iter() {
                text.extend_from_slice(file).expect(rt, "room");
                text.push(b';').expect(rt, "room");
            }
            (0, text)
        }
        Err(report) => {
            let text = Vec::from_slice(alloc, report.text.as_bytes()).expect(rt, "room");
            (status(report.ending), text)
        }
    }
}

#[test]
fn files_are_fetched(rt: HostRuntime) {
    for (fails, reads, due, text) in READINGS {
        let (status, found) = fetched(&rt, fails, reads);
        assert!(rt; status == due, "{text}");
        assert!(rt; found.as_slice() == text.as_bytes(), "{text}");
    }
}

/// A shelf with memory for so many calls.
#[derive(Drop)]
struct Scarce<H> {
    shelf: H,
    calls: u64,
}

impl<H: Shelf> Shelf for Scarce<H> {
    ghost told = { λ scarce. H.told scarce.shelf };

    ghost faults = { λ scarce. H.faults scarce.shelf };

    fn read(&mut self, alloc: Global, name: &str, limit: u64) -> Result<Vec<u8>, ShelfFault> {
        if self.calls == 0 {
            return Err(ShelfFault::Memory);
        }
        self.calls -= 1;
        self.shelf.read(alloc, name, limit)
    }

    fn write(&mut self, name: &str, bytes: &[u8]) -> Result<(), ShelfFault> {
        if self.calls == 0 {
            return Err(ShelfFault::Memory);
        }
        self.calls -= 1;
        self.shelf.write(name, bytes)
    }
}

/// Memory runs out at each file in turn: those before it are whole, and nothing is put.
#[test]
fn want_of_memory_leaves_whole_files(rt: HostRuntime) {
    let alloc = rt.alloc();
    for calls in 0..4u64 {
        let mut shelf = Scarce {
            shelf: MemoryShelf::new(alloc, Vec::new(alloc)),
            calls,
        };
        let mut out = MemorySink::new(alloc, 100, Vec::new(alloc)).expect(&rt, "room");
        let mut notes = MemorySink::new(alloc, 100, Vec::new(alloc)).expect(&rt, "room");
        let report = deliver(found(&rt), &mut shelf, &mut out);
        let (due, printed, told) = if calls == 3 {
            (0, "source", "report\n")
        } else {
            (5, "", "out of memory\n")
        };
        assert!(rt; put_report(&report, &mut notes) == due, "{calls}");
        assert!(rt; out.written() == printed.as_bytes(), "{calls}");
        assert!(rt; notes.written() == told.as_bytes(), "{calls}");
        for (before, name) in [(0, "c.aag"), (1, "c.cnf"), (2, "c.lrat")] {
            assert!(rt;
                shelf.shelf.held(name).is_some() == (before < calls),
                "{calls} {name}"
            );
        }
    }
}

/// Memory runs out at each read of each command in turn: nothing is printed.
#[test]
fn want_of_memory_prints_nothing(rt: HostRuntime) {
    let alloc = rt.alloc();
    for line in ["p repair d t c", "p run d t", "p check c p"] {
        for calls in 0..3u64 {
            let mut memory = MemoryShelf::new(alloc, Vec::new(alloc));
            for (name, text) in [
                ("d", "module m(input a, output y); assign y = a; endmodule"),
                ("t", "a,y\n1,1\n"),
                ("c", "aag 1 1 0 2 0\n2\n2\n3\n"),
                ("p", "3 0 1 2 0\n"),
            ] {
                memory.place(name, text.as_bytes()).expect(&rt, "room");
            }
            let mut shelf = Scarce {
                shelf: memory,
                calls,
            };
            let mut out = MemorySink::new(alloc, 100, Vec::new(alloc)).expect(&rt, "room");
            let mut notes = MemorySink::new(alloc, 100, Vec::new(alloc)).expect(&rt, "room");
            let words = words_of(&rt, line);
            let status = run(&rt, alloc, &words, &mut shelf, &mut out, &mut notes);
            let due = if calls == 2 { 0 } else { 5 };
            assert!(rt; status == due, "{line} {calls}");
            if calls < 2 {
                assert!(rt; out.written().is_empty(), "{line} {calls}");
                assert!(rt;
                    notes.written() == b"out of memory\n".as_slice(),
                    "{line} {calls}"
                );
            }
        }
    }
}
