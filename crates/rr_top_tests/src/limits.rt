//! The greatest lengths of files, at their borders, by a shelf that holds lengths and not bytes.
ghost use Rattle.std.specs.Prelude.{◌≡◌, ℕ, None};
ghost use Rattle.rr_edge.specs.Shelf.{Reads, Writes, Counts};

use crate::repairs::words_of;
use rr_edge::{MemorySink, Shelf, ShelfFault};
use rr_top::run;
use std::alloc::Global;
use std::process::Abort;
use std::thread::Threads;

/// Two files by their lengths: each read that is within its limit gives the few bytes of a text.
#[derive(Drop)]
struct Lengths {
    first: u64,
    second: u64,
    reads: u64,
    texts: [&'static [u8]; 2],
}

impl Shelf for Lengths {
    ghost told = { λ _. None };

    ghost faults = { λ _. 0 };

    fn read(&mut self, alloc: Global, name: &str, limit: u64) -> Result<Vec<u8>, ShelfFault>
        ensures answer { Reads None name.now limit result }
        ensures count { Counts 0 0 result }
    {
        let (length, text) = if self.reads == 0 {
            (self.first, self.texts[0])
        } else {
            (self.second, self.texts[1])
        };
        self.reads = self.reads.saturating_add(1);
        if length > limit {
            return Err(ShelfFault::TooLong(length));
        }
        if text.len() as u64 > limit {
            return Err(ShelfFault::Memory);
        }
        match Vec::from_slice(alloc, text) {
            Ok(bytes) => Ok(bytes),
            Err(_) => Err(ShelfFault::Memory),
        }
    }

    fn write(&mut self, name: &str, bytes: &[u8]) -> Result<(), ShelfFault>
        ensures answer { Writes None None name.now bytes.now result }
        ensures count { Counts 0 0 result }
    {
        Err(ShelfFault::Memory)
    }
}

/// A command over files of these lengths, with its status and the notes that tell it.
fn told<R: Abort + AllocGlobal + Threads + Sync>(
    rt: &R,
    line: &str,
    lengths: (u64, u64),
    texts: [&'static [u8]; 2],
    wanted: (u8, &str),
) {
    let alloc = rt.alloc();
    let words = words_of(rt, line);
    let (first, second) = lengths;
    let mut shelf = Lengths {
        first,
        second,
        reads: 0,
        texts,
    };
    let mut out = MemorySink::new(alloc, 1000, Vec::new(alloc)).expect(rt, "room");
    let mut notes = MemorySink::new(alloc, 1000, Vec::new(alloc)).expect(rt, "room");
    let status = run(rt, alloc, &words, &mut shelf, &mut out, &mut notes);
    let (due, text) = wanted;
    assert!(rt; status == due, "{line} {first} {second}");
    assert!(rt;
        notes.written() == text.as_bytes(),
        "{line} {first} {second}"
    );
}

const DESIGN: [&[u8]; 2] = [
    b"module m(input a, output y); assign y = a; endmodule",
    b"a,y\n1,1\n",
];

#[test]
fn designs_and_tables_have_a_greatest_length(rt: HostRuntime) {
    for (line, notes) in [("p repair d t c", "unchanged\n"), ("p run d t", "")] {
        told(&rt, line, (1_048_576, 16_777_216), DESIGN, (0, notes));
        told(
            &rt,
            line,
            (1_048_577, 16_777_217),
            DESIGN,
            (3, "refused 16 TooMany bytes 1048577\n"),
        );
        told(
            &rt,
            line,
            (1_048_576, 16_777_217),
            DESIGN,
            (3, "refused 16 TooMany bytes 16777217\n"),
        );
    }
}

const CERTIFICATE: [&[u8]; 2] = [b"aag 1 1 0 2 0\n2\n2\n3\n", b"3 0 1 2 0\n"];

#[test]
fn certificates_have_a_greatest_length(rt: HostRuntime) {
    let line = "p check c p";
    told(
        &rt,
        line,
        (268_435_456, 1_073_741_824),
        CERTIFICATE,
        (0, ""),
    );
    told(
        &rt,
        line,
        (268_435_457, 1_073_741_825),
        CERTIFICATE,
        (3, "refused 16 TooMany bytes 268435457\n"),
    );
    told(
        &rt,
        line,
        (268_435_456, 1_073_741_825),
        CERTIFICATE,
        (3, "refused 16 TooMany bytes 1073741825\n"),
    );
}
