//! A shelf with a design and its table, and commands on it.
use rr_edge::{MemoryShelf, MemorySink};
use rr_top::run;
use std::alloc::{AllocError, Global};
use std::thread::Threads;

/// Which calls fail, from 0 on, of the shelf, of standard output and of standard error, and how many bytes
/// have room on standard output.
#[derive(Clone, Copy)]
pub(crate) struct Fails {
    pub(crate) shelf: u64,
    pub(crate) out: u64,
    pub(crate) notes: u64,
    pub(crate) room: u64,
}

/// No call has this number.
pub(crate) const NONE: u64 = 99;

pub(crate) const NO_FAILS: Fails = Fails {
    shelf: NONE,
    out: NONE,
    notes: NONE,
    room: 99_999,
};

/// What a command leaves behind.
#[derive(Drop)]
pub(crate) struct Left {
    pub(crate) status: u8,
    pub(crate) out: Vec<u8>,
    pub(crate) notes: Vec<u8>,
}

/// A shelf with a design `d.v` and a table `t.csv`, of which the call with this number fails.
pub(crate) fn shelf_of(
    alloc: Global,
    fails: u64,
    design: &str,
    table: &str,
) -> Result<MemoryShelf, AllocError> {
    let mut shelf = MemoryShelf::new(alloc, vec![in alloc; fails]?);
    shelf.place("d.v", design.as_bytes())?;
    shelf.place("t.csv", table.as_bytes())?;
    Ok(shelf)
}

/// The words of a line.
pub(crate) fn words_of(alloc: Global, line: &str) -> Result<Vec<String>, AllocError> {
    let mut words: Vec<String> = Vec::new(alloc);
    for word in line.split_whitespace() {
        words.push(String::from_str(alloc, word)?)?;
    }
    Ok(words)
}

/// What the command of a line leaves, where these calls of the streams fail.
pub(crate) fn command<R: Threads + Sync>(
    rt: &R,
    alloc: Global,
    shelf: &mut MemoryShelf,
    line: &str,
    fails: Fails,
) -> Result<Left, AllocError> {
    let words = words_of(alloc, line)?;
    let mut out = MemorySink::new(alloc, fails.room, vec![in alloc; fails.out]?)?;
    let mut notes = MemorySink::new(alloc, 999, vec![in alloc; fails.notes]?)?;
    let status = run(rt, alloc, words.as_slice(), shelf, &mut out, &mut notes);
    Ok(Left {
        status,
        out: Vec::from_slice(alloc, out.written())?,
        notes: Vec::from_slice(alloc, notes.written())?,
    })
}

/// Whether a command left this status, this output and notes that begin so, or none where none are wanted.
pub(crate) fn leaves(left: &Left, status: u8, out: &str, notes: &str) -> bool {
    left.status == status
        && left.out.as_slice() == out.as_bytes()
        && left.notes.as_slice().starts_with(notes.as_bytes())
        && left.notes.is_empty() == notes.is_empty()
}
