//! The constructs of a dump as text.
use rr_vcd_text::{Changes, Declared, DumpFault, Told, one_reading, read_head};
use std::alloc::Global;
use std::test::Fail;

/// The number of moments, the sum of their times, the number of changes of `#`, that of the digits of all
/// changes, and how many times dumping ends.
type Counts = (u32, u64, u32, u64, u32);

const DUMP: &[u8] =
    b"$version by hand $end $scope module m $end $var reg 4 # q [3:0] $end\n$upscope $end $enddefinitions $end\n#7 $dumpvars b1x #\n$end $comment # $end r0.5 # $dumpoff #12 b1 #";

/// The counts with one construct more.
fn counted(counts: Counts, told: Told) -> Counts {
    let (moments, times, changes, digits, ends) = counts;
    match told {
        Told::Nothing => counts,
        Told::Moment(time) => (
            moments.saturating_add(1),
            times.saturating_add(time),
            changes,
            digits,
            ends,
        ),
        Told::Change { id, digits: more } => (
            moments,
            times,
            changes.saturating_add(u32::from(id == b"#".as_slice())),
            digits.saturating_add(more.len() as u64),
            ends,
        ),
        Told::Off => (moments, times, changes, digits, ends.saturating_add(1)),
    }
}

/// The counts of at most 32 constructs.
fn counts_of(changes: &mut Changes) -> Result<Counts, DumpFault> {
    let mut counts = (0, 0, 0, 0, 0);
    for _ in 0..32u32 {
        match changes.next()? {
            Some(told) => counts = counted(counts, told),
            None => break,
        }
    }
    Ok(counts)
}

/// The counts of a dump, of at most 32 constructs.
fn counts(alloc: Global, bytes: &[u8]) -> Result<Counts, DumpFault> {
    let mut dump = read_head(alloc, bytes)?;
    counts_of(&mut dump.changes)
}

/// Whether there is one scope, which is closed, and `q` alone in it, of four bits.
fn is_of_q(declared: &Declared) -> bool {
    if declared.scopes != 1 || !declared.opened.is_empty() {
        return false;
    }
    match declared.variables.as_slice() {
        [q] => q.id == b"#".as_slice()
            && q.name == b"q".as_slice()
            && q.size == 4
            && q.scope == Some(0),
        _ => false,
    }
}

/// Whether a dump declares `q` so.
fn declares_q(alloc: Global, bytes: &[u8]) -> bool {
    match read_head(alloc, bytes) {
        Ok(dump) => is_of_q(&dump.declared),
        Err(_) => false,
    }
}

/// The line at which a text breaks the form; 0 for a dump, and where memory is wanting.
fn line_of(alloc: Global, bytes: &[u8]) -> u64 {
    match counts(alloc, bytes) {
        Err(DumpFault::BadVcd(line)) => line,
        _ => 0,
    }
}

#[test]
fn constructs(rt: HostRuntime) -> Result<(), Fail> {
    let alloc = rt.alloc();
    assert!(rt; declares_q(alloc, DUMP));
    match counts(alloc, DUMP) {
        Err(fault) => assert!(rt; false, "{fault:?}"),
        Ok(found) => assert!(rt; found == (2, 19, 2, 3, 1), "{found:?}"),
    }
    Ok(())
}

#[test]
fn laws(_rt: HostRuntime) {
    one_reading();
}

/// Texts that break the form, and the lines at which they do.
const LINES: [(&[u8], u64); 6] = [
    (b"", 1),
    (b"\n\n$comment no head $end\n", 3),
    (b"$enddefinitions $end\n#1\n#1", 3),
    (b"$enddefinitions $end\n\n1!", 3),
    (b"$var wire 1 ! a $end $enddefinitions $end\nb11\n!", 2),
    (b"$enddefinitions\n$end $comment\n#1\n", 2),
];

#[test]
fn lines(rt: HostRuntime) -> Result<(), Fail> {
    let alloc = rt.alloc();
    for (text, line) in LINES.iter() {
        let found = line_of(alloc, text);
        assert!(rt; found == *line, "{found} for {line}");
    }
    Ok(())
}
