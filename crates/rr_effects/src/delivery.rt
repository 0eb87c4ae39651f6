//! An answer that is carried out.
ghost use Rattle.std.specs.Prelude.{◌≡◌, ◌≢◌, ◌<◌, IsOk, length, map};
ghost use Rattle.rr_edge.specs.Shelf.{Counts, Writes};
ghost use Rattle.rr_edge.specs.Sink.{Puts, CountsPut};
ghost use Rattle.rr_endings.specs.Endings.{status_of};
ghost use Rattle.rr_endings.specs.Views.{Says, file_of, plain_answer, report_text};
ghost use Rattle.rr_endings.specs.Texts.{write_fault_text};
ghost use Rattle.rr_effects.specs.Delivery.{Delivers, Reports, file_at};
ghost use Rattle.rr_effects.specs.Outside.{outside};
ghost use Rattle.rr_effects.specs.Views.{Written};

use rr_edge::{Shelf, ShelfFault, Sink, SinkFault};
use rr_endings::{Ending, File, Found, Report, out_fault, out_of_memory, status};

/// At which file, counted from 0, writes stop.
#[derive(Clone, Copy)]
enum WriteStop {
    /// Memory ran out.
    Memory(usize),
    /// The write failed.
    Failed(usize),
}

/// Writes one file.
fn write_file<H: Shelf>(shelf: &mut H, file: &File) -> Result<(), ShelfFault>
    ensures answer { Writes (H.told shelf.old) (H.told shelf.new) (file_of file.now).0 (file_of file.now).1 result }
    ensures count { Counts (H.faults shelf.old) (H.faults shelf.new) result }
{
    shelf.write(file.name(), file.bytes())
}

/// Writes the files in order, up to the first write that fails.
fn write_files<H: Shelf>(shelf: &mut H, files: &[File]) -> Result<(), WriteStop>
    ensures { Written (H.told shelf.old) (H.told shelf.new) (H.faults shelf.old) (H.faults shelf.new) (map file_of files.now) result }
{
    for number in 0..files.len() {
        match write_file(shelf, &files[number]) {
            Ok(()) => {}
            Err(ShelfFault::Memory) => return Err(WriteStop::Memory(number)),
            Err(ShelfFault::Failed) => return Err(WriteStop::Failed(number)),
            Err(ShelfFault::Absent) => unreachable!(),
            Err(ShelfFault::TooLong(_)) => unreachable!(),
        }
    }
    Ok(())
}

/// Puts a piece, and makes no call for an empty one.
fn put_piece<K: Sink>(sink: &mut K, piece: &[u8]) -> Result<(), SinkFault>
    ensures bytes { Puts (K.written sink.old) (K.written sink.new) piece.now result }
    ensures count { CountsPut (K.faults sink.old) (K.faults sink.new) result }
    ensures nothing { length piece.now ≡ 0 → IsOk result }
{
    if piece.is_empty() {
        return Ok(());
    }
    sink.put(piece)
}

/// The report that the write of a file failed.
fn write_fault<'a>(files: Vec<File>, number: usize) -> Report<'a>
    requires { number < length files.items }
    ensures { Says result (Ending.WriteFault number) (write_fault_text (file_at (map file_of files.items) number).0) }
{
    let mut files = files;
    let file = files.swap_remove(number);
    Report {
        ending: Ending::WriteFault(number),
        text: file.into_fault(),
    }
}

/// Carries an answer out, but for its report: writes its files in order, and then puts its piece on the
/// output, and answers the report that is due. Where a write does not succeed, nothing is put.
pub fn deliver<'a, H: Shelf, K: Sink>(found: Found<'_>, shelf: &mut H, out: &mut K) -> Report<'a>
    ensures delivers { Delivers (plain_answer found.entry)
        (outside (H.told shelf.old) (H.faults shelf.old) (K.written out.old) (K.faults out.old))
        (outside (H.told shelf.new) (H.faults shelf.new) (K.written out.new) (K.faults out.new))
        result.ending (report_text result) }
    // An empty piece is not put, so an output that takes nothing is no fault.
    ensures nothing { length (plain_answer found.entry).out ≡ 0 → result.ending ≢ Ending.OutFault }
{
    let Found {
        status,
        files,
        out: piece,
        notes,
    } = found;
    match write_files(shelf, files.as_slice()) {
        Ok(()) => {}
        Err(WriteStop::Memory(number)) => return out_of_memory(number),
        Err(WriteStop::Failed(number)) => return write_fault(files, number),
    }
    match put_piece(out, piece.as_bytes()) {
        Ok(()) => Report {
            ending: Ending::Done(status),
            text: notes,
        },
        Err(SinkFault) => out_fault(),
    }
}

/// Puts a report on standard error, and answers the status: that of the report's ending, or 4 where
/// the put failed.
pub fn put_report<E: Sink>(report: &Report<'_>, notes: &mut E) -> u8
    ensures reports { Reports (E.written notes.old) (E.written notes.new) (E.faults notes.old) (E.faults notes.new)
        (report_text report.now) (status_of report.now.ending) result }
    ensures nothing { length (report_text report.now) ≡ 0 → result ≡ status_of report.now.ending }
{
    match put_piece(notes, report.text.as_bytes()) {
        Ok(()) => status(report.ending),
        Err(SinkFault) => 4,
    }
}
