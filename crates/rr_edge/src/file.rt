//! A shelf of real files. It tells nothing of what they hold.
ghost use Rattle.std.specs.Bool.{OnTrue};
ghost use Rattle.std.specs.Io.KnownBytes.{Appends};
ghost use Rattle.std.specs.Prelude.{◌≡◌, ◌≤◌, ◌^◌, ◌-◌, ℕ, ◌+◌, min, vec_len, IfOk, None, IsErrOf};
ghost use Rattle.rr_edge.specs.Faults.{Faulted};
ghost use Rattle.rr_edge.specs.File.{file_fault_count, ReadsFile, Took, WritesFile};
ghost use Rattle.rr_edge.specs.Shelf.{Reads, Writes, Counts, count_after};

use crate::reader::{ReadFault, read_front};
use crate::writer::write_front;
use crate::{Shelf, ShelfFault};
use std::alloc::Global;
use std::fs::{self, File, OpenFile, OpenOptions, Permissions};
use std::io::{ErrorKind, Write};
use std::rt::Files;

/// Room for the name of the file that is written beside another; a longer name is longer than the system takes.
const ROOM: usize = 4096;

/// What is put behind a name for the file beside it.
const PART: &[u8] = b".part";

/// Files by their paths. A file that isn't there, or can't be opened, is a fault.
#[derive(Drop)]
pub struct FileShelf<'a, R> {
    rt: &'a R,
    faults: u64,
}

impl<'a, R: Files> FileShelf<'a, R> {
    /// The files that the runtime reaches, with no fault so far.
    pub fn new(rt: &'a R) -> FileShelf<'a, R>
        ensures { file_fault_count result ≡ 0 }
    {
        FileShelf { rt, faults: 0 }
    }

    /// Counts a fault.
    fn count_fault(&mut self)
        ensures count { file_fault_count self.new ≡ min (file_fault_count self.old + 1) (2 ^ 64 - 1) }
        ensures fault { Faulted (file_fault_count self.old) (file_fault_count self.new) }
    {
        self.faults = self.faults.saturating_add(1);
    }
}

/// What a read of the file answers, before a fault is counted.
fn read_file<R: Files>(rt: &R, alloc: Global, name: &str, limit: u64) -> Result<Vec<u8>, ShelfFault>
    ensures answer { Reads None name.now limit result }
    ensures file { ReadsFile R.File.remaining limit result }
{
    let Ok(mut file) = File::open(rt, name) else {
        return Err(ShelfFault::Failed);
    };
    let Ok(metadata) = file.metadata() else {
        return Err(ShelfFault::Failed);
    };
    match read_front(alloc, &mut file, limit, metadata.len()) {
        Ok(bytes) => {
            let len = bytes.len() as u64;
            if len > limit {
                return Err(ShelfFault::TooLong(len));
            }
            Ok(bytes)
        }
        Err(ReadFault::Memory) => Err(ShelfFault::Memory),
        Err(ReadFault::Failed) => Err(ShelfFault::Failed),
    }
}

/// Why bytes do not stand beside a name.
enum Beside {
    /// They are to be written in place: the name is that of no plain file, or nothing can be made beside it.
    Never,
    /// A write failed, and the name has what it had.
    Failed,
}

/// What a write of the file answers, before a fault is counted. The bytes are written beside the name and take it once they
/// are whole, so that after a fault it has what it had; where that cannot be, they are written in place.
fn write_file<R: Files>(rt: &R, name: &str, bytes: &[u8]) -> Result<(), ShelfFault>
    ensures { WritesFile R.File.contents bytes.now result }
{
    match write_beside(rt, name, bytes) {
        Ok(()) => Ok(()),
        Err(Beside::Failed) => Err(ShelfFault::Failed),
        Err(Beside::Never) => write_in_place(rt, name, bytes),
    }
}

/// Whether a file takes all the bytes.
fn takes<F: Write>(file: &mut F, bytes: &[u8]) -> bool
    ensures { OnTrue result (Appends (F.contents file.old) (F.contents file.new) bytes.now) }
{
    write_front(file, bytes) == bytes.len()
}

/// Writes the bytes under the name, in place of what it has.
fn write_in_place<R: Files>(rt: &R, name: &str, bytes: &[u8]) -> Result<(), ShelfFault>
    ensures { WritesFile R.File.contents bytes.now result }
{
    let Ok(mut file) = File::create(rt, name) else {
        return Err(ShelfFault::Failed);
    };
    if takes(&mut file, bytes) {
        Ok(())
    } else {
        Err(ShelfFault::Failed)
    }
}

/// Writes the bytes beside the name, and gives them the name once they are whole.
fn write_beside<R: Files>(rt: &R, name: &str, bytes: &[u8]) -> Result<(), Beside>
    ensures { IfOk result (λ _. Took R.File.contents bytes.now) }
{
    let kept = replaced(rt, name)?;
    let mut room = [0u8; ROOM];
    let Some(part) = part_of(name, &mut room) else {
        return Err(Beside::Never);
    };
    write_part(rt, part, kept, bytes)?;
    if fs::rename(rt, part, name).is_err() {
        let _ = fs::remove_file(rt, part);
        return Err(Beside::Never);
    }
    Ok(())
}

/// The permissions of the plain file that the name has and that may be written, or none where the name is free.
fn replaced<R: Files>(rt: &R, name: &str) -> Result<Option<Permissions>, Beside> {
    match fs::symlink_metadata(rt, name) {
        Ok(metadata) => {
            if metadata.is_file() && OpenOptions::new().write(true).open(rt, name).is_ok() {
                return Ok(Some(metadata.permissions()));
            }
            Err(Beside::Never)
        }
        Err(error) => {
            if error.kind() == ErrorKind::NotFound {
                return Ok(None);
            }
            Err(Beside::Never)
        }
    }
}

/// The name of the file that is written beside this one.
fn part_of<'b>(name: &str, room: &'b mut [u8]) -> Option<&'b str> {
    let front = name.len();
    let part = room.get_mut(..front.checked_add(PART.len())?)?;
    part[..front].copy_from_slice(name.as_bytes());
    part[front..].copy_from_slice(PART);
    str::from_utf8(part).ok()
}

/// Writes the bytes to a file that was not there, with these permissions; it is gone again where that fails.
fn write_part<R: Files>(
    rt: &R,
    part: &str,
    kept: Option<Permissions>,
    bytes: &[u8],
) -> Result<(), Beside>
    ensures { IfOk result (λ _. Took R.File.contents bytes.now) }
{
    let Ok(mut file) = File::create_new(rt, part) else {
        return Err(Beside::Never);
    };
    if let Some(permissions) = kept {
        if file.set_permissions(permissions).is_err() {
            let _ = fs::remove_file(rt, part);
            return Err(Beside::Never);
        }
    }
    if takes(&mut file, bytes) {
        return Ok(());
    }
    let _ = fs::remove_file(rt, part);
    Err(Beside::Failed)
}

impl<'a, R: Files> Shelf for FileShelf<'a, R> {
    ghost told = { λ _. None };

    ghost faults = { λ shelf. file_fault_count shelf };

    fn read(&mut self, alloc: Global, name: &str, limit: u64) -> Result<Vec<u8>, ShelfFault>
        ensures answer { Reads None name.now limit result }
        ensures count { Counts (file_fault_count self.old) (file_fault_count self.new) result }
        ensures counted { file_fault_count self.new ≡ count_after (file_fault_count self.old) result }
        ensures file { ReadsFile R.File.remaining limit result }
    {
        let result = read_file(self.rt, alloc, name, limit);
        if let Err(ShelfFault::Failed) = &result {
            self.count_fault();
        }
        result
    }

    fn write(&mut self, name: &str, bytes: &[u8]) -> Result<(), ShelfFault>
        ensures answer { Writes None None name.now bytes.now result }
        ensures count { Counts (file_fault_count self.old) (file_fault_count self.new) result }
        ensures counted { file_fault_count self.new ≡ count_after (file_fault_count self.old) result }
        ensures file { WritesFile R.File.contents bytes.now result }
    {
        let result = write_file(self.rt, name, bytes);
        if result.is_err() {
            self.count_fault();
        }
        result
    }
}
