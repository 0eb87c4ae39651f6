//! Files that are fetched from a shelf.
ghost use Rattle.std.specs.Prelude.{◌≡◌, map};
ghost use Rattle.rr_effects.specs.Views.{Fetches, FetchesOne, read_of};

use rr_edge::{Shelf, ShelfFault};
use rr_endings::{Refusal, Report, absent, out_of_memory, read_fault, refused};
use std::alloc::Global;

/// A name that is read, and the most bytes that it may have.
#[derive(Clone, Copy)]
pub struct Read<'a> {
    pub name: &'a str,
    pub limit: u64,
}

/// The bytes under a name. The texts of its faults are made before the read.
fn fetch_one<'a, H: Shelf>(
    alloc: Global,
    shelf: &mut H,
    read: Read<'a>,
) -> Result<Vec<u8>, Report<'a>>
    ensures answer { FetchesOne (H.told shelf.old) read.entry.name.now read.entry.limit (H.faults shelf.old) (H.faults shelf.new) result }
    ensures same { H.told shelf.new ≡ H.told shelf.old }
{
    let Ok(absent) = absent(alloc, read.name) else {
        return Err(out_of_memory(0));
    };
    let Ok(fault) = read_fault(alloc, read.name) else {
        return Err(out_of_memory(0));
    };
    match shelf.read(alloc, read.name, read.limit) {
        Ok(bytes) => Ok(bytes),
        Err(ShelfFault::Absent) => Err(absent),
        Err(ShelfFault::Failed) => Err(fault),
        Err(ShelfFault::TooLong(count)) => Err(refused(alloc, Refusal::TooManyBytes(count))),
        Err(ShelfFault::Memory) => Err(out_of_memory(0)),
    }
}

/// The bytes under the names, in their order; or the report of the first read that gives none: an
/// absent name, a fault, a file of too many bytes, or want of memory, where those before it gave their
/// files. Names behind that one are not read. It changes nothing held.
pub fn fetch<'a, H: Shelf>(
    alloc: Global,
    shelf: &mut H,
    reads: &[Read<'a>],
) -> Result<Vec<Vec<u8>>, Report<'a>>
    ensures answer { Fetches (H.told shelf.old) (map read_of reads.now) (H.faults shelf.old) (H.faults shelf.new) result }
    ensures same { H.told shelf.new ≡ H.told shelf.old }
{
    let mut files = Vec::new(alloc);
    for number in 0..reads.len() {
        let bytes = match fetch_one(alloc, shelf, reads[number]) {
            Ok(bytes) => bytes,
            Err(report) => return Err(report),
        };
        match files.push(bytes) {
            Ok(()) => {}
            Err(_) => return Err(out_of_memory(0)),
        }
    }
    Ok(files)
}
