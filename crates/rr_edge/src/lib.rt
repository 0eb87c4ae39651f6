//! The outside of the program: a shelf that holds files by their names, and sinks that take text. It
//! is right where the bytes, the faults and their counts are those of the two traits, over memory and
//! over real files. It stands on no other crate.
#![tactic(auto)]

ghost use Rattle.std.specs.Prelude.{◌≡◌, ℕ, List, Option};
ghost use Rattle.rr_edge.specs.Held.{Held};
ghost use Rattle.rr_edge.specs.Shelf.{Reads, Writes, Counts};
ghost use Rattle.rr_edge.specs.Sink.{Puts, CountsPut};

use std::alloc::Global;
use thiserror::Error;

mod file;
mod memory;
mod reader;
#[cfg(test)]
mod tests;
mod writer;

pub use file::FileShelf;
pub use memory::{MemoryShelf, MemorySink};
pub use writer::OutSink;

/// Why a call on a shelf has no result.
#[derive(Clone, Copy, Debug, PartialEq, Eq, Error)]
pub enum ShelfFault {
    /// The shelf failed, and has counted it.
    #[error("the shelf failed")]
    Failed,
    /// Nothing is held under the name.
    #[error("nothing is held under the name")]
    Absent,
    /// The bytes under the name are more than the limit: so many, or of a shelf that doesn't tell
    /// what it holds, at least so many.
    #[error("{0} bytes or more are held, which is above the limit")]
    TooLong(u64),
    /// Memory ran out.
    #[error("memory ran out")]
    Memory,
}

/// A sink that took no more, and has counted it.
#[derive(Clone, Copy, Debug, PartialEq, Eq, Error)]
#[error("the sink failed")]
pub struct SinkFault;

/// Holds bytes under names, as a folder holds files.
pub trait Shelf {
    /// The map from names to bytes, where the shelf tells it.
    ghost told: { Self → Option Held };

    /// How often the shelf has failed. The count stands still at its type's end.
    ghost faults: { Self → ℕ };

    /// The bytes under a name, at most `limit` of them. It changes nothing held.
    ///
    /// `Absent` and `TooLong` come by what is held, where the shelf tells it; a shelf that tells nothing
    /// answers `TooLong` with some count above the limit, and never `Absent`. A call that failed answers
    /// `Failed` in place of both.
    fn read(&mut self, alloc: Global, name: &str, limit: u64) -> Result<Vec<u8>, ShelfFault>
        ensures answer { Reads (told self.old) name.now limit result }
        ensures same { told self.new ≡ told self.old }
        ensures count { Counts (faults self.old) (faults self.new) result };

    /// Puts bytes under a name, in place of what it had, and changes no other name.
    ///
    /// After `Failed` the name has what it had or a front of the bytes. After `Memory` nothing changed.
    fn write(&mut self, name: &str, bytes: &[u8]) -> Result<(), ShelfFault>
        ensures answer { Writes (told self.old) (told self.new) name.now bytes.now result }
        ensures count { Counts (faults self.old) (faults self.new) result };
}

/// Takes text piece by piece.
pub trait Sink {
    /// The bytes written so far, where the sink tells them.
    ghost written: { Self → Option (List ℕ) };

    /// How often the sink has failed. The count stands still at its type's end.
    ghost faults: { Self → ℕ };

    /// Puts a piece at the end. After a fault a front of the piece may stand there; a sink that takes
    /// nothing of a piece that isn't empty has failed.
    fn put(&mut self, bytes: &[u8]) -> Result<(), SinkFault>
        ensures bytes { Puts (written self.old) (written self.new) bytes.now result }
        ensures count { CountsPut (faults self.old) (faults self.new) result };
}
