//! A shelf and a sink in memory, whose calls fail by a list.
ghost use Rattle.std.specs.Prelude.{◌≡◌, ◌≤◌, ◌<◌, ◌↔◌, ◌⊎◌, ◌++◌, List, ℕ, [], None, OnOk, OnErr, IfOk, IsTrue, IsErr, IsErrOf, Contains, length, take, vec_len, vec_capacity};
ghost use Rattle.std.specs.Option.{option_copied};
ghost use Rattle.rr_edge.specs.Held.{put};
ghost use Rattle.rr_edge.specs.Shelf.{Reads, Writes, Counts, count_after};
ghost use Rattle.rr_edge.specs.Sink.{Puts, CountsPut, count_after_put};

use crate::{Shelf, ShelfFault, Sink, SinkFault};
use std::alloc::{AllocError, Global};
use std::collections::BTreeMap;

/// A shelf in memory, which tells what it holds. The calls whose numbers, from 0, stand in a list
/// fail, and change nothing held. Calls past number 2^64 - 1 keep that number.
#[derive(Drop)]
pub struct MemoryShelf {
    alloc: Global,
    held: BTreeMap<String, Vec<u8>>,
    fails: Vec<u64>,
    calls: u64,
    faults: u64,
}

impl MemoryShelf {
    ghost use Rattle.rr_edge.specs.Memory.{held_of, fails_of, call_count, fault_count, CallsNot};

    /// An empty shelf whose calls fail by the list, before its first call.
    pub fn new(alloc: Global, fails: Vec<u64>) -> MemoryShelf
        ensures empty { (name : List ℕ) → held_of result name ≡ None }
        ensures fails { fails_of result ≡ fails.items }
        ensures calls { call_count result ≡ 0 }
        ensures faults { fault_count result ≡ 0 }
    {
        MemoryShelf {
            alloc,
            held: BTreeMap::new(alloc),
            fails,
            calls: 0,
            faults: 0,
        }
    }

    /// Puts bytes under a name. It counts as no call, and raises no fault.
    pub fn place(&mut self, name: &str, bytes: &[u8]) -> Result<(), AllocError>
        ensures ok { OnOk result (held_of self.new ≡ put (held_of self.old) name.now bytes.now) }
        ensures err { OnErr result (held_of self.new ≡ held_of self.old) }
        ensures uncounted { CallsNot self.old self.new }
    {
        let key = String::from_str(self.alloc, name)?;
        let value = Vec::from_slice(self.alloc, bytes)?;
        self.held.insert(key, value)?;
        Ok(())
    }

    /// The bytes under a name.
    pub fn held(&self, name: &str) -> Option<&[u8]>
        ensures { option_copied result ≡ held_of self.now name.now }
    {
        Some(self.held.get(name)?.as_slice())
    }
}

/// Whether the call with this number fails.
fn fails_at(fails: &[u64], call: u64) -> bool
    ensures { IsTrue result ↔ Contains fails.now call }
{
    fails.contains(&call)
}

impl Shelf for MemoryShelf {
    ghost use Rattle.std.specs.Prelude.{Some};
    ghost use Rattle.rr_edge.specs.Memory.{held_of, fault_count, FailsNext, CallsOnce, IsLonger};

    ghost told = { λ shelf. Some (held_of shelf) };

    ghost faults = { λ shelf. fault_count shelf };

    fn read(&mut self, alloc: Global, name: &str, limit: u64) -> Result<Vec<u8>, ShelfFault>
        ensures answer { Reads (Some (held_of self.old)) name.now limit result }
        ensures same { held_of self.new ≡ held_of self.old }
        ensures count { Counts (fault_count self.old) (fault_count self.new) result }
        ensures counted { fault_count self.new ≡ count_after (fault_count self.old) result }
        ensures called { CallsOnce self.old self.new }
        // Each fault comes exactly here, so that want of memory comes only where the bytes are due.
        ensures failed { IsErrOf result ShelfFault.Failed ↔ FailsNext self.old }
        ensures absent { IsErrOf result ShelfFault.Absent
            ↔ ((FailsNext self.old → ⊥) × (held_of self.old name.now ≡ None)) }
        ensures long { (n : ℕ) → IsErrOf result (ShelfFault.TooLong n)
            ↔ ((FailsNext self.old → ⊥) × IsLonger (held_of self.old name.now) limit n) }
    {
        let call = self.calls;
        self.calls = call.saturating_add(1);
        if fails_at(&self.fails, call) {
            self.faults = self.faults.saturating_add(1);
            return Err(ShelfFault::Failed);
        }
        let Some(bytes) = self.held(name) else {
            return Err(ShelfFault::Absent);
        };
        let len = bytes.len() as u64;
        if len > limit {
            return Err(ShelfFault::TooLong(len));
        }
        match Vec::from_slice(alloc, bytes) {
            Ok(copy) => Ok(copy),
            Err(_) => Err(ShelfFault::Memory),
        }
    }

    fn write(&mut self, name: &str, bytes: &[u8]) -> Result<(), ShelfFault>
        ensures answer { Writes (Some (held_of self.old)) (Some (held_of self.new)) name.now bytes.now result }
        ensures count { Counts (fault_count self.old) (fault_count self.new) result }
        ensures counted { fault_count self.new ≡ count_after (fault_count self.old) result }
        ensures called { CallsOnce self.old self.new }
        ensures failed { IsErrOf result ShelfFault.Failed ↔ FailsNext self.old }
        ensures kept { OnErr result (held_of self.new ≡ held_of self.old) }
    {
        let call = self.calls;
        self.calls = call.saturating_add(1);
        if fails_at(&self.fails, call) {
            self.faults = self.faults.saturating_add(1);
            return Err(ShelfFault::Failed);
        }
        match self.place(name, bytes) {
            Ok(()) => Ok(()),
            Err(_) => Err(ShelfFault::Memory),
        }
    }
}

/// A sink in memory, which tells what it took. Its room, in bytes, is taken when it is made, so that a
/// put takes no memory. The puts whose numbers, from 0, stand in a list fail and take nothing. A piece
/// that exceeds the room left is taken as far as it fits, and counts a fault. Puts past number
/// 2^64 - 1 keep that number.
#[derive(Drop)]
pub struct MemorySink {
    written: Vec<u8>,
    room: u64,
    fails: Vec<u64>,
    calls: u64,
    faults: u64,
    ghost has_room: { room ≤ vec_capacity written },
    ghost in_room: { vec_len written ≤ room },
}

impl MemorySink {
    ghost use Rattle.rr_edge.specs.Memory.{text_of, left_of, put_fails_of, put_count, put_fault_count};

    /// An empty sink with this room, whose puts fail by the list, before its first put.
    pub fn new(alloc: Global, room: u64, fails: Vec<u64>) -> Result<MemorySink, AllocError>
        ensures empty { IfOk result (λ sink. text_of sink ≡ []) }
        ensures room { IfOk result (λ sink. left_of sink ≡ room) }
        ensures fails { IfOk result (λ sink. put_fails_of sink ≡ fails.items) }
        ensures calls { IfOk result (λ sink. put_count sink ≡ 0) }
        ensures faults { IfOk result (λ sink. put_fault_count sink ≡ 0) }
    {
        let written = Vec::with_capacity(alloc, room as usize)?;
        Ok(MemorySink {
            written,
            room,
            fails,
            calls: 0,
            faults: 0,
        })
    }

    /// The bytes written so far.
    pub fn written(&self) -> &[u8]
        ensures { result.now ≡ text_of self.now }
    {
        self.written.as_slice()
    }
}

impl Sink for MemorySink {
    ghost use Rattle.std.specs.Prelude.{Some};
    ghost use Rattle.rr_edge.specs.Memory.{text_of, left_of, put_fault_count, PutFailsNext, PutsOnce};

    ghost written = { λ sink. Some (text_of sink) };

    ghost faults = { λ sink. put_fault_count sink };

    fn put(&mut self, bytes: &[u8]) -> Result<(), SinkFault>
        ensures bytes { Puts (Some (text_of self.old)) (Some (text_of self.new)) bytes.now result }
        ensures count { CountsPut (put_fault_count self.old) (put_fault_count self.new) result }
        ensures counted { put_fault_count self.new ≡ count_after_put (put_fault_count self.old) result }
        ensures called { PutsOnce self.old self.new }
        ensures failed { IsErr result ↔ (PutFailsNext self.old ⊎ (left_of self.old < length bytes.now)) }
        ensures nothing { PutFailsNext self.old → text_of self.new ≡ text_of self.old }
        ensures front { (PutFailsNext self.old → ⊥) → text_of self.new ≡ text_of self.old ++ take (left_of self.old) bytes.now }
    {
        let call = self.calls;
        self.calls = call.saturating_add(1);
        if fails_at(&self.fails, call) {
            self.faults = self.faults.saturating_add(1);
            return Err(SinkFault);
        }
        let left = self.room as usize - self.written.len();
        if bytes.len() <= left {
            self.written.extend_from_slice(bytes).unwrap();
            return Ok(());
        }
        self.written.extend_from_slice(&bytes[..left]).unwrap();
        self.faults = self.faults.saturating_add(1);
        Err(SinkFault)
    }
}
