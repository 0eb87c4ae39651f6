//! The current bits of the identifiers of ports.
ghost use Rattle.std.specs.Prelude.{◌≡◌, ◌∷◌, ◌++◌, ℕ, List, [], Option, Some, OnOk, is_some, if◌then◌else◌};
ghost use Rattle.std.specs.Str.{bytes_eq};
ghost use Rattle.rr_vcd_text.specs.Dump.{Told, Change};
ghost use Rattle.rr_vcd.specs.Sampled.{cell_by};
ghost use Rattle.rr_vcd.specs.View.{plain_probe, slot_at, before_moment as before_moment_of, unseen, AreSlots, IsWatched};

use crate::cell::{UNKNOWN, narrowed, wide_cell};
use crate::probes::Probe;
use indexmap::IndexMap;
use rr_trace::Cell;
use std::alloc::{AllocError, Global};
use std::marker::Model;

/// The bits of an identifier now, the moment of its last change, and its bits before that moment. Where
/// no change was read nothing is known, from the moment 0 on.
#[derive(Clone, Copy)]
pub(crate) struct Slot {
    earlier: Cell,
    current: Cell,
    moment: u64,
}

const UNSEEN: Slot = Slot {
    earlier: UNKNOWN,
    current: UNKNOWN,
    moment: 0,
};

/// A slot for each identifier that is watched. The texts are borrowed.
#[derive(Drop)]
pub(crate) struct Slots<'a> {
    slots: IndexMap<&'a [u8], Slot>,
}

impl<'a> Model for Slots<'a> {
    ghost use Rattle.std.specs.Prelude.{ℕ, List, map};
    ghost use Rattle.rr_vcd.specs.declared.slots.Slot.{Slot as PlainSlot};

    ghost Value = { List (List ℕ × PlainSlot) };

    ghost view = { λ s. map (λ e. (e.0.now, e.1)) s.slots.entries };
}

impl Slot {
    /// The bits before a moment, where no later one has begun.
    fn before_moment(&self, moment: u64) -> Cell
        ensures { result ≡ before_moment_of moment self.now }
    {
        if self.moment == moment {
            self.earlier
        } else {
            self.current
        }
    }
}

impl<'a> Slots<'a> {
    pub(crate) fn new(alloc: Global) -> Slots<'a>
        ensures { result ≡ [] }
    {
        Slots {
            slots: IndexMap::new(alloc),
        }
    }

    fn find(&self, id: &[u8]) -> Option<Slot>
        ensures { result ≡ slot_at id.now self.now }
    {
        self.slots.get(id).copied()
    }

    fn put(&mut self, id: &'a [u8], slot: Slot) -> Result<(), AllocError>
        ensures { OnOk result ((t : List ℕ) → slot_at t self.new ≡ (if bytes_eq t id.now then Some slot else slot_at t self.old)) }
    {
        match self.slots.insert(id, slot) {
            Ok(_) => Ok(()),
            Err(_) => Err(AllocError),
        }
    }

    /// An identifier of which no change was read.
    pub(crate) fn watch(&mut self, id: &'a [u8]) -> Result<(), AllocError>
        ensures { OnOk result ((t : List ℕ) → slot_at t self.new ≡ (if bytes_eq t id.now then Some unseen else slot_at t self.old)) }
    {
        self.put(id, UNSEEN)
    }

    /// A change of an identifier in a moment, the last one that has begun.
    pub(crate) fn change(
        &mut self,
        id: &'a [u8],
        digits: &[u8],
        moment: u64,
    ) -> Result<(), AllocError>
        ensures slots { (past told : List Told) → AreSlots past told moment self.old → OnOk result (AreSlots past (told ++ Change id.now digits.now ∷ []) moment self.new) }
        ensures same { OnOk result ((t : List ℕ) → is_some (slot_at t self.new) ≡ is_some (slot_at t self.old)) }
    {
        let Some(slot) = self.find(id) else {
            return Ok(());
        };
        let changed = Slot {
            earlier: slot.before_moment(moment),
            current: wide_cell(digits),
            moment,
        };
        self.put(id, changed)
    }

    /// The bits of a port now, or before the moment, the last one that has begun.
    pub(crate) fn cell(&self, probe: Probe, moment: u64, before: bool) -> Cell
        ensures { (past told : List Told) → AreSlots past told moment self.now → IsWatched self.now (plain_probe probe.entry) →
            result ≡ cell_by probe.entry.width (plain_probe probe.entry).0 (if before then past else told) }
    {
        let Some(id) = probe.id else {
            return UNKNOWN;
        };
        let Some(slot) = self.find(id) else {
            return UNKNOWN;
        };
        let cell = if before {
            slot.before_moment(moment)
        } else {
            slot.current
        };
        narrowed(cell, probe.width)
    }
}
