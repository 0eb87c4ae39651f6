//! How many digits a change of an identifier may have.
ghost use Rattle.std.specs.Prelude.{◌≡◌, ℕ, List, [], map, Option, IfOk, OnOk, if◌then◌else◌, Some, true};
ghost use Rattle.std.specs.Str.{bytes_eq};
ghost use Rattle.rr_vcd_text.specs.Rooms.{is_within as is_within_of, narrowed as narrowed_of, number_at, room_of, some_room};
ghost use Rattle.rr_vcd_text.specs.Dump.{Variable as Plain};
ghost use Rattle.rr_vcd_text.specs.View.{plain_variable};

use crate::declared::Variable;
use indexmap::IndexMap;
use std::alloc::{AllocError, Global};
use std::marker::Model;

/// The least size of the variables of each identifier. The texts are borrowed.
#[derive(Drop)]
pub(crate) struct Rooms<'a> {
    sizes: IndexMap<&'a [u8], u64>,
}

impl<'a> Model for Rooms<'a> {
    ghost use Rattle.std.specs.Prelude.{ℕ, List, map};

    ghost Value = { List (List ℕ × ℕ) };

    ghost view = { λ s. map (λ e. (e.0.now, e.1)) s.sizes.entries };
}

/// Whether so many digits have this room.
pub(crate) fn is_within(room: Option<u64>, digits: usize) -> bool
    ensures { result ≡ is_within_of room digits }
{
    match room {
        Some(room) => digits as u64 <= room,
        None => false,
    }
}

fn narrowed(room: Option<u64>, size: u64) -> u64
    ensures { narrowed_of room size ≡ Some result }
{
    match room {
        Some(room) => room.min(size),
        None => size,
    }
}

fn greater(most: Option<u64>, room: Option<u64>) -> Option<u64>
    ensures { (digits : ℕ) → is_within_of result digits ≡ (if is_within_of most digits then true else is_within_of room digits) }
{
    match (most, room) {
        (Some(most), Some(room)) => Some(most.max(room)),
        (None, room) => room,
        (most, None) => most,
    }
}

impl<'a> Rooms<'a> {
    fn new(alloc: Global) -> Rooms<'a>
        ensures { result ≡ [] }
    {
        Rooms {
            sizes: IndexMap::new(alloc),
        }
    }

    /// The room of an identifier, where it has one.
    pub(crate) fn find(&self, id: &[u8]) -> Option<u64>
        ensures { result ≡ number_at id.now self.now }
    {
        self.sizes.get(id).copied()
    }

    fn put(&mut self, id: &'a [u8], size: u64) -> Result<(), AllocError>
        ensures { OnOk result ((t : List ℕ) → number_at t self.new ≡ (if bytes_eq t id.now then Some size else number_at t self.old)) }
    {
        match self.sizes.insert(id, size) {
            Ok(_) => Ok(()),
            Err(_) => Err(AllocError),
        }
    }

    /// The rooms of the identifiers of variables.
    pub(crate) fn of(alloc: Global, variables: &[Variable<'a>]) -> Result<Rooms<'a>, AllocError>
        ensures { IfOk result (λ rooms. (t : List ℕ) → number_at t rooms ≡ room_of (map plain_variable variables.now) t) }
    {
        let mut rooms = Rooms::new(alloc);
        for variable in variables.iter() {
            let room = narrowed(rooms.find(variable.id), variable.size);
            rooms.put(variable.id, room)?;
        }
        Ok(rooms)
    }

    /// The greatest room of the identifiers of these variables.
    pub(crate) fn most(&self, variables: &[Variable]) -> Option<u64>
        ensures { (vs : List Plain) → ((t : List ℕ) → number_at t self.now ≡ room_of vs t) → vs ≡ map plain_variable variables.now → (digits : ℕ) → is_within_of result digits ≡ some_room vs digits }
    {
        let mut most = None;
        for variable in variables.iter() {
            most = greater(most, self.find(variable.id));
        }
        most
    }
}
