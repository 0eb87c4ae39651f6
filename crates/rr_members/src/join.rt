//! The joined journal.
ghost use Rattle.std.specs.Prelude.{◌≡◌, ℕ, ◌^◌, ◌-◌, ◌<◌, ◌≤◌, ◌+◌, ◌++◌, ◌∷◌, [], All, IfOk, OnOk, OnErr, Some, None, true, false, length, get_or, map, set, replicate};
ghost use Rattle.rr_derive.specs.Derive.{Step};
ghost use Rattle.rr_rounds.specs.States.{emptied, line_of, member};
ghost use Rattle.rr_rounds.specs.Joined.{HasIds, IsLine, flat, here, in_order, joined, joined_id, joined_step, joined_with, last_step, lines_in, renumbered};
ghost use Rattle.rr_member.specs.Seats.{member_of};
ghost use Rattle.rr_member.specs.Sharing.{seat, state_of};
ghost use Rattle.rr_members.specs.Groups.{AreLong};

use crate::members::Members;
use rr_cnf::Clause;
use rr_derive::Journal;
use rr_member::{MOST_ID, Seat};
use rr_rounds::Place;
use std::alloc::{AllocError, Global};
use std::marker::Model;

/// The joined ids of a member's lines.
#[derive(Drop)]
pub(crate) struct Ids {
    ids: Vec<u64>,
}

impl Model for Ids {
    ghost use Rattle.std.specs.Prelude.{ℕ, List};

    ghost Value = { List ℕ };

    ghost view = { λ i. i.ids.items };
}

impl Ids {
    fn new(alloc: Global, len: usize) -> Result<Ids, AllocError>
        ensures { IfOk result (λ i. i ≡ replicate len 0) }
    {
        Ok(Ids {
            ids: vec![in alloc; 0; len]?,
        })
    }

    fn put(&mut self, line: usize, id: u64)
        requires { line < length self.old }
        ensures { self.new ≡ set self.old line id }
    {
        self.ids[line] = id;
    }

    fn get(&self, line: usize) -> u64
        requires { line < length self.now }
        ensures { result ≡ get_or self.now line 0 }
    {
        self.ids[line]
    }
}

fn push_line(
    order: &mut Vec<Place>,
    seat: &Seat<'_>,
    place: usize,
    line: usize,
    round: u64,
) -> Result<(), AllocError>
    requires { line < length (member_of seat.now).lines }
    ensures { OnOk result (order.new.items ≡ order.old.items ++ here round place (member_of seat.now) line) }
{
    if seat.round_of(line) == round {
        order.push(Place {
            member: place,
            line,
        })?;
    }
    Ok(())
}

fn push_lines(
    order: &mut Vec<Place>,
    seat: &Seat<'_>,
    place: usize,
    round: u64,
) -> Result<(), AllocError>
    ensures { OnOk result (order.new.items ≡ order.old.items ++ lines_in round place (member_of seat.now)) }
{
    for line in 0..seat.len() {
        push_line(order, seat, place, line, round)?;
    }
    Ok(())
}

fn push_round(order: &mut Vec<Place>, seats: &[Seat<'_>], round: u64) -> Result<(), AllocError>
    ensures { OnOk result (order.new.items ≡ order.old.items ++ flat (length seats.now) (λ i. lines_in round i (member_of (seat seats.now i)))) }
{
    for (place, seat) in seats.iter().enumerate() {
        push_lines(order, seat, place, round)?;
    }
    Ok(())
}

/// All lines in the order of the joined journal.
fn order_of(alloc: Global, seats: &[Seat<'_>], last: u64) -> Result<Vec<Place>, AllocError>
    requires { last < 2 ^ 63 }
    ensures { IfOk result (λ v. v.items ≡ in_order (state_of last seats.now)) }
{
    let mut order = Vec::new(alloc);
    for round in 0..last + 1 {
        push_round(&mut order, seats, round)?;
    }
    Ok(order)
}

/// An id of 0 for each line.
fn no_ids(alloc: Global, seats: &[Seat<'_>]) -> Result<Vec<Ids>, AllocError>
    ensures { IfOk result (λ v. AreLong seats.now v.items) }
{
    let mut ids = Vec::new(alloc);
    for seat in seats {
        ids.push(Ids::new(alloc, seat.len())?)?;
    }
    Ok(ids)
}

fn put_id(ids: &mut Vec<Ids>, place: Place, id: u64)
    requires member { place.member < length ids.old.items }
    requires line { place.line < length (get_or ids.old.items place.member []) }
    ensures { ids.new.items ≡ set ids.old.items place.member (set (get_or ids.old.items place.member []) place.line id) }
{
    ids[place.member].put(place.line, id);
}

fn get_id(ids: &[Ids], place: Place) -> u64
    requires member { place.member < length ids.now }
    requires line { place.line < length (get_or ids.now place.member []) }
    ensures { result ≡ get_or (get_or ids.now place.member []) place.line 0 }
{
    ids[place.member].get(place.line)
}

/// The id of the line at this place of the order, a number that the text of a proof can hold.
fn id_at(count: u64, index: usize) -> Result<u64, AllocError>
    ensures value { IfOk result (λ id. id ≡ count + 1 + index) }
    ensures small { IfOk result (λ id. id < 2 ^ 62) }
{
    match count.checked_add(index as u64) {
        None => Err(AllocError),
        Some(before) => {
            if before < MOST_ID {
                Ok(before + 1)
            } else {
                Err(AllocError)
            }
        }
    }
}

impl<'f> Members<'f> {
    /// The joined ids of all lines.
    fn all_ids(&self, order: &[Place]) -> Result<Vec<Ids>, AllocError>
        requires going { self.now.failed ≡ false }
        requires order { order.now ≡ in_order self.now.state }
        ensures { IfOk result (λ v. HasIds self.now.formula self.now.state v.items) }
    {
        let count = self.count;
        let mut ids = no_ids(self.alloc, self.seats.as_slice())?;
        for (index, place) in order.iter().enumerate() {
            let id = id_at(count, index)?;
            put_id(&mut ids, *place, id);
        }
        Ok(ids)
    }

    /// The joined id of what a hint of the member at this place names.
    fn renumbered(&self, ids: &[Ids], place: usize, hint: u64) -> u64
        requires going { self.now.failed ≡ false }
        requires ids { HasIds self.now.formula self.now.state ids.now }
        requires place { place < length self.now.state.members }
        ensures { result ≡ renumbered self.now.formula self.now.state place hint }
    {
        match self.seats[place].meant(place, hint) {
            Some(named) => get_id(ids, named),
            None => hint,
        }
    }

    /// Hints of the member at this place, renumbered.
    fn all_renumbered(
        &self,
        ids: &[Ids],
        place: usize,
        hints: &[u64],
    ) -> Result<Vec<u64>, AllocError>
        requires going { self.now.failed ≡ false }
        requires ids { HasIds self.now.formula self.now.state ids.now }
        requires place { place < length self.now.state.members }
        ensures { IfOk result (λ v. v.items ≡ map (renumbered self.now.formula self.now.state place) hints.now) }
    {
        let mut new = Vec::new(self.alloc);
        for hint in hints {
            new.push(self.renumbered(ids, place, *hint))?;
        }
        Ok(new)
    }

    /// Adds a line behind the others.
    fn push(
        &self,
        journal: &mut Journal,
        ids: &[Ids],
        place: Place,
        id: u64,
    ) -> Result<(), AllocError>
        requires going { self.now.failed ≡ false }
        requires ids { HasIds self.now.formula self.now.state ids.now }
        requires line { IsLine self.now.state place }
        requires id { id ≡ joined_id self.now.formula self.now.state place }
        requires first { journal.old.first ≤ id }
        requires last { All (λ s. s.id < id) journal.old.lines }
        ensures { OnOk result (journal.new ≡ record journal.old { lines = journal.old.lines ++ joined_step self.now.formula self.now.state place ∷ [] }) }
    {
        let seat = &self.seats[place.member];
        let clause = Clause::from_lits(self.alloc, seat.clause(place.line).lits())?;
        let hints = self.all_renumbered(ids, place.member, seat.hints(place.line))?;
        journal.push_at(id, clause, hints)?;
        Ok(())
    }

    /// The joined journal of all lines.
    fn joined_by(&self, order: &[Place], ids: &[Ids]) -> Result<Journal, AllocError>
        requires going { self.now.failed ≡ false }
        requires order { order.now ≡ in_order self.now.state }
        requires ids { HasIds self.now.formula self.now.state ids.now }
        ensures first { IfOk result (λ j. j.first ≡ length self.now.formula.clauses + 1) }
        ensures lines { IfOk result (λ j. j.lines ≡ joined self.now.formula self.now.state) }
        ensures small { OnOk result (length self.now.formula.clauses + 1 + length (in_order self.now.state) < 2 ^ 62) }
    {
        let count = self.count;
        let _next = id_at(count, order.len())?;
        let mut journal = Journal::new(self.alloc, id_at(count, 0)?);
        for (index, place) in order.iter().enumerate() {
            let id = id_at(count, index)?;
            self.push(&mut journal, ids, *place, id)?;
        }
        Ok(journal)
    }

    /// The joined journal.
    pub(crate) fn joined(&self) -> Result<Journal, AllocError>
        requires { self.now.failed ≡ false }
        ensures lines { IfOk result (λ j. j.lines ≡ joined self.now.formula self.now.state) }
        ensures small { OnOk result (length self.now.formula.clauses + 1 + length (in_order self.now.state) < 2 ^ 62) }
    {
        let order = order_of(self.alloc, self.seats.as_slice(), self.round)?;
        let ids = self.all_ids(order.as_slice())?;
        let journal = self.joined_by(order.as_slice(), ids.as_slice())?;
        Ok(journal)
    }

    /// The joined journal that ends with the empty line of the member at this place.
    pub(crate) fn joined_with(&self, place: usize) -> Result<Journal, AllocError>
        requires going { self.now.failed ≡ false }
        requires place { place < length self.now.state.members }
        requires refuted { (e : Step) × ((member self.now.state place).ending ≡ Some (emptied e)) }
        ensures small { OnOk result (length self.now.formula.clauses + 1 + length (in_order self.now.state) < 2 ^ 62) }
        ensures lines { IfOk result (λ j. (e : Step) × (((member self.now.state place).ending ≡ Some (emptied e)) × (j.lines ≡ joined_with self.now.formula self.now.state place e))) }
    {
        let order = order_of(self.alloc, self.seats.as_slice(), self.round)?;
        let ids = self.all_ids(order.as_slice())?;
        let mut journal = self.joined_by(order.as_slice(), ids.as_slice())?;
        let seat = &self.seats[place];
        let clause = Clause::from_lits(self.alloc, seat.last_clause().lits())?;
        let hints = self.all_renumbered(ids.as_slice(), place, seat.last_hints())?;
        let id = id_at(self.count, order.len())?;
        journal.push_at(id, clause, hints)?;
        Ok(journal)
    }
}
