//! The members of a search, and their rounds.
ghost use Rattle.std.specs.Prelude.{◌≡◌, ℕ, ◌<◌, ◌≤◌, ◌+◌, IfOk, OnOk, OnErr, MatchOption, None, true, IsErr, length, map, replicate, false};
ghost use Rattle.rr_cnf.specs.Partial.{Determined};
ghost use Rattle.rr_solver.specs.declared.engine.Status.TheVariants.{Failed};
ghost use Rattle.rr_derive.specs.Derive.{Derives};
ghost use Rattle.rr_rounds.specs.Joined.{joined};
ghost use Rattle.rr_rounds.specs.Rounds.{EventsCommute, IsRound, JoinedDerives, start};
ghost use Rattle.rr_member.specs.Seats.{Ran, member_of, new_seat};
ghost use Rattle.rr_member.specs.Sharing.{seat};
ghost use Rattle.rr_members.specs.Groups.{AnswerIs, EachRan, IsFirstEnded, NoneEnded, seat_as_ok};

use rr_cnf::Formula;
use rr_derive::Journal;
use rr_member::{Gate, Seat, hand_over, work};
use std::alloc::{AllocError, Global};
use std::marker::Model;
use std::thread;
use std::thread::Threads;

/// Each member's events of a round, in a thread of its own.
fn all_work<'f, R: Threads + Sync, G: Gate + Sync>(
    rt: &R,
    alloc: Global,
    seats: Vec<Seat<'f>>,
    steps: u32,
    round: u64,
    gate: &G,
) -> Result<Vec<Seat<'f>>, AllocError>
    requires { (k : ℕ) → k < length seats.items → (seat seats.items k).search.status ≡ Failed → ⊥ }
    ensures { IfOk result (λ v. EachRan steps round seats.entry.items v.items) }
{
    let run = |seat|
        requires { seat.search.status ≡ Failed → ⊥ }
        ensures { IfOk result (Ran steps round seat.entry) }
    { work(seat, steps, round, gate) };
    let all = thread::map_vec(rt, seats, &run)?;
    let seats = seats_of(alloc, all)?;
    Ok(seats)
}

/// The members after their work, where memory lasted for each.
fn seats_of<'f>(
    alloc: Global,
    all: Vec<Result<Seat<'f>, AllocError>>,
) -> Result<Vec<Seat<'f>>, AllocError>
    ensures { IfOk result (λ v. map seat_as_ok v.items ≡ all.entry.items) }
{
    let mut seats = Vec::new(alloc);
    for one in all {
        seats.push(one?)?;
    }
    Ok(seats)
}

/// How a round ended.
#[derive(Drop)]
pub enum Round {
    /// No member has ended.
    Going,
    /// Values that satisfy the formula, by variable from 1.
    Model(Vec<bool>),
    /// Lines that refute the formula.
    Refuted(Journal),
}

/// The members of a search, which share its formula.
#[derive(Drop)]
pub struct Members<'f> {
    pub(crate) alloc: Global,
    pub(crate) seats: Vec<Seat<'f>>,
    /// The number of the round that comes next, from 0.
    pub(crate) round: u64,
    /// The number of the formula's clauses.
    pub(crate) count: u64,
    /// Whether memory has run out.
    pub(crate) failed: bool,
}

impl<'f> Model for Members<'f> {
    ghost use Rattle.std.specs.Prelude.{◌≡◌, false};
    ghost use Rattle.rr_members.specs.Groups.{Group, IsGroup, group_of};

    ghost Value = { Group };

    ghost view = { λ m. group_of m.round m.seats.items m.failed };

    ghost invariant = { λ m. m.failed ≡ false → IsGroup m.seats.items m.round m.count };
}

impl<'f> Members<'f> {
    /// Members with the numbers 1 to `count`, which decide only the variables 1 to `inputs`, which
    /// determine all others.
    pub fn new(
        alloc: Global,
        formula: &'f Formula,
        inputs: u64,
        count: u32,
    ) -> Result<Members<'f>, AllocError>
        requires few { inputs ≤ formula.now.vars }
        requires determined { Determined formula.now inputs }
        requires some { 1 ≤ count }
        requires most { count ≤ 8 }
        ensures { IfOk result (λ m. m ≡ record { formula = formula.now; inputs = inputs; state = start count; failed = false }) }
    {
        let seats = new_seats(alloc, formula, inputs, count)?;
        Ok(Members {
            alloc,
            seats,
            round: 0,
            count: formula.len(),
            failed: false,
        })
    }

    /// One round: each member makes `steps` events or ends, in a thread of its own behind the gate; then
    /// the hand-over. Where a member has ended, or memory has run out, it only answers the same again.
    /// The lines of all members, joined, derive from the formula; in whatever order the threads make
    /// their events, so do those that they leave, and events of different members may be exchanged.
    pub fn round<R: Threads + Sync, G: Gate + Sync>(
        &mut self,
        rt: &R,
        steps: u32,
        gate: &G,
    ) -> Result<Round, AllocError>
        ensures ran { NoneEnded self.old.state → OnOk result (IsRound self.old.formula self.old.inputs steps self.old.state self.new.state) }
        ensures stays { (NoneEnded self.old.state → ⊥) → OnOk result (self.new.state ≡ self.old.state) }
        ensures same { OnOk result ((self.new.formula ≡ self.old.formula) × (self.new.inputs ≡ self.old.inputs)) }
        ensures answer { IfOk result (AnswerIs self.new) }
        ensures derives { OnOk result (Derives self.new.formula.clauses (joined self.new.formula self.new.state)) }
        ensures interleaved { JoinedDerives }
        ensures commute { EventsCommute }
        ensures going { OnOk result (self.new.failed ≡ false) }
        ensures failed { OnErr result (self.new.failed ≡ true) }
        ensures again { self.old.failed ≡ true → IsErr result }
    {
        self.advance(rt, steps, gate)
    }

    // A round, or the same answer again.
    fn advance<R: Threads + Sync, G: Gate + Sync>(
        &mut self,
        rt: &R,
        steps: u32,
        gate: &G,
    ) -> Result<Round, AllocError>
        ensures ran { NoneEnded self.old.state → OnOk result (IsRound self.old.formula self.old.inputs steps self.old.state self.new.state) }
        ensures stays { (NoneEnded self.old.state → ⊥) → OnOk result (self.new.state ≡ self.old.state) }
        ensures same { OnOk result ((self.new.formula ≡ self.old.formula) × (self.new.inputs ≡ self.old.inputs)) }
        ensures answer { IfOk result (AnswerIs self.new) }
        ensures derives { OnOk result (Derives self.new.formula.clauses (joined self.new.formula self.new.state)) }
        ensures going { OnOk result (self.new.failed ≡ false) }
        ensures failed { OnErr result (self.new.failed ≡ true) }
        ensures again { self.old.failed ≡ true → IsErr result }
    {
        if self.failed {
            return Err(AllocError);
        }
        if !self.has_ended() {
            self.play(rt, steps, gate)?;
        }
        match self.answer() {
            Ok(round) => Ok(round),
            Err(error) => {
                self.failed = true;
                Err(error)
            }
        }
    }

    fn has_ended(&self) -> bool
        ensures ended { result ≡ true → NoneEnded self.now.state → ⊥ }
        ensures going { result ≡ false → NoneEnded self.now.state }
    {
        match first_ended(self.seats.as_slice()) {
            Some(_) => true,
            None => false,
        }
    }

    // The events and the hand-over.
    fn play<R: Threads + Sync, G: Gate + Sync>(
        &mut self,
        rt: &R,
        steps: u32,
        gate: &G,
    ) -> Result<(), AllocError>
        requires { self.old.failed ≡ false }
        ensures ran { OnOk result (IsRound self.old.formula self.old.inputs steps self.old.state self.new.state) }
        ensures same { OnOk result ((self.new.formula ≡ self.old.formula) × (self.new.inputs ≡ self.old.inputs)) }
        ensures going { OnOk result (self.new.failed ≡ false) }
        ensures failed { OnErr result (self.new.failed ≡ true) }
    {
        self.failed = true;
        if self.round >= MOST_ROUND {
            return Err(AllocError);
        }
        let seats = std::mem::replace(&mut self.seats, Vec::new(self.alloc));
        let mut seats = all_work(rt, self.alloc, seats, steps, self.round, gate)?;
        hand_over(self.alloc, &mut seats, self.round)?;
        self.seats = seats;
        self.round += 1;
        self.failed = false;
        Ok(())
    }

    // What the lowest-numbered member that has ended answers.
    fn answer(&self) -> Result<Round, AllocError>
        requires { self.now.failed ≡ false }
        ensures answer { IfOk result (AnswerIs self.now) }
        ensures derives { OnOk result (Derives self.now.formula.clauses (joined self.now.formula self.now.state)) }
    {
        match first_ended(self.seats.as_slice()) {
            None => Ok(Round::Going),
            Some(place) => {
                let seat = &self.seats[place];
                if seat.has_solved() {
                    let bits = seat.bits(self.alloc)?;
                    Ok(Round::Model(bits))
                } else {
                    let journal = self.joined_with(place)?;
                    Ok(Round::Refuted(journal))
                }
            }
        }
    }
}

/// After so many rounds there are no more.
const MOST_ROUND: u64 = (1 << 63) - 1;

fn new_seats<'f>(
    alloc: Global,
    formula: &'f Formula,
    inputs: u64,
    count: u32,
) -> Result<Vec<Seat<'f>>, AllocError>
    requires few { inputs ≤ formula.now.vars }
    requires determined { Determined formula.now inputs }
    ensures { IfOk result (λ v. v.items ≡ replicate count (new_seat formula.now inputs)) }
{
    let mut seats = Vec::new(alloc);
    for index in 0..count {
        seats.push(Seat::new(alloc, formula, inputs, index + 1)?)?;
    }
    Ok(seats)
}

/// The place of the lowest-numbered member that has ended.
fn first_ended(seats: &[Seat<'_>]) -> Option<usize>
    ensures { MatchOption result ((k : ℕ) → k < length seats.now → (member_of (seat seats.now k)).ending ≡ None) (IsFirstEnded seats.now) }
{
    for (place, seat) in seats.iter().enumerate() {
        if seat.has_ended() {
            return Some(place);
        }
    }
    None
}
