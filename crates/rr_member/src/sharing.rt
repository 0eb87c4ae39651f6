//! The hand-over between rounds.
ghost use Rattle.std.specs.Prelude.{◌≡◌, ◌<◌, ◌++◌, IfOk, OnOk, length};
ghost use Rattle.rr_member.specs.Seats.{member_of};
ghost use Rattle.rr_member.specs.Sharing.{AllTook, MayTake, all_shorts, short_at, shorts_of};

use crate::seat::Seat;
use rr_cnf::Clause;
use std::alloc::{AllocError, Global};

/// A clause to be handed over, and the line from which it comes.
#[derive(Drop)]
pub(crate) struct Short {
    pub(crate) member: usize,
    pub(crate) line: usize,
    pub(crate) clause: Clause,
}

/// The most literals of a clause that is handed over.
const MOST_LITERALS: usize = 2;

fn push_short(
    alloc: Global,
    shorts: &mut Vec<Short>,
    seat: &Seat<'_>,
    place: usize,
    line: usize,
    round: u64,
) -> Result<(), AllocError>
    requires { line < length (member_of seat.now).lines }
    ensures { OnOk result (shorts.new.items ≡ shorts.old.items ++ short_at round place (member_of seat.now) line) }
{
    let clause = seat.clause(line);
    if seat.round_of(line) == round && clause.lits().len() <= MOST_LITERALS {
        let clause = Clause::from_lits(alloc, clause.lits())?;
        shorts.push(Short {
            member: place,
            line,
            clause,
        })?;
    }
    Ok(())
}

fn push_shorts(
    alloc: Global,
    shorts: &mut Vec<Short>,
    seat: &Seat<'_>,
    place: usize,
    round: u64,
) -> Result<(), AllocError>
    ensures { OnOk result (shorts.new.items ≡ shorts.old.items ++ shorts_of round place (member_of seat.now)) }
{
    for line in 0..seat.len() {
        push_short(alloc, shorts, seat, place, line, round)?;
    }
    Ok(())
}

/// The short clauses of the round, in member order and then line order.
fn shorts(alloc: Global, seats: &[Seat<'_>], round: u64) -> Result<Vec<Short>, AllocError>
    ensures { IfOk result (λ v. v.items ≡ all_shorts round seats.now) }
{
    let mut shorts = Vec::new(alloc);
    for (place, seat) in seats.iter().enumerate() {
        push_shorts(alloc, &mut shorts, seat, place, round)?;
    }
    Ok(shorts)
}

/// Every member takes the clauses of all others.
fn give(seats: &mut Vec<Seat<'_>>, shorts: &[Short]) -> Result<(), AllocError>
    requires { MayTake shorts.now seats.old.items }
    ensures { OnOk result (AllTook shorts.now seats.old.items seats.new.items) }
{
    for place in 0..seats.len() {
        seats[place].take(place, shorts)?;
    }
    Ok(())
}

/// Every member restarts, and takes each clause of at most two literals that another has learned in
/// this round, under an id that is new to it.
pub fn hand_over(alloc: Global, seats: &mut Vec<Seat<'_>>, round: u64) -> Result<(), AllocError>
    requires { MayTake (all_shorts round seats.old.items) seats.old.items }
    ensures { OnOk result (AllTook (all_shorts round seats.old.items) seats.old.items seats.new.items) }
{
    let shorts = shorts(alloc, seats.as_slice(), round)?;
    give(seats, shorts.as_slice())
}
