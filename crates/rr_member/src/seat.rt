//! One member: its solver, the round of each of its lines, and where its handed clauses come from.
ghost use Rattle.std.specs.Prelude.{◌≡◌, ◌==◌, ◌-◌, ℕ, IfNone, IfSome, ◌<◌, ◌≤◌, ◌++◌, ◌∷◌, [], All, IfOk, IsSome, OnOk, None, Some, true, false, length, slice_index_or};
ghost use Rattle.rr_derive.specs.Derive.{Step};
ghost use Rattle.rr_cnf.specs.Clauses.{IsWithin};
ghost use Rattle.rr_cnf.specs.Partial.{Determined};
ghost use Rattle.rr_solver.specs.Searches.{IsModel, Same, line};
ghost use Rattle.rr_rounds.specs.States.{learned, taken};
ghost use Rattle.std.specs.List.{find};
ghost use Rattle.std.specs.Option.{option_map};
ghost use Rattle.rr_rounds.specs.Joined.{names_of};
ghost use Rattle.rr_member.specs.declared.seat.Origin.{Origin};
ghost use Rattle.rr_member.specs.Seats.{Does, Ran, member_of, new_seat};
ghost use Rattle.rr_rounds.specs.Rounds.{AreApart};
ghost use Rattle.rr_member.specs.Sharing.{Gives, Took};

use crate::gate::Gate;
use crate::sharing::Short;
use rr_cnf::{Clause, Formula};
use rr_derive::{Line, position};
use rr_rounds::Place;
use rr_solver::{Solver, Status, Stepped};
use std::alloc::{AllocError, Global};
use std::marker::Model;

/// The id of a clause that was handed over, and the line from which it comes; members and lines are
/// counted from 0.
#[derive(Clone, Copy)]
pub(crate) struct Origin {
    pub(crate) id: u64,
    pub(crate) member: usize,
    pub(crate) line: usize,
}

/// The greatest id that the text of a proof can hold: of a clause that is handed over, which is above
/// the ids of the own lines, and of a line of the joined journal.
pub const MOST_ID: u64 = (1 << 62) - 1;

/// A member of the search.
#[derive(Drop)]
pub struct Seat<'f> {
    number: u32,
    solver: Solver<'f>,
    /// The round of each line but the empty one.
    rounds: Vec<u64>,
    /// In the order in which the clauses were handed over.
    origins: Vec<Origin>,
    /// What the last step did.
    stepped: Stepped,
}

impl<'f> Model for Seat<'f> {
    ghost use Rattle.rr_member.specs.Seats.{IsSeat, Seated};

    ghost Value = { Seated };

    ghost view = { λ s. record { search = s.solver; rounds = s.rounds.items; origins = s.origins.items } };

    ghost invariant = { λ s. IsSeat s.solver s.rounds.items s.origins.items s.stepped };
}

impl<'f> Seat<'f> {
    /// A member with this number, which has done nothing.
    pub fn new(
        alloc: Global,
        formula: &'f Formula,
        inputs: u64,
        number: u32,
    ) -> Result<Seat<'f>, AllocError>
        requires few { inputs ≤ formula.now.vars }
        requires determined { Determined formula.now inputs }
        ensures { IfOk result (λ s. s ≡ new_seat formula.now inputs) }
    {
        Ok(Seat {
            number,
            solver: Solver::new(alloc, formula, inputs, number)?,
            rounds: Vec::new(alloc),
            origins: Vec::new(alloc),
            stepped: Stepped::Learned,
        })
    }

    /// Whether the member has ended.
    pub fn has_ended(&self) -> bool
        ensures ended { result ≡ true → IsSome (member_of self.now).ending }
        ensures going { result ≡ false → (member_of self.now).ending ≡ None }
        ensures running { result ≡ false → (self.now.search.status ≡ Status.Failed → ⊥) → self.now.search.status ≡ Status.Running }
    {
        match self.stepped {
            Stepped::Learned => false,
            Stepped::Model => true,
            Stepped::Refuted => true,
        }
    }

    /// Whether it has ended with an assignment, where it has ended.
    pub fn has_solved(&self) -> bool
        requires { IsSome (member_of self.now).ending }
        ensures solved { result ≡ true → self.now.search.status ≡ Status.Model }
        ensures refuted { result ≡ false → self.now.search.status ≡ Status.Refuted }
    {
        match self.stepped {
            Stepped::Learned => false,
            Stepped::Model => true,
            Stepped::Refuted => false,
        }
    }

    /// The assignment with which it has ended.
    pub fn bits(&self, alloc: Global) -> Result<Vec<bool>, AllocError>
        requires { self.now.search.status ≡ Status.Model }
        ensures bits { IfOk result (λ v. v.items ≡ self.now.search.bits) }
        ensures model { IfOk result (λ v. IsModel self.now.search.formula v.items) }
    {
        let bits = Vec::from_slice(alloc, self.solver.assignment())?;
        Ok(bits)
    }

    /// One event of a member that has not ended.
    fn step(&mut self, round: u64) -> Result<(), AllocError>
        requires { self.old.search.status ≡ Status.Running }
        ensures same { Same self.old.search self.new.search }
        ensures does { OnOk result (Does round self.old self.new) }
    {
        self.rounds.reserve(1)?;
        let stepped = self.solver.conflict_step()?;
        self.stepped = stepped;
        match stepped {
            Stepped::Learned => self.rounds.push_reserved(round),
            Stepped::Model => {}
            Stepped::Refuted => {}
        }
        Ok(())
    }

    /// So many events, or fewer and an end.
    fn advance(&mut self, steps: u32, round: u64) -> Result<(), AllocError>
        requires { self.old.search.status ≡ Status.Failed → ⊥ }
        ensures { OnOk result (Ran steps round self.old self.new) }
    {
        for _step in 0..steps {
            if self.has_ended() {
                break;
            }
            self.step(round)?;
        }
        Ok(())
    }
}

impl<'f> Seat<'f> {
    /// The number of lines but the empty one.
    pub fn len(&self) -> usize
        ensures { result ≡ length (member_of self.now).lines }
    {
        let _lines = self.solver.journal().lines();
        self.rounds.len()
    }

    /// The clause of a line.
    pub fn clause(&self, line: usize) -> &Clause
        requires { line < length (member_of self.now).lines }
        ensures { result.now ≡ (learned (member_of self.now) line).step.clause }
    {
        clause_at(self.solver.journal().lines(), line)
    }

    /// The hints of a line.
    pub fn hints(&self, line: usize) -> &[u64]
        requires { line < length (member_of self.now).lines }
        ensures { result.now ≡ (learned (member_of self.now) line).step.hints }
    {
        hints_at(self.solver.journal().lines(), line)
    }

    /// The clause of the empty line with which it has ended.
    pub fn last_clause(&self) -> &Clause
        requires { self.now.search.status ≡ Status.Refuted }
        ensures { result.now ≡ (line self.now.search.lines (length self.now.search.lines - 1)).clause }
    {
        let lines = self.solver.journal().lines();
        clause_at(lines, lines.len() - 1)
    }

    /// The hints of the empty line with which it has ended.
    pub fn last_hints(&self) -> &[u64]
        requires { self.now.search.status ≡ Status.Refuted }
        ensures { result.now ≡ (line self.now.search.lines (length self.now.search.lines - 1)).hints }
    {
        let lines = self.solver.journal().lines();
        hints_at(lines, lines.len() - 1)
    }

    /// The line that an id names, if it names one: a line of the member at this place, which is this
    /// one, or the line from which a clause was handed over to it.
    pub fn meant(&self, place: usize, id: u64) -> Option<Place>
        requires { AreApart (member_of self.now) }
        ensures { result ≡ option_map (λ n. n.line) (find (λ n. n.id == id) (names_of place (member_of self.now))) }
    {
        match self.own_line(id) {
            Some(line) => Some(Place {
                member: place,
                line,
            }),
            None => match self.taken_with(id) {
                Some(index) => Some(self.origin(index)),
                None => None,
            },
        }
    }

    fn own_line(&self, id: u64) -> Option<usize>
        ensures found { IfSome result (λ k. (k < length (member_of self.now).lines) × ((learned (member_of self.now) k).step.id ≡ id)) }
        ensures none { IfNone result ((k : ℕ) → k < length (member_of self.now).lines → (learned (member_of self.now) k).step.id ≡ id → ⊥) }
    {
        match position(self.solver.journal().lines(), id) {
            None => None,
            Some(line) => {
                if line < self.rounds.len() {
                    Some(line)
                } else {
                    None
                }
            }
        }
    }

    fn taken_with(&self, id: u64) -> Option<usize>
        requires { AreApart (member_of self.now) }
        ensures found { IfSome result (λ k. (k < length (member_of self.now).taken) × ((taken (member_of self.now) k).handed.id ≡ id)) }
        ensures none { IfNone result ((k : ℕ) → k < length (member_of self.now).taken → (taken (member_of self.now) k).handed.id ≡ id → ⊥) }
    {
        origin_position(self.origins.as_slice(), id)
    }

    fn origin(&self, index: usize) -> Place
        requires { index < length (member_of self.now).taken }
        ensures { result ≡ (taken (member_of self.now) index).origin }
    {
        let origin = self.origins[index];
        Place {
            member: origin.member,
            line: origin.line,
        }
    }

    /// The round in which a line was learned.
    pub fn round_of(&self, line: usize) -> u64
        requires { line < length (member_of self.now).lines }
        ensures { result ≡ (learned (member_of self.now) line).round }
    {
        self.rounds[line]
    }

    /// Takes the clause of another member's line.
    fn take_one(&mut self, short: &Short) -> Result<(), AllocError>
        requires depth { self.old.search.depth ≡ 0 }
        requires within { All (IsWithin self.old.search.formula.vars) short.now.clause }
        ensures { OnOk result (Gives short.now self.old self.new) }
    {
        let last = self.solver.last_id();
        if last >= MOST_ID {
            return Err(AllocError);
        }
        let id = last + 1;
        self.origins.reserve(1)?;
        self.solver.import(id, &short.clause)?;
        self.origins.push_reserved(Origin {
            id,
            member: short.member,
            line: short.line,
        });
        Ok(())
    }

    fn restart(&mut self)
        ensures { self.new ≡ record self.old { search = record self.old.search { depth = 0 } } }
    {
        self.solver.restart();
    }

    /// Restarts, and takes the clauses of all other members' lines.
    pub(crate) fn take(&mut self, place: usize, shorts: &[Short]) -> Result<(), AllocError>
        requires { All (λ x. All (IsWithin self.old.search.formula.vars) x.clause) shorts.now }
        ensures { OnOk result (Took place shorts.now self.old self.new) }
    {
        self.restart();
        for short in shorts {
            if short.member != place {
                self.take_one(short)?;
            }
        }
        Ok(())
    }
}

/// The place of the handed clause with this id.
fn origin_position(origins: &[Origin], id: u64) -> Option<usize>
    requires { (j k : ℕ) (d e : Origin) → j < k → k < length origins.now → (slice_index_or origins.now j d).id < (slice_index_or origins.now k e).id }
    ensures found { IfSome result (λ k. (k < length origins.now) × ((d : Origin) → (slice_index_or origins.now k d).id ≡ id)) }
    ensures none { IfNone result ((k : ℕ) (d : Origin) → k < length origins.now → (slice_index_or origins.now k d).id ≡ id → ⊥) }
{
    let mut low = 0;
    let mut high = origins.len();
    while low < high {
        let middle = low + (high - low) / 2;
        let at = origins[middle].id;
        if at == id {
            return Some(middle);
        }
        if at < id {
            low = middle + 1;
        } else {
            high = middle;
        }
    }
    None
}

fn hints_at(lines: &[Line], line: usize) -> &[u64]
    requires { line < length lines.now }
    ensures { (d : Step) → result.now ≡ (slice_index_or lines.now line d).hints }
{
    let line = &lines[line];
    line.hints.as_slice()
}

fn clause_at(lines: &[Line], line: usize) -> &Clause
    requires { line < length lines.now }
    ensures { (d : Step) → result.now ≡ (slice_index_or lines.now line d).clause }
{
    let line = &lines[line];
    &line.clause
}

/// The member after its events of a round, behind the gate: so many as `steps` says, or fewer and an
/// end. Where memory runs out, it is lost.
pub fn work<'f, G: Gate>(
    mut seat: Seat<'f>,
    steps: u32,
    round: u64,
    gate: &G,
) -> Result<Seat<'f>, AllocError>
    requires { seat.search.status ≡ Status.Failed → ⊥ }
    ensures { IfOk result (Ran steps round seat.entry) }
{
    gate.pass(seat.number);
    seat.advance(steps, round)?;
    Ok(seat)
}
