//! The clauses at hand, and the places in them of the literals that they watch.
ghost use Rattle.std.specs.Prelude.{◌≡◌, ◌⊎◌, ℕ, ◌+◌, ◌-◌, ◌<◌, ◌≤◌, ◌++◌, ◌∷◌, [], length, set, get_or, IfOk, OnErr, OnOk};
ghost use Rattle.rr_watch_lists.specs.Holdings.{Held, IsSource, coming, held_at, known_with};

use rr_cnf::{Formula, Lit};
use std::alloc::{AllocError, Global};
use std::marker::Model;

/// The places in a clause of its two watched literals, which differ. In a clause whose literals are
/// all the same, or that has none, both places are 0.
#[derive(Clone, Copy)]
pub struct Watched {
    /// The place of one of them.
    pub first: u32,
    /// The place of the other one.
    pub second: u32,
}

impl Watched {
    /// Of its places the one beside this one: the second where this is the first, and else the first.
    pub fn beside(self, place: u32) -> u32
        ensures one { result ≡ self.first ⊎ result ≡ self.second }
        ensures second { place ≡ self.first → result ≡ self.second }
        ensures first { (place ≡ self.first → ⊥) → result ≡ self.first }
    {
        if place == self.first {
            self.second
        } else {
            self.first
        }
    }
}

/// A clause that was added: its id, the places of its literals from `start` to before `end` among those
/// of all, and what it watches.
#[derive(Clone, Copy)]
pub(crate) struct Added {
    id: u64,
    start: usize,
    end: usize,
    watched: Watched,
}

/// Where a clause comes from.
#[derive(Clone, Copy)]
pub enum Source {
    /// It is the formula's next one.
    OfFormula,
    /// It was given with this id.
    Given(u64),
}

/// The clauses at hand: the formula's, which are read there, and behind them those that were added.
#[derive(Drop)]
pub struct Hand<'f> {
    formula: &'f Formula,
    /// For each clause of the formula that is at hand, what it watches.
    watched: Vec<Watched>,
    added: Vec<Added>,
    /// The literals of those that were added, one clause behind another.
    lits: Vec<Lit>,
}

impl<'f> Model for Hand<'f> {
    ghost use Rattle.std.specs.Prelude.{length};
    ghost use Rattle.rr_watch_lists.specs.Holdings.{Holding, IsHand, holds};

    ghost Value = { Holding };

    ghost view = { λ h. record { formula = h.formula.now.clauses; known = length h.watched.items; held = holds h.formula.now.clauses h.watched.items h.added.items h.lits.items } };

    ghost invariant = { λ h. IsHand h.formula.now.clauses h.watched.items h.added.items h.lits.items };
}

impl<'f> Hand<'f> {
    /// No clause is at hand yet. Takes the room that the formula's will need.
    pub fn new(alloc: Global, formula: &'f Formula) -> Result<Hand<'f>, AllocError>
        ensures { IfOk result (λ h. h ≡ record { formula = formula.now.clauses; known = 0; held = [] }) }
    {
        Ok(Hand {
            formula,
            watched: Vec::with_capacity(alloc, formula.len() as usize)?,
            added: Vec::new(alloc),
            lits: Vec::new(alloc),
        })
    }

    /// The number of clauses at hand.
    pub fn len(&self) -> usize
        ensures { result ≡ length self.now.held }
    {
        self.watched.len() + self.added.len()
    }

    /// The clause at this place.
    pub fn clause(&self, place: usize) -> &[Lit]
        requires { place < length self.now.held }
        ensures { result.now ≡ (held_at self.now.held place).clause }
    {
        let known = self.watched.len();
        if place < known {
            match self.formula.clause(place as u64 + 1) {
                Some(clause) => clause.lits(),
                None => unreachable!(),
            }
        } else {
            let Added { start, end, .. } = self.added[place - known];
            &self.lits[start..end]
        }
    }

    /// Its id.
    pub fn id(&self, place: usize) -> u64
        requires { place < length self.now.held }
        ensures { result ≡ (held_at self.now.held place).id }
    {
        let known = self.watched.len();
        if place < known {
            place as u64 + 1
        } else {
            self.added[place - known].id
        }
    }

    /// What it watches.
    pub fn watched(&self, place: usize) -> Watched
        requires { place < length self.now.held }
        ensures first { result.first ≡ (held_at self.now.held place).first }
        ensures second { result.second ≡ (held_at self.now.held place).second }
    {
        let known = self.watched.len();
        if place < known {
            self.watched[place]
        } else {
            self.added[place - known].watched
        }
    }

    /// Has it watch other literals.
    pub fn rewatch(&mut self, place: usize, watched: Watched)
        requires { place < length self.old.held }
        ensures { self.new ≡ record self.old { held = set self.old.held place record (held_at self.old.held place) { first = watched.first; second = watched.second } } }
    {
        let known = self.watched.len();
        if place < known {
            self.watched[place] = watched;
        } else {
            self.added[place - known].watched = watched;
        }
    }

    // Holds the formula's next clause.
    fn take(&mut self, watched: Watched) -> Result<(), AllocError>
        requires some { self.old.known < length self.old.formula }
        requires all { length self.old.held ≡ self.old.known }
        ensures ok { OnOk result (self.new ≡ record { formula = self.old.formula; known = self.old.known + 1; held = self.old.held ++ record { id = self.old.known + 1; clause = get_or self.old.formula self.old.known []; first = watched.first; second = watched.second } ∷ [] }) }
        ensures err { OnErr result (self.new ≡ self.old) }
    {
        self.watched.push(watched)?;
        Ok(())
    }

    // Holds a copy of a clause.
    fn copy(&mut self, id: u64, clause: &[Lit], watched: Watched) -> Result<(), AllocError>
        ensures ok { OnOk result (self.new ≡ record self.old { held = self.old.held ++ record { id = id; clause = clause.now; first = watched.first; second = watched.second } ∷ [] }) }
        ensures err { OnErr result (self.new ≡ self.old) }
    {
        self.added.reserve(1)?;
        let start = self.lits.len();
        self.lits.extend_from_slice(clause)?;
        self.added.push_reserved(Added {
            id,
            start,
            end: self.lits.len(),
            watched,
        });
        Ok(())
    }

    /// Holds one more clause: the formula's next one, or a copy of another one.
    pub fn push(
        &mut self,
        source: Source,
        clause: &[Lit],
        watched: Watched,
    ) -> Result<(), AllocError>
        requires { IsSource self.old source clause.now }
        ensures ok { OnOk result (self.new ≡ record { formula = self.old.formula; known = known_with self.old source; held = self.old.held ++ coming self.old source clause.now watched ∷ [] }) }
        ensures err { OnErr result (self.new ≡ self.old) }
    {
        match source {
            Source::OfFormula => self.take(watched),
            Source::Given(id) => self.copy(id, clause, watched),
        }
    }
}
