//! Propagation with two watched literals for each clause.
ghost use Rattle.std.specs.Prelude.{◌≡◌, ℕ, ◌+◌, ◌*◌, ◌<◌, ◌≤◌, ◌++◌, ◌∷◌, [], All, Contains, cond, get_or, length, List, set, IfOk, IfSome, IfNone, IsTrue, ◌↔◌, OnErr, OnOk, OnSome, Some, None, vec_capacity, vec_len};
ghost use Rattle.rr_cnf.specs.Clauses.{IsWithin, Literal, negated};
ghost use Rattle.rr_cnf.specs.Codes.{code_of};
ghost use Rattle.rr_cnf.specs.Partial.{IsQuiet};
ghost use Rattle.rr_trail.specs.Trails.{Entry, Forces, IsCut, Standing, entry, lits};
ghost use Rattle.rr_watch.specs.Lists.{Advances, AreAlike, AreServed, IsWatcher, watching_at, BestIs, IsAhead, IsApart, IsAsserted, IsConflict, IsNext, IsOther, IsPlaced, IsReplacement, IsReplacementIn, IsSettled, HasSpare, KeepsSeen, IsForcedShort, AreForcedShort, IsNew, KeepsPlace, RankIs, Serves, Stays, SteppedIs, Whole, first_of, list_len, literal_at, second_of, wanted};
ghost use Rattle.rr_watch_lists.specs.WatchLists.{blocker_of};
ghost use Rattle.rr_watch_lists.specs.Holdings.{Adds, Held, IsSource, all_numbered, coming, held_at, id_of};
ghost use Rattle.rr_watch_lists.specs.declared.hand.Watched.{Watched};
ghost use Rattle.rr_watch_lists.specs.Lists.{has, list_at, watcher_at};
ghost use Rattle.rr_watch_lists.specs.Numbers.{Numbered};
ghost use Rattle.rr_watch.specs.Watches.{MayAdd, Named, bare};

use rr_cnf::{Formula, Lit};
use rr_trail::Trail;
use rr_watch_lists::{Hand, Source, WatchLists, Watched, Watcher};
use std::alloc::{AllocError, Global};

/// What became of a clause when a literal that it watched was seen to be false.
enum Step {
    /// A literal of it is true, and it watches what it did.
    Kept,
    /// It watches another literal in its place.
    Moved,
    /// All its literals are false: the clause with this id.
    False(u64),
}

/// The clauses, the lists of those that watch each literal, and the trail.
#[derive(Drop)]
pub(crate) struct Propagator<'f> {
    pub(crate) trail: Trail,
    pub(crate) hand: Hand<'f>,
    /// For each literal, the places of the clauses that watch it.
    pub(crate) lists: WatchLists,
    /// The places of the clauses that watch nothing.
    short: Vec<u32>,
    /// As many of these are true for good.
    settled: usize,
    /// As many literals of the trail have been seen by the clauses that watch their negations.
    pub(crate) head: usize,
    /// The place of the trail's first literal that was not seen yet when a decision came after it.
    late: usize,
}

/// The rank of a literal that is not false, above every level.
const NOT_FALSE: u64 = 4_294_967_296;

const NEVER: usize = usize::MAX;
/// The most clauses, and the most literals of one, so that their places fit 32 bits.
const MOST_CLAUSES: usize = 4_294_967_295;

/// The literal's rank as one to watch: best one that is not false, and else of the greatest level.
fn rank(trail: &Trail, lit: Lit) -> u64
    requires { IsWithin trail.now.vars lit }
    ensures { RankIs trail.now.entries lit result }
{
    if trail.is_false(lit) {
        u64::from(trail.level(lit))
    } else {
        NOT_FALSE
    }
}

/// Whether the literal differs from the other, if there is one.
fn is_apart(lit: Lit, other: &Option<Lit>) -> bool
    ensures { IsTrue result ↔ IsApart lit other.now }
{
    match other {
        None => true,
        Some(other) => lit != *other,
    }
}

/// The place of a literal of the greatest rank among those that differ from the given one.
fn best(trail: &Trail, clause: &[Lit], other: &Option<Lit>) -> Option<u32>
    requires within { All (IsWithin trail.now.vars) clause.now }
    requires few { length clause.now < 4294967295 }
    ensures { BestIs trail.now.entries clause.now other.now result }
{
    let mut found: Option<u32> = None;
    let mut greatest = 0;
    let mut place = 0u32;
    for lit in clause {
        if is_apart(*lit, other) {
            let rank = rank(trail, *lit);
            if found.is_none() || greatest < rank {
                found = Some(place);
                greatest = rank;
            }
        }
        place += 1;
    }
    found
}

/// The place of a literal that is not false and differs from the given one: the first from this place
/// on, and else the first before it. As a watch goes round its clause, it does not come again and again
/// upon the literals at the front that stay false (Gent, "Optimal Implementation of Watched Literals and
/// More General Techniques", JAIR 2013).
fn replacement(trail: &Trail, clause: &[Lit], other: Lit, from: u32) -> Option<u32>
    requires within { All (IsWithin trail.now.vars) clause.now }
    requires few { length clause.now ≤ 4294967295 }
    requires from { from ≤ length clause.now }
    ensures { IsReplacement trail.now.entries clause.now other result }
{
    let end = clause.len() as u32;
    match replacement_in(trail, clause, other, from, end) {
        Some(place) => Some(place),
        None => replacement_in(trail, clause, other, 0, from),
    }
}

/// The first such place from `first` to before `end`.
fn replacement_in(trail: &Trail, clause: &[Lit], other: Lit, first: u32, end: u32) -> Option<u32>
    requires within { All (IsWithin trail.now.vars) clause.now }
    requires end { end ≤ length clause.now }
    ensures { IsReplacementIn trail.now.entries clause.now other first end result }
{
    for place in first..end {
        let lit = clause[place as usize];
        if lit != other && !trail.is_false(lit) {
            return Some(place);
        }
    }
    None
}

impl<'f> Propagator<'f> {
    /// No clauses yet, and nothing true. Takes the room that the formula's clauses will need.
    pub(crate) fn new(alloc: Global, formula: &'f Formula) -> Result<Propagator<'f>, AllocError>
        requires { formula.now.vars ≤ 1073741823 }
        ensures whole { IfOk result Whole }
        ensures trail { IfOk result (λ p. p.trail ≡ record { vars = formula.now.vars; entries = []; depth = 0 }) }
        ensures hand { IfOk result (λ p. p.hand ≡ record { formula = formula.now.clauses; known = 0; held = [] }) }
    {
        Ok(Propagator {
            trail: Trail::new(alloc, formula.vars())?,
            hand: Hand::new(alloc, formula)?,
            lists: WatchLists::new(alloc, formula)?,
            short: Vec::new(alloc),
            settled: 0,
            head: 0,
            late: NEVER,
        })
    }

    /// Holds one more clause: the formula's next one, or a copy of another one.
    pub(crate) fn add(&mut self, source: Source, clause: &[Lit]) -> Result<(), AllocError>
        requires whole { Whole self.old }
        requires within { All (IsWithin self.old.trail.vars) clause.now }
        requires id { All (λ n. n.id < id_of self.old.hand source) (all_numbered self.old.hand.held) }
        requires may { MayAdd self.old.trail.entries self.old.trail.depth clause.now }
        requires from { IsSource self.old.hand source clause.now }
        ensures whole { Whole self.new }
        ensures trail { self.new.trail ≡ self.old.trail }
        ensures ok { OnOk result (Adds self.old.hand self.new.hand source clause.now) }
        ensures ahead { OnOk result (IsAhead self.new self.old.head) }
        ensures err { OnErr result (self.new.hand ≡ self.old.hand) }
    {
        if self.hand.len() >= MOST_CLAUSES || clause.len() >= MOST_CLAUSES {
            return Err(AllocError);
        }
        self.short.reserve(1)?;
        self.lists.expect(clause)?;
        self.place(source, clause)
    }

    // Holds a clause for which the lists have room.
    fn place(&mut self, source: Source, clause: &[Lit]) -> Result<(), AllocError>
        requires whole { Whole self.old }
        requires within { All (IsWithin self.old.trail.vars) clause.now }
        requires few { length clause.now < 4294967295 }
        requires id { All (λ n. n.id < id_of self.old.hand source) (all_numbered self.old.hand.held) }
        requires may { MayAdd self.old.trail.entries self.old.trail.depth clause.now }
        requires from { IsSource self.old.hand source clause.now }
        requires places { length self.old.hand.held < 4294967295 }
        requires short { vec_len self.old.short < vec_capacity self.old.short }
        requires lists { HasSpare self.old clause.now }
        ensures whole { Whole self.new }
        ensures trail { self.new.trail ≡ self.old.trail }
        ensures ok { OnOk result (Adds self.old.hand self.new.hand source clause.now) }
        ensures ahead { OnOk result (IsAhead self.new self.old.head) }
        ensures err { OnErr result (self.new.hand ≡ self.old.hand) }
    {
        let Some(first) = best(&self.trail, clause, &None) else {
            return self.hold_short(source, clause);
        };
        let lit = clause[first as usize];
        let Some(second) = best(&self.trail, clause, &Some(lit)) else {
            return self.hold_short(source, clause);
        };
        self.rewind(clause[second as usize]);
        self.hold(source, clause, Watched { first, second })
    }

    // Goes back to before the current level, if the literal is false.
    fn rewind(&mut self, lit: Lit)
        requires whole { Whole self.old }
        requires within { IsWithin self.old.trail.vars lit }
        ensures whole { Whole self.new }
        ensures state { self.new ≡ record self.old { head = self.new.head } }
        ensures low { self.new.head ≤ self.old.head }
        ensures seen { Contains (lits self.old.trail.entries) (negated lit) → (k : ℕ) → k < self.new.head → (entry self.old.trail.entries k).level < self.old.trail.depth }
    {
        if self.trail.is_false(lit) {
            let depth = self.trail.depth();
            while self.head > 0 {
                if level_at(&self.trail, self.head - 1) != depth {
                    break;
                }
                self.head -= 1;
            }
        }
    }

    // Holds a clause that watches two literals.
    fn hold(&mut self, source: Source, clause: &[Lit], watched: Watched) -> Result<(), AllocError>
        requires whole { Whole self.old }
        requires from { IsSource self.old.hand source clause.now }
        requires new { IsNew self.old (coming self.old.hand source clause.now watched) }
        requires placed { IsPlaced (coming self.old.hand source clause.now watched) }
        requires differ { literal_at clause.now watched.first ≡ literal_at clause.now watched.second → ⊥ }
        requires first { Serves self.old.trail.entries self.old.head self.old.late (literal_at clause.now watched.first) clause.now }
        requires second { Serves self.old.trail.entries self.old.head self.old.late (literal_at clause.now watched.second) clause.now }
        requires lists { HasSpare self.old clause.now }
        ensures whole { Whole self.new }
        ensures trail { self.new.trail ≡ self.old.trail }
        ensures ok { OnOk result (Adds self.old.hand self.new.hand source clause.now) }
        ensures head { self.new.head ≡ self.old.head }
        ensures seen { OnOk result (KeepsSeen self.old self.new) }
        ensures err { OnErr result (self.new.hand ≡ self.old.hand) }
    {
        let index = self.hand.len() as u32;
        let first = clause[watched.first as usize];
        let second = clause[watched.second as usize];
        let brief = clause.len() == 2;
        self.hand.push(source, clause, watched)?;
        self.lists.push(first, Watcher::new(index, second, brief));
        self.lists.push(second, Watcher::new(index, first, brief));
        Ok(())
    }

    // Holds a clause that has no two literals.
    fn hold_short(&mut self, source: Source, clause: &[Lit]) -> Result<(), AllocError>
        requires whole { Whole self.old }
        requires from { IsSource self.old.hand source clause.now }
        requires new { IsNew self.old (coming self.old.hand source clause.now record { first = 0; second = 0 }) }
        requires alike { AreAlike clause.now }
        requires short { vec_len self.old.short < vec_capacity self.old.short }
        requires lists { HasSpare self.old clause.now }
        ensures whole { Whole self.new }
        ensures trail { self.new.trail ≡ self.old.trail }
        ensures ok { OnOk result (Adds self.old.hand self.new.hand source clause.now) }
        ensures head { self.new.head ≡ self.old.head }
        ensures seen { OnOk result (KeepsSeen self.old self.new) }
        ensures err { OnErr result (self.new.hand ≡ self.old.hand) }
    {
        let index = self.hand.len() as u32;
        let none = Watched {
            first: 0,
            second: 0,
        };
        self.hand.push(source, clause, none)?;
        self.short.push_reserved(index);
        Ok(())
    }

    /// Undoes the later levels.
    pub(crate) fn back(&mut self, level: u32)
        requires whole { Whole self.old }
        requires level { level ≤ self.old.trail.depth }
        ensures whole { Whole self.new }
        ensures vars { self.new.trail.vars ≡ self.old.trail.vars }
        ensures depth { self.new.trail.depth ≡ level }
        ensures cut { IsCut self.old.trail.entries self.new.trail.entries level }
        ensures clauses { all_numbered self.new.hand.held ≡ all_numbered self.old.hand.held }
    {
        self.trail.back(level);
        let len = self.trail.lits().len();
        self.head = self.head.min(self.late).min(len);
        if self.head == len || level_at(&self.trail, self.head) == level {
            self.late = NEVER;
        } else {
            self.late = self.head;
        }
    }

    /// Begins a new level with an open literal.
    pub(crate) fn decide(&mut self, lit: Lit)
        requires whole { Whole self.old }
        requires within { IsWithin self.old.trail.vars lit }
        requires not_true { Contains (lits self.old.trail.entries) lit → ⊥ }
        requires not_false { Contains (lits self.old.trail.entries) (negated lit) → ⊥ }
        ensures whole { Whole self.new }
        ensures trail { self.new.trail ≡ record self.old.trail { entries = self.old.trail.entries ++ record { lit = lit; level = self.old.trail.depth + 1; reason = None } ∷ []; depth = self.old.trail.depth + 1 } }
        ensures clauses { all_numbered self.new.hand.held ≡ all_numbered self.old.hand.held }
    {
        self.late = late_with(self.late, self.head, self.trail.lits().len());
        self.trail.decide(lit);
    }

    /// Makes the open literals of unit clauses true, until there is none or a clause is false, whose id
    /// is answered. The clauses before the newest may have seen the trail up to `ahead`.
    pub(crate) fn propagate(&mut self, ahead: Option<usize>) -> Option<u64>
        requires whole { Whole self.old }
        requires ahead { IfSome ahead (IsAhead self.old) }
        ensures whole { Whole self.new }
        ensures advances { Advances self.old self.new }
        ensures quiet { IfNone result (IsQuiet (bare (all_numbered self.new.hand.held)) (lits self.new.trail.entries)) }
        ensures conflict { IfSome result (IsConflict self.new) }
    {
        if let Some(id) = self.skip(ahead) {
            return Some(id);
        }
        if let Some(id) = self.force_short() {
            return Some(id);
        }
        while self.head < self.trail.lits().len() {
            let lit = self.trail.lits()[self.head];
            if let Some(id) = self.visit(lit.negated()) {
                return Some(id);
            }
        }
        None
    }

    // Makes the literal true that the newest clause asserts, so that it has seen as much of the trail as
    // the earlier ones, and nothing is seen again for its sake.
    fn skip(&mut self, ahead: Option<usize>) -> Option<u64>
        requires whole { Whole self.old }
        requires ahead { IfSome ahead (IsAhead self.old) }
        ensures whole { Whole self.new }
        ensures advances { Advances self.old self.new }
        ensures conflict { IfSome result (IsConflict self.new) }
    {
        let Some(head) = ahead else {
            return None;
        };
        let Some(lit) = self.asserted() else {
            return None;
        };
        let newest = self.hand.len() - 1;
        if let Some(id) = self.enforce(newest, lit) {
            return Some(id);
        }
        self.head = head;
        None
    }

    // The first watched literal of the newest clause, if its other literals are false, the second watched
    // one since the last decision.
    fn asserted(&self) -> Option<Lit>
        requires { Whole self.now }
        ensures { IfSome result (IsAsserted self.now) }
    {
        let newest = self.hand.len().checked_sub(1)?;
        let clause = self.hand.clause(newest);
        let watched = self.hand.watched(newest);
        let first = *clause.get(watched.first as usize)?;
        let second = *clause.get(watched.second as usize)?;
        if first == second {
            return None;
        }
        if replacement(&self.trail, clause, first, 0).is_some() {
            return None;
        }
        if self.trail.level(second) != self.trail.depth() {
            return None;
        }
        Some(first)
    }

    // Makes the literals of the clauses true that watch nothing.
    fn force_short(&mut self) -> Option<u64>
        requires whole { Whole self.old }
        ensures whole { Whole self.new }
        ensures advances { Advances self.old self.new }
        ensures forced { IfNone result (AreForcedShort self.new (length self.new.short.items)) }
        ensures conflict { IfSome result (IsConflict self.new) }
    {
        for place in self.settled..self.short.len() {
            if let Some(id) = self.force_one(place) {
                return Some(id);
            }
        }
        if self.trail.depth() == 0 {
            self.settled = self.short.len();
        }
        None
    }

    // Makes the literal of one of them true.
    fn force_one(&mut self, place: usize) -> Option<u64>
        requires whole { Whole self.old }
        requires place { place < length self.old.short.items }
        ensures whole { Whole self.new }
        ensures advances { Advances self.old self.new }
        ensures keeps { KeepsPlace self.old self.new }
        ensures forced { IfNone result (IsForcedShort self.new place) }
        ensures conflict { IfSome result (IsConflict self.new) }
    {
        let index = self.short[place] as usize;
        match self.hand.clause(index).first() {
            None => Some(self.hand.id(index)),
            Some(lit) => {
                let lit = *lit;
                self.enforce(index, lit)
            }
        }
    }

    // Has the clauses that watch the literal see that it is false.
    fn visit(&mut self, falsified: Lit) -> Option<u64>
        requires whole { Whole self.old }
        requires next { IsNext self.old falsified }
        ensures whole { Whole self.new }
        ensures advances { Advances self.old self.new }
        ensures short { self.new.short.items ≡ self.old.short.items }
        ensures head { IfNone result (self.new.head ≡ self.old.head + 1) }
        ensures conflict { IfSome result (IsConflict self.new) }
    {
        let mut at = 0;
        while at < self.lists.len(falsified) {
            match self.step(falsified, at) {
                Step::Kept => at += 1,
                Step::Moved => {}
                Step::False(id) => return Some(id),
            }
        }
        self.head += 1;
        None
    }

    // The watcher at this place of a literal's list.
    fn watcher(&self, falsified: Lit, at: usize) -> Watcher
        requires whole { Whole self.now }
        requires next { IsNext self.now falsified }
        requires at { at < list_len self.now falsified }
        ensures is { result ≡ watcher_at self.now.lists falsified at }
        ensures watches { IsWatcher self.now.hand.held (code_of falsified) result }
        ensures within { All (IsWithin self.now.trail.vars) (held_at self.now.hand.held result.place).clause }
        ensures blocker { IsWithin self.now.trail.vars (blocker_of result) }
    {
        self.lists.entry(falsified, at)
    }

    // Has one clause see that a literal is false which it may watch.
    fn step(&mut self, falsified: Lit, at: usize) -> Step
        requires whole { Whole self.old }
        requires next { IsNext self.old falsified }
        requires at { at < list_len self.old falsified }
        requires served { AreServed self.old falsified at }
        ensures whole { Whole self.new }
        ensures advances { Advances self.old self.new }
        ensures keeps { KeepsPlace self.old self.new }
        ensures stepped { SteppedIs self.old self.new falsified at result }
    {
        let watcher = self.watcher(falsified, at);
        if self.trail.is_true(watcher.blocker()) {
            return Step::Kept;
        }
        if watcher.is_brief() {
            return self.settle(falsified, at, watcher.blocker());
        }
        self.look(falsified, at)
    }

    // Has the clause see it that is at this place of the literal's list.
    fn look(&mut self, falsified: Lit, at: usize) -> Step
        requires whole { Whole self.old }
        requires next { IsNext self.old falsified }
        requires at { at < list_len self.old falsified }
        requires served { AreServed self.old falsified at }
        ensures whole { Whole self.new }
        ensures advances { Advances self.old self.new }
        ensures keeps { KeepsPlace self.old self.new }
        ensures stepped { SteppedIs self.old self.new falsified at result }
    {
        let index = self.watcher(falsified, at).place();
        let clause = self.hand.clause(index);
        let watched = self.hand.watched(index);
        let Some(place) = other(clause, watched, falsified) else {
            self.unlist(falsified, at);
            return Step::Moved;
        };
        let other = clause[place as usize];
        if self.trail.is_true(other) {
            self.block(falsified, at, other);
            return Step::Kept;
        }
        match replacement(&self.trail, clause, other, watched.beside(place)) {
            Some(found) => self.replace(falsified, at, place, found),
            None => self.settle(falsified, at, other),
        }
    }

    // Has the clause watch the literal at the found place. Where that one is true, the clause stays where
    // it is, since it need not be looked at as long as that is so.
    fn replace(&mut self, falsified: Lit, at: usize, other: u32, found: u32) -> Step
        requires whole { Whole self.old }
        requires next { IsNext self.old falsified }
        requires at { at < list_len self.old falsified }
        requires served { AreServed self.old falsified at }
        requires other { IsOther (watching_at self.old falsified at) falsified (Some other) }
        requires found { IsReplacement self.old.trail.entries (watching_at self.old falsified at).clause (literal_at (watching_at self.old falsified at).clause other) (Some found) }
        ensures whole { Whole self.new }
        ensures advances { Advances self.old self.new }
        ensures keeps { KeepsPlace self.old self.new }
        ensures stepped { SteppedIs self.old self.new falsified at result }
    {
        let index = self.watcher(falsified, at).place();
        let lit = self.hand.clause(index)[found as usize];
        if self.trail.is_true(lit) {
            self.block(falsified, at, lit);
            return Step::Kept;
        }
        self.rewatch(falsified, at, other, found);
        Step::Moved
    }

    // Leaves a clause in the list, with a true literal of it as its blocker.
    fn block(&mut self, falsified: Lit, at: usize, blocker: Lit)
        requires whole { Whole self.old }
        requires next { IsNext self.old falsified }
        requires at { at < list_len self.old falsified }
        requires served { AreServed self.old falsified at }
        requires member { Contains (watching_at self.old falsified at).clause blocker }
        requires held { Contains (lits self.old.trail.entries) blocker }
        ensures whole { Whole self.new }
        ensures stays { Stays self.old self.new }
        ensures keeps { KeepsPlace self.old self.new }
        ensures stepped { SteppedIs self.old self.new falsified at Step.Kept }
    {
        let watcher = self.watcher(falsified, at).blocked_by(blocker);
        self.lists.set(falsified, at, watcher);
    }

    // Makes the literal of such a clause true whose other literals are false.
    fn settle(&mut self, falsified: Lit, at: usize, lit: Lit) -> Step
        requires whole { Whole self.old }
        requires next { IsNext self.old falsified }
        requires at { at < list_len self.old falsified }
        requires served { AreServed self.old falsified at }
        requires forces { Forces (lits self.old.trail.entries) (watching_at self.old falsified at).clause lit }
        ensures whole { Whole self.new }
        ensures advances { Advances self.old self.new }
        ensures keeps { KeepsPlace self.old self.new }
        ensures stepped { SteppedIs self.old self.new falsified at result }
    {
        let index = self.watcher(falsified, at).place();
        match self.enforce(index, lit) {
            Some(id) => Step::False(id),
            None => Step::Kept,
        }
    }

    // Makes a literal of a clause true whose other literals are false, or answers that it is false too.
    fn enforce(&mut self, index: usize, lit: Lit) -> Option<u64>
        requires whole { Whole self.old }
        requires index { index < length self.old.hand.held }
        requires forces { Forces (lits self.old.trail.entries) (held_at self.old.hand.held index).clause lit }
        ensures whole { Whole self.new }
        ensures advances { Advances self.old self.new }
        ensures state { self.new ≡ record self.old { trail = self.new.trail } }
        ensures forced { IfNone result (Contains (lits self.new.trail.entries) lit) }
        ensures conflict { IfSome result (IsConflict self.new) }
    {
        let id = self.hand.id(index);
        if self.trail.is_true(lit) {
            return None;
        }
        if self.trail.is_false(lit) {
            return Some(id);
        }
        self.trail.force(lit, id);
        None
    }

    // Takes a clause off the list of a literal that it does not watch.
    fn unlist(&mut self, falsified: Lit, at: usize)
        requires whole { Whole self.old }
        requires next { IsNext self.old falsified }
        requires at { at < list_len self.old falsified }
        requires served { AreServed self.old falsified at }
        requires other { IsOther (watching_at self.old falsified at) falsified None }
        ensures whole { Whole self.new }
        ensures stays { Stays self.old self.new }
        ensures keeps { KeepsPlace self.old self.new }
        ensures stepped { SteppedIs self.old self.new falsified at Step.Moved }
    {
        self.lists.remove(falsified, at);
    }

    // Moves a clause from a list to that of the literal at the found place of it.
    fn rewatch(&mut self, falsified: Lit, at: usize, other: u32, found: u32)
        requires whole { Whole self.old }
        requires next { IsNext self.old falsified }
        requires at { at < list_len self.old falsified }
        requires served { AreServed self.old falsified at }
        requires other { IsOther (watching_at self.old falsified at) falsified (Some other) }
        requires found { IsReplacement self.old.trail.entries (watching_at self.old falsified at).clause (literal_at (watching_at self.old falsified at).clause other) (Some found) }
        ensures whole { Whole self.new }
        ensures stays { Stays self.old self.new }
        ensures keeps { KeepsPlace self.old self.new }
        ensures stepped { SteppedIs self.old self.new falsified at Step.Moved }
    {
        let index = self.watcher(falsified, at).place();
        let clause = self.hand.clause(index);
        let lit = clause[found as usize];
        let blocker = clause[other as usize];
        let watched = Watched {
            first: other,
            second: found,
        };
        self.hand.rewatch(index, watched);
        self.lists.remove(falsified, at);
        self.lists
            .push(lit, Watcher::new(index as u32, blocker, false));
    }

    /// The place of the clause with this id.
    pub(crate) fn find(&self, id: u64) -> Option<usize>
        requires { Whole self.now }
        ensures found { IfSome result (λ k. (k < length self.now.hand.held) × ((held_at self.now.hand.held k).id ≡ id)) }
        ensures none { IfNone result ((k : ℕ) → k < length self.now.hand.held → (held_at self.now.hand.held k).id ≡ id → ⊥) }
    {
        let guess = id.saturating_sub(1) as usize;
        if guess < self.hand.len() {
            if self.hand.id(guess) == id {
                return Some(guess);
            }
        }
        let mut low = 0;
        let mut high = self.hand.len();
        while low < high {
            let middle = low + (high - low) / 2;
            let at = self.hand.id(middle);
            if at == id {
                return Some(middle);
            }
            if at < id {
                low = middle + 1;
            } else {
                high = middle;
            }
        }
        None
    }
}

// The place of the other watched literal, if this one is watched.
fn other(clause: &[Lit], watched: Watched, lit: Lit) -> Option<u32>
    requires first { watched.first < length clause.now }
    requires second { watched.second < length clause.now }
    ensures { IsOther record { id = 0; clause = clause.now; first = watched.first; second = watched.second } lit result }
{
    if clause[watched.first as usize] == lit {
        return Some(watched.second);
    }
    if clause[watched.second as usize] == lit {
        return Some(watched.first);
    }
    None
}

// The place of the first literal that was not seen before a decision, with the next decision.
fn late_with(late: usize, head: usize, len: usize) -> usize
    ensures low { result ≤ late }
    ensures pending { head < len → result ≤ head }
{
    if head < len { late.min(head) } else { late }
}

// The level of the literal at this place of the trail.
fn level_at(trail: &Trail, place: usize) -> u32
    requires { place < length trail.now.entries }
    ensures { result ≡ (entry trail.now.entries place).level }
{
    trail.level(trail.lits()[place])
}
