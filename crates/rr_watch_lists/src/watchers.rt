//! The lists of the clauses that watch each literal.
ghost use Rattle.std.specs.Prelude.{◌≡◌, ◌+◌, ◌*◌, ◌<◌, ◌≤◌, [], length, set, take, All, OnErr, OnOk, IfOk, false};
ghost use Rattle.rr_cnf.specs.Codes.{code_of};
ghost use Rattle.rr_watch_lists.specs.Lists.{HasRoom, Listed, Reblocked, Unlisted, list_at, watcher_at};
ghost use Rattle.rr_watch_lists.specs.Spans.{IsMoved, IsSpan};
ghost use Rattle.rr_watch_lists.specs.WatchLists.{blocker_of, is_brief};

use rr_cnf::{Formula, Lit};
use std::alloc::{AllocError, Global};
use std::marker::Model;

/// A clause that watches a literal: its place, and its blocker, which is another literal of it. Where
/// that one is true, the clause need not be looked at.
#[derive(Clone, Copy)]
pub struct Watcher {
    /// The clause's place.
    pub place: u32,
    // twice the blocker's code, and one more where the clause has no third literal
    packed: u32,
}

// What fills the room of a list behind its clauses.
const NOBODY: Watcher = Watcher {
    place: 0,
    packed: 0,
};

impl Watcher {
    /// The clause at this place, with a literal of it; whether it has no third literal.
    pub fn new(place: u32, blocker: Lit, brief: bool) -> Watcher
        requires { blocker.var < 1073741824 }
        ensures place { result.place ≡ place }
        ensures blocker { blocker_of result ≡ blocker }
        ensures brief { is_brief result ≡ brief }
    {
        let code = 2 * blocker.var() as u32 + u32::from(blocker.is_negative());
        Watcher {
            place,
            packed: 2 * code + u32::from(brief),
        }
    }

    /// The clause's place.
    pub fn place(self) -> usize
        ensures { result ≡ self.place }
    {
        self.place as usize
    }

    /// A literal of the clause.
    pub fn blocker(self) -> Lit
        requires { 1 ≤ (blocker_of self).var }
        ensures { result ≡ blocker_of self }
    {
        let code = self.packed / 2;
        Lit::new(u64::from(code / 2), code % 2 == 1)
    }

    /// The same clause, which has a third literal, with this literal of it.
    pub fn blocked_by(self, blocker: Lit) -> Watcher
        requires { blocker.var < 1073741824 }
        ensures place { result.place ≡ self.place }
        ensures blocker { blocker_of result ≡ blocker }
        ensures brief { is_brief result ≡ false }
    {
        Watcher::new(self.place, blocker, false)
    }

    /// Whether the clause has no third literal.
    pub fn is_brief(self) -> bool
        ensures { result ≡ is_brief self }
    {
        self.packed % 2 == 1
    }
}

/// Where the list of a literal lies in the table of all.
#[derive(Clone, Copy)]
pub(crate) struct Span {
    start: u32,
    /// The number of clauses in the list.
    len: u32,
    /// The number of clauses that it has room for.
    room: u32,
    /// The number of clauses that have the literal.
    uses: u32,
}

/// The clauses that watch each literal, by its code. The list of a literal has room for each clause that
/// has the literal, so that a watch moves without memory.
#[derive(Drop)]
pub struct WatchLists {
    /// The lists with their room, and where a list was before it moved.
    entries: Vec<Watcher>,
    spans: Vec<Span>,
}

impl Model for WatchLists {
    ghost use Rattle.std.specs.Prelude.{List, length};
    ghost use Rattle.rr_watch_lists.specs.WatchLists.{WatchList};
    ghost use Rattle.rr_watch_lists.specs.Spans.{AreSpans, lists_in};

    ghost Value = { List WatchList };

    ghost view = { λ w. lists_in w.entries.items w.spans.items };

    ghost invariant = { λ w. AreSpans (length w.entries.items) w.spans.items };
}

impl WatchLists {
    /// The lists of the literals of a formula, each with the room for the clauses that have the literal.
    pub fn new(alloc: Global, formula: &Formula) -> Result<WatchLists, AllocError>
        requires { formula.now.vars ≤ 1073741823 }
        ensures long { IfOk result (λ l. length l ≡ 2 * formula.now.vars + 2) }
        ensures empty { IfOk result (λ l. All (λ w. w ≡ record { entries = []; uses = 0 }) l) }
    {
        let rooms = rooms(alloc, formula)?;
        let mut spans = Vec::with_capacity(alloc, rooms.len())?;
        let mut end = 0;
        for room in &rooms {
            spans.push(Span {
                start: end,
                len: 0,
                room: *room,
                uses: 0,
            })?;
            end = sum(end, *room)?;
        }
        let entries = vec![in alloc; NOBODY; end as usize]?;
        Ok(WatchLists { entries, spans })
    }

    /// Takes the room for one clause more in the list of each of these literals.
    pub fn expect(&mut self, clause: &[Lit]) -> Result<(), AllocError>
        requires { All (λ l. code_of l < length self.old) clause.now }
        ensures ok { OnOk result (HasRoom self.old self.new clause.now) }
        ensures err { OnErr result (HasRoom self.old self.new []) }
    {
        for lit in clause {
            self.expect_one(lit.code() as usize)?;
        }
        Ok(())
    }

    // Takes the room for one clause more in one list, which moves where it has none.
    fn expect_one(&mut self, at: usize) -> Result<(), AllocError>
        requires { at < length self.old }
        ensures ok { OnOk result (self.new ≡ set self.old at record { entries = (list_at self.old at).entries; uses = (list_at self.old at).uses + 1 }) }
        ensures err { OnErr result (self.new ≡ self.old) }
    {
        let span = self.spans[at];
        if span.uses < span.room {
            self.spans[at] = Span {
                uses: span.uses + 1,
                ..span
            };
        } else {
            self.spans[at] = moved(&mut self.entries, span)?;
        }
        Ok(())
    }

    /// The number of clauses that watch a literal.
    pub fn len(&self, lit: Lit) -> usize
        requires { code_of lit < length self.now }
        ensures { result ≡ length (list_at self.now (code_of lit)).entries }
    {
        self.spans[lit.code() as usize].len as usize
    }

    /// One of them.
    pub fn entry(&self, lit: Lit, at: usize) -> Watcher
        requires lit { code_of lit < length self.now }
        requires at { at < length (list_at self.now (code_of lit)).entries }
        ensures { result ≡ watcher_at self.now lit at }
    {
        let span = self.spans[lit.code() as usize];
        self.entries[span.start as usize + at]
    }

    /// Has a clause, for which there is room, watch a literal.
    pub fn push(&mut self, lit: Lit, watcher: Watcher)
        requires lit { code_of lit < length self.old }
        requires room { length (list_at self.old (code_of lit)).entries < (list_at self.old (code_of lit)).uses }
        ensures { Listed self.old self.new (code_of lit) watcher }
    {
        let list = lit.code() as usize;
        let span = self.spans[list];
        self.entries[span.start as usize + span.len as usize] = watcher;
        self.spans[list] = Span {
            len: span.len + 1,
            ..span
        };
    }

    /// Has another entry stand at this place of a literal's list.
    pub fn set(&mut self, lit: Lit, at: usize, watcher: Watcher)
        requires lit { code_of lit < length self.old }
        requires at { at < length (list_at self.old (code_of lit)).entries }
        ensures { Reblocked self.old self.new (code_of lit) at watcher }
    {
        let list = lit.code() as usize;
        let span = self.spans[list];
        self.entries[span.start as usize + at] = watcher;
    }

    /// Takes one of the clauses that watch a literal off its list; the last one takes its place.
    pub fn remove(&mut self, lit: Lit, at: usize)
        requires lit { code_of lit < length self.old }
        requires at { at < length (list_at self.old (code_of lit)).entries }
        ensures { Unlisted self.old self.new (code_of lit) at }
    {
        let list = lit.code() as usize;
        let span = self.spans[list];
        let start = span.start as usize;
        let len = span.len - 1;
        self.entries[start + at] = self.entries[start + len as usize];
        self.spans[list] = Span { len, ..span };
    }
}

// A sum that fits 32 bits.
fn sum(a: u32, b: u32) -> Result<u32, AllocError>
    ensures { IfOk result (λ r. r ≡ a + b) }
{
    match a.checked_add(b) {
        Some(sum) => Ok(sum),
        None => Err(AllocError),
    }
}

// Copies a list to the end of the table, with room for another clause and twice as much as it had.
fn moved(entries: &mut Vec<Watcher>, span: Span) -> Result<Span, AllocError>
    requires { IsSpan (length entries.old.items) span }
    ensures ok { IfOk result (λ s. IsMoved entries.old.items entries.new.items span s) }
    ensures err { OnErr result (take (length entries.old.items) entries.new.items ≡ entries.old.items) }
{
    let first = span.start as usize;
    let start = entries.len();
    let room = 2 * (span.room as usize + 1);
    let end = start + room;
    if end > u32::MAX as usize {
        return Err(AllocError);
    }
    entries.extend_from_within(first..first + span.len as usize)?;
    entries.resize(end, NOBODY)?;
    Ok(Span {
        start: start as u32,
        len: span.len,
        room: room as u32,
        uses: span.uses + 1,
    })
}

// By the code of a literal, the number of times that the clauses of the formula have it.
fn rooms(alloc: Global, formula: &Formula) -> Result<Vec<u32>, AllocError>
    requires { formula.now.vars ≤ 1073741823 }
    ensures { IfOk result (λ v. length v.items ≡ 2 * formula.now.vars + 2) }
{
    let mut rooms = vec![in alloc; 0; 2 * formula.vars() as usize + 2]?;
    for index in 0..formula.len() {
        if let Some(clause) = formula.clause(index + 1) {
            for lit in clause.lits() {
                let at = lit.code() as usize;
                rooms[at] = u32::saturating_add(rooms[at], 1);
            }
        }
    }
    Ok(rooms)
}
