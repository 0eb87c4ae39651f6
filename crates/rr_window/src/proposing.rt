//! Windows, and what they propose.
ghost use Rattle.std.specs.Prelude.{◌≡◌, ◌≤◌, [], List, All, IfOk, IfSome, None, OnOk};
ghost use Rattle.rr_choice.specs.Choices.{IsChoice, total_bits};
ghost use Rattle.rr_choice.specs.Sites.{Site};
ghost use Rattle.rr_trace.specs.View.{plain_table};
ghost use Rattle.rr_unroll.specs.Walking.{IsFirstMissed};
ghost use Rattle.rr_window.specs.Replies.{AreOf, IsTried};
ghost use Rattle.rr_window.specs.Windows.{off};

use crate::asking::{Mended, Reply, ask};
use crate::beginning::{begun_before, switches_off};
use rr_choice::{Choice, SiteList, cost};
use rr_choice_bits::encode;
use rr_plainer::{Near, nearer, rank};
use rr_trace::Table;
use rr_transition::Transition;
use rr_unroll::first_miss;
use std::alloc::{AllocError, Global};
use std::thread::Threads;

/// The most changes that a window is asked for.
const MOST: u32 = 8;

/// How many lines may be learned for one question over a window.
const BUDGET: u32 = 1_000;

/// How many gates a table's circuit may have for the whole table to be asked.
const MOST_GATES: usize = 300_000;

/// The most sites of a choice whose changes are counted.
const MOST_SITES: usize = 1_000_000;

/// How many rows of a window end at the first miss.
const REACHES: [usize; 4] = [2, 4, 8, 16];

/// The rows of a table from one on, as many as there are up to `len`.
fn cut(alloc: Global, table: &Table, from: usize, len: usize) -> Result<Table, AllocError> {
    let end = table.inputs.len().min(from.saturating_add(len));
    let mut inputs = Vec::new(alloc);
    let mut expected = Vec::new(alloc);
    for row in from..end {
        let mut numbers = Vec::new(alloc);
        if let Some(there) = table.inputs.get(row) {
            numbers.extend_from_slice(there.as_slice())?;
        }
        inputs.push(numbers)?;
        let mut cells = Vec::new(alloc);
        if let Some(there) = table.expected.get(row) {
            cells.extend_from_slice(there.as_slice())?;
        }
        expected.push(cells)?;
    }
    Ok(Table { inputs, expected })
}

/// What is found for a window: bounds are asked upwards from the one after `below`, until a choice mends its
/// rows or a question is left open.
fn find<R: Threads + Sync>(
    rt: &R,
    alloc: Global,
    transition: &Transition,
    table: &Table,
    list: &SiteList<'_>,
    near: &Near,
    from: usize,
    len: usize,
    below: u32,
    budget: u32,
) -> Result<Option<Mended>, AllocError>
    requires bits { transition.now.choice_bits ≡ total_bits list.now }
    ensures { IfOk result (λ r. IfSome r (AreOf list.now)) }
{
    let there = begun_before(alloc, transition, table, from)?;
    let rows = cut(alloc, table, from, len)?;
    for bound in below..MOST {
        match ask(rt, alloc, &there, &rows, list, near, bound + 1, budget)? {
            Reply::Mended(mended) => return Ok(Some(mended)),
            Reply::Refuted => {}
            Reply::Open => return Ok(None),
        }
    }
    Ok(None)
}

/// Whether two choices make the same changes.
fn are_same(left: &Choice, right: &Choice) -> bool {
    left.picks.as_slice() == right.picks.as_slice()
}

/// Adds what was found for a window to the proposals, the plainer choice first.
fn offer(mended: Mended, found: &mut Vec<Choice>) -> Result<(), AllocError>
    ensures { (sites : List Site) → AreOf sites mended → All (λ c. IsChoice sites c.picks.items) found.old.items
        → OnOk result (All (λ c. IsChoice sites c.picks.items) found.new.items) }
{
    let Mended { choice, plain } = mended;
    if !are_same(&plain, &choice) {
        found.push(plain)?;
    }
    found.push(choice)?;
    Ok(())
}

/// The choices that are found for a window of `len` rows from row `from` on, which begins in the state
/// that the design with all switches off has before that row. Bounds are asked from 1 upwards. Each is a
/// choice among the sites.
pub fn propose<R: Threads + Sync>(
    rt: &R,
    alloc: Global,
    transition: &Transition,
    table: &Table,
    list: &SiteList<'_>,
    near: &Near,
    from: usize,
    len: usize,
) -> Result<Vec<Choice>, AllocError>
    requires bits { transition.now.choice_bits ≡ total_bits list.now }
    ensures { IfOk result (λ r. All (λ c. IsChoice list.now c.picks.items) r.items) }
{
    let mut found = Vec::new(alloc);
    if let Some(mended) = find(
        rt, alloc, transition, table, list, near, from, len, 0, BUDGET,
    )? {
        offer(mended, &mut found)?;
    }
    Ok(found)
}

/// The first row of the table that a choice misses.
fn missed(
    alloc: Global,
    transition: &Transition,
    table: &Table,
    list: &SiteList<'_>,
    choice: &Choice,
) -> Result<Option<usize>, AllocError>
    requires bits { transition.now.choice_bits ≡ total_bits list.now }
    requires choice { IsChoice list.now choice.now.picks.items }
{
    let bits = encode(alloc, list, choice)?;
    let row = first_miss(alloc, transition, table, bits.as_slice())?;
    Ok(row)
}

/// What became of the choices that were found for a window.
#[derive(Drop)]
pub(crate) enum Tried {
    /// One of them mends the whole table.
    Whole(Choice),
    /// None does; the row that one of them misses first.
    Missed(usize),
}

/// How many changes a choice makes, or 0 where there are more than a window is asked for.
fn changes(choice: &Choice) -> u32 {
    if choice.picks.len() > MOST_SITES {
        return 0;
    }
    cost(choice)
}

/// Whether the circuit of so many rows is small enough to be asked as a whole. No contract speaks of it.
fn is_small(transition: &Transition, rows: usize) -> bool {
    let gates = transition.circuit.gates.len();
    gates.saturating_mul(rows) <= MOST_GATES
}

/// The row after a window that begins at `from`: the one after its own rows, or, where the table is too
/// large to be asked as a whole, the one after the row at which the last proposal failed, if the
/// window's circuit stays small.
fn end_of(transition: &Transition, table: &Table, from: usize, own: usize, failed: usize) -> usize
    ensures { own ≤ result }
{
    let wide = failed.saturating_add(1);
    if wide <= own || is_small(transition, table.inputs.len()) {
        own
    } else if is_small(transition, wide.saturating_sub(from)) {
        wide
    } else {
        own
    }
}

/// A choice that mends the whole table, brought nearer to the source where the table's circuit is small.
fn settled(
    alloc: Global,
    transition: &Transition,
    table: &Table,
    list: &SiteList<'_>,
    near: &Near,
    choice: Choice,
) -> Result<Choice, AllocError>
    requires bits { transition.now.choice_bits ≡ total_bits list.now }
    requires choice { IsChoice list.now choice.picks.items }
    ensures { IfOk result (λ c. IsChoice list.now c.picks.items) }
{
    if is_small(transition, table.inputs.len()) {
        nearer(alloc, transition, table, list, near, &choice)
    } else {
        Ok(choice)
    }
}

/// Of what was found for a window the choice that mends the whole table, the plainer one first, or else the row
/// that the other misses; choices that do not mend it are added to the proposals.
fn tested(
    alloc: Global,
    transition: &Transition,
    table: &Table,
    list: &SiteList<'_>,
    near: &Near,
    mended: Mended,
    found: &mut Vec<Choice>,
) -> Result<Tried, AllocError>
    requires bits { transition.now.choice_bits ≡ total_bits list.now }
    requires mended { AreOf list.now mended }
    requires found { All (λ c. IsChoice list.now c.picks.items) found.old.items }
    ensures found { OnOk result (All (λ c. IsChoice list.now c.picks.items) found.new.items) }
    ensures whole { IfOk result (IsTried list.now) }
{
    let Mended { choice, plain } = mended;
    if !are_same(&plain, &choice) {
        if missed(alloc, transition, table, list, &plain)?.is_none() {
            return Ok(Tried::Whole(plain));
        }
        found.push(plain)?;
    }
    match missed(alloc, transition, table, list, &choice)? {
        None => {
            let choice = settled(alloc, transition, table, list, near, choice)?;
            Ok(Tried::Whole(choice))
        }
        Some(row) => {
            found.push(choice)?;
            Ok(Tried::Missed(row))
        }
    }
}

/// The choice that is found for a window around a row that the design as it is misses and that mends the whole
/// table; the choices that were found for windows before it are added to the proposals.
fn windows<R: Threads + Sync>(
    rt: &R,
    alloc: Global,
    transition: &Transition,
    table: &Table,
    list: &SiteList<'_>,
    near: &Near,
    miss: usize,
    found: &mut Vec<Choice>,
) -> Result<Option<Choice>, AllocError>
    requires bits { transition.now.choice_bits ≡ total_bits list.now }
    requires found { All (λ c. IsChoice list.now c.picks.items) found.old.items }
    ensures found { OnOk result (All (λ c. IsChoice list.now c.picks.items) found.new.items) }
    ensures whole { IfOk result (λ r. IfSome r (λ c. IsChoice list.now c.picks.items)) }
{
    let mut failed = miss;
    for reach in REACHES.iter() {
        let from = miss.saturating_add(1).saturating_sub(*reach);
        let own = miss.saturating_add(*reach);
        let end = end_of(transition, table, from, own, failed);
        let len = end.saturating_sub(from);
        if let Some(mended) = find(
            rt, alloc, transition, table, list, near, from, len, 0, BUDGET,
        )? {
            match tested(alloc, transition, table, list, near, mended, found)? {
                Tried::Whole(choice) => return Ok(Some(choice)),
                Tried::Missed(row) => failed = failed.max(row),
            }
        }
    }
    Ok(None)
}

/// Asks the whole table, where no window's choice mends it, or for a plainer choice than the one that does and of no
/// more changes; what is found is added to the proposals.
fn ask_all<R: Threads + Sync>(
    rt: &R,
    alloc: Global,
    transition: &Transition,
    table: &Table,
    list: &SiteList<'_>,
    near: &Near,
    whole: &Option<Choice>,
    budget: u32,
    found: &mut Vec<Choice>,
) -> Result<(), AllocError>
    requires bits { transition.now.choice_bits ≡ total_bits list.now }
    requires found { All (λ c. IsChoice list.now c.picks.items) found.old.items }
    ensures { OnOk result (All (λ c. IsChoice list.now c.picks.items) found.new.items) }
{
    let (below, most) = match whole {
        None => (0, usize::MAX),
        Some(choice) => (changes(choice).saturating_sub(1), rank(list, choice)),
    };
    if most == 0 {
        return Ok(());
    }
    let rows = table.inputs.len();
    if let Some(mended) = find(
        rt, alloc, transition, table, list, near, 0, rows, below, budget,
    )? {
        let Mended { choice, plain } = mended;
        if rank(list, &plain) < most && !are_same(&plain, &choice) {
            found.push(plain)?;
        }
        if rank(list, &choice) < most {
            found.push(choice)?;
        }
    }
    Ok(())
}

/// The choices that are found for windows around the first row that the design as it is misses, the
/// smallest first, up to one that mends the whole table: each window has 2, 4, 8 or 16 rows that end at
/// the miss, and one row less than that after it. Where none of them mends it and its circuit is small,
/// the last window is the whole table, each of whose questions may learn `budget` lines; of a larger
/// table a window also covers the row at which the last proposal failed. Each is a choice among the
/// sites; there is none where no row is missed. A plainer choice of no greater cost, where one is found, stands before
/// the one that it is found for.
pub fn proposals<R: Threads + Sync>(
    rt: &R,
    alloc: Global,
    transition: &Transition,
    table: &Table,
    list: &SiteList<'_>,
    near: &Near,
    budget: u32,
) -> Result<Vec<Choice>, AllocError>
    requires bits { transition.now.choice_bits ≡ total_bits list.now }
    ensures choices { IfOk result (λ r. All (λ c. IsChoice list.now c.picks.items) r.items) }
    ensures none { IfOk result (λ r. IsFirstMissed transition.now (off transition.now) (plain_table table.now) None → r.items ≡ []) }
{
    let mut found = Vec::new(alloc);
    let bits = switches_off(alloc, transition)?;
    let Some(miss) = first_miss(alloc, transition, table, bits.as_slice())? else {
        return Ok(found);
    };
    let whole = windows(rt, alloc, transition, table, list, near, miss, &mut found)?;
    let rows = table.inputs.len();
    if is_small(transition, rows) {
        ask_all(
            rt, alloc, transition, table, list, near, &whole, budget, &mut found,
        )?;
    }
    if let Some(choice) = whole {
        found.push(choice)?;
    }
    Ok(found)
}
