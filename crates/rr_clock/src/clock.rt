//! The one clock: which input it is, and the blocks that run on it.
ghost use Rattle.std.specs.Prelude.{◌≡◌, ◌&&◌, ℕ, List, is_none, IfOk, IfSome, IfNone, map, is_some, flat_map, nat_eq, option_map};
ghost use Rattle.std.specs.List.{list_any};
ghost use Rattle.rr_syntax.specs.View.{plain_edge, plain_identifier, plain_statement};
ghost use Rattle.rr_expr.specs.Scopes.{lookup};
ghost use Rattle.rr_flat.specs.Signals.{signal_at};
ghost use Rattle.rr_flat.specs.Clocks.{IsInputNamed, deciding_edge as deciding_edge_of, is_among};
ghost use Rattle.rr_flat.specs.Lawful.{ClockNamed};
ghost use Rattle.rr_flat.specs.Reads.{names_of};
ghost use Rattle.rr_flat.specs.View.{plain_block, plain_flat};
ghost use Rattle.rr_clock.specs.Clock.{IsNamed, IsOne, IsFirst, HasInput, source_named as source_named_in};
ghost use Rattle.rr_text_names.specs.Names.{entry, is_the as is_the_clock};
ghost use Rattle.rr_text_names.specs.Firsts.{earliest};
ghost use Rattle.rr_clock.specs.Found.{any_runs, by_clock, by_direction, deciding_source as deciding_source_in, first_rising, found as found_in, free_among, leads_by, or_deciding, or_free, runs_by, by_all, unclocked_block};

use crate::sources::{sources, told_by};
use rr_expr::{Entity, Scope};
use rr_flat::{Block, Flat};
use rr_syntax::{Event, Named, Stmt};
use rr_text_names::{add_statement_names, is_scalar, scalar_named};
use std::alloc::{AllocError, Global};

/// The clock by the number of its signal, if there is one, and whether its rising edge counts; or the
/// token of the first clocked block at which there is no one clock.
#[derive(Clone, Copy, Debug, PartialEq, Eq)]
pub enum Found {
    Clock { signal: Option<u32>, rising: bool },
    Nowhere(u32),
}

/// The top input to which a name leads.
pub(crate) fn source_named(
    flat: &Flat,
    table: &[Option<u32>],
    scope: u32,
    name: &str,
) -> Option<u32>
    ensures { result ≡ source_named_in (plain_flat flat.now) (entry table.now) scope name.now }
{
    told_by(table, scalar_named(flat, scope, name))
}

pub(crate) fn is_the(clock: u32, source: Option<u32>) -> bool
    ensures { result ≡ is_the_clock clock source }
{
    match source {
        Some(id) => id == clock,
        None => false,
    }
}

/// Whether a signal is an input of the top.
fn is_top_input(flat: &Flat, id: u32) -> bool
    ensures { result ≡ list_any (λ x. nat_eq x id) (plain_flat flat.now).inputs }
{
    flat.input_list().contains(&id)
}

/// Whether it is a scalar one.
fn is_scalar_input(flat: &Flat, id: u32) -> bool
    ensures { result ≡ (list_any (λ x. nat_eq x id) (plain_flat flat.now).inputs && is_none (signal_at (plain_flat flat.now).signals id).range) }
{
    is_top_input(flat, id) && is_scalar(flat, id)
}

/// The scalar input of the top that has a name.
fn input_named(flat: &Flat, name: &str) -> Option<u32>
    ensures some { IfSome result (λ id. IsInputNamed (plain_flat flat.now) name.now id) }
    ensures none { IfNone result ((id : ℕ) → IsInputNamed (plain_flat flat.now) name.now id → ⊥) }
{
    match scalar_named(flat, 0, name) {
        Some(id) => {
            if is_scalar_input(flat, id) {
                Some(id)
            } else {
                None
            }
        }
        None => None,
    }
}

/// The same of a word that may be missing.
fn named_input(flat: &Flat, word: Option<&str>) -> Option<u32>
    requires { ClockNamed (plain_flat flat.now) (option_map (λ w. w.now) word) }
    ensures { IsNamed (plain_flat flat.now) (option_map (λ w. w.now) word.entry) result }
{
    match word {
        None => None,
        Some(name) => input_named(flat, name),
    }
}

/// Where a word is given for the clock and names no scalar input of the top, the token of the top
/// module's name.
pub fn unknown_clock(flat: &Flat, word: Option<&str>) -> Option<u32>
    ensures first { IfSome result (λ at. at ≡ flat.now.top) }
    ensures none { IfNone result (ClockNamed (plain_flat flat.now) (option_map (λ w. w.now) word.entry)) }
    ensures some { IfSome result (λ at. ClockNamed (plain_flat flat.now) (option_map (λ w. w.now) word.entry) → ⊥) }
{
    match word {
        None => None,
        Some(name) => match input_named(flat, name) {
            Some(_) => None,
            None => Some(flat.top),
        },
    }
}

fn edge_leads(flat: &Flat, table: &[Option<u32>], scope: u32, edge: &Event, clock: u32) -> bool
    ensures { result ≡ leads_by (plain_flat flat.now) (entry table.now) clock scope edge.now.name.now }
{
    is_the(clock, source_named(flat, table, scope, edge.name))
}

/// The direction of the first edge that leads to the clock.
fn first_edge(
    flat: &Flat,
    table: &[Option<u32>],
    scope: u32,
    edges: &[Event],
    clock: u32,
) -> Option<bool>
    ensures { result ≡ first_rising (plain_flat flat.now) (entry table.now) clock scope (map plain_edge edges.now) }
{
    for edge in edges.iter() {
        if edge_leads(flat, table, scope, edge, clock) {
            return Some(edge.rising);
        }
    }
    None
}

/// Whether an edge leads to the clock in this direction.
fn edge_runs(
    flat: &Flat,
    table: &[Option<u32>],
    scope: u32,
    edge: &Event,
    clock: u32,
    rising: bool,
) -> bool
    ensures { result ≡ runs_by (plain_flat flat.now) (entry table.now) clock rising scope (plain_edge edge.now) }
{
    if edge.rising != rising {
        return false;
    }
    edge_leads(flat, table, scope, edge, clock)
}

/// Whether one of several does.
fn runs_on(
    flat: &Flat,
    table: &[Option<u32>],
    scope: u32,
    edges: &[Event],
    clock: u32,
    rising: bool,
) -> bool
    ensures { result ≡ any_runs (plain_flat flat.now) (entry table.now) clock rising scope (map plain_edge edges.now) }
{
    for edge in edges.iter() {
        if edge_runs(flat, table, scope, edge, clock, rising) {
            return true;
        }
    }
    false
}

/// The token of a block without such an edge.
#[tactic(auto, unfolding(rr_text_names::specs::Firsts::earliest))]
fn unclocked(
    flat: &Flat,
    table: &[Option<u32>],
    block: &Block,
    clock: u32,
    rising: bool,
) -> Option<u32>
    ensures { result ≡ earliest (unclocked_block (plain_flat flat.now) (entry table.now) clock rising (plain_block block.now)) }
{
    if runs_on(flat, table, block.scope, block.edges, clock, rising) {
        None
    } else {
        Some(block.token)
    }
}

/// The first block without one.
fn first_unclocked(
    flat: &Flat,
    table: &[Option<u32>],
    blocks: &[Block],
    clock: u32,
    rising: bool,
) -> Option<u32>
    ensures { result ≡ earliest (flat_map (unclocked_block (plain_flat flat.now) (entry table.now) clock rising) (map plain_block blocks.now)) }
{
    for block in blocks.iter() {
        let found = unclocked(flat, table, block, clock, rising);
        if found.is_some() {
            return found;
        }
    }
    None
}

/// The names of a list, as a set.
fn name_set<'a>(alloc: Global, list: &[Named<'a>]) -> Result<Scope<'a>, AllocError>
    ensures { IfOk result (λ set. (name : List ℕ) → is_some (lookup name set) ≡ is_among name (map plain_identifier list.now)) }
{
    let mut set = Scope::new(alloc);
    for named in list.iter() {
        set.add(named.name, Entity::Instance)?;
    }
    Ok(set)
}

/// The names that stand in a statement, as a set.
fn names_within<'a>(alloc: Global, body: &'a Stmt<'a>) -> Result<Scope<'a>, AllocError>
    ensures { IfOk result (λ set. (name : List ℕ) → is_some (lookup name set) ≡ is_among name (names_of (plain_statement body.now))) }
{
    let mut list = Vec::new(alloc);
    add_statement_names(&mut list, body)?;
    name_set(alloc, list.as_slice())
}

/// The edge that decides: the first whose name does not stand in the body, else the first.
fn deciding_edge<'a>(first: Event<'a>, edges: &[Event<'a>], body: &Scope<'a>) -> Event<'a>
    ensures { plain_edge result ≡ or_free (plain_edge first.entry) (free_among body.now (map plain_edge edges.now)) }
{
    for edge in edges.iter() {
        if body.find(edge.name).is_none() {
            return *edge;
        }
    }
    first
}

/// The top input to which it leads.
fn deciding_source<'a>(
    alloc: Global,
    flat: &Flat<'a>,
    table: &[Option<u32>],
    block: &Block<'a>,
) -> Result<Option<u32>, AllocError>
    ensures { IfOk result (λ r. r ≡ deciding_source_in (plain_flat flat.now) (entry table.now) (plain_block block.now) (plain_block block.now).edges) }
{
    match block.edges.first() {
        None => Ok(None),
        Some(first) => {
            let body = names_within(alloc, block.body)?;
            let edge = deciding_edge(*first, block.edges, &body);
            Ok(source_named(flat, table, block.scope, edge.name))
        }
    }
}

/// The clock, where all blocks run on it in this direction.
fn running(flat: &Flat, table: &[Option<u32>], blocks: &[Block], clock: u32, rising: bool) -> Found
    ensures { result ≡ by_all clock rising (earliest (flat_map (unclocked_block (plain_flat flat.now) (entry table.now) clock rising) (map plain_block blocks.now))) }
{
    match first_unclocked(flat, table, blocks, clock, rising) {
        None => Found::Clock {
            signal: Some(clock),
            rising,
        },
        Some(token) => Found::Nowhere(token),
    }
}

/// The same in the direction of the first block's first edge that leads to it.
fn directed(
    flat: &Flat,
    table: &[Option<u32>],
    first: &Block,
    blocks: &[Block],
    clock: u32,
) -> Found
    ensures { result ≡ by_direction (plain_flat flat.now) (entry table.now) (map plain_block blocks.now) first.now.token clock (first_rising (plain_flat flat.now) (entry table.now) clock (plain_block first.now).scope (plain_block first.now).edges) }
{
    match first_edge(flat, table, first.scope, first.edges, clock) {
        None => Found::Nowhere(first.token),
        Some(rising) => running(flat, table, blocks, clock, rising),
    }
}

/// The same of a clock that may be missing.
fn found_with(
    flat: &Flat,
    table: &[Option<u32>],
    first: &Block,
    blocks: &[Block],
    clock: Option<u32>,
) -> Found
    ensures { result ≡ by_clock (plain_flat flat.now) (entry table.now) (plain_block first.now) (map plain_block blocks.now) clock }
{
    match clock {
        None => Found::Nowhere(first.token),
        Some(clock) => directed(flat, table, first, blocks, clock),
    }
}

/// The input that was named, else the one to which the deciding edge leads.
fn chosen<'a>(
    alloc: Global,
    flat: &Flat<'a>,
    table: &[Option<u32>],
    block: &Block<'a>,
    named: Option<u32>,
) -> Result<Option<u32>, AllocError>
    ensures { IfOk result (λ r. r ≡ or_deciding (plain_flat flat.now) (entry table.now) (plain_block block.now) named) }
{
    match named {
        Some(id) => Ok(Some(id)),
        None => deciding_source(alloc, flat, table, block),
    }
}

/// The one clock, with the input that was named, if any.
fn found_by<'a>(
    alloc: Global,
    flat: &Flat<'a>,
    table: &[Option<u32>],
    blocks: &[Block<'a>],
    named: Option<u32>,
) -> Result<Found, AllocError>
    ensures { IfOk result (λ r. r ≡ found_in (plain_flat flat.now) (entry table.now) named (map plain_block blocks.now)) }
{
    match blocks.first() {
        None => Ok(Found::Clock {
            signal: named,
            rising: true,
        }),
        Some(first) => {
            let clock = chosen(alloc, flat, table, first, named)?;
            Ok(found_with(flat, table, first, blocks, clock))
        }
    }
}

/// The clock of a design and its edge: the input that the word names, or without a word the one to
/// which the deciding edge of the first clocked block leads, on an edge of which every clocked block
/// runs. Where there is none, the first clocked block at which it fails, by the token of its `always`.
pub fn find_clock(alloc: Global, flat: &Flat, word: Option<&str>) -> Result<Found, AllocError>
    requires named { ClockNamed (plain_flat flat.now) (option_map (λ w. w.now) word) }
    ensures one { IfOk result (λ r. IsOne (plain_flat flat.now) (option_map (λ w. w.now) word.entry) r) }
    ensures first { IfOk result (λ r. IsFirst (plain_flat flat.now) (option_map (λ w. w.now) word.entry) r) }
    ensures input { IfOk result (λ r. HasInput (plain_flat flat.now) r) }
{
    let table = sources(alloc, flat)?;
    let named = named_input(flat, word);
    found_by(alloc, flat, table.as_slice(), flat.clocked_blocks(), named)
}
