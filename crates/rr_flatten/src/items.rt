//! Continuous assignments (IEEE 1364-2005 section 6.1) and procedures (section 9.9) of an instance.
ghost use Rattle.std.specs.Prelude.{◌≡◌, ◌<◌, IsTrue, MatchResult, OnOk, IfOk, IfSome, Ok, [], map, length, slice_index_or};
ghost use Rattle.std.specs.List.{AllByRecursion};
ghost use Rattle.rr_syntax.specs.Expressions.{WellFormed, FitLiterals};
ghost use Rattle.rr_syntax.specs.Statements.{WellFormedStatement, FitLiteralsStatement, is_initial};
ghost use Rattle.rr_syntax.specs.Items.{WellFormedPair, FitLiteralsPair, WellFormedDeclarator, FitLiteralsDeclarator};
ghost use Rattle.rr_syntax.specs.View.{plain, plain_pair, plain_declarator, plain_edge, plain_events, plain_statement};
ghost use Rattle.rr_flat.specs.Faults.{Refuses, each};
ghost use Rattle.rr_unfold.specs.Unfold.{counted, unfold_statement};
ghost use Rattle.rr_unfold.specs.View.{plain_counts};
ghost use Rattle.rr_flatten.specs.Kept.{plain_walked, HasLoops, IsSame};
ghost use Rattle.rr_flat.specs.Sound.{IsScope, IsExpression, IsSide, IsStatement, names_at};
ghost use Rattle.rr_flat.specs.View.{plain_side};
ghost use Rattle.rr_starts.specs.Starts.{initial_faults};
ghost use Rattle.rr_flatten.specs.Walk.{with_driver, assign as assign_in, net as net_in, net_driver, net_value as net_value_in, combined, clocked, with_block, always as always_in, with_initial, initial as initial_in};

use crate::notes::{note_events, note_expression, note_found, note_statement};
use crate::tables::place_of;
use bumpalo::Bump;
use rr_expr::{Scope, first_token};
use rr_flat::{Block, Driver, Flat, FlatFault, Initial, Side};
use rr_loop_rules::{LoopNames, note_loop_faults};
use rr_starts::{note_initial, set_starts};
use rr_syntax::{Declarator, Event, Events, Expr, Pair, Stmt};
use rr_unfold::{Counts, unfolded};
use std::alloc::{AllocError, Global};

/// A design in its walk, and its flat bits; how many tokens the bodies of loops may have in all their
/// turns, if there is such a limit, and the turns so far; and the names of the loops of each instance.
#[derive(Drop)]
pub(crate) struct Walked<'a> {
    pub(crate) flat: Flat<'a>,
    pub(crate) bits: u64,
    pub(crate) limit: Option<u64>,
    pub(crate) counts: Counts,
    pub(crate) loops: Vec<LoopNames<'a>>,
}

/// The names of an instance.
pub(crate) fn names_of<'w, 'a>(walked: &'w Walked<'a>, number: u32) -> &'w Scope<'a>
    requires { number < length walked.now.flat.scopes }
    ensures value { result.now ≡ names_at walked.now.flat.scopes number }
    ensures scope { IsScope walked.now.flat.signals result.now }
{
    &walked.flat.scopes[number as usize]
}

/// The names of the loops of an instance.
pub(crate) fn loops_of<'w, 'a>(walked: &'w Walked<'a>, number: u32) -> &'w LoopNames<'a>
    requires there { number < length walked.now.flat.scopes }
    requires loops { HasLoops walked.now }
    ensures { result.now ≡ slice_index_or walked.now.loops.items number [] }
{
    &walked.loops[number as usize]
}

/// One more driver.
pub(crate) fn drive<'a>(
    walked: &mut Walked<'a>,
    target: Side<'a>,
    value: Side<'a>,
    token: u32,
) -> Result<(), AllocError>
    requires target { IsSide walked.old.flat.signals walked.old.flat.scopes target }
    requires value { IsSide walked.old.flat.signals walked.old.flat.scopes value }
    ensures value { OnOk result (plain_walked walked.new ≡ with_driver (plain_side target.entry) (plain_side value.entry) token (plain_walked walked.old)) }
    ensures same { OnOk result (IsSame walked.old walked.new) }
{
    walked.flat.drive(Driver {
        target,
        value,
        token,
    })
}

/// A continuous assignment.
#[tactic(auto, unfolding(crate::specs::Walk::assign, rr_syntax::specs::View::plain_pair))]
fn assign<'a>(walked: &mut Walked<'a>, number: u32, pair: &Pair<'a>) -> Result<(), FlatFault>
    requires there { number < length walked.old.flat.scopes }
    requires loops { HasLoops walked.old }
    requires formed { WellFormedPair (plain_pair pair.now) }
    requires fit { FitLiteralsPair (plain_pair pair.now) }
    ensures value { MatchResult result
        (λ _. assign_in number (plain_pair pair.now) (plain_walked walked.old) ≡ Ok (plain_walked walked.new))
        (Refuses (assign_in number (plain_pair pair.now) (plain_walked walked.old))) }
    ensures same { OnOk result (IsSame walked.old walked.new) }
{
    let names = names_of(walked, number);
    let loops = loops_of(walked, number);
    let found = note_expression(None, pair.target, loops, names);
    let found = note_expression(found, pair.value, loops, names);
    if let Some(fault) = found {
        return Err(fault);
    }
    let target = Side::Text {
        expr: pair.target,
        scope: number,
    };
    let value = Side::Text {
        expr: pair.value,
        scope: number,
    };
    drive(walked, target, value, first_token(pair.target))?;
    Ok(())
}

pub(crate) fn assigns<'a>(
    walked: &mut Walked<'a>,
    number: u32,
    pairs: &[Pair<'a>],
) -> Result<(), FlatFault>
    requires there { number < length walked.old.flat.scopes }
    requires loops { HasLoops walked.old }
    requires formed { AllByRecursion WellFormedPair (map plain_pair pairs.now) }
    requires fit { AllByRecursion FitLiteralsPair (map plain_pair pairs.now) }
    ensures value { MatchResult result
        (λ _. each (assign_in number) (map plain_pair pairs.now) (plain_walked walked.old) ≡ Ok (plain_walked walked.new))
        (Refuses (each (assign_in number) (map plain_pair pairs.now) (plain_walked walked.old))) }
    ensures same { OnOk result (IsSame walked.old walked.new) }
{
    for pair in pairs.iter() {
        assign(walked, number, pair)?;
    }
    Ok(())
}

/// The driver of a net with that name.
fn drive_net<'a>(
    walked: &mut Walked<'a>,
    number: u32,
    token: u32,
    id: Option<u32>,
    expr: &'a Expr<'a>,
) -> Result<(), AllocError>
    requires value { (number < length walked.old.flat.scopes) × IsExpression (names_at walked.old.flat.scopes number) (plain expr.now) }
    requires target { IfSome id (λ k. k < length walked.old.flat.signals) }
    ensures value { OnOk result (plain_walked walked.new ≡ net_driver number token (plain expr.now) id (plain_walked walked.old)) }
    ensures same { OnOk result (IsSame walked.old walked.new) }
{
    match id {
        None => Ok(()),
        Some(id) => {
            let value = Side::Text {
                expr,
                scope: number,
            };
            drive(walked, Side::Whole(id), value, token)
        }
    }
}

/// A net declaration with that value.
#[tactic(auto, unfolding(crate::specs::Walk::net_value))]
fn net_value<'a>(
    walked: &mut Walked<'a>,
    number: u32,
    token: u32,
    name: &str,
    expr: &'a Expr<'a>,
) -> Result<(), FlatFault>
    requires there { number < length walked.old.flat.scopes }
    requires loops { HasLoops walked.old }
    requires formed { WellFormed (plain expr.now) }
    requires fit { FitLiterals (plain expr.now) }
    ensures value { MatchResult result
        (λ _. net_value_in number token name.now (plain expr.now) (plain_walked walked.old) ≡ Ok (plain_walked walked.new))
        (Refuses (net_value_in number token name.now (plain expr.now) (plain_walked walked.old))) }
    ensures same { OnOk result (IsSame walked.old walked.new) }
{
    let names = names_of(walked, number);
    let loops = loops_of(walked, number);
    let id = place_of(names, name);
    if let Some(fault) = note_expression(None, expr, loops, names) {
        return Err(fault);
    }
    drive_net(walked, number, token, id, expr)?;
    Ok(())
}

/// The declaration of a net.
#[tactic(auto, unfolding(crate::specs::Walk::net, rr_syntax::specs::View::plain_declarator, rr_syntax::specs::View::plain_value, rr_syntax::specs::Items::WellFormedDeclarator, rr_syntax::specs::Items::FitLiteralsDeclarator, rr_syntax::specs::Items::WellFormedValue, rr_syntax::specs::Items::FitLiteralsValue))]
fn net<'a>(walked: &mut Walked<'a>, number: u32, one: &Declarator<'a>) -> Result<(), FlatFault>
    requires there { number < length walked.old.flat.scopes }
    requires loops { HasLoops walked.old }
    requires formed { WellFormedDeclarator (plain_declarator one.now) }
    requires fit { FitLiteralsDeclarator (plain_declarator one.now) }
    ensures value { MatchResult result
        (λ _. net_in number (plain_declarator one.now) (plain_walked walked.old) ≡ Ok (plain_walked walked.new))
        (Refuses (net_in number (plain_declarator one.now) (plain_walked walked.old))) }
    ensures same { OnOk result (IsSame walked.old walked.new) }
{
    match one.value {
        None => Ok(()),
        Some(expr) => net_value(walked, number, one.token, one.name, expr),
    }
}

pub(crate) fn nets<'a>(
    walked: &mut Walked<'a>,
    number: u32,
    list: &[Declarator<'a>],
) -> Result<(), FlatFault>
    requires there { number < length walked.old.flat.scopes }
    requires loops { HasLoops walked.old }
    requires formed { AllByRecursion WellFormedDeclarator (map plain_declarator list.now) }
    requires fit { AllByRecursion FitLiteralsDeclarator (map plain_declarator list.now) }
    ensures value { MatchResult result
        (λ _. each (net_in number) (map plain_declarator list.now) (plain_walked walked.old) ≡ Ok (plain_walked walked.new))
        (Refuses (each (net_in number) (map plain_declarator list.now) (plain_walked walked.old))) }
    ensures same { OnOk result (IsSame walked.old walked.new) }
{
    for one in list.iter() {
        net(walked, number, one)?;
    }
    Ok(())
}

/// One more block, clocked where it has edges.
#[tactic(auto, unfolding(rr_syntax::specs::View::plain_events))]
fn add_block<'a>(
    walked: &mut Walked<'a>,
    number: u32,
    events: &Events<'a>,
    body: &'a Stmt<'a>,
    token: u32,
) -> Result<(), AllocError>
    requires there { number < length walked.old.flat.scopes }
    requires body { IsStatement (names_at walked.old.flat.scopes number) (plain_statement body.now) }
    ensures value { OnOk result (plain_walked walked.new ≡ with_block number (plain_events events.now) (plain_statement body.now) token (plain_walked walked.old)) }
    ensures same { OnOk result (IsSame walked.old walked.new) }
{
    match events {
        Events::Star { .. } | Events::Levels { .. } => combine(walked, number, body, token),
        Events::Edges { list, .. } => clock(walked, number, list, body, token),
    }
}

fn combine<'a>(
    walked: &mut Walked<'a>,
    number: u32,
    body: &'a Stmt<'a>,
    token: u32,
) -> Result<(), AllocError>
    requires there { number < length walked.old.flat.scopes }
    requires body { IsStatement (names_at walked.old.flat.scopes number) (plain_statement body.now) }
    ensures value { OnOk result (plain_walked walked.new ≡ combined (record { body = plain_statement body.now; edges = []; scope = number; token = token }) (plain_walked walked.old)) }
    ensures same { OnOk result (IsSame walked.old walked.new) }
{
    walked.flat.combine(Block {
        body,
        edges: &[],
        scope: number,
        token,
    })
}

fn clock<'a>(
    walked: &mut Walked<'a>,
    number: u32,
    edges: &'a [Event<'a>],
    body: &'a Stmt<'a>,
    token: u32,
) -> Result<(), AllocError>
    requires there { number < length walked.old.flat.scopes }
    requires body { IsStatement (names_at walked.old.flat.scopes number) (plain_statement body.now) }
    ensures value { OnOk result (plain_walked walked.new ≡ clocked (record { body = plain_statement body.now; edges = map plain_edge edges.now; scope = number; token = token }) (plain_walked walked.old)) }
    ensures same { OnOk result (IsSame walked.old walked.new) }
{
    walked.flat.clock(Block {
        body,
        edges,
        scope: number,
        token,
    })
}

/// The statement of an item of an instance in which each loop is the block of its turns (section 9.6);
/// the turns are counted.
fn without_loops<'a>(
    alloc: Global,
    arena: &'a Bump,
    walked: &mut Walked<'a>,
    number: u32,
    body: &'a Stmt<'a>,
) -> Result<&'a Stmt<'a>, FlatFault>
    requires there { number < length walked.old.flat.scopes }
    requires loops { HasLoops walked.old }
    ensures value { MatchResult result
        (λ _. counted walked.old.limit (slice_index_or walked.old.loops.items number []) (names_at walked.old.flat.scopes number) [] (plain_statement body.now) (plain_counts walked.old.counts) ≡ Ok (plain_counts walked.new.counts))
        (Refuses (counted walked.old.limit (slice_index_or walked.old.loops.items number []) (names_at walked.old.flat.scopes number) [] (plain_statement body.now) (plain_counts walked.old.counts))) }
    ensures made { IfOk result (λ s. plain_statement s.now ≡ unfold_statement (names_at walked.old.flat.scopes number) [] (plain_statement body.now)) }
    ensures rest { OnOk result (plain_walked walked.new ≡ record (plain_walked walked.old) { count = plain_counts walked.new.counts }) }
    ensures same { OnOk result (IsSame walked.old walked.new) }
{
    let names = names_of(walked, number);
    let loops = loops_of(walked, number);
    let mut counts = walked.counts;
    let made = unfolded(body, loops, names, walked.limit, &mut counts, arena, alloc)?;
    walked.counts = counts;
    Ok(made)
}

/// An `always`.
pub(crate) fn always<'a>(
    alloc: Global,
    arena: &'a Bump,
    walked: &mut Walked<'a>,
    number: u32,
    events: &Events<'a>,
    body: &'a Stmt<'a>,
    token: u32,
) -> Result<(), FlatFault>
    requires there { number < length walked.old.flat.scopes }
    requires loops { HasLoops walked.old }
    requires formed { WellFormedStatement (plain_statement body.now) }
    requires fit { FitLiteralsStatement (plain_statement body.now) }
    ensures value { MatchResult result
        (λ _. always_in number (plain_events events.now) (plain_statement body.now) token (plain_walked walked.old) ≡ Ok (plain_walked walked.new))
        (Refuses (always_in number (plain_events events.now) (plain_statement body.now) token (plain_walked walked.old))) }
    ensures same { OnOk result (IsSame walked.old walked.new) }
{
    let made = without_loops(alloc, arena, walked, number, body)?;
    let names = names_of(walked, number);
    let loops = loops_of(walked, number);
    let found = note_loop_faults(alloc, None, loops, body)?;
    let found = note_events(found, events, loops, names);
    let found = note_found(found, note_statement(None, made, names));
    if let Some(fault) = found {
        return Err(fault);
    }
    add_block(walked, number, events, made, token)?;
    Ok(())
}

/// One more `initial`, with the starting values that it sets.
fn add_initial<'a>(
    walked: &mut Walked<'a>,
    number: u32,
    body: &'a Stmt<'a>,
    token: u32,
) -> Result<(), AllocError>
    requires there { number < length walked.old.flat.scopes }
    requires body { IsStatement (names_at walked.old.flat.scopes number) (plain_statement body.now) }
    requires none { initial_faults (names_at walked.old.flat.scopes number) (plain_statement body.now) ≡ [] }
    ensures value { OnOk result (plain_walked walked.new ≡ with_initial number (plain_statement body.now) token (plain_walked walked.old)) }
    ensures same { OnOk result (IsSame walked.old walked.new) }
{
    walked.flat.begin(Initial {
        body,
        scope: number,
        token,
    })?;
    set_starts(&mut walked.flat, number, body);
    Ok(())
}

/// An `initial`.
pub(crate) fn initial<'a>(
    alloc: Global,
    arena: &'a Bump,
    walked: &mut Walked<'a>,
    number: u32,
    body: &'a Stmt<'a>,
    token: u32,
) -> Result<(), FlatFault>
    requires there { number < length walked.old.flat.scopes }
    requires loops { HasLoops walked.old }
    requires initial { IsTrue (is_initial (plain_statement body.now)) }
    requires formed { WellFormedStatement (plain_statement body.now) }
    requires fit { FitLiteralsStatement (plain_statement body.now) }
    ensures value { MatchResult result
        (λ _. initial_in number (plain_statement body.now) token (plain_walked walked.old) ≡ Ok (plain_walked walked.new))
        (Refuses (initial_in number (plain_statement body.now) token (plain_walked walked.old))) }
    ensures same { OnOk result (IsSame walked.old walked.new) }
{
    let made = without_loops(alloc, arena, walked, number, body)?;
    let names = names_of(walked, number);
    let loops = loops_of(walked, number);
    let found = note_loop_faults(alloc, None, loops, body)?;
    let found = note_found(found, note_initial(None, made, names));
    if let Some(fault) = found {
        return Err(fault);
    }
    add_initial(walked, number, made, token)?;
    Ok(())
}
