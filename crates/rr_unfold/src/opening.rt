//! The head of a loop: its first value, or its first fault.

ghost use Rattle.std.specs.Prelude.{◌≡◌, ◌⊎◌, MatchResult, None, Some, Ok, fold};
ghost use Rattle.rr_syntax.specs.View.{plain_loop};
ghost use Rattle.rr_flat.specs.Faults.{Refuses, among as among_of, either, faults_in, first_of, sooner};
ghost use Rattle.rr_flat.specs.declared.fault.FlatFault.TheVariants.{Memory};
ghost use Rattle.rr_loop_names.specs.View.{plain_turn};
ghost use Rattle.rr_loop_rules.specs.Rules.{head_faults};
ghost use Rattle.rr_unfold.specs.Unfold.{around, first_value, opening as opening_of, opening_faults};

use crate::values::{around_of, inside_of, integer_in, truth_in};
use bumpalo::Bump;
use rr_expr::Scope;
use rr_flat::{FlatFault, note};
use rr_loop_names::TurnName;
use rr_loop_rules::{LoopNames, note_head, note_turn};
use rr_syntax::Head;
use std::alloc::Global;

/// The first value, or the first of its fault and one that was found, if any.
fn among(found: Option<FlatFault>, first: Result<u32, FlatFault>) -> Result<u32, FlatFault>
    ensures { result ≡ either (fold sooner found (faults_in first)) first }
{
    match note(found, &first) {
        None => first,
        Some(fault) => Err(fault),
    }
}

/// That the test and the step of a loop have no fault in a turn.
#[tactic(auto, using(crate::proofs::Openings::checkings), unfolding(crate::specs::Unfold::opening_faults, crate::specs::Unfold::goes_on, crate::specs::Unfold::next_value, rr_syntax::specs::View::plain_loop))]
fn check_turn<'a>(
    head: &Head<'a>,
    names: &LoopNames,
    scope: &Scope,
    inner: &[TurnName<'a>],
    arena: &'a Bump,
    alloc: Global,
) -> Result<(), FlatFault>
    ensures { MatchResult result
        (λ _. first_of (opening_faults names.now scope.now (plain_turn inner.now) (plain_loop head.now)) ≡ None)
        (λ f. (f ≡ Memory) ⊎ (first_of (opening_faults names.now scope.now (plain_turn inner.now) (plain_loop head.now)) ≡ Some f)) }
{
    let inside = around_of(alloc, inner)?;
    let test = truth_in(head.test, inner, scope, arena)?;
    let step = integer_in(head.step, inner, scope, arena)?;
    let found = note_turn(None, names, inside.as_slice(), head);
    let found = note(found, &test);
    match note(found, &step) {
        None => Ok(()),
        Some(fault) => Err(fault),
    }
}

/// The first value of a loop inside others in a turn, or the first of its fault and those of the text.
#[tactic(auto, using(crate::proofs::Openings::beginnings), unfolding(crate::specs::Unfold::first_value, rr_syntax::specs::View::plain_loop))]
fn beginning<'a>(
    head: &Head<'a>,
    names: &LoopNames,
    scope: &Scope,
    turn: &[TurnName<'a>],
    arena: &'a Bump,
    alloc: Global,
) -> Result<u32, FlatFault>
    ensures { MatchResult result
        (λ v. among_of (head_faults names.now (around (plain_turn turn.now)) (plain_loop head.now)) (first_value scope.now (plain_turn turn.now) (plain_loop head.now)) ≡ Ok v)
        (Refuses (among_of (head_faults names.now (around (plain_turn turn.now)) (plain_loop head.now)) (first_value scope.now (plain_turn turn.now) (plain_loop head.now)))) }
{
    let outer = around_of(alloc, turn)?;
    let first = integer_in(head.start, turn, scope, arena)?;
    let found = note_head(None, names, outer.as_slice(), head);
    let value = among(found, first)?;
    Ok(value)
}

/// The first value of a loop inside others in a turn, or the first fault of its head.
#[tactic(auto, using(crate::proofs::Openings::openings))]
pub(crate) fn opening<'a>(
    head: &Head<'a>,
    names: &LoopNames,
    scope: &Scope,
    turn: &[TurnName<'a>],
    arena: &'a Bump,
    alloc: Global,
) -> Result<u32, FlatFault>
    ensures { MatchResult result
        (λ v. opening_of names.now scope.now (plain_turn turn.now) (plain_loop head.now) ≡ Ok v)
        (Refuses (opening_of names.now scope.now (plain_turn turn.now) (plain_loop head.now))) }
{
    let value = beginning(head, names, scope, turn, arena, alloc)?;
    let inner = inside_of(alloc, turn, head, value)?;
    check_turn(head, names, scope, inner.as_slice(), arena, alloc)?;
    Ok(value)
}
