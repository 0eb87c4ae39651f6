//! The first row that the instance of one choice misses, and whether it runs as a table expects, by evaluation.

ghost use Rattle.std.specs.Prelude.{◌≡◌, ◌↔◌, ◌&&◌, Bool, not, true, All, IfOk, OnOk, IsTrue, List, length, drop, take, is_none};
ghost use Rattle.std.specs.List.{list_all, sum};
ghost use Rattle.rr_choice.specs.Choices.{decode};
ghost use Rattle.rr_choice.specs.Sites.{Site};
ghost use Rattle.rr_trace.specs.View.{plain_table};
ghost use Rattle.rr_transition.specs.Cycles.{Cycle, Design, instance_design};
ghost use Rattle.rr_transition.specs.Transitions.{cycle_bits};
ghost use Rattle.rr_unroll.specs.Matches.{FitsOutputs, Matches};
ghost use Rattle.rr_unroll.specs.Questions.{is_same, agree as agree_of, agree_row, judged as judged_of};
ghost use Rattle.rr_unroll.specs.Walking.{IsFirstMissed};

use crate::rows::{cells_at, numbers_at};
use crate::walking::{first_state, turn};
use crate::words::words;
use rr_trace::{Cell, Table};
use rr_transition::Transition;
use std::alloc::{AllocError, Global};

// Whether a known bit is not the one that was found.
fn misses(known: bool, expected: bool, found: bool) -> bool
    ensures { result ≡ (known && not (is_same expected found)) }
{
    known && expected != found
}

// Whether each known bit is the one that was found.
fn agree(known: &[bool], expected: &[bool], found: &[bool]) -> bool
    requires expected_width { length expected.now ≡ length known.now }
    requires found_width { length found.now ≡ length known.now }
    ensures { result ≡ list_all (λ b. b) (agree_of known.now expected.now found.now) }
{
    for i in 0..known.len() {
        if misses(known[i], expected[i], found[i]) {
            return false;
        }
    }
    true
}

// Whether the outputs of a row have the known bits of its cells.
fn row_agrees(
    alloc: Global,
    widths: &[u32],
    cells: &[Cell],
    found: &[bool],
) -> Result<bool, AllocError>
    requires { length found.now ≡ sum widths.now }
    ensures { IfOk result (λ r. r ≡ list_all (λ b. b) (agree_row widths.now cells.now found.now)) }
{
    let known: Vec<u128> = cells.iter().map(|cell| cell.known).collect(alloc)?;
    let values: Vec<u128> = cells.iter().map(|cell| cell.value).collect(alloc)?;
    let known_bits = words(alloc, widths, known.as_slice())?;
    let value_bits = words(alloc, widths, values.as_slice())?;
    Ok(agree(known_bits.as_slice(), value_bits.as_slice(), found))
}

// Moves the state by a row. It answers whether the outputs have the known bits of the cells.
fn row_turn(
    alloc: Global,
    transition: &Transition,
    choice: &[bool],
    state: &mut Vec<bool>,
    row: &[u128],
    cells: &[Cell],
) -> Result<bool, AllocError>
    requires choice { length choice.now ≡ transition.now.choice_bits }
    requires state { length state.old.items ≡ transition.now.state_bits }
    ensures state { OnOk result (state.new.items ≡ take transition.now.state_bits (cycle_bits transition.now choice.now state.old.items row.now)) }
    ensures width { OnOk result (length state.new.items ≡ transition.now.state_bits) }
    ensures agrees { IfOk result (λ r. r ≡ list_all (λ b. b)
        (agree_row transition.now.output_widths cells.now (drop transition.now.state_bits (cycle_bits transition.now choice.now state.old.items row.now)))) }
{
    let bits = turn(alloc, transition, choice, state, row)?;
    let (_, found) = bits.as_slice().split_at(transition.state_bits as usize);
    let agrees = row_agrees(alloc, transition.output_widths.as_slice(), cells, found)?;
    Ok(agrees)
}

/// The first row of a table that a choice misses: in the run of its bits, from the state on that a run
/// starts in, the outputs of the row have not each known bit of its cells. It is found row by row, by
/// evaluation, and no gate is made. A row without cells is not missed.
pub fn first_miss(
    alloc: Global,
    transition: &Transition,
    table: &Table,
    choice: &[bool],
) -> Result<Option<usize>, AllocError>
    requires { length choice.now ≡ transition.now.choice_bits }
    ensures first { IfOk result (IsFirstMissed transition.now choice.now (plain_table table.now)) }
    ensures matches { IfOk result (λ r. (j : Design) (sites : List Site) → Cycle j sites transition.now → FitsOutputs transition.now.output_widths (plain_table table.now) →
        (IsTrue (is_none r) ↔ Matches (instance_design sites (decode sites choice.now) j) (plain_table table.now))) }
{
    let rows = table.inputs.as_slice();
    let expected = table.expected.as_slice();
    let mut state = first_state(alloc, transition)?;
    for r in 0..table.inputs.len() {
        let row = numbers_at(rows, r);
        let cells = cells_at(expected, r);
        let agrees = row_turn(alloc, transition, choice, &mut state, row, cells)?;
        if !agrees {
            return Ok(Some(r));
        }
    }
    Ok(None)
}

/// Whether the instance of a choice's bits runs as a table expects, from the state on that a run starts
/// in: row by row by evaluation, up to the first row that differs. It makes no gate, so it is the cheap
/// test of the source itself, whose switches are all off, and of a proposal.
pub fn judges(
    alloc: Global,
    transition: &Transition,
    table: &Table,
    choice: &[bool],
) -> Result<bool, AllocError>
    requires { length choice.now ≡ transition.now.choice_bits }
    ensures judged { IfOk result (λ r. IsTrue r ↔ All (λ (b : Bool). b ≡ true)
        (judged_of transition.now choice.now transition.now.start (plain_table table.now).inputs (plain_table table.now).expected)) }
    ensures matches { IfOk result (λ r. (j : Design) (sites : List Site) → Cycle j sites transition.now → FitsOutputs transition.now.output_widths (plain_table table.now) →
        (IsTrue r ↔ Matches (instance_design sites (decode sites choice.now) j) (plain_table table.now))) }
{
    let missed = first_miss(alloc, transition, table, choice)?;
    Ok(missed.is_none())
}
