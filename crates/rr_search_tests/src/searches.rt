//! Searches over two circuits of one cycle.
//!
//! The first is that of `always @(posedge clk) q <= 1'b0; assign o = q ^ 1'b0;`, whose two literals are
//! its sites: the inputs of its circuit are a switch and a value of each, `q`, and an input that serves
//! nothing.
//!
//! The second has three literals of one bit, 0 each, a register that stays, and inputs i0, i1, i2 in one
//! word; its output is 1 where some literal differs from its input.

ghost use Rattle.std.specs.Prelude.{◌≡◌, ◌≤◌, ◌∷◌, [], IfOk};
ghost use Rattle.rr_choice.specs.View.{plain_site};
ghost use Rattle.rr_search_tests.specs.Literals.{bit_at};

use rr_choice::{SiteList, are_listed};
use rr_circuit::read_aag;
use rr_search::{Answer, Job, least};
use rr_syntax::{Site, SiteKind};
use rr_trace::{Cell, Table};
use rr_transition::Transition;
use std::alloc::{AllocError, Global};
use std::test::Fail;
use std::thread::Threads;

/// A literal of one bit.
fn literal<'a>(token: u32) -> Site<'a>
    ensures { plain_site result ≡ bit_at token }
{
    Site {
        kind: SiteKind::Literal {
            width: 1,
            signed: false,
        },
        token,
    }
}

/// A table of one input and one output of one bit, each row known.
fn table_of(alloc: Global, inputs: &[u128], outputs: &[u128]) -> Result<Table, AllocError> {
    let mut table = Table {
        inputs: Vec::new(alloc),
        expected: Vec::new(alloc),
    };
    for input in inputs {
        table.inputs.push(vec![in alloc; *input]?)?;
    }
    for output in outputs {
        let cell = Cell {
            value: *output,
            known: 1,
        };
        table.expected.push(vec![in alloc; cell]?)?;
    }
    Ok(table)
}

/// The table where the output of the first circuit is to be these bits, cycle by cycle.
fn outputs_of(alloc: Global, outputs: &[u128]) -> Result<Table, AllocError> {
    let inputs = vec![in alloc; 0; outputs.len()]?;
    table_of(alloc, inputs.as_slice(), outputs)
}

const TWO_LITERALS: &[u8] =
    b"aag 11 6 0 2 5\n2\n4\n6\n8\n10\n12\n14\n23\n14 4 2\n16 8 6\n18 17 10\n20 16 11\n22 21 19\n";

/// The answer for the first circuit, whose sites are two literals, and a table.
fn searched_two<R: Threads + Sync>(
    rt: &R,
    alloc: Global,
    list: &SiteList,
    table: &Table,
    members: u32,
) -> Result<Option<Answer>, Fail>
    requires list { list.now ≡ bit_at 0 ∷ bit_at 1 ∷ [] }
    requires some { 1 ≤ members }
    requires most { members ≤ 8 }
{
    let circuit = read_aag(alloc, TWO_LITERALS)?;
    if circuit.inputs != 6 || circuit.outputs.len() != 2 {
        return Ok(None);
    }
    let switches = vec![in alloc; 0, 2]?;
    let transition = Transition {
        circuit,
        choice_bits: 4,
        state_bits: 1,
        input_bits: 1,
        start: vec![in alloc; false]?,
        switches,
        input_widths: vec![in alloc; 1]?,
        output_widths: vec![in alloc; 1]?,
    };
    let job = Job {
        list,
        transition: &transition,
        table,
        budget: 100,
        members,
    };
    let answer = least(rt, alloc, &job, &[])?;
    Ok(Some(answer))
}

/// The two literals of the first circuit.
fn two_sites<'a>(alloc: Global) -> Result<SiteList<'a>, Fail>
    ensures { IfOk result (λ l. l ≡ bit_at 0 ∷ bit_at 1 ∷ []) }
{
    let mut sites = Vec::new(alloc);
    sites.push(literal(0))?;
    sites.push(literal(1))?;
    if !are_listed(sites.as_slice()) {
        return Err(Fail::from("no list"));
    }
    Ok(SiteList::new(sites))
}

/// The answer for the first circuit and a table.
fn of_two<R: Threads + Sync>(
    rt: &R,
    alloc: Global,
    table: &Table,
    members: u32,
) -> Result<Option<Answer>, Fail>
    requires some { 1 ≤ members }
    requires most { members ≤ 8 }
{
    match two_sites(alloc) {
        Ok(list) => searched_two(rt, alloc, &list, table, members),
        Err(error) => Err(error),
    }
}

/// The number of changes: 0 where nothing is to be changed, none where no changes mend.
fn changes(answer: &Option<Answer>) -> Option<u32> {
    match answer {
        Some(Answer::Unchanged) => Some(0),
        Some(Answer::Repair { k, .. }) => Some(*k),
        _ => None,
    }
}

/// The number of changes of the first circuit.
fn fewest<R: Threads + Sync>(
    rt: &R,
    alloc: Global,
    outputs: &[u128],
    members: u32,
) -> Result<Option<u32>, Fail>
    requires some { 1 ≤ members }
    requires most { members ≤ 8 }
{
    let table = outputs_of(alloc, outputs)?;
    let answer = of_two(rt, alloc, &table, members)?;
    Ok(changes(&answer))
}

#[test]
fn nothing_is_to_be_changed(rt: HostRuntime) -> Result<(), Fail> {
    let alloc = rt.alloc();
    assert!(rt; fewest(&rt, alloc, &[0, 0], 1)? == Some(0));
    assert!(rt; fewest(&rt, alloc, &[], 2)? == Some(0));
    Ok(())
}

#[test]
fn fewest_changes_of_two(rt: HostRuntime) -> Result<(), Fail> {
    let alloc = rt.alloc();
    assert!(rt; fewest(&rt, alloc, &[0, 1], 1)? == Some(1));
    assert!(rt; fewest(&rt, alloc, &[0, 1], 2)? == Some(1));
    assert!(rt; fewest(&rt, alloc, &[0, 1], 4)? == Some(1));
    assert!(rt; fewest(&rt, alloc, &[1, 0], 1)? == Some(2));
    assert!(rt; fewest(&rt, alloc, &[1, 0], 2)? == Some(2));
    assert!(rt; fewest(&rt, alloc, &[1, 0], 4)? == Some(2));
    Ok(())
}

/// Whether the first literal alone is changed.
fn is_first(answer: &Option<Answer>) -> bool {
    match answer {
        Some(Answer::Repair { choice, .. }) => {
            let picks = choice.picks.as_slice();
            picks.len() == 2 && picks[0].on && picks[0].value == 1 && !picks[1].on
        }
        _ => false,
    }
}

#[test]
fn the_changed_literal(rt: HostRuntime) -> Result<(), Fail> {
    let table = outputs_of(rt.alloc(), &[0, 1, 1])?;
    let answer = of_two(&rt, rt.alloc(), &table, 1)?;
    assert!(rt; is_first(&answer));
    Ok(())
}

/// Whether no change mends.
fn is_beyond(answer: &Option<Answer>) -> bool {
    matches!(answer, Some(Answer::NoRepair { .. }))
}

#[test]
fn no_change_mends(rt: HostRuntime) -> Result<(), Fail> {
    let table = outputs_of(rt.alloc(), &[0, 1, 0])?;
    let answer = of_two(&rt, rt.alloc(), &table, 2)?;
    assert!(rt; is_beyond(&answer));
    Ok(())
}

const THREE_LITERALS: &[u8] =
    b"aag 24 10 0 2 14\n2\n4\n6\n8\n10\n12\n14\n16\n18\n20\n14\n49\n22 4 2\n24 8 6\n26 12 10\n28 22 17\n30 23 16\n32 31 29\n34 24 19\n36 25 18\n38 37 35\n40 26 21\n42 27 20\n44 43 41\n46 38 32\n48 46 44\n";

/// The answer for the second circuit, whose sites are three literals, and a table.
fn searched_three<R: Threads + Sync>(
    rt: &R,
    alloc: Global,
    list: &SiteList,
    table: &Table,
    budget: u32,
    members: u32,
) -> Result<Option<Answer>, Fail>
    requires list { list.now ≡ bit_at 0 ∷ bit_at 1 ∷ bit_at 2 ∷ [] }
    requires budget { 1 ≤ budget }
    requires some { 1 ≤ members }
    requires most { members ≤ 8 }
{
    let circuit = read_aag(alloc, THREE_LITERALS)?;
    if circuit.inputs != 10 || circuit.outputs.len() != 2 {
        return Ok(None);
    }
    let switches = vec![in alloc; 0, 2, 4]?;
    let transition = Transition {
        circuit,
        choice_bits: 6,
        state_bits: 1,
        input_bits: 3,
        start: vec![in alloc; false]?,
        switches,
        input_widths: vec![in alloc; 3]?,
        output_widths: vec![in alloc; 1]?,
    };
    let job = Job {
        list,
        transition: &transition,
        table,
        budget,
        members,
    };
    let answer = least(rt, alloc, &job, &[])?;
    Ok(Some(answer))
}

/// The three literals of the second circuit.
fn three_sites<'a>(alloc: Global) -> Result<SiteList<'a>, Fail>
    ensures { IfOk result (λ l. l ≡ bit_at 0 ∷ bit_at 1 ∷ bit_at 2 ∷ []) }
{
    let mut sites = Vec::new(alloc);
    sites.push(literal(0))?;
    sites.push(literal(1))?;
    sites.push(literal(2))?;
    if !are_listed(sites.as_slice()) {
        return Err(Fail::from("no list"));
    }
    Ok(SiteList::new(sites))
}

/// The answer for the second circuit and a table.
fn of_three<R: Threads + Sync>(
    rt: &R,
    alloc: Global,
    table: &Table,
    budget: u32,
    members: u32,
) -> Result<Option<Answer>, Fail>
    requires budget { 1 ≤ budget }
    requires some { 1 ≤ members }
    requires most { members ≤ 8 }
{
    match three_sites(alloc) {
        Ok(list) => searched_three(rt, alloc, &list, table, budget, members),
        Err(error) => Err(error),
    }
}

/// The table where the output of the second circuit is to be 1 for all eight inputs, which it never is.
fn always_one(alloc: Global) -> Result<Table, AllocError> {
    table_of(alloc, &[0, 1, 2, 3, 4, 5, 6, 7], &[1; 8])
}

/// The number of lines where the question for three changes is left open, and nothing was found.
fn lines_left(answer: &Option<Answer>) -> Option<usize> {
    match answer {
        Some(
            Answer::Spent {
                bound: 3,
                journal,
                found: None,
                ..
            },
        ) => Some(journal.lines().len()),
        _ => None,
    }
}

/// The same of the second circuit and a table.
fn lines_of<R: Threads + Sync>(
    rt: &R,
    alloc: Global,
    table: &Table,
    budget: u32,
    members: u32,
) -> Result<Option<usize>, Fail>
    requires budget { 1 ≤ budget }
    requires some { 1 ≤ members }
    requires most { members ≤ 8 }
{
    let answer = of_three(rt, alloc, table, budget, members)?;
    Ok(lines_left(&answer))
}

#[test]
fn a_spent_budget(rt: HostRuntime) -> Result<(), Fail> {
    let table = always_one(rt.alloc())?;
    assert!(rt; lines_of(&rt, rt.alloc(), &table, 1, 1)? == Some(1));
    assert!(rt; lines_of(&rt, rt.alloc(), &table, 1, 2)? == Some(2));
    assert!(rt; lines_of(&rt, rt.alloc(), &table, 1, 4)? == Some(4));
    Ok(())
}

/// The table where the output of the second circuit is to be 1 for the inputs with at most one 1, so that
/// at least two literals are to be changed.
fn two_of_three(alloc: Global) -> Result<Table, AllocError> {
    table_of(alloc, &[0, 1, 2, 4], &[1; 4])
}

/// The bound that is left open, and the number of changes that were found to mend.
fn found_above(answer: &Option<Answer>) -> Option<(u32, usize)> {
    match answer {
        Some(
            Answer::Spent {
                bound,
                found: Some(choice),
                ..
            },
        ) => {
            let changes = choice.picks.iter().filter(|pick| pick.on).count();
            Some((*bound, changes))
        }
        _ => None,
    }
}

/// The same of the second circuit and a table.
fn found_of<R: Threads + Sync>(
    rt: &R,
    alloc: Global,
    table: &Table,
    budget: u32,
    members: u32,
) -> Result<Option<(u32, usize)>, Fail>
    requires budget { 1 ≤ budget }
    requires some { 1 ≤ members }
    requires most { members ≤ 8 }
{
    let answer = of_three(rt, alloc, table, budget, members)?;
    Ok(found_above(&answer))
}

/// The number of changes of the second circuit.
fn changes_of<R: Threads + Sync>(
    rt: &R,
    alloc: Global,
    table: &Table,
    budget: u32,
    members: u32,
) -> Result<Option<u32>, Fail>
    requires budget { 1 ≤ budget }
    requires some { 1 ≤ members }
    requires most { members ≤ 8 }
{
    let answer = of_three(rt, alloc, table, budget, members)?;
    Ok(changes(&answer))
}

// One line is too few for the question of three changes, two lines settle it and not that of one change,
// and ten lines settle both.
#[test]
fn what_is_found_goes_with_a_spent_budget(rt: HostRuntime) -> Result<(), Fail> {
    let table = two_of_three(rt.alloc())?;
    assert!(rt; lines_of(&rt, rt.alloc(), &table, 1, 1)? == Some(1));
    assert!(rt; found_of(&rt, rt.alloc(), &table, 2, 1)? == Some((1, 2)));
    assert!(rt; changes_of(&rt, rt.alloc(), &table, 10, 1)? == Some(2));
    Ok(())
}

#[test]
fn a_budget_that_suffices(rt: HostRuntime) -> Result<(), Fail> {
    let table = always_one(rt.alloc())?;
    let answer = of_three(&rt, rt.alloc(), &table, 1000, 1)?;
    assert!(rt; is_beyond(&answer));
    Ok(())
}
