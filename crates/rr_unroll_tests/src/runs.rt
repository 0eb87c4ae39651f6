//! The first row that a choice misses, and the states of its run.
use crate::tables::{UNKNOWN, bit, table};
use crate::transitions::{inverted_reset, inverted_reset_from};
use rr_trace::{Cell, Table};
use rr_transition::Transition;
use rr_unroll::{first_miss, state_before};
use std::alloc::{AllocError, Global};
use std::test::Fail;

const T: bool = true;

const F: bool = false;

const ZERO: Option<Cell> = Some(Cell { value: 0, known: 1 });

const ONE: Option<Cell> = Some(Cell { value: 1, known: 1 });

const NOT_ASKED: Option<Cell> = Some(UNKNOWN);

/// What is expected of a register that toggles from 0 on, row by row, where a row may have no cell; and
/// the first row that it misses.
const MISSES: [([Option<Cell>; 3], Option<usize>); 7] = [
    ([ONE, ONE, ZERO], Some(0)),
    ([ZERO, ZERO, ONE], Some(1)),
    ([ZERO, ONE, ONE], Some(2)),
    ([ZERO, ONE, ZERO], None),
    ([NOT_ASKED, NOT_ASKED, ONE], Some(2)),
    ([None, ONE, ONE], Some(2)),
    ([ZERO, None, None], None),
];

/// A table of these cells, in each row of which the register toggles.
fn toggled(alloc: Global, cells: &[Option<Cell>]) -> Result<Table, AllocError> {
    let mut inputs = Vec::new(alloc);
    let mut expected = Vec::new(alloc);
    for cell in cells {
        inputs.push(vec![in alloc; 1]?)?;
        expected.push(match cell {
            Some(cell) => vec![in alloc; *cell]?,
            None => Vec::new(alloc),
        })?;
    }
    Ok(Table { inputs, expected })
}

/// The first row that the choice misses.
fn missed(
    alloc: Global,
    transition: &Transition,
    table: &Table,
    bits: &[bool],
) -> Result<Option<usize>, Fail> {
    if bits.len() != transition.choice_bits as usize {
        return Err(Fail::from("another number of bits"));
    }
    Ok(first_miss(alloc, transition, table, bits)?)
}

#[test]
fn the_first_miss_is_found(rt: HostRuntime) -> Result<(), Fail> {
    let alloc = rt.alloc();
    let transition = inverted_reset(alloc)?;
    for (number, (cells, row)) in MISSES.iter().enumerate() {
        let rows = toggled(alloc, cells)?;
        assert!(rt;
            missed(alloc, &transition, &rows, &[F, F, F])? == *row,
            "{number}"
        );
    }
    Ok(())
}

/// The state before a row of the choice's run.
fn reached(
    alloc: Global,
    transition: &Transition,
    table: &Table,
    bits: &[bool],
    row: usize,
) -> Result<Vec<bool>, Fail> {
    if bits.len() != transition.choice_bits as usize {
        return Err(Fail::from("another number of bits"));
    }
    Ok(state_before(alloc, transition, table, bits, row)?)
}

/// The bits of a choice, a row, and the register before it, which begins with 1, toggles in the first row,
/// is set to the literal in the second and toggles in the third and last.
const STATES: [([bool; 3], usize, bool); 9] = [
    ([F, F, F], 0, T),
    ([F, F, F], 1, F),
    ([F, F, F], 2, F),
    ([F, F, F], 3, T),
    ([F, F, F], 9, T),
    ([F, T, T], 0, T),
    ([F, T, T], 2, T),
    ([F, T, T], 3, F),
    ([F, T, T], 9, F),
];

#[test]
fn the_state_before_a_row_is_found(rt: HostRuntime) -> Result<(), Fail> {
    let alloc = rt.alloc();
    let transition = inverted_reset_from(alloc, true)?;
    let rows = table(alloc, &[(1, bit(0)), (0, bit(0)), (1, bit(0))])?;
    for (number, (bits, row, register)) in STATES.iter().enumerate() {
        let state = reached(alloc, &transition, &rows, bits, *row)?;
        assert!(rt; state.as_slice() == [*register].as_slice(), "{number}");
    }
    Ok(())
}
