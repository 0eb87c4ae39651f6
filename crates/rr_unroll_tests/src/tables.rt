//! Small tables.
use rr_trace::{Cell, Table};
use std::alloc::{AllocError, Global};

/// A table of one input and one output in each row.
pub(crate) fn table(alloc: Global, rows: &[(u128, Cell)]) -> Result<Table, AllocError> {
    let mut inputs = Vec::new(alloc);
    let mut expected = Vec::new(alloc);
    for (input, cell) in rows {
        inputs.push(vec![in alloc; *input]?)?;
        expected.push(vec![in alloc; *cell]?)?;
    }
    Ok(Table { inputs, expected })
}

/// A cell of one bit, which is known.
pub(crate) fn bit(value: u128) -> Cell {
    Cell { value, known: 1 }
}

/// A cell of which nothing is known.
pub(crate) const UNKNOWN: Cell = Cell { value: 0, known: 0 };
