//! Questions, and whether one choice matches.
use crate::tables::{UNKNOWN, bit, table};
use crate::transitions::{inverted_reset, inverted_reset_from, values, wires};
use rr_circuit::{Circuit, write_aag};
use rr_trace::{Cell, Table};
use rr_transition::Transition;
use rr_unroll::{fixed, judges, question};
use std::alloc::{AllocError, Global};
use std::test::Fail;
use std::thread::Threads;

/// Whether the value may be used by several threads.
fn shared<T: Send + Sync>(_value: &T) -> bool {
    true
}

/// Whether the choice matches.
fn matches(
    alloc: Global,
    transition: &Transition,
    table: &Table,
    bits: &[bool],
) -> Result<bool, Fail> {
    if bits.len() != transition.choice_bits as usize {
        return Err(Fail::from("another number of bits"));
    }
    Ok(judges(alloc, transition, table, bits)?)
}

/// The rows `rst,q`: 1,0; 0,0; 0,1; 0,0; 1,1.
fn reset_rows(alloc: Global) -> Result<Table, AllocError> {
    table(
        alloc,
        &[
            (1, bit(0)),
            (0, bit(0)),
            (0, bit(1)),
            (0, bit(0)),
            (1, bit(1)),
        ],
    )
}

const T: bool = true;

const F: bool = false;

/// For each list of choice bits, read as a number with the lowest bit first: whether each row of
/// `reset_rows` is as expected, and the cost.
const VERDICTS: [([bool; 5], u32); 8] = [
    ([T, F, F, T, F], 0),
    ([T, T, T, T, T], 1),
    ([T, F, F, T, F], 1),
    ([T, T, T, T, T], 2),
    ([T, F, F, T, F], 0),
    ([T, T, T, T, T], 1),
    ([T, F, T, F, T], 1),
    ([T, F, F, F, F], 2),
];

#[test]
fn every_choice_is_judged(rt: HostRuntime) -> Result<(), Fail> {
    let alloc = rt.alloc();
    let transition = inverted_reset(alloc)?;
    let rows = reset_rows(alloc)?;
    for bound in 0..3 {
        let circuit = question(&rt, alloc, &transition, &rows, bound, 2)?;
        for (number, (verdicts, cost)) in VERDICTS.iter().enumerate() {
            let bits = [number & 1 == 1, number & 2 == 2, number & 4 == 4];
            let mut want = Vec::new(alloc);
            want.extend_from_slice(verdicts)?;
            want.push(*cost <= bound)?;
            assert!(rt; values(alloc, &circuit, &bits)? == want, "{number} {bound}");
        }
    }
    Ok(())
}

#[test]
fn one_choice_matches_where_each_row_does(rt: HostRuntime) -> Result<(), Fail> {
    let alloc = rt.alloc();
    let transition = inverted_reset(alloc)?;
    let rows = reset_rows(alloc)?;
    for (number, (verdicts, _)) in VERDICTS.iter().enumerate() {
        let bits = [number & 1 == 1, number & 2 == 2, number & 4 == 4];
        assert!(rt;
            matches(alloc, &transition, &rows, &bits)? == (*verdicts == [true; 5]),
            "{number}"
        );
    }
    assert!(rt; shared(&transition));
    Ok(())
}

/// Whether the choice of no bits matches, and the outputs of the question.
fn answers<R: Threads + Sync>(
    rt: &R,
    alloc: Global,
    table: &Table,
    bound: u32,
) -> Result<(bool, Vec<bool>), Fail> {
    let transition = wires(alloc)?;
    let circuit = question(rt, alloc, &transition, table, bound, 2)?;
    Ok((
        matches(alloc, &transition, table, &[])?,
        values(alloc, &circuit, &[])?,
    ))
}

// The cells `x`, none, and `0b1x01`.
#[test]
fn unknown_bits_ask_nothing(rt: HostRuntime) -> Result<(), Fail> {
    let alloc = rt.alloc();
    let last = Cell {
        value: 9,
        known: 11,
    };
    let right = table(alloc, &[(1, UNKNOWN), (2, UNKNOWN), (9, last)])?;
    let (all, outputs) = answers(&rt, alloc, &right, 0)?;
    assert!(rt; all && outputs.as_slice() == [T, T, T, T].as_slice());
    let other = Cell {
        value: 8,
        known: 11,
    };
    let wrong = table(alloc, &[(1, UNKNOWN), (2, UNKNOWN), (9, other)])?;
    let (all, outputs) = answers(&rt, alloc, &wrong, 0)?;
    assert!(rt; !all && outputs.as_slice() == [F, T, T, T].as_slice());
    Ok(())
}

#[test]
fn tables_without_rows_or_known_bits_ask_for_the_cost_alone(rt: HostRuntime) -> Result<(), Fail> {
    let alloc = rt.alloc();
    let transition = inverted_reset(alloc)?;
    for rows in [
        table(alloc, &[])?,
        table(alloc, &[(1, UNKNOWN), (0, UNKNOWN)])?,
    ] {
        let circuit = question(&rt, alloc, &transition, &rows, 1, 2)?;
        assert!(rt; values(alloc, &circuit, &[T, F, T])?.as_slice() == [T].as_slice());
        assert!(rt; values(alloc, &circuit, &[T, T, F])?.as_slice() == [F].as_slice());
        assert!(rt; matches(alloc, &transition, &rows, &[T, T, F])?);
    }
    Ok(())
}

// In the second row nothing is known, and yet the state moves.
#[test]
fn unknown_rows_move_the_state(rt: HostRuntime) -> Result<(), Fail> {
    let alloc = rt.alloc();
    let transition = inverted_reset(alloc)?;
    let rows = table(alloc, &[(1, bit(0)), (1, UNKNOWN), (1, bit(0))])?;
    let circuit = question(&rt, alloc, &transition, &rows, 0, 2)?;
    assert!(rt; values(alloc, &circuit, &[F, F, F])?.as_slice() == [T, T, T].as_slice());
    assert!(rt; matches(alloc, &transition, &rows, &[F, F, F])?);
    Ok(())
}

// The register toggles from 1 on.
#[test]
fn a_run_starts_with_the_starting_values(rt: HostRuntime) -> Result<(), Fail> {
    let alloc = rt.alloc();
    let transition = inverted_reset_from(alloc, true)?;
    let rows = table(alloc, &[(1, bit(1)), (1, bit(0)), (1, bit(1))])?;
    let circuit = question(&rt, alloc, &transition, &rows, 0, 2)?;
    assert!(rt; values(alloc, &circuit, &[F, F, F])?.as_slice() == [T, T, T, T].as_slice());
    assert!(rt; matches(alloc, &transition, &rows, &[F, F, F])?);
    assert!(rt; !matches(alloc, &inverted_reset(alloc)?, &rows, &[F, F, F])?);
    Ok(())
}

// The register toggles in each of them.
#[test]
fn many_rows_are_asked(rt: HostRuntime) -> Result<(), Fail> {
    let alloc = rt.alloc();
    let transition = inverted_reset(alloc)?;
    let mut rows = table(alloc, &[])?;
    for row in 0..65_536_u32 {
        rows.inputs.push(vec![in alloc; 1]?)?;
        rows.expected
            .push(vec![in alloc; bit(u128::from(row % 2))]?)?;
    }
    assert!(rt; matches(alloc, &transition, &rows, &[F, F, F])?);
    assert!(rt; !matches(alloc, &transition, &rows, &[T, F, F])?);
    let circuit = question(&rt, alloc, &transition, &rows, 0, 2)?;
    assert!(rt; circuit.outputs.len() == 65_537);
    let outputs = values(alloc, &circuit, &[F, F, F])?;
    assert!(rt; outputs.iter().all(|output| *output));
    Ok(())
}

#[test]
fn the_question_is_the_same_for_every_number_of_workers(rt: HostRuntime) -> Result<(), Fail> {
    let alloc = rt.alloc();
    let transition = inverted_reset(alloc)?;
    let rows = reset_rows(alloc)?;
    let alone = question(&rt, alloc, &transition, &rows, 1, 1)?;
    let text = write_aag(alloc, &alone)?;
    for workers in 2..9 {
        let circuit = question(&rt, alloc, &transition, &rows, 1, workers)?;
        assert!(rt; write_aag(alloc, &circuit)?.as_slice() == text.as_slice());
    }
    Ok(())
}

/// The circuit of the cycle in which the row's inputs have these bits.
fn row_fixed(alloc: Global, transition: &Transition, row: &[bool]) -> Result<Circuit, Fail> {
    if row.len() != transition.input_bits as usize {
        return Err(Fail::from("another number of bits"));
    }
    Ok(fixed(alloc, transition, row)?)
}

// The bits of the row are the outputs, whatever the choice.
#[test]
fn a_fixed_cycle_has_the_values_of_its_row(rt: HostRuntime) -> Result<(), Fail> {
    let alloc = rt.alloc();
    let transition = wires(alloc)?;
    let circuit = row_fixed(alloc, &transition, &[T, F, F, T])?;
    assert!(rt; circuit.gates.is_empty());
    assert!(rt; values(alloc, &circuit, &[])?.as_slice() == [T, F, F, T].as_slice());
    Ok(())
}

// Without the reset the literal is not needed: the next state is the negation, or, with the negated
// condition, the literal.
#[test]
fn a_fixed_cycle_has_no_gate_for_what_its_row_tells(rt: HostRuntime) -> Result<(), Fail> {
    let alloc = rt.alloc();
    let transition = inverted_reset(alloc)?;
    let circuit = row_fixed(alloc, &transition, &[F])?;
    assert!(rt; circuit.gates.len() < transition.circuit.gates.len());
    for number in 0..16u32 {
        let bits = [
            number & 1 == 1,
            number & 2 == 2,
            number & 4 == 4,
            number & 8 == 8,
        ];
        let all = [bits[0], bits[1], bits[2], bits[3], F];
        assert!(rt;
            values(alloc, &circuit, &bits)? == values(alloc, &transition.circuit, &all)?,
            "{number}"
        );
    }
    Ok(())
}
