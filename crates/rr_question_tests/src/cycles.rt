//! Cycles over every list of bits of a choice, of a state and of a row, against the settled outputs and the
//! next state of the printed instances.
ghost use Rattle.std.specs.Prelude.{◌≤◌, ℕ, List, Option, length};
ghost use Rattle.rr_syntax.specs.View.{plain_source};
ghost use Rattle.rr_lex.specs.Tokens.{lexemes};
ghost use Rattle.rr_flat.specs.Elaborated.{IsSound};
ghost use Rattle.rr_flat.specs.View.{plain_flat};
ghost use Rattle.rr_elaborate.specs.Designs.{IsText};
ghost use Rattle.rr_run.specs.Runs.{InOrder};

use crate::designs::{BLOCKING, BRANCH, INDEX, INSTANCES, INVERTED, TRANSMITTER, WILD};
use crate::instances::{bits_of, instance_text, transition_of};
use bumpalo::Bump;
use rr_choice::SiteList;
use rr_expr::{Bit, Env};
use rr_meaning::{settle, step};
use rr_registers::register_bits;
use rr_run::{LawfulDesign, lawful_design};
use rr_sites_command::design_sites;
use rr_transition::Transition;
use std::alloc::{AllocError, Global};
use std::test::Fail;

/// So many signals, all 0, but for the registers, which have these bits.
fn state_of(
    alloc: Global,
    signals: usize,
    registers: &[Bit],
    state: &[bool],
) -> Result<Env, AllocError> {
    let mut values = vec![in alloc; 0_u128; signals]?;
    for (register, bit) in registers.iter().zip(state.iter()) {
        if let Some(value) = values.get_mut(register.signal as usize) {
            if *bit && register.place < 128 {
                *value |= 1 << register.place;
            }
        }
    }
    Ok(Env { values })
}

/// Whether a bit of a signal is 1.
fn is_on(env: &Env, signal: u32, place: u32) -> bool {
    match env.values.get(signal as usize) {
        Some(value) => place < 128 && *value >> place & 1 == 1,
        None => false,
    }
}

/// The numbers of a row's inputs, by their bits, input after input.
fn row_of(alloc: Global, widths: &[u32], row: &[bool]) -> Result<Vec<u128>, AllocError> {
    let mut numbers = Vec::new(alloc);
    let mut bits = row.iter();
    for width in widths.iter() {
        let mut number: u128 = 0;
        for place in 0..*width {
            let bit = bits.next();
            if bit == Some(&true) && place < 128 {
                number |= 1 << place;
            }
        }
        numbers.push(number)?;
    }
    Ok(numbers)
}

/// The widths of a row's inputs.
fn widths_of(alloc: Global, design: &LawfulDesign<'_>) -> Result<Vec<u32>, AllocError> {
    let ids = design.flat.row_inputs(alloc, design.order.clock)?;
    let mut widths = Vec::new(alloc);
    for id in ids.iter() {
        widths.push(design.flat.signal_at(*id).width)?;
    }
    Ok(widths)
}

/// The settled environment of a state and a row, and the one after the clock edge.
fn both(
    alloc: Global,
    design: &LawfulDesign<'_>,
    state: &Env,
    row: &[u128],
) -> Result<Option<(Env, Env)>, AllocError>
    requires sound { IsSound (plain_flat design.now.flat) }
    requires ordered { (word : Option (List ℕ)) × InOrder design.now.flat design.now.order word }
{
    let ids = design.flat.row_inputs(alloc, design.order.clock)?;
    if row.len() != ids.len() || state.values.len() != design.flat.signals.len() {
        return Ok(None);
    }
    let settled = settle(alloc, &design.flat, &design.order, state, row)?;
    let next = step(alloc, &design.flat, &settled)?;
    Ok(Some((settled, next)))
}

/// The next bits of the registers, and then the settled bits of the outputs.
fn answers_of(
    alloc: Global,
    design: &LawfulDesign<'_>,
    registers: &[Bit],
    settled: &Env,
    next: &Env,
) -> Result<Vec<bool>, AllocError> {
    let mut bits = Vec::new(alloc);
    for register in registers.iter() {
        bits.push(is_on(next, register.signal, register.place))?;
    }
    for id in design.flat.outputs.iter() {
        for place in 0..design.flat.signal_at(*id).width {
            bits.push(is_on(settled, *id, place))?;
        }
    }
    Ok(bits)
}

/// Whether the bits of a cycle are those of an instance for a state and a row.
fn is_cycle(
    alloc: Global,
    design: &LawfulDesign<'_>,
    state: &[bool],
    row: &[bool],
    answers: &[bool],
) -> Result<bool, AllocError>
    requires sound { IsSound (plain_flat design.now.flat) }
    requires ordered { (word : Option (List ℕ)) × InOrder design.now.flat design.now.order word }
{
    let registers = register_bits(alloc, &design.flat)?;
    let count = design.flat.signals.len();
    let env = state_of(alloc, count, registers.as_slice(), state)?;
    let widths = widths_of(alloc, design)?;
    let numbers = row_of(alloc, widths.as_slice(), row)?;
    match both(alloc, design, &env, numbers.as_slice())? {
        None => Ok(false),
        Some((settled, next)) => {
            let due = answers_of(alloc, design, registers.as_slice(), &settled, &next)?;
            Ok(due.as_slice() == answers)
        }
    }
}

/// What a transition gives for the bits of a choice, a state and a row.
fn given(
    alloc: Global,
    cycle: &Transition,
    choice: &[bool],
    state: &[bool],
    row: &[bool],
) -> Result<Vec<bool>, Fail> {
    let mut bits = Vec::new(alloc);
    bits.extend_from_slice(choice)?;
    bits.extend_from_slice(state)?;
    bits.extend_from_slice(row)?;
    if cycle.circuit.inputs != bits.len() as u64 {
        return Err(Fail::from("another number of inputs"));
    }
    Ok(cycle.circuit.eval(alloc, bits.as_slice())?)
}

/// Whether a transition gives with these bits of a choice the cycles of an instance, for lists of bits of a
/// state and of a row.
fn has_cycles(
    alloc: Global,
    instance: &LawfulDesign<'_>,
    cycle: &Transition,
    choice: &[bool],
    lists: &[(Vec<bool>, Vec<bool>)],
) -> Result<bool, Fail>
    requires sound { IsSound (plain_flat instance.now.flat) }
    requires ordered { (word : Option (List ℕ)) × InOrder instance.now.flat instance.now.order word }
{
    for (state, row) in lists.iter() {
        let (state, row) = (state.as_slice(), row.as_slice());
        let answers = given(alloc, cycle, choice, state, row)?;
        if !is_cycle(alloc, instance, state, row, answers.as_slice())? {
            return Ok(false);
        }
    }
    Ok(true)
}

/// Whether a transition agrees with the printed instance of these bits of a choice, for lists of bits of a
/// state and of a row.
fn agrees_at(
    alloc: Global,
    bytes: &[u8],
    design: &LawfulDesign<'_>,
    list: &SiteList<'_>,
    cycle: &Transition,
    choice: &[bool],
    lists: &[(Vec<bool>, Vec<bool>)],
) -> Result<bool, Fail>
    requires small { length bytes.now ≤ 1048576 }
    requires text { IsText bytes.now (lexemes design.now.tokens.now) (plain_source design.now.source.now) }
    requires few { length list.now ≤ 1024 }
{
    let Some((_, text)) = instance_text(alloc, bytes, design, list, choice)? else {
        return Ok(false);
    };
    let arena = Bump::new(alloc);
    if text.len() > 1_048_576 {
        return Ok(false);
    }
    match lawful_design(alloc, text.as_slice(), None, None, &arena) {
        Ok(instance) => has_cycles(alloc, &instance, cycle, choice, lists),
        Err(_) => Ok(false),
    }
}

/// Every list of so many bits of a state and of a row.
fn all_lists(
    alloc: Global,
    states: u32,
    rows: u32,
) -> Result<Vec<(Vec<bool>, Vec<bool>)>, AllocError>
    requires states { states ≤ 8 }
    requires rows { rows ≤ 8 }
{
    let mut lists = Vec::new(alloc);
    for number in 0..1_u64 << (states + rows) {
        let state = bits_of(alloc, number, states)?;
        let row = bits_of(alloc, number >> states, rows)?;
        lists.push((state, row))?;
    }
    Ok(lists)
}

/// Whether a transition agrees with the printed instances for each list of bits.
fn each_agrees(
    alloc: Global,
    bytes: &[u8],
    design: &LawfulDesign<'_>,
    list: &SiteList<'_>,
    cycle: &Transition,
) -> Result<bool, Fail>
    requires small { length bytes.now ≤ 1048576 }
    requires text { IsText bytes.now (lexemes design.now.tokens.now) (plain_source design.now.source.now) }
    requires few { length list.now ≤ 1024 }
{
    let (choices, states, rows) = (cycle.choice_bits, cycle.state_bits, cycle.input_bits);
    if choices > 16 || states > 8 || rows > 8 {
        return Ok(false);
    }
    let lists = all_lists(alloc, states, rows)?;
    for number in 0..1_u64 << choices {
        let choice = bits_of(alloc, number, choices)?;
        let (bits, lists) = (choice.as_slice(), lists.as_slice());
        if !agrees_at(alloc, bytes, design, list, cycle, bits, lists)? {
            return Ok(false);
        }
    }
    Ok(true)
}

/// So many bits, and the state of the generator after them (the multiplier of PCG).
fn drawn(alloc: Global, seed: u64, count: u32) -> Result<(Vec<bool>, u64), AllocError> {
    let mut bits = Vec::new(alloc);
    let mut state = seed;
    for _ in 0..count {
        state = state.wrapping_mul(6364136223846793005).wrapping_add(1);
        bits.push(state >> 63 == 1)?;
    }
    Ok((bits, state))
}

/// Whether a transition agrees with the printed instances for 200 lists of bits, drawn from the seed 1.
fn some_agree(
    alloc: Global,
    bytes: &[u8],
    design: &LawfulDesign<'_>,
    list: &SiteList<'_>,
    cycle: &Transition,
) -> Result<bool, Fail>
    requires small { length bytes.now ≤ 1048576 }
    requires text { IsText bytes.now (lexemes design.now.tokens.now) (plain_source design.now.source.now) }
    requires few { length list.now ≤ 1024 }
{
    let mut seed: u64 = 1;
    for _ in 0..200 {
        let (choice, after_choice) = drawn(alloc, seed, cycle.choice_bits)?;
        let (state, after_state) = drawn(alloc, after_choice, cycle.state_bits)?;
        let (row, after_row) = drawn(alloc, after_state, cycle.input_bits)?;
        seed = after_row;
        let lists = vec![in alloc; (state, row)]?;
        let (bits, lists) = (choice.as_slice(), lists.as_slice());
        if !agrees_at(alloc, bytes, design, list, cycle, bits, lists)? {
            return Ok(false);
        }
    }
    Ok(true)
}

/// Whether the transition of a text with so many choice, state and input bits agrees with the printed
/// instances.
fn agrees(alloc: Global, text: &str, counts: (u32, u32, u32), whole: bool) -> Result<bool, Fail> {
    let bytes = text.as_bytes();
    if bytes.len() > 1_048_576 {
        return Err(Fail::from("a text too long"));
    }
    let arena = Bump::new(alloc);
    let Ok(design) = lawful_design(alloc, bytes, None, None, &arena) else {
        return Err(Fail::from("no design"));
    };
    let list = design_sites(alloc, &design, &arena)?;
    if list.sites().len() > 1024 {
        return Err(Fail::from("too many sites"));
    }
    let Some(cycle) = transition_of(alloc, &design, &list)? else {
        return Err(Fail::from("no transition"));
    };
    let agree = if whole {
        each_agrees(alloc, bytes, &design, &list, &cycle)?
    } else {
        some_agree(alloc, bytes, &design, &list, &cycle)?
    };
    let has = (cycle.choice_bits, cycle.state_bits, cycle.input_bits);
    if has != counts {
        return Err(Fail::from("another number of bits"));
    }
    Ok(agree)
}

#[test]
fn an_inverted_reset(rt: HostRuntime) -> Result<(), Fail> {
    assert!(rt; agrees(rt.alloc(), INVERTED, (12, 1, 1), true)?);
    Ok(())
}

#[test]
fn a_branch(rt: HostRuntime) -> Result<(), Fail> {
    assert!(rt; agrees(rt.alloc(), BRANCH, (12, 1, 1), true)?);
    Ok(())
}

#[test]
fn a_blocking_assignment(rt: HostRuntime) -> Result<(), Fail> {
    assert!(rt; agrees(rt.alloc(), BLOCKING, (12, 2, 1), true)?);
    Ok(())
}

#[test]
fn a_write_at_an_index(rt: HostRuntime) -> Result<(), Fail> {
    assert!(rt; agrees(rt.alloc(), INDEX, (8, 2, 2), true)?);
    Ok(())
}

#[test]
fn wires(rt: HostRuntime) -> Result<(), Fail> {
    assert!(rt; agrees(rt.alloc(), WILD, (4, 0, 2), true)?);
    assert!(rt; agrees(rt.alloc(), INSTANCES, (3, 0, 2), true)?);
    Ok(())
}

#[test]
fn a_transmitter(rt: HostRuntime) -> Result<(), Fail> {
    assert!(rt; agrees(rt.alloc(), TRANSMITTER, (216, 15, 10), false)?);
    Ok(())
}
