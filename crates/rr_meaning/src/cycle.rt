//! Settled environments, the clock edge, and runs.
ghost use Rattle.std.specs.Prelude.{◌≡◌, ◌<◌, ◌∷◌, ◌++◌, [], ℕ, All, IfOk, OnOk, cond, false, true, get_or, length, map, List};
ghost use Rattle.rr_bits.specs.Words.{word};
ghost use Rattle.rr_expr.specs.Scopes.{env_of};
ghost use Rattle.rr_expr.specs.declared.types.Bit.{Bit as FlatBit};
ghost use Rattle.rr_flat.specs.Signals.{signal_at};
ghost use Rattle.rr_flat.specs.Ordered.{IsStep};
ghost use Rattle.rr_flat.specs.View.{plain_flat};
ghost use Rattle.rr_cycle.specs.Cycles.{IsNext, Run, Settled, beginning as beginning_of, outputs_of};
ghost use Rattle.rr_flat.specs.Inputs.{row_inputs as inputs_but};
ghost use Rattle.rr_cycle.specs.Exec.{Environment, applied};
ghost use Rattle.rr_cycle.specs.Performing.{any_writes, performed, run_blocks, updates_of_blocks};
ghost use Rattle.rr_flat.specs.Elaborated.{IsSound};
ghost use Rattle.rr_cycle.specs.Designs.{IsInOrder, IsLawful};
ghost use Rattle.rr_meaning.specs.Calls.{IsRow};
ghost use Rattle.rr_exec.specs.Work.{IsLater, updates_in};
ghost use Rattle.rr_meaning.specs.Work.{NoneAbove, cut_to, given_over, inner_beginning, masked, row_items};

use crate::registers::register_masks;
use crate::starts::{copy_of, starts_inside, starts_of};
use crate::steps::{perform, signal_value};
use rr_bits::Bits;
use rr_exec::{Machine, apply, execute};
use rr_expr::Env;
use rr_flat::{Flat, Order, Step};
use rr_named_bits::no_values;
use std::alloc::{AllocError, Global};

/// A machine on an environment, with nothing that waits.
fn machine_on(alloc: Global, env: Env) -> Machine
    ensures env { result.env ≡ env }
    ensures later { result.later.items ≡ [] }
    ensures none { result.none.values.items ≡ [] }
{
    Machine {
        env,
        later: Vec::new(alloc),
        pieces: Vec::new(alloc),
        none: no_values(alloc),
    }
}

/// The bits of a value that a mask has, and all others of another one.
fn mixed(mask: u128, value: u128, other: u128) -> u128
    ensures { (p : ℕ) → get_or (word 128 result) p false ≡ cond (get_or (word 128 mask) p false) (get_or (word 128 value) p false) (get_or (word 128 other) p false) }
{
    value & mask | other & !mask
}

/// Each value keeps the bits of its mask alone, and has the others of another one.
fn mask(values: &mut Vec<u128>, masks: &[u128], others: &[u128])
    requires masks { length masks.now ≡ length values.old.items }
    requires others { length others.now ≡ length values.old.items }
    ensures env { env_of values.new.items ≡ masked masks.now others.now (env_of values.old.items) }
    ensures count { length values.new.items ≡ length values.old.items }
{
    for place in 0..values.len() {
        values[place] = mixed(masks[place], values[place], others[place]);
    }
}

/// A number without the bits above the width of a signal.
fn cut(flat: &Flat, id: u32, number: u128) -> u128
    requires { id < length flat.now.signals }
    ensures { result ≡ cut_to (plain_flat flat.now).signals id number }
{
    Bits::from_u128(flat.signals[id as usize].width, number).to_u128()
}

/// The inputs take the numbers of a row, each without the bits above its input's width; of two for one
/// signal the first counts.
fn give(flat: &Flat, values: &mut Vec<u128>, inputs: &[u32], row: &[u128])
    requires signals { length values.old.items ≡ length flat.now.signals }
    requires count { length row.now ≡ length inputs.now }
    requires inside { All (λ id. id < length flat.now.signals) inputs.now }
    ensures env { env_of values.new.items ≡ given_over (plain_flat flat.now).signals inputs.now row.now (env_of values.old.items) }
    ensures count { length values.new.items ≡ length values.old.items }
{
    let mut left = inputs.len();
    while left > 0 {
        left -= 1;
        let id = inputs[left];
        values[id as usize] = cut(flat, id, row[left]);
    }
}

/// Performs the steps in order.
fn perform_all(flat: &Flat, steps: &[Step], machine: &mut Machine) -> Result<(), AllocError>
    requires steps { All (IsStep (plain_flat flat.now)) steps.now }
    requires count { length machine.old.env.values.items ≡ length flat.now.signals }
    requires fits { All (IsLater (length flat.now.signals)) machine.old.later.items }
    requires none { machine.old.none.values.items ≡ [] }
    ensures env { OnOk result (env_of machine.new.env.values.items ≡ performed (plain_flat flat.now) steps.now (env_of machine.old.env.values.items)) }
    ensures count { OnOk result (length machine.new.env.values.items ≡ length flat.now.signals) }
    ensures fits { OnOk result (All (IsLater (length flat.now.signals)) machine.new.later.items) }
    ensures none { OnOk result (machine.new.none ≡ machine.old.none) }
{
    for step in steps.iter() {
        perform(flat, *step, machine)?;
    }
    Ok(())
}

/// Runs the clocked blocks one after the other: in a lawful design none reads what another writes at once.
fn run_all(flat: &Flat, machine: &mut Machine) -> Result<(), AllocError>
    requires count { length machine.old.env.values.items ≡ length flat.now.signals }
    requires fits { All (IsLater (length flat.now.signals)) machine.old.later.items }
    ensures env { OnOk result (env_of machine.new.env.values.items ≡ run_blocks (plain_flat flat.now) (plain_flat flat.now).clocked (env_of machine.old.env.values.items)) }
    ensures later { OnOk result ((e : Environment) → applied (updates_in machine.new.later.items) e ≡ applied (updates_of_blocks (plain_flat flat.now) (plain_flat flat.now).clocked (env_of machine.old.env.values.items)) (applied (updates_in machine.old.later.items) e)) }
    ensures count { OnOk result (length machine.new.env.values.items ≡ length flat.now.signals) }
    ensures fits { OnOk result (All (IsLater (length flat.now.signals)) machine.new.later.items) }
    ensures none { OnOk result (machine.new.none ≡ machine.old.none) }
{
    for block in flat.clocked.iter() {
        execute(block.body, &flat.scopes[block.scope as usize], machine)?;
    }
    Ok(())
}

/// The clock edge on settled values.
fn edge(flat: &Flat, machine: &mut Machine) -> Result<(), AllocError>
    requires sound { IsSound (plain_flat flat.now) }
    requires lawful { IsLawful (plain_flat flat.now) }
    requires count { length machine.old.env.values.items ≡ length flat.now.signals }
    ensures next { OnOk result (IsNext (plain_flat flat.now) (env_of machine.old.env.values.items) (env_of machine.new.env.values.items)) }
    ensures count { OnOk result (length machine.new.env.values.items ≡ length flat.now.signals) }
    ensures none { OnOk result (machine.new.none ≡ machine.old.none) }
{
    machine.later.clear();
    run_all(flat, machine)?;
    apply(&mut machine.env.values, machine.later.as_slice());
    Ok(())
}

/// What stays the same in a run: the inputs of a row, the bits of registers, and what the signals
/// inside begin with.
#[derive(Drop)]
struct Plan {
    inputs: Vec<u32>,
    registers: Vec<u128>,
    starts: Vec<u128>,
}

fn prepare(alloc: Global, flat: &Flat, clock: Option<u32>) -> Result<Plan, AllocError>
    ensures inputs { IfOk result (λ r. r.inputs.items ≡ inputs_but clock flat.now.inputs) }
    ensures inside { IfOk result (λ r. All (λ id. id < length flat.now.signals) r.inputs.items) }
    ensures registers { IfOk result (λ r. (b : FlatBit) → env_of r.registers.items b ≡ any_writes (plain_flat flat.now) (plain_flat flat.now).clocked b) }
    ensures count { IfOk result (λ r. length r.registers.items ≡ length flat.now.signals) }
    ensures narrow { IfOk result (λ r. (b : FlatBit) → env_of r.registers.items b ≡ true → b.place < (signal_at (plain_flat flat.now).signals b.signal).width) }
    ensures starts { IfOk result (λ r. env_of r.starts.items ≡ inner_beginning (plain_flat flat.now)) }
    ensures starts_count { IfOk result (λ r. length r.starts.items ≡ length flat.now.signals) }
    ensures above { OnOk result (NoneAbove (plain_flat flat.now)) }
{
    let inputs = flat.row_inputs(alloc, clock)?;
    let registers = register_masks(alloc, flat)?;
    let starts = starts_inside(alloc, flat)?;
    Ok(Plan {
        inputs,
        registers,
        starts,
    })
}

/// Settles a state with a row of inputs.
fn settle_in(
    flat: &Flat,
    order: &Order,
    plan: &Plan,
    row: &[u128],
    machine: &mut Machine,
) -> Result<(), AllocError>
    requires sound { IsSound (plain_flat flat.now) }
    requires ordered { IsInOrder (plain_flat flat.now) order.now.clock order.now.rising order.now.steps.items }
    requires row { IsRow (plain_flat flat.now) order.now.clock row.now }
    requires inputs { plan.now.inputs.items ≡ inputs_but order.now.clock flat.now.inputs }
    requires inside { All (λ id. id < length flat.now.signals) plan.now.inputs.items }
    requires registers { (b : FlatBit) → env_of plan.now.registers.items b ≡ any_writes (plain_flat flat.now) (plain_flat flat.now).clocked b }
    requires narrow { (b : FlatBit) → env_of plan.now.registers.items b ≡ true → b.place < (signal_at (plain_flat flat.now).signals b.signal).width }
    requires masks { length plan.now.registers.items ≡ length flat.now.signals }
    requires starts { env_of plan.now.starts.items ≡ inner_beginning (plain_flat flat.now) }
    requires starts_count { length plan.now.starts.items ≡ length flat.now.signals }
    requires above { NoneAbove (plain_flat flat.now) }
    requires count { length machine.old.env.values.items ≡ length flat.now.signals }
    requires none { machine.old.none.values.items ≡ [] }
    ensures settled { OnOk result (Settled (plain_flat flat.now) order.now.clock (env_of machine.old.env.values.items) row.now (env_of machine.new.env.values.items)) }
    ensures count { OnOk result (length machine.new.env.values.items ≡ length flat.now.signals) }
    ensures none { OnOk result (machine.new.none ≡ machine.old.none) }
{
    machine.later.clear();
    mask(
        &mut machine.env.values,
        plan.registers.as_slice(),
        plan.starts.as_slice(),
    );
    give(flat, &mut machine.env.values, plan.inputs.as_slice(), row);
    perform_all(flat, order.steps.as_slice(), machine)
}

fn copied(alloc: Global, env: &Env) -> Result<Env, AllocError>
    ensures { IfOk result (λ r. r.values.items ≡ env.now.values.items) }
{
    let values = copy_of(alloc, env.values.as_slice())?;
    Ok(Env { values })
}

/// The values that the signals begin with.
fn beginning(alloc: Global, flat: &Flat) -> Result<Env, AllocError>
    ensures env { IfOk result (λ r. env_of r.values.items ≡ beginning_of (plain_flat flat.now)) }
    ensures count { IfOk result (λ r. length r.values.items ≡ length flat.now.signals) }
{
    let values = starts_of(alloc, flat)?;
    Ok(Env { values })
}

/// The one settled environment of a state and a row of inputs: registers have their values in the
/// state, the inputs of the top but the clock those of the row, in port order, and the clock is 0; each
/// driver's equation holds, each combinational block leaves what it would write as it is, and each
/// other bit has its starting value. The design is the flat design of a source and lawful, the order is
/// one of its steps; the state has one value per signal. An error says that memory ran out.
pub fn settle(
    alloc: Global,
    flat: &Flat,
    order: &Order,
    state: &Env,
    inputs: &[u128],
) -> Result<Env, AllocError>
    requires sound { IsSound (plain_flat flat.now) }
    requires ordered { IsInOrder (plain_flat flat.now) order.now.clock order.now.rising order.now.steps.items }
    requires state { length state.now.values.items ≡ length flat.now.signals }
    requires row { IsRow (plain_flat flat.now) order.now.clock inputs.now }
    ensures settled { IfOk result (λ r. Settled (plain_flat flat.now) order.now.clock (env_of state.now.values.items) inputs.now (env_of r.values.items)) }
    ensures only { IfOk result (λ r. (e : Environment) → Settled (plain_flat flat.now) order.now.clock (env_of state.now.values.items) inputs.now e → e ≡ env_of r.values.items) }
    ensures count { IfOk result (λ r. length r.values.items ≡ length flat.now.signals) }
{
    let plan = prepare(alloc, flat, order.clock)?;
    let mut machine = machine_on(alloc, copied(alloc, state)?);
    settle_in(flat, order, &plan, inputs, &mut machine)?;
    let Machine { env, .. } = machine;
    Ok(env)
}

/// The state after the clock edge of a settled environment: each clocked block begins from it, a bit
/// that a block writes by `=` takes that block's final value, and then the updates of `<=` are applied
/// in the order of the blocks. The design is the flat design of a source and lawful. An error says that
/// memory ran out.
pub fn step(alloc: Global, flat: &Flat, env: &Env) -> Result<Env, AllocError>
    requires sound { IsSound (plain_flat flat.now) }
    requires lawful { IsLawful (plain_flat flat.now) }
    requires env { length env.now.values.items ≡ length flat.now.signals }
    ensures next { IfOk result (λ r. IsNext (plain_flat flat.now) (env_of env.now.values.items) (env_of r.values.items)) }
    ensures only { IfOk result (λ r. (e : Environment) → IsNext (plain_flat flat.now) (env_of env.now.values.items) e → e ≡ env_of r.values.items) }
    ensures count { IfOk result (λ r. length r.values.items ≡ length flat.now.signals) }
{
    let mut machine = machine_on(alloc, copied(alloc, env)?);
    edge(flat, &mut machine)?;
    let Machine { env, .. } = machine;
    Ok(env)
}

/// The numbers of the outputs, in port order.
fn outputs(alloc: Global, flat: &Flat, env: &Env) -> Result<Vec<u128>, AllocError>
    ensures { IfOk result (λ r. r.items ≡ outputs_of (plain_flat flat.now) (env_of env.now.values.items)) }
{
    let mut row = Vec::new(alloc);
    for id in flat.outputs.iter() {
        push_value(&mut row, signal_value(flat, *id, env).to_u128())?;
    }
    Ok(row)
}

fn push_value(list: &mut Vec<u128>, value: u128) -> Result<(), AllocError>
    ensures { OnOk result (list.new.items ≡ list.old.items ++ value ∷ []) }
{
    list.push(value)?;
    Ok(())
}

fn push_row(list: &mut Vec<Vec<u128>>, row: Vec<u128>) -> Result<(), AllocError>
    ensures { OnOk result (list.new.items ≡ list.old.items ++ row ∷ []) }
{
    list.push(row).map_err(AllocError::from)?;
    Ok(())
}

/// Per row of inputs the numbers of the outputs, in port order, of the run from the starting values.
/// The conditions are those of [`settle`]. An error says that memory ran out.
pub fn run_table(
    alloc: Global,
    flat: &Flat,
    order: &Order,
    inputs: &[Vec<u128>],
) -> Result<Vec<Vec<u128>>, AllocError>
    requires sound { IsSound (plain_flat flat.now) }
    requires ordered { IsInOrder (plain_flat flat.now) order.now.clock order.now.rising order.now.steps.items }
    requires rows { All (λ row. IsRow (plain_flat flat.now) order.now.clock row.items) inputs.now }
    ensures run { IfOk result (λ r. Run (plain_flat flat.now) order.now.clock (map row_items inputs.now) (map row_items r.items)) }
    ensures only { IfOk result (λ r. (outputs : List (List ℕ)) → Run (plain_flat flat.now) order.now.clock (map row_items inputs.now) outputs → outputs ≡ map row_items r.items) }
{
    let plan = prepare(alloc, flat, order.clock)?;
    let mut machine = machine_on(alloc, beginning(alloc, flat)?);
    let mut table = Vec::new(alloc);
    for row in inputs.iter() {
        settle_in(flat, order, &plan, row.as_slice(), &mut machine)?;
        let row = outputs(alloc, flat, &machine.env)?;
        push_row(&mut table, row)?;
        edge(flat, &mut machine)?;
    }
    Ok(table)
}
