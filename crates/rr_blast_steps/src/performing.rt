//! The steps of an order on wires.
ghost use Rattle.std.specs.Prelude.{◌≡◌, ℕ, Bool, OnOk, All};
ghost use Rattle.rr_circuit.specs.Values.{Extends, AreWires};
ghost use Rattle.rr_flat.specs.Ordered.{IsStep};
ghost use Rattle.rr_flat.specs.View.{plain_flat};
ghost use Rattle.rr_cycle.specs.Performing.{act, performed};
ghost use Rattle.rr_blast_steps.specs.Designs.{signal_widths};
ghost use Rattle.rr_flat_instance.specs.Flats.{instance_flat};
ghost use Rattle.rr_blast_stmt.specs.Running.{IsMachine};
ghost use Rattle.rr_signal_wires.specs.Words.{carried};
ghost use Rattle.rr_blast_terms.specs.Choosing.{IsReady, picks_of};

use crate::steps::{drive, perform_block};
use crate::wiring::wire;
use rr_blast_stmt::Machine;
use rr_blast_terms::ChoiceWires;
use rr_circuit::Builder;
use rr_flat::{Flat, Step};
use std::alloc::{AllocError, Global};

/// Performs a step of the instance.
pub fn perform(
    alloc: Global,
    b: &mut Builder,
    flat: &Flat,
    step: Step,
    choice: &ChoiceWires,
    machine: &mut Machine,
) -> Result<(), AllocError>
    requires step { IsStep (plain_flat flat.now) step }
    requires choice { IsReady b.old choice.now }
    requires machine { IsMachine b.old (signal_widths flat.now.signals) machine.old }
    ensures extends { Extends b.old b.new }
    ensures machine { OnOk result (IsMachine b.new (signal_widths flat.now.signals) machine.new) }
    ensures env { OnOk result ((env : ℕ → Bool) → carried b.new env machine.new.now.items
        ≡ act (instance_flat choice.now.sites.now (picks_of b.old env choice.now) (plain_flat flat.now)) step (carried b.old env machine.old.now.items)) }
{
    match step {
        Step::Driver(k) => {
            let driver = &flat.drivers[k as usize];
            drive(alloc, b, flat, driver, choice, &mut machine.now)?;
            Ok(())
        }
        Step::Wire { driver, bit } => {
            let driver = &flat.drivers[driver as usize];
            wire(alloc, b, flat, driver, bit, choice, &mut machine.now)?;
            Ok(())
        }
        Step::Block(k) => {
            perform_block(alloc, b, flat, k, choice, machine)?;
            Ok(())
        }
    }
}

/// Performs the steps in order.
pub fn perform_all(
    alloc: Global,
    b: &mut Builder,
    flat: &Flat,
    steps: &[Step],
    choice: &ChoiceWires,
    machine: &mut Machine,
) -> Result<(), AllocError>
    requires steps { All (IsStep (plain_flat flat.now)) steps.now }
    requires choice { IsReady b.old choice.now }
    requires machine { IsMachine b.old (signal_widths flat.now.signals) machine.old }
    ensures extends { Extends b.old b.new }
    ensures machine { OnOk result (IsMachine b.new (signal_widths flat.now.signals) machine.new) }
    ensures env { OnOk result ((env : ℕ → Bool) → carried b.new env machine.new.now.items
        ≡ performed (instance_flat choice.now.sites.now (picks_of b.old env choice.now) (plain_flat flat.now)) steps.now (carried b.old env machine.old.now.items)) }
{
    for step in steps.iter() {
        perform(alloc, b, flat, *step, choice, machine)?;
    }
    Ok(())
}
