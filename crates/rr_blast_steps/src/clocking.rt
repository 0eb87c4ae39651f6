//! The clock edge on wires.
ghost use Rattle.std.specs.Prelude.{◌≡◌, ◌++◌, ◌∷◌, [], ℕ, Bool, IfOk, OnOk};
ghost use Rattle.rr_circuit.specs.Values.{Extends, Netlist, AreWires};
ghost use Rattle.rr_flat.specs.View.{plain_flat};
ghost use Rattle.rr_blast_steps.specs.Designs.{ran_blocks, signal_widths};
ghost use Rattle.rr_flat_instance.specs.Flats.{instance_flat};
ghost use Rattle.rr_blast_stmt.specs.Running.{IsMachine, held};
ghost use Rattle.rr_cycle.specs.Performing.{next_after};
ghost use Rattle.rr_signal_wires.specs.Words.{AreWords, carried, widths_of};
ghost use Rattle.rr_blast_terms.specs.Choosing.{IsReady, picks_of};

use crate::steps::run_clocked;
use rr_blast_stmt::Machine;
use rr_blast_terms::ChoiceWires;
use rr_circuit::{Builder, Wire};
use rr_flat::Flat;
use std::alloc::{AllocError, Global};

fn copy_of(alloc: Global, word: &[Wire]) -> Result<Vec<Wire>, AllocError>
    ensures { IfOk result (λ r. r.items ≡ word.now) }
{
    let mut copy = Vec::new(alloc);
    for wire in word.iter() {
        copy.push(*wire)?;
    }
    Ok(copy)
}

fn push_word(words: &mut Vec<Vec<Wire>>, word: Vec<Wire>) -> Result<(), AllocError>
    ensures { OnOk result (words.new.items ≡ words.old.items ++ word ∷ []) }
{
    words.push(word).map_err(AllocError::from)?;
    Ok(())
}

/// The same wires again.
fn copied(alloc: Global, words: &[Vec<Wire>]) -> Result<Vec<Vec<Wire>>, AllocError>
    ensures wires { IfOk result (λ r. (n : Netlist) → AreWords n words.now → AreWords n r.items) }
    ensures value { IfOk result (λ r. (n : Netlist) (env : ℕ → Bool) → carried n env r.items ≡ carried n env words.now) }
    ensures widths { IfOk result (λ r. widths_of r.items ≡ widths_of words.now) }
{
    let mut copies = Vec::new(alloc);
    for word in words.iter() {
        let copy = copy_of(alloc, word.as_slice())?;
        push_word(&mut copies, copy)?;
    }
    Ok(copies)
}

/// The clocked blocks one after the other, and their updates onto other values.
fn run_onto(
    alloc: Global,
    b: &mut Builder,
    flat: &Flat,
    choice: &ChoiceWires,
    words: &[Vec<Wire>],
    later: Vec<Vec<Wire>>,
) -> Result<Machine, AllocError>
    requires choice { IsReady b.old choice.now }
    requires words { AreWords b.old words.now }
    requires widths { widths_of words.now ≡ signal_widths flat.now.signals }
    requires later { AreWords b.old later.items }
    requires later_widths { widths_of later.items ≡ signal_widths flat.now.signals }
    ensures extends { Extends b.old b.new }
    ensures machine { IfOk result (λ r. IsMachine b.new (signal_widths flat.now.signals) r) }
    ensures ran { IfOk result (λ r. (env : ℕ → Bool) → held b.new env r
        ≡ ran_blocks (instance_flat choice.now.sites.now (picks_of b.old env choice.now) (plain_flat flat.now)) (instance_flat choice.now.sites.now (picks_of b.old env choice.now) (plain_flat flat.now)).clocked (record { now = carried b.old env words.now; later = carried b.old env later.items })) }
{
    let now = copied(alloc, words)?;
    let mut machine = Machine { now, later };
    run_clocked(alloc, b, flat, choice, &mut machine)?;
    Ok(machine)
}

/// The state after the clock edge of a settled environment. The blocks run twice: once for what `=`
/// leaves, and once for their updates, which are applied to it. The second time makes no gate anew
/// that stands on none of these.
pub fn edge(
    alloc: Global,
    b: &mut Builder,
    flat: &Flat,
    choice: &ChoiceWires,
    words: &[Vec<Wire>],
) -> Result<Vec<Vec<Wire>>, AllocError>
    requires choice { IsReady b.old choice.now }
    requires words { AreWords b.old words.now }
    requires widths { widths_of words.now ≡ signal_widths flat.now.signals }
    ensures extends { Extends b.old b.new }
    ensures words { IfOk result (λ r. AreWords b.new r.items) }
    ensures widths { IfOk result (λ r. widths_of r.items ≡ signal_widths flat.now.signals) }
    ensures value { IfOk result (λ r. (env : ℕ → Bool) → carried b.new env r.items
        ≡ next_after (instance_flat choice.now.sites.now (picks_of b.old env choice.now) (plain_flat flat.now)) (carried b.old env words.now)) }
{
    let start = copied(alloc, words)?;
    let first = run_onto(alloc, b, flat, choice, words, start)?;
    let Machine { now, .. } = first;
    let second = run_onto(alloc, b, flat, choice, words, now)?;
    let Machine { later, .. } = second;
    Ok(later)
}
