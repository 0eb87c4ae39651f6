//! Wires before the first step of a cycle: the registers and the inputs of a row have their own, a clock
//! is 0, and every other bit has its starting value.
ghost use Rattle.std.specs.Prelude.{◌≡◌, ◌≤◌, ◌++◌, ◌∷◌, [], ℕ, Bool, All, IfOk, OnOk, length};
ghost use Rattle.rr_bits.specs.Words.{word};
ghost use Rattle.rr_circuit.specs.Values.{Netlist, AreWires, wire_values};
ghost use Rattle.rr_cycle.specs.Cycles.{zeros};
ghost use Rattle.rr_flat.specs.View.{plain_flat};
ghost use Rattle.rr_meaning.specs.Work.{NoneAbove, inner_beginning};
ghost use Rattle.rr_blast_steps.specs.Designs.{signal_widths};
ghost use Rattle.rr_blast.specs.Rows.{AreNarrow};
ghost use Rattle.rr_transition.specs.Placed.{placed};
ghost use Rattle.rr_signal_wires.specs.Words.{AreWords, IsThere, carried, widths_of};

use rr_bits::Bits;
use rr_circuit::{Builder, Wire};
use rr_expr::Bit;
use rr_flat::Flat;
use rr_meaning::starts_inside;
use rr_signal_wires::set_wire;
use rr_word_gates::constants;
use std::alloc::{AllocError, Global};

/// So many times the same wire.
fn word_of(alloc: Global, wire: Wire, width: u32) -> Result<Vec<Wire>, AllocError>
    ensures size { IfOk result (λ r. length r.items ≡ width) }
    ensures same { IfOk result (λ r. All (λ w. w ≡ wire) r.items) }
{
    let word = vec![in alloc; wire; width as usize]?;
    Ok(word)
}

fn push_word(words: &mut Vec<Vec<Wire>>, word: Vec<Wire>) -> Result<(), AllocError>
    ensures { OnOk result (words.new.items ≡ words.old.items ++ word ∷ []) }
{
    words.push(word).map_err(AllocError::from)?;
    Ok(())
}

/// The wires of a number's lowest bits, which are constant.
fn start_word(alloc: Global, b: &Builder, number: u128, width: u32) -> Result<Vec<Wire>, AllocError>
    requires low { 1 ≤ width }
    requires high { width ≤ 128 }
    ensures size { IfOk result (λ r. length r.items ≡ width) }
    ensures wires { IfOk result (λ r. AreWires b.now r.items) }
    ensures value { IfOk result (λ r. (env : ℕ → Bool) → wire_values b.now env r.items ≡ word width number) }
{
    let word = constants(alloc, b, Bits::from_u128(width, number))?;
    Ok(word)
}

/// Each signal has its starting value, and an input of the top 0.
fn start_words(alloc: Global, b: &Builder, flat: &Flat) -> Result<Vec<Vec<Wire>>, AllocError>
    ensures words { IfOk result (λ r. AreWords b.now r.items) }
    ensures widths { IfOk result (λ r. widths_of r.items ≡ signal_widths flat.now.signals) }
    ensures value { IfOk result (λ r. (env : ℕ → Bool) → carried b.now env r.items ≡ inner_beginning (plain_flat flat.now)) }
    ensures above { OnOk result (NoneAbove (plain_flat flat.now)) }
{
    let starts = starts_inside(alloc, flat)?;
    let mut words = Vec::new(alloc);
    for (at, signal) in flat.signals.iter().enumerate() {
        let word = start_word(alloc, b, starts[at], signal.width)?;
        push_word(&mut words, word)?;
    }
    Ok(words)
}

/// Each signal's bits are 0.
#[tactic(auto, unfolding(rr_signal_wires::specs::Words::widths_of))]
pub(crate) fn zero_words(
    alloc: Global,
    b: &Builder,
    flat: &Flat,
) -> Result<Vec<Vec<Wire>>, AllocError>
    ensures words { IfOk result (λ r. AreWords b.now r.items) }
    ensures widths { IfOk result (λ r. widths_of r.items ≡ signal_widths flat.now.signals) }
    ensures zeros { IfOk result (λ r. (env : ℕ → Bool) → carried b.now env r.items ≡ zeros) }
    ensures narrow { OnOk result (AreNarrow (plain_flat flat.now).signals) }
{
    let zero = b.constant(false);
    let mut words = Vec::new(alloc);
    for signal in flat.signals.iter() {
        let word = word_of(alloc, zero, signal.width)?;
        push_word(&mut words, word)?;
    }
    Ok(words)
}

/// Bits have other wires; of two for one bit the first counts.
fn put_bits(words: &mut Vec<Vec<Wire>>, bits: &[Bit], wires: &[Wire])
    requires there { All (IsThere (widths_of words.old.items)) bits.now }
    requires count { length wires.now ≡ length bits.now }
    ensures wires { (n : Netlist) → AreWords n words.old.items → AreWires n wires.now → AreWords n words.new.items }
    ensures value { (n : Netlist) (env : ℕ → Bool) → carried n env words.new.items ≡ placed bits.now (wire_values n env wires.now) (carried n env words.old.items) }
    ensures widths { widths_of words.new.items ≡ widths_of words.old.items }
{
    let mut left = bits.len();
    while left > 0 {
        left -= 1;
        set_wire(words, bits[left], wires[left]);
    }
}

/// The wires before the first step.
pub(crate) fn base_words(
    alloc: Global,
    b: &Builder,
    flat: &Flat,
    registers: &[Bit],
    inputs: &[Bit],
    state: &[Wire],
    row: &[Wire],
) -> Result<Vec<Vec<Wire>>, AllocError>
    requires registers { All (IsThere (signal_widths flat.now.signals)) registers.now }
    requires inputs { All (IsThere (signal_widths flat.now.signals)) inputs.now }
    requires state { AreWires b.now state.now }
    requires row { AreWires b.now row.now }
    requires state_count { length state.now ≡ length registers.now }
    requires row_count { length row.now ≡ length inputs.now }
    ensures words { IfOk result (λ r. AreWords b.now r.items) }
    ensures widths { IfOk result (λ r. widths_of r.items ≡ signal_widths flat.now.signals) }
    ensures value { IfOk result (λ r. (env : ℕ → Bool) → carried b.now env r.items
        ≡ placed registers.now (wire_values b.now env state.now) (placed inputs.now (wire_values b.now env row.now) (inner_beginning (plain_flat flat.now)))) }
    ensures above { OnOk result (NoneAbove (plain_flat flat.now)) }
{
    let mut words = start_words(alloc, b, flat)?;
    put_bits(&mut words, inputs, row);
    put_bits(&mut words, registers, state);
    Ok(words)
}
