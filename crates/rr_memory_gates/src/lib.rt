//! Words of memories on wires (IEEE 1364-2005 section 5.2.2): what an index reads, for a constant index
//! and for one that wires write. It is right where for every input the answered wires carry the word that
//! `rr_expr` gives to the index in the environment that the wires of the signals carry. By a constant
//! index no gate is made; by any other there is one condition for each word, and two gates for each of
//! its bits. It stands on `rr_word_gates`' operations on words, `rr_blast_sites`' wires of signals,
//! `rr_circuit`'s builder and `rr_expr`'s indices. After an error, which is want of memory or of numbers
//! for gates, the wires that were there keep their values.
#![tactic(auto)]

ghost use Rattle.std.specs.Prelude.{◌≡◌, ◌+◌, ◌≤◌, false, Some, IfOk, length};
ghost use Rattle.rr_bits.specs.Words.{reading, tabulate};
ghost use Rattle.rr_circuit.specs.Values.{AreWires, wire_values, Extends};
ghost use Rattle.rr_expr.specs.Indices.{integer_of};
ghost use Rattle.rr_expr.specs.Scopes.{env_of_lists};
ghost use Rattle.rr_word_gates.specs.Carried.{Carries};
ghost use Rattle.rr_blast_sites.specs.Signals.{AreSignals, signal_values};
ghost use Rattle.rr_memory_gates.specs.Reading.{first_words, word_read, word_value};

use rr_bits::Bits;
use rr_blast_sites::signal_wires;
use rr_circuit::{Builder, Wire};
use rr_expr::{Index, word_at};
use rr_word_gates::{Connective, bitwise, chosen_or, extended, names_place};
use std::alloc::{AllocError, Global};

/// A memory: its words are the signals from `first` on, each of `width` bits, in the order of their
/// indices, of which `low` is the lowest.
#[derive(Clone, Copy)]
pub struct Memory {
    pub first: u32,
    pub low: u32,
    pub words: u32,
    pub width: u32,
}

/// The wires of a word, counted from the lowest index.
fn word_wires(
    alloc: Global,
    b: &Builder,
    memory: Memory,
    word: u32,
    signals: &[Vec<Wire>],
) -> Result<Vec<Wire>, AllocError>
    requires { AreSignals b.now signals.now }
    ensures width { IfOk result (λ r. length r.items ≡ memory.width) }
    ensures value { IfOk result (λ r. Carries b.now r.items (λ input. word_value (env_of_lists (signal_values b.now input signals.now)) memory.width (Some (memory.first + word)))) }
{
    let wires = signal_wires(signals, memory.first as usize + word as usize);
    let out = extended(alloc, b, wires, memory.width, false)?;
    Ok(out)
}

/// What is read where there is no word.
fn no_word(alloc: Global, b: &Builder, width: u32) -> Result<Vec<Wire>, AllocError>
    ensures width { IfOk result (λ r. length r.items ≡ width) }
    ensures value { IfOk result (λ r. Carries b.now r.items (λ input. tabulate width (λ i. false))) }
{
    let out = extended(alloc, b, &[], width, false)?;
    Ok(out)
}

/// The word at a constant index, 0 where the memory has none.
pub fn fixed_word(
    alloc: Global,
    b: &Builder,
    memory: Memory,
    signals: &[Vec<Wire>],
    index: Index,
) -> Result<Vec<Wire>, AllocError>
    requires { AreSignals b.now signals.now }
    ensures width { IfOk result (λ r. length r.items ≡ memory.width) }
    ensures value { IfOk result (λ r. Carries b.now r.items (λ input. word_read (env_of_lists (signal_values b.now input signals.now)) memory (integer_of index))) }
{
    match word_at(memory.low, memory.words, index) {
        Some(word) => {
            let out = word_wires(alloc, b, memory, word, signals)?;
            Ok(out)
        }
        None => {
            let out = no_word(alloc, b, memory.width)?;
            Ok(out)
        }
    }
}

/// What is read of the words up to one, from what is read of those before it; `ys` write the index.
fn with_word(
    alloc: Global,
    b: &mut Builder,
    memory: Memory,
    word: u32,
    before: &[Wire],
    signals: &[Vec<Wire>],
    ys: &[Wire],
    signed: bool,
) -> Result<Vec<Wire>, AllocError>
    requires wide { 1 ≤ memory.width }
    requires narrow { memory.width ≤ 128 }
    requires before { AreWires b.old before.now }
    requires width { length before.now ≡ memory.width }
    requires signals { AreSignals b.old signals.now }
    requires y { AreWires b.old ys.now }
    requires low { 1 ≤ length ys.now }
    requires high { length ys.now ≤ 128 }
    ensures extends { Extends b.old b.new }
    ensures width { IfOk result (λ r. length r.items ≡ memory.width) }
    ensures value { IfOk result (λ r.
        Carries b.old before.now (λ input. word_read (env_of_lists (signal_values b.old input signals.now)) (first_words word memory) (reading signed (wire_values b.old input ys.now)))
        → Carries b.new r.items (λ input. word_read (env_of_lists (signal_values b.old input signals.now)) (first_words (word + 1) memory) (reading signed (wire_values b.old input ys.now)))) }
{
    let here = names_place(b, ys, signed, (memory.low, memory.low), word as i64)?;
    let wires = word_wires(alloc, b, memory, word, signals)?;
    let none = Bits::from_u128(memory.width, 0);
    let part = chosen_or(alloc, b, here, wires.as_slice(), none)?;
    let out = bitwise(alloc, b, Connective::Or, before, part.as_slice())?;
    Ok(out)
}

/// The word at the index that wires write, 0 where the memory has none; there are 1 to 128 wires.
pub fn moving_word(
    alloc: Global,
    b: &mut Builder,
    memory: Memory,
    signals: &[Vec<Wire>],
    ys: &[Wire],
    signed: bool,
) -> Result<Vec<Wire>, AllocError>
    requires wide { 1 ≤ memory.width }
    requires narrow { memory.width ≤ 128 }
    requires signals { AreSignals b.old signals.now }
    requires y { AreWires b.old ys.now }
    requires low { 1 ≤ length ys.now }
    requires high { length ys.now ≤ 128 }
    ensures extends { Extends b.old b.new }
    ensures width { IfOk result (λ r. length r.items ≡ memory.width) }
    ensures value { IfOk result (λ r. Carries b.new r.items (λ input. word_read (env_of_lists (signal_values b.old input signals.now)) memory (reading signed (wire_values b.old input ys.now)))) }
{
    let mut out = no_word(alloc, b, memory.width)?;
    for word in 0..memory.words {
        out = with_word(alloc, b, memory, word, out.as_slice(), signals, ys, signed)?;
    }
    Ok(out)
}
