//! Signals and names of declarations that may have words.
ghost use Rattle.std.specs.Prelude.{◌≡◌, ◌+◌, ◌≤◌, ◌++◌, ℕ, OnOk, All, map};
ghost use Rattle.rr_flat.specs.Sound.{IsOwn};
ghost use Rattle.rr_flat.specs.View.{plain_signal};
ghost use Rattle.rr_memory_words.specs.Words.{AreWords, all_words, word_count as count_of_words, words_entity as entity_of_words, words_signals};

use rr_expr::Entity;
use rr_flat::Signal;
use std::alloc::AllocError;

/// The number of signals of a declaration: its words, or one (IEEE 1364-2005 section 4.9.3). Words
/// are the lowest index and how many there are.
pub fn word_count(words: Option<(u32, u32)>) -> u32
    ensures { result ≡ count_of_words words }
{
    match words {
        None => 1,
        Some((_, count)) => count,
    }
}

/// What the name of a declaration stands for, where its first signal has that number.
pub fn words_entity(first: u32, signal: &Signal, words: Option<(u32, u32)>) -> Entity
    ensures { result ≡ entity_of_words first (plain_signal signal.now) words }
{
    match words {
        None => Entity::Signal {
            id: first,
            range: signal.range,
            signed: signal.signed,
        },
        Some((low, count)) => Entity::Memory {
            first,
            low,
            words: count,
            range: signal.range,
            signed: signal.signed,
        },
    }
}

/// The word at that index.
fn indexed<'a>(signal: &Signal<'a>, index: u32) -> Signal<'a>
    ensures value { plain_signal result ≡ record (plain_signal signal.now) { word = Some index } }
    ensures sound { (i : ℕ) → IsOwn i signal.now → IsOwn i result }
{
    let mut word = *signal;
    word.word = Some(index);
    word
}

/// So many words from an index on go last.
fn add_all<'a>(
    signals: &mut Vec<Signal<'a>>,
    signal: &Signal<'a>,
    low: u32,
    count: u32,
) -> Result<(), AllocError>
    requires { low + count ≤ 65536 }
    ensures value { OnOk result (map plain_signal signals.new.items ≡ map plain_signal signals.old.items ++ all_words (plain_signal signal.now) low count) }
    ensures sound { OnOk result ((i : ℕ) → IsOwn i signal.now → All (IsOwn i) signals.old.items → All (IsOwn i) signals.new.items) }
{
    for place in 0..count {
        signals.push(indexed(signal, low + place))?;
    }
    Ok(())
}

/// The signals of a declaration go last: its one signal, or its words in the order of their indices.
pub fn add_words<'a>(
    signals: &mut Vec<Signal<'a>>,
    signal: &Signal<'a>,
    words: Option<(u32, u32)>,
) -> Result<(), AllocError>
    requires { AreWords signal.now.variable signal.now.port words }
    ensures value { OnOk result (map plain_signal signals.new.items ≡ map plain_signal signals.old.items ++ words_signals (plain_signal signal.now) words) }
    ensures sound { OnOk result ((i : ℕ) → IsOwn i signal.now → All (IsOwn i) signals.old.items → All (IsOwn i) signals.new.items) }
{
    match words {
        None => {
            signals.push(*signal)?;
            Ok(())
        }
        Some((low, count)) => add_all(signals, signal, low, count),
    }
}
