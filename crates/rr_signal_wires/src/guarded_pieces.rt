//! Pieces that an assignment may write, on wires (IEEE 1364-2005 sections 5.2.1, 6.1 and 9.2).
ghost use Rattle.std.specs.Prelude.{◌≡◌, ◌≤◌, ◌<◌, ◌+◌, ◌++◌, ◌∷◌, [], ℕ, Bool, false, None, List, Option, pos, ◌+ℤ◌, IfOk, OnOk, cond, drop, get_or, length};
ghost use Rattle.rr_circuit.specs.Values.{Extends, IsWire, AreWires, wire_value, wire_values};
ghost use Rattle.rr_bits.specs.Words.{reading};
ghost use Rattle.rr_syntax.specs.View.{plain};
ghost use Rattle.rr_expr.specs.declared.types.Entity.TheVariants as entity;
ghost use Rattle.rr_expr.specs.Faults.{fault};
ghost use Rattle.rr_expr.specs.Memories.{word_at, word_bits, word_signal};
ghost use Rattle.rr_expr.specs.Scopes.{entity_range, range_width};
ghost use Rattle.rr_expr.specs.Selects.{lowest_place};
ghost use Rattle.rr_expr.specs.Values.{nowhere};
ghost use Rattle.rr_flat.specs.Targets.{bits_there, target_bits};
ghost use Rattle.rr_named_bits.specs.Pieces.{bits_of};
ghost use Rattle.rr_cycle.specs.Exec.{Environment, write};
ghost use Rattle.rr_signal_wires.specs.GuardedPieces.{AreGuardedPieces, put_guarded_pieces};
ghost use Rattle.rr_signal_wires.specs.Words.{AreWords, Fits, HasWord, Holds, carried, widths_of};

use crate::words::{bit_at, set_wire, wire_at};
use rr_circuit::{Builder, Wire};
use rr_expr::{Bit, Scope, below_index};
use rr_named_bits::{Piece, add_pieces, no_values};
use rr_syntax::Expr;
use rr_word_gates::names_place;
use std::alloc::{AllocError, Global};

/// A piece that a target may name, the wire that says whether it does, and the place of a word from
/// which its bits come.
#[derive(Clone, Copy)]
pub struct GuardedPiece {
    pub piece: Piece,
    pub when: Wire,
    pub from: u32,
}

// Writing

/// The place of a word from which a piece's place comes, where the piece begins at `start`.
fn source(from: u32, place: u32, start: i64) -> usize
    requires from { from ≤ 128 }
    requires reach { (j : ℕ) × ((j < 4294967296) × (start +ℤ pos j ≡ pos place)) }
    ensures { (j : ℕ) → start +ℤ pos j ≡ pos place → result ≡ from + j }
{
    (from as i64 + (place as i64 - start)) as usize
}

/// The bits of a piece take those of a word from a place up, where the guard is true.
fn put_run(
    b: &mut Builder,
    words: &mut Vec<Vec<Wire>>,
    guarded_piece: &GuardedPiece,
    bits: &[Wire],
    guard: Wire,
) -> Result<(), AllocError>
    requires guard { IsWire b.old guard }
    requires bits { AreWires b.old bits.now }
    requires words { AreWords b.old words.old.items }
    requires fits { Fits (widths_of words.old.items) guarded_piece.now.piece }
    requires from { guarded_piece.now.from ≤ 128 }
    ensures extends { Extends b.old b.new }
    ensures words { OnOk result (AreWords b.new words.new.items) }
    ensures widths { OnOk result (widths_of words.new.items ≡ widths_of words.old.items) }
    ensures value { OnOk result ((env : ℕ → Bool) → carried b.new env words.new.items
        ≡ cond (wire_value b.old env guard) (write (bits_of guarded_piece.now.piece) (drop guarded_piece.now.from (wire_values b.old env bits.now)) (carried b.old env words.old.items)) (carried b.old env words.old.items)) }
{
    let piece = guarded_piece.piece;
    let (low, high) = piece.range();
    if low >= high {
        return Ok(());
    }
    let first = source(guarded_piece.from, low, piece.from);
    for place in low..high {
        let bit = Bit {
            signal: piece.signal,
            place,
        };
        let new = bit_at(b, bits, first + (place - low) as usize);
        let old = wire_at(words.as_slice(), bit);
        let wire = b.mux(guard, new, old)?;
        set_wire(words, bit, wire);
    }
    Ok(())
}

/// The bits of all pieces take those of a word, where the guard is true.
pub fn put_all(
    b: &mut Builder,
    words: &mut Vec<Vec<Wire>>,
    guarded_pieces: &[GuardedPiece],
    bits: &[Wire],
    guard: Wire,
) -> Result<(), AllocError>
    requires guard { IsWire b.old guard }
    requires bits { AreWires b.old bits.now }
    requires words { AreWords b.old words.old.items }
    requires guarded_pieces { AreGuardedPieces b.old (widths_of words.old.items) guarded_pieces.now }
    ensures extends { Extends b.old b.new }
    ensures words { OnOk result (AreWords b.new words.new.items) }
    ensures widths { OnOk result (widths_of words.new.items ≡ widths_of words.old.items) }
    ensures value { OnOk result ((env : ℕ → Bool) → carried b.new env words.new.items
        ≡ cond (wire_value b.old env guard) (put_guarded_pieces b.old env guarded_pieces.now (wire_values b.old env bits.now) (carried b.old env words.old.items)) (carried b.old env words.old.items)) }
{
    for guarded_piece in guarded_pieces.iter() {
        let here = b.and(guard, guarded_piece.when)?;
        put_run(b, words, guarded_piece, bits, here)?;
    }
    Ok(())
}

// Naming

pub fn push_guarded_piece(
    list: &mut Vec<GuardedPiece>,
    guarded_piece: GuardedPiece,
) -> Result<(), AllocError>
    ensures { OnOk result (list.new.items ≡ list.old.items ++ guarded_piece ∷ []) }
{
    list.push(guarded_piece)?;
    Ok(())
}

/// The bits that a target names for every input, whose places are the same for all of them.
pub fn add_fixed(
    alloc: Global,
    b: &Builder,
    list: &mut Vec<GuardedPiece>,
    target: &Expr,
    scope: &Scope,
    from: u32,
) -> Result<u32, AllocError>
    requires shaped { fault scope.now (plain target.now) false ≡ None }
    requires few { from + length (target_bits scope.now nowhere (plain target.now)) ≤ 128 }
    ensures next { IfOk result (λ r. r ≡ from + length (target_bits scope.now nowhere (plain target.now))) }
    ensures guarded_pieces { OnOk result ((widths : List ℕ) → Holds scope.now widths → AreGuardedPieces b.now widths list.old.items → AreGuardedPieces b.now widths list.new.items) }
    ensures value { OnOk result ((env : ℕ → Bool) (vs : List Bool) (e : Environment) →
        put_guarded_pieces b.now env list.new.items vs e ≡ write (target_bits scope.now nowhere (plain target.now)) (drop from vs) (put_guarded_pieces b.now env list.old.items vs e)) }
{
    let none = no_values(alloc);
    let mut pieces = Vec::new(alloc);
    add_pieces(&mut pieces, target, scope, &none)?;
    let mut next = from;
    let mut left = pieces.len();
    while left > 0 {
        left -= 1;
        let piece = pieces[left];
        let guarded_piece = GuardedPiece {
            piece,
            when: b.constant(true),
            from: next,
        };
        push_guarded_piece(list, guarded_piece)?;
        next += piece.count;
    }
    Ok(next)
}

/// The bounds of a range; a scalar has the one place 0.
fn bounds_of(range: Option<(u32, u32)>) -> (u32, u32)
    ensures { (id : ℕ) (signed : Bool) → result ≡ entity_range (entity.Signal id range signed) }
{
    match range {
        Some(bounds) => bounds,
        None => (0, 0),
    }
}

fn width_of(range: Option<(u32, u32)>) -> u32
    requires { range_width range ≤ 128 }
    ensures { result ≡ range_width range }
{
    match range {
        Some((left, right)) => {
            if left < right {
                right - left + 1
            } else {
                left - right + 1
            }
        }
        None => 1,
    }
}

/// The select of `count` places of a signal by an index on wires.
#[derive(Clone, Copy)]
pub struct Moving<'a> {
    pub signal: u32,
    pub range: Option<(u32, u32)>,
    pub up: bool,
    pub count: u32,
    pub index: &'a [Wire],
    pub signed: bool,
    pub from: u32,
}

/// The bits that a select names, a piece for each place at which they may begin.
pub fn add_moving(
    b: &mut Builder,
    list: &mut Vec<GuardedPiece>,
    run: &Moving,
) -> Result<(), AllocError>
    requires width { range_width run.now.range ≤ 128 }
    requires some { 1 ≤ run.now.count }
    requires count { run.now.count ≤ 128 }
    requires from { run.now.from ≤ 128 }
    requires index { AreWires b.old run.now.index.now }
    requires low { 1 ≤ length run.now.index.now }
    requires high { length run.now.index.now ≤ 128 }
    ensures extends { Extends b.old b.new }
    ensures guarded_pieces { OnOk result ((widths : List ℕ) → run.now.signal < length widths → get_or widths run.now.signal 0 ≡ range_width run.now.range → AreGuardedPieces b.old widths list.old.items → AreGuardedPieces b.new widths list.new.items) }
    ensures value { OnOk result ((signed : Bool) (widths : List ℕ) → run.now.signal < length widths → get_or widths run.now.signal 0 ≡ range_width run.now.range → AreGuardedPieces b.old widths list.old.items → (env : ℕ → Bool) (vs : List Bool) (e : Environment) →
        put_guarded_pieces b.new env list.new.items vs e
        ≡ write (bits_there (entity.Signal run.now.signal run.now.range signed) (lowest_place (entity_range (entity.Signal run.now.signal run.now.range signed)) run.now.up (reading run.now.signed (wire_values b.old env run.now.index.now)) run.now.count) run.now.count)
        (drop run.now.from vs) (put_guarded_pieces b.old env list.old.items vs e)) }
{
    let width = width_of(run.range);
    let bounds = bounds_of(run.range);
    let below = below_index(bounds, run.count, run.up);
    for k in 1..width + run.count {
        let low = k as i64 - run.count as i64;
        let when = names_place(b, run.index, run.signed, bounds, low + below as i64)?;
        let piece = Piece {
            signal: run.signal,
            width,
            from: low,
            count: run.count,
        };
        let guarded_piece = GuardedPiece {
            piece,
            when,
            from: run.from,
        };
        push_guarded_piece(list, guarded_piece)?;
    }
    Ok(())
}

/// The word of a memory at an index on wires. The words are the signals from `first` on, each of that
/// range, in the order of their indices, of which `low` is the lowest (IEEE 1364-2005 section 5.2.2).
#[derive(Clone, Copy)]
pub struct MovingWord<'a> {
    pub first: u32,
    pub low: u32,
    pub words: u32,
    pub range: Option<(u32, u32)>,
    pub index: &'a [Wire],
    pub signed: bool,
    pub from: u32,
}

/// The bits that an index of a memory names, a piece for each word, whose bits share one wire. The
/// answer is the place of a word after them.
pub fn add_word(
    b: &mut Builder,
    list: &mut Vec<GuardedPiece>,
    run: &MovingWord,
) -> Result<u32, AllocError>
    requires width { range_width run.now.range ≤ 128 }
    requires few { (k : ℕ) → k < run.now.words → run.now.first + k < 65536 }
    requires from { run.now.from ≤ 128 }
    requires index { AreWires b.old run.now.index.now }
    requires low { 1 ≤ length run.now.index.now }
    requires high { length run.now.index.now ≤ 128 }
    ensures extends { Extends b.old b.new }
    ensures next { IfOk result (λ r. r ≡ run.now.from + range_width run.now.range) }
    ensures guarded_pieces { OnOk result ((widths : List ℕ) → ((k : ℕ) → k < run.now.words → HasWord widths run.now.range (run.now.first + k)) → AreGuardedPieces b.old widths list.old.items → AreGuardedPieces b.new widths list.new.items) }
    ensures value { OnOk result ((widths : List ℕ) → ((k : ℕ) → k < run.now.words → HasWord widths run.now.range (run.now.first + k)) → AreGuardedPieces b.old widths list.old.items → (env : ℕ → Bool) (vs : List Bool) (e : Environment) →
        put_guarded_pieces b.new env list.new.items vs e
        ≡ write (word_bits run.now.range (word_signal run.now.first (word_at run.now.low run.now.words (reading run.now.signed (wire_values b.old env run.now.index.now))))) (drop run.now.from vs) (put_guarded_pieces b.old env list.old.items vs e)) }
{
    let width = width_of(run.range);
    let bounds = (run.low, run.low);
    for k in 0..run.words {
        let when = names_place(b, run.index, run.signed, bounds, k as i64)?;
        let piece = Piece {
            signal: run.first + k,
            width,
            from: 0,
            count: width,
        };
        let guarded_piece = GuardedPiece {
            piece,
            when,
            from: run.from,
        };
        push_guarded_piece(list, guarded_piece)?;
    }
    Ok(run.from + width)
}

/// All bits of a signal of at most 128.
pub fn whole_guarded_pieces(
    alloc: Global,
    b: &Builder,
    id: u32,
    words: &[Vec<Wire>],
) -> Result<Vec<GuardedPiece>, AllocError>
    requires there { id < length words.now }
    requires narrow { get_or (widths_of words.now) id 0 ≤ 128 }
    ensures guarded_pieces { IfOk result (λ r. AreGuardedPieces b.now (widths_of words.now) r.items) }
    ensures value { IfOk result (λ r. (range : Option (ℕ × ℕ)) (signed : Bool) → get_or (widths_of words.now) id 0 ≡ range_width range → (env : ℕ → Bool) (vs : List Bool) (e : Environment) →
        put_guarded_pieces b.now env r.items vs e ≡ write (bits_there (entity.Signal id range signed) (pos 0) (range_width range)) vs e) }
{
    let width = words[id as usize].len() as u32;
    let piece = Piece {
        signal: id,
        width,
        from: 0,
        count: width,
    };
    let when = b.constant(true);
    let guarded_piece = GuardedPiece {
        piece,
        when,
        from: 0,
    };
    let mut list = Vec::new(alloc);
    push_guarded_piece(&mut list, guarded_piece)?;
    Ok(list)
}
