//! Which input is decided next, and with which sign: one that recent conflicts stood on. No contract speaks
//! of this order; what comes out of it is looked at before it is decided.
ghost use Rattle.std.specs.Prelude.{◌≤◌, ◌^◌, ◌<◌, IfSome};
ghost use Rattle.rr_trail.specs.Trails.{lits};
ghost use Rattle.rr_analysis.specs.OpenInputs.{IsOpenInput};

use rr_cnf::Lit;
use rr_watch::Watch;
use std::alloc::{AllocError, Global};

/// The inputs by their scores, in a heap of those that may have no value (Eén, Sörensson, "An Extensible
/// SAT-solver", SAT 2003).
#[derive(Drop)]
pub struct Order {
    /// All inputs. The first ones are the heap, in which none has a greater score than its parent.
    heap: Vec<u64>,
    /// The size of the heap.
    size: usize,
    /// By input, its place in the list.
    places: Vec<u64>,
    /// By input, what conflicts have added, the later ones more.
    scores: Vec<u64>,
    /// By input, whether it was false last.
    signs: Vec<bool>,
    /// By level, the input that was decided.
    decisions: Vec<u64>,
    /// What the next conflict adds to a score.
    weight: u64,
}

const MOST_VARS: u64 = 1 << 62;

const MOST_SIZE: usize = 1 << 62;

const FIRST_WEIGHT: u64 = 1 << 24;
/// From this weight on, all scores are divided by `SCALE`.
const MOST_WEIGHT: u64 = 1 << 44;

const SCALE: u64 = 1 << 20;
/// The weight grows by this part of itself with each conflict.
const PART: u64 = 20;

impl Order {
    /// The inputs 1 to `inputs`, in an order and with signs that the member's number varies: eight
    /// different ones for the numbers 1 to 8.
    pub fn new(alloc: Global, inputs: u64, member: u32) -> Result<Order, AllocError>
        requires { inputs < 2 ^ 62 }
    {
        let variant = member.wrapping_sub(1) % 8;
        let is_reversed = variant % 2 == 1;
        let turned = if variant % 4 < 2 { 0 } else { inputs / 2 };
        let len = inputs as usize + 1;
        let mut order = Order {
            heap: Vec::with_capacity(alloc, len)?,
            size: inputs as usize,
            places: vec![in alloc; 0; len]?,
            scores: vec![in alloc; 0; len]?,
            signs: vec![in alloc; variant < 4; len]?,
            decisions: vec![in alloc; 0; len]?,
            weight: FIRST_WEIGHT,
        };
        for index in 0..inputs {
            let at = if is_reversed {
                inputs - 1 - index
            } else {
                index
            };
            let input = 1 + (at + turned) % inputs;
            order.heap.push(input)?;
            put(&mut order.places, input as usize, index);
            put(&mut order.scores, input as usize, inputs - index);
        }
        Ok(order)
    }

    /// Notes that an input is decided, which begins this level.
    pub fn decide(&mut self, level: u32, lit: Lit) {
        put(&mut self.decisions, level as usize, lit.var());
    }

    /// Notes that a conflict met a variable. Others than inputs have no score.
    pub(crate) fn bump(&mut self, var: u64) {
        self.raise(var, self.weight);
    }

    /// Notes that a conflict stands on the decision of this level.
    pub(crate) fn bump_level(&mut self, level: u32) {
        let input = get(&self.decisions, level as usize);
        self.raise(input, self.weight / 2);
    }

    /// Makes later conflicts count more.
    pub(crate) fn decay(&mut self) {
        self.weight = self.weight.saturating_add(self.weight / PART);
        if self.weight > MOST_WEIGHT {
            self.weight /= SCALE;
            for score in self.scores.iter_mut() {
                *score /= SCALE;
            }
        }
    }

    /// Notes that an input loses its value, which is kept for the next time that it is decided.
    pub fn release(&mut self, lit: Lit) {
        let var = lit.var() as usize;
        if let Some(sign) = self.signs.get_mut(var) {
            *sign = lit.is_negative();
        } else {
            return;
        }
        let place = get(&self.places, var) as usize;
        let end = self.size;
        if place >= end {
            self.size = end.saturating_add(1);
            self.swap(place, end);
            self.rise(end);
        }
    }

    /// An open input of the greatest score, if there is one in the heap.
    pub fn next_open(&mut self, watch: &Watch<'_>, inputs: u64) -> Option<Lit>
        requires { inputs ≤ watch.now.vars }
        ensures { IfSome result (IsOpenInput (lits watch.now.trail) inputs) }
    {
        for _step in 0..inputs {
            let var = self.pop()?;
            if var == 0 || var > inputs || var > MOST_VARS {
                return None;
            }
            let sign = self.signs.get(var as usize).copied().unwrap_or(true);
            let lit = Lit::new(var, sign);
            if watch.value(lit).is_none() {
                return Some(lit);
            }
        }
        None
    }

    // Takes the first of the heap.
    fn pop(&mut self) -> Option<u64> {
        if self.size == 0 {
            return None;
        }
        let first = get(&self.heap, 0);
        self.size -= 1;
        self.swap(0, self.size);
        self.sink();
        Some(first)
    }

    fn raise(&mut self, var: u64, more: u64) {
        if let Some(score) = self.scores.get_mut(var as usize) {
            *score = score.saturating_add(more);
        } else {
            return;
        }
        let place = get(&self.places, var as usize) as usize;
        if place < self.size {
            self.rise(place);
        }
    }

    // The score of the input at this place.
    fn score_at(&self, place: usize) -> u64 {
        get(&self.scores, get(&self.heap, place) as usize)
    }

    // Moves an input up to below a parent with no smaller score.
    fn rise(&mut self, from: usize) {
        let mut at = from;
        while at > 0 {
            let parent = (at - 1) / 2;
            if self.score_at(parent) >= self.score_at(at) {
                return;
            }
            self.swap(parent, at);
            at = parent;
        }
    }

    // Moves the first input down to above children with no greater scores.
    fn sink(&mut self) {
        let size = self.size.min(MOST_SIZE);
        let mut at = 0;
        while 2 * at + 1 < size {
            let left = 2 * at + 1;
            let right = left + 1;
            let child = if right < size && self.score_at(right) > self.score_at(left) {
                right
            } else {
                left
            };
            if self.score_at(at) >= self.score_at(child) {
                return;
            }
            self.swap(at, child);
            at = child;
        }
    }

    // Exchanges the inputs at two places.
    fn swap(&mut self, place: usize, other: usize) {
        let one = get(&self.heap, place);
        let two = get(&self.heap, other);
        put(&mut self.heap, place, two);
        put(&mut self.heap, other, one);
        put(&mut self.places, two as usize, place as u64);
        put(&mut self.places, one as usize, other as u64);
    }
}

// The number at this place; 0 past the end.
fn get(numbers: &Vec<u64>, place: usize) -> u64 {
    numbers.get(place).copied().unwrap_or(0)
}

// Puts a number at this place, if there is such a place.
fn put(numbers: &mut Vec<u64>, place: usize, number: u64) {
    if let Some(slot) = numbers.get_mut(place) {
        *slot = number;
    }
}
