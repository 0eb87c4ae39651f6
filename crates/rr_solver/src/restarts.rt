//! When a search begins anew at level 0 (Luby, Sinclair, Zuckerman, "Optimal speedup of Las Vegas
//! algorithms", 1993). No contract speaks of it.

/// The number of lines until the next restart. It follows the sequence 1 1 2 1 1 2 4 1 1 2 ..
#[derive(Debug, Clone, Copy)]
pub struct Restarts {
    left: u32,
    /// The sequence goes on by these two numbers (Knuth).
    turn: u32,
    factor: u32,
}

/// So many lines are one step of the sequence.
const UNIT: u32 = 32;

impl Restarts {
    /// The first restart is due after some lines.
    pub fn new() -> Restarts {
        Restarts {
            left: UNIT,
            turn: 1,
            factor: 1,
        }
    }

    /// Counts a line, and answers whether the search is to begin anew.
    pub fn is_due(&mut self) -> bool {
        if self.left > 0 {
            self.left -= 1;
            return false;
        }
        if self.turn & self.turn.wrapping_neg() == self.factor {
            self.turn = self.turn.wrapping_add(1);
            self.factor = 1;
        } else {
            self.factor = self.factor.wrapping_mul(2);
        }
        self.left = self.factor.saturating_mul(UNIT);
        true
    }
}
