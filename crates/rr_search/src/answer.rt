//! What is asked, and what is answered.

use rr_choice::{Choice, SiteList};
use rr_circuit::Circuit;
use rr_derive::Journal;
use rr_trace::Table;
use rr_transition::Transition;

/// A search for the least repair of a design: the sites of the design, the transition that stands for
/// its cycle under every choice among them, and the table that it is to match. For each question up to
/// `members` members, 1 to 8, may learn `budget` lines each, 1 or more.
#[derive(Clone, Copy)]
pub struct Job<'a> {
    pub list: &'a SiteList<'a>,
    pub transition: &'a Transition,
    pub table: &'a Table,
    pub budget: u32,
    pub members: u32,
}

/// What is found for a design.
#[derive(Drop)]
pub enum Answer {
    /// It matches as it is.
    Unchanged,
    /// A choice of the least cost `k`, which is 1 or more; the circuit that asks for a cost of at most
    /// `k - 1`, and lines that refute its formula.
    Repair {
        choice: Choice,
        k: u32,
        circuit: Circuit,
        journal: Journal,
    },
    /// No choice repairs it; the circuit that asks for any cost, and lines that refute its formula.
    NoRepair {
        circuit: Circuit,
        journal: Journal,
    },
    /// Whether a cost of at most `bound` repairs it is left open; the circuit that asks so, and the joined
    /// lines of all members, each of which has learned its budget. Where `bound` is below the number of
    /// sites, `found` is a choice of cost `bound + 1` that repairs it; where it is that number, `found` is
    /// `None`.
    Spent {
        bound: u32,
        circuit: Circuit,
        journal: Journal,
        found: Option<Choice>,
    },
}
