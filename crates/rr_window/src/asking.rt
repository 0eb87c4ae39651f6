//! One question over a window.
ghost use Rattle.std.specs.Prelude.{◌≡◌, IfOk};
ghost use Rattle.rr_choice.specs.Choices.{total_bits};
ghost use Rattle.rr_window.specs.Replies.{IsReply};

use rr_choice::{Choice, SiteList};
use rr_plainer::{Near, chosen, plainer};
use rr_solver::Outcome;
use rr_trace::Table;
use rr_transition::Transition;
use rr_tseitin::formula_of;
use rr_unroll::question;
use std::alloc::{AllocError, Global};
use std::thread::Threads;

/// How many threads make the circuit of a question.
const WORKERS: u32 = 4;

/// A choice that mends the rows of a window, and the plainest that was looked for, which may be the same.
#[derive(Drop)]
pub(crate) struct Mended {
    pub choice: Choice,
    pub plain: Choice,
}

/// The outcome of a question over a window.
#[derive(Drop)]
pub(crate) enum Reply {
    /// A choice within the bound mends the rows.
    Mended(Mended),
    /// None does.
    Refuted,
    /// It is left open.
    Open,
}

/// Asks whether at most `bound` changes mend the rows of a table, by a search of at most `budget` lines that
/// need not be fresh: what is asked here is only to be proposed.
pub(crate) fn ask<R: Threads + Sync>(
    rt: &R,
    alloc: Global,
    transition: &Transition,
    table: &Table,
    list: &SiteList<'_>,
    near: &Near,
    bound: u32,
    budget: u32,
) -> Result<Reply, AllocError>
    requires bits { transition.now.choice_bits ≡ total_bits list.now }
    ensures { IfOk result (IsReply list.now) }
{
    let circuit = question(rt, alloc, transition, table, bound, WORKERS)?;
    let count = transition.choice_bits;
    let mut formula = formula_of(alloc, &circuit)?;
    match rr_free::search(alloc, &formula, budget)? {
        Outcome::Model(values) => {
            let choice = chosen(alloc, list, count, values.as_slice())?;
            let plain = plainer(alloc, &mut formula, transition, table, list, near, &choice)?;
            Ok(Reply::Mended(Mended { choice, plain }))
        }
        Outcome::Refuted(_) => Ok(Reply::Refuted),
        Outcome::Spent(_) => Ok(Reply::Open),
    }
}
