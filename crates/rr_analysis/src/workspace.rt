//! What the walk back from a conflict needs: which variables it has met, and which places wait for it.
ghost use Rattle.std.specs.Prelude.{◌≡◌, ℕ, ◌<◌, All, [], length, get_or, set, IfOk, IfNone, IfSome, OnOk, true, false};
ghost use Rattle.rr_cnf.specs.Clauses.{IsWithin};
ghost use Rattle.rr_trail.specs.Trails.{lits};
ghost use Rattle.rr_analysis.specs.Analysis.{IsMarked};
ghost use Rattle.rr_analysis.specs.Workspaces.{IsBegun, IsReady, KeepsWalk, Meets, Met, PopsLast};

use rr_cnf::Lit;
use rr_watch::Watch;
use std::alloc::{AllocError, Global};
use std::collections::BinaryHeap;
use std::marker::Model;

/// Marks of variables, which are all taken away at once.
#[derive(Drop)]
pub(crate) struct Marks {
    /// A variable with the newest stamp is marked.
    stamps: Vec<u32>,
    newest: u32,
}

impl Model for Marks {
    ghost use Rattle.std.specs.Prelude.{◌≤◌, ◌==◌, All, Bool, List, map};

    ghost Value = { List Bool };

    ghost view = { λ m. map (λ s. s == m.newest) m.stamps.items };

    ghost invariant = { λ m. All (λ s. s ≤ m.newest) m.stamps.items };
}

impl Marks {
    fn new(alloc: Global, len: usize) -> Result<Marks, AllocError>
        ensures { IfOk result (λ m. length m ≡ len) }
    {
        Ok(Marks {
            stamps: vec![in alloc; 0; len]?,
            newest: 1,
        })
    }

    fn clear(&mut self)
        ensures long { length self.new ≡ length self.old }
        ensures none { (v : ℕ) → IsMarked self.new v → ⊥ }
    {
        if self.newest == u32::MAX {
            self.stamps.fill(0);
            self.newest = 0;
        }
        self.newest += 1;
    }

    fn is_marked(&self, var: u64) -> bool
        requires { var < length self.now }
        ensures { result ≡ get_or self.now var false }
    {
        self.stamps[var as usize] == self.newest
    }

    fn mark(&mut self, var: u64)
        requires { var < length self.old }
        ensures { self.new ≡ set self.old var true }
    {
        self.stamps[var as usize] = self.newest;
    }
}

/// Marks of variables, and the places in the trail of the marked ones that are not walked over yet.
#[derive(Drop)]
pub struct Workspace {
    marks: Marks,
    waiting: BinaryHeap<usize>,
    /// The places from here on are walked over.
    top: usize,
}

impl Model for Workspace {
    ghost use Rattle.std.specs.Ordering.{nat_cmp};
    ghost use Rattle.std.specs.BinaryHeap.{IsHeap, heap_items};
    ghost use Rattle.rr_analysis.specs.Workspaces.{Work};

    ghost Value = { Work };

    ghost view = { λ w. record { seen = w.marks; waiting = heap_items w.waiting; top = w.top } };

    ghost invariant = { λ w. IsHeap nat_cmp (heap_items w.waiting) };
}

impl Workspace {
    /// For the variables up to this one.
    pub fn new(alloc: Global, vars: u64) -> Result<Workspace, AllocError>
        requires { vars < 4294967295 }
        ensures { IfOk result (IsReady vars) }
    {
        Ok(Workspace {
            marks: Marks::new(alloc, vars as usize + 1)?,
            waiting: BinaryHeap::new(alloc),
            top: 0,
        })
    }

    /// Begins a walk over so many literals: nothing is marked.
    pub(crate) fn begin(&mut self, len: usize)
        ensures { IsBegun len self.old self.new }
    {
        self.marks.clear();
        self.waiting.clear();
        self.top = len;
    }

    /// Whether the variable is marked.
    pub(crate) fn is_marked(&self, var: u64) -> bool
        requires { var < length self.now.seen }
    {
        self.marks.is_marked(var)
    }

    /// Marks the variable of a literal, whose place waits then.
    fn meet(&mut self, watch: &Watch<'_>, lit: Lit) -> Result<(), AllocError>
        requires within { IsWithin watch.now.vars lit }
        requires room { watch.now.vars < length self.old.seen }
        ensures keeps { KeepsWalk self.old self.new }
        ensures meets { OnOk result (Meets (lits watch.now.trail) self.old lit.var self.new) }
    {
        let var = lit.var();
        if !self.marks.is_marked(var) {
            self.marks.mark(var);
            self.waiting.push(watch.place(lit))?;
        }
        Ok(())
    }

    /// Marks the variables of a clause.
    pub(crate) fn meet_all(&mut self, watch: &Watch<'_>, clause: &[Lit]) -> Result<(), AllocError>
        requires within { All (IsWithin watch.now.vars) clause.now }
        requires room { watch.now.vars < length self.old.seen }
        ensures keeps { KeepsWalk self.old self.new }
        ensures met { OnOk result (Met (lits watch.now.trail) self.old clause.now self.new) }
    {
        for lit in clause {
            self.meet(watch, *lit)?;
        }
        Ok(())
    }

    /// The last place that waits, which goes on waiting. No contract says which it is.
    pub(crate) fn peek(&self) -> Option<usize> {
        self.waiting.peek().copied()
    }

    /// The last place that waits.
    pub(crate) fn pop(&mut self) -> Option<usize>
        ensures some { IfSome result (λ p. PopsLast self.old p self.new) }
        ensures none { IfNone result ((self.new ≡ self.old) × (self.old.waiting ≡ [])) }
    {
        let place = self.waiting.pop()?;
        self.top = place;
        Some(place)
    }
}
