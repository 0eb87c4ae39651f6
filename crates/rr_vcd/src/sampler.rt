//! The rows of a dump, as its constructs are told one after the other.
ghost use Rattle.std.specs.Prelude.{◌≡◌, ◌≤◌, ◌<◌, ◌⊎◌, ◌∷◌, ◌++◌, ℕ, List, [], length, map, All, Bool, true, false, not, OnOk, IfOk, MatchResult, if◌then◌else◌};
ghost use Rattle.rr_flat.specs.declared.fault.Limit.TheVariants.{Rows};
ghost use Rattle.rr_vcd_text.specs.Dump.{Declared as PlainDeclared, Told as PlainTold, Moment};
ghost use Rattle.rr_vcd_text.specs.View.{plain_told};
ghost use Rattle.rr_trace.specs.Rows.{Row};
ghost use Rattle.rr_vcd.specs.declared.fault.VcdFault.TheVariants.{Memory, TooMany};
ghost use Rattle.rr_vcd.specs.Tops.{Top};
ghost use Rattle.rr_vcd.specs.Moments.{moments, valued};
ghost use Rattle.rr_vcd.specs.Sampled.{is_level as is_level_of, rows_of};
ghost use Rattle.rr_vcd.specs.View.{plain_probe, plain_clock_probe, probe_row, probe_goes_over, cells_by, AreSlots, AreWatched, AreProbes, AreNarrow, IsWatched, Watches, WatchesClock, AreKept, IsTold, HasRows, Exceeds, SameSampling};

use crate::fault::VcdFault;
use crate::probes::{ClockProbe, Probe, Probes};
use crate::slots::Slots;
use rr_flat::Limit;
use rr_trace::{Cell, Table};
use rr_vcd_text::Told;
use std::alloc::{AllocError, Global};

/// How many rows a table may have.
const ROWS: usize = 65_536;

/// The ports with their current bits; the moment to which changes belong, from 0, and whether it has
/// begun, since changes may stand before it; whether values are no longer dumped; and the rows of the
/// moments that have ended, or that they are too many.
#[derive(Drop)]
pub(crate) struct Sampler<'a> {
    pub(crate) probes: Probes<'a>,
    pub(crate) slots: Slots<'a>,
    pub(crate) moment: u64,
    pub(crate) begun: bool,
    pub(crate) off: bool,
    pub(crate) full: bool,
    pub(crate) table: Table,
}

fn is_level(high: bool, cell: Cell) -> bool
    ensures { result ≡ is_level_of high cell }
{
    cell.known == 1 && cell.value == u128::from(high)
}

/// Watches the identifier of a port, where it has one.
fn watch<'a>(slots: &mut Slots<'a>, probe: Probe<'a>) -> Result<(), AllocError>
    ensures { OnOk result (Watches slots.old slots.new (probe.entry ∷ [])) }
{
    match probe.id {
        Some(id) => slots.watch(id),
        None => Ok(()),
    }
}

fn watch_all<'a>(slots: &mut Slots<'a>, probes: &[Probe<'a>]) -> Result<(), AllocError>
    ensures { OnOk result (Watches slots.old slots.new probes.now) }
{
    for &probe in probes.iter() {
        watch(slots, probe)?;
    }
    Ok(())
}

fn watch_clock<'a>(slots: &mut Slots<'a>, clock: Option<ClockProbe<'a>>) -> Result<(), AllocError>
    ensures { OnOk result (WatchesClock slots.old slots.new clock.entry) }
{
    match clock {
        Some(clock) => watch(slots, clock.probe),
        None => Ok(()),
    }
}

/// The values of inputs, now or before the moment.
fn values(
    alloc: Global,
    slots: &Slots,
    probes: &[Probe],
    moment: u64,
    before: bool,
) -> Result<Vec<u128>, AllocError>
    ensures { (past told : List PlainTold) → AreSlots past told moment slots.now → All (λ x. IsWatched slots.now (plain_probe x)) probes.now →
        IfOk result (λ v. v.items ≡ map (λ c. c.value) (cells_by (map plain_probe probes.now) (if before then past else told))) }
{
    let mut values = Vec::new(alloc);
    for &probe in probes.iter() {
        values.push(slots.cell(probe, moment, before).value)?;
    }
    Ok(values)
}

/// What is known of outputs, now or before the moment.
fn cells(
    alloc: Global,
    slots: &Slots,
    probes: &[Probe],
    moment: u64,
    before: bool,
) -> Result<Vec<Cell>, AllocError>
    ensures { (past told : List PlainTold) → AreSlots past told moment slots.now → All (λ x. IsWatched slots.now (plain_probe x)) probes.now →
        IfOk result (λ v. v.items ≡ cells_by (map plain_probe probes.now) (if before then past else told)) }
{
    let mut cells = Vec::new(alloc);
    for &probe in probes.iter() {
        cells.push(slots.cell(probe, moment, before))?;
    }
    Ok(cells)
}

impl<'a> Sampler<'a> {
    /// Nothing was told.
    pub(crate) fn new(alloc: Global, probes: Probes<'a>) -> Result<Sampler<'a>, AllocError>
        requires { AreNarrow probes }
        ensures { (top : Top) (d : PlainDeclared) (s : ℕ) → AreProbes top d s probes.entry → IfOk result (IsTold top d s []) }
    {
        let mut slots = Slots::new(alloc);
        watch_clock(&mut slots, probes.clock)?;
        watch_all(&mut slots, probes.inputs.as_slice())?;
        watch_all(&mut slots, probes.outputs.as_slice())?;
        Ok(Sampler {
            probes,
            slots,
            moment: 0,
            begun: false,
            off: false,
            full: false,
            table: Table {
                inputs: Vec::new(alloc),
                expected: Vec::new(alloc),
            },
        })
    }

    /// Whether the clock goes over its edge in the moment.
    fn goes_over(&self, clock: ClockProbe) -> bool
        ensures { (past told : List PlainTold) → AreSlots past told self.now.moment self.now.slots → IsWatched self.now.slots (plain_probe clock.entry.probe) →
            result ≡ probe_goes_over (plain_clock_probe clock.entry) past told }
    {
        let before = self.slots.cell(clock.probe, self.moment, true);
        let now = self.slots.cell(clock.probe, self.moment, false);
        is_level(!clock.rising, before) && is_level(clock.rising, now)
    }

    /// One row more, of the values now or before the moment.
    fn push(&mut self, alloc: Global, before: bool) -> Result<(), AllocError>
        requires { self.old.full ≡ false }
        ensures rows { (past told : List PlainTold) (rows : List Row) → AreSlots past told self.old.moment self.old.slots → AreWatched self.old.slots self.old.probes → HasRows rows self.old.table →
            OnOk result (AreKept (rows ++ probe_row self.old.probes (if before then past else told) ∷ []) self.new.full self.new.table) }
        ensures same { SameSampling self.old self.new }
    {
        if self.table.inputs.len() == ROWS {
            self.full = true;
            return Ok(());
        }
        let probes = self.probes.inputs.as_slice();
        let inputs = values(alloc, &self.slots, probes, self.moment, before)?;
        let probes = self.probes.outputs.as_slice();
        let expected = cells(alloc, &self.slots, probes, self.moment, before)?;
        self.table.inputs.push(inputs)?;
        self.table.expected.push(expected)?;
        Ok(())
    }

    /// The moment ends.
    fn close(&mut self, alloc: Global) -> Result<(), AllocError>
        ensures rows { (top : Top) (d : PlainDeclared) (s : ℕ) (told : List PlainTold) → IsTold top d s told self.old → self.old.off ≡ false → self.old.begun ≡ true →
            OnOk result (AreKept (rows_of top d s told (moments told)) self.new.full self.new.table) }
        ensures same { SameSampling self.old self.new }
    {
        if self.full {
            return Ok(());
        }
        match self.probes.clock {
            Some(clock) => {
                if self.goes_over(clock) {
                    self.push(alloc, true)?;
                }
            }
            None => self.push(alloc, false)?,
        }
        Ok(())
    }

    /// A moment begins.
    fn begin(&mut self, alloc: Global) -> Result<(), AllocError>
        ensures { (top : Top) (d : PlainDeclared) (s : ℕ) (told : List PlainTold) (time : ℕ) → IsTold top d s told self.old → self.old.off ≡ false → OnOk result (IsTold top d s (told ++ Moment time ∷ []) self.new) }
    {
        if !self.begun {
            self.begun = true;
            return Ok(());
        }
        self.close(alloc)?;
        // A dump of 2^64 moments does not fit in memory.
        let Some(next) = self.moment.checked_add(1) else {
            return Err(AllocError);
        };
        self.moment = next;
        Ok(())
    }

    /// What the next construct tells.
    pub(crate) fn tell(&mut self, alloc: Global, told: Told<'a>) -> Result<(), AllocError>
        ensures { (top : Top) (d : PlainDeclared) (s : ℕ) (before : List PlainTold) → IsTold top d s before self.old → OnOk result (IsTold top d s (before ++ plain_told told.entry ∷ []) self.new) }
    {
        if self.off {
            return Ok(());
        }
        match told {
            Told::Nothing => {}
            Told::Moment(_) => self.begin(alloc)?,
            Told::Change { id, digits } => self.slots.change(id, digits, self.moment)?,
            Told::Off => self.off = true,
        }
        Ok(())
    }

    /// The last moment ends with the dump.
    fn end(&mut self, alloc: Global) -> Result<(), AllocError>
        ensures { (top : Top) (d : PlainDeclared) (s : ℕ) (told : List PlainTold) → IsTold top d s told self.old → OnOk result (AreKept (rows_of top d s told (valued told)) self.new.full self.new.table) }
    {
        if self.off {
            return Ok(());
        }
        if !self.begun {
            return Ok(());
        }
        self.close(alloc)
    }

    /// The table of the dump, which ends here, or that its rows are too many.
    pub(crate) fn finish(self, alloc: Global) -> Result<Table, VcdFault>
        ensures { (top : Top) (d : PlainDeclared) (s : ℕ) (told : List PlainTold) → IsTold top d s told self.entry →
            MatchResult result (HasRows (rows_of top d s told (valued told))) (Exceeds (rows_of top d s told (valued told))) }
    {
        let mut sampler = self;
        sampler.end(alloc)?;
        if sampler.full {
            return Err(VcdFault::TooMany(Limit::Rows, ROWS as u64 + 1));
        }
        Ok(sampler.table)
    }
}
