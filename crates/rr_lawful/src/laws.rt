//! The laws in the order in which they are checked.
ghost use Rattle.std.specs.Prelude.{◌≡◌, IfOk, IfErr, option_map};
ghost use Rattle.rr_flat.specs.Clocks.{OneClock};
ghost use Rattle.rr_flat.specs.Lawful.{ClockNamed, Lawful, NoLatches, NoRace, OneWriter, RightKinds};
ghost use Rattle.rr_flat.specs.Ordered.{Ordered};
ghost use Rattle.rr_flat.specs.View.{plain_flat};
ghost use Rattle.rr_clock.specs.Clock.{IsClockInput};
ghost use Rattle.rr_lawful.specs.Checked.{Denies, FailsFirst, FailsWrites, HasClock, HasRightTexts, HasRightWrites};

use rr_assign::{first_bad_target, first_race, first_wild_label, first_wrong_kind};
use rr_clock::{Found, find_clock, first_clock_use, unknown_clock};
use rr_flat::{Bit, Flat, Order, Step};
use rr_latch::first_latch;
use rr_order::{Ordering, order_steps};
use rr_writers::first_two_drivers;
use std::alloc::{AllocError, Global};

/// Which law a flat design breaks first, by the tokens at which it does (IEEE 1364-2005 sections 6.1,
/// 9.2, 9.5.1, 9.7.2 and 12.3.9.2); and want of memory. They are asked in another order than that of the
/// variants: names, targets, labels, the one clock, its uses, writers, kinds, races, latches, loops.
#[derive(Drop)]
pub enum LawFault {
    /// A bit has two writers, whose targets or `always` stand at these tokens.
    TwoDrivers { bit: Bit, first: u32, second: u32 },
    /// `<=` in a combinational block, or a variable that is assigned by both kinds.
    WrongAssign(u32),
    /// A clocked block reads a variable that another one assigns by `=`.
    Race(u32),
    /// A combinational block, by its `always`, keeps the value of a bit.
    Latch { bit: Bit, block: u32 },
    /// Each bit names the next and the last the first, with the token of what writes the first.
    Loop { cycle: Vec<Bit>, token: u32 },
    /// A name that leads to the clock is used as data.
    ClockUse(u32),
    /// A clocked block that does not run on the one clock in its direction.
    TwoClocks(u32),
    /// A target that may not be assigned so.
    BadTarget(u32),
    /// A label with digits that it may not have.
    WildLabel(u32),
    /// The word for the clock names no scalar input of the top, which stands at this token.
    UnknownName(u32),
    /// Want of memory.
    Memory,
}

impl From<AllocError> for LawFault {
    ghost use Rattle.std.specs.Prelude.{◌≡◌};
    ghost use Rattle.rr_lawful.specs.declared.laws.LawFault.TheVariants.{Memory};

    ghost from_gives = { λ _ e. e ≡ Memory };

    fn from(_error: AllocError) -> LawFault {
        LawFault::Memory
    }
}

/// The one clock, where a design has one, and whether its rising edge counts.
#[derive(Clone, Copy)]
struct Clock {
    signal: Option<u32>,
    rising: bool,
}

/// The laws of names, targets and labels (sections 6.1, 9.2 and 9.5.1), as `check` asks them first.
pub fn check_texts(alloc: Global, flat: &Flat, word: Option<&str>) -> Result<(), LawFault>
    ensures ok { IfOk result (λ _. HasRightTexts (plain_flat flat.now) (option_map (λ w. w.now) word.entry)) }
    ensures err { IfErr result (FailsFirst (plain_flat flat.now) (option_map (λ w. w.now) word.entry)) }
    ensures denied { IfErr result (Denies (HasRightTexts (plain_flat flat.now) (option_map (λ w. w.now) word.entry))) }
{
    if let Some(token) = unknown_clock(flat, word) {
        return Err(LawFault::UnknownName(token));
    }
    if let Some(token) = first_bad_target(alloc, flat)? {
        return Err(LawFault::BadTarget(token));
    }
    match first_wild_label(flat) {
        Some(token) => Err(LawFault::WildLabel(token)),
        None => Ok(()),
    }
}

/// The law of the uses of a clock.
fn check_uses(
    alloc: Global,
    flat: &Flat,
    clock: Clock,
    word: Option<&str>,
) -> Result<Clock, LawFault>
    requires texts { HasRightTexts (plain_flat flat.now) (option_map (λ w. w.now) word) }
    requires one { OneClock (plain_flat flat.now) (option_map (λ w. w.now) word) clock.signal clock.rising }
    requires input { IsClockInput (plain_flat flat.now) clock.signal }
    ensures ok { IfOk result (λ c. HasClock (plain_flat flat.now) (option_map (λ w. w.now) word.entry) c.signal c.rising) }
    ensures err { IfErr result (FailsFirst (plain_flat flat.now) (option_map (λ w. w.now) word.entry)) }
    ensures denied { IfErr result (Denies (HasClock (plain_flat flat.now) (option_map (λ w. w.now) word.entry) clock.signal clock.rising)) }
{
    match first_clock_use(alloc, flat, clock.signal)? {
        Some(token) => Err(LawFault::ClockUse(token)),
        None => Ok(clock),
    }
}

/// The laws of the clock.
fn check_clock(alloc: Global, flat: &Flat, word: Option<&str>) -> Result<Clock, LawFault>
    requires { HasRightTexts (plain_flat flat.now) (option_map (λ w. w.now) word) }
    ensures ok { IfOk result (λ c. HasClock (plain_flat flat.now) (option_map (λ w. w.now) word.entry) c.signal c.rising) }
    ensures err { IfErr result (FailsFirst (plain_flat flat.now) (option_map (λ w. w.now) word.entry)) }
    ensures denied { IfErr result (Denies (Lawful (plain_flat flat.now) (option_map (λ w. w.now) word.entry))) }
{
    match find_clock(alloc, flat, word)? {
        Found::Nowhere(token) => Err(LawFault::TwoClocks(token)),
        Found::Clock { signal, rising } => check_uses(alloc, flat, Clock { signal, rising }, word),
    }
}

/// The laws of writers, kinds of assignment, races and latches.
fn check_writes(alloc: Global, flat: &Flat) -> Result<(), LawFault>
    ensures ok { IfOk result (λ _. HasRightWrites (plain_flat flat.now)) }
    ensures err { IfErr result (FailsWrites (plain_flat flat.now)) }
    ensures denied { IfErr result (Denies (HasRightWrites (plain_flat flat.now))) }
{
    if let Some(two) = first_two_drivers(alloc, flat)? {
        return Err(LawFault::TwoDrivers {
            bit: two.bit,
            first: two.first,
            second: two.second,
        });
    }
    if let Some(token) = first_wrong_kind(alloc, flat)? {
        return Err(LawFault::WrongAssign(token));
    }
    if let Some(token) = first_race(alloc, flat)? {
        return Err(LawFault::Race(token));
    }
    match first_latch(alloc, flat)? {
        Some(latch) => Err(LawFault::Latch {
            bit: latch.bit,
            block: latch.block,
        }),
        None => Ok(()),
    }
}

/// The clock of a design that keeps all laws up to that of loops.
fn check_all_but_loops(alloc: Global, flat: &Flat, word: Option<&str>) -> Result<Clock, LawFault>
    ensures ok { IfOk result (λ c. HasClock (plain_flat flat.now) (option_map (λ w. w.now) word.entry) c.signal c.rising) }
    ensures writes { IfOk result (λ _. HasRightWrites (plain_flat flat.now)) }
    ensures err { IfErr result (FailsFirst (plain_flat flat.now) (option_map (λ w. w.now) word.entry)) }
    ensures denied { IfErr result (Denies (Lawful (plain_flat flat.now) (option_map (λ w. w.now) word.entry))) }
{
    check_texts(alloc, flat, word)?;
    let clock = check_clock(alloc, flat, word)?;
    check_writes(alloc, flat)?;
    Ok(clock)
}

/// The steps of a lawful design in an order in which each bit is written before it is read, with its
/// clock and the direction of its edge; or the first law that is broken. `word` names the clock, where
/// it is given. The laws are those of names, targets, labels, the one clock, its uses, two drivers of
/// a bit, kinds of assignment, races, latches and loops, in this order; within a law the walk over the
/// design and the order of the text decide, and of loops the lowest bit.
#[tactic(auto, using(crate::proofs::Denied::input_of))]
pub fn check(alloc: Global, flat: &Flat, word: Option<&str>) -> Result<Order, LawFault>
    ensures input { IfOk result (λ o. IsClockInput (plain_flat flat.now) o.clock) }
    ensures lawful { IfOk result (λ o. Lawful (plain_flat flat.now) (option_map (λ w. w.now) word.entry)) }
    ensures ordered { IfOk result (λ o. Ordered (plain_flat flat.now) (option_map (λ w. w.now) word.entry) o.clock o.rising o.steps.items) }
    ensures first { IfErr result (FailsFirst (plain_flat flat.now) (option_map (λ w. w.now) word.entry)) }
    ensures unlawful { IfErr result (Denies (Lawful (plain_flat flat.now) (option_map (λ w. w.now) word.entry))) }
{
    let clock = check_all_but_loops(alloc, flat, word)?;
    match order_steps(alloc, flat)? {
        Ordering::Loop(found) => Err(LawFault::Loop {
            cycle: found.cycle,
            token: found.token,
        }),
        Ordering::Steps(steps) => Ok(Order {
            clock: clock.signal,
            rising: clock.rising,
            steps,
        }),
    }
}
