//! The parts of a flat design by their numbers.
ghost use Rattle.std.specs.Prelude.{◌≡◌, ◌<◌, ◌≤◌, [], length, All, IfOk, IfSome, IfNone};
ghost use Rattle.rr_syntax.specs.View.{plain};
ghost use Rattle.rr_flat.specs.Inputs.{is_clock as is_clock_of, row_inputs as inputs_but};
ghost use Rattle.rr_flat.specs.Parts.{block_of as block_of_part, driver_of as driver_of_part, initial_of as initial_of_part};
ghost use Rattle.rr_flat.specs.Signals.{no_signal, signal_at as signal_of_number};
ghost use Rattle.rr_flat.specs.Sound.{AreStarts, IsBlock, IsDriver, IsInitial, IsScope, IsSignal, IsWalk};
ghost use Rattle.rr_flat.specs.Targets.{is_constant as is_constant_in};
ghost use Rattle.rr_flat.specs.View.{plain_block, plain_driver, plain_flat, plain_initial, plain_signal};
ghost use Rattle.rr_flat.specs.Writers.{block_at, driver_at as driver_of_number, initial_at as initial_of_number, no_block, no_driver, no_initial, scope_at as scope_of_number};

use crate::design::{Block, Driver, Flat, Initial, Part};
use crate::signal::Signal;
use rr_expr::{Scope, constant};
use rr_syntax::Expr;
use std::alloc::{AllocError, Global};

impl<'a> Flat<'a> {
    /// The drivers, blocks and `initial` items in the order of the walk.
    pub fn parts(&self) -> &[Part]
        ensures value { result.now ≡ self.now.walk }
        ensures sound { IsWalk (length self.now.drivers) (length self.now.clocked) (length self.now.combinational) (length self.now.initials) result.now }
    {
        self.walk.as_slice()
    }

    /// The number of signals.
    pub fn signal_count(&self) -> u32
        ensures value { result ≡ length self.now.signals }
        ensures few { result ≤ 65536 }
    {
        self.signals.len() as u32
    }

    /// The signals.
    pub fn signal_list(&self) -> &[Signal<'a>]
        ensures value { result.now ≡ self.now.signals }
        ensures sound { All (IsSignal (length self.now.scopes)) result.now }
        ensures few { length result.now ≤ 65536 }
    {
        self.signals.as_slice()
    }

    /// The signal with this number, where there is one.
    pub fn signal(&self, id: u32) -> Option<&Signal<'a>>
        ensures some { IfSome result (λ s. plain_signal s.now ≡ signal_of_number (plain_flat self.now).signals id) }
        ensures sound { IfSome result (λ s. IsSignal (length self.now.scopes) s.now) }
        ensures there { IfSome result (λ s. id < length self.now.signals) }
        ensures none { IfNone result (length self.now.signals ≤ id) }
        ensures absent { IfNone result (signal_of_number (plain_flat self.now).signals id ≡ no_signal) }
    {
        self.signals.get(id as usize)
    }

    /// The starting values, one for each signal.
    pub fn start_list(&self) -> &[u128]
        ensures value { result.now ≡ self.now.starts }
        ensures sound { AreStarts self.now.signals result.now }
    {
        self.starts.as_slice()
    }

    /// The name of a signal, empty where there is none.
    pub fn signal_name(&self, id: u32) -> &'a str
        ensures { result.now ≡ (signal_of_number (plain_flat self.now).signals id).name }
    {
        match self.signals.get(id as usize) {
            Some(signal) => signal.name,
            None => "",
        }
    }

    /// A signal that there is.
    pub fn signal_at(&self, id: u32) -> &Signal<'a>
        requires { id < length self.now.signals }
        ensures value { plain_signal result.now ≡ signal_of_number (plain_flat self.now).signals id }
        ensures sound { IsSignal (length self.now.scopes) result.now }
    {
        &self.signals[id as usize]
    }

    /// The names of the instance with this number, where there is one.
    pub fn scope(&self, number: u32) -> Option<&Scope<'a>>
        ensures some { IfSome result (λ s. s.now ≡ scope_of_number (plain_flat self.now) number) }
        ensures sound { IfSome result (λ s. IsScope self.now.signals s.now) }
        ensures there { IfSome result (λ s. number < length self.now.scopes) }
        ensures none { IfNone result (length self.now.scopes ≤ number) }
        ensures absent { IfNone result (scope_of_number (plain_flat self.now) number ≡ []) }
    {
        self.scopes.get(number as usize)
    }

    /// The names of an instance that there is.
    pub fn scope_at(&self, number: u32) -> &Scope<'a>
        requires { number < length self.now.scopes }
        ensures value { result.now ≡ scope_of_number (plain_flat self.now) number }
        ensures sound { IsScope self.now.signals result.now }
    {
        &self.scopes[number as usize]
    }

    /// The drivers.
    pub fn driver_list(&self) -> &[Driver<'a>]
        ensures value { result.now ≡ self.now.drivers }
        ensures sound { All (IsDriver self.now.signals self.now.scopes) result.now }
    {
        self.drivers.as_slice()
    }

    /// The driver with this number, where there is one.
    pub fn driver(&self, number: u32) -> Option<Driver<'a>>
        ensures some { IfSome result (λ d. plain_driver d ≡ driver_of_number (plain_flat self.now) number) }
        ensures sound { IfSome result (λ d. IsDriver self.now.signals self.now.scopes d) }
        ensures there { IfSome result (λ d. number < length self.now.drivers) }
        ensures none { IfNone result (length self.now.drivers ≤ number) }
        ensures absent { IfNone result (driver_of_number (plain_flat self.now) number ≡ no_driver) }
    {
        self.drivers.get(number as usize).copied()
    }

    /// A driver that there is.
    pub fn driver_at(&self, number: u32) -> Driver<'a>
        requires { number < length self.now.drivers }
        ensures value { plain_driver result ≡ driver_of_number (plain_flat self.now) number }
        ensures sound { IsDriver self.now.signals self.now.scopes result }
    {
        self.drivers[number as usize]
    }

    /// The clocked blocks.
    pub fn clocked_blocks(&self) -> &[Block<'a>]
        ensures value { result.now ≡ self.now.clocked }
        ensures sound { All (IsBlock self.now.scopes) result.now }
    {
        self.clocked.as_slice()
    }

    /// The clocked block with this number, where there is one.
    pub fn clocked_block(&self, number: u32) -> Option<Block<'a>>
        ensures some { IfSome result (λ b. plain_block b ≡ block_at (plain_flat self.now).clocked number) }
        ensures sound { IfSome result (λ b. IsBlock self.now.scopes b) }
        ensures there { IfSome result (λ b. number < length self.now.clocked) }
        ensures none { IfNone result (length self.now.clocked ≤ number) }
        ensures absent { IfNone result (block_at (plain_flat self.now).clocked number ≡ no_block) }
    {
        self.clocked.get(number as usize).copied()
    }

    /// The combinational blocks.
    pub fn combinational_blocks(&self) -> &[Block<'a>]
        ensures value { result.now ≡ self.now.combinational }
        ensures sound { All (IsBlock self.now.scopes) result.now }
    {
        self.combinational.as_slice()
    }

    /// The combinational block with this number, where there is one.
    pub fn combinational_block(&self, number: u32) -> Option<Block<'a>>
        ensures some { IfSome result (λ b. plain_block b ≡ block_at (plain_flat self.now).combinational number) }
        ensures sound { IfSome result (λ b. IsBlock self.now.scopes b) }
        ensures there { IfSome result (λ b. number < length self.now.combinational) }
        ensures none { IfNone result (length self.now.combinational ≤ number) }
        ensures absent { IfNone result (block_at (plain_flat self.now).combinational number ≡ no_block) }
    {
        self.combinational.get(number as usize).copied()
    }

    /// A combinational block that there is.
    pub fn combinational_at(&self, number: u32) -> Block<'a>
        requires { number < length self.now.combinational }
        ensures value { plain_block result ≡ block_at (plain_flat self.now).combinational number }
        ensures sound { IsBlock self.now.scopes result }
    {
        self.combinational[number as usize]
    }

    /// The `initial` items.
    pub fn initial_list(&self) -> &[Initial<'a>]
        ensures value { result.now ≡ self.now.initials }
        ensures sound { All (IsInitial self.now.scopes) result.now }
    {
        self.initials.as_slice()
    }

    /// The `initial` item with this number, where there is one.
    pub fn initial(&self, number: u32) -> Option<Initial<'a>>
        ensures some { IfSome result (λ x. plain_initial x ≡ initial_of_number (plain_flat self.now).initials number) }
        ensures sound { IfSome result (λ x. IsInitial self.now.scopes x) }
        ensures there { IfSome result (λ x. number < length self.now.initials) }
        ensures none { IfNone result (length self.now.initials ≤ number) }
        ensures absent { IfNone result (initial_of_number (plain_flat self.now).initials number ≡ no_initial) }
    {
        self.initials.get(number as usize).copied()
    }

    /// The inputs of the top by the numbers of their signals, in port order.
    pub fn input_list(&self) -> &[u32]
        ensures value { result.now ≡ self.now.inputs }
        ensures sound { All (λ id. id < length self.now.signals) result.now }
    {
        self.inputs.as_slice()
    }

    /// The inputs of the top but the clock, in port order: a row of a table has a value for each.
    pub fn row_inputs(&self, alloc: Global, clock: Option<u32>) -> Result<Vec<u32>, AllocError>
        ensures value { IfOk result (λ r. r.items ≡ inputs_but clock self.now.inputs) }
        ensures inside { IfOk result (λ r. All (λ id. id < length self.now.signals) r.items) }
    {
        all_but(alloc, clock, self.input_list())
    }

    /// The driver of a part of the walk; any other part has none.
    pub fn driver_of(&self, part: Part) -> Option<Driver<'a>>
        ensures some { IfSome result (λ d. plain_driver d ≡ driver_of_part (plain_flat self.now) part) }
        ensures sound { IfSome result (λ d. IsDriver self.now.signals self.now.scopes d) }
        ensures none { IfNone result (driver_of_part (plain_flat self.now) part ≡ no_driver) }
    {
        match part {
            Part::Driver(number) => self.driver(number),
            Part::Clocked(_) | Part::Combinational(_) | Part::Initial(_) => None,
        }
    }

    /// The block of a part of the walk; any other part has none.
    pub fn block_of(&self, part: Part) -> Option<Block<'a>>
        ensures some { IfSome result (λ b. plain_block b ≡ block_of_part (plain_flat self.now) part) }
        ensures sound { IfSome result (λ b. IsBlock self.now.scopes b) }
        ensures none { IfNone result (block_of_part (plain_flat self.now) part ≡ no_block) }
    {
        match part {
            Part::Driver(_) | Part::Initial(_) => None,
            Part::Clocked(number) => self.clocked_block(number),
            Part::Combinational(number) => self.combinational_block(number),
        }
    }

    /// The `initial` item of a part of the walk; any other part has none.
    pub fn initial_of(&self, part: Part) -> Option<Initial<'a>>
        ensures some { IfSome result (λ x. plain_initial x ≡ initial_of_part (plain_flat self.now) part) }
        ensures sound { IfSome result (λ x. IsInitial self.now.scopes x) }
        ensures none { IfNone result (initial_of_part (plain_flat self.now) part ≡ no_initial) }
    {
        match part {
            Part::Driver(_) | Part::Clocked(_) | Part::Combinational(_) => None,
            Part::Initial(number) => self.initial(number),
        }
    }
}

fn is_clock(clock: Option<u32>, id: u32) -> bool
    ensures { result ≡ is_clock_of clock id }
{
    match clock {
        Some(clock) => clock == id,
        None => false,
    }
}

/// These but the clock, in their order.
fn all_but(alloc: Global, clock: Option<u32>, ids: &[u32]) -> Result<Vec<u32>, AllocError>
    ensures { IfOk result (λ r. r.items ≡ inputs_but clock ids.now) }
{
    let mut others = Vec::new(alloc);
    for &id in ids.iter() {
        if !is_clock(clock, id) {
            others.push(id)?;
        }
    }
    Ok(others)
}

/// Whether an expression has its value in no environment: no signal stands in it (IEEE 1364-2005
/// section 4.1).
pub fn is_constant(expr: &Expr, scope: &Scope) -> bool
    ensures { result ≡ is_constant_in scope.now (plain expr.now) }
{
    match constant(expr, scope) {
        Ok(_) => true,
        Err(_) => false,
    }
}
