//! The flat design.
ghost use Rattle.std.specs.Prelude.{ℕ, ◌≡◌, ◌+◌, ◌^◌, ◌≤◌, ◌<◌, ◌++◌, ◌∷◌, [], length, map, slice_set, vec_capacity, vec_len, OnOk, OnErr, IfOk, All};
ghost use Rattle.rr_expr.specs.declared.types.Entity.TheVariants as entity;
ghost use Rattle.rr_flat.specs.Signals.{signal_at, with_name};
ghost use Rattle.rr_flat.specs.declared.design.Part.TheVariants as part;
ghost use Rattle.rr_flat.specs.Sound.{IsDriver, IsBlock, IsHead, IsInitial, names_at};
ghost use Rattle.rr_flat.specs.View.{plain_flat};
ghost use Rattle.rr_flat.specs.Plain.{no_design};

use crate::signal::Signal;
use rr_expr::{Entity, Scope};
use rr_syntax::{Event, Expr, Stmt};
use std::alloc::{AllocError, Global};
use std::marker::Model;

/// One side of a driver: an expression with the number of its scope, or a whole signal.
#[derive(Clone, Copy)]
pub enum Side<'a> {
    Text { expr: &'a Expr<'a>, scope: u32 },
    Whole(u32),
}

/// What drives a target for ever: a continuous assignment (IEEE 1364-2005 section 6.1), a net
/// declaration with a value (section 6.1.1) or a port connection (section 12.3.9.2). The token is the
/// first of its target's text, or of its value's where the target is a port.
#[derive(Clone, Copy)]
pub struct Driver<'a> {
    pub target: Side<'a>,
    pub value: Side<'a>,
    pub token: u32,
}

/// An `always` of an instance (section 9.9.2). A combinational one has no edges. The token is that of
/// the word `always`.
#[derive(Clone, Copy)]
pub struct Block<'a> {
    pub body: &'a Stmt<'a>,
    pub edges: &'a [Event<'a>],
    pub scope: u32,
    pub token: u32,
}

/// An `initial` of an instance (section 9.9.1). The token is that of the word.
#[derive(Clone, Copy)]
pub struct Initial<'a> {
    pub body: &'a Stmt<'a>,
    pub scope: u32,
    pub token: u32,
}

/// A step of a cycle: a driver, a bit of a driver that only wires, counted from the lowest bit of its
/// target, or a combinational block.
#[derive(Clone, Copy, Debug, PartialEq, Eq)]
pub enum Step {
    Driver(u32),
    Wire { driver: u32, bit: u32 },
    Block(u32),
}

/// A driver, a block or an `initial` item of the walk, by its number in its list.
#[derive(Clone, Copy, Debug, PartialEq, Eq)]
pub enum Part {
    Driver(u32),
    Clocked(u32),
    Combinational(u32),
    Initial(u32),
}

/// The clock, by the number of its signal, and its edge, and the steps in an order in which each bit
/// is written before it is read.
#[derive(Drop)]
pub struct Order {
    pub clock: Option<u32>,
    pub rising: bool,
    pub steps: Vec<Step>,
}

/// The flat design of a source (IEEE 1364-2005 section 12): all signals, numbered in the order of the
/// walk, with the value that each begins with (`starts`), and for each instance, in the order of the
/// walk, its scope, its module's number (`owners`), its drivers, its blocks and its `initial` items.
/// `top` is the token of the top module's name, and `walk` has each driver, block and `initial` item
/// once, in the order in which the walk met them. `inputs` and `outputs` are the ports of the top by their signals'
/// numbers, in the order of its port brackets; `reached` has the modules of the instances, each once,
/// in source order. Each number names an entry, and each expression has a shape in its scope.
#[derive(Drop)]
pub struct Flat<'a> {
    pub top: u32,
    pub signals: Vec<Signal<'a>>,
    pub starts: Vec<u128>,
    pub scopes: Vec<Scope<'a>>,
    pub drivers: Vec<Driver<'a>>,
    pub clocked: Vec<Block<'a>>,
    pub combinational: Vec<Block<'a>>,
    pub initials: Vec<Initial<'a>>,
    pub walk: Vec<Part>,
    pub inputs: Vec<u32>,
    pub outputs: Vec<u32>,
    pub owners: Vec<u32>,
    pub reached: Vec<u32>,
}

impl<'a> Model for Flat<'a> {
    ghost use mir.Syntax.{named};
    ghost use Rattle.std.specs.Prelude.{[]};
    ghost use Rattle.std.specs.Coded.{codes};
    ghost use Rattle.rr_syntax.specs.contracts.tree.Expr as e;
    ghost use Rattle.rr_syntax.specs.contracts.tree.Stmt as s;
    ghost use Rattle.rr_flat.specs.View.{Design};
    ghost use Rattle.rr_flat.specs.Sound.{IsFlat};

    ghost Value = { Design };

    ghost coded = { Prim.hlevel (codes, (e.the_row record { mir = named 0; lft = [] }).coded, (s.the_row record { mir = named 0; lft = [] }).coded) };

    ghost view = { λ f. record {
      top = f.top;
      signals = f.signals.items;
      starts = f.starts.items;
      scopes = f.scopes.items;
      drivers = f.drivers.items;
      clocked = f.clocked.items;
      combinational = f.combinational.items;
      initials = f.initials.items;
      walk = f.walk.items;
      inputs = f.inputs.items;
      outputs = f.outputs.items;
      owners = f.owners.items;
      reached = f.reached.items;
    } };

    ghost invariant = { λ f. IsFlat f.signals.items f.scopes.items f.drivers.items f.clocked.items f.combinational.items f.walk.items f.inputs.items f.outputs.items f.owners.items f.starts.items f.initials.items };
}

impl<'a> Flat<'a> {
    /// No instances, where the name of the top has this token.
    pub fn new(alloc: Global, top: u32) -> Flat<'a>
        ensures { plain_flat result ≡ no_design top }
    {
        Flat {
            top,
            signals: Vec::new(alloc),
            starts: Vec::new(alloc),
            scopes: Vec::new(alloc),
            drivers: Vec::new(alloc),
            clocked: Vec::new(alloc),
            combinational: Vec::new(alloc),
            initials: Vec::new(alloc),
            walk: Vec::new(alloc),
            inputs: Vec::new(alloc),
            outputs: Vec::new(alloc),
            owners: Vec::new(alloc),
            reached: Vec::new(alloc),
        }
    }

    /// One more driver.
    pub fn drive(&mut self, driver: Driver<'a>) -> Result<(), AllocError>
        requires { IsDriver self.old.signals self.old.scopes driver }
        ensures { OnOk result (self.new ≡ record self.old { drivers = self.old.drivers ++ driver.entry ∷ []; walk = self.old.walk ++ part.Driver (length self.old.drivers) ∷ [] }) }
    {
        let number = number_of(self.drivers.len())?;
        self.walk.reserve(1)?;
        self.drivers.push(driver)?;
        self.walk.push_reserved(Part::Driver(number));
        Ok(())
    }

    /// One more clocked block.
    pub fn clock(&mut self, block: Block<'a>) -> Result<(), AllocError>
        requires { IsBlock self.old.scopes block }
        ensures { OnOk result (self.new ≡ record self.old { clocked = self.old.clocked ++ block.entry ∷ []; walk = self.old.walk ++ part.Clocked (length self.old.clocked) ∷ [] }) }
    {
        let number = number_of(self.clocked.len())?;
        self.walk.reserve(1)?;
        self.clocked.push(block)?;
        self.walk.push_reserved(Part::Clocked(number));
        Ok(())
    }

    /// One more combinational block.
    pub fn combine(&mut self, block: Block<'a>) -> Result<(), AllocError>
        requires { IsBlock self.old.scopes block }
        ensures { OnOk result (self.new ≡ record self.old { combinational = self.old.combinational ++ block.entry ∷ []; walk = self.old.walk ++ part.Combinational (length self.old.combinational) ∷ [] }) }
    {
        let number = number_of(self.combinational.len())?;
        self.walk.reserve(1)?;
        self.combinational.push(block)?;
        self.walk.push_reserved(Part::Combinational(number));
        Ok(())
    }

    /// One more `initial` item.
    pub fn begin(&mut self, initial: Initial<'a>) -> Result<(), AllocError>
        requires { IsInitial self.old.scopes initial }
        ensures { OnOk result (self.new ≡ record self.old { initials = self.old.initials ++ initial.entry ∷ []; walk = self.old.walk ++ part.Initial (length self.old.initials) ∷ [] }) }
    {
        let number = number_of(self.initials.len())?;
        self.walk.reserve(1)?;
        self.initials.push(initial)?;
        self.walk.push_reserved(Part::Initial(number));
        Ok(())
    }

    /// Another starting value of a signal.
    pub fn start(&mut self, id: u32, value: u128)
        requires there { id < length self.old.signals }
        requires fits { value < 2 ^ (signal_at (plain_flat self.old).signals id).width }
        ensures { self.new ≡ record self.old { starts = slice_set self.old.starts id value } }
    {
        self.starts[id as usize] = value;
    }

    /// One more instance of that module, with its signals, which begin with the starting values of
    /// their declarations, and its names.
    pub fn open(
        &mut self,
        owner: u32,
        signals: &[Signal<'a>],
        scope: Scope<'a>,
    ) -> Result<(), AllocError>
        requires head { (bits : ℕ) × IsHead (length self.old.scopes) (length self.old.signals) bits signals.now scope }
        requires few { length self.old.scopes < 256 }
        ensures { OnOk result (self.new ≡ record self.old { signals = self.old.signals ++ signals.now; starts = self.old.starts ++ map (λ s. s.start) signals.now; scopes = self.old.scopes ++ scope.entry ∷ []; owners = self.old.owners ++ owner ∷ [] }) }
    {
        self.scopes.reserve(1)?;
        self.owners.reserve(1)?;
        self.starts.reserve(signals.len())?;
        self.signals.extend_from_slice(signals)?;
        add_starts(&mut self.starts, signals);
        self.owners.push_reserved(owner);
        self.scopes.push_reserved(scope);
        Ok(())
    }

    /// A name of an instance, in the instance that has it.
    pub fn name_instance(&mut self, number: u32, name: &'a str) -> Result<(), AllocError>
        requires { number < length self.old.scopes }
        ensures { OnOk result (self.new ≡ record self.old { scopes = slice_set self.old.scopes number (with_name (names_at self.old.scopes number) name.now entity.Instance) }) }
    {
        add_instance(&mut self.scopes[number as usize], name)?;
        Ok(())
    }

    /// The ports of the top, and the modules that have instances.
    pub fn finish(&mut self, inputs: Vec<u32>, outputs: Vec<u32>, reached: Vec<u32>)
        requires inputs { All (λ id. id < length self.old.signals) inputs.items }
        requires outputs { All (λ id. id < length self.old.signals) outputs.items }
        ensures { self.new ≡ record self.old { inputs = inputs.items; outputs = outputs.items; reached = reached.items } }
    {
        self.inputs = inputs;
        self.outputs = outputs;
        self.reached = reached;
    }
}

/// The number that comes after so many; want of memory where 32 bits do not hold it.
pub fn number_of(count: usize) -> Result<u32, AllocError>
    ensures { IfOk result (λ n. n ≡ count) }
{
    if count > u32::MAX as usize {
        return Err(AllocError);
    }
    Ok(count as u32)
}

/// The starting values of declarations go last; there is room for them.
fn add_starts(starts: &mut Vec<u128>, signals: &[Signal])
    requires room { vec_len starts.old + length signals.now ≤ vec_capacity starts.old }
    ensures { starts.new.items ≡ starts.old.items ++ map (λ s. s.start) signals.now }
{
    for signal in signals.iter() {
        starts.push_reserved(signal.start);
    }
}

/// The name of an instance goes last, if it is new; where memory runs out nothing has changed.
fn add_instance<'a>(names: &mut Scope<'a>, name: &'a str) -> Result<(), AllocError>
    ensures added { OnOk result (names.new ≡ with_name names.old name.now entity.Instance) }
    ensures unchanged { OnErr result (names.new ≡ names.old) }
{
    names.add(name, Entity::Instance)?;
    Ok(())
}
