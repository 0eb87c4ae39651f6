//! The integers of a module that name its loops.

ghost use Rattle.std.specs.Prelude.{◌≡◌, ◌++◌, [], IfOk, OnOk, flat_map, fold, map};
ghost use Rattle.rr_syntax.specs.View.{plain_arms, plain_identifier, plain_item, plain_module, plain_statement, plain_statements};
ghost use Rattle.rr_loop_rules.specs.Rules.{contains, integers_of, integers_of_item, loop_names as names_of_loops, loops_in, loops_in_all, loops_in_arms, loops_of, loops_of_item, with_integer, with_new};

use indexmap::IndexSet;
use rr_syntax::{Arm, Item, Module, Named, Stmt};
use std::alloc::{AllocError, Global};
use std::marker::Model;

/// Names of loops, each once, in the order in which they were added. The texts are borrowed.
#[derive(Drop)]
pub struct LoopNames<'a> {
    names: IndexSet<&'a str>,
}

impl<'a> Model for LoopNames<'a> {
    ghost use Rattle.std.specs.Prelude.{ℕ, List, map};

    ghost Value = { List (List ℕ) };

    ghost view = { λ s. map (λ n. n.now) s.names.keys };
}

impl<'a> LoopNames<'a> {
    /// No names.
    pub fn new(alloc: Global) -> LoopNames<'a>
        ensures { result ≡ [] }
    {
        LoopNames {
            names: IndexSet::new(alloc),
        }
    }

    /// Whether a name is one of them.
    pub fn has(&self, name: &str) -> bool
        ensures { result ≡ contains self.now name.now }
    {
        self.names.contains(name)
    }

    /// Adds a name behind the others, where it is not there.
    fn add(&mut self, name: &'a str) -> Result<(), AllocError>
        ensures { OnOk result (self.new ≡ with_new self.old name.now) }
    {
        match self.names.insert(name) {
            Ok(_) => Ok(()),
            Err(_) => Err(AllocError),
        }
    }
}

/// Adds the names of the loops of a statement.
#[cycle(loops)]
#[tactic(auto, using(crate::proofs::LoopsOfNodes::statement_loops))]
fn add_loops<'a>(loops: &mut LoopNames<'a>, stmt: &Stmt<'a>) -> Result<(), AllocError>
    ensures { OnOk result (loops.new ≡ fold with_new loops.old (loops_in (plain_statement stmt.now))) }
{
    match stmt {
        Stmt::Null | Stmt::Assign { .. } => Ok(()),
        Stmt::Block { body, .. } => add_loops_of_all(loops, body),
        Stmt::If { yes, no: None, .. } => add_loops(loops, yes),
        Stmt::If {
            yes,
            no: Some(other),
            ..
        } => {
            add_loops(loops, yes)?;
            add_loops(loops, other)
        }
        Stmt::Case { arms, .. } => add_loops_of_arms(loops, arms),
        Stmt::For { head, body } => {
            loops.add(head.name)?;
            add_loops(loops, body)
        }
    }
}

#[cycle(loops)]
fn add_loops_of_all<'a>(loops: &mut LoopNames<'a>, body: &[Stmt<'a>]) -> Result<(), AllocError>
    ensures { OnOk result (loops.new ≡ fold with_new loops.old (loops_in_all (plain_statements body.now))) }
{
    for stmt in body.iter() {
        add_loops(loops, stmt)?;
    }
    Ok(())
}

#[cycle(loops)]
fn add_loops_of_arms<'a>(loops: &mut LoopNames<'a>, arms: &[Arm<'a>]) -> Result<(), AllocError>
    ensures { OnOk result (loops.new ≡ fold with_new loops.old (loops_in_arms (plain_arms arms.now))) }
{
    for arm in arms.iter() {
        add_loops(loops, arm.body)?;
    }
    Ok(())
}

/// Adds the names of the loops of an item.
#[tactic(auto, using(crate::proofs::LoopsOfItems::item_loops))]
fn add_item_loops<'a>(loops: &mut LoopNames<'a>, item: &Item<'a>) -> Result<(), AllocError>
    ensures { OnOk result (loops.new ≡ fold with_new loops.old (loops_of_item (plain_item item.now))) }
{
    match item {
        Item::Always { body, .. } | Item::Initial { body, .. } => add_loops(loops, body),
        Item::Ports(_)
        | Item::Nets { .. }
        | Item::Variables { .. }
        | Item::Integers { .. }
        | Item::Parameters(_)
        | Item::Assigns { .. }
        | Item::Instances { .. } => Ok(()),
    }
}

/// The names of the loops of several items.
fn loops_of_items<'a>(alloc: Global, items: &[Item<'a>]) -> Result<LoopNames<'a>, AllocError>
    ensures { IfOk result (λ r. r ≡ fold with_new [] (loops_of (map plain_item items.now))) }
{
    let mut loops = LoopNames::new(alloc);
    for item in items.iter() {
        add_item_loops(&mut loops, item)?;
    }
    Ok(loops)
}

/// Adds an integer that names a loop.
fn add_integer<'a>(
    names: &mut LoopNames<'a>,
    loops: &LoopNames,
    name: &'a str,
) -> Result<(), AllocError>
    ensures { OnOk result (names.new ≡ with_integer loops.now names.old name.now) }
{
    if loops.has(name) {
        names.add(name)
    } else {
        Ok(())
    }
}

/// Adds those of several integers that name loops.
fn add_integers<'a>(
    names: &mut LoopNames<'a>,
    loops: &LoopNames,
    list: &[Named<'a>],
) -> Result<(), AllocError>
    ensures { OnOk result (names.new ≡ fold (with_integer loops.now) names.old (map (λ n. n.name.now) list.now)) }
{
    for integer in list.iter() {
        add_integer(names, loops, integer.name)?;
    }
    Ok(())
}

/// Adds those integers of an item that name loops.
#[tactic(auto, using(crate::proofs::LoopsOfItems::item_integers))]
fn add_item_integers<'a>(
    names: &mut LoopNames<'a>,
    loops: &LoopNames,
    item: &Item<'a>,
) -> Result<(), AllocError>
    ensures { OnOk result (names.new ≡ fold (with_integer loops.now) names.old (integers_of_item (plain_item item.now))) }
{
    match item {
        Item::Integers { names: list } => add_integers(names, loops, list),
        Item::Ports(_)
        | Item::Nets { .. }
        | Item::Variables { .. }
        | Item::Parameters(_)
        | Item::Assigns { .. }
        | Item::Always { .. }
        | Item::Initial { .. }
        | Item::Instances { .. } => Ok(()),
    }
}

/// Those integers of several items that name loops, each once, in the order of their declarations.
fn integers_of_items<'a>(
    alloc: Global,
    loops: &LoopNames,
    items: &[Item<'a>],
) -> Result<LoopNames<'a>, AllocError>
    ensures { IfOk result (λ r. r ≡ fold (with_integer loops.now) [] (integers_of (map plain_item items.now))) }
{
    let mut names = LoopNames::new(alloc);
    for item in items.iter() {
        add_item_integers(&mut names, loops, item)?;
    }
    Ok(names)
}

/// The integers of a module that name its loops, each once, in the order of their declarations.
pub fn loop_names<'a>(alloc: Global, module: &Module<'a>) -> Result<LoopNames<'a>, AllocError>
    ensures { IfOk result (λ r. r ≡ names_of_loops (plain_module «module».now)) }
{
    let loops = loops_of_items(alloc, module.items)?;
    let names = integers_of_items(alloc, &loops, module.items)?;
    Ok(names)
}
