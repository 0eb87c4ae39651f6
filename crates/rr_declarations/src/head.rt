//! The head of an instance: its parameters and its signals (IEEE 1364-2005 section 12).
ghost use Rattle.std.specs.Prelude.{◌≡◌, ◌≤◌, ◌+◌, ℕ, MatchResult, OnOk, IfOk, Ok, map, fold, length, All};
ghost use Rattle.rr_syntax.specs.View.{plain_identifier, plain_declarator, plain_port, plain_module};
ghost use Rattle.rr_flat.specs.Faults.{Refuses, and_then};
ghost use Rattle.rr_declarations.specs.Parameters.{parameters as parameters_of};
ghost use Rattle.rr_declarations.specs.Heads.{with_port as port_next, with_identifier as identifier_next, with_declarator as declarator_next, with_ports as ports_next, with_inner as inner_next, declared_in_order, joined as joined_signals, declared as declared_of, with_signals as signals_named, numbered as numbered_in, head as head_of};
ghost use Rattle.rr_flat.specs.View.{plain_signal};
ghost use Rattle.rr_declarations.specs.View.{plain_declared, plain_list, plain_declarations, plain_head};
ghost use Rattle.rr_flat.specs.Sound.{IsOwn, AreNamed};
ghost use Rattle.rr_declarations.specs.Sound.{HasWords, IsDeclared, ArePlaces};

use crate::FLAT_BITS;
use crate::brackets::{brackets, plain_names};
use crate::declare::{Declarations, Declared, is_port};
use crate::known::know_module;
use crate::parameters::{parameters, put};
use rr_expr::Scope;
use rr_flat::{FlatFault, Limit, Signal};
use rr_memory_words::{add_words, word_count, words_entity};
use rr_syntax::{Declarator, Group, Module, Named};
use std::alloc::{AllocError, Global};
use std::marker::Model;

/// The head of an instance: its number, the number of its first signal, the flat bits of the design
/// with its signals, its signals, the ports first in the order of the port brackets and the words of a
/// memory one after the other, and its names: the parameters with their values, and the signals with
/// their numbers.
#[derive(Drop)]
pub struct Head<'a> {
    pub instance: u32,
    pub base: u32,
    pub bits: u64,
    pub signals: Vec<Signal<'a>>,
    pub scope: Scope<'a>,
}

impl<'a> Model for Head<'a> {
    ghost use Rattle.rr_declarations.specs.View.{Opening};
    ghost use Rattle.rr_flat.specs.Sound.{IsHead};

    ghost Value = { Opening };

    ghost view = { λ h. record { instance = h.instance; base = h.base; bits = h.bits; signals = h.signals.items; scope = h.scope } };

    ghost invariant = { λ h. IsHead h.instance h.base h.bits h.signals.items h.scope };
}

/// The port of that name goes next.
#[tactic(auto, unfolding(crate::specs::Heads::with_port))]
fn add_port<'a>(
    order: &mut Vec<Declared<'a>>,
    declared: &Declarations<'a>,
    name: &str,
) -> Result<(), AllocError>
    ensures value { OnOk result (plain_list order.new.items ≡ port_next (plain_declarations declared.now) (plain_list order.old.items) name.now) }
    ensures sound { OnOk result (All (IsDeclared declared.now.instance) order.old.items → All (IsDeclared declared.now.instance) order.new.items) }
{
    match declared.named(name) {
        Some(port) => {
            order.push(port)?;
            Ok(())
        }
        None => Ok(()),
    }
}

fn add_identifiers<'a>(
    order: &mut Vec<Declared<'a>>,
    declared: &Declarations<'a>,
    names: &[Named],
) -> Result<(), AllocError>
    ensures value { OnOk result (plain_list order.new.items ≡ fold (identifier_next (plain_declarations declared.now)) (plain_list order.old.items) (map plain_identifier names.now)) }
    ensures sound { OnOk result (All (IsDeclared declared.now.instance) order.old.items → All (IsDeclared declared.now.instance) order.new.items) }
{
    for named in names.iter() {
        add_port(order, declared, named.name)?;
    }
    Ok(())
}

fn add_declarators<'a>(
    order: &mut Vec<Declared<'a>>,
    declared: &Declarations<'a>,
    names: &[Declarator],
) -> Result<(), AllocError>
    ensures value { OnOk result (plain_list order.new.items ≡ fold (declarator_next (plain_declarations declared.now)) (plain_list order.old.items) (map plain_declarator names.now)) }
    ensures sound { OnOk result (All (IsDeclared declared.now.instance) order.old.items → All (IsDeclared declared.now.instance) order.new.items) }
{
    for declarator in names.iter() {
        add_port(order, declared, declarator.name)?;
    }
    Ok(())
}

#[tactic(auto, unfolding(crate::specs::Heads::with_ports, rr_syntax::specs::View::plain_port))]
fn add_group<'a>(
    order: &mut Vec<Declared<'a>>,
    declared: &Declarations<'a>,
    group: &Group,
) -> Result<(), AllocError>
    ensures value { OnOk result (plain_list order.new.items ≡ ports_next (plain_declarations declared.now) (plain_list order.old.items) (plain_port group.now)) }
    ensures sound { OnOk result (All (IsDeclared declared.now.instance) order.old.items → All (IsDeclared declared.now.instance) order.new.items) }
{
    add_declarators(order, declared, group.names)
}

fn add_groups<'a>(
    order: &mut Vec<Declared<'a>>,
    declared: &Declarations<'a>,
    groups: &[Group],
) -> Result<(), AllocError>
    ensures value { OnOk result (plain_list order.new.items ≡ fold (ports_next (plain_declarations declared.now)) (plain_list order.old.items) (map plain_port groups.now)) }
    ensures sound { OnOk result (All (IsDeclared declared.now.instance) order.old.items → All (IsDeclared declared.now.instance) order.new.items) }
{
    for group in groups.iter() {
        add_group(order, declared, group)?;
    }
    Ok(())
}

/// A declaration that is no port goes next.
#[tactic(auto, unfolding(crate::specs::Heads::with_inner))]
fn add_inner<'a>(order: &mut Vec<Declared<'a>>, declared: &Declared<'a>) -> Result<(), AllocError>
    ensures value { OnOk result (plain_list order.new.items ≡ inner_next (plain_list order.old.items) (plain_declared declared.now)) }
    ensures sound { OnOk result ((i : ℕ) → IsDeclared i declared.now → All (IsDeclared i) order.old.items → All (IsDeclared i) order.new.items) }
{
    if is_port(declared.signal.port) {
        return Ok(());
    }
    order.push(*declared)?;
    Ok(())
}

fn add_inners<'a>(order: &mut Vec<Declared<'a>>, list: &[Declared<'a>]) -> Result<(), AllocError>
    ensures value { OnOk result (plain_list order.new.items ≡ fold inner_next (plain_list order.old.items) (plain_list list.now)) }
    ensures sound { OnOk result ((i : ℕ) → All (IsDeclared i) list.now → All (IsDeclared i) order.old.items → All (IsDeclared i) order.new.items) }
{
    for declared in list.iter() {
        add_inner(order, declared)?;
    }
    Ok(())
}

/// The declarations of an instance, the ports first in the order of the brackets.
#[tactic(auto, unfolding(crate::specs::Heads::declared_in_order, rr_syntax::specs::View::plain_module))]
fn in_order<'a>(
    alloc: Global,
    own: &Module<'a>,
    declared: &Declarations<'a>,
) -> Result<Vec<Declared<'a>>, AllocError>
    ensures value { IfOk result (λ v. plain_list v.items ≡ declared_in_order (plain_module own.now) (plain_declarations declared.now)) }
    ensures sound { IfOk result (λ v. All (IsDeclared declared.now.instance) v.items) }
{
    let mut order = Vec::new(alloc);
    add_identifiers(&mut order, declared, plain_names(own))?;
    add_groups(&mut order, declared, own.groups)?;
    add_inners(&mut order, declared.list.as_slice())?;
    Ok(order)
}

/// The signals of all declarations: of each its one signal, or its words.
fn joined<'a>(alloc: Global, list: &[Declared<'a>]) -> Result<Vec<Signal<'a>>, AllocError>
    requires { All HasWords list.now }
    ensures value { IfOk result (λ v. map plain_signal v.items ≡ joined_signals (plain_list list.now)) }
    ensures sound { IfOk result (λ v. (i : ℕ) → All (IsDeclared i) list.now → All (IsOwn i) v.items) }
{
    let mut signals = Vec::new(alloc);
    for declared in list.iter() {
        add_words(&mut signals, &declared.signal, declared.words)?;
    }
    Ok(signals)
}

/// Gives each name the number of its first signal.
fn name_signals<'a>(
    names: &mut Scope<'a>,
    base: u32,
    list: &[Declared<'a>],
) -> Result<(), AllocError>
    requires few { base + length (joined_signals (plain_list list.now)) ≤ 65536 }
    requires words { All HasWords list.now }
    ensures value { OnOk result (names.new ≡ signals_named base (plain_list list.now) names.old) }
    ensures sound { OnOk result (AreNamed base (joined_signals (plain_list list.now)) names.old → AreNamed base (joined_signals (plain_list list.now)) names.new) }
{
    let mut id = base;
    for declared in list.iter() {
        let entity = words_entity(id, &declared.signal, declared.words);
        put(names, declared.signal.name, entity)?;
        id += word_count(declared.words);
    }
    Ok(())
}

/// The names of the port brackets, then the declarations.
#[tactic(auto, unfolding(crate::specs::Heads::declared, crate::specs::Declarations::declarations, rr_syntax::specs::View::plain_module))]
fn declared_in<'a>(
    alloc: Global,
    instance: u32,
    bits: u64,
    given: &Scope,
    own: &Module<'a>,
) -> Result<Declarations<'a>, FlatFault>
    requires { bits ≤ 65536 }
    ensures value { MatchResult result
        (λ d. and_then (parameters_of given.now (plain_module own.now)) (declared_of instance bits (plain_module own.now)) ≡ Ok (plain_declarations d))
        (Refuses (and_then (parameters_of given.now (plain_module own.now)) (declared_of instance bits (plain_module own.now)))) }
    ensures same { IfOk result (λ d. d.instance ≡ instance) }
{
    let names = parameters(alloc, given, own)?;
    let mut known = parameters(alloc, given, own)?;
    let bracketed = brackets(alloc, own)?;
    know_module(&mut known, own)?;
    let mut declared = Declarations::new(alloc, instance, names, bits);
    declared.declare_groups(&bracketed, &known, own.groups)?;
    declared.declare_items(&bracketed, &known, own.items)?;
    Ok(declared)
}

/// The head of declarations in their order, where the names are those of the parameters.
#[tactic(auto, unfolding(crate::specs::Heads::numbered))]
fn numbered<'a>(
    alloc: Global,
    instance: u32,
    base: u32,
    bits: u64,
    list: &[Declared<'a>],
    names: Scope<'a>,
) -> Result<Head<'a>, FlatFault>
    requires first { base ≤ 65536 }
    requires few { bits ≤ 65536 }
    requires sound { All (IsDeclared instance) list.now }
    requires constants { ArePlaces 0 names }
    ensures value { MatchResult result
        (λ h. numbered_in instance base bits (plain_list list.now) names.entry ≡ Ok (plain_head h))
        (Refuses (numbered_in instance base bits (plain_list list.now) names.entry)) }
    ensures same { IfOk result (λ h. (h.instance ≡ instance) × (h.base ≡ base)) }
{
    let signals = joined(alloc, list)?;
    let count = base as u64 + signals.len() as u64;
    if count > FLAT_BITS {
        return Err(FlatFault::TooMany(Limit::FlatBits, count));
    }
    let mut scope = names;
    name_signals(&mut scope, base, list)?;
    Ok(Head {
        instance,
        base,
        bits,
        signals,
        scope,
    })
}

/// The head of an instance of a module (IEEE 1364-2005 section 12), or its first fault: of instance
/// `instance`, whose first signal has the number `base`, in a design of `bits` flat bits before it,
/// where `given` has the values that override parameters.
#[tactic(auto, unfolding(crate::specs::Heads::head))]
pub fn open_head<'a>(
    alloc: Global,
    instance: u32,
    base: u32,
    bits: u64,
    given: &Scope,
    own: &Module<'a>,
) -> Result<Head<'a>, FlatFault>
    requires first { base ≤ 65536 }
    requires few { bits ≤ 65536 }
    ensures head { MatchResult result
        (λ h. head_of instance base bits given.now (plain_module own.now) ≡ Ok (plain_head h))
        (Refuses (head_of instance base bits given.now (plain_module own.now))) }
    ensures same { IfOk result (λ h. (h.instance ≡ instance) × (h.base ≡ base)) }
{
    let names = parameters(alloc, given, own)?;
    let declared = declared_in(alloc, instance, bits, given, own)?;
    let order = in_order(alloc, own, &declared)?;
    let bits = declared.bits;
    numbered(alloc, instance, base, bits, order.as_slice(), names)
}
