//! The declarations of a module (IEEE 1364-2005 sections 3.2, 3.3, 3.9, 4.9.3 and 12.3).
ghost use Rattle.std.specs.Prelude.{◌≡◌, ◌≤◌, ◌<◌, ◌^◌, ℕ, [], MatchResult, OnOk, All, option_map, slice_get, IfSome, map, Ok, Some, None, length, fold, is_some, is_none, ◌&&◌, ◌||◌, if◌then◌else◌};
ghost use Rattle.rr_expr.specs.Scopes.{lookup, range_width as width_of_range};
ghost use Rattle.rr_syntax.specs.View.{plain_port, plain_identifier, plain_declarator, plain_range, plain_item};
ghost use Rattle.rr_flat.specs.Faults.{Refuses, each, fault_if, faults_in, sooner};
ghost use Rattle.rr_flat.specs.declared.fault.FlatFault.TheVariants.{NameTwice, UnknownName};
ghost use Rattle.rr_declarations.specs.Parameters.{width_faults};
ghost use Rattle.rr_declarations.specs.Declarations.{port_of as port_in, is_reg as is_reg_in, is_port as is_port_in, inner_declaration as inner_declared, is_same_range as is_same, counted, declare_new as declare_new_in, declare_again as declare_again_in, again_place as again_place_in, repeated_place, declared_at, declare as declare_in, declare_integer as declare_integer_in, declare_ports as declare_ports_in, declare_nets as declare_nets_in, declare_variables as declare_variables_in, declare_item as declare_item_in};
ghost use Rattle.rr_declarations.specs.Heads.{named_declared};
ghost use Rattle.rr_memory_words.specs.Words.{AreWords};
ghost use Rattle.rr_declarations.specs.View.{plain_declared, plain_declarations, plain_list};
ghost use Rattle.rr_declarations.specs.Sound.{IsRange, ArePlaces, IsDeclared};

use crate::FLAT_BITS;
use crate::parameters::put;
use crate::starts::{start_or, starting};
use crate::values::{range_of, range_width};
use crate::words::{bits_of_words, bounds_of, few_words, has_no_words};
use rr_expr::{Entity, Scope};
use rr_flat::{FlatFault, Limit, Port, Signal, note, note_if};
use rr_syntax::{Bounds, Declarator, Dir, Group, Item, Named};
use std::alloc::Global;
use std::marker::Model;

/// What a declaration says of each of its names. `repeats` says that it is a `wire` or `reg`, which
/// may declare a port once more.
#[derive(Clone, Copy)]
pub(crate) struct Declaration {
    pub(crate) port: Port,
    pub(crate) variable: bool,
    pub(crate) repeats: bool,
    pub(crate) signed: bool,
    pub(crate) range: Option<(u32, u32)>,
}

/// What an `integer` is (section 3.9).
const INTEGER: Declaration = Declaration {
    port: Port::Inner,
    variable: true,
    repeats: false,
    signed: true,
    range: Some((31, 0)),
};

/// A signal, with the lowest index and the number of its words where it has words (section 4.9.3), and
/// that a `wire` or `reg` may declare it once more: a port without `reg`.
#[derive(Clone, Copy)]
pub(crate) struct Declared<'a> {
    pub(crate) signal: Signal<'a>,
    pub(crate) words: Option<(u32, u32)>,
    pub(crate) again: bool,
}

/// The signals of an instance in the order of their declarations, the parameters with the signals by
/// their places in the list, and the bits of the design so far.
#[derive(Drop)]
pub(crate) struct Declarations<'a> {
    instance: u32,
    names: Scope<'a>,
    pub(crate) list: Vec<Declared<'a>>,
    pub(crate) bits: u64,
}

impl<'a> Model for Declarations<'a> {
    ghost use Rattle.rr_declarations.specs.View.{Listing};
    ghost use Rattle.rr_declarations.specs.Sound.{IsListing};

    ghost Value = { Listing };

    ghost view = { λ d. record { instance = d.instance; names = d.names; list = d.list.items; bits = d.bits } };

    ghost invariant = { λ d. IsListing d.instance d.names d.list.items d.bits };
}

pub(crate) fn is_port(port: Port) -> bool
    ensures { result ≡ is_port_in port }
{
    match port {
        Port::Inner => false,
        Port::Input | Port::Output => true,
    }
}

fn port_of(dir: Dir) -> Port
    ensures { result ≡ port_in dir }
{
    match dir {
        Dir::Input | Dir::InputWire => Port::Input,
        Dir::Output | Dir::OutputWire | Dir::OutputReg => Port::Output,
    }
}

fn is_reg(dir: Dir) -> bool
    ensures { result ≡ is_reg_in dir }
{
    match dir {
        Dir::OutputReg => true,
        Dir::Input | Dir::InputWire | Dir::Output | Dir::OutputWire => false,
    }
}

fn inner_declaration(variable: bool, signed: bool, range: Option<(u32, u32)>) -> Declaration
    ensures { result ≡ inner_declared variable signed range }
{
    Declaration {
        port: Port::Inner,
        variable,
        repeats: true,
        signed,
        range,
    }
}

/// Whether one of the declarations of a port is signed.
fn is_signed(one: bool, other: bool) -> bool
    ensures { result ≡ (one || other) }
{
    one || other
}

fn is_same_range(one: Option<(u32, u32)>, other: Option<(u32, u32)>) -> bool
    ensures { result ≡ is_same one other }
{
    match (one, other) {
        (None, None) => true,
        (Some(one), Some(other)) => one.0 == other.0 && one.1 == other.1,
        (None, Some(_)) | (Some(_), None) => false,
    }
}

/// The declaration at a place.
fn declared_there<'a>(list: &[Declared<'a>], place: u32) -> Option<Declared<'a>>
    ensures value { option_map plain_declared result ≡ slice_get (plain_list list.now) place }
    ensures sound { (i : ℕ) → All (IsDeclared i) list.now → IfSome result (λ x. IsDeclared i x) }
{
    match list.get(place as usize) {
        Some(declared) => Some(*declared),
        None => None,
    }
}

/// The place itself, where the signal there may be declared once more.
fn again_at(place: u32, list: &[Declared]) -> Option<u32>
    ensures value { result ≡ (if (declared_at (plain_list list.now) place).again then Some place else None) }
    ensures there { IfSome result (λ k. k < length list.now) }
{
    match list.get(place as usize) {
        Some(declared) if declared.again => Some(place),
        Some(_) | None => None,
    }
}

/// The place of a port that may be declared once more.
fn again_place(entity: &Option<Entity>, list: &[Declared]) -> Option<u32>
    ensures value { result ≡ again_place_in entity.now (plain_list list.now) }
    ensures there { IfSome result (λ k. k < length list.now) }
{
    match entity {
        Some(Entity::Signal { id, .. }) => again_at(*id, list),
        Some(Entity::Constant { .. })
        | Some(Entity::Memory { .. })
        | Some(Entity::Instance)
        | None => None,
    }
}

/// The first fault of a new name but for its starting value: it is there already, a port stands in no
/// brackets, the bounds of its words have one, or its range has more than 128 bits.
#[tactic(auto, using(crate::proofs::Firsts::narrow), unfolding(rr_syntax::specs::View::plain_declarator))]
fn note_new(
    names: &Scope,
    brackets: &Scope,
    one: &Declaration,
    name: &Declarator,
    bounds: &Result<Option<(u32, u32)>, FlatFault>,
) -> Option<FlatFault>
    requires { IsRange one.now.range }
    ensures all { result ≡ fold sooner (fold sooner (fold sooner (fold sooner None (fault_if (is_some (lookup (plain_declarator name.now).text names.now)) (NameTwice (plain_declarator name.now).token))) (fault_if (is_port_in one.now.port && is_none (lookup (plain_declarator name.now).text brackets.now)) (UnknownName (plain_declarator name.now).token))) (faults_in bounds.now)) (width_faults (plain_declarator name.now).token one.now.range) }
    ensures narrow { result ≡ None → width_of_range one.now.range ≤ 128 }
{
    let twice = names.find(name.name).is_some();
    let stray = is_port(one.port) && brackets.find(name.name).is_none();
    let width = range_width(one.range);
    let found = note_if(None, twice, FlatFault::NameTwice(name.token));
    let found = note_if(found, stray, FlatFault::UnknownName(name.token));
    let found = note(found, bounds);
    note_if(found, width > 128, FlatFault::TooWide(name.token, width))
}

impl<'a> Declarations<'a> {
    /// No signals.
    pub(crate) fn new(alloc: Global, instance: u32, names: Scope<'a>, bits: u64) -> Declarations<'a>
        requires constants { ArePlaces 0 names }
        requires few { bits ≤ 65536 }
        ensures { plain_declarations result ≡ record { instance = instance; names = names.entry; list = []; bits = bits } }
    {
        Declarations {
            instance,
            names,
            list: Vec::new(alloc),
            bits,
        }
    }

    /// One more signal, of a width that is that of its range, with those words and that starting value.
    #[tactic(auto, unfolding(rr_syntax::specs::View::plain_declarator))]
    fn append(
        &mut self,
        one: &Declaration,
        name: &Declarator<'a>,
        words: Option<(u32, u32)>,
        width: u32,
        start: u128,
    ) -> Result<(), FlatFault>
        requires width { width ≡ width_of_range one.now.range }
        requires low { 1 ≤ width }
        requires high { width ≤ 128 }
        requires words { AreWords one.now.variable one.now.port words }
        requires start { start < 2 ^ width }
        ensures value { MatchResult result
            (λ _. counted one.now (plain_declarator name.now) words start (plain_declarations self.old) ≡ Ok (plain_declarations self.new))
            (Refuses (counted one.now (plain_declarator name.now) words start (plain_declarations self.old))) }
        ensures same { OnOk result (self.new.instance ≡ self.old.instance) }
    {
        let bits = self.bits + bits_of_words(words, width);
        if bits > FLAT_BITS {
            return Err(FlatFault::TooMany(Limit::FlatBits, bits));
        }
        let place = self.list.len() as u32;
        self.list.reserve(1)?;
        let entity = Entity::Signal {
            id: place,
            range: None,
            signed: false,
        };
        put(&mut self.names, name.name, entity)?;
        let signal = Signal {
            instance: self.instance,
            name: name.name,
            variable: one.variable,
            port: one.port,
            range: one.range,
            signed: one.signed,
            width,
            token: name.token,
            word: None,
            start,
        };
        self.list.push_reserved(Declared {
            signal,
            words,
            again: is_port(one.port) && !one.variable,
        });
        self.bits = bits;
        Ok(())
    }

    /// One more signal; a port must stand in the brackets.
    #[tactic(auto, unfolding(rr_syntax::specs::View::plain_declarator))]
    fn declare_new(
        &mut self,
        brackets: &Scope,
        known: &Scope,
        one: &Declaration,
        name: &Declarator<'a>,
    ) -> Result<(), FlatFault>
        requires { IsRange one.now.range }
        ensures value { MatchResult result
            (λ _. declare_new_in brackets.now known.now one.now (plain_declarator name.now) (plain_declarations self.old) ≡ Ok (plain_declarations self.new))
            (Refuses (declare_new_in brackets.now known.now one.now (plain_declarator name.now) (plain_declarations self.old))) }
        ensures same { OnOk result (self.new.instance ≡ self.old.instance) }
    {
        let bounds = bounds_of(one, name, known);
        let found = note_new(&self.names, brackets, one, name, &bounds);
        let width = range_width(one.range);
        let start = start_or(found, 0, starting(one, name), known, width)?;
        let words = few_words(one, &bounds)?;
        self.append(one, name, words, width, start)
    }

    /// A port once more, with the same range.
    #[tactic(auto, unfolding(crate::specs::Declarations::declare_again, rr_syntax::specs::View::plain_declarator))]
    fn declare_again(
        &mut self,
        known: &Scope,
        one: &Declaration,
        name: &Declarator<'a>,
        place: u32,
    ) -> Result<(), FlatFault>
        requires { place < length self.old.list }
        ensures value { MatchResult result
            (λ _. declare_again_in known.now one.now (plain_declarator name.now) place (plain_declarations self.old) ≡ Ok (plain_declarations self.new))
            (Refuses (declare_again_in known.now one.now (plain_declarator name.now) place (plain_declarations self.old))) }
        ensures same { OnOk result (self.new.instance ≡ self.old.instance) }
    {
        let mut signal = self.list[place as usize].signal;
        let differs = !is_same_range(signal.range, one.range);
        let found = note_if(None, differs, FlatFault::BadRange(name.token));
        let value = starting(one, name);
        let start = start_or(found, signal.start, value, known, signal.width)?;
        signal.start = start;
        signal.variable = one.variable;
        signal.signed = is_signed(one.signed, signal.signed);
        self.list[place as usize] = Declared {
            signal,
            words: None,
            again: false,
        };
        Ok(())
    }

    /// The declaration of this name.
    pub(crate) fn named(&self, name: &str) -> Option<Declared<'a>>
        ensures value { option_map plain_declared result ≡ named_declared (plain_list self.now.list) (lookup name.now self.now.names) }
        ensures sound { IfSome result (λ x. IsDeclared self.now.instance x) }
    {
        match self.names.find(name) {
            Some(Entity::Signal { id, .. }) => declared_there(self.list.as_slice(), id),
            Some(Entity::Constant { .. })
            | Some(Entity::Memory { .. })
            | Some(Entity::Instance)
            | None => None,
        }
    }

    /// The place of a port that a declaration of this name declares once more.
    fn repeated(&self, repeats: bool, name: &str) -> Option<u32>
        ensures value { result ≡ repeated_place repeats (again_place_in (lookup name.now self.now.names) (plain_list self.now.list)) }
        ensures there { IfSome result (λ k. k < length self.now.list) }
    {
        if repeats {
            again_place(&self.names.find(name), self.list.as_slice())
        } else {
            None
        }
    }

    /// A name of a declaration.
    #[tactic(auto, unfolding(crate::specs::Declarations::declare, rr_syntax::specs::View::plain_declarator))]
    fn declare(
        &mut self,
        brackets: &Scope,
        known: &Scope,
        one: &Declaration,
        name: &Declarator<'a>,
    ) -> Result<(), FlatFault>
        requires { IsRange one.now.range }
        ensures value { MatchResult result
            (λ _. declare_in brackets.now known.now one.now (plain_declarator name.now) (plain_declarations self.old) ≡ Ok (plain_declarations self.new))
            (Refuses (declare_in brackets.now known.now one.now (plain_declarator name.now) (plain_declarations self.old))) }
        ensures same { OnOk result (self.new.instance ≡ self.old.instance) }
    {
        match self.repeated(one.repeats && has_no_words(name), name.name) {
            None => self.declare_new(brackets, known, one, name),
            Some(place) => self.declare_again(known, one, name, place),
        }
    }

    fn declare_names(
        &mut self,
        brackets: &Scope,
        known: &Scope,
        one: &Declaration,
        names: &[Declarator<'a>],
    ) -> Result<(), FlatFault>
        requires { IsRange one.now.range }
        ensures value { MatchResult result
            (λ _. each (declare_in brackets.now known.now one.now) (map plain_declarator names.now) (plain_declarations self.old) ≡ Ok (plain_declarations self.new))
            (Refuses (each (declare_in brackets.now known.now one.now) (map plain_declarator names.now) (plain_declarations self.old))) }
        ensures same { OnOk result (self.new.instance ≡ self.old.instance) }
    {
        for name in names.iter() {
            self.declare(brackets, known, one, name)?;
        }
        Ok(())
    }

    #[tactic(auto, unfolding(rr_syntax::specs::View::plain_identifier, rr_syntax::specs::View::plain_declarator, rr_syntax::specs::View::plain_range, rr_syntax::specs::View::plain_value))]
    fn declare_integer(
        &mut self,
        brackets: &Scope,
        known: &Scope,
        named: &Named<'a>,
    ) -> Result<(), FlatFault>
        ensures value { MatchResult result
            (λ _. declare_integer_in brackets.now known.now (plain_identifier named.now) (plain_declarations self.old) ≡ Ok (plain_declarations self.new))
            (Refuses (declare_integer_in brackets.now known.now (plain_identifier named.now) (plain_declarations self.old))) }
        ensures same { OnOk result (self.new.instance ≡ self.old.instance) }
    {
        let name = Declarator {
            token: named.token,
            name: named.name,
            words: None,
            value: None,
        };
        self.declare(brackets, known, &INTEGER, &name)
    }

    fn declare_integers(
        &mut self,
        brackets: &Scope,
        known: &Scope,
        names: &[Named<'a>],
    ) -> Result<(), FlatFault>
        ensures value { MatchResult result
            (λ _. each (declare_integer_in brackets.now known.now) (map plain_identifier names.now) (plain_declarations self.old) ≡ Ok (plain_declarations self.new))
            (Refuses (each (declare_integer_in brackets.now known.now) (map plain_identifier names.now) (plain_declarations self.old))) }
        ensures same { OnOk result (self.new.instance ≡ self.old.instance) }
    {
        for named in names.iter() {
            self.declare_integer(brackets, known, named)?;
        }
        Ok(())
    }

    /// Ports that are declared together.
    #[tactic(auto, unfolding(crate::specs::Declarations::declare_ports, rr_syntax::specs::View::plain_port))]
    fn declare_ports(
        &mut self,
        brackets: &Scope,
        known: &Scope,
        group: &Group<'a>,
    ) -> Result<(), FlatFault>
        ensures value { MatchResult result
            (λ _. declare_ports_in brackets.now known.now (plain_port group.now) (plain_declarations self.old) ≡ Ok (plain_declarations self.new))
            (Refuses (declare_ports_in brackets.now known.now (plain_port group.now) (plain_declarations self.old))) }
        ensures same { OnOk result (self.new.instance ≡ self.old.instance) }
    {
        let one = Declaration {
            port: port_of(group.dir),
            variable: is_reg(group.dir),
            repeats: false,
            signed: group.signed,
            range: range_of(&group.range, known)?,
        };
        self.declare_names(brackets, known, &one, group.names)
    }

    /// Nets that are declared together.
    #[tactic(auto, unfolding(crate::specs::Declarations::declare_nets))]
    fn declare_nets(
        &mut self,
        brackets: &Scope,
        known: &Scope,
        signed: bool,
        range: &Option<Bounds>,
        nets: &[Declarator<'a>],
    ) -> Result<(), FlatFault>
        ensures value { MatchResult result
            (λ _. declare_nets_in brackets.now known.now signed (plain_range range.now) (map plain_declarator nets.now) (plain_declarations self.old) ≡ Ok (plain_declarations self.new))
            (Refuses (declare_nets_in brackets.now known.now signed (plain_range range.now) (map plain_declarator nets.now) (plain_declarations self.old))) }
        ensures same { OnOk result (self.new.instance ≡ self.old.instance) }
    {
        let one = inner_declaration(false, signed, range_of(range, known)?);
        self.declare_names(brackets, known, &one, nets)
    }

    /// Variables that are declared together.
    #[tactic(auto, unfolding(crate::specs::Declarations::declare_variables))]
    fn declare_variables(
        &mut self,
        brackets: &Scope,
        known: &Scope,
        signed: bool,
        range: &Option<Bounds>,
        names: &[Declarator<'a>],
    ) -> Result<(), FlatFault>
        ensures value { MatchResult result
            (λ _. declare_variables_in brackets.now known.now signed (plain_range range.now) (map plain_declarator names.now) (plain_declarations self.old) ≡ Ok (plain_declarations self.new))
            (Refuses (declare_variables_in brackets.now known.now signed (plain_range range.now) (map plain_declarator names.now) (plain_declarations self.old))) }
        ensures same { OnOk result (self.new.instance ≡ self.old.instance) }
    {
        let one = inner_declaration(true, signed, range_of(range, known)?);
        self.declare_names(brackets, known, &one, names)
    }

    /// The names that an item declares.
    #[tactic(auto, unfolding(crate::specs::Declarations::declare_item, rr_syntax::specs::View::plain_item))]
    fn declare_item(
        &mut self,
        brackets: &Scope,
        known: &Scope,
        item: &Item<'a>,
    ) -> Result<(), FlatFault>
        ensures value { MatchResult result
            (λ _. declare_item_in brackets.now known.now (plain_item item.now) (plain_declarations self.old) ≡ Ok (plain_declarations self.new))
            (Refuses (declare_item_in brackets.now known.now (plain_item item.now) (plain_declarations self.old))) }
        ensures same { OnOk result (self.new.instance ≡ self.old.instance) }
    {
        match item {
            Item::Ports(group) => self.declare_ports(brackets, known, group),
            Item::Nets {
                signed,
                range,
                names,
            } => self.declare_nets(brackets, known, *signed, range, names),
            Item::Variables {
                signed,
                range,
                names,
            } => self.declare_variables(brackets, known, *signed, range, names),
            Item::Integers { names } => self.declare_integers(brackets, known, names),
            Item::Parameters(_)
            | Item::Assigns { .. }
            | Item::Always { .. }
            | Item::Initial { .. }
            | Item::Instances { .. } => Ok(()),
        }
    }

    pub(crate) fn declare_groups(
        &mut self,
        brackets: &Scope,
        known: &Scope,
        groups: &[Group<'a>],
    ) -> Result<(), FlatFault>
        ensures value { MatchResult result
            (λ _. each (declare_ports_in brackets.now known.now) (map plain_port groups.now) (plain_declarations self.old) ≡ Ok (plain_declarations self.new))
            (Refuses (each (declare_ports_in brackets.now known.now) (map plain_port groups.now) (plain_declarations self.old))) }
        ensures same { OnOk result (self.new.instance ≡ self.old.instance) }
    {
        for group in groups.iter() {
            self.declare_ports(brackets, known, group)?;
        }
        Ok(())
    }

    pub(crate) fn declare_items(
        &mut self,
        brackets: &Scope,
        known: &Scope,
        items: &[Item<'a>],
    ) -> Result<(), FlatFault>
        ensures value { MatchResult result
            (λ _. each (declare_item_in brackets.now known.now) (map plain_item items.now) (plain_declarations self.old) ≡ Ok (plain_declarations self.new))
            (Refuses (each (declare_item_in brackets.now known.now) (map plain_item items.now) (plain_declarations self.old))) }
        ensures same { OnOk result (self.new.instance ≡ self.old.instance) }
    {
        for item in items.iter() {
            self.declare_item(brackets, known, item)?;
        }
        Ok(())
    }
}
