//! Overrides of parameters (IEEE 1364-2005 section 12.2.2) and connections of ports (section 12.3.6).
ghost use Rattle.std.specs.Prelude.{◌≡◌, ◌+◌, OnOk, IfOk, Some, false, map, fold, drop};
ghost use Rattle.rr_syntax.specs.View.{plain, plain_list, plain_value, plain_connection, plain_connections, plain_overrides, plain_module, texts};
ghost use Rattle.rr_flatten.specs.View.{plain_checked, plain_connected};
ghost use Rattle.rr_flatten.specs.Walk.{noted, with_value as with_value_in, parameter_faults, with_override as with_override_in, check_override as check_override_in, fold_trees, check_position as check_position_in, nothing_checked, overrides as overrides_of, check_connection as check_connection_in, check_port as check_port_in, connections as connections_of};

use crate::notes::{note_expression, note_optional};
use crate::tables::{name_set, open_names, parameter_table, port_names, put, put_place};
use rr_bits::Bits;
use rr_declarations::constant_of;
use rr_expr::{Entity, Scope, first_token};
use rr_flat::{FlatFault, note, note_if, sooner_of};
use rr_loop_rules::LoopNames;
use rr_syntax::{Connection, Conns, Expr, Module};
use std::alloc::{AllocError, Global};

/// What was found of overrides: the first fault, the names that were set, and the values that were
/// given.
#[derive(Drop)]
pub(crate) struct Checked<'a> {
    pub(crate) found: Option<FlatFault>,
    pub(crate) seen: Scope<'a>,
    pub(crate) given: Scope<'a>,
}

/// The same of connections.
#[derive(Drop)]
pub(crate) struct Connected<'a> {
    found: Option<FlatFault>,
    seen: Scope<'a>,
}

fn with_value<'a>(
    given: &mut Scope<'a>,
    name: &'a str,
    value: &Result<(Bits, bool), FlatFault>,
) -> Result<(), AllocError>
    ensures { OnOk result (given.new ≡ with_value_in given.old name.now value.now) }
{
    match value {
        Ok((bits, signed)) => {
            let entity = Entity::Constant {
                bits: *bits,
                signed: *signed,
            };
            put(given, name, entity)
        }
        Err(_) => Ok(()),
    }
}

/// The first of a fault that was found, if any, and that a name is no parameter, or one that is not
/// overridden.
fn note_parameter(
    found: Option<FlatFault>,
    token: u32,
    entity: &Option<Entity>,
) -> Option<FlatFault>
    ensures { result ≡ noted found (parameter_faults token entity.now) }
{
    match entity {
        None => sooner_of(found, FlatFault::UnknownName(token)),
        Some(Entity::Signal { signed, .. }) => note_if(
            found,
            *signed,
            FlatFault::PortMismatch(token),
        ),
        Some(Entity::Constant { .. }) | Some(Entity::Memory { .. }) | Some(Entity::Instance) => {
            found
        }
    }
}

impl<'a> Checked<'a> {
    /// Nothing, where a fault was found already, if any.
    fn new(alloc: Global, found: Option<FlatFault>) -> Checked<'a>
        ensures { plain_checked result ≡ nothing_checked found }
    {
        Checked {
            found,
            seen: Scope::new(alloc),
            given: Scope::new(alloc),
        }
    }

    /// A value for a parameter.
    fn give(&mut self, names: &Scope, name: &'a str, value: &Expr) -> Result<(), AllocError>
        ensures { OnOk result (plain_checked self.new ≡ with_override_in names.now name.now (plain_checked self.old) (Some (plain value.now))) }
    {
        let value = constant_of(value, names);
        self.found = note(self.found, &value);
        with_value(&mut self.given, name, &value)
    }

    /// A value for a parameter, where there is one.
    #[tactic(auto, unfolding(rr_syntax::specs::View::plain_value))]
    fn give_optional(
        &mut self,
        names: &Scope,
        name: &'a str,
        value: &Option<&Expr>,
    ) -> Result<(), AllocError>
        ensures { OnOk result (plain_checked self.new ≡ with_override_in names.now name.now (plain_checked self.old) (plain_value value.now)) }
    {
        match value {
            None => Ok(()),
            Some(expr) => self.give(names, name, expr),
        }
    }

    /// An override by name.
    #[tactic(auto, unfolding(crate::specs::Walk::check_override, rr_syntax::specs::View::plain_connection))]
    fn check_override(
        &mut self,
        table: &Scope,
        names: &Scope,
        one: &Connection<'a>,
    ) -> Result<(), AllocError>
        ensures { OnOk result (plain_checked self.new ≡ check_override_in table.now names.now (plain_checked self.old) (plain_connection one.now)) }
    {
        let found = note_parameter(self.found, one.token, &table.find(one.name));
        self.found = note_if(
            found,
            self.seen.find(one.name).is_some(),
            FlatFault::PortMismatch(one.token),
        );
        put_place(&mut self.seen, one.name, 0)?;
        self.give_optional(names, one.name, &one.value)
    }

    /// An override by position, and whether there was one too many.
    #[tactic(auto, unfolding(crate::specs::Walk::check_position))]
    fn check_position(
        &mut self,
        names: &Scope,
        free: &[&'a str],
        place: usize,
        over: bool,
        expr: &Expr,
    ) -> Result<bool, AllocError>
        ensures { IfOk result (λ next. record { left = drop (place + 1) (texts free.now); over = next; checked = plain_checked self.new } ≡ check_position_in names.now (record { left = drop place (texts free.now); over = over; checked = plain_checked self.old }) (plain expr.now)) }
    {
        if place < free.len() {
            self.give(names, free[place], expr)?;
            return Ok(over);
        }
        let found = note(self.found, &constant_of(expr, names));
        self.found = note_if(found, !over, FlatFault::PortMismatch(first_token(expr)));
        Ok(true)
    }

    fn check_positions(
        &mut self,
        names: &Scope,
        free: &[&'a str],
        list: &[Expr],
    ) -> Result<(), AllocError>
        ensures { OnOk result (plain_checked self.new ≡ (fold_trees (check_position_in names.now) (record { left = texts free.now; over = false; checked = plain_checked self.old }) (plain_list list.now)).checked) }
    {
        let mut over = false;
        for (place, expr) in list.iter().enumerate() {
            over = self.check_position(names, free, place, over, expr)?;
        }
        Ok(())
    }

    fn check_overrides(
        &mut self,
        table: &Scope,
        names: &Scope,
        list: &[Connection<'a>],
    ) -> Result<(), AllocError>
        ensures { OnOk result (plain_checked self.new ≡ fold (check_override_in table.now names.now) (plain_checked self.old) (map plain_connection list.now)) }
    {
        for one in list.iter() {
            self.check_override(table, names, one)?;
        }
        Ok(())
    }
}

impl<'a> Connected<'a> {
    /// A connection by name.
    #[tactic(auto, unfolding(crate::specs::Walk::check_connection, rr_syntax::specs::View::plain_connection))]
    fn check_connection(
        &mut self,
        ports: &Scope,
        loops: &LoopNames,
        names: &Scope,
        one: &Connection<'a>,
    ) -> Result<(), AllocError>
        ensures { OnOk result (plain_connected self.new ≡ check_connection_in loops.now ports.now names.now (plain_connected self.old) (plain_connection one.now)) }
    {
        let found = note_if(
            self.found,
            ports.find(one.name).is_none(),
            FlatFault::PortMismatch(one.token),
        );
        let found = note_if(
            found,
            self.seen.find(one.name).is_some(),
            FlatFault::PortMismatch(one.token),
        );
        self.found = note_optional(found, &one.value, loops, names);
        put_place(&mut self.seen, one.name, 0)
    }

    fn check_connections(
        &mut self,
        ports: &Scope,
        loops: &LoopNames,
        names: &Scope,
        list: &[Connection<'a>],
    ) -> Result<(), AllocError>
        ensures { OnOk result (plain_connected self.new ≡ fold (check_connection_in loops.now ports.now names.now) (plain_connected self.old) (map plain_connection list.now)) }
    {
        for one in list.iter() {
            self.check_connection(ports, loops, names, one)?;
        }
        Ok(())
    }
}

/// The first of a fault that was found, if any, and those of a connection by position; and whether
/// there was one too many.
#[tactic(auto, unfolding(crate::specs::Walk::check_port))]
fn check_port(
    found: Option<FlatFault>,
    loops: &LoopNames,
    names: &Scope,
    ports: &[&str],
    place: usize,
    over: bool,
    expr: &Expr,
) -> (Option<FlatFault>, bool)
    ensures { record { left = drop (place + 1) (texts ports.now); over = result.1; found = result.0 } ≡ check_port_in loops.now names.now (record { left = drop place (texts ports.now); over = over; found = found }) (plain expr.now) }
{
    let found = note_expression(found, expr, loops, names);
    if place < ports.len() {
        return (found, over);
    }
    let fault = FlatFault::PortMismatch(first_token(expr));
    (note_if(found, !over, fault), true)
}

fn check_ports(
    found: Option<FlatFault>,
    loops: &LoopNames,
    names: &Scope,
    ports: &[&str],
    list: &[Expr],
) -> Option<FlatFault>
    ensures { result ≡ (fold_trees (check_port_in loops.now names.now) (record { left = texts ports.now; over = false; found = found }) (plain_list list.now)).found }
{
    let mut found = found;
    let mut over = false;
    for (place, expr) in list.iter().enumerate() {
        let next = check_port(found, loops, names, ports, place, over, expr);
        found = next.0;
        over = next.1;
    }
    found
}

/// What is found of the overrides of an instance, where a fault was found already, if any.
#[tactic(auto, unfolding(crate::specs::Walk::overrides, rr_syntax::specs::View::plain_overrides, rr_syntax::specs::View::plain_connections))]
pub(crate) fn overrides<'a>(
    alloc: Global,
    own: &Module<'a>,
    names: &Scope,
    found: Option<FlatFault>,
    over: &Option<Conns<'a>>,
) -> Result<Checked<'a>, AllocError>
    ensures { IfOk result (λ c. plain_checked c ≡ overrides_of (plain_module own.now) names.now found (plain_overrides over.now)) }
{
    let mut checked = Checked::new(alloc, found);
    match over {
        None => Ok(checked),
        Some(Conns::Positions(list)) => {
            let free = open_names(alloc, own)?;
            checked.check_positions(names, free.as_slice(), list)?;
            Ok(checked)
        }
        Some(Conns::Names(list)) => {
            let table = parameter_table(alloc, own)?;
            checked.check_overrides(&table, names, list)?;
            Ok(checked)
        }
    }
}

/// The first of a fault that was found, if any, and those of the connections of an instance, where
/// `loops` are the names of the loops of the module around.
#[tactic(auto, unfolding(crate::specs::Walk::connections, rr_syntax::specs::View::plain_connections))]
pub(crate) fn connections<'a>(
    alloc: Global,
    own: &Module<'a>,
    loops: &LoopNames,
    names: &Scope,
    found: Option<FlatFault>,
    conns: &Conns<'a>,
) -> Result<Option<FlatFault>, AllocError>
    ensures { IfOk result (λ f. f ≡ connections_of loops.now (plain_module own.now) names.now found (plain_connections conns.now)) }
{
    let ports = port_names(alloc, own)?;
    match conns {
        Conns::Positions(list) => Ok(check_ports(found, loops, names, ports.as_slice(), list)),
        Conns::Names(list) => {
            let table = name_set(alloc, ports.as_slice())?;
            let mut connected = Connected {
                found,
                seen: Scope::new(alloc),
            };
            connected.check_connections(&table, loops, names, list)?;
            Ok(connected.found)
        }
    }
}
