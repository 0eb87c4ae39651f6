//! Instances of modules (IEEE 1364-2005 section 12.1.2): the values that they give to parameters, and
//! the drivers of their ports (section 12.3.9.2).
ghost use Rattle.std.specs.Prelude.{◌≡◌, ◌<◌, ◌+◌, MatchResult, OnOk, Ok, Some, map, fold, drop, length, nat_eq};
ghost use Rattle.std.specs.List.{list_any, AllByRecursion};
ghost use Rattle.rr_syntax.specs.Tree.{Trees, More};
ghost use Rattle.rr_syntax.specs.Items.{WellFormedConnections, FitLiteralsConnections};
ghost use Rattle.rr_syntax.specs.View.{plain, plain_list, plain_value, plain_connection, plain_connections, plain_overrides, plain_instance, plain_module, texts};
ghost use Rattle.rr_flat.specs.Faults.{Refuses};
ghost use Rattle.rr_flat.specs.Signals.{signal_at};
ghost use Rattle.rr_flatten.specs.Kept.{plain_walked, IsSame};
ghost use Rattle.rr_flat.specs.Sound.{IsExpression, AreExpressions, IsValue, IsConnection, AreConnected, names_at};
ghost use Rattle.rr_flatten.specs.Walk.{checked as checked_of, join_port as join_port_in, join as join_in, join_value as join_value_in, join_named as join_named_in, join_positions as join_positions_in, joined as joined_in};

use crate::items::{Walked, drive, names_of};
use crate::settings::{Checked, connections, overrides};
use crate::tables::{place_of, port_names};
use rr_expr::{Scope, first_token};
use rr_flat::{FlatFault, Port, Side, note_if};
use rr_loop_rules::LoopNames;
use rr_syntax::{Connection, Conns, Expr, Instance, Module};
use std::alloc::{AllocError, Global};

/// Whether a module is being walked.
pub(crate) fn is_among(above: &[u32], owner: u32) -> bool
    ensures { result ≡ list_any (nat_eq owner) above.now }
{
    above.contains(&owner)
}

/// The values that an instance gives to the parameters of its module, or its first fault, where
/// `loops` are the names of the loops of the module around, `above` are the modules that are being
/// walked and `token` is that of the module's name.
#[tactic(auto, unfolding(crate::specs::Walk::checked, rr_syntax::specs::View::plain_instance))]
pub(crate) fn checked<'a>(
    alloc: Global,
    loops: &LoopNames,
    above: &[u32],
    names: &Scope,
    own: &Module<'a>,
    owner: u32,
    token: u32,
    over: &Option<Conns<'a>>,
    one: &Instance<'a>,
) -> Result<Scope<'a>, FlatFault>
    requires formed { WellFormedConnections (plain_connections one.now.conns) }
    requires fit { FitLiteralsConnections (plain_connections one.now.conns) }
    ensures value { MatchResult result
        (λ given. checked_of loops.now above.now names.now (plain_module own.now) owner token (plain_overrides over.now) (plain_instance one.now) ≡ Ok given)
        (Refuses (checked_of loops.now above.now names.now (plain_module own.now) owner token (plain_overrides over.now) (plain_instance one.now))) }
    ensures connected { OnOk result (AreConnected names.now (plain_connections one.now.conns)) }
{
    let found = note_if(None, is_among(above, owner), FlatFault::SelfInstance(token));
    let set = overrides(alloc, own, names, found, over)?;
    let found = note_if(
        set.found,
        names.find(one.name).is_some(),
        FlatFault::NameTwice(one.token),
    );
    let found = connections(alloc, own, loops, names, found, &one.conns)?;
    match found {
        Some(fault) => Err(fault),
        None => {
            let Checked { given, .. } = set;
            Ok(given)
        }
    }
}

fn port_of(walked: &Walked, id: u32) -> Port
    requires { id < length walked.now.flat.signals }
    ensures { result ≡ (signal_at (plain_walked walked.now).flat.signals id).port }
{
    walked.flat.signals[id as usize].port
}

/// The driver between a port and an expression.
fn join_port<'a>(
    walked: &mut Walked<'a>,
    number: u32,
    id: u32,
    port: Port,
    expr: &'a Expr<'a>,
) -> Result<(), AllocError>
    requires there { number < length walked.old.flat.scopes }
    requires expression { IsExpression (names_at walked.old.flat.scopes number) (plain expr.now) }
    requires signal { id < length walked.old.flat.signals }
    ensures value { OnOk result (plain_walked walked.new ≡ join_port_in port number id (plain expr.now) (plain_walked walked.old)) }
    ensures same { OnOk result (IsSame walked.old walked.new) }
{
    let text = Side::Text {
        expr,
        scope: number,
    };
    let whole = Side::Whole(id);
    match port {
        Port::Inner => Ok(()),
        Port::Input => drive(walked, whole, text, first_token(expr)),
        Port::Output => drive(walked, text, whole, first_token(expr)),
    }
}

/// The driver of the port of that name of instance `inner`, where it is connected in instance
/// `number`.
#[tactic(auto, unfolding(crate::specs::Walk::join))]
fn join<'a>(
    walked: &mut Walked<'a>,
    number: u32,
    inner: u32,
    name: &str,
    expr: &'a Expr<'a>,
) -> Result<(), AllocError>
    requires there { number < length walked.old.flat.scopes }
    requires inside { inner < length walked.old.flat.scopes }
    requires expression { IsExpression (names_at walked.old.flat.scopes number) (plain expr.now) }
    ensures value { OnOk result (plain_walked walked.new ≡ join_in number inner name.now (plain expr.now) (plain_walked walked.old)) }
    ensures same { OnOk result (IsSame walked.old walked.new) }
{
    match place_of(names_of(walked, inner), name) {
        None => Ok(()),
        Some(id) => {
            let port = port_of(walked, id);
            join_port(walked, number, id, port, expr)
        }
    }
}

/// The driver of a connection by name.
#[tactic(auto, unfolding(rr_syntax::specs::View::plain_value))]
fn join_value<'a>(
    walked: &mut Walked<'a>,
    number: u32,
    inner: u32,
    name: &str,
    value: &Option<&'a Expr<'a>>,
) -> Result<(), AllocError>
    requires there { number < length walked.old.flat.scopes }
    requires inside { inner < length walked.old.flat.scopes }
    requires expression { IsValue (names_at walked.old.flat.scopes number) (plain_value value.now) }
    ensures value { OnOk result (plain_walked walked.new ≡ join_value_in number inner name.now (plain_value value.now) (plain_walked walked.old)) }
    ensures same { OnOk result (IsSame walked.old walked.new) }
{
    match value {
        None => Ok(()),
        Some(expr) => join(walked, number, inner, name, *expr),
    }
}

#[tactic(auto, unfolding(rr_syntax::specs::View::plain_connection))]
fn join_one<'a>(
    walked: &mut Walked<'a>,
    number: u32,
    inner: u32,
    one: &Connection<'a>,
) -> Result<(), AllocError>
    requires there { number < length walked.old.flat.scopes }
    requires inside { inner < length walked.old.flat.scopes }
    requires connected { IsConnection (names_at walked.old.flat.scopes number) (plain_connection one.now) }
    ensures value { OnOk result (plain_walked walked.new ≡ join_named_in number inner (plain_walked walked.old) (plain_connection one.now)) }
    ensures same { OnOk result (IsSame walked.old walked.new) }
{
    join_value(walked, number, inner, one.name, &one.value)
}

fn join_named<'a>(
    walked: &mut Walked<'a>,
    number: u32,
    inner: u32,
    list: &[Connection<'a>],
) -> Result<(), AllocError>
    requires there { number < length walked.old.flat.scopes }
    requires inside { inner < length walked.old.flat.scopes }
    requires connected { AllByRecursion (IsConnection (names_at walked.old.flat.scopes number)) (map plain_connection list.now) }
    ensures value { OnOk result (plain_walked walked.new ≡ fold (join_named_in number inner) (plain_walked walked.old) (map plain_connection list.now)) }
    ensures same { OnOk result (IsSame walked.old walked.new) }
{
    for one in list.iter() {
        join_one(walked, number, inner, one)?;
    }
    Ok(())
}

/// The driver of a connection by position, where there is such a port.
fn join_position<'a>(
    walked: &mut Walked<'a>,
    number: u32,
    inner: u32,
    ports: &[&str],
    place: usize,
    expr: &'a Expr<'a>,
) -> Result<(), AllocError>
    requires there { number < length walked.old.flat.scopes }
    requires inside { inner < length walked.old.flat.scopes }
    requires expression { IsExpression (names_at walked.old.flat.scopes number) (plain expr.now) }
    ensures value { OnOk result ((rest : Trees) → join_positions_in number inner (drop (place + 1) (texts ports.now)) rest (plain_walked walked.new)
        ≡ join_positions_in number inner (drop place (texts ports.now)) (More (plain expr.now) rest) (plain_walked walked.old)) }
    ensures same { OnOk result (IsSame walked.old walked.new) }
{
    if place < ports.len() {
        join(walked, number, inner, ports[place], expr)?;
        return Ok(());
    }
    Ok(())
}

fn join_positions<'a>(
    walked: &mut Walked<'a>,
    number: u32,
    inner: u32,
    ports: &[&str],
    list: &'a [Expr<'a>],
) -> Result<(), AllocError>
    requires there { number < length walked.old.flat.scopes }
    requires inside { inner < length walked.old.flat.scopes }
    requires connected { AreExpressions (names_at walked.old.flat.scopes number) (plain_list list.now) }
    ensures value { OnOk result (plain_walked walked.new ≡ join_positions_in number inner (texts ports.now) (plain_list list.now) (plain_walked walked.old)) }
    ensures same { OnOk result (IsSame walked.old walked.new) }
{
    for (place, expr) in list.iter().enumerate() {
        join_position(walked, number, inner, ports, place, expr)?;
    }
    Ok(())
}

/// The drivers of the ports of instance `inner`, whose instantiation stands in instance `number`.
#[tactic(auto, unfolding(crate::specs::Walk::joined, rr_flat::specs::Sound::AreConnected, rr_syntax::specs::View::plain_connections))]
pub(crate) fn joined<'a>(
    alloc: Global,
    walked: &mut Walked<'a>,
    number: u32,
    inner: u32,
    own: &Module,
    conns: &Conns<'a>,
) -> Result<(), AllocError>
    requires there { number < length walked.old.flat.scopes }
    requires inside { inner < length walked.old.flat.scopes }
    requires connected { AreConnected (names_at walked.old.flat.scopes number) (plain_connections conns.now) }
    ensures value { OnOk result (plain_walked walked.new ≡ joined_in number inner (plain_module own.now) (plain_connections conns.now) (plain_walked walked.old)) }
    ensures same { OnOk result (IsSame walked.old walked.new) }
{
    match conns {
        Conns::Positions(list) => {
            let ports = port_names(alloc, own)?;
            join_positions(walked, number, inner, ports.as_slice(), *list)
        }
        Conns::Names(list) => join_named(walked, number, inner, list),
    }
}
