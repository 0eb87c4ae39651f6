//! The changes of connections and of the instances of modules.

ghost use Rattle.std.specs.Prelude.{◌≡◌, ◌<◌, ◌^◌, ◌++◌, length, map, IfOk};
ghost use Rattle.rr_syntax.specs.Items.{spell_connection, spell_connections, spell_each, spell_instance, NumberedConnection, NumberedConnections, NumberedEach, NumberedInstance};
ghost use Rattle.rr_syntax.specs.View.{plain_connection, plain_connections, plain_instance};
ghost use Rattle.rr_respell.specs.Printing.{child_pieces, connection_pieces, connections_pieces, each_pieces};
ghost use Rattle.rr_patch.specs.Changes.{changes, plain_changes};
ghost use Rattle.rr_patch.specs.Walks.{Adds};

use crate::change::Change;
use crate::expression::{expression, expressions};
use rr_choice::{Choice, SiteList};
use rr_syntax::{Connection, Conns, Instance};
use std::alloc::AllocError;

/// The changes of a connection by name, whose value begins two tokens after the name.
#[tactic(auto, using(crate::proofs::ItemWalks::connection_walks))]
fn connection<'a>(
    connection: &Connection,
    list: &SiteList<'a>,
    choice: &Choice,
    out: &mut Vec<Change<'a>>,
) -> Result<(), AllocError>
    requires fits { length (spell_connection (plain_connection connection.now)) < 2 ^ 62 }
    ensures { IfOk result (λ _. Adds (plain_changes out.old.items) (plain_changes out.new.items) (NumberedConnection (plain_connection connection.now)) (connection_pieces list.now choice.now.picks.items (plain_connection connection.now))) }
{
    match connection.value {
        None => Ok(()),
        Some(value) => {
            let start = u64::from(connection.token) + 2;
            expression(value, start, list, choice, out)?;
            Ok(())
        }
    }
}

/// The changes of connections by name, each after a comma.
fn named<'a>(
    entries: &[Connection],
    list: &SiteList<'a>,
    choice: &Choice,
    out: &mut Vec<Change<'a>>,
) -> Result<(), AllocError>
    requires fits { length (spell_each spell_connection (map plain_connection entries.now)) < 2 ^ 62 }
    ensures { IfOk result (λ _. Adds (plain_changes out.old.items) (plain_changes out.new.items) (NumberedEach spell_connection NumberedConnection (map plain_connection entries.now)) (each_pieces (connection_pieces list.now choice.now.picks.items) (map plain_connection entries.now))) }
{
    for one in entries.iter() {
        connection(one, list, choice, out)?;
    }
    Ok(())
}

/// The changes of connections in their brackets, of which the first has the number `at`.
#[tactic(auto, using(crate::proofs::ItemWalks::connections_walks))]
fn connections<'a>(
    conns: &Conns,
    at: u64,
    list: &SiteList<'a>,
    choice: &Choice,
    out: &mut Vec<Change<'a>>,
) -> Result<(), AllocError>
    requires low { at < 2 ^ 62 }
    requires fits { length (spell_connections (plain_connections conns.now)) < 2 ^ 62 }
    ensures { IfOk result (λ _. NumberedConnections (plain_connections conns.now) at → plain_changes out.new.items ≡ plain_changes out.old.items ++ changes at (connections_pieces list.now choice.now.picks.items (plain_connections conns.now))) }
{
    match conns {
        Conns::Positions(entries) => {
            expressions(entries, at, list, choice, out)?;
            Ok(())
        }
        Conns::Names(entries) => {
            named(entries, list, choice, out)?;
            Ok(())
        }
    }
}

/// The changes of an instance of a module, whose connections begin after its name.
#[tactic(auto, using(crate::proofs::ItemWalks::child_walks))]
fn child<'a>(
    instance: &Instance,
    list: &SiteList<'a>,
    choice: &Choice,
    out: &mut Vec<Change<'a>>,
) -> Result<(), AllocError>
    requires fits { length (spell_instance (plain_instance instance.now)) < 2 ^ 62 }
    ensures { IfOk result (λ _. Adds (plain_changes out.old.items) (plain_changes out.new.items) (NumberedInstance (plain_instance instance.now)) (child_pieces list.now choice.now.picks.items (plain_instance instance.now))) }
{
    let bracket = u64::from(instance.token) + 1;
    connections(&instance.conns, bracket, list, choice, out)?;
    Ok(())
}

/// The changes of instances of a module, each after a comma.
pub(crate) fn children<'a>(
    entries: &[Instance],
    list: &SiteList<'a>,
    choice: &Choice,
    out: &mut Vec<Change<'a>>,
) -> Result<(), AllocError>
    requires fits { length (spell_each spell_instance (map plain_instance entries.now)) < 2 ^ 62 }
    ensures { IfOk result (λ _. Adds (plain_changes out.old.items) (plain_changes out.new.items) (NumberedEach spell_instance NumberedInstance (map plain_instance entries.now)) (each_pieces (child_pieces list.now choice.now.picks.items) (map plain_instance entries.now))) }
{
    for one in entries.iter() {
        child(one, list, choice, out)?;
    }
    Ok(())
}
