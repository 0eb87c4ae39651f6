//! The walk over an item, in the order of the text.

ghost use Rattle.std.specs.Prelude.{◌≡◌, ◌++◌, ◌∷◌, [], IfOk, OnOk, flat_map, map};
ghost use Rattle.rr_syntax.specs.View.{plain, plain_arms, plain_connection, plain_connections, plain_instance, plain_item, plain_list, plain_declarator, plain_pair, plain_statement, plain_statements, plain_value};
ghost use Rattle.rr_change_places.specs.Spots.{spots, spots_of, spots_of_all, spots_of_arms, spots_of_connection, spots_of_connections, spots_of_instance, spots_of_item as spots_in_item, is_clocked as is_clocked_item, spots_of_net, spots_of_pair, spots_of_parts, spots_of_value};
ghost use Rattle.rr_change_places.specs.View.{plain_spot, plain_spots};

use crate::spot::Spot;
use rr_expr::{infix_of, takes_constants};
use rr_syntax::{Arm, Connection, Conns, Declarator, Events, Expr, Instance, Item, Pair, Stmt};
use std::alloc::{AllocError, Global};

/// One spot more.
fn push_spot<'a>(list: &mut Vec<Spot<'a>>, spot: Spot<'a>) -> Result<(), AllocError>
    ensures { OnOk result (plain_spots list.new.items ≡ plain_spots list.old.items ++ plain_spot spot.entry ∷ []) }
{
    list.push(spot)?;
    Ok(())
}

/// The spots of an expression.
#[cycle(trees)]
#[tactic(auto, using(crate::proofs::Nodes::tree_nodes))]
fn add_spots<'a>(list: &mut Vec<Spot<'a>>, expr: &'a Expr<'a>) -> Result<(), AllocError>
    ensures { OnOk result (plain_spots list.new.items ≡ plain_spots list.old.items ++ spots (plain expr.now)) }
{
    match expr {
        Expr::Name { .. } | Expr::Bit { .. } | Expr::Part { .. } | Expr::Indexed { .. } => Ok(()),
        Expr::Literal { token, number } => push_spot(
            list,
            Spot::Value {
                token: *token,
                number: *number,
            },
        ),
        Expr::Unary { of, .. } | Expr::Cast { of, .. } | Expr::Paren { of } => add_spots(list, of),
        Expr::Binary { op, left, right } => {
            if takes_constants(infix_of(*op)) {
                return Ok(());
            }
            add_spots(list, left)?;
            add_spots(list, right)
        }
        Expr::Cond { test, yes, no } => {
            push_spot(list, Spot::Test(test))?;
            add_spots(list, test)?;
            add_spots(list, yes)?;
            add_spots(list, no)
        }
        Expr::Concat { parts } | Expr::Repeat { parts, .. } => add_spots_of_parts(list, parts),
    }
}

#[cycle(trees)]
fn add_spots_of_parts<'a>(list: &mut Vec<Spot<'a>>, exprs: &'a [Expr<'a>]) -> Result<(), AllocError>
    ensures { OnOk result (plain_spots list.new.items ≡ plain_spots list.old.items ++ spots_of_parts (plain_list exprs.now)) }
{
    for expr in exprs.iter() {
        add_spots(list, expr)?;
    }
    Ok(())
}

/// The spots of a statement.
#[cycle(statements)]
#[tactic(auto, using(crate::proofs::Nodes::statement_nodes))]
fn add_spots_of<'a>(list: &mut Vec<Spot<'a>>, stmt: &'a Stmt<'a>) -> Result<(), AllocError>
    ensures { OnOk result (plain_spots list.new.items ≡ plain_spots list.old.items ++ spots_of (plain_statement stmt.now)) }
{
    match stmt {
        Stmt::Null => Ok(()),
        Stmt::Block { body, .. } => add_spots_of_all(list, body),
        Stmt::If {
            test,
            yes,
            no: None,
        } => {
            push_spot(list, Spot::Test(test))?;
            add_spots(list, test)?;
            add_spots_of(list, yes)
        }
        Stmt::If {
            test,
            yes,
            no: Some(other),
        } => {
            push_spot(list, Spot::Test(test))?;
            add_spots(list, test)?;
            add_spots_of(list, yes)?;
            add_spots_of(list, other)
        }
        Stmt::Case { on, arms, .. } => {
            add_spots(list, on)?;
            add_spots_of_arms(list, arms)
        }
        Stmt::Assign { value, .. } => add_spots(list, value),
        Stmt::For { body, .. } => add_spots_of(list, body),
    }
}

#[cycle(statements)]
fn add_spots_of_all<'a>(list: &mut Vec<Spot<'a>>, body: &'a [Stmt<'a>]) -> Result<(), AllocError>
    ensures { OnOk result (plain_spots list.new.items ≡ plain_spots list.old.items ++ spots_of_all (plain_statements body.now)) }
{
    for stmt in body.iter() {
        add_spots_of(list, stmt)?;
    }
    Ok(())
}

#[cycle(statements)]
fn add_spots_of_arms<'a>(list: &mut Vec<Spot<'a>>, arms: &'a [Arm<'a>]) -> Result<(), AllocError>
    ensures { OnOk result (plain_spots list.new.items ≡ plain_spots list.old.items ++ spots_of_arms (plain_arms arms.now)) }
{
    for arm in arms.iter() {
        add_spots_of_parts(list, arm.labels)?;
        add_spots_of(list, arm.body)?;
    }
    Ok(())
}

/// The spots of a value where there is one.
#[tactic(auto, using(crate::proofs::Items::value_nodes))]
fn add_spots_of_value<'a>(
    list: &mut Vec<Spot<'a>>,
    value: Option<&'a Expr<'a>>,
) -> Result<(), AllocError>
    ensures { OnOk result (plain_spots list.new.items ≡ plain_spots list.old.items ++ spots_of_value (plain_value value.entry)) }
{
    match value {
        None => Ok(()),
        Some(expr) => add_spots(list, expr),
    }
}

fn add_spots_of_nets<'a>(
    list: &mut Vec<Spot<'a>>,
    nets: &'a [Declarator<'a>],
) -> Result<(), AllocError>
    ensures { OnOk result (plain_spots list.new.items ≡ plain_spots list.old.items ++ flat_map spots_of_net (map plain_declarator nets.now)) }
{
    for net in nets.iter() {
        add_spots_of_value(list, net.value)?;
    }
    Ok(())
}

fn add_spots_of_pairs<'a>(list: &mut Vec<Spot<'a>>, pairs: &'a [Pair<'a>]) -> Result<(), AllocError>
    ensures { OnOk result (plain_spots list.new.items ≡ plain_spots list.old.items ++ flat_map spots_of_pair (map plain_pair pairs.now)) }
{
    for pair in pairs.iter() {
        add_spots(list, pair.value)?;
    }
    Ok(())
}

fn add_spots_of_named<'a>(
    list: &mut Vec<Spot<'a>>,
    named: &'a [Connection<'a>],
) -> Result<(), AllocError>
    ensures { OnOk result (plain_spots list.new.items ≡ plain_spots list.old.items ++ flat_map spots_of_connection (map plain_connection named.now)) }
{
    for one in named.iter() {
        add_spots_of_value(list, one.value)?;
    }
    Ok(())
}

/// The spots of connections.
#[tactic(auto, using(crate::proofs::Items::connections_nodes))]
fn add_spots_of_connections<'a>(
    list: &mut Vec<Spot<'a>>,
    conns: &'a Conns<'a>,
) -> Result<(), AllocError>
    ensures { OnOk result (plain_spots list.new.items ≡ plain_spots list.old.items ++ spots_of_connections (plain_connections conns.now)) }
{
    match conns {
        Conns::Positions(exprs) => add_spots_of_parts(list, exprs),
        Conns::Names(named) => add_spots_of_named(list, named),
    }
}

fn add_spots_of_instances<'a>(
    list: &mut Vec<Spot<'a>>,
    instances: &'a [Instance<'a>],
) -> Result<(), AllocError>
    ensures { OnOk result (plain_spots list.new.items ≡ plain_spots list.old.items ++ flat_map spots_of_instance (map plain_instance instances.now)) }
{
    for one in instances.iter() {
        add_spots_of_connections(list, &one.conns)?;
    }
    Ok(())
}

/// The spots of an item, behind those that stand in the list, in the order of the text.
#[tactic(auto, using(crate::proofs::Items::item_nodes))]
fn add_spots_of_item<'a>(list: &mut Vec<Spot<'a>>, item: &'a Item<'a>) -> Result<(), AllocError>
    ensures { OnOk result (plain_spots list.new.items ≡ plain_spots list.old.items ++ spots_in_item (plain_item item.now)) }
{
    match item {
        Item::Ports(_)
        | Item::Variables { .. }
        | Item::Integers { .. }
        | Item::Parameters(_)
        | Item::Initial { .. } => Ok(()),
        Item::Nets { names, .. } => add_spots_of_nets(list, names),
        Item::Assigns { pairs } => add_spots_of_pairs(list, pairs),
        Item::Always { body, .. } => {
            push_spot(list, Spot::Body(body))?;
            add_spots_of(list, body)
        }
        Item::Instances {
            list: instances,
            ..
        } => add_spots_of_instances(list, instances),
    }
}

/// The spots of an item, in the order of the text.
pub fn spots_of_item<'a>(alloc: Global, item: &'a Item<'a>) -> Result<Vec<Spot<'a>>, AllocError>
    ensures { IfOk result (λ r. plain_spots r.items ≡ spots_in_item (plain_item item.now)) }
{
    let mut list = Vec::new(alloc);
    add_spots_of_item(&mut list, item)?;
    Ok(list)
}

/// Whether an item is an `always` with edges (IEEE 1364-2005 section 9.7.2).
#[tactic(auto, using(crate::proofs::Items::clocked_nodes))]
pub fn is_clocked(item: &Item) -> bool
    ensures { result ≡ is_clocked_item (plain_item item.now) }
{
    match item {
        Item::Always {
            events: Events::Edges { .. },
            ..
        } => true,
        Item::Always {
            events: Events::Star { .. },
            ..
        }
        | Item::Always {
            events: Events::Levels { .. },
            ..
        }
        | Item::Ports(_)
        | Item::Nets { .. }
        | Item::Variables { .. }
        | Item::Integers { .. }
        | Item::Parameters(_)
        | Item::Assigns { .. }
        | Item::Initial { .. }
        | Item::Instances { .. } => false,
    }
}
