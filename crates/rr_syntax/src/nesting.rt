//! The greatest nesting of nodes in a tree.

ghost use Rattle.std.specs.Prelude.{◌≡◌, ◌<◌, ◌+◌, ◌^◌, map};
ghost use Rattle.rr_syntax.specs.Expressions.{depth as depth_tree, height};
ghost use Rattle.rr_syntax.specs.Items.{depth_assignment, depth_connection, depth_connections, depth_events, depth_instance, depth_item, depth_module, depth_declarator, depth_overrides, depth_pair, depth_parameter, depth_port, depth_range, depth_source, depth_value, greatest, height_item};
ghost use Rattle.rr_syntax.specs.Statements.{depth_loop, depth_statement, height_arms, height_statements};
ghost use Rattle.rr_syntax.specs.View.{plain, plain_arms, plain_assignment, plain_connection, plain_connections, plain_events, plain_instance, plain_item, plain_list, plain_loop, plain_module, plain_declarator, plain_overrides, plain_pair, plain_parameter, plain_port, plain_range, plain_source, plain_statement, plain_statements, plain_value};

use crate::tree::{
    Arm, Bounds, Connection, Conns, Declarator, Events, Expr, Group, Head, Instance, Item, Module,
    Pair, Params, Setting, Source, Stmt,
};

/// The greatest nesting of nodes: the levels of modules, items, statements, arms and expressions
/// below the source, which is 0 itself.
pub fn depth(source: &Source) -> u32
    requires fits { depth_source (plain_source source.now) < 2 ^ 32 }
    ensures { result ≡ depth_source (plain_source source.now) }
{
    let mut deepest = 0;
    for module in source.modules.iter() {
        deepest = deepest.max(1 + module_depth(module));
    }
    deepest
}

/// The greatest nesting of nodes in an expression, its root counted as 0.
#[tactic(auto, using(crate::proofs::Depths::depths))]
#[cycle(expression_depths)]
pub fn expression_depth(expr: &Expr) -> u32
    requires fits { depth_tree (plain expr.now) < 2 ^ 32 }
    ensures { result ≡ depth_tree (plain expr.now) }
{
    match expr {
        Expr::Name { .. } | Expr::Literal { .. } => 0,
        Expr::Bit { index, .. } => 1 + expression_depth(index),
        Expr::Part { left, right, .. } => 1 + expression_depth(left).max(expression_depth(right)),
        Expr::Indexed { from, width, .. } => {
            1 + expression_depth(from).max(expression_depth(width))
        }
        Expr::Unary { of, .. } | Expr::Cast { of, .. } | Expr::Paren { of } => {
            1 + expression_depth(of)
        }
        Expr::Binary { left, right, .. } => 1 + expression_depth(left).max(expression_depth(right)),
        Expr::Cond { test, yes, no } => {
            1 + expression_depth(test).max(expression_depth(yes).max(expression_depth(no)))
        }
        Expr::Concat { parts } => parts_height(parts),
        Expr::Repeat { count, parts } => (1 + expression_depth(count)).max(parts_height(parts)),
    }
}

// Of a list or another part of a node: the levels below this node.
#[cycle(expression_depths)]
fn parts_height(parts: &[Expr]) -> u32
    requires fits { height (plain_list parts.now) < 2 ^ 32 }
    ensures { result ≡ height (plain_list parts.now) }
{
    let mut deepest = 0;
    for part in parts.iter() {
        deepest = deepest.max(1 + expression_depth(part));
    }
    deepest
}

// The greatest depth of a loop's three expressions.
#[tactic(auto, using(crate::proofs::Depths::loop_depths))]
fn loop_depth(head: &Head) -> u32
    requires fits { depth_loop (plain_loop head.now) < 2 ^ 32 }
    ensures { result ≡ depth_loop (plain_loop head.now) }
{
    let ends = expression_depth(head.test).max(expression_depth(head.step));
    expression_depth(head.start).max(ends)
}

#[tactic(auto, using(crate::proofs::Depths::statement_depths))]
#[cycle(statement_depths)]
fn statement_depth(stmt: &Stmt) -> u32
    requires fits { depth_statement (plain_statement stmt.now) < 2 ^ 32 }
    ensures { result ≡ depth_statement (plain_statement stmt.now) }
{
    match stmt {
        Stmt::Null => 0,
        Stmt::Block { body, .. } => statements_height(body),
        Stmt::If {
            test,
            yes,
            no: None,
        } => 1 + expression_depth(test).max(statement_depth(yes)),
        Stmt::If {
            test,
            yes,
            no: Some(other),
        } => { 1 + expression_depth(test).max(statement_depth(yes).max(statement_depth(other))) }
        Stmt::Case { on, arms, .. } => (1 + expression_depth(on)).max(arms_height(arms)),
        Stmt::Assign { target, value, .. } => {
            1 + expression_depth(target).max(expression_depth(value))
        }
        Stmt::For { head, body } => 1 + loop_depth(head).max(statement_depth(body)),
    }
}

#[cycle(statement_depths)]
fn statements_height(body: &[Stmt]) -> u32
    requires fits { height_statements (plain_statements body.now) < 2 ^ 32 }
    ensures { result ≡ height_statements (plain_statements body.now) }
{
    let mut deepest = 0;
    for stmt in body.iter() {
        deepest = deepest.max(1 + statement_depth(stmt));
    }
    deepest
}

#[cycle(statement_depths)]
fn arms_height(arms: &[Arm]) -> u32
    requires fits { height_arms (plain_arms arms.now) < 2 ^ 32 }
    ensures { result ≡ height_arms (plain_arms arms.now) }
{
    let mut deepest = 0;
    for arm in arms.iter() {
        let below = parts_height(arm.labels).max(1 + statement_depth(arm.body));
        deepest = deepest.max(1 + below);
    }
    deepest
}

#[tactic(auto, using(crate::proofs::Depths::range_depths))]
fn range_height(range: &Option<Bounds>) -> u32
    requires fits { depth_range (plain_range range.now) < 2 ^ 32 }
    ensures { result ≡ depth_range (plain_range range.now) }
{
    match range {
        None => 0,
        Some(bounds) => 1 + expression_depth(bounds.left).max(expression_depth(bounds.right)),
    }
}

#[tactic(auto, using(crate::proofs::Depths::value_depths))]
fn value_height(value: &Option<&Expr>) -> u32
    requires fits { depth_value (plain_value value.now) < 2 ^ 32 }
    ensures { result ≡ depth_value (plain_value value.now) }
{
    match value {
        None => 0,
        Some(expr) => 1 + expression_depth(expr),
    }
}

#[tactic(auto, using(crate::proofs::Depths::declarator_depths))]
fn declarator_height(declarator: &Declarator) -> u32
    requires fits { depth_declarator (plain_declarator declarator.now) < 2 ^ 32 }
    ensures { result ≡ depth_declarator (plain_declarator declarator.now) }
{
    range_height(&declarator.words).max(value_height(&declarator.value))
}

fn declarators_height(names: &[Declarator]) -> u32
    requires fits { greatest depth_declarator (map plain_declarator names.now) < 2 ^ 32 }
    ensures { result ≡ greatest depth_declarator (map plain_declarator names.now) }
{
    let mut deepest = 0;
    for declarator in names.iter() {
        deepest = deepest.max(declarator_height(declarator));
    }
    deepest
}

#[tactic(auto, using(crate::proofs::Depths::port_depths))]
fn port_height(group: &Group) -> u32
    requires fits { depth_port (plain_port group.now) < 2 ^ 32 }
    ensures { result ≡ depth_port (plain_port group.now) }
{
    range_height(&group.range).max(declarators_height(group.names))
}

fn ports_height(groups: &[Group]) -> u32
    requires fits { greatest depth_port (map plain_port groups.now) < 2 ^ 32 }
    ensures { result ≡ greatest depth_port (map plain_port groups.now) }
{
    let mut deepest = 0;
    for group in groups.iter() {
        deepest = deepest.max(port_height(group));
    }
    deepest
}

fn settings_height(sets: &[Setting]) -> u32
    requires fits { greatest depth_assignment (map plain_assignment sets.now) < 2 ^ 32 }
    ensures { result ≡ greatest depth_assignment (map plain_assignment sets.now) }
{
    let mut deepest = 0;
    for set in sets.iter() {
        deepest = deepest.max(1 + expression_depth(set.value));
    }
    deepest
}

#[tactic(auto, using(crate::proofs::Depths::parameter_depths))]
fn parameter_height(params: &Params) -> u32
    requires fits { depth_parameter (plain_parameter params.now) < 2 ^ 32 }
    ensures { result ≡ depth_parameter (plain_parameter params.now) }
{
    range_height(&params.range).max(settings_height(params.sets))
}

fn parameters_height(params: &[Params]) -> u32
    requires fits { greatest depth_parameter (map plain_parameter params.now) < 2 ^ 32 }
    ensures { result ≡ greatest depth_parameter (map plain_parameter params.now) }
{
    let mut deepest = 0;
    for group in params.iter() {
        deepest = deepest.max(parameter_height(group));
    }
    deepest
}

fn pairs_height(pairs: &[Pair]) -> u32
    requires fits { greatest depth_pair (map plain_pair pairs.now) < 2 ^ 32 }
    ensures { result ≡ greatest depth_pair (map plain_pair pairs.now) }
{
    let mut deepest = 0;
    for pair in pairs.iter() {
        let below = expression_depth(pair.target).max(expression_depth(pair.value));
        deepest = deepest.max(1 + below);
    }
    deepest
}

#[tactic(auto, using(crate::proofs::Depths::events_depths))]
fn events_height(events: &Events) -> u32
    requires fits { depth_events (plain_events events.now) < 2 ^ 32 }
    ensures { result ≡ depth_events (plain_events events.now) }
{
    match events {
        Events::Star { .. } | Events::Edges { .. } => 0,
        Events::Levels { list, .. } => parts_height(list),
    }
}

fn named_height(list: &[Connection]) -> u32
    requires fits { greatest depth_connection (map plain_connection list.now) < 2 ^ 32 }
    ensures { result ≡ greatest depth_connection (map plain_connection list.now) }
{
    let mut deepest = 0;
    for connection in list.iter() {
        deepest = deepest.max(value_height(&connection.value));
    }
    deepest
}

#[tactic(auto, using(crate::proofs::Depths::connections_depths))]
fn connections_height(conns: &Conns) -> u32
    requires fits { depth_connections (plain_connections conns.now) < 2 ^ 32 }
    ensures { result ≡ depth_connections (plain_connections conns.now) }
{
    match conns {
        Conns::Positions(list) => parts_height(list),
        Conns::Names(list) => named_height(list),
    }
}

#[tactic(auto, using(crate::proofs::Depths::overrides_depths))]
fn overrides_height(overrides: &Option<Conns>) -> u32
    requires fits { depth_overrides (plain_overrides overrides.now) < 2 ^ 32 }
    ensures { result ≡ depth_overrides (plain_overrides overrides.now) }
{
    match overrides {
        None => 0,
        Some(conns) => connections_height(conns),
    }
}

fn instances_height(list: &[Instance]) -> u32
    requires fits { greatest depth_instance (map plain_instance list.now) < 2 ^ 32 }
    ensures { result ≡ greatest depth_instance (map plain_instance list.now) }
{
    let mut deepest = 0;
    for instance in list.iter() {
        deepest = deepest.max(connections_height(&instance.conns));
    }
    deepest
}

#[tactic(auto, using(crate::proofs::Depths::item_depths))]
fn item_depth(item: &Item) -> u32
    requires fits { depth_item (plain_item item.now) < 2 ^ 32 }
    ensures { result ≡ depth_item (plain_item item.now) }
{
    match item {
        Item::Ports(group) => port_height(group),
        Item::Nets { range, names, .. } | Item::Variables { range, names, .. } => {
            range_height(range).max(declarators_height(names))
        }
        Item::Integers { .. } => 0,
        Item::Parameters(params) => parameter_height(params),
        Item::Assigns { pairs } => pairs_height(pairs),
        Item::Always { events, body, .. } => events_height(events).max(1 + statement_depth(body)),
        Item::Initial { body, .. } => 1 + statement_depth(body),
        Item::Instances {
            overrides,
            list,
            ..
        } => { overrides_height(overrides).max(instances_height(list)) }
    }
}

fn items_height(items: &[Item]) -> u32
    requires fits { greatest height_item (map plain_item items.now) < 2 ^ 32 }
    ensures { result ≡ greatest height_item (map plain_item items.now) }
{
    let mut deepest = 0;
    for item in items.iter() {
        deepest = deepest.max(1 + item_depth(item));
    }
    deepest
}

#[tactic(auto, using(crate::proofs::Depths::module_depths))]
fn module_depth(module: &Module) -> u32
    requires fits { depth_module (plain_module «module».now) < 2 ^ 32 }
    ensures { result ≡ depth_module (plain_module «module».now) }
{
    let declared = parameters_height(module.params).max(ports_height(module.groups));
    declared.max(items_height(module.items))
}
