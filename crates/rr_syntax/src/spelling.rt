//! The number of tokens that spell a tree, counted without making a list of them.

ghost use Rattle.std.specs.Prelude.{◌≡◌, ◌<◌, ◌^◌, length, map};
ghost use Rattle.rr_syntax.specs.Expressions.{spell, spell_more, spell_parts};
ghost use Rattle.rr_syntax.specs.Items.{spell_all, spell_assignment, spell_connection, spell_connections, spell_each, spell_events, spell_identifier, spell_instance, spell_item, spell_module, spell_declarator, spell_overrides, spell_pair, spell_parameter, spell_parameters, spell_port, spell_ports, spell_range, spell_separated, spell_source, spell_type, spell_value};
ghost use Rattle.rr_syntax.specs.Statements.{spell_arms, spell_label, spell_labels, spell_loop, spell_statement, spell_statements};
ghost use Rattle.rr_syntax.specs.View.{plain, plain_arms, plain_assignment, plain_connection, plain_connections, plain_events, plain_header, plain_identifier, plain_instance, plain_item, plain_label, plain_list, plain_loop, plain_module, plain_declarator, plain_overrides, plain_pair, plain_parameter, plain_port, plain_range, plain_source, plain_statement, plain_statements, plain_value};

use crate::tree::{
    Arm, Bounds, Connection, Conns, Declarator, Dir, Events, Expr, Group, Head, Instance, Item,
    Module, Named, Pair, Params, Setting, Source, Stmt,
};

/// The number of tokens that spell the source.
pub fn spell_len(source: &Source) -> u64
    requires fits { length (spell_source (plain_source source.now)) < 2 ^ 64 }
    ensures { result ≡ length (spell_source (plain_source source.now)) }
{
    let mut total = 0;
    for module in source.modules.iter() {
        total += module_len(module);
    }
    total
}

/// The number of tokens that spell the expression, brackets included.
#[tactic(auto, using(crate::proofs::Lengths::sizes))]
#[cycle(expression_lengths)]
pub fn expression_len(expr: &Expr) -> u64
    requires fits { length (spell (plain expr.now)) < 2 ^ 64 }
    ensures { result ≡ length (spell (plain expr.now)) }
{
    match expr {
        Expr::Name { .. } | Expr::Literal { .. } => 1,
        Expr::Bit { index, .. } => 3 + expression_len(index),
        Expr::Part { left, right, .. } => 4 + expression_len(left) + expression_len(right),
        Expr::Indexed { from, width, .. } => 4 + expression_len(from) + expression_len(width),
        Expr::Unary { of, .. } => 1 + expression_len(of),
        Expr::Binary { left, right, .. } => expression_len(left) + 1 + expression_len(right),
        Expr::Cond { test, yes, no } => {
            expression_len(test) + 1 + expression_len(yes) + 1 + expression_len(no)
        }
        Expr::Concat { parts } => 2 + parts_len(parts),
        Expr::Repeat { count, parts } => 4 + expression_len(count) + parts_len(parts),
        Expr::Cast { of, .. } => 3 + expression_len(of),
        Expr::Paren { of } => 2 + expression_len(of),
    }
}

// Each part is counted with a comma, of which there is one less than parts; so below.
#[cycle(expression_lengths)]
fn parts_len(parts: &[Expr]) -> u64
    requires fits { length (spell_more (plain_list parts.now)) < 2 ^ 64 }
    ensures { result ≡ length (spell_parts (plain_list parts.now)) }
{
    let mut total: u64 = 0;
    for part in parts.iter() {
        total += 1 + expression_len(part);
    }
    total.saturating_sub(1)
}

/// The number of tokens of a loop's head (IEEE 1364-2005 section 9.6), brackets included.
#[tactic(auto, using(crate::proofs::Lengths::loop_sizes))]
pub fn loop_len(head: &Head) -> u64
    requires fits { length (spell_loop (plain_loop head.now)) < 2 ^ 64 }
    ensures { result ≡ length (spell_loop (plain_loop head.now)) }
{
    8 + expression_len(head.start) + expression_len(head.test) + expression_len(head.step)
}

#[tactic(auto, using(crate::proofs::Lengths::statement_sizes))]
#[cycle(statement_lengths)]
fn statement_len(stmt: &Stmt) -> u64
    requires fits { length (spell_statement (plain_statement stmt.now)) < 2 ^ 64 }
    ensures { result ≡ length (spell_statement (plain_statement stmt.now)) }
{
    match stmt {
        Stmt::Null => 1,
        Stmt::Block { label, body } => 2 + label_len(label) + statements_len(body),
        Stmt::If {
            test,
            yes,
            no: None,
        } => 3 + expression_len(test) + statement_len(yes),
        Stmt::If {
            test,
            yes,
            no: Some(other),
        } => { 4 + expression_len(test) + statement_len(yes) + statement_len(other) }
        Stmt::Case { on, arms, .. } => 4 + expression_len(on) + arms_len(arms),
        Stmt::Assign { target, value, .. } => 2 + expression_len(target) + expression_len(value),
        Stmt::For { head, body } => 1 + loop_len(head) + statement_len(body),
    }
}

#[cycle(statement_lengths)]
fn statements_len(body: &[Stmt]) -> u64
    requires fits { length (spell_statements (plain_statements body.now)) < 2 ^ 64 }
    ensures { result ≡ length (spell_statements (plain_statements body.now)) }
{
    let mut total = 0;
    for stmt in body.iter() {
        total += statement_len(stmt);
    }
    total
}

#[cycle(statement_lengths)]
fn arms_len(arms: &[Arm]) -> u64
    requires fits { length (spell_arms (plain_arms arms.now)) < 2 ^ 64 }
    ensures { result ≡ length (spell_arms (plain_arms arms.now)) }
{
    let mut total = 0;
    for arm in arms.iter() {
        total += labels_len(arm.labels, arm.colon) + statement_len(arm.body);
    }
    total
}

#[tactic(auto, unfolding(crate::specs::Statements::spell_label, crate::specs::View::plain_label))]
fn label_len(label: &Option<Named>) -> u64
    ensures { result ≡ length (spell_label (plain_label label.now)) }
{
    match label {
        None => 0,
        Some(_) => 2,
    }
}

// The labels of an arm with their colon, or `default` with or without one.
#[tactic(auto, using(crate::proofs::ItemLengths::labels_none, crate::proofs::ItemLengths::labels_some, crate::proofs::Lengths::parts_len))]
fn labels_len(labels: &[Expr], colon: bool) -> u64
    requires fits { length (spell_labels (plain_list labels.now) colon) < 2 ^ 64 }
    ensures { result ≡ length (spell_labels (plain_list labels.now) colon) }
{
    if labels.is_empty() {
        1 + u64::from(colon)
    } else {
        parts_len(labels) + 1
    }
}

#[tactic(auto, using(crate::proofs::ItemLengths::range_sizes))]
fn range_len(range: &Option<Bounds>) -> u64
    requires fits { length (spell_range (plain_range range.now)) < 2 ^ 64 }
    ensures { result ≡ length (spell_range (plain_range range.now)) }
{
    match range {
        None => 0,
        Some(bounds) => 3 + expression_len(bounds.left) + expression_len(bounds.right),
    }
}

// `signed` and the range, where they stand.
#[tactic(auto, using(crate::proofs::ItemLengths::type_sizes))]
fn type_len(signed: bool, range: &Option<Bounds>) -> u64
    requires fits { length (spell_type signed (plain_range range.now)) < 2 ^ 64 }
    ensures { result ≡ length (spell_type signed (plain_range range.now)) }
{
    u64::from(signed) + range_len(range)
}

#[tactic(auto, using(crate::proofs::ItemLengths::names_len))]
fn names_len(names: &[Named]) -> u64
    ensures { result ≡ length (spell_separated spell_identifier (map plain_identifier names.now)) }
{
    (2 * names.len() as u64).saturating_sub(1)
}

// `=` and the value, where they stand.
#[tactic(auto, using(crate::proofs::ItemLengths::value_sizes))]
fn value_len(value: &Option<&Expr>) -> u64
    requires fits { length (spell_value (plain_value value.now)) < 2 ^ 64 }
    ensures { result ≡ length (spell_value (plain_value value.now)) }
{
    match value {
        None => 0,
        Some(expr) => 1 + expression_len(expr),
    }
}

#[tactic(auto, using(crate::proofs::ItemLengths::declarator_sizes))]
fn declarator_len(declarator: &Declarator) -> u64
    requires fits { length (spell_declarator (plain_declarator declarator.now)) < 2 ^ 64 }
    ensures { result ≡ length (spell_declarator (plain_declarator declarator.now)) }
{
    1 + range_len(&declarator.words) + value_len(&declarator.value)
}

fn declarators_len(names: &[Declarator]) -> u64
    requires fits { length (spell_each spell_declarator (map plain_declarator names.now)) < 2 ^ 64 }
    ensures { result ≡ length (spell_separated spell_declarator (map plain_declarator names.now)) }
{
    let mut total: u64 = 0;
    for declarator in names.iter() {
        total += 1 + declarator_len(declarator);
    }
    total.saturating_sub(1)
}

#[tactic(auto, using(crate::proofs::ItemLengths::port_sizes))]
fn port_len(group: &Group) -> u64
    requires fits { length (spell_port (plain_port group.now)) < 2 ^ 64 }
    ensures { result ≡ length (spell_port (plain_port group.now)) }
{
    let words = match group.dir {
        Dir::Input | Dir::Output => 1,
        Dir::InputWire | Dir::OutputWire | Dir::OutputReg => 2,
    };
    words + type_len(group.signed, &group.range) + declarators_len(group.names)
}

fn ports_len(groups: &[Group]) -> u64
    requires fits { length (spell_each spell_port (map plain_port groups.now)) < 2 ^ 64 }
    ensures { result ≡ length (spell_separated spell_port (map plain_port groups.now)) }
{
    let mut total: u64 = 0;
    for group in groups.iter() {
        total += 1 + port_len(group);
    }
    total.saturating_sub(1)
}

fn settings_len(sets: &[Setting]) -> u64
    requires fits { length (spell_each spell_assignment (map plain_assignment sets.now)) < 2 ^ 64 }
    ensures { result ≡ length (spell_separated spell_assignment (map plain_assignment sets.now)) }
{
    let mut total: u64 = 0;
    for set in sets.iter() {
        total += 3 + expression_len(set.value);
    }
    total.saturating_sub(1)
}

#[tactic(auto, using(crate::proofs::ItemLengths::parameter_sizes))]
fn parameter_len(params: &Params) -> u64
    requires fits { length (spell_parameter (plain_parameter params.now)) < 2 ^ 64 }
    ensures { result ≡ length (spell_parameter (plain_parameter params.now)) }
{
    let words = 1 + u64::from(params.integer);
    words + type_len(params.signed, &params.range) + settings_len(params.sets)
}

fn parameters_len(params: &[Params]) -> u64
    requires fits { length (spell_each spell_parameter (map plain_parameter params.now)) < 2 ^ 64 }
    ensures { result ≡ length (spell_separated spell_parameter (map plain_parameter params.now)) }
{
    let mut total: u64 = 0;
    for group in params.iter() {
        total += 1 + parameter_len(group);
    }
    total.saturating_sub(1)
}

fn pairs_len(pairs: &[Pair]) -> u64
    requires fits { length (spell_each spell_pair (map plain_pair pairs.now)) < 2 ^ 64 }
    ensures { result ≡ length (spell_separated spell_pair (map plain_pair pairs.now)) }
{
    let mut total: u64 = 0;
    for pair in pairs.iter() {
        total += 2 + expression_len(pair.target) + expression_len(pair.value);
    }
    total.saturating_sub(1)
}

/// The number of tokens behind the `@` of an event control (IEEE 1364-2005 section 9.7), brackets
/// included.
#[tactic(auto, using(crate::proofs::ItemLengths::events_sizes))]
pub fn events_len(events: &Events) -> u64
    requires fits { length (spell_events (plain_events events.now)) < 2 ^ 64 }
    ensures { result ≡ length (spell_events (plain_events events.now)) }
{
    match events {
        Events::Star { brackets: true } => 3,
        Events::Star { brackets: false } => 1,
        Events::Edges { list, .. } => 2 + (3 * list.len() as u64).saturating_sub(1),
        Events::Levels { list, .. } => 2 + parts_len(list),
    }
}

#[tactic(auto, using(crate::proofs::ItemLengths::connection_sizes))]
fn connection_len(connection: &Connection) -> u64
    requires fits { length (spell_connection (plain_connection connection.now)) < 2 ^ 64 }
    ensures { result ≡ length (spell_connection (plain_connection connection.now)) }
{
    match connection.value {
        None => 4,
        Some(value) => 4 + expression_len(value),
    }
}

fn named_len(list: &[Connection]) -> u64
    requires fits { length (spell_each spell_connection (map plain_connection list.now)) < 2 ^ 64 }
    ensures { result ≡ length (spell_separated spell_connection (map plain_connection list.now)) }
{
    let mut total: u64 = 0;
    for connection in list.iter() {
        total += 1 + connection_len(connection);
    }
    total.saturating_sub(1)
}

// With the brackets.
#[tactic(auto, using(crate::proofs::ItemLengths::connections_sizes))]
fn connections_len(conns: &Conns) -> u64
    requires fits { length (spell_connections (plain_connections conns.now)) < 2 ^ 64 }
    ensures { result ≡ length (spell_connections (plain_connections conns.now)) }
{
    match conns {
        Conns::Positions(list) => 2 + parts_len(list),
        Conns::Names(list) => 2 + named_len(list),
    }
}

#[tactic(auto, using(crate::proofs::ItemLengths::overrides_sizes))]
fn overrides_len(overrides: &Option<Conns>) -> u64
    requires fits { length (spell_overrides (plain_overrides overrides.now)) < 2 ^ 64 }
    ensures { result ≡ length (spell_overrides (plain_overrides overrides.now)) }
{
    match overrides {
        None => 0,
        Some(conns) => 1 + connections_len(conns),
    }
}

fn instances_len(list: &[Instance]) -> u64
    requires fits { length (spell_each spell_instance (map plain_instance list.now)) < 2 ^ 64 }
    ensures { result ≡ length (spell_separated spell_instance (map plain_instance list.now)) }
{
    let mut total: u64 = 0;
    for instance in list.iter() {
        total += 2 + connections_len(&instance.conns);
    }
    total.saturating_sub(1)
}

#[tactic(auto, using(crate::proofs::ItemLengths::item_sizes))]
fn item_len(item: &Item) -> u64
    requires fits { length (spell_item (plain_item item.now)) < 2 ^ 64 }
    ensures { result ≡ length (spell_item (plain_item item.now)) }
{
    match item {
        Item::Ports(group) => port_len(group) + 1,
        Item::Nets {
            signed,
            range,
            names,
        } => 2 + type_len(*signed, range) + declarators_len(names),
        Item::Variables {
            signed,
            range,
            names,
        } => 2 + type_len(*signed, range) + declarators_len(names),
        Item::Integers { names } => 2 + names_len(names),
        Item::Parameters(params) => parameter_len(params) + 1,
        Item::Assigns { pairs } => 2 + pairs_len(pairs),
        Item::Always { events, body, .. } => 2 + events_len(events) + statement_len(body),
        Item::Initial { body, .. } => 1 + statement_len(body),
        Item::Instances {
            overrides,
            list,
            ..
        } => 2 + overrides_len(overrides) + instances_len(list),
    }
}

fn items_len(items: &[Item]) -> u64
    requires fits { length (spell_all spell_item (map plain_item items.now)) < 2 ^ 64 }
    ensures { result ≡ length (spell_all spell_item (map plain_item items.now)) }
{
    let mut total = 0;
    for item in items.iter() {
        total += item_len(item);
    }
    total
}

// The parameters of a module with their `#(` and `)`, where it has any.
#[tactic(auto, using(crate::proofs::ItemLengths::module_sizes))]
fn head_len(params: &[Params]) -> u64
    requires fits { length (spell_parameters (map plain_parameter params.now)) < 2 ^ 64 }
    ensures { result ≡ length (spell_parameters (map plain_parameter params.now)) }
{
    if params.is_empty() {
        0
    } else {
        3 + parameters_len(params)
    }
}

// The port brackets of a module, where it has them.
#[tactic(auto, using(crate::proofs::ItemLengths::module_sizes))]
fn header_len(header: &Option<&[Named]>, groups: &[Group]) -> u64
    requires fits { length (spell_ports (plain_header header.now) (map plain_port groups.now)) < 2 ^ 64 }
    ensures { result ≡ length (spell_ports (plain_header header.now) (map plain_port groups.now)) }
{
    match header {
        None => 0,
        Some(names) => 2 + names_len(names) + ports_len(groups),
    }
}

#[tactic(auto, using(crate::proofs::ItemLengths::module_sizes))]
fn module_len(module: &Module) -> u64
    requires fits { length (spell_module (plain_module «module».now)) < 2 ^ 64 }
    ensures { result ≡ length (spell_module (plain_module «module».now)) }
{
    let ports = header_len(&module.header, module.groups);
    4 + head_len(module.params) + ports + items_len(module.items)
}
