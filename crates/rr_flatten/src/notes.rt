//! The faults of expressions, statements and event lists in a scope.
ghost use Rattle.std.specs.Prelude.{◌≡◌, map, fold, option_to_list};
ghost use Rattle.rr_syntax.specs.View.{plain, plain_list, plain_statement, plain_statements, plain_arms, plain_edge, plain_events, plain_value};
ghost use Rattle.rr_expr.specs.Scopes.{or_instance};
ghost use Rattle.rr_flat.specs.Faults.{earlier, sooner};
ghost use Rattle.rr_flat.specs.Shapes.{shape as shape_in, shape_faults, list_faults, statement_faults, statements_faults, arms_faults};
ghost use Rattle.rr_flatten.specs.Walk.{is_useless as useless, edge_faults, edges_faults, event_faults, expression_faults, value_faults};

use rr_expr::{Entity, Scope, Shape, shape};
use rr_flat::{FlatFault, note, note_earliest, note_if, sooner_of};
use rr_loop_rules::{LoopNames, note_part_strays, note_stray, note_strays};
use rr_syntax::{Arm, Event, Events, Expr, Stmt};

/// The shape of an expression, or its first fault.
#[tactic(auto, unfolding(rr_flat::specs::Shapes::shape))]
pub(crate) fn shape_of(expr: &Expr, names: &Scope) -> Result<Shape, FlatFault>
    ensures { result ≡ shape_in names.now (plain expr.now) }
{
    match shape(expr, names) {
        Ok(shape) => Ok(shape),
        Err(fault) => Err(FlatFault::from(fault)),
    }
}

/// The first of a fault that was found, if any, and that of an expression.
fn note_shape(found: Option<FlatFault>, expr: &Expr, names: &Scope) -> Option<FlatFault>
    ensures { result ≡ fold sooner found (shape_faults names.now (plain expr.now)) }
{
    note(found, &shape_of(expr, names))
}

/// The first of a fault that was found, if any, and those of an expression that stands in no loop.
pub(crate) fn note_expression(
    found: Option<FlatFault>,
    expr: &Expr,
    loops: &LoopNames,
    names: &Scope,
) -> Option<FlatFault>
    ensures { result ≡ fold sooner found (expression_faults loops.now names.now (plain expr.now)) }
{
    let found = note_strays(found, loops, expr);
    note_shape(found, expr, names)
}

/// The first of a fault that was found, if any, and those of several expressions.
fn note_list(found: Option<FlatFault>, list: &[Expr], names: &Scope) -> Option<FlatFault>
    ensures { result ≡ fold sooner found (list_faults names.now (plain_list list.now)) }
{
    let mut found = found;
    for expr in list.iter() {
        found = note_shape(found, expr, names);
    }
    found
}

/// A fault that was found, if any, or that of an expression at an earlier token.
fn earliest_shape(found: Option<FlatFault>, expr: &Expr, names: &Scope) -> Option<FlatFault>
    ensures { result ≡ fold earlier found (shape_faults names.now (plain expr.now)) }
{
    note_earliest(found, &shape_of(expr, names))
}

/// The same of several expressions.
fn earliest_list(found: Option<FlatFault>, list: &[Expr], names: &Scope) -> Option<FlatFault>
    ensures { result ≡ fold earlier found (list_faults names.now (plain_list list.now)) }
{
    let mut found = found;
    for expr in list.iter() {
        found = earliest_shape(found, expr, names);
    }
    found
}

/// A fault that was found, if any, or the one of the expressions of a statement without loops at the
/// earliest token: of several at one token, as the turns of a loop have them, the first.
#[cycle(notes)]
#[tactic(auto, using(crate::proofs::NotesOfNodes::statement_notes))]
pub(crate) fn note_statement(
    found: Option<FlatFault>,
    stmt: &Stmt,
    names: &Scope,
) -> Option<FlatFault>
    ensures { result ≡ fold earlier found (statement_faults names.now (plain_statement stmt.now)) }
{
    match stmt {
        Stmt::Null | Stmt::For { .. } => found,
        Stmt::Block { body, .. } => note_statements(found, body, names),
        Stmt::If {
            test,
            yes,
            no: None,
        } => {
            let found = earliest_shape(found, test, names);
            note_statement(found, yes, names)
        }
        Stmt::If {
            test,
            yes,
            no: Some(other),
        } => {
            let found = earliest_shape(found, test, names);
            let found = note_statement(found, yes, names);
            note_statement(found, other, names)
        }
        Stmt::Case { on, arms, .. } => {
            let found = earliest_shape(found, on, names);
            note_arms(found, arms, names)
        }
        Stmt::Assign { target, value, .. } => {
            let found = earliest_shape(found, target, names);
            earliest_shape(found, value, names)
        }
    }
}

#[cycle(notes)]
fn note_statements(found: Option<FlatFault>, body: &[Stmt], names: &Scope) -> Option<FlatFault>
    ensures { result ≡ fold earlier found (statements_faults names.now (plain_statements body.now)) }
{
    let mut found = found;
    for stmt in body.iter() {
        found = note_statement(found, stmt, names);
    }
    found
}

#[cycle(notes)]
fn note_arms(found: Option<FlatFault>, arms: &[Arm], names: &Scope) -> Option<FlatFault>
    ensures { result ≡ fold earlier found (arms_faults names.now (plain_arms arms.now)) }
{
    let mut found = found;
    for arm in arms.iter() {
        found = earliest_list(found, arm.labels, names);
        found = note_statement(found, arm.body, names);
    }
    found
}

fn is_useless(entity: Option<Entity>) -> bool
    ensures { result ≡ useless (or_instance entity) }
{
    match entity {
        Some(Entity::Constant { .. }) | Some(Entity::Signal { .. }) | Some(Entity::Memory { .. }) =>
            false,
        Some(Entity::Instance) | None => true,
    }
}

/// The first of a fault that was found, if any, and those of an edge.
#[tactic(auto, unfolding(rr_syntax::specs::View::plain_edge, rr_expr::specs::Scopes::meant))]
fn note_edge(
    found: Option<FlatFault>,
    edge: &Event,
    loops: &LoopNames,
    names: &Scope,
) -> Option<FlatFault>
    ensures { result ≡ fold sooner found (edge_faults loops.now names.now (plain_edge edge.now)) }
{
    let found = note_stray(found, loops, edge.token, edge.name);
    note_if(
        found,
        is_useless(names.find(edge.name)),
        FlatFault::UnknownName(edge.token),
    )
}

fn note_edges(
    found: Option<FlatFault>,
    edges: &[Event],
    loops: &LoopNames,
    names: &Scope,
) -> Option<FlatFault>
    ensures { result ≡ fold sooner found (edges_faults loops.now names.now (map plain_edge edges.now)) }
{
    let mut found = found;
    for edge in edges.iter() {
        found = note_edge(found, edge, loops, names);
    }
    found
}

/// The first of a fault that was found, if any, and those of an event list.
#[tactic(auto, unfolding(crate::specs::Walk::event_faults, rr_syntax::specs::View::plain_events))]
pub(crate) fn note_events(
    found: Option<FlatFault>,
    events: &Events,
    loops: &LoopNames,
    names: &Scope,
) -> Option<FlatFault>
    ensures { result ≡ fold sooner found (event_faults loops.now names.now (plain_events events.now)) }
{
    match events {
        Events::Star { .. } => found,
        Events::Edges { list, .. } => note_edges(found, list, loops, names),
        Events::Levels { list, .. } => {
            let found = note_part_strays(found, loops, list);
            note_list(found, list, names)
        }
    }
}

/// The first of a fault that was found, if any, and those of an expression, where there is one.
#[tactic(auto, unfolding(rr_syntax::specs::View::plain_value))]
pub(crate) fn note_optional(
    found: Option<FlatFault>,
    value: &Option<&Expr>,
    loops: &LoopNames,
    names: &Scope,
) -> Option<FlatFault>
    ensures { result ≡ fold sooner found (value_faults loops.now names.now (plain_value value.now)) }
{
    match value {
        None => found,
        Some(expr) => note_expression(found, expr, loops, names),
    }
}

/// The first of two faults, each if there is one.
pub(crate) fn note_found(found: Option<FlatFault>, other: Option<FlatFault>) -> Option<FlatFault>
    ensures { result ≡ fold sooner found (option_to_list other) }
{
    match other {
        None => found,
        Some(fault) => sooner_of(found, fault),
    }
}
