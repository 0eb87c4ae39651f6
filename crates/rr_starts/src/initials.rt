//! `initial` items (IEEE 1364-2005 section 9.9.1).
ghost use Rattle.std.specs.Prelude.{◌≡◌, ◌<◌, None, [], false, true, fold, length};
ghost use Rattle.rr_syntax.specs.View.{plain, plain_statement, plain_statements};
ghost use Rattle.rr_expr.specs.Faults.{fault, index_fault, or_else};
ghost use Rattle.rr_expr.specs.Scopes.{entity_shape, meant};
ghost use Rattle.rr_expr.specs.Memories.{index_shape};
ghost use Rattle.rr_expr.specs.Selects.{integer_with};
ghost use Rattle.rr_expr.specs.Values.{form, nowhere, value as value_of};
ghost use Rattle.rr_flat.specs.Faults.{answer_of, earlier, faults_in};
ghost use Rattle.rr_flat.specs.Shapes.{shape_faults};
ghost use Rattle.rr_flat.specs.Sound.{names_at};
ghost use Rattle.rr_starts.specs.Starts.{all_initial_faults, all_started, constant_faults, initial_faults, initial_target_faults, set_at, set_target, start_of, started, started_word, whole_signal};

use crate::values::{index_number, start_number};
use rr_expr::{
    Entity, Scope, constant, entity_shape as shape_of, index_shape as shape_at, shape, word_at,
};
use rr_flat::{Flat, FlatFault, earliest};
use rr_syntax::{Expr, Number, Stmt};

const ZERO: Number = Number {
    width: 1,
    signed: false,
    value: 0,
    any: 0,
    unknown: 0,
};

/// A fault that was found, if any, or that of a target's shape at an earlier token.
#[tactic(auto, unfolding(rr_flat::specs::Shapes::shape))]
fn note_shape(found: Option<FlatFault>, target: &Expr, names: &Scope) -> Option<FlatFault>
    ensures { result ≡ fold earlier found (shape_faults names.now (plain target.now)) }
{
    match shape(target, names) {
        Ok(_) => found,
        Err(fault) => earliest(found, FlatFault::from(fault)),
    }
}

/// A fault that was found, if any, or that of a bit or a word at a constant index at an earlier token.
fn note_word(
    found: Option<FlatFault>,
    token: u32,
    name: &str,
    index: &Expr,
    names: &Scope,
) -> Option<FlatFault>
    ensures { result ≡ fold earlier found (faults_in (answer_of (or_else (index_fault false token (meant names.now name.now)) (fault names.now (plain index.now) true)) (plain index.now))) }
{
    // A literal has no fault, so that of this select is its name's.
    let zero = Expr::Literal {
        token,
        number: ZERO,
    };
    let first = Expr::Bit {
        token,
        name,
        index: &zero,
    };
    match shape(&first, names) {
        Ok(_) => note_value(found, index, names),
        Err(fault) => earliest(found, FlatFault::from(fault)),
    }
}

/// A fault that was found, if any, or that of a target, of which an index is constant, at an earlier
/// token.
#[tactic(auto, using(crate::proofs::Nodes::initial_targets))]
fn note_target(found: Option<FlatFault>, target: &Expr, names: &Scope) -> Option<FlatFault>
    ensures { result ≡ fold earlier found (initial_target_faults names.now (plain target.now)) }
{
    match target {
        Expr::Bit { token, name, index } => note_word(found, *token, name, index, names),
        Expr::Name { .. }
        | Expr::Literal { .. }
        | Expr::Part { .. }
        | Expr::Indexed { .. }
        | Expr::Unary { .. }
        | Expr::Binary { .. }
        | Expr::Cond { .. }
        | Expr::Concat { .. }
        | Expr::Repeat { .. }
        | Expr::Cast { .. }
        | Expr::Paren { .. } => note_shape(found, target, names),
    }
}

/// A fault that was found, if any, or that of a constant at an earlier token.
fn note_value(found: Option<FlatFault>, value: &Expr, names: &Scope) -> Option<FlatFault>
    ensures { result ≡ fold earlier found (constant_faults names.now (plain value.now)) }
{
    match constant(value, names) {
        Ok(_) => found,
        Err(fault) => earliest(found, FlatFault::from(fault)),
    }
}

/// A fault that was found, if any, or the one of an `initial` item without loops at the earliest
/// token: of several at one token, as the turns of a loop have them, the first.
#[cycle(notes)]
#[tactic(auto, using(crate::proofs::Nodes::initial_notes))]
pub fn note_initial(found: Option<FlatFault>, stmt: &Stmt, names: &Scope) -> Option<FlatFault>
    ensures { result ≡ fold earlier found (initial_faults names.now (plain_statement stmt.now)) }
{
    match stmt {
        Stmt::Block { body, .. } => note_initials(found, body, names),
        Stmt::Assign { target, value, .. } => {
            let found = note_target(found, target, names);
            note_value(found, value, names)
        }
        Stmt::Null | Stmt::If { .. } | Stmt::Case { .. } | Stmt::For { .. } => found,
    }
}

#[cycle(notes)]
fn note_initials(found: Option<FlatFault>, body: &[Stmt], names: &Scope) -> Option<FlatFault>
    ensures { result ≡ fold earlier found (all_initial_faults names.now (plain_statements body.now)) }
{
    let mut found = found;
    for stmt in body.iter() {
        found = note_initial(found, stmt, names);
    }
    found
}

/// The variable of that name is set.
fn set_named(flat: &mut Flat, scope: u32, name: &str, value: &Expr)
    requires there { scope < length flat.old.scopes }
    requires constant { fault (names_at flat.old.scopes scope) (plain value.now) true ≡ None }
    ensures { flat.new ≡ record flat.old { starts = set_at (whole_signal (meant (names_at flat.old.scopes scope) name.now)) (start_of (names_at flat.old.scopes scope) (entity_shape (meant (names_at flat.old.scopes scope) name.now)).width (plain value.now)) flat.old.starts } }
{
    let names = &flat.scopes[scope as usize];
    let entity = names.meaning(name);
    if let Entity::Signal { id, .. } = entity {
        let number = start_number(value, names, shape_of(&entity).width);
        flat.start(id, number);
    }
}

/// The word of the memory of that name at that index is set.
fn set_word(flat: &mut Flat, scope: u32, name: &str, index: &Expr, value: &Expr)
    requires there { scope < length flat.old.scopes }
    requires index { fault (names_at flat.old.scopes scope) (plain index.now) true ≡ None }
    requires constant { fault (names_at flat.old.scopes scope) (plain value.now) true ≡ None }
    ensures { flat.new ≡ record flat.old { starts = set_at (started_word (meant (names_at flat.old.scopes scope) name.now) (integer_with (form (names_at flat.old.scopes scope) (plain index.now)) (value_of (names_at flat.old.scopes scope) (plain index.now) nowhere))) (start_of (names_at flat.old.scopes scope) (index_shape (meant (names_at flat.old.scopes scope) name.now)).width (plain value.now)) flat.old.starts } }
{
    let names = &flat.scopes[scope as usize];
    let entity = names.meaning(name);
    if let Entity::Memory {
        first,
        low,
        words,
        ..
    } = entity
    {
        if let Some(word) = word_at(low, words, index_number(index, names)) {
            let number = start_number(value, names, shape_at(&entity).width);
            flat.start(first + word, number);
        }
    }
}

/// The variable or the word that a target names is set.
#[tactic(auto, using(crate::proofs::Nodes::set_targets))]
fn set_one(flat: &mut Flat, scope: u32, target: &Expr, value: &Expr)
    requires there { scope < length flat.old.scopes }
    requires target { initial_target_faults (names_at flat.old.scopes scope) (plain target.now) ≡ [] }
    requires constant { fault (names_at flat.old.scopes scope) (plain value.now) true ≡ None }
    ensures { flat.new ≡ record flat.old { starts = set_target (names_at flat.old.scopes scope) (plain target.now) (plain value.now) flat.old.starts } }
{
    match target {
        Expr::Name { name, .. } => set_named(flat, scope, name, value),
        Expr::Bit { name, index, .. } => set_word(flat, scope, name, index, value),
        Expr::Literal { .. }
        | Expr::Part { .. }
        | Expr::Indexed { .. }
        | Expr::Unary { .. }
        | Expr::Binary { .. }
        | Expr::Cond { .. }
        | Expr::Concat { .. }
        | Expr::Repeat { .. }
        | Expr::Cast { .. }
        | Expr::Paren { .. } => {}
    }
}

/// An `initial` item without a fault sets the starting values of its variables, of which the last
/// one counts.
#[cycle(setting)]
#[tactic(auto, using(crate::proofs::Nodes::settings))]
pub fn set_starts(flat: &mut Flat, scope: u32, stmt: &Stmt)
    requires there { scope < length flat.old.scopes }
    requires none { initial_faults (names_at flat.old.scopes scope) (plain_statement stmt.now) ≡ [] }
    ensures { flat.new ≡ record flat.old { starts = started (names_at flat.old.scopes scope) (plain_statement stmt.now) flat.old.starts } }
{
    match stmt {
        Stmt::Block { body, .. } => set_all(flat, scope, body),
        Stmt::Assign { target, value, .. } => set_one(flat, scope, target, value),
        Stmt::Null | Stmt::If { .. } | Stmt::Case { .. } | Stmt::For { .. } => {}
    }
}

#[cycle(setting)]
fn set_all(flat: &mut Flat, scope: u32, body: &[Stmt])
    requires there { scope < length flat.old.scopes }
    requires none { all_initial_faults (names_at flat.old.scopes scope) (plain_statements body.now) ≡ [] }
    ensures { flat.new ≡ record flat.old { starts = all_started (names_at flat.old.scopes scope) (plain_statements body.now) flat.old.starts } }
{
    for stmt in body.iter() {
        set_starts(flat, scope, stmt);
    }
}
