//! What names stand for in a flat design.
ghost use Rattle.std.specs.Prelude.{◌≡◌, ◌<◌, length, map, is_none, IfSome};
ghost use Rattle.rr_syntax.specs.View.{plain, plain_identifier};
ghost use Rattle.rr_expr.specs.Scopes.{meant, or_instance};
ghost use Rattle.rr_flat.specs.Signals.{signal_at};
ghost use Rattle.rr_flat.specs.Sound.{IsNamed};
ghost use Rattle.rr_flat.specs.Targets.{is_fixed as is_fixed_in, is_indexed as is_indexed_part, variable_of as variable_of_entity};
ghost use Rattle.rr_flat.specs.View.{plain_flat, plain_signal};
ghost use Rattle.rr_flat.specs.Writers.{scope_at};
ghost use Rattle.rr_text_names.specs.Names.{is_input as is_input_port, part_identifier, scalar_of as scalar_of_entity, signal_of as signal_of_entity};

use rr_expr::{Entity, Scope};
use rr_flat::{Flat, Port, is_constant};
use rr_syntax::{Expr, Named};

/// The signal for which an entity stands; a memory is no one signal.
pub fn signal_of(entity: Option<Entity>) -> Option<u32>
    ensures { result ≡ signal_of_entity (or_instance entity) }
{
    match entity {
        Some(Entity::Signal { id, .. }) => Some(id),
        Some(Entity::Constant { .. })
        | Some(Entity::Memory { .. })
        | Some(Entity::Instance)
        | None => None,
    }
}

fn entity_of(entity: Option<Entity>) -> Entity
    ensures { result ≡ or_instance entity }
{
    match entity {
        Some(entity) => entity,
        None => Entity::Instance,
    }
}

/// What a name stands for in the instance with this number.
#[tactic(auto, unfolding(rr_expr::specs::Scopes::meant, rr_expr::specs::Scopes::lookup))]
pub fn entity_named(flat: &Flat, scope: u32, name: &str) -> Entity
    ensures value { result ≡ meant (scope_at (plain_flat flat.now) scope) name.now }
    ensures sound { IsNamed 0 (map plain_signal flat.now.signals) result }
{
    match flat.scope(scope) {
        Some(names) => entity_of(names.find(name)),
        None => Entity::Instance,
    }
}

fn variable_of(entity: &Entity) -> Option<u32>
    ensures { result ≡ variable_of_entity entity.now }
{
    match entity {
        Entity::Signal { id, .. } => Some(*id),
        Entity::Memory { first, .. } => Some(*first),
        Entity::Constant { .. } => None,
        Entity::Instance => None,
    }
}

/// The variable or net for which it stands there; a memory is one variable, by the signal of its first
/// word.
pub fn variable_named(flat: &Flat, scope: u32, name: &str) -> Option<u32>
    ensures value { result ≡ variable_of_entity (meant (scope_at (plain_flat flat.now) scope) name.now) }
    ensures inside { IfSome result (λ id. id < length flat.now.signals) }
{
    variable_of(&entity_named(flat, scope, name))
}

/// Whether a signal is a variable.
pub fn is_variable(flat: &Flat, id: u32) -> bool
    ensures { result ≡ (signal_at (plain_flat flat.now).signals id).variable }
{
    match flat.signal(id) {
        Some(signal) => signal.variable,
        None => false,
    }
}

/// Whether it is an input port.
pub fn is_input(flat: &Flat, id: u32) -> bool
    ensures { result ≡ is_input_port (signal_at (plain_flat flat.now).signals id).port }
{
    match flat.signal(id) {
        Some(signal) => signal.port == Port::Input,
        None => false,
    }
}

/// The number of its instance.
pub fn instance_of(flat: &Flat, id: u32) -> u32
    ensures { result ≡ (signal_at (plain_flat flat.now).signals id).instance }
{
    match flat.signal(id) {
        Some(signal) => signal.instance,
        None => 0,
    }
}

/// The name of a target without braces.
#[tactic(auto, using(crate::proofs::NamesOfParts::identifier_nodes), unfolding(rr_syntax::specs::View::plain_identifier))]
pub fn identifier_of<'a>(part: &Expr<'a>) -> Named<'a>
    ensures { plain_identifier result ≡ part_identifier (plain part.now) }
{
    match part {
        Expr::Name { token, name }
        | Expr::Bit { token, name, .. }
        | Expr::Part { token, name, .. }
        | Expr::Indexed { token, name, .. } => Named {
            token: *token,
            name,
        },
        Expr::Literal { .. }
        | Expr::Unary { .. }
        | Expr::Binary { .. }
        | Expr::Cond { .. }
        | Expr::Concat { .. }
        | Expr::Repeat { .. }
        | Expr::Cast { .. }
        | Expr::Paren { .. } => Named { token: 0, name: "" },
    }
}

/// Whether its index is constant.
#[tactic(auto, using(crate::proofs::NamesOfParts::fixed_nodes))]
pub fn is_fixed(part: &Expr, names: &Scope) -> bool
    ensures { result ≡ is_fixed_in names.now (plain part.now) }
{
    match part {
        Expr::Bit { index, .. } => is_constant(index, names),
        Expr::Indexed { from, .. } => is_constant(from, names),
        Expr::Name { .. }
        | Expr::Literal { .. }
        | Expr::Part { .. }
        | Expr::Unary { .. }
        | Expr::Binary { .. }
        | Expr::Cond { .. }
        | Expr::Concat { .. }
        | Expr::Repeat { .. }
        | Expr::Cast { .. }
        | Expr::Paren { .. } => true,
    }
}

/// Whether it has an index, as `NAME[e]` does.
#[tactic(auto, using(crate::proofs::NamesOfParts::indexed_nodes))]
pub fn is_indexed(part: &Expr) -> bool
    ensures { result ≡ is_indexed_part (plain part.now) }
{
    match part {
        Expr::Bit { .. } => true,
        Expr::Name { .. }
        | Expr::Literal { .. }
        | Expr::Part { .. }
        | Expr::Indexed { .. }
        | Expr::Unary { .. }
        | Expr::Binary { .. }
        | Expr::Cond { .. }
        | Expr::Concat { .. }
        | Expr::Repeat { .. }
        | Expr::Cast { .. }
        | Expr::Paren { .. } => false,
    }
}

fn scalar_of(entity: Option<Entity>) -> Option<u32>
    ensures { result ≡ scalar_of_entity (or_instance entity) }
{
    match entity {
        Some(
            Entity::Signal {
                id,
                range: None,
                ..
            },
        ) => Some(id),
        Some(Entity::Signal { range: Some(_), .. })
        | Some(Entity::Constant { .. })
        | Some(Entity::Memory { .. })
        | Some(Entity::Instance)
        | None => None,
    }
}

/// The scalar for which it stands.
#[tactic(auto, unfolding(rr_expr::specs::Scopes::meant, rr_expr::specs::Scopes::lookup))]
pub fn scalar_named(flat: &Flat, scope: u32, name: &str) -> Option<u32>
    ensures { result ≡ scalar_of_entity (meant (scope_at (plain_flat flat.now) scope) name.now) }
{
    match flat.scope(scope) {
        Some(names) => scalar_of(names.find(name)),
        None => None,
    }
}

/// Whether it has no range.
pub fn is_scalar(flat: &Flat, id: u32) -> bool
    ensures { result ≡ is_none (signal_at (plain_flat flat.now).signals id).range }
{
    match flat.signal(id) {
        Some(signal) => signal.range.is_none(),
        None => true,
    }
}
