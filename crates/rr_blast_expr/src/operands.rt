//! Operands whose words need no other expression: names, literals, constant operands, and bits of names
//! between constant bounds (IEEE 1364-2005 sections 5.1.1, 5.2.1 and 5.4).
ghost use Rattle.std.specs.Prelude.{◌≡◌, ◌≤◌, [], None, true, false, IsTrue, IfOk, IfSome, length};
ghost use Rattle.rr_circuit.specs.Values.{IsWire, AreWires, wire_value, Extends};
ghost use Rattle.rr_syntax.specs.View.{plain};
ghost use Rattle.rr_expr.specs.Faults.{fault, is_width, constant_count};
ghost use Rattle.rr_expr.specs.Indices.{integer_of};
ghost use Rattle.rr_expr.specs.Scopes.{meant, entity_shape as shape_of_entity};
ghost use Rattle.rr_expr.specs.Selects.{integer_with};
ghost use Rattle.rr_expr.specs.Values.{form, value as value_of, nowhere};
ghost use Rattle.rr_word_gates.specs.Carried.{Carries};
ghost use Rattle.rr_blast_sites.specs.Instances.{World, Reads, place_of, literal_worth, HasWires};
ghost use Rattle.rr_blast_expr.specs.Forms.{in_context, placed, name_worth, part_worth};

use rr_blast_sites::{Inputs, literal_word, name_word};
use rr_choice::SiteList;
use rr_circuit::{Builder, Wire};
use rr_expr::{Env, Index, Scope, Shape, constant, entity_range, index_of, value};
use rr_syntax::{Expr, Number};
use rr_word_gates::{constants, extended, picked_at};
use std::alloc::{AllocError, Global};

/// One bit in a context.
pub(crate) fn bit_word(
    alloc: Global,
    b: &Builder,
    bit: Wire,
    context: Shape,
) -> Result<Vec<Wire>, AllocError>
    requires { IsWire b.now bit }
    ensures width { IfOk result (λ r. length r.items ≡ context.width) }
    ensures value { IfOk result (λ r. Carries b.now r.items (λ input. in_context context (wire_value b.now input bit))) }
{
    let out = extended(alloc, b, &[bit], context.width, context.signed)?;
    Ok(out)
}

/// A constant operand as a number.
fn constant_index(expr: &Expr, scope: &Scope) -> Index
    requires { fault scope.now (plain expr.now) true ≡ None }
    ensures { integer_of result ≡ integer_with (form scope.now (plain expr.now)) (value_of scope.now (plain expr.now) nowhere) }
{
    match constant(expr, scope) {
        Ok((bits, signed)) => index_of(bits, signed),
        Err(_) => Index {
            negative: false,
            size: 0,
        },
    }
}

/// The number that an expression writes by itself, where it is constant.
pub(crate) fn constant_at(expr: &Expr, scope: &Scope) -> Option<Index>
    ensures constant { IfSome result (λ i. fault scope.now (plain expr.now) true ≡ None) }
    ensures value { IfSome result (λ i. integer_of i ≡ integer_with (form scope.now (plain expr.now)) (value_of scope.now (plain expr.now) nowhere)) }
{
    match constant(expr, scope) {
        Ok((bits, signed)) => Some(index_of(bits, signed)),
        Err(_) => None,
    }
}

/// The number of copies that a constant asks.
pub(crate) fn copies_of(expr: &Expr, scope: &Scope) -> u128
    requires { fault scope.now (plain expr.now) true ≡ None }
    ensures { result ≡ constant_count scope.now (plain expr.now) }
{
    let index = constant_index(expr, scope);
    if index.negative { 0 } else { index.size }
}

/// An expression whose operands are constant.
pub(crate) fn constant_word(
    alloc: Global,
    b: &Builder,
    expr: &Expr,
    scope: &Scope,
    context: Shape,
) -> Result<Vec<Wire>, AllocError>
    requires none { fault scope.now (plain expr.now) false ≡ None }
    requires low { (form scope.now (plain expr.now)).width ≤ context.width }
    requires high { context.width ≤ 128 }
    ensures width { IfOk result (λ r. length r.items ≡ context.width) }
    ensures value { IfOk result (λ r. Carries b.now r.items (λ input. value_of scope.now (plain expr.now) nowhere context.width context.signed)) }
{
    let env = Env {
        values: Vec::new(alloc),
    };
    let bits = value(expr, scope, &env, context.width, context.signed);
    let out = constants(alloc, b, bits)?;
    Ok(out)
}

/// A list of no sites.
pub(crate) fn no_sites<'a>(alloc: Global) -> SiteList<'a>
    ensures { result ≡ [] }
{
    let none = Vec::new(alloc);
    SiteList::new(none)
}

/// The same names and signals, where all stays as it is.
pub(crate) fn unsited<'a>(inputs: &Inputs<'a>) -> Inputs<'a>
    ensures scope { result.scope.now ≡ inputs.now.scope.now }
    ensures signals { result.signals.now ≡ inputs.now.signals.now }
    ensures still { result.still ≡ true }
    ensures choice { result.choice.now ≡ [] }
{
    Inputs {
        scope: inputs.scope,
        signals: inputs.signals,
        sites: inputs.sites,
        choice: &[],
        still: true,
    }
}

/// The value of a name in a context.
pub(crate) fn name_in(
    alloc: Global,
    b: &Builder,
    name: &str,
    inputs: &Inputs,
    context: Shape,
) -> Result<Vec<Wire>, AllocError>
    requires wires { HasWires b.now inputs.now }
    requires name { IsTrue (is_width (shape_of_entity (meant inputs.now.scope.now name.now)).width) }
    ensures wires { IfOk result (λ r. AreWires b.now r.items) }
    ensures width { IfOk result (λ r. length r.items ≡ context.width) }
    ensures value { IfOk result (λ r. (W : World) → Reads b.now inputs.now W → Carries b.now r.items (placed context (name_worth (place_of inputs.now W) name.now))) }
{
    let entity = inputs.scope.meaning(name);
    let word = name_word(alloc, b, &entity, inputs.signals)?;
    let out = extended(alloc, b, word.as_slice(), context.width, context.signed)?;
    Ok(out)
}

/// A literal of the instance in a context.
pub(crate) fn literal_in(
    alloc: Global,
    b: &mut Builder,
    token: u32,
    number: Number,
    inputs: &Inputs,
    context: Shape,
) -> Result<Vec<Wire>, AllocError>
    requires wires { HasWires b.old inputs.now }
    requires width { IsTrue (is_width number.width) }
    ensures extends { Extends b.old b.new }
    ensures wires { IfOk result (λ r. AreWires b.new r.items) }
    ensures width { IfOk result (λ r. length r.items ≡ context.width) }
    ensures value { IfOk result (λ r. (W : World) → Reads b.old inputs.now W → Carries b.new r.items (placed context (literal_worth (place_of inputs.now W) token number))) }
{
    let word = literal_word(alloc, b, token, number, inputs)?;
    let out = extended(alloc, b, word.as_slice(), context.width, context.signed)?;
    Ok(out)
}

/// So many bits of a name from a constant index up, in a context.
pub(crate) fn part_select(
    alloc: Global,
    b: &Builder,
    name: &str,
    right: &Expr,
    count: u32,
    inputs: &Inputs,
    context: Shape,
) -> Result<Vec<Wire>, AllocError>
    requires wires { HasWires b.now inputs.now }
    requires name { IsTrue (is_width (shape_of_entity (meant inputs.now.scope.now name.now)).width) }
    requires none { fault inputs.now.scope.now (plain right.now) true ≡ None }
    requires high { count ≤ 128 }
    ensures wires { IfOk result (λ r. AreWires b.now r.items) }
    ensures width { IfOk result (λ r. length r.items ≡ context.width) }
    ensures value { IfOk result (λ r. (W : World) → Reads b.now inputs.now W → Carries b.now r.items (placed context (part_worth (place_of inputs.now W) name.now (plain right.now) count))) }
{
    let entity = inputs.scope.meaning(name);
    let range = entity_range(&entity);
    let index = constant_index(right, inputs.scope);
    let word = name_word(alloc, b, &entity, inputs.signals)?;
    let part = picked_at(alloc, b, word.as_slice(), range, index, 0, count)?;
    let out = extended(alloc, b, part.as_slice(), context.width, context.signed)?;
    Ok(out)
}
