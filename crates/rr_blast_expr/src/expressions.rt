//! The wires of an expression's instance, by cases on the expression (IEEE 1364-2005 sections 5.1,
//! 5.2, 5.4 and 5.5).
ghost use Rattle.std.specs.Prelude.{◌≡◌, ◌≤◌, if◌then◌else◌, ℤ, pos, ◌-ℤ◌, None, true, false, IsTrue, IfOk, length};
ghost use Rattle.rr_bits.specs.Words.{select};
ghost use Rattle.rr_circuit.specs.Values.{IsWire, AreWires, wire_values, Extends};
ghost use Rattle.rr_syntax.specs.Tree.{Binary};
ghost use Rattle.rr_syntax.specs.View.{plain, plain_list};
ghost use Rattle.rr_expr.specs.Faults.{fault, faults, is_width, constant_count};
ghost use Rattle.rr_expr.specs.Operators.{prefix_shape};
ghost use Rattle.rr_expr.specs.Scopes.{meant, entity_shape as shape_of_entity};
ghost use Rattle.rr_expr.specs.Selects.{place, repeated as repeated_word};
ghost use Rattle.rr_expr.specs.Values.{form, widths};
ghost use Rattle.rr_word_gates.specs.Carried.{Carries, CarriesBit};
ghost use Rattle.rr_blast_sites.specs.Instances.{World, Reads, place_of, worth, own_worth, truth, parts_worth, test_truth, HasWires};
ghost use Rattle.rr_blast_expr.specs.Forms.{in_context, placed, index_worth, word_worth, bit_worth, indexed_worth, prefix_worth, operation_worth, shift_worth, relation_worth, logic_worth};

use crate::operands::{
    bit_word, constant_at, constant_word, copies_of, literal_in, name_in, part_select, unsited,
};
use crate::shapes::{own_shape, width};
use rr_blast_sites::{Inputs, name_word, test_wire};
use rr_circuit::{Builder, Wire};
use rr_expr::{
    Entity, Infix, Operation, Prefix, Relation, Shape, Shift, below_index, entity_range,
    index_shape, infix_of, joined, prefix_of,
};
use rr_memory_gates::{Memory, fixed_word, moving_word};
use rr_syntax::{Expr, Mark};
use rr_word_gates::{
    Connective, chosen, computed, connected, extended, holds, inverted, negated, of_all, picked_at,
    reduced, repeated, selected, shifted,
};
use std::alloc::{AllocError, Global};

/// The value of an expression that stands by itself. What its parts are asked alone needs no shape of
/// the whole.
#[cycle(wires)]
pub(crate) fn own_word(
    alloc: Global,
    b: &mut Builder,
    expr: &Expr,
    inputs: &Inputs,
) -> Result<Vec<Wire>, AllocError>
    requires wires { HasWires b.old inputs.now }
    requires none { fault inputs.now.scope.now (plain expr.now) false ≡ None }
    ensures extends { Extends b.old b.new }
    ensures wires { IfOk result (λ r. AreWires b.new r.items) }
    ensures width { IfOk result (λ r. length r.items ≡ (form inputs.now.scope.now (plain expr.now)).width) }
    ensures value { IfOk result (λ r. (W : World) → Reads b.old inputs.now W → Carries b.new r.items (own_worth (place_of inputs.now W) (plain expr.now))) }
{
    match expr {
        Expr::Concat { parts } => {
            let out = parts_word(alloc, b, parts, inputs)?;
            Ok(out)
        }
        Expr::Cast { of, .. } => {
            let out = own_word(alloc, b, of, inputs)?;
            Ok(out)
        }
        Expr::Paren { of } => {
            let out = own_word(alloc, b, of, inputs)?;
            Ok(out)
        }
        _ => {
            let shape = own_shape(expr, inputs.scope);
            let out = word_in(alloc, b, expr, inputs, shape)?;
            Ok(out)
        }
    }
}

/// Whether an expression that stands by itself is true.
#[cycle(wires)]
pub(crate) fn is_true(
    alloc: Global,
    b: &mut Builder,
    expr: &Expr,
    inputs: &Inputs,
) -> Result<Wire, AllocError>
    requires wires { HasWires b.old inputs.now }
    requires none { fault inputs.now.scope.now (plain expr.now) false ≡ None }
    ensures extends { Extends b.old b.new }
    ensures wire { IfOk result (λ w. IsWire b.new w) }
    ensures value { IfOk result (λ w. (W : World) → Reads b.old inputs.now W → CarriesBit b.new w (truth (place_of inputs.now W) (plain expr.now))) }
{
    let word = own_word(alloc, b, expr, inputs)?;
    let out = of_all(b, Connective::Or, word.as_slice())?;
    Ok(out)
}

/// So many bits of a word from `below` places under that of an index up, 0 where there is none. The
/// index stays in every instance; bits at a constant index cost no gate.
#[cycle(wires)]
fn bits_at(
    alloc: Global,
    b: &mut Builder,
    word: &[Wire],
    index: &Expr,
    range: (u32, u32),
    below: u32,
    count: u32,
    inputs: &Inputs,
) -> Result<Vec<Wire>, AllocError>
    requires wires { HasWires b.old inputs.now }
    requires word { AreWires b.old word.now }
    requires size { length word.now ≤ 128 }
    requires none { fault inputs.now.scope.now (plain index.now) false ≡ None }
    requires below { below ≤ 128 }
    requires count { count ≤ 128 }
    ensures extends { Extends b.old b.new }
    ensures wires { IfOk result (λ r. AreWires b.new r.items) }
    ensures width { IfOk result (λ r. length r.items ≡ count) }
    ensures value { IfOk result (λ r. (W : World) → Reads b.old inputs.now W → Carries b.new r.items (λ input. select (wire_values b.old input word.now) (place range (index_worth (place_of inputs.now W) (plain index.now) input) -ℤ pos below) count)) }
{
    match constant_at(index, inputs.scope) {
        Some(at) => {
            let out = picked_at(alloc, b, word, range, at, below, count)?;
            Ok(out)
        }
        None => {
            let shape = own_shape(index, inputs.scope);
            let still = unsited(inputs);
            let at = word_in(alloc, b, index, &still, shape)?;
            let by = at.as_slice();
            let out = selected(alloc, b, word, by, shape.signed, range, below, count)?;
            Ok(out)
        }
    }
}

/// The word of a memory at an index. The index stays in every instance; the word at a constant index
/// costs no gate.
#[cycle(wires)]
fn memory_word(
    alloc: Global,
    b: &mut Builder,
    memory: Memory,
    index: &Expr,
    inputs: &Inputs,
) -> Result<Vec<Wire>, AllocError>
    requires wires { HasWires b.old inputs.now }
    requires wide { 1 ≤ memory.width }
    requires narrow { memory.width ≤ 128 }
    requires none { fault inputs.now.scope.now (plain index.now) false ≡ None }
    ensures extends { Extends b.old b.new }
    ensures wires { IfOk result (λ r. AreWires b.new r.items) }
    ensures width { IfOk result (λ r. length r.items ≡ memory.width) }
    ensures value { IfOk result (λ r. (W : World) → Reads b.old inputs.now W → Carries b.new r.items (word_worth (place_of inputs.now W) memory (plain index.now))) }
{
    match constant_at(index, inputs.scope) {
        Some(at) => {
            let out = fixed_word(alloc, b, memory, inputs.signals, at)?;
            Ok(out)
        }
        None => {
            let shape = own_shape(index, inputs.scope);
            let still = unsited(inputs);
            let at = word_in(alloc, b, index, &still, shape)?;
            let by = at.as_slice();
            let out = moving_word(alloc, b, memory, inputs.signals, by, shape.signed)?;
            Ok(out)
        }
    }
}

/// What an index of a name reads, a bit or a word of a memory, in a context.
#[cycle(wires)]
fn bit_select(
    alloc: Global,
    b: &mut Builder,
    name: &str,
    index: &Expr,
    inputs: &Inputs,
    context: Shape,
) -> Result<Vec<Wire>, AllocError>
    requires wires { HasWires b.old inputs.now }
    requires name { IsTrue (is_width (shape_of_entity (meant inputs.now.scope.now name.now)).width) }
    requires none { fault inputs.now.scope.now (plain index.now) false ≡ None }
    ensures extends { Extends b.old b.new }
    ensures wires { IfOk result (λ r. AreWires b.new r.items) }
    ensures width { IfOk result (λ r. length r.items ≡ context.width) }
    ensures value { IfOk result (λ r. (W : World) → Reads b.old inputs.now W → Carries b.new r.items (placed context (bit_worth (place_of inputs.now W) name.now (plain index.now)))) }
{
    let entity = inputs.scope.meaning(name);
    if let Entity::Memory {
        first,
        low,
        words,
        ..
    } = entity
    {
        let width = index_shape(&entity).width;
        let memory = Memory {
            first,
            low,
            words,
            width,
        };
        let stored = memory_word(alloc, b, memory, index, inputs)?;
        let whole = extended(alloc, b, stored.as_slice(), context.width, context.signed)?;
        return Ok(whole);
    }
    let range = entity_range(&entity);
    let word = name_word(alloc, b, &entity, inputs.signals)?;
    let bit = bits_at(alloc, b, word.as_slice(), index, range, 0, 1, inputs)?;
    let out = extended(alloc, b, bit.as_slice(), context.width, context.signed)?;
    Ok(out)
}

/// So many bits of a name, up or down from an index, in a context.
#[cycle(wires)]
fn indexed_select(
    alloc: Global,
    b: &mut Builder,
    name: &str,
    from: &Expr,
    count: u32,
    up: bool,
    inputs: &Inputs,
    context: Shape,
) -> Result<Vec<Wire>, AllocError>
    requires wires { HasWires b.old inputs.now }
    requires name { IsTrue (is_width (shape_of_entity (meant inputs.now.scope.now name.now)).width) }
    requires none { fault inputs.now.scope.now (plain from.now) false ≡ None }
    requires low { 1 ≤ count }
    requires high { count ≤ 128 }
    ensures extends { Extends b.old b.new }
    ensures wires { IfOk result (λ r. AreWires b.new r.items) }
    ensures width { IfOk result (λ r. length r.items ≡ context.width) }
    ensures value { IfOk result (λ r. (W : World) → Reads b.old inputs.now W → Carries b.new r.items (placed context (indexed_worth (place_of inputs.now W) name.now (plain from.now) count up))) }
{
    let entity = inputs.scope.meaning(name);
    let range = entity_range(&entity);
    let word = name_word(alloc, b, &entity, inputs.signals)?;
    let below = below_index(range, count, up);
    let part = bits_at(alloc, b, word.as_slice(), from, range, below, count, inputs)?;
    let out = extended(alloc, b, part.as_slice(), context.width, context.signed)?;
    Ok(out)
}

/// An operator before its operand.
#[cycle(wires)]
fn prefix_word(
    alloc: Global,
    b: &mut Builder,
    op: Prefix,
    of: &Expr,
    inputs: &Inputs,
    context: Shape,
) -> Result<Vec<Wire>, AllocError>
    requires wires { HasWires b.old inputs.now }
    requires none { fault inputs.now.scope.now (plain of.now) false ≡ None }
    requires low { (prefix_shape op (form inputs.now.scope.now (plain of.now))).width ≤ context.width }
    requires positive { 1 ≤ context.width }
    requires high { context.width ≤ 128 }
    ensures extends { Extends b.old b.new }
    ensures wires { IfOk result (λ r. AreWires b.new r.items) }
    ensures width { IfOk result (λ r. length r.items ≡ context.width) }
    ensures value { IfOk result (λ r. (W : World) → Reads b.old inputs.now W → Carries b.new r.items (prefix_worth (place_of inputs.now W) op (plain of.now) context)) }
{
    match op {
        Prefix::Plus => word_in(alloc, b, of, inputs, context),
        Prefix::Minus => {
            let word = word_in(alloc, b, of, inputs, context)?;
            let out = negated(alloc, b, word.as_slice())?;
            Ok(out)
        }
        Prefix::Invert => {
            let word = word_in(alloc, b, of, inputs, context)?;
            let out = inverted(alloc, b, word.as_slice())?;
            Ok(out)
        }
        Prefix::Reduced(op) => {
            let word = own_word(alloc, b, of, inputs)?;
            let bit = reduced(b, op, word.as_slice())?;
            let out = bit_word(alloc, b, bit, context)?;
            Ok(out)
        }
    }
}

/// An operator that takes both operands in the context of the whole.
#[cycle(wires)]
fn operation_word(
    alloc: Global,
    b: &mut Builder,
    op: Operation,
    left: &Expr,
    right: &Expr,
    inputs: &Inputs,
    context: Shape,
) -> Result<Vec<Wire>, AllocError>
    requires wires { HasWires b.old inputs.now }
    requires left { fault inputs.now.scope.now (plain left.now) false ≡ None }
    requires right { fault inputs.now.scope.now (plain right.now) false ≡ None }
    requires left_low { (form inputs.now.scope.now (plain left.now)).width ≤ context.width }
    requires right_low { (form inputs.now.scope.now (plain right.now)).width ≤ context.width }
    requires positive { 1 ≤ context.width }
    requires high { context.width ≤ 128 }
    ensures extends { Extends b.old b.new }
    ensures wires { IfOk result (λ r. AreWires b.new r.items) }
    ensures width { IfOk result (λ r. length r.items ≡ context.width) }
    ensures value { IfOk result (λ r. (W : World) → Reads b.old inputs.now W → Carries b.new r.items (operation_worth (place_of inputs.now W) op (plain left.now) (plain right.now) context)) }
{
    let xs = word_in(alloc, b, left, inputs, context)?;
    let ys = word_in(alloc, b, right, inputs, context)?;
    let out = computed(alloc, b, op, xs.as_slice(), ys.as_slice())?;
    Ok(out)
}

/// A shift, by the number that the right operand is by itself.
#[cycle(wires)]
fn shift_word(
    alloc: Global,
    b: &mut Builder,
    op: Shift,
    left: &Expr,
    right: &Expr,
    inputs: &Inputs,
    context: Shape,
) -> Result<Vec<Wire>, AllocError>
    requires wires { HasWires b.old inputs.now }
    requires left { fault inputs.now.scope.now (plain left.now) false ≡ None }
    requires right { fault inputs.now.scope.now (plain right.now) false ≡ None }
    requires low { (form inputs.now.scope.now (plain left.now)).width ≤ context.width }
    requires positive { 1 ≤ context.width }
    requires high { context.width ≤ 128 }
    ensures extends { Extends b.old b.new }
    ensures wires { IfOk result (λ r. AreWires b.new r.items) }
    ensures width { IfOk result (λ r. length r.items ≡ context.width) }
    ensures value { IfOk result (λ r. (W : World) → Reads b.old inputs.now W → Carries b.new r.items (shift_worth (place_of inputs.now W) op (plain left.now) (plain right.now) context)) }
{
    let xs = word_in(alloc, b, left, inputs, context)?;
    let by = own_word(alloc, b, right, inputs)?;
    let out = shifted(alloc, b, op, context.signed, xs.as_slice(), by.as_slice())?;
    Ok(out)
}

/// Whether a comparison holds, in a context; its operands have a context of their own (IEEE 1364-2005
/// section 5.5.2).
#[cycle(wires)]
fn relation_word(
    alloc: Global,
    b: &mut Builder,
    op: Relation,
    left: &Expr,
    right: &Expr,
    inputs: &Inputs,
    context: Shape,
) -> Result<Vec<Wire>, AllocError>
    requires wires { HasWires b.old inputs.now }
    requires left { fault inputs.now.scope.now (plain left.now) false ≡ None }
    requires right { fault inputs.now.scope.now (plain right.now) false ≡ None }
    ensures extends { Extends b.old b.new }
    ensures wires { IfOk result (λ r. AreWires b.new r.items) }
    ensures width { IfOk result (λ r. length r.items ≡ context.width) }
    ensures value { IfOk result (λ r. (W : World) → Reads b.old inputs.now W → Carries b.new r.items (λ input. in_context context (relation_worth (place_of inputs.now W) op (plain left.now) (plain right.now) input))) }
{
    let shape = joined(
        own_shape(left, inputs.scope),
        own_shape(right, inputs.scope),
    );
    let xs = word_in(alloc, b, left, inputs, shape)?;
    let ys = word_in(alloc, b, right, inputs, shape)?;
    let bit = holds(b, op, shape.signed, xs.as_slice(), ys.as_slice())?;
    let out = bit_word(alloc, b, bit, context)?;
    Ok(out)
}

/// Whether both or either of two operands are true, in a context.
#[cycle(wires)]
fn logic_word(
    alloc: Global,
    b: &mut Builder,
    op: Connective,
    left: &Expr,
    right: &Expr,
    inputs: &Inputs,
    context: Shape,
) -> Result<Vec<Wire>, AllocError>
    requires wires { HasWires b.old inputs.now }
    requires left { fault inputs.now.scope.now (plain left.now) false ≡ None }
    requires right { fault inputs.now.scope.now (plain right.now) false ≡ None }
    ensures extends { Extends b.old b.new }
    ensures wires { IfOk result (λ r. AreWires b.new r.items) }
    ensures width { IfOk result (λ r. length r.items ≡ context.width) }
    ensures value { IfOk result (λ r. (W : World) → Reads b.old inputs.now W → Carries b.new r.items (λ input. in_context context (logic_worth (place_of inputs.now W) op (plain left.now) (plain right.now) input))) }
{
    let x = is_true(alloc, b, left, inputs)?;
    let y = is_true(alloc, b, right, inputs)?;
    let bit = connected(b, op, x, y)?;
    let out = bit_word(alloc, b, bit, context)?;
    Ok(out)
}

/// An operator between its operands.
#[cycle(wires)]
fn infix_word(
    alloc: Global,
    b: &mut Builder,
    expr: &Expr,
    op: Mark,
    left: &Expr,
    right: &Expr,
    inputs: &Inputs,
    context: Shape,
) -> Result<Vec<Wire>, AllocError>
    requires wires { HasWires b.old inputs.now }
    requires is { plain expr.now ≡ Binary op.0 (plain left.now) (plain right.now) }
    requires none { fault inputs.now.scope.now (plain expr.now) false ≡ None }
    requires low { (form inputs.now.scope.now (plain expr.now)).width ≤ context.width }
    requires positive { 1 ≤ context.width }
    requires high { context.width ≤ 128 }
    ensures extends { Extends b.old b.new }
    ensures wires { IfOk result (λ r. AreWires b.new r.items) }
    ensures width { IfOk result (λ r. length r.items ≡ context.width) }
    ensures value { IfOk result (λ r. (W : World) → Reads b.old inputs.now W → Carries b.new r.items (worth (place_of inputs.now W) (plain expr.now) context)) }
{
    match infix_of(op) {
        Infix::Arithmetic(op) => operation_word(alloc, b, op, left, right, inputs, context),
        Infix::Shifted(op) => shift_word(alloc, b, op, left, right, inputs, context),
        Infix::Compared(op) => relation_word(alloc, b, op, left, right, inputs, context),
        Infix::Both => logic_word(alloc, b, Connective::And, left, right, inputs, context),
        Infix::Either => logic_word(alloc, b, Connective::Or, left, right, inputs, context),
        Infix::Divide => constant_word(alloc, b, expr, inputs.scope, context),
        Infix::Remainder => constant_word(alloc, b, expr, inputs.scope, context),
        Infix::Power => constant_word(alloc, b, expr, inputs.scope, context),
    }
}

/// The operand that a condition chooses.
#[cycle(wires)]
fn chosen_word(
    alloc: Global,
    b: &mut Builder,
    test: &Expr,
    yes: &Expr,
    no: &Expr,
    inputs: &Inputs,
    context: Shape,
) -> Result<Vec<Wire>, AllocError>
    requires wires { HasWires b.old inputs.now }
    requires test { fault inputs.now.scope.now (plain test.now) false ≡ None }
    requires yes { fault inputs.now.scope.now (plain yes.now) false ≡ None }
    requires no { fault inputs.now.scope.now (plain no.now) false ≡ None }
    requires yes_low { (form inputs.now.scope.now (plain yes.now)).width ≤ context.width }
    requires no_low { (form inputs.now.scope.now (plain no.now)).width ≤ context.width }
    requires positive { 1 ≤ context.width }
    requires high { context.width ≤ 128 }
    ensures extends { Extends b.old b.new }
    ensures wires { IfOk result (λ r. AreWires b.new r.items) }
    ensures width { IfOk result (λ r. length r.items ≡ context.width) }
    ensures value { IfOk result (λ r. (W : World) → Reads b.old inputs.now W → Carries b.new r.items (λ input. (if (test_truth (place_of inputs.now W) (plain test.now) input) then (worth (place_of inputs.now W) (plain yes.now) context input) else (worth (place_of inputs.now W) (plain no.now) context input)))) }
{
    let before = is_true(alloc, b, test, inputs)?;
    let bit = test_wire(b, test, before, inputs)?;
    let xs = word_in(alloc, b, yes, inputs, context)?;
    let ys = word_in(alloc, b, no, inputs, context)?;
    let out = chosen(alloc, b, bit, xs.as_slice(), ys.as_slice())?;
    Ok(out)
}

/// All parts; the first has the top bits.
#[cycle(wires)]
fn parts_word(
    alloc: Global,
    b: &mut Builder,
    parts: &[Expr],
    inputs: &Inputs,
) -> Result<Vec<Wire>, AllocError>
    requires wires { HasWires b.old inputs.now }
    requires none { faults inputs.now.scope.now (plain_list parts.now) false ≡ None }
    ensures extends { Extends b.old b.new }
    ensures wires { IfOk result (λ r. AreWires b.new r.items) }
    ensures width { IfOk result (λ r. length r.items ≡ widths inputs.now.scope.now (plain_list parts.now)) }
    ensures value { IfOk result (λ r. (W : World) → Reads b.old inputs.now W → Carries b.new r.items (parts_worth (place_of inputs.now W) (plain_list parts.now))) }
{
    let mut out = Vec::new(alloc);
    for i in 0..parts.len() {
        let low = own_word(alloc, b, &parts[parts.len() - 1 - i], inputs)?;
        out.extend_from_slice(low.as_slice())?;
    }
    Ok(out)
}

/// All parts, in a context.
#[cycle(wires)]
fn concat_word(
    alloc: Global,
    b: &mut Builder,
    parts: &[Expr],
    inputs: &Inputs,
    context: Shape,
) -> Result<Vec<Wire>, AllocError>
    requires wires { HasWires b.old inputs.now }
    requires none { faults inputs.now.scope.now (plain_list parts.now) false ≡ None }
    ensures extends { Extends b.old b.new }
    ensures wires { IfOk result (λ r. AreWires b.new r.items) }
    ensures width { IfOk result (λ r. length r.items ≡ context.width) }
    ensures value { IfOk result (λ r. (W : World) → Reads b.old inputs.now W → Carries b.new r.items (placed context (parts_worth (place_of inputs.now W) (plain_list parts.now)))) }
{
    let word = parts_word(alloc, b, parts, inputs)?;
    let out = extended(alloc, b, word.as_slice(), context.width, context.signed)?;
    Ok(out)
}

/// As many copies of all parts as a constant asks, in a context.
#[cycle(wires)]
fn repeat_word(
    alloc: Global,
    b: &mut Builder,
    parts: &[Expr],
    count: &Expr,
    inputs: &Inputs,
    context: Shape,
) -> Result<Vec<Wire>, AllocError>
    requires wires { HasWires b.old inputs.now }
    requires count { fault inputs.now.scope.now (plain count.now) true ≡ None }
    requires none { faults inputs.now.scope.now (plain_list parts.now) false ≡ None }
    ensures extends { Extends b.old b.new }
    ensures wires { IfOk result (λ r. AreWires b.new r.items) }
    ensures width { IfOk result (λ r. length r.items ≡ context.width) }
    ensures value { IfOk result (λ r. (W : World) → Reads b.old inputs.now W → Carries b.new r.items (placed context (λ input. repeated_word (constant_count inputs.now.scope.now (plain count.now)) (parts_worth (place_of inputs.now W) (plain_list parts.now) input)))) }
{
    let copies = copies_of(count, inputs.scope);
    let part = parts_word(alloc, b, parts, inputs)?;
    let word = repeated(alloc, part.as_slice(), copies)?;
    let out = extended(alloc, b, word.as_slice(), context.width, context.signed)?;
    Ok(out)
}

/// The operand of a cast, by itself, in a context.
#[cycle(wires)]
fn cast_word(
    alloc: Global,
    b: &mut Builder,
    of: &Expr,
    inputs: &Inputs,
    context: Shape,
) -> Result<Vec<Wire>, AllocError>
    requires wires { HasWires b.old inputs.now }
    requires none { fault inputs.now.scope.now (plain of.now) false ≡ None }
    ensures extends { Extends b.old b.new }
    ensures wires { IfOk result (λ r. AreWires b.new r.items) }
    ensures width { IfOk result (λ r. length r.items ≡ context.width) }
    ensures value { IfOk result (λ r. (W : World) → Reads b.old inputs.now W → Carries b.new r.items (placed context (own_worth (place_of inputs.now W) (plain of.now)))) }
{
    let word = own_word(alloc, b, of, inputs)?;
    let out = extended(alloc, b, word.as_slice(), context.width, context.signed)?;
    Ok(out)
}

/// The value in a context of a width and a sign.
#[cycle(wires)]
pub(crate) fn word_in(
    alloc: Global,
    b: &mut Builder,
    expr: &Expr,
    inputs: &Inputs,
    context: Shape,
) -> Result<Vec<Wire>, AllocError>
    requires wires { HasWires b.old inputs.now }
    requires none { fault inputs.now.scope.now (plain expr.now) false ≡ None }
    requires low { (form inputs.now.scope.now (plain expr.now)).width ≤ context.width }
    requires positive { 1 ≤ context.width }
    requires high { context.width ≤ 128 }
    ensures extends { Extends b.old b.new }
    ensures wires { IfOk result (λ r. AreWires b.new r.items) }
    ensures width { IfOk result (λ r. length r.items ≡ context.width) }
    ensures value { IfOk result (λ r. (W : World) → Reads b.old inputs.now W → Carries b.new r.items (worth (place_of inputs.now W) (plain expr.now) context)) }
{
    match expr {
        Expr::Name { name, .. } => name_in(alloc, b, name, inputs, context),
        Expr::Literal { token, number } => literal_in(alloc, b, *token, *number, inputs, context),
        Expr::Bit { name, index, .. } => bit_select(alloc, b, name, index, inputs, context),
        Expr::Part { name, right, .. } => {
            part_select(alloc, b, name, right, width(expr, inputs), inputs, context)
        }
        Expr::Indexed { name, from, up, .. } => {
            let count = width(expr, inputs);
            indexed_select(alloc, b, name, from, count, *up, inputs, context)
        }
        Expr::Unary { op, of } => prefix_word(alloc, b, prefix_of(*op), of, inputs, context),
        Expr::Binary { op, left, right } => {
            infix_word(alloc, b, expr, *op, left, right, inputs, context)
        }
        Expr::Cond { test, yes, no } => chosen_word(alloc, b, test, yes, no, inputs, context),
        Expr::Concat { parts } => concat_word(alloc, b, parts, inputs, context),
        Expr::Repeat { count, parts } => repeat_word(alloc, b, parts, count, inputs, context),
        Expr::Cast { of, .. } => cast_word(alloc, b, of, inputs, context),
        Expr::Paren { of } => word_in(alloc, b, of, inputs, context),
    }
}
