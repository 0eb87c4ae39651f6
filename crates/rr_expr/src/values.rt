//! Width, sign and value of expressions without a fault.
ghost use Rattle.std.specs.Prelude.{◌≡◌, ◌≤◌, ◌<◌, ◌*◌, length, IsTrue, not, cond};
ghost use Rattle.rr_bits.specs.Words.{is_zero, select, extend};
ghost use Rattle.rr_syntax.specs.View.{plain, plain_list};
ghost use Rattle.rr_expr.specs.Faults.{fits, fit, constant_count, constant_span, is_width as is_a_width};
ghost use Rattle.rr_expr.specs.Indices.{integer_of};
ghost use Rattle.rr_expr.specs.Memories.{index_value as value_of_index};
ghost use Rattle.rr_expr.specs.Notes.{Noted, integer_in};
ghost use Rattle.rr_expr.specs.Operators.{infix_value, infix_shape as infix_shaped, prefix_value, prefix_shape as prefix_shaped, own_with, relation_holds, joined as joined_shape};
ghost use Rattle.rr_expr.specs.Scopes.{env_of, meant, entity_shape as shape_of_entity, entity_range as range_of_entity, entity_value as value_of_entity};
ghost use Rattle.rr_expr.specs.Selects.{integer_with, repeated as repeated_list, place, lowest_place};
ghost use Rattle.rr_expr.specs.Values.{form, nowhere, unsigned_of, value as value_of, own, widths, values as values_of};

use crate::entities::{entity_range, entity_shape, entity_value};
use crate::memories::{index_shape, index_value};
use crate::notes::{Known, Notes};
use crate::operators::{
    Infix, Prefix, Relation, computed, holds, infix_of, joined, prefix_of, reduced, shifted, truth,
};
use crate::scope::Scope;
use crate::selects::{Index, count_of, index_of, indexed, picked, span_of};
use crate::types::Shape;
use rr_bits::Bits;
use rr_syntax::Expr;

/// Width and sign of an expression that has a shape. It looks for no fault, so it evaluates only
/// the constants that widths stand on.
#[cycle(values)]
#[tactic(auto, using(crate::proofs::Equations::forms))]
pub(crate) fn own_shape<'e>(expr: &'e Expr<'e>, scope: &Scope, notes: &mut Notes<'e>) -> Shape
    requires fits { IsTrue (fits scope.now (plain expr.now)) }
    requires noted { Noted scope.now notes.old }
    ensures value { result ≡ form scope.now (plain expr.now) }
    ensures low { 1 ≤ result.width }
    ensures high { result.width ≤ 128 }
    ensures noted { Noted scope.now notes.new }
{
    match expr {
        Expr::Name { name, .. } => entity_shape(&scope.meaning(name)),
        Expr::Literal { number, .. } => Shape {
            width: number.width,
            signed: number.signed,
        },
        Expr::Bit { name, .. } => index_shape(&scope.meaning(name)),
        Expr::Part { left, right, .. } => {
            let left = constant_index(left, scope, notes);
            unsigned(span_of(left, constant_index(right, scope, notes)))
        }
        Expr::Indexed { width, .. } => {
            unsigned(count_of(constant_index(width, scope, notes)) as u32)
        }
        Expr::Unary { op, of } => prefix_own_shape(prefix_of(*op), of, scope, notes),
        Expr::Binary { op, left, right } => {
            infix_own_shape(infix_of(*op), left, right, scope, notes)
        }
        Expr::Cond { yes, no, .. } => {
            let yes = own_shape(yes, scope, notes);
            joined(yes, own_shape(no, scope, notes))
        }
        Expr::Concat { parts } => unsigned(parts_width(parts, scope, notes)),
        Expr::Repeat { count, parts } => {
            let copies = count_of(constant_index(count, scope, notes)) as u32;
            unsigned(copies * parts_width(parts, scope, notes))
        }
        Expr::Cast { signed, of } => Shape {
            width: own_shape(of, scope, notes).width,
            signed: *signed,
        },
        Expr::Paren { of } => own_shape(of, scope, notes),
    }
}

/// The same of an operator before its operand, which is looked at only where the shape stands on it.
#[cycle(values)]
#[tactic(auto, using(crate::proofs::Equations::forms))]
fn prefix_own_shape<'e>(op: Prefix, of: &'e Expr<'e>, scope: &Scope, notes: &mut Notes<'e>) -> Shape
    requires fits { IsTrue (fits scope.now (plain of.now)) }
    requires noted { Noted scope.now notes.old }
    ensures value { result ≡ prefix_shaped op (form scope.now (plain of.now)) }
    ensures low { 1 ≤ result.width }
    ensures high { result.width ≤ 128 }
    ensures noted { Noted scope.now notes.new }
{
    match op {
        Prefix::Plus | Prefix::Minus | Prefix::Invert => own_shape(of, scope, notes),
        Prefix::Reduced(_) => unsigned(1),
    }
}

/// The same of an operator between its operands. Operands of comparisons are not looked at, so a chain
/// of them takes time in its length (IEEE 1364-2005 sections 5.4.1 and 5.5.1).
#[cycle(values)]
#[tactic(auto, using(crate::proofs::Equations::forms))]
fn infix_own_shape<'e>(
    op: Infix,
    left: &'e Expr<'e>,
    right: &'e Expr<'e>,
    scope: &Scope,
    notes: &mut Notes<'e>,
) -> Shape
    requires left { IsTrue (fits scope.now (plain left.now)) }
    requires right { IsTrue (fits scope.now (plain right.now)) }
    requires noted { Noted scope.now notes.old }
    ensures value { result ≡ infix_shaped op (form scope.now (plain left.now)) (form scope.now (plain right.now)) }
    ensures low { 1 ≤ result.width }
    ensures high { result.width ≤ 128 }
    ensures noted { Noted scope.now notes.new }
{
    match op {
        Infix::Arithmetic(_) | Infix::Divide | Infix::Remainder => {
            let left = own_shape(left, scope, notes);
            joined(left, own_shape(right, scope, notes))
        }
        Infix::Shifted(_) | Infix::Power => own_shape(left, scope, notes),
        Infix::Compared(_) | Infix::Both | Infix::Either => unsigned(1),
    }
}

pub(crate) fn unsigned(width: u32) -> Shape
    ensures { result ≡ unsigned_of width }
{
    Shape {
        width,
        signed: false,
    }
}

/// The number of bits of all parts.
#[cycle(values)]
#[tactic(auto, using(crate::proofs::Equations::forms))]
fn parts_width<'e>(parts: &'e [Expr<'e>], scope: &Scope, notes: &mut Notes<'e>) -> u32
    requires fit { IsTrue (fit scope.now (plain_list parts.now)) }
    requires high { widths scope.now (plain_list parts.now) ≤ 128 }
    requires noted { Noted scope.now notes.old }
    ensures value { result ≡ widths scope.now (plain_list parts.now) }
    ensures noted { Noted scope.now notes.new }
{
    let mut total = 0;
    for part in parts.iter() {
        total += own_shape(part, scope, notes).width;
    }
    total
}

/// The value of a constant operand, as a number that is signed where the operand is.
#[cycle(values)]
#[tactic(auto, using(crate::proofs::Equations::values_of))]
pub(crate) fn constant_index<'e>(expr: &'e Expr<'e>, scope: &Scope, notes: &mut Notes<'e>) -> Index
    requires fits { IsTrue (fits scope.now (plain expr.now)) }
    requires noted { Noted scope.now notes.old }
    ensures value { integer_of result ≡ integer_in scope.now (plain expr.now) }
    ensures noted { Noted scope.now notes.new }
{
    // A literal is read in less time than it is found.
    if let Expr::Literal { .. } = expr {
        return own_index(expr, scope, &[], notes);
    }
    match notes.find(expr) {
        Some(index) => index,
        None => {
            let mut inner = Notes::new();
            let index = own_index(expr, scope, &[], &mut inner);
            notes.keep(Known { expr, index }, inner.work);
            index
        }
    }
}

/// The value of a constant operand of that shape, as a number that is signed where the operand is.
pub(crate) fn constant_in<'e>(
    expr: &'e Expr<'e>,
    scope: &Scope,
    shape: Shape,
    notes: &mut Notes<'e>,
) -> Index
    requires fits { IsTrue (fits scope.now (plain expr.now)) }
    requires shape { shape ≡ form scope.now (plain expr.now) }
    requires low { 1 ≤ shape.width }
    requires high { shape.width ≤ 128 }
    requires noted { Noted scope.now notes.old }
    ensures value { integer_of result ≡ integer_in scope.now (plain expr.now) }
    ensures noted { Noted scope.now notes.new }
{
    index_of(value_in(expr, scope, &[], shape, notes), shape.signed)
}

/// The value of an operand that stands by itself. The width of a concatenation, of a replication and
/// of a cast is that of the word, so nothing is asked for its shape first.
#[cycle(values)]
#[tactic(auto, using(crate::proofs::Equations::values_of))]
pub(crate) fn own_value<'e>(
    expr: &'e Expr<'e>,
    scope: &Scope,
    env: &[u128],
    notes: &mut Notes<'e>,
) -> Bits
    requires fits { IsTrue (fits scope.now (plain expr.now)) }
    requires noted { Noted scope.now notes.old }
    ensures value { result ≡ own scope.now (plain expr.now) (env_of env.now) }
    ensures width { length result ≡ (form scope.now (plain expr.now)).width }
    ensures noted { Noted scope.now notes.new }
{
    match expr {
        Expr::Concat { parts } => parts_value(parts, scope, env, notes),
        Expr::Repeat { count, parts } => {
            let copies = count_of(constant_index(count, scope, notes));
            let word = parts_value(parts, scope, env, notes);
            repeated(word, copies)
        }
        Expr::Cast { of, .. } => own_value(of, scope, env, notes),
        Expr::Paren { of } => own_value(of, scope, env, notes),
        _ => {
            let shape = own_shape(expr, scope, notes);
            value_in(expr, scope, env, shape, notes)
        }
    }
}

/// The same as a number, signed where the operand is.
#[cycle(values)]
#[tactic(auto, using(crate::proofs::Equations::values_of))]
fn own_index<'e>(expr: &'e Expr<'e>, scope: &Scope, env: &[u128], notes: &mut Notes<'e>) -> Index
    requires fits { IsTrue (fits scope.now (plain expr.now)) }
    requires noted { Noted scope.now notes.old }
    ensures value { integer_of result ≡ integer_with (form scope.now (plain expr.now)) (value_of scope.now (plain expr.now) (env_of env.now)) }
    ensures noted { Noted scope.now notes.new }
{
    let shape = own_shape(expr, scope, notes);
    let word = value_in(expr, scope, env, shape, notes);
    index_of(word, shape.signed)
}

/// The value of all parts; the first has the top bits.
#[cycle(values)]
#[tactic(auto, using(crate::proofs::Equations::values_of))]
fn parts_value<'e>(
    parts: &'e [Expr<'e>],
    scope: &Scope,
    env: &[u128],
    notes: &mut Notes<'e>,
) -> Bits
    requires fit { IsTrue (fit scope.now (plain_list parts.now)) }
    requires low { 1 ≤ widths scope.now (plain_list parts.now) }
    requires high { widths scope.now (plain_list parts.now) ≤ 128 }
    requires noted { Noted scope.now notes.old }
    ensures value { result ≡ values_of scope.now (plain_list parts.now) (env_of env.now) }
    ensures width { length result ≡ widths scope.now (plain_list parts.now) }
    ensures noted { Noted scope.now notes.new }
{
    let mut whole: Option<Bits> = None;
    for part in parts.iter() {
        let low = own_value(part, scope, env, notes);
        whole = match whole {
            None => Some(low),
            Some(high) => Some(low.append(high)),
        };
    }
    match whole {
        Some(bits) => bits,
        None => Bits::from_u128(1, 0),
    }
}

/// That many copies of a word, of at most 128 bits together.
fn repeated(word: Bits, copies: u128) -> Bits
    requires low { 1 ≤ copies }
    requires high { copies * length word ≤ 128 }
    ensures value { result ≡ repeated_list copies word }
    ensures width { length result ≡ copies * length word }
{
    let mut whole = word;
    let mut done: u128 = 1;
    while done < copies {
        whole = word.append(whole);
        done += 1;
    }
    whole
}

/// Whether an operand by itself is true.
#[cycle(values)]
#[tactic(auto, using(crate::proofs::Equations::values_of))]
fn is_true<'e>(expr: &'e Expr<'e>, scope: &Scope, env: &[u128], notes: &mut Notes<'e>) -> bool
    requires fits { IsTrue (fits scope.now (plain expr.now)) }
    requires noted { Noted scope.now notes.old }
    ensures value { result ≡ not (is_zero (own scope.now (plain expr.now) (env_of env.now))) }
    ensures noted { Noted scope.now notes.new }
{
    own_value(expr, scope, env, notes).to_u128() != 0
}

/// A word in a context of a width and a sign.
fn extended(word: Bits, context: Shape) -> Bits
    requires low { 1 ≤ context.width }
    requires high { context.width ≤ 128 }
    ensures { result ≡ extend context.width context.signed word }
{
    word.extend(context.width, context.signed)
}

/// The bit of a name at an index, or the word of a memory.
#[cycle(values)]
#[tactic(auto, using(crate::proofs::Equations::values_of))]
fn bit_value<'e>(
    name: &str,
    index: &'e Expr<'e>,
    scope: &Scope,
    env: &[u128],
    notes: &mut Notes<'e>,
) -> Bits
    requires name { IsTrue (is_a_width (shape_of_entity (meant scope.now name.now)).width) }
    requires index { IsTrue (fits scope.now (plain index.now)) }
    requires noted { Noted scope.now notes.old }
    ensures value { result ≡ value_of_index (env_of env.now) (meant scope.now name.now) (integer_with (form scope.now (plain index.now)) (value_of scope.now (plain index.now) (env_of env.now))) }
    ensures noted { Noted scope.now notes.new }
{
    let base = scope.meaning(name);
    let index = own_index(index, scope, env, notes);
    index_value(&base, env, index)
}

/// The bits of a name from one index to another.
#[cycle(values)]
#[tactic(auto, using(crate::proofs::Equations::values_of))]
fn part_value<'e>(
    name: &str,
    left: &'e Expr<'e>,
    right: &'e Expr<'e>,
    scope: &Scope,
    env: &[u128],
    notes: &mut Notes<'e>,
) -> Bits
    requires name { IsTrue (is_a_width (shape_of_entity (meant scope.now name.now)).width) }
    requires left { IsTrue (fits scope.now (plain left.now)) }
    requires right { IsTrue (fits scope.now (plain right.now)) }
    requires span { IsTrue (is_a_width (constant_span scope.now (plain left.now) (plain right.now))) }
    requires noted { Noted scope.now notes.old }
    ensures value { result ≡ select (value_of_entity (env_of env.now) (meant scope.now name.now)) (place (range_of_entity (meant scope.now name.now)) (integer_in scope.now (plain right.now))) (constant_span scope.now (plain left.now) (plain right.now)) }
    ensures noted { Noted scope.now notes.new }
{
    let base = scope.meaning(name);
    let left = constant_index(left, scope, notes);
    let right = constant_index(right, scope, notes);
    picked(
        entity_value(&base, env),
        entity_range(&base),
        right,
        span_of(left, right),
    )
}

/// That many bits of a name, from an index up or down.
#[cycle(values)]
#[tactic(auto, using(crate::proofs::Equations::values_of))]
fn indexed_value<'e>(
    name: &str,
    from: &'e Expr<'e>,
    width: &'e Expr<'e>,
    up: bool,
    scope: &Scope,
    env: &[u128],
    notes: &mut Notes<'e>,
) -> Bits
    requires name { IsTrue (is_a_width (shape_of_entity (meant scope.now name.now)).width) }
    requires from { IsTrue (fits scope.now (plain from.now)) }
    requires width { IsTrue (fits scope.now (plain width.now)) }
    requires count { IsTrue (is_a_width (constant_count scope.now (plain width.now))) }
    requires noted { Noted scope.now notes.old }
    ensures value { result ≡ select (value_of_entity (env_of env.now) (meant scope.now name.now)) (lowest_place (range_of_entity (meant scope.now name.now)) up (integer_with (form scope.now (plain from.now)) (value_of scope.now (plain from.now) (env_of env.now))) (constant_count scope.now (plain width.now))) (constant_count scope.now (plain width.now)) }
    ensures noted { Noted scope.now notes.new }
{
    let base = scope.meaning(name);
    let count = count_of(constant_index(width, scope, notes)) as u32;
    let index = own_index(from, scope, env, notes);
    indexed(
        entity_value(&base, env),
        entity_range(&base),
        index,
        count,
        up,
    )
}

/// The value of an operator before its operand.
#[cycle(values)]
#[tactic(auto, using(crate::proofs::Equations::values_of))]
fn unary_value<'e>(
    op: Prefix,
    of: &'e Expr<'e>,
    scope: &Scope,
    env: &[u128],
    context: Shape,
    notes: &mut Notes<'e>,
) -> Bits
    requires fits { IsTrue (fits scope.now (plain of.now)) }
    requires low { (prefix_shaped op (form scope.now (plain of.now))).width ≤ context.width }
    requires positive { 1 ≤ context.width }
    requires high { context.width ≤ 128 }
    requires noted { Noted scope.now notes.old }
    ensures value { result ≡ prefix_value op (form scope.now (plain of.now)) (value_of scope.now (plain of.now) (env_of env.now)) context.width context.signed }
    ensures width { length result ≡ context.width }
    ensures noted { Noted scope.now notes.new }
{
    match op {
        Prefix::Plus => value_in(of, scope, env, context, notes),
        Prefix::Minus => value_in(of, scope, env, context, notes).negated(),
        Prefix::Invert => value_in(of, scope, env, context, notes).inverted(),
        Prefix::Reduced(op) => {
            extended(
                truth(reduced(op, own_value(of, scope, env, notes))),
                context,
            )
        }
    }
}

/// Whether a comparison holds; its operands have a context of their own (IEEE 1364-2005 section 5.5.2).
#[cycle(values)]
#[tactic(auto, using(crate::proofs::Equations::values_of))]
fn compares<'e>(
    op: Relation,
    left: &'e Expr<'e>,
    right: &'e Expr<'e>,
    scope: &Scope,
    env: &[u128],
    notes: &mut Notes<'e>,
) -> bool
    requires left { IsTrue (fits scope.now (plain left.now)) }
    requires right { IsTrue (fits scope.now (plain right.now)) }
    requires noted { Noted scope.now notes.old }
    ensures value { result ≡ relation_holds op (joined_shape (form scope.now (plain left.now)) (form scope.now (plain right.now))).signed (own_with (joined_shape (form scope.now (plain left.now)) (form scope.now (plain right.now))) (value_of scope.now (plain left.now) (env_of env.now))) (own_with (joined_shape (form scope.now (plain left.now)) (form scope.now (plain right.now))) (value_of scope.now (plain right.now) (env_of env.now))) }
    ensures noted { Noted scope.now notes.new }
{
    let left_shape = own_shape(left, scope, notes);
    let shape = joined(left_shape, own_shape(right, scope, notes));
    let left = value_in(left, scope, env, shape, notes);
    let right = value_in(right, scope, env, shape, notes);
    holds(op, shape.signed, left, right)
}

/// The value of an operator between its operands.
#[cycle(values)]
#[tactic(auto, using(crate::proofs::Equations::values_of))]
fn binary_value<'e>(
    op: Infix,
    left: &'e Expr<'e>,
    right: &'e Expr<'e>,
    scope: &Scope,
    env: &[u128],
    context: Shape,
    notes: &mut Notes<'e>,
) -> Bits
    requires left { IsTrue (fits scope.now (plain left.now)) }
    requires right { IsTrue (fits scope.now (plain right.now)) }
    requires low { (infix_shaped op (form scope.now (plain left.now)) (form scope.now (plain right.now))).width ≤ context.width }
    requires positive { 1 ≤ context.width }
    requires high { context.width ≤ 128 }
    requires noted { Noted scope.now notes.old }
    ensures value { result ≡ infix_value op (form scope.now (plain left.now)) (form scope.now (plain right.now)) (value_of scope.now (plain left.now) (env_of env.now)) (value_of scope.now (plain right.now) (env_of env.now)) context.width context.signed }
    ensures width { length result ≡ context.width }
    ensures noted { Noted scope.now notes.new }
{
    match op {
        Infix::Arithmetic(op) => {
            let left = value_in(left, scope, env, context, notes);
            computed(op, left, value_in(right, scope, env, context, notes))
        }
        Infix::Divide => {
            let left = value_in(left, scope, env, context, notes);
            left.div(value_in(right, scope, env, context, notes), context.signed)
        }
        Infix::Remainder => {
            let left = value_in(left, scope, env, context, notes);
            left.rem(value_in(right, scope, env, context, notes), context.signed)
        }
        Infix::Power => {
            let exponent = own_value(right, scope, env, notes).to_u128();
            value_in(left, scope, env, context, notes).power(exponent)
        }
        Infix::Shifted(op) => {
            let by = own_value(right, scope, env, notes).to_u128();
            let left = value_in(left, scope, env, context, notes);
            shifted(op, context.signed, left, by)
        }
        Infix::Compared(op) => {
            extended(truth(compares(op, left, right, scope, env, notes)), context)
        }
        Infix::Both => {
            let left = is_true(left, scope, env, notes);
            extended(truth(is_true(right, scope, env, notes) && left), context)
        }
        Infix::Either => {
            let left = is_true(left, scope, env, notes);
            extended(truth(is_true(right, scope, env, notes) || left), context)
        }
    }
}

/// The value of the operand that a test chooses.
#[cycle(values)]
#[tactic(auto, using(crate::proofs::Equations::values_of))]
fn chosen_value<'e>(
    test: &'e Expr<'e>,
    yes: &'e Expr<'e>,
    no: &'e Expr<'e>,
    scope: &Scope,
    env: &[u128],
    context: Shape,
    notes: &mut Notes<'e>,
) -> Bits
    requires test { IsTrue (fits scope.now (plain test.now)) }
    requires yes { IsTrue (fits scope.now (plain yes.now)) }
    requires no { IsTrue (fits scope.now (plain no.now)) }
    requires yes_low { (form scope.now (plain yes.now)).width ≤ context.width }
    requires no_low { (form scope.now (plain no.now)).width ≤ context.width }
    requires positive { 1 ≤ context.width }
    requires high { context.width ≤ 128 }
    requires noted { Noted scope.now notes.old }
    ensures value { result ≡ cond (is_zero (own scope.now (plain test.now) (env_of env.now))) (value_of scope.now (plain no.now) (env_of env.now) context.width context.signed) (value_of scope.now (plain yes.now) (env_of env.now) context.width context.signed) }
    ensures width { length result ≡ context.width }
    ensures noted { Noted scope.now notes.new }
{
    if own_value(test, scope, env, notes).to_u128() == 0 {
        value_in(no, scope, env, context, notes)
    } else {
        value_in(yes, scope, env, context, notes)
    }
}

/// The value in a context of a width and a sign.
#[cycle(values)]
#[tactic(auto, using(crate::proofs::Equations::values_of))]
pub(crate) fn value_in<'e>(
    expr: &'e Expr<'e>,
    scope: &Scope,
    env: &[u128],
    context: Shape,
    notes: &mut Notes<'e>,
) -> Bits
    requires fits { IsTrue (fits scope.now (plain expr.now)) }
    requires low { (form scope.now (plain expr.now)).width ≤ context.width }
    requires positive { 1 ≤ context.width }
    requires high { context.width ≤ 128 }
    requires noted { Noted scope.now notes.old }
    ensures value { result ≡ value_of scope.now (plain expr.now) (env_of env.now) context.width context.signed }
    ensures width { length result ≡ context.width }
    ensures noted { Noted scope.now notes.new }
{
    match expr {
        Expr::Name { name, .. } => extended(entity_value(&scope.meaning(name), env), context),
        Expr::Literal { number, .. } => {
            extended(Bits::from_u128(number.width, number.value), context)
        }
        Expr::Bit { name, index, .. } => {
            extended(bit_value(name, index, scope, env, notes), context)
        }
        Expr::Part {
            name,
            left,
            right,
            ..
        } => extended(part_value(name, left, right, scope, env, notes), context),
        Expr::Indexed {
            name,
            from,
            width,
            up,
            ..
        } => {
            let word = indexed_value(name, from, width, *up, scope, env, notes);
            extended(word, context)
        }
        Expr::Unary { op, of } => unary_value(prefix_of(*op), of, scope, env, context, notes),
        Expr::Binary { op, left, right } => {
            binary_value(infix_of(*op), left, right, scope, env, context, notes)
        }
        Expr::Cond { test, yes, no } => chosen_value(test, yes, no, scope, env, context, notes),
        Expr::Concat { parts } => extended(parts_value(parts, scope, env, notes), context),
        Expr::Repeat { count, parts } => {
            let copies = count_of(constant_index(count, scope, notes));
            let word = parts_value(parts, scope, env, notes);
            extended(repeated(word, copies), context)
        }
        Expr::Cast { of, .. } => extended(own_value(of, scope, env, notes), context),
        Expr::Paren { of } => value_in(of, scope, env, context, notes),
    }
}
