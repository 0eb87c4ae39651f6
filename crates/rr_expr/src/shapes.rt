//! Width and sign of an expression, or its first fault.
ghost use Rattle.std.specs.Prelude.{◌≡◌, ◌≤◌, ◌*◌, ◌-◌, ◌==◌, ◌&&◌, IfOk, IfErr, IsTrue, Some, None, true};
ghost use Rattle.rr_syntax.specs.View.{plain, plain_list};
ghost use Rattle.rr_expr.specs.Faults.{fits, fit, fault, faults, first, first_part, is_bad as bad, takes_constants as constants_of, base_fault, index_fault, name_fault, width_fault, count_fault, fault_if, or_else, is_width as is_a_width, constant_count, constant_span};
ghost use Rattle.rr_expr.specs.FormFaults.{part_fault, indexed_fault, binary_fault};
ghost use Rattle.rr_expr.specs.Indices.{integer_of};
ghost use Rattle.rr_expr.specs.Notes.{Noted, integer_in};
ghost use Rattle.rr_expr.specs.Selects.{span, is_against as turned};
ghost use Rattle.rr_expr.specs.declared.types.ExprFault.TheVariants.{BadRange};
ghost use Rattle.rr_expr.specs.Memories.{index_shape as shape_of_index};
ghost use Rattle.rr_expr.specs.Operators.{joined as joined_shape, infix_shape as infix_shaped};
ghost use Rattle.rr_expr.specs.Scopes.{meant, entity_shape as shape_of_entity};
ghost use Rattle.rr_expr.specs.Values.{form, value as value_of, nowhere, widths, unsigned_of};

use crate::entities::{capped, entity_range, entity_shape, entity_width, is_scalar};
use crate::memories::index_shape;
use crate::notes::{Known, Notes};
use crate::operators::{Infix, infix_of, infix_shape, joined, prefix_of, prefix_shape};
use crate::scope::Scope;
use crate::selects::{Index, count_of, is_against, span_of};
use crate::types::{Entity, ExprFault, Shape};
use crate::values::{constant_in, unsigned, value_in};
use rr_syntax::Expr;

/// The number of the first token of an expression: that of its first name or literal, less the marks
/// before it.
#[cycle(firsts)]
#[tactic(auto, using(crate::proofs::Equations::firsts))]
pub fn first_token(expr: &Expr) -> u32
    ensures { result ≡ first (plain expr.now) }
{
    match expr {
        Expr::Name { token, .. }
        | Expr::Literal { token, .. }
        | Expr::Bit { token, .. }
        | Expr::Part { token, .. }
        | Expr::Indexed { token, .. } => *token,
        Expr::Unary { of, .. } | Expr::Paren { of } => first_token(of).saturating_sub(1),
        Expr::Binary { left, .. } => first_token(left),
        Expr::Cond { test, .. } => first_token(test),
        Expr::Concat { parts } => first_of_parts(parts).saturating_sub(1),
        Expr::Repeat { count, .. } => first_token(count).saturating_sub(1),
        Expr::Cast { of, .. } => first_token(of).saturating_sub(2),
    }
}

/// The number of the first token of the first part.
#[cycle(firsts)]
#[tactic(auto, using(crate::proofs::Equations::firsts))]
fn first_of_parts(parts: &[Expr]) -> u32
    ensures { result ≡ first_part (plain_list parts.now) }
{
    match parts {
        [] => 0,
        [part, ..] => first_token(part),
    }
}

/// The unsigned shape of that many bits, if they are from 1 to 128.
fn sized(token: u32, width: u128) -> Result<Shape, ExprFault>
    ensures none { IfOk result (λ a. width_fault token width ≡ None) }
    ensures fits { IfOk result (λ a. IsTrue (is_a_width width)) }
    ensures value { IfOk result (λ a. a ≡ unsigned_of width) }
    ensures fault { IfErr result (λ f. width_fault token width ≡ Some f) }
{
    if 0 < width && width < 129 {
        Ok(unsigned(width as u32))
    } else {
        Err(ExprFault::TooWide(token, capped(width)))
    }
}

/// The shape of a name; where `constant` no signal may stand.
fn name_shape(entity: &Entity, token: u32, constant: bool) -> Result<Shape, ExprFault>
    ensures none { IfOk result (λ a. name_fault constant token entity.now ≡ None) }
    ensures fits { IfOk result (λ a. IsTrue (is_a_width (shape_of_entity entity.now).width)) }
    ensures value { IfOk result (λ a. a ≡ shape_of_entity entity.now) }
    ensures fault { IfErr result (λ f. name_fault constant token entity.now ≡ Some f) }
{
    match entity {
        Entity::Instance => Err(ExprFault::UnknownName(token)),
        Entity::Signal { .. } if constant => Err(ExprFault::NotConstant(token)),
        Entity::Memory { .. } if constant => Err(ExprFault::NotConstant(token)),
        Entity::Memory { .. } => Err(ExprFault::BadRange(token)),
        Entity::Constant { .. } | Entity::Signal { .. } => {
            sized(token, entity_width(entity) as u128)?;
            Ok(entity_shape(entity))
        }
    }
}

/// Checks the name of a part.
fn check_base(entity: &Entity, token: u32, constant: bool) -> Result<(), ExprFault>
    ensures none { IfOk result (λ a. base_fault constant token entity.now ≡ None) }
    ensures fits { IfOk result (λ a. IsTrue (is_a_width (shape_of_entity entity.now).width)) }
    ensures fault { IfErr result (λ f. base_fault constant token entity.now ≡ Some f) }
{
    name_shape(entity, token, constant)?;
    if is_scalar(entity) {
        return Err(ExprFault::BadRange(token));
    }
    Ok(())
}

/// Checks the name of an index, by which a word of a memory is read.
fn check_indexed(entity: &Entity, token: u32, constant: bool) -> Result<(), ExprFault>
    ensures none { IfOk result (λ a. index_fault constant token entity.now ≡ None) }
    ensures fits { IfOk result (λ a. IsTrue (is_a_width (shape_of_entity entity.now).width)) }
    ensures fault { IfErr result (λ f. index_fault constant token entity.now ≡ Some f) }
{
    match entity {
        Entity::Memory { .. } if constant => Err(ExprFault::NotConstant(token)),
        Entity::Memory { .. } => {
            sized(token, entity_width(entity) as u128)?;
            Ok(())
        }
        Entity::Constant { .. } | Entity::Signal { .. } | Entity::Instance => {
            check_base(entity, token, constant)
        }
    }
}

/// The shape of a part from one index to another.
fn part_shape(range: (u32, u32), token: u32, left: Index, right: Index) -> Result<Shape, ExprFault>
    ensures none { IfOk result (λ a. or_else (fault_if (turned range (integer_of left) (integer_of right)) (BadRange token)) (width_fault token (span (integer_of left) (integer_of right))) ≡ None) }
    ensures fits { IfOk result (λ a. IsTrue (is_a_width (span (integer_of left) (integer_of right)))) }
    ensures value { IfOk result (λ a. a ≡ unsigned_of (span (integer_of left) (integer_of right))) }
    ensures fault { IfErr result (λ f. or_else (fault_if (turned range (integer_of left) (integer_of right)) (BadRange token)) (width_fault token (span (integer_of left) (integer_of right))) ≡ Some f) }
{
    if is_against(range, left, right) {
        return Err(ExprFault::BadRange(token));
    }
    sized(token, span_of(left, right) as u128)
}

/// The shape of an indexed part of that many bits.
fn count_shape(token: u32, count: u128) -> Result<Shape, ExprFault>
    ensures none { IfOk result (λ a. count_fault None token count ≡ None) }
    ensures fits { IfOk result (λ a. IsTrue (is_a_width count)) }
    ensures value { IfOk result (λ a. a ≡ unsigned_of count) }
    ensures fault { IfErr result (λ f. count_fault None token count ≡ Some f) }
{
    if count == 0 {
        return Err(ExprFault::BadRange(token));
    }
    sized(token, count)
}

/// The shape of a concatenation of so many bits. Its first token is looked for only where it is told.
fn concat_shape(parts: &[Expr], bits: u128) -> Result<Shape, ExprFault>
    ensures none { IfOk result (λ a. width_fault (first_part (plain_list parts.now) - 1) bits ≡ None) }
    ensures fits { IfOk result (λ a. IsTrue (is_a_width bits)) }
    ensures value { IfOk result (λ a. a ≡ unsigned_of bits) }
    ensures fault { IfErr result (λ f. width_fault (first_part (plain_list parts.now) - 1) bits ≡ Some f) }
{
    if 0 < bits && bits < 129 {
        return Ok(unsigned(bits as u32));
    }
    sized(first_of_parts(parts).saturating_sub(1), bits)
}

/// The shape of so many bits that stand as many times as the copies are.
fn repeat_shape(count: &Expr, copies: u128, bits: u128) -> Result<Shape, ExprFault>
    ensures none { IfOk result (λ a. width_fault (first (plain count.now) - 1) (copies * bits) ≡ None) }
    ensures fits { IfOk result (λ a. IsTrue (is_a_width (copies * bits))) }
    ensures value { IfOk result (λ a. a ≡ unsigned_of (copies * bits)) }
    ensures fault { IfErr result (λ f. width_fault (first (plain count.now) - 1) (copies * bits) ≡ Some f) }
{
    let width = copies.saturating_mul(bits);
    if 0 < width && width < 129 {
        return Ok(unsigned(width as u32));
    }
    sized(first_token(count).saturating_sub(1), width)
}

/// Whether the operands of an operator are constant expressions: those of `/`, `%` and `**`, a rule of
/// this profile beside IEEE 1364-2005 section 5.1.5.
pub fn takes_constants(op: Infix) -> bool
    ensures { result ≡ constants_of op }
{
    matches!(op, Infix::Divide | Infix::Remainder | Infix::Power)
}

/// Whether the second operand is a divisor that is 0 or a negative exponent.
#[tactic(auto, using(crate::proofs::Equations::values_of))]
fn is_bad<'e>(
    op: Infix,
    left: Shape,
    right: Shape,
    operand: &'e Expr<'e>,
    scope: &Scope,
    notes: &mut Notes<'e>,
) -> bool
    requires fits { IsTrue (fits scope.now (plain operand.now)) }
    requires shape { right ≡ form scope.now (plain operand.now) }
    requires low { 1 ≤ right.width }
    requires left { left.width ≤ 128 }
    requires right { right.width ≤ 128 }
    requires noted { Noted scope.now notes.old }
    ensures value { result ≡ bad op left right (value_of scope.now (plain operand.now) nowhere) }
    ensures noted { Noted scope.now notes.new }
{
    match op {
        Infix::Divide | Infix::Remainder => {
            let shape = joined(left, right);
            value_in(operand, scope, &[], shape, notes).to_u128() == 0
        }
        Infix::Power => { value_in(operand, scope, &[], right, notes).is_negative(right.signed) }
        Infix::Arithmetic(_)
        | Infix::Shifted(_)
        | Infix::Compared(_)
        | Infix::Both
        | Infix::Either => false,
    }
}

/// The number of copies that a constant operand asks, which is not 0.
fn copies_of(count: &Expr, scope: &Scope, index: Index) -> Result<u128, ExprFault>
    requires { integer_of index ≡ integer_in scope.now (plain count.now) }
    ensures none { IfOk result (λ n. fault_if (constant_count scope.now (plain count.now) == 0) (BadRange (first (plain count.now))) ≡ None) }
    ensures value { IfOk result (λ n. n ≡ constant_count scope.now (plain count.now)) }
    ensures fault { IfErr result (λ f. fault_if (constant_count scope.now (plain count.now) == 0) (BadRange (first (plain count.now))) ≡ Some f) }
{
    let copies = count_of(index);
    if copies == 0 {
        return Err(ExprFault::BadRange(first_token(count)));
    }
    Ok(copies)
}

/// A shape with that sign in place of its own.
fn with_sign(shape: Shape, signed: bool) -> Shape
    ensures { result ≡ record { width = shape.width; signed = signed } }
{
    Shape {
        width: shape.width,
        signed,
    }
}

/// The value of a constant operand, or its first fault. What its own operands are is kept apart until
/// it is evaluated, so that none is evaluated anew at each level.
#[cycle(shapes)]
#[tactic(auto, using(crate::proofs::Equations::shapes))]
fn index_in<'e>(
    expr: &'e Expr<'e>,
    scope: &Scope,
    notes: &mut Notes<'e>,
) -> Result<Index, ExprFault>
    requires noted { Noted scope.now notes.old }
    ensures noted { Noted scope.now notes.new }
    ensures none { IfOk result (λ i. fault scope.now (plain expr.now) true ≡ None) }
    ensures fits { IfOk result (λ i. IsTrue (fits scope.now (plain expr.now))) }
    ensures value { IfOk result (λ i. integer_of i ≡ integer_in scope.now (plain expr.now)) }
    ensures fault { IfErr result (λ f. fault scope.now (plain expr.now) true ≡ Some f) }
{
    let mut inner = Notes::new();
    let shape = shape_in(expr, scope, true, &mut inner)?;
    let index = constant_in(expr, scope, shape, &mut inner);
    // A literal is read in less time than it is found.
    match expr {
        Expr::Literal { .. } => {}
        _ => notes.keep(Known { expr, index }, inner.work),
    }
    Ok(index)
}

/// The shape of a bit of a name, or of a word of a memory.
#[cycle(shapes)]
#[tactic(auto, using(crate::proofs::Equations::shapes))]
fn bit_in<'e>(
    token: u32,
    name: &str,
    index: &'e Expr<'e>,
    scope: &Scope,
    constant: bool,
    notes: &mut Notes<'e>,
) -> Result<Shape, ExprFault>
    requires noted { Noted scope.now notes.old }
    ensures noted { Noted scope.now notes.new }
    ensures none { IfOk result (λ a. or_else (index_fault constant token (meant scope.now name.now)) (fault scope.now (plain index.now) constant) ≡ None) }
    ensures fits { IfOk result (λ a. IsTrue (is_a_width (shape_of_entity (meant scope.now name.now)).width && fits scope.now (plain index.now))) }
    ensures value { IfOk result (λ a. a ≡ shape_of_index (meant scope.now name.now)) }
    ensures low { IfOk result (λ a. 1 ≤ a.width) }
    ensures high { IfOk result (λ a. a.width ≤ 128) }
    ensures fault { IfErr result (λ f. or_else (index_fault constant token (meant scope.now name.now)) (fault scope.now (plain index.now) constant) ≡ Some f) }
{
    let base = scope.meaning(name);
    check_indexed(&base, token, constant)?;
    shape_in(index, scope, constant, notes)?;
    Ok(index_shape(&base))
}

/// The shape of the bits of a name from one index to another.
#[cycle(shapes)]
#[tactic(auto, using(crate::proofs::Equations::shapes))]
fn part_in<'e>(
    token: u32,
    name: &str,
    left: &'e Expr<'e>,
    right: &'e Expr<'e>,
    scope: &Scope,
    constant: bool,
    notes: &mut Notes<'e>,
) -> Result<Shape, ExprFault>
    requires noted { Noted scope.now notes.old }
    ensures noted { Noted scope.now notes.new }
    ensures none { IfOk result (λ a. part_fault scope.now token name.now (plain left.now) (plain right.now) constant ≡ None) }
    ensures fits { IfOk result (λ a. IsTrue (is_a_width (shape_of_entity (meant scope.now name.now)).width && (fits scope.now (plain left.now) && (fits scope.now (plain right.now) && is_a_width (constant_span scope.now (plain left.now) (plain right.now)))))) }
    ensures value { IfOk result (λ a. a ≡ unsigned_of (constant_span scope.now (plain left.now) (plain right.now))) }
    ensures fault { IfErr result (λ f. part_fault scope.now token name.now (plain left.now) (plain right.now) constant ≡ Some f) }
{
    let base = scope.meaning(name);
    check_base(&base, token, constant)?;
    let left = index_in(left, scope, notes)?;
    let right = index_in(right, scope, notes)?;
    part_shape(entity_range(&base), token, left, right)
}

/// The shape of some bits of a name from an index up or down.
#[cycle(shapes)]
#[tactic(auto, using(crate::proofs::Equations::shapes))]
fn indexed_in<'e>(
    token: u32,
    name: &str,
    from: &'e Expr<'e>,
    width: &'e Expr<'e>,
    scope: &Scope,
    constant: bool,
    notes: &mut Notes<'e>,
) -> Result<Shape, ExprFault>
    requires noted { Noted scope.now notes.old }
    ensures noted { Noted scope.now notes.new }
    ensures none { IfOk result (λ a. indexed_fault scope.now token name.now (plain from.now) (plain width.now) constant ≡ None) }
    ensures fits { IfOk result (λ a. IsTrue (is_a_width (shape_of_entity (meant scope.now name.now)).width && (fits scope.now (plain from.now) && (fits scope.now (plain width.now) && is_a_width (constant_count scope.now (plain width.now)))))) }
    ensures value { IfOk result (λ a. a ≡ unsigned_of (constant_count scope.now (plain width.now))) }
    ensures fault { IfErr result (λ f. indexed_fault scope.now token name.now (plain from.now) (plain width.now) constant ≡ Some f) }
{
    check_base(&scope.meaning(name), token, constant)?;
    match index_in(width, scope, notes) {
        Ok(count) => {
            let shape = count_shape(token, count_of(count))?;
            shape_in(from, scope, constant, notes)?;
            Ok(shape)
        }
        Err(later) => {
            shape_in(from, scope, constant, notes)?;
            Err(later)
        }
    }
}

/// The shape of an operator between its operands.
#[cycle(shapes)]
#[tactic(auto, using(crate::proofs::Equations::shapes))]
fn binary_in<'e>(
    op: Infix,
    left: &'e Expr<'e>,
    right: &'e Expr<'e>,
    scope: &Scope,
    constant: bool,
    notes: &mut Notes<'e>,
) -> Result<Shape, ExprFault>
    requires noted { Noted scope.now notes.old }
    ensures noted { Noted scope.now notes.new }
    ensures none { IfOk result (λ a. binary_fault scope.now op (plain left.now) (plain right.now) constant ≡ None) }
    ensures fits { IfOk result (λ a. IsTrue (fits scope.now (plain left.now) && fits scope.now (plain right.now))) }
    ensures value { IfOk result (λ a. a ≡ infix_shaped op (form scope.now (plain left.now)) (form scope.now (plain right.now))) }
    ensures low { IfOk result (λ a. 1 ≤ a.width) }
    ensures high { IfOk result (λ a. a.width ≤ 128) }
    ensures fault { IfErr result (λ f. binary_fault scope.now op (plain left.now) (plain right.now) constant ≡ Some f) }
{
    let operands = constant || takes_constants(op);
    let first = shape_in(left, scope, operands, notes)?;
    let second = shape_in(right, scope, operands, notes)?;
    if is_bad(op, first, second, right, scope, notes) {
        return Err(ExprFault::NotConstant(first_token(right)));
    }
    Ok(infix_shape(op, first, second))
}

/// The shape of two operands of which a test chooses one.
#[cycle(shapes)]
#[tactic(auto, using(crate::proofs::Equations::shapes))]
fn chosen_in<'e>(
    test: &'e Expr<'e>,
    yes: &'e Expr<'e>,
    no: &'e Expr<'e>,
    scope: &Scope,
    constant: bool,
    notes: &mut Notes<'e>,
) -> Result<Shape, ExprFault>
    requires noted { Noted scope.now notes.old }
    ensures noted { Noted scope.now notes.new }
    ensures none { IfOk result (λ a. or_else (fault scope.now (plain test.now) constant) (or_else (fault scope.now (plain yes.now) constant) (fault scope.now (plain no.now) constant)) ≡ None) }
    ensures fits { IfOk result (λ a. IsTrue (fits scope.now (plain test.now) && (fits scope.now (plain yes.now) && fits scope.now (plain no.now)))) }
    ensures value { IfOk result (λ a. a ≡ joined_shape (form scope.now (plain yes.now)) (form scope.now (plain no.now))) }
    ensures low { IfOk result (λ a. 1 ≤ a.width) }
    ensures high { IfOk result (λ a. a.width ≤ 128) }
    ensures fault { IfErr result (λ f. or_else (fault scope.now (plain test.now) constant) (or_else (fault scope.now (plain yes.now) constant) (fault scope.now (plain no.now) constant)) ≡ Some f) }
{
    shape_in(test, scope, constant, notes)?;
    let yes = shape_in(yes, scope, constant, notes)?;
    let no = shape_in(no, scope, constant, notes)?;
    Ok(joined(yes, no))
}

/// Width and sign of an expression, or its first fault in the order of the tokens. Where `constant`
/// no signal may stand in it.
#[cycle(shapes)]
#[tactic(auto, using(crate::proofs::Equations::shapes))]
pub(crate) fn shape_in<'e>(
    expr: &'e Expr<'e>,
    scope: &Scope,
    constant: bool,
    notes: &mut Notes<'e>,
) -> Result<Shape, ExprFault>
    requires noted { Noted scope.now notes.old }
    ensures noted { Noted scope.now notes.new }
    ensures none { IfOk result (λ a. fault scope.now (plain expr.now) constant ≡ None) }
    ensures fits { IfOk result (λ a. IsTrue (fits scope.now (plain expr.now))) }
    ensures value { IfOk result (λ a. a ≡ form scope.now (plain expr.now)) }
    ensures low { IfOk result (λ a. 1 ≤ a.width) }
    ensures high { IfOk result (λ a. a.width ≤ 128) }
    ensures fault { IfErr result (λ f. fault scope.now (plain expr.now) constant ≡ Some f) }
{
    match expr {
        Expr::Name { token, name } => name_shape(&scope.meaning(name), *token, constant),
        Expr::Literal { token, number } => {
            Ok(with_sign(sized(*token, number.width as u128)?, number.signed))
        }
        Expr::Bit { token, name, index } => bit_in(*token, name, index, scope, constant, notes),
        Expr::Part {
            token,
            name,
            left,
            right,
        } => part_in(*token, name, left, right, scope, constant, notes),
        Expr::Indexed {
            token,
            name,
            from,
            width,
            ..
        } => indexed_in(*token, name, from, width, scope, constant, notes),
        Expr::Unary { op, of } => {
            Ok(prefix_shape(prefix_of(*op), shape_in(of, scope, constant, notes)?))
        }
        Expr::Binary { op, left, right } => {
            binary_in(infix_of(*op), left, right, scope, constant, notes)
        }
        Expr::Cond { test, yes, no } => chosen_in(test, yes, no, scope, constant, notes),
        Expr::Concat { parts } => {
            let bits = parts_bits(parts, scope, constant, notes)?;
            concat_shape(parts, bits)
        }
        Expr::Repeat { count, parts } => {
            let index = index_in(count, scope, notes)?;
            let copies = copies_of(count, scope, index)?;
            let bits = parts_bits(parts, scope, constant, notes)?;
            repeat_shape(count, copies, bits)
        }
        Expr::Cast { signed, of } => Ok(with_sign(shape_in(of, scope, constant, notes)?, *signed)),
        Expr::Paren { of } => shape_in(of, scope, constant, notes),
    }
}

/// The number of bits of all parts, or their first fault.
#[cycle(shapes)]
#[tactic(auto, using(crate::proofs::Equations::shapes))]
fn parts_bits<'e>(
    parts: &'e [Expr<'e>],
    scope: &Scope,
    constant: bool,
    notes: &mut Notes<'e>,
) -> Result<u128, ExprFault>
    requires noted { Noted scope.now notes.old }
    ensures noted { Noted scope.now notes.new }
    ensures none { IfOk result (λ a. faults scope.now (plain_list parts.now) constant ≡ None) }
    ensures fit { IfOk result (λ a. IsTrue (fit scope.now (plain_list parts.now))) }
    ensures value { IfOk result (λ a. a ≡ widths scope.now (plain_list parts.now)) }
    ensures fault { IfErr result (λ f. faults scope.now (plain_list parts.now) constant ≡ Some f) }
{
    let mut bits = 0;
    for part in parts.iter() {
        bits += shape_in(part, scope, constant, notes)?.width as u128;
    }
    Ok(bits)
}
