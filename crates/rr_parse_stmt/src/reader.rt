//! The reader of statements.

ghost use Rattle.std.specs.Prelude.{◌≡◌, ◌≤◌, ◌<◌, ◌+◌, ◌^◌, [], suc, length, drop, cond, nat_eq, IfOk, Some};
ghost use Rattle.rr_syntax.specs.Words.{words, keyword_else, mark_colon};
ghost use Rattle.rr_parse_expr.specs.Reading.{below, mark as mark_of};
ghost use Rattle.rr_parse_stmt.specs.Reading.{arms as arms_of, assignment as assignment_of, below_arm, below_statement, block as block_of, body as body_of, cases as cases_of, conditional as conditional_of, default_arm as default_of, head as head_of, keyword as keyword_of, label as label_of, labelled_arm as labelled_of, labels as labels_of, looped as looped_of, sign, target as target_of, tested as tested_of};
ghost use Rattle.rr_syntax.specs.Tree.{Done, NoArms};
ghost use Rattle.rr_parse_stmt.specs.Answer.{AnswersArm, AnswersArms, AnswersBody, AnswersLabel, AnswersStatement, FindsHead, FindsLabels, FindsStatement, FindsTarget, FindsTree};

use crate::expressions::{LabelList, Placed, closed, labels, target, tested};
use crate::heads::{HeadPiece, head};
use crate::nodes::{
    ArmPiece, LabelPiece, Piece, case_item, if_alone, if_else, loop_over, no_labels,
};
use crate::parts::{case_at, counted, sign_at};
use bumpalo::Bump;
use bumpalo::collections::into_bump_slice;
use rr_parse_expr::{add, is_keyword, is_mark, name_at};
use rr_syntax::{Arm, Keyword, Mark, Stmt, Token};
use std::alloc::AllocError;

/// The token after `default`, which stands at `from`, and after its colon, if that stands behind it.
fn after_default(from: u32, colon: bool) -> u32
    requires fits { from + cond colon 2 1 < 2 ^ 32 }
    ensures { result ≡ from + cond colon 2 1 }
{
    if colon { from + 2 } else { from + 1 }
}

/// A statement of less than a depth.
#[cycle(statements)]
pub(crate) fn statement<'a>(
    tokens: &'a [Token<'a>],
    from: u32,
    room: u32,
    arena: &'a Bump,
) -> Result<Option<Piece<'a>>, AllocError>
    requires short { length tokens.now < 2 ^ 32 }
    requires shallow { room ≤ 501 }
    ensures { IfOk result (λ r. AnswersStatement tokens.now from (below_statement room (drop from (words tokens.now))) r) }
{
    if room == 0 {
        return Ok(None);
    }
    if is_mark(tokens, from, Mark::SEMICOLON) {
        let next = from + 1;
        Ok(Some(Piece {
            stmt: Stmt::Null,
            next,
        }))
    } else if is_keyword(tokens, from, Keyword::BEGIN) {
        block(tokens, from, room - 1, arena)
    } else if is_keyword(tokens, from, Keyword::IF) {
        conditional(tokens, from, room - 1, arena)
    } else if is_keyword(tokens, from, Keyword::FOR) {
        looped(tokens, from, room - 1, arena)
    } else {
        match case_at(tokens, from) {
            Some(kind) => cases(tokens, from, kind, room - 1, arena),
            None => assignment(tokens, from, room - 1, arena),
        }
    }
}

/// The name of a block, where a colon stands at `from`.
fn label<'a>(tokens: &'a [Token<'a>], from: u32) -> Option<LabelPiece<'a>>
    requires short { length tokens.now < 2 ^ 32 }
    requires inside { from ≤ length tokens.now }
    ensures { AnswersLabel tokens.now from (label_of (drop from (words tokens.now))) result }
{
    if !is_mark(tokens, from, Mark::COLON) {
        return Some(LabelPiece {
            label: None,
            next: from,
        });
    }
    match name_at(tokens, from + 1) {
        None => None,
        Some(name) => Some(LabelPiece {
            label: Some(name),
            next: from + 2,
        }),
    }
}

/// After `begin`, which stands at `from`.
#[cycle(statements)]
fn block<'a>(
    tokens: &'a [Token<'a>],
    from: u32,
    limit: u32,
    arena: &'a Bump,
) -> Result<Option<Piece<'a>>, AllocError>
    requires short { length tokens.now < 2 ^ 32 }
    requires inside { from < length tokens.now }
    requires shallow { limit ≤ 500 }
    ensures { IfOk result (λ r. AnswersStatement tokens.now from (block_of (below_statement limit) (drop (from + 1) (words tokens.now))) r) }
{
    match label(tokens, from + 1) {
        None => Ok(None),
        Some(name) => {
            let mut body = Vec::new(arena);
            match statements(tokens, name.next, &mut body, limit, arena)? {
                None => Ok(None),
                Some(next) => Ok(Some(Piece {
                    stmt: Stmt::Block {
                        label: name.label,
                        body: into_bump_slice(body),
                    },
                    next,
                })),
            }
        }
    }
}

/// Puts the statements up to `end` into `body`, and answers the token after it.
#[cycle(statements)]
fn statements<'a>(
    tokens: &'a [Token<'a>],
    from: u32,
    body: &mut Vec<Stmt<'a>, &'a Bump>,
    limit: u32,
    arena: &'a Bump,
) -> Result<Option<u32>, AllocError>
    requires short { length tokens.now < 2 ^ 32 }
    requires inside { from ≤ length tokens.now }
    requires shallow { limit ≤ 500 }
    requires empty { body.old.items ≡ [] }
    ensures { IfOk result (λ r. AnswersBody tokens.now from (body_of (below_statement limit) (suc (length (drop from (words tokens.now)))) Done (drop from (words tokens.now))) body.new.items r) }
{
    let mut next = from;
    while !is_keyword(tokens, next, Keyword::END) {
        match statement(tokens, next, limit, arena)? {
            None => return Ok(None),
            Some(piece) => {
                add(body, piece.stmt)?;
                next = piece.next;
            }
        }
    }
    Ok(Some(next + 1))
}

/// After `if`, which stands at `from`.
#[cycle(statements)]
fn conditional<'a>(
    tokens: &'a [Token<'a>],
    from: u32,
    limit: u32,
    arena: &'a Bump,
) -> Result<Option<Piece<'a>>, AllocError>
    requires short { length tokens.now < 2 ^ 32 }
    requires inside { from < length tokens.now }
    requires shallow { limit ≤ 500 }
    ensures { IfOk result (λ r. AnswersStatement tokens.now from (conditional_of (below limit) (below_statement limit) (drop (from + 1) (words tokens.now))) r) }
{
    match tested(tokens, from + 1, limit, arena)? {
        None => Ok(None),
        Some(test) => branches(tokens, from, test, limit, arena),
    }
}

/// After the test of the `if` at `from`. An `else` belongs to the nearest `if` without one.
#[cycle(statements)]
fn branches<'a>(
    tokens: &'a [Token<'a>],
    from: u32,
    test: Placed<'a>,
    limit: u32,
    arena: &'a Bump,
) -> Result<Option<Piece<'a>>, AllocError>
    requires short { length tokens.now < 2 ^ 32 }
    requires shallow { limit ≤ 500 }
    requires test_read { FindsTree tokens.now (from + 1 + 1) 1 (tested_of (below limit) (drop (from + 1) (words tokens.now))) test }
    ensures { IfOk result (λ r. AnswersStatement tokens.now from (conditional_of (below limit) (below_statement limit) (drop (from + 1) (words tokens.now))) r) }
{
    match statement(tokens, test.next, limit, arena)? {
        None => Ok(None),
        Some(first) => {
            if is_keyword(tokens, first.next, Keyword::ELSE) {
                otherwise(tokens, from, test, first, limit, arena)
            } else {
                Ok(Some(if_alone(test, first, arena)?))
            }
        }
    }
}

/// After the first statement of the `if` at `from`, where an `else` stands.
#[cycle(statements)]
fn otherwise<'a>(
    tokens: &'a [Token<'a>],
    from: u32,
    test: Placed<'a>,
    first: Piece<'a>,
    limit: u32,
    arena: &'a Bump,
) -> Result<Option<Piece<'a>>, AllocError>
    requires short { length tokens.now < 2 ^ 32 }
    requires shallow { limit ≤ 500 }
    requires test_read { FindsTree tokens.now (from + 1 + 1) 1 (tested_of (below limit) (drop (from + 1) (words tokens.now))) test }
    requires first_read { FindsStatement tokens.now test.next (below_statement limit (drop test.next (words tokens.now))) first }
    requires there { keyword_of (drop first.next (words tokens.now)) ≡ keyword_else }
    ensures { IfOk result (λ r. AnswersStatement tokens.now from (conditional_of (below limit) (below_statement limit) (drop (from + 1) (words tokens.now))) r) }
{
    match statement(tokens, first.next + 1, limit, arena)? {
        None => Ok(None),
        Some(second) => Ok(Some(if_else(test, first, second, arena)?)),
    }
}

/// After `for`, which stands at `from`.
#[cycle(statements)]
fn looped<'a>(
    tokens: &'a [Token<'a>],
    from: u32,
    limit: u32,
    arena: &'a Bump,
) -> Result<Option<Piece<'a>>, AllocError>
    requires short { length tokens.now < 2 ^ 32 }
    requires inside { from < length tokens.now }
    requires shallow { limit ≤ 500 }
    ensures { IfOk result (λ r. AnswersStatement tokens.now from (looped_of (below limit) (below_statement limit) (drop (from + 1) (words tokens.now))) r) }
{
    match head(tokens, from + 1, limit, arena)? {
        None => Ok(None),
        Some(found) => turn(tokens, from, found, limit, arena),
    }
}

/// After the head of the `for` at `from`.
#[cycle(statements)]
fn turn<'a>(
    tokens: &'a [Token<'a>],
    from: u32,
    found: HeadPiece<'a>,
    limit: u32,
    arena: &'a Bump,
) -> Result<Option<Piece<'a>>, AllocError>
    requires short { length tokens.now < 2 ^ 32 }
    requires shallow { limit ≤ 500 }
    requires head_read { FindsHead tokens.now (from + 1) (head_of (below limit) (drop (from + 1) (words tokens.now))) found }
    ensures { IfOk result (λ r. AnswersStatement tokens.now from (looped_of (below limit) (below_statement limit) (drop (from + 1) (words tokens.now))) r) }
{
    match statement(tokens, found.next, limit, arena)? {
        None => Ok(None),
        Some(body) => Ok(Some(loop_over(found, body, arena)?)),
    }
}

/// After the word of a `case`, which stands at `from`.
#[cycle(statements)]
fn cases<'a>(
    tokens: &'a [Token<'a>],
    from: u32,
    kind: Keyword,
    limit: u32,
    arena: &'a Bump,
) -> Result<Option<Piece<'a>>, AllocError>
    requires short { length tokens.now < 2 ^ 32 }
    requires inside { from < length tokens.now }
    requires shallow { limit ≤ 500 }
    ensures { IfOk result (λ r. AnswersStatement tokens.now from (cases_of (below limit) (below_arm limit) kind.0 (drop (from + 1) (words tokens.now))) r) }
{
    match tested(tokens, from + 1, limit, arena)? {
        None => Ok(None),
        Some(on) => {
            let mut arms = Vec::new(arena);
            match arms_from(tokens, on.next, &mut arms, limit, arena)? {
                None => Ok(None),
                Some(next) => Ok(Some(Piece {
                    stmt: Stmt::Case {
                        kind,
                        on: on.expr,
                        arms: into_bump_slice(arms),
                    },
                    next,
                })),
            }
        }
    }
}

/// Puts the arms up to `endcase` into `arms`, and answers the token after it.
#[cycle(statements)]
fn arms_from<'a>(
    tokens: &'a [Token<'a>],
    from: u32,
    arms: &mut Vec<Arm<'a>, &'a Bump>,
    limit: u32,
    arena: &'a Bump,
) -> Result<Option<u32>, AllocError>
    requires short { length tokens.now < 2 ^ 32 }
    requires inside { from ≤ length tokens.now }
    requires shallow { limit ≤ 500 }
    requires empty { arms.old.items ≡ [] }
    ensures { IfOk result (λ r. AnswersArms tokens.now from (arms_of (below_arm limit) (suc (length (drop from (words tokens.now)))) NoArms (drop from (words tokens.now))) arms.new.items r) }
{
    let mut next = from;
    let mut defaults: u32 = 0;
    while let Some(piece) = arm(tokens, next, limit, arena)? {
        match counted(&piece.arm, defaults) {
            None => return Ok(None),
            Some(more) => defaults = more,
        }
        add(arms, piece.arm)?;
        next = piece.next;
        if is_keyword(tokens, next, Keyword::ENDCASE) {
            return Ok(Some(next + 1));
        }
    }
    Ok(None)
}

/// An arm of less than a depth.
#[cycle(statements)]
fn arm<'a>(
    tokens: &'a [Token<'a>],
    from: u32,
    room: u32,
    arena: &'a Bump,
) -> Result<Option<ArmPiece<'a>>, AllocError>
    requires short { length tokens.now < 2 ^ 32 }
    requires shallow { room ≤ 500 }
    ensures { IfOk result (λ r. AnswersArm tokens.now from (below_arm room (drop from (words tokens.now))) r) }
{
    if room == 0 {
        return Ok(None);
    }
    if is_keyword(tokens, from, Keyword::DEFAULT) {
        default_arm(tokens, from, room - 1, arena)
    } else {
        labelled_arm(tokens, from, room - 1, arena)
    }
}

/// After `default`, which stands at `from`, with or without a colon.
#[cycle(statements)]
fn default_arm<'a>(
    tokens: &'a [Token<'a>],
    from: u32,
    limit: u32,
    arena: &'a Bump,
) -> Result<Option<ArmPiece<'a>>, AllocError>
    requires short { length tokens.now < 2 ^ 32 }
    requires inside { from < length tokens.now }
    requires shallow { limit ≤ 500 }
    ensures { IfOk result (λ r. AnswersArm tokens.now from (default_of (below_statement limit) (drop (from + 1) (words tokens.now))) r) }
{
    let colon = is_mark(tokens, from + 1, Mark::COLON);
    default_body(tokens, from, colon, limit, arena)
}

/// After `default`, which stands at `from`, and its colon, if that stands behind it.
#[cycle(statements)]
fn default_body<'a>(
    tokens: &'a [Token<'a>],
    from: u32,
    colon: bool,
    limit: u32,
    arena: &'a Bump,
) -> Result<Option<ArmPiece<'a>>, AllocError>
    requires short { length tokens.now < 2 ^ 32 }
    requires inside { from < length tokens.now }
    requires shallow { limit ≤ 500 }
    requires colon_read { colon ≡ nat_eq (mark_of (drop (from + 1) (words tokens.now))) mark_colon }
    ensures { IfOk result (λ r. AnswersArm tokens.now from (default_of (below_statement limit) (drop (from + 1) (words tokens.now))) r) }
{
    match statement(tokens, after_default(from, colon), limit, arena)? {
        None => Ok(None),
        Some(body) => Ok(Some(case_item(no_labels(arena), colon, body, arena)?)),
    }
}

/// Labels, a colon and a statement.
#[cycle(statements)]
fn labelled_arm<'a>(
    tokens: &'a [Token<'a>],
    from: u32,
    limit: u32,
    arena: &'a Bump,
) -> Result<Option<ArmPiece<'a>>, AllocError>
    requires short { length tokens.now < 2 ^ 32 }
    requires shallow { limit ≤ 500 }
    ensures { IfOk result (λ r. AnswersArm tokens.now from (labelled_of (below limit) (below_statement limit) (drop from (words tokens.now))) r) }
{
    match labels(tokens, from, limit, arena)? {
        None => Ok(None),
        Some(found) => labelled_body(tokens, from, found, limit, arena),
    }
}

/// The statement behind the labels that begin at `from`.
#[cycle(statements)]
fn labelled_body<'a>(
    tokens: &'a [Token<'a>],
    from: u32,
    found: LabelList<'a>,
    limit: u32,
    arena: &'a Bump,
) -> Result<Option<ArmPiece<'a>>, AllocError>
    requires short { length tokens.now < 2 ^ 32 }
    requires shallow { limit ≤ 500 }
    requires labels_read { FindsLabels tokens.now from (labels_of (below limit) (drop from (words tokens.now))) found }
    ensures { IfOk result (λ r. AnswersArm tokens.now from (labelled_of (below limit) (below_statement limit) (drop from (words tokens.now))) r) }
{
    match statement(tokens, found.next, limit, arena)? {
        None => Ok(None),
        Some(body) => Ok(Some(case_item(found.exprs, true, body, arena)?)),
    }
}

/// A target, `=` or `<=`, a value and a semicolon.
fn assignment<'a>(
    tokens: &'a [Token<'a>],
    from: u32,
    limit: u32,
    arena: &'a Bump,
) -> Result<Option<Piece<'a>>, AllocError>
    requires short { length tokens.now < 2 ^ 32 }
    requires shallow { limit ≤ 500 }
    ensures { IfOk result (λ r. AnswersStatement tokens.now from (assignment_of (below limit) (drop from (words tokens.now))) r) }
{
    match target(tokens, from, limit, arena)? {
        None => Ok(None),
        Some(left) => match sign_at(tokens, left.next) {
            None => Ok(None),
            Some(now) => assigned(tokens, from, left, now, limit, arena),
        },
    }
}

/// The value behind the mark of an assignment, and a semicolon.
fn assigned<'a>(
    tokens: &'a [Token<'a>],
    from: u32,
    left: Placed<'a>,
    now: bool,
    limit: u32,
    arena: &'a Bump,
) -> Result<Option<Piece<'a>>, AllocError>
    requires short { length tokens.now < 2 ^ 32 }
    requires shallow { limit ≤ 500 }
    requires left_read { FindsTarget tokens.now from (target_of (below limit) (drop from (words tokens.now))) left }
    requires mark_read { sign (drop left.next (words tokens.now)) ≡ Some now }
    ensures { IfOk result (λ r. AnswersStatement tokens.now from (assignment_of (below limit) (drop from (words tokens.now))) r) }
{
    match closed(tokens, left.next + 1, Mark::SEMICOLON, limit, arena)? {
        None => Ok(None),
        Some(value) => {
            let stmt = Stmt::Assign {
                target: left.expr,
                now,
                value: value.expr,
            };
            Ok(Some(Piece {
                stmt,
                next: value.next,
            }))
        }
    }
}
