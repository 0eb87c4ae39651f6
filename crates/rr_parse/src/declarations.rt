//! Declarations and continuous assignments (IEEE 1364-2005 sections 4.9.3, 6.1, 6.2.1 and 12.2, annexes
//! A.2.1 and A.2.4).

ghost use Rattle.std.specs.Prelude.{◌≡◌, ◌≤◌, ◌<◌, ◌+◌, ◌^◌, drop, length};
ghost use Rattle.rr_syntax.specs.View.{plain_assignment, plain_identifier, plain_declarator, plain_pair, plain_parameter, plain_value};
ghost use Rattle.rr_syntax.specs.Words.{mark_equals, words};
ghost use Rattle.rr_grammar.specs.Declarations.{declarator as declarator_of, has_no_words as has_no_words_of, head_parameter as head_of, is_variable_name as is_variable_name_of, kind as kind_of, pair as pair_of, parameter as parameter_of, setting as setting_of, single as single_of, variable as variable_of};
ghost use Rattle.rr_grammar.specs.Formats.{list as list_of};
ghost use Rattle.rr_grammar.specs.ItemForms.{front_parameters};
ghost use Rattle.rr_grammar.specs.Leaves.{expression as expression_of, identifier, typed as typed_of, where_mark};
ghost use Rattle.rr_parse.specs.Answer.{Answers};
ghost use Rattle.rr_parse.specs.Trees.{plain_kind, plain_list_by, plain_type};

use crate::expressions::{expression, range, target};
use crate::tokens::{choice, flag, mark, name};
use rr_parse_expr::{Input, ParseFault, Piece, is_keyword, is_mark, list};
use rr_syntax::{Bounds, Declarator, Expr, Keyword, Mark, Named, Pair, Params, Setting, Token};

/// `signed` and a range, where they stand.
#[derive(Clone, Copy)]
pub(crate) struct Type<'a> {
    pub(crate) signed: bool,
    pub(crate) range: Option<Bounds<'a>>,
}

/// The type of a parameter: `integer`, or `signed` and a range.
#[derive(Clone, Copy)]
struct ParameterType<'a> {
    integer: bool,
    typed: Type<'a>,
}

/// `signed` and a range, where they stand.
pub(crate) fn typed<'a>(
    input: Input<'a>,
    from: u32,
    depth: u32,
) -> Result<Piece<Type<'a>>, ParseFault>
    requires short { length input.tokens.now < 2 ^ 32 }
    requires inside { from ≤ length input.tokens.now }
    requires shallow { depth ≤ 500 }
    ensures { Answers (typed_of depth) plain_type input.entry.tokens.now from result }
{
    let signed = flag(input.tokens, from, Keyword::SIGNED);
    let range = range(input, signed.next, depth)?;
    Ok(Piece {
        value: Type {
            signed: signed.value,
            range: range.value,
        },
        next: range.next,
    })
}

/// Names, with commas between.
pub(crate) fn names<'a>(input: Input<'a>, from: u32) -> Result<Piece<&'a [Named<'a>]>, ParseFault>
    requires short { length input.tokens.now < 2 ^ 32 }
    ensures { Answers (list_of identifier) (plain_list_by plain_identifier) input.entry.tokens.now from result }
{
    list(input.tokens, from, input.arena, |at| name(input.tokens, at))
}

/// A parameter and its value (annex A.2.4).
fn setting<'a>(input: Input<'a>, from: u32, depth: u32) -> Result<Piece<Setting<'a>>, ParseFault>
    requires short { length input.tokens.now < 2 ^ 32 }
    requires shallow { depth ≤ 500 }
    ensures { Answers (setting_of depth) plain_assignment input.entry.tokens.now from result }
{
    let name = name(input.tokens, from)?;
    let equals = mark(input.tokens, name.next, Mark::EQUALS)?;
    let value = expression(input, equals, depth)?;
    Ok(Piece {
        value: Setting {
            token: name.value.token,
            name: name.value.name,
            value: value.value,
        },
        next: value.next,
    })
}

fn settings<'a>(
    input: Input<'a>,
    from: u32,
    depth: u32,
) -> Result<Piece<&'a [Setting<'a>]>, ParseFault>
    requires short { length input.tokens.now < 2 ^ 32 }
    requires shallow { depth ≤ 500 }
    ensures { Answers (list_of (setting_of depth)) (plain_list_by plain_assignment) input.entry.tokens.now from result }
{
    list(
        input.tokens,
        from,
        input.arena,
        |at| setting(input, at, depth),
    )
}

/// `=` and what drives a net, or what a variable begins with, where they stand.
fn declared_value<'a>(
    input: Input<'a>,
    from: u32,
    depth: u32,
) -> Result<Piece<Option<&'a Expr<'a>>>, ParseFault>
    requires short { length input.tokens.now < 2 ^ 32 }
    requires inside { from ≤ length input.tokens.now }
    requires shallow { depth ≤ 500 }
    ensures { Answers (where_mark mark_equals (expression_of depth)) plain_value input.entry.tokens.now from result }
{
    if !is_mark(input.tokens, from, Mark::EQUALS) {
        return Ok(Piece {
            value: None,
            next: from,
        });
    }
    let value = expression(input, from + 1, depth)?;
    Ok(Piece {
        value: Some(value.value),
        next: value.next,
    })
}

/// A name, the range of a memory's words and a value, where they stand (sections 4.9.3, 6.1.1 and
/// 6.2.1).
fn declarator<'a>(
    input: Input<'a>,
    from: u32,
    depth: u32,
) -> Result<Piece<Declarator<'a>>, ParseFault>
    requires short { length input.tokens.now < 2 ^ 32 }
    requires shallow { depth ≤ 500 }
    ensures { Answers (declarator_of depth) plain_declarator input.entry.tokens.now from result }
{
    let name = name(input.tokens, from)?;
    let words = range(input, name.next, depth)?;
    let value = declared_value(input, words.next, depth)?;
    Ok(Piece {
        value: Declarator {
            token: name.value.token,
            name: name.value.name,
            words: words.value,
            value: value.value,
        },
        next: value.next,
    })
}

/// Whether a declared name is no memory.
#[tactic(auto, using(crate::proofs::MadeDeclarations::single_forms))]
fn has_no_words(name: &Declarator) -> bool
    ensures { result ≡ has_no_words_of (plain_declarator name.now) }
{
    name.words.is_none()
}

/// Whether a declared name is no memory, or has no starting value.
#[tactic(auto, using(crate::proofs::MadeDeclarations::variable_forms))]
fn is_variable_name(name: &Declarator) -> bool
    ensures { result ≡ is_variable_name_of (plain_declarator name.now) }
{
    match name.words {
        None => true,
        Some(_) => name.value.is_none(),
    }
}

/// A net and its driver, or a port, which are no memories.
fn single<'a>(input: Input<'a>, from: u32, depth: u32) -> Result<Piece<Declarator<'a>>, ParseFault>
    requires short { length input.tokens.now < 2 ^ 32 }
    requires shallow { depth ≤ 500 }
    ensures { Answers (single_of depth) plain_declarator input.entry.tokens.now from result }
{
    let found = declarator(input, from, depth)?;
    if has_no_words(&found.value) {
        Ok(found)
    } else {
        Err(ParseFault::Syntax(from))
    }
}

/// Such names, with commas between.
pub(crate) fn singles<'a>(
    input: Input<'a>,
    from: u32,
    depth: u32,
) -> Result<Piece<&'a [Declarator<'a>]>, ParseFault>
    requires short { length input.tokens.now < 2 ^ 32 }
    requires shallow { depth ≤ 500 }
    ensures { Answers (list_of (single_of depth)) (plain_list_by plain_declarator) input.entry.tokens.now from result }
{
    list(
        input.tokens,
        from,
        input.arena,
        |at| single(input, at, depth),
    )
}

/// A variable and its starting value, where it has one, or a memory.
fn variable<'a>(
    input: Input<'a>,
    from: u32,
    depth: u32,
) -> Result<Piece<Declarator<'a>>, ParseFault>
    requires short { length input.tokens.now < 2 ^ 32 }
    requires shallow { depth ≤ 500 }
    ensures { Answers (variable_of depth) plain_declarator input.entry.tokens.now from result }
{
    let found = declarator(input, from, depth)?;
    if is_variable_name(&found.value) {
        Ok(found)
    } else {
        Err(ParseFault::Syntax(from))
    }
}

/// Such names, with commas between.
pub(crate) fn variables<'a>(
    input: Input<'a>,
    from: u32,
    depth: u32,
) -> Result<Piece<&'a [Declarator<'a>]>, ParseFault>
    requires short { length input.tokens.now < 2 ^ 32 }
    requires shallow { depth ≤ 500 }
    ensures { Answers (list_of (variable_of depth)) (plain_list_by plain_declarator) input.entry.tokens.now from result }
{
    list(
        input.tokens,
        from,
        input.arena,
        |at| variable(input, at, depth),
    )
}

/// A target and what drives it (section 6.1, annex A.6.1).
fn pair<'a>(input: Input<'a>, from: u32, depth: u32) -> Result<Piece<Pair<'a>>, ParseFault>
    requires short { length input.tokens.now < 2 ^ 32 }
    requires shallow { depth ≤ 500 }
    ensures { Answers (pair_of depth) plain_pair input.entry.tokens.now from result }
{
    let target = target(input, from, depth)?;
    let equals = mark(input.tokens, target.next, Mark::EQUALS)?;
    let value = expression(input, equals, depth)?;
    Ok(Piece {
        value: Pair {
            target: target.value,
            value: value.value,
        },
        next: value.next,
    })
}

pub(crate) fn pairs<'a>(
    input: Input<'a>,
    from: u32,
    depth: u32,
) -> Result<Piece<&'a [Pair<'a>]>, ParseFault>
    requires short { length input.tokens.now < 2 ^ 32 }
    requires shallow { depth ≤ 500 }
    ensures { Answers (list_of (pair_of depth)) (plain_list_by plain_pair) input.entry.tokens.now from result }
{
    list(input.tokens, from, input.arena, |at| pair(input, at, depth))
}

/// The type of a parameter (section 12.2).
fn kind<'a>(input: Input<'a>, from: u32, depth: u32) -> Result<Piece<ParameterType<'a>>, ParseFault>
    requires short { length input.tokens.now < 2 ^ 32 }
    requires inside { from ≤ length input.tokens.now }
    requires shallow { depth ≤ 500 }
    ensures { Answers (kind_of depth) plain_kind input.entry.tokens.now from result }
{
    if is_keyword(input.tokens, from, Keyword::INTEGER) {
        let typed = Type {
            signed: false,
            range: None,
        };
        return Ok(Piece {
            value: ParameterType {
                integer: true,
                typed,
            },
            next: from + 1,
        });
    }
    let typed = typed(input, from, depth)?;
    Ok(Piece {
        value: ParameterType {
            integer: false,
            typed: typed.value,
        },
        next: typed.next,
    })
}

/// Whether parameters begin at a token.
pub(crate) fn begins_parameter(tokens: &[Token], at: u32) -> bool
    ensures { result ≡ front_parameters (drop at (words tokens.now)) }
{
    is_keyword(tokens, at, Keyword::LOCALPARAM) || is_keyword(tokens, at, Keyword::PARAMETER)
}

/// Parameters that are declared together (section 12.2, annex A.2.1.1), without a semicolon.
pub(crate) fn parameters<'a>(
    input: Input<'a>,
    from: u32,
    depth: u32,
) -> Result<Piece<Params<'a>>, ParseFault>
    requires short { length input.tokens.now < 2 ^ 32 }
    requires shallow { depth ≤ 500 }
    ensures { Answers (parameter_of depth) plain_parameter input.entry.tokens.now from result }
{
    let local = choice(input.tokens, from, Keyword::LOCALPARAM, Keyword::PARAMETER)?;
    let kind = kind(input, local.next, depth)?;
    let sets = settings(input, kind.next, depth)?;
    Ok(Piece {
        value: Params {
            local: local.value,
            integer: kind.value.integer,
            signed: kind.value.typed.signed,
            range: kind.value.typed.range,
            sets: sets.value,
        },
        next: sets.next,
    })
}

/// Parameters between the brackets of a module, which are not local.
fn head_parameters<'a>(
    input: Input<'a>,
    from: u32,
    depth: u32,
) -> Result<Piece<Params<'a>>, ParseFault>
    requires short { length input.tokens.now < 2 ^ 32 }
    requires shallow { depth ≤ 500 }
    ensures { Answers (head_of depth) plain_parameter input.entry.tokens.now from result }
{
    let found = parameters(input, from, depth)?;
    if found.value.local {
        Err(ParseFault::Syntax(from))
    } else {
        Ok(found)
    }
}

/// Such parameters, with commas between.
pub(crate) fn heads<'a>(
    input: Input<'a>,
    from: u32,
    depth: u32,
) -> Result<Piece<&'a [Params<'a>]>, ParseFault>
    requires short { length input.tokens.now < 2 ^ 32 }
    requires shallow { depth ≤ 500 }
    ensures { Answers (list_of (head_of depth)) (plain_list_by plain_parameter) input.entry.tokens.now from result }
{
    list(input.tokens, from, input.arena, |at| {
        head_parameters(input, at, depth)
    })
}
