//! Items of modules (IEEE 1364-2005 section 12.1, annex A.1.4), by their first token.

ghost use Rattle.std.specs.Prelude.{◌≤◌, ◌<◌, ◌^◌, length};
ghost use Rattle.rr_syntax.specs.View.{plain_item};
ghost use Rattle.rr_grammar.specs.Formats.{repeated};
ghost use Rattle.rr_grammar.specs.ItemForms.{always_item as always_of, assigns_item as assigns_of, initial_item as initial_of, instances_item as instances_of, integers_item as integers_of, item as item_of, nets_item as nets_of, parameters_item as parameters_of, ports_item as ports_of, variables_item as variables_of};
ghost use Rattle.rr_parse.specs.Answer.{Answers};
ghost use Rattle.rr_parse.specs.Chains.{AnswersAll};
ghost use Rattle.rr_parse.specs.Trees.{plain_list_by};

use crate::connections::{instances, overrides};
use crate::declarations::{begins_parameter, names, pairs, parameters, singles, typed, variables};
use crate::events::events;
use crate::expressions::statement;
use crate::initial::initial_statement;
use crate::ports::{begins_port, port};
use crate::tokens::{mark, name, word};
use bumpalo::collections::into_bump_slice;
use rr_parse_expr::{Input, ParseFault, Piece, add, is_keyword};
use rr_syntax::{Item, Keyword, Mark};

/// Ports that are declared among the items (section 12.3.3).
fn port_item<'a>(input: Input<'a>, from: u32, depth: u32) -> Result<Piece<Item<'a>>, ParseFault>
    requires short { length input.tokens.now < 2 ^ 32 }
    requires shallow { depth ≤ 500 }
    ensures { Answers (ports_of depth) plain_item input.entry.tokens.now from result }
{
    let group = port(input, from, depth)?;
    let next = mark(input.tokens, group.next, Mark::SEMICOLON)?;
    Ok(Piece {
        value: Item::Ports(group.value),
        next,
    })
}

/// Nets (section 3.2, annex A.2.1.3).
fn net_item<'a>(input: Input<'a>, from: u32, depth: u32) -> Result<Piece<Item<'a>>, ParseFault>
    requires short { length input.tokens.now < 2 ^ 32 }
    requires shallow { depth ≤ 500 }
    ensures { Answers (nets_of depth) plain_item input.entry.tokens.now from result }
{
    let wire = word(input.tokens, from, Keyword::WIRE)?;
    let typed = typed(input, wire, depth)?;
    let names = singles(input, typed.next, depth)?;
    let next = mark(input.tokens, names.next, Mark::SEMICOLON)?;
    Ok(Piece {
        value: Item::Nets {
            signed: typed.value.signed,
            range: typed.value.range,
            names: names.value,
        },
        next,
    })
}

/// Variables and memories (sections 3.2, 4.9.3 and 6.2.1, annex A.2.1.3).
fn variable_item<'a>(input: Input<'a>, from: u32, depth: u32) -> Result<Piece<Item<'a>>, ParseFault>
    requires short { length input.tokens.now < 2 ^ 32 }
    requires shallow { depth ≤ 500 }
    ensures { Answers (variables_of depth) plain_item input.entry.tokens.now from result }
{
    let reg = word(input.tokens, from, Keyword::REG)?;
    let typed = typed(input, reg, depth)?;
    let names = variables(input, typed.next, depth)?;
    let next = mark(input.tokens, names.next, Mark::SEMICOLON)?;
    Ok(Piece {
        value: Item::Variables {
            signed: typed.value.signed,
            range: typed.value.range,
            names: names.value,
        },
        next,
    })
}

/// Variables of type `integer` (section 3.9).
fn integer_item<'a>(input: Input<'a>, from: u32, depth: u32) -> Result<Piece<Item<'a>>, ParseFault>
    requires short { length input.tokens.now < 2 ^ 32 }
    ensures { Answers (integers_of depth) plain_item input.entry.tokens.now from result }
{
    let integer = word(input.tokens, from, Keyword::INTEGER)?;
    let names = names(input, integer)?;
    let next = mark(input.tokens, names.next, Mark::SEMICOLON)?;
    Ok(Piece {
        value: Item::Integers { names: names.value },
        next,
    })
}

/// Parameters that are declared among the items (section 12.2).
fn parameter_item<'a>(
    input: Input<'a>,
    from: u32,
    depth: u32,
) -> Result<Piece<Item<'a>>, ParseFault>
    requires short { length input.tokens.now < 2 ^ 32 }
    requires shallow { depth ≤ 500 }
    ensures { Answers (parameters_of depth) plain_item input.entry.tokens.now from result }
{
    let found = parameters(input, from, depth)?;
    let next = mark(input.tokens, found.next, Mark::SEMICOLON)?;
    Ok(Piece {
        value: Item::Parameters(found.value),
        next,
    })
}

/// Continuous assignments (section 6.1).
fn assign_item<'a>(input: Input<'a>, from: u32, depth: u32) -> Result<Piece<Item<'a>>, ParseFault>
    requires short { length input.tokens.now < 2 ^ 32 }
    requires shallow { depth ≤ 500 }
    ensures { Answers (assigns_of depth) plain_item input.entry.tokens.now from result }
{
    let assign = word(input.tokens, from, Keyword::ASSIGN)?;
    let pairs = pairs(input, assign, depth)?;
    let next = mark(input.tokens, pairs.next, Mark::SEMICOLON)?;
    Ok(Piece {
        value: Item::Assigns { pairs: pairs.value },
        next,
    })
}

/// `always`, its event control and its statement (section 9.9).
fn always_item<'a>(input: Input<'a>, from: u32, depth: u32) -> Result<Piece<Item<'a>>, ParseFault>
    requires short { length input.tokens.now < 2 ^ 32 }
    requires shallow { depth ≤ 500 }
    ensures { Answers (always_of depth) plain_item input.entry.tokens.now from result }
{
    let always = word(input.tokens, from, Keyword::ALWAYS)?;
    let at = mark(input.tokens, always, Mark::AT)?;
    let events = events(input, at, depth)?;
    let body = statement(input, events.next, depth)?;
    Ok(Piece {
        value: Item::Always {
            events: events.value,
            body: body.value,
            token: from,
        },
        next: body.next,
    })
}

/// `initial` and its statement (section 9.9.1).
fn initial_item<'a>(input: Input<'a>, from: u32, depth: u32) -> Result<Piece<Item<'a>>, ParseFault>
    requires short { length input.tokens.now < 2 ^ 32 }
    requires shallow { depth ≤ 500 }
    ensures { Answers (initial_of depth) plain_item input.entry.tokens.now from result }
{
    let initial = word(input.tokens, from, Keyword::INITIAL)?;
    let body = initial_statement(input, initial, depth)?;
    let value = Item::Initial {
        body: body.value,
        token: from,
    };
    Ok(Piece {
        value,
        next: body.next,
    })
}

/// Instances of a module (section 12.1.2).
fn instance_item<'a>(input: Input<'a>, from: u32, depth: u32) -> Result<Piece<Item<'a>>, ParseFault>
    requires short { length input.tokens.now < 2 ^ 32 }
    requires shallow { depth ≤ 500 }
    ensures { Answers (instances_of depth) plain_item input.entry.tokens.now from result }
{
    let module = name(input.tokens, from)?;
    let overrides = overrides(input, module.next, depth)?;
    let list = instances(input, overrides.next, depth)?;
    let next = mark(input.tokens, list.next, Mark::SEMICOLON)?;
    Ok(Piece {
        value: Item::Instances {
            module: module.value.name,
            token: module.value.token,
            overrides: overrides.value,
            list: list.value,
        },
        next,
    })
}

/// An item, whose expressions and statements have at most the depth.
fn item<'a>(input: Input<'a>, from: u32, depth: u32) -> Result<Piece<Item<'a>>, ParseFault>
    requires short { length input.tokens.now < 2 ^ 32 }
    requires shallow { depth ≤ 500 }
    ensures { Answers (item_of depth) plain_item input.entry.tokens.now from result }
{
    let tokens = input.tokens;
    if begins_port(tokens, from) {
        port_item(input, from, depth)
    } else if is_keyword(tokens, from, Keyword::WIRE) {
        net_item(input, from, depth)
    } else if is_keyword(tokens, from, Keyword::REG) {
        variable_item(input, from, depth)
    } else if is_keyword(tokens, from, Keyword::INTEGER) {
        integer_item(input, from, depth)
    } else if begins_parameter(tokens, from) {
        parameter_item(input, from, depth)
    } else if is_keyword(tokens, from, Keyword::ASSIGN) {
        assign_item(input, from, depth)
    } else if is_keyword(tokens, from, Keyword::ALWAYS) {
        always_item(input, from, depth)
    } else if is_keyword(tokens, from, Keyword::INITIAL) {
        initial_item(input, from, depth)
    } else {
        instance_item(input, from, depth)
    }
}

/// Items, as long as one follows. A loop of its own, since a function that is handed in as elsewhere would make the check of so
/// large a part too long.
fn each_item<'a>(
    input: Input<'a>,
    from: u32,
    depth: u32,
) -> Result<Piece<&'a [Item<'a>]>, ParseFault>
    requires short { length input.tokens.now < 2 ^ 32 }
    requires inside { from ≤ length input.tokens.now }
    requires shallow { depth ≤ 500 }
    ensures { AnswersAll (λ at o. Answers (item_of depth) plain_item input.entry.tokens.now at o) input.entry.tokens.now from result }
{
    let mut list = Vec::new(input.arena);
    let mut next = from;
    loop {
        match item(input, next, depth) {
            Ok(more) => {
                add(&mut list, more.value)?;
                next = more.next;
            }
            Err(ParseFault::Memory) => return Err(ParseFault::Memory),
            Err(_) => break,
        }
    }
    Ok(Piece {
        value: into_bump_slice(list),
        next,
    })
}

/// Items, with nothing between.
pub(crate) fn items<'a>(
    input: Input<'a>,
    from: u32,
    depth: u32,
) -> Result<Piece<&'a [Item<'a>]>, ParseFault>
    requires short { length input.tokens.now < 2 ^ 32 }
    requires inside { from ≤ length input.tokens.now }
    requires shallow { depth ≤ 500 }
    ensures { Answers (repeated (item_of depth)) (plain_list_by plain_item) input.entry.tokens.now from result }
{
    each_item(input, from, depth)
}
