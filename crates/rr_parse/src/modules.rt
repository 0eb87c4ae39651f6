//! Modules (IEEE 1364-2005 section 12.1, annex A.1.2).

ghost use Rattle.std.specs.Prelude.{◌≤◌, ◌<◌, ◌+◌, ◌^◌, length};
ghost use Rattle.rr_syntax.specs.View.{plain_module, plain_parameter};
ghost use Rattle.rr_grammar.specs.Formats.{repeated};
ghost use Rattle.rr_grammar.specs.ModuleForms.{group_ports as groups_of, heads as heads_of, name_ports as names_of, one_module as module_of, port_list as port_list_of, ports_in as ports_of};
ghost use Rattle.rr_parse.specs.Answer.{Answers};
ghost use Rattle.rr_parse.specs.Chains.{AnswersAll};
ghost use Rattle.rr_parse.specs.Trees.{plain_list_by, plain_port_list};

use crate::declarations::{heads, names};
use crate::items::items;
use crate::ports::{begins_port, ports};
use crate::tokens::{mark, name, word};
use bumpalo::collections::into_bump_slice;
use rr_parse_expr::{Input, ParseFault, Piece, add, is_mark};
use rr_syntax::{Group, Keyword, Mark, Module, Named, Params};

/// The depth of an expression in the brackets of a module: the module is one level, and the node
/// that holds the expression is another.
pub(crate) const HEAD_DEPTH: u32 = 498;

/// The depth of an expression or a statement in an item, which is one level more.
pub(crate) const ITEM_DEPTH: u32 = 497;

/// What stands in the port brackets of a module: plain names, or port declarations.
#[derive(Clone, Copy)]
struct PortList<'a> {
    header: Option<&'a [Named<'a>]>,
    groups: &'a [Group<'a>],
}

/// The parameters of a module, where `#` stands (section 12.2).
fn module_parameters<'a>(input: Input<'a>, from: u32) -> Result<Piece<&'a [Params<'a>]>, ParseFault>
    requires short { length input.tokens.now < 2 ^ 32 }
    requires inside { from ≤ length input.tokens.now }
    ensures { Answers (heads_of 498) (plain_list_by plain_parameter) input.entry.tokens.now from result }
{
    if !is_mark(input.tokens, from, Mark::HASH) {
        return Ok(Piece {
            value: into_bump_slice(Vec::new(input.arena)),
            next: from,
        });
    }
    let inside = mark(input.tokens, from + 1, Mark::OPEN_PARENTHESIS)?;
    let found = heads(input, inside, HEAD_DEPTH)?;
    let next = mark(input.tokens, found.next, Mark::CLOSE_PARENTHESIS)?;
    Ok(Piece {
        value: found.value,
        next,
    })
}

/// Port declarations, and the closing bracket.
fn declared_ports<'a>(input: Input<'a>, from: u32) -> Result<Piece<PortList<'a>>, ParseFault>
    requires short { length input.tokens.now < 2 ^ 32 }
    ensures { Answers (groups_of 498) plain_port_list input.entry.tokens.now from result }
{
    let groups = ports(input, from, HEAD_DEPTH)?;
    let next = mark(input.tokens, groups.next, Mark::CLOSE_PARENTHESIS)?;
    Ok(Piece {
        value: PortList {
            header: Some(into_bump_slice(Vec::new(input.arena))),
            groups: groups.value,
        },
        next,
    })
}

/// Plain names of ports, and the closing bracket.
fn named_ports<'a>(input: Input<'a>, from: u32) -> Result<Piece<PortList<'a>>, ParseFault>
    requires short { length input.tokens.now < 2 ^ 32 }
    ensures { Answers names_of plain_port_list input.entry.tokens.now from result }
{
    let names = names(input, from)?;
    let next = mark(input.tokens, names.next, Mark::CLOSE_PARENTHESIS)?;
    Ok(Piece {
        value: PortList {
            header: Some(names.value),
            groups: into_bump_slice(Vec::new(input.arena)),
        },
        next,
    })
}

/// What stands behind the opening bracket of the ports.
fn bracketed_ports<'a>(input: Input<'a>, from: u32) -> Result<Piece<PortList<'a>>, ParseFault>
    requires short { length input.tokens.now < 2 ^ 32 }
    ensures { Answers (ports_of 498) plain_port_list input.entry.tokens.now from result }
{
    if is_mark(input.tokens, from, Mark::CLOSE_PARENTHESIS) {
        Ok(Piece {
            value: PortList {
                header: Some(into_bump_slice(Vec::new(input.arena))),
                groups: into_bump_slice(Vec::new(input.arena)),
            },
            next: from + 1,
        })
    } else if begins_port(input.tokens, from) {
        declared_ports(input, from)
    } else {
        named_ports(input, from)
    }
}

/// The port brackets of a module, where they stand (section 12.3).
fn port_list<'a>(input: Input<'a>, from: u32) -> Result<Piece<PortList<'a>>, ParseFault>
    requires short { length input.tokens.now < 2 ^ 32 }
    requires inside { from ≤ length input.tokens.now }
    ensures { Answers (port_list_of 498) plain_port_list input.entry.tokens.now from result }
{
    if is_mark(input.tokens, from, Mark::OPEN_PARENTHESIS) {
        bracketed_ports(input, from + 1)
    } else {
        Ok(Piece {
            value: PortList {
                header: None,
                groups: into_bump_slice(Vec::new(input.arena)),
            },
            next: from,
        })
    }
}

/// A module.
fn module<'a>(input: Input<'a>, from: u32) -> Result<Piece<Module<'a>>, ParseFault>
    requires short { length input.tokens.now < 2 ^ 32 }
    ensures { Answers (module_of 498 497) plain_module input.entry.tokens.now from result }
{
    let module = word(input.tokens, from, Keyword::MODULE)?;
    let name = name(input.tokens, module)?;
    let params = module_parameters(input, name.next)?;
    let ports = port_list(input, params.next)?;
    let semicolon = mark(input.tokens, ports.next, Mark::SEMICOLON)?;
    let items = items(input, semicolon, ITEM_DEPTH)?;
    let next = word(input.tokens, items.next, Keyword::ENDMODULE)?;
    Ok(Piece {
        value: Module {
            name: name.value.name,
            token: name.value.token,
            params: params.value,
            header: ports.value.header,
            groups: ports.value.groups,
            items: items.value,
        },
        next,
    })
}

/// Modules, as long as one follows. A loop of its own, since a function that is handed in as elsewhere would make the check of the
/// largest of the parts too long.
fn each_module<'a>(input: Input<'a>) -> Result<Piece<&'a [Module<'a>]>, ParseFault>
    requires short { length input.tokens.now < 2 ^ 32 }
    ensures { AnswersAll (λ at o. Answers (module_of 498 497) plain_module input.entry.tokens.now at o) input.entry.tokens.now 0 result }
{
    let mut list = Vec::new(input.arena);
    let mut next = 0;
    loop {
        match module(input, next) {
            Ok(more) => {
                add(&mut list, more.value)?;
                next = more.next;
            }
            Err(ParseFault::Memory) => return Err(ParseFault::Memory),
            Err(_) => break,
        }
    }
    Ok(Piece {
        value: into_bump_slice(list),
        next,
    })
}

/// Modules, with nothing between.
pub(crate) fn modules<'a>(input: Input<'a>) -> Result<Piece<&'a [Module<'a>]>, ParseFault>
    requires short { length input.tokens.now < 2 ^ 32 }
    ensures { Answers (repeated (module_of 498 497)) (plain_list_by plain_module) input.entry.tokens.now 0 result }
{
    each_module(input)
}
