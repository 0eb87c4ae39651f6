//! The tree of a source in which two faults of its combinational blocks are mended.
ghost use Rattle.std.specs.Prelude.{◌≡◌, ℕ, List, Option, Some, Ok, map, nat_eq, if◌then◌else◌, IfOk, MatchResult};
ghost use Rattle.std.specs.List.{list_any};
ghost use Rattle.indexmap.specs.IndexSet.{contains};
ghost use Rattle.rr_syntax.specs.View.{plain_item, plain_module, plain_source, plain_statement, texts};
ghost use Rattle.rr_flat.specs.Signals.{Text};
ghost use Rattle.rr_flat.specs.View.{plain_flat};
ghost use Rattle.rr_flatten.specs.Walk.{flat_by};
ghost use Rattle.rr_body_laws.specs.Bodies.{item_with, module_with, modules_with, source_with};
ghost use Rattle.rr_lint_laws.specs.Mended.{cleared as cleared_of, mended_body, with_defaults as with_defaults_of, IsLint};
ghost use Rattle.rr_lint_names.specs.Faults.{IsLintFault};
ghost use Rattle.rr_lint_names.specs.Latched.{marks};

use crate::statement::{add_statement, block, immediate};
use bumpalo::Bump;
use bumpalo::collections::into_bump_slice;
use indexmap::IndexSet;
use rr_flat::Flat;
use rr_lint_names::{LintFault, Noted, cleared_names, has_edges, has_number, latched, number_set};
use rr_syntax::{Expr, Item, Module, Number, Source, Stmt};
use std::alloc::{AllocError, Global};

/// The token number of a leaf that no source has.
const FRESH: u32 = u32::MAX;

/// `v = 0;`, with a plain decimal (IEEE 1364-2005 section 3.5.1).
#[tactic(auto, unfolding(rr_syntax::specs::View::plain_statement, rr_syntax::specs::View::plain, rr_lex::specs::Numbers::plain_literal))]
fn cleared<'a>(name: &'a str, arena: &'a Bump) -> Result<Stmt<'a>, AllocError>
    ensures { IfOk result (λ r. plain_statement r ≡ cleared_of name.now) }
{
    let target = arena.try_alloc(Expr::Name { token: FRESH, name })?;
    let value = arena.try_alloc(Expr::Literal {
        token: FRESH,
        number: Number {
            width: 32,
            signed: true,
            value: 0,
            any: 0,
            unknown: 0,
        },
    })?;
    Ok(Stmt::Assign {
        target,
        now: true,
        value,
    })
}

/// `begin v = 0; .. S end` for a body S and some names; the body itself where there are none.
fn with_defaults<'a>(
    names: &[&'a str],
    body: Stmt<'a>,
    arena: &'a Bump,
) -> Result<Stmt<'a>, AllocError>
    ensures { IfOk result (λ r. plain_statement r ≡ with_defaults_of (texts names.now) (plain_statement body.entry)) }
{
    if names.len() == 0 {
        return Ok(body);
    }
    let mut list = Vec::new(arena);
    for name in names.iter() {
        let new = cleared(*name, arena)?;
        add_statement(&mut list, new)?;
    }
    add_statement(&mut list, body)?;
    Ok(block(None, into_bump_slice(list)))
}

/// The body of the `always` with a token, mended.
fn new_body<'a>(
    alloc: Global,
    noted: &Noted,
    token: u32,
    body: &'a Stmt<'a>,
    arena: &'a Bump,
) -> Result<&'a Stmt<'a>, AllocError>
    ensures { IfOk result (λ r. plain_statement r.now ≡ mended_body (marks noted.now) token (plain_statement body.now)) }
{
    let names = cleared_names(alloc, noted, token, body)?;
    let inner = immediate(body, arena)?;
    let whole = with_defaults(names.as_slice(), inner, arena)?;
    let new = arena.try_alloc(whole)?;
    Ok(new)
}

/// An item with the body of an `always` without edges mended.
fn new_item<'a>(
    alloc: Global,
    noted: &Noted,
    item: &Item<'a>,
    arena: &'a Bump,
) -> Result<Item<'a>, AllocError>
    ensures { IfOk result (λ r. plain_item r ≡ item_with (mended_body (marks noted.now)) (plain_item item.now)) }
{
    match item {
        Item::Ports(_) => Ok(*item),
        Item::Nets { .. } => Ok(*item),
        Item::Variables { .. } => Ok(*item),
        Item::Integers { .. } => Ok(*item),
        Item::Parameters(_) => Ok(*item),
        Item::Assigns { .. } => Ok(*item),
        Item::Initial { .. } => Ok(*item),
        Item::Instances { .. } => Ok(*item),
        Item::Always {
            events,
            body,
            token,
        } => {
            if has_edges(events) {
                return Ok(*item);
            }
            let new = new_body(alloc, noted, *token, body, arena)?;
            Ok(Item::Always {
                events: *events,
                body: new,
                token: *token,
            })
        }
    }
}

/// The items of a module, mended.
fn new_items<'a>(
    alloc: Global,
    noted: &Noted,
    old: &[Item<'a>],
    arena: &'a Bump,
) -> Result<&'a [Item<'a>], AllocError>
    ensures { IfOk result (λ r. map plain_item r.now ≡ map (item_with (mended_body (marks noted.now))) (map plain_item old.now)) }
{
    let mut list = Vec::new(arena);
    for one in old.iter() {
        let new = new_item(alloc, noted, one, arena)?;
        list.push(new)?;
    }
    Ok(into_bump_slice(list))
}

/// A module with a number, mended where that is among some.
fn new_module<'a>(
    alloc: Global,
    noted: &Noted,
    reached: &IndexSet<u64>,
    number: usize,
    old: &Module<'a>,
    arena: &'a Bump,
) -> Result<Module<'a>, AllocError>
    ensures { IfOk result (λ r. (numbers : List ℕ) → ((k : ℕ) → contains nat_eq reached.now k ≡ list_any (nat_eq k) numbers) → plain_module r ≡ (if list_any (nat_eq number) numbers then module_with (mended_body (marks noted.now)) (plain_module old.now) else plain_module old.now)) }
{
    if !has_number(reached, number) {
        return Ok(*old);
    }
    let items = new_items(alloc, noted, old.items, arena)?;
    Ok(Module {
        name: old.name,
        token: old.token,
        params: old.params,
        header: old.header,
        groups: old.groups,
        items,
    })
}

/// Modules, mended where their numbers are among some.
fn new_modules<'a>(
    alloc: Global,
    noted: &Noted,
    reached: &IndexSet<u64>,
    old: &[Module<'a>],
    arena: &'a Bump,
) -> Result<&'a [Module<'a>], AllocError>
    ensures { IfOk result (λ r. (numbers : List ℕ) → ((k : ℕ) → contains nat_eq reached.now k ≡ list_any (nat_eq k) numbers) → map plain_module r.now ≡ modules_with numbers (mended_body (marks noted.now)) 0 (map plain_module old.now)) }
{
    let mut list = Vec::new(arena);
    for (i, one) in old.iter().enumerate() {
        let new = new_module(alloc, noted, reached, i, one, arena)?;
        list.push(new)?;
    }
    Ok(into_bump_slice(list))
}

/// The source with the bodies of the modules with some numbers mended.
#[tactic(auto, unfolding(rr_syntax::specs::View::plain_source, rr_body_laws::specs::Bodies::source_with))]
fn new_source<'a>(
    alloc: Global,
    noted: &Noted,
    reached: &IndexSet<u64>,
    source: &Source<'a>,
    arena: &'a Bump,
) -> Result<&'a Source<'a>, AllocError>
    ensures { IfOk result (λ s. (numbers : List ℕ) → ((k : ℕ) → contains nat_eq reached.now k ≡ list_any (nat_eq k) numbers) → plain_source s.now ≡ source_with numbers (mended_body (marks noted.now)) (plain_source source.now)) }
{
    let modules = new_modules(alloc, noted, reached, source.modules, arena)?;
    Ok(arena.try_alloc(Source { modules })?)
}

/// The source with both faults mended in the modules that have instances: in each `always` without edges
/// each `<=` that assigns is `=`, and where the block would then keep a bit of a variable, its body stands
/// behind `v = 0;` for each such variable, in the order of its first targets (IEEE 1364-2005 sections
/// 9.2.1, 9.2.2 and 9.9.2). The flat design is the source's. All else is shared with the source. The error
/// is the first block that would keep a bit of a memory (section 4.9.3), or want of memory.
pub fn lint<'a>(
    alloc: Global,
    source: &'a Source<'a>,
    flat: &Flat<'a>,
    arena: &'a Bump,
) -> Result<&'a Source<'a>, LintFault>
    requires design { (top : Option Text) × (flat_by (Some 1048576) (plain_source source.now) top ≡ Ok (plain_flat flat.now)) }
    ensures mended { MatchResult result (λ s. IsLint (plain_source source.now) (plain_flat flat.now) (plain_source s.now)) (IsLintFault (plain_flat flat.now)) }
{
    let noted = latched(alloc, flat)?;
    let reached = number_set(alloc, flat.reached.as_slice())?;
    let mended = new_source(alloc, &noted, &reached, source, arena)?;
    Ok(mended)
}
