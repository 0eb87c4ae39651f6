//! The names that the guards of a module may be.

ghost use Rattle.std.specs.Prelude.{◌≡◌, ◌++◌, ◌∷◌, [], ℕ, IfOk, OnOk, List, filter, if◌then◌else◌, map, nat_lt, true};
ghost use Rattle.std.specs.List.{list_any};
ghost use Rattle.std.specs.Str.{bytes_eq};
ghost use Rattle.rr_syntax.specs.Tree.{ModuleDeclaration};
ghost use Rattle.rr_syntax.specs.View.{plain_identifier, plain_module, texts};
ghost use Rattle.rr_flat.specs.Signals.{Text};
ghost use Rattle.rr_guard.specs.Candidates.{AreGuardNames, AreUses, Rising, chosen as chosen_of, may_be};
ghost use Rattle.rr_guard.specs.Names.{first_names, names_at};

use crate::anywhere::anywhere_at_edges;
use crate::assigned::{assigned_at_edges, written_later, written_now};
use crate::declared::{first_declarations, scalars};
use crate::texts::TextSet;
use bumpalo::Bump;
use rr_syntax::{Module, ModulePlace, Named};
use std::alloc::{AllocError, Global};

/// The names of a module that are its clock in some instance, those that its clocked blocks write by
/// `=`, and those that they write by `<=` outside their loops.
#[derive(Drop)]
pub(crate) struct Uses<'a> {
    pub(crate) clocks: TextSet<'a>,
    pub(crate) at_once: TextSet<'a>,
    pub(crate) later: TextSet<'a>,
}

/// The names that a guard may be in a clocked block of a module, and elsewhere, in the order of their
/// declarations. Where the numbers of these rise, as the parser gives them, the first 64 are enough.
#[derive(Drop)]
pub struct GuardNames<'a> {
    pub clocked: Vec<Named<'a>>,
    pub elsewhere: Vec<Named<'a>>,
}

impl<'a> GuardNames<'a> {
    /// Those of an item.
    pub fn of_item(&self, clocked: bool) -> &[Named<'a>]
        ensures { (m : ModuleDeclaration) (clocks : List Text) → AreGuardNames m clocks self.now → (token : ℕ) → first_names (map plain_identifier result.now) token ≡ names_at m clocks clocked token }
    {
        if clocked {
            self.clocked.as_slice()
        } else {
            self.elsewhere.as_slice()
        }
    }
}

/// The texts of a slice as a set.
fn set_of<'a>(alloc: Global, list: &[&'a str]) -> Result<TextSet<'a>, AllocError>
    ensures { IfOk result (λ set. (name : Text) → list_any (bytes_eq name) set ≡ list_any (bytes_eq name) (texts list.now)) }
{
    let mut set = TextSet::new(alloc);
    for text in list.iter() {
        set.add(text)?;
    }
    Ok(set)
}

/// The uses of a module's names.
fn uses_of<'a>(
    alloc: Global,
    module: &Module<'a>,
    place: &ModulePlace<'a>,
) -> Result<Uses<'a>, AllocError>
    ensures { IfOk result (λ u. AreUses (plain_module «module».now) (texts place.now.clocks.now) u) }
{
    // What a loop writes by `=` is read at once as elsewhere, so its name is no guard; but a loop may
    // have no turn, so what it writes by `<=` makes no name a guard.
    let targets = anywhere_at_edges(alloc, module)?;
    let outside_loops = assigned_at_edges(alloc, module)?;
    let clocks = set_of(alloc, place.clocks)?;
    let at_once = written_now(alloc, targets.as_slice())?;
    let later = written_later(alloc, outside_loops.as_slice())?;
    Ok(Uses {
        clocks,
        at_once,
        later,
    })
}

/// Whether a guard may be a name: one that is no clock, that no clocked block writes by `=`, and that,
/// outside of clocked blocks, one writes by `<=` in no loop.
fn may_guard(uses: &Uses, name: &str, clocked: bool) -> bool
    ensures { result ≡ may_be uses.now clocked name.now }
{
    !uses.clocks.has(name) && !uses.at_once.has(name) && (clocked || uses.later.has(name))
}

#[tactic(auto, unfolding(rr_syntax::specs::View::plain_identifier))]
fn add_chosen<'a>(
    list: &mut Vec<Named<'a>>,
    uses: &Uses<'a>,
    name: &Named<'a>,
    clocked: bool,
) -> Result<(), AllocError>
    ensures { OnOk result (map plain_identifier list.new.items ≡ map plain_identifier list.old.items ++ chosen_of uses.now clocked (plain_identifier name.now)) }
{
    if may_guard(uses, name.name, clocked) {
        list.push(*name)?;
    }
    Ok(())
}

/// Those of some names that a guard may be.
fn chosen<'a>(
    alloc: Global,
    names: &[Named<'a>],
    uses: &Uses<'a>,
    clocked: bool,
) -> Result<Vec<Named<'a>>, AllocError>
    ensures { IfOk result (λ r. map plain_identifier r.items ≡ filter (λ x. may_be uses.now clocked x.text) (map plain_identifier names.now)) }
{
    let mut list = Vec::new(alloc);
    for name in names.iter() {
        add_chosen(&mut list, uses, name, clocked)?;
    }
    Ok(list)
}

/// Whether no name is declared before the one that it follows.
fn is_rising(names: &[Named]) -> bool
    ensures { result ≡ true → Rising 0 (map plain_identifier names.now) }
{
    let mut last: u32 = 0;
    for name in names.iter() {
        let token = name.token;
        if token < last {
            return false;
        }
        last = token;
    }
    true
}

/// Drops names that are no guard anywhere, since 64 others always come first.
fn shorten(names: &mut Vec<Named>)
    ensures { (token : ℕ) → first_names (map plain_identifier names.new.items) token ≡ first_names (map plain_identifier names.old.items) token }
{
    if is_rising(names.as_slice()) {
        names.truncate(64);
    }
}

/// The names that the guards of a module may be.
pub fn guard_names<'a>(
    alloc: Global,
    module: &Module<'a>,
    place: &ModulePlace<'a>,
) -> Result<GuardNames<'a>, AllocError>
    ensures { IfOk result (λ r. AreGuardNames (plain_module «module».now) (texts place.now.clocks.now) r) }
{
    let declared = scalars(alloc, module)?;
    let names = first_declarations(alloc, declared.as_slice())?;
    let uses = uses_of(alloc, module, place)?;
    let mut clocked = chosen(alloc, names.as_slice(), &uses, true)?;
    shorten(&mut clocked);
    let mut elsewhere = chosen(alloc, names.as_slice(), &uses, false)?;
    shorten(&mut elsewhere);
    Ok(GuardNames { clocked, elsewhere })
}

/// The name, where it is declared before a token.
#[tactic(auto, unfolding(rr_syntax::specs::View::plain_identifier))]
fn add_before<'a>(list: &mut Vec<&'a str>, name: &Named<'a>, token: u32) -> Result<(), AllocError>
    ensures { OnOk result (texts list.new.items ≡ texts list.old.items ++ (if nat_lt (plain_identifier name.now).token token then (plain_identifier name.now).text ∷ [] else [])) }
{
    if name.token < token {
        list.push(name.name)?;
    }
    Ok(())
}

/// The first 64 of some names that are declared before a token.
fn first_before<'a>(
    alloc: Global,
    names: &[Named<'a>],
    token: u32,
) -> Result<Vec<&'a str>, AllocError>
    ensures { IfOk result (λ r. texts r.items ≡ first_names (map plain_identifier names.now) token) }
{
    let mut list = Vec::new(alloc);
    for name in names.iter() {
        if list.as_slice().len() == 64 {
            return Ok(list);
        }
        add_before(&mut list, name, token)?;
    }
    Ok(list)
}

/// The same in the arena.
pub fn names_before<'a>(
    alloc: Global,
    names: &[Named<'a>],
    token: u32,
    arena: &'a Bump,
) -> Result<&'a [&'a str], AllocError>
    ensures { IfOk result (λ r. texts r.now ≡ first_names (map plain_identifier names.now) token) }
{
    let list = first_before(alloc, names, token)?;
    Ok(arena.try_alloc_slice_copy(list.as_slice())?)
}
