//! The walk from the top (IEEE 1364-2005 section 12).
ghost use Rattle.std.specs.Prelude.{◌≡◌, ◌<◌, ◌≤◌, ◌++◌, ◌∷◌, [], MatchResult, IfOk, OnOk, IfSome, Some, Ok, map, length, slice_index_or};
ghost use Rattle.std.specs.List.{AllByRecursion};
ghost use Rattle.rr_syntax.specs.Items.{WellFormedConnections, FitLiteralsConnections, WellFormedInstance, FitLiteralsInstance, WellFormedItem, FitLiteralsItem};
ghost use Rattle.rr_syntax.specs.View.{plain_connections, plain_overrides, plain_instance, plain_item, plain_module};
ghost use Rattle.rr_flat.specs.Faults.{Refuses, each};
ghost use Rattle.rr_declarations.specs.View.{plain_head};
ghost use Rattle.rr_flatten.specs.Kept.{plain_walked, modules_of, HasLoops, IsReady, Keeps};
ghost use Rattle.rr_flat.specs.Sound.{AreConnected, names_at};
ghost use Rattle.rr_flatten.specs.Walk.{no_module, opened, begin as begin_in, with_instance, instance_of, item as item_in, enter as enter_in};

use crate::instances::{checked, joined};
use crate::items::{Walked, always, assigns, initial, loops_of, names_of, nets};
use crate::tables::place_of;
use bumpalo::Bump;
use rr_declarations::{Head, open_head};
use rr_expr::Scope;
use rr_flat::{FlatFault, Limit};
use rr_loop_rules::{LoopNames, loop_names};
use rr_syntax::{Conns, Instance, Item, Module};
use std::alloc::{AllocError, Global};

/// What stays the same over a walk: the modules, their places by name, and the arena of statements
/// whose loops are unfolded.
#[derive(Drop)]
pub(crate) struct Walk<'a> {
    pub(crate) alloc: Global,
    pub(crate) arena: &'a Bump,
    pub(crate) modules: &'a [Module<'a>],
    pub(crate) table: Scope<'a>,
}

pub(crate) fn module_at<'a>(walk: &Walk<'a>, owner: u32) -> &'a Module<'a>
    requires { owner < length walk.now.modules.now }
    ensures { plain_module result.now ≡ slice_index_or (modules_of walk.now) owner no_module }
{
    &walk.modules[owner as usize]
}

/// The head of one more instance, and the names of the loops of its module.
fn open<'a>(
    walked: &mut Walked<'a>,
    owner: u32,
    head: Head<'a>,
    names: LoopNames<'a>,
) -> Result<(), AllocError>
    requires instance { head.instance ≡ length walked.old.flat.scopes }
    requires base { head.base ≡ length walked.old.flat.signals }
    requires few { length walked.old.flat.scopes < 256 }
    requires loops { HasLoops walked.old }
    ensures value { OnOk result (plain_walked walked.new ≡ opened owner (plain_head head.entry) names.entry (plain_walked walked.old)) }
    ensures kept { OnOk result (Keeps (length walked.old.flat.scopes) walked.old walked.new) }
    ensures more { OnOk result (length walked.old.flat.scopes < length walked.new.flat.scopes) }
{
    let bits = head.bits;
    let Head { signals, scope, .. } = head;
    walked.flat.open(owner, signals.as_slice(), scope)?;
    walked.loops.push(names)?;
    walked.bits = bits;
    Ok(())
}

/// The number of instances.
fn instances_of(walked: &Walked) -> usize
    ensures { result ≡ length walked.now.flat.scopes }
{
    walked.flat.scopes.len()
}

/// One more instance: its head, and its number.
#[tactic(auto, unfolding(crate::specs::Walk::begin))]
fn begin<'a>(
    walk: &Walk<'a>,
    walked: &mut Walked<'a>,
    owner: u32,
    given: &Scope,
) -> Result<u32, FlatFault>
    requires owner { owner < length walk.now.modules.now }
    requires few { walked.old.bits ≤ 65536 }
    requires loops { HasLoops walked.old }
    ensures value { MatchResult result
        (λ _. begin_in (modules_of walk.now) owner given.now (plain_walked walked.old) ≡ Ok (plain_walked walked.new))
        (Refuses (begin_in (modules_of walk.now) owner given.now (plain_walked walked.old))) }
    ensures number { IfOk result (λ i. i ≡ length walked.old.flat.scopes) }
    ensures kept { OnOk result (Keeps (length walked.old.flat.scopes) walked.old walked.new) }
    ensures more { OnOk result (length walked.old.flat.scopes < length walked.new.flat.scopes) }
{
    let number = instances_of(walked);
    if number >= 256 {
        return Err(FlatFault::TooMany(Limit::Instances, 257));
    }
    let base = walked.flat.signals.len();
    let own = module_at(walk, owner);
    let head = open_head(
        walk.alloc,
        number as u32,
        base as u32,
        walked.bits,
        given,
        own,
    )?;
    let names = loop_names(walk.alloc, own)?;
    open(walked, owner, head, names)?;
    Ok(number as u32)
}

fn with_one(alloc: Global, above: &[u32], owner: u32) -> Result<Vec<u32>, AllocError>
    ensures { IfOk result (λ v. v.items ≡ above.now ++ owner ∷ []) }
{
    let mut inside = Vec::new(alloc);
    inside.extend_from_slice(above)?;
    inside.push(owner)?;
    Ok(inside)
}

/// One more instance with the items of its module, with so many levels left.
#[cycle(walk)]
pub(crate) fn enter<'a>(
    walk: &Walk<'a>,
    walked: &mut Walked<'a>,
    above: &[u32],
    owner: u32,
    given: &Scope,
    levels: u32,
) -> Result<(), FlatFault>
    requires ready { IsReady walk.now }
    requires owner { owner < length walk.now.modules.now }
    requires few { walked.old.bits ≤ 65536 }
    requires loops { HasLoops walked.old }
    ensures value { MatchResult result
        (λ _. enter_in (modules_of walk.now) walk.now.table levels above.now owner given.now (plain_walked walked.old) ≡ Ok (plain_walked walked.new))
        (Refuses (enter_in (modules_of walk.now) walk.now.table levels above.now owner given.now (plain_walked walked.old))) }
    ensures kept { OnOk result (Keeps (length walked.old.flat.scopes) walked.old walked.new) }
    ensures more { OnOk result (length walked.old.flat.scopes < length walked.new.flat.scopes) }
{
    if levels == 0 {
        return Err(FlatFault::TooMany(Limit::Depth, 17));
    }
    let number = begin(walk, walked, owner, given)?;
    let inside = with_one(walk.alloc, above, owner)?;
    let own = module_at(walk, owner);
    items(
        walk,
        walked,
        inside.as_slice(),
        number,
        own.items,
        levels - 1,
    )
}

/// The items of a module, in instance `number`.
#[cycle(walk)]
fn items<'a>(
    walk: &Walk<'a>,
    walked: &mut Walked<'a>,
    above: &[u32],
    number: u32,
    list: &[Item<'a>],
    levels: u32,
) -> Result<(), FlatFault>
    requires ready { IsReady walk.now }
    requires formed { AllByRecursion WellFormedItem (map plain_item list.now) }
    requires fit { AllByRecursion FitLiteralsItem (map plain_item list.now) }
    requires there { number < length walked.old.flat.scopes }
    requires few { walked.old.bits ≤ 65536 }
    requires loops { HasLoops walked.old }
    ensures value { MatchResult result
        (λ _. each (item_in (modules_of walk.now) walk.now.table above.now number (enter_in (modules_of walk.now) walk.now.table levels above.now)) (map plain_item list.now) (plain_walked walked.old) ≡ Ok (plain_walked walked.new))
        (Refuses (each (item_in (modules_of walk.now) walk.now.table above.now number (enter_in (modules_of walk.now) walk.now.table levels above.now)) (map plain_item list.now) (plain_walked walked.old))) }
    ensures kept { OnOk result (Keeps number walked.old walked.new) }
{
    for one in list.iter() {
        item(walk, walked, above, number, one, levels)?;
    }
    Ok(())
}

/// An item of a module.
#[tactic(auto, using(crate::proofs::Walks::items), unfolding(rr_syntax::specs::View::plain_item))]
#[cycle(walk)]
fn item<'a>(
    walk: &Walk<'a>,
    walked: &mut Walked<'a>,
    above: &[u32],
    number: u32,
    one: &Item<'a>,
    levels: u32,
) -> Result<(), FlatFault>
    requires ready { IsReady walk.now }
    requires formed { WellFormedItem (plain_item one.now) }
    requires fit { FitLiteralsItem (plain_item one.now) }
    requires there { number < length walked.old.flat.scopes }
    requires few { walked.old.bits ≤ 65536 }
    requires loops { HasLoops walked.old }
    ensures value { MatchResult result
        (λ _. item_in (modules_of walk.now) walk.now.table above.now number (enter_in (modules_of walk.now) walk.now.table levels above.now) (plain_item one.now) (plain_walked walked.old) ≡ Ok (plain_walked walked.new))
        (Refuses (item_in (modules_of walk.now) walk.now.table above.now number (enter_in (modules_of walk.now) walk.now.table levels above.now) (plain_item one.now) (plain_walked walked.old))) }
    ensures kept { OnOk result (Keeps number walked.old walked.new) }
{
    match one {
        Item::Nets { names, .. } => nets(walked, number, names),
        Item::Assigns { pairs } => assigns(walked, number, pairs),
        Item::Always {
            events,
            body,
            token,
        } => always(
            walk.alloc, walk.arena, walked, number, events, *body, *token,
        ),
        Item::Initial { body, token } => {
            initial(walk.alloc, walk.arena, walked, number, *body, *token)
        }
        Item::Instances {
            module,
            token,
            overrides,
            list,
        } => {
            let owner = place_of(&walk.table, module);
            instances(
                walk, walked, above, number, *token, overrides, owner, list, levels,
            )
        }
        Item::Ports(_) | Item::Variables { .. } | Item::Integers { .. } | Item::Parameters(_) => Ok(
            (),
        ),
    }
}

/// Instances of the module with that number, which is named at that token.
#[cycle(walk)]
fn instances<'a>(
    walk: &Walk<'a>,
    walked: &mut Walked<'a>,
    above: &[u32],
    number: u32,
    token: u32,
    over: &Option<Conns<'a>>,
    owner: Option<u32>,
    list: &[Instance<'a>],
    levels: u32,
) -> Result<(), FlatFault>
    requires ready { IsReady walk.now }
    requires owner { IfSome owner (λ k. k < length walk.now.modules.now) }
    requires formed { AllByRecursion WellFormedInstance (map plain_instance list.now) }
    requires fit { AllByRecursion FitLiteralsInstance (map plain_instance list.now) }
    requires there { number < length walked.old.flat.scopes }
    requires few { walked.old.bits ≤ 65536 }
    requires loops { HasLoops walked.old }
    ensures value { MatchResult result
        (λ _. each (instance_of (modules_of walk.now) above.now number (enter_in (modules_of walk.now) walk.now.table levels above.now) token (plain_overrides over.now) owner) (map plain_instance list.now) (plain_walked walked.old) ≡ Ok (plain_walked walked.new))
        (Refuses (each (instance_of (modules_of walk.now) above.now number (enter_in (modules_of walk.now) walk.now.table levels above.now) token (plain_overrides over.now) owner) (map plain_instance list.now) (plain_walked walked.old))) }
    ensures kept { OnOk result (Keeps number walked.old walked.new) }
{
    for one in list.iter() {
        instance(walk, walked, above, number, token, over, owner, one, levels)?;
    }
    Ok(())
}

#[cycle(walk)]
fn instance<'a>(
    walk: &Walk<'a>,
    walked: &mut Walked<'a>,
    above: &[u32],
    number: u32,
    token: u32,
    over: &Option<Conns<'a>>,
    owner: Option<u32>,
    one: &Instance<'a>,
    levels: u32,
) -> Result<(), FlatFault>
    requires ready { IsReady walk.now }
    requires owner { IfSome owner (λ k. k < length walk.now.modules.now) }
    requires formed { WellFormedInstance (plain_instance one.now) }
    requires fit { FitLiteralsInstance (plain_instance one.now) }
    requires there { number < length walked.old.flat.scopes }
    requires few { walked.old.bits ≤ 65536 }
    requires loops { HasLoops walked.old }
    ensures value { MatchResult result
        (λ _. instance_of (modules_of walk.now) above.now number (enter_in (modules_of walk.now) walk.now.table levels above.now) token (plain_overrides over.now) owner (plain_instance one.now) (plain_walked walked.old) ≡ Ok (plain_walked walked.new))
        (Refuses (instance_of (modules_of walk.now) above.now number (enter_in (modules_of walk.now) walk.now.table levels above.now) token (plain_overrides over.now) owner (plain_instance one.now) (plain_walked walked.old))) }
    ensures kept { OnOk result (Keeps number walked.old walked.new) }
{
    match owner {
        None => Err(FlatFault::UnknownModule(token)),
        Some(owner) => inside(walk, walked, above, number, token, over, owner, one, levels),
    }
}

/// An instance of a module of the source.
#[tactic(auto, unfolding(rr_syntax::specs::Items::WellFormedInstance, rr_syntax::specs::Items::FitLiteralsInstance, rr_syntax::specs::View::plain_instance))]
#[cycle(walk)]
fn inside<'a>(
    walk: &Walk<'a>,
    walked: &mut Walked<'a>,
    above: &[u32],
    number: u32,
    token: u32,
    over: &Option<Conns<'a>>,
    owner: u32,
    one: &Instance<'a>,
    levels: u32,
) -> Result<(), FlatFault>
    requires ready { IsReady walk.now }
    requires owner { owner < length walk.now.modules.now }
    requires formed { WellFormedInstance (plain_instance one.now) }
    requires fit { FitLiteralsInstance (plain_instance one.now) }
    requires there { number < length walked.old.flat.scopes }
    requires few { walked.old.bits ≤ 65536 }
    requires loops { HasLoops walked.old }
    ensures value { MatchResult result
        (λ _. instance_of (modules_of walk.now) above.now number (enter_in (modules_of walk.now) walk.now.table levels above.now) token (plain_overrides over.now) (Some owner) (plain_instance one.now) (plain_walked walked.old) ≡ Ok (plain_walked walked.new))
        (Refuses (instance_of (modules_of walk.now) above.now number (enter_in (modules_of walk.now) walk.now.table levels above.now) token (plain_overrides over.now) (Some owner) (plain_instance one.now) (plain_walked walked.old))) }
    ensures kept { OnOk result (Keeps number walked.old walked.new) }
{
    let own = module_at(walk, owner);
    let given = checked(
        walk.alloc,
        loops_of(walked, number),
        above,
        names_of(walked, number),
        own,
        owner,
        token,
        over,
        one,
    )?;
    let inner = name_instance(walked, number, one)?;
    enter(walk, walked, above, owner, &given, levels)?;
    joined(walk.alloc, walked, number, inner, own, &one.conns)?;
    Ok(())
}

/// The name of an instance in its scope, and the number of the instance that comes next.
fn name_instance<'a>(
    walked: &mut Walked<'a>,
    number: u32,
    one: &Instance<'a>,
) -> Result<u32, AllocError>
    requires there { number < length walked.old.flat.scopes }
    requires few { walked.old.bits ≤ 65536 }
    requires loops { HasLoops walked.old }
    requires connected { AreConnected (names_at walked.old.flat.scopes number) (plain_connections one.now.conns) }
    ensures value { OnOk result (plain_walked walked.new ≡ with_instance number one.now.name.now (plain_walked walked.old)) }
    ensures number { IfOk result (λ k. k ≡ length walked.old.flat.scopes) }
    ensures connected { OnOk result (AreConnected (names_at walked.new.flat.scopes number) (plain_connections one.now.conns)) }
    ensures kept { OnOk result (Keeps number walked.old walked.new) }
    ensures same { OnOk result (length walked.new.flat.scopes ≡ length walked.old.flat.scopes) }
{
    walked.flat.name_instance(number, one.name)?;
    Ok(walked.flat.scopes.len() as u32)
}
