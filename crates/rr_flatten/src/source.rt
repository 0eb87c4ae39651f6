//! The flat design of a source.
ghost use Rattle.std.specs.Prelude.{◌≡◌, ◌<◌, ◌≤◌, ◌^◌, ◌++◌, ◌∷◌, [], MatchResult, IfOk, OnOk, IfSome, Ok, Some, map, length, All, true, false, if◌then◌else◌, option_map};
ghost use Rattle.rr_syntax.specs.Items.{WellFormedSource, FitLiteralsSource};
ghost use Rattle.rr_syntax.specs.View.{plain_module, plain_source};
ghost use Rattle.rr_flat.specs.Elaborated.{IsSound};
ghost use Rattle.rr_flat.specs.Faults.{Refuses};
ghost use Rattle.rr_flat.specs.View.{plain_signal};
ghost use Rattle.rr_declarations.specs.Sound.{ArePlaces};
ghost use Rattle.rr_flatten.specs.Kept.{plain_walked, modules_of, IsReady};
ghost use Rattle.rr_flat.specs.View.{plain_flat};
ghost use Rattle.rr_flatten.specs.Walk.{nothing, is_top_port, top_ports as top_ports_in, reached_from, finished, top_place as top_place_in, enter_top, flat_by};

use crate::instances::is_among;
use crate::items::Walked;
use crate::tables::{last_free, module_table, place_of};
use crate::walk::{Walk, enter, module_at};
use bumpalo::Bump;
use rr_expr::Scope;
use rr_flat::{Flat, FlatFault, Port, Signal};
use rr_syntax::{Module, Source};
use rr_unfold::Counts;
use std::alloc::{AllocError, Global};

/// Whether a signal is an input or an output of the top.
fn is_top(signal: &Signal, input: bool) -> bool
    ensures { result ≡ is_top_port input (plain_signal signal.now) }
{
    signal.instance == 0
        && match signal.port {
            Port::Inner => false,
            Port::Input => input,
            Port::Output => !input,
        }
}

/// One more number, if it is wanted.
fn push_if(numbers: &mut Vec<u32>, wanted: bool, number: u32) -> Result<(), AllocError>
    ensures { OnOk result (numbers.new.items ≡ (if wanted then numbers.old.items ++ number ∷ [] else numbers.old.items)) }
{
    if wanted {
        numbers.push(number)?;
    }
    Ok(())
}

/// The inputs or the outputs of the top, by their numbers.
fn top_ports(alloc: Global, signals: &[Signal], input: bool) -> Result<Vec<u32>, AllocError>
    requires { length signals.now ≤ 65536 }
    ensures value { IfOk result (λ v. v.items ≡ top_ports_in input 0 (map plain_signal signals.now)) }
    ensures within { IfOk result (λ v. All (λ id. id < length signals.now) v.items) }
{
    let mut ports = Vec::new(alloc);
    let mut id = 0u32;
    for signal in signals.iter() {
        push_if(&mut ports, is_top(signal, input), id)?;
        id += 1;
    }
    Ok(ports)
}

/// The modules that have instances.
fn reached(alloc: Global, owners: &[u32], modules: &[Module]) -> Result<Vec<u32>, AllocError>
    requires { length modules.now < 2 ^ 32 }
    ensures { IfOk result (λ v. v.items ≡ reached_from owners.now 0 (map plain_module modules.now)) }
{
    let mut reached = Vec::new(alloc);
    let count = modules.len() as u32;
    for place in 0..count {
        push_if(&mut reached, is_among(owners, place), place)?;
    }
    Ok(reached)
}

/// The flat design of a walk that is over.
fn finish<'a>(alloc: Global, modules: &[Module], walked: Walked<'a>) -> Result<Flat<'a>, AllocError>
    requires { length modules.now < 2 ^ 32 }
    ensures { IfOk result (λ flat. plain_flat flat ≡ finished (map plain_module modules.now) (plain_walked walked.entry).flat) }
{
    let Walked { flat, .. } = walked;
    let mut flat = flat;
    let inputs = top_ports(alloc, flat.signals.as_slice(), true)?;
    let outputs = top_ports(alloc, flat.signals.as_slice(), false)?;
    let reached = reached(alloc, flat.owners.as_slice(), modules)?;
    flat.finish(inputs, outputs, reached);
    Ok(flat)
}

/// The place of the top: the module of that name, or the last that no module instantiates.
fn top_place(
    alloc: Global,
    table: &Scope,
    modules: &[Module],
    top: Option<&str>,
) -> Result<Option<u32>, AllocError>
    requires few { length modules.now < 2 ^ 32 }
    requires places { ArePlaces (length modules.now) table.now }
    ensures value { IfOk result (λ place. place ≡ top_place_in (map plain_module modules.now) table.now (option_map (λ n. n.now) top.entry)) }
    ensures within { IfOk result (λ place. IfSome place (λ k. k < length modules.now)) }
{
    match top {
        None => last_free(alloc, modules),
        Some(name) => Ok(place_of(table, name)),
    }
}

/// The tokens that the bodies of all loops may have together in all their turns.
const UNFOLDED_TOKENS: u64 = 1048576;

/// The walk from the top with that place.
fn walk_from<'a>(walk: &Walk<'a>, owner: u32) -> Result<Walked<'a>, FlatFault>
    requires ready { IsReady walk.now }
    requires owner { owner < length walk.now.modules.now }
    ensures { MatchResult result
        (λ walked. enter_top (Some 1048576) (modules_of walk.now) walk.now.table (Some owner) ≡ Ok (plain_walked walked))
        (Refuses (enter_top (Some 1048576) (modules_of walk.now) walk.now.table (Some owner))) }
{
    let own = module_at(walk, owner);
    let mut walked = Walked {
        flat: Flat::new(walk.alloc, own.token),
        bits: 0,
        limit: Some(UNFOLDED_TOKENS),
        counts: Counts::none(),
        loops: Vec::new(walk.alloc),
    };
    let given = Scope::new(walk.alloc);
    enter(walk, &mut walked, &[], owner, &given, 16)?;
    Ok(walked)
}

/// The walk of a source from its top.
#[tactic(auto, unfolding(crate::specs::Walk::flat_by, rr_syntax::specs::View::plain_source))]
fn walked_from_top<'a>(
    alloc: Global,
    source: &Source<'a>,
    top: Option<&str>,
    arena: &'a Bump,
) -> Result<Flat<'a>, FlatFault>
    requires few { length source.now.modules.now < 2 ^ 32 }
    requires formed { WellFormedSource (plain_source source.now) }
    requires fit { FitLiteralsSource (plain_source source.now) }
    ensures { MatchResult result
        (λ flat. flat_by (Some 1048576) (plain_source source.now) (option_map (λ n. n.now) top.entry) ≡ Ok (plain_flat flat))
        (Refuses (flat_by (Some 1048576) (plain_source source.now) (option_map (λ n. n.now) top.entry))) }
{
    let table = module_table(alloc, source.modules)?;
    match top_place(alloc, &table, source.modules, top)? {
        None => Err(FlatFault::NoTop),
        Some(owner) => {
            let walk = Walk {
                alloc,
                arena,
                modules: source.modules,
                table,
            };
            let walked = walk_from(&walk, owner)?;
            let flat = finish(alloc, source.modules, walked)?;
            Ok(flat)
        }
    }
}

/// The flat design of a source (IEEE 1364-2005 section 12), or its first fault: two modules of one
/// name, then no top, then the faults of the walk in its order, and of one item or declaration the
/// fault at the earliest token, of two at one token the one with the lower number. The top is the
/// module named `top`, or the last that no module instantiates. Each loop of a statement is the block
/// of its turns (section 9.6), whose faults come before the others of its item; the bodies of loops
/// have at most 1,048,576 tokens in all their turns. Statements that were made stand in the arena.
/// `Memory` says that memory ran out.
pub fn flatten<'a>(
    alloc: Global,
    source: &Source<'a>,
    top: Option<&str>,
    arena: &'a Bump,
) -> Result<Flat<'a>, FlatFault>
    requires few { length source.now.modules.now < 2 ^ 32 }
    requires formed { WellFormedSource (plain_source source.now) }
    requires fit { FitLiteralsSource (plain_source source.now) }
    ensures answer { MatchResult result
        (λ flat. flat_by (Some 1048576) (plain_source source.now) (option_map (λ n. n.now) top.entry) ≡ Ok (plain_flat flat))
        (Refuses (flat_by (Some 1048576) (plain_source source.now) (option_map (λ n. n.now) top.entry))) }
    ensures sound { IfOk result (λ flat. IsSound (plain_flat flat)) }
{
    match walked_from_top(alloc, source, top, arena) {
        Ok(flat) => Ok(flat),
        Err(fault) => Err(fault),
    }
}
