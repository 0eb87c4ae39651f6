//! The names of which combinational blocks keep a bit.
ghost use Rattle.std.specs.Prelude.{◌≡◌, ◌||◌, ℕ, List, [], map, nat_eq, IfErr, IfOk, MatchResult, OnOk};
ghost use Rattle.std.specs.List.{list_any};
ghost use Rattle.indexmap.specs.IndexMap.{get};
ghost use Rattle.rr_syntax.specs.View.{plain_statement};
ghost use Rattle.rr_flat.specs.Shapes.{statement_faults};
ghost use Rattle.rr_flat.specs.View.{plain_flat};
ghost use Rattle.rr_text_names.specs.View.{plain_target};
ghost use Rattle.rr_latch.specs.Rooms.{IsBlank};
ghost use Rattle.rr_lint_laws.specs.Mended.{MarkLatched, NoWordLatches};
ghost use Rattle.rr_lint_names.specs.Faults.{IsBlockFault, IsLintFault};
ghost use Rattle.rr_lint_names.specs.Latched.{is_noted, marks, HasNoKeptWord, NotesKept};

use crate::fault::LintFault;
use crate::lows::{is_low, lowest};
use crate::noted::Noted;
use crate::words::kept_word;
use indexmap::IndexMap;
use rr_expr::Scope;
use rr_flat::{Block, Flat};
use rr_latch::{Room, latched_bits};
use rr_text_names::{Target, add_assigned_targets, identifier_of};
use std::alloc::{AllocError, Global};

/// Notes the name of a target, where a bit of its signal is kept.
fn note_target<'a>(
    noted: &mut Noted<'a>,
    token: u32,
    target: &Target<'a>,
    names: &Scope,
    lows: &IndexMap<u32, u32>,
) -> Result<(), AllocError>
    ensures { OnOk result ((t : ℕ) (name : List ℕ) → marks noted.new t name ≡ (marks noted.old t name || is_noted names.now (get nat_eq lows.now) token t name (plain_target target.now))) }
{
    let named = identifier_of(target.part);
    if is_low(lows, &names.meaning(named.name)) {
        noted.add(token, named.name)?;
    }
    Ok(())
}

/// Notes the names of targets, where a bit of their signals is kept.
fn note_targets<'a>(
    noted: &mut Noted<'a>,
    token: u32,
    targets: &[Target<'a>],
    names: &Scope,
    lows: &IndexMap<u32, u32>,
) -> Result<(), AllocError>
    ensures { OnOk result ((t : ℕ) (name : List ℕ) → marks noted.new t name ≡ (marks noted.old t name || list_any (is_noted names.now (get nat_eq lows.now) token t name) (map plain_target targets.now))) }
{
    for target in targets.iter() {
        note_target(noted, token, target, names, lows)?;
    }
    Ok(())
}

/// Notes the names that a block assigns and of which it keeps a bit, where it assigns by `=` alone; a bit of
/// a memory is a fault.
fn note_block<'a>(
    alloc: Global,
    noted: &mut Noted<'a>,
    block: &Block<'a>,
    names: &Scope,
    room: &mut Room,
) -> Result<(), LintFault>
    requires shaped { statement_faults names.now (plain_statement block.now.body.now) ≡ [] }
    requires blank { IsBlank room.old }
    ensures noted { OnOk result (NotesKept names.now (plain_statement block.now.body.now) block.now.token (marks noted.old) (marks noted.new)) }
    ensures words { IfOk result (λ _. HasNoKeptWord names.now (plain_statement block.now.body.now)) }
    ensures fault { IfErr result (IsBlockFault names.now (plain_statement block.now.body.now) block.now.token) }
    ensures blank { OnOk result (IsBlank room.new) }
{
    let bits = latched_bits(alloc, block.body, names, room)?;
    if bits.is_empty() {
        return Ok(());
    }
    let lows = lowest(alloc, bits.as_slice())?;
    let mut targets = Vec::new(alloc);
    add_assigned_targets(&mut targets, block.body)?;
    let list = targets.as_slice();
    if let Some(bit) = kept_word(list, names, &lows)? {
        return Err(LintFault::Latch {
            bit,
            block: block.token,
        });
    }
    note_targets(noted, block.token, list, names, &lows)?;
    Ok(())
}

/// The names of which the combinational blocks of a flat design keep a bit, where they assign by `=`
/// alone, with the tokens of the blocks (IEEE 1364-2005 sections 9.2.1 and 9.9.2). A block is asked once
/// in each instance, and looked up once for each of its targets. None of the names is that of a memory: the
/// error is the first block that keeps a bit of one (section 4.9.3), or want of memory.
pub fn latched<'a>(alloc: Global, flat: &Flat<'a>) -> Result<Noted<'a>, LintFault>
    ensures { MatchResult result (λ noted. MarkLatched (plain_flat flat.now) (marks noted) × NoWordLatches (plain_flat flat.now)) (IsLintFault (plain_flat flat.now)) }
{
    let mut noted = Noted::new(alloc);
    let mut room = Room::new(alloc);
    for block in flat.combinational_blocks().iter() {
        let names = flat.scope_at(block.scope);
        note_block(alloc, &mut noted, block, names, &mut room)?;
    }
    Ok(noted)
}
