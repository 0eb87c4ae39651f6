//! Combinational blocks that keep a bit.
ghost use Rattle.std.specs.Prelude.{◌≡◌, [], true, IfOk, IfNone, IfSome};
ghost use Rattle.rr_syntax.specs.View.{plain_statement};
ghost use Rattle.rr_expr.specs.declared.types.Bit.{Bit as BitOfSignal};
ghost use Rattle.rr_flat.specs.Latches.{NoLatch};
ghost use Rattle.rr_flat.specs.Lawful.{NoLatches};
ghost use Rattle.rr_flat.specs.View.{plain_flat};
ghost use Rattle.rr_flat.specs.Shapes.{statement_faults};
ghost use Rattle.rr_latch.specs.Notes.{is_shut};
ghost use Rattle.rr_latch.specs.Paths.{assigned};
ghost use Rattle.rr_latch.specs.Unassigned.{IsLatch, KeepsBit};

use crate::early::Early;
use crate::kept::list_kept;
use crate::paths::Path;
use rr_expr::Scope;
use rr_flat::{Bit, Flat};
use rr_syntax::Stmt;
use rr_writers::BitTable;
use std::alloc::{AllocError, Global};

/// A bit that a combinational block writes and keeps: it is read before it is assigned on some path, or
/// is not assigned on some path to the end. The block is given by the token of its `always`.
#[derive(Clone, Copy, Debug, PartialEq, Eq)]
pub struct Latch {
    pub bit: Bit,
    pub block: u32,
}

/// A bit that a block keeps. Before it and, where there is none, after it each bit is assigned and none may
/// be noted.
fn kept_bit(
    alloc: Global,
    body: &Stmt,
    names: &Scope,
    path: &mut Path,
    early: &mut Early,
    seen: &mut BitTable,
) -> Result<Option<Bit>, AllocError>
    requires shaped { statement_faults names.now (plain_statement body.now) ≡ [] }
    requires assigned { (b : BitOfSignal) → assigned path.old.unassigned b ≡ true }
    requires shut { (b : BitOfSignal) → is_shut early.old b ≡ true }
    requires empty { early.old.bits.items ≡ [] }
    ensures none { IfOk result (λ r. IfNone r (NoLatch names.now (plain_statement body.now))) }
    ensures left { IfOk result (λ r. IfNone r ((b : BitOfSignal) → assigned path.new.unassigned b ≡ true)) }
    ensures shut { IfOk result (λ r. IfNone r ((b : BitOfSignal) → is_shut early.new b ≡ true)) }
    ensures empty { IfOk result (λ r. IfNone r (early.new.bits.items ≡ [])) }
    ensures some { IfOk result (λ r. IfSome r (KeepsBit names.now (plain_statement body.now))) }
{
    list_kept(alloc, body, names, false, path, early, seen)?;
    Ok(early.bits.first().copied())
}

/// The first combinational block that keeps a bit, in the order of the walk (IEEE 1364-2005 sections
/// 9.2.1, 9.4 and 9.5). Paths follow the text; a `case` without `default` has an empty path, and an
/// assignment by an index that is not constant assigns no bit for certain.
pub fn first_latch(alloc: Global, flat: &Flat) -> Result<Option<Latch>, AllocError>
    ensures none { IfOk result (λ r. IfNone r (NoLatches (plain_flat flat.now))) }
    ensures some { IfOk result (λ r. IfSome r (λ l. NoLatches (plain_flat flat.now) → ⊥)) }
    ensures first { IfOk result (λ r. IfSome r (IsLatch (plain_flat flat.now))) }
{
    let mut path = Path {
        unassigned: BitTable::new(alloc),
        log: Vec::new(alloc),
    };
    let mut early = Early {
        unnoted: BitTable::new(alloc),
        bits: Vec::new(alloc),
    };
    let mut seen = BitTable::new(alloc);
    for block in flat.combinational_blocks().iter() {
        let names = flat.scope_at(block.scope);
        if let Some(bit) = kept_bit(alloc, block.body, names, &mut path, &mut early, &mut seen)? {
            return Ok(Some(Latch {
                bit,
                block: block.token,
            }));
        }
        path.log.clear();
    }
    Ok(None)
}
