//! Dumps.
ghost use Rattle.std.specs.Prelude.{◌≡◌, ℕ, List, [], MatchResult, IfOk};
ghost use Rattle.rr_flat.specs.View.{plain_flat};
ghost use Rattle.rr_vcd_text.specs.Dump.{Declared as PlainDeclared, Told as PlainTold, IsDump};
ghost use Rattle.rr_vcd_text.specs.View.{IsReading, Refuses as RefusesText};
ghost use Rattle.rr_trace.specs.View.{plain_table};
ghost use Rattle.rr_vcd.specs.Tops.{Top};
ghost use Rattle.rr_vcd.specs.Sampled.{IsSampled};
ghost use Rattle.rr_vcd.specs.Faults.{RefusesVcd};
ghost use Rattle.rr_vcd.specs.View.{IsTold, IsTable, StopsTable};

use crate::fault::VcdFault;
use crate::places::Places;
use crate::ports::top_of;
use crate::probes::Probes;
use crate::sampler::Sampler;
use rr_flat::{Flat, Order};
use rr_trace::Table;
use rr_vcd_text::{Changes, Dump, DumpFault, read_head};
use std::alloc::Global;

/// Reads to the end of a body, whatever it tells.
fn skip(changes: Changes) -> Result<(), DumpFault>
    ensures { (bytes : List ℕ) (d : PlainDeclared) → IsReading bytes d [] changes.entry → MatchResult result (λ _. (told : List PlainTold) × IsDump bytes d told) (RefusesText bytes) }
{
    let mut changes = changes;
    while let Some(_) = changes.next()? {}
    Ok(())
}

/// The table of a body, of which nothing was read.
fn sample<'a>(alloc: Global, changes: Changes<'a>, sampler: Sampler<'a>) -> Result<Table, VcdFault>
    ensures { (bytes : List ℕ) (top : Top) (d : PlainDeclared) (s : ℕ) → IsReading bytes d [] changes.entry → IsTold top d s [] sampler.entry → MatchResult result (IsTable bytes top d s) (StopsTable bytes top d s) }
{
    let mut changes = changes;
    let mut sampler = sampler;
    while let Some(told) = changes.next()? {
        sampler.tell(alloc, told)?;
    }
    sampler.finish(alloc)
}

/// The table that is sampled from a value change dump (IEEE 1364-2005 section 18.2) for the ports of a
/// flat design's top; or the refusal: 41 where the text breaks the form of a dump, at its line; else 42
/// where no scope has every input of the top; else 16 where the rows are more than 65,536.
///
/// The scope is the first that has every input and every output, or where none has the first that has
/// every input. With a clock there is a row for each of its edges, with the values before it, and without
/// one a row for each moment, with the values after it; values from the moment of the first `$dumpoff` on
/// are not read. Unknown bits of an input are 0, and an output that the scope does not have is known
/// nowhere. The clock, where there is one, is one of the design's inputs.
pub fn read_vcd(alloc: Global, bytes: &[u8], flat: &Flat, order: &Order) -> Result<Table, VcdFault>
    ensures { MatchResult result
        (λ table. IsSampled (plain_flat flat.now) order.now.clock order.now.rising bytes.now (plain_table table))
        (RefusesVcd (plain_flat flat.now) order.now.clock order.now.rising bytes.now) }
{
    let top = top_of(alloc, flat, order)?;
    let Dump { declared, changes } = read_head(alloc, bytes)?;
    let places = Places::of(alloc, declared.variables.as_slice())?;
    let Some(scope) = places.choose(declared.scopes, &top) else {
        skip(changes)?;
        return Err(VcdFault::NoScope);
    };
    let probes = Probes::of(alloc, &places, scope, &top)?;
    let sampler = Sampler::new(alloc, probes)?;
    sample(alloc, changes, sampler)
}
