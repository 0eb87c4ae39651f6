//! The files that each command reads.
ghost use Rattle.std.specs.Prelude.{◌≡◌};
ghost use Rattle.rr_words.specs.Plan.{plan_of};
ghost use Rattle.rr_effects.specs.Views.{Fetches};
ghost use Rattle.rr_top.specs.Commands.{command_of_plan};

use rr_edge::Shelf;
use rr_effects::{Read, fetch};
use rr_endings::Report;
use rr_words::Command;
use std::alloc::Global;

/// The most bytes of a design.
const DESIGN_LIMIT: u64 = 1_048_576;

/// The most bytes of a table.
const TABLE_LIMIT: u64 = 16_777_216;

/// The most bytes of a certificate's circuit.
const CIRCUIT_LIMIT: u64 = 268_435_456;

/// The most bytes of a certificate's proof.
const PROOF_LIMIT: u64 = 1_073_741_824;

/// The files that the command reads, in order, or the report of the first read that gives none. `make`
/// reads nothing.
pub(crate) fn fetch_files<'a, H: Shelf>(
    alloc: Global,
    command: Command<'a>,
    shelf: &mut H,
) -> Result<Vec<Vec<u8>>, Report<'a>>
    ensures answer { Fetches (H.told shelf.old) (command_of_plan (plan_of command.entry)).reads (H.faults shelf.old) (H.faults shelf.new) result }
    ensures same { H.told shelf.new ≡ H.told shelf.old }
{
    match command {
        Command::Repair { design, table, .. } | Command::Run { design, table, .. } => {
            let design = Read {
                name: design,
                limit: DESIGN_LIMIT,
            };
            let table = Read {
                name: table,
                limit: TABLE_LIMIT,
            };
            fetch(alloc, shelf, &[design, table])
        }
        Command::Check { circuit, proof } => {
            let circuit = Read {
                name: circuit,
                limit: CIRCUIT_LIMIT,
            };
            let proof = Read {
                name: proof,
                limit: PROOF_LIMIT,
            };
            fetch(alloc, shelf, &[circuit, proof])
        }
        Command::Sites { design, .. } | Command::Lint { design, .. } => {
            let design = Read {
                name: design,
                limit: DESIGN_LIMIT,
            };
            fetch(alloc, shelf, &[design])
        }
        Command::Make { .. } => fetch(alloc, shelf, &[]),
    }
}
