//! The files of a certificate.
ghost use Rattle.std.specs.Prelude.{◌≡◌, ◌++◌, IfOk, OnOk, map};
ghost use Rattle.rr_check_certificate.specs.Certificates.{IsJudged};
ghost use Rattle.rr_check.specs.declared.verdict.Verdict.TheVariants.{Accepted};
ghost use Rattle.rr_circuit.specs.Aag.{aag};
ghost use Rattle.rr_derive.specs.Derive.{Refutes};
ghost use Rattle.rr_derive.specs.Lrat.{AreWritable, lrat};
ghost use Rattle.rr_endings.specs.Views.{file_of};
ghost use Rattle.rr_tseitin.specs.Tseitin.{formula_of as tseitin};
ghost use Rattle.rr_repair_output.specs.Certified.{certificate};

use rr_circuit::{Circuit, write_aag};
use rr_cnf::write_dimacs;
use rr_derive::{Journal, write_lrat};
use rr_endings::File;
use rr_tseitin::formula_of;
use std::alloc::{AllocError, Global};

/// A file of the certificate, by the ending of its name.
fn named(alloc: Global, cert: &str, ending: &str, bytes: Vec<u8>) -> Result<File, AllocError>
    ensures { IfOk result (λ file. file_of file ≡ (cert.now ++ ending.now, bytes.items)) }
{
    let name = format!(in alloc; "{cert}{ending}")?;
    let file = File::new(alloc, name, bytes)?;
    Ok(file)
}

/// The circuit as AIGER, its formula as DIMACS, and the lines of the journal as LRAT, in this order. Where
/// the lines refute the formula, the texts are accepted by a check.
pub(crate) fn certificate(
    alloc: Global,
    cert: &str,
    circuit: &Circuit,
    journal: &Journal,
) -> Result<Vec<File>, AllocError>
    ensures files { IfOk result (λ files. map file_of files.items ≡ certificate cert.now circuit.now journal.now) }
    ensures accepted { OnOk result (Refutes (tseitin circuit.now).clauses journal.now.lines → AreWritable (tseitin circuit.now) journal.now.lines → IsJudged (aag circuit.now) (lrat journal.now) Accepted) }
{
    let aag = write_aag(alloc, circuit)?;
    let circuit_file = named(alloc, cert, ".aag", aag)?;
    let formula = formula_of(alloc, circuit)?;
    let dimacs = write_dimacs(alloc, &formula)?;
    let formula_file = named(alloc, cert, ".cnf", dimacs)?;
    let lrat = write_lrat(alloc, journal)?;
    let proof_file = named(alloc, cert, ".lrat", lrat)?;
    let files = vec![in alloc; circuit_file, formula_file, proof_file]?;
    Ok(files)
}
