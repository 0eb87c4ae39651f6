//! The check of a certificate: two texts, a circuit in ASCII AIGER and a proof in LRAT without RAT
//! lines, that show together that no input makes every output of the circuit true. It is right where
//! its verdict is that of the proof over the circuit's formula, or the first bad line of the texts. It
//! stands on the crates of circuits, formulas and proofs.
#![tactic(auto)]

ghost use Rattle.std.specs.Prelude.{◌≡◌, ◌<◌, ◌≤◌, ℕ, List, All, IfOk, IfErr, MatchResult, OnOk, length, string_bytes};
ghost use Rattle.rr_cnf.specs.Clauses.{Clauses, IsWithin};
ghost use Rattle.rr_check_certificate.specs.Certificates.{IsCircuitOf, IsFlawed, IsFormulaOf, IsJudged, IsNeverTrue, IsProofOver};
ghost use Rattle.rr_check_certificate.specs.Texts.{verdict_text};

mod fault;
mod laws;

pub use fault::{CertificateFault, Flaw};
pub use laws::{one_outcome, written_is_accepted};
pub use rr_check::Verdict;
use rr_check::first_bad;
use rr_circuit::{AagFault, Circuit, read_aag};
use rr_cnf::Formula;
use rr_derive::{Journal, ProofFault, read_lrat};
use rr_tseitin::formula_of;
use std::alloc::{AllocError, Global};
use std::thread::Threads;

/// How many parts of a proof are checked at once.
const WORKERS: u32 = 4;

/// The circuit of a text, whose bytes are let go.
fn circuit_in(alloc: Global, bytes: Vec<u8>) -> Result<Circuit, CertificateFault>
    requires { length bytes.items ≤ 268435456 }
    ensures { (proof : List ℕ) → MatchResult result (λ c. IsCircuitOf bytes.items c) (λ fault. IsFlawed bytes.items proof fault) }
{
    match read_aag(alloc, &bytes) {
        Ok(circuit) => Ok(circuit),
        Err(AagFault::BadCircuit(line)) => Err(CertificateFault::Flawed(Flaw::Circuit, line)),
        Err(AagFault::Memory) => Err(CertificateFault::Memory),
    }
}

/// The formula of the circuit of a text. Text and circuit are let go.
fn formula_in(alloc: Global, bytes: Vec<u8>) -> Result<Formula, CertificateFault>
    requires { length bytes.items ≤ 268435456 }
    ensures { (proof : List ℕ) → MatchResult result (λ f. IsFormulaOf bytes.items f) (λ fault. IsFlawed bytes.items proof fault) }
{
    match circuit_in(alloc, bytes) {
        Ok(circuit) => match formula_of(alloc, &circuit) {
            Ok(formula) => Ok(formula),
            Err(_) => Err(CertificateFault::Memory),
        },
        Err(fault) => Err(fault),
    }
}

/// The proof of a text over a formula. The text is let go.
fn journal_in(alloc: Global, formula: &Formula, bytes: Vec<u8>) -> Result<Journal, CertificateFault>
    ensures proof { IfOk result (λ j. IsProofOver formula.now bytes.items j.lines) }
    ensures ids { IfOk result (λ j. All (λ s. length formula.now.clauses < s.id) j.lines) }
    ensures within { IfOk result (λ j. All (λ s. All (IsWithin formula.now.vars) s.clause) j.lines) }
    ensures cause { (circuit : List ℕ) → IsFormulaOf circuit formula.now → IfErr result (λ fault. IsFlawed circuit bytes.items fault) }
{
    let clauses = formula.len();
    if clauses == u64::MAX {
        return Err(CertificateFault::Memory);
    }
    match read_lrat(alloc, &bytes, clauses, formula.vars()) {
        Ok(journal) => Ok(journal),
        Err(ProofFault::BadProof(line)) => Err(CertificateFault::Flawed(Flaw::Proof, line)),
        Err(ProofFault::RatLine(line)) => Err(CertificateFault::Flawed(Flaw::Rat, line)),
        Err(ProofFault::Memory) => Err(CertificateFault::Memory),
    }
}

/// The verdict on a proof over the formula of a circuit, by their texts: a circuit of at most
/// 268,435,456 bytes, and a proof. The error is the first bad line, of the circuit (34) or else of the
/// proof (35, 36), or want of memory. Each text is let go as soon as it is read.
pub fn judge<R: Threads + Sync>(
    rt: &R,
    alloc: Global,
    circuit: Vec<u8>,
    proof: Vec<u8>,
) -> Result<Verdict, CertificateFault>
    requires { length circuit.items ≤ 268435456 }
    ensures answer { MatchResult result (λ v. IsJudged circuit.items proof.items v) (λ fault. IsFlawed circuit.items proof.items fault) }
    // An accepted proof: no input makes every output of the circuit true.
    ensures sound { IfOk result (λ v. v ≡ Verdict.Accepted → IsNeverTrue circuit.items) }
{
    judged(rt, alloc, circuit, proof)
}

fn judged<R: Threads + Sync>(
    rt: &R,
    alloc: Global,
    circuit: Vec<u8>,
    proof: Vec<u8>,
) -> Result<Verdict, CertificateFault>
    requires { length circuit.items ≤ 268435456 }
    ensures { MatchResult result (λ v. IsJudged circuit.items proof.items v) (λ fault. IsFlawed circuit.items proof.items fault) }
{
    let formula = match formula_in(alloc, circuit) {
        Ok(formula) => formula,
        Err(fault) => return Err(fault),
    };
    let journal = match journal_in(alloc, &formula, proof) {
        Ok(journal) => journal,
        Err(fault) => return Err(fault),
    };
    match first_bad(rt, alloc, &formula, &journal, WORKERS) {
        Ok(verdict) => Ok(verdict),
        Err(_) => Err(CertificateFault::Memory),
    }
}

/// The text that tells a verdict, with the LF that ends it. The error is want of memory.
pub fn verdict_text(alloc: Global, verdict: Verdict) -> Result<String, AllocError>
    ensures { IfOk result (λ text. string_bytes text ≡ verdict_text verdict) }
{
    match verdict {
        Verdict::Accepted => String::from_str(alloc, "accepted\n"),
        Verdict::Line(line) => format!(in alloc; "refused addition {line}\n"),
        Verdict::NoEmptyClause => String::from_str(alloc, "no empty clause\n"),
    }
}
