//! The reader of LRAT texts.
ghost use Rattle.std.specs.Prelude.{◌≡◌, ◌≢◌, ◌||◌, ◌+◌, ◌-◌, ◌^◌, ◌<◌, ◌≤◌, ℕ, List, [], ◌++◌, All, IfSome, IfNone, IfOk, IfErr, MatchBool, MatchOption};
ghost use Rattle.std.specs.List.{AllByRecursion};
ghost use Rattle.rr_cnf.specs.Clauses.{IsWithin};
ghost use Rattle.rr_cnf.specs.Codes.{code_of};
ghost use Rattle.rr_cnf.specs.Dimacs.{literal_text};
ghost use Rattle.rr_derive.specs.Derive.{IsNoTautology, Proof};
ghost use Rattle.rr_derive.specs.Lrat.{BreaksRule, HasBothSigns, HasVariableAbove, IsCause, IsNumber, IsProofText, IsReadable, Keeps, OneFault, OneProof, ProofOrFault, lrat, positive, WrittenIsRead};
ghost use Rattle.rr_derive.specs.Reading.{AreIds, EntryIs, GoesOn, HintsAre, IsEnd, IsNoDeletion, IsNumberless, KeptBy, LiteralsAre, MayKeep, NoIds, NumbersEnd, ReadsAs, StopsAt, id_text};

use crate::line::{Journal, Line};
use rr_cnf::{Clause, Lit};
use rr_decimal::number_then;
use std::alloc::{AllocError, AllocFailed, Global};
use std::collections::BTreeSet;
use thiserror::Error;

/// Why no journal was read. Lines are counted from 1.
#[derive(Error, Debug, Clone, Copy, PartialEq, Eq)]
pub enum ProofFault {
    /// The line is none of a proof, or breaks a rule on ids, variables or literals.
    #[error("line {0} is no line of a proof")]
    BadProof(u64),
    /// The line has a negative hint.
    #[error("line {0} is a RAT line")]
    RatLine(u64),
    #[error("out of memory")]
    Memory,
}

impl From<AllocError> for ProofFault {
    ghost use Rattle.std.specs.Prelude.{◌≡◌};
    ghost use Rattle.rr_derive.specs.declared.read.ProofFault.TheVariants.{Memory};

    ghost from_gives = { λ _ e. e ≡ Memory };

    fn from(_error: AllocError) -> ProofFault {
        ProofFault::Memory
    }
}

/// What a text begins with, and what follows it.
pub(crate) enum Entry<'a> {
    Addition(Line, &'a [u8]),
    Deletion(&'a [u8]),
    Rat,
    Bad,
}

const LIMIT: u64 = 1 << 62;

/// Why a text does not go on with a line.
#[derive(Debug, Clone, Copy, PartialEq, Eq)]
pub(crate) enum LineFault {
    Bad,
    Rat,
    Memory,
}

impl From<AllocError> for LineFault {
    ghost use Rattle.std.specs.Prelude.{◌≡◌};
    ghost use Rattle.rr_derive.specs.declared.read.LineFault.TheVariants.{Memory};

    ghost from_gives = { λ _ e. e ≡ Memory };

    fn from(_error: AllocError) -> LineFault {
        LineFault::Memory
    }
}

/// A number at the head of the text, with a blank behind it, and what follows.
fn positive_then(text: &[u8]) -> Option<(u64, &[u8])>
    ensures some { IfSome result (λ r. text.now ≡ literal_text (positive r.0) ++ r.1.now) }
    ensures fits { IfSome result (λ r. IsNumber r.0) }
    ensures none { IfNone result (IsNumberless text.now) }
{
    let (number, rest) = number_then(text, b' ')?;
    if number == 0 || LIMIT <= number {
        return None;
    }
    Some((number, rest))
}

/// A number with its sign at the head of the text, with a blank behind it: the number, whether it
/// has the sign `-`, and what follows.
fn signed_then(text: &[u8]) -> Option<(u64, bool, &[u8])>
    ensures some { IfSome result (λ r. text.now ≡ literal_text (record { var = r.0; negative = r.1 }) ++ r.2.now) }
    ensures fits { IfSome result (λ r. IsNumber r.0) }
    ensures none { IfNone result (IsEnd text.now) }
{
    match behind(text, b"-") {
        Some(digits) => {
            let (var, rest) = positive_then(digits)?;
            Some((var, true, rest))
        }
        None => {
            let (var, rest) = positive_then(text)?;
            Some((var, false, rest))
        }
    }
}

/// What follows the front of a text.
fn behind<'a>(text: &'a [u8], front: &[u8]) -> Option<&'a [u8]>
    ensures { MatchOption result ((rest : List ℕ) → text.entry.now ≢ front.now ++ rest) (λ rest. text.entry.now ≡ front.now ++ rest.now) }
{
    text.strip_prefix(front)
}

fn either(a: bool, b: bool) -> bool
    ensures { result ≡ (a || b) }
{
    a || b
}

/// The literals at the head of the text, and what follows.
fn literals_then<'a>(lits: &mut Vec<Lit>, text: &'a [u8]) -> Result<&'a [u8], AllocError>
    requires { lits.old.items ≡ [] }
    ensures { IfOk result (λ rest. LiteralsAre text.now lits.new.items rest.now) }
{
    let mut rest = text;
    while let Some((var, sign, after)) = signed_then(rest) {
        lits.push(Lit::new(var, sign))?;
        rest = after;
    }
    Ok(rest)
}

/// The hints at the head of the text, without their signs, whether one is negative, and what follows.
fn hints_then<'a>(hints: &mut Vec<u64>, text: &'a [u8]) -> Result<(bool, &'a [u8]), AllocError>
    requires { hints.old.items ≡ [] }
    ensures { IfOk result (λ r. HintsAre text.now hints.new.items r.0 r.1.now) }
{
    let mut rest = text;
    let mut negative = false;
    while let Some((var, sign, after)) = signed_then(rest) {
        hints.push(var)?;
        negative = either(negative, sign);
        rest = after;
    }
    Ok((negative, rest))
}

/// What follows the numbers at the head of the text.
fn numbers_end(text: &[u8]) -> &[u8]
    ensures { NumbersEnd text.now result.now }
{
    let mut rest = text;
    while let Some((_, after)) = positive_then(rest) {
        rest = after;
    }
    rest
}

/// What follows the deletion of the line with this id, whose list of ids begins the text.
fn deletion_then(text: &[u8]) -> Option<&[u8]>
    ensures { MatchOption result (NoIds text.now) (λ rest. AreIds text.now rest.now) }
{
    behind(numbers_end(text), b"0\n")
}

/// The addition of the line with this id, whose literals begin the text.
fn addition_then(alloc: Global, id: u64, text: &[u8]) -> Result<Entry<'_>, AllocError>
    requires id { IsNumber id }
    requires literals { IsNoDeletion text.now }
    ensures { IfOk result (λ entry. EntryIs (id_text id ++ text.now) entry) }
{
    let mut lits = Vec::new(alloc);
    let rest = literals_then(&mut lits, text)?;
    let Some(rest) = behind(rest, b"0 ") else {
        return Ok(Entry::Bad);
    };
    let mut hints = Vec::new(alloc);
    let (negative, rest) = hints_then(&mut hints, rest)?;
    let Some(rest) = behind(rest, b"0\n") else {
        return Ok(Entry::Bad);
    };
    if negative {
        return Ok(Entry::Rat);
    }
    let clause = Clause::from_lits(alloc, &lits)?;
    Ok(Entry::Addition(Line { id, clause, hints }, rest))
}

/// What the text begins with, line by line of the grammar.
fn entry_of(alloc: Global, text: &[u8]) -> Result<Entry<'_>, AllocError>
    ensures { IfOk result (λ entry. EntryIs text.now entry) }
{
    let Some((id, after)) = positive_then(text) else {
        return Ok(Entry::Bad);
    };
    match behind(after, b"d ") {
        None => addition_then(alloc, id, after),
        Some(ids) => Ok(match deletion_then(ids) {
            Some(rest) => Entry::Deletion(rest),
            None => Entry::Bad,
        }),
    }
}

/// Whether the clause has a literal and its negation.
fn is_tautology(alloc: Global, clause: &[Lit]) -> Result<bool, AllocError>
    ensures { IfOk result (λ r. MatchBool r (HasBothSigns clause.now) (IsNoTautology clause.now)) }
{
    let mut codes = BTreeSet::new(alloc);
    for lit in clause {
        if codes.contains(&lit.negated().code()) {
            return Ok(true);
        }
        codes.insert(lit.code())?;
    }
    Ok(false)
}

/// The first variable of the clause above the greatest one.
fn variable_above(clause: &[Lit], vars: u64) -> bool
    ensures { MatchBool result (HasVariableAbove vars clause.now) (AllByRecursion (λ l. l.var ≤ vars) clause.now) }
{
    clause.iter().any(|lit| lit.var() > vars)
}

/// Whether the addition breaks no rule on ids, variables and literals.
fn is_kept(alloc: Global, last: u64, vars: u64, line: &Line) -> Result<bool, AllocError>
    ensures { IfOk result (λ r. MatchBool r (Keeps last vars line.now) (BreaksRule last vars line.now)) }
{
    let clause = line.clause.lits();
    if line.id <= last || variable_above(clause, vars) {
        return Ok(false);
    }
    Ok(!is_tautology(alloc, clause)?)
}

/// The addition with which the text begins, `None` for a deletion, and what follows.
fn next_line(
    alloc: Global,
    text: &[u8],
    last: u64,
    vars: u64,
) -> Result<(Option<Line>, &[u8]), LineFault>
    ensures ok { IfOk result (λ r. GoesOn last vars text.now r.0 r.1.now) }
    ensures err { IfErr result (λ e. StopsAt last vars text.now e) }
{
    match entry_of(alloc, text)? {
        Entry::Deletion(rest) => Ok((None, rest)),
        Entry::Rat => Err(LineFault::Rat),
        Entry::Bad => Err(LineFault::Bad),
        Entry::Addition(line, rest) => {
            if is_kept(alloc, last, vars, &line)? {
                Ok((Some(line), rest))
            } else {
                Err(LineFault::Bad)
            }
        }
    }
}

/// Reads the text of a proof (LRAT without RAT lines) over a formula with so many clauses and
/// variables: the journal of its additions, or its first bad line. Deletions are read and have no
/// effect. It takes room only for what it has seen.
///
/// A line is `id literals 0 hints 0` or `id d ids 0`, with single blanks and ended by LF; its
/// numbers have no leading zeros and are from 1 to 2^62 - 1, and literals and hints may have `-`
/// before them. A line with a negative hint is `RatLine`. `BadProof` is any other line that is none
/// of these, and an addition whose id is not above the number of clauses and the ids before it,
/// which has a variable above `vars`, or a literal and its negation.
pub fn read_lrat(
    alloc: Global,
    bytes: &[u8],
    clauses: u64,
    vars: u64,
) -> Result<Journal, ProofFault>
    requires { clauses < 2 ^ 64 - 1 }
    ensures first { IfOk result (λ j. j.first ≡ clauses + 1) }
    ensures proof { IfOk result (λ j. IsProofText clauses vars bytes.now j.lines) }
    ensures ids { IfOk result (λ j. All (λ s. clauses < s.id) j.lines) }
    ensures within { IfOk result (λ j. All (λ s. All (IsWithin vars) s.clause) j.lines) }
    ensures cause { IfErr result (IsCause clauses vars bytes.now) }
    ensures back { (p : Proof) → IsReadable clauses vars p → bytes.now ≡ lrat p → ReadsAs result p }
{
    read_lines(alloc, bytes, clauses, vars)
}

fn read_lines(alloc: Global, bytes: &[u8], clauses: u64, vars: u64) -> Result<Journal, ProofFault>
    requires { clauses < 2 ^ 64 - 1 }
    ensures first { IfOk result (λ j. j.first ≡ clauses + 1) }
    ensures proof { IfOk result (λ j. IsProofText clauses vars bytes.now j.lines) }
    ensures cause { IfErr result (IsCause clauses vars bytes.now) }
{
    let mut journal = Journal::new(alloc, clauses + 1);
    let mut last = clauses;
    let mut count = 0;
    let mut text = bytes;
    while !text.is_empty() {
        match next_line(alloc, text, last, vars) {
            Ok((step, rest)) => {
                last = keep(&mut journal, step, last)?;
                text = rest;
            }
            Err(LineFault::Bad) => return Err(ProofFault::BadProof(count + 1)),
            Err(LineFault::Rat) => return Err(ProofFault::RatLine(count + 1)),
            Err(LineFault::Memory) => return Err(ProofFault::Memory),
        }
        count += 1;
    }
    Ok(journal)
}

/// No bytes have two proofs.
pub fn one_proof()
    ensures { OneProof }
{}

/// The text that is written of lines over a formula of fewer than 2^62 variables, where each passes the
/// hint check and names clauses before it, is read as these lines.
pub fn written_is_read()
    ensures { WrittenIsRead }
{}

/// No bytes have both a proof and a first bad line.
pub fn proof_or_fault()
    ensures { ProofOrFault }
{}

/// No bytes have two first bad lines.
pub fn one_fault()
    ensures { OneFault }
{}

/// Adds the line that was read, if there was one; the greatest id then.
fn keep(journal: &mut Journal, step: Option<Line>, last: u64) -> Result<u64, AllocError>
    requires { MayKeep journal.old step }
    ensures { IfOk result (KeptBy journal.old journal.new last step) }
{
    match step {
        None => Ok(last),
        Some(line) => {
            let id = line.id;
            journal.push_at(id, line.clause, line.hints)?;
            Ok(id)
        }
    }
}
