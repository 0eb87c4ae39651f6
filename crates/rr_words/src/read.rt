//! The command that the words of a command line name.
ghost use Rattle.std.specs.Prelude.{◌≡◌, ◌≢◌, ◌⊎◌, [], IfOk, IfErr, IfSome, ◌≤◌, MatchResult, option_and_then, map, Some, None, option_map, string_bytes};
ghost use Rattle.clap.specs.Words.{fault_of, found_of, first_of, rows_of, subcommand_of, subcommand_rows_of};
ghost use Rattle.rr_words.specs.Line.{tool};
ghost use Rattle.rr_words.specs.Plain.{IsPlain};
ghost use Rattle.rr_words.specs.Usage.{usage_text};
ghost use Rattle.rr_words.specs.Plan.{Plan, command_of, number_of, number_or, plan_of, read_of, repair_of, run_of, sites_of, check_of, make_of, lint_of, most_seed};

use crate::line::program;
use clap::ArgMatches;
use clap::error::ErrorKind;
use std::alloc::{AllocError, Global};
use thiserror::Error;

/// What the program is to do. Names are borrowed from the words; `top` and `clock` are the names of
/// `--top` and `--clock` where these are given.
#[derive(Debug, Clone, Copy, PartialEq, Eq)]
pub enum Command<'a> {
    /// Repairs the design against the table and writes the certificate under the name `cert`.
    /// `budget` is the number of conflicts of a member and a question, from 1 to 1,000,000, and
    /// `members` the number of solver members, from 1 to 8.
    Repair {
        design: &'a str,
        table: &'a str,
        cert: &'a str,
        top: Option<&'a str>,
        clock: Option<&'a str>,
        budget: u32,
        members: u32,
    },
    /// Evaluates the design on the inputs of the table.
    Run {
        design: &'a str,
        table: &'a str,
        top: Option<&'a str>,
        clock: Option<&'a str>,
    },
    /// Lists the places of the design at which it may be repaired.
    Sites {
        design: &'a str,
        top: Option<&'a str>,
        clock: Option<&'a str>,
    },
    /// Checks a certificate: a circuit with a proof.
    Check {
        circuit: &'a str,
        proof: &'a str,
    },
    /// Makes an input from the seed and repairs it.
    Make {
        seed: u64,
        cert: &'a str,
    },
    /// Prints the design with two faults of its combinational blocks mended.
    Lint {
        design: &'a str,
        top: Option<&'a str>,
    },
}

/// Why the words are answered by no command: they name none, or memory ran out.
#[derive(Debug, Clone, Copy, PartialEq, Eq, Error)]
pub enum WordsFault {
    #[error("usage")]
    Usage,
    #[error("out of memory")]
    Memory,
}

impl From<AllocError> for WordsFault {
    ghost use Rattle.std.specs.Prelude.{◌≡◌};
    ghost use Rattle.rr_words.specs.declared.read.WordsFault.TheVariants.{Memory};

    ghost from_gives = { λ _ e. e ≡ Memory };

    fn from(_error: AllocError) -> WordsFault {
        WordsFault::Memory
    }
}

/// The usage line of the program, with the LF that ends it.
pub fn usage() -> &'static str
    ensures { result.now ≡ usage_text }
{
    "usage: rtl_repair repair DESIGN TABLE CERT, run DESIGN TABLE, sites DESIGN, check CIRCUIT PROOF, make SEED CERT, lint DESIGN\n"
}

/// The command that the words name, the first of which is the program's own name. `Usage` comes
/// exactly where `command_of`, the words as `clap` matches them, has no command, so only where the
/// words are not plain: plain words are the program, a command, exactly its names, and each of its
/// options at most once after the command, as `--x V` or `--x=V`, where no name and no V is empty
/// or begins with `-`, and numbers are decimal digits within their ranges.
pub fn read_words<'a>(alloc: Global, words: &'a [String]) -> Result<Command<'a>, WordsFault>
    ensures command { MatchResult result (λ c. command_of (map string_bytes words.entry.now) ≡ Some (plan_of c))
        (λ e. (e ≡ WordsFault.Memory) ⊎ (command_of (map string_bytes words.entry.now) ≡ None)) }
    ensures plain { (p : Plan) → IsPlain (map string_bytes words.entry.now) p
        → MatchResult result (λ c. plan_of c ≡ p) (λ e. e ≡ WordsFault.Memory) }
{
    matched_command(alloc, words)
}

fn matched_command<'a>(alloc: Global, words: &'a [String]) -> Result<Command<'a>, WordsFault>
    ensures { MatchResult result (λ c. command_of (map string_bytes words.entry.now) ≡ Some (plan_of c))
        (λ e. (e ≡ WordsFault.Memory) ⊎ (command_of (map string_bytes words.entry.now) ≡ None)) }
{
    match matched(alloc, words) {
        Ok(matches) => found(&matches).ok_or(WordsFault::Usage),
        Err(error) => Err(error),
    }
}

/// What `clap` matches of the words.
fn matched<'a>(alloc: Global, words: &'a [String]) -> Result<ArgMatches<'a>, WordsFault>
    ensures ok { IfOk result (λ m. (fault_of tool (map string_bytes words.entry.now) ≡ [])
        × (subcommand_rows_of m ≡ subcommand_of tool (map string_bytes words.entry.now))) }
    ensures err { IfErr result (λ e. (e ≡ WordsFault.Memory) ⊎ (fault_of tool (map string_bytes words.entry.now) ≢ [])) }
{
    let line = program(alloc)?;
    match line.try_get_matches_from(words) {
        Ok(matches) => Ok(matches),
        Err(error) => Err(fault(error.kind())),
    }
}

fn fault(kind: ErrorKind) -> WordsFault
    ensures memory { (kind ≡ ErrorKind.OutOfMemory) → result ≡ WordsFault.Memory }
    ensures usage { (kind ≢ ErrorKind.OutOfMemory) → result ≡ WordsFault.Usage }
{
    if kind == ErrorKind::OutOfMemory {
        WordsFault::Memory
    } else {
        WordsFault::Usage
    }
}

fn found<'a>(matches: &ArgMatches<'a>) -> Option<Command<'a>>
    ensures { option_map plan_of result ≡ option_and_then (λ p. read_of p.0 p.1) (subcommand_rows_of matches.now) }
{
    let (name, found) = matches.subcommand()?;
    planned(name, found)
}

fn planned<'a>(name: &str, found: &ArgMatches<'a>) -> Option<Command<'a>>
    ensures { option_map plan_of result ≡ read_of name.now (rows_of (found_of found.now)) }
{
    match name {
        "repair" => repair(found),
        "run" => run(found),
        "sites" => sites(found),
        "check" => check(found),
        "make" => make(found),
        "lint" => lint(found),
        _ => None,
    }
}

fn text<'a>(found: &ArgMatches<'a>, id: &str) -> Option<&'a str>
    ensures { option_map (λ s. s.now) result ≡ first_of id.now (rows_of (found_of found.now)) }
{
    found.get_str(id)
}

fn repair<'a>(found: &ArgMatches<'a>) -> Option<Command<'a>>
    ensures { option_map plan_of result ≡ repair_of (rows_of (found_of found.now)) }
{
    Some(Command::Repair {
        design: text(found, "design")?,
        table: text(found, "table")?,
        cert: text(found, "cert")?,
        top: text(found, "top"),
        clock: text(found, "clock"),
        budget: count_else(text(found, "budget"), 20_000, 1, 1_000_000)?,
        members: count_else(text(found, "members"), 4, 1, 8)?,
    })
}

fn run<'a>(found: &ArgMatches<'a>) -> Option<Command<'a>>
    ensures { option_map plan_of result ≡ run_of (rows_of (found_of found.now)) }
{
    Some(Command::Run {
        design: text(found, "design")?,
        table: text(found, "table")?,
        top: text(found, "top"),
        clock: text(found, "clock"),
    })
}

fn sites<'a>(found: &ArgMatches<'a>) -> Option<Command<'a>>
    ensures { option_map plan_of result ≡ sites_of (rows_of (found_of found.now)) }
{
    Some(Command::Sites {
        design: text(found, "design")?,
        top: text(found, "top"),
        clock: text(found, "clock"),
    })
}

fn check<'a>(found: &ArgMatches<'a>) -> Option<Command<'a>>
    ensures { option_map plan_of result ≡ check_of (rows_of (found_of found.now)) }
{
    Some(Command::Check {
        circuit: text(found, "circuit")?,
        proof: text(found, "proof")?,
    })
}

fn make<'a>(found: &ArgMatches<'a>) -> Option<Command<'a>>
    ensures { option_map plan_of result ≡ make_of (rows_of (found_of found.now)) }
{
    let seed = text(found, "seed")?;
    let cert = text(found, "cert")?;
    Some(Command::Make {
        seed: number(seed, 0, u64::MAX)?,
        cert,
    })
}

fn lint<'a>(found: &ArgMatches<'a>) -> Option<Command<'a>>
    ensures { option_map plan_of result ≡ lint_of (rows_of (found_of found.now)) }
{
    Some(Command::Lint {
        design: text(found, "design")?,
        top: text(found, "top"),
    })
}

/// The count that an option gives, or the usual one where it is not given.
fn count_else(text: Option<&str>, usual: u32, least: u32, most: u32) -> Option<u32>
    ensures { result ≡ number_or usual least most (option_map (λ s. s.now) text.entry) }
{
    match text {
        Some(text) => {
            let count = number(text, u64::from(least), u64::from(most))?;
            Some(count as u32)
        }
        None => Some(usual),
    }
}

/// The number that digits write, if it lies in the range.
///
/// Not by `parse` alone, which also takes a sign.
fn number(text: &str, least: u64, most: u64) -> Option<u64>
    ensures read { result ≡ number_of least most text.now }
    ensures within { IfSome result (λ n. n ≤ most) }
{
    if text.as_bytes().first() == Some(&b'+') {
        return None;
    }
    match text.parse::<u64>() {
        Ok(value) => {
            if least <= value && value <= most {
                Some(value)
            } else {
                None
            }
        }
        Err(_) => None,
    }
}
