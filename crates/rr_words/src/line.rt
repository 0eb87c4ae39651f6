//! The commands that the program has, with their names and options.
ghost use Rattle.std.specs.Prelude.{◌≡◌, IfOk, false, codes};
ghost use Rattle.clap.specs.Words.{app_of, new_app, rule_of, shape_of, with_subcommand};
ghost use Rattle.clap.specs.declared.builder.command.Command.TheViews.{out-Command as fields_of};
ghost use Rattle.rr_words.specs.Line.{bare_tool, check_line, lint_line, make_line, name_rule, option_rule, repair_line, run_line, sites_line, tool, with_name, with_option};

use clap::{Arg, ArgAction, Command};
use std::alloc::{AllocError, Global};

/// A command with nothing but its name.
fn bare<'a>(alloc: Global, id: &'a str) -> Command<'a>
    ensures app { app_of result ≡ new_app id.entry.now }
    ensures local { (fields_of result).has_globals ≡ false }
{
    Command::new(alloc, id)
}

/// Adds a name that has to be given.
fn name<'a>(alloc: Global, command: Command<'a>, id: &'a str) -> Result<Command<'a>, AllocError>
    requires { (fields_of command).has_globals ≡ false }
    ensures app { IfOk result (λ c. app_of c ≡ with_name (app_of command.entry) id.entry.now) }
    ensures local { IfOk result (λ c. (fields_of c).has_globals ≡ false) }
{
    let arg = Arg::new(alloc, id).required(true).action(ArgAction::Set);
    command.arg(arg)
}

/// Adds an option with a value, `--id V`.
fn option<'a>(alloc: Global, command: Command<'a>, id: &'a str) -> Result<Command<'a>, AllocError>
    requires { (fields_of command).has_globals ≡ false }
    ensures app { IfOk result (λ c. app_of c ≡ with_option (app_of command.entry) id.entry.now) }
    ensures local { IfOk result (λ c. (fields_of c).has_globals ≡ false) }
{
    let arg = Arg::new(alloc, id).long(id).action(ArgAction::Set);
    command.arg(arg)
}

/// Adds a command of the program.
fn below<'a>(command: Command<'a>, sub: Command<'a>) -> Result<Command<'a>, AllocError>
    requires { (fields_of sub).has_globals ≡ false }
    ensures { IfOk result (λ c. app_of c ≡ with_subcommand (app_of command.entry) (app_of sub.entry).top) }
{
    command.subcommand(sub)
}

fn repair<'a>(alloc: Global) -> Result<Command<'a>, AllocError>
    ensures app { IfOk result (λ c. app_of c ≡ repair_line) }
    ensures local { IfOk result (λ c. (fields_of c).has_globals ≡ false) }
{
    let line = bare(alloc, "repair");
    let line = name(alloc, line, "design")?;
    let line = name(alloc, line, "table")?;
    let line = name(alloc, line, "cert")?;
    let line = option(alloc, line, "top")?;
    let line = option(alloc, line, "clock")?;
    let line = option(alloc, line, "budget")?;
    option(alloc, line, "members")
}

fn run<'a>(alloc: Global) -> Result<Command<'a>, AllocError>
    ensures app { IfOk result (λ c. app_of c ≡ run_line) }
    ensures local { IfOk result (λ c. (fields_of c).has_globals ≡ false) }
{
    let line = bare(alloc, "run");
    let line = name(alloc, line, "design")?;
    let line = name(alloc, line, "table")?;
    let line = option(alloc, line, "top")?;
    option(alloc, line, "clock")
}

fn sites<'a>(alloc: Global) -> Result<Command<'a>, AllocError>
    ensures app { IfOk result (λ c. app_of c ≡ sites_line) }
    ensures local { IfOk result (λ c. (fields_of c).has_globals ≡ false) }
{
    let line = bare(alloc, "sites");
    let line = name(alloc, line, "design")?;
    let line = option(alloc, line, "top")?;
    option(alloc, line, "clock")
}

fn check<'a>(alloc: Global) -> Result<Command<'a>, AllocError>
    ensures app { IfOk result (λ c. app_of c ≡ check_line) }
    ensures local { IfOk result (λ c. (fields_of c).has_globals ≡ false) }
{
    let line = bare(alloc, "check");
    let line = name(alloc, line, "circuit")?;
    name(alloc, line, "proof")
}

fn make<'a>(alloc: Global) -> Result<Command<'a>, AllocError>
    ensures app { IfOk result (λ c. app_of c ≡ make_line) }
    ensures local { IfOk result (λ c. (fields_of c).has_globals ≡ false) }
{
    let line = bare(alloc, "make");
    let line = name(alloc, line, "seed")?;
    name(alloc, line, "cert")
}

fn lint<'a>(alloc: Global) -> Result<Command<'a>, AllocError>
    ensures app { IfOk result (λ c. app_of c ≡ lint_line) }
    ensures local { IfOk result (λ c. (fields_of c).has_globals ≡ false) }
{
    let line = bare(alloc, "lint");
    let line = name(alloc, line, "design")?;
    option(alloc, line, "top")
}

/// All that the program takes.
pub(crate) fn program<'a>(alloc: Global) -> Result<Command<'a>, AllocError>
    ensures { IfOk result (λ c. app_of c ≡ tool) }
{
    let line = root(alloc);
    let line = below(line, repair(alloc)?)?;
    let line = below(line, run(alloc)?)?;
    let line = below(line, sites(alloc)?)?;
    let line = below(line, check(alloc)?)?;
    let line = below(line, make(alloc)?)?;
    below(line, lint(alloc)?)
}

fn root<'a>(alloc: Global) -> Command<'a>
    ensures { app_of result ≡ bare_tool }
{
    Command::new(alloc, "rtl_repair")
        .disable_help_flag(true)
        .disable_help_subcommand(true)
        .subcommand_required(true)
}
