//! Bodies of `always` on wires, with the last assignments that sites add to them.
ghost use Rattle.std.specs.Prelude.{◌≡◌, ◌≤◌, ◌+◌, ℕ, Bool, [], OnOk, drop, get_or, length};
ghost use Rattle.rr_circuit.specs.Values.{Extends, AreWires};
ghost use Rattle.rr_syntax.specs.View.{plain_statement};
ghost use Rattle.rr_flat.specs.Shapes.{statement_faults};
ghost use Rattle.rr_instance.specs.Firsts.{first_token as first_token_of};
ghost use Rattle.rr_choice.specs.Choices.{site_bits as site_bits_of};
ghost use Rattle.rr_choice.specs.Sites.{IsSite};
ghost use Rattle.rr_choice.specs.View.{plain_site};
ghost use Rattle.rr_signal_wires.specs.Words.{Holds, widths_of};
ghost use Rattle.rr_blast_terms.specs.Choosing.{IsReady, picks_of};
ghost use Rattle.rr_blast_stmt.specs.Running.{IsMachine, held, ran};
ghost use Rattle.rr_blast_body.specs.Overwrites.{body_instance, sites_ran};

use crate::lasts::run_site;
use rr_blast_stmt::{Machine, execute};
use rr_blast_terms::ChoiceWires;
use rr_choice::site_bits;
use rr_circuit::{Builder, Wire};
use rr_expr::Scope;
use rr_instance::first_token;
use rr_syntax::{Site, Stmt};
use std::alloc::{AllocError, Global};

/// The wires from a place on.
fn from_place(wires: &[Wire], at: usize) -> &[Wire]
    requires { at ≤ length wires.now }
    ensures { result.now ≡ drop at wires.now }
{
    &wires[at..]
}

/// The place behind the bits of a site that begin at a place; all bits are at most `room`.
fn behind(site: &Site, at: usize, room: usize) -> usize
    requires site { IsSite (plain_site site.now) }
    requires room { at + site_bits_of (plain_site site.now) ≤ room }
    ensures { result ≡ at + site_bits_of (plain_site site.now) }
{
    at + site_bits(site) as usize
}

/// The last assignments of the sites at a body's first token, one after the other.
fn run_sites(
    alloc: Global,
    b: &mut Builder,
    stmt: &Stmt,
    scope: &Scope,
    choice: &ChoiceWires,
    machine: &mut Machine,
) -> Result<(), AllocError>
    requires choice { IsReady b.old choice.now }
    requires machine { IsMachine b.old (widths_of machine.old.now.items) machine.old }
    requires holds { Holds scope.now (widths_of machine.old.now.items) }
    requires narrow { (id : ℕ) → get_or (widths_of machine.old.now.items) id 0 ≤ 128 }
    ensures extends { Extends b.old b.new }
    ensures machine { OnOk result (IsMachine b.new (widths_of machine.old.now.items) machine.new) }
    ensures ran { OnOk result ((env : ℕ → Bool) → held b.new env machine.new
        ≡ sites_ran scope.now (first_token_of (plain_statement stmt.now)) choice.now.sites.now (picks_of b.old env choice.now) (held b.old env machine.old)) }
{
    let token = first_token(stmt);
    let list = choice.sites.sites();
    let mut at = 0;
    for site in list.iter() {
        let bits = from_place(choice.wires, at);
        run_site(alloc, b, site, token, bits, scope, choice, machine)?;
        at = behind(site, at, choice.wires.len());
    }
    Ok(())
}

/// Runs the instance of a body: the statement's, and then the last assignments of its sites. Each
/// signal has at most 128 bits.
pub fn execute_body(
    alloc: Global,
    b: &mut Builder,
    stmt: &Stmt,
    scope: &Scope,
    choice: &ChoiceWires,
    machine: &mut Machine,
) -> Result<(), AllocError>
    requires shaped { statement_faults scope.now (plain_statement stmt.now) ≡ [] }
    requires choice { IsReady b.old choice.now }
    requires machine { IsMachine b.old (widths_of machine.old.now.items) machine.old }
    requires holds { Holds scope.now (widths_of machine.old.now.items) }
    requires narrow { (id : ℕ) → get_or (widths_of machine.old.now.items) id 0 ≤ 128 }
    ensures extends { Extends b.old b.new }
    ensures machine { OnOk result (IsMachine b.new (widths_of machine.old.now.items) machine.new) }
    ensures ran { OnOk result ((env : ℕ → Bool) → held b.new env machine.new
        ≡ ran scope.now (body_instance choice.now.sites.now (picks_of b.old env choice.now) (plain_statement stmt.now)) (held b.old env machine.old)) }
{
    let always = b.constant(true);
    execute(alloc, b, stmt, scope, choice, always, machine)?;
    run_sites(alloc, b, stmt, scope, choice, machine)?;
    Ok(())
}
