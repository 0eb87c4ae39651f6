//! Last assignments on wires.
ghost use Rattle.std.specs.Prelude.{◌≡◌, ◌≤◌, ◌+◌, ◌==◌, ◌&&◌, ℕ, Bool, false, cond, if◌then◌else◌, IfOk, OnOk, drop, take, get_or, length};
ghost use Rattle.rr_bits.specs.Words.{number};
ghost use Rattle.rr_circuit.specs.Values.{Extends, IsWire, AreWires, wire_value, wire_values};
ghost use Rattle.rr_syntax.specs.Tree.{Literal};
ghost use Rattle.rr_syntax.specs.View.{texts};
ghost use Rattle.rr_expr.specs.Scopes.{Names};
ghost use Rattle.rr_expr.specs.Values.{value as value_of};
ghost use Rattle.rr_choice.specs.Choices.{name_width, read_pick, site_bits as site_bits_of, picked_form, picked_name};
ghost use Rattle.rr_instance.specs.Instances.{fresh, gate, unsigned_number};
ghost use Rattle.rr_choice.specs.Sites.{IsSite};
ghost use Rattle.rr_choice.specs.View.{plain_site};
ghost use Rattle.rr_cycle.specs.Exec.{Environment, is_true};
ghost use Rattle.rr_signal_wires.specs.Words.{AreWords, Holds, carried, widths_of};
ghost use Rattle.rr_blast_terms.specs.Choosing.{IsReady};
ghost use Rattle.rr_blast_stmt.specs.Running.{IsMachine, held};
ghost use Rattle.rr_blast_body.specs.Lasts.{IsLast, last_kind, last_pick};
ghost use Rattle.rr_blast_body.specs.Overwrites.{last_ran, site_ran};

use crate::gates::gate_wire;
use rr_blast_sites::Inputs;
use rr_blast_stmt::{Machine, store};
use rr_blast_terms::ChoiceWires;
use rr_choice::site_bits;
use rr_circuit::{Builder, Wire};
use rr_expr::{Entity, Scope};
use rr_signal_wires::whole_guarded_pieces;
use rr_syntax::{Site, SiteKind};
use rr_word_gates::extended;
use std::alloc::{AllocError, Global};

/// A last assignment that a site offers: to a variable of a width, at once or later,
/// with the names that its condition may be; `places` bits write which.
#[derive(Clone, Copy)]
pub(crate) struct Last<'a> {
    pub target: &'a str,
    pub width: u32,
    pub at_once: bool,
    pub names: &'a [&'a str],
    pub places: usize,
}

/// Whether a last assignment is switched on and its condition true.
fn last_guard(
    b: &mut Builder,
    last: &Last,
    bits: &[Wire],
    scope: &Scope,
    words: &[Vec<Wire>],
    choice: &ChoiceWires,
) -> Result<Wire, AllocError>
    requires last { IsLast last.now (length bits.now) }
    requires bits { AreWires b.old bits.now }
    requires words { AreWords b.old words.now }
    requires choice { IsReady b.old choice.now }
    ensures extends { Extends b.old b.new }
    ensures wire { IfOk result (λ w. IsWire b.new w) }
    ensures value { IfOk result (λ w. (env : ℕ → Bool) → wire_value b.new env w
        ≡ (get_or (wire_values b.old env bits.now) 0 false && is_true scope.now (gate (picked_form (texts last.now.names.now) (last_pick last.now (wire_values b.old env bits.now)).form) (picked_name (texts last.now.names.now) (last_pick last.now (wire_values b.old env bits.now)).name)) (carried b.old env words.now))) }
{
    let inputs = Inputs {
        scope,
        signals: words,
        sites: choice.sites,
        choice: choice.wires,
        still: false,
    };
    let rest = &bits[1 + last.width as usize..];
    let gate = gate_wire(b, last.names, last.places, rest, &inputs)?;
    let out = b.and(bits[0], gate)?;
    Ok(out)
}

/// The value of a last assignment in a width.
fn last_value(
    alloc: Global,
    b: &Builder,
    last: &Last,
    bits: &[Wire],
    width: u32,
) -> Result<Vec<Wire>, AllocError>
    requires last { IsLast last.now (length bits.now) }
    requires bits { AreWires b.now bits.now }
    ensures wires { IfOk result (λ r. AreWires b.now r.items) }
    ensures value { IfOk result (λ r. (env : ℕ → Bool) (s : Names) (e : Environment) → wire_values b.now env r.items
        ≡ value_of s (Literal fresh (unsigned_number last.now.width (last_pick last.now (wire_values b.now env bits.now)).value)) e width false) }
{
    let own = last.width as usize;
    let out = extended(alloc, b, &bits[1..][..own], width, false)?;
    Ok(out)
}

/// A last assignment, where it is switched on and its condition true. A name that stands for no signal
/// has no bits to assign.
fn run_last(
    alloc: Global,
    b: &mut Builder,
    last: &Last,
    bits: &[Wire],
    scope: &Scope,
    choice: &ChoiceWires,
    machine: &mut Machine,
) -> Result<(), AllocError>
    requires last { IsLast last.now (length bits.now) }
    requires bits { AreWires b.old bits.now }
    requires choice { IsReady b.old choice.now }
    requires machine { IsMachine b.old (widths_of machine.old.now.items) machine.old }
    requires holds { Holds scope.now (widths_of machine.old.now.items) }
    requires narrow { (id : ℕ) → get_or (widths_of machine.old.now.items) id 0 ≤ 128 }
    ensures extends { Extends b.old b.new }
    ensures machine { OnOk result (IsMachine b.new (widths_of machine.old.now.items) machine.new) }
    ensures ran { OnOk result ((env : ℕ → Bool) → held b.new env machine.new
        ≡ cond (get_or (wire_values b.old env bits.now) 0 false) (last_ran scope.now (last_kind last.now) (last_pick last.now (wire_values b.old env bits.now)) (held b.old env machine.old)) (held b.old env machine.old)) }
{
    match scope.meaning(last.target) {
        Entity::Signal { id, .. } => {
            let words = machine.now.as_slice();
            let guarded_pieces = whole_guarded_pieces(alloc, b, id, words)?;
            let own = words[id as usize].len() as u32;
            let width = own.max(last.width);
            let word = last_value(alloc, b, last, bits, width)?;
            let guard = last_guard(b, last, bits, scope, words, choice)?;
            store(
                b,
                machine,
                guarded_pieces.as_slice(),
                word.as_slice(),
                last.at_once,
                guard,
            )?;
            Ok(())
        }
        Entity::Constant { .. } => Ok(()),
        // Of itself a memory is never assigned.
        Entity::Memory { .. } => Ok(()),
        Entity::Instance => Ok(()),
    }
}

/// What a site adds to a body with that first token: its last assignment, where it is one of this body
/// and switched on. The bits are those from the site's first on.
pub(crate) fn run_site(
    alloc: Global,
    b: &mut Builder,
    site: &Site,
    token: u32,
    bits: &[Wire],
    scope: &Scope,
    choice: &ChoiceWires,
    machine: &mut Machine,
) -> Result<(), AllocError>
    requires site { IsSite (plain_site site.now) }
    requires room { site_bits_of (plain_site site.now) ≤ length bits.now }
    requires bits { AreWires b.old bits.now }
    requires choice { IsReady b.old choice.now }
    requires machine { IsMachine b.old (widths_of machine.old.now.items) machine.old }
    requires holds { Holds scope.now (widths_of machine.old.now.items) }
    requires narrow { (id : ℕ) → get_or (widths_of machine.old.now.items) id 0 ≤ 128 }
    ensures extends { Extends b.old b.new }
    ensures machine { OnOk result (IsMachine b.new (widths_of machine.old.now.items) machine.new) }
    ensures ran { OnOk result ((env : ℕ → Bool) → held b.new env machine.new
        ≡ site_ran scope.now token (plain_site site.now) (read_pick (plain_site site.now) (wire_values b.old env bits.now)) (held b.old env machine.old)) }
{
    match site.kind {
        SiteKind::Literal { .. } => Ok(()),
        SiteKind::Guard { .. } => Ok(()),
        SiteKind::Overwrite {
            target,
            width,
            now,
            names,
            ..
        } => {
            if site.token != token {
                return Ok(());
            }
            let places = site_bits(site).saturating_sub(width + 3) as usize;
            let last = Last {
                target,
                width,
                at_once: now,
                names,
                places,
            };
            run_last(alloc, b, &last, bits, scope, choice, machine)?;
            Ok(())
        }
    }
}
