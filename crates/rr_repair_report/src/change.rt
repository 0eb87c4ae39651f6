//! What one site becomes.
ghost use Rattle.std.specs.Prelude.{◌≡◌, [], ◌∷◌, ◌++◌, ◌<◌, ◌≤◌, IfOk, codes, decimal, false, if◌then◌else◌, string_bytes};
ghost use Rattle.rr_lex.specs.Numbers.{hex_byte, hex_text};
ghost use Rattle.rr_choice.specs.Sites.{IsSite};
ghost use Rattle.rr_choice.specs.View.{plain_site};
ghost use Rattle.rr_repair_report.specs.Texts.{assign_text, change_text, gate_text, guard_text, kind_text, literal_text};

use rr_choice::{Pick, cut, picked_form, picked_name};
use rr_syntax::{Site, SiteKind};
use std::alloc::{AllocError, Global};

/// The hexadecimal digit of a value below 16.
fn digit_of(value: u128) -> &'static str
    requires { value < 16 }
    ensures { result.now ≡ hex_byte value ∷ [] }
{
    match value {
        0 => "0",
        1 => "1",
        2 => "2",
        3 => "3",
        4 => "4",
        5 => "5",
        6 => "6",
        7 => "7",
        8 => "8",
        9 => "9",
        10 => "a",
        11 => "b",
        12 => "c",
        13 => "d",
        14 => "e",
        _ => "f",
    }
}

/// Writes so many hexadecimal digits of a value, the highest first.
fn push_hex(out: &mut String, count: u32, value: u128) -> Result<(), AllocError>
    ensures { IfOk result (λ u. string_bytes out.new ≡ string_bytes out.old ++ hex_text count value) }
{
    if count == 0 {
        return Ok(());
    }
    push_hex(out, count - 1, value / 16)?;
    out.push_str(digit_of(value % 16))?;
    Ok(())
}

/// The base of a literal, with its sign.
fn base_text(signed: bool) -> &'static str
    ensures { result.now ≡ (if signed then (codes "'sh") else (codes "'h")) }
{
    if signed { "'sh" } else { "'h" }
}

/// Writes a literal of at most 128 bits: the width, `'h` or `'sh`, and the digits (IEEE 1364-2005
/// section 3.5.1). The error is want of memory.
fn push_literal(
    alloc: Global,
    out: &mut String,
    width: u32,
    signed: bool,
    value: u128,
) -> Result<(), AllocError>
    requires { width ≤ 128 }
    ensures { IfOk result (λ u. string_bytes out.new ≡ string_bytes out.old ++ literal_text width signed value) }
{
    let base = base_text(signed);
    let head = format!(in alloc; "{width}{base}")?;
    out.push_str(head.as_str())?;
    push_hex(out, (width + 3) / 4, cut(value, width))?;
    Ok(())
}

/// What a condition becomes in a form with a name.
fn guard_text(alloc: Global, form: u8, name: &str) -> Result<String, AllocError>
    ensures { IfOk result (λ text. string_bytes text ≡ guard_text form name.now) }
{
    match form {
        0 => format!(in alloc; "!(E)"),
        1 => format!(in alloc; "(E) && {name}"),
        2 => format!(in alloc; "(E) && !{name}"),
        3 => format!(in alloc; "(E) || {name}"),
        _ => format!(in alloc; "(E) || !{name}"),
    }
}

/// When a last assignment is made.
fn gate_text(alloc: Global, form: u8, name: &str) -> Result<String, AllocError>
    ensures { IfOk result (λ text. string_bytes text ≡ gate_text form name.now) }
{
    match form {
        0 => format!(in alloc; "1'h1"),
        1 => format!(in alloc; "{name}"),
        _ => format!(in alloc; "!{name}"),
    }
}

/// The mark of an assignment, with a blank on both sides.
fn assign_text(now: bool) -> &'static str
    ensures { result.now ≡ assign_text now }
{
    if now { " = " } else { " <= " }
}

/// Writes a last assignment.
fn push_overwrite(
    alloc: Global,
    out: &mut String,
    gate: &str,
    target: &str,
    now: bool,
    width: u32,
    value: u128,
) -> Result<(), AllocError>
    requires { width ≤ 128 }
    ensures { IfOk result (λ u. string_bytes out.new ≡ string_bytes out.old ++ (codes "if (" ++ (gate.now ++ (codes ") " ++ (target.now ++ (assign_text now ++ (literal_text width false value ++ codes ";"))))))) }
{
    let mark = assign_text(now);
    let head = format!(in alloc; "if ({gate}) {target}{mark}")?;
    out.push_str(head.as_str())?;
    push_literal(alloc, out, width, false, value)?;
    out.push_str(";")?;
    Ok(())
}

/// Writes what a site becomes.
pub(crate) fn push_change(
    alloc: Global,
    out: &mut String,
    site: &Site,
    pick: &Pick,
) -> Result<(), AllocError>
    requires { IsSite (plain_site site.now) }
    ensures { IfOk result (λ u. string_bytes out.new ≡ string_bytes out.old ++ change_text (plain_site site.now).kind pick.now) }
{
    match site.kind {
        SiteKind::Literal { width, signed } => push_literal(alloc, out, width, signed, pick.value),
        SiteKind::Guard { names, .. } => {
            let name = picked_name(names, pick);
            let text = guard_text(alloc, picked_form(names, pick), name)?;
            out.push_str(text.as_str())?;
            Ok(())
        }
        SiteKind::Overwrite {
            target,
            width,
            now,
            names,
            ..
        } => {
            let name = picked_name(names, pick);
            let gate = gate_text(alloc, picked_form(names, pick), name)?;
            push_overwrite(alloc, out, gate.as_str(), target, now, width, pick.value)
        }
    }
}

/// The word for a kind of site.
pub(crate) fn kind_of(site: &Site) -> &'static str
    ensures { result.now ≡ kind_text (plain_site site.now).kind }
{
    match site.kind {
        SiteKind::Literal { .. } => "literal",
        SiteKind::Guard { .. } => "guard",
        SiteKind::Overwrite { .. } => "overwrite",
    }
}
