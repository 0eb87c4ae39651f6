//! The lines that tell sites.
ghost use Rattle.std.specs.Prelude.{◌≡◌, ◌≤◌, ◌<◌, ◌^◌, ◌++◌, IfOk, OnOk, All};
ghost use Rattle.rr_lex.specs.Tokens.{IsSound, lexemes, words_of};
ghost use Rattle.rr_choice.specs.View.{plain_site, plain_sites};
ghost use Rattle.rr_sites_command.specs.Lines.{guard_line, literal_line, number_at as number_of, overwrite_line, site_line, site_lines};

use rr_elaborate::start_of;
use rr_lex::number_text;
use rr_syntax::{Kind, Number, Site, SiteKind, Token};
use std::alloc::{AllocError, Global};

/// The number at a token; the number 0 where there is none.
fn number_at(tokens: &[Token<'_>], at: u32) -> Number
    requires { All IsSound (words_of (lexemes tokens.now)) }
    ensures number { result ≡ number_of (lexemes tokens.now) at }
    ensures some { 1 ≤ result.width }
    ensures wide { result.width ≤ 128 }
    ensures fits { result.value < 2 ^ result.width }
{
    let none = Number {
        width: 1,
        signed: false,
        value: 0,
        any: 0,
        unknown: 0,
    };
    match tokens.get(at as usize) {
        None => none,
        Some(token) => match token.kind {
            Kind::Number(number) => number,
            Kind::Name(_) | Kind::System(_) | Kind::Keyword(_) | Kind::Mark(_) => none,
        },
    }
}

/// The line of a literal.
fn add_literal(
    alloc: Global,
    out: &mut Vec<u8>,
    number: usize,
    offset: u32,
    literal: Number,
) -> Result<(), AllocError>
    requires some { 1 ≤ literal.width }
    requires wide { literal.width ≤ 128 }
    requires fits { literal.value < 2 ^ literal.width }
    ensures { OnOk result (out.new.items ≡ out.old.items ++ literal_line number offset literal) }
{
    let head = format!(in alloc; "{number} literal {offset} ")?;
    let value = number_text(alloc, literal.width, literal.signed, literal.value)?;
    out.extend_from_slice(head.as_bytes())?;
    out.extend_from_slice(value.as_slice())?;
    out.push(b'\n')?;
    Ok(())
}

/// The line of a condition with so many names.
fn add_guard(
    alloc: Global,
    out: &mut Vec<u8>,
    number: usize,
    offset: u32,
    names: usize,
) -> Result<(), AllocError>
    ensures { OnOk result (out.new.items ≡ out.old.items ++ guard_line number offset names) }
{
    let line = format!(in alloc; "{number} guard {offset} guards {names}\n")?;
    out.extend_from_slice(line.as_bytes())?;
    Ok(())
}

/// The line of a variable with so many names.
fn add_overwrite(
    alloc: Global,
    out: &mut Vec<u8>,
    number: usize,
    offset: u32,
    target: &str,
    names: usize,
) -> Result<(), AllocError>
    ensures { OnOk result (out.new.items ≡ out.old.items ++ overwrite_line number offset target.now names) }
{
    let line = format!(in alloc; "{number} overwrite {offset} {target} guards {names}\n")?;
    out.extend_from_slice(line.as_bytes())?;
    Ok(())
}

/// The line of a site with its number.
fn add_line(
    alloc: Global,
    out: &mut Vec<u8>,
    tokens: &[Token<'_>],
    number: usize,
    site: &Site,
) -> Result<(), AllocError>
    requires { All IsSound (words_of (lexemes tokens.now)) }
    ensures { OnOk result (out.new.items ≡ out.old.items ++ site_line (lexemes tokens.now) number (plain_site site.now)) }
{
    let offset = start_of(tokens, site.token);
    match site.kind {
        SiteKind::Literal { .. } => {
            add_literal(alloc, out, number, offset, number_at(tokens, site.token))
        }
        SiteKind::Guard { names, .. } => add_guard(alloc, out, number, offset, names.len()),
        SiteKind::Overwrite { target, names, .. } => {
            add_overwrite(alloc, out, number, offset, target, names.len())
        }
    }
}

/// The lines of sites, numbered from 0 in their order. The tokens are those of their text.
pub(crate) fn lines_of(
    alloc: Global,
    tokens: &[Token<'_>],
    sites: &[Site],
) -> Result<Vec<u8>, AllocError>
    requires { All IsSound (words_of (lexemes tokens.now)) }
    ensures { IfOk result (λ text. text.items ≡ site_lines (lexemes tokens.now) 0 (plain_sites sites.now)) }
{
    let mut out = Vec::new(alloc);
    for (number, site) in sites.iter().enumerate() {
        add_line(alloc, &mut out, tokens, number, site)?;
    }
    Ok(out)
}
