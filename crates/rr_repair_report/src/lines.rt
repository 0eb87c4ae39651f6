//! The report on a choice.
ghost use Rattle.std.specs.Prelude.{◌≡◌, [], ◌++◌, ◌<◌, ◌^◌, if◌then◌else◌, IfOk, codes, decimal, length, string_bytes};
ghost use Rattle.rr_lex.specs.Tokens.{lexemes};
ghost use Rattle.rr_choice.specs.Sites.{IsSite};
ghost use Rattle.rr_choice.specs.View.{plain_site};
ghost use Rattle.rr_repair_report.specs.Texts.{byte_of, report as report_of, site_line, site_lines};

use crate::change::{kind_of, push_change};
use rr_choice::{Choice, Pick, SiteList, cost};
use rr_syntax::{Site, Token};
use std::alloc::{AllocError, Global};

/// The byte at which a token begins, 0 where there is no such token.
fn byte_of(tokens: &[Token<'_>], at: u32) -> u32
    ensures { result ≡ byte_of (lexemes tokens.now) at }
{
    match tokens.get(at as usize) {
        Some(token) => token.span.start,
        None => 0,
    }
}

/// The line of a site up to what it becomes.
fn head_text(alloc: Global, number: usize, kind: &str, offset: u32) -> Result<String, AllocError>
    ensures { IfOk result (λ text. string_bytes text ≡ codes "site " ++ (decimal number ++ (codes " " ++ (kind.now ++ (codes " " ++ (decimal offset ++ codes " ")))))) }
{
    format!(in alloc; "site {number} {kind} {offset} ")
}

/// Writes the line of a site.
fn push_line(
    alloc: Global,
    out: &mut String,
    tokens: &[Token<'_>],
    number: usize,
    site: &Site,
    pick: &Pick,
) -> Result<(), AllocError>
    requires { IsSite (plain_site site.now) }
    ensures { IfOk result (λ u. string_bytes out.new ≡ string_bytes out.old ++ site_line (lexemes tokens.now) number (plain_site site.now) pick.now) }
{
    let kind = kind_of(site);
    let offset = byte_of(tokens, site.token);
    let head = head_text(alloc, number, kind, offset)?;
    out.push_str(head.as_str())?;
    push_change(alloc, out, site, pick)?;
    out.push_str("\n")?;
    Ok(())
}

/// Writes the line of a site where its switch is on.
fn push_if_on(
    alloc: Global,
    out: &mut String,
    tokens: &[Token<'_>],
    number: usize,
    site: &Site,
    pick: &Pick,
) -> Result<(), AllocError>
    requires { IsSite (plain_site site.now) }
    ensures { IfOk result (λ u. string_bytes out.new ≡ string_bytes out.old ++ (if pick.now.on then (site_line (lexemes tokens.now) number (plain_site site.now) pick.now) else [])) }
{
    if !pick.on {
        return Ok(());
    }
    push_line(alloc, out, tokens, number, site, pick)?;
    Ok(())
}

/// Writes the lines of the sites that the picks of a choice switch on, each ended by LF, in the order of
/// the sites: the number of the site from 0, its kind, the byte of its first token and what it becomes.
/// The error is want of memory.
pub fn push_site_lines(
    alloc: Global,
    out: &mut String,
    tokens: &[Token<'_>],
    list: &SiteList<'_>,
    picks: &[Pick],
) -> Result<(), AllocError>
    ensures { IfOk result (λ u. string_bytes out.new ≡ string_bytes out.old ++ site_lines (lexemes tokens.now) 0 list.now picks.now) }
{
    let sites = list.sites();
    let count = sites.len().min(picks.len());
    for i in 0..count {
        push_if_on(alloc, out, tokens, i, &sites[i], &picks[i])?;
    }
    Ok(())
}

/// The report on a choice of a list of sites, whose first tokens are some of these: the number of
/// changes, a line for each of them, and the number of proposals that were tested before. The error is
/// want of memory.
pub fn report(
    alloc: Global,
    tokens: &[Token<'_>],
    list: &SiteList<'_>,
    choice: &Choice,
    proposals: u32,
) -> Result<String, AllocError>
    requires { length choice.now.picks.items < 2 ^ 32 }
    ensures { IfOk result (λ text. string_bytes text ≡ report_of (lexemes tokens.now) list.now choice.now.picks.items proposals) }
{
    let changes = cost(choice);
    let mut out = format!(in alloc; "repaired {changes}\n")?;
    push_site_lines(alloc, &mut out, tokens, list, choice.picks.as_slice())?;
    let tail = format!(in alloc; "proposals {proposals}\n")?;
    out.push_str(tail.as_str())?;
    Ok(out)
}
