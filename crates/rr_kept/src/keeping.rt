//! The sites that can be changed in the file.

ghost use Rattle.std.specs.Prelude.{◌≡◌, ◌<◌, ◌^◌, ℕ, length, nat_eq, unwrap_or, IfOk};
ghost use Rattle.std.specs.List.{filter};
ghost use Rattle.indexmap.specs.IndexMap.{get};
ghost use Rattle.rr_syntax.specs.Items.{NumberedSource};
ghost use Rattle.rr_syntax.specs.Tree.{SourceText};
ghost use Rattle.rr_syntax.specs.View.{plain_source};
ghost use Rattle.rr_choice.specs.View.{plain_site, plain_sites};
ghost use Rattle.rr_grammar.specs.Trees.{Spells};
ghost use Rattle.rr_lex.specs.Tokens.{lexemes, words_of, AreTokens, Rise};
ghost use Rattle.rr_kept.specs.Kept.{body_length_in, is_kept as is_kept_of, AreKept};

use crate::bodies::{bodies_of, body_len};
use crate::lifts::{round_lifts, token_lifts};
use indexmap::IndexMap;
use rr_choice::SiteList;
use rr_directive::{Expanded, Origin};
use rr_syntax::{Site, SiteKind, Source, Token};
use std::alloc::{AllocError, Global};

/// Whether a site can be changed in the file.
fn is_kept(origins: &[Origin], tokens: &[Token], bodies: &IndexMap<u64, u64>, site: &Site) -> bool
    requires spans { Rise 0 (length origins.now) (lexemes tokens.now) }
    requires few { (k : ℕ) → unwrap_or (get nat_eq bodies.now k) 0 < 2 ^ 63 }
    ensures { (source : SourceText) → ((k : ℕ) → unwrap_or (get nat_eq bodies.now k) 0 ≡ body_length_in source k) → result ≡ is_kept_of origins.now (lexemes tokens.now) source (plain_site site.now) }
{
    match site.kind {
        SiteKind::Literal { .. } => token_lifts(origins, tokens, site.token),
        SiteKind::Guard { extent, .. } => {
            round_lifts(origins, tokens, site.token, u64::from(extent))
        }
        SiteKind::Overwrite { .. } => {
            round_lifts(origins, tokens, site.token, body_len(bodies, site.token))
        }
    }
}

/// Those of some sites that can be changed in the file, in their order.
fn kept_sites<'a>(
    alloc: Global,
    origins: &[Origin],
    tokens: &[Token],
    bodies: &IndexMap<u64, u64>,
    list: &[Site<'a>],
) -> Result<Vec<Site<'a>>, AllocError>
    requires spans { Rise 0 (length origins.now) (lexemes tokens.now) }
    requires few { (k : ℕ) → unwrap_or (get nat_eq bodies.now k) 0 < 2 ^ 63 }
    ensures { (source : SourceText) → ((k : ℕ) → unwrap_or (get nat_eq bodies.now k) 0 ≡ body_length_in source k) → IfOk result (λ sites. plain_sites sites.items ≡ filter (is_kept_of origins.now (lexemes tokens.now) source) (plain_sites list.now)) }
{
    let mut sites = Vec::new(alloc);
    for site in list.iter() {
        if is_kept(origins, tokens, bodies, site) {
            sites.push(*site)?;
        }
    }
    Ok(sites)
}

/// The sites of an expanded text, whose tokens and tree these are, that can be changed in the file: a
/// literal whose bytes all stand in the file themselves, and a condition or a body before and behind which
/// a text can be put. One walk over the items of the source, and one over the list.
pub fn kept<'a>(
    alloc: Global,
    expanded: &Expanded,
    tokens: &[Token],
    source: &Source,
    list: &SiteList<'a>,
) -> Result<SiteList<'a>, AllocError>
    requires few { length expanded.now.text.items < 2 ^ 32 }
    requires tokens { AreTokens expanded.now.text.items (lexemes tokens.now) }
    requires tree { Spells (words_of (lexemes tokens.now)) (plain_source source.now) }
    requires numbered { NumberedSource (plain_source source.now) }
    ensures { IfOk result (λ ss. AreKept expanded.now.origins.items (lexemes tokens.now) (plain_source source.now) list.now ss) }
{
    let bodies = bodies_of(alloc, source)?;
    let sites = kept_sites(alloc, &expanded.origins, tokens, &bodies, list.sites())?;
    Ok(SiteList::new(sites))
}
