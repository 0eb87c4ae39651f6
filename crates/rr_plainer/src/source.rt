//! What the source has at its sites, and how far from it a choice is.

use rr_choice::{Choice, Pick, SiteList, guard_names};
use rr_syntax::{Kind, Site, SiteKind, Token};
use std::alloc::{AllocError, Global};

/// How many tokens on each side of a condition are looked at for the names that stand near it.
const REACH: usize = 400;

/// How many names are kept for a site.
const NAMES: usize = 8;

/// What the source has at each site, in their order: the value of a literal, which is 0 where the site is none;
/// and the places, among the names of a site, of those that stand nearest in the text, the nearest first.
#[derive(Drop)]
pub struct Near {
    pub(crate) values: Vec<u128>,
    pub(crate) names: Vec<Vec<u8>>,
}

/// The value of a literal as the source has it.
fn value_at(tokens: &[Token<'_>], site: &Site) -> u128 {
    match tokens.get(site.token as usize) {
        Some(
            Token {
                kind: Kind::Number(number),
                ..
            },
        ) => number.value,
        _ => 0,
    }
}

/// How many tokens a site takes: those of a condition, else one.
fn extent(site: &Site) -> usize {
    match site.kind {
        SiteKind::Guard { extent, .. } => extent as usize,
        SiteKind::Literal { .. } | SiteKind::Overwrite { .. } => 1,
    }
}

/// Adds the place of a token's name among the names of a site, where it is one of them and is not there yet.
fn add_name(
    tokens: &[Token<'_>],
    at: usize,
    names: &[&str],
    found: &mut Vec<u8>,
) -> Result<(), AllocError> {
    let Some(
        Token {
            kind: Kind::Name(text),
            ..
        },
    ) = tokens.get(at)
    else {
        return Ok(());
    };
    for place in 0..names.len().min(64) {
        if names[place] == *text {
            if !found.contains(&(place as u8)) {
                found.push(place as u8)?;
            }
            return Ok(());
        }
    }
    Ok(())
}

/// The names of a site that stand nearest to it, on either side.
fn names_near(alloc: Global, tokens: &[Token<'_>], site: &Site) -> Result<Vec<u8>, AllocError> {
    let names = guard_names(site);
    let mut found = Vec::new(alloc);
    if names.is_empty() {
        return Ok(found);
    }
    let first = site.token as usize;
    let end = first.saturating_add(extent(site));
    for far in 0..REACH {
        if found.len() >= NAMES {
            break;
        }
        if far < first {
            add_name(tokens, first - far - 1, names, &mut found)?;
        }
        add_name(tokens, end.saturating_add(far), names, &mut found)?;
    }
    Ok(found)
}

impl Near {
    /// What the source of these tokens has at the sites.
    pub fn of(
        alloc: Global,
        tokens: &[Token<'_>],
        list: &SiteList<'_>,
    ) -> Result<Near, AllocError> {
        let mut values = Vec::new(alloc);
        let mut names = Vec::new(alloc);
        let sites = list.sites();
        for site in sites.iter() {
            values.push(value_at(tokens, site))?;
            names.push(names_near(alloc, tokens, site)?)?;
        }
        Ok(Near { values, names })
    }

    /// The value that the source has at a site.
    pub(crate) fn value(&self, place: usize) -> u128 {
        self.values.get(place).copied().unwrap_or(0)
    }

    /// The names that stand nearest to a site.
    pub(crate) fn names(&self, place: usize) -> &[u8] {
        match self.names.get(place) {
            Some(names) => names.as_slice(),
            None => &[],
        }
    }
}

/// How far a pick is from what the source has: the bits in which a literal differs, and for a name how many
/// names stand nearer.
pub(crate) fn pick_distance(near: &Near, place: usize, site: &Site, pick: &Pick) -> u32 {
    if !pick.on {
        return 0;
    }
    match site.kind {
        SiteKind::Literal { .. } => (pick.value ^ near.value(place)).count_ones(),
        SiteKind::Guard { .. } | SiteKind::Overwrite { .. } => {
            if pick.form == 0 {
                return 0;
            }
            let names = near.names(place);
            match names.iter().position(|name| *name == pick.name) {
                Some(nearer) => nearer.min(64) as u32,
                None => 64,
            }
        }
    }
}

/// How far a choice is from the source: the sum of what its changes are.
pub fn distance(list: &SiteList<'_>, near: &Near, choice: &Choice) -> u32 {
    let sites = list.sites();
    let picks = choice.picks.as_slice();
    let mut sum: u32 = 0;
    for place in 0..sites.len().min(picks.len()) {
        sum = sum.saturating_add(pick_distance(near, place, &sites[place], &picks[place]));
    }
    sum
}
