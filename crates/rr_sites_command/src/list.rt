//! The sites of a design, and the lines of the list of a text's sites.
ghost use Rattle.std.specs.Prelude.{◌≡◌, ◌≤◌, ◌<◌, ◌^◌, ℕ, Bool, All, List, Ok, Option, IfOk, MatchResult, length, option_map};
ghost use Rattle.rr_syntax.specs.Items.{FitLiteralsSource, NumberedSource, WellFormedSource, spell_source};
ghost use Rattle.rr_syntax.specs.View.{plain_source};
ghost use Rattle.rr_lex.specs.Tokens.{IsSound, lexemes, words_of};
ghost use Rattle.rr_flat.specs.Clocks.{OneClock};
ghost use Rattle.rr_flat.specs.Lawful.{Lawful};
ghost use Rattle.rr_flat.specs.View.{plain_flat};
ghost use Rattle.rr_flatten.specs.Walk.{flat_of};
ghost use Rattle.rr_clock.specs.Clock.{IsClockInput};
ghost use Rattle.rr_elaborate.specs.Designs.{IsDesignOf};
ghost use Rattle.rr_lawful_instance.specs.Listed.{AreRight};
ghost use Rattle.rr_directive.specs.Expand.{IsTaken};
ghost use Rattle.rr_kept.specs.Kept.{AreKept};
ghost use Rattle.rr_choice.specs.Sites.{Site};
ghost use Rattle.rr_run.specs.Refusals.{StopsWhere};
ghost use Rattle.rr_run.specs.Runs.{InOrder};
ghost use Rattle.rr_sites_command.specs.Lists.{AreSites, HasManySites, IsFewText, IsSiteText, RefusesMany, RefusesSites};

use crate::lines::lines_of;
use bumpalo::Bump;
use rr_choice::SiteList;
use rr_clock::clock_places;
use rr_flat::Flat;
use rr_kept::kept;
use rr_run::{FileDesign, LawfulDesign, Limit, Refusal, RunFault, file_design, placed_tokens};
use rr_sites_ordered::list_of;
use rr_syntax::{Source, Token};
use std::alloc::{AllocError, Global};

/// The most sites of a design.
const SITE_LIMIT: usize = 1024;

/// The sites of a source with its flat design and the clock of this.
fn sites_of<'a>(
    alloc: Global,
    source: &'a Source<'a>,
    flat: &Flat<'a>,
    clock: Option<u32>,
    arena: &'a Bump,
) -> Result<SiteList<'a>, AllocError>
    requires formed { WellFormedSource (plain_source source.now) }
    requires numbered { NumberedSource (plain_source source.now) }
    requires fit { FitLiteralsSource (plain_source source.now) }
    requires few { length (spell_source (plain_source source.now)) < 2 ^ 32 }
    requires design { (top : Option (List ℕ)) × (flat_of (plain_source source.now) top ≡ Ok (plain_flat flat.now)) }
    requires input { IsClockInput (plain_flat flat.now) clock }
    ensures list { IfOk result (λ list. AreSites (plain_source source.now) (plain_flat flat.now) clock list) }
    ensures right { (word : Option (List ℕ)) (rising : Bool) → Lawful (plain_flat flat.now) word → OneClock (plain_flat flat.now) word clock rising
        → IfOk result (λ list. AreRight (plain_source source.now) (plain_flat flat.now) word list) }
{
    let places = clock_places(alloc, flat, clock, arena)?;
    list_of(
        alloc,
        source,
        flat.scopes.as_slice(),
        flat.owners.as_slice(),
        places,
        arena,
    )
}

/// The sites of a lawful design, in the order of its text: those of the modules that have instances.
/// They are such as the laws of the design's instances ask.
pub fn design_sites<'a>(
    alloc: Global,
    design: &LawfulDesign<'a>,
    arena: &'a Bump,
) -> Result<SiteList<'a>, AllocError>
    requires tree { (bytes : List ℕ) × ((top : Option (List ℕ)) × IsDesignOf bytes (lexemes design.now.tokens.now) (plain_source design.now.source.now) top (plain_flat design.now.flat)) }
    requires input { IsClockInput (plain_flat design.now.flat) design.now.order.clock }
    requires fit { FitLiteralsSource (plain_source design.now.source.now) }
    requires few { length design.now.tokens.now < 2 ^ 32 }
    ensures list { IfOk result (λ list. AreSites (plain_source design.now.source.now) (plain_flat design.now.flat) design.now.order.clock list) }
    ensures right { (word : Option (List ℕ)) → InOrder design.now.flat design.now.order word → IfOk result (λ list. AreRight (plain_source design.now.source.now) (plain_flat design.now.flat) word list) }
{
    sites_of(
        alloc,
        design.source,
        &design.flat,
        design.order.clock,
        arena,
    )
}

/// The sites of the lawful design of a file that can be changed in the file, in the order of its text. They
/// are such as the laws of the design's instances ask.
pub fn file_sites<'a>(
    alloc: Global,
    file: &FileDesign<'a>,
    arena: &'a Bump,
) -> Result<SiteList<'a>, AllocError>
    requires small { length file.now.expanded.text.items ≤ 1048576 }
    requires tree { (top : Option (List ℕ)) × IsDesignOf file.now.expanded.text.items (lexemes file.now.design.tokens.now) (plain_source file.now.design.source.now) top (plain_flat file.now.design.flat) }
    requires input { IsClockInput (plain_flat file.now.design.flat) file.now.design.order.clock }
    requires fit { FitLiteralsSource (plain_source file.now.design.source.now) }
    requires few { length file.now.design.tokens.now < 2 ^ 32 }
    ensures kept { IfOk result (λ list. (listed : List Site) × (AreSites (plain_source file.now.design.source.now) (plain_flat file.now.design.flat) file.now.design.order.clock listed
        × AreKept file.now.expanded.origins.items (lexemes file.now.design.tokens.now) (plain_source file.now.design.source.now) listed list)) }
    ensures right { (word : Option (List ℕ)) → InOrder file.now.design.flat file.now.design.order word → IfOk result (λ list. AreRight (plain_source file.now.design.source.now) (plain_flat file.now.design.flat) word list) }
{
    let design = &file.design;
    let listed = design_sites(alloc, design, arena)?;
    kept(alloc, &file.expanded, design.tokens, design.source, &listed)
}

/// The lines of sites, or that they are too many.
fn told<'a>(
    alloc: Global,
    tokens: &[Token<'_>],
    list: &SiteList<'_>,
) -> Result<Vec<u8>, RunFault<'a>>
    requires { All IsSound (words_of (lexemes tokens.now)) }
    ensures { MatchResult result (λ text. IsFewText (lexemes tokens.now) list.now text.items) (StopsWhere (RefusesMany list.now)) }
{
    let sites = list.sites();
    if sites.len() > SITE_LIMIT {
        return Err(RunFault::Refused(Refusal::TooMany(Limit::Sites, sites.len() as u64)));
    }
    match lines_of(alloc, tokens, sites) {
        Ok(text) => Ok(text),
        Err(_) => Err(RunFault::Memory),
    }
}

/// The lines of the sites of a file of this size, or that they are too many.
fn list_file<'a>(
    alloc: Global,
    size: u32,
    file: &FileDesign<'a>,
    arena: &'a Bump,
) -> Result<Vec<u8>, RunFault<'a>>
    requires small { length file.now.expanded.text.items ≤ 1048576 }
    requires tree { (top : Option (List ℕ)) × IsDesignOf file.now.expanded.text.items (lexemes file.now.design.tokens.now) (plain_source file.now.design.source.now) top (plain_flat file.now.design.flat) }
    requires input { IsClockInput (plain_flat file.now.design.flat) file.now.design.order.clock }
    requires fit { FitLiteralsSource (plain_source file.now.design.source.now) }
    requires few { length file.now.design.tokens.now < 2 ^ 32 }
    ensures { (bytes : List ℕ) (top word : Option (List ℕ)) → length bytes ≡ size → IsTaken bytes file.now.expanded.text.items file.now.expanded.origins.items
        → IsDesignOf file.now.expanded.text.items (lexemes file.now.design.tokens.now) (plain_source file.now.design.source.now) top (plain_flat file.now.design.flat)
        → InOrder file.now.design.flat file.now.design.order word → MatchResult result (λ text. IsSiteText bytes top word text.items) (StopsWhere (HasManySites bytes top word)) }
{
    let list = match file_sites(alloc, file, arena) {
        Ok(list) => list,
        Err(_) => return Err(RunFault::Memory),
    };
    match placed_tokens(alloc, &file.expanded, size, file.design.tokens) {
        Ok(tokens) => told(alloc, tokens.as_slice(), &list),
        Err(_) => Err(RunFault::Memory),
    }
}

/// The lines of the sites of a file of at most 1,048,576 bytes that can be changed in the file, with a top
/// and a word for the clock, each given or not: `N literal OFFSET VALUE`, `N guard OFFSET guards G` and
/// `N overwrite OFFSET NAME guards G`, numbered from 0, with places in the file; or the first refusal: of
/// the directives (38 to 40 and 16), of the design (1 to 25, 37), then that there are more than
/// 1,024 such sites (16).
pub fn list_sites<'a>(
    alloc: Global,
    bytes: &[u8],
    top: Option<&str>,
    clock: Option<&str>,
    arena: &'a Bump,
) -> Result<Vec<u8>, RunFault<'a>>
    requires { length bytes.now ≤ 1048576 }
    ensures { MatchResult result
        (λ text. IsSiteText bytes.now (option_map (λ n. n.now) top.entry) (option_map (λ w. w.now) clock.entry) text.items)
        (StopsWhere (RefusesSites bytes.now (option_map (λ n. n.now) top.entry) (option_map (λ w. w.now) clock.entry))) }
{
    match file_design(alloc, bytes, top, clock, arena) {
        Err(fault) => Err(fault),
        Ok(file) => list_file(alloc, bytes.len() as u32, &file, arena),
    }
}
