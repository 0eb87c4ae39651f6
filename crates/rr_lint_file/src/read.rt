//! Designs of files whose targets and labels are right.
ghost use Rattle.std.specs.Prelude.{◌≡◌, ◌≤◌, ◌<◌, ◌^◌, ℕ, false, List, None, Option, IfOk, MatchResult, length, option_map};
ghost use Rattle.rr_directive.specs.Expand.{IsTaken};
ghost use Rattle.rr_lex.specs.Tokens.{lexemes};
ghost use Rattle.rr_syntax.specs.View.{plain_source};
ghost use Rattle.rr_flat.specs.Lawful.{RightLabels, RightTargets};
ghost use Rattle.rr_flat.specs.Plain.{Flat as PlainFlat};
ghost use Rattle.rr_flat.specs.View.{plain_flat};
ghost use Rattle.rr_elaborate.specs.Designs.{IsDesign, IsDesignOf, Refuses as RefusesText};
ghost use Rattle.rr_elaborate.specs.declared.design.DesignFault.TheVariants.{Memory as NoMemory};
ghost use Rattle.rr_lawful.specs.Checked.{Denies, FailsFirst, HasRightTexts};
ghost use Rattle.rr_run.specs.Refusals.{StopsWhere};
ghost use Rattle.rr_lint_file.specs.Files.{HasNoFlat, HasWrongText, RefusesMend};

use bumpalo::Bump;
use rr_directive::{Expanded, expand};
use rr_elaborate::{Design, DesignFault, elaborate, start_of};
use rr_lawful::{LawFault, check_texts};
use rr_run::{Fault, Refusal, RunFault, of_design, of_directives, placed};
use rr_syntax::Token;
use std::alloc::Global;

/// A file with its expansion and the flat design of that, whose targets and labels are right.
#[derive(Drop)]
pub(crate) struct FileText<'a> {
    pub(crate) expanded: Expanded,
    pub(crate) design: Design<'a>,
}

/// Whether memory ran out.
fn is_memory(fault: DesignFault) -> bool
    ensures { result ≡ false → (fault ≡ NoMemory) → ⊥ }
{
    match fault {
        DesignFault::Memory => true,
        _ => false,
    }
}

/// Why the expansion of a file of this size has no flat design.
fn without_design<'a>(expanded: &Expanded, size: u32, fault: DesignFault) -> RunFault<'a>
    ensures { (file text : List ℕ) (top : Option (List ℕ)) → length file ≡ size → IsTaken file text expanded.now.origins.items
        → RefusesText text top fault → StopsWhere (HasNoFlat file top) result }
{
    if is_memory(fault) {
        return RunFault::Memory;
    }
    match of_design(fault) {
        RunFault::Refused(refusal) => RunFault::Refused(placed(expanded, size, refusal)),
        RunFault::Memory => RunFault::Memory,
    }
}

/// Which target or label is wrong, told in the file of this size.
fn wrong_text<'a>(
    expanded: &Expanded,
    size: u32,
    tokens: &[Token<'_>],
    fault: &LawFault,
) -> RunFault<'a>
    ensures { (file text : List ℕ) (top : Option (List ℕ)) (flat : PlainFlat) → length file ≡ size → IsTaken file text expanded.now.origins.items
        → IsDesign text (lexemes tokens.now) top flat → FailsFirst flat None fault.now → Denies (HasRightTexts flat None) fault.now → StopsWhere (HasWrongText file top) result }
{
    let refusal = match fault {
        LawFault::BadTarget(token) => Refusal::At(Fault::BadTarget, start_of(tokens, *token)),
        LawFault::WildLabel(token) => Refusal::At(Fault::WildLabel, start_of(tokens, *token)),
        // No other law is asked.
        _ => return RunFault::Memory,
    };
    RunFault::Refused(placed(expanded, size, refusal))
}

/// The design of an expansion, where its targets and labels are right.
fn checked<'a>(
    alloc: Global,
    expanded: Expanded,
    size: u32,
    design: Design<'a>,
) -> Result<FileText<'a>, RunFault<'a>>
    ensures expanded { IfOk result (λ d. d.expanded ≡ expanded) }
    ensures same { IfOk result (λ d. (d.design.tokens ≡ design.entry.tokens) × ((d.design.source ≡ design.entry.source) × (plain_flat d.design.flat ≡ plain_flat design.entry.flat))) }
    ensures targets { IfOk result (λ d. RightTargets (plain_flat d.design.flat)) }
    ensures labels { IfOk result (λ d. RightLabels (plain_flat d.design.flat)) }
    ensures answer { (file text : List ℕ) (top : Option (List ℕ)) → length file ≡ size → IsTaken file text expanded.origins.items
        → IsDesign text (lexemes design.entry.tokens.now) top (plain_flat design.entry.flat) → MatchResult result (λ d. Unit {0}) (StopsWhere (HasWrongText file top)) }
{
    match check_texts(alloc, &design.flat, None) {
        Ok(()) => Ok(FileText { expanded, design }),
        Err(fault) => Err(wrong_text(&expanded, size, design.tokens, &fault)),
    }
}

/// The design of a file of at most 1,048,576 bytes, whose directives are expanded, with a top, where its
/// targets and labels are right; or the first refusal (38 to 40, 1 to 16, 37, 24, 25).
pub(crate) fn file_text<'a>(
    alloc: Global,
    bytes: &[u8],
    top: Option<&str>,
    arena: &'a Bump,
) -> Result<FileText<'a>, RunFault<'a>>
    requires { length bytes.now ≤ 1048576 }
    ensures expansion { IfOk result (λ d. IsTaken bytes.now d.expanded.text.items d.expanded.origins.items) }
    ensures few { IfOk result (λ d. length d.expanded.text.items ≤ 1048576) }
    ensures design { IfOk result
        (λ d. IsDesignOf d.expanded.text.items (lexemes d.design.tokens.now) (plain_source d.design.source.now) (option_map (λ n. n.now) top.entry) (plain_flat d.design.flat)) }
    ensures targets { IfOk result (λ d. RightTargets (plain_flat d.design.flat)) }
    ensures labels { IfOk result (λ d. RightLabels (plain_flat d.design.flat)) }
    ensures tokens { IfOk result (λ d. length d.design.tokens.now < 2 ^ 32) }
    ensures answer { MatchResult result (λ d. Unit {0}) (StopsWhere (RefusesMend bytes.now (option_map (λ n. n.now) top.entry))) }
{
    let expanded = match expand(alloc, bytes) {
        Ok(expanded) => expanded,
        Err(fault) => return Err(of_directives(fault)),
    };
    let size = bytes.len() as u32;
    match elaborate(alloc, expanded.text.as_slice(), top, arena) {
        Ok(design) => checked(alloc, expanded, size, design),
        Err(fault) => Err(without_design(&expanded, size, fault)),
    }
}
