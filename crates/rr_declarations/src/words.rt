//! The words of declarations (IEEE 1364-2005 section 4.9.3).
ghost use Rattle.std.specs.Prelude.{◌≡◌, ◌+◌, ◌*◌, ◌≤◌, [], ◌∷◌, OnOk, IfOk, IfErr, IfSome, is_none};
ghost use Rattle.rr_syntax.specs.View.{plain_declarator};
ghost use Rattle.rr_declarations.specs.Declarations.{indices, words_faults, words_in};
ghost use Rattle.rr_declarations.specs.Sound.{AreIndices, IsRange};
ghost use Rattle.rr_declarations.specs.Values.{range_in};
ghost use Rattle.rr_memory_words.specs.Words.{AreWords, word_count as count_of_words, words_of as words_between};

use crate::declare::Declaration;
use crate::values::{range_of, range_width};
use rr_expr::Scope;
use rr_flat::{FlatFault, Limit, Port};
use rr_memory_words::word_count;
use rr_syntax::Declarator;

/// The greatest number of words of a memory.
const WORDS: u32 = 256;

/// Whether a name has no words.
#[tactic(auto, unfolding(rr_syntax::specs::View::plain_declarator, rr_syntax::specs::View::plain_range))]
pub(crate) fn has_no_words(name: &Declarator) -> bool
    ensures { result ≡ is_none (plain_declarator name.now).words }
{
    match &name.words {
        None => true,
        Some(_) => false,
    }
}

/// The bounds of the words of a name, or their first fault: only a variable that is no port has some.
#[tactic(auto, unfolding(crate::specs::Values::range_in, rr_syntax::specs::View::plain_declarator))]
pub(crate) fn bounds_of(
    one: &Declaration,
    name: &Declarator,
    known: &Scope,
) -> Result<Option<(u32, u32)>, FlatFault>
    ensures value { result ≡ range_in known.now (indices one.now (plain_declarator name.now)) }
    ensures sound { IfOk result (λ r. AreIndices one.now r) }
{
    match one.port {
        Port::Inner if one.variable => range_of(&name.words, known),
        Port::Inner | Port::Input | Port::Output => Ok(None),
    }
}

/// The lowest index and the number of words between two bounds.
fn words_of(bounds: Option<(u32, u32)>) -> Option<(u32, u32)>
    requires { IsRange bounds }
    ensures value { result ≡ words_between bounds }
    ensures sound { IfSome result (λ w. (1 ≤ w.1) × (w.0 + w.1 ≤ 65536)) }
{
    match bounds {
        None => None,
        Some((left, right)) => Some((left.min(right), range_width(bounds))),
    }
}

/// The words between bounds, where these have no fault: no more than 256.
pub(crate) fn few_words(
    one: &Declaration,
    bounds: &Result<Option<(u32, u32)>, FlatFault>,
) -> Result<Option<(u32, u32)>, FlatFault>
    requires { IfOk bounds.now (λ r. AreIndices one.now r) }
    ensures value { IfOk result (λ w. w ≡ words_in bounds.now) }
    ensures none { OnOk result (words_faults (words_in bounds.now) ≡ []) }
    ensures sound { IfOk result (λ w. AreWords one.now.variable one.now.port w) }
    ensures fault { IfErr result (λ f. words_faults (words_in bounds.now) ≡ f ∷ []) }
{
    let words = match bounds {
        Ok(range) => words_of(*range),
        Err(_) => None,
    };
    let count = word_count(words);
    if count > WORDS {
        return Err(FlatFault::TooMany(Limit::Words, count as u64));
    }
    Ok(words)
}

/// The bits of all words of that width.
pub(crate) fn bits_of_words(words: Option<(u32, u32)>, width: u32) -> u64
    requires low { 1 ≤ width }
    requires high { width ≤ 128 }
    requires some { 1 ≤ count_of_words words }
    requires few { count_of_words words ≤ 65536 }
    ensures value { result ≡ count_of_words words * width }
    ensures low { 1 ≤ result }
    ensures high { result ≤ 8388608 }
{
    word_count(words) as u64 * width as u64
}
