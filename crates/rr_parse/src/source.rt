//! The tree of a source text.

ghost use Rattle.std.specs.Prelude.{ℕ, ◌<◌, ◌^◌, List, length, MatchResult};
ghost use Rattle.rr_syntax.specs.Tree.{SourceText, IsSameSource};
ghost use Rattle.rr_grammar.specs.Trees.{IsTree};
ghost use Rattle.rr_parse.specs.Exact.{IsParsed, IsRefusal, IsSpelled, NotSpelled};

use crate::modules::modules;
use bumpalo::Bump;
use rr_outside_words::first_outside;
use rr_parse_expr::{Input, ParseFault};
use rr_syntax::{Source, Token};
use rr_syntax_place::stop;

/// The one well-formed source text (IEEE 1364-2005 annex A.1.2) that the tokens spell, of depth at most
/// 500, with the number of its token at each leaf; it lies in the arena. `Unsupported` comes exactly
/// where a word outside the profile stands, at the first; `Syntax` exactly where none stands and the
/// tokens spell no such text, at the token where reading stopped. No bytes have two trees, token numbers
/// aside.
pub fn parse<'a>(tokens: &'a [Token<'a>], arena: &'a Bump) -> Result<&'a Source<'a>, ParseFault>
    requires short { length tokens.now < 2 ^ 32 }
    ensures exact { MatchResult result (λ source. IsParsed tokens.now source.now) (λ fault. IsRefusal tokens.now fault) }
    ensures one_tree { (bytes : List ℕ) (a b : SourceText) → IsTree bytes a → IsTree bytes b → IsSameSource a b }
{
    read(tokens, arena)
}

/// The tree, or the refusal.
fn read<'a>(tokens: &'a [Token<'a>], arena: &'a Bump) -> Result<&'a Source<'a>, ParseFault>
    requires short { length tokens.now < 2 ^ 32 }
    ensures { MatchResult result (λ source. IsParsed tokens.now source.now) (λ fault. IsRefusal tokens.now fault) }
{
    if let Some(at) = first_outside(tokens) {
        return Err(ParseFault::Unsupported(at));
    }
    match whole(tokens, arena) {
        Err(ParseFault::Syntax(_)) => Err(ParseFault::Syntax(stop(tokens))),
        answer => answer,
    }
}

/// The same where each word has a rule; `Syntax` comes at any token.
fn whole<'a>(tokens: &'a [Token<'a>], arena: &'a Bump) -> Result<&'a Source<'a>, ParseFault>
    requires short { length tokens.now < 2 ^ 32 }
    ensures { MatchResult result (λ source. IsSpelled tokens.now source.now) (λ fault. NotSpelled tokens.now fault) }
{
    let found = modules(Input { tokens, arena })?;
    if found.next as usize != tokens.len() {
        return Err(ParseFault::Syntax(found.next));
    }
    match arena.try_alloc(Source {
        modules: found.value,
    }) {
        Err(_) => Err(ParseFault::Memory),
        Ok(source) => Ok(source),
    }
}
