//! The tokens of texts, for all tests.

ghost use Rattle.std.specs.Prelude.{◌<◌, ◌^◌, length, IfOk};

use bumpalo::Bump;
use rr_lex::lex;
use rr_syntax::Token;
use std::alloc::{AllocError, Global};
use std::test::Fail;

/// The tokens of a text that has some.
pub(crate) fn tokens_of<'a>(text: &str, arena: &'a Bump) -> Result<&'a [Token<'a>], Fail>
    ensures { IfOk result (λ tokens. length tokens.now < 2 ^ 32) }
{
    if text.len() > 1_000_000 {
        return Err(Fail::from("a text too long"));
    }
    match lex(text.as_bytes(), arena) {
        Ok(tokens) => Ok(tokens),
        Err(_) => Err(Fail::from("no tokens")),
    }
}

/// Puts a text behind another, so many times.
pub(crate) fn push_times(
    out: &mut String<Global>,
    text: &str,
    count: u32,
) -> Result<(), AllocError> {
    for _ in 0..count {
        out.push_str(text)?;
    }
    Ok(())
}

/// The reserved words of the grammar, as docs/LANGUAGE.md has it.
const IN_RULES: &str =
    "always assign begin case casex casez default else end endcase endmodule for \
    if initial input integer localparam module negedge or output parameter posedge reg signed wire";

/// Whether the grammar uses a reserved word.
pub(crate) fn is_in_rules(word: &str) -> bool {
    for rule in IN_RULES.split_ascii_whitespace() {
        if rule == word {
            return true;
        }
    }
    false
}
