//! A place in the tokens, and the words that may be taken there.

ghost use Rattle.std.specs.Prelude.{IfSome, IsTrue, Some, true, drop, ◌≡◌, ◌↔◌};
ghost use Rattle.rr_syntax.specs.Words.{words};
ghost use Rattle.rr_parse_expr.specs.Fronts.{front_keyword, front_mark};
ghost use Rattle.rr_syntax_place.specs.Going.{Goes, Takes};

use rr_parse_expr::{is_keyword, is_mark, name_at};
use rr_syntax::{Keyword, Mark, Token};

/// The token that comes next, of those before `end`; those before it are taken.
#[derive(Drop)]
pub(crate) struct Cursor<'a> {
    pub(crate) tokens: &'a [Token<'a>],
    pub(crate) end: u32,
    pub(crate) at: u32,
}

impl<'a> Cursor<'a> {
    /// Whether a mark comes next.
    pub(crate) fn is_mark(&self, mark: Mark) -> bool
        ensures { IsTrue result ↔ (front_mark (drop self.now.at (words self.now.tokens.now)) ≡ Some mark) }
    {
        is_mark(self.tokens, self.at, mark)
    }

    /// Whether a reserved word comes next.
    pub(crate) fn is_keyword(&self, word: Keyword) -> bool
        ensures { IsTrue result ↔ (front_keyword (drop self.now.at (words self.now.tokens.now)) ≡ Some word) }
    {
        is_keyword(self.tokens, self.at, word)
    }

    /// Whether a name comes next.
    pub(crate) fn is_name(&self) -> bool {
        name_at(self.tokens, self.at).is_some()
    }

    /// Takes the next token, if one is left and it may be taken.
    pub(crate) fn take_if(&mut self, may: bool) -> bool
        ensures goes { Goes self.old self.new }
        ensures takes { result ≡ true → Takes self.old self.new }
    {
        if may && self.at < self.end {
            self.at += 1;
            true
        } else {
            false
        }
    }

    /// Takes a mark, if it comes next.
    pub(crate) fn take(&mut self, mark: Mark) -> bool
        ensures goes { Goes self.old self.new }
        ensures takes { result ≡ true → Takes self.old self.new }
    {
        let may = self.is_mark(mark);
        self.take_if(may)
    }

    /// Takes a reserved word, if it comes next.
    pub(crate) fn take_word(&mut self, word: Keyword) -> bool
        ensures goes { Goes self.old self.new }
        ensures takes { result ≡ true → Takes self.old self.new }
    {
        let may = self.is_keyword(word);
        self.take_if(may)
    }

    /// Takes a mark that has to come next.
    pub(crate) fn expect(&mut self, mark: Mark) -> Option<()>
        ensures goes { Goes self.old self.new }
        ensures takes { IfSome result (λ t. Takes self.old self.new) }
    {
        if self.take(mark) { Some(()) } else { None }
    }

    /// Takes a reserved word that has to come next.
    pub(crate) fn expect_word(&mut self, word: Keyword) -> Option<()>
        ensures goes { Goes self.old self.new }
        ensures takes { IfSome result (λ t. Takes self.old self.new) }
    {
        if self.take_word(word) { Some(()) } else { None }
    }

    /// Takes a name, which has to come next.
    pub(crate) fn name(&mut self) -> Option<()>
        ensures goes { Goes self.old self.new }
        ensures takes { IfSome result (λ t. Takes self.old self.new) }
    {
        let may = self.is_name();
        if self.take_if(may) { Some(()) } else { None }
    }
}
