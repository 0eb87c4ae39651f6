//! The words of a text.
ghost use Rattle.std.specs.Prelude.{◌≡◌, ◌+◌, ◌<◌, ◌≤◌, ◌^◌, [], ◌∷◌, length, MatchOption, MatchResult, OnSome, OnOk, if◌then◌else◌, Some, None, IfOk};

use crate::cut::{skipped, word_length};
use crate::fault::DumpFault;

/// A word, by its bytes and its line, from 1.
#[derive(Clone, Copy)]
pub(crate) struct Word<'a> {
    pub(crate) text: &'a [u8],
    pub(crate) line: u64,
}

/// The bytes of a text that are left, how many line feeds stand before them, and the line of the last
/// word that was read, 1 where none was.
#[derive(Drop)]
pub(crate) struct Words<'a> {
    pub(crate) rest: &'a [u8],
    pub(crate) above: u64,
    pub(crate) last: u64,
    ghost fits: { above + length rest.now < 2 ^ 64 },
}

impl Word<'_> {
    ghost use Rattle.rr_vcd_text.specs.Words.{is_end as is_end_of};
    ghost use Rattle.rr_vcd_text.specs.View.{plain_word};

    pub(crate) fn is_end(&self) -> bool
        ensures { result ≡ is_end_of (plain_word self.now) }
    {
        self.text == b"$end".as_slice()
    }
}

impl<'a> Words<'a> {
    ghost use Rattle.rr_vcd_text.specs.Words.{is_end, words};
    ghost use Rattle.rr_vcd_text.specs.Steps.{past_end};
    ghost use Rattle.rr_vcd_text.specs.View.{plain_word, left, final};
    ghost use Rattle.rr_vcd_text.specs.declared.fault.DumpFault.TheVariants.{BadVcd};

    /// The words of a text.
    pub(crate) fn of(text: &'a [u8]) -> Words<'a>
        ensures words { left result ≡ words text.now }
        ensures last { result.last ≡ 1 }
    {
        Words {
            rest: text,
            above: 0,
            last: 1,
        }
    }

    /// The next word.
    pub(crate) fn next(&mut self) -> Option<Word<'a>>
        ensures word { MatchOption result (left self.old ≡ []) (λ w. left self.old ≡ plain_word w ∷ left self.new) }
        ensures last { final self.new ≡ final self.old }
        ensures none { MatchOption result (self.new.last ≡ self.old.last) (λ w. self.new.last ≡ w.line) }
        ensures fewer { OnSome result (length self.new.rest.now < length self.old.rest.now) }
        ensures kept { length self.new.rest.now ≤ length self.old.rest.now }
    {
        let (rest, above) = skipped(self.rest, self.above);
        let length = word_length(rest);
        if length == 0 {
            return None;
        }
        let line = above + 1;
        let (text, rest) = rest.split_at(length);
        *self = Words {
            rest,
            above,
            last: line,
        };
        Some(Word { text, line })
    }

    /// Goes behind the next `$end`; whether there is one.
    pub(crate) fn skip_to_end(&mut self) -> bool
        ensures words { past_end (left self.old) ≡ (if result then Some (left self.new) else None) }
        ensures last { final self.new ≡ final self.old }
        ensures fewer { length self.new.rest.now ≤ length self.old.rest.now }
    {
        while let Some(word) = self.next() {
            if word.is_end() {
                return true;
            }
        }
        false
    }

    /// Goes behind the next `$end`, which closes a construct that begins on a line.
    pub(crate) fn past_end(&mut self, line: u64) -> Result<(), DumpFault>
        ensures words { MatchResult result (λ _. past_end (left self.old) ≡ Some (left self.new)) (λ e. (past_end (left self.old) ≡ None) × (e ≡ BadVcd line)) }
        ensures last { final self.new ≡ final self.old }
        ensures fewer { length self.new.rest.now ≤ length self.old.rest.now }
    {
        if !self.skip_to_end() {
            return Err(DumpFault::BadVcd(line));
        }
        Ok(())
    }

    /// The next word of a construct that begins on a line.
    pub(crate) fn need(&mut self, line: u64) -> Result<Word<'a>, DumpFault>
        ensures words { MatchResult result (λ w. left self.old ≡ plain_word w ∷ left self.new) (λ e. (left self.old ≡ []) × (e ≡ BadVcd line)) }
        ensures last { final self.new ≡ final self.old }
        ensures fewer { length self.new.rest.now ≤ length self.old.rest.now }
    {
        match self.next() {
            Some(word) => Ok(word),
            None => Err(DumpFault::BadVcd(line)),
        }
    }
}
