//! The head of a dump: its declarations.
ghost use Rattle.std.specs.Prelude.{◌≡◌, ◌≤◌, ℕ, List, [], length, MatchResult, IfOk, false, if◌then◌else◌};
ghost use Rattle.rr_vcd_text.specs.Steps.{Further, Ended, is_remark as is_remark_of, opening as opening_of, closed as closed_by, scope_step, upscope_step, variable_step, opened_step, named_step};
ghost use Rattle.rr_vcd_text.specs.Dump.{Declared as Plain};
ghost use Rattle.rr_vcd_text.specs.View.{plain_declared, left, final, Fails, Refuses, IsHeading, IsHeaded, IsReading};

use crate::body::Changes;
use crate::declared::Declared;
use crate::fault::DumpFault;
use crate::number::number;
use crate::rooms::Rooms;
use crate::words::{Word, Words};
use std::alloc::Global;

/// What a word opens in the head.
#[derive(Clone, Copy, Debug, PartialEq, Eq)]
pub(crate) enum Opening {
    Remark,
    Scope,
    Upscope,
    Variable,
    End,
    Other,
}

/// A dump whose head has been read: what it declares, and the constructs of its body that are to come.
#[derive(Drop)]
pub struct Dump<'a> {
    pub declared: Declared<'a>,
    pub changes: Changes<'a>,
}

/// The words of a head that are left, behind what was declared.
#[derive(Drop)]
pub(crate) struct Head<'a> {
    pub(crate) words: Words<'a>,
    pub(crate) declared: Declared<'a>,
}

fn is_remark(text: &[u8]) -> bool
    ensures { result ≡ is_remark_of text.now }
{
    text == b"$comment".as_slice()
        || text == b"$date".as_slice()
        || text == b"$version".as_slice()
        || text == b"$timescale".as_slice()
}

fn opened_by(text: &[u8]) -> Opening
    ensures { result ≡ opening_of text.now }
{
    if text == b"$var".as_slice() {
        Opening::Variable
    } else if text == b"$scope".as_slice() {
        Opening::Scope
    } else if text == b"$upscope".as_slice() {
        Opening::Upscope
    } else if text == b"$enddefinitions".as_slice() {
        Opening::End
    } else if is_remark(text) {
        Opening::Remark
    } else {
        Opening::Other
    }
}

/// The next word is `$end`, which closes a construct that begins on a line.
fn close(words: &mut Words, line: u64) -> Result<(), DumpFault>
    ensures step { (d : Plain) → MatchResult result (λ _. closed_by d line (left words.old) ≡ Further d (left words.new)) (Fails (closed_by d line (left words.old))) }
    ensures last { final words.new ≡ final words.old }
    ensures fewer { length words.new.rest.now ≤ length words.old.rest.now }
{
    let word = words.need(line)?;
    if !word.is_end() {
        return Err(DumpFault::BadVcd(word.line));
    }
    Ok(())
}

impl<'a> Head<'a> {
    /// `$scope TYPE NAME $end`.
    fn scope(&mut self, line: u64) -> Result<(), DumpFault>
        ensures step { MatchResult result
            (λ _. scope_step (plain_declared self.old.declared) line (left self.old.words) ≡ Further (plain_declared self.new.declared) (left self.new.words))
            (Fails (scope_step (plain_declared self.old.declared) line (left self.old.words))) }
        ensures last { final self.new.words ≡ final self.old.words }
        ensures fewer { length self.new.words.rest.now ≤ length self.old.words.rest.now }
    {
        self.words.need(line)?;
        self.words.need(line)?;
        close(&mut self.words, line)?;
        self.declared.open()
    }

    /// `$upscope $end`.
    fn upscope(&mut self, line: u64) -> Result<(), DumpFault>
        ensures step { MatchResult result
            (λ _. upscope_step (plain_declared self.old.declared) line (left self.old.words) ≡ Further (plain_declared self.new.declared) (left self.new.words))
            (Fails (upscope_step (plain_declared self.old.declared) line (left self.old.words))) }
        ensures last { final self.new.words ≡ final self.old.words }
        ensures fewer { length self.new.words.rest.now ≤ length self.old.words.rest.now }
    {
        if self.declared.opened.is_empty() {
            return Err(DumpFault::BadVcd(line));
        }
        close(&mut self.words, line)?;
        self.declared.close();
        Ok(())
    }

    /// `$var TYPE SIZE ID NAME { WORD } $end`, behind its size.
    fn named(&mut self, line: u64, size: u64) -> Result<(), DumpFault>
        ensures step { MatchResult result
            (λ _. named_step (plain_declared self.old.declared) line size (left self.old.words) ≡ Further (plain_declared self.new.declared) (left self.new.words))
            (Fails (named_step (plain_declared self.old.declared) line size (left self.old.words))) }
        ensures last { final self.new.words ≡ final self.old.words }
        ensures fewer { length self.new.words.rest.now ≤ length self.old.words.rest.now }
    {
        let id = self.words.need(line)?;
        let name = self.words.need(line)?;
        self.words.past_end(line)?;
        self.declared.declare(id.text, size, name.text)
    }

    /// `$var TYPE SIZE ID NAME { WORD } $end`.
    fn variable(&mut self, line: u64) -> Result<(), DumpFault>
        ensures step { MatchResult result
            (λ _. variable_step (plain_declared self.old.declared) line (left self.old.words) ≡ Further (plain_declared self.new.declared) (left self.new.words))
            (Fails (variable_step (plain_declared self.old.declared) line (left self.old.words))) }
        ensures last { final self.new.words ≡ final self.old.words }
        ensures fewer { length self.new.words.rest.now ≤ length self.old.words.rest.now }
    {
        self.words.need(line)?;
        let size = self.words.need(line)?;
        let Some(bits) = number(size.text) else {
            return Err(DumpFault::BadVcd(size.line));
        };
        self.named(line, bits)
    }

    /// One construct of the head; whether the head goes on behind it.
    fn construct(&mut self, word: Word<'a>) -> Result<bool, DumpFault>
        ensures step { MatchResult result
            (λ more. opened_step (plain_declared self.old.declared) (opening_of word.entry.text.now) word.entry.line (left self.old.words)
            ≡ (if more then Further (plain_declared self.new.declared) (left self.new.words) else Ended (left self.new.words)))
            (Fails (opened_step (plain_declared self.old.declared) (opening_of word.entry.text.now) word.entry.line (left self.old.words))) }
        ensures same { IfOk result (λ more. more ≡ false → plain_declared self.new.declared ≡ plain_declared self.old.declared) }
        ensures last { final self.new.words ≡ final self.old.words }
        ensures fewer { length self.new.words.rest.now ≤ length self.old.words.rest.now }
    {
        let line = word.line;
        match opened_by(word.text) {
            Opening::Remark => self.words.past_end(line)?,
            Opening::Scope => self.scope(line)?,
            Opening::Upscope => self.upscope(line)?,
            Opening::Variable => self.variable(line)?,
            Opening::End => {
                self.words.past_end(line)?;
                return Ok(false);
            }
            Opening::Other => return Err(DumpFault::BadVcd(line)),
        }
        Ok(true)
    }

    /// The constructs of the head to its end.
    fn finish(&mut self) -> Result<(), DumpFault>
        ensures { (bytes : List ℕ) → IsHeading bytes self.old → MatchResult result (λ _. IsHeaded bytes self.new) (Refuses bytes) }
    {
        while let Some(word) = self.words.next() {
            if !self.construct(word)? {
                return Ok(());
            }
        }
        Err(DumpFault::BadVcd(self.words.last))
    }
}

/// The head of the dump that a text is, and the constructs of its body to come; or 41 where the text
/// breaks the form before its body. `IsReading` says how all that the body tells makes the one dump of
/// the text.
pub fn read_head<'a>(alloc: Global, bytes: &'a [u8]) -> Result<Dump<'a>, DumpFault>
    ensures { MatchResult result (λ dump. IsReading bytes.now (plain_declared dump.declared) [] dump.changes) (Refuses bytes.now) }
{
    let mut head = Head {
        words: Words::of(bytes),
        declared: Declared {
            scopes: 0,
            opened: Vec::new(alloc),
            variables: Vec::new(alloc),
        },
    };
    head.finish()?;
    let Head { words, declared } = head;
    let rooms = Rooms::of(alloc, declared.variables.as_slice())?;
    let most = rooms.most(declared.variables.as_slice());
    let changes = Changes {
        words,
        last: None,
        rooms,
        most,
    };
    Ok(Dump { declared, changes })
}
