//! The body of a dump: its moments and changes.
ghost use Rattle.std.specs.Prelude.{◌≡◌, ℕ, ◌<◌, ◌≤◌, List, ◌++◌, ◌∷◌, [], length, drop, get_or, MatchResult, MatchOption, IfOk, OnSome};
ghost use Rattle.std.specs.List.{list_all};
ghost use Rattle.rr_vcd_text.specs.Numbers.{number as number_of};
ghost use Rattle.rr_vcd_text.specs.Dump.{Declared as PlainDeclared, Variable as PlainVariable, Told as PlainTold, IsDump, is_value as is_value_of, is_later as is_later_of, time_after as time_after_of};
ghost use Rattle.rr_vcd_text.specs.Steps.{Found, is_section as is_section_of, keyword as keyword_of, moment_at, scalar as scalar_of, vector as vector_of, other as other_of, begin as begin_of, begun_step, named};
ghost use Rattle.rr_vcd_text.specs.View.{plain_begin, plain_told, left, Fails, Refuses, AreRooms, SameReader, IsReading, bytes_left};

use crate::fault::DumpFault;
use crate::number::number;
use crate::rooms::{Rooms, is_within};
use crate::words::{Word, Words};

/// What one construct of the body tells: nothing; the time of a moment; the digits of a value of an
/// identifier, highest first; or that values are no longer dumped (`$dumpoff`).
#[derive(Clone, Copy)]
pub enum Told<'a> {
    Nothing,
    Moment(u64),
    Change { id: &'a [u8], digits: &'a [u8] },
    Off,
}

/// What a first word begins: a construct that it is whole, a comment, a change of the identifier behind
/// it with these digits, another change, or none.
#[derive(Clone, Copy)]
pub(crate) enum Begin<'a> {
    Whole(Told<'a>),
    Remark,
    Vector(&'a [u8]),
    Other,
    Bad,
}

/// The words of a body that are left, the last moment that was read, the room of each identifier, and
/// the greatest of them.
#[derive(Drop)]
pub struct Changes<'a> {
    pub(crate) words: Words<'a>,
    pub(crate) last: Option<u64>,
    pub(crate) rooms: Rooms<'a>,
    pub(crate) most: Option<u64>,
}

fn is_value(byte: u8) -> bool
    ensures { result ≡ is_value_of byte }
{
    byte == b'0' || byte == b'1' || byte == b'x' || byte == b'X' || byte == b'z' || byte == b'Z'
}

fn is_later(last: Option<u64>, time: u64) -> bool
    ensures { result ≡ is_later_of last time }
{
    match last {
        Some(last) => last < time,
        None => true,
    }
}

/// The last moment behind what was told.
fn time_after(last: Option<u64>, told: Told) -> Option<u64>
    ensures { result ≡ time_after_of last (plain_told told.entry) }
{
    match told {
        Told::Moment(time) => Some(time),
        Told::Nothing | Told::Change { .. } | Told::Off => last,
    }
}

fn is_section(text: &[u8]) -> bool
    ensures { result ≡ is_section_of text.now }
{
    text == b"$dumpvars".as_slice()
        || text == b"$dumpall".as_slice()
        || text == b"$dumpon".as_slice()
        || text == b"$end".as_slice()
}

fn keyword(text: &[u8]) -> Begin<'static>
    ensures { plain_begin result ≡ keyword_of text.now }
{
    if is_section(text) {
        Begin::Whole(Told::Nothing)
    } else if text == b"$comment".as_slice() {
        Begin::Remark
    } else if text == b"$dumpoff".as_slice() {
        Begin::Whole(Told::Off)
    } else {
        Begin::Bad
    }
}

/// `#N`, behind the `#`.
fn moment(last: Option<u64>, digits: &[u8]) -> Begin<'static>
    ensures { plain_begin result ≡ moment_at last (number_of digits.now) }
{
    match number(digits) {
        Some(time) if is_later(last, time) => Begin::Whole(Told::Moment(time)),
        _ => Begin::Bad,
    }
}

fn are_values(digits: &[u8]) -> bool
    ensures { result ≡ list_all is_value_of digits.now }
{
    digits.iter().all(|digit| is_value(*digit))
}

impl<'a> Changes<'a> {
    /// A value with its identifier directly behind it.
    fn scalar(&self, text: &'a [u8]) -> Begin<'a>
        requires { 0 < length text.now }
        ensures { (vs : List PlainVariable) → AreRooms vs self.now → plain_begin result ≡ scalar_of vs (get_or text.now 0 0) (drop 1 text.now) }
    {
        let (digits, id) = text.split_at(1);
        if is_within(self.rooms.find(id), 1) {
            Begin::Whole(Told::Change { id, digits })
        } else {
            Begin::Bad
        }
    }

    /// `b` or `B` with its digits, behind that letter.
    fn vector(&self, digits: &'a [u8]) -> Begin<'a>
        ensures { (vs : List PlainVariable) → AreRooms vs self.now → plain_begin result ≡ vector_of vs digits.now }
    {
        if !digits.is_empty() && are_values(digits) && is_within(self.most, digits.len()) {
            Begin::Vector(digits)
        } else {
            Begin::Bad
        }
    }

    fn other(&self) -> Begin<'a>
        ensures { (vs : List PlainVariable) → AreRooms vs self.now → plain_begin result ≡ other_of vs }
    {
        if is_within(self.most, 0) {
            Begin::Other
        } else {
            Begin::Bad
        }
    }

    /// What a word begins.
    fn begin(&self, text: &'a [u8]) -> Begin<'a>
        ensures { (vs : List PlainVariable) → AreRooms vs self.now → plain_begin result ≡ begin_of vs self.now.last text.now }
    {
        let Some((first, others)) = text.split_first() else {
            return Begin::Bad;
        };
        if is_value(*first) {
            return self.scalar(text);
        }
        match *first {
            b'b' | b'B' => self.vector(others),
            b'#' => moment(self.last, others),
            b'$' => keyword(text),
            b'r' | b'R' | b's' => self.other(),
            _ => Begin::Bad,
        }
    }

    /// The identifier that stands next, with room for so many digits, of a change that begins on a line.
    fn identifier(&mut self, line: u64, digits: usize) -> Result<&'a [u8], DumpFault>
        ensures step { (vs : List PlainVariable) (told : List ℕ → PlainTold) → AreRooms vs self.old → MatchResult result
            (λ id. named vs line digits told (left self.old.words) ≡ Found (told id.now) (left self.new.words))
            (Fails (named vs line digits told (left self.old.words))) }
        ensures same { SameReader self.old self.new }
    {
        let id = self.words.need(line)?;
        if !is_within(self.rooms.find(id.text), digits) {
            return Err(DumpFault::BadVcd(id.line));
        }
        Ok(id.text)
    }

    /// What a construct tells, behind its first word.
    fn told(&mut self, word: Word<'a>) -> Result<Told<'a>, DumpFault>
        ensures step { (vs : List PlainVariable) → AreRooms vs self.old → MatchResult result
            (λ t. begun_step vs (begin_of vs self.old.last word.entry.text.now) word.entry.line (left self.old.words) ≡ Found (plain_told t) (left self.new.words))
            (Fails (begun_step vs (begin_of vs self.old.last word.entry.text.now) word.entry.line (left self.old.words))) }
        ensures same { SameReader self.old self.new }
    {
        match self.begin(word.text) {
            Begin::Whole(told) => Ok(told),
            Begin::Remark => {
                self.words.past_end(word.line)?;
                Ok(Told::Nothing)
            }
            Begin::Vector(digits) => {
                let id = self.identifier(word.line, digits.len())?;
                Ok(Told::Change { id, digits })
            }
            Begin::Other => {
                self.identifier(word.line, 0)?;
                Ok(Told::Nothing)
            }
            Begin::Bad => Err(DumpFault::BadVcd(word.line)),
        }
    }

    /// What the next construct of the body tells, `None` at the end of the text; or 41 at the line where
    /// the text breaks the form. Behind the last construct the text is the dump that tells all that was
    /// told.
    pub fn next(&mut self) -> Result<Option<Told<'a>>, DumpFault>
        ensures told { (bytes : List ℕ) (d : PlainDeclared) (told : List PlainTold) → IsReading bytes d told self.old → MatchResult result
            (λ o. MatchOption o (IsDump bytes d told) (λ t. IsReading bytes d (told ++ plain_told t ∷ []) self.new))
            (Refuses bytes) }
        ensures fewer { IfOk result (λ o. OnSome o (bytes_left self.new < bytes_left self.old)) }
    {
        let Some(word) = self.words.next() else {
            return Ok(None);
        };
        let told = self.told(word)?;
        self.last = time_after(self.last, told);
        Ok(Some(told))
    }
}
