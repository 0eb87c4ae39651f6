//! The text of a use.

ghost use Rattle.std.specs.Prelude.{◌≡◌, ◌+◌, ◌*◌, ◌<◌, ℕ, List, [], ◌∷◌, length, map, set, get_or, slice_get, Some, None, false, MatchOption, OnOk};
ghost use Rattle.rr_directive.specs.Expand.{Definition, Event};
ghost use Rattle.rr_directive.specs.View.{Advances, AreLeft, HasTexts, IsLeft, Left, left_names, Opens, Shows, UseAnswers, Begins};

use crate::definitions::Part;
use crate::fault::Wrong;
use crate::output::{Output, Stop};
use std::alloc::Global;

/// What is left of a text that is being read, with the number of its name.
#[derive(Clone, Copy)]
struct Frame<'a> {
    name: usize,
    rest: &'a [Part],
}

/// The text of the name with this number.
fn text_at<'a>(texts: &[Option<&'a [Part]>], number: usize) -> Option<&'a [Part]>
    ensures { result ≡ get_or texts.now number None }
{
    match texts.get(number) {
        Some(text) => *text,
        None => None,
    }
}

/// Whether the text of the name with this number is being read.
fn has_flag(flags: &[bool], number: usize) -> bool
    ensures { result ≡ get_or flags.now number false }
{
    match flags.get(number) {
        Some(flag) => *flag,
        None => false,
    }
}

/// Notes whether the text of the name with this number is being read.
fn set_flag(flags: &mut [bool], number: usize, value: bool)
    ensures { flags.new ≡ set flags.old number value }
{
    if number < flags.len() {
        flags[number] = value;
    }
}

/// What stands first in a text, and what is left behind it.
fn split(rest: &[Part]) -> Option<(Part, &[Part])>
    ensures { MatchOption result (rest.now ≡ []) (λ r. rest.now ≡ r.0 ∷ r.1.now) }
{
    match rest.split_first() {
        Some((part, rest)) => Some((*part, rest)),
        None => None,
    }
}

/// Begins the text of the name with this number.
fn begin<'a>(
    texts: &[Option<&'a [Part]>],
    flags: &mut [bool],
    frames: &mut Vec<Frame<'a>>,
    out: &mut Output,
    number: usize,
) -> Result<(), Stop>
    ensures measure { OnOk result ((out.new.left + 1 ≡ out.old.left) × (length frames.new.items ≡ length frames.old.items + 1)) }
    ensures answer { (names : List (List ℕ)) (ds : List Definition) (name : List ℕ) (ls : List Left) (events : List Event) (at : ℕ) → HasTexts names texts.now ds → Opens names flags.old (left_names ls)
        → AreLeft names frames.old.items ls → Shows out.old events → slice_get names number ≡ Some name → Begins names ds name ls events at flags.new frames.new.items out.new result }
{
    out.count_use()?;
    let rest = match text_at(texts, number) {
        Some(rest) => rest,
        None => return Err(Stop::Wrong(Wrong::Unknown)),
    };
    if has_flag(flags, number) {
        return Err(Stop::Wrong(Wrong::Loop));
    }
    set_flag(flags, number, true);
    frames.push(Frame { name: number, rest })?;
    Ok(())
}

/// Reads what is next in the innermost text, or ends this text.
fn advance<'a>(
    texts: &[Option<&'a [Part]>],
    flags: &mut [bool],
    frames: &mut Vec<Frame<'a>>,
    out: &mut Output,
    offset: u32,
    frame: Frame<'a>,
) -> Result<(), Stop>
    ensures measure { OnOk result (2 * out.new.left + length frames.new.items < 2 * out.old.left + length frames.old.items + 1) }
    ensures answer { (names : List (List ℕ)) (ds : List Definition) (l : Left) (ls : List Left) (events : List Event) → HasTexts names texts.now ds → Opens names flags.old (l.name ∷ left_names ls)
        → IsLeft names frame.entry l → AreLeft names frames.old.items ls → Shows out.old events → Advances names ds (l ∷ ls) events offset flags.new frames.new.items out.new result }
{
    match split(frame.rest) {
        None => {
            set_flag(flags, frame.name, false);
            Ok(())
        }
        Some((part, rest)) => {
            frames.push(Frame {
                name: frame.name,
                rest,
            })?;
            match part {
                Part::Byte(byte) => out.give_for(byte, offset),
                Part::Use(number) => begin(texts, flags, frames, out, number),
            }
        }
    }
}

/// Gives what the use of the name with this number gives; the use stands at that place.
pub(crate) fn give_use(
    alloc: Global,
    texts: &[Option<&[Part]>],
    flags: &mut [bool],
    out: &mut Output,
    number: usize,
    offset: u32,
) -> Result<(), Stop>
    ensures { (names : List (List ℕ)) (ds : List Definition) (name : List ℕ) (events : List Event) → HasTexts names texts.now ds → Opens names flags.old []
        → Shows out.old events → slice_get names number ≡ Some name → UseAnswers names ds name events offset flags.new out.new result }
{
    let mut frames = Vec::new(alloc);
    begin(texts, flags, &mut frames, out, number)?;
    while let Some(frame) = frames.pop() {
        advance(texts, flags, &mut frames, out, offset, frame)?;
    }
    Ok(())
}
