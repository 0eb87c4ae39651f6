//! The units of a file, in their order.
ghost use Rattle.std.specs.Prelude.{◌≡◌, ◌<◌, ◌≤◌, ◌^◌, ◌&&◌, ℕ, List, [], false, is_some, length, nat_lt, not, if◌then◌else◌};
ghost use Rattle.rr_directive.specs.Expand.{Event, Exact, Own, State, act, is_defined, is_on as is_on_in, opening, own, start, where_read};
ghost use Rattle.rr_directive.specs.Pieces.{TextUnit, directive_of as directive_in};
ghost use Rattle.rr_directive.specs.View.{Answers, Blanks, IsIn, Stands, Shows, exact_from, plain_branch, plain_branches, plain_piece, unit_at};

use crate::definitions::Definitions;
use crate::fault::Wrong;
use crate::output::{Output, Stop};
use crate::piece::{Directive, Kind, Piece, directive_of, joined, piece_at};
use crate::text::parts_of;
use crate::using::give_use;
use bumpalo::Bump;
use std::alloc::Global;

/// An open conditional: whether its bytes are read, whether those of its other branch are, and whether
/// that one has begun.
#[derive(Clone, Copy)]
struct Branch {
    on: bool,
    other: bool,
    last: bool,
}

/// What was read of a file.
#[derive(Drop)]
pub(crate) struct Reader<'a> {
    definitions: Definitions<'a>,
    branches: Vec<Branch>,
    out: Output,
}

/// Whether a unit has a name.
fn has_name(piece: Piece) -> bool
    ensures { result ≡ nat_lt piece.name piece.name_end }
{
    piece.name < piece.name_end
}

/// Whether a definition has a name that no directive has, and no arguments.
fn takes_text(bytes: &[u8], piece: Piece) -> bool
    requires { (at : ℕ) × IsIn bytes.now at piece }
    ensures { (at : ℕ) → result ≡ (nat_lt piece.name piece.name_end && (not piece.bracket && not (is_some (directive_in (plain_piece bytes.now at piece).name)))) }
{
    if !has_name(piece) || piece.bracket {
        return false;
    }
    directive_of(&bytes[piece.name..piece.name_end]).is_none()
}

/// Whether a name is defined or not, as it is asked.
fn agrees(found: bool, defined: bool) -> bool
    ensures { result ≡ (if defined then found else not found) }
{
    if defined { found } else { !found }
}

/// A conditional that opens, where bytes are read or not.
fn opened(on: bool, holds: bool) -> Branch
    ensures { plain_branch result ≡ record { on = on && holds; other = on && not holds; last = false } }
{
    Branch {
        on: on && holds,
        other: on && !holds,
        last: false,
    }
}

impl<'a> Reader<'a> {
    /// Nothing was read.
    pub(crate) fn new(alloc: Global) -> Reader<'a>
        ensures { Stands result start [] }
    {
        Reader {
            definitions: Definitions::new(alloc),
            branches: Vec::new(alloc),
            out: Output::new(alloc),
        }
    }

    /// Whether bytes are read that stand in the innermost open conditional.
    fn is_on(&self) -> bool
        ensures { result ≡ is_on_in (plain_branches self.now.branches.items) }
    {
        let count = self.branches.len();
        count == 0 || self.branches[count - 1].on
    }

    /// One blank for a directive, where such are read.
    fn blank(&mut self, on: bool, at: usize) -> Result<(), Stop>
        requires { at < 2 ^ 32 }
        ensures { (s : State) (events : List Event) → Stands self.old s events → Blanks on at s events self.new result }
    {
        if on {
            return self.out.give_for(32, at as u32);
        }
        Ok(())
    }

    fn define(
        &mut self,
        arena: &'a Bump,
        bytes: &'a [u8],
        at: usize,
        piece: Piece,
    ) -> Result<(), Stop>
        requires few { length bytes.now < 2 ^ 32 }
        requires within { IsIn bytes.now at piece }
        requires stands { (s : State) × ((events : List Event) × Stands self.old s events) }
        requires kind { piece.kind ≡ Kind.Named Directive.Define }
        ensures { (s : State) (events : List Event) → Stands self.old s events → Answers bytes.now s (unit_at bytes.now at piece) events self.new result }
    {
        if !self.is_on() {
            return Ok(());
        }
        if !takes_text(bytes, piece) {
            return Err(Stop::Wrong(Wrong::Bad));
        }
        let name = &bytes[piece.name..piece.name_end];
        let text = joined(arena, &bytes[piece.text..piece.end])?;
        let parts = match parts_of(&mut self.definitions, arena, text)? {
            Some(parts) => parts,
            None => return Err(Stop::Wrong(Wrong::Bad)),
        };
        self.definitions.define(name, Some(parts))?;
        self.blank(true, at)
    }

    fn undef(&mut self, bytes: &'a [u8], at: usize, piece: Piece) -> Result<(), Stop>
        requires few { length bytes.now < 2 ^ 32 }
        requires within { IsIn bytes.now at piece }
        requires stands { (s : State) × ((events : List Event) × Stands self.old s events) }
        requires kind { piece.kind ≡ Kind.Named Directive.Undef }
        ensures { (s : State) (events : List Event) → Stands self.old s events → Answers bytes.now s (unit_at bytes.now at piece) events self.new result }
    {
        if !self.is_on() {
            return Ok(());
        }
        if !has_name(piece) {
            return Err(Stop::Wrong(Wrong::Bad));
        }
        let name = &bytes[piece.name..piece.name_end];
        self.definitions.define(name, None)?;
        self.blank(true, at)
    }

    fn open_branch(
        &mut self,
        bytes: &'a [u8],
        at: usize,
        piece: Piece,
        defined: bool,
    ) -> Result<(), Stop>
        requires few { length bytes.now < 2 ^ 32 }
        requires within { IsIn bytes.now at piece }
        requires stands { (s : State) × ((events : List Event) × Stands self.old s events) }
        ensures { (s : State) (events : List Event) → act s (unit_at bytes.now at piece) ≡ opening s (plain_piece bytes.now at piece) (if defined then is_defined (plain_piece bytes.now at piece).name s.definitions else not (is_defined (plain_piece bytes.now at piece).name s.definitions))
            → Stands self.old s events → Answers bytes.now s (unit_at bytes.now at piece) events self.new result }
    {
        if !has_name(piece) {
            return Err(Stop::Wrong(Wrong::Bad));
        }
        let on = self.is_on();
        let name = &bytes[piece.name..piece.name_end];
        let found = self.definitions.is_defined(name)?;
        let holds = agrees(found, defined);
        self.branches.push(opened(on, holds))?;
        self.blank(on, at)
    }

    fn turn(&mut self, at: usize) -> Result<(), Stop>
        requires { at < 2 ^ 32 }
        ensures { (bytes : List ℕ) (u : TextUnit) (s : State) (events : List Event) → u.at ≡ at → u.piece.kind ≡ Kind.Named Directive.Else → Stands self.old s events → Answers bytes s u events self.new result }
    {
        let branch = match self.branches.pop() {
            Some(branch) => branch,
            None => return Err(Stop::Wrong(Wrong::Bad)),
        };
        if branch.last {
            return Err(Stop::Wrong(Wrong::Bad));
        }
        let on = self.is_on();
        self.branches.push(Branch {
            on: branch.other,
            other: branch.on,
            last: true,
        })?;
        self.blank(on, at)
    }

    fn close(&mut self, at: usize) -> Result<(), Stop>
        requires { at < 2 ^ 32 }
        ensures { (bytes : List ℕ) (u : TextUnit) (s : State) (events : List Event) → u.at ≡ at → u.piece.kind ≡ Kind.Named Directive.Endif → Stands self.old s events → Answers bytes s u events self.new result }
    {
        match self.branches.pop() {
            None => Err(Stop::Wrong(Wrong::Bad)),
            Some(_branch) => {
                let on = self.is_on();
                self.blank(on, at)
            }
        }
    }

    /// The bytes of a unit, of which those from a place on are exact.
    fn own(&mut self, bytes: &[u8], at: usize, piece: Piece, exact: usize) -> Result<(), Stop>
        requires few { length bytes.now < 2 ^ 32 }
        requires within { IsIn bytes.now at piece }
        ensures { (s : State) (events : List Event) (which : Exact) → act s (unit_at bytes.now at piece) ≡ where_read s (Own which)
            → exact_from exact at (unit_at bytes.now at piece).bytes ≡ own which at (unit_at bytes.now at piece).bytes
            → Stands self.old s events → Answers bytes.now s (unit_at bytes.now at piece) events self.new result }
    {
        if !self.is_on() {
            return Ok(());
        }
        self.out.give_own(bytes, at, piece.end, exact)
    }

    fn expand(
        &mut self,
        alloc: Global,
        bytes: &'a [u8],
        at: usize,
        piece: Piece,
    ) -> Result<(), Stop>
        requires few { length bytes.now < 2 ^ 32 }
        requires within { IsIn bytes.now at piece }
        requires stands { (s : State) × ((events : List Event) × Stands self.old s events) }
        requires kind { piece.kind ≡ Kind.Use }
        ensures { (s : State) (events : List Event) → Stands self.old s events → Answers bytes.now s (unit_at bytes.now at piece) events self.new result }
    {
        if !self.is_on() {
            return Ok(());
        }
        let number = self
            .definitions
            .number_of(&bytes[piece.name..piece.name_end])?;
        // The flags are lent apart from the texts, and put back.
        let mut flags = std::mem::replace(&mut self.definitions.flags, Vec::new(alloc));
        let given = give_use(
            alloc,
            &self.definitions.texts,
            &mut flags,
            &mut self.out,
            number,
            at as u32,
        );
        self.definitions.flags = flags;
        given
    }

    /// Reads the unit that stands at a place of the file.
    pub(crate) fn read(
        &mut self,
        alloc: Global,
        arena: &'a Bump,
        bytes: &'a [u8],
        at: usize,
        piece: Piece,
    ) -> Result<(), Stop>
        requires few { length bytes.now < 2 ^ 32 }
        requires within { IsIn bytes.now at piece }
        requires stands { (s : State) × ((events : List Event) × Stands self.old s events) }
        ensures { (s : State) (events : List Event) → Stands self.old s events → Answers bytes.now s (unit_at bytes.now at piece) events self.new result }
    {
        match piece.kind {
            Kind::Comment => self.own(bytes, at, piece, piece.end),
            Kind::Escaped => self.own(bytes, at, piece, piece.end - 1),
            Kind::Plain => self.own(bytes, at, piece, at),
            Kind::Use => self.expand(alloc, bytes, at, piece),
            Kind::Named(Directive::Stays) => self.own(bytes, at, piece, piece.end),
            Kind::Named(Directive::Define) => self.define(arena, bytes, at, piece),
            Kind::Named(Directive::Undef) => self.undef(bytes, at, piece),
            Kind::Named(Directive::Ifdef) => self.open_branch(bytes, at, piece, true),
            Kind::Named(Directive::Ifndef) => self.open_branch(bytes, at, piece, false),
            Kind::Named(Directive::Else) => self.turn(at),
            Kind::Named(Directive::Endif) => self.close(at),
            Kind::Named(Directive::Elsif) => Err(Stop::Wrong(Wrong::Bad)),
        }
    }

    /// What was given.
    pub(crate) fn finish(self) -> Output
        ensures { (s : State) (events : List Event) → Stands self.entry s events → Shows result events }
    {
        self.out
    }
}
