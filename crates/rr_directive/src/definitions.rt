//! The names of a file, and what they stand for.
ghost use Rattle.std.specs.Prelude.{◌≡◌, ℕ, List, [], ◌∷◌, slice_get, Option, Some, None, is_some, IfOk, OnOk};
ghost use Rattle.rr_directive.specs.Expand.{Definition, Item, is_defined as is_defined_in};
ghost use Rattle.rr_directive.specs.View.{Extends, IsText, Knows, names_of};

use indexmap::IndexSet;
use std::alloc::{AllocError, Global};

/// What a text asks for: a byte, or the text of the name with this number.
#[derive(Clone, Copy)]
pub(crate) enum Part {
    Byte(u8),
    Use(usize),
}

/// The names of a file, each with a number from 0 in the order in which they were met; the text that
/// each stands for, if any; and whether this text is being read.
#[derive(Drop)]
pub(crate) struct Definitions<'a> {
    names: IndexSet<&'a [u8]>,
    pub texts: Vec<Option<&'a [Part]>>,
    pub flags: Vec<bool>,
}

impl<'a> Definitions<'a> {
    /// No names.
    pub(crate) fn new(alloc: Global) -> Definitions<'a>
        ensures { Knows result [] }
    {
        Definitions {
            names: IndexSet::new(alloc),
            texts: Vec::new(alloc),
            flags: Vec::new(alloc),
        }
    }

    /// The number of a name, which may be new.
    pub(crate) fn number_of(&mut self, name: &'a [u8]) -> Result<usize, AllocError>
        ensures number { IfOk result (λ number. slice_get (names_of self.new) number ≡ Some name.now) }
        ensures extends { OnOk result (Extends (names_of self.old) (names_of self.new)) }
        ensures knows { OnOk result ((ds : List Definition) → Knows self.old ds → Knows self.new ds) }
    {
        match self.names.insert_full(name) {
            Ok((number, is_new)) => {
                if is_new {
                    self.texts.push(None)?;
                    self.flags.push(false)?;
                }
                Ok(number)
            }
            Err(_) => Err(AllocError),
        }
    }

    /// Whether a name has a text.
    pub(crate) fn is_defined(&mut self, name: &'a [u8]) -> Result<bool, AllocError>
        requires { (ds : List Definition) × Knows self.old ds }
        ensures answer { IfOk result (λ answer. (ds : List Definition) → Knows self.old ds → answer ≡ is_defined_in name.now ds) }
        ensures knows { OnOk result ((ds : List Definition) → Knows self.old ds → Knows self.new ds) }
    {
        let number = self.number_of(name)?;
        Ok(self.texts[number].is_some())
    }

    /// Gives a name a text, or none.
    pub(crate) fn define(
        &mut self,
        name: &'a [u8],
        text: Option<&'a [Part]>,
    ) -> Result<(), AllocError>
        requires { (ds : List Definition) × Knows self.old ds }
        ensures { OnOk result ((ds : List Definition) (items : Option (List Item)) → Knows self.old ds → IsText (names_of self.old) text.entry items
            → Knows self.new (record { name = name.now; text = items } ∷ ds)) }
    {
        let number = self.number_of(name)?;
        self.texts[number] = text;
        Ok(())
    }
}
