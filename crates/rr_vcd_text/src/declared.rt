//! What the head of a dump declares.
ghost use Rattle.std.specs.Prelude.{◌≡◌, MatchResult};
ghost use Rattle.rr_vcd_text.specs.Dump.{with_scope, without_scope, with_variable};
ghost use Rattle.rr_vcd_text.specs.View.{plain_declared};
ghost use Rattle.rr_vcd_text.specs.declared.fault.DumpFault.TheVariants.{Memory};

use crate::fault::DumpFault;

/// A variable (IEEE 1364-2005 section 18.2.3.7), by its identifier, its number of bits, the scope in which
/// it is declared directly, where there is one, by its number in the order of `$scope`, and its name there.
#[derive(Clone, Copy)]
pub struct Variable<'a> {
    pub id: &'a [u8],
    pub size: u64,
    pub scope: Option<u32>,
    pub name: &'a [u8],
}

/// How many scopes there are, those that are open, by their numbers, the innermost last, and the variables
/// in order.
#[derive(Drop)]
pub struct Declared<'a> {
    pub scopes: u32,
    pub opened: Vec<u32>,
    pub variables: Vec<Variable<'a>>,
}

impl<'a> Declared<'a> {
    /// Opens one scope more.
    pub(crate) fn open(&mut self) -> Result<(), DumpFault>
        ensures { MatchResult result (λ _. plain_declared self.new ≡ with_scope (plain_declared self.old)) (λ e. e ≡ Memory) }
    {
        // Numbers of scopes have 32 bits: a head of more takes 64 GiB.
        if self.scopes == u32::MAX {
            return Err(DumpFault::Memory);
        }
        self.opened.push(self.scopes)?;
        self.scopes += 1;
        Ok(())
    }

    /// Closes the innermost scope, where one is open.
    pub(crate) fn close(&mut self)
        ensures { plain_declared self.new ≡ without_scope (plain_declared self.old) }
    {
        let _ = self.opened.pop();
    }

    /// One variable more, in the innermost scope.
    pub(crate) fn declare(
        &mut self,
        id: &'a [u8],
        size: u64,
        name: &'a [u8],
    ) -> Result<(), DumpFault>
        ensures { MatchResult result (λ _. plain_declared self.new ≡ with_variable (plain_declared self.old) id.now size name.now) (λ e. e ≡ Memory) }
    {
        let scope = self.opened.last().copied();
        self.variables.push(Variable {
            id,
            size,
            scope,
            name,
        })?;
        Ok(())
    }
}
