//! Literals.
ghost use Rattle.std.specs.Prelude.{◌≡◌, ◌≤◌, ◌^◌, true};
ghost use Rattle.rr_cnf.specs.Clauses.{negated};
ghost use Rattle.rr_cnf.specs.Codes.{code_of};

use std::marker::Model;

/// A variable, numbered from 1 to 2^62, or its negation (DIMACS, "cnf": a positive or a negative
/// number). Literals are ordered by variable, the variable before its negation.
#[derive(Debug, Clone, Copy, PartialEq, Eq, PartialOrd, Ord, Hash)]
pub struct Lit {
    // twice the variable, and one more where it is negated
    code: u64,
}

impl Model for Lit {
    ghost use Rattle.std.specs.Prelude.{◌≡◌, ℕ, ◌*◌, ◌^◌, ◌+◌, ◌<◌, ◌≤◌};
    ghost use Rattle.rr_cnf.specs.Clauses.{Literal};
    ghost use Rattle.std.proofs.Common.{ap};
    ghost use Rattle.rr_cnf.specs.Codes.{code_of, literal_of, code_of-literal_of};

    ghost Value = { Literal };

    ghost view = { λ a. literal_of a.code };

    ghost invariant = { λ a. (2 ≤ a.code) × (a.code < 2 * (2 ^ 62 + 1)) };

    ghost inverse = { λ l. record { code = code_of l } };

    ghost inverse_ok = { λ a h. ap (λ n. record { code = n }) (code_of-literal_of a.code) };
}

/// The variable 1: what fills a place of a short clause that holds no literal.
impl Default for Lit {
    fn default() -> Lit {
        Lit { code: 2 }
    }
}

impl Lit {
    /// The variable `var`, from 1 to 2^62, or its negation.
    pub fn new(var: u64, negative: bool) -> Lit
        requires low { 1 ≤ var }
        requires high { var ≤ 2 ^ 62 }
        ensures { result ≡ record { var = var; negative = negative } }
    {
        Lit {
            code: 2 * var + u64::from(negative),
        }
    }

    /// The variable, from 1 to 2^62.
    pub fn var(self) -> u64
        ensures value { result ≡ self.var }
        ensures low { 1 ≤ result }
        ensures high { result ≤ 2 ^ 62 }
    {
        self.code / 2
    }

    /// Whether it is the variable's negation.
    pub fn is_negative(self) -> bool
        ensures { result ≡ self.negative }
    {
        self.code % 2 == 1
    }

    /// Twice the variable, and one more where it is negated: its place in tables by literal.
    pub fn code(self) -> u64
        ensures { result ≡ code_of self }
    {
        self.code
    }

    /// The literal that is true exactly where this one is false.
    pub fn negated(self) -> Lit
        ensures { result ≡ negated self }
    {
        Lit {
            code: self.code ^ 1,
        }
    }
}
