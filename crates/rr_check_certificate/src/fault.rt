//! What is wrong with the texts of a certificate.
use std::fmt;

/// What a bad line of a certificate is.
#[derive(Clone, Copy, Debug, PartialEq, Eq)]
pub enum Flaw {
    /// No line of a circuit's text (34).
    Circuit,
    /// No line of a proof over the circuit's formula (35).
    Proof,
    /// A RAT line of a proof (36).
    Rat,
}

impl fmt::Display for Flaw {
    ghost use Rattle.std.specs.Prelude.{Some};
    ghost use Rattle.rr_check_certificate.specs.Texts.{flaw_text};

    ghost output = { λ flaw. Some (flaw_text flaw) };

    fn fmt<W: fmt::Write>(&self, f: &mut fmt::Formatter<W>) -> fmt::Result {
        match self {
            Flaw::Circuit => write!(f, "34 BadCircuit"),
            Flaw::Proof => write!(f, "35 BadProof"),
            Flaw::Rat => write!(f, "36 RatLine"),
        }
    }
}

/// Why there is no verdict.
#[derive(Clone, Copy, Debug, PartialEq, Eq)]
pub enum CertificateFault {
    /// The first bad line is this one, counted from 1: of the circuit, or of the proof where the
    /// circuit has none.
    Flawed(Flaw, u64),
    /// Want of memory.
    Memory,
}
