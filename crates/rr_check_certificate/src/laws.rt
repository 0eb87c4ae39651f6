//! Laws of certificates.
ghost use Rattle.std.specs.Prelude.{◌≡◌, ℕ, List};
ghost use Rattle.rr_check.specs.declared.verdict.Verdict.{Verdict};
ghost use Rattle.rr_check_certificate.specs.declared.fault.Flaw.{Flaw};
ghost use Rattle.rr_check_certificate.specs.Certificates.{FlawIs, IsJudged, IsNeverTrue, WrittenIsAccepted};
ghost use Rattle.rr_check.specs.declared.verdict.Verdict.TheVariants.{Accepted};

/// No two texts have two verdicts, or a verdict and a first bad line, or two first bad lines; and an
/// accepted proof shows that no input makes every output of the circuit true.
pub fn one_outcome()
    ensures one_verdict { (circuit proof : List ℕ) (v w : Verdict) → IsJudged circuit proof v → IsJudged circuit proof w → v ≡ w }
    ensures verdict_or_flaw { (circuit proof : List ℕ) (v : Verdict) (f : Flaw) (n : ℕ) → IsJudged circuit proof v → FlawIs circuit proof f n → ⊥ }
    ensures one_flaw { (circuit proof : List ℕ) (f g : Flaw) (n m : ℕ) → FlawIs circuit proof f n → FlawIs circuit proof g m → (f ≡ g) × (n ≡ m) }
    ensures accepted { (circuit proof : List ℕ) → IsJudged circuit proof Accepted → IsNeverTrue circuit }
{}

/// The texts that are written of a circuit and of lines that refute its formula, which name clauses
/// before them, are accepted.
pub fn written_is_accepted()
    ensures { WrittenIsAccepted }
{}
