//! One law that is broken first, and one clock.
ghost use Rattle.std.specs.Prelude.{◌≡◌, ℕ, Bool, Option};
ghost use Rattle.rr_flat.specs.Signals.{Text};
ghost use Rattle.rr_flat.specs.Clocks.{OneClock};
ghost use Rattle.rr_flat.specs.Lawful.{Lawful};
ghost use Rattle.rr_flat.specs.Plain.{Flat};
ghost use Rattle.rr_lawful.specs.Checked.{Denies, FailsFirst, IsSameFault};
ghost use Rattle.rr_lawful.specs.declared.laws.LawFault.{LawFault};

/// A design breaks one law first, at one token, and no lawful design breaks any; and it has one clock.
pub fn one_fault()
    ensures one { (flat : Flat) (word : Option Text) (f g : LawFault) → FailsFirst flat word f → FailsFirst flat word g → IsSameFault f g }
    ensures unlawful { (flat : Flat) (word : Option Text) (f : LawFault) → FailsFirst flat word f → Denies (Lawful flat word) f }
    ensures one_clock { (flat : Flat) (word : Option Text) (c d : Option ℕ) (r s : Bool) → OneClock flat word c r → OneClock flat word d s → (c ≡ d) × (r ≡ s) }
{}
