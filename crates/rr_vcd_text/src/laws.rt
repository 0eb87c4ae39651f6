//! Laws of dumps.
ghost use Rattle.std.specs.Prelude.{◌≡◌, ℕ, List};
ghost use Rattle.rr_vcd_text.specs.Dump.{Declared, Told, IsDump};
ghost use Rattle.rr_vcd_text.specs.Breaks.{IsBadAt};

/// No text is two dumps, or a dump and a text that breaks the form, or breaks it at two lines.
pub fn one_reading()
    ensures one_dump { (bytes : List ℕ) (d e : Declared) (told again : List Told) → IsDump bytes d told → IsDump bytes e again → (d ≡ e) × (told ≡ again) }
    ensures dump_or_line { (bytes : List ℕ) (d : Declared) (told : List Told) (line : ℕ) → IsDump bytes d told → IsBadAt bytes line → ⊥ }
    ensures one_line { (bytes : List ℕ) (line other : ℕ) → IsBadAt bytes line → IsBadAt bytes other → line ≡ other }
{}
