//! Laws of mended files.
ghost use Rattle.std.specs.Prelude.{◌≡◌, ℕ, List, Option};
ghost use Rattle.rr_run.specs.Refusals.{Refusal};
ghost use Rattle.rr_run.specs.Runs.{IsSameRefusal};
ghost use Rattle.rr_lint_file.specs.Clean.{MendedAreClean};
ghost use Rattle.rr_lint_file.specs.Files.{IsMendedFile, RefusesMend};

/// A file that was mended expands to a text whose tree is the mended source, which has neither fault; and a
/// file without them is put out as it was.
pub fn mended_are_clean()
    ensures { MendedAreClean }
{}

/// No file is mended in two ways, or in one and refused, or refused for two reasons, but for the byte that is
/// told of a text without a tree.
pub fn one_mended()
    ensures one_text { (file : List ℕ) (top : Option (List ℕ)) (x y : List ℕ) → IsMendedFile file top x → IsMendedFile file top y → x ≡ y }
    ensures text_or_refusal { (file : List ℕ) (top : Option (List ℕ)) (x : List ℕ) (refusal : Refusal) → IsMendedFile file top x → RefusesMend file top refusal → ⊥ }
    ensures one_refusal { (file : List ℕ) (top : Option (List ℕ)) (a b : Refusal) → RefusesMend file top a → RefusesMend file top b → IsSameRefusal a b }
{}
