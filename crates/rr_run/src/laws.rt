//! Laws of runs.
ghost use Rattle.std.specs.Prelude.{◌≡◌, ℕ, List, Bool, Option};
ghost use Rattle.rr_lex.specs.Tokens.{Lexeme};
ghost use Rattle.rr_flat.specs.Plain.{Flat};
ghost use Rattle.rr_run.specs.Files.{IsFileDesign, IsFileRun, RefusesFile, RefusesFileDesign};
ghost use Rattle.rr_run.specs.Laws.{OwnRefusal, OwnRun, PlainRun};
ghost use Rattle.rr_run.specs.declared.rows.TableKind.{TableKind};
ghost use Rattle.rr_run.specs.Refusals.{Refusal};
ghost use Rattle.rr_run.specs.Runs.{IsLawfulDesign, IsRun, IsSameRefusal, Refuses, RefusesDesign};

/// No bytes have two lawful designs, or one and a refusal; no design and table of one kind have two runs, or
/// a run and a refusal, or two refusals, but for the byte that is told of a text without a tree.
pub fn one_outcome()
    ensures one_design { (bytes : List ℕ) (top word : Option (List ℕ)) (ts us : List Lexeme) (f g : Flat) (c d : Option ℕ) (r s : Bool)
        → IsLawfulDesign bytes top word ts f c r → IsLawfulDesign bytes top word us g d s → (ts ≡ us) × ((f ≡ g) × ((c ≡ d) × (r ≡ s))) }
    ensures design_or_refusal { (bytes : List ℕ) (top word : Option (List ℕ)) (ts : List Lexeme) (f : Flat) (c : Option ℕ) (r : Bool) (refusal : Refusal)
        → IsLawfulDesign bytes top word ts f c r → RefusesDesign bytes top word refusal → ⊥ }
    ensures one_run { (kind : TableKind) (bytes table : List ℕ) (top word : Option (List ℕ)) (x y : List ℕ) → IsRun kind bytes table top word x → IsRun kind bytes table top word y → x ≡ y }
    ensures run_or_refusal { (kind : TableKind) (bytes table : List ℕ) (top word : Option (List ℕ)) (x : List ℕ) (refusal : Refusal)
        → IsRun kind bytes table top word x → Refuses kind bytes table top word refusal → ⊥ }
    ensures one_refusal { (kind : TableKind) (bytes table : List ℕ) (top word : Option (List ℕ)) (a b : Refusal)
        → Refuses kind bytes table top word a → Refuses kind bytes table top word b → IsSameRefusal a b }
{}

/// No file has two lawful designs, or one and a refusal; no file and table of one kind have two runs, or a run
/// and a refusal, or two refusals, but for the byte that is told of a text without a tree.
pub fn one_file_outcome()
    ensures one_design { (file : List ℕ) (top word : Option (List ℕ)) (ts us : List Lexeme) (f g : Flat) (c d : Option ℕ) (r s : Bool)
        → IsFileDesign file top word ts f c r → IsFileDesign file top word us g d s → (ts ≡ us) × ((f ≡ g) × ((c ≡ d) × (r ≡ s))) }
    ensures design_or_refusal { (file : List ℕ) (top word : Option (List ℕ)) (ts : List Lexeme) (f : Flat) (c : Option ℕ) (r : Bool) (refusal : Refusal)
        → IsFileDesign file top word ts f c r → RefusesFileDesign file top word refusal → ⊥ }
    ensures one_run { (kind : TableKind) (file table : List ℕ) (top word : Option (List ℕ)) (x y : List ℕ) → IsFileRun kind file table top word x → IsFileRun kind file table top word y → x ≡ y }
    ensures run_or_refusal { (kind : TableKind) (file table : List ℕ) (top word : Option (List ℕ)) (x : List ℕ) (refusal : Refusal)
        → IsFileRun kind file table top word x → RefusesFile kind file table top word refusal → ⊥ }
    ensures one_refusal { (kind : TableKind) (file table : List ℕ) (top word : Option (List ℕ)) (a b : Refusal)
        → RefusesFile kind file table top word a → RefusesFile kind file table top word b → IsSameRefusal a b }
{}

/// A file that is its own expansion has the runs of the text that it is, and its refusals, but for the byte
/// that is told of a text without a tree. A file without a backtick, of at most 1,048,576 bytes, is such.
pub fn files_run_as_texts()
    ensures run { OwnRun }
    ensures refusal { OwnRefusal }
    ensures plain { PlainRun }
{}
