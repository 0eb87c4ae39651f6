//! Laws of lists of sites.
ghost use Rattle.std.specs.Prelude.{◌≡◌, ℕ, List, Option};
ghost use Rattle.rr_lex.specs.Tokens.{Lexeme};
ghost use Rattle.rr_choice.specs.Sites.{Site};
ghost use Rattle.rr_kept.specs.Read.{SourceFile};
ghost use Rattle.rr_run.specs.Refusals.{Refusal};
ghost use Rattle.rr_run.specs.Runs.{IsSameRefusal};
ghost use Rattle.rr_sites_command.specs.Lists.{HasFileSites, HasSites, IsSiteText, RefusesSites};

/// No text has two lists of sites; no file is read in two ways or has two lists of kept sites, or a list and
/// a refusal, or two refusals, but for the byte that is told of a text without a tree.
pub fn one_outcome()
    ensures one_list { (bytes : List ℕ) (top word : Option (List ℕ)) (ts us : List Lexeme) (ss rs : List Site) → HasSites bytes top word ts ss → HasSites bytes top word us rs → (ts ≡ us) × (ss ≡ rs) }
    ensures one_file { (file : List ℕ) (top word : Option (List ℕ)) (a b : SourceFile) (ss rs : List Site) → HasFileSites file top word a ss → HasFileSites file top word b rs → (a ≡ b) × (ss ≡ rs) }
    ensures one_text { (file : List ℕ) (top word : Option (List ℕ)) (x y : List ℕ) → IsSiteText file top word x → IsSiteText file top word y → x ≡ y }
    ensures text_or_refusal { (file : List ℕ) (top word : Option (List ℕ)) (x : List ℕ) (refusal : Refusal) → IsSiteText file top word x → RefusesSites file top word refusal → ⊥ }
    ensures one_refusal { (file : List ℕ) (top word : Option (List ℕ)) (a b : Refusal) → RefusesSites file top word a → RefusesSites file top word b → IsSameRefusal a b }
{}
