//! The law of words in source texts.

ghost use Rattle.std.specs.Prelude.{List};
ghost use Rattle.rr_syntax.specs.declared.token.Token.{Token};
ghost use Rattle.rr_syntax.specs.Words.{words};
ghost use Rattle.rr_syntax.specs.Tree.{SourceText};
ghost use Rattle.rr_outside_words.specs.Profile.{NoneOutside};
ghost use Rattle.rr_grammar.specs.Trees.{Spells};

/// No well-formed source text spells a word outside the profile.
pub fn words_have_rules()
    ensures { (tokens : List Token) (t : SourceText) → Spells (words tokens) t → NoneOutside tokens }
{}
