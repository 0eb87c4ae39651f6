//! The laws of source texts.

ghost use Rattle.std.specs.Prelude.{ℕ, List};
ghost use Rattle.rr_syntax.specs.Words.{Word};
ghost use Rattle.rr_syntax.specs.Tree.{SourceText, IsSameSource};
ghost use Rattle.rr_grammar.specs.Formats.{IsExact};
ghost use Rattle.rr_grammar.specs.ModuleForms.{modules};
ghost use Rattle.rr_grammar.specs.Trees.{IsTree, Spells};

/// No bytes have two trees, token numbers aside.
pub fn one_tree()
    ensures { (bytes : List ℕ) (a b : SourceText) → IsTree bytes a → IsTree bytes b → IsSameSource a b }
{}

/// No words are the spelling of two well-formed source texts, token numbers aside.
pub fn one_source()
    ensures { (ws : List Word) (a b : SourceText) → Spells ws a → Spells ws b → IsSameSource a b }
{}

/// Reading modules by the grammar finds each list of good ones from its words, and finds nothing
/// else, whatever depth is allowed in the brackets of a module and in its items.
pub fn grammar_is_exact()
    ensures { (k j : ℕ) → IsExact (modules k j) }
{}
