//! The law of expressions.

ghost use Rattle.std.specs.Prelude.{◌≡◌};
ghost use Rattle.rr_syntax.specs.Tree.{Tree, IsSame};
ghost use Rattle.rr_syntax.specs.Expressions.{spell, WellFormed};

/// No words have two expression trees.
pub fn one_tree()
    ensures { (a b : Tree) → WellFormed a → WellFormed b → spell a ≡ spell b → IsSame a b }
{}
