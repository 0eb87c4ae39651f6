//! The law of statements.

ghost use Rattle.std.specs.Prelude.{◌≡◌, List, ◌++◌};
ghost use Rattle.rr_syntax.specs.Words.{Word};
ghost use Rattle.rr_syntax.specs.Tree.{Statement, IsSameStatement};
ghost use Rattle.rr_syntax.specs.Statements.{spell_statement, WellFormedStatement};
ghost use Rattle.rr_parse_stmt.specs.Exact.{Closes};

/// No words begin with two statements that end where they end, an `else` behind one aside.
pub fn one_statement()
    ensures { (a b : Statement) (left right : List Word) → WellFormedStatement a → WellFormedStatement b → Closes a left → Closes b right →
        spell_statement a ++ left ≡ spell_statement b ++ right → IsSameStatement a b × (left ≡ right) }
{}
