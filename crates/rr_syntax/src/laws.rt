//! Laws of the trees, as contracts of functions that do nothing.

ghost use Rattle.rr_syntax.specs.Laws.{IsBare, KeepsDepth, KeepsLevel, KeepsRules, KeepsSpelling, SpellsSome};
ghost use Rattle.rr_syntax.specs.Nesting.{IsGreatestNesting};
ghost use Rattle.rr_syntax.specs.Tables.{LevelsAgree, TablesAgree};

/// Trees that differ in token numbers alone have the same tokens, rules, levels and depth.
#[tactic(auto, using(crate::proofs::LawsOfTrees::keeps_spelling, crate::proofs::LawsOfTrees::keeps_rules, crate::proofs::LawsOfTrees::keeps_depth, crate::proofs::LawsOfTrees::keeps_level, crate::proofs::LawsOfTrees::is_bare))]
pub fn bare_laws()
    ensures spelling { KeepsSpelling }
    ensures rules { KeepsRules }
    ensures depths { KeepsDepth }
    ensures levels { KeepsLevel }
    ensures twice { IsBare }
{}

/// Each tree but a source has at least one token.
#[tactic(auto, using(crate::proofs::LawsOfTrees::spells_some))]
pub fn spelling_laws()
    ensures some { SpellsSome }
{}

/// The tables of reserved words and marks agree with the names of their entries, and the levels
/// of the operators with IEEE 1364-2005 table 5-4.
#[tactic(auto, using(crate::proofs::TablesAgreeing::tables_agree, crate::proofs::TablesAgreeing::levels_agree))]
pub fn table_laws()
    ensures texts { TablesAgree }
    ensures levels { LevelsAgree }
{}

/// The depth of a source is the greatest number of levels that a node stands below it.
#[tactic(auto, using(crate::proofs::NestingOfNodes::is_greatest_nesting))]
pub fn depth_laws()
    ensures nesting { IsGreatestNesting }
{}
