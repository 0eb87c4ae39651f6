//! What unfolding keeps and stands on, as contracts of functions that do nothing.
ghost use Rattle.rr_unfold.specs.Laws.{ClosedKept, CountedByMeanings, CountedUnlimited, FaultUnlimited, FormKept, InitialKept, LiteralsKept, LoopFreeStays, LoopFreeUncounted, LoopsGone, UnfoldByMeanings};

/// In what unfolding makes of a statement no loop stands, and it keeps the rules of statements.
#[tactic(auto, using(crate::proofs::Rules::rules_kept))]
pub fn form_laws()
    ensures free { LoopsGone }
    ensures form { FormKept }
    ensures literals { LiteralsKept }
    ensures closed { ClosedKept }
    ensures initial { InitialKept }
{}

/// A statement without loops stays as it is, and nothing is counted.
#[tactic(auto, using(crate::proofs::LoopFree::loop_free_laws))]
pub fn loop_free_laws()
    ensures stays { LoopFreeStays }
    ensures uncounted { LoopFreeUncounted }
{}

/// A limit on tokens refuses what passes it, and changes nothing else.
#[tactic(auto, using(crate::proofs::Limits::limits))]
pub fn limit_laws()
    ensures counted { CountedUnlimited }
    ensures fault { FaultUnlimited }
{}

/// Scopes in which each name means the same unfold a statement to the same one, with the same count.
#[tactic(auto, using(crate::proofs::Meanings::by_meanings))]
pub fn meaning_laws()
    ensures made { UnfoldByMeanings }
    ensures counted { CountedByMeanings }
{}
