//! Loops and instances, as contracts of functions that do nothing.
ghost use Rattle.rr_unfold_instance.specs.Laws.{UnfoldedInstances, CountedInstances, UnfoldedNames, UnfoldedFirsts, StraysOfInstances, RulesOfInstances, LoopsOfInstances};

/// An unfolded body in which a choice is made is the body in which it is made, unfolded; it has the
/// same turns, begins where the body begins, and what may come into it may come into the body.
#[tactic(auto, using(crate::proofs::Bodies::unfolded_laws))]
pub fn unfolded_instances()
    ensures bodies { UnfoldedInstances }
    ensures turns { CountedInstances }
    ensures names { UnfoldedNames }
    ensures firsts { UnfoldedFirsts }
{}

/// An instance keeps the rules on names of loops where it brings no such name, and has the loops of
/// the source.
#[tactic(auto, using(crate::proofs::Rules::rule_laws))]
pub fn rules_of_instances()
    ensures strays { StraysOfInstances }
    ensures rules { RulesOfInstances }
    ensures loops { LoopsOfInstances }
{}
