//! What choices and their instances keep, as contracts of functions that do nothing.

ghost use Rattle.rr_instance_laws.specs.Laws.{ChoicesAreDecoded, DecodedAreChoices, BitsAreFew, FormsStay, NoFaultsMore, NoFaultsByScalars, NoFaultsInTests, NamesFromGuards, BitsFromGuards, BitsOfTests, TruthOfGuards, TruthOfTests, TruthOfGates, TruthOfScalars, KeepsAtNoCost, TargetsStay, RulesStay, LiteralsStayFit, FirstsOfExpressions, FirstsOfStatements};
ghost use Rattle.rr_instance_laws.specs.Relation.{TreesExist, TreesAgree};

/// Every choice of sites is read from some list of bits, and every list of bits is read to a choice; a
/// site has at most 138 of them.
#[tactic(auto, using(crate::proofs::DecodeLaws::decode_laws, crate::proofs::Few::bits_are_few))]
pub fn choice_laws()
    ensures every { ChoicesAreDecoded }
    ensures decoded { DecodedAreChoices }
    ensures few { BitsAreFew }
{}

/// An instance of an expression has its width and its sign, and no fault where it has none.
#[tactic(auto, using(crate::proofs::FormLaws::form_laws))]
pub fn form_laws()
    ensures forms { FormsStay }
    ensures faults { NoFaultsMore }
    ensures scalars { NoFaultsByScalars }
    ensures tests { NoFaultsInTests }
{}

/// Each name that stands in an instance, and each bit that it names, is one of the expression or of a
/// guard there.
#[tactic(auto, using(crate::proofs::NameLaws::name_laws))]
pub fn name_laws()
    ensures names { NamesFromGuards }
    ensures bits { BitsFromGuards }
    ensures tests { BitsOfTests }
{}

/// A condition with a guard holds as the function of its form says.
#[tactic(auto, using(crate::proofs::TruthLaws::truth_laws))]
pub fn truth_laws()
    ensures guards { TruthOfGuards }
    ensures tests { TruthOfTests }
    ensures gates { TruthOfGates }
    ensures scalars { TruthOfScalars }
{}

/// A choice without a switch that is on makes the tree itself, and any choice a target itself.
#[tactic(auto, using(crate::proofs::OffLaws::off_laws))]
pub fn stay_laws()
    ensures free { KeepsAtNoCost }
    ensures targets { TargetsStay }
{}

/// An instance of a well-formed tree is well-formed, and its literals are fit where those of the tree
/// are.
#[tactic(auto, using(crate::proofs::RuleLaws::rule_laws))]
pub fn rule_laws()
    ensures rules { RulesStay }
    ensures literals { LiteralsStayFit }
{}

/// The first token of a tree whose leaves have the numbers of their tokens is where the tree begins.
#[tactic(auto, using(crate::proofs::FirstLaws::first_laws))]
pub fn first_laws()
    ensures expressions { FirstsOfExpressions }
    ensures statements { FirstsOfStatements }
{}

/// The relation of instances has a tree for every choice, and trees that stand in it for one choice are
/// equal but for token numbers.
#[tactic(auto, using(crate::proofs::Related::relation_laws))]
pub fn relation_laws()
    ensures exist { TreesExist }
    ensures agree { TreesAgree }
{}
