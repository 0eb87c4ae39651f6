//! What the flat design of a source is, as contracts of functions that do nothing.
ghost use Rattle.rr_flat_laws.specs.Laws.{NamesAreSignals, AssignmentsAreDrivers, ConnectionsAreDrivers, TopIsFirst, NoOtherDrivers, BlocksAreAlways, RulesKept};

/// In the flat design of a source each name that an instance declares as a net or a variable is
/// exactly one signal, which the name stands for there, and a name with words stands for a memory
/// that has exactly one signal for each word, in the order of the indices. Each signal is such a
/// name or word, and the ports of an instance are its inputs and outputs, each as it is declared
/// (IEEE 1364-2005 sections 3.2, 3.3, 4.9.3 and 12.3).
#[tactic(auto, using(crate::proofs::Naming::names_of_design))]
pub fn names_are_signals()
    ensures { NamesAreSignals }
{}

/// The drivers within an instance are the continuous assignments of its module, each once and in the
/// order of the text: each pair of an `assign`, and each net that is declared with a value
/// (sections 6.1.1 and 6.1.2).
#[tactic(auto, using(crate::proofs::Whole::assignments_of_design))]
pub fn assignments_are_drivers()
    ensures { AssignmentsAreDrivers }
{}

/// The instances below the top are those that the modules of the instances instantiate, each once
/// (section 12.1.2). Each port of one has exactly one driver where an expression is connected to it,
/// from the expression in the parent to an input and from an output to the expression, and none
/// where none is (section 12.3.9.2). The ports of the top have none.
pub fn connections_are_drivers()
    ensures { ConnectionsAreDrivers }
{}

/// The first instance is one of the top: of the module with the given name, or without a name of one
/// that no module instantiates (section 12.1.1).
pub fn top_is_first()
    ensures { TopIsFirst }
{}

/// Each driver is a continuous assignment of an instance, or a connection of one below the top.
pub fn no_other_drivers()
    ensures { NoOtherDrivers }
{}

/// The blocks of an instance are the `always` of its module, each once and in the order of the text:
/// those with edges are clocked, the others combinational (sections 9.7 and 9.9.2). In a block each
/// loop of the `always` is the block of its turns (section 9.6). There are no others.
pub fn blocks_are_always()
    ensures { BlocksAreAlways }
{}

/// In each `always` and each `initial` of an instance's module the names of the module's loops stand
/// where they may: in their loops as values, and nowhere else (section 9.6).
#[tactic(auto, using(crate::proofs::Ruling::rules_of_design))]
pub fn rules_are_kept()
    ensures { RulesKept }
{}
