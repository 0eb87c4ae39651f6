//! Laws of transitions.
ghost use Rattle.std.specs.Prelude.{◌≡◌, ℕ, Bool, List, Option};
ghost use Rattle.rr_expr.specs.declared.types.Bit.{Bit};
ghost use Rattle.rr_flat.specs.declared.design.Step.{Step};
ghost use Rattle.rr_flat.specs.Plain.{Flat};
ghost use Rattle.rr_cycle.specs.Exec.{Environment};
ghost use Rattle.rr_choice.specs.Sites.{Site};
ghost use Rattle.rr_transition.specs.Cycles.{Cycle, Design, HasCycles, IsCycle};
ghost use Rattle.rr_transition.specs.Placed.{HasCyclesOfBits, PerformsSteps};
ghost use Rattle.rr_transition.specs.Transitions.{IsTransition, Transition};

/// A transition that gives the cycle of a flat design for every list of bits of a state and of a row gives
/// each of its cycles. So does one that gives what the steps of a lawful design in their order make, and
/// then its clocked blocks. There is a design with a transition that stands for it.
pub fn cycle_laws()
    ensures bits { (flat : Flat) (clock : Option ℕ) (t : Transition) (registers : List Bit) (choice : List Bool) → HasCyclesOfBits flat clock t registers choice →
        (state : Environment) (row : List ℕ) → IsCycle flat clock t registers choice state row }
    ensures steps { (j : Design) (clock : Option ℕ) (rising : Bool) (steps : List Step) (t : Transition) (registers : List Bit) (choice : List Bool) →
        PerformsSteps j clock rising steps t registers choice → HasCycles j t registers choice }
    ensures met { (j : Design) × ((sites : List Site) × ((t : Transition) × (Cycle j sites t × IsTransition t))) }
{}
