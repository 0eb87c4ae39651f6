//! Laws of statements and of cycles.
ghost use Rattle.std.specs.Prelude.{◌≡◌, ℕ, Bool, List, Option};
ghost use Rattle.rr_expr.specs.declared.types.Bit.{Bit};
ghost use Rattle.rr_flat.specs.declared.design.Step.{Step};
ghost use Rattle.rr_flat.specs.Elaborated.{IsSound};
ghost use Rattle.rr_flat.specs.Plain.{Flat};
ghost use Rattle.rr_flat.specs.Writers.{Clocked, Writer, Writes};
ghost use Rattle.rr_cycle.specs.Cycles.{IsInputBit, IsNext, Run, Settled};
ghost use Rattle.rr_cycle.specs.Designs.{IsInOrder, IsLawful};
ghost use Rattle.rr_cycle.specs.Performing.{base, performed, run_blocks, updates_of_blocks};
ghost use Rattle.rr_cycle.specs.Exec.{Environment, applied};
ghost use Rattle.rr_cycle.specs.Laws.{OthersKept, WrittenByReadBits};

/// A statement keeps what it does not write by `=`. In a statement without latches the bits that it
/// writes stand only on the bits that it reads and does not write.
#[tactic(auto, using(crate::proofs::Local::statements))]
pub fn statement_laws()
    ensures others { OthersKept }
    ensures written { WrittenByReadBits }
{}

/// In a lawful design, as elaboration makes it, nothing writes an input of the top.
#[tactic(auto, using(crate::proofs::Free::inputs_of_the_top))]
pub fn inputs_are_free()
    ensures { (flat : Flat) → IsSound flat → IsLawful flat → (b : Bit) → IsInputBit flat b → (x : Writer) → Writes flat x b → ⊥ }
{}

/// A lawful design has, for each state and each row of inputs, at most one settled environment, and one
/// where it is as elaboration makes it and its steps have an order: what the steps, each performed once
/// in that order, make of the registers' and inputs' values. Of a state only the bits that clocked
/// blocks write count. There is such a design.
pub fn one_settled_environment()
    ensures exists { (flat : Flat) (clock : Option ℕ) (rising : Bool) (steps : List Step) → IsSound flat → IsInOrder flat clock rising steps
        → (state : Environment) (row : List ℕ) → (env : Environment) × Settled flat clock state row env }
    ensures computed { (flat : Flat) (clock : Option ℕ) (rising : Bool) (steps : List Step) → IsSound flat → IsInOrder flat clock rising steps
        → (state : Environment) (row : List ℕ) → Settled flat clock state row (performed flat steps (base flat clock state row)) }
    ensures registers { (flat : Flat) (clock : Option ℕ) (state other : Environment) (row : List ℕ) (env : Environment) → Settled flat clock state row env
        → ((k : ℕ) (b : Bit) → Writes flat (Clocked k) b → state b ≡ other b) → Settled flat clock other row env }
    ensures only { (flat : Flat) → IsLawful flat → (clock : Option ℕ)
        (state : Environment) (row : List ℕ) (e f : Environment) → Settled flat clock state row e → Settled flat clock state row f → e ≡ f }
    ensures met { (flat : Flat) × ((clock : Option ℕ) × ((rising : Bool) × ((steps : List Step) × (IsSound flat × IsInOrder flat clock rising steps)))) }
{}

/// A lawful design has exactly one next state after each settled environment: where it is as elaboration
/// makes it, what the updates of the clocked blocks, run one after the other, make of what their `=`
/// leaves.
#[tactic(auto, using(crate::proofs::Settled::nexts))]
pub fn one_next_state()
    ensures exists { (flat : Flat) → IsLawful flat → (env : Environment) → (next : Environment) × IsNext flat env next }
    ensures computed { (flat : Flat) → IsSound flat → IsLawful flat → (env : Environment)
        → IsNext flat env (applied (updates_of_blocks flat flat.clocked env) (run_blocks flat flat.clocked env)) }
    ensures only { (flat : Flat) (env e f : Environment) → IsNext flat env e → IsNext flat env f → e ≡ f }
{}

/// A lawful design has at most one run for each list of rows, and one where it is as elaboration makes it
/// and its steps have an order.
pub fn one_run()
    ensures exists { (flat : Flat) (clock : Option ℕ) (rising : Bool) (steps : List Step) → IsSound flat → IsInOrder flat clock rising steps
        → (rows : List (List ℕ)) → (outputs : List (List ℕ)) × Run flat clock rows outputs }
    ensures only { (flat : Flat) → IsLawful flat → (clock : Option ℕ) (rows a b : List (List ℕ)) → Run flat clock rows a → Run flat clock rows b → a ≡ b }
{}
