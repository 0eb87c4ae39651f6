//! What an order of the steps of a design means.
ghost use Rattle.std.specs.Prelude.{ℕ, ◌<◌, Bool, List, Option, length};
ghost use Rattle.rr_expr.specs.declared.types.Bit.{Bit};
ghost use Rattle.rr_flat.specs.Signals.{Text};
ghost use Rattle.rr_flat.specs.declared.design.Step.{Step};
ghost use Rattle.rr_flat.specs.Lawful.{Lawful};
ghost use Rattle.rr_flat.specs.Ordered.{Ordered, StepNames, StepWrites, step_at};
ghost use Rattle.rr_flat.specs.Plain.{Flat};

/// In a design whose steps have an order, no step names a bit that it writes: each cycle is computed
/// step by step. The empty design is lawful, and its steps have an order.
#[tactic(auto, using(crate::proofs::Orders::orders))]
pub fn order_laws()
    ensures forwards { (flat : Flat) (word : Option Text) (clock : Option ℕ) (rising : Bool) (steps : List Step) → Ordered flat word clock rising steps
        → (i : ℕ) (b : Bit) → i < length steps → StepWrites flat (step_at steps i) b → StepNames flat (step_at steps i) b → ⊥ }
    ensures met { (flat : Flat) × ((word : Option Text) × ((clock : Option ℕ) × ((rising : Bool) × ((steps : List Step)
        × (Lawful flat word × Ordered flat word clock rising steps))))) }
{}
