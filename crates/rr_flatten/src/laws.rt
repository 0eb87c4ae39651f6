//! What the flat design of a source keeps, and what it is without a limit on the tokens of loops.
ghost use Rattle.std.specs.Prelude.{◌≡◌, Option, Ok};
ghost use Rattle.rr_syntax.specs.Tree.{SourceText};
ghost use Rattle.rr_flat.specs.Elaborated.{IsSound};
ghost use Rattle.rr_flat.specs.Plain.{Flat};
ghost use Rattle.rr_flat.specs.Signals.{Text};
ghost use Rattle.rr_flatten.specs.Laws.{LimitsAgree};
ghost use Rattle.rr_flatten.specs.Walk.{flat_of};

/// In the flat design of a source each driver of a whole signal drives one of its own instance or one
/// below the top, and the inputs are input ports of the top.
#[tactic(auto, using(crate::proofs::WalkOf::flat_designs))]
pub fn sound_designs()
    ensures { (source : SourceText) (top : Option Text) (flat : Flat) → flat_of source top ≡ Ok flat → IsSound flat }
{}

/// The limit on the tokens that the bodies of loops have in all their turns refuses what passes it, and
/// changes nothing else: neither a design nor another fault.
#[tactic(auto, using(crate::proofs::Limits::limit_laws))]
pub fn limits_agree()
    ensures { LimitsAgree }
{}
