//! What the changes of a source are, as the contract of a function that does nothing.

ghost use Rattle.rr_patch.specs.Laws.{ChangesAreFit, ChangesEdit, ChangesPrint};

/// The changes of a source's pieces make its edits, which print it, and the code can write them.
#[tactic(auto, using(crate::proofs::Joined::changes_edit, crate::proofs::Joined::changes_print, crate::proofs::Joined::changes_are_fit))]
pub fn change_laws()
    ensures edit { ChangesEdit }
    ensures print { ChangesPrint }
    ensures fit { ChangesAreFit }
{}
