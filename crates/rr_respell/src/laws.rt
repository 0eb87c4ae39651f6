//! What a printed source is, as contracts of functions that do nothing.

ghost use Rattle.rr_respell.specs.Laws.{KeepsBytes, PrintsInstance, SpellsBoth};

/// The pieces of a choice spell the source, and with their new tokens its instance.
#[tactic(auto, using(crate::proofs::SourceParts::spells))]
pub fn spelling_laws()
    ensures spelled { SpellsBoth }
{}

/// The tree of the printed bytes is the instance, and the bytes of the source but those of replaced
/// literals stand in them in order and whole.
#[tactic(auto, using(crate::proofs::PrintedTree::prints_instance, crate::proofs::KeptBytes::keeps_bytes))]
pub fn print_laws()
    ensures tree { PrintsInstance }
    ensures bytes { KeepsBytes }
{}
