//! What the value of an expression stands on.
ghost use Rattle.rr_expr.specs.LowBits.{LowBitsKept};
ghost use Rattle.rr_expr.specs.Reading.{ValueByNamedBits, ShapeByNames, ValueByNames, FaultByNames};

/// The value of an expression depends only on the bits that it names: two environments that agree on
/// these give it one value in each context. A select by a constant index names the bits at its
/// places, of a memory those of its word, and by any other index all bits of its name, of a memory
/// those of all words, and those that the index names.
#[tactic(auto, using(crate::proofs::NamedBits::value_by_named_bits))]
pub fn value_laws()
    ensures named { ValueByNamedBits }
{}

/// Shape, value and first fault of an expression depend on the scope at the names that stand in it
/// alone.
#[tactic(auto, using(crate::proofs::NamesAlone::names_alone))]
pub fn scope_laws()
    ensures shape { ShapeByNames }
    ensures value { ValueByNames }
    ensures fault { FaultByNames }
{}

/// Extending the context of an expression keeps its low bits, where no `/`, `%` or shift to the right
/// takes an operand in that context: a carry goes up alone (IEEE 1364-2005 section 5.4.1).
#[tactic(auto, using(crate::proofs::LowBits::low_bits_kept))]
pub fn context_laws()
    ensures low { LowBitsKept }
{}
