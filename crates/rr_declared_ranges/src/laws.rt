//! Laws of the names of an instance, as contracts of functions that do nothing.
ghost use Rattle.rr_declared_ranges.specs.Laws.{LoopsAreVectors, NamesAreLocated, NamesHaveRanges, WordsAreLocated};

/// In each instance each name that its module declares as a net or a variable stands for a signal
/// with the declared range, whose bounds have the values of that instance, and with at most 128 bits
/// (sections 3.2 and 3.3.1); an `integer` has 32 bits (section 3.9). A name with words stands for a
/// memory with as many words of that range as there are indices between its bounds, and at most 256
/// (section 4.9.3).
pub fn names_have_ranges()
    ensures { NamesHaveRanges }
{}

/// A signal that a name of an instance stands for is one of that instance, with that name and that
/// range; so no signal has two names.
pub fn names_are_located()
    ensures { NamesAreLocated }
{}

/// A word of a memory for which a name of an instance stands is one of that instance, with that name,
/// that range and its index; so no word has two names.
pub fn words_are_located()
    ensures { WordsAreLocated }
{}

/// A name of a loop of an instance's module stands there for a signal of 32 bits: it is one of the
/// module's integers (sections 3.9 and 9.6).
#[tactic(auto, using(crate::proofs::Vectors::loops_of_source))]
pub fn loops_are_vectors()
    ensures { LoopsAreVectors }
{}
