//! Laws of the list of sites, as contracts of functions that do nothing.
ghost use Rattle.rr_sites_complete.specs.Laws.{ListedAreSites, NamesAreThese, SitesAreListed, SitesAreSpelled, SitesRise, SitesStandOnce};

/// The sites that are listed for a source are exactly its sites, each once, in the order of their first
/// tokens, at one token overwrites before guards, an outer guard before an inner one, and guards before
/// a literal, and the overwrites of one block by the first targets of their variables. A site is a
/// literal without x and z digits, or the test of a `?:`, that stands in a right side, a condition, a
/// selector, a label or a port connection, outside the constant places; the condition of an `if` in an
/// `always`, in a loop or outside, but in no loop's head; or the body of an `always` with a variable that
/// stands in it outside loops as a whole as a target, which is no memory, no `integer` and has no range
/// that names a parameter. From its token on the source has the words of the literal, of the condition,
/// which are as many as its extent, or of the body.
pub fn sites_are_exact()
    ensures listed { ListedAreSites }
    ensures every { SitesAreListed }
    ensures order { SitesRise }
    ensures once { SitesStandOnce }
    ensures spelled { SitesAreSpelled }
{}

/// The names that a guard may be at a token are one list, the first 64 of those declared before it, in the
/// order of their declarations: an input, an output, a net or a variable without a range or words and not
/// as `integer`, the clock in no instance, written by `=` in no clocked block, in a loop or outside, and
/// outside clocked blocks written by `<=` in one outside its loops.
pub fn names_are_exact()
    ensures { NamesAreThese }
{}
