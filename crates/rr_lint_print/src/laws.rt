//! What the text is in which a source is mended, as contracts of functions that do nothing.
ghost use Rattle.rr_lint_print.specs.Laws.{KeepsBytes, NewsArePut, NothingPut, PrintsMended, SpellsMended};

/// The pieces of a mended source spell the source, and with their new tokens the mended one.
pub fn spelling_laws()
    ensures { SpellsMended }
{}

/// The tree of the mended text is the mended source; the bytes of the source but those of replaced `<=`
/// stand in it in order and whole; the text of each edit can stand between tokens of a file with directives
/// (IEEE 1364-2005 section 19); and where nothing is mended there is no edit.
pub fn print_laws()
    ensures tree { PrintsMended }
    ensures bytes { KeepsBytes }
    ensures put { NewsArePut }
    ensures nothing { NothingPut }
{}
