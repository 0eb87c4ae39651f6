//! The law of the list of a text's sites, as a contract of a function that does nothing.
ghost use Rattle.rr_sites_exact.specs.Exact.{FileListsAreExact, ListsAreExact};

/// The list of sites that a text has with a top and a word for the clock has exactly the sites of the
/// modules that have instances, place by place, in their order, each once, where the clock is known by
/// the names that lead to it in an instance of the module. The tokens from that of a site on are the
/// literal, the condition, which has as many as its extent, or the body that an overwrite follows. So it is
/// with the list of the text that a file expands to, of which those are told that can be changed in the file.
pub fn lists_are_exact()
    ensures text { ListsAreExact }
    ensures file { FileListsAreExact }
{}
