//! Names of sites, as the contract of a function that does nothing.
ghost use Rattle.rr_sites_written.specs.Laws.{NamesAreWritten};

/// Each name of a site of a text, of a guard or of a target, is one that the text declares, and so one
/// or more bytes 33 to 126 (IEEE 1364-2005 section 3.7).
pub fn site_names()
    ensures { NamesAreWritten }
{}
