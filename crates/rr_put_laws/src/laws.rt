//! The law of the texts of edits, as the contract of a function that does nothing.
ghost use Rattle.rr_put_laws.specs.Laws.{NewsArePut};

/// The text of each edit of a choice begins and ends with a blank, and no comment, use or directive stands
/// in it (IEEE 1364-2005 sections 3.3, 3.7.1 and 19).
pub fn new_texts()
    ensures { NewsArePut }
{}
