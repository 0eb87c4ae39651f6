//! What the starting values of a source are, as contracts of functions that do nothing.
ghost use Rattle.rr_start_laws.specs.Laws.{InitialsAreItems, LastSettingCounts};

/// The `initial` items of an instance are those of its module, each once and in the order of the
/// text (section 9.9.1), where each loop is the block of its turns (section 9.6). There are no others.
#[tactic(auto, using(crate::proofs::Items::items_of_design))]
pub fn initials_are_items()
    ensures { InitialsAreItems }
{}

/// A variable, and a word of a memory, begins with the number that the last assignment to it in an
/// `initial` item gives it (section 9.9.1), in the order of the items and of the statements in each;
/// where none assigns it, with that of its declaration (section 6.2.1). An index outside a memory
/// sets nothing (section 5.2.2).
#[tactic(auto, using(crate::proofs::Beginning::last_of_design))]
pub fn last_setting_counts()
    ensures { LastSettingCounts }
{}
