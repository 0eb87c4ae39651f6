//! What is true of every order of events.
ghost use Rattle.rr_rounds.specs.Rounds.{AllFresh, EventsCommute, JoinedDerives, JoinedIsHinted, JoinedListsAll, JoinedRefutes, LinesAreFew, OrderOfEventsIsFree};

/// Events of different members may be exchanged.
pub fn events_commute()
    ensures { EventsCommute }
{}

/// Moves in any order in which each member makes the same events leave the same state.
pub fn order_of_events_is_free()
    ensures { OrderOfEventsIsFree }
{}

/// The joined journal has each line once, numbered on behind the formula.
pub fn joined_lists_all()
    ensures { JoinedListsAll }
{}

/// The joined journal derives from the formula.
pub fn joined_derives()
    ensures { JoinedDerives }
{}

/// With the empty line of a member it refutes the formula.
pub fn joined_refutes()
    ensures { JoinedRefutes }
{}

/// The hints of the joined journal name clauses of the formula and of lines before.
pub fn joined_is_hinted()
    ensures { JoinedIsHinted }
{}

/// The lines of each member are fresh.
pub fn all_fresh()
    ensures { AllFresh }
{}

/// The lines of each member are few.
pub fn lines_are_few()
    ensures { LinesAreFew }
{}
