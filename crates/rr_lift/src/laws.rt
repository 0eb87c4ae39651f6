//! Laws of lifted edits, as contracts of functions that do nothing.
ghost use Rattle.rr_lift.specs.Laws.{ExactAre, ExactRise, LiftExpands, NothingLifts, OwnLifted};

/// Where edits of an expansion lift, the lifted file expands to the expansion with the edits made. Without
/// edits the file stays as it is; and in a file that is its own expansion edits are made as in a text.
pub fn lifting_laws()
    ensures expands { LiftExpands }
    ensures nothing { NothingLifts }
    ensures own { OwnLifted }
{}

/// The exact bytes of an expansion stand in the file in the order of the text, each once, and are the bytes
/// of the file at their places.
pub fn exact_laws()
    ensures rise { ExactRise }
    ensures are { ExactAre }
{}
