//! Laws of the table of commands, and of what is due.

ghost use Rattle.std.specs.Prelude.{◌≡◌};
ghost use Rattle.rr_edge.specs.Held.{Held};
ghost use Rattle.rr_words.specs.Plan.{Plan};
ghost use Rattle.rr_top.specs.Commands.{AsksRepair, HasOneOutcome, WritesNothing, command_of_plan};
ghost use Rattle.rr_top.specs.Expected.{Expected, Judges};

/// Files decide each command of the table once; so a told shelf does. No command but `repair` and
/// `make` writes a file, or leaves open what it comes to.
pub fn one_outcome()
    ensures table { (plan : Plan) → HasOneOutcome (command_of_plan plan) }
    ensures shelf { (plan : Plan) (held : Held) (v w : Expected) → Judges (command_of_plan plan) held v → Judges (command_of_plan plan) held w → v ≡ w }
    ensures writes { (plan : Plan) → (AsksRepair plan → ⊥) → WritesNothing (command_of_plan plan) }
{}
