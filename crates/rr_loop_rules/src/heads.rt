//! Names of loops in the heads of loops.

ghost use Rattle.std.specs.Prelude.{◌≡◌, fold};
ghost use Rattle.rr_syntax.specs.View.{plain_loop};
ghost use Rattle.rr_flat.specs.Faults.{sooner};
ghost use Rattle.rr_loop_rules.specs.Rules.{head_faults, inner_faults};
ghost use Rattle.rr_loop_rules.specs.View.{plain_around};

use crate::around::is_around;
use crate::names::LoopNames;
use crate::strays::note_strays_inside;
use rr_flat::{FlatFault, note_if};
use rr_syntax::Head;

/// The first of a fault that was found, if any, and those of a head before its first value, inside the
/// loops around it, the innermost last.
#[tactic(auto, using(crate::proofs::HeadNodes::head_nodes))]
pub fn note_head(
    found: Option<FlatFault>,
    names: &LoopNames,
    around: &[&str],
    head: &Head,
) -> Option<FlatFault>
    ensures { result ≡ fold sooner found (head_faults names.now (plain_around around.now) (plain_loop head.now)) }
{
    let found = note_if(found, !names.has(head.name), FlatFault::BadLoop(head.token));
    let found = note_if(
        found,
        is_around(around, head.name),
        FlatFault::BadLoop(head.token),
    );
    note_strays_inside(found, names, around, head.start)
}

/// The first of a fault that was found, if any, and those of the test and the step of a head. They stand
/// inside the loop: the last of the names around is the loop's own.
#[tactic(auto, using(crate::proofs::HeadNodes::inner_nodes))]
pub fn note_turn(
    found: Option<FlatFault>,
    names: &LoopNames,
    inside: &[&str],
    head: &Head,
) -> Option<FlatFault>
    ensures { result ≡ fold sooner found (inner_faults names.now (plain_around inside.now) (plain_loop head.now)) }
{
    let found = note_strays_inside(found, names, inside, head.test);
    let found = note_if(
        found,
        head.name != head.step_name,
        FlatFault::BadLoop(head.step_token),
    );
    note_strays_inside(found, names, inside, head.step)
}
