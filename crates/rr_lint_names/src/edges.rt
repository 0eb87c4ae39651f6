//! What an `always` waits for.
ghost use Rattle.std.specs.Prelude.{◌≡◌};
ghost use Rattle.rr_syntax.specs.View.{plain_events};
ghost use Rattle.rr_lint_names.specs.Edges.{waits_for_edges};

use rr_syntax::Events;

/// Whether an `always` waits for edges.
pub fn has_edges(events: &Events) -> bool
    ensures { result ≡ waits_for_edges (plain_events events.now) }
{
    match events {
        Events::Edges { .. } => true,
        Events::Star { .. } => false,
        Events::Levels { .. } => false,
    }
}
