//! Lists with commas between their parts.

ghost use Rattle.std.specs.Prelude.{IfSome};
ghost use Rattle.rr_syntax_place.specs.Going.{Goes, Takes};

use crate::cursor::Cursor;
use rr_syntax::Mark;

/// One part or more, with commas between, and the mark behind them. Each part goes on through the
/// tokens.
pub(crate) fn listed<F: Fn(&mut Cursor) -> Option<()>>(
    cursor: &mut Cursor,
    part: F,
    closing: Mark,
) -> Option<()>
    requires callable { F.IsAlwaysCallable part }
    requires goes { (old : _) (r : _) (new : _) → F.post part old r new → Goes old.now new.now }
    ensures goes { Goes cursor.old cursor.new }
    ensures takes { IfSome result (λ t. Takes cursor.old cursor.new) }
{
    part(cursor)?;
    while cursor.take(Mark::COMMA) {
        part(cursor)?;
    }
    cursor.expect(closing)
}
