//! The count of turns, and of the tokens of their bodies.

ghost use Rattle.std.specs.Prelude.{◌≡◌, ◌≤◌, MatchResult, Ok, Err};
ghost use Rattle.rr_unfold.specs.Unfold.{no_turns, one_more as one_more_of, within as within_of};
ghost use Rattle.rr_unfold.specs.View.{plain_counts};

use rr_flat::{FlatFault, Limit};

/// The turns of all loops so far, and the tokens of the bodies of these turns, which are counted where
/// they have a limit, and no more of them than 64 bits hold.
#[derive(Clone, Copy, Debug, PartialEq, Eq)]
pub struct Counts {
    pub turns: u64,
    pub tokens: u64,
}

impl Counts {
    /// No turns.
    pub fn none() -> Counts
        ensures { plain_counts result ≡ no_turns }
    {
        Counts {
            turns: 0,
            tokens: 0,
        }
    }
}

/// A turn more with a body of so many tokens, where all bodies may have as many as the limit says; the
/// fault is that they have more.
fn within(counts: &mut Counts, tokens: u64, limit: u64) -> Result<(), FlatFault>
    requires few { counts.old.turns ≤ 65535 }
    ensures { MatchResult result
        (λ _. within_of limit tokens (plain_counts counts.old) ≡ Ok (plain_counts counts.new))
        (λ f. within_of limit tokens (plain_counts counts.old) ≡ Err f) }
{
    let total = counts.tokens.saturating_add(tokens);
    if limit < total {
        return Err(FlatFault::TooMany(Limit::Unfolded, total));
    }
    counts.turns += 1;
    counts.tokens = total;
    Ok(())
}

/// One turn more, whose body has so many tokens; the fault is that a limit is passed.
pub(crate) fn one_more(
    counts: &mut Counts,
    tokens: u64,
    limit: Option<u64>,
) -> Result<(), FlatFault>
    ensures { MatchResult result
        (λ _. one_more_of limit tokens (plain_counts counts.old) ≡ Ok (plain_counts counts.new))
        (λ f. one_more_of limit tokens (plain_counts counts.old) ≡ Err f) }
{
    if counts.turns > 65535 {
        return Err(FlatFault::TooMany(Limit::Turns, 65537));
    }
    match limit {
        None => {
            counts.turns += 1;
            Ok(())
        }
        Some(limit) => within(counts, tokens, limit),
    }
}
