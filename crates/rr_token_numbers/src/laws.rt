//! What token numbers are in flat designs, as contracts of functions that do nothing.
ghost use Rattle.rr_token_numbers.specs.Laws.{CountedByForm, NumbersStayApart, UnfoldByForm};

/// Elaboration sees nothing of the numbers of tokens, but for those that it hands on.
#[tactic(auto, using(crate::proofs::Designs::same_flat))]
pub fn numbers_stay_apart()
    ensures { NumbersStayApart }
{}

/// Statements that are equal without the numbers of tokens are unfolded to ones that are, with the same
/// count.
pub fn unfolding_sees_no_numbers()
    ensures made { UnfoldByForm }
    ensures counted { CountedByForm }
{}
