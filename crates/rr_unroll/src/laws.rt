//! Laws of verdicts.
ghost use Rattle.std.specs.Prelude.{◌≡◌, Bool, true, List, All};
ghost use Rattle.rr_trace.specs.Tables.{Table};
ghost use Rattle.rr_transition.specs.Cycles.{Design, widths_of};
ghost use Rattle.rr_unroll.specs.Faithful.{IsJudged};
ghost use Rattle.rr_unroll.specs.Matches.{FitsOutputs, Matches};

/// A design has one flat design, one clock and one run, so one list of verdicts. Where the table is one
/// for its outputs, the design matches exactly where each of them is true.
pub fn verdict_laws()
    ensures once { (j : Design) (table : Table) (xs ys : List Bool) → IsJudged j table xs → IsJudged j table ys → xs ≡ ys }
    ensures matches { (j : Design) (table : Table) (verdicts : List Bool) (h : IsJudged j table verdicts) → FitsOutputs (widths_of h.flat h.flat.outputs) table →
        All (λ (b : Bool). b ≡ true) verdicts → Matches j table }
    ensures matching { (j : Design) (table : Table) (verdicts : List Bool) (h : IsJudged j table verdicts) → FitsOutputs (widths_of h.flat h.flat.outputs) table →
        Matches j table → All (λ (b : Bool). b ≡ true) verdicts }
{}
