//! Tables that were read, as the contract of a function that does nothing.
ghost use Rattle.std.specs.Prelude.{◌≡◌, ℕ, Bool, List, Ok, Option};
ghost use Rattle.rr_syntax.specs.Tree.{SourceText};
ghost use Rattle.rr_flat.specs.Plain.{Flat};
ghost use Rattle.rr_flat.specs.Signals.{Text};
ghost use Rattle.rr_flatten.specs.Walk.{flat_of};
ghost use Rattle.rr_choice.specs.Sites.{Site};
ghost use Rattle.rr_trace.specs.Tables.{Table, table_of};
ghost use Rattle.rr_trace.specs.Tops.{ports_of};
ghost use Rattle.rr_vcd.specs.Sampled.{IsSampled};
ghost use Rattle.rr_transition.specs.Cycles.{Cycle, Design, widths_of};
ghost use Rattle.rr_transition.specs.Transitions.{Transition};
ghost use Rattle.rr_unroll.specs.Matches.{FitsOutputs};

/// The table of a text for the ports of the top of a source's flat design has a row of cells for each
/// row of inputs, with a cell for each output, in which no bit past the output's width is known. So it
/// is a table for the outputs of each transition that stands for the source and some sites. The same
/// holds of a table that is sampled from a value change dump.
pub fn table_laws()
    ensures read { (source : SourceText) (top : Option Text) (flat : Flat) → flat_of source top ≡ Ok flat → (clock : Option ℕ) (bytes : List ℕ) (table : Table) →
        table_of (ports_of flat clock) bytes ≡ Ok table → FitsOutputs (widths_of flat flat.outputs) table }
    ensures stands { (j : Design) (sites : List Site) (t : Transition) → Cycle j sites t → (flat : Flat) → flat_of j.source j.top ≡ Ok flat → (clock : Option ℕ) (bytes : List ℕ) (table : Table) →
        table_of (ports_of flat clock) bytes ≡ Ok table → FitsOutputs t.output_widths table }
    ensures sampled { (flat : Flat) (clock : Option ℕ) (rising : Bool) (bytes : List ℕ) (table : Table) →
        IsSampled flat clock rising bytes table → FitsOutputs (widths_of flat flat.outputs) table }
    ensures sampled_stands { (j : Design) (sites : List Site) (t : Transition) → Cycle j sites t → (flat : Flat) → flat_of j.source j.top ≡ Ok flat → (clock : Option ℕ) (rising : Bool) (bytes : List ℕ) (table : Table) →
        IsSampled flat clock rising bytes table → FitsOutputs t.output_widths table }
{}
