//! Laws of sampled tables.
ghost use Rattle.std.specs.Prelude.{◌≡◌, ℕ, List, Bool, Option};
ghost use Rattle.rr_flat.specs.Plain.{Flat};
ghost use Rattle.rr_trace.specs.Tables.{Table};
ghost use Rattle.rr_vcd.specs.declared.fault.VcdFault.{VcdFault};
ghost use Rattle.rr_vcd.specs.declared.fault.VcdFault.TheVariants.{Memory};
ghost use Rattle.rr_vcd.specs.Sampled.{IsSampled};
ghost use Rattle.rr_vcd.specs.Faults.{RefusesVcd};
ghost use Rattle.rr_vcd.specs.Fits.{FitsPorts};

/// No text gives two tables, or a table and a refusal, or two refusals, apart from want of memory; and a
/// table has a row of values and one of cells for each cycle, none of which has a bit past the width of
/// its port.
pub fn one_sample()
    ensures one_table { (flat : Flat) (clock : Option ℕ) (rising : Bool) (bytes : List ℕ) (table other : Table) →
        IsSampled flat clock rising bytes table → IsSampled flat clock rising bytes other → table ≡ other }
    ensures table_or_fault { (flat : Flat) (clock : Option ℕ) (rising : Bool) (bytes : List ℕ) (table : Table) (fault : VcdFault) →
        IsSampled flat clock rising bytes table → RefusesVcd flat clock rising bytes fault → fault ≡ Memory }
    ensures one_fault { (flat : Flat) (clock : Option ℕ) (rising : Bool) (bytes : List ℕ) (fault other : VcdFault) →
        RefusesVcd flat clock rising bytes fault → RefusesVcd flat clock rising bytes other → (fault ≡ Memory → ⊥) → (other ≡ Memory → ⊥) → fault ≡ other }
    ensures fits { (flat : Flat) (clock : Option ℕ) (rising : Bool) (bytes : List ℕ) (table : Table) → IsSampled flat clock rising bytes table → FitsPorts flat clock table }
{}
