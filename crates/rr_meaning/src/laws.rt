//! Laws of rows.
ghost use Rattle.std.specs.Prelude.{◌≡◌, ℕ, All, List, Ok, Option};
ghost use Rattle.rr_flat.specs.Plain.{Flat};
ghost use Rattle.rr_trace.specs.Tables.{Table, table_of};
ghost use Rattle.rr_trace.specs.Tops.{ports_of};
ghost use Rattle.rr_meaning.specs.Calls.{IsRow};

/// Each row of inputs of a table for the ports of a design is a row of its inputs.
pub fn table_rows()
    ensures { (flat : Flat) (clock : Option ℕ) (bytes : List ℕ) (table : Table) → table_of (ports_of flat clock) bytes ≡ Ok table → All (IsRow flat clock) table.inputs }
{}
