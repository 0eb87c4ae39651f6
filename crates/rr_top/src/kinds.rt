//! How a table is read, by its name.
ghost use Rattle.std.specs.Prelude.{◌≡◌};
ghost use Rattle.rr_top.specs.Kinds.{kind_of as kind_of_name};

use rr_run::TableKind;

/// A name that ends with `.vcd` is that of a value change dump; any other is one of comma-separated values.
pub(crate) fn kind_of(name: &str) -> TableKind
    ensures { result ≡ kind_of_name name.now }
{
    if name.as_bytes().ends_with(b".vcd") {
        TableKind::Vcd
    } else {
        TableKind::Csv
    }
}
