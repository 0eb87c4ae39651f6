//! The work of a search, and the bits of a cycle.
ghost use Rattle.std.specs.Prelude.{◌≡◌, ◌<◌, min, map, All, length};
ghost use Rattle.std.specs.List.{sum};
ghost use Rattle.rr_flat.specs.View.{plain_flat, plain_signal};
ghost use Rattle.rr_trace.specs.View.{plain_table};
ghost use Rattle.rr_transition.specs.Cycles.{widths_of};
ghost use Rattle.rr_repair.specs.Repairs.{flat_bits, work_of};

use rr_flat::{Flat, Signal};
use rr_trace::Table;

/// The bits of signals, at most 2^64 - 1.
fn count_signals(signals: &[Signal<'_>]) -> u64
    ensures { result ≡ min (sum (map (λ s. s.width) (map plain_signal signals.now))) 18446744073709551615 }
{
    let mut bits: u64 = 0;
    for i in 0..signals.len() {
        bits = bits.saturating_add(u64::from(signals[i].width));
    }
    bits
}

/// The bits of all signals, at most 2^64 - 1.
fn count_bits(flat: &Flat) -> u64
    ensures { result ≡ min (flat_bits (plain_flat flat.now)) 18446744073709551615 }
{
    count_signals(flat.signals.as_slice())
}

/// The bits of some signals, at most 2^64 - 1.
pub(crate) fn count_row(flat: &Flat, ids: &[u32]) -> u64
    requires { All (λ id. id < length flat.now.signals) ids.now }
    ensures { result ≡ min (sum (widths_of (plain_flat flat.now) ids.now)) 18446744073709551615 }
{
    let mut bits: u64 = 0;
    for i in 0..ids.len() {
        bits = bits.saturating_add(u64::from(flat.signal_at(ids[i]).width));
    }
    bits
}

/// The rows of a table times the bits of all signals, at most 2^64 - 1.
pub(crate) fn work_of(flat: &Flat, rows: &Table) -> u64
    ensures { result ≡ work_of (plain_flat flat.now) (plain_table rows.now) }
{
    (rows.inputs.len() as u64).saturating_mul(count_bits(flat))
}
