//! The numbers of the nodes of the graph of a design: its bits, its signals and its steps, in this order.
ghost use Rattle.std.specs.Prelude.{◌≡◌, ◌<◌, ◌≤◌, length, get_or, IfOk, OnOk, MatchOption};
ghost use Rattle.rr_flat.specs.View.{plain_flat};
ghost use Rattle.rr_order.specs.Nodes.{IsBit, IsLayout, MoreBits, bit_node, widths};

use rr_expr::Bit;
use rr_flat::Flat;
use std::alloc::{AllocError, Global};

/// All bits of a design, signal by signal from the lowest place up, and where those of each signal
/// begin; the last of `starts` is the number of bits.
#[derive(Drop)]
pub(crate) struct Layout {
    pub(crate) starts: Vec<usize>,
    pub(crate) table: Vec<Bit>,
}

/// The number of signals.
pub(crate) fn signal_count(flat: &Flat) -> usize
    ensures value { result ≡ length (widths (plain_flat flat.now)) }
    ensures few { result ≤ 65536 }
{
    flat.signal_list().len()
}

/// The number of bits of a signal.
pub(crate) fn width_of(flat: &Flat, id: usize) -> u32
    requires { id < length (widths (plain_flat flat.now)) }
    ensures value { get_or (widths (plain_flat flat.now)) id 0 ≡ result }
    ensures high { result ≤ 128 }
{
    let signals = flat.signal_list();
    signals[id].width
}

/// The layout of a design.
pub(crate) fn layout_of(alloc: Global, flat: &Flat) -> Result<Layout, AllocError>
    ensures { IfOk result (λ l. IsLayout (widths (plain_flat flat.now)) l.starts.items l.table.items) }
{
    let mut starts = Vec::new(alloc);
    let mut table = Vec::new(alloc);
    for id in 0..signal_count(flat) {
        starts.push(table.len())?;
        add_bits(&mut table, id as u32, width_of(flat, id))?;
    }
    starts.push(table.len())?;
    Ok(Layout { starts, table })
}

/// The bits of one signal more.
fn add_bits(table: &mut Vec<Bit>, signal: u32, width: u32) -> Result<(), AllocError>
    ensures { OnOk result (MoreBits table.old.items table.new.items signal width) }
{
    for place in 0..width {
        table.push(Bit { signal, place })?;
    }
    Ok(())
}

/// The node of a bit, where the design has it.
pub(crate) fn node_of(flat: &Flat, layout: &Layout, bit: Bit) -> Option<usize>
    requires { IsLayout (widths (plain_flat flat.now)) layout.now.starts.items layout.now.table.items }
    ensures { MatchOption result (IsBit (widths (plain_flat flat.now)) bit → ⊥) (λ n. IsBit (widths (plain_flat flat.now)) bit × (n ≡ bit_node (widths (plain_flat flat.now)) bit)) }
{
    let signal = bit.signal as usize;
    if signal < signal_count(flat) {
        if bit.place < width_of(flat, signal) {
            return Some(layout.starts[signal] + bit.place as usize);
        }
    }
    None
}
