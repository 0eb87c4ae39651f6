//! Lists of nodes.
ghost use Rattle.std.specs.Prelude.{◌≡◌, ◌≤◌, ◌<◌, ◌++◌, ◌∷◌, [], ℕ, length, get_or, IfOk, OnOk, true, Some};
ghost use Rattle.rr_flat.specs.View.{plain_flat};
ghost use Rattle.rr_named_bits.specs.Lists.{covered, reaches as is_reached};
ghost use Rattle.rr_order.specs.Nodes.{Added, Foreign, In, IsLayout, IsWritten, Stamped, total, widths};

use crate::layout::{Layout, node_of};
use rr_expr::Bit;
use rr_flat::Flat;
use rr_named_bits::Reach;
use rr_writers::word_of;
use std::alloc::{AllocError, Global};

pub(crate) fn push_node(nodes: &mut Vec<usize>, node: usize) -> Result<(), AllocError>
    ensures { OnOk result (nodes.new.items ≡ nodes.old.items ++ node ∷ []) }
{
    nodes.push(node)?;
    Ok(())
}

/// Adds the node of a bit that does not have this stamp, where the design has the bit.
pub(crate) fn add_node(
    flat: &Flat,
    layout: &Layout,
    nodes: &mut Vec<usize>,
    bit: Bit,
    own: &Vec<usize>,
    stamp: usize,
) -> Result<(), AllocError>
    requires layout { IsLayout (widths (plain_flat flat.now)) layout.now.starts.items layout.now.table.items }
    requires own { length own.now.items ≡ total (widths (plain_flat flat.now)) }
    ensures { OnOk result (Added (widths (plain_flat flat.now)) nodes.old.items nodes.new.items (λ b. (b ≡ bit) × Foreign (widths (plain_flat flat.now)) own.now.items stamp b)) }
{
    match node_of(flat, layout, bit) {
        Some(node) => {
            if own[node] != stamp {
                push_node(nodes, node)?;
            }
            Ok(())
        }
        None => Ok(()),
    }
}

/// Adds the nodes of the bits of a signal at places from one up to before another, without those that
/// have this stamp.
pub(crate) fn add_places(
    flat: &Flat,
    layout: &Layout,
    nodes: &mut Vec<usize>,
    signal: u32,
    places: (u32, u32),
    own: &Vec<usize>,
    stamp: usize,
) -> Result<(), AllocError>
    requires layout { IsLayout (widths (plain_flat flat.now)) layout.now.starts.items layout.now.table.items }
    requires own { length own.now.items ≡ total (widths (plain_flat flat.now)) }
    ensures { OnOk result (Added (widths (plain_flat flat.now)) nodes.old.items nodes.new.items (λ b. (b.signal ≡ signal) × ((places.0 ≤ b.place) × ((b.place < places.1) × Foreign (widths (plain_flat flat.now)) own.now.items stamp b)))) }
{
    for place in places.0..places.1 {
        add_node(flat, layout, nodes, Bit { signal, place }, own, stamp)?;
    }
    Ok(())
}

/// The nodes of the bits of a list.
pub(crate) fn nodes_of(
    alloc: Global,
    flat: &Flat,
    layout: &Layout,
    bits: &[Option<Bit>],
) -> Result<Vec<usize>, AllocError>
    requires { IsLayout (widths (plain_flat flat.now)) layout.now.starts.items layout.now.table.items }
    ensures { IfOk result (λ r. IsWritten (widths (plain_flat flat.now)) (λ b. (i : ℕ) × ((i < length bits.now) × (get_or bits.now i None ≡ Some b))) r.items) }
{
    let mut nodes = Vec::new(alloc);
    for bit in bits.iter() {
        add_bit(flat, layout, &mut nodes, *bit)?;
    }
    Ok(nodes)
}

/// The node of a bit alone, where there is one.
pub(crate) fn node_list(
    alloc: Global,
    flat: &Flat,
    layout: &Layout,
    bit: Option<Bit>,
) -> Result<Vec<usize>, AllocError>
    requires { IsLayout (widths (plain_flat flat.now)) layout.now.starts.items layout.now.table.items }
    ensures { IfOk result (λ r. IsWritten (widths (plain_flat flat.now)) (λ b. bit ≡ Some b) r.items) }
{
    let mut nodes = Vec::new(alloc);
    add_bit(flat, layout, &mut nodes, bit)?;
    Ok(nodes)
}

/// Adds the node of a bit, where there is one.
fn add_bit(
    flat: &Flat,
    layout: &Layout,
    nodes: &mut Vec<usize>,
    bit: Option<Bit>,
) -> Result<(), AllocError>
    requires { IsLayout (widths (plain_flat flat.now)) layout.now.starts.items layout.now.table.items }
    ensures { OnOk result (Added (widths (plain_flat flat.now)) nodes.old.items nodes.new.items (λ b. bit ≡ Some b)) }
{
    let Some(bit) = bit else {
        return Ok(());
    };
    match node_of(flat, layout, bit) {
        Some(node) => push_node(nodes, node),
        None => Ok(()),
    }
}

/// The nodes of the bits of some reaches, where none has this stamp.
pub(crate) fn written_of(
    alloc: Global,
    flat: &Flat,
    layout: &Layout,
    reaches: &[Reach],
    own: &Vec<usize>,
    stamp: usize,
) -> Result<Vec<usize>, AllocError>
    requires layout { IsLayout (widths (plain_flat flat.now)) layout.now.starts.items layout.now.table.items }
    requires own { length own.now.items ≡ total (widths (plain_flat flat.now)) }
    requires fresh { (v : ℕ) → get_or own.now.items v 0 < stamp }
    ensures { IfOk result (λ r. IsWritten (widths (plain_flat flat.now)) (λ b. covered reaches.now b ≡ true) r.items) }
{
    let mut nodes = Vec::new(alloc);
    for reach in reaches.iter() {
        add_words(flat, layout, &mut nodes, reach, own, stamp)?;
    }
    Ok(nodes)
}

/// Adds the nodes of the bits of a reach, word by word, without those that have this stamp.
fn add_words(
    flat: &Flat,
    layout: &Layout,
    nodes: &mut Vec<usize>,
    reach: &Reach,
    own: &Vec<usize>,
    stamp: usize,
) -> Result<(), AllocError>
    requires layout { IsLayout (widths (plain_flat flat.now)) layout.now.starts.items layout.now.table.items }
    requires own { length own.now.items ≡ total (widths (plain_flat flat.now)) }
    ensures { OnOk result (Added (widths (plain_flat flat.now)) nodes.old.items nodes.new.items (λ b. (is_reached reach.now b ≡ true) × Foreign (widths (plain_flat flat.now)) own.now.items stamp b)) }
{
    for word in 0..reach.words {
        let piece = word_of(reach, word)?;
        add_places(flat, layout, nodes, piece.signal, piece.range(), own, stamp)?;
    }
    Ok(())
}

/// Gives nodes a stamp.
pub(crate) fn stamp_all(own: &mut Vec<usize>, nodes: &[usize], stamp: usize)
    requires { (v : ℕ) → In v nodes.now → v < length own.old.items }
    ensures { Stamped own.old.items own.new.items nodes.now stamp }
{
    for node in nodes.iter() {
        own[*node] = stamp;
    }
}
