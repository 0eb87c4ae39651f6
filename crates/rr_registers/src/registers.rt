//! The bits that clocked blocks write.
ghost use Rattle.std.specs.Prelude.{◌≡◌, ◌<◌, ◌++◌, ◌∷◌, [], ℕ, All, IfOk, OnOk, cond, false, length, map, get_or};
ghost use Rattle.std.specs.List.{filter, range_with_len};
ghost use Rattle.rr_bits.specs.Words.{word};
ghost use Rattle.rr_expr.specs.declared.types.Bit.{Bit as FlatBit};
ghost use Rattle.rr_flat.specs.Signals.{signal_at};
ghost use Rattle.rr_flat.specs.View.{plain_flat};
ghost use Rattle.rr_cycle.specs.Cycles.{beginning};
ghost use Rattle.rr_cycle.specs.Performing.{any_writes};
ghost use Rattle.rr_transition.specs.Placed.{any_bit};
ghost use Rattle.rr_registers.specs.Registers.{registers_of};

use rr_bits::Bits;
use rr_expr::Bit;
use rr_flat::Flat;
use rr_meaning::register_masks;
use std::alloc::{AllocError, Global};

/// One bit more, where it is marked.
fn push_marked(list: &mut Vec<Bit>, bit: Bit, marked: bool) -> Result<(), AllocError>
    ensures { OnOk result (list.new.items ≡ list.old.items ++ cond marked (bit ∷ []) []) }
{
    if marked {
        list.push(bit)?;
        return Ok(());
    }
    Ok(())
}

/// The bits of a signal that a mask marks, the lowest first.
fn add_marked(list: &mut Vec<Bit>, signal: u32, width: u32, mask: u128) -> Result<(), AllocError>
    ensures { OnOk result (list.new.items ≡ list.old.items ++ filter (λ (b : FlatBit). get_or (word 128 mask) b.place false) (map (λ (p : ℕ). record { signal = signal; place = p }) (range_with_len 0 width))) }
{
    let marks = Bits::from_u128(128, mask);
    for place in 0..width {
        push_marked(list, Bit { signal, place }, marks.get(place))?;
    }
    Ok(())
}

/// The registers of a flat design, signal after signal, the lowest place first.
pub fn register_bits(alloc: Global, flat: &Flat) -> Result<Vec<Bit>, AllocError>
    ensures value { IfOk result (λ r. r.items ≡ registers_of (plain_flat flat.now)) }
    ensures there { IfOk result (λ r. All (λ (b : FlatBit). (b.signal < length flat.now.signals) × (b.place < (signal_at (plain_flat flat.now).signals b.signal).width)) r.items) }
    ensures all { IfOk result (λ r. (b : FlatBit) → any_bit r.items b ≡ any_writes (plain_flat flat.now) (plain_flat flat.now).clocked b) }
{
    let masks = register_masks(alloc, flat)?;
    let mut bits = Vec::new(alloc);
    for signal in 0..flat.signal_count() {
        let width = flat.signal_at(signal).width;
        add_marked(&mut bits, signal, width, masks[signal as usize])?;
    }
    Ok(bits)
}

/// What a bit begins with.
fn start_bit(flat: &Flat, bit: Bit) -> bool
    ensures { result ≡ beginning (plain_flat flat.now) bit }
{
    match flat.start_list().get(bit.signal as usize) {
        Some(start) => Bits::from_u128(128, *start).get(bit.place),
        None => false,
    }
}

/// What these bits begin with, in their order.
pub fn start_bits(alloc: Global, flat: &Flat, bits: &[Bit]) -> Result<Vec<bool>, AllocError>
    ensures { IfOk result (λ r. r.items ≡ map (beginning (plain_flat flat.now)) bits.now) }
{
    let mut starts = Vec::new(alloc);
    for bit in bits.iter() {
        starts.push(start_bit(flat, *bit))?;
    }
    Ok(starts)
}
