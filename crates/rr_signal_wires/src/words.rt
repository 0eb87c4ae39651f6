//! The wires of signals, one list for each, lowest bit first.
ghost use Rattle.std.specs.Prelude.{◌≡◌, ◌<◌, ℕ, Bool, false, get_or, set, length};
ghost use Rattle.rr_circuit.specs.Values.{Netlist, AreWires, IsWire, wire_value, wire_values};
ghost use Rattle.rr_cycle.specs.Exec.{put};
ghost use Rattle.rr_signal_wires.specs.Words.{AreWords, IsThere, carried, widths_of};

use rr_circuit::{Builder, Wire};
use rr_expr::Bit;

/// The wire of a bit.
pub fn wire_at(words: &[Vec<Wire>], bit: Bit) -> Wire
    requires { IsThere (widths_of words.now) bit }
    ensures wire { (n : Netlist) → AreWords n words.now → IsWire n result }
    ensures value { (n : Netlist) (env : ℕ → Bool) → wire_value n env result ≡ carried n env words.now bit }
{
    words[bit.signal as usize][bit.place as usize]
}

fn set_in(word: &mut Vec<Wire>, place: usize, wire: Wire)
    requires { place < length word.old.items }
    ensures { word.new.items ≡ set word.old.items place wire }
{
    word[place] = wire;
}

/// A bit has another wire.
pub fn set_wire(words: &mut Vec<Vec<Wire>>, bit: Bit, wire: Wire)
    requires { IsThere (widths_of words.old.items) bit }
    ensures wires { (n : Netlist) → AreWords n words.old.items → IsWire n wire → AreWords n words.new.items }
    ensures value { (n : Netlist) (env : ℕ → Bool) → carried n env words.new.items ≡ put bit (wire_value n env wire) (carried n env words.old.items) }
    ensures widths { widths_of words.new.items ≡ widths_of words.old.items }
{
    set_in(&mut words[bit.signal as usize], bit.place as usize, wire);
}

/// The wire at a place of a word, which is 0 past its end.
pub fn bit_at(b: &Builder, bits: &[Wire], place: usize) -> Wire
    requires { AreWires b.now bits.now }
    ensures wire { IsWire b.now result }
    ensures value { (env : ℕ → Bool) → wire_value b.now env result ≡ get_or (wire_values b.now env bits.now) place false }
{
    match bits.get(place) {
        Some(wire) => *wire,
        None => b.constant(false),
    }
}
