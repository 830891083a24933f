ghost use Rattle.std.specs.Prelude.{ℕ, ◌≤◌, ◌↔◌, IfSome};
ghost use Rattle.orca_base.specs.declared.message.Message.{Message};
ghost use Rattle.orca_base.specs.MidiBytes.{midi_bytes_of};
ghost use Rattle.orca_base.specs.MidiLimits.{IsChannel, IsDataByte, HasStatusFirst};
ghost use Rattle.orca_base.specs.Ranges.{HasDataInRange};

use crate::limits::{MAX_CHANNEL, MAX_DATA};

/// The channels and the data bytes are those of MIDI 1.0, no fewer and no more. So each MIDI message in range
/// is a status byte, which has its high bit, and data bytes, which have not. It does nothing.
pub fn midi_law()
    ensures channels { (channel : ℕ) → (channel ≤ MAX_CHANNEL) ↔ IsChannel channel }
    ensures bytes { (byte : ℕ) → (byte ≤ MAX_DATA) ↔ IsDataByte byte }
    ensures messages { (m : Message) → HasDataInRange m → IfSome (midi_bytes_of m) HasStatusFirst }
{}
