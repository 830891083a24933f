//! The bytes of the channel voice messages of MIDI 1.0: note on, note off, control change and pitch
//! bend.
#![tactic(auto)]

ghost use Rattle.std.specs.Prelude.{◌≡◌, ◌≤◌};
ghost use Rattle.midi_bytes.specs.VoiceMessage.{IsVoiceMessage};
ghost use Rattle.orca_base.specs.MidiBytes.{bend_bytes, control_bytes, note_off_bytes, note_on_bytes};

use orca_base::limits::{MAX_CHANNEL, MAX_DATA};

/// The status byte of Note Off on channel 0 (MIDI 1.0, channel voice messages).
const NOTE_OFF: u8 = 0x80;

/// The status byte of Note On on channel 0.
const NOTE_ON: u8 = 0x90;

/// The status byte of Control Change on channel 0.
const CONTROL_CHANGE: u8 = 0xB0;

/// The status byte of Pitch Bend Change on channel 0.
const PITCH_BEND: u8 = 0xE0;

/// The bytes of Note On: a key, 0 to 127, starts on a channel, 0 to 15, at a velocity, 0 to 127. At
/// velocity 0 a receiver takes it as Note Off.
pub fn note_on(channel: u8, key: u8, velocity: u8) -> [u8; 3]
    requires channel { channel ≤ MAX_CHANNEL }
    requires key { key ≤ MAX_DATA }
    requires velocity { velocity ≤ MAX_DATA }
    ensures bytes { result ≡ note_on_bytes channel key velocity }
    ensures framed { IsVoiceMessage result }
{
    [NOTE_ON + channel, key, velocity]
}

/// The bytes of Note Off: a key, 0 to 127, ends on a channel, 0 to 15. Its release velocity is 0.
pub fn note_off(channel: u8, key: u8) -> [u8; 3]
    requires channel { channel ≤ MAX_CHANNEL }
    requires key { key ≤ MAX_DATA }
    ensures bytes { result ≡ note_off_bytes channel key }
    ensures framed { IsVoiceMessage result }
{
    [NOTE_OFF + channel, key, 0]
}

/// The bytes of Control Change: a controller's number, 0 to 127, and its value, 0 to 127, on a
/// channel, 0 to 15.
pub fn control(channel: u8, control: u8, value: u8) -> [u8; 3]
    requires channel { channel ≤ MAX_CHANNEL }
    requires control { control ≤ MAX_DATA }
    requires value { value ≤ MAX_DATA }
    ensures bytes { result ≡ control_bytes channel control value }
    ensures framed { IsVoiceMessage result }
{
    [CONTROL_CHANGE + channel, control, value]
}

/// The bytes of Pitch Bend Change on a channel, 0 to 15: the low seven bits of the bend, and then
/// the high seven. The middle is `lsb` 0 and `msb` 64.
pub fn bend(channel: u8, lsb: u8, msb: u8) -> [u8; 3]
    requires channel { channel ≤ MAX_CHANNEL }
    requires lsb { lsb ≤ MAX_DATA }
    requires msb { msb ≤ MAX_DATA }
    ensures bytes { result ≡ bend_bytes channel lsb msb }
    ensures framed { IsVoiceMessage result }
{
    [PITCH_BEND + channel, lsb, msb]
}
