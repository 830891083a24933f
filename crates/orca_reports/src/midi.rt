ghost use Rattle.std.specs.Prelude.{◌≡◌, IfSome};
ghost use Rattle.orca_base.specs.MidiBytes.{midi_bytes_of};
ghost use Rattle.orca_base.specs.Ranges.{HasDataInRange};
ghost use Rattle.orca_smf.specs.Songs.{IsSongMessage};

use orca_base::Message;

/// The bytes of a MIDI message; none if it goes to another port.
pub(crate) fn midi_of(message: &Message) -> Option<[u8; 3]>
    requires { HasDataInRange message.now }
    ensures bytes { result ≡ midi_bytes_of message.now }
    ensures voice { IfSome result IsSongMessage }
{
    match *message {
        Message::On {
            channel,
            key,
            velocity,
        } => Some(midi_bytes::note_on(channel, key, velocity)),
        Message::Off { channel, key } => Some(midi_bytes::note_off(channel, key)),
        Message::Control {
            channel,
            control,
            value,
        } => Some(midi_bytes::control(channel, control, value)),
        Message::Bend { channel, lsb, msb } => Some(midi_bytes::bend(channel, lsb, msb)),
        Message::Udp { .. } | Message::Osc { .. } => None,
    }
}
