ghost use Rattle.std.specs.Prelude.{◌≡◌, []};
ghost use Rattle.orca_base.specs.Ranges.{HasDataInRange, CarriesFewValues};
ghost use Rattle.orca_send.specs.Sending.{sent_of};

use orca_base::{Message, Port, Wire};

/// Writes the bytes of a message, as MIDI 1.0 and OSC 1.0 have them, and answers the port that they
/// go to.
pub fn wire(message: &Message, into: &mut Wire) -> Port
    requires empty { into.old ≡ [] }
    requires in_range { HasDataInRange message.now }
    requires few_values { CarriesFewValues message.now }
    ensures { sent_of message.now ≡ record { port = result; bytes = into.new } }
{
    match message {
        Message::On {
            channel,
            key,
            velocity,
        } => push_midi(midi_bytes::note_on(*channel, *key, *velocity), into),
        Message::Off { channel, key } => push_midi(midi_bytes::note_off(*channel, *key), into),
        Message::Control {
            channel,
            control,
            value,
        } => push_midi(midi_bytes::control(*channel, *control, *value), into),
        Message::Bend { channel, lsb, msb } => {
            push_midi(midi_bytes::bend(*channel, *lsb, *msb), into)
        }
        Message::Udp { text } => {
            into.extend(text.as_slice());
            Port::Udp
        }
        Message::Osc { path, values } => {
            osc_bytes::message(*path, values, into);
            Port::Osc
        }
    }
}

/// Appends the three bytes of a MIDI message, and answers the MIDI port.
fn push_midi(bytes: [u8; 3], into: &mut Wire) -> Port
    requires { into.old ≡ [] }
    ensures port { result ≡ Port.Midi }
    ensures bytes { into.new ≡ bytes }
{
    into.extend(&bytes);
    Port::Midi
}
