//! The operators that send events: notes, control changes, pitch bends, text and OSC messages.
#![tactic(auto)]

mod control_change;
mod midi;
mod mono;
mod note_ports;
mod osc_message;
mod pitch_bend;
mod ports;
mod scaled;
mod sending;
mod udp_text;

pub use control_change::ControlChange;
pub use midi::Midi;
pub use mono::Mono;
pub use osc_message::OscMessage;
pub use pitch_bend::PitchBend;
pub use udp_text::UdpText;
