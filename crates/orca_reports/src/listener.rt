ghost use Rattle.std.specs.Prelude.{◌≡◌, ◌+◌, ◌^◌, ◌<◌, ◌++◌, [], All, IfOk, OnErr, OnOk, fold};
ghost use Rattle.orca_base.specs.Ranges.{HasDataInRange};
ghost use Rattle.orca_wav.specs.Rendering.{is_voice_on, next_bytes, rendering_after, rendering_of};
ghost use Rattle.orca_reports.specs.Waves.{heard_message, suits};

use orca_base::{Memory, Message};
use orca_wav::{Voice, Voices};
use std::alloc::Global;
use std::marker::Model;

/// The voices of a run, which leave a message out that does not suit them. Those of a run suit them.
#[derive(Drop)]
pub(crate) struct Listener {
    voices: Voices,
    // What a contract sees of the voices: how many samples there are, and each voice.
    samples: u32,
    on: Vec<Voice>,
}

impl Model for Listener {
    ghost use Rattle.std.specs.Prelude.{◌≡◌};
    ghost use Rattle.orca_wav.specs.Rendering.{Rendering};

    ghost Value = { Rendering };

    ghost view = { λ l. l.voices };

    ghost invariant = { λ l. (l.on.items ≡ l.voices.voices) × (l.samples ≡ l.voices.samples) };
}

impl Listener {
    /// No voices and no samples. [`Memory`] if the room for the voices is refused.
    pub(crate) fn start(alloc: Global) -> Result<Listener, Memory>
        ensures { IfOk result (λ listener. listener ≡ rendering_of 0 []) }
    {
        Ok(Listener {
            voices: Voices::start(alloc)?,
            samples: 0,
            on: Vec::new(alloc),
        })
    }

    /// How many samples there are so far.
    pub(crate) fn samples(&self) -> u32
        ensures { result ≡ self.now.samples }
    {
        self.samples
    }

    /// Takes messages, in order.
    pub(crate) fn hear(&mut self, messages: &[Message]) -> Result<(), Memory>
        requires { All HasDataInRange messages.now }
        ensures heard { OnOk result (self.new ≡ fold heard_message self.old messages.now) }
        ensures samples { self.new.samples ≡ self.old.samples }
    {
        for message in messages {
            self.take(message)?;
        }
        Ok(())
    }

    /// Takes a message.
    #[tactic(auto, unfolding(crate::specs::Waves::heard_message))]
    fn take(&mut self, message: &Message) -> Result<(), Memory>
        requires { HasDataInRange message.now }
        ensures heard { OnOk result (self.new ≡ heard_message self.old message.now) }
        ensures samples { self.new.samples ≡ self.old.samples }
    {
        if !suits(&self.on, message) {
            return Ok(());
        }
        change(&mut self.on, self.samples, message)?;
        self.voices.apply(message);
        Ok(())
    }

    /// Adds the bytes of the next `count` samples.
    pub(crate) fn render(&mut self, count: u32, into: &mut Vec<u8>) -> Result<(), Memory>
        requires { self.old.samples + count < 2 ^ 32 }
        ensures rendered { OnOk result
            (into.new.items ≡ into.old.items ++ next_bytes self.old count) }
        ensures later { OnOk result
            (self.new ≡ rendering_of (self.old.samples + count) self.old.voices) }
        ensures refused { OnErr result ((self.new ≡ self.old) × (into.new.items ≡ into.old.items)) }
    {
        self.voices.render(count, into)?;
        self.samples += count;
        Ok(())
    }
}

/// Whether a message suits the voices: it starts none that is there, and ends none that is not.
fn suits(on: &[Voice], message: &Message) -> bool
    ensures { result ≡ suits on.now message.now }
{
    match *message {
        Message::On { channel, key, .. } => !has_key(on, channel, key),
        Message::Off { channel, key } => has_key(on, channel, key),
        Message::Control { .. }
        | Message::Bend { .. }
        | Message::Udp { .. }
        | Message::Osc { .. } => true,
    }
}

/// Whether a voice has this channel and key.
fn has_key(on: &[Voice], channel: u8, key: u8) -> bool
    ensures { result ≡ is_voice_on on.now channel key }
{
    on.iter()
        .any(|voice| voice.channel == channel && voice.key == key)
}

/// The voices after a message, when there are so many samples.
fn change(on: &mut Vec<Voice>, samples: u32, message: &Message) -> Result<(), Memory>
    ensures voices { OnOk result
        (on.new.items ≡ (rendering_after (rendering_of samples on.old.items) message.now).voices) }
    ensures err { OnErr result (on.new.items ≡ on.old.items) }
{
    match *message {
        Message::On {
            channel,
            key,
            velocity,
        } => on.push(Voice {
            channel,
            key,
            velocity,
            first: samples,
        })?,
        Message::Off { channel, key } => {
            on.retain(|voice| !(voice.channel == channel && voice.key == key));
        }
        Message::Control { .. }
        | Message::Bend { .. }
        | Message::Udp { .. }
        | Message::Osc { .. } => {}
    }
    Ok(())
}
