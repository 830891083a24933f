ghost use Rattle.std.specs.Prelude.{◌≡◌, ◌+◌, ◌*◌, ◌^◌, ◌<◌, ◌≤◌, ℕ, false, List, [], ◌∷◌, ◌++◌, IfOk, OnOk, OnErr, vec_len};
ghost use Rattle.std.specs.Vec.{vec_capacity};
ghost use Rattle.orca_base.specs.Ranges.{AreInRange};
ghost use Rattle.orca_wav.specs.Rendering.{is_voice_on, rendering_of, SuitsVoices, rendering_after, next_bytes, Renders};
ghost use Rattle.orca_wav.specs.Waves.{TimedMessage, sample_at};

use crate::Voice;
use crate::limits::{MAX_SAMPLE, SAMPLE_BYTES};
use crate::pitch::increment_of;
use crate::tone::{Tone, mix, remove};
use orca_base::limits::MAX_NOTES;
use orca_base::{Memory, Message};
use std::alloc::Global;
use std::marker::Model;

/// The voices that there are, and how many samples the run has so far. Room for a voice of each channel
/// and key is taken at the start, so that no message takes memory. A contract sees the samples, and
/// the voices in the order in which they started.
#[derive(Drop)]
pub struct Voices {
    samples: u32,
    tones: Vec<Tone>,
}

impl Model for Voices {
    ghost use Rattle.std.specs.Prelude.{map, ◌≤◌};
    ghost use Rattle.std.specs.Vec.{vec_capacity};
    ghost use Rattle.orca_base.specs.declared.limits.TheConstants.{MAX_NOTES};
    ghost use Rattle.orca_wav.specs.Rendering.{Rendering, rendering_of};
    ghost use Rattle.orca_wav.specs.Tones.{IsBand};

    ghost Value = { Rendering };

    ghost view = { λ v. rendering_of v.samples (map (λ tone. tone.voice) v.tones.items) };

    ghost invariant = { λ v. IsBand v.samples v.tones.items × (MAX_NOTES ≤ vec_capacity v.tones) };
}

impl Voices {
    /// No voices and no samples, with the room for a voice of each channel and key. [`Memory`] if
    /// that room is refused.
    pub fn start(alloc: Global) -> Result<Voices, Memory>
        ensures none { IfOk result (λ voices. voices ≡ rendering_of 0 []) }
        ensures run { IfOk result (λ voices. Renders [] voices []) }
    {
        let tones = Vec::with_capacity(alloc, MAX_NOTES)?;
        Ok(Voices { samples: 0, tones })
    }

    /// Takes a message: an On starts a voice at the next sample, and an Off ends one. Other
    /// messages change nothing.
    pub fn apply(&mut self, message: &Message)
        requires { SuitsVoices self.old.voices message.now }
        ensures after { self.new ≡ rendering_after self.old message.now }
        // The bytes that were rendered are still those of the run, which has one message more.
        ensures run { (messages : List TimedMessage) (bytes : List ℕ)
            → Renders messages self.old bytes
            → Renders
            (messages ++ record { message = message.now; samples = self.old.samples } ∷ [])
            self.new bytes }
    {
        match *message {
            Message::On {
                channel,
                key,
                velocity,
            } => self.begin(channel, key, velocity),
            Message::Off { channel, key } => self.end(channel, key),
            Message::Control { .. }
            | Message::Bend { .. }
            | Message::Udp { .. }
            | Message::Osc { .. } => {}
        }
    }

    /// Starts a voice at the next sample.
    fn begin(&mut self, channel: u8, key: u8, velocity: u8)
        requires in_range { AreInRange channel key velocity }
        requires silent { is_voice_on self.old.voices channel key ≡ false }
        ensures { self.new ≡ rendering_after self.old (Message.On channel key velocity) }
    {
        let voice = Voice {
            channel,
            key,
            velocity,
            first: self.samples,
        };
        self.tones.push_reserved(Tone {
            voice,
            increment: increment_of(key),
            phase: 0,
        });
    }

    /// Ends the voice of a channel and key.
    fn end(&mut self, channel: u8, key: u8)
        ensures { self.new ≡ rendering_after self.old (Message.Off channel key) }
    {
        remove(&mut self.tones, channel, key);
    }

    /// Adds the bytes of the next `count` samples. [`Memory`] if `into` has no room for them and
    /// cannot grow; then nothing has changed.
    pub fn render(&mut self, count: u32, into: &mut Vec<u8>) -> Result<(), Memory>
        requires { self.old.samples + count < 2 ^ 32 }
        ensures rendered { OnOk result (into.new.items ≡ into.old.items ++ next_bytes self.old count) }
        ensures later { OnOk result
            (self.new ≡ rendering_of (self.old.samples + count) self.old.voices) }
        // The bytes that were rendered of a run, and these after them, are those of the run.
        ensures run { OnOk result ((messages : List TimedMessage) (bytes : List ℕ)
            → Renders messages self.old bytes
            → Renders messages self.new (bytes ++ next_bytes self.old count)) }
        ensures refused { OnErr result ((self.new ≡ self.old) × (into.new.items ≡ into.old.items)) }
        // No other memory is taken.
        ensures full { OnErr result
            (vec_capacity into.old < vec_len into.old + SAMPLE_BYTES * count) }
    {
        into.reserve(usize::from(SAMPLE_BYTES) * count as usize)?;
        for _ in 0..count {
            let [low, high] = self.sample().to_le_bytes();
            into.push_reserved(low);
            into.push_reserved(high);
        }
        Ok(())
    }

    /// The next sample.
    fn sample(&mut self) -> i16
        requires { self.old.samples + 1 < 2 ^ 32 }
        ensures sample { result ≡ sample_at self.old.voices self.old.samples }
        ensures later { self.new ≡ rendering_of (self.old.samples + 1) self.old.voices }
    {
        let sum = mix(&mut self.tones);
        self.samples += 1;
        sum.clamp(-MAX_SAMPLE, MAX_SAMPLE) as i16
    }
}
