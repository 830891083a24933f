//! The ends of notes that a sink did not take. Until a device gets one, its note sounds on.

ghost use Rattle.std.specs.Prelude.{◌≡◌, ◌↔◌, ◌≤◌, false, IsNone, IfSome};
ghost use Rattle.std.specs.Option.{option_map_or};
ghost use Rattle.orca_base.specs.declared.limits.TheConstants.{MAX_CHANNEL, MAX_DATA};
ghost use Rattle.orca_notes.specs.Device.{effect_of};
ghost use Rattle.orca_edge.specs.Owed.{IsVoice, OwesNone, IsMissed, IsPaid, IsFirst, is_one, is_end_of};

use orca_base::limits::{MAX_CHANNEL, MAX_DATA};

/// How many channels there are.
const CHANNELS: usize = MAX_CHANNEL as usize + 1;

/// A key of a channel: 0 to [`MAX_DATA`], and 0 to [`MAX_CHANNEL`].
#[derive(Clone, Copy)]
pub(crate) struct Voice {
    pub channel: u8,
    pub key: u8,
}

/// The voices whose ends are owed.
#[derive(Drop)]
pub(crate) struct Owed {
    /// For each channel a number whose bit k says whether the end of its key k is owed.
    ends: [u128; CHANNELS],
}

impl Owed {
    /// No end is owed.
    pub(crate) fn none() -> Owed
        ensures { OwesNone result.ends }
    {
        Owed {
            ends: [0; CHANNELS],
        }
    }

    /// A message was not taken. If it ends a voice, that end is owed.
    pub(crate) fn miss(&mut self, bytes: &[u8])
        ensures { IsMissed self.old.ends self.new.ends bytes.now }
    {
        if let Some(voice) = ended_by(bytes) {
            self.ends[usize::from(voice.channel)] |= 1 << voice.key;
        }
    }

    /// The end of this voice was taken.
    pub(crate) fn pay(&mut self, voice: Voice)
        requires { IsVoice voice }
        ensures { IsPaid self.old.ends self.new.ends voice }
    {
        self.ends[usize::from(voice.channel)] &= !(1 << voice.key);
    }

    /// The voice whose end goes first: of the lowest channel that is owed one, the lowest key.
    pub(crate) fn first(&self) -> Option<Voice>
        ensures none { IsNone result → OwesNone self.now.ends }
        ensures first { IfSome result (IsFirst self.now.ends) }
    {
        for (channel, keys) in self.ends.iter().enumerate() {
            if *keys != 0 {
                return Some(Voice {
                    channel: channel as u8,
                    key: keys.trailing_zeros() as u8,
                });
            }
        }
        None
    }
}

/// The voice that a message ends, if any: Note Off does, and Note On at velocity 0.
fn ended_by(bytes: &[u8]) -> Option<Voice>
    ensures voice { IfSome result IsVoice }
    ensures ended { (voice : Voice) → IsVoice voice → is_end_of (effect_of bytes.now) voice
        ≡ option_map_or (λ one. is_one one voice) result false }
{
    let [status, key, velocity] = bytes else {
        return None;
    };
    let kind = *status / 16;
    let is_end = kind == 8 || kind == 9 && *velocity == 0;
    if is_end && *key <= MAX_DATA {
        Some(Voice {
            channel: *status % 16,
            key: *key,
        })
    } else {
        None
    }
}
