ghost use Rattle.std.specs.Prelude.{◌≡◌, ◌<◌, ◌≤◌, ◌*◌, length, map, pos, ◌+ℤ◌, fold, filter, not, All};
ghost use Rattle.std.specs.Vec.{vec_capacity};
ghost use Rattle.orca_wav.specs.Rendering.{is_of};
ghost use Rattle.orca_wav.specs.Tones.{IsInPeriod, value_of, tone_after};

use crate::Voice;
use crate::limits::{HALF_PERIOD, PERIOD, VELOCITY_LEVEL};
use orca_base::limits::{MAX_DATA, MAX_NOTES};

/// A voice, and where its wave stands. The phase is kept from sample to sample, so that none needs
/// a division.
#[derive(Clone, Copy)]
pub(crate) struct Tone {
    /// The voice.
    pub voice: Voice,
    /// How much its phase grows with each sample.
    pub increment: u32,
    /// How far it is in its period at the next sample.
    pub phase: u32,
}

impl Tone {
    /// The value of the next sample. The wave then goes on to the one after it.
    fn take(&mut self) -> i32
        requires { IsInPeriod self.old }
        ensures value { result ≡ value_of self.old }
        ensures after { self.new ≡ tone_after self.old }
    {
        let level = i32::from(VELOCITY_LEVEL * u16::from(self.voice.velocity));
        let value = if self.phase < HALF_PERIOD {
            level
        } else {
            -level
        };
        let phase = self.phase + self.increment;
        self.phase = if phase < PERIOD {
            phase
        } else {
            phase - PERIOD
        };
        value
    }
}

/// The sum of the values of the next sample. Each wave then goes on to the one after it.
pub(crate) fn mix(tones: &mut [Tone]) -> i32
    requires few { length tones.old ≤ MAX_NOTES }
    requires ready { All IsInPeriod tones.old }
    ensures sum { result ≡ fold ◌+ℤ◌ (pos 0) (map value_of tones.old) }
    ensures after { tones.new ≡ map tone_after tones.old }
{
    let mut sum = 0;
    for tone in tones.iter_mut() {
        sum += tone.take();
    }
    sum
}

/// Leaves the tones that are not of the channel and key.
pub(crate) fn remove(tones: &mut Vec<Tone>, channel: u8, key: u8)
    ensures tones { tones.new.items
        ≡ filter (λ tone. not (is_of channel key tone.voice)) tones.old.items }
    ensures room { vec_capacity tones.new ≡ vec_capacity tones.old }
{
    tones.retain(|tone| !(tone.voice.channel == channel && tone.voice.key == key));
}
