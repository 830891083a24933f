ghost use Rattle.std.specs.Prelude.{◌≡◌, ◌<◌, ◌≤◌};
ghost use Rattle.orca_wav.specs.Waves.{phase_step};

use crate::limits::{OCTAVE_KEYS, PERIOD, PITCHES};
use orca_base::limits::MAX_DATA;

/// How much the phase of a key grows with each sample: the pitch of the key, which doubles with each
/// octave.
pub(crate) fn increment_of(key: u8) -> u32
    requires { key ≤ MAX_DATA }
    ensures increment { result ≡ phase_step key }
    ensures short { result < PERIOD }
{
    PITCHES[usize::from(key % OCTAVE_KEYS)] << (key / OCTAVE_KEYS)
}
