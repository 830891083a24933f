//! The numbers of the sound: how many samples a second has, how they are scaled and stored.

use orca_base::limits::BEAT_FRAMES;

/// The samples of a second.
pub const SAMPLE_RATE: u32 = 44_100;

/// The samples of a frame at the slowest tempo, one beat a minute. A frame has this number divided
/// by its tempo, rounded down.
pub const SLOWEST_FRAME_SAMPLES: u32 = 60 * SAMPLE_RATE / BEAT_FRAMES as u32;

/// The bytes of a sample.
pub const SAMPLE_BYTES: u16 = 2;

/// The greatest sample. The least is the negative of it.
pub const MAX_SAMPLE: i32 = 32_767;

/// The bytes of a file before its samples.
pub const HEADER_BYTES: usize = 44;

/// The most bytes of the samples of a file.
pub const MAX_WAVE_BYTES: u32 = 268_435_456;

/// The keys of an octave.
pub const OCTAVE_KEYS: u8 = 12;

/// How many parts of a hertz the pitches are given in.
pub const HERTZ_PARTS: u32 = 1_024;

/// The pitches of the lowest octave, in parts of a hertz, from C on.
pub const PITCHES: [u32; OCTAVE_KEYS as usize] = [
    8_372, 8_870, 9_397, 9_956, 10_548, 11_175, 11_840, 12_544, 13_290, 14_080, 14_917, 15_804,
];

/// The phase of a whole period of a wave. With each sample the phase of a voice grows by its pitch,
/// so a second has as many periods as the pitch has hertz.
pub const PERIOD: u32 = HERTZ_PARTS * SAMPLE_RATE;

/// The phase of the first half of a period, in which a wave is up.
pub const HALF_PERIOD: u32 = PERIOD / 2;

/// How far a wave is from zero, for each unit of its velocity.
pub const VELOCITY_LEVEL: u16 = 64;
