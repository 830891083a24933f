//! Delta times (Standard MIDI Files 1.0, variable-length quantities).

ghost use Rattle.std.specs.Prelude.{◌≡◌, ◌+◌, ◌*◌, ◌^◌, ◌<◌, ◌≤◌, ◌++◌, length, option_map};
ghost use Rattle.orca_smf.specs.Songs.{delta as delta_bytes, leading};
ghost use Rattle.orca_smf.specs.Spelling.{delta_at};

use crate::limits::MAX_DELTA;
use orca_base::Short;
use orca_base::limits::SHORT_BYTES;

/// The most bytes of a delta time.
const DELTA_BYTES: usize = 4;

/// The bit that every byte of a delta time has but the last.
const MORE: u8 = 0x80;

/// An event: a delta time, and the bytes after it.
pub(crate) fn event_of(delta: u32, bytes: &[u8]) -> Short
    requires near { delta ≤ MAX_DELTA }
    requires room { length bytes.now + DELTA_BYTES ≤ SHORT_BYTES }
    ensures { result ≡ delta_bytes delta ++ bytes.now }
{
    let mut event = Short::empty();
    push_delta(delta, &mut event);
    event.extend(bytes);
    event
}

/// Adds a delta time in its shortest form.
#[tactic(auto, unfolding(crate::specs::Songs::delta))]
fn push_delta(delta: u32, into: &mut Short)
    requires near { delta ≤ MAX_DELTA }
    requires room { length into.old + DELTA_BYTES ≤ SHORT_BYTES }
    ensures bytes { into.new ≡ into.old ++ delta_bytes delta }
    ensures short { length into.new ≤ length into.old + DELTA_BYTES }
{
    push_leading(delta / 128, 3, into);
    into.push((delta % 128) as u8);
}

/// Adds the bytes in front of the last one, at most `places`: they stand for `number`.
fn push_leading(number: u32, places: u8, into: &mut Short)
    requires { length into.old + places ≤ SHORT_BYTES }
    ensures bytes { into.new ≡ into.old ++ leading places number }
    ensures short { length into.new ≤ length into.old + places }
{
    if places > 0 && number > 0 {
        push_leading(number / 128, places - 1, into);
        into.push(MORE + (number % 128) as u8);
    }
}

/// The delta time at the front of the bytes, and what comes after it; none exactly if no delta
/// time in its shortest form is there.
#[tactic(auto, unfolding(crate::specs::Spelling::delta_at))]
pub(crate) fn read_delta(bytes: &[u8]) -> Option<(u32, &[u8])>
    ensures { option_map (λ d. (d.0, d.1.now)) result ≡ delta_at bytes.now }
{
    match bytes {
        [MORE, ..] => None,
        [a, rest @ ..] if *a < MORE => Some((u32::from(*a), rest)),
        [a, b, rest @ ..] if *b < MORE => {
            let high = u32::from(*a - MORE);
            Some((below(high, *b), rest))
        }
        [a, b, c, rest @ ..] if *c < MORE => {
            let high = below(u32::from(*a - MORE), *b - MORE);
            Some((below(high, *c), rest))
        }
        [a, b, c, d, rest @ ..] if *d < MORE => {
            let high = below(below(u32::from(*a - MORE), *b - MORE), *c - MORE);
            Some((below(high, *d), rest))
        }
        _ => None,
    }
}

/// The number of seven bits below those of `high`.
fn below(high: u32, bits: u8) -> u32
    requires high { high < 2 ^ 21 }
    requires bits { bits < 128 }
    ensures { result ≡ high * 128 + bits }
{
    high * 128 + u32::from(bits)
}
