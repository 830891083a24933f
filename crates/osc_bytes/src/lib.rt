//! The bytes of an OSC message (OSC 1.0) of int32 arguments.
#![tactic(auto)]

ghost use Rattle.std.specs.Prelude.{◌≡◌, ◌+◌, ◌*◌, ◌/◌, ◌%◌, ◌<◌, ◌≤◌, [], ◌∷◌, ◌++◌, length, replicate};
ghost use Rattle.osc_bytes.specs.OscBytes.{arguments, message_bytes, osc_string};

use byteorder::{BigEndian, ByteOrder};
use orca_base::limits::{MAX_OSC_BYTES, MAX_VALUES, SHORT_BYTES, WIRE_BYTES};
use orca_base::{Glyph, Short, Wire};

/// Puts a message into an empty wire: the address `/` and the path glyph, and each value, at most
/// [`MAX_VALUES`] of them, as an int32 (OSC 1.0, OSC messages).
#[tactic(auto, unfolding(crate::specs::OscBytes::message_bytes))]
pub fn message(path: Glyph, values: &Short, into: &mut Wire)
    requires empty { into.old ≡ [] }
    requires few { length values.now ≤ MAX_VALUES }
    ensures bytes { into.new ≡ message_bytes path values.now }
    // A receiver gets a whole number of words of four bytes.
    ensures words { length into.new % 4 ≡ 0 }
    ensures short { length into.new ≤ MAX_OSC_BYTES }
{
    let values = values.as_slice();
    push_string(&[b'/', path.byte()], into);
    push_string(type_tags(values.len()).as_slice(), into);
    push_integers(values, into);
}

/// A comma, and the tag of an int32 for each of `count` values (OSC 1.0, type tag strings).
fn type_tags(count: usize) -> Short
    requires { count < SHORT_BYTES }
    ensures tags { result ≡ 44 ∷ replicate count 105 }
    ensures size { length result ≡ 1 + count }
{
    let mut tags = Short::empty();
    tags.push(b',');
    for _ in 0..count {
        tags.push(b'i');
    }
    tags
}

/// Adds an OSC-string: the text, and then 1 to 4 zero bytes, up to a multiple of 4 (OSC 1.0, atomic
/// data types).
fn push_string(text: &[u8], into: &mut Wire)
    requires words { length into.old % 4 ≡ 0 }
    requires room { length into.old + length text.now + 4 ≤ WIRE_BYTES }
    ensures string { into.new ≡ into.old ++ osc_string text.now }
    ensures words { length into.new % 4 ≡ 0 }
    ensures short { length into.new ≤ length into.old + length text.now + 4 }
{
    into.extend(text);
    push_zeros(4 - text.len() % 4, into);
}

/// Adds `count` zero bytes.
fn push_zeros(count: usize, into: &mut Wire)
    requires { length into.old + count ≤ WIRE_BYTES }
    ensures { into.new ≡ into.old ++ replicate count 0 }
{
    for _ in 0..count {
        into.push(0);
    }
}

/// Adds each value as an int32, the most significant byte first.
fn push_integers(values: &[u8], into: &mut Wire)
    requires { length into.old + 4 * length values.now ≤ WIRE_BYTES }
    ensures integers { into.new ≡ into.old ++ arguments values.now }
    ensures size { length into.new ≡ length into.old + 4 * length values.now }
{
    for value in values {
        let mut bytes = [0; 4];
        BigEndian::write_u32(&mut bytes, u32::from(*value));
        into.extend(&bytes);
    }
}
