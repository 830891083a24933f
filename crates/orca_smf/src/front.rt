//! What stands in front of the messages.

ghost use Rattle.std.specs.Prelude.{◌≡◌, ◌≢◌, ◌+◌, ◌^◌, ◌<◌, ◌++◌, length, IfSome, IfNone, List, ℕ};
ghost use Rattle.orca_smf.specs.Front.{front as front_bytes};

use byteorder::{BigEndian, ByteOrder};
use orca_base::Wire;

/// The bytes of the header, and of the name and the length of the track.
pub(crate) const HEAD_BYTES: usize = 22;

/// The bytes of the tempo, with which the track begins.
pub(crate) const TEMPO_BYTES: usize = 7;

/// The bytes of the number of microseconds, with which the tempo ends.
const BEAT_BYTES: usize = 3;

/// The bytes in front of the messages.
pub(crate) const FRONT_BYTES: usize = HEAD_BYTES + TEMPO_BYTES;

/// The least bytes of the end of a track, whose delta time has one byte.
pub(crate) const END_BYTES: usize = 4;

/// The header of a file of format 0 with one track and a division of 4, and the name of the track
/// (Standard MIDI Files 1.0, header chunks and track chunks).
const HEADER: &[u8; 18] = b"MThd\0\0\0\x06\0\0\0\x01\0\x04MTrk";

/// Set Tempo at the very beginning (Standard MIDI Files 1.0, meta-events).
const SET_TEMPO: [u8; 4] = [0, 0xFF, 0x51, 3];

/// The front of a file: its track has `size` bytes, and a beat has `tempo` microseconds.
pub(crate) fn front(size: u32, tempo: u32) -> Wire
    requires { tempo < 2 ^ 24 }
    ensures { result ≡ front_bytes size tempo }
{
    let mut length = [0; 4];
    BigEndian::write_u32(&mut length, size);
    let mut beat = [0; BEAT_BYTES];
    BigEndian::write_u24(&mut beat, tempo);
    let mut front = Wire::empty();
    front.extend(HEADER);
    front.extend(&length);
    front.extend(&SET_TEMPO);
    front.extend(&beat);
    front
}

/// The tempo of a file, and the bytes after its front; none exactly if it has another front.
pub(crate) fn read_front(bytes: &[u8]) -> Option<(u32, &[u8])>
    ensures tempo { IfSome result (λ f. f.0 < 2 ^ 24) }
    ensures found { IfSome result (λ f. (length f.1.now + TEMPO_BYTES < 2 ^ 32)
        × (bytes.now ≡ front_bytes (length f.1.now + TEMPO_BYTES) f.0 ++ f.1.now)) }
    ensures none { IfNone result ((tempo : ℕ) (rest : List ℕ) → tempo < 2 ^ 24
        → length rest + TEMPO_BYTES < 2 ^ 32
        → bytes.now ≢ front_bytes (length rest + TEMPO_BYTES) tempo ++ rest) }
{
    if bytes.len() < FRONT_BYTES {
        return None;
    }
    let (start, rest) = bytes.split_at(FRONT_BYTES);
    let size = u32::try_from(rest.len() + TEMPO_BYTES).ok()?;
    let (_, beat) = start.split_at(FRONT_BYTES - BEAT_BYTES);
    let tempo = BigEndian::read_u24(beat);
    if start != front(size, tempo).as_slice() {
        return None;
    }
    Some((tempo, rest))
}
