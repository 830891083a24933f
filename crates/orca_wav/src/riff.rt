ghost use Rattle.std.specs.Prelude.{◌≡◌, ◌/◌, ◌%◌, ◌≤◌, [], map, slice_index, slice_index_or};
ghost use Rattle.std.specs.List.{range_with_len};
ghost use Rattle.orca_wav.specs.Header.{header_bytes};

use crate::limits::{HEADER_BYTES, MAX_WAVE_BYTES, SAMPLE_BYTES, SAMPLE_RATE};

/// The words of four bytes that a header has.
const HEADER_WORDS: usize = HEADER_BYTES / 4;

/// The beginning of a file of so many bytes of samples: a RIFF file of the form WAVE with the chunk
/// `fmt `, and the head of its chunk `data`. Its samples are of one channel.
pub fn header(bytes: u32) -> [u8; HEADER_BYTES]
    requires { bytes ≤ MAX_WAVE_BYTES }
    ensures { result ≡ header_bytes bytes }
{
    joined([
        *b"RIFF",
        (bytes + 36).to_le_bytes(),
        *b"WAVE",
        *b"fmt ",
        16u32.to_le_bytes(),
        // Plain numbers, and one channel.
        [1, 0, 1, 0],
        SAMPLE_RATE.to_le_bytes(),
        (SAMPLE_RATE * u32::from(SAMPLE_BYTES)).to_le_bytes(),
        // The bytes of a sample, and its bits.
        [2, 0, 16, 0],
        *b"data",
        bytes.to_le_bytes(),
    ])
}

/// The bytes of the words, one after the other.
fn joined(words: [[u8; 4]; HEADER_WORDS]) -> [u8; HEADER_BYTES]
    ensures { result
        ≡ map (λ i. slice_index (slice_index_or words (i / 4) []) (i % 4))
        (range_with_len 0 HEADER_BYTES) }
{
    let mut bytes = [0; HEADER_BYTES];
    for i in 0..HEADER_BYTES {
        bytes[i] = words[i / 4][i % 4];
    }
    bytes
}
