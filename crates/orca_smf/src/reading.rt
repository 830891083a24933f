//! Reading a song.

ghost use Rattle.std.specs.Prelude.{◌≡◌, ◌≢◌, IfOk, IfNone, IfSome, IsErrOf, MatchResult, ℕ, List, option_map};
ghost use Rattle.orca_smf.specs.Songs.{MayFollow, IsTune, Tune, end_event, file_of};
ghost use Rattle.orca_smf.specs.Spelling.{HasRead, is_status as is_status_byte, message_at, tick_at};

use crate::delta::read_delta;
use crate::front::read_front;
use crate::track::END_OF_TRACK;
use crate::{SmfRefusal, Song, Timed};
use orca_base::limits::MAX_DATA;
use std::alloc::{AllocFailed, Global};

/// The song of a file that a [`Track`](crate::Track) may have written.
/// [`NotOurs`](SmfRefusal::NotOurs) if the bytes are the file of no song: each song has one
/// spelling. [`Memory`](SmfRefusal::Memory) if there is no room for its messages.
pub fn read(alloc: Global, bytes: &[u8]) -> Result<Song, SmfRefusal>
    ensures song { IfOk result (λ song. IsTune song × (bytes.now ≡ file_of song)) }
    ensures not_ours { IsErrOf result SmfRefusal.NotOurs
        → (song : Tune) → IsTune song → bytes.now ≢ file_of song }
    // So what is written is read again.
    ensures again { (song : Tune) → IsTune song → bytes.now ≡ file_of song
        → MatchResult result (λ read. read ≡ song) (λ refusal. refusal ≡ SmfRefusal.Memory) }
{
    let Some((tempo, rest)) = read_front(bytes) else {
        return Err(SmfRefusal::NotOurs);
    };
    let (list, last, rest) = read_messages(alloc, rest)?;
    let Some(end) = read_end(last, rest) else {
        return Err(SmfRefusal::NotOurs);
    };
    Ok(Song::of(tempo, list, end))
}

/// The messages from the first on, the tick of the last of them, and the bytes after them, which
/// begin with no message.
fn read_messages(
    alloc: Global,
    bytes: &[u8],
) -> Result<(Vec<Timed>, u32, &[u8]), AllocFailed<Timed>>
    ensures { IfOk result (λ r. HasRead 0 bytes.now r.0.items r.1 r.2.now) }
{
    let mut list = Vec::new(alloc);
    let mut last = 0;
    let mut rest = bytes;
    while let Some((message, behind)) = read_message(last, rest) {
        list.push(message)?;
        last = message.tick;
        rest = behind;
    }
    Ok((list, last, rest))
}

/// The message at the front, whose delta time counts from a tick, and what comes after it.
#[tactic(auto, unfolding(crate::specs::Spelling::message_at, crate::specs::Spelling::voice_at))]
fn read_message(last: u32, bytes: &[u8]) -> Option<(Timed, &[u8])>
    ensures { option_map (λ m. (m.0, m.1.now)) result ≡ message_at last bytes.now }
{
    let (tick, rest) = read_tick(last, bytes)?;
    let [first, second, third, behind @ ..] = rest else {
        return None;
    };
    if !is_status(*first) || *second > MAX_DATA || *third > MAX_DATA {
        return None;
    }
    let bytes = [*first, *second, *third];
    Some((Timed { tick, bytes }, behind))
}

/// The tick of the end, whose delta time counts from a tick; none exactly if the bytes are no end.
fn read_end(last: u32, bytes: &[u8]) -> Option<u32>
    ensures end { IfSome result (λ end. MayFollow last end × (bytes.now ≡ end_event last end)) }
    ensures none { IfNone result ((end : ℕ) → MayFollow last end
        → bytes.now ≢ end_event last end) }
{
    let (end, rest) = read_tick(last, bytes)?;
    if rest == END_OF_TRACK.as_slice() {
        Some(end)
    } else {
        None
    }
}

/// The tick that the delta time at the front gives, counted from a tick, and what comes after it.
#[tactic(auto, unfolding(crate::specs::Spelling::tick_at))]
fn read_tick(last: u32, bytes: &[u8]) -> Option<(u32, &[u8])>
    ensures { option_map (λ t. (t.0, t.1.now)) result ≡ tick_at last bytes.now }
{
    let (delta, rest) = read_delta(bytes)?;
    let tick = last.checked_add(delta)?;
    Some((tick, rest))
}

/// Whether the byte begins a voice message of three bytes.
fn is_status(byte: u8) -> bool
    ensures { result ≡ is_status_byte byte }
{
    matches!(byte, 0x80..0xC0 | 0xE0..0xF0)
}
