ghost use Rattle.std.specs.Prelude.{◌≡◌, ◌↔◌, ◌+◌, ◌^◌, ◌<◌, ◌≤◌, [], ◌∷◌, ◌++◌, length, drop, IfOk, IsErrOf, OnOk, OnErr};
ghost use Rattle.orca_smf.specs.Songs.{IsTune, IsSongMessage, last_tick, track_opening, smf, track_bytes};

use crate::SmfFault;
use crate::delta::event_of;
use crate::front::{END_BYTES, FRONT_BYTES, HEAD_BYTES, front};
use crate::limits::{MAX_DELTA, MAX_TRACK_BYTES};
use orca_base::Memory;
use std::alloc::Global;
use std::marker::Model;

/// The end of a track, after its delta time (Standard MIDI Files 1.0, meta-events).
pub(crate) const END_OF_TRACK: [u8; 3] = [0xFF, 0x2F, 0];

/// A track that grows message by message. A contract sees the tempo, and the messages so far with
/// their ticks.
#[derive(Debug, Drop)]
pub struct Track {
    tempo: u32,
    // The tick of the last message.
    last: u32,
    // The file so far, with room for its front.
    file: Vec<u8>,
}

impl Model for Track {
    ghost use Rattle.orca_smf.specs.Recording.{Recorded};

    ghost Value = { Recorded };

    ghost use Rattle.orca_smf.specs.Tracks.{IsTrack, recorded_of};

    ghost view = { recorded_of };

    ghost invariant = { IsTrack };
}

impl Track {
    /// A track with a tempo, in microseconds for each beat, and no message.
    pub fn start(alloc: Global, tempo: u32) -> Result<Track, Memory>
        requires { tempo < 2 ^ 24 }
        ensures { IfOk result (λ track_bytes. track_bytes ≡ record { tempo = tempo; list = [] }) }
    {
        let file = Vec::from_slice(alloc, &[0; FRONT_BYTES])?;
        Ok(Track {
            tempo,
            last: 0,
            file,
        })
    }

    /// Adds a voice message of three bytes at a tick. After a fault the track is as before.
    pub fn add(&mut self, tick: u32, bytes: [u8; 3]) -> Result<(), SmfFault>
        requires later { last_tick 0 self.old.list ≤ tick }
        requires near { tick ≤ last_tick 0 self.old.list + MAX_DELTA }
        requires voice { IsSongMessage bytes }
        ensures added { let list = self.old.list ++ record { tick = tick; bytes = bytes } ∷ [] in
            OnOk result (self.new ≡ record self.old { list = list }) }
        ensures err { OnErr result (self.new ≡ self.old) }
        // The track with this message and the shortest end would be too long.
        ensures too_long { let list = self.old.list ++ record { tick = tick; bytes = bytes } ∷ [] in
            IsErrOf result SmfFault.TooLong
            ↔ (MAX_TRACK_BYTES < length (track_opening self.old.tempo list) + END_BYTES) }
    {
        let event = event_of(tick - self.last, &bytes);
        let event = event.as_slice();
        if self.file.len() - HEAD_BYTES + event.len() + END_BYTES > MAX_TRACK_BYTES {
            return Err(SmfFault::TooLong);
        }
        self.file.extend_from_slice(event)?;
        self.last = tick;
        Ok(())
    }

    /// The file of the song that ends at a tick. A fault gives the track up.
    pub fn finish(self, end: u32) -> Result<Vec<u8>, SmfFault>
        requires later { last_tick 0 self.list ≤ end }
        requires near { end ≤ last_tick 0 self.list + MAX_DELTA }
        ensures file { IfOk result (λ file. file.items ≡ smf self.tempo self.list end) }
        // So `read` gives the song back.
        ensures song { OnOk result
            (IsTune (record { tempo = self.tempo; list = self.list; end = end })) }
        // The whole track would be too long.
        ensures too_long { IsErrOf result SmfFault.TooLong
            ↔ (MAX_TRACK_BYTES < length (track_bytes self.tempo self.list end)) }
    {
        let Track {
            tempo,
            last,
            mut file,
        } = self;
        let event = event_of(end - last, &END_OF_TRACK);
        let event = event.as_slice();
        let size = file.len() - HEAD_BYTES + event.len();
        if size > MAX_TRACK_BYTES {
            return Err(SmfFault::TooLong);
        }
        file.extend_from_slice(event)?;
        put_front(front(size as u32, tempo).as_slice(), &mut file);
        Ok(file)
    }
}

/// Writes bytes over the first ones of a file.
fn put_front(front: &[u8], file: &mut [u8])
    requires { length front.now ≤ length file.old }
    ensures { file.new ≡ front.now ++ drop (length front.now) file.old }
{
    file[..front.len()].copy_from_slice(front);
}
