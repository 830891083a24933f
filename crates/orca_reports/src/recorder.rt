ghost use Rattle.std.specs.Prelude.{◌≡◌, ◌↔◌, ◌^◌, ◌<◌, [], IfOk, IsErrOf, OnErr, OnOk};
ghost use Rattle.orca_smf.specs.declared.limits.TheConstants.{MAX_TRACK_BYTES};
ghost use Rattle.orca_smf.specs.Songs.{IsSongMessage, smf};
ghost use Rattle.orca_reports.specs.Songs.{least_size, reached, reached_in, whole_size, with_message};

use orca_base::Memory;
use orca_smf::limits::MAX_DELTA;
use orca_smf::{SmfFault, Track};
use std::alloc::Global;
use std::marker::Model;

/// A track that takes every tick: one that no delta time reaches becomes the nearest one that is
/// reached. The ticks of a run that come in order are reached.
#[derive(Drop)]
pub(crate) struct Recorder {
    track: Track,
    // The tick of the last message.
    last: u32,
}

impl Model for Recorder {
    ghost use Rattle.std.specs.Prelude.{◌≡◌};
    ghost use Rattle.orca_smf.specs.Recording.{Recorded};
    ghost use Rattle.orca_smf.specs.Songs.{last_tick};

    ghost Value = { Recorded };

    ghost view = { λ r. r.track };

    ghost invariant = { λ r. r.last ≡ last_tick 0 r.track.list };
}

impl Recorder {
    /// A track with a tempo, in microseconds for each beat, and no message.
    pub(crate) fn start(alloc: Global, tempo: u32) -> Result<Recorder, Memory>
        requires { tempo < 2 ^ 24 }
        ensures { IfOk result (λ recorder. recorder ≡ record { tempo = tempo; list = [] }) }
    {
        Ok(Recorder {
            track: Track::start(alloc, tempo)?,
            last: 0,
        })
    }

    /// Adds a voice message of three bytes at a tick. After a fault all is as before.
    pub(crate) fn add(&mut self, tick: u32, bytes: [u8; 3]) -> Result<(), SmfFault>
        requires { IsSongMessage bytes }
        ensures added { OnOk result (self.new ≡ with_message self.old tick bytes) }
        ensures err { OnErr result (self.new ≡ self.old) }
        ensures too_long { IsErrOf result SmfFault.TooLong
            ↔ (MAX_TRACK_BYTES < least_size (with_message self.old tick bytes)) }
    {
        let tick = reached(self.last, tick);
        match self.track.add(tick, bytes) {
            Ok(()) => {
                self.last = tick;
                Ok(())
            }
            Err(fault) => Err(fault),
        }
    }

    /// The file of the song that ends at a tick. A fault gives the track up.
    pub(crate) fn finish(self, end: u32) -> Result<Vec<u8>, SmfFault>
        ensures file { IfOk result (λ file. file.items
            ≡ smf self.tempo self.list (reached_in self end)) }
        ensures too_long { IsErrOf result SmfFault.TooLong
            ↔ (MAX_TRACK_BYTES < whole_size self end) }
    {
        let Recorder { track, last } = self;
        track.finish(reached(last, end))
    }
}

/// A tick after another one, or the nearest one that a delta time reaches.
fn reached(before: u32, tick: u32) -> u32
    ensures { result ≡ reached before tick }
{
    tick.clamp(before, before.saturating_add(MAX_DELTA))
}
