//! A run that is saved as a song or as a wave.

ghost use Rattle.std.specs.Prelude.{◌≡◌, ◌≤◌, false};
ghost use Rattle.orca_cues.specs.Cues.{frames_cue};
ghost use Rattle.orca_player.specs.Doing.{Came};
ghost use Rattle.orca_player.specs.Outlines.{concert, is_too_long as is_long_work, standing_at};
ghost use Rattle.orca_reports.specs.Songs.{recording_at_start, smf_manner};
ghost use Rattle.orca_reports.specs.Waves.{wav_manner, wave_at_start};
ghost use Rattle.orca_words.specs.RequestIn.{recording_in, work_in};
ghost use Rattle.orca_words.specs.Requests.{Wav};
ghost use Rattle.orca_words.specs.declared.limits.TheConstants.{MIN_SONG_BPM};

use crate::Status;
use crate::concert::concert;
use crate::opening::Opening;
use orca_base::Memory;
use orca_course::Desk;
use orca_cues::Frames;
use orca_reports::{SmfReport, WavReport, wave_bytes};
use orca_rig::House;
use orca_wav::limits::MAX_WAVE_BYTES;
use orca_words::{Recording, Work};

/// Plays frames on an opened grid, and saves their MIDI messages as a song.
#[tactic(auto, using(crate::proofs::CameLemmas::came_none))]
pub(crate) fn record_song<H: House>(
    opening: &Opening,
    song: &Recording<'_>,
    desk: &mut Desk<H>,
) -> Status
    requires { MIN_SONG_BPM ≤ song.now.bpm }
    ensures { Came (concert smf_manner
        (recording_at_start song.now.out.now song.now.bpm song.now.frames)
        (frames_cue song.now.frames)
        (standing_at opening.now.grid opening.now.seed opening.now.limit))
        desk.old result desk.new }
{
    match SmfReport::start(opening.alloc, song.bpm, song.frames, song.out) {
        Ok(report) => {
            let mut source = Frames::of(song.frames);
            concert(opening, &mut source, report, desk)
        }
        Err(Memory) => Status::Memory,
    }
}

/// Plays frames on an opened grid, and saves their sound as a wave.
#[tactic(auto, using(crate::proofs::CameLemmas::came_none))]
pub(crate) fn record_wave<H: House>(
    opening: &Opening,
    wave: &Recording<'_>,
    desk: &mut Desk<H>,
) -> Status
    requires { is_long_work (Wav (recording_in wave.now)) ≡ false }
    ensures { Came (concert wav_manner (wave_at_start wave.now.out.now wave.now.bpm)
        (frames_cue wave.now.frames)
        (standing_at opening.now.grid opening.now.seed opening.now.limit))
        desk.old result desk.new }
{
    match WavReport::start(opening.alloc, wave.bpm, wave.frames, wave.out) {
        Ok(report) => {
            let mut source = Frames::of(wave.frames);
            concert(opening, &mut source, report, desk)
        }
        Err(Memory) => Status::Memory,
    }
}

/// Whether the work is a wave that would be too long.
pub(crate) fn is_too_long(work: &Work<'_>) -> bool
    ensures { result ≡ is_long_work (work_in work.now) }
{
    match work {
        Work::Wav(wave) => wave_bytes(wave.bpm, wave.frames) > u64::from(MAX_WAVE_BYTES),
        _ => false,
    }
}
