//! What reports keep and save, in the words of a whole run.

ghost use Rattle.orca_reports.specs.SavedSongs.{SongIsSaved, SongIsTune};
ghost use Rattle.orca_reports.specs.SavedWaves.{WaveIsSaved};
ghost use Rattle.orca_reports.specs.Sounding.{FramesSound};
ghost use Rattle.orca_reports.specs.Ticks.{TicksAreKept};

/// The MIDI messages of a tick that is not before the last one of a song, and that a delta time
/// reaches, are added with this tick, unless the song is given up. It does nothing.
#[tactic(auto, using(crate::proofs::SongLaw::ticks_are_kept))]
pub fn tick_law()
    ensures { TicksAreKept }
{}

/// A wave of frames has the samples of a run with their messages, if no message starts a voice that
/// is there or ends one that is not. It does nothing.
#[tactic(auto, using(crate::proofs::WaveLaw::frames_sound))]
pub fn wave_law()
    ensures { FramesSound }
{}

/// What a run of frames saves, if nothing ends it early. A song is that of its MIDI messages with
/// their ticks, and `orca_smf::read` gives exactly this song. A wave has the samples of its
/// messages. Nothing else is done on the outside. It does nothing.
#[tactic(auto, using(crate::proofs::SongLaw::songs_are_saved, crate::proofs::SongLaw::songs_are_tunes, crate::proofs::WaveLaw::waves_are_saved))]
pub fn saving_law()
    ensures song { SongIsSaved }
    ensures tune { SongIsTune }
    ensures wave { WaveIsSaved }
{}
