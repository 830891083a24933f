ghost use Rattle.std.specs.Prelude.{◌≡◌, ◌≤◌, All, Bool, IfOk, OnOk, Option, fold};
ghost use Rattle.orca_base.specs.Ranges.{HasDataInRange};
ghost use Rattle.orca_smf.specs.Songs.{IsSongMessage};
ghost use Rattle.orca_concert.specs.Manners.{aside_course};
ghost use Rattle.orca_course.specs.Doing.{Does, nowhere};
ghost use Rattle.orca_course.specs.Standings.{Standing};
ghost use Rattle.orca_reports.specs.Songs.{added, loss, recording_at_start, saved_by, with_bytes};

use crate::midi::midi_of;
use crate::recorder::Recorder;
use orca_base::limits::MINUTE_MICROSECONDS;
use orca_base::{Memory, Message, Reply, Rule};
use orca_concert::{News, Report};
use orca_course::{Desk, NoMemory, Stop};
use orca_edit::Machine;
use orca_rig::{Disk, House};
use orca_smf::SmfFault;
use std::alloc::Global;
use std::marker::Model;

/// The report of `smf`: the MIDI messages are recorded as a song, and saved at the end. Nothing is
/// printed or handed out. A full history ends the run, and so does a track that is too long.
#[derive(Drop)]
pub struct SmfReport<'a> {
    // The song so far, until it is given up or saved.
    song: Option<Recorder>,
    // The tick of the end.
    end: u32,
    // The name of the file.
    out: &'a str,
}

impl<'a> Model for SmfReport<'a> {
    ghost use Rattle.orca_reports.specs.Songs.{SongSoFar};

    ghost Value = { SongSoFar };

    ghost view = { λ r. record { out = r.out.now; end = r.end; song = r.song } };
}

impl<'a> SmfReport<'a> {
    /// The report of a run of so many frames at so many beats a minute, 4 or more, which is saved
    /// under a name. [`Memory`] if the room for the front of the file is refused.
    pub fn start(
        alloc: Global,
        bpm: u16,
        frames: u32,
        out: &'a str,
    ) -> Result<SmfReport<'a>, Memory>
        requires { 4 ≤ bpm }
        ensures { IfOk result (λ report. report ≡ recording_at_start out.now bpm frames) }
    {
        let tempo = MINUTE_MICROSECONDS / u64::from(bpm);
        Ok(SmfReport {
            song: Some(Recorder::start(alloc, tempo as u32)?),
            end: frames,
            out,
        })
    }

    /// Saves the song, unless it was given up.
    fn save<H: House>(&mut self, desk: &mut Desk<H>) -> Result<Option<Stop>, NoMemory>
        ensures { (at : Option Standing) (hands : Bool) → Does (nowhere at hands)
            (aside_course (saved_by self.old.song self.old)) self.old desk.old result self.new
            desk.new }
    {
        let Some(song) = self.song.take() else {
            return Ok(None);
        };
        match song.finish(self.end) {
            Ok(file) => {
                desk.save(self.out, file.as_slice(), Disk::Awaited)?;
                Ok(None)
            }
            Err(SmfFault::TooLong) => Ok(Some(Stop::SongTooLong)),
            Err(SmfFault::Memory) => Err(NoMemory::Elsewhere),
        }
    }
}

impl Report for SmfReport<'_> {
    ghost use Rattle.orca_reports.specs.Songs.{SongSoFar, smf_manner};

    ghost Kept = { SongSoFar };

    ghost kept = { λ r. r };

    ghost manner = { smf_manner };

    fn hands(&self) -> bool {
        false
    }

    #[tactic(auto, using(orca_course::proofs::WorldLemmas::called_still, crate::proofs::DoneLemmas::unsaid))]
    fn tell<M: Machine, H: House>(
        &mut self,
        desk: &mut Desk<H>,
        _: &M,
        news: News<'_>,
    ) -> Result<Option<Stop>, NoMemory> {
        match news {
            News::Done {
                answer,
                messages,
                ..
            } => match answer {
                Ok(Reply::Framed { tick }) => Ok(record(&mut self.song, tick, messages)?),
                Err(Rule::HistoryFull) => {
                    self.song = None;
                    Ok(Some(Stop::Full))
                }
                Ok(_) | Err(_) => Ok(None),
            },
            News::Stands(_) => Ok(None),
            News::Closed(messages) => Ok(record(&mut self.song, self.end, messages)?),
            News::Last => self.save(desk),
        }
    }
}

/// Adds the MIDI messages of a tick. The song is given up, which ends the run, if its track is too
/// long.
fn record(
    song: &mut Option<Recorder>,
    tick: u32,
    messages: &[Message],
) -> Result<Option<Stop>, Memory>
    requires { All HasDataInRange messages.now }
    ensures song { OnOk result (song.new ≡ fold (added tick) song.old messages.now) }
    ensures loss { IfOk result (λ end. end ≡ loss song.old song.new) }
{
    let was_there = song.is_some();
    for message in messages {
        add(song, tick, message)?;
    }
    if was_there && song.is_none() {
        return Ok(Some(Stop::SongTooLong));
    }
    Ok(None)
}

/// Adds a message at a tick, if it is a MIDI message and the song was not given up.
#[tactic(auto, unfolding(crate::specs::Songs::added))]
fn add(song: &mut Option<Recorder>, tick: u32, message: &Message) -> Result<(), Memory>
    requires { HasDataInRange message.now }
    ensures { OnOk result (song.new ≡ added tick song.old message.now) }
{
    match midi_of(message) {
        Some(bytes) => add_bytes(song, tick, bytes),
        None => Ok(()),
    }
}

/// Adds a voice message of three bytes at a tick, if the song was not given up.
fn add_bytes(song: &mut Option<Recorder>, tick: u32, bytes: [u8; 3]) -> Result<(), Memory>
    requires { IsSongMessage bytes }
    ensures { OnOk result (song.new ≡ with_bytes tick bytes song.old) }
{
    let Some(recorder) = song else {
        return Ok(());
    };
    match recorder.add(tick, bytes) {
        Ok(()) => Ok(()),
        Err(SmfFault::TooLong) => {
            *song = None;
            Ok(())
        }
        Err(SmfFault::Memory) => Err(Memory),
    }
}
