ghost use Rattle.std.specs.Prelude.{◌≡◌, ◌+◌, ◌*◌, ◌≤◌, ◌++◌, All, IfOk, OnOk, drop, length};
ghost use Rattle.orca_base.specs.Ranges.{HasDataInRange};
ghost use Rattle.orca_wav.specs.declared.limits.TheConstants.{MAX_WAVE_BYTES, SAMPLE_BYTES};
ghost use Rattle.orca_wav.specs.Header.{header_bytes};
ghost use Rattle.orca_reports.specs.Waves.{samples_aside, frame_samples as samples_of_frame, wave_at_start};

use crate::listener::Listener;
use orca_base::{Memory, Message, Reply, Rule};
use orca_concert::{News, Report};
use orca_course::{Desk, NoMemory, Stop};
use orca_edit::Machine;
use orca_rig::{Disk, House};
use orca_wav::header;
use orca_wav::limits::{HEADER_BYTES, MAX_WAVE_BYTES, SAMPLE_BYTES, SLOWEST_FRAME_SAMPLES};
use std::alloc::Global;
use std::marker::Model;

/// The most samples of a file.
const MAX_SAMPLES: u32 = MAX_WAVE_BYTES / SAMPLE_BYTES as u32;

/// The report of `wav`: each frame is rendered after its messages, and the wave is saved at the end.
/// Nothing is printed or handed out. A full history ends the run.
#[derive(Drop)]
pub struct WavReport<'a> {
    // The voices, and how many samples there are.
    listener: Listener,
    // The file so far, with room for its header.
    file: Vec<u8>,
    // The samples of a frame.
    frame: u32,
    // The name of the file.
    out: &'a str,
}

impl<'a> Model for WavReport<'a> {
    ghost use Rattle.std.specs.Prelude.{◌*◌, ◌≤◌, drop, length};
    ghost use Rattle.orca_wav.specs.declared.limits.TheConstants.{HEADER_BYTES, MAX_WAVE_BYTES, SAMPLE_BYTES};
    ghost use Rattle.orca_reports.specs.Waves.{Wave};

    ghost Value = { Wave };

    ghost view = { λ w. record {
      out = w.out.now;
      frame = w.frame;
      rendering = w.listener;
      bytes = drop HEADER_BYTES w.file.items;
    } };

    ghost invariant = { λ w. (HEADER_BYTES ≤ length w.file.items)
        × (SAMPLE_BYTES * w.listener.samples ≤ MAX_WAVE_BYTES) };
}

/// The bytes of the samples of so many frames at so many beats a minute, 1 or more.
pub fn wave_bytes(bpm: u16, frames: u32) -> u64
    requires { 1 ≤ bpm }
    ensures { result ≡ SAMPLE_BYTES * (frames * samples_of_frame bpm) }
{
    u64::from(SAMPLE_BYTES) * (u64::from(frames) * u64::from(frame_samples(bpm)))
}

/// The samples of a frame at so many beats a minute, 1 or more.
fn frame_samples(bpm: u16) -> u32
    requires { 1 ≤ bpm }
    ensures { result ≡ samples_of_frame bpm }
{
    SLOWEST_FRAME_SAMPLES / u32::from(bpm)
}

impl<'a> WavReport<'a> {
    /// The report of a run of so many frames at so many beats a minute, 1 or more, which is saved
    /// under a name. The room for the whole file is taken; [`Memory`] if it is refused.
    pub fn start(
        alloc: Global,
        bpm: u16,
        frames: u32,
        out: &'a str,
    ) -> Result<WavReport<'a>, Memory>
        requires bpm { 1 ≤ bpm }
        requires short { SAMPLE_BYTES * (frames * samples_of_frame bpm) ≤ MAX_WAVE_BYTES }
        ensures { IfOk result (λ report. report ≡ wave_at_start out.now bpm) }
    {
        let frame = frame_samples(bpm);
        let mut file = Vec::from_slice(alloc, &[0; HEADER_BYTES])?;
        file.reserve(usize::from(SAMPLE_BYTES) * (frames * frame) as usize)?;
        Ok(WavReport {
            listener: Listener::start(alloc)?,
            file,
            frame,
            out,
        })
    }

    /// Takes the messages of a frame, and renders its samples. A wave that is too long ends the run.
    fn play(&mut self, messages: &[Message]) -> Result<Option<Stop>, Memory>
        requires { All HasDataInRange messages.now }
        ensures ending { IfOk result (λ end. end ≡ (samples_aside messages.now self.old).ending) }
        ensures state { OnOk result (self.new ≡ (samples_aside messages.now self.old).state) }
    {
        if self.frame > MAX_SAMPLES - self.listener.samples() {
            return Ok(Some(Stop::WaveTooLong));
        }
        self.listener.hear(messages)?;
        self.listener.render(self.frame, &mut self.file)?;
        Ok(None)
    }
}

impl Report for WavReport<'_> {
    ghost use Rattle.orca_reports.specs.Waves.{Wave, wav_manner};

    ghost Kept = { Wave };

    ghost kept = { λ w. w };

    ghost manner = { wav_manner };

    fn hands(&self) -> bool {
        false
    }

    #[tactic(auto, using(orca_course::proofs::WorldLemmas::called_still, crate::proofs::DoneLemmas::unsaid))]
    fn tell<M: Machine, H: House>(
        &mut self,
        desk: &mut Desk<H>,
        _: &M,
        news: News<'_>,
    ) -> Result<Option<Stop>, NoMemory> {
        match news {
            News::Done {
                answer,
                messages,
                ..
            } => match answer {
                Ok(Reply::Framed { .. }) => Ok(self.play(messages)?),
                Err(Rule::HistoryFull) => Ok(Some(Stop::Full)),
                Ok(_) | Err(_) => Ok(None),
            },
            News::Stands(_) | News::Closed(_) => Ok(None),
            News::Last => {
                put_header(self.listener.samples(), &mut self.file);
                desk.save(self.out, self.file.as_slice(), Disk::Awaited)?;
                Ok(None)
            }
        }
    }
}

/// Writes the header of so many samples into its room at the front of a file.
#[tactic(auto, using(crate::proofs::DoneLemmas::written))]
fn put_header(samples: u32, file: &mut Vec<u8>)
    requires room { HEADER_BYTES ≤ length file.old.items }
    requires short { SAMPLE_BYTES * samples ≤ MAX_WAVE_BYTES }
    ensures { file.new.items
        ≡ header_bytes (SAMPLE_BYTES * samples) ++ drop HEADER_BYTES file.old.items }
{
    let header = header(u32::from(SAMPLE_BYTES) * samples);
    put_front(&header, file);
}

/// Writes bytes over the first ones of a file.
fn put_front(front: &[u8], file: &mut [u8])
    requires { length front.now ≤ length file.old }
    ensures { file.new ≡ front.now ++ drop (length front.now) file.old }
{
    file[..front.len()].copy_from_slice(front);
}
