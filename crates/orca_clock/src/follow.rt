//! A follower of a clock.

ghost use Rattle.std.specs.Prelude.{◌≡◌};
ghost use Rattle.orca_course.specs.Doing.{goes_of};
ghost use Rattle.orca_concert.specs.Stages.{StageDid, concert_at};
ghost use Rattle.orca_clock.specs.Clocked.{end_course};
ghost use Rattle.orca_clock.specs.Followers.{FollowDid, beat_course, clock_byte_course, follow_at_start, follow_residue, follow_state, hand_byte_course, with_pulse};

use crate::ending::end;
use crate::frame::do_frame;
use orca_base::Command;
use orca_concert::{Closes, Report, Stage, close_early};
use orca_course::{Desk, Ending, Item, NoMemory, Performer, Stop};
use orca_edit::Machine;
use orca_rig::House;
use orca_sync::{Beat, Follower};

/// The hand whose bytes are those of the clock.
const CLOCK: u8 = 0;

/// A session that plays by a clock that comes in. A contract outside sees its state
/// (`follow_state`), and no field.
#[derive(Drop)]
pub struct Follow<M, R> {
    /// The session, and what is printed of it.
    pub(crate) stage: Stage<M, R>,
    /// What the clock asks for.
    pub(crate) follower: Follower,
}

impl<M: Machine, R: Report> Follow<M, R> {
    /// A session that no clock has started so far.
    pub fn start(stage: Stage<M, R>) -> Follow<M, R>
        ensures state { follow_state M.Machine.own R.Report.own result
            ≡ follow_at_start (concert_at M.Machine.own R.Report.own stage) }
        ensures residue { follow_residue M.Machine.own result ≡ M.residue stage.machine }
    {
        Follow {
            stage,
            follower: Follower::start(),
        }
    }
}

impl<M: Machine, R: Report> Closes for Follow<M, R> {
    fn close_early<H: House>(&mut self, desk: &mut Desk<H>) -> Result<(), NoMemory> {
        close_early(&mut self.stage, desk)
    }
}

impl<M: Machine, R: Report> Performer for Follow<M, R> {
    ghost use Rattle.orca_clock.specs.Deaf.{follow_is_deaf, follow_is_steady};
    ghost use Rattle.orca_clock.specs.Followers.{Followed, follow_part, follow_residue, follow_state};

    ghost State = { Followed R.Kept };

    ghost state = { λ follow. follow_state M.Machine.own R.Report.own follow };

    ghost residue = { λ follow. follow_residue M.Machine.own follow };

    ghost part = { follow_part R.manner };

    fn until(&self) -> Option<u64> {
        None
    }

    #[tactic(auto, using(orca_course::proofs::WorldLemmas::called_still), unfolding(crate::specs::Followers::follow_course))]
    fn take<H: House>(&mut self, desk: &mut Desk<H>, item: Item) -> Result<Option<Stop>, NoMemory> {
        match item {
            Item::Byte { hand, byte, .. } => hear(self, desk, hand, byte),
            Item::Ended(ending) => {
                finish(self, desk, ending)?;
                Ok(None)
            }
            Item::Start | Item::Open(_) | Item::Due { .. } | Item::Settle | Item::Over(_) => {
                Ok(None)
            }
        }
    }

    ghost deaf = { follow_is_deaf R.manner };

    ghost steady = { follow_is_steady R.manner };
}

/// Does what the clock asks for.
#[tactic(auto, using(orca_course::proofs::WorldLemmas::called_still), unfolding(crate::specs::Followers::beat_course))]
fn do_beat<M: Machine, R: Report, H: House>(
    stage: &mut Stage<M, R>,
    desk: &mut Desk<H>,
    beat: Beat,
) -> Result<Option<Stop>, NoMemory>
    ensures { StageDid M.Machine.own R.Report.own (beat_course R.manner beat)
        stage.old desk.old result stage.new desk.new }
{
    match beat {
        Beat::Nothing => Ok(None),
        Beat::Frame => do_frame(stage, desk),
        Beat::Restart => stage.do_command(desk, 0, &Command::Reset),
    }
}

/// Does what a byte asks for.
fn do_byte<M: Machine, R: Report, H: House>(
    follow: &mut Follow<M, R>,
    desk: &mut Desk<H>,
    byte: u8,
) -> Result<Option<Stop>, NoMemory>
    ensures { FollowDid M.Machine.own R.Report.own (clock_byte_course R.manner byte)
        follow.old desk.old result follow.new desk.new }
{
    let beat = follow.follower.byte(byte);
    do_beat(&mut follow.stage, desk, beat)
}

/// Hears a byte. Those of other hands are dropped.
#[tactic(auto, using(orca_course::proofs::WorldLemmas::called_still), unfolding(crate::specs::Followers::hand_byte_course))]
fn hear<M: Machine, R: Report, H: House>(
    follow: &mut Follow<M, R>,
    desk: &mut Desk<H>,
    hand: u8,
    byte: u8,
) -> Result<Option<Stop>, NoMemory>
    ensures { FollowDid M.Machine.own R.Report.own (hand_byte_course R.manner hand byte)
        follow.old desk.old result follow.new desk.new }
{
    if hand != CLOCK {
        return Ok(None);
    }
    do_byte(follow, desk, byte)
}

/// Tells where the run stands at last, if the player has left, and ends every note.
fn finish<M: Machine, R: Report, H: House>(
    follow: &mut Follow<M, R>,
    desk: &mut Desk<H>,
    ending: Ending,
) -> Result<(), NoMemory>
    ensures { FollowDid M.Machine.own R.Report.own
        (λ s. with_pulse s.pulse (end_course R.manner ending s.concert))
        follow.old desk.old (goes_of result) follow.new desk.new }
{
    end(&mut follow.stage, desk, ending)
}
